//! Laws of serial numbers (RFC 1982 section 3). Each is a contract without a call, so its body is empty.
ghost use Rattle.dz_serial.specs.Serial.{NeverItself, NeitherHalfWay, NeverBoth, SumsAreNewer};

/// No serial number is newer than itself.
pub fn never_itself()
    ensures { NeverItself }
{}

/// Of two serial numbers at a distance of exactly 2^31 neither is newer.
pub fn neither_half_way()
    ensures { NeitherHalfWay }
{}

/// Of two serial numbers only one is newer than the other.
pub fn never_both()
    ensures { NeverBoth }
{}

/// Adding at least 1 and less than 2^31 to a serial number makes a newer one.
pub fn sums_are_newer()
    ensures { SumsAreNewer }
{}
