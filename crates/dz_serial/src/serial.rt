//! Serial numbers, modulo 2^32.
ghost use Rattle.std.specs.Prelude.{◌≡◌, ◌<◌, ◌^◌};
ghost use Rattle.dz_serial.specs.Serial.{is_newer, sum};

/// Half of the serial number space, 2^31.
const HALF: u32 = 0x8000_0000;

/// Whether `b` is newer than `a` (RFC 1982 section 3.2). At a distance of exactly 2^31 neither is.
pub fn newer(a: u32, b: u32) -> bool
    ensures { result ≡ is_newer a b }
{
    let ahead = b.wrapping_sub(a);
    0 < ahead && ahead < HALF
}

/// A serial number plus `n`, modulo 2^32 (RFC 1982 section 3.1).
pub fn add(serial: u32, n: u32) -> u32
    requires { n < 2 ^ 31 }
    ensures { result ≡ sum serial n }
{
    serial.wrapping_add(n)
}
