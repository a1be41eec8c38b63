//! Laws of the streams of versions. Each is a contract without a call, so its body is empty.

ghost use Rattle.dz_outward.specs.Laws.{ComesBack};

/// What is sent of a version is what a secondary that transfers it gets: its records, no more and no fewer.
pub fn comes_back()
    ensures { ComesBack }
{}
