//! Laws of what is sent. Each is a contract without a call, so its body is empty.

ghost use Rattle.dz_query.specs.Laws.{ComesBack};

/// A zone that is sent comes back: its records, no more and no fewer.
pub fn sent_zones_come_back()
    ensures { ComesBack }
{}
