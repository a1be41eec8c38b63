//! Laws of the incremental form. Each is a contract without a call, so its body is empty.

ghost use Rattle.dz_ixfr.specs.Changes.{ChangesAll};
ghost use Rattle.dz_ixfr.specs.Laws.{ReadingStands, NothingElse};

/// What the reading of the incremental form says of a list of records is what holds of the list, and nothing else does.
pub fn incremental_form()
    ensures stands { ReadingStands }
    ensures once { NothingElse }
{}

/// What the incremental form makes of held records: each added record that isn't deleted again is there, each deleted
/// one that isn't added again is gone, and every other record but the SOA remains as it was.
pub fn changes_tell()
    ensures { ChangesAll }
{}
