//! What a crash leaves of a list of records. Each is a contract without a call, so its body is empty.

ghost use Rattle.dz_disk.specs.Laws.{OneJoins, SeveralJoin};

/// What a crash leaves while a record is added to a list is opened as that list, or as the list with the record.
pub fn one_joins()
    ensures { OneJoins }
{}

/// What a crash leaves while records are added to a list, one after another, is opened as the list with the first of
/// them.
pub fn several_join()
    ensures { SeveralJoin }
{}
