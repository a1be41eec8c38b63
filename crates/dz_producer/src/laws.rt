//! Laws of catalogs that are made. Each is a contract without a call, so its body is empty.

ghost use Rattle.dz_producer.specs.Laws.{LeadsOn, ListsItsNodes, StandsGood};

/// A catalog that is made lists its nodes.
pub fn lists_its_nodes()
    ensures { ListsItsNodes }
{}

/// The digest of a catalog that is made verifies it.
pub fn stands_good()
    ensures { StandsGood }
{}

/// A difference that is made leads from the catalog that was changed to the one after the change.
pub fn leads_on()
    ensures { LeadsOn }
{}
