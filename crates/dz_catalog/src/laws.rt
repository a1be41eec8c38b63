//! Laws of listings. Each is a contract without a call, so its body is empty.

ghost use Rattle.dz_catalog.specs.Laws.{OrderIsFree};

/// What a catalog lists, or why it is broken, doesn't depend on the order of its records.
pub fn order_is_free()
    ensures { OrderIsFree }
{}
