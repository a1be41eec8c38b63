//! Laws of the generated script. Each is a contract without a call, so its body is empty.

ghost use Rattle.dz_rehearsal.specs.Life.{Fits, Lists, Members, TransfersHappen};

/// What the catalog lists before and after its change.
pub fn catalog_lists(number: u16)
    ensures { Lists number }
{}

/// Which members there are after each of these listings.
pub fn listings_make_members(number: u16, position: u64)
    ensures { Members number position }
{}

/// At each transfer of the script the job that is due is the one whose ticket the line names, and no other is in flight.
pub fn transfers_happen(number: u16)
    ensures { TransfersHappen number }
{}

/// The script is within the limit of a script.
pub fn script_fits(number: u16)
    ensures { Fits number }
{}
