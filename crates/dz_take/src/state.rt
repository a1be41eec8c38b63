//! The answer records of a transfer, message by message.

ghost use Rattle.std.specs.Prelude.{◌≡◌, ◌==◌, ◌∷◌, ◌++◌, IfOk, option_map, true};
ghost use Rattle.dz_record.specs.Records.{distinct};
ghost use Rattle.dz_zone.specs.Valid.{fault_of};
ghost use Rattle.dz_xfr.specs.Apex.{is_apex_soa, serial_of, held_serial};
ghost use Rattle.dz_xfr.specs.Feeding.{IsOpen};
ghost use Rattle.dz_axfr.specs.Whole.{IsWhole};
ghost use Rattle.dz_axfr.specs.Whole as whole_form;
ghost use Rattle.dz_ixfr.specs.Incremental.{IsIncremental};
ghost use Rattle.dz_ixfr.specs.Incremental as incremental_form;
ghost use Rattle.dz_take.specs.Form.{is_old_soa, checked};
ghost use Rattle.dz_xfr.specs.declared.fault.ShapeFault.TheVariants.{NotSoaFirst, SerialGap};
ghost use Rattle.dz_take.specs.declared.outcome.TakeFault.TheVariants as faults;
ghost use Rattle.dz_take.specs.Taken.{meaning_of};
ghost use Rattle.dz_take.specs.Transfer.{refused};
ghost use Rattle.dz_take.specs.inner.Following.{Opens, IsWholeKind, IsIncrementalKind, Reads, records_in, IsUndecided};
ghost use Rattle.dz_take.specs.inner.Following.{Refuses, IsBase, serial_settles};

use crate::outcome::{Outcome, TakeFault};
use crate::transfer::Transfer;
use dz_axfr::Whole;
use dz_ixfr::Differences;
use dz_name::Name;
use dz_record::Rr;
use dz_serial::newer;
use dz_xfr::{FeedError, Progress, ShapeFault, apex_serial, held_serial};
use dz_zone::{Revision, Version, ZoneError, check};
use std::alloc::{AllocError, Global};
use std::sync::Arc;

/// Where the answer records have led.
#[derive(Drop)]
pub(crate) enum State {
    /// No record was read.
    Waiting,
    /// One was read, and the form isn't known.
    First(Rr),
    Whole(Whole),
    Differences(Differences),
    /// Something is decided.
    Ended(Outcome),
}

/// Reads the answer records of one more message. `AllocError` where memory runs out.
pub(crate) fn feed(
    alloc: Global,
    transfer: &Transfer,
    state: State,
    records: Vec<Rr>,
) -> Result<State, AllocError>
    requires { IsUndecided transfer.now state }
    ensures { IfOk result (Reads transfer.now (records_in state ++ records.items)) }
{
    match state {
        State::Waiting => begin(alloc, transfer, records),
        State::First(first) => begin_form(alloc, transfer, first, records),
        State::Whole(whole) => feed_whole(alloc, transfer, whole, records),
        State::Differences(differences) => feed_differences(alloc, transfer, differences, records),
        State::Ended(_) => unreachable!(),
    }
}

/// Reads the first answer records of a transfer. `AllocError` where memory runs out.
fn begin(alloc: Global, transfer: &Transfer, mut records: Vec<Rr>) -> Result<State, AllocError>
    ensures { IfOk result (Reads transfer.now records.items) }
{
    if records.is_empty() {
        return Ok(State::Ended(not_soa_first()));
    }
    let first = records.remove(0);
    match apex_serial(transfer.apex(), &first) {
        None => Ok(State::Ended(not_soa_first())),
        Some(serial) => match settled(transfer, serial) {
            Some(outcome) => Ok(State::Ended(outcome)),
            None => begin_form(alloc, transfer, first, records),
        },
    }
}

/// The outcome where the first record isn't an SOA of the apex.
fn not_soa_first() -> Outcome
    ensures { meaning_of result ≡ refused (faults.Shape NotSoaFirst) }
{
    Outcome::Refused(TakeFault::Shape(ShapeFault::NotSoaFirst))
}

/// The outcome that the serial of the first SOA settles against the held version, if it does.
fn settled(transfer: &Transfer, serial: u32) -> Option<Outcome>
    ensures { serial_settles transfer.now.held serial ≡ option_map meaning_of result }
{
    let version = transfer.held()?;
    let held = held_serial(version);
    if serial == held {
        Some(Outcome::UpToDate)
    } else if newer(held, serial) {
        None
    } else {
        Some(Outcome::Refused(TakeFault::OldSerial(serial)))
    }
}

/// Begins a form that this SOA opens, and reads the records after it. Differences that don't lead on from the held
/// version are refused before its records are looked at. `AllocError` where memory runs out.
fn begin_form(
    alloc: Global,
    transfer: &Transfer,
    first: Rr,
    records: Vec<Rr>,
) -> Result<State, AllocError>
    requires { Opens transfer.now first }
    ensures { IfOk result (Reads transfer.now (first ∷ records.items)) }
{
    match records.first() {
        None => Ok(State::First(first)),
        Some(second) => match differences_base(transfer, &first, second) {
            Some(version) => {
                if !leads_from(transfer.apex(), version, second) {
                    return Ok(State::Ended(serial_gap()));
                }
                let differences = Differences::start(alloc, version.clone()?, first)?;
                feed_differences(alloc, transfer, differences, records)
            }
            None => {
                let whole = Whole::start(alloc, first)?;
                feed_whole(alloc, transfer, whole, records)
            }
        },
    }
}

/// The version that differences lead on from, where the second record begins them.
fn differences_base<'a>(transfer: &'a Transfer, first: &Rr, second: &Rr) -> Option<&'a Arc<Version>>
    requires { is_apex_soa transfer.now.apex first.now ≡ true }
    ensures { IsBase transfer.now first.now second.now (option_map (λ r. r.now.value) result) }
{
    match transfer.base() {
        Some(version) if is_old_soa(transfer.apex(), first, second) => Some(version),
        _ => None,
    }
}

/// Whether the second record is an SOA of the apex with another serial than the first.
fn is_old_soa(apex: &Name, first: &Rr, second: &Rr) -> bool
    requires { is_apex_soa apex.now first.now ≡ true }
    ensures { result ≡ is_old_soa apex.now first.now second.now }
{
    match (apex_serial(apex, first), apex_serial(apex, second)) {
        (Some(new), Some(old)) => old != new,
        _ => false,
    }
}

/// Whether an SOA of the apex, with which differences begin, has the serial of the version.
fn leads_from(apex: &Name, version: &Version, old: &Rr) -> bool
    requires { is_apex_soa apex.now old.now ≡ true }
    ensures { result ≡ (serial_of old.now == held_serial version.now) }
{
    match apex_serial(apex, old) {
        Some(serial) => serial == held_serial(version),
        None => false,
    }
}

/// The outcome where an SOA has another serial than it must have at its place.
fn serial_gap() -> Outcome
    ensures { meaning_of result ≡ refused (faults.Shape SerialGap) }
{
    Outcome::Refused(TakeFault::Shape(ShapeFault::SerialGap))
}

/// Reads further records of the whole form. `AllocError` where memory runs out.
fn feed_whole(
    alloc: Global,
    transfer: &Transfer,
    whole: Whole,
    records: Vec<Rr>,
) -> Result<State, AllocError>
    requires apex { whole.apex ≡ transfer.now.apex }
    requires is_open { IsOpen (IsWhole whole.apex) whole_form.Blames whole.fed }
    requires kind { IsWholeKind transfer.now (whole.fed ++ records.items) }
    ensures { IfOk result (Reads transfer.now (whole.fed ++ records.items)) }
{
    match whole.feed(records) {
        Ok((whole, progress)) => match progress {
            Progress::More => Ok(State::Whole(whole)),
            Progress::Ended => Ok(State::Ended(settle(alloc, transfer.apex(), whole.finish())?)),
        },
        Err(error) => Ok(State::Ended(refuse(error)?)),
    }
}

/// Reads further records of the incremental form. `AllocError` where memory runs out.
fn feed_differences(
    alloc: Global,
    transfer: &Transfer,
    differences: Differences,
    records: Vec<Rr>,
) -> Result<State, AllocError>
    requires is_open { IsOpen (IsIncremental differences.held)
        (incremental_form.Blames differences.held.apex) differences.fed }
    requires kind { IsIncrementalKind transfer.now differences.held
        (differences.fed ++ records.items) }
    ensures { IfOk result (Reads transfer.now (differences.fed ++ records.items)) }
{
    match differences.feed(records) {
        Ok((differences, progress)) => match progress {
            Progress::More => Ok(State::Differences(differences)),
            Progress::Ended => Ok(State::Ended(settle_revision(alloc, differences.finish())?)),
        },
        Err(error) => Ok(State::Ended(refuse(error)?)),
    }
}

/// The version that the records of a complete form make, or their first fault. `AllocError` where memory runs out.
fn settle(alloc: Global, apex: &Name, records: Vec<Rr>) -> Result<Outcome, AllocError>
    ensures { IfOk result (λ o. meaning_of o
        ≡ checked apex.now records.items (fault_of apex.now (distinct records.items))) }
{
    match check(alloc, apex, records) {
        Ok(version) => Ok(Outcome::New(Arc::new(alloc, version)?)),
        Err(ZoneError::Fault(fault)) => Ok(Outcome::Refused(TakeFault::Zone(fault))),
        Err(ZoneError::OutOfMemory) => Err(AllocError),
    }
}

/// The version that the records make which differences have led to, or their first fault. `AllocError` where memory
/// runs out.
fn settle_revision(alloc: Global, revision: Revision) -> Result<Outcome, AllocError>
    ensures { IfOk result (λ o. meaning_of o ≡ checked revision.base.apex revision.records
        (fault_of revision.base.apex (distinct revision.records))) }
{
    match revision.check(alloc) {
        Ok(version) => Ok(Outcome::New(Arc::new(alloc, version)?)),
        Err(ZoneError::Fault(fault)) => Ok(Outcome::Refused(TakeFault::Zone(fault))),
        Err(ZoneError::OutOfMemory) => Err(AllocError),
    }
}

/// The outcome that an assembler's fault makes. `AllocError` where memory ran out.
fn refuse(error: FeedError) -> Result<Outcome, AllocError>
    ensures { IfOk result (λ o. Refuses error o) }
{
    match error {
        FeedError::Shape(fault) => Ok(Outcome::Refused(TakeFault::Shape(fault))),
        FeedError::OutOfMemory => Err(AllocError),
    }
}
