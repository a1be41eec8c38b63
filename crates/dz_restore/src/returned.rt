//! What is given back to a zone.

ghost use Rattle.std.specs.Prelude.{◌≡◌, ◌++◌, Some, false, true, option_map, slice_get, IfOk, OnOk};
ghost use Rattle.std.specs.Option.{option_map_or, option_eq};
ghost use Rattle.std.specs.Str.{bytes_eq};
ghost use Rattle.std.specs.Arc.{arc_value};
ghost use Rattle.dz_history.specs.Places.{seats};
ghost use Rattle.dz_job.specs.Job.{transfer_for};
ghost use Rattle.dz_message.specs.Frame.{stream};
ghost use Rattle.dz_message.specs.Piece.{written};
ghost use Rattle.dz_outward.specs.Stream.{is_fit};
ghost use Rattle.dz_store.specs.Kept.{meaning_of};
ghost use Rattle.dz_job.specs.Stream.{IsReadOf};
ghost use Rattle.dz_fleet.specs.Core.{state_of};
ghost use Rattle.dz_restore.specs.Restoring.{home_at, is_home, may_return, sent_with};

use dz_fleet::{Fleet, Job};
use dz_header::Writer;
use dz_job::take_stream;
use dz_message::push_frame;
use dz_name::{Label, Name};
use dz_outward::{Outgoing, is_fit};
use dz_store::Kept;
use dz_take::Finished;
use dz_zone::Version;
use std::alloc::{AllocError, Global};
use std::sync::Arc;

/// The zone at a place: catalogs are in the order of the configuration, and then members in canonical order.
pub fn zone_at(fleet: &Fleet, place: usize) -> Option<Name>
    ensures { result ≡ option_map (λ s. s.zone) (slice_get (seats (state_of fleet.now)) place) }
{
    let fold = fleet.fold();
    let catalogs = fold.catalogs().len();
    if place < catalogs {
        return Some(fold.settings(place).name);
    }
    if place - catalogs < fold.count() {
        Some(fold.member(place - catalogs).zone().to_name())
    } else {
        None
    }
}

/// Whether a kept version may be given back by a job.
pub fn may_return(fleet: &Fleet, job: &Job, kept: &Kept) -> bool
    ensures { result ≡ may_return (state_of fleet.now) job.now (meaning_of kept.now) }
{
    is_home(fleet, job.zone(), kept) && (!job.key().is_some() && is_fit(&kept.version))
}

/// Whether a zone was kept where it belongs.
fn is_home(fleet: &Fleet, zone: &Name, kept: &Kept) -> bool
    ensures { result ≡ option_map_or (is_home (meaning_of kept.now))
        (home_at (state_of fleet.now) zone.now) false }
{
    let fold = fleet.fold();
    if fold.catalog_number(zone).is_some() {
        return kept.catalog.same(zone) && kept.label.is_none();
    }
    match fold.find(zone) {
        None => false,
        Some(member) => {
            kept.catalog.same(member.catalog()) && has_label(&kept.label, member.label())
        }
    }
}

/// Whether a label is there, and is this one.
fn has_label(kept: &Option<Label>, label: &Label) -> bool
    ensures { result ≡ option_eq bytes_eq kept.now (Some label.now) }
{
    match kept {
        None => false,
        Some(kept) => kept == label,
    }
}

/// What came of a kept version, as if it were the transfer that a job asked for.
///
/// # Errors
///
/// `AllocError` where memory runs out.
pub fn finished_of(alloc: Global, job: &Job, kept: &Kept) -> Result<Finished, AllocError>
    requires { is_fit (arc_value kept.now.version) ≡ true }
    ensures transfer { IfOk result (λ f. f.transfer ≡ transfer_for job.now) }
    ensures read { IfOk result (λ f. IsReadOf (transfer_for job.now)
        (sent_with job.now.flight.id (meaning_of kept.now).version) f.octets) }
{
    let octets = stream_of(alloc, &kept.version, job.id())?;
    take_stream(alloc, job, &octets)
}

/// The stream of a version as it is sent with an ID. `AllocError` where memory runs out.
fn stream_of(alloc: Global, version: &Arc<Version>, id: u16) -> Result<Vec<u8>, AllocError>
    requires { is_fit version.now.value ≡ true }
    ensures { IfOk result (λ octets. octets.items ≡ sent_with id version.now.value) }
{
    let Ok(outgoing) = Outgoing::start(Arc::try_clone(version)?, id) else {
        unreachable!()
    };
    let mut octets = Vec::new(alloc);
    push_stream(outgoing, &mut Writer::new(alloc)?, &mut octets)?;
    Ok(octets)
}

/// Adds messages, each preceded by its length. `AllocError` where memory runs out.
fn push_stream(outgoing: Outgoing, writer: &mut Writer, out: &mut Vec<u8>) -> Result<(), AllocError>
    ensures { OnOk result (out.new.items ≡ out.old.items ++ stream (written outgoing)) }
{
    let mut outgoing = outgoing;
    'messages: while let Some(count) = outgoing.next(writer) {
        push_frame(out, writer.first(count))?;
    }
    Ok(())
}
