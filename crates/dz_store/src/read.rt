//! The kept zone of which a payload is written.

ghost use Rattle.std.specs.Prelude.{◌≡◌, [], None, option_map, IfOk, OnOk};
ghost use Rattle.std.specs.Arc.{arc_value};
ghost use Rattle.dz_message.specs.Frame.{messages_in};
ghost use Rattle.dz_take.specs.Outcome.{decided};
ghost use Rattle.dz_store.specs.Kept.{meaning_of};
ghost use Rattle.dz_store.specs.Payload.{kept_of, version_in};
ghost use Rattle.dz_store.specs.inner.Reading.{HasRead};

use crate::head::head_of;
use crate::kept::Kept;
use crate::written::is_written_of;
use dz_message::next_frame;
use dz_name::Name;
use dz_take::{Ask, Outcome, Progress, Taking};
use dz_zone::Version;
use std::alloc::{AllocError, Global};
use std::sync::Arc;

/// The kept zone of which a payload is written. `AllocError` where memory runs out.
pub(crate) fn kept_of(alloc: Global, payload: &[u8]) -> Result<Option<Kept>, AllocError>
    ensures { IfOk result (λ o. option_map meaning_of o ≡ kept_of payload.now) }
{
    let Some(head) = head_of(payload) else {
        return Ok(None);
    };
    let Some(version) = version_in(alloc, head.zone, head.stream)? else {
        return Ok(None);
    };
    let kept = Kept {
        zone: head.zone,
        catalog: head.catalog,
        label: head.label,
        refreshed: head.refreshed,
        version,
    };
    if is_written_of(alloc, &kept, payload)? {
        Ok(Some(kept))
    } else {
        Ok(None)
    }
}

/// The version of a zone whose stream some octets are. `AllocError` where memory runs out.
fn version_in(alloc: Global, zone: Name, octets: &[u8]) -> Result<Option<Arc<Version>>, AllocError>
    ensures { IfOk result (λ o. option_map arc_value o ≡ version_in zone octets.now) }
{
    let mut taking = Taking::start(alloc, zone, Ask::Axfr, 0, None);
    read_frames(&mut taking, octets)?;
    let finished = taking.finish()?;
    match finished.outcome() {
        Outcome::New(version) => Ok(Some(Arc::try_clone(version)?)),
        Outcome::UpToDate => Ok(None),
        Outcome::Refused(_) => Ok(None),
    }
}

/// Reads the messages of whole frames, until something is decided. `AllocError` where memory runs out.
fn read_frames(taking: &mut Taking, octets: &[u8]) -> Result<(), AllocError>
    requires nothing { taking.old.octets ≡ [] }
    requires undecided { decided taking.old.transfer (messages_in taking.old.octets) ≡ None }
    ensures transfer { OnOk result (taking.new.transfer ≡ taking.old.transfer) }
    ensures read { OnOk result (HasRead taking.old.transfer octets.now taking.new.octets) }
{
    let mut at = 0;
    'frames: while let Some((begin, end)) = next_frame(octets, at) {
        match taking.feed(&octets[begin..end])? {
            Progress::Ended => return Ok(()),
            Progress::More => at = end,
        }
    }
    Ok(())
}
