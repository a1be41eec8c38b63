//! What is written of kept and of forgotten zones.

ghost use Rattle.std.specs.Prelude.{◌≡◌, ◌<◌, ◌^◌, ◌++◌, ◌⊎◌, false, IfOk, IfErr, IfSome, OnOk};
ghost use Rattle.std.specs.Arc.{arc_value};
ghost use Rattle.dz_name.specs.Name.{IsLabel, IsName};
ghost use Rattle.dz_message.specs.Frame.{stream};
ghost use Rattle.dz_message.specs.Piece.{written};
ghost use Rattle.dz_outward.specs.Stream.{is_fit};
ghost use Rattle.dz_store.specs.Kept.{CanBeKept, eight, forgotten, head_octets, label_octets, meaning_of, payload_of};

use crate::fault::StoreFault;
use crate::kept::Kept;
use dz_header::Writer;
use dz_message::push_frame;
use dz_name::{Label, Name};
use dz_outward::Outgoing;
use std::alloc::{AllocError, Global};
use std::sync::Arc;

/// Moments are below 2^40.
pub(crate) const MOMENTS: u64 = 1 << 40;

/// The payload of a kept zone.
///
/// # Errors
///
/// `Unfit` exactly where the version can't be sent, unless memory runs out.
pub(crate) fn payload_of(alloc: Global, kept: &Kept) -> Result<Vec<u8>, StoreFault>
    requires zone { (arc_value kept.now.version).apex ≡ kept.now.zone }
    requires moment { kept.now.refreshed < 2 ^ 40 }
    ensures payload { IfOk result (λ v. v.items ≡ payload_of (meaning_of kept.now)) }
    ensures can { OnOk result (CanBeKept (meaning_of kept.now)) }
    ensures unfit { IfErr result (λ e. (e ≡ StoreFault.OutOfMemory)
        ⊎ ((e ≡ StoreFault.Unfit) × (is_fit (arc_value kept.now.version) ≡ false))) }
{
    let version = Arc::try_clone(&kept.version)?;
    let outgoing = match Outgoing::start(version, 0) {
        Ok(outgoing) => outgoing,
        Err(_) => return Err(StoreFault::Unfit),
    };
    let mut payload = head_octets(alloc, kept)?;
    let mut writer = Writer::new(alloc)?;
    push_stream(outgoing, &mut writer, &mut payload)?;
    Ok(payload)
}

/// What the payload of a kept zone has before the version. `AllocError` where memory runs out.
pub(crate) fn head_octets(alloc: Global, kept: &Kept) -> Result<Vec<u8>, AllocError>
    ensures head { IfOk result (λ v. v.items ≡ head_octets (meaning_of kept.now)) }
    ensures names { OnOk result (IsName kept.now.zone × IsName kept.now.catalog) }
    ensures label { OnOk result (IfSome kept.now.label (λ label. IsLabel label)) }
{
    let mut head = Vec::new(alloc);
    head.push(1)?;
    head.extend_from_slice(kept.zone.wire())?;
    head.extend_from_slice(kept.catalog.wire())?;
    push_label(&kept.label, &mut head)?;
    head.extend_from_slice(&eight(kept.refreshed))?;
    Ok(head)
}

/// Adds a label preceded by its length, or one octet 0. `AllocError` where memory runs out.
fn push_label(label: &Option<Label>, out: &mut Vec<u8>) -> Result<(), AllocError>
    ensures octets { OnOk result (out.new.items ≡ out.old.items ++ label_octets label.now) }
    ensures label { OnOk result (IfSome label.now (λ label. IsLabel label)) }
{
    match label {
        None => out.push(0)?,
        Some(label) => {
            let octets = label.octets();
            out.push(octets.len() as u8)?;
            out.extend_from_slice(octets)?;
        }
    }
    Ok(())
}

/// A number in eight octets.
fn eight(number: u64) -> [u8; 8]
    ensures { result ≡ eight number }
{
    number.to_be_bytes()
}

/// Adds messages, each preceded by its length. `AllocError` where memory runs out.
fn push_stream(outgoing: Outgoing, writer: &mut Writer, out: &mut Vec<u8>) -> Result<(), AllocError>
    ensures { OnOk result (out.new.items ≡ out.old.items ++ stream (written outgoing)) }
{
    let mut outgoing = outgoing;
    'messages: while let Some(count) = outgoing.next(writer) {
        push_frame(out, writer.first(count))?;
    }
    Ok(())
}

/// The payload of a forgotten zone. `AllocError` where memory runs out.
pub(crate) fn forgotten(alloc: Global, zone: &Name) -> Result<Vec<u8>, AllocError>
    ensures payload { IfOk result (λ v. v.items ≡ forgotten zone.now) }
    ensures zone { IsName zone.now }
{
    let wire = zone.wire();
    let mut payload = Vec::new(alloc);
    payload.push(2)?;
    payload.extend_from_slice(wire)?;
    Ok(payload)
}
