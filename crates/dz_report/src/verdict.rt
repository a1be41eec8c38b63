//! The lines of a verdict.

ghost use Rattle.std.specs.Prelude.{◌≡◌, ◌++◌, codes, decimal, is_ok, if◌then◌else◌, IfOk, OnOk};
ghost use Rattle.std.specs.List.{flat_map};
ghost use Rattle.dz_name.specs.Text.{text_of};
ghost use Rattle.dz_report.specs.Lines.{also, end, standing_word, broken_word, holder_text, change_text, change_line};
ghost use Rattle.dz_report.specs.Lines.{aftermath_lines, verdict_lines};

use crate::reason::reason_of;
use dz_history::Aftermath;
use dz_job::Verdict;
use dz_member::{Broken, Change, Changes, What};
use dz_name::Name;
use dz_take::Standing;
use itoa::Buffer;
use std::alloc::{AllocError, Global};

/// Appends the lines of a verdict about a zone.
///
/// # Errors
///
/// `AllocError` where memory runs out; `out` is then left as it was.
pub fn verdict_lines(
    alloc: Global,
    zone: &Name,
    verdict: &Verdict,
    out: &mut Vec<u8>,
) -> Result<(), AllocError>
    ensures { out.new.items ≡ (if is_ok result
        then out.old.items ++ verdict_lines zone.now verdict.now else out.old.items) }
{
    let text = verdict_text(alloc, zone, verdict)?;
    let before = out.len();
    match out.extend_from_slice(text.as_slice()) {
        Ok(()) => Ok(()),
        Err(error) => {
            out.truncate(before);
            Err(error)
        }
    }
}

/// The lines of a verdict. `AllocError` where memory runs out.
fn verdict_text(alloc: Global, zone: &Name, verdict: &Verdict) -> Result<Vec<u8>, AllocError>
    ensures { IfOk result (λ text. text.items ≡ verdict_lines zone.now verdict.now) }
{
    let mut text = Vec::new(alloc);
    put_verdict(alloc, zone, verdict, &mut text)?;
    Ok(text)
}

/// Puts the lines of a verdict. `AllocError` where memory runs out.
fn put_verdict(
    alloc: Global,
    zone: &Name,
    verdict: &Verdict,
    text: &mut Vec<u8>,
) -> Result<(), AllocError>
    ensures { OnOk result (text.new.items ≡ text.old.items ++ verdict_lines zone.now verdict.now) }
{
    match verdict {
        Verdict::Published {
            position,
            serial,
            aftermath,
        } => {
            put_taken(text, b"published", *position, zone, *serial)?;
            put_aftermath(text, zone, aftermath)?;
            Ok(())
        }
        Verdict::Confirmed { position, serial } => {
            put_taken(text, b"confirmed", *position, zone, *serial)
        }
        Verdict::Refused(fault) => {
            put_zone_line(text, b"refused", zone, reason_of(alloc, fault)?.as_slice())
        }
        Verdict::PolicyRefused(standing) => {
            put_zone_line(text, b"policy", zone, standing_word(*standing))
        }
        Verdict::Stale(position) => put_stale(text, zone, *position),
        Verdict::OutOfMemory => put_memory(text, zone),
    }
}

/// Puts `<word> <position> <zone> <serial>`. `AllocError` where memory runs out.
fn put_taken(
    text: &mut Vec<u8>,
    word: &[u8],
    position: u64,
    zone: &Name,
    serial: u32,
) -> Result<(), AllocError>
    ensures { OnOk result (text.new.items
        ≡ text.old.items ++ end (also (also (also word.now (decimal position)) (text_of zone.now))
        (decimal serial))) }
{
    let mut digits = Buffer::new();
    text.extend_from_slice(word)?;
    put(text, digits.format(position).as_bytes())?;
    put(text, zone.print().as_bytes())?;
    put(text, digits.format(serial).as_bytes())?;
    text.push(b'\n')?;
    Ok(())
}

/// Puts `<word> <zone> <behind>` as a line. `AllocError` where memory runs out.
fn put_zone_line(
    text: &mut Vec<u8>,
    word: &[u8],
    zone: &Name,
    behind: &[u8],
) -> Result<(), AllocError>
    ensures { OnOk result (text.new.items
        ≡ text.old.items ++ end (also (also word.now (text_of zone.now)) behind.now)) }
{
    put_words(text, word, zone, behind)?;
    text.push(b'\n')?;
    Ok(())
}

/// Puts `stale <zone> <position>`. `AllocError` where memory runs out.
fn put_stale(text: &mut Vec<u8>, zone: &Name, position: u64) -> Result<(), AllocError>
    ensures { OnOk result (text.new.items ≡ text.old.items
        ++ end (also (also (codes "stale") (text_of zone.now)) (decimal position))) }
{
    let mut digits = Buffer::new();
    put_zone_line(text, b"stale", zone, digits.format(position).as_bytes())
}

/// Puts `nomemory <zone>`. `AllocError` where memory runs out.
fn put_memory(text: &mut Vec<u8>, zone: &Name) -> Result<(), AllocError>
    ensures { OnOk result (text.new.items
        ≡ text.old.items ++ end (also (codes "nomemory") (text_of zone.now))) }
{
    text.extend_from_slice(b"nomemory")?;
    put(text, zone.print().as_bytes())?;
    text.push(b'\n')?;
    Ok(())
}

/// Puts `<word> <zone> <behind>`, no end of a line. `AllocError` where memory runs out.
fn put_words(text: &mut Vec<u8>, word: &[u8], zone: &Name, behind: &[u8]) -> Result<(), AllocError>
    ensures { OnOk result (text.new.items
        ≡ text.old.items ++ also (also word.now (text_of zone.now)) behind.now) }
{
    text.extend_from_slice(word)?;
    put(text, zone.print().as_bytes())?;
    put(text, behind)
}

/// Puts a space and a further word. `AllocError` where memory runs out.
fn put(text: &mut Vec<u8>, word: &[u8]) -> Result<(), AllocError>
    ensures { OnOk result (text.new.items ≡ also text.old.items word.now) }
{
    text.push(b' ')?;
    text.extend_from_slice(word)
}

/// Puts the lines of what a new version changes besides its zone. `AllocError` where memory runs out.
fn put_aftermath(text: &mut Vec<u8>, zone: &Name, aftermath: &Aftermath) -> Result<(), AllocError>
    ensures { OnOk result (text.new.items
        ≡ text.old.items ++ aftermath_lines zone.now aftermath.now) }
{
    match aftermath {
        Aftermath::Member => Ok(()),
        Aftermath::Broken(reason) => put_zone_line(text, b"broken", zone, broken_word(reason)),
        Aftermath::Changes(changes) => put_changes(text, changes),
    }
}

/// Puts the lines of changes, one after the other. `AllocError` where memory runs out.
fn put_changes(text: &mut Vec<u8>, changes: &Changes) -> Result<(), AllocError>
    ensures { OnOk result (text.new.items ≡ text.old.items ++ flat_map change_line changes.now) }
{
    'changes: for place in 0..changes.len() {
        put_change(text, &changes.at(place))?;
    }
    Ok(())
}

/// Puts the line of a change. `AllocError` where memory runs out.
fn put_change(text: &mut Vec<u8>, change: &Change) -> Result<(), AllocError>
    ensures { OnOk result (text.new.items ≡ text.old.items ++ change_line change.now) }
{
    put_what(text, &change.zone, &change.what)?;
    text.push(b'\n')?;
    Ok(())
}

/// Puts a change, without the end of its line. `AllocError` where memory runs out.
fn put_what(text: &mut Vec<u8>, zone: &Name, what: &What) -> Result<(), AllocError>
    ensures { OnOk result (text.new.items ≡ text.old.items ++ change_text zone.now what.now) }
{
    match what {
        What::Added(catalog) => put_named(text, b"added", zone, catalog),
        What::Removed(catalog) => put_named(text, b"removed", zone, catalog),
        What::Reset(catalog) => put_named(text, b"reset", zone, catalog),
        What::Moved(old, new) => put_moved(text, b"moved", zone, old, new),
        What::MovedReset(old, new) => put_moved(text, b"moved-reset", zone, old, new),
        What::Clash(holder) => put_clash(text, zone, holder),
        What::Regrouped(catalog) => put_named(text, b"regrouped", zone, catalog),
    }
}

/// Puts `<word> <zone> <catalog>`. `AllocError` where memory runs out.
fn put_named(text: &mut Vec<u8>, word: &[u8], zone: &Name, catalog: &Name) -> Result<(), AllocError>
    ensures { OnOk result (text.new.items
        ≡ text.old.items ++ also (also word.now (text_of zone.now)) (text_of catalog.now)) }
{
    put_words(text, word, zone, catalog.print().as_bytes())
}

/// Puts `<word> <zone> <old> <new>`. `AllocError` where memory runs out.
fn put_moved(
    text: &mut Vec<u8>,
    word: &[u8],
    zone: &Name,
    old: &Name,
    new: &Name,
) -> Result<(), AllocError>
    ensures { OnOk result (text.new.items ≡ text.old.items
        ++ also (also (also word.now (text_of zone.now)) (text_of old.now)) (text_of new.now)) }
{
    put_named(text, word, zone, old)?;
    put(text, new.print().as_bytes())
}

/// Puts `clash <zone>`, and the holder or `configured`. `AllocError` where memory runs out.
fn put_clash(text: &mut Vec<u8>, zone: &Name, holder: &Option<Name>) -> Result<(), AllocError>
    ensures { OnOk result (text.new.items ≡ text.old.items
        ++ also (also (codes "clash") (text_of zone.now)) (holder_text holder.now)) }
{
    match holder {
        Some(holder) => put_named(text, b"clash", zone, holder),
        None => put_words(text, b"clash", zone, b"configured"),
    }
}

/// The word for what the ZONEMD records of a version say.
fn standing_word(standing: Standing) -> &'static [u8]
    ensures { result.now ≡ standing_word standing }
{
    match standing {
        Standing::Absent => b"absent",
        Standing::Unsupported => b"unsupported",
        Standing::Good => b"good",
        Standing::Bad => b"bad",
    }
}

/// The word for why a catalog's version has no listing.
fn broken_word(reason: &Broken) -> &'static [u8]
    ensures { result.now ≡ broken_word reason.now }
{
    match reason {
        Broken::NoVersion => b"no-version",
        Broken::VersionTwice => b"version-twice",
        Broken::OtherVersion => b"other-version",
        Broken::MemberTwice => b"member-twice",
        Broken::CooTwice => b"coo-twice",
        Broken::TooManyMembers => b"too-many-members",
        Broken::ZoneTwice => b"zone-twice",
    }
}
