//! Why a transfer is refused, as it is written.

ghost use Rattle.std.specs.Prelude.{◌≡◌, ◌++◌, IfOk};
ghost use Rattle.dz_report.specs.Reason.{numbered, reason_of, shape_word, zone_word};

use dz_take::{ShapeFault, TakeFault, ZoneFault};
use itoa::Buffer;
use std::alloc::{AllocError, Global};

/// The words of a refusal's reason, and the number after them where it has one. `AllocError` where memory runs out.
pub fn reason_of(alloc: Global, fault: &TakeFault) -> Result<Vec<u8>, AllocError>
    ensures { IfOk result (λ text. text.items ≡ reason_of fault.now) }
{
    match *fault {
        TakeFault::Incomplete => Vec::from_slice(alloc, b"incomplete"),
        TakeFault::Message(fault) => numbered(alloc, b"message ", u64::from(fault.number())),
        TakeFault::WrongId => Vec::from_slice(alloc, b"wrong-id"),
        TakeFault::WrongQuestion => Vec::from_slice(alloc, b"wrong-question"),
        TakeFault::Rcode(code) => numbered(alloc, b"rcode ", u64::from(code)),
        TakeFault::Shape(fault) => joined(alloc, b"shape ", shape_word(fault)),
        TakeFault::Zone(fault) => joined(alloc, b"zone ", zone_word(fault)),
        TakeFault::OldSerial(serial) => numbered(alloc, b"old-serial ", u64::from(serial)),
        TakeFault::TooLong => Vec::from_slice(alloc, b"too-long"),
        TakeFault::Tsig(fault) => numbered(alloc, b"tsig ", u64::from(fault.number())),
    }
}

/// The word for what is wrong with the records' form.
fn shape_word(fault: ShapeFault) -> &'static [u8]
    ensures { result.now ≡ shape_word fault }
{
    match fault {
        ShapeFault::NotSoaFirst => b"not-soa-first",
        ShapeFault::AfterEnd => b"after-end",
        ShapeFault::SerialGap => b"serial-gap",
        ShapeFault::DeleteMissing => b"delete-missing",
        ShapeFault::AddPresent => b"add-present",
    }
}

/// The word for what is wrong with the zone.
fn zone_word(fault: ZoneFault) -> &'static [u8]
    ensures { result.now ≡ zone_word fault }
{
    match fault {
        ZoneFault::NoSoa => b"no-soa",
        ZoneFault::SoaTwice => b"soa-twice",
        ZoneFault::SoaBelow => b"soa-below",
        ZoneFault::NoNs => b"no-ns",
        ZoneFault::OutOfZone => b"out-of-zone",
        ZoneFault::CnameBeside => b"cname-beside",
        ZoneFault::CnameTwice => b"cname-twice",
        ZoneFault::DnameTwice => b"dname-twice",
        ZoneFault::TooMany => b"too-many",
    }
}

/// A word, and a number in decimal. `AllocError` where memory runs out.
pub fn numbered(alloc: Global, word: &[u8], number: u64) -> Result<Vec<u8>, AllocError>
    ensures { IfOk result (λ text. text.items ≡ numbered word.now number) }
{
    let mut digits = Buffer::new();
    joined(alloc, word, digits.format(number).as_bytes())
}

/// A word, and another right after it. `AllocError` where memory runs out.
pub fn joined(alloc: Global, word: &[u8], behind: &[u8]) -> Result<Vec<u8>, AllocError>
    ensures { IfOk result (λ text. text.items ≡ word.now ++ behind.now) }
{
    let mut text = Vec::from_slice(alloc, word)?;
    text.extend_from_slice(behind)?;
    Ok(text)
}
