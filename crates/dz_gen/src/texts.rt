//! Names and lines.
ghost use Rattle.std.specs.Prelude.{◌≡◌, ◌++◌, IfOk, OnOk, drop, codes};
ghost use Rattle.dz_gen.specs.Texts.{numbered, named, IsSpelled, take_line, transfer, ask_line};

use dz_name::Name;
use itoa::Buffer;
use std::alloc::{AllocError, Global};

/// A number as four decimal digits between texts.
pub(crate) fn numbered(
    alloc: Global,
    before: &[u8],
    k: u16,
    behind: &[u8],
) -> Result<Vec<u8>, AllocError>
    ensures { IfOk result (λ text. text.items ≡ numbered before.now k behind.now) }
{
    let mut buffer = Buffer::new();
    let digits = buffer.format(k).as_bytes();
    let mut text = before.to_vec(alloc)?;
    text.extend_from_slice(zeros_before(digits.len()))?;
    text.extend_from_slice(digits)?;
    text.extend_from_slice(behind)?;
    Ok(text)
}

/// The zeros before this many digits of four.
fn zeros_before(count: usize) -> &'static [u8]
    ensures { result.now ≡ drop count (codes "0000") }
{
    let zeros: &[u8] = b"0000";
    zeros.get(count..).unwrap_or(&[])
}

/// The name that a text spells.
pub(crate) fn named(text: &[u8]) -> Name
    requires { IsSpelled text.now }
    ensures { result ≡ named text.now }
{
    match Name::parse(text) {
        Ok(name) => name,
        Err(_) => unreachable!(),
    }
}

/// A job is asked for at a moment, and gets octets.
pub(crate) fn put_transfer(
    alloc: Global,
    out: &mut Vec<u8>,
    moment: &[u8],
    ticket: u16,
    octets: &[u8],
) -> Result<(), AllocError>
    ensures { OnOk result (out.new.items ≡ out.old.items ++ transfer moment.now ticket octets.now) }
{
    out.extend_from_slice(moment)?;
    out.extend_from_slice(b" job\n")?;
    put_take(alloc, out, moment, ticket, octets)
}

/// A job gets octets.
fn put_take(
    alloc: Global,
    out: &mut Vec<u8>,
    moment: &[u8],
    ticket: u16,
    octets: &[u8],
) -> Result<(), AllocError>
    ensures { OnOk result (out.new.items
        ≡ out.old.items ++ take_line moment.now ticket octets.now) }
{
    let mut buffer = Buffer::new();
    let hex = hex::encode(alloc, octets)?;
    out.extend_from_slice(moment)?;
    out.extend_from_slice(b" take ")?;
    out.extend_from_slice(buffer.format(ticket).as_bytes())?;
    out.extend_from_slice(b" ")?;
    out.extend_from_slice(hex.as_bytes())?;
    out.extend_from_slice(b"\n")
}

/// A request comes over UDP at a moment.
pub(crate) fn put_ask(
    alloc: Global,
    out: &mut Vec<u8>,
    moment: &[u8],
    octets: &[u8],
) -> Result<(), AllocError>
    ensures { OnOk result (out.new.items ≡ out.old.items ++ ask_line moment.now octets.now) }
{
    let hex = hex::encode(alloc, octets)?;
    out.extend_from_slice(moment)?;
    out.extend_from_slice(b" udp 198.51.100.1 ")?;
    out.extend_from_slice(hex.as_bytes())?;
    out.extend_from_slice(b"\n")
}
