//! What is written for a line, and how it ends the input.

ghost use Rattle.std.specs.Prelude.{◌≡◌, ◌++◌, Some, None, IfOk, OnOk};
ghost use Rattle.dz_produce.specs.Producing.{bad, hex_line};

use itoa::Buffer;
use std::alloc::{AllocError, Global};

/// How the input of `produce` ends.
#[derive(Clone, Copy, Debug, PartialEq, Eq)]
pub enum ProduceEnd {
    Done,
    BadInput,
}

/// A text to be written, and how it ends the input if it does.
#[derive(Drop)]
pub(crate) struct Saying {
    pub(crate) text: Vec<u8>,
    pub(crate) ending: Option<ProduceEnd>,
}

/// Says a text, and goes on.
pub(crate) fn go_on(text: Vec<u8>) -> Saying
    ensures text { result.text ≡ text }
    ensures ending { result.ending ≡ None }
{
    Saying { text, ending: None }
}

/// Says that a line is bad after a text, and ends so.
pub(crate) fn end_badly(text: Vec<u8>, number: u64) -> Result<Saying, AllocError>
    ensures { IfOk result (λ s. (s.text.items ≡ text.items ++ bad number)
        × (s.ending ≡ Some ProduceEnd.BadInput)) }
{
    let mut text = text;
    put_bad(number, &mut text)?;
    Ok(Saying {
        text,
        ending: Some(ProduceEnd::BadInput),
    })
}

/// `bad`, the number of a line, and the end of the line.
pub(crate) fn bad_line(alloc: Global, number: u64) -> Result<Vec<u8>, AllocError>
    ensures { IfOk result (λ text. text.items ≡ bad number) }
{
    let mut text = Vec::new(alloc);
    put_bad(number, &mut text)?;
    Ok(text)
}

/// Puts `bad`, the number of a line and the end of the line after a text.
fn put_bad(number: u64, text: &mut Vec<u8>) -> Result<(), AllocError>
    ensures { OnOk result (text.new.items ≡ text.old.items ++ bad number) }
{
    let mut buffer = Buffer::new();
    text.extend_from_slice(b"bad ")?;
    text.extend_from_slice(buffer.format(number).as_bytes())?;
    text.push(b'\n')?;
    Ok(())
}

/// A word, octets in hex, and the end of the line.
pub(crate) fn hex_line(alloc: Global, word: &[u8], octets: &[u8]) -> Result<Vec<u8>, AllocError>
    ensures { IfOk result (λ text. text.items ≡ hex_line word.now octets.now) }
{
    let hex = hex::encode(alloc, octets)?;
    let mut text = Vec::with_capacity(alloc, word.len() + hex.len() + 1)?;
    text.extend_from_slice(word)?;
    text.extend_from_slice(hex.as_bytes())?;
    text.push(b'\n')?;
    Ok(text)
}
