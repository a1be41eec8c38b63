//! The summary of what a server wrote.
ghost use Rattle.std.specs.Prelude.{◌≡◌, ◌++◌, [], ◌∷◌, IfOk, OnOk, codes};
ghost use Rattle.hex.specs.Hex.{encode_lower};
ghost use Rattle.sha2.specs.Sha512.{sha384};
ghost use Rattle.dz_gen.specs.Summary.{count_of, is_newline, begins, has_code, tally, events, replies, summary};

use dz_name::Octets;
use itoa::Buffer;
use sha2::{Digest, Sha384};
use std::alloc::{AllocError, Global};

/// The summary, in nine lines, of what a server wrote: how many jobs were handed out, how many transfers were published
/// and refused, and how many zones were added and reset. Then come how many replies had the codes NOERROR, SERVFAIL and
/// REFUSED, and the SHA-384 of the whole text in hex.
pub fn sum_up(alloc: Global, text: &[u8]) -> Result<Octets, AllocError>
    ensures { IfOk result (λ lines. lines ≡ summary text.now) }
{
    let mut out = events(alloc, text)?;
    out.extend_from_slice(&replies(alloc, text)?)?;
    out.extend_from_slice(&digest(alloc, text)?)?;
    Ok(Octets::from_vec(out))
}

/// How many jobs were asked for, and what came of them.
fn events(alloc: Global, text: &[u8]) -> Result<Vec<u8>, AllocError>
    ensures { IfOk result (λ lines. lines.items ≡ events text.now) }
{
    let mut out = Vec::new(alloc);
    put_tally(&mut out, b"jobs ", count_beginning(text, b"job "))?;
    put_tally(
        &mut out,
        b"published ",
        count_beginning(text, b"published "),
    )?;
    put_tally(&mut out, b"refused ", count_beginning(text, b"refused "))?;
    put_tally(&mut out, b"added ", count_beginning(text, b"added "))?;
    put_tally(&mut out, b"reset ", count_beginning(text, b"reset "))?;
    Ok(out)
}

/// How many replies had which code.
fn replies(alloc: Global, text: &[u8]) -> Result<Vec<u8>, AllocError>
    ensures { IfOk result (λ lines. lines.items ≡ replies text.now) }
{
    let mut out = Vec::new(alloc);
    put_tally(&mut out, b"noerror ", count_replies(text, b"0"))?;
    put_tally(&mut out, b"servfail ", count_replies(text, b"2"))?;
    put_tally(&mut out, b"refused-replies ", count_replies(text, b"5"))?;
    Ok(out)
}

/// The line of the digest.
fn digest(alloc: Global, text: &[u8]) -> Result<Vec<u8>, AllocError>
    ensures { IfOk result (λ line. line.items
        ≡ codes "digest " ++ (encode_lower (sha384 text.now) ++ 10 ∷ [])) }
{
    let hex = hex::encode(alloc, Sha384::digest(text))?;
    let mut line = b"digest ".to_vec(alloc)?;
    line.extend_from_slice(hex.as_bytes())?;
    line.push(b'\n')?;
    Ok(line)
}

/// Appends a word and a number on a line.
fn put_tally(out: &mut Vec<u8>, word: &[u8], count: usize) -> Result<(), AllocError>
    ensures { OnOk result (out.new.items ≡ out.old.items ++ tally word.now count) }
{
    let mut digits = Buffer::new();
    out.extend_from_slice(word)?;
    out.extend_from_slice(digits.format(count).as_bytes())?;
    out.extend_from_slice(b"\n")
}

/// How many lines begin so.
fn count_beginning(text: &[u8], word: &[u8]) -> usize
    ensures { result ≡ count_of (begins word.now) text.now }
{
    text.split(|octet| is_newline(*octet))
        .filter(|line| begins(line, word))
        .count()
}

/// How many lines are replies whose code has this digit.
fn count_replies(text: &[u8], digit: &[u8]) -> usize
    ensures { result ≡ count_of (has_code digit.now) text.now }
{
    text.split(|octet| is_newline(*octet))
        .filter(|line| is_reply(line, digit))
        .count()
}

/// Whether a line ends with this octet.
fn is_newline(octet: u8) -> bool
    ensures { result ≡ is_newline octet }
{
    octet == b'\n'
}

/// Whether a line begins with a word.
fn begins(line: &[u8], word: &[u8]) -> bool
    ensures { result ≡ begins word.now line.now }
{
    line.starts_with(word)
}

/// Whether a line is a reply whose code has this digit.
fn is_reply(line: &[u8], digit: &[u8]) -> bool
    ensures { result ≡ has_code digit.now line.now }
{
    line.starts_with(b"reply ") && line.get(13..).unwrap_or(&[]).starts_with(digit)
}
