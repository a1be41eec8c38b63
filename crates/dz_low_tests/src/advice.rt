//! Tests of `dz_advice`.

use dz_config::{Advice, Expected, Found, Kept, Key, Place, TEXT_OCTETS, advise};
use dz_io::{MemorySource, Source};
use std::alloc::{AllocError, Global};
use std::process::Abort;
use std::test::*;

const GOOD: &[u8] =
    b"listen = \"192.0.2.10:53\"\n[[catalog]]\nname = \"cat1.example.\"\npolicy = \"off\"\nprimaries = [\"192.0.2.1\"]\n";

/// Configurations that can't be read, the line to mend of each, and what was expected there.
const ROWS: &[(&[u8], usize, Expected)] = &[
    (b"", 1, Expected::Present(Key::Listen)),
    (
        b"# a remark\nlisten = \"192.0.2.10:53\"\nx = 1\n",
        3,
        Expected::Known(Place::Document),
    ),
    (
        b"listen = \"192.0.2.300:53\"\n[[catalog]]\nname = \"cat1.example.\"\npolicy = \"off\"\nprimaries = [\"192.0.2.1\"]\n",
        1,
        Expected::Value(Key::Listen),
    ),
    (
        b"listen = \"192.0.2.10:53\"\n[[catalog]]\nname = \"cat1.example.\"\npolicy = \"maybe\"\nprimaries = [\"192.0.2.1\"]\n",
        4,
        Expected::Value(Key::Policy),
    ),
    (
        b"listen = \"192.0.2.10:53\"\n[[catalog]]\nname = \"cat1.example.\"\npolicy = \"off\"\nprimaries = [\n  \"192.0.2.1\",\n  \"192.0.2\",\n]\n",
        7,
        Expected::Value(Key::Primaries),
    ),
    (
        b"listen = \"192.0.2.10:53\"\n[[catalog]]\nname = \"cat1.example.\"\nprimaries = [\"192.0.2.1\"]\n",
        2,
        Expected::Present(Key::Policy),
    ),
    (
        b"listen = \"192.0.2.10:53\"\ndownstream = [\"192.0.2.3:53\"]\n",
        2,
        Expected::Value(Key::Downstream),
    ),
    (b"listen = \"192.0.2.10:53\"\n", 1, Expected::Within),
    (
        b"listen = \"192.0.2.10:53\"\n[[catalog]]\nname = \"cat1.example.\"\npolicy = \"off\"\nprimaries = [\"192.0.2.1\"]\nkey = \"key.example.\"\n",
        2,
        Expected::Present(Key::Secret),
    ),
    (
        b"listen = \"192.0.2.10:53\"\n[[catalog]]\nname = \"cat1.example.\"\npolicy = \"off\"\nprimaries = [\"192.0.2.1\"]\nsecret = \"00\"\n",
        2,
        Expected::Present(Key::KeyName),
    ),
    (
        b"listen = \"192.0.2.10:53\"\n[[catalog]]\nname = \"cat1.example.\"\npolicy = \"off\"\nprimaries = [\"192.0.2.1\"]\nkey = \"key.example.\"\nsecret = \"c2VjcmV0\"\n",
        7,
        Expected::Value(Key::Secret),
    ),
    (
        b"listen = \"192.0.2.10:53\"\n[[catalog]]\nname = \"cat1.example.\"\npolicy = \"off\"\nprimaries = [\"192.0.2.1\"]\nkey = \"key.example.\"\nsecret = '0'\n",
        7,
        Expected::Value(Key::Secret),
    ),
    (
        b"listen = \"192.0.2.10:53\"\n[[catalog]] # main\nname = \"cat1.example.\"\npolicy = \"off\"\nprimaries = \"192.0.2.1\"\n",
        5,
        Expected::Kind(Key::Primaries, Found::Text),
    ),
    (
        b"listen = \"192.0.2.10:53\"\n[[ catalog ]]\nname = \"cat1.example.\"\npolicy = 1\nprimaries = [\"192.0.2.1\"]\n",
        4,
        Expected::Kind(Key::Policy, Found::Other),
    ),
    (
        b"listen = 53\n[[catalog]]\nname = \"cat1.example.\"\npolicy = \"off\"\nprimaries = [\"192.0.2.1\"]\n",
        1,
        Expected::Kind(Key::Listen, Found::Other),
    ),
    (
        b"listen = \"192.0.2.10:53\"\n[[catalog]]\nname = \"cat1.example.\"\npolicy = 'maybe'\nprimaries = [\"192.0.2.1\"]\n",
        4,
        Expected::Value(Key::Policy),
    ),
    (
        b"listen = \"192.0.2.10:53\"\n[catalog]\nname = \"cat1.example.\"\npolicy = \"off\"\nprimaries = [\"192.0.2.1\"]\n",
        2,
        Expected::TwoBrackets(Place::Catalog),
    ),
    (
        b"listen = \"192.0.2.10:53\"\n[[catalog]]\nname = \"cat1.example.\"\npolicy = \"maybe\"\nprimaries = [\n  \"192.0.2.1\", # primary = a\n]\n",
        4,
        Expected::Value(Key::Policy),
    ),
    (
        b"listen = \"192.0.2.10:53\"\n[[catalog]]\nname = \"cat1.example.\"\npolicy = \"off\"\nprimaries = []\n",
        5,
        Expected::Value(Key::Primaries),
    ),
];

#[test]
fn a_text_that_is_too_long_is_told_so(rt: HostRuntime) -> Result<(), AllocError> {
    let text = vec![in rt.alloc(); b'\n'; TEXT_OCTETS + 1]?;
    expect_advice(&rt, rt.alloc(), &text, 1, Expected::Shorter);
    Ok(())
}

/// The advice on a text names this line and what was expected there.
fn expect_advice(rt: &impl Abort, alloc: Global, text: &[u8], line: usize, expected: Expected) {
    let told = advise(alloc, text);
    assert_eq!(rt; told, Some(Advice { line, expected }), "{text:?}");
}

#[test]
fn a_line_to_mend_is_told_with_what_was_expected(rt: HostRuntime) {
    for (text, line, expected) in ROWS {
        expect_advice(&rt, rt.alloc(), text, *line, *expected);
    }
    assert_eq!(rt; advise(rt.alloc(), GOOD), None);
}

#[test]
fn an_advice_shows_nothing_of_a_secret(rt: HostRuntime) {
    let advice = Advice {
        line: 7,
        expected: Expected::Value(Key::Secret),
    };
    match format!(in rt.alloc(); "{advice}") {
        Ok(text) => assert_eq!(rt;
            text.as_str(),
            "line 7: secret: expected 1 to 64 octets in hexadecimal in quotes; base64, as other servers write it, is converted by base64 -d | xxd -p -c 256"
        ),
        Err(_) => panic!(rt; "no memory"),
    }
}

#[test]
fn a_text_that_is_no_toml_is_told_by_its_line(rt: HostRuntime) -> Result<(), AllocError> {
    let alloc = rt.alloc();
    let text = b"listen = \"192.0.2.10:53\"\n[[catalog]\n";
    let line = advise(alloc, text).map(|advice| advice.line);
    assert_eq!(rt; line, Some(2));
    Ok(())
}

#[test]
fn what_was_read_is_kept(rt: HostRuntime) -> Result<(), AllocError> {
    let alloc = rt.alloc();
    let source = MemorySource::new(GOOD.to_vec(alloc)?, Vec::new(alloc));
    let mut kept = Kept::new(alloc, source);
    let mut buffer = [0_u8; 16];
    assert_eq!(rt; kept.read(&mut buffer), Ok(16));
    assert_eq!(rt; kept.read(&mut buffer), Ok(16));
    assert_eq!(rt; kept.text(), &GOOD[..32]);
    Ok(())
}
