//! Tests of `dz_tsig`: that signing succeeds where memory is ample, and that no secret is shown.
ghost use Rattle.dz_settings.specs.Key.{IsKey};

use dz_name::{Name, Octets};
use dz_settings::{Key, Secret};
use dz_tsig::{check_stream, request_mac, sign_query, sign_stream};
use std::alloc::Global;
use std::process::Abort;

/// The query for all of `example.` with ID 2.
const QUERY: &[u8] = b"\0\x02\0\0\0\x01\0\0\0\0\0\0\x07example\0\0\xfc\0\x01";
/// Two messages of an answer, each after its length.
const ANSWER: &[u8] =
    b"\0\x19\0\x02\x84\0\0\x01\0\0\0\0\0\0\x07example\0\0\xfc\0\x01\0\x0c\0\x02\x84\0\0\0\0\0\0\0\0\0";

/// A key for signing.
fn key(rt: &impl Abort) -> Key
    ensures { IsKey result }
{
    match (
        Name::parse(b"key.example."),
        Secret::from_slice(b"a secret"),
    ) {
        (Ok(name), Some(secret)) => Key { name, secret },
        _ => panic!(rt; "no key"),
    }
}

/// Octets, as messages hold them.
fn octets(rt: &impl Abort, alloc: Global, items: &[u8]) -> Octets {
    match Vec::from_slice(alloc, items) {
        Ok(items) => Octets::from_vec(items),
        Err(_) => panic!(rt; "no memory"),
    }
}

#[test]
fn a_query_is_signed(rt: HostRuntime) {
    match sign_query(rt.alloc(), &key(&rt), QUERY, 1000) {
        Ok(signed) => assert_eq!(rt; signed.as_slice().len(), 25 + 84),
        Err(_) => panic!(rt; "no memory"),
    }
}

#[test]
fn an_answer_is_signed_and_checked(rt: HostRuntime) {
    let alloc = rt.alloc();
    let key = key(&rt);
    let mac = request_mac(&key, QUERY, 1000);
    match sign_stream(alloc, &key, &mac, octets(&rt, alloc, ANSWER), 1001) {
        Ok(signed) => {
            assert_eq!(rt; signed.as_slice().len(), 41 + 2 * 84);
            assert!(rt; check_stream(&key, &mac, signed.as_slice(), 1301) == Ok(()));
        }
        Err(error) => panic!(rt; "{:?}", error),
    }
}

#[test]
fn no_octet_of_a_secret_is_shown(rt: HostRuntime) {
    let alloc = rt.alloc();
    let secret = key(&rt).secret;
    match format!(in alloc; "{:?}", secret) {
        Ok(text) => assert!(rt; text.as_str() == "Secret"),
        Err(_) => panic!(rt; "no memory"),
    }
}
