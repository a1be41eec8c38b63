ghost use Rattle.std.specs.Prelude.{◌≡◌, ◌++◌, IfOk, OnOk, Ok, option_map, []};
ghost use Rattle.std.specs.Option.{option_map_or};
ghost use Rattle.dz_name.specs.Name.{IsName};
ghost use Rattle.dz_record.specs.Record.{record_octets};
ghost use Rattle.dz_message.specs.Spelling.{Spells};
ghost use Rattle.dz_message.specs.Query.{query_kind, query_header, query_question, query_octets, query_content};
ghost use Rattle.dz_message.specs.Query.{IsHeld, IsHeldSoa};

use crate::write::{write_answer, write_head, write_question};
use dz_header::{Header, Question};
use dz_name::dns::{CLASS_IN, TYPE_AXFR, TYPE_IXFR};
use dz_name::{Name, Octets};
use dz_record::Rr;
use std::alloc::{AllocError, Global};

/// The octets of the query for a transfer of a zone, with names without pointers. It asks for the whole zone (AXFR, RFC
/// 5936 section 2.1), or, given the SOA record of the held version, for the differences from that version (IXFR, RFC
/// 1995 section 3).
///
/// # Errors
///
/// `AllocError` where memory runs out.
pub fn write_query(
    alloc: Global,
    id: u16,
    zone: &Name,
    held: Option<&Rr>,
) -> Result<Octets, AllocError>
    requires { IsHeldSoa (option_map (λ r. r.now) held) }
    ensures octets { IfOk result
        (λ o. o ≡ query_octets id zone.now (option_map (λ r. r.now) held.entry)) }
    ensures spells { IfOk result
        (λ o. Spells o (query_content id zone.now (option_map (λ r. r.now) held.entry))) }
    ensures name { IfOk result (λ _. IsName zone.now) }
    ensures held { IfOk result (λ _. IsHeld (option_map (λ r. r.now) held.entry)) }
{
    let mut out = Vec::new(alloc);
    write_head(query_header(id, held), &mut out)?;
    write_question(&query_question(zone, held), &mut out)?;
    write_held(held, &mut out)?;
    Ok(Octets::from_vec(out))
}

/// The header of the query, which counts the held SOA record.
fn query_header(id: u16, held: Option<&Rr>) -> Header
    ensures { result ≡ query_header id (option_map (λ r. r.now) held.entry) }
{
    Header {
        id,
        flags: 0,
        counts: [1, 0, if held.is_some() { 1 } else { 0 }, 0],
    }
}

/// The question of the query: IXFR where a version is held, and otherwise AXFR.
fn query_question(zone: &Name, held: Option<&Rr>) -> Question
    ensures { result ≡ query_question zone.now (option_map (λ r. r.now) held.entry) }
{
    Question {
        name: *zone,
        kind: if held.is_some() { TYPE_IXFR } else { TYPE_AXFR },
        class: CLASS_IN,
    }
}

/// Appends the held SOA record, for the authority section. `AllocError` where memory runs out.
fn write_held(held: Option<&Rr>, out: &mut Vec<u8>) -> Result<(), AllocError>
    ensures octets { OnOk result
        (out.new.items ≡ out.old.items
        ++ option_map_or record_octets (option_map (λ r. r.now) held.entry) []) }
    ensures held { OnOk result (IsHeld (option_map (λ r. r.now) held.entry)) }
{
    match held {
        None => Ok(()),
        Some(held) => write_answer(held, out),
    }
}
