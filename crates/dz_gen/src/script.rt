//! The script.
ghost use Rattle.std.specs.Prelude.{◌≡◌, ◌≤◌, ◌++◌, IfOk, OnOk, filter, flat_map};
ghost use Rattle.std.specs.List.{All};
ghost use Rattle.dz_gen.specs.Messages.{catalog_member};
ghost use Rattle.dz_gen.specs.Script.{numbers, catalog_text, reset, is_tenth, is_changed, settings, first_transfer};
ghost use Rattle.dz_gen.specs.Script.{next_transfer, change_transfer, asked, transfers, questions, script};

use crate::messages::{
    catalog_begins, catalog_changes, catalog_ends, catalog_member, changes_of, part_of, query,
    whole_of,
};
use crate::records::www;
use crate::texts::{named, put_ask, put_transfer};
use dz_name::Octets;
use std::alloc::{AllocError, Global};

/// How many zones a script has at most.
pub const ZONES: u16 = 1000;

/// The lines of the configuration: the catalog and its group `strict`.
const SETTINGS: &[u8] =
    b"catalog cat.test. present 192.0.2.1\ngroup cat.test. strict require 192.0.2.2\n";

/// The script of a life of a server with the given number of zones, 1 to 1,000, which share a catalog. Each is
/// transferred; each tenth breaks off and comes again. The first is reset, the others change by differences. All are
/// asked for before and after they expire.
pub fn generate(alloc: Global, number: u16) -> Result<Octets, AllocError>
    requires some { 1 ≤ number }
    requires number { number ≤ ZONES }
    ensures { IfOk result (λ text. text ≡ script number) }
{
    let mut out = transfers(alloc, number)?;
    out.extend_from_slice(&questions(alloc, number)?)?;
    Ok(Octets::from_vec(out))
}

/// The settings and all transfers.
#[tactic(auto, using(crate::proofs::Bounds::range_all, crate::proofs::Bounds::kept_all, crate::proofs::Bounds::range_some, crate::proofs::Bounds::kept_some))]
fn transfers(alloc: Global, number: u16) -> Result<Vec<u8>, AllocError>
    requires { number ≤ ZONES }
    ensures { IfOk result (λ text. text.items ≡ transfers number) }
{
    let numbers = numbers(alloc, number)?;
    let mut out = Vec::new(alloc);
    put_catalog(alloc, &numbers, &mut out)?;
    put_first(alloc, &numbers, &mut out)?;
    put_next(alloc, number, &tenths(alloc, &numbers)?, &mut out)?;
    put_reset(alloc, number, &mut out)?;
    put_changes(alloc, number, &changed(alloc, &numbers)?, &mut out)?;
    Ok(out)
}

/// All questions.
fn questions(alloc: Global, number: u16) -> Result<Vec<u8>, AllocError>
    requires { number ≤ ZONES }
    ensures { IfOk result (λ text. text.items ≡ questions number) }
{
    let numbers = numbers(alloc, number)?;
    let mut out = Vec::new(alloc);
    put_queries(alloc, b"1150", &numbers, &mut out)?;
    put_ask(
        alloc,
        &mut out,
        b"1150",
        query(alloc, 0, &named(b"other."))?.as_slice(),
    )?;
    put_queries(alloc, b"1700", &numbers, &mut out)?;
    Ok(out)
}

/// The numbers of the zones.
fn numbers(alloc: Global, number: u16) -> Result<Vec<u16>, AllocError>
    requires number { number ≤ ZONES }
    ensures { IfOk result (λ v. v.items ≡ numbers number) }
{
    (1..number + 1).collect(alloc)
}

/// Each tenth of them.
fn tenths(alloc: Global, numbers: &[u16]) -> Result<Vec<u16>, AllocError>
    ensures { IfOk result (λ v. v.items ≡ filter is_tenth numbers.now) }
{
    numbers
        .iter()
        .copied()
        .filter(|k| k % 10 == 0)
        .collect(alloc)
}

/// Every other one but the first.
fn changed(alloc: Global, numbers: &[u16]) -> Result<Vec<u16>, AllocError>
    ensures { IfOk result (λ v. v.items ≡ filter is_changed numbers.now) }
{
    numbers
        .iter()
        .copied()
        .filter(|k| 1 < *k && !(k % 10 == 0))
        .collect(alloc)
}

/// The settings, and the catalog's transfer.
fn put_catalog(alloc: Global, numbers: &[u16], out: &mut Vec<u8>) -> Result<(), AllocError>
    requires some { All (λ k. 1 ≤ k) numbers.now }
    requires few { All (λ k. k ≤ ZONES) numbers.now }
    ensures { OnOk result (out.new.items
        ≡ out.old.items ++ (settings ++ catalog_text numbers.now)) }
{
    let mut octets = catalog_begins(alloc)?;
    put_members(alloc, numbers, &mut octets)?;
    octets.extend_from_slice(&catalog_ends(alloc)?)?;
    out.extend_from_slice(SETTINGS)?;
    put_transfer(alloc, out, b"1000", 1, &octets)
}

/// The messages with the zones' member nodes.
fn put_members(alloc: Global, numbers: &[u16], octets: &mut Vec<u8>) -> Result<(), AllocError>
    requires some { All (λ k. 1 ≤ k) numbers.now }
    requires few { All (λ k. k ≤ ZONES) numbers.now }
    ensures { OnOk result (octets.new.items
        ≡ octets.old.items ++ flat_map catalog_member numbers.now) }
{
    'members: for k in numbers {
        octets.extend_from_slice(&catalog_member(alloc, *k)?)?;
    }
    Ok(())
}

/// The first transfers of all zones.
fn put_first(alloc: Global, numbers: &[u16], out: &mut Vec<u8>) -> Result<(), AllocError>
    requires some { All (λ k. 1 ≤ k) numbers.now }
    requires few { All (λ k. k ≤ ZONES) numbers.now }
    ensures { OnOk result (out.new.items ≡ out.old.items ++ flat_map first_transfer numbers.now) }
{
    'zones: for k in numbers {
        put_first_of(alloc, *k, out)?;
    }
    Ok(())
}

/// The first transfer of a zone.
fn put_first_of(alloc: Global, k: u16, out: &mut Vec<u8>) -> Result<(), AllocError>
    requires some { 1 ≤ k }
    requires few { k ≤ ZONES }
    ensures { OnOk result (out.new.items ≡ out.old.items ++ first_transfer k) }
{
    let ticket = k + 1;
    let octets = if k % 10 == 0 {
        part_of(alloc, ticket, k)?
    } else {
        whole_of(alloc, ticket, k)?
    };
    put_transfer(alloc, out, b"1000", ticket, &octets)
}

/// The transfers of each tenth zone, which broke off.
fn put_next(alloc: Global, number: u16, tenths: &[u16], out: &mut Vec<u8>) -> Result<(), AllocError>
    requires number { number ≤ ZONES }
    requires some { All (λ k. 1 ≤ k) tenths.now }
    requires few { All (λ k. k ≤ ZONES) tenths.now }
    ensures { OnOk result (out.new.items
        ≡ out.old.items ++ flat_map (next_transfer number) tenths.now) }
{
    'zones: for k in tenths {
        let ticket = number + 1 + *k / 10;
        put_transfer(alloc, out, b"1060", ticket, &whole_of(alloc, ticket, *k)?)?;
    }
    Ok(())
}

/// The catalog's differences, and the transfer of the first zone, which they reset.
fn put_reset(alloc: Global, number: u16, out: &mut Vec<u8>) -> Result<(), AllocError>
    requires number { number ≤ ZONES }
    ensures { OnOk result (out.new.items ≡ out.old.items ++ reset number) }
{
    let ticket = number + number / 10 + 2;
    put_transfer(
        alloc,
        out,
        b"1100",
        ticket,
        &catalog_changes(alloc, ticket)?,
    )?;
    let ticket = number + number / 10 + 3;
    put_transfer(alloc, out, b"1100", ticket, &whole_of(alloc, ticket, 1)?)
}

/// The differences of the other zones.
fn put_changes(
    alloc: Global,
    number: u16,
    changed: &[u16],
    out: &mut Vec<u8>,
) -> Result<(), AllocError>
    requires number { number ≤ ZONES }
    requires some { All (λ k. 1 ≤ k) changed.now }
    requires few { All (λ k. k ≤ ZONES) changed.now }
    ensures { OnOk result (out.new.items
        ≡ out.old.items ++ flat_map (change_transfer number) changed.now) }
{
    'zones: for k in changed {
        let ticket = number + number / 10 + 2 + (*k - *k / 10);
        put_transfer(alloc, out, b"1100", ticket, &changes_of(alloc, ticket, *k)?)?;
    }
    Ok(())
}

/// The questions for all zones at a moment.
fn put_queries(
    alloc: Global,
    moment: &[u8],
    numbers: &[u16],
    out: &mut Vec<u8>,
) -> Result<(), AllocError>
    requires some { All (λ k. 1 ≤ k) numbers.now }
    requires few { All (λ k. k ≤ ZONES) numbers.now }
    ensures { OnOk result (out.new.items
        ≡ out.old.items ++ flat_map (asked moment.now) numbers.now) }
{
    'zones: for k in numbers {
        put_query(alloc, moment, *k, out)?;
    }
    Ok(())
}

/// The question for a zone at a moment.
fn put_query(alloc: Global, moment: &[u8], k: u16, out: &mut Vec<u8>) -> Result<(), AllocError>
    requires some { 1 ≤ k }
    requires few { k ≤ ZONES }
    ensures { OnOk result (out.new.items ≡ out.old.items ++ asked moment.now k) }
{
    let octets = query(alloc, k, &www(alloc, k)?)?;
    put_ask(alloc, out, moment, octets.as_slice())
}
