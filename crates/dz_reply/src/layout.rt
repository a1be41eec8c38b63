//! The records of a reply, one after the other.

ghost use Rattle.std.specs.Prelude.{◌≡◌, ◌≢◌, ◌≤◌, ◌<◌, ◌*◌, ◌∷◌, ◌++◌, [], length, drop, true, slice_index_or};
ghost use Rattle.std.specs.List.Sorted.{IsNonDecreasingBy};
ghost use Rattle.dz_header.specs.Writing.{also};
ghost use Rattle.dz_name.specs.Words.{Name};
ghost use Rattle.dz_name.specs.Numbers.{two};
ghost use Rattle.dz_reply.specs.inner.Owner.{owner_shown};
ghost use Rattle.dz_name.specs.Name.{wire_of};
ghost use Rattle.dz_reply.specs.Answer.{own_entries};
ghost use Rattle.dz_reply.specs.Layout.{pointer_to, owner_octets, entry_octets, entries_octets, least_ttl, entry_ttl};
ghost use Rattle.dz_reply.specs.Layout.{entry, entries};
ghost use Rattle.dz_header.specs.Writing.{left, over};
ghost use Rattle.dz_record.specs.Record.{Record, octets_behind_owner};
ghost use Rattle.dz_runs.specs.Runs.{of_type};

use dz_header::Writer;
use dz_index::labels_apart;
use dz_name::dns::{CLASS_IN, HEADER_OCTETS, TYPE_CNAME, TYPE_RRSIG};
use dz_name::numbers::{four, two};
use dz_name::{Name, NameRef};
use dz_record::Rr;
use dz_runs::of_type;

/// The two top bits of a pointer (RFC 1035 section 4.1.4).
pub(crate) const POINTER: u16 = 0xc000;

/// The octets of the root's wire form.
const ROOT_OCTETS: usize = 1;

/// The longest TTL in seconds (RFC 2181 section 8).
pub(crate) const LONGEST_TTL: u32 = 0x7fff_ffff;

/// The least octets of a record in a message: an owner of one octet, type, class, TTL and length of RDATA (RFC 1035
/// section 4.1.3).
pub(crate) const ENTRY_OCTETS: usize = 11;

/// An owner as a reply has it: octets of its wire form, and the pointer after them, unless they are all of it.
#[derive(Clone, Copy)]
pub struct Shown<'a> {
    pub front: &'a [u8],
    pub pointer: Option<u16>,
}

/// How a reply has an owner: its labels up to the longest suffix that it shares with the question's name, other than
/// the root, and then a pointer to that suffix, which is in the question (RFC 1035 section 4.1.4).
pub fn shown_owner<'a>(question: &Name, owner: &NameRef<'a>) -> Shown<'a>
    ensures { owner_shown result ≡ owner_octets question.now owner.now }
{
    let wire = owner.wire();
    let skip = labels_apart(owner, &question.as_ref());
    let shared = owner.behind(skip).len();
    if shared <= ROOT_OCTETS {
        return Shown {
            front: wire,
            pointer: None,
        };
    }
    let front = wire.len().saturating_sub(shared);
    Shown {
        front: &wire[..front],
        pointer: Some(pointer_to(question, owner, skip)),
    }
}

/// The pointer to what follows the first labels of an owner, which ends the question's name.
fn pointer_to(question: &Name, owner: &NameRef, skip: usize) -> u16
    requires { skip ≤ length owner.now }
    ensures { two result ≡ pointer_to question.now (drop skip owner.now) }
{
    let front = question
        .wire()
        .len()
        .saturating_sub(owner.behind(skip).len());
    POINTER + (HEADER_OCTETS as u16 + front as u16)
}

/// Writes octets, often none.
fn put_front(writer: &mut Writer, front: &[u8])
    ensures { writer.new.writing ≡ also writer.old.writing front.now }
{
    if front.len() == 0 {
        return;
    }
    writer.put(front);
}

/// Writes an owner whose form in the reply is known.
fn put_shown(writer: &mut Writer, shown: &Shown<'_>)
    ensures { writer.new.writing ≡ also writer.old.writing (owner_shown shown.now) }
{
    put_front(writer, shown.front);
    match shown.pointer {
        None => {}
        Some(pointer) => writer.put(&two(pointer)),
    }
}

/// Writes an owner.
pub fn put_owner(writer: &mut Writer, question: &Name, owner: &NameRef)
    ensures { writer.new.writing ≡ also writer.old.writing (owner_octets question.now owner.now) }
{
    put_shown(writer, &shown_owner(question, owner));
}

/// Writes a record of class IN under an owner and with a TTL in seconds that may differ from its own. The RDATA has no
/// pointers (RFC 1035 section 4.1.3, RFC 3597 section 4).
pub fn put_entry(writer: &mut Writer, question: &Name, owner: &NameRef, ttl: u32, rr: &Rr)
    ensures { writer.new.writing
        ≡ also writer.old.writing (entry_octets question.now (entry owner.now ttl rr.now)) }
{
    put_entry_under(writer, &shown_owner(question, owner), ttl, rr);
}

/// Writes a record of class IN under an owner whose form in the reply is known, and with a TTL in seconds.
fn put_entry_under(writer: &mut Writer, shown: &Shown<'_>, ttl: u32, rr: &Rr)
    ensures { (question owner : Name) → owner_shown shown.now ≡ owner_octets question owner
        → writer.new.writing
        ≡ also writer.old.writing (entry_octets question (entry owner ttl rr.now)) }
{
    put_shown(writer, shown);
    if ttl == rr.ttl() {
        writer.put(behind_owner(rr));
        return;
    }
    writer.put(rr.kind_and_class());
    writer.put(&four(ttl));
    writer.put(rr.sized_rdata());
}

/// What follows the owner of a record: type, class, TTL, length of RDATA, RDATA.
fn behind_owner(rr: &Rr) -> &[u8]
    ensures { result.now ≡ octets_behind_owner rr.now }
{
    rr.octets().split_at(rr.owner_ref().wire().len()).1
}

/// Writes a CNAME that is in no zone: from a name to another, with a TTL in seconds (RFC 6672 section 3.1).
pub fn put_cname(writer: &mut Writer, question: &Name, owner: &NameRef, ttl: u32, target: &NameRef)
    ensures { writer.new.writing
        ≡ also writer.old.writing (entry_octets question.now (record {
          owner = owner.now;
          kind = TYPE_CNAME;
          ttl = ttl;
          rdata = wire_of target.now;
        })) }
{
    put_owner(writer, question, owner);
    writer.put(&two(TYPE_CNAME));
    writer.put(&two(CLASS_IN));
    writer.put(&four(ttl));
    writer.put(&two(target.wire().len() as u16));
    writer.put(target.wire());
}

/// Writes records under one owner. Those of a type have their least TTL, and an RRSIG has its own (RFC 2181 section
/// 5.2, RFC 4035 section 2.2). Each time the type changes, the least TTL costs one pass more over all of them.
pub fn put_entries(writer: &mut Writer, question: &Name, owner: &NameRef, records: &[Rr])
    ensures { writer.new.writing
        ≡ also writer.old.writing (entries_octets question.now (entries owner.now records.now)) }
{
    put_entries_under(writer, &shown_owner(question, owner), records);
}

/// Writes the records of the last name of an answer, in the order of type, and RRSIG records, under one owner. The least
/// TTL of a type costs one pass over the records of this type.
pub fn put_answer(
    writer: &mut Writer,
    question: &Name,
    owner: &NameRef,
    records: &[Rr],
    signed: &[Rr],
)
    requires { IsNonDecreasingBy (λ r. r.kind) records.now }
    ensures { writer.new.writing
        ≡ also writer.old.writing (entries_octets question.now
        (entries owner.now records.now ++ entries owner.now signed.now)) }
{
    let shown = shown_owner(question, owner);
    put_types_under(writer, &shown, records);
    put_entries_under(writer, &shown, signed);
}

/// Writes records in the order of type under an owner whose form in the reply is known.
fn put_types_under(writer: &mut Writer, shown: &Shown<'_>, records: &[Rr])
    requires { IsNonDecreasingBy (λ r. r.kind) records.now }
    ensures { (question owner : Name) → owner_shown shown.now ≡ owner_octets question owner
        → writer.new.writing
        ≡ also writer.old.writing (entries_octets question (entries owner records.now)) }
{
    if is_one_type(records) || is_too_many(writer, records) {
        put_entries_under(writer, shown, records);
        return;
    }
    let mut begin = 0;
    'types: while begin < records.len() {
        if writer.is_over() {
            return;
        }
        let run = run_from(records, begin);
        put_entries_under(writer, shown, run);
        begin += run.len();
    }
}

/// Of records in the order of type those of the type of one, from it on.
fn run_from(records: &[Rr], begin: usize) -> &[Rr]
    requires within { begin < length records.now }
    requires kinds { IsNonDecreasingBy (λ r. r.kind) records.now }
    ensures { (d : Record) → result.now
        ≡ of_type (slice_index_or records.now begin d).kind (drop begin records.now) }
{
    let rest = records.split_at(begin).1;
    of_type(rest, records[begin].kind())
}

/// Writes records and their RRSIG records under one owner.
pub fn put_both(
    writer: &mut Writer,
    question: &Name,
    owner: &NameRef,
    records: &[Rr],
    signed: &[Rr],
)
    ensures { writer.new.writing
        ≡ also writer.old.writing (entries_octets question.now
        (entries owner.now records.now ++ entries owner.now signed.now)) }
{
    let shown = shown_owner(question, owner);
    put_entries_under(writer, &shown, records);
    put_entries_under(writer, &shown, signed);
}

/// Writes records under an owner whose form in the reply is known.
fn put_entries_under(writer: &mut Writer, shown: &Shown<'_>, records: &[Rr])
    ensures { (question owner : Name) → owner_shown shown.now ≡ owner_octets question owner
        → writer.new.writing
        ≡ also writer.old.writing (entries_octets question (entries owner records.now)) }
{
    if is_too_many(writer, records) {
        writer.overflow();
        return;
    }
    let mut kind = TYPE_RRSIG;
    let mut ttl = 0;
    'records: for rr in records {
        if writer.is_over() {
            return;
        }
        ttl = ttl_of(records, kind, ttl, rr);
        kind = rr.kind();
        put_entry_under(writer, shown, ttl, rr);
    }
}

/// Whether the first record and the last are of one type, as all are then.
fn is_one_type(records: &[Rr]) -> bool {
    match records {
        [] => true,
        [first, .., last] => first.kind() == last.kind(),
        [_] => true,
    }
}

/// Whether so many records can't fit, whatever they are.
fn is_too_many(writer: &Writer, records: &[Rr]) -> bool
    ensures { result ≡ true → left writer.now.writing < ENTRY_OCTETS * length records.now }
{
    writer.left() / ENTRY_OCTETS < records.len()
}

/// Writes an RRset under the name of its owner.
pub fn put_own(writer: &mut Writer, question: &Name, records: &[Rr])
    ensures { writer.new.writing
        ≡ also writer.old.writing (entries_octets question.now (own_entries records.now)) }
{
    match records.first() {
        None => {}
        Some(first) => put_entries(writer, question, &first.owner_ref(), records),
    }
}

/// The TTL in seconds that a record of the list shows, where the least TTL of the records of one type is known.
fn ttl_of(records: &[Rr], kind: u16, ttl: u32, rr: &Rr) -> u32
    requires { kind ≢ TYPE_RRSIG → ttl ≡ least_ttl kind records.now }
    ensures { result ≡ entry_ttl records.now rr.now }
{
    if rr.kind() == TYPE_RRSIG {
        rr.ttl()
    } else if rr.kind() == kind {
        ttl
    } else {
        least_of(records, rr.kind())
    }
}

/// The least TTL of the records of a type, below 2^31.
fn least_of(records: &[Rr], kind: u16) -> u32
    ensures { result ≡ least_ttl kind records.now }
{
    records
        .iter()
        .filter(|rr| rr.kind() == kind)
        .fold(LONGEST_TTL, |least, rr| least.min(rr.ttl()))
}
