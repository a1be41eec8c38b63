//! The fields of RDATA, type by type.

ghost use Rattle.std.specs.Prelude.{◌≡◌, ◌≤◌, ◌+◌, ◌-◌, length, slice_index, nat_lt, Some, None, IfSome};
ghost use Rattle.std.specs.Prelude.{if◌then◌else◌};
ghost use Rattle.dz_record.specs.Fields.{fields_of, field_end, fits, is_rdata};

use dz_name::canonical_name_end;
use dz_name::dns::{
    MESSAGE_OCTETS, TYPE_A, TYPE_AAAA, TYPE_AFSDB, TYPE_CNAME, TYPE_DNAME, TYPE_KX, TYPE_MB,
    TYPE_MD, TYPE_MF, TYPE_MG, TYPE_MINFO, TYPE_MR, TYPE_MX, TYPE_NAPTR, TYPE_NS, TYPE_PTR,
    TYPE_PX, TYPE_RP, TYPE_RRSIG, TYPE_RT, TYPE_SOA, TYPE_SRV,
};

/// A field of RDATA (RFC 1035 section 3.3).
#[derive(Clone, Copy, Debug, PartialEq, Eq)]
pub enum Field {
    /// This many octets.
    FixedLength(u8),
    /// A domain name.
    DomainName,
    /// A length octet and the number of octets that it gives.
    CharacterString,
    /// All remaining octets.
    Remainder,
}

/// The fields that make up the RDATA of a type, in order. A type without a row has one remainder.
pub fn fields_of(kind: u16) -> &'static [Field]
    ensures { result.now ≡ fields_of kind }
{
    match kind {
        TYPE_A => &[Field::FixedLength(4)],
        TYPE_AAAA => &[Field::FixedLength(16)],
        TYPE_NS
        | TYPE_MD
        | TYPE_MF
        | TYPE_CNAME
        | TYPE_MB
        | TYPE_MG
        | TYPE_MR
        | TYPE_PTR
        | TYPE_DNAME => &[Field::DomainName],
        TYPE_SOA => &[Field::DomainName, Field::DomainName, Field::FixedLength(20)],
        TYPE_MINFO | TYPE_RP => &[Field::DomainName, Field::DomainName],
        TYPE_MX | TYPE_AFSDB | TYPE_RT | TYPE_KX => &[Field::FixedLength(2), Field::DomainName],
        TYPE_PX => &[Field::FixedLength(2), Field::DomainName, Field::DomainName],
        TYPE_SRV => &[Field::FixedLength(6), Field::DomainName],
        TYPE_NAPTR => &[
            Field::FixedLength(4),
            Field::CharacterString,
            Field::CharacterString,
            Field::CharacterString,
            Field::DomainName,
        ],
        TYPE_RRSIG => &[Field::FixedLength(18), Field::DomainName, Field::Remainder],
        _ => &[Field::Remainder],
    }
}

/// The offset after the field that begins at an offset, if it is complete.
fn field_end(field: Field, rdata: &[u8], at: usize) -> Option<usize>
    requires { at ≤ length rdata.now }
    ensures value { result ≡ field_end field rdata.now at }
    ensures within { IfSome result (λ end. end ≤ length rdata.now) }
{
    let left = rdata.len() - at;
    match field {
        Field::FixedLength(count) if count as usize <= left => Some(at + count as usize),
        Field::FixedLength(_) => None,
        Field::DomainName => canonical_name_end(rdata, at),
        Field::CharacterString => string_end(rdata, at),
        Field::Remainder => Some(rdata.len()),
    }
}

/// The offset after a character string, if it is complete.
fn string_end(rdata: &[u8], at: usize) -> Option<usize>
    requires { at ≤ length rdata.now }
    ensures within { IfSome result (λ end. end ≤ length rdata.now) }
    ensures value { result ≡ (if nat_lt (slice_index rdata.now at) (length rdata.now - at)
        then Some (at + (slice_index rdata.now at + 1)) else None) }
{
    if at == rdata.len() {
        return None;
    }
    let count = rdata[at] as usize;
    if count < rdata.len() - at {
        Some(at + (count + 1))
    } else {
        None
    }
}

/// Whether RDATA is in the canonical form of its type: its fields follow one another, with names in lower case and
/// without pointers, nothing follows the last, and it has at most 65,535 octets (RFC 4034 section 6.2).
pub fn is_rdata(kind: u16, rdata: &[u8]) -> bool
    ensures { result ≡ is_rdata kind rdata.now }
{
    rdata.len() <= MESSAGE_OCTETS && fit(fields_of(kind), rdata)
}

/// Whether RDATA consists of these fields, one after the other.
fn fit(fields: &[Field], rdata: &[u8]) -> bool
    ensures { result ≡ fits fields.now rdata.now 0 }
{
    let mut at = 0;
    'fields: for field in fields {
        match field_end(*field, rdata, at) {
            None => return false,
            Some(end) => at = end,
        }
    }
    at == rdata.len()
}
