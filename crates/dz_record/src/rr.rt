//! Resource records.

ghost use Rattle.std.specs.Prelude.{◌≡◌, ◌<◌, ◌≤◌, ◌⊎◌, length, ◌++◌, IsTrue, IfOk, OnOk, OnErr, IfErr, Ok, Err, true};
ghost use Rattle.std.specs.Prelude.{false, is_ok, if◌then◌else◌};
ghost use Rattle.dz_record.specs.inner.Kept.{octets_of};
ghost use Rattle.dz_name.specs.Name.{wire_of, is_within, same_name, canonical_order};
ghost use Rattle.std.specs.Ordering.{nat_cmp};
ghost use Rattle.dz_record.specs.Fields.{is_rdata};
ghost use Rattle.dz_record.specs.Record.{Record, IsRecord, same_record, record_order, full_order, record_octets};
ghost use Rattle.dz_record.specs.Record.{soa_numbers, soa_of, target_of, has_target, is_bad_type, ttl_of, record_of};
ghost use Rattle.dz_record.specs.Answers.{Makes};
ghost use Rattle.dz_name.specs.Numbers.{two};

use crate::fields::is_rdata;
use dz_name::dns::{
    CLASS_IN, MESSAGE_OCTETS, TYPE_A6, TYPE_ANY, TYPE_CNAME, TYPE_DNAME, TYPE_NS, TYPE_NXT,
    TYPE_OPT, TYPE_PTR, TYPE_SIG, TYPE_SOA, TYPE_TKEY,
};
use dz_name::numbers::{four, number_of_four, two};
use dz_name::{Name, NameRef, Octets};
use smallvec::SmallVec;
use std::alloc::{AllocError, Global};
use std::cmp::Ordering;
use std::marker::Model;
use std::sync::Arc;

/// What is wrong with the fields of a record.
#[derive(Clone, Copy, Debug, PartialEq, Eq)]
pub enum RrFault {
    /// The RDATA isn't the canonical form of its type, or has more than 65,535 octets.
    BadRdata,
    /// No zone holds records of this type: SIG, NXT, A6, OPT, and the QTYPEs and Meta-TYPEs from 249 to 255.
    BadType,
}

/// Why no record was made.
#[derive(Clone, Copy, Debug, PartialEq, Eq)]
pub enum RrError {
    /// There is no such record.
    Fault(RrFault),
    OutOfMemory,
}

/// The numbers of an SOA record: the serial, and times in seconds (RFC 1035 section 3.3.13).
#[derive(Clone, Copy, Debug, PartialEq, Eq)]
pub struct Soa {
    pub serial: u32,
    pub refresh: u32,
    pub retry: u32,
    pub expire: u32,
    pub minimum: u32,
}

/// Records of at most this many octets are kept in the shared allocation itself.
const INLINE: usize = 48;

/// A resource record of class IN whose RDATA is in the canonical form of its type (RFC 1035 section 3.2.1, RFC 4034
/// section 6.2), and whose TTL is below 2^31 seconds (RFC 2181 section 8).
#[derive(Debug, Drop)]
pub struct Rr {
    octets: Arc<SmallVec<u8, INLINE>>,
    owner_len: u8,
    kind: u16,
}

impl Model for Rr {
    ghost use Rattle.dz_record.specs.Record.{Record};
    ghost use Rattle.dz_record.specs.inner.Kept.{record_in, IsKept};

    ghost Value = { Record };

    ghost view = { λ r. record_in (r.octets.value.items) r.owner_len r.kind };

    ghost invariant = { λ r. IsKept (r.octets.value.items) r.owner_len r.kind };
}

impl Rr {
    /// A record with these fields. A TTL whose top bit is set is kept as 0.
    ///
    /// # Errors
    ///
    /// A fault where there is no such record, the type being checked before the RDATA; or out of memory.
    pub fn make(
        alloc: Global,
        owner: Name,
        kind: u16,
        ttl: u32,
        rdata: Octets,
    ) -> Result<Rr, RrError>
        ensures { Makes result (record_of owner kind ttl rdata) }
    {
        if is_bad_type(kind) {
            return Err(RrError::Fault(RrFault::BadType));
        }
        if !is_rdata(kind, rdata.as_slice()) {
            return Err(RrError::Fault(RrFault::BadRdata));
        }
        match Rr::from_parts(alloc, &owner, kind, ttl, rdata.as_slice()) {
            Ok(record) => Ok(record),
            Err(_) => Err(RrError::OutOfMemory),
        }
    }

    /// The record with fields that are known to be valid. A TTL whose top bit is set is kept as 0.
    ///
    /// # Errors
    ///
    /// `AllocError` where there is no memory for its octets.
    pub fn from_parts(
        alloc: Global,
        owner: &Name,
        kind: u16,
        ttl: u32,
        rdata: &[u8],
    ) -> Result<Rr, AllocError>
        requires kind { is_bad_type kind ≡ false }
        requires rdata { is_rdata kind rdata.now ≡ true }
        ensures { IfOk result (λ r. record_of owner.now kind ttl rdata.now ≡ Ok r) }
    {
        let wire = owner.wire();
        let mut octets = SmallVec::with_capacity(alloc, wire.len() + 10 + rdata.len())?;
        put_record(&mut octets, wire, kind, ttl_of(ttl), rdata)?;
        let octets = Arc::new(alloc, octets)?;
        Ok(Rr {
            octets,
            owner_len: wire.len() as u8,
            kind,
        })
    }

    /// The same record once more, sharing its octets.
    ///
    /// # Errors
    ///
    /// `AllocError` where another owner of the octets can't be counted.
    pub fn share(&self) -> Result<Rr, AllocError>
        ensures { IfOk result (λ r. r ≡ self.now) }
    {
        Ok(Rr {
            octets: self.octets.clone()?,
            owner_len: self.owner_len,
            kind: self.kind,
        })
    }

    /// The record without pointers: owner, type, class IN, TTL, length of RDATA, RDATA (RFC 1035 section 4.1.3).
    pub fn octets(&self) -> &[u8]
        ensures octets { result.now ≡ record_octets self.now }
        ensures valid { IsRecord self.now }
    {
        self.octets.as_slice()
    }

    /// How many octets the wire form of the owner name has.
    fn owner_size(&self) -> usize
        ensures size { result ≡ length (wire_of self.now.owner) }
        ensures small { result < 256 }
    {
        self.owner_len as usize
    }

    /// The owner name, as a reference into the octets of the record.
    pub fn owner_ref(&self) -> NameRef<'_>
        ensures { result ≡ self.now.owner }
    {
        NameRef::of_wire(self.octets().split_at(self.owner_size()).0)
    }

    /// A copy of the owner name.
    pub fn owner(&self) -> Name
        ensures { result ≡ self.now.owner }
    {
        self.owner_ref().to_name()
    }

    /// Whether the owner name is this name.
    pub fn is_owned_by(&self, name: &Name) -> bool
        ensures { result ≡ same_name self.now.owner name.now }
    {
        self.owner_ref().same(&name.as_ref())
    }

    /// Whether the owner name is this name or below it.
    pub fn is_within(&self, above: &Name) -> bool
        ensures { result ≡ is_within self.now.owner above.now }
    {
        self.owner_ref().is_within(&above.as_ref())
    }

    /// Whether the owner name is before, at or after a name in canonical order (RFC 4034 section 6.1).
    pub fn owner_cmp(&self, name: &Name) -> Ordering
        ensures { result ≡ canonical_order self.now.owner name.now }
    {
        self.owner_ref().canonical_cmp(&name.as_ref())
    }

    /// The number of the type.
    pub fn kind(&self) -> u16
        ensures kind { result ≡ self.now.kind }
        ensures valid { IsRecord self.now }
    {
        self.kind
    }

    /// The TTL in seconds, below 2^31.
    pub fn ttl(&self) -> u32
        ensures { result ≡ self.now.ttl }
    {
        number_of_four(self.octets().split_at(self.owner_size() + 4).1)
    }

    /// The RDATA in canonical form, at most 65,535 octets.
    pub fn rdata(&self) -> &[u8]
        ensures rdata { result.now ≡ self.now.rdata }
        ensures valid { IsRecord self.now }
    {
        self.octets().split_at(self.owner_size() + 10).1
    }

    /// Type and class, as they follow the owner name: four octets.
    pub fn kind_and_class(&self) -> &[u8]
        ensures { result.now ≡ two self.now.kind ++ two CLASS_IN }
    {
        self.octets().split_at(self.owner_size()).1.split_at(4).0
    }

    /// The RDATA preceded by its length in two octets, as it follows the TTL.
    pub fn sized_rdata(&self) -> &[u8]
        ensures { result.now ≡ two (length self.now.rdata) ++ self.now.rdata }
    {
        self.octets().split_at(self.owner_size() + 8).1
    }

    /// Whether owner, type and RDATA agree (RFC 2181 section 5).
    pub fn same(&self, other: &Rr) -> bool
        ensures { result ≡ same_record self.now other.now }
    {
        self.owner_ref().same(&other.owner_ref())
            && self.kind == other.kind
            && self.rdata() == other.rdata()
    }

    /// The order of a zone's records: owner, type, RDATA. Records that are the same compare as equal.
    pub fn record_cmp(&self, other: &Rr) -> Ordering
        ensures { result ≡ record_order self.now other.now }
    {
        self.owner_ref()
            .canonical_cmp(&other.owner_ref())
            .then(self.kind.cmp(&other.kind))
            .then(self.rdata().cmp(other.rdata()))
    }

    /// Canonical order: owner, type, RDATA, and then the TTL (RFC 4034 section 6).
    pub fn canonical_cmp(&self, other: &Rr) -> Ordering
        ensures { result ≡ full_order self.now other.now }
    {
        self.record_cmp(other).then(self.ttl().cmp(&other.ttl()))
    }

    /// The numbers of an SOA; none for every other type.
    pub fn soa(&self) -> Option<Soa>
        ensures { result ≡ soa_of self.now }
    {
        if self.kind() != TYPE_SOA {
            return None;
        }
        let rdata = self.rdata();
        Some(soa_numbers(rdata.split_at(rdata.len() - 20).1))
    }

    /// The name that an NS, CNAME, PTR or DNAME leads to; none for every other type.
    pub fn target(&self) -> Option<Name>
        ensures { result ≡ target_of self.now }
    {
        match self.target_ref() {
            None => None,
            Some(name) => Some(name.to_name()),
        }
    }

    /// The same name as the RDATA holds it, without a copy.
    pub fn target_ref(&self) -> Option<NameRef<'_>>
        ensures { result ≡ target_of self.now }
    {
        if !has_target(self.kind()) {
            return None;
        }
        Some(NameRef::of_wire(self.rdata()))
    }

    /// Appends the record without pointers (RFC 1035 section 4.1.3), or nothing and `AllocError` where memory runs out.
    pub fn encode(&self, out: &mut Vec<u8>) -> Result<(), AllocError>
        ensures octets { out.new.items
            ≡ (if is_ok result then out.old.items ++ record_octets self.now else out.old.items) }
        ensures valid { IsRecord self.now }
    {
        out.extend_from_slice(self.octets())
    }
}

/// Appends the octets of a record with these fields. `AllocError` where memory runs out.
fn put_record(
    out: &mut SmallVec<u8, INLINE>,
    owner: &[u8],
    kind: u16,
    ttl: u32,
    rdata: &[u8],
) -> Result<(), AllocError>
    requires { length rdata.now ≤ MESSAGE_OCTETS }
    ensures { OnOk result (out.new.items
        ≡ out.old.items ++ octets_of owner.now kind ttl rdata.now) }
{
    out.extend_from_slice(owner)?;
    out.extend_from_slice(&two(kind))?;
    out.extend_from_slice(&two(CLASS_IN))?;
    out.extend_from_slice(&four(ttl))?;
    out.extend_from_slice(&two(rdata.len() as u16))?;
    out.extend_from_slice(rdata)
}

/// Whether no zone holds records of the type (RFC 6895 section 3.1).
pub fn is_bad_type(kind: u16) -> bool
    ensures { result ≡ is_bad_type kind }
{
    matches!(
        kind,
        TYPE_SIG | TYPE_NXT | TYPE_A6 | TYPE_OPT | TYPE_TKEY..=TYPE_ANY
    )
}

/// Whether records of the type lead to a name, which is their whole RDATA.
fn has_target(kind: u16) -> bool
    ensures { result ≡ has_target kind }
{
    matches!(kind, TYPE_NS | TYPE_CNAME | TYPE_PTR | TYPE_DNAME)
}

/// The effective TTL in seconds: one whose top bit is set counts as 0 (RFC 2181 section 8).
fn ttl_of(ttl: u32) -> u32
    ensures { result ≡ ttl_of ttl }
{
    if ttl < 0x8000_0000 { ttl } else { 0 }
}

/// The numbers of an SOA, given the last 20 octets of its RDATA.
fn soa_numbers(octets: &[u8]) -> Soa
    requires { 20 ≤ length octets.now }
    ensures { result ≡ soa_numbers octets.now }
{
    Soa {
        serial: number_of_four(octets),
        refresh: number_of_four(&octets[4..]),
        retry: number_of_four(&octets[8..]),
        expire: number_of_four(&octets[12..]),
        minimum: number_of_four(&octets[16..]),
    }
}
