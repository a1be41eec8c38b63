//! How many records of a zone are of types that it treats apart.

ghost use Rattle.std.specs.Prelude.{◌≡◌, ◌<◌, All};
ghost use Rattle.dz_record.specs.Record.{IsRecord};
ghost use Rattle.dz_zone.specs.inner.Kinds.{counted, kinds_of};

use dz_name::Name;
use dz_name::dns::{TYPE_CNAME, TYPE_DNAME, TYPE_DS, TYPE_NS, TYPE_NSEC, TYPE_RRSIG, TYPE_SOA};
use dz_record::Rr;

/// How many records of a zone are of types that it treats apart.
#[derive(Clone, Copy, Debug, PartialEq, Eq)]
pub(crate) struct Kinds {
    /// Of types of which an owner has at most one record: SOA, CNAME and DNAME.
    pub(crate) singletons: usize,
    /// NS below the apex.
    pub(crate) cuts: usize,
    /// DNAME.
    pub(crate) dnames: usize,
    /// Of types of DNSSEC: DS, RRSIG and NSEC.
    pub(crate) secure: usize,
}

impl Kinds {
    /// Counts one more record. The owner is compared with the apex for NS alone.
    fn count(&mut self, apex: &Name, found: &Rr)
        requires singletons { self.old.singletons < usize.MAX }
        requires cuts { self.old.cuts < usize.MAX }
        requires dnames { self.old.dnames < usize.MAX }
        requires secure { self.old.secure < usize.MAX }
        ensures counted { self.new ≡ counted apex.now self.old found.now }
        ensures held { IsRecord found.now }
    {
        match found.kind() {
            TYPE_SOA | TYPE_CNAME => self.singletons += 1,
            TYPE_DNAME => {
                self.singletons += 1;
                self.dnames += 1;
            }
            TYPE_NS => {
                if !found.is_owned_by(apex) {
                    self.cuts += 1;
                }
            }
            TYPE_DS | TYPE_RRSIG | TYPE_NSEC => self.secure += 1,
            _ => {}
        }
    }
}

/// How many of these records are of each such type, in one pass.
pub(crate) fn kinds_of(apex: &Name, records: &[Rr]) -> Kinds
    ensures kinds { result ≡ kinds_of apex.now records.now }
    ensures held { All IsRecord records.now }
{
    let mut kinds = Kinds {
        singletons: 0,
        cuts: 0,
        dnames: 0,
        secure: 0,
    };
    'records: for record in records {
        kinds.count(apex, record);
    }
    kinds
}
