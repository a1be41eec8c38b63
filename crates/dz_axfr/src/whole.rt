//! The whole form, fed record by record.

ghost use Rattle.std.specs.Prelude.{◌≡◌, ◌<◌, ◌∷◌, ◌++◌, [], true, length, slice_index_or, List, IfOk, IfErr};
ghost use Rattle.std.specs.List.{position};
ghost use Rattle.dz_name.specs.declared.dns.TheConstants.{TYPE_SOA};
ghost use Rattle.dz_record.specs.Record.{Record};
ghost use Rattle.dz_record.specs.Records.{distinct};
ghost use Rattle.dz_xfr.specs.Apex.{is_apex_soa};
ghost use Rattle.dz_xfr.specs.Feeding.{IsOpen, progress_of};
ghost use Rattle.dz_xfr.specs.Answers.{Says};
ghost use Rattle.dz_xfr.specs.Stands.{Stands, IsComplete};
ghost use Rattle.dz_axfr.specs.Whole.{IsWhole, Blames};
ghost use Rattle.dz_axfr.specs.inner.Kept.{Cuts, Misfits};

use crate::kept::Kept;
use dz_name::Name;
use dz_record::Rr;
use dz_xfr::{Fed, FeedError, Progress, ShapeFault, is_apex_soa, same_rdata};
use std::alloc::{AllocError, Global};
use std::marker::Model;

/// The records of a whole form so far: the first SOA, followed by the body. Contracts see all records that were fed.
#[derive(Drop)]
pub struct Whole {
    apex: Name,
    kept: Kept,
    progress: Progress,
    fed: Fed,
}

impl Model for Whole {
    ghost use Rattle.dz_axfr.specs.Assembly.{Assembly};
    ghost use Rattle.dz_axfr.specs.inner.Kept.{IsHeld};

    ghost Value = { Assembly };

    ghost view = { λ w. record { apex = w.apex; fed = w.fed } };

    ghost invariant = { λ w. IsHeld w.apex w.kept w.progress w.fed };
}

impl Whole {
    /// A form that begins with this SOA, whose owner name is the apex.
    ///
    /// # Errors
    ///
    /// `AllocError` where there is no memory for the first record.
    pub fn start(alloc: Global, first: Rr) -> Result<Whole, AllocError>
        requires { first.kind ≡ TYPE_SOA }
        ensures started { IfOk result (λ w. w ≡ record { apex = first.owner; fed = first ∷ [] }) }
        ensures is_open { IfOk result (λ w. IsOpen (IsWhole w.apex) Blames w.fed) }
    {
        let apex = first.owner();
        let fed = Fed::nothing().and(&first);
        let kept = Kept::one(alloc, first)?;
        Ok(Whole {
            apex,
            kept,
            progress: Progress::More,
            fed,
        })
    }

    /// Reads further records: the form with them, and whether the records that were fed are a whole form, or more is to
    /// come. Once it has ended nothing more may be fed; an error leaves no form that could be fed.
    ///
    /// # Errors
    ///
    /// The fault of the first record with which no whole form goes on, or `AfterEnd` where records follow one; or out
    /// of memory, as which it also counts where the records, those that are the same being counted once, are more than
    /// [`dz_xfr::KEPT_RECORDS`] or take more than [`dz_xfr::KEPT_OCTETS`].
    pub fn feed(self, records: Vec<Rr>) -> Result<(Whole, Progress), FeedError>
        requires { IsOpen (IsWhole self.apex) Blames self.fed }
        ensures apex { IfOk result (λ r. r.0.apex ≡ self.apex) }
        ensures fed { IfOk result (λ r. r.0.fed ≡ self.fed ++ records.items) }
        ensures says { Says (progress_of result)
            (Stands (IsWhole self.apex) Blames (self.fed ++ records.items)) }
    {
        let fed = self.fed.and_all(&records);
        match body_of(&self.apex, first_of(self.kept.records()), records) {
            Ok((body, progress)) => {
                let Whole { apex, kept, .. } = self;
                let kept = kept.and(body)?;
                Ok((
                    Whole {
                        apex,
                        kept,
                        progress,
                        fed,
                    },
                    progress,
                ))
            }
            Err(fault) => Err(FeedError::Shape(fault)),
        }
    }

    /// The records of the zone: the first SOA and the body, which are all that were fed but the last, in the order in
    /// which they came. Of records that are the same some may be left out, but the first is there.
    pub fn finish(self) -> Vec<Rr>
        requires { IsComplete (IsWhole self.apex) self.fed }
        ensures whole { IsWhole self.apex self.fed (distinct result.items) }
        ensures items { (front : List Record) × (last : Record)
            × (self.fed ≡ front ++ last ∷ []) × (distinct result.items ≡ distinct front) }
    {
        self.kept.into_records()
    }
}

/// The first of some records.
fn first_of(records: &[Rr]) -> &Rr
    requires { 0 < length records.now }
    ensures { result.now ≡ slice_index_or records.now 0 result.now }
{
    &records[0]
}

/// The index of the first SOA of the apex; `None` where there is none.
fn first_soa(apex: &Name, records: &[Rr]) -> Option<usize>
    ensures { result ≡ position (is_apex_soa apex.now) records.now }
{
    records.iter().position(|found| is_apex_soa(apex, found))
}

/// What of these records belongs to the body of a form that begins with this SOA, and whether one of them closes it.
///
/// # Errors
///
/// `SerialGap` where an SOA has other RDATA than the first, `AfterEnd` where records follow the one that closes the
/// form.
fn body_of(apex: &Name, first: &Rr, mut records: Vec<Rr>) -> Result<(Vec<Rr>, Progress), ShapeFault>
    requires { is_apex_soa apex.now first.now ≡ true }
    ensures body { IfOk result (λ r. Cuts apex.now first.now records.items r.1 r.0.items) }
    ensures fault { IfErr result (Misfits apex.now first.now records.items) }
{
    match first_soa(apex, records.as_slice()) {
        None => Ok((records, Progress::More)),
        Some(at) => {
            if !same_rdata(&records[at], first) {
                return Err(ShapeFault::SerialGap);
            }
            if at + 1 < records.len() {
                return Err(ShapeFault::AfterEnd);
            }
            records.truncate(at);
            Ok((records, Progress::Ended))
        }
    }
}
