//! The query of a job.

ghost use Rattle.std.specs.Prelude.{◌≡◌, ◌≤◌, length, drop, IfOk, option_map};
ghost use Rattle.dz_name.specs.Numbers.{number_of_two};
ghost use Rattle.dz_take.specs.Query.{asked_octets, soa_asked};
ghost use Rattle.dz_job.specs.Job.{transfer_for};

use crate::job::Job;
use dz_message::write_query;
use dz_name::Octets;
use dz_record::Rr;
use dz_take::Ask;
use std::alloc::{AllocError, Global};

/// The most octets of a query before it is signed: a header of 12, a question of 255 + 4, and an SOA record of 255 + 10
/// octets and 2 * 255 + 20 of RDATA.
pub const QUERY_OCTETS: usize = 1066;

impl Job {
    /// The query that the job sends, unsigned, and without the two octets of length that precede it over TCP.
    ///
    /// # Errors
    ///
    /// `AllocError` where there is no memory for it.
    pub fn query(&self, alloc: Global) -> Result<Octets, AllocError>
        ensures octets { IfOk result (λ o. o ≡ asked_octets (transfer_for self.now)) }
        ensures long { IfOk result (λ o. 12 ≤ length o) }
        ensures short { IfOk result (λ o. length o ≤ QUERY_OCTETS) }
        ensures additional { IfOk result (λ o. number_of_two (drop 10 o) ≡ 0) }
    {
        let apex = self.zone();
        let held = self.soa_asked();
        let id = self.id();
        let query = write_query(alloc, id, apex, held)?;
        Ok(query)
    }

    /// The SOA record of the version that differences are asked from.
    fn soa_asked(&self) -> Option<&Rr>
        ensures { option_map (λ r. r.now) result ≡ soa_asked (transfer_for self.now) }
    {
        match self.ask() {
            Ask::Axfr => None,
            Ask::Ixfr => match self.held() {
                None => None,
                Some(version) => Some(version.apex_soa()),
            },
        }
    }
}
