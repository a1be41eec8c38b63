//! One transfer over a link.
ghost use Rattle.std.specs.Prelude.{◌≡◌, ◌≤◌, None};
ghost use Rattle.dz_fetch.specs.Fetching.{IsTaken, IsFetch, Counts};
ghost use Rattle.dz_fetch.specs.Query.{query_of};
ghost use Rattle.dz_fetch.specs.inner.Frames.{IsAsked};

use crate::Fetched;
use crate::query::framed_query;
use crate::take::take_all;
use dz_io::{Dialer, Failed, Link, Sink};
use dz_job::Job;
use std::alloc::Global;

/// Dials the job's primary, writes the job's query, reads messages up to the first that decides or to the link's end,
/// and gives the link back. It dials before it takes memory.
pub fn fetch<D: Dialer>(alloc: Global, dialer: &mut D, job: &Job) -> Fetched
    requires { D.out dialer.old ≡ None }
    ensures out { D.out dialer.new ≡ None }
    ensures fetched { IsFetch result job.now (D.links dialer.old) (D.links dialer.new)
        (D.faults dialer.old) (D.faults dialer.new) }
    ensures later { D.faults dialer.old ≤ D.faults dialer.new }
    ensures faults { Counts result (D.faults dialer.old) (D.faults dialer.new) }
{
    match dialer.dial(job.primary()) {
        Err(Failed) => Fetched::LinkFault,
        Ok(link) => {
            let mut link = link;
            let fetched = ask(alloc, &mut link, job);
            dialer.done(link);
            fetched
        }
    }
}

/// Writes the job's query to a link, and reads what it gives.
#[tactic(auto, using(crate::proofs::FetchLemmas::none_written, crate::proofs::FetchLemmas::asked_by))]
fn ask<L: Link>(alloc: Global, link: &mut L, job: &Job) -> Fetched
    ensures asked { IsAsked result (query_of job.now) (L.held link.old) (L.held link.new) }
    ensures taken { IsTaken result job.now (L.given link.old) (L.given link.new) (L.left link.new) }
    ensures later { L.Source.faults link.old ≤ L.Source.faults link.new }
    ensures faults { Counts result (L.Source.faults link.old) (L.Source.faults link.new) }
{
    match framed_query(alloc, job) {
        Err(_) => Fetched::OutOfMemory,
        Ok(query) => match link.write(&query) {
            Err(Failed) => Fetched::LinkFault,
            Ok(()) => take_all(alloc, link, job),
        },
    }
}
