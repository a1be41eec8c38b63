//! Provisioners: a job that goes to another core.

ghost use Rattle.std.specs.Prelude.{◌≡◌, List, [], None};
ghost use Rattle.dz_settings.specs.declared.config.CatalogSettings.{CatalogSettings};
ghost use Rattle.dz_fleet.specs.Core.{opened_core};

use crate::configs::config;
use crate::desks::open_one;
use dz_desk::Publisher;
use dz_fleet::{Due, Job};
use dz_io::MemorySink;
use dz_provision::{Locked, Naming, Parts, Provisioner, Shared, Unmade};
use std::alloc::Global;
use std::marker::Brand;
use std::process::Abort;
use std::sync::Wait;
use std::sync::ledger::{Blank, Book};
use std::test::*;

/// A provisioner of one catalog of this name.
fn begin<R: Abort + Wait, J: Naming>(
    rt: &R,
    alloc: Global,
    publisher: Publisher,
    catalog: &str,
    starved: Book<J>,
) -> Provisioner<MemorySink, J>
    requires publisher { (publisher.list ≡ []) × (publisher.staged ≡ None)
        × (publisher.book ≡ J.publisher) }
    requires starved { starved.total ≡ 0 }
    ensures { (config : List CatalogSettings) × (result.core ≡ opened_core config) }
{
    let Ok(config) = config(rt, alloc, catalog) else {
        panic!(rt; "out of memory");
    };
    let output = MemorySink::new(alloc, Vec::new(alloc));
    match Provisioner::start(rt, alloc, config, publisher, output, starved) {
        Ok(provisioner) => provisioner,
        Err(_) => panic!(rt; "out of memory"),
    }
}

/// The job that is due at the moment 0.
fn first_job<J: Naming>(rt: &impl Abort, provisioner: &mut Provisioner<MemorySink, J>) -> Job
    requires { (config : List CatalogSettings) × (provisioner.old.core ≡ opened_core config) }
    ensures { (result.flight.entries ≡ 1) × (result.held ≡ None) }
{
    assert_eq!(rt; provisioner.count(), 1);
    match provisioner.hand_out(0) {
        Ok(Due::Job(job)) => job,
        _ => panic!(rt; "no job"),
    }
}

/// Ends a provisioner and its publisher: what was written.
fn written<R: Wait, J: Naming>(rt: &R, provisioner: Provisioner<MemorySink, J>) -> MemorySink {
    let Parts {
        fleet: _,
        publisher,
        output,
        log_failed: _,
        starved: _,
    } = provisioner.close();
    publisher.close(rt);
    output
}

/// A provisioner of `cat1.example.` hands a job out, which goes to one of `cat2.example.` that has this publisher.
fn give_a_job_away<R: Abort + Wait, J: Naming + Send>(
    rt: &R,
    alloc: Global,
    own: Publisher,
    other: Publisher,
    ledger: Blank,
)
    requires own { (own.list ≡ []) × (own.staged ≡ None) × (own.book ≡ J.publisher) }
    requires other { (other.list ≡ []) × (other.staged ≡ None) }
    requires ledger { (ledger.name ≡ J.name) × (ledger.parts ≡ J.parts) }
{
    let (starved, _) = ledger.open::<J>();
    let mut one: Provisioner<MemorySink, J> = begin(rt, alloc, own, "cat1.example.", starved);
    let job = first_job(rt, &mut one);
    let shared: Shared<MemorySink, J> = Locked::over(one);
    refuse_a_job::<R, Brand>(rt, alloc, other, Blank::new(1), job);
    let output = written(rt, shared.close());
    assert_eq!(rt;
        output.written(),
        b"job 1 cat1.example. axfr id 1 at 192.0.2.1:53\n".as_slice()
    );
}

/// A provisioner of `cat2.example.` is given a job that isn't its own.
fn refuse_a_job<R: Abort + Wait, J: Naming>(
    rt: &R,
    alloc: Global,
    own: Publisher,
    ledger: Blank,
    job: Job,
)
    requires own { (own.list ≡ []) × (own.staged ≡ None) × (own.book ≡ J.publisher) }
    requires ledger { (ledger.name ≡ J.name) × (ledger.parts ≡ J.parts) }
    requires job { (job.flight.entries ≡ 1) × (job.held ≡ None) }
{
    let (starved, _) = ledger.open::<J>();
    let mut two: Provisioner<MemorySink, J> = begin(rt, alloc, own, "cat2.example.", starved);
    assert!(rt; matches!(two.fail(job, 0), Err(Unmade::NotInFlight(_))));
    assert_eq!(rt; two.count(), 1);
    let output = written(rt, two);
    assert!(rt; output.written().is_empty());
}

#[test]
fn a_job_of_another_core_changes_nothing(rt: HostRuntime) {
    let (one, _) = open_one(&rt, rt.alloc());
    let (two, _) = open_one(&rt, rt.alloc());
    give_a_job_away::<HostRuntime, Brand>(&rt, rt.alloc(), one, two, Blank::new(1));
}
