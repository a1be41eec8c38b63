//! Zones that are restored when a server starts again.

ghost use Rattle.std.specs.Prelude.{◌≡◌, ◌≢◌, ◌⊎◌, ◌↔◌, ◌+◌, ◌-◌, ◌<◌, ◌≤◌, ◌^◌, ℕ, List, Option, Some, None, true};
ghost use Rattle.std.specs.Prelude.{false, length, is_some, slice_get, IfOk, OnOk, option_map};
ghost use Rattle.std.specs.Option.{ForSome};
ghost use mathlib.Core.List.{IsPrefix};
ghost use Rattle.dz_io.specs.Counts.{HasRisen};
ghost use Rattle.dz_disk.specs.Disk.{IsQuiet};
ghost use Rattle.dz_disk.specs.RecordLog.{records};
ghost use Rattle.dz_store.specs.Kept.{meaning_of};
ghost use Rattle.dz_store.specs.Payload.{reads};
ghost use Rattle.dz_store.specs.Store.{kept};
ghost use Rattle.dz_history.specs.Legal.{IsLegal};
ghost use Rattle.dz_fleet.specs.Core.{state_of, settled, failed_core};
ghost use Rattle.dz_fleet.specs.Sound.{IsFlying};
ghost use Rattle.dz_restore.specs.Restoring.{moment_of, may_return, sent_with, ended_with, restore_one, restored};
ghost use Rattle.dz_restore.specs.Restoring.{told};
ghost use Rattle.dz_provision.specs.inner.Told.{HasStopped, HadTurn, HadTurns};

use crate::naming::Naming;
use crate::provisioner::{Provisioner, Unmade};
use dz_desk::Reading;
use dz_disk::Disk;
use dz_fleet::{Due, Fleet, Job, Verdict};
use dz_io::Sink;
use dz_name::Name;
use dz_restore::{finished_of, may_return, zone_at};
use dz_store::{Kept, Store, StoreFault};
use std::alloc::{AllocError, Global};
use std::sync::Wait;

/// Moments are below 2^40.
const MOMENTS: u64 = 1 << 40;

/// How restoring ended.
#[derive(Clone, Copy, Debug, PartialEq, Eq)]
pub enum Restored {
    /// Each zone had its turn.
    Done,
    /// A write to the log has failed.
    LogFault,
    /// Memory ran out.
    OutOfMemory,
}

/// Places of zones: so many, from one on.
#[derive(Clone, Copy)]
struct Places {
    first: usize,
    count: usize,
}

/// Gives each zone back what a store keeps of it, the catalogs in the order of the configuration and then the members that
/// they list in canonical order. Each is handed out at its kept moment, or at 0. It is settled at its kept moment with its
/// kept version where the kept catalog and label are those of its membership and the catalog has no key, and else it fails
/// at moment 0. From a fault of the disk on nothing counts as kept. The reading is then shown the list.
///
/// It answers `LogFault` where a write to the log has failed, and `OutOfMemory` where memory runs out.
pub fn restore<K: Sink, J: Naming, D: Disk + Drop, R: Wait>(
    rt: &R,
    alloc: Global,
    provisioner: &mut Provisioner<K, J>,
    reading: &mut Reading,
    store: &mut Store<D>,
) -> Restored
    requires out { reading.old.is_out ≡ false }
    requires own { reading.old.book ≡ J.publisher }
    ensures restored { result ≡ Restored.Done → (f : List ℕ) → D.file store.old.disk ≡ Some f
        → (stop : Option ℕ) × (store.new.has_failed ≡ is_some stop)
        × (provisioner.new.core ≡ restored (told stop (records reads f)) provisioner.old.core) }
    ensures legal { IsLegal provisioner.new.core.list }
    ensures begun { 0 < length provisioner.new.core.list }
    ensures log { result ≡ Restored.LogFault → HasRisen 0 provisioner.new.faults }
    ensures failed { store.new.has_failed ≡ true → (store.old.has_failed ≡ true)
        ⊎ HasRisen (D.faults store.old.disk) (D.faults store.new.disk) }
    ensures quiet { IsQuiet D.file D.may_leave D.clock D.left_from
        store.old.disk store.new.disk }
    ensures shown { IsPrefix provisioner.new.core.list reading.new.list }
    ensures seen { IsPrefix reading.old.list reading.new.list }
    ensures same { reading.new ≡ record reading.old { list = reading.new.list } }
{
    let ended = restore_all(rt, alloc, provisioner, store);
    reading.learn(rt, provisioner.tell());
    ended
}

/// The same, but for the reading.
fn restore_all<K: Sink, J: Naming, D: Disk + Drop, R: Wait>(
    rt: &R,
    alloc: Global,
    provisioner: &mut Provisioner<K, J>,
    store: &mut Store<D>,
) -> Restored
    ensures restored { result ≡ Restored.Done → (f : List ℕ) → D.file store.old.disk ≡ Some f
        → (stop : Option ℕ) × (store.new.has_failed ≡ is_some stop)
        × (provisioner.new.core ≡ restored (told stop (records reads f)) provisioner.old.core) }
    ensures log { result ≡ Restored.LogFault → provisioner.new.failed ≡ true }
    ensures failed { store.new.has_failed ≡ true → (store.old.has_failed ≡ true)
        ⊎ HasRisen (D.faults store.old.disk) (D.faults store.new.disk) }
    ensures quiet { IsQuiet D.file D.may_leave D.clock D.left_from
        store.old.disk store.new.disk }
{
    let count = provisioner.fleet.fold().catalogs().len();
    let ended = restore_places(rt, alloc, provisioner, store, Places { first: 0, count });
    if !is_done(ended) {
        return ended;
    }
    let members = Places {
        first: count,
        count: member_count(&provisioner.fleet),
    };
    restore_places(rt, alloc, provisioner, store, members)
}

/// How many members there are, far fewer than a counter holds.
fn member_count(fleet: &Fleet) -> usize
    ensures count { result ≡ length (state_of fleet.now).fold.members }
    ensures few { result < 2 ^ 63 }
{
    let fold = fleet.fold();
    let _ = fold.catalogs();
    fold.count()
}

/// The zones at some places have their turns.
fn restore_places<K: Sink, J: Naming, D: Disk + Drop, R: Wait>(
    rt: &R,
    alloc: Global,
    provisioner: &mut Provisioner<K, J>,
    store: &mut Store<D>,
    places: Places,
) -> Restored
    requires { places.first + places.count < 2 ^ 64 }
    ensures turns { result ≡ Restored.Done → (f : List ℕ) → D.file store.old.disk ≡ Some f
        → (stop : Option ℕ) → HasStopped store.old.has_failed stop places.first
        → HadTurns (records reads f) store.new.has_failed stop places.first places.count
        provisioner.old.core provisioner.new.core }
    ensures log { result ≡ Restored.LogFault → provisioner.new.failed ≡ true }
    ensures failed { store.new.has_failed ≡ true → (store.old.has_failed ≡ true)
        ⊎ HasRisen (D.faults store.old.disk) (D.faults store.new.disk) }
    ensures steady { result ≡ Restored.Done → store.new.has_failed ≡ false
        → D.faults store.new.disk ≡ D.faults store.old.disk }
    ensures stuck { store.old.has_failed ≡ true → store.new ≡ store.old }
    ensures quiet { IsQuiet D.file D.may_leave D.clock D.left_from
        store.old.disk store.new.disk }
{
    let mut done = 0;
    'places: while done < places.count {
        let ended = restore_place(rt, alloc, provisioner, store, places.first + done);
        if !is_done(ended) {
            return ended;
        }
        done += 1;
    }
    Restored::Done
}

/// Whether each zone had its turn.
fn is_done(ended: Restored) -> bool
    ensures { result ≡ true ↔ ended ≡ Restored.Done }
{
    matches!(ended, Restored::Done)
}

/// The zone at a place has its turn.
fn restore_place<K: Sink, J: Naming, D: Disk + Drop, R: Wait>(
    rt: &R,
    alloc: Global,
    provisioner: &mut Provisioner<K, J>,
    store: &mut Store<D>,
    place: usize,
) -> Restored
    ensures turn { result ≡ Restored.Done → (f : List ℕ) → D.file store.old.disk ≡ Some f
        → HadTurn (records reads f) store.old.has_failed store.new.has_failed place
        provisioner.old.core provisioner.new.core }
    ensures log { result ≡ Restored.LogFault → provisioner.new.failed ≡ true }
    ensures failed { store.new.has_failed ≡ true → (store.old.has_failed ≡ true)
        ⊎ HasRisen (D.faults store.old.disk) (D.faults store.new.disk) }
    ensures steady { result ≡ Restored.Done → store.new.has_failed ≡ false
        → D.faults store.new.disk ≡ D.faults store.old.disk }
    ensures stuck { store.old.has_failed ≡ true → store.new ≡ store.old }
    ensures quiet { IsQuiet D.file D.may_leave D.clock D.left_from
        store.old.disk store.new.disk }
{
    let Some(zone) = zone_at(&provisioner.fleet, place) else {
        return Restored::Done;
    };
    match tale_of(alloc, store, &zone) {
        Ok(kept) => provisioner.restore_one(rt, alloc, kept),
        Err(_) => Restored::OutOfMemory,
    }
}

/// What a store tells of a zone. After a fault of the disk it is nothing.
fn tale_of<D: Disk + Drop>(
    alloc: Global,
    store: &mut Store<D>,
    zone: &Name,
) -> Result<Option<Kept>, AllocError>
    ensures told { IfOk result (λ o. (f : List ℕ) → D.file store.old.disk ≡ Some f
        → ((store.old.has_failed ≡ false) × ((store.new.has_failed ≡ false)
        × (option_map meaning_of o ≡ kept zone.now (records reads f))))
        ⊎ ((store.new.has_failed ≡ true) × (option_map meaning_of o ≡ None))) }
    ensures moment { IfOk result (λ o. ForSome o (λ k. k.refreshed < 2 ^ 40)) }
    ensures failed { store.new.has_failed ≡ true → (store.old.has_failed ≡ true)
        ⊎ HasRisen (D.faults store.old.disk) (D.faults store.new.disk) }
    ensures steady { IfOk result (λ o. store.new.has_failed ≡ false
        → D.faults store.new.disk ≡ D.faults store.old.disk) }
    ensures stuck { store.old.has_failed ≡ true → store.new ≡ store.old }
    ensures quiet { IsQuiet D.file D.may_leave D.clock D.left_from
        store.old.disk store.new.disk }
{
    match store.latest(alloc, zone) {
        Ok(Some(kept)) => {
            if kept.refreshed < MOMENTS {
                Ok(Some(kept))
            } else {
                Ok(None)
            }
        }
        Ok(None) => Ok(None),
        Err(StoreFault::OutOfMemory) => Err(AllocError),
        Err(_) => Ok(None),
    }
}

/// Whether memory ran out for a transfer.
fn is_starved(verdict: &Verdict) -> bool
    ensures { result ≡ true ↔ verdict.now ≡ Verdict.OutOfMemory }
{
    matches!(verdict, Verdict::OutOfMemory)
}

/// How a zone's turn ended, by the verdict of its transfer.
fn ended_by(verdict: &Verdict) -> Restored
    ensures done { result ≡ Restored.Done → verdict.now ≢ Verdict.OutOfMemory }
    ensures log { result ≢ Restored.LogFault }
{
    if is_starved(verdict) {
        Restored::OutOfMemory
    } else {
        Restored::Done
    }
}

/// When a zone is handed out: at its kept moment, or at 0.
fn moment_of(kept: &Option<Kept>) -> u64
    requires { ForSome kept.now (λ k. k.refreshed < 2 ^ 40) }
    ensures moment { result ≡ moment_of (option_map meaning_of kept.now) }
    ensures small { result < 2 ^ 40 }
{
    match kept {
        None => 0,
        Some(kept) => kept.refreshed,
    }
}

impl<K: Sink, J: Naming> Provisioner<K, J> {
    /// Hands out the zone whose turn it is, and ends its job by what is kept of it.
    fn restore_one<R: Wait>(&mut self, rt: &R, alloc: Global, kept: Option<Kept>) -> Restored
        requires { ForSome kept (λ k. k.refreshed < 2 ^ 40) }
        ensures core { result ≡ Restored.Done
            → self.new.core ≡ restore_one (option_map meaning_of kept) self.old.core }
        ensures log { result ≡ Restored.LogFault → self.new.failed ≡ true }
    {
        match self.hand_out(moment_of(&kept)) {
            Err(_) => Restored::LogFault,
            Ok(Due::Job(job)) => self.end_with(rt, alloc, job, kept),
            Ok(Due::OutOfMemory) => Restored::OutOfMemory,
            Ok(Due::Idle(_)) => Restored::Done,
            Ok(Due::Full(_)) => Restored::Done,
        }
    }

    /// Ends the core's job by what is kept of its zone.
    fn end_with<R: Wait>(&mut self, rt: &R, alloc: Global, job: Job, kept: Option<Kept>) -> Restored
        requires flying { IsFlying self.old.core job }
        requires moment { ForSome kept (λ k. k.refreshed < 2 ^ 40) }
        ensures core { result ≡ Restored.Done
            → self.new.core ≡ ended_with self.old.core job (option_map meaning_of kept) }
        ensures log { result ≡ Restored.LogFault → self.new.failed ≡ true }
    {
        match kept {
            None => self.end_failed(job),
            Some(kept) => {
                if may_return(&self.fleet, &job, &kept) {
                    self.give_back(rt, alloc, job, kept)
                } else {
                    self.end_failed(job)
                }
            }
        }
    }

    /// Ends the core's job as one that failed at moment 0.
    fn end_failed(&mut self, job: Job) -> Restored
        requires { IsFlying self.old.core job }
        ensures core { result ≡ Restored.Done
            → self.new.core ≡ failed_core self.old.core job 0 }
        ensures log { result ≡ Restored.LogFault → self.new.failed ≡ true }
    {
        match self.fail(job, 0) {
            Ok((_, told)) => {
                drop(told);
                Restored::Done
            }
            Err(Unmade::LogFault) => Restored::LogFault,
            Err(Unmade::NotInFlight(_)) => unreachable!(),
        }
    }

    /// Ends the core's job by a kept version, as by a transfer that ended at the kept moment.
    fn give_back<R: Wait>(&mut self, rt: &R, alloc: Global, job: Job, kept: Kept) -> Restored
        requires flying { IsFlying self.old.core job }
        requires moment { kept.refreshed < 2 ^ 40 }
        requires may { may_return (state_of self.old.core) job (meaning_of kept) ≡ true }
        ensures core { result ≡ Restored.Done → self.new.core ≡ settled self.old.core job
            (sent_with job.flight.id (meaning_of kept).version) kept.refreshed }
        ensures log { result ≡ Restored.LogFault → self.new.failed ≡ true }
    {
        match finished_of(alloc, &job, &kept) {
            Err(_) => {
                job.close();
                Restored::OutOfMemory
            }
            Ok(finished) => match self.settle(rt, alloc, job, finished, kept.refreshed) {
                Ok((verdict, told)) => {
                    drop(told);
                    ended_by(&verdict)
                }
                Err(Unmade::LogFault) => Restored::LogFault,
                Err(Unmade::NotInFlight(_)) => unreachable!(),
            },
        }
    }
}
