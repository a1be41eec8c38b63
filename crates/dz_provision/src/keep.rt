//! What is kept of the last entry of a list.

ghost use Rattle.std.specs.Prelude.{◌≡◌, ◌<◌, ◌^◌, false, ℕ, List, [], ◌∷◌, map, Some, option_map, IfErr, IfSome};
ghost use Rattle.std.specs.Prelude.{IsErr, IsSome, OnOk};
ghost use Rattle.std.specs.Arc.{arc_value};
ghost use Rattle.std.specs.Option.{ForSome, option_to_list};
ghost use Rattle.dz_disk.specs.Disk.{Leaves};
ghost use Rattle.dz_disk.specs.RecordLog.{records};
ghost use Rattle.dz_disk.specs.Several.{IsLeftAmong};
ghost use Rattle.dz_history.specs.State.{State, IsState};
ghost use Rattle.dz_fleet.specs.Core.{state_of};
ghost use Rattle.dz_fleet.specs.Last.{IsRefreshed, last_of};
ghost use Rattle.dz_store.specs.Kept.{meaning_of};
ghost use Rattle.dz_store.specs.Payload.{reads};
ghost use Rattle.dz_provision.specs.Keeping.{forget, save, record_of, goes, gone, changes_of, membership_at};
ghost use Rattle.dz_provision.specs.Keeping.{last_kept, tasks, IsLastVerdict};
ghost use Rattle.dz_provision.specs.KeepingAnswer.{IsKept, IsStopped};
ghost use Rattle.dz_provision.specs.inner.Tasks.{kept_as, AreDone, ArePassed, LeavesTasks};

use crate::naming::Naming;
use crate::provisioner::{LogFault, Provisioner};
use crate::unkept::Unkept;
use dz_disk::Disk;
use dz_fleet::{Aftermath, Fleet, Last, Verdict};
use dz_io::Sink;
use dz_member::{Changes, Fold, What};
use dz_name::{Label, Name};
use dz_store::{Kept, Store, StoreFault};
use dz_zone::Version;
use std::alloc::Global;
use std::sync::Arc;

/// Keeps what the last entry of the list changed, by whose verdict it was taken: the zones whose state went are forgotten, in
/// canonical order, and then the entry's zone is saved with its version and the moment of its job. At the first fault of the
/// store it stops and says `unkept` with the zone and the fault. Want of memory is such a fault too.
///
/// # Errors
///
/// `LogFault` where that line is to be written and a write to the log has failed, now or before.
pub fn keep_last<K: Sink, J: Naming, D: Disk + Drop>(
    alloc: Global,
    provisioner: &mut Provisioner<K, J>,
    store: &mut Store<D>,
    verdict: &Verdict,
) -> Result<(), LogFault>
    requires last { IsLastVerdict provisioner.old.core.list verdict.now }
    ensures saved { IsSome (last_kept provisioner.old.core.list) }
    ensures kept { IsKept D.file D.faults store.old store.new
        (tasks provisioner.old.core.list verdict.now) provisioner.old result provisioner.new }
    ensures crash { store.old.has_failed ≡ false → (f : List ℕ)
        → D.file store.old.disk ≡ Some f
        → Leaves D.clock D.left_from store.old.disk store.new.disk
        (IsLeftAmong (records reads f)
        (map record_of (tasks provisioner.old.core.list verdict.now)) f) }
    ensures core { provisioner.new.core ≡ provisioner.old.core }
{
    match do_tasks(alloc, store, provisioner.core(), verdict) {
        Ok(()) => Ok(()),
        Err(unkept) => provisioner.say_unkept(&unkept.zone, unkept.fault),
    }
}

impl<K: Sink, J: Naming> Provisioner<K, J> {
    /// The core.
    fn core(&self) -> &Fleet
        ensures { result.now ≡ self.now.core }
    {
        &self.fleet
    }
}

/// Does what there is to do after the last entry, up to the first fault.
fn do_tasks<D: Disk + Drop>(
    alloc: Global,
    store: &mut Store<D>,
    fleet: &Fleet,
    verdict: &Verdict,
) -> Result<(), Unkept>
    requires last { IsLastVerdict fleet.now.list verdict.now }
    ensures saved { IsSome (last_kept fleet.now.list) }
    ensures done { OnOk result (AreDone D.file D.faults store.old store.new
        (tasks fleet.now.list verdict.now)) }
    ensures stopped { IfErr result (λ u. IsStopped D.file D.faults store.old store.new
        (tasks fleet.now.list verdict.now) u.zone u.fault) }
    ensures crash { LeavesTasks D.file D.clock D.left_from store.old store.new
        (tasks fleet.now.list verdict.now) }
{
    let last = fleet.last();
    forget_gone(alloc, store, verdict)?;
    save_last(alloc, store, fleet, last)
}

/// Forgets the zones whose state goes by a verdict.
fn forget_gone<D: Disk + Drop>(
    alloc: Global,
    store: &mut Store<D>,
    verdict: &Verdict,
) -> Result<(), Unkept>
    ensures passed { OnOk result (ArePassed D.file D.faults D.clock D.left_from store.old store.new
        (map forget (gone (changes_of verdict.now)))) }
    ensures stopped { IfErr result (λ u. IsStopped D.file D.faults store.old store.new
        (map forget (gone (changes_of verdict.now))) u.zone u.fault) }
    ensures crash { IsErr result → LeavesTasks D.file D.clock D.left_from store.old store.new
        (map forget (gone (changes_of verdict.now))) }
{
    match verdict {
        Verdict::Published {
            aftermath: Aftermath::Changes(changes),
            ..
        } => forget_all(alloc, store, changes),
        _ => Ok(()),
    }
}

/// Forgets the zones whose state goes by changes.
fn forget_all<D: Disk + Drop>(
    alloc: Global,
    store: &mut Store<D>,
    changes: &Changes,
) -> Result<(), Unkept>
    ensures passed { OnOk result (ArePassed D.file D.faults D.clock D.left_from store.old store.new
        (map forget (gone changes.now))) }
    ensures stopped { IfErr result (λ u. IsStopped D.file D.faults store.old store.new
        (map forget (gone changes.now)) u.zone u.fault) }
    ensures crash { IsErr result → LeavesTasks D.file D.clock D.left_from store.old store.new
        (map forget (gone changes.now)) }
{
    'changes: for place in 0..changes.len() {
        let change = changes.at(place);
        if goes(&change.what) {
            forget_one(alloc, store, &change.zone)?;
        }
    }
    Ok(())
}

/// Whether a zone's state goes.
fn goes(what: &What) -> bool
    ensures { result ≡ goes what.now }
{
    matches!(
        what,
        What::Removed(_) | What::Reset(_) | What::MovedReset(_, _)
    )
}

/// Forgets a zone.
fn forget_one<D: Disk + Drop>(
    alloc: Global,
    store: &mut Store<D>,
    zone: &Name,
) -> Result<(), Unkept>
    ensures done { OnOk result (AreDone D.file D.faults store.old store.new
        (forget zone.now ∷ [])) }
    ensures stopped { IfErr result (λ u. IsStopped D.file D.faults store.old store.new
        (forget zone.now ∷ []) u.zone u.fault) }
    ensures crash { LeavesTasks D.file D.clock D.left_from store.old store.new
        (forget zone.now ∷ []) }
{
    match store.forget(alloc, zone) {
        Ok(()) => Ok(()),
        Err(fault) => Err(Unkept { zone: *zone, fault }),
    }
}

/// What is to be kept of a zone, whose version is still the core's.
#[derive(Drop)]
struct Holding<'a> {
    zone: Name,
    catalog: Name,
    label: Option<Label>,
    refreshed: u64,
    version: &'a Arc<Version>,
}

/// Saves the zone of the last entry.
fn save_last<D: Disk + Drop>(
    alloc: Global,
    store: &mut Store<D>,
    fleet: &Fleet,
    last: Option<&Last>,
) -> Result<(), Unkept>
    requires last { option_map (λ r. r.now) last ≡ last_of fleet.now.list }
    requires refreshed { ForSome (last_of fleet.now.list) (IsRefreshed (state_of fleet.now)) }
    requires saved { IsSome (last_kept fleet.now.list) }
    ensures done { OnOk result (AreDone D.file D.faults store.old store.new
        (map save (option_to_list (last_kept fleet.now.list)))) }
    ensures stopped { IfErr result (λ u. IsStopped D.file D.faults store.old store.new
        (map save (option_to_list (last_kept fleet.now.list))) u.zone u.fault) }
    ensures crash { LeavesTasks D.file D.clock D.left_from store.old store.new
        (map save (option_to_list (last_kept fleet.now.list))) }
{
    match last_holding(fleet, last) {
        None => unreachable!(),
        Some(holding) => save_holding(alloc, store, &holding),
    }
}

/// What is to be kept of the zone of the last entry.
fn last_holding<'a>(fleet: &'a Fleet, last: Option<&Last>) -> Option<Holding<'a>>
    requires last { option_map (λ r. r.now) last ≡ last_of fleet.now.list }
    requires refreshed { ForSome (last_of fleet.now.list) (IsRefreshed (state_of fleet.now)) }
    ensures holding { option_map kept_as result ≡ last_kept fleet.now.list }
    ensures apex { IfSome result (λ h. h.version.now.value.apex ≡ h.zone) }
    ensures moment { IfSome result (λ h. h.refreshed < 2 ^ 40) }
{
    let Some(last) = last else {
        return None;
    };
    let Some(membership) = membership(fleet.fold(), &last.zone) else {
        return None;
    };
    let Some(version) = fleet.held(&last.zone) else {
        return None;
    };
    Some(Holding {
        zone: last.zone,
        catalog: membership.0,
        label: membership.1,
        refreshed: last.moment,
        version,
    })
}

/// The catalog of a zone and its label there.
fn membership(fold: &Fold, zone: &Name) -> Option<(Name, Option<Label>)>
    ensures { (s : State) → s.fold ≡ fold.now → result ≡ membership_at s zone.now }
{
    match fold.catalog_number(zone) {
        Some(_) => Some((*zone, None)),
        None => match fold.find(zone) {
            Some(member) => Some((*member.catalog(), Some(*member.label()))),
            None => None,
        },
    }
}

/// Saves a holding.
fn save_holding<D: Disk + Drop>(
    alloc: Global,
    store: &mut Store<D>,
    holding: &Holding<'_>,
) -> Result<(), Unkept>
    requires apex { holding.now.version.now.value.apex ≡ holding.now.zone }
    requires moment { holding.now.refreshed < 2 ^ 40 }
    ensures done { OnOk result (AreDone D.file D.faults store.old store.new
        (save (kept_as holding.now) ∷ [])) }
    ensures stopped { IfErr result (λ u. IsStopped D.file D.faults store.old store.new
        (save (kept_as holding.now) ∷ []) u.zone u.fault) }
    ensures crash { LeavesTasks D.file D.clock D.left_from store.old store.new
        (save (kept_as holding.now) ∷ []) }
{
    let zone = holding.zone;
    if store.has_failed() {
        let fault = StoreFault::DiskFault;
        return Err(Unkept { zone, fault });
    }
    let Ok(version) = Arc::try_clone(holding.version) else {
        let fault = StoreFault::OutOfMemory;
        return Err(Unkept { zone, fault });
    };
    let kept = Kept {
        zone,
        catalog: holding.catalog,
        label: holding.label,
        refreshed: holding.refreshed,
        version,
    };
    save_one(alloc, store, &kept)
}

/// Saves a zone.
fn save_one<D: Disk + Drop>(alloc: Global, store: &mut Store<D>, kept: &Kept) -> Result<(), Unkept>
    requires apex { (arc_value kept.now.version).apex ≡ kept.now.zone }
    requires moment { kept.now.refreshed < 2 ^ 40 }
    ensures done { OnOk result (AreDone D.file D.faults store.old store.new
        (save (meaning_of kept.now) ∷ [])) }
    ensures stopped { IfErr result (λ u. IsStopped D.file D.faults store.old store.new
        (save (meaning_of kept.now) ∷ []) u.zone u.fault) }
    ensures crash { LeavesTasks D.file D.clock D.left_from store.old store.new
        (save (meaning_of kept.now) ∷ []) }
{
    match store.save(alloc, kept) {
        Ok(()) => Ok(()),
        Err(fault) => Err(Unkept {
            zone: kept.zone,
            fault,
        }),
    }
}
