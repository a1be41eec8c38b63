//! Zones kept on a disk in memory, which stops at a call and is torn by a crash.

ghost use Rattle.std.specs.Prelude.{◌≡◌, ◌<◌, ◌^◌, IfOk};
ghost use Rattle.std.specs.Arc.{arc_value};

use crate::names::name;
use crate::records::Rdata::Target;
use crate::records::{Row, soa};
use crate::versions::version;
use dz_disk::{Disk, Leaving, MemoryDisk};
use dz_name::Label;
use dz_name::dns::TYPE_NS;
use dz_store::{Kept, Store, StoreFault};
use std::alloc::{AllocError, Global};
use std::process::Abort;
use std::sync::Arc;

/// What can be kept: a version of a zone with this serial, which is listed at `m1`.
fn kept(rt: &impl Abort, alloc: Global, zone: &'static str, serial: u32) -> Result<Kept, AllocError>
    ensures zone { IfOk result (λ k. (arc_value k.version).apex ≡ k.zone) }
    ensures moment { IfOk result (λ k. k.refreshed < 2 ^ 40) }
{
    let apex = name(rt, zone);
    let rows: [Row; 2] = [
        soa(zone, serial),
        (zone, TYPE_NS, 3600, Target("ns.invalid.")),
    ];
    let version = version(rt, alloc, &apex, &rows)?;
    Ok(Kept {
        zone: apex,
        catalog: name(rt, "cat1.example."),
        label: Label::new(b"m1"),
        refreshed: 1000,
        version: Arc::new(alloc, version)?,
    })
}

/// A disk with these octets, of which one write or sync is to fail; noise is 1, which opens a gate.
pub fn disk(alloc: Global, octets: Vec<u8>, failing: u64) -> Result<MemoryDisk, AllocError> {
    MemoryDisk::new(alloc, octets, vec![in alloc; failing; 1]?, 1)
}

/// The store on a disk.
pub fn open<D: Disk + Drop>(rt: &impl Abort, alloc: Global, disk: D) -> Store<D> {
    match Store::open(alloc, disk) {
        Ok(store) => store,
        Err(fault) => panic!(rt; "{fault:?}"),
    }
}

/// Saves this serial of a zone: whether that was answered.
pub fn save<D: Disk + Drop>(
    rt: &impl Abort,
    alloc: Global,
    store: &mut Store<D>,
    zone: &'static str,
    serial: u32,
) -> Result<bool, AllocError> {
    let kept = kept(rt, alloc, zone, serial)?;
    Ok(store.save(alloc, &kept).is_ok())
}

/// The serial that is kept of a zone; 0 where none is.
pub fn latest<D: Disk + Drop>(
    rt: &impl Abort,
    alloc: Global,
    store: &mut Store<D>,
    zone: &str,
) -> u32 {
    match store.latest(alloc, &name(rt, zone)) {
        Ok(None) => 0,
        Ok(Some(kept)) => kept.version.soa().serial,
        Err(fault) => panic!(rt; "{fault:?}"),
    }
}

/// Saves serial 5 and 6 of `example.` on a disk that stops at a call, counted from 0 after the opening, and crashes:
/// which serial is found then, and whether the first and the second save were answered.
fn stopped(
    rt: &impl Abort,
    alloc: Global,
    stop: u64,
    leaving: Leaving,
) -> Result<(u32, bool, bool), AllocError> {
    // an opening of a closed gate makes one sync
    let disk = disk(alloc, Vec::from_slice(alloc, &[0])?, stop.saturating_add(1))?;
    let mut store = open(rt, alloc, disk);
    let first = save(rt, alloc, &mut store, "example.", 5)?;
    let second = save(rt, alloc, &mut store, "example.", 6)?;
    let left = store.into_disk().crash(leaving);
    let mut again = open(rt, alloc, MemoryDisk::new(alloc, left, Vec::new(alloc), 1)?);
    Ok((latest(rt, alloc, &mut again, "example."), first, second))
}

/// That nothing, 5 or 6 is found: 5 at least once the first save answered, and 6 once the second did.
fn expect_stopped(rt: &impl Abort, stop: u64, leaving: Leaving, seen: (u32, bool, bool)) {
    let (found, first, second) = seen;
    let least = if second {
        6
    } else if first {
        5
    } else {
        0
    };
    assert!(rt;
        least <= found && (found == 0 || found == 5 || found == 6),
        "{stop} {leaving:?}: {seen:?}"
    );
    assert!(rt;
        (first || stop < 4) && second == (8 <= stop),
        "{stop} {leaving:?}: {seen:?}"
    );
}

#[test]
fn a_stop_at_each_call_leaves_what_was_answered(rt: HostRuntime) -> Result<(), AllocError> {
    for stop in 0..9 {
        for leaving in [Leaving::Nothing, Leaving::All, Leaving::Noise] {
            let seen = stopped(&rt, rt.alloc(), stop, leaving)?;
            expect_stopped(&rt, stop, leaving, seen);
        }
    }
    Ok(())
}

/// That all calls fail on a disk whose second write fails, which is lent to the store.
fn expect_faults(rt: &impl Abort, alloc: Global, disk: &mut MemoryDisk) -> Result<(), AllocError> {
    let mut store = open(rt, alloc, disk);
    let kept = kept(rt, alloc, "example.", 5)?;
    let zone = name(rt, "example.");
    assert_eq!(rt; store.save(alloc, &kept), Err(StoreFault::DiskFault));
    assert_eq!(rt; store.forget(alloc, &zone), Err(StoreFault::DiskFault));
    Ok(())
}

#[test]
fn a_second_write_that_fails_is_a_fault_of_the_disk(rt: HostRuntime) -> Result<(), AllocError> {
    let alloc = rt.alloc();
    // sync, write, sync; write
    let mut disk = disk(alloc, Vec::from_slice(alloc, &[0])?, 3)?;
    expect_faults(&rt, alloc, &mut disk)
}

/// That what is kept of `example.` has all that was saved.
fn expect_whole(rt: &impl Abort, kept: &Kept) {
    let label = match &kept.label {
        None => 0,
        Some(label) => label.octets().len(),
    };
    assert_eq!(rt; (label, kept.refreshed), (2, 1000));
    assert!(rt; kept.catalog == name(rt, "cat1.example.") && kept.zone == name(rt, "example."));
}

#[test]
fn what_was_saved_comes_back(rt: HostRuntime) -> Result<(), AllocError> {
    let alloc = rt.alloc();
    // a file of other making opens too
    let mut store = open(
        &rt,
        alloc,
        disk(alloc, Vec::from_slice(alloc, b"catzd")?, 100)?,
    );
    save(&rt, alloc, &mut store, "example.", 5)?;
    match store.latest(alloc, &name(&rt, "example.")) {
        Ok(Some(kept)) => expect_whole(&rt, &kept),
        other => panic!(rt; "{other:?}"),
    }
    Ok(())
}

/// Zones, and which of their serials is kept.
const KEPT: &[(&str, u32)] = &[
    (".", 3),
    ("example.", 0),
    ("a.example.", 3),
    ("b.example.", 0),
];

/// Saves the serials 1 to 3 of each zone but the last, and forgets the second.
fn fill(rt: &impl Abort, alloc: Global, store: &mut Store<MemoryDisk>) -> Result<bool, AllocError> {
    let mut all = true;
    for serial in 1..4 {
        for (zone, _) in &KEPT[..3] {
            all = save(rt, alloc, store, zone, serial)? && all;
        }
    }
    Ok(store.forget(alloc, &name(rt, "example.")).is_ok() && all)
}

/// That these serials are kept.
fn expect_kept(rt: &impl Abort, alloc: Global, store: &mut Store<MemoryDisk>) {
    for (zone, serial) in KEPT {
        assert_eq!(rt; latest(rt, alloc, store, zone), *serial, "{zone}");
    }
}

#[test]
fn a_copy_keeps_the_same_in_fewer_octets(rt: HostRuntime) -> Result<(), AllocError> {
    let alloc = rt.alloc();
    let mut store = open(&rt, alloc, disk(alloc, Vec::new(alloc), 100)?);
    let mut anew = open(&rt, alloc, disk(alloc, Vec::new(alloc), 100)?);
    let filled = fill(&rt, alloc, &mut store)?;
    let copied = store.copy(alloc, &mut anew).is_ok();
    assert!(rt; filled && copied && anew.end() < store.end() / 3);
    expect_kept(&rt, alloc, &mut anew);
    Ok(())
}
