//! A server that begins with what a store keeps.

ghost use Rattle.std.specs.Prelude.{◌≡◌, ℕ, [], List, slice_get, Option, None, Some, Ok, IfErr, IfOk, IfSome, IsSome};
ghost use Rattle.dz_disk.specs.RecordLog.{records};
ghost use Rattle.dz_history.specs.Legal.{IsLegal};
ghost use Rattle.dz_history.specs.declared.entry.Entry.{Entry};
ghost use Rattle.dz_provision.specs.Held.{IsSaid};
ghost use Rattle.dz_provision.specs.Log.{unkept_text};
ghost use Rattle.dz_restore.specs.Restoring.{restored, told};
ghost use Rattle.dz_store.specs.Payload.{reads};
ghost use Rattle.dz_store.specs.declared.fault.StoreFault.{StoreFault};
ghost use Rattle.dz_serve.specs.Ends.{is_write_fault};
ghost use Rattle.dz_serve.specs.Runs.{IsHalt};
ghost use Rattle.dz_serve.specs.Workers.{IsSeated};

use crate::status::ServeEnd;
use dz_desk::Reading;
use dz_disk::Disk;
use dz_io::Sink;
use dz_name::Name;
use dz_provision::{LogFault, Naming, Provisioner, Restored, restore};
use dz_store::{Store, StoreFault};
use std::alloc::Global;
use std::sync::Wait;

/// Opens a store on a disk, where there is one, and gives each zone back what it keeps. Where the disk fails, that is
/// said and there is no store.
///
/// # Errors
///
/// `WriteFault` where a line of the log could not be written, `NoMemory` where memory runs out.
pub(crate) fn begin<'d, K: Sink, J: Naming, D: Disk + Drop, R: Wait>(
    rt: &R,
    alloc: Global,
    provisioner: &mut Provisioner<K, J>,
    reading: &mut Reading,
    disk: Option<&'d mut D>,
) -> Result<Option<Store<&'d mut D>>, ServeEnd>
    requires seated { IsSeated J.publisher reading.old }
    ensures none { disk.entry ≡ None → (result ≡ Ok None) × (provisioner.new ≡ provisioner.old) }
    ensures restored { IfOk result (λ o. IfSome o (λ s. IfSome disk.entry (λ d.
        (f : List ℕ) → D.file d.now ≡ Some f → (stop : Option ℕ)
        × (provisioner.new.core ≡ restored (told stop (records reads f)) provisioner.old.core)))) }
    ensures unkept { IsSome disk.entry → result ≡ Ok None → (fault : StoreFault)
        × IsSaid provisioner.old (unkept_text [] fault) (Ok tt) provisioner.new }
    ensures halt { IfErr result (λ end. IsHalt end) }
    ensures write { IfErr result (λ end. is_write_fault end ≡ provisioner.new.failed) }
    ensures first { (e : Entry) → slice_get provisioner.old.core.list 0 ≡ Some e
        → slice_get provisioner.new.core.list 0 ≡ Some e }
    ensures legal { IsLegal provisioner.new.core.list }
    ensures seated { IsSeated J.publisher reading.new }
{
    reading.learn(rt, provisioner.tell());
    let Some(disk) = disk else {
        return Ok(None);
    };
    match Store::open(alloc, disk) {
        Ok(mut store) => {
            let restored = restore(rt, alloc, provisioner, reading, &mut store);
            match restored {
                Restored::Done => Ok(Some(store)),
                Restored::LogFault | Restored::OutOfMemory => Err(halt(provisioner)),
            }
        }
        Err(StoreFault::OutOfMemory) => Err(halt(provisioner)),
        Err(fault) => match provisioner.say_unkept(&Name::root(), fault) {
            Ok(()) => Ok(None),
            Err(LogFault) => Err(halt(provisioner)),
        },
    }
}

/// How a server ends that can't begin.
fn halt<K: Sink, J: Naming>(provisioner: &Provisioner<K, J>) -> ServeEnd
    ensures halt { IsHalt result }
    ensures write { is_write_fault result ≡ provisioner.now.failed }
{
    if provisioner.has_failed() {
        ServeEnd::WriteFault
    } else {
        ServeEnd::NoMemory
    }
}
