//! Zones that a store couldn't keep or forget.

ghost use Rattle.std.specs.Prelude.{◌≡◌, ◌≤◌, length};
ghost use Rattle.dz_provision.specs.Held.{IsSaid};
ghost use Rattle.dz_provision.specs.Log.{fault_word, unkept_text};

use crate::naming::Naming;
use crate::provisioner::{LogFault, Provisioner};
use crate::starved::{LINE, put};
use arrayvec::ArrayVec;
use dz_io::Sink;
use dz_name::Name;
use dz_store::StoreFault;

/// A zone that a store couldn't keep or forget, and why.
#[derive(Clone, Copy, Debug, Drop)]
pub(crate) struct Unkept {
    pub(crate) zone: Name,
    pub(crate) fault: StoreFault,
}

impl<K: Sink, J: Naming> Provisioner<K, J> {
    /// Says that a store couldn't keep or forget a zone, and why. The root is for all zones.
    ///
    /// # Errors
    ///
    /// `LogFault` where a write to the log has failed, now or before.
    pub fn say_unkept(&mut self, zone: &Name, fault: StoreFault) -> Result<(), LogFault>
        ensures { IsSaid self.old (unkept_text zone.now fault) result self.new }
    {
        let line = unkept_line(zone, fault);
        self.say(line.as_slice())
    }
}

/// `unkept <zone> <word>`.
fn unkept_line(zone: &Name, fault: StoreFault) -> ArrayVec<u8, LINE>
    ensures { result.items ≡ unkept_text zone.now fault }
{
    let text = zone.print();
    let mut line = ArrayVec::new();
    put(&mut line, b"unkept ");
    put(&mut line, text.as_bytes());
    put(&mut line, b" ");
    put(&mut line, fault_word(fault));
    put(&mut line, b"\n");
    line
}

/// The word of a fault.
fn fault_word(fault: StoreFault) -> &'static [u8]
    ensures word { result.now ≡ fault_word fault }
    ensures short { length result.now ≤ 6 }
{
    match fault {
        StoreFault::DiskFault => b"disk",
        StoreFault::Full => b"full",
        StoreFault::Unfit => b"unfit",
        StoreFault::OutOfMemory => b"memory",
    }
}
