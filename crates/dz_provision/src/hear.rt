//! NOTIFY that is heard.

ghost use Rattle.std.specs.Prelude.{◌≡◌, IsErr};
ghost use Rattle.dz_io.specs.Counts.{HasRisen};
ghost use Rattle.dz_provision.specs.Held.{IsHeard, Notes};

use crate::log::{answer, log};
use crate::naming::Naming;
use crate::provisioner::{LogFault, Provisioner};
use dz_desk::Told;
use dz_fleet::Heard;
use dz_io::{Peer, Sink};
use dz_name::Name;
use dz_report::notify_line;

impl<K: Sink, J: Naming> Provisioner<K, J> {
    /// Hears a NOTIFY of a zone from a peer (RFC 1996 section 3.11), and writes its line. It answers how it is heard, with
    /// a note of the list.
    ///
    /// # Errors
    ///
    /// `LogFault` where a write to the log has failed, now or before; after an earlier fault nothing is heard.
    pub fn hear(&mut self, peer: &Peer, zone: &Name) -> Result<(Heard, Told), LogFault>
        ensures heard { IsHeard self.old peer.now zone.now result self.new }
        ensures note { Notes J.publisher self.new.core.list result }
        ensures cause { IsErr result → (k : K) × HasRisen 0 (K.faults k) }
    {
        if self.log_failed {
            return Err(LogFault);
        }
        let heard = self.fleet.notify(peer, zone);
        let line = notify_line(zone, &heard);
        let logged = log(&mut self.output, &mut self.log_failed, line.as_slice());
        answer(logged, heard, self.publisher.tell())
    }
}
