//! Want of memory that is said, which takes none.

ghost use Rattle.std.specs.Prelude.{◌≡◌, ◌≤◌, ◌<◌, ◌+◌, ◌++◌, true, length, Err, OnErr, OnOk, MatchResult};
ghost use Rattle.arrayvec.specs.ArrayVec.{array_vec_len};
ghost use Rattle.dz_io.specs.Counts.{HasRisen};
ghost use Rattle.dz_report.specs.Lines.{verdict_lines};
ghost use Rattle.dz_provision.specs.Held.{Starves};

use crate::log::log;
use crate::naming::Naming;
use crate::provisioner::{LogFault, Provisioner, Unmade};
use arrayvec::ArrayVec;
use dz_io::Sink;
use dz_job::Verdict;
use dz_name::Name;
use std::sync::ledger::Share;

/// How many octets a line has at most that names one zone.
pub(crate) const LINE: usize = 1100;

impl<K: Sink, J: Naming> Provisioner<K, J> {
    /// Says that memory ran out for the transfer of a zone, which the share counts, and answers how its job ended.
    pub(crate) fn say_starved<T: Drop>(
        &mut self,
        share: &mut Share<J>,
        zone: &Name,
        how: T,
    ) -> Result<T, Unmade>
        requires { 0 < share.old.parts }
        ensures answer { MatchResult result (λ answer. answer ≡ how)
            (λ unmade. unmade ≡ Unmade.LogFault) }
        ensures said { OnOk result (Starves self.old zone.now self.new) }
        ensures parts { share.new.parts ≡ share.old.parts }
        ensures counted { MatchResult result
            (λ _. share.new.amount ≡ share.old.amount + 1)
            (λ _. share.new.amount ≡ share.old.amount) }
        ensures cause { result ≡ Err Unmade.LogFault → (k : K) × HasRisen 0 (K.faults k) }
    {
        let said = self.write_starved(share, zone);
        let _ = &self.log_failed;
        match said {
            Ok(()) => Ok(how),
            Err(_) => Err(Unmade::LogFault),
        }
    }

    /// Writes its line.
    fn write_starved(&mut self, share: &mut Share<J>, zone: &Name) -> Result<(), LogFault>
        requires { 0 < share.old.parts }
        ensures said { OnOk result (Starves self.old zone.now self.new) }
        ensures failed { OnErr result (self.new.failed ≡ true) }
        ensures parts { share.new.parts ≡ share.old.parts }
        ensures counted { MatchResult result
            (λ _. share.new.amount ≡ share.old.amount + 1)
            (λ _. share.new.amount ≡ share.old.amount) }
    {
        if self.log_failed {
            return Err(LogFault);
        }
        let line = starved_line(zone);
        log(&mut self.output, &mut self.log_failed, line.as_slice())?;
        self.starved.add(share, 1);
        Ok(())
    }
}

/// `nomemory <zone>`.
fn starved_line(zone: &Name) -> ArrayVec<u8, LINE>
    ensures { result.items ≡ verdict_lines zone.now Verdict.OutOfMemory }
{
    let text = zone.print();
    let mut line = ArrayVec::new();
    put(&mut line, b"nomemory ");
    put(&mut line, text.as_bytes());
    put(&mut line, b"\n");
    line
}

/// Puts octets after the others.
pub(crate) fn put(line: &mut ArrayVec<u8, LINE>, piece: &[u8])
    requires { array_vec_len line.old + length piece.now ≤ LINE }
    ensures items { line.new.items ≡ line.old.items ++ piece.now }
    ensures size { array_vec_len line.new ≡ array_vec_len line.old + length piece.now }
{
    match line.try_extend_from_slice(piece) {
        Ok(()) => {}
        Err(_) => unreachable!(),
    }
}
