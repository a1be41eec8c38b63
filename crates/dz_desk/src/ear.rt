//! What hears NOTIFY.

ghost use Rattle.std.specs.Prelude.{◌≡◌, false, List};
ghost use mathlib.Core.List.{IsPrefix};
ghost use Rattle.dz_name.specs.Words.{Name};
ghost use Rattle.dz_io.specs.declared.peer.Peer.{Peer};
ghost use Rattle.dz_notify.specs.declared.notify.Heard.{Heard};
ghost use Rattle.dz_history.specs.declared.entry.Entry.{Entry};
ghost use Rattle.dz_desk.specs.Hearing.{IsHeard, IsWitnessed};

use crate::reading::Reading;
use dz_io::Peer;
use dz_name::Name;
use dz_notify::Heard;
use std::sync::Wait;

/// What an ear answers to a NOTIFY.
#[derive(Drop)]
pub enum Hearing<W> {
    /// How it is heard, and what shows it in proofs.
    Heard(Heard, W),
    /// The log could not be written.
    LogFault,
}

/// What takes a NOTIFY (RFC 1996), for the readings of one publisher.
pub trait Ear {
    ghost use Rattle.dz_desk.specs.Seen.{Book};

    ghost publisher: { Book };

    ghost may_fail: { Type 0 };

    /// What shows in proofs that a NOTIFY was heard, and what became of its zone.
    type Witness: Drop;

    // a witness says that a NOTIFY of a zone from a peer was heard so, after a list
    ghost witnesses: { Self.Witness → List Entry → Peer → Name → Heard → Type 0 };

    /// Hears that a zone changed, from a peer, and answers by the list that the reading has then seen. It may wait.
    fn hear<R: Wait>(
        &self,
        rt: &R,
        peer: &Peer,
        zone: &Name,
        reading: &mut Reading,
    ) -> Hearing<Self::Witness>
        requires out { reading.old.is_out ≡ false }
        requires own { reading.old.book ≡ publisher }
        ensures same { reading.new ≡ record reading.old { list = reading.new.list } }
        ensures seen { IsPrefix reading.old.list reading.new.list }
        ensures heard { IsHeard may_fail reading.new.list peer.now zone.now result }
        ensures witnessed { IsWitnessed witnesses reading.new.list peer.now zone.now result };
}
