//! A transfer that is read message by message.

ghost use Rattle.std.specs.Prelude.{◌≡◌, ◌≤◌, ◌++◌, ◌∷◌, [], None, length, IfOk, OnOk, OnErr, option_map};
ghost use Rattle.std.specs.Arc.{arc_value};
ghost use Rattle.dz_message.specs.Frame.{frame, messages_in};
ghost use Rattle.dz_take.specs.Outcome.{decided, octets_used};
ghost use Rattle.dz_take.specs.Taken.{nothing_read, IsOfZone, CanAsk, Shows};
ghost use Rattle.dz_take.specs.inner.Following.{IsProgress, IsOutcome};

use crate::ask::Ask;
use crate::finished::Finished;
use crate::judge::judge;
use crate::outcome::{Outcome, TakeFault};
use crate::state::State;
use crate::transfer::Transfer;
use dz_message::push_frame;
use dz_name::dns::MESSAGE_OCTETS;
use dz_name::{Name, Octets};
use dz_xfr::Progress;
use dz_zone::Version;
use std::alloc::{AllocError, Global};
use std::marker::Model;
use std::mem::replace;
use std::sync::Arc;

/// A transfer that is read message by message. Contracts see the transfer and its octets so far: the messages that were
/// fed, each preceded by its length.
#[derive(Drop)]
pub struct Taking {
    alloc: Global,
    transfer: Transfer,
    octets: Vec<u8>,
    state: State,
}

impl Model for Taking {
    ghost use Rattle.dz_take.specs.Taken.{Taken};
    ghost use Rattle.dz_take.specs.inner.Following.{IsTaking};

    ghost Value = { Taken };

    ghost view = { λ t. record { transfer = t.transfer; octets = t.octets.items } };

    ghost invariant = { λ t. IsTaking t.transfer t.octets.items t.state };
}

impl Taking {
    /// A transfer of which nothing was read: the zone, what is asked for, the ID of the query, and the version that is
    /// held, which is shared. A held version is of the zone, and where none is held only the whole zone is asked for.
    #[tactic(auto, using(crate::proofs::TakingLemmas::nothing_decided))]
    pub fn start(alloc: Global, apex: Name, ask: Ask, id: u16, held: Option<Arc<Version>>) -> Taking
        requires held { IsOfZone apex (option_map arc_value held) }
        requires asks { CanAsk ask (option_map arc_value held) }
        ensures started { result ≡ nothing_read apex ask id (option_map arc_value held) }
        ensures undecided { decided result.transfer (messages_in result.octets) ≡ None }
    {
        Taking {
            alloc,
            transfer: Transfer::new(apex, ask, id, held),
            octets: Vec::new(alloc),
            state: State::Waiting,
        }
    }

    /// Reads the next message, of at most 65,535 octets: whether something is decided, or more is to come. Once
    /// something is decided nothing more may be fed.
    ///
    /// # Errors
    ///
    /// `AllocError` where memory runs out. What was read is then gone: it is a taking of no octets.
    pub fn feed(&mut self, message: &[u8]) -> Result<Progress, AllocError>
        requires undecided { decided self.old.transfer (messages_in self.old.octets) ≡ None }
        requires short { length message.now ≤ MESSAGE_OCTETS }
        ensures octets { OnOk result
            (self.new ≡ record self.old { octets = self.old.octets ++ frame message.now }) }
        ensures messages { OnOk result
            (messages_in self.new.octets ≡ messages_in self.old.octets ++ message.now ∷ []) }
        ensures progress { IfOk result
            (λ p. Shows p (decided self.old.transfer (messages_in self.new.octets))) }
        ensures emptied { OnErr result (self.new ≡ record self.old { octets = [] }) }
    {
        let used = self.octets.len();
        let state = replace(&mut self.state, State::Waiting);
        if let Err(error) = push_frame(&mut self.octets, message) {
            self.octets.clear();
            return Err(error);
        }
        match judge(self.alloc, &self.transfer, used, state, message) {
            Ok(state) => {
                self.state = state;
                Ok(progress_of(&self.state))
            }
            Err(error) => {
                self.octets.clear();
                Err(error)
            }
        }
    }

    /// The transfer with what came of it; all of its octets are used. No version is hashed here ([`Finished::digested`]).
    ///
    /// # Errors
    ///
    /// `AllocError` where memory runs out.
    pub fn finish(self) -> Result<Finished, AllocError>
        ensures same { IfOk result (λ f. f ≡ self) }
        ensures used { IfOk result (λ f. octets_used f.transfer f.octets ≡ length f.octets) }
    {
        let outcome = outcome_of(self.state);
        Ok(Finished::new(self.transfer, Octets::from_vec(self.octets), outcome))
    }
}

/// Whether more is to come.
fn progress_of(state: &State) -> Progress
    ensures { IsProgress state.now result }
{
    match state {
        State::Ended(_) => Progress::Ended,
        _ => Progress::More,
    }
}

/// The outcome where the stream ends here.
fn outcome_of(state: State) -> Outcome
    ensures { IsOutcome state result }
{
    match state {
        State::Ended(outcome) => outcome,
        _ => Outcome::Refused(TakeFault::Incomplete),
    }
}
