//! The core, the publisher and the log.

ghost use Rattle.std.specs.Prelude.{◌≡◌, ◌<◌, [], length, None, true, false, IfOk, IfErr, IfSome, MatchBool};
ghost use Rattle.std.specs.Arc.{arc_value};
ghost use Rattle.dz_io.specs.Counts.{HasRisen};
ghost use Rattle.dz_settings.specs.Config.{IsAllowed};
ghost use Rattle.dz_fleet.specs.Core.{opened_core};
ghost use Rattle.dz_fleet.specs.Sound.{IsSound};
ghost use Rattle.dz_history.specs.Legal.{IsLegal};
ghost use Rattle.dz_history.specs.declared.entry.Entry.TheVariants.{Setup};
ghost use Rattle.dz_desk.specs.Seen.{page};
ghost use Rattle.dz_provision.specs.Log.{IsLogged};

use crate::copied::copied;
use crate::naming::Naming;
use dz_desk::{Publisher, Told};
use dz_fleet::{Absent, Fleet};
use dz_history::{Entry, Step};
use dz_io::Sink;
use dz_settings::Config;
use dz_table::Table;
use std::alloc::{AllocError, Global};
use std::marker::Model;
use std::sync::ledger::Book;
use std::sync::{Arc, Wait};

/// A write to the log has failed.
#[derive(Clone, Copy, Debug, PartialEq, Eq, Drop)]
pub struct LogFault;

/// Why a job's end makes no event, or no line.
#[derive(Debug, Drop)]
pub enum Unmade {
    /// A write to the log has failed.
    LogFault,
    /// The job isn't the core's.
    NotInFlight(Absent),
}

/// The core, the publisher of its list, and the output to which the log is written, with a count of its lines of want of
/// memory, which is not kept at run time. `J` names the publisher. It is ended by [`Provisioner::close`].
pub struct Provisioner<K: Sink, J: Naming> {
    pub(crate) fleet: Fleet,
    pub(crate) publisher: Publisher,
    pub(crate) output: K,
    pub(crate) log_failed: bool,
    pub(crate) starved: Book<J>,
}

impl<K: Sink, J: Naming> Model for Provisioner<K, J> {
    ghost use Rattle.std.specs.Prelude.{◌≡◌, ◌<◌, None, MatchBool, length};
    ghost use Rattle.dz_io.specs.Counts.{HasRisen};
    ghost use Rattle.dz_provision.specs.Held.{Held};
    ghost use Rattle.dz_provision.specs.Log.{IsLogged};

    ghost Value = { Held };

    ghost view = { λ p. record {
      core = p.fleet;
      written = K.held p.output;
      faults = K.faults p.output;
      failed = p.log_failed;
      starved = p.starved.total;
    } };

    ghost invariant = { λ p. (p.fleet.list ≡ p.publisher.list)
        × (p.publisher.staged ≡ None)
        × (p.publisher.book ≡ J.publisher)
        × IsLogged p.fleet.list p.starved.total (K.held p.output) p.log_failed
        × MatchBool p.log_failed (HasRisen 0 (K.faults p.output)) (K.faults p.output ≡ 0)
        × (0 < length p.fleet.list) };
}

/// What a provisioner was made of, and whether a write to the output has failed.
pub struct Parts<K, J: Naming> {
    pub fleet: Fleet,
    pub publisher: Publisher,
    pub output: K,
    pub log_failed: bool,
    pub starved: Book<J>,
}

/// What a provisioner would have been made of. Memory ran out.
pub struct Unstarted<K> {
    pub publisher: Publisher,
    pub output: K,
}

impl<K: Sink, J: Naming> Provisioner<K, J> {
    /// The core of a configuration, which it publishes as the first entry. The output has no lines yet, and the ledger
    /// counts none.
    ///
    /// # Errors
    ///
    /// `Unstarted` where memory runs out; the publisher and the output are then as they were.
    pub fn start<R: Wait>(
        rt: &R,
        alloc: Global,
        config: Config,
        publisher: Publisher,
        output: K,
        starved: Book<J>,
    ) -> Result<Provisioner<K, J>, Unstarted<K>>
        requires config { IsAllowed config }
        requires publisher { (publisher.list ≡ []) × (publisher.staged ≡ None)
            × (publisher.book ≡ J.publisher) }
        requires output { IfSome (K.held output) (λ text. text ≡ []) × (K.faults output ≡ 0) }
        requires starved { starved.total ≡ 0 }
        ensures ok { IfOk result (λ p. p ≡ record {
          core = opened_core config;
          written = K.held output;
          faults = 0;
          failed = false;
          starved = 0;
        }) }
        ensures err { IfErr result
            (λ parts. (parts.publisher ≡ publisher) × (parts.output ≡ output)) }
    {
        let mut publisher = publisher;
        match opened(alloc, config) {
            Err(_) => Err(Unstarted { publisher, output }),
            Ok((fleet, step)) => {
                publisher.stage(step);
                drop(publisher.publish(rt));
                Ok(Provisioner {
                    fleet,
                    publisher,
                    output,
                    log_failed: false,
                    starved,
                })
            }
        }
    }

    /// Gives back what it was made of.
    pub fn close(self) -> Parts<K, J>
        ensures fleet { result.fleet ≡ self.core }
        ensures publisher { (result.publisher.list ≡ self.core.list)
            × (result.publisher.staged ≡ None)
            × (result.publisher.book ≡ J.publisher) }
        ensures output { (K.held result.output ≡ self.written)
            × (K.faults result.output ≡ self.faults) }
        ensures failed { result.log_failed ≡ self.failed }
        ensures starved { result.starved.total ≡ self.starved }
        ensures logged { IsLogged result.publisher.list self.starved
            (K.held result.output) result.log_failed }
        ensures cause { MatchBool result.log_failed (HasRisen 0 (K.faults result.output))
            (K.faults result.output ≡ 0) }
    {
        let Provisioner {
            fleet,
            publisher,
            output,
            log_failed,
            starved,
        } = self;
        Parts {
            fleet,
            publisher,
            output,
            log_failed,
            starved,
        }
    }

    /// How many entries the list has.
    pub fn count(&self) -> u64
        ensures count { result ≡ length self.now.core.list }
        ensures sound { IsSound self.now.core }
    {
        self.fleet.count()
    }

    /// Whether a write to the log has failed.
    pub fn has_failed(&self) -> bool
        ensures failed { result ≡ self.now.failed }
        ensures cause { self.now.failed ≡ true → (k : K) × HasRisen 0 (K.faults k) }
        ensures risen { self.now.failed ≡ true → HasRisen 0 self.now.faults }
    {
        self.log_failed
    }

    /// A note of the list, which can come about and has begun.
    pub fn tell(&self) -> Told
        ensures told { result ≡ page self.now.core.list J.publisher }
        ensures legal { IsLegal self.now.core.list }
        ensures begun { 0 < length self.now.core.list }
        ensures risen { self.now.failed ≡ true → HasRisen 0 self.now.faults }
    {
        self.publisher.tell()
    }
}

/// The core of a configuration, and the step that begins the list.
fn opened(alloc: Global, config: Config) -> Result<(Fleet, Step), AllocError>
    requires { IsAllowed config }
    ensures fleet { IfOk result (λ r. r.0 ≡ opened_core config) }
    ensures entry { IfOk result (λ r. r.1.entry ≡ Setup config) }
    ensures table { IfOk result (λ r. arc_value r.1.table ≡ []) }
{
    let entry = Entry::Setup(copied(alloc, &config)?);
    let fleet = Fleet::start(alloc, config)?;
    let table = Arc::new(alloc, Table::empty(alloc))?;
    Ok((fleet, Step { entry, table }))
}
