//! What events make of a provisioner and of its jobs in flight.

ghost use Rattle.std.specs.Prelude.{◌≡◌, ℕ, IsSome, ◌<◌, ◌^◌, ◌++◌, ◌∷◌, [], Some, None, true, false, length, IfOk};
ghost use Rattle.std.specs.Prelude.{IfErr, IfSome, OnOk, option_map, slice_get};
ghost use Rattle.std.specs.Vec.{vec_len, vec_capacity};
ghost use Rattle.dz_script.specs.Script.{goes_on};
ghost use Rattle.dz_notify.specs.Notify.{notify_zone_in};
ghost use Rattle.dz_notify.specs.Reply.{notify_reply_of};
ghost use Rattle.dz_settings.specs.Config.{IsAllowed};
ghost use Rattle.dz_request.specs.Frame.{is_tcp};
ghost use Rattle.dz_job.specs.Job.{JobOf, transfer_for};
ghost use Rattle.dz_fleet.specs.Core.{opened_core};
ghost use Rattle.dz_desk.specs.Seen.{Viewed};
ghost use Rattle.dz_reply.specs.Reply.{IsReply, FitsBuffer};
ghost use Rattle.dz_query.specs.Answer.{reply_at};
ghost use Rattle.dz_provision.specs.Held.{Held, IsSettled, IsFailed};
ghost use Rattle.dz_provision.specs.Log.{CanBeSaid};
ghost use Rattle.dz_run.specs.Flight.{place_in, job_in};
ghost use Rattle.dz_run.specs.Replaying.{running, job_turn, take_turn, fail_turn, query_turn, notify_turn, event_turn};
ghost use Rattle.dz_run.specs.Replaying.{reply_line, reply_text};
ghost use Rattle.dz_run.specs.Taken.{IsTaken, IsAtRest, IsMade, IsFault, CanStart, by_saying, by_failing, by_settling};
ghost use Rattle.dz_run.specs.Taken.{by_verdict};

use crate::book::EmptyBook;
use crate::ends::Ends;
use dz_desk::{Reading, Told};
use dz_fleet::{Due, Failure, Fleet, Job, Verdict};
use dz_header::{ReplyBuffer, Transport};
use dz_io::{Peer, Sink};
use dz_job::take_stream;
use dz_name::Name;
use dz_notify::{Heard, read_notify, write_notify_reply};
use dz_provision::{LogFault, Naming, Parts, Provisioner, Unmade, Unstarted};
use dz_query::{Turn, answer_one};
use dz_script::{Event, TurnError};
use dz_settings::Config;
use std::alloc::{AllocError, Global};
use std::marker::Model;
use std::sync::Wait;

/// How an event was taken.
#[derive(Clone, Copy, Debug, PartialEq, Eq)]
pub enum Took {
    /// Its text was written, and the core goes on.
    Done,
    /// Its line is bad; nothing was written.
    Bad,
}

/// A request that is no NOTIFY: its octets, and how and when it came.
#[derive(Clone, Copy)]
struct Query<'a> {
    request: &'a [u8],
    transport: Transport,
    moment: u64,
}

/// A provisioner with the jobs that it handed out, in the order of their tickets, and the reading that answers. It is
/// ended by [`Running::close`].
pub struct Running<K: Sink, J: Naming> {
    provisioner: Provisioner<K, J>,
    reading: Reading,
    jobs: Vec<Job>,
}

impl<K: Sink, J: Naming> Model for Running<K, J> {
    ghost use Rattle.std.specs.Prelude.{◌≡◌, false};
    ghost use Rattle.dz_provision.specs.Held.{Held};
    ghost use Rattle.dz_run.specs.Taken.{IsAtRest};

    ghost Value = { Held };

    ghost view = { λ r. r.provisioner };

    ghost invariant = { λ r. (r.provisioner.failed ≡ false
        → r.jobs.items ≡ r.provisioner.core.flight)
        × IsAtRest J.publisher r.reading };
}

impl<K: Sink, J: Naming> Running<K, J> {
    /// Begins with a configuration, and a ledger that counts nothing. Where memory runs out, the ends come back.
    pub fn start<R: Wait>(
        rt: &R,
        alloc: Global,
        config: Config,
        ends: Ends<K>,
        starved: EmptyBook<J>,
    ) -> Result<Running<K, J>, Ends<K>>
        requires config { IsAllowed config }
        requires ends { CanStart J.publisher (K.held ends.output)
            (K.faults ends.output) ends.publisher ends.reading }
        ensures ok { IfOk result (λ r. r ≡ record {
          core = opened_core config;
          written = K.held ends.output;
          faults = K.faults ends.output;
          failed = false;
          starved = 0;
        }) }
        ensures err { IfErr result (λ back. back ≡ ends) }
    {
        let Ends {
            publisher,
            reading,
            output,
        } = ends;
        match Provisioner::start(rt, alloc, config, publisher, output, starved.book) {
            Ok(provisioner) => Ok(Running {
                provisioner,
                reading,
                jobs: Vec::new(alloc),
            }),
            Err(unstarted) => {
                let Unstarted { publisher, output } = unstarted;
                Err(Ends {
                    publisher,
                    reading,
                    output,
                })
            }
        }
    }

    /// Closes the jobs that are left, and gives back the core and the ends.
    pub fn close(self) -> (Fleet, Ends<K>)
        ensures core { result.0 ≡ self.core }
        ensures written { K.held result.1.output ≡ self.written }
        ensures faults { K.faults result.1.output ≡ self.faults }
        ensures publisher { (result.1.publisher.list ≡ self.core.list)
            × (result.1.publisher.staged ≡ None)
            × (result.1.publisher.book ≡ J.publisher) }
        ensures reading { IsAtRest J.publisher result.1.reading }
    {
        let Running {
            provisioner,
            reading,
            jobs,
        } = self;
        close_all(jobs);
        let Parts {
            fleet,
            publisher,
            output,
            log_failed: _,
            starved: _,
        } = provisioner.close();
        (
            fleet,
            Ends {
                publisher,
                reading,
                output,
            },
        )
    }

    /// Whether a write has failed.
    pub fn has_failed(&self) -> bool
        ensures { result ≡ self.now.failed }
    {
        self.provisioner.has_failed()
    }

    /// Takes an event at a moment, in seconds below 2^40.
    pub fn take_event<R: Wait>(
        &mut self,
        rt: &R,
        alloc: Global,
        moment: u64,
        event: &Event,
        buffer: &mut ReplyBuffer,
    ) -> Result<Took, TurnError>
        requires moment { moment < 2 ^ 40 }
        requires open { self.old.failed ≡ false }
        ensures { (number : ℕ) → IsTaken
            (event_turn self.old.core number moment event.now) number self.old result self.new }
    {
        match event {
            Event::Job => self.hand_out(moment),
            Event::Take { ticket, octets } => self.take(
                rt,
                alloc,
                moment,
                *ticket,
                octets.as_slice(),
            ),
            Event::Fail { ticket } => self.fail(moment, *ticket),
            Event::Ask {
                transport,
                peer,
                request,
            } => match read_notify(request.as_slice()) {
                None => {
                    let query = Query {
                        request: request.as_slice(),
                        transport: *transport,
                        moment,
                    };
                    self.answer(rt, alloc, query, buffer)
                }
                Some(zone) => self.hear(alloc, peer, &zone, request.as_slice(), buffer),
            },
        }
    }

    /// A job is asked for.
    fn hand_out(&mut self, moment: u64) -> Result<Took, TurnError>
        requires moment { moment < 2 ^ 40 }
        requires open { self.old.failed ≡ false }
        ensures { (number : ℕ) → IsTaken
            (job_turn self.old.core moment) number self.old result self.new }
    {
        if self.jobs.reserve(1).is_err() {
            return Err(TurnError::OutOfMemory);
        }
        match self.provisioner.hand_out(moment) {
            Err(_) => Err(TurnError::Write),
            Ok(due) => match due {
                Due::Job(job) => {
                    put_job(&mut self.jobs, job);
                    Ok(Took::Done)
                }
                Due::Idle(_) => self.say(b"job idle\n"),
                Due::Full(_) => self.say(b"job full\n"),
                Due::OutOfMemory => Err(TurnError::OutOfMemory),
            },
        }
    }

    /// A job got octets from its primary.
    fn take<R: Wait>(
        &mut self,
        rt: &R,
        alloc: Global,
        moment: u64,
        ticket: u64,
        octets: &[u8],
    ) -> Result<Took, TurnError>
        requires moment { moment < 2 ^ 40 }
        requires open { self.old.failed ≡ false }
        ensures { (number : ℕ) → IsTaken
            (take_turn self.old.core number moment octets.now (job_in self.old.core.flight ticket))
            number self.old result self.new }
    {
        match place_of(self.jobs.as_slice(), ticket) {
            None => Ok(Took::Bad),
            Some(place) => match take_stream(alloc, &self.jobs[place], octets) {
                Err(_) => Err(TurnError::OutOfMemory),
                Ok(finished) => {
                    let job = self.jobs.remove(place);
                    by_settling(self.provisioner.settle(rt, alloc, job, finished, moment))
                }
            },
        }
    }

    /// A job failed.
    fn fail(&mut self, moment: u64, ticket: u64) -> Result<Took, TurnError>
        requires moment { moment < 2 ^ 40 }
        requires open { self.old.failed ≡ false }
        ensures { (number : ℕ) → IsTaken
            (fail_turn self.old.core number moment (job_in self.old.core.flight ticket))
            number self.old result self.new }
    {
        match place_of(self.jobs.as_slice(), ticket) {
            None => Ok(Took::Bad),
            Some(place) => {
                let job = self.jobs.remove(place);
                by_failing(self.provisioner.fail(job, moment))
            }
        }
    }

    /// A request comes that is no NOTIFY.
    fn answer<R: Wait>(
        &mut self,
        rt: &R,
        alloc: Global,
        query: Query<'_>,
        buffer: &mut ReplyBuffer,
    ) -> Result<Took, TurnError>
        requires open { self.old.failed ≡ false }
        ensures { (number : ℕ) → IsTaken
            (query_turn self.old.core query.entry.moment query.entry.transport
            query.entry.request.now)
            number self.old result self.new }
    {
        match look(rt, &self.provisioner, &mut self.reading, query, buffer) {
            Turn::Silent => self.say(b"none\n"),
            Turn::Written(count) => self.say_reply(alloc, buffer.reply(count)),
            Turn::Notify(_) => Ok(Took::Done),
        }
    }

    /// A NOTIFY of a zone comes.
    fn hear(
        &mut self,
        alloc: Global,
        peer: &Peer,
        zone: &Name,
        request: &[u8],
        buffer: &mut ReplyBuffer,
    ) -> Result<Took, TurnError>
        requires zone { notify_zone_in request.now ≡ Some zone.now }
        requires open { self.old.failed ≡ false }
        ensures { (number : ℕ) → IsTaken (notify_turn self.old.core peer.now request.now zone.now)
            number self.old result self.new }
    {
        match self.provisioner.hear(peer, zone) {
            Err(_) => Err(TurnError::Write),
            Ok((heard, told)) => {
                drop(told);
                self.reply_heard(alloc, request, heard, buffer)
            }
        }
    }

    /// Says the reply to a NOTIFY, by how it was heard.
    fn reply_heard(
        &mut self,
        alloc: Global,
        request: &[u8],
        heard: Heard,
        buffer: &mut ReplyBuffer,
    ) -> Result<Took, TurnError>
        requires notify { IsSome (notify_zone_in request.now) }
        requires open { self.old.failed ≡ false }
        ensures { (number : ℕ) → IsTaken
            (goes_on (reply_text (notify_reply_of request.now heard)) (running self.old.core))
            number self.old result self.new }
    {
        match write_notify_reply(request, heard, buffer) {
            None => self.say(b"none\n"),
            Some(count) => self.say_reply(alloc, buffer.reply(count)),
        }
    }

    /// Says the line of a reply.
    fn say_reply(&mut self, alloc: Global, octets: &[u8]) -> Result<Took, TurnError>
        requires open { self.old.failed ≡ false }
        ensures { (number : ℕ) → IsTaken (goes_on (reply_line octets.now) (running self.old.core))
            number self.old result self.new }
    {
        match line_of_reply(alloc, octets) {
            Err(_) => Err(TurnError::OutOfMemory),
            Ok(line) => self.say(line.as_slice()),
        }
    }

    /// Says a line that tells of no event.
    fn say(&mut self, line: &[u8]) -> Result<Took, TurnError>
        requires line { CanBeSaid line.now }
        requires open { self.old.failed ≡ false }
        ensures { (number : ℕ) → IsTaken (goes_on line.now (running self.old.core))
            number self.old result self.new }
    {
        by_saying(self.provisioner.say(line))
    }
}

/// What a request leads to at the whole list. It looks until the reading has seen this list and no longer one.
fn look<R: Wait, K: Sink, J: Naming>(
    rt: &R,
    provisioner: &Provisioner<K, J>,
    reading: &mut Reading,
    query: Query<'_>,
    buffer: &mut ReplyBuffer,
) -> Turn
    requires { IsAtRest J.publisher reading.old }
    ensures rest { IsAtRest J.publisher reading.new }
    ensures reply { IsReply result buffer.new.reply.writing
        (reply_at provisioner.now.core.list query.entry.request.now query.entry.moment
        (is_tcp query.entry.transport)) }
    ensures size { FitsBuffer result }
{
    'looks: for _ in rt.forever() {
        reading.learn(rt, provisioner.tell());
        if let Some(turn) = answer_one(
            reading,
            query.request,
            query.moment,
            query.transport,
            buffer,
        )
            && reading.count() == provisioner.count()
        {
            return turn;
        }
    }
    unreachable!()
}

/// Puts a job after the others.
fn put_job(jobs: &mut Vec<Job>, job: Job)
    requires { vec_len jobs.old < vec_capacity jobs.old }
    ensures { jobs.new.items ≡ jobs.old.items ++ job ∷ [] }
{
    match jobs.push(job) {
        Ok(()) => {}
        Err(failed) => failed.value.close(),
    }
}

/// Closes jobs.
fn close_all(jobs: Vec<Job>) {
    let mut jobs = jobs;
    'jobs: while let Some(job) = jobs.pop() {
        job.close();
    }
    jobs.destroy_empty();
}

/// The place of the job of a ticket.
fn place_of(jobs: &[Job], ticket: u64) -> Option<usize>
    ensures { result ≡ place_in jobs.now ticket }
{
    jobs.iter().position(|job| job.ticket() == ticket)
}

/// How an event was taken that says a line.
fn by_saying(said: Result<(), LogFault>) -> Result<Took, TurnError>
    ensures { result ≡ by_saying said }
{
    match said {
        Ok(()) => Ok(Took::Done),
        Err(_) => Err(TurnError::Write),
    }
}

/// How an event was taken that makes a job of the core fail.
fn by_failing(failed: Result<(Failure, Told), Unmade>) -> Result<Took, TurnError>
    requires { IsMade failed }
    ensures { result ≡ by_failing failed }
{
    match failed {
        Ok((_, told)) => {
            drop(told);
            Ok(Took::Done)
        }
        Err(unmade) => Err(fault_of(unmade)),
    }
}

/// How an event was taken that ends a job of the core. Where memory runs out, the script stops.
fn by_settling(settled: Result<(Verdict, Told), Unmade>) -> Result<Took, TurnError>
    requires { IsMade settled }
    ensures { result ≡ by_settling settled }
{
    match settled {
        Ok((verdict, told)) => {
            drop(told);
            by_verdict(verdict)
        }
        Err(unmade) => Err(fault_of(unmade)),
    }
}

/// How an event was taken, by the verdict on its transfer: it was, unless memory ran out.
fn by_verdict(verdict: Verdict) -> Result<Took, TurnError>
    ensures { result ≡ by_verdict verdict }
{
    match verdict {
        Verdict::OutOfMemory => Err(TurnError::OutOfMemory),
        _ => Ok(Took::Done),
    }
}

/// Why the end of a job of the core was not written.
fn fault_of(unmade: Unmade) -> TurnError
    requires { IsFault unmade }
    ensures { result ≡ TurnError.Write }
{
    match unmade {
        Unmade::LogFault => TurnError::Write,
        Unmade::NotInFlight(_) => unreachable!(),
    }
}

/// The line of a reply.
fn line_of_reply(alloc: Global, octets: &[u8]) -> Result<Vec<u8>, AllocError>
    ensures { IfOk result (λ line. line.items ≡ reply_line octets.now) }
{
    let mut line = Vec::from_slice(alloc, b"reply ")?;
    line.extend_from_slice(hex::encode(alloc, octets)?.as_bytes())?;
    line.push(b'\n')?;
    Ok(line)
}
