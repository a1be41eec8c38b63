//! The program's commands.

ghost use Rattle.std.specs.Prelude.{◌≡◌, ◌≢◌, ◌≤◌, ℕ, [], is_some, true, false, None, Some, Ok, Err, IfSome};
ghost use mathlib.Core.List.{IsPrefix};
ghost use Rattle.dz_io.specs.Counts.{HasRisen};
ghost use Rattle.dz_name.specs.Words.{Octets};
ghost use Rattle.dz_run.specs.Running.{status_of, status_after, status_of_produce, Answers, Replays, Produces, Says};
ghost use Rattle.dz_run.specs.Running.{Decides, IsWithoutFault, HasEnded, HasCauseIn, IsNewDesk, IsBack};
ghost use Rattle.dz_run.specs.Running.{list_of_script};
ghost use Rattle.dz_serve.specs.Command.{IsServe};
ghost use Rattle.dz_serve.specs.Rows.{rows};
ghost use Rattle.dz_run.specs.Taken.{CanStart, IsAtRest};
ghost use Rattle.dz_gen.specs.Script.{script};
ghost use Rattle.dz_words.specs.Words.{command_of};
ghost use Rattle.dz_run.specs.Rehearsing.{Rehearses};

use crate::answering::{Answering, End};
use crate::book::EmptyBook;
use crate::ends::Ends;
use crate::rehearse::rehearse;
use crate::replaying::Replaying;
use crate::script::run_answering;
use crate::status::Status;
use dz_desk::Desk;
use dz_disk::{Disk, MemoryDisk};
use dz_header::ReplyBuffer;
use dz_io::{Clock, Ports, Sink, Source};
use dz_produce::{ProduceEnd, run_producing};
use dz_provision::Naming;
use dz_script::{ScriptError, run_script};
use dz_serve::{ServeEnd, Served, serve_input};
use dz_words::{Command, Words, WordsError, read_words};
use std::alloc::Global;
use std::marker::Brand;
use std::sync::Wait;
use std::sync::ledger::Blank;
use std::thread::Threads;

/// The status at the end, with the output and the desk.
pub struct Ended<K> {
    pub status: Status,
    pub output: K,
    pub desk: Desk,
}

/// Runs the command that the words ask for, over an output to which nothing was written and a desk of six readings at
/// which nothing was published.
///
/// `answer` reads lines: first `zone <name> <hex>`, one message with ID 1 that is to hold a whole transfer (RFC 5936),
/// and then requests in hex, each taken as over UDP at moment 0. It writes `taken <serial>` or `refused <reason>`, and
/// for each request the hex of the reply, `none`, or `notify <name>`. A bad line ends it.
///
/// `replay` reads lines: first the configuration, and then events at their moments. It writes what each job asks for
/// and what comes of it, and the reply to each request at the whole list so far. A bad line ends it. What is taken is
/// published at the desk; whatever the status, that list is a beginning of the one that the whole input gives.
///
/// `rehearse N` runs `replay` on a generated script with N zones, and writes a summary of what that writes. What is
/// taken is published at the desk.
///
/// `produce` reads lines: first `catalog <apex> <serial>`, then the member nodes of a catalog zone (RFC 9432), and
/// changes of it, each under a serial of its own. It writes the catalog as the stream of an AXFR (RFC 5936) in hex, and
/// each change as that of an IXFR (RFC 1995). A bad line ends it.
///
/// `serve` reads a configuration as TOML. It opens the ports, makes transfers, answers requests and hears NOTIFY, each
/// worker in a thread of its own, until the devices close and the clock stops it, and writes the log. What is taken is
/// published at the desk. Where the input is no configuration, it writes `bad config <number>`.
pub fn run<R: Threads + Wait + Sync, S: Source, K: Sink + Send, P: Ports, C: Clock + Send + Drop>(
    rt: &R,
    alloc: Global,
    words: &Words,
    input: &mut S,
    output: K,
    desk: Desk,
    ports: &mut P,
    clock: &C,
) -> Ended<K>
    requires desk { IsNewDesk desk.publisher desk.readings.items }
    requires written { IfSome (K.held output) (λ text. text ≡ []) }
    requires faultless { K.faults output ≡ 0 }
    ensures ends { command_of words.now ≡ Ok Command.Answer →
        (octets : Octets) → S.left input.old ≡ Some octets →
        Answers octets result.status (S.left input.new) (K.held output) (K.held result.output) }
    ensures ends_replay { command_of words.now ≡ Ok Command.Replay →
        (octets : Octets) → S.left input.old ≡ Some octets →
        Replays octets result.status (S.left input.new) (K.held output) (K.held result.output)
        result.desk.publisher.list }
    ensures published { command_of words.now ≡ Ok Command.Replay →
        (octets : Octets) → S.left input.old ≡ Some octets → result.status ≡ Status.Done →
        result.desk.publisher.list ≡ list_of_script octets }
    ensures begins { command_of words.now ≡ Ok Command.Replay →
        (octets : Octets) → S.left input.old ≡ Some octets →
        IsPrefix result.desk.publisher.list (list_of_script octets) }
    ensures ends_produce { command_of words.now ≡ Ok Command.Produce →
        (octets : Octets) → S.left input.old ≡ Some octets →
        Produces octets result.status (S.left input.new) (K.held output) (K.held result.output) }
    ensures rehearses { (number : ℕ) → command_of words.now ≡ Ok (Command.Rehearse number) →
        Rehearses number result.status (K.held output) (K.held result.output) }
    ensures rehearsed { (number : ℕ) → command_of words.now ≡ Ok (Command.Rehearse number) →
        result.status ≢ Status.NoMemory
        → result.desk.publisher.list ≡ list_of_script (script number) }
    ensures begins_rehearsed { (number : ℕ) → command_of words.now ≡ Ok (Command.Rehearse number) →
        IsPrefix result.desk.publisher.list (list_of_script (script number)) }
    ensures serves { command_of words.now ≡ Ok Command.Serve
        → (how : ServeEnd) × (result.status ≡ status_after how)
        × IsServe false how ((k : K) × HasRisen 0 (K.faults k)) (C.may_give clock.now)
        (C.may_stop clock.now)
        (S.left input.old) (K.held result.output) result.desk.publisher.list
        (rows (P.datagrams ports.old) (P.acceptors ports.old) (P.dialers ports.old))
        (rows (P.datagrams ports.new) (P.acceptors ports.new) (P.dialers ports.new)) }
    ensures desk { command_of words.now ≢ Ok Command.Replay
        → command_of words.now ≢ Ok Command.Serve →
        ((number : ℕ) → command_of words.now ≢ Ok (Command.Rehearse number)) → result.desk ≡ desk }
    ensures back { IsBack desk.publisher.book result.desk.publisher result.desk.readings.items }
    ensures ports { command_of words.now ≢ Ok Command.Serve → ports.new ≡ ports.old }
    ensures words { Decides (command_of words.now) result.status (K.held output)
        (K.held result.output) }
    ensures usage { result.status ≡ Status.Usage → command_of words.now ≡ Err WordsError.Usage }
    ensures unread { command_of words.now ≢ Ok Command.Answer
        → command_of words.now ≢ Ok Command.Replay → command_of words.now ≢ Ok Command.Produce →
        command_of words.now ≢ Ok Command.Serve → input.new ≡ input.old }
    ensures done { ((number : ℕ) → command_of words.now ≢ Ok (Command.Rehearse number)) →
        (octets : Octets) → S.left input.old ≡ Some octets →
        result.status ≡ Status.Done → S.left input.new ≡ Some [] }
    ensures read_later { S.faults input.old ≤ S.faults input.new }
    ensures write_later { K.faults output ≤ K.faults result.output }
    ensures read_kept { IsWithoutFault result.status → S.faults input.new ≡ S.faults input.old }
    ensures write_kept { IsWithoutFault result.status → K.faults result.output ≡ K.faults output }
    ensures read_fault { result.status ≡ Status.ReadFault →
        HasRisen (S.faults input.old) (S.faults input.new) }
    ensures write_fault { result.status ≡ Status.WriteFault →
        HasRisen (K.faults output) (K.faults result.output) }
    ensures port_fault { result.status ≡ Status.PortFault
        → HasRisen (P.faults ports.old) (P.faults ports.new) }
    ensures ports_later { P.faults ports.old ≤ P.faults ports.new }
{
    let none: Option<&mut MemoryDisk> = None;
    run_with(rt, alloc, words, input, output, desk, ports, clock, none)
}

/// Runs the command that the words ask for, as [`run`] does. `serve` keeps on a disk what it takes: where zones are
/// kept there, it gives them back before a worker starts, and then it need not dial.
pub fn run_kept<
    R: Threads + Wait + Sync,
    S: Source,
    K: Sink + Send,
    P: Ports,
    C: Clock + Send + Drop,
    D: Disk + Send + Drop,
>(
    rt: &R,
    alloc: Global,
    words: &Words,
    input: &mut S,
    output: K,
    desk: Desk,
    ports: &mut P,
    clock: &C,
    disk: &mut D,
) -> Ended<K>
    requires desk { IsNewDesk desk.publisher desk.readings.items }
    requires written { IfSome (K.held output) (λ text. text ≡ []) }
    requires faultless { K.faults output ≡ 0 }
    ensures ends { command_of words.now ≡ Ok Command.Answer →
        (octets : Octets) → S.left input.old ≡ Some octets →
        Answers octets result.status (S.left input.new) (K.held output) (K.held result.output) }
    ensures ends_replay { command_of words.now ≡ Ok Command.Replay →
        (octets : Octets) → S.left input.old ≡ Some octets →
        Replays octets result.status (S.left input.new) (K.held output) (K.held result.output)
        result.desk.publisher.list }
    ensures published { command_of words.now ≡ Ok Command.Replay →
        (octets : Octets) → S.left input.old ≡ Some octets → result.status ≡ Status.Done →
        result.desk.publisher.list ≡ list_of_script octets }
    ensures begins { command_of words.now ≡ Ok Command.Replay →
        (octets : Octets) → S.left input.old ≡ Some octets →
        IsPrefix result.desk.publisher.list (list_of_script octets) }
    ensures ends_produce { command_of words.now ≡ Ok Command.Produce →
        (octets : Octets) → S.left input.old ≡ Some octets →
        Produces octets result.status (S.left input.new) (K.held output) (K.held result.output) }
    ensures rehearses { (number : ℕ) → command_of words.now ≡ Ok (Command.Rehearse number) →
        Rehearses number result.status (K.held output) (K.held result.output) }
    ensures rehearsed { (number : ℕ) → command_of words.now ≡ Ok (Command.Rehearse number) →
        result.status ≢ Status.NoMemory
        → result.desk.publisher.list ≡ list_of_script (script number) }
    ensures begins_rehearsed { (number : ℕ) → command_of words.now ≡ Ok (Command.Rehearse number) →
        IsPrefix result.desk.publisher.list (list_of_script (script number)) }
    ensures serves { command_of words.now ≡ Ok Command.Serve
        → (how : ServeEnd) × (result.status ≡ status_after how)
        × IsServe true how ((k : K) × HasRisen 0 (K.faults k)) (C.may_give clock.now)
        (C.may_stop clock.now)
        (S.left input.old) (K.held result.output) result.desk.publisher.list
        (rows (P.datagrams ports.old) (P.acceptors ports.old) (P.dialers ports.old))
        (rows (P.datagrams ports.new) (P.acceptors ports.new) (P.dialers ports.new)) }
    ensures desk { command_of words.now ≢ Ok Command.Replay
        → command_of words.now ≢ Ok Command.Serve →
        ((number : ℕ) → command_of words.now ≢ Ok (Command.Rehearse number)) → result.desk ≡ desk }
    ensures back { IsBack desk.publisher.book result.desk.publisher result.desk.readings.items }
    ensures ports { command_of words.now ≢ Ok Command.Serve → ports.new ≡ ports.old }
    ensures words { Decides (command_of words.now) result.status (K.held output)
        (K.held result.output) }
    ensures usage { result.status ≡ Status.Usage → command_of words.now ≡ Err WordsError.Usage }
    ensures unread { command_of words.now ≢ Ok Command.Answer
        → command_of words.now ≢ Ok Command.Replay → command_of words.now ≢ Ok Command.Produce →
        command_of words.now ≢ Ok Command.Serve → input.new ≡ input.old }
    ensures done { ((number : ℕ) → command_of words.now ≢ Ok (Command.Rehearse number)) →
        (octets : Octets) → S.left input.old ≡ Some octets →
        result.status ≡ Status.Done → S.left input.new ≡ Some [] }
    ensures read_later { S.faults input.old ≤ S.faults input.new }
    ensures write_later { K.faults output ≤ K.faults result.output }
    ensures read_kept { IsWithoutFault result.status → S.faults input.new ≡ S.faults input.old }
    ensures write_kept { IsWithoutFault result.status → K.faults result.output ≡ K.faults output }
    ensures read_fault { result.status ≡ Status.ReadFault →
        HasRisen (S.faults input.old) (S.faults input.new) }
    ensures write_fault { result.status ≡ Status.WriteFault →
        HasRisen (K.faults output) (K.faults result.output) }
    ensures port_fault { result.status ≡ Status.PortFault
        → HasRisen (P.faults ports.old) (P.faults ports.new) }
    ensures ports_later { P.faults ports.old ≤ P.faults ports.new }
{
    run_with(
        rt,
        alloc,
        words,
        input,
        output,
        desk,
        ports,
        clock,
        Some(disk),
    )
}

/// Runs a command, where `serve` keeps zones on a disk, if there is one.
fn run_with<
    R: Threads + Wait + Sync,
    S: Source,
    K: Sink + Send,
    P: Ports,
    C: Clock + Send + Drop,
    D: Disk + Send + Drop,
>(
    rt: &R,
    alloc: Global,
    words: &Words,
    input: &mut S,
    output: K,
    desk: Desk,
    ports: &mut P,
    clock: &C,
    disk: Option<&mut D>,
) -> Ended<K>
    requires desk { IsNewDesk desk.publisher desk.readings.items }
    requires written { IfSome (K.held output) (λ text. text ≡ []) }
    requires faultless { K.faults output ≡ 0 }
    ensures ends { command_of words.now ≡ Ok Command.Answer →
        (octets : Octets) → S.left input.old ≡ Some octets →
        Answers octets result.status (S.left input.new) (K.held output) (K.held result.output) }
    ensures ends_replay { command_of words.now ≡ Ok Command.Replay →
        (octets : Octets) → S.left input.old ≡ Some octets →
        Replays octets result.status (S.left input.new) (K.held output) (K.held result.output)
        result.desk.publisher.list }
    ensures published { command_of words.now ≡ Ok Command.Replay →
        (octets : Octets) → S.left input.old ≡ Some octets → result.status ≡ Status.Done →
        result.desk.publisher.list ≡ list_of_script octets }
    ensures begins { command_of words.now ≡ Ok Command.Replay →
        (octets : Octets) → S.left input.old ≡ Some octets →
        IsPrefix result.desk.publisher.list (list_of_script octets) }
    ensures ends_produce { command_of words.now ≡ Ok Command.Produce →
        (octets : Octets) → S.left input.old ≡ Some octets →
        Produces octets result.status (S.left input.new) (K.held output) (K.held result.output) }
    ensures rehearses { (number : ℕ) → command_of words.now ≡ Ok (Command.Rehearse number) →
        Rehearses number result.status (K.held output) (K.held result.output) }
    ensures rehearsed { (number : ℕ) → command_of words.now ≡ Ok (Command.Rehearse number) →
        result.status ≢ Status.NoMemory
        → result.desk.publisher.list ≡ list_of_script (script number) }
    ensures begins_rehearsed { (number : ℕ) → command_of words.now ≡ Ok (Command.Rehearse number) →
        IsPrefix result.desk.publisher.list (list_of_script (script number)) }
    ensures serves { command_of words.now ≡ Ok Command.Serve
        → (how : ServeEnd) × (result.status ≡ status_after how)
        × IsServe (is_some disk.entry) how ((k : K) × HasRisen 0 (K.faults k))
        (C.may_give clock.now) (C.may_stop clock.now)
        (S.left input.old) (K.held result.output) result.desk.publisher.list
        (rows (P.datagrams ports.old) (P.acceptors ports.old) (P.dialers ports.old))
        (rows (P.datagrams ports.new) (P.acceptors ports.new) (P.dialers ports.new)) }
    ensures desk { command_of words.now ≢ Ok Command.Replay
        → command_of words.now ≢ Ok Command.Serve →
        ((number : ℕ) → command_of words.now ≢ Ok (Command.Rehearse number)) → result.desk ≡ desk }
    ensures back { IsBack desk.publisher.book result.desk.publisher result.desk.readings.items }
    ensures ports { command_of words.now ≢ Ok Command.Serve → ports.new ≡ ports.old }
    ensures words { Decides (command_of words.now) result.status (K.held output)
        (K.held result.output) }
    ensures usage { result.status ≡ Status.Usage → command_of words.now ≡ Err WordsError.Usage }
    ensures unread { command_of words.now ≢ Ok Command.Answer
        → command_of words.now ≢ Ok Command.Replay → command_of words.now ≢ Ok Command.Produce →
        command_of words.now ≢ Ok Command.Serve → input.new ≡ input.old }
    ensures done { ((number : ℕ) → command_of words.now ≢ Ok (Command.Rehearse number)) →
        (octets : Octets) → S.left input.old ≡ Some octets →
        result.status ≡ Status.Done → S.left input.new ≡ Some [] }
    ensures read_later { S.faults input.old ≤ S.faults input.new }
    ensures write_later { K.faults output ≤ K.faults result.output }
    ensures read_kept { IsWithoutFault result.status → S.faults input.new ≡ S.faults input.old }
    ensures write_kept { IsWithoutFault result.status → K.faults result.output ≡ K.faults output }
    ensures read_fault { result.status ≡ Status.ReadFault →
        HasRisen (S.faults input.old) (S.faults input.new) }
    ensures write_fault { result.status ≡ Status.WriteFault →
        HasRisen (K.faults output) (K.faults result.output) }
    ensures port_fault { result.status ≡ Status.PortFault
        → HasRisen (P.faults ports.old) (P.faults ports.new) }
    ensures ports_later { P.faults ports.old ≤ P.faults ports.new }
{
    match read_words(words) {
        Ok(Command::Replay) => run_replay(rt, alloc, input, output, desk),
        Ok(Command::Serve) => run_serve(rt, alloc, input, output, desk, ports, clock, disk),
        Ok(Command::Rehearse(number)) => rehearse(rt, alloc, number, output, desk),
        command => {
            let mut output = output;
            let status = run_command(alloc, command, input, &mut output);
            Ended {
                status,
                output,
                desk,
            }
        }
    }
}

/// Runs a command that publishes nothing.
fn run_command<S: Source, K: Sink>(
    alloc: Global,
    command: Result<Command, WordsError>,
    input: &mut S,
    output: &mut K,
) -> Status
    requires replay { command ≢ Ok Command.Replay }
    requires serve { command ≢ Ok Command.Serve }
    requires rehearse { (number : ℕ) → command ≢ Ok (Command.Rehearse number) }
    ensures ends { command ≡ Ok Command.Answer →
        (octets : Octets) → S.left input.old ≡ Some octets →
        Answers octets result (S.left input.new) (K.held output.old) (K.held output.new) }
    ensures ends_produce { command ≡ Ok Command.Produce →
        (octets : Octets) → S.left input.old ≡ Some octets →
        Produces octets result (S.left input.new) (K.held output.old) (K.held output.new) }
    ensures words { Decides command result (K.held output.old) (K.held output.new) }
    ensures usage { result ≡ Status.Usage → command ≡ Err WordsError.Usage }
    ensures unread { command ≢ Ok Command.Answer → command ≢ Ok Command.Produce
        → input.new ≡ input.old }
    ensures done { (octets : Octets) → S.left input.old ≡ Some octets →
        result ≡ Status.Done → S.left input.new ≡ Some [] }
    ensures ports { result ≢ Status.PortFault }
    ensures read_cause { HasCauseIn (S.faults input.old)
        (S.faults input.new) result Status.ReadFault }
    ensures write_cause { HasCauseIn (K.faults output.old)
        (K.faults output.new) result Status.WriteFault }
{
    match command {
        Ok(Command::Answer) => answer(alloc, input, output),
        Ok(Command::Produce) => produce(alloc, input, output),
        Ok(Command::Replay | Command::Serve | Command::Rehearse(_)) => unreachable!(),
        Err(WordsError::Usage) => say(
            b"usage: catzd answer | replay | rehearse N | serve | produce\n",
            Status::Usage,
            output,
        ),
    }
}

/// Runs `serve` over a desk.
fn run_serve<
    R: Threads + Wait + Sync,
    S: Source,
    K: Sink + Send,
    P: Ports,
    C: Clock + Send + Drop,
    D: Disk + Send + Drop,
>(
    rt: &R,
    alloc: Global,
    input: &mut S,
    output: K,
    desk: Desk,
    ports: &mut P,
    clock: &C,
    disk: Option<&mut D>,
) -> Ended<K>
    requires desk { IsNewDesk desk.publisher desk.readings.items }
    requires written { IfSome (K.held output) (λ text. text ≡ []) }
    requires faultless { K.faults output ≡ 0 }
    ensures serves { (how : ServeEnd) × (result.status ≡ status_after how)
        × IsServe (is_some disk.entry) how ((k : K) × HasRisen 0 (K.faults k))
        (C.may_give clock.now) (C.may_stop clock.now)
        (S.left input.old) (K.held result.output) result.desk.publisher.list
        (rows (P.datagrams ports.old) (P.acceptors ports.old) (P.dialers ports.old))
        (rows (P.datagrams ports.new) (P.acceptors ports.new) (P.dialers ports.new)) }
    ensures back { IsBack desk.publisher.book result.desk.publisher result.desk.readings.items }
    ensures other { result.status ≢ Status.Usage }
    ensures done { (octets : Octets) → S.left input.old ≡ Some octets →
        result.status ≡ Status.Done → S.left input.new ≡ Some [] }
    ensures read_cause { HasCauseIn (S.faults input.old)
        (S.faults input.new) result.status Status.ReadFault }
    ensures write_cause { HasCauseIn (K.faults output)
        (K.faults result.output) result.status Status.WriteFault }
    ensures port_fault { result.status ≡ Status.PortFault
        → HasRisen (P.faults ports.old) (P.faults ports.new) }
    ensures ports_later { P.faults ports.old ≤ P.faults ports.new }
{
    let Served { end, output, desk } = serve_input::<S, K, Brand, P, C, D, R>(
        rt,
        alloc,
        input,
        output,
        desk,
        ports,
        clock,
        disk,
        Blank::new(2),
    );
    Ended {
        status: status_after(end),
        output,
        desk,
    }
}

/// The status of serving.
fn status_after(end: ServeEnd) -> Status
    ensures { result ≡ status_after end }
{
    match end {
        ServeEnd::Done => Status::Done,
        ServeEnd::BadInput => Status::BadInput,
        ServeEnd::ReadFault => Status::ReadFault,
        ServeEnd::WriteFault => Status::WriteFault,
        ServeEnd::PortFault => Status::PortFault,
        ServeEnd::NoMemory => Status::NoMemory,
    }
}

/// Runs `replay` over the publisher and one of the readings of a desk.
pub fn run_replay<R: Wait, S: Source, K: Sink>(
    rt: &R,
    alloc: Global,
    input: &mut S,
    output: K,
    desk: Desk,
) -> Ended<K>
    requires desk { IsNewDesk desk.publisher desk.readings.items }
    requires written { IfSome (K.held output) (λ text. text ≡ []) }
    requires faultless { K.faults output ≡ 0 }
    ensures ends { (octets : Octets) → S.left input.old ≡ Some octets →
        Replays octets result.status (S.left input.new) (K.held output) (K.held result.output)
        result.desk.publisher.list }
    ensures published { (octets : Octets) → S.left input.old ≡ Some octets → HasEnded result.status
        →
        result.desk.publisher.list ≡ list_of_script octets }
    ensures begins { (octets : Octets) → S.left input.old ≡ Some octets →
        IsPrefix result.desk.publisher.list (list_of_script octets) }
    ensures back { IsBack desk.publisher.book result.desk.publisher result.desk.readings.items }
    ensures other { (result.status ≢ Status.Usage) × (result.status ≢ Status.PortFault) }
    ensures done { (octets : Octets) → S.left input.old ≡ Some octets →
        result.status ≡ Status.Done → S.left input.new ≡ Some [] }
    ensures read_cause { HasCauseIn (S.faults input.old)
        (S.faults input.new) result.status Status.ReadFault }
    ensures write_cause { HasCauseIn (K.faults output)
        (K.faults result.output) result.status Status.WriteFault }
{
    let Desk {
        publisher,
        mut readings,
    } = desk;
    let Some(reading) = readings.pop() else {
        unreachable!()
    };
    let ends = Ends {
        publisher,
        reading,
        output,
    };
    let Played { status, ends } = replay::<R, S, K, Brand>(rt, alloc, input, ends, Blank::new(1));
    let Ends {
        publisher,
        reading,
        output,
    } = ends;
    readings.push_reserved(reading);
    Ended {
        status,
        output,
        desk: Desk {
            publisher,
            readings,
        },
    }
}

/// Runs the command `answer` on an input, whose text it writes to the output.
pub fn answer<S: Source, K: Sink>(alloc: Global, input: &mut S, output: &mut K) -> Status
    ensures ends { (octets : Octets) → S.left input.old ≡ Some octets →
        Answers octets result (S.left input.new) (K.held output.old) (K.held output.new) }
    ensures other { (result ≢ Status.Usage) × (result ≢ Status.PortFault) }
    ensures done { (octets : Octets) → S.left input.old ≡ Some octets →
        result ≡ Status.Done → S.left input.new ≡ Some [] }
    ensures read_cause { HasCauseIn (S.faults input.old)
        (S.faults input.new) result Status.ReadFault }
    ensures write_cause { HasCauseIn (K.faults output.old)
        (K.faults output.new) result Status.WriteFault }
{
    match ReplyBuffer::make(alloc) {
        Err(_) => Status::NoMemory,
        Ok(buffer) => {
            let mut answering = Answering::new(buffer);
            status_of(run_answering(alloc, &mut answering, input, output))
        }
    }
}

/// Runs the command `produce` on an input, whose text it writes to the output.
pub fn produce<S: Source, K: Sink>(alloc: Global, input: &mut S, output: &mut K) -> Status
    ensures ends { (octets : Octets) → S.left input.old ≡ Some octets →
        Produces octets result (S.left input.new) (K.held output.old) (K.held output.new) }
    ensures other { (result ≢ Status.Usage) × (result ≢ Status.PortFault) }
    ensures done { (octets : Octets) → S.left input.old ≡ Some octets →
        result ≡ Status.Done → S.left input.new ≡ Some [] }
    ensures read_cause { HasCauseIn (S.faults input.old)
        (S.faults input.new) result Status.ReadFault }
    ensures write_cause { HasCauseIn (K.faults output.old)
        (K.faults output.new) result Status.WriteFault }
{
    status_of_produce(run_producing(alloc, input, output))
}

/// The status of a run of `produce`.
fn status_of_produce(run: Result<ProduceEnd, ScriptError>) -> Status
    ensures { result ≡ status_of_produce run }
{
    match run {
        Ok(ProduceEnd::Done) => Status::Done,
        Ok(ProduceEnd::BadInput) => Status::BadInput,
        Err(error) => status_of(Err(error)),
    }
}

/// How a replay ended, and its ends.
pub struct Played<K> {
    pub status: Status,
    pub ends: Ends<K>,
}

/// Runs the command `replay` on an input, whose text it writes to the output, and publishes what is taken. `J` names the
/// publisher and the ledger.
pub fn replay<R: Wait, S: Source, K: Sink, J: Naming>(
    rt: &R,
    alloc: Global,
    input: &mut S,
    ends: Ends<K>,
    ledger: Blank,
) -> Played<K>
    requires ends { CanStart J.publisher (K.held ends.output)
        (K.faults ends.output) ends.publisher ends.reading }
    requires name { ledger.name ≡ J.name }
    requires parts { ledger.parts ≡ J.parts }
    ensures ends { (octets : Octets) → S.left input.old ≡ Some octets →
        Replays octets result.status (S.left input.new) (K.held ends.output)
        (K.held result.ends.output) result.ends.publisher.list }
    ensures published { (octets : Octets) → S.left input.old ≡ Some octets → HasEnded result.status
        →
        result.ends.publisher.list ≡ list_of_script octets }
    ensures begins { (octets : Octets) → S.left input.old ≡ Some octets →
        IsPrefix result.ends.publisher.list (list_of_script octets) }
    ensures back { (result.ends.publisher.staged ≡ None)
        × (result.ends.publisher.book ≡ J.publisher)
        × IsAtRest J.publisher result.ends.reading }
    ensures other { (result.status ≢ Status.Usage) × (result.status ≢ Status.PortFault) }
    ensures done { (octets : Octets) → S.left input.old ≡ Some octets →
        result.status ≡ Status.Done → S.left input.new ≡ Some [] }
    ensures read_cause { HasCauseIn (S.faults input.old)
        (S.faults input.new) result.status Status.ReadFault }
    ensures write_cause { HasCauseIn (K.faults ends.output) (K.faults result.ends.output)
        result.status Status.WriteFault }
{
    match ReplyBuffer::make(alloc) {
        Err(_) => Played {
            status: Status::NoMemory,
            ends,
        },
        Ok(buffer) => {
            let (book, _) = ledger.open::<J>();
            let starved = EmptyBook { book };
            let mut replaying: Replaying<'_, R, K, J> = Replaying::new(
                rt, alloc, ends, starved, buffer,
            );
            let ended = run_script(alloc, &mut replaying, input);
            Played {
                status: status_of(ended),
                ends: replaying.close(),
            }
        }
    }
}

/// The status of a run of a script.
fn status_of(run: Result<End, ScriptError>) -> Status
    ensures { result ≡ status_of run }
{
    match run {
        Ok(End::Done) => Status::Done,
        Ok(End::BadInput) => Status::BadInput,
        Err(ScriptError::Read) => Status::ReadFault,
        Err(ScriptError::Write) => Status::WriteFault,
        Err(ScriptError::OutOfMemory) => Status::NoMemory,
    }
}

/// Writes a line, and ends so.
fn say<K: Sink>(text: &[u8], status: Status, output: &mut K) -> Status
    requires { IsWithoutFault status }
    ensures says { Says text.now status result (K.held output.old) (K.held output.new) }
    ensures cause { HasCauseIn (K.faults output.old)
        (K.faults output.new) result Status.WriteFault }
{
    match output.write(text) {
        Ok(()) => status,
        Err(_) => Status::WriteFault,
    }
}
