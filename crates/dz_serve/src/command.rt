//! The command `serve`.

ghost use Rattle.std.specs.Prelude.{◌≡◌, ◌≢◌, ◌≤◌, [], length, is_some, None, Some, Ok, Err, IfOk, IfSome, MatchBool};
ghost use Rattle.std.specs.Prelude.{All};
ghost use Rattle.dz_io.specs.Counts.{HasRisen};
ghost use Rattle.dz_io.specs.Device.{HasCauseOf};
ghost use Rattle.dz_io.specs.Ports.{IsFreshExchange, IsFreshAccepts, IsFreshDials};
ghost use Rattle.dz_io.specs.declared.peer.Peer.{Peer};
ghost use Rattle.dz_name.specs.Words.{Octets};
ghost use Rattle.dz_settings.specs.Config.{IsAllowed};
ghost use Rattle.dz_settings.specs.declared.config.CatalogSettings.{CatalogSettings};
ghost use Rattle.dz_config.specs.Answers.{Reads};
ghost use Rattle.dz_config.specs.declared.fault.ConfigFault.{ConfigFault};
ghost use Rattle.dz_config.specs.declared.fault.ConfigError.TheVariants.{Fault};
ghost use Rattle.dz_desk.specs.Seen.{IsAtRest};
ghost use Rattle.dz_serve.specs.Command.{IsServe, IsServerConfig, IsServerConfigOf, SaysBad, bad_config};
ghost use Rattle.dz_serve.specs.Ends.{is_write_fault};
ghost use Rattle.dz_serve.specs.Rows.{rows};
ghost use Rattle.dz_serve.specs.Workers.{AreBack};

use crate::served::{Served, ServerConfig, serve, unserved};
use crate::status::ServeEnd;
use crate::text::{TextError, read_text};
use dz_config::{ConfigError, ConfigFault, read_config, read_downstream};
use dz_desk::Desk;
use dz_disk::Disk;
use dz_io::{Clock, Failed, Ports, Sink, Source};
use dz_provision::Naming;
use std::alloc::Global;
use std::sync::Wait;
use std::sync::ledger::Blank;
use std::thread::Threads;

/// Why an input gave no configuration of a server.
#[derive(Clone, Copy, Debug, PartialEq, Eq)]
pub(crate) enum Unconfigured {
    /// The source failed.
    Read,
    /// The input is no configuration.
    Bad(ConfigFault),
    /// No memory is left.
    OutOfMemory,
}

/// Reads the configuration of a server from a source, to its end.
///
/// # Errors
///
/// `Read` where the source failed; `Bad` with the least fault where the input is no configuration; `OutOfMemory` where
/// no memory is left.
pub(crate) fn read_server_config<S: Source>(
    alloc: Global,
    source: &mut S,
) -> Result<ServerConfig, Unconfigured>
    ensures reads { (octets : Octets) → S.left source.old ≡ Some octets
        → IsServerConfigOf octets result }
    ensures allowed { IfOk result (λ s. IsAllowed s.config) }
    ensures end { IfOk result (λ s. (octets : Octets) → S.left source.old ≡ Some octets →
        S.left source.new ≡ Some []) }
    ensures cause { HasCauseOf (S.faults source.old)
        (S.faults source.new) result Unconfigured.Read }
    ensures kept { (fault : ConfigFault) → result ≡ Err (Unconfigured.Bad fault) →
        S.faults source.new ≡ S.faults source.old }
{
    match read_text(alloc, source) {
        Err(TextError::Read) => Err(Unconfigured::Read),
        Err(TextError::OutOfMemory) => Err(Unconfigured::OutOfMemory),
        Ok(text) => match server_config_of(alloc, &text) {
            Ok(server) => Ok(server),
            Err(ConfigError::Fault(fault)) => Err(Unconfigured::Bad(fault)),
            Err(ConfigError::OutOfMemory) => Err(Unconfigured::OutOfMemory),
        },
    }
}

/// The configuration of a server that a text has.
fn server_config_of(alloc: Global, text: &[u8]) -> Result<ServerConfig, ConfigError>
    ensures { IsServerConfig text.now result }
{
    let (listen, config) = read_config(alloc, text)?;
    let downstream = read_downstream(alloc, text)?;
    Ok(ServerConfig {
        listen,
        config,
        downstream,
    })
}

/// Reads the configuration from an input and serves it. Where the input is no configuration, the line
/// `bad config <number>` is written, and nothing is opened. Where there is a disk, zones are kept on it. The log's lines of
/// want of memory are counted in the ledger.
pub fn serve_input<
    S: Source,
    K: Sink + Send,
    J: Naming + Send + Sync,
    P: Ports,
    C: Clock + Send + Drop,
    D: Disk + Send + Drop,
    R: Threads + Wait + Sync,
>(
    rt: &R,
    alloc: Global,
    input: &mut S,
    output: K,
    desk: Desk,
    ports: &mut P,
    clock: &C,
    disk: Option<&mut D>,
    ledger: Blank,
) -> Served<K>
    requires written { IfSome (K.held output) (λ text. text ≡ []) }
    requires faultless { K.faults output ≡ 0 }
    requires publisher { (desk.publisher.list ≡ []) × (desk.publisher.staged ≡ None)
        × (desk.publisher.book ≡ J.publisher) }
    requires readings { All (IsAtRest J.publisher) desk.readings.items }
    requires six { length desk.readings.items ≡ 6 }
    requires name { ledger.name ≡ J.name }
    requires parts { (ledger.parts ≡ J.parts) × (ledger.parts ≡ 2) }
    ensures publisher { (result.desk.publisher.staged ≡ None)
        × (result.desk.publisher.book ≡ desk.publisher.book) }
    ensures back { AreBack J.publisher result.desk.readings.items }
    ensures serve { IsServe (is_some disk.entry) result.end ((k : K) × HasRisen 0 (K.faults k))
        (C.may_give clock.now)
        (C.may_stop clock.now) (S.left input.old) (K.held result.output) result.desk.publisher.list
        (rows (P.datagrams ports.old) (P.acceptors ports.old) (P.dialers ports.old))
        (rows (P.datagrams ports.new) (P.acceptors ports.new) (P.dialers ports.new)) }
    ensures read { result.end ≡ ServeEnd.Done → (octets : Octets) → S.left input.old ≡ Some octets →
        S.left input.new ≡ Some [] }
    ensures read_later { S.faults input.old ≤ S.faults input.new }
    ensures read_kept { result.end ≢ ServeEnd.ReadFault → result.end ≢ ServeEnd.NoMemory →
        S.faults input.new ≡ S.faults input.old }
    ensures read_fault { result.end ≡ ServeEnd.ReadFault
        → HasRisen (S.faults input.old) (S.faults input.new) }
    ensures write { MatchBool (is_write_fault result.end) (HasRisen 0 (K.faults result.output))
        (K.faults result.output ≡ 0) }
    ensures port { result.end ≡ ServeEnd.PortFault
        → HasRisen (P.faults ports.old) (P.faults ports.new) }
    ensures ports_later { P.faults ports.old ≤ P.faults ports.new }
{
    match read_server_config(alloc, input) {
        Ok(server) => serve::<K, J, P, C, D, R>(
            rt, alloc, server, output, desk, ports, clock, disk, ledger,
        ),
        Err(Unconfigured::Read) => unserved(ServeEnd::ReadFault, output, desk),
        Err(Unconfigured::OutOfMemory) => unserved(ServeEnd::NoMemory, output, desk),
        Err(Unconfigured::Bad(fault)) => say_bad(fault, output, desk),
    }
}

/// Says what is wrong with an input.
fn say_bad<K: Sink>(fault: ConfigFault, output: K, desk: Desk) -> Served<K>
    requires faultless { K.faults output ≡ 0 }
    ensures desk { result.desk ≡ desk }
    ensures said { SaysBad fault result.end (K.held output) (K.held result.output) }
    ensures write { MatchBool (is_write_fault result.end) (HasRisen 0 (K.faults result.output))
        (K.faults result.output ≡ 0) }
{
    let mut output = output;
    let mut line = *b"bad config 0\n";
    line[11] = b'0' + fault.number();
    match output.write(&line) {
        Ok(()) => unserved(ServeEnd::BadInput, output, desk),
        Err(Failed) => unserved(ServeEnd::WriteFault, output, desk),
    }
}
