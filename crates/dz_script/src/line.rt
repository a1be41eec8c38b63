//! Lines, by their forms.

ghost use Rattle.std.specs.Prelude.{◌≡◌, IfOk};
ghost use Rattle.dz_script.specs.Fields.{fields_of};
ghost use Rattle.dz_script.specs.Line.{is_skipped, line_in, event_line};
ghost use Rattle.dz_script.specs.Answers.{Reads};

use crate::event::read_event;
use crate::fields::Fields;
use crate::settings::{read_catalog, read_group};
use dz_header::Transport;
use dz_io::Peer;
use dz_name::{Name, Octets, read_number};
use dz_settings::{CatalogSettings, GroupSettings};
use std::alloc::{AllocError, Global};

/// Moments are seconds below this: 2^40.
pub const MOMENTS: u64 = 1_099_511_627_776;

/// A line of a script.
#[derive(Debug, Drop)]
pub enum Line {
    /// An empty line, or one that begins with `#`.
    Skip,
    /// A catalog, still without groups: `catalog <name> <policy> <primaries>`.
    Catalog(CatalogSettings),
    /// A group of the catalog of this name: `group <catalog> <word> <policy> <primaries>`.
    Group(Name, GroupSettings),
    /// An event at a moment in seconds, below 2^40.
    Event { moment: u64, event: Event },
}

/// What happens at a moment.
#[derive(Debug, Drop)]
pub enum Event {
    /// A job is asked for: `job`.
    Job,
    /// The job of this ticket got these octets from its primary, or none: `take <ticket> <hex>`.
    Take {
        ticket: u64,
        octets: Octets,
    },
    /// The job of this ticket failed: `fail <ticket>`.
    Fail {
        ticket: u64,
    },
    /// A request of 1 to 65,535 octets came from a host, over TCP without the two octets of its length:
    /// `udp <address> <hex>` or `tcp <address> <hex>`.
    Ask {
        transport: Transport,
        peer: Peer,
        request: Octets,
    },
}

/// Why a line wasn't read.
#[derive(Clone, Copy, Debug, PartialEq, Eq)]
pub enum LineError {
    /// It has none of the forms.
    BadLine,
    OutOfMemory,
}

/// Reads a line of a script, which comes without its newline.
pub fn read_line(alloc: Global, line: &[u8]) -> Result<Line, LineError>
    ensures { Reads line.now result }
{
    if is_skipped(line) {
        return Ok(Line::Skip);
    }
    match read_fields(alloc, Fields::of(line, b' ')) {
        Ok(Some(line)) => Ok(line),
        Ok(None) => Err(LineError::BadLine),
        Err(_) => Err(LineError::OutOfMemory),
    }
}

/// Whether a line is empty or begins with `#`.
pub fn is_skipped(line: &[u8]) -> bool
    ensures { result ≡ is_skipped line.now }
{
    line.is_empty() || line.starts_with(b"#")
}

/// A line that isn't skipped.
fn read_fields(alloc: Global, fields: Fields<'_>) -> Result<Option<Line>, AllocError>
    ensures { IfOk result (λ line. line ≡ line_in fields.entry) }
{
    let Some((word, fields)) = fields.split_first() else {
        return Ok(None);
    };
    if word == b"catalog".as_slice() {
        let settings = read_catalog(alloc, fields)?;
        Ok(settings.map(Line::Catalog))
    } else if word == b"group".as_slice() {
        let group = read_group(alloc, fields)?;
        Ok(group.map(|(catalog, settings)| Line::Group(catalog, settings)))
    } else {
        read_event_line(alloc, word, fields)
    }
}

/// An event after its moment.
fn read_event_line(
    alloc: Global,
    moment: &[u8],
    fields: Fields<'_>,
) -> Result<Option<Line>, AllocError>
    ensures { IfOk result (λ line. line ≡ event_line moment.now fields.entry) }
{
    match read_number(MOMENTS - 1, moment) {
        None => Ok(None),
        Some(moment) => {
            let event = read_event(alloc, fields)?;
            Ok(event.map(|event| Line::Event { moment, event }))
        }
    }
}
