//! Events.

ghost use Rattle.std.specs.Prelude.{◌≡◌, IfOk};
ghost use Rattle.dz_script.specs.Event.{job_of, take_of, fail_of, ask_of, event_of};

use crate::fields::Fields;
use crate::hex_text::{read_octets, read_taken};
use crate::line::Event;
use dz_header::Transport;
use dz_name::{Octets, read_number};
use dz_settings::read_host;
use std::alloc::{AllocError, Global};

/// An event by its first field.
pub(crate) fn read_event(alloc: Global, fields: Fields<'_>) -> Result<Option<Event>, AllocError>
    ensures { IfOk result (λ event. event ≡ event_of fields.entry) }
{
    let Some((word, fields)) = fields.split_first() else {
        return Ok(None);
    };
    if word == b"job".as_slice() {
        Ok(read_job(fields))
    } else if word == b"take".as_slice() {
        read_take(alloc, fields)
    } else if word == b"fail".as_slice() {
        Ok(read_fail(fields))
    } else if word == b"udp".as_slice() {
        read_ask(alloc, Transport::Udp, fields)
    } else if word == b"tcp".as_slice() {
        read_ask(alloc, Transport::Tcp, fields)
    } else {
        Ok(None)
    }
}

/// `job`, with no field after it.
fn read_job(fields: Fields<'_>) -> Option<Event>
    ensures { result ≡ job_of fields.entry }
{
    if fields.is_empty() {
        Some(Event::Job)
    } else {
        None
    }
}

/// `<ticket> <hex>`
fn read_take(alloc: Global, fields: Fields<'_>) -> Result<Option<Event>, AllocError>
    ensures { IfOk result (λ event. event ≡ take_of fields.entry) }
{
    match fields.two() {
        None => Ok(None),
        Some((ticket, hex)) => match read_number(u64::MAX, ticket) {
            None => Ok(None),
            Some(ticket) => match read_taken(alloc, hex)? {
                None => Ok(None),
                Some(octets) => Ok(Some(Event::Take {
                    ticket,
                    octets: Octets::from_vec(octets),
                })),
            },
        },
    }
}

/// `<ticket>`
fn read_fail(fields: Fields<'_>) -> Option<Event>
    ensures { result ≡ fail_of fields.entry }
{
    match fields.one() {
        None => None,
        Some(ticket) => match read_number(u64::MAX, ticket) {
            None => None,
            Some(ticket) => Some(Event::Fail { ticket }),
        },
    }
}

/// `<address> <hex>`
fn read_ask(
    alloc: Global,
    transport: Transport,
    fields: Fields<'_>,
) -> Result<Option<Event>, AllocError>
    ensures { IfOk result (λ event. event ≡ ask_of transport fields.entry) }
{
    match fields.two() {
        None => Ok(None),
        Some((address, hex)) => match read_host(address) {
            None => Ok(None),
            Some(peer) => match read_octets(alloc, hex)? {
                None => Ok(None),
                Some(request) => Ok(Some(Event::Ask {
                    transport,
                    peer,
                    request: Octets::from_vec(request),
                })),
            },
        },
    }
}
