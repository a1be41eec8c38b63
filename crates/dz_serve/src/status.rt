//! How serving ends.

ghost use Rattle.std.specs.Prelude.{◌≡◌, ◌≢◌, ◌⊎◌, true, false};
ghost use Rattle.dz_query.specs.Links.{starved_at, unheard_at};
ghost use Rattle.dz_serve.specs.Ends.{has_closed, is_whole, is_write_fault, unheard_in, IsClear};

use crate::tcp_worker::Linked;
use crate::together::Workers;
use crate::transfer_worker::Transferred;
use crate::udp_worker::Listened;
use dz_query::{LinksEnd, SessionEnd};
use dz_transfer::{TransferEnd, Transfers};
use std::sync::ledger::Ledger;

/// How serving ended.
#[derive(Clone, Copy, Debug, PartialEq, Eq)]
pub enum ServeEnd {
    /// All devices were served to their ends.
    Done,
    /// The input is no configuration.
    BadInput,
    /// The input can't be read.
    ReadFault,
    /// A line of the log could not be written.
    WriteFault,
    /// An opening, a receive, an accept or a send failed.
    PortFault,
    /// Out of memory.
    NoMemory,
}

/// The end after these: a fault of the log comes before one of the devices, and that before a link that was starved of memory.
/// Where none of them is there and no dial was made though one must be, there was no memory for it: a catalog of which nothing
/// was kept is due at each moment until its first job.
pub(crate) fn judge<D, A, L, C, N: Ledger>(
    log_failed: bool,
    ended: &Workers<Listened<D, C>, Linked<A, C>, Transferred<L, N>>,
    must_dial: bool,
) -> ServeEnd
    ensures log { is_write_fault result ≡ log_failed }
    ensures session_one { result ≡ ServeEnd.Done → is_whole ended.now.datagrams.first.end ≡ true }
    ensures session_two { result ≡ ServeEnd.Done → is_whole ended.now.datagrams.second.end ≡ true }
    ensures links_one { result ≡ ServeEnd.Done → has_closed ended.now.links.first.end ≡ true }
    ensures links_two { result ≡ ServeEnd.Done → has_closed ended.now.links.second.end ≡ true }
    ensures fed_one { result ≡ ServeEnd.Done → starved_at ended.now.links.first.end ≡ false }
    ensures fed_two { result ≡ ServeEnd.Done → starved_at ended.now.links.second.end ≡ false }
    ensures heard_one { result ≡ ServeEnd.Done → unheard_in ended.now.datagrams.first.end ≡ false }
    ensures heard_two { result ≡ ServeEnd.Done → unheard_in ended.now.datagrams.second.end ≡ false }
    ensures heard_three { result ≡ ServeEnd.Done → unheard_at ended.now.links.first.end ≡ false }
    ensures heard_four { result ≡ ServeEnd.Done → unheard_at ended.now.links.second.end ≡ false }
    ensures clear_one { result ≡ ServeEnd.Done → IsClear ended.now.transfers.first.transfers }
    ensures clear_two { result ≡ ServeEnd.Done → IsClear ended.now.transfers.second.transfers }
    ensures dialed { result ≡ ServeEnd.Done → must_dial ≡ true →
        (ended.now.transfers.first.transfers.dialed ≡ true)
        ⊎ (ended.now.transfers.second.transfers.dialed ≡ true) }
    ensures memory { result ≡ ServeEnd.NoMemory →
        (is_whole ended.now.datagrams.first.end ≡ true)
        × (is_whole ended.now.datagrams.second.end ≡ true)
        × (has_closed ended.now.links.first.end ≡ true)
        × (has_closed ended.now.links.second.end ≡ true) }
    ensures input { (result ≢ ServeEnd.BadInput) × (result ≢ ServeEnd.ReadFault) }
    ensures port { result ≡ ServeEnd.PortFault →
        (is_whole ended.now.datagrams.first.end ≡ false)
        ⊎ ((is_whole ended.now.datagrams.second.end ≡ false)
        ⊎ ((has_closed ended.now.links.first.end ≡ false)
        ⊎ (has_closed ended.now.links.second.end ≡ false))) }
{
    if log_failed {
        return ServeEnd::WriteFault;
    }
    if !is_whole(ended.datagrams.first.end) {
        return ServeEnd::PortFault;
    }
    if !is_whole(ended.datagrams.second.end) {
        return ServeEnd::PortFault;
    }
    if !has_closed(ended.links.first.end) {
        return ServeEnd::PortFault;
    }
    if !has_closed(ended.links.second.end) {
        return ServeEnd::PortFault;
    }
    if has_starved(ended.links.first.end) {
        return ServeEnd::NoMemory;
    }
    if has_starved(ended.links.second.end) {
        return ServeEnd::NoMemory;
    }
    if !all_heard(ended) {
        return ServeEnd::NoMemory;
    }
    judge_transfers(
        &ended.transfers.first.transfers,
        &ended.transfers.second.transfers,
        must_dial,
    )
}

/// Whether each NOTIFY was heard. None goes unheard while no write to the log has failed, but no clause can say so.
fn all_heard<D, A, L, C, N: Ledger>(
    ended: &Workers<Listened<D, C>, Linked<A, C>, Transferred<L, N>>,
) -> bool
    ensures one { result ≡ true → unheard_in ended.now.datagrams.first.end ≡ false }
    ensures two { result ≡ true → unheard_in ended.now.datagrams.second.end ≡ false }
    ensures three { result ≡ true → unheard_at ended.now.links.first.end ≡ false }
    ensures four { result ≡ true → unheard_at ended.now.links.second.end ≡ false }
{
    !unheard_in(ended.datagrams.first.end)
        && !unheard_in(ended.datagrams.second.end)
        && !unheard_at(ended.links.first.end)
        && !unheard_at(ended.links.second.end)
}

/// The end after these transfers, where nothing else has failed.
fn judge_transfers(one: &Transfers, two: &Transfers, must_dial: bool) -> ServeEnd
    ensures clear_one { result ≡ ServeEnd.Done → IsClear one.now }
    ensures clear_two { result ≡ ServeEnd.Done → IsClear two.now }
    ensures dialed { result ≡ ServeEnd.Done → must_dial ≡ true →
        (one.now.dialed ≡ true) ⊎ (two.now.dialed ≡ true) }
    ensures other { (result ≡ ServeEnd.Done) ⊎ (result ≡ ServeEnd.NoMemory) }
{
    if !is_clear(one) {
        return ServeEnd::NoMemory;
    }
    if !is_clear(two) {
        return ServeEnd::NoMemory;
    }
    if must_dial && !(one.dialed || two.dialed) {
        return ServeEnd::NoMemory;
    }
    ServeEnd::Done
}

/// Whether a transfer worker was stopped, and each of its jobs was in flight as it ended.
fn is_clear(transfers: &Transfers) -> bool
    ensures { result ≡ true → IsClear transfers.now }
{
    transfers.end == TransferEnd::Stopped && transfers.absent == 0
}

/// Whether a session ended at its device's end, with no reply lost.
fn is_whole(end: SessionEnd) -> bool
    ensures { result ≡ is_whole end }
{
    match end {
        SessionEnd::Closed { lost, .. } => !lost,
        SessionEnd::Failed => false,
    }
}

/// Whether a NOTIFY may have got no reply in a session, since it was not heard.
fn unheard_in(end: SessionEnd) -> bool
    ensures { result ≡ unheard_in end }
{
    match end {
        SessionEnd::Closed { unheard, .. } => unheard,
        SessionEnd::Failed => true,
    }
}

/// Whether a NOTIFY got no reply over the links of an acceptor, since it was not heard.
fn unheard_at(end: LinksEnd) -> bool
    ensures { result ≡ unheard_at end }
{
    match end {
        LinksEnd::Closed { unheard, .. } | LinksEnd::Failed { unheard, .. } => unheard,
    }
}

/// Whether an acceptor closed.
fn has_closed(end: LinksEnd) -> bool
    ensures { result ≡ has_closed end }
{
    match end {
        LinksEnd::Closed { .. } => true,
        LinksEnd::Failed { .. } => false,
    }
}

/// Whether a link ran out of memory.
fn has_starved(end: LinksEnd) -> bool
    ensures { result ≡ starved_at end }
{
    match end {
        LinksEnd::Closed { starved, .. } | LinksEnd::Failed { starved, .. } => starved,
    }
}
