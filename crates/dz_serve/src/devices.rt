//! Devices that are opened at the ports.

ghost use Rattle.std.specs.Prelude.{◌≡◌, ◌≤◌, None, IfOk, OnOk, OnErr};
ghost use Rattle.dz_io.specs.Device.{HasCause};
ghost use Rattle.dz_io.specs.Ports.{exchange, accepts, dials, IsFreshExchange, IsFreshAccepts, IsFreshDials};
ghost use Rattle.dz_serve.specs.Rows.{both_at, both_made, IsUnused};

use crate::close::{close_acceptors, close_datagrams};
use crate::pair::Pair;
use dz_io::{Acceptor, Datagrams, Dialer, Failed, Peer, Ports};

/// Two devices of each kind.
pub(crate) struct Devices<D, A, L> {
    pub datagrams: Pair<D>,
    pub acceptors: Pair<A>,
    pub dialers: Pair<L>,
}

/// Opens two devices of each kind. Where one is refused, those that were opened go back.
#[tactic(auto, using(crate::proofs::RowLemmas::unused_none, crate::proofs::RowLemmas::unused_two))]
pub(crate) fn open_devices<P: Ports>(
    ports: &mut P,
    listen: &Peer,
) -> Result<Devices<P::D, P::A, P::L>, Failed>
    ensures datagrams { OnOk result
        (P.datagrams ports.new ≡ both_at listen.now (P.datagrams ports.old)) }
    ensures acceptors { OnOk result
        (P.acceptors ports.new ≡ both_at listen.now (P.acceptors ports.old)) }
    ensures dialers { OnOk result (P.dialers ports.new ≡ both_made (P.dialers ports.old)) }
    ensures datagram_one { IfOk result (λ d. IsFreshExchange
        (exchange (P.D.received d.datagrams.first) (P.D.sent d.datagrams.first)
        (P.D.is_closed d.datagrams.first) (P.D.faults d.datagrams.first))) }
    ensures datagram_two { IfOk result (λ d. IsFreshExchange
        (exchange (P.D.received d.datagrams.second) (P.D.sent d.datagrams.second)
        (P.D.is_closed d.datagrams.second) (P.D.faults d.datagrams.second))) }
    ensures acceptor_one { IfOk result (λ d. IsFreshAccepts
        (accepts (P.A.links d.acceptors.first) (P.A.out d.acceptors.first)
        (P.A.is_closed d.acceptors.first) (P.A.faults d.acceptors.first))) }
    ensures acceptor_two { IfOk result (λ d. IsFreshAccepts
        (accepts (P.A.links d.acceptors.second) (P.A.out d.acceptors.second)
        (P.A.is_closed d.acceptors.second) (P.A.faults d.acceptors.second))) }
    ensures dialer_one { IfOk result (λ d. IsFreshDials
        (dials (P.L.links d.dialers.first) (P.L.out d.dialers.first)
        (P.L.faults d.dialers.first))) }
    ensures dialer_two { IfOk result (λ d. IsFreshDials
        (dials (P.L.links d.dialers.second) (P.L.out d.dialers.second)
        (P.L.faults d.dialers.second))) }
    ensures err_datagrams { OnErr result
        (IsUnused IsFreshExchange (P.datagrams ports.old) (P.datagrams ports.new)) }
    ensures err_acceptors { OnErr result
        (IsUnused IsFreshAccepts (P.acceptors ports.old) (P.acceptors ports.new)) }
    ensures err_dialers { OnErr result
        (IsUnused IsFreshDials (P.dialers ports.old) (P.dialers ports.new)) }
    ensures cause { HasCause (P.faults ports.old) (P.faults ports.new) result }
{
    let datagrams = match open_datagrams(ports, listen) {
        Ok(devices) => devices,
        Err(failed) => return Err(failed),
    };
    let acceptors = match open_acceptors(ports, listen) {
        Ok(devices) => devices,
        Err(failed) => {
            close_datagrams(ports, datagrams);
            return Err(failed);
        }
    };
    match open_dialers(ports) {
        Ok(dialers) => Ok(Devices {
            datagrams,
            acceptors,
            dialers,
        }),
        Err(failed) => {
            close_acceptors(ports, acceptors);
            close_datagrams(ports, datagrams);
            Err(failed)
        }
    }
}

/// Two datagram devices at this address; where the second fails to open, the first goes back.
#[tactic(auto, using(crate::proofs::RowLemmas::unused_none, crate::proofs::RowLemmas::unused_one))]
fn open_datagrams<P: Ports>(ports: &mut P, listen: &Peer) -> Result<Pair<P::D>, Failed>
    ensures ok { OnOk result (P.datagrams ports.new ≡ both_at listen.now (P.datagrams ports.old)) }
    ensures first { IfOk result (λ d. IsFreshExchange
        (exchange (P.D.received d.first) (P.D.sent d.first) (P.D.is_closed d.first)
        (P.D.faults d.first))) }
    ensures second { IfOk result (λ d. IsFreshExchange
        (exchange (P.D.received d.second) (P.D.sent d.second) (P.D.is_closed d.second)
        (P.D.faults d.second))) }
    ensures err { OnErr result
        (IsUnused IsFreshExchange (P.datagrams ports.old) (P.datagrams ports.new)) }
    ensures acceptors { P.acceptors ports.new ≡ P.acceptors ports.old }
    ensures dialers { P.dialers ports.new ≡ P.dialers ports.old }
    ensures cause { HasCause (P.faults ports.old) (P.faults ports.new) result }
{
    let first = match ports.open_datagrams(listen, 0) {
        Ok(device) => device,
        Err(failed) => return Err(failed),
    };
    match ports.open_datagrams(listen, 1) {
        Ok(second) => Ok(Pair { first, second }),
        Err(failed) => {
            ports.close_datagrams(first);
            Err(failed)
        }
    }
}

/// Two acceptors at this address; where the second fails to open, the first goes back.
#[tactic(auto, using(crate::proofs::RowLemmas::unused_none, crate::proofs::RowLemmas::unused_one))]
fn open_acceptors<P: Ports>(ports: &mut P, listen: &Peer) -> Result<Pair<P::A>, Failed>
    ensures ok { OnOk result (P.acceptors ports.new ≡ both_at listen.now (P.acceptors ports.old)) }
    ensures first { IfOk result (λ a. IsFreshAccepts
        (accepts (P.A.links a.first) (P.A.out a.first) (P.A.is_closed a.first)
        (P.A.faults a.first))) }
    ensures second { IfOk result (λ a. IsFreshAccepts
        (accepts (P.A.links a.second) (P.A.out a.second) (P.A.is_closed a.second)
        (P.A.faults a.second))) }
    ensures err { OnErr result
        (IsUnused IsFreshAccepts (P.acceptors ports.old) (P.acceptors ports.new)) }
    ensures datagrams { P.datagrams ports.new ≡ P.datagrams ports.old }
    ensures dialers { P.dialers ports.new ≡ P.dialers ports.old }
    ensures cause { HasCause (P.faults ports.old) (P.faults ports.new) result }
{
    let first = match ports.open_acceptor(listen, 0) {
        Ok(device) => device,
        Err(failed) => return Err(failed),
    };
    match ports.open_acceptor(listen, 1) {
        Ok(second) => Ok(Pair { first, second }),
        Err(failed) => {
            ports.close_acceptor(first);
            Err(failed)
        }
    }
}

/// Two dialers; where the second fails to open, the first goes back.
#[tactic(auto, using(crate::proofs::RowLemmas::unused_none, crate::proofs::RowLemmas::unused_one))]
fn open_dialers<P: Ports>(ports: &mut P) -> Result<Pair<P::L>, Failed>
    ensures ok { OnOk result (P.dialers ports.new ≡ both_made (P.dialers ports.old)) }
    ensures first { IfOk result
        (λ l. IsFreshDials (dials (P.L.links l.first) (P.L.out l.first) (P.L.faults l.first))) }
    ensures second { IfOk result
        (λ l. IsFreshDials (dials (P.L.links l.second) (P.L.out l.second) (P.L.faults l.second))) }
    ensures err { OnErr result (IsUnused IsFreshDials (P.dialers ports.old) (P.dialers ports.new)) }
    ensures datagrams { P.datagrams ports.new ≡ P.datagrams ports.old }
    ensures acceptors { P.acceptors ports.new ≡ P.acceptors ports.old }
    ensures cause { HasCause (P.faults ports.old) (P.faults ports.new) result }
{
    let first = match ports.dialer(0) {
        Ok(device) => device,
        Err(failed) => return Err(failed),
    };
    match ports.dialer(1) {
        Ok(second) => Ok(Pair { first, second }),
        Err(failed) => {
            ports.close_dialer(first);
            Err(failed)
        }
    }
}
