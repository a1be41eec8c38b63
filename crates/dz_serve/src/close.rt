//! Devices that go back to the ports.

ghost use Rattle.std.specs.Prelude.{◌≡◌, ◌≤◌};
ghost use Rattle.dz_io.specs.Counts.{HasRisen};
ghost use Rattle.dz_io.specs.Ports.{exchange, accepts, dials};
ghost use Rattle.dz_serve.specs.Rows.{both_back};

use crate::pair::Pair;
use dz_io::{Acceptor, Datagrams, Dialer, Ports};

/// Gives both datagram devices back.
pub(crate) fn close_datagrams<P: Ports>(ports: &mut P, devices: Pair<P::D>)
    requires { 2 ≤ (P.datagrams ports.old).out }
    ensures back { P.datagrams ports.new ≡ both_back
        (exchange (P.D.received devices.first) (P.D.sent devices.first)
        (P.D.is_closed devices.first) (P.D.faults devices.first))
        (exchange (P.D.received devices.second) (P.D.sent devices.second)
        (P.D.is_closed devices.second) (P.D.faults devices.second))
        (P.datagrams ports.old) }
    ensures acceptors { P.acceptors ports.new ≡ P.acceptors ports.old }
    ensures dialers { P.dialers ports.new ≡ P.dialers ports.old }
    ensures later { P.faults ports.old ≤ P.faults ports.new }
    ensures kept { P.D.faults devices.first ≡ 0 → P.D.faults devices.second ≡ 0 →
        P.faults ports.new ≡ P.faults ports.old }
    ensures first { HasRisen 0 (P.D.faults devices.first)
        → HasRisen (P.faults ports.old) (P.faults ports.new) }
    ensures second { HasRisen 0 (P.D.faults devices.second)
        → HasRisen (P.faults ports.old) (P.faults ports.new) }
{
    let Pair { first, second } = devices;
    ports.close_datagrams(first);
    ports.close_datagrams(second);
}

/// Gives both acceptors back.
pub(crate) fn close_acceptors<P: Ports>(ports: &mut P, devices: Pair<P::A>)
    requires { 2 ≤ (P.acceptors ports.old).out }
    ensures back { P.acceptors ports.new ≡ both_back
        (accepts (P.A.links devices.first) (P.A.out devices.first)
        (P.A.is_closed devices.first) (P.A.faults devices.first))
        (accepts (P.A.links devices.second) (P.A.out devices.second)
        (P.A.is_closed devices.second) (P.A.faults devices.second))
        (P.acceptors ports.old) }
    ensures datagrams { P.datagrams ports.new ≡ P.datagrams ports.old }
    ensures dialers { P.dialers ports.new ≡ P.dialers ports.old }
    ensures later { P.faults ports.old ≤ P.faults ports.new }
    ensures kept { P.A.faults devices.first ≡ 0 → P.A.faults devices.second ≡ 0 →
        P.faults ports.new ≡ P.faults ports.old }
    ensures first { HasRisen 0 (P.A.faults devices.first)
        → HasRisen (P.faults ports.old) (P.faults ports.new) }
    ensures second { HasRisen 0 (P.A.faults devices.second)
        → HasRisen (P.faults ports.old) (P.faults ports.new) }
{
    let Pair { first, second } = devices;
    ports.close_acceptor(first);
    ports.close_acceptor(second);
}

/// Gives both dialers back.
pub(crate) fn close_dialers<P: Ports>(ports: &mut P, devices: Pair<P::L>)
    requires { 2 ≤ (P.dialers ports.old).out }
    ensures back { P.dialers ports.new ≡ both_back
        (dials (P.L.links devices.first) (P.L.out devices.first) (P.L.faults devices.first))
        (dials (P.L.links devices.second) (P.L.out devices.second) (P.L.faults devices.second))
        (P.dialers ports.old) }
    ensures datagrams { P.datagrams ports.new ≡ P.datagrams ports.old }
    ensures acceptors { P.acceptors ports.new ≡ P.acceptors ports.old }
    ensures faults { P.faults ports.new ≡ P.faults ports.old }
{
    let Pair { first, second } = devices;
    ports.close_dialer(first);
    ports.close_dialer(second);
}
