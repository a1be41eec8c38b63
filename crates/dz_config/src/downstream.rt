//! The addresses to which zones are sent.

ghost use Rattle.std.specs.Prelude.{◌≡◌, ◌≤◌, ◌<◌, [], length, map, MatchOption};
ghost use Rattle.dz_config.specs.Document.{addresses_of};
ghost use Rattle.dz_config.specs.declared.downstream.TheConstants.{DOWNSTREAM};

use dz_io::Peer;
use std::marker::Model;

/// How many addresses there are at most.
pub const DOWNSTREAM: usize = 16;

/// The addresses to which zones are sent, at most sixteen, in no allocation. Contracts see the list of them.
#[derive(Debug, Drop)]
pub struct Downstream {
    hosts: [[u8; 4]; DOWNSTREAM],
    count: usize,
}

impl Model for Downstream {
    ghost use Rattle.std.specs.Prelude.{◌≤◌, List, take};
    ghost use Rattle.dz_name.specs.Words.{Octets};
    ghost use Rattle.dz_config.specs.declared.downstream.TheConstants.{DOWNSTREAM};

    ghost Value = { List Octets };

    ghost view = { λ d. take d.count d.hosts };

    ghost invariant = { λ d. d.count ≤ DOWNSTREAM };
}

impl Downstream {
    /// No address.
    pub fn none() -> Downstream
        ensures { result ≡ [] }
    {
        Downstream {
            hosts: [[0; 4]; DOWNSTREAM],
            count: 0,
        }
    }

    /// The addresses of these hosts; none where there are more than sixteen.
    pub fn of(hosts: &[Peer]) -> Option<Downstream>
        ensures { MatchOption result (DOWNSTREAM < length hosts.now)
            (λ d. (d ≡ addresses_of hosts.now) × (length hosts.now ≤ DOWNSTREAM)) }
    {
        if DOWNSTREAM < hosts.len() {
            return None;
        }
        let mut addresses = [[0; 4]; DOWNSTREAM];
        'hosts: for place in 0..hosts.len() {
            addresses[place] = hosts[place].address;
        }
        Some(Downstream {
            hosts: addresses,
            count: hosts.len(),
        })
    }

    /// A copy of the addresses.
    pub fn copied(&self) -> Downstream
        ensures { result ≡ self.now }
    {
        Downstream {
            hosts: self.hosts,
            count: self.count,
        }
    }

    /// The addresses, in their order.
    pub fn as_slice(&self) -> &[[u8; 4]]
        ensures { result.now ≡ self.now }
    {
        &self.hosts[..self.count]
    }
}
