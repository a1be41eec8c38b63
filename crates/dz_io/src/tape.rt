//! Octets in memory that are read in turn.
ghost use Rattle.std.specs.Prelude.{◌≡◌, ◌≤◌, [], ◌++◌, length, take, drop, min};

use std::marker::Model;

/// Octets, and how many of them were given.
#[derive(Drop)]
pub(crate) struct Tape {
    octets: Vec<u8>,
    at: usize,
}

impl Model for Tape {
    ghost use Rattle.std.specs.Prelude.{◌≤◌, length, take, drop};
    ghost use Rattle.dz_io.specs.Memory.{TapeOf};

    ghost Value = { TapeOf };

    ghost view = { λ t. record {
      given = take t.at t.octets.items;
      left = drop t.at t.octets.items;
    } };

    ghost invariant = { λ t. t.at ≤ length t.octets.items };
}

impl Tape {
    /// A tape of these octets, of which none was given.
    pub(crate) fn new(octets: Vec<u8>) -> Tape
        ensures { result ≡ record { given = []; left = octets.items } }
    {
        Tape { octets, at: 0 }
    }

    /// Moves the next octets to the beginning of `buffer`, as many as fit, and returns how many.
    pub(crate) fn read(&mut self, buffer: &mut [u8]) -> usize
        ensures count { result ≡ min (length buffer.old) (length self.old.left) }
        ensures given { self.new.given ≡ self.old.given ++ take result buffer.new }
        ensures left { self.old.left ≡ take result buffer.new ++ self.new.left }
    {
        let count = move_front(&self.octets[self.at..], buffer);
        self.at += count;
        count
    }
}

/// Copies the beginning of `rest` to the beginning of `buffer`, as much as fits, and returns how many octets.
fn move_front(rest: &[u8], buffer: &mut [u8]) -> usize
    ensures count { result ≡ min (length buffer.old) (length rest.now) }
    ensures front { take result buffer.new ≡ take result rest.now }
{
    let count = buffer.len().min(rest.len());
    buffer[..count].copy_from_slice(&rest[..count]);
    count
}
