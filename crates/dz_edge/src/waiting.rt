//! How many octets of replies wait.
ghost use Rattle.std.specs.Prelude.{◌≡◌, ◌≤◌, ◌+◌, ◌↔◌, IsTrue};
ghost use Rattle.dz_edge.specs.declared.waiting.TheConstants.{WAITING_OCTETS};

/// How many octets of replies the connections of a worker keep together at most: those of which a socket hasn't taken
/// the last, and those of the turn that runs. A connection that would keep more is closed.
pub const WAITING_OCTETS: usize = 256 * 1_048_576;

/// How many octets of replies wait, of those that may.
#[derive(Clone, Copy)]
pub(crate) struct Waiting {
    octets: usize,
    ghost within: { octets ≤ WAITING_OCTETS },
}

impl Waiting {
    /// Nothing waits.
    pub fn new() -> Waiting
        ensures { result.octets ≡ 0 }
    {
        Waiting { octets: 0 }
    }

    /// Whether nothing waits.
    pub fn is_none(self) -> bool
        ensures { IsTrue result ↔ (self.octets ≡ 0) }
    {
        self.octets == 0
    }

    /// Whether this many octets more may wait.
    pub fn has_room(self, count: usize) -> bool
        ensures { IsTrue result ↔ (self.octets + count ≤ WAITING_OCTETS) }
    {
        count <= WAITING_OCTETS - self.octets
    }

    /// This many octets more wait.
    pub fn add(&mut self, count: usize)
        requires { self.old.octets + count ≤ WAITING_OCTETS }
        ensures { self.new.octets ≡ self.old.octets + count }
    {
        self.octets += count;
    }

    /// This many octets no longer wait.
    pub fn take_off(&mut self, count: usize)
        requires { count ≤ self.old.octets }
        ensures { self.new.octets + count ≡ self.old.octets }
    {
        self.octets -= count;
    }
}
