//! A source of octets, a sink for octets, and a link that is both, each with a count of its faults.
ghost use Rattle.std.specs.Prelude.{◌≡◌, ◌≤◌, ◌<◌, ℕ, List, Option, length, take, IfOk, OnOk, OnErr};
ghost use Rattle.dz_io.specs.Device.{Gives, Gains, GainsPrefix, IsAtEnd, HasCause, Reads};

/// A call on a device failed, as its count of faults shows.
#[derive(Clone, Copy, Debug, PartialEq, Eq)]
pub struct Failed;

/// What octets are read from.
pub trait Source {
    /// The octets that it gave, where the source reports them.
    ghost given: { Self → Option (List ℕ) };

    /// The octets that are still to be read, where the source reports them.
    ghost left: { Self → Option (List ℕ) };

    /// What was written to it, where it is also a sink and reports it. A read leaves it unchanged.
    ghost beside: { Self → Option (List ℕ) };

    /// How often the source has failed. The count never falls, and at 2^64 - 1 it says nothing more.
    ghost faults: { Self → ℕ };

    /// Moves the next octets to the beginning of `buffer`, which isn't empty, and returns how many. `Ok(0)` is the end.
    /// A read that returns `Failed` moves nothing.
    fn read(&mut self, buffer: &mut [u8]) -> Result<usize, Failed>
        requires { 0 < length buffer.old }
        ensures count { IfOk result (λ n. n ≤ length buffer.old) }
        ensures given { IfOk result
            (λ n. Gains (take n buffer.new) (given self.old) (given self.new)) }
        ensures moved { IfOk result
            (λ n. Gives (take n buffer.new) (left self.old) (left self.new)) }
        ensures end { IfOk result (λ n. n ≡ 0 → IsAtEnd (left self.old)) }
        ensures err { OnErr result
            ((given self.new ≡ given self.old) × (left self.new ≡ left self.old)) }
        ensures beside { beside self.new ≡ beside self.old }
        ensures cause { HasCause (faults self.old) (faults self.new) result };
}

/// What octets are written to.
pub trait Sink {
    /// The octets that were written, where the sink reports them.
    ghost held: { Self → Option (List ℕ) };

    /// The half that is read from, where it is also a source and reports it. A write leaves it unchanged.
    ghost beside: { Self → Reads };

    /// How often the sink has failed. The count never falls, and at 2^64 - 1 it says nothing more.
    ghost faults: { Self → ℕ };

    /// Appends `piece`. A write that returns `Failed` has appended a prefix of it, which may be empty or all of it.
    fn write(&mut self, piece: &[u8]) -> Result<(), Failed>
        ensures all { OnOk result (Gains piece.now (held self.old) (held self.new)) }
        ensures err { OnErr result (GainsPrefix piece.now (held self.old) (held self.new)) }
        ensures beside { beside self.new ≡ beside self.old }
        ensures cause { HasCause (faults self.old) (faults self.new) result };
}

/// What octets are read from and written to: a read leaves what was written unchanged, and a write leaves what is read.
pub trait Link: Source + Sink {
    /// There is a single count of faults, for reads and writes.
    ghost one_count: { (x : Self) → Self.Source.faults x ≡ Self.Sink.faults x };

    /// What a read leaves unchanged is what was written.
    ghost reads_leave: { (x : Self) → Self.Source.beside x ≡ Self.held x };

    /// What a write leaves unchanged is what was read and what is still to be read.
    ghost writes_leave: { (x : Self) →
        Self.Sink.beside x ≡ record { given = Self.given x; left = Self.left x } };
}
