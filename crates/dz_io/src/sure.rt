//! A source, a sink and a link that never fail.
ghost use Rattle.std.specs.Prelude.{◌≡◌, ◌≤◌, ◌<◌, [], Some, None, length, take, min, IfOk};
ghost use Rattle.dz_io.specs.Device.{Gives, Gains};

use crate::tape::Tape;
use crate::{Failed, Link, Sink, Source};
use std::marker::Model;

/// A source that reads from memory, reports what it gave and what is left, and never fails.
#[derive(Drop)]
pub struct SureSource {
    tape: Tape,
}

impl Model for SureSource {
    ghost use Rattle.dz_io.specs.Memory.{TapeOf};

    ghost Value = { TapeOf };

    ghost view = { λ s. s.tape };
}

impl SureSource {
    /// A source of these octets.
    pub fn new(octets: Vec<u8>) -> SureSource
        ensures { result ≡ record { given = []; left = octets.items } }
    {
        SureSource {
            tape: Tape::new(octets),
        }
    }
}

impl Source for SureSource {
    ghost given = { λ s. Some s.given };

    ghost left = { λ s. Some s.left };

    ghost beside = { λ _. None };

    ghost faults = { λ _. 0 };

    /// Moves as much as there is and fits. It never fails.
    fn read(&mut self, buffer: &mut [u8]) -> Result<usize, Failed>
        requires { 0 < length buffer.old }
        ensures amount { result ≡ Ok (min (length buffer.old) (length self.old.left)) }
        ensures given { IfOk result (λ n.
            Gains (take n buffer.new) (Some self.old.given) (Some self.new.given)) }
        ensures moved { IfOk result
            (λ n. Gives (take n buffer.new) (Some self.old.left) (Some self.new.left)) }
    {
        Ok(self.tape.read(buffer))
    }
}

/// A sink that never fails. What is written to it is neither kept nor reported.
#[derive(Clone, Copy, Debug, PartialEq, Eq)]
pub struct SureSink;

impl Sink for SureSink {
    ghost held = { λ _. None };

    ghost beside = { λ _. record { given = None; left = None } };

    ghost faults = { λ _. 0 };

    /// Discards the piece. It never fails.
    fn write(&mut self, _piece: &[u8]) -> Result<(), Failed>
        ensures { result ≡ Ok tt }
    {
        Ok(())
    }
}

/// A link that never fails. It reads from memory; what is written to it is neither kept nor reported.
#[derive(Drop)]
pub struct SureLink {
    tape: Tape,
}

impl Model for SureLink {
    ghost use Rattle.dz_io.specs.Memory.{TapeOf};

    ghost Value = { TapeOf };

    ghost view = { λ l. l.tape };
}

impl SureLink {
    /// A link that gives these octets.
    pub fn new(octets: Vec<u8>) -> SureLink
        ensures { result ≡ record { given = []; left = octets.items } }
    {
        SureLink {
            tape: Tape::new(octets),
        }
    }
}

impl Source for SureLink {
    ghost given = { λ l. Some l.given };

    ghost left = { λ l. Some l.left };

    ghost beside = { λ _. None };

    ghost faults = { λ _. 0 };

    /// Moves as much as there is and fits. It never fails.
    fn read(&mut self, buffer: &mut [u8]) -> Result<usize, Failed>
        requires { 0 < length buffer.old }
        ensures amount { result ≡ Ok (min (length buffer.old) (length self.old.left)) }
        ensures given { IfOk result (λ n.
            Gains (take n buffer.new) (Some self.old.given) (Some self.new.given)) }
        ensures moved { IfOk result
            (λ n. Gives (take n buffer.new) (Some self.old.left) (Some self.new.left)) }
    {
        Ok(self.tape.read(buffer))
    }
}

impl Sink for SureLink {
    ghost held = { λ _. None };

    ghost beside = { λ l. record { given = Some l.given; left = Some l.left } };

    ghost faults = { λ _. 0 };

    /// Discards the piece. It never fails.
    fn write(&mut self, _piece: &[u8]) -> Result<(), Failed>
        ensures done { result ≡ Ok tt }
        ensures same { self.new ≡ self.old }
    {
        Ok(())
    }
}

impl Link for SureLink {
    ghost use Rattle.std.specs.Prelude.{refl};

    ghost one_count = { λ _. refl };

    ghost reads_leave = { λ _. refl };

    ghost writes_leave = { λ _. refl };
}
