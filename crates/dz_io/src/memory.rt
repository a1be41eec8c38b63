//! A source, a sink and a link in memory, with a list of the calls that fail.
ghost use Rattle.std.specs.Prelude.{◌≡◌, ◌≤◌, ◌<◌, [], Some, None, length, take, min, is_err, IsErr, IsTrue, IfOk};
ghost use Rattle.std.specs.Prelude.{OnOk, OnErr};
ghost use Rattle.dz_io.specs.Device.{Gives, Gains, GainsPrefix, IsAtEnd, HasCause};
ghost use Rattle.dz_io.specs.Memory.{is_to_fail, after_call, no_calls};

use crate::plan::Plan;
use crate::tape::Tape;
use crate::{Failed, Link, Sink, Source};
use std::alloc::Global;
use std::marker::Model;

/// A source that reads from memory and reports what it gave and what is left.
#[derive(Drop)]
pub struct MemorySource {
    tape: Tape,
    plan: Plan,
}

impl Model for MemorySource {
    ghost use Rattle.dz_io.specs.Memory.{SourceOf};

    ghost Value = { SourceOf };

    ghost view = { λ s. record { tape = s.tape; calls = s.plan } };
}

impl MemorySource {
    /// A source of these octets. The calls with the numbers in `failing`, counted from 0, fail.
    pub fn new(octets: Vec<u8>, failing: Vec<u64>) -> MemorySource
        ensures tape { result.tape ≡ record { given = []; left = octets.items } }
        ensures calls { result.calls ≡ no_calls failing.items }
    {
        MemorySource {
            tape: Tape::new(octets),
            plan: Plan::new(failing),
        }
    }
}

impl Source for MemorySource {
    ghost given = { λ s. Some s.tape.given };

    ghost left = { λ s. Some s.tape.left };

    ghost beside = { λ _. None };

    ghost faults = { λ s. s.calls.faults };

    /// Fails exactly where the call is to fail, and otherwise moves as much as there is and fits.
    fn read(&mut self, buffer: &mut [u8]) -> Result<usize, Failed>
        requires { 0 < length buffer.old }
        ensures planned { is_err result ≡ is_to_fail self.old.calls.count self.old.calls.failing }
        ensures count { IfOk result (λ n. n ≡ min (length buffer.old) (length self.old.tape.left)) }
        ensures given { IfOk result (λ n.
            Gains (take n buffer.new) (Some self.old.tape.given) (Some self.new.tape.given)) }
        ensures moved { IfOk result (λ n.
            Gives (take n buffer.new) (Some self.old.tape.left) (Some self.new.tape.left)) }
        ensures err { OnErr result (self.new.tape ≡ self.old.tape) }
        ensures calls { self.new.calls ≡ after_call self.old.calls (is_err result) }
        ensures cause { HasCause self.old.calls.faults self.new.calls.faults result }
    {
        self.plan.next()?;
        Ok(self.tape.read(buffer))
    }
}

/// A sink that writes into memory and reports what it holds.
#[derive(Drop)]
pub struct MemorySink {
    octets: Vec<u8>,
    plan: Plan,
}

impl Model for MemorySink {
    ghost use Rattle.dz_io.specs.Memory.{SinkOf};

    ghost Value = { SinkOf };

    ghost view = { λ s. record { written = s.octets.items; calls = s.plan } };
}

impl MemorySink {
    /// A sink to which nothing was written. The calls with the numbers in `failing`, counted from 0, fail.
    pub fn new(alloc: Global, failing: Vec<u64>) -> MemorySink
        ensures { result ≡ record { written = []; calls = no_calls failing.items } }
    {
        MemorySink {
            octets: Vec::new(alloc),
            plan: Plan::new(failing),
        }
    }

    /// The octets that were written.
    pub fn written(&self) -> &[u8]
        ensures { result.now ≡ self.now.written }
    {
        &self.octets
    }
}

impl Sink for MemorySink {
    ghost held = { λ s. Some s.written };

    ghost beside = { λ _. record { given = None; left = None } };

    ghost faults = { λ s. s.calls.faults };

    /// Fails where the call is to fail or memory runs out, and then appends nothing.
    fn write(&mut self, piece: &[u8]) -> Result<(), Failed>
        ensures planned { IsTrue (is_to_fail self.old.calls.count self.old.calls.failing)
            → IsErr result }
        ensures all { OnOk result
            (Gains piece.now (Some self.old.written) (Some self.new.written)) }
        ensures err { OnErr result (self.new.written ≡ self.old.written) }
        ensures calls { self.new.calls ≡ after_call self.old.calls (is_err result) }
        ensures cause { HasCause self.old.calls.faults self.new.calls.faults result }
    {
        self.plan.next()?;
        match self.octets.extend_from_slice(piece) {
            Ok(()) => Ok(()),
            Err(_) => Err(self.plan.fail()),
        }
    }
}

/// A link in memory: it reads its octets, and keeps what is written to it. A list gives the calls that fail, counting
/// reads and writes together.
#[derive(Drop)]
pub struct MemoryLink {
    tape: Tape,
    sent: Vec<u8>,
    plan: Plan,
}

impl Model for MemoryLink {
    ghost use Rattle.dz_io.specs.Memory.{LinkOf};

    ghost Value = { LinkOf };

    ghost view = { λ l. record { tape = l.tape; written = l.sent.items; calls = l.plan } };
}

impl MemoryLink {
    /// A link that gives these octets, and to which nothing was written.
    pub fn new(alloc: Global, octets: Vec<u8>, failing: Vec<u64>) -> MemoryLink
        ensures tape { result.tape ≡ record { given = []; left = octets.items } }
        ensures written { result.written ≡ [] }
        ensures calls { result.calls ≡ no_calls failing.items }
    {
        MemoryLink {
            tape: Tape::new(octets),
            sent: Vec::new(alloc),
            plan: Plan::new(failing),
        }
    }

    /// The octets that were written.
    pub fn written(&self) -> &[u8]
        ensures { result.now ≡ self.now.written }
    {
        &self.sent
    }

    /// How many calls failed.
    pub fn faults(&self) -> u64
        ensures { result ≡ self.now.calls.faults }
    {
        self.plan.faults()
    }
}

impl Source for MemoryLink {
    ghost given = { λ l. Some l.tape.given };

    ghost left = { λ l. Some l.tape.left };

    ghost beside = { λ l. Some l.written };

    ghost faults = { λ l. l.calls.faults };

    /// Fails exactly where the call is to fail, and otherwise moves as much as there is and fits.
    fn read(&mut self, buffer: &mut [u8]) -> Result<usize, Failed>
        requires { 0 < length buffer.old }
        ensures planned { is_err result ≡ is_to_fail self.old.calls.count self.old.calls.failing }
        ensures count { IfOk result (λ n. n ≡ min (length buffer.old) (length self.old.tape.left)) }
        ensures given { IfOk result (λ n.
            Gains (take n buffer.new) (Some self.old.tape.given) (Some self.new.tape.given)) }
        ensures moved { IfOk result (λ n.
            Gives (take n buffer.new) (Some self.old.tape.left) (Some self.new.tape.left)) }
        ensures err { OnErr result (self.new.tape ≡ self.old.tape) }
        ensures written { self.new.written ≡ self.old.written }
        ensures calls { self.new.calls ≡ after_call self.old.calls (is_err result) }
        ensures cause { HasCause self.old.calls.faults self.new.calls.faults result }
    {
        self.plan.next()?;
        Ok(self.tape.read(buffer))
    }
}

impl Sink for MemoryLink {
    ghost held = { λ l. Some l.written };

    ghost beside = { λ l. record { given = Some l.tape.given; left = Some l.tape.left } };

    ghost faults = { λ l. l.calls.faults };

    /// Fails where the call is to fail or memory runs out, and then appends nothing.
    fn write(&mut self, piece: &[u8]) -> Result<(), Failed>
        ensures planned { IsTrue (is_to_fail self.old.calls.count self.old.calls.failing)
            → IsErr result }
        ensures all { OnOk result
            (Gains piece.now (Some self.old.written) (Some self.new.written)) }
        ensures err { OnErr result (self.new.written ≡ self.old.written) }
        ensures tape { self.new.tape ≡ self.old.tape }
        ensures calls { self.new.calls ≡ after_call self.old.calls (is_err result) }
        ensures cause { HasCause self.old.calls.faults self.new.calls.faults result }
    {
        self.plan.next()?;
        match self.sent.extend_from_slice(piece) {
            Ok(()) => Ok(()),
            Err(_) => Err(self.plan.fail()),
        }
    }
}

impl Link for MemoryLink {
    ghost use Rattle.std.specs.Prelude.{refl};

    ghost one_count = { λ _. refl };

    ghost reads_leave = { λ _. refl };

    ghost writes_leave = { λ _. refl };
}
