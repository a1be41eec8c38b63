//! Messages whose names are read, and where chains of their pointers end.

ghost use Rattle.std.specs.Prelude.{◌≡◌, ℕ, ◌+◌, ◌*◌, ◌<◌, ◌≤◌, length, min, false, IfOk, IfSome, IsNone};
ghost use Rattle.dz_name.specs.inner.Landings.{LeadsTo, LeadsOn, AreLandings, HasNoChain, EndsChains, landing_in};

use dz_steps::Steps;
use std::alloc::{AllocError, Global};
use std::marker::Model;
use std::sync::ledger::Ledger;

/// How far a pointer reaches: its offset has 14 bits (RFC 1035 section 4.1.4).
pub const POINTER_REACH: usize = 16_384;

/// The octets of a message whose names are read, with a table of where pointers end that lead to pointers, so that no
/// chain of them is followed more than once. Contracts see the octets.
#[derive(Debug, Drop)]
pub struct Wire<'m> {
    octets: &'m [u8],
    landings: &'m [u16],
}

impl<'m> Model for Wire<'m> {
    ghost use Rattle.dz_name.specs.Words.{Octets};
    ghost use Rattle.dz_name.specs.inner.Landings.{IsTable};

    ghost Value = { Octets };

    ghost view = { λ w. w.octets.now };

    ghost invariant = { λ w. IsTable w.octets.now w.landings.now };
}

impl<'m> Wire<'m> {
    /// A message and the table that `landings_of` gave for it.
    pub fn with_landings(octets: &'m [u8], landings: &'m [u16]) -> Wire<'m>
        requires are { AreLandings octets.now landings.now }
        requires ends { EndsChains octets.now landings.now }
        ensures { result ≡ octets.now }
    {
        Wire { octets, landings }
    }

    /// The octets of the message.
    pub fn octets(&self) -> &'m [u8]
        ensures { result.now ≡ self.now }
    {
        self.octets
    }

    /// The table, which is empty where no pointer leads to a pointer that leads on.
    pub(crate) fn landings(&self) -> &'m [u16]
        ensures are { AreLandings self.now result.now }
        ensures ends { EndsChains self.now result.now }
    {
        self.landings
    }
}

/// The offset at which a name continues after a pointer to `target`.
pub(crate) fn landing(landings: &[u16], target: usize) -> usize
    ensures { result ≡ landing_in landings.now target }
{
    if target < landings.len() {
        landings[target] as usize
    } else {
        target
    }
}

/// Where the chains of pointers end that begin at the offsets of a message: two octets for each offset that a pointer
/// can lead to. It is empty where no pointer leads to a pointer that leads on. Each offset that is looked at is one
/// step. `AllocError` where memory runs out.
pub fn landings_of<L: Ledger>(
    alloc: Global,
    message: &[u8],
    steps: &mut Steps<L>,
) -> Result<Vec<u16>, AllocError>
    ensures are { IfOk result (λ landings. AreLandings message.now landings.items) }
    ensures ends { IfOk result (λ landings. EndsChains message.now landings.items) }
    ensures counted { steps.old ≤ steps.new }
    ensures most { steps.new ≤ steps.old + 2 * length message.now }
    ensures least { IfOk result
        (λ _. steps.old + min (length message.now) POINTER_REACH ≤ steps.new) }
{
    if !has_chain(message, steps) {
        return Ok(Vec::new(alloc));
    }
    let reach = message.len().min(POINTER_REACH);
    let mut landings = Vec::with_capacity(alloc, reach)?;
    'offsets: for at in 0..reach {
        steps.tick();
        let landing = match leads_to(message, at) {
            Some(target) => landings[target],
            None => at as u16,
        };
        landings.push(landing)?;
    }
    Ok(landings)
}

/// Whether some pointer leads to a pointer that leads on. Each offset that is looked at is one step.
fn has_chain<L: Ledger>(message: &[u8], steps: &mut Steps<L>) -> bool
    ensures none { result ≡ false → HasNoChain message.now }
    ensures counted { steps.old ≤ steps.new }
    ensures most { steps.new ≤ steps.old + length message.now }
    ensures all { result ≡ false → steps.new ≡ steps.old + length message.now }
{
    'offsets: for at in 0..message.len() {
        steps.tick();
        if is_chained(message, at) {
            return true;
        }
    }
    false
}

/// Whether the pointer at an offset leads to a pointer that leads on.
fn is_chained(message: &[u8], at: usize) -> bool
    ensures { result ≡ false → (target : ℕ) → LeadsTo message.now at target
        → ¬ LeadsOn message.now target }
{
    match leads_to(message, at) {
        Some(target) => leads_to(message, target).is_some(),
        None => false,
    }
}

/// Where the pointer at an offset leads, if there is one and it leads to before itself.
fn leads_to(message: &[u8], at: usize) -> Option<usize>
    ensures some { IfSome result (LeadsTo message.now at) }
    ensures none { IsNone result → ¬ LeadsOn message.now at }
{
    if message.len() < 2 || message.len() - 2 < at || message[at] < 192 {
        return None;
    }
    let target = (message[at] as usize - 192) * 256 + message[at + 1] as usize;
    if target < at { Some(target) } else { None }
}
