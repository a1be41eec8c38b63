//! The first of the earliest of many moments, by a tournament.

ghost use Rattle.std.specs.Prelude.{◌≡◌, ◌+◌, ◌<◌, ◌^◌, length, map, slice_set, slice_index, IfOk, IfSome, IfNone};
ghost use Rattle.std.specs.Prelude.{false};
ghost use Rattle.std.specs.List.{All};
ghost use Rattle.dz_timer.specs.inner.Tournament.{IsTournament, AreOwn, IsFirstOfLeast, IsSoon, moments, wait_of};

use crate::values::Values;
use crate::wait::{Wait, earlier};
use std::alloc::{AllocError, Global};
use std::marker::Model;

/// The moment of a zone that waits for no moment.
pub(crate) const NEVER: u64 = u64::MAX;

/// Moments by place. Node i, from 1 on, is the earlier of the nodes 2i and 2i + 1; the last half are the moments
/// themselves.
#[derive(Drop)]
pub(crate) struct Tournament {
    nodes: Vec<Wait>,
    count: usize,
}

impl Model for Tournament {
    ghost use Rattle.std.specs.Prelude.{List, ℕ};
    ghost use Rattle.dz_timer.specs.inner.Tournament.{IsTournament, moments};

    ghost Value = { List ℕ };

    ghost view = { λ t. moments t.nodes.items t.count };

    ghost invariant = { λ t. IsTournament t.nodes.items t.count };
}

impl Tournament {
    /// The moments that zones with these values wait for. `AllocError` where memory runs out.
    pub(crate) fn over(alloc: Global, values: &[Values]) -> Result<Tournament, AllocError>
        requires { length values.now < 2 ^ 32 }
        ensures moments { IfOk result (λ t. t ≡ map wait_of values.now) }
        ensures soon { IfOk result (λ _. All IsSoon values.now) }
    {
        let mut nodes = leaves(alloc, values)?;
        let count = values.len();
        play(&mut nodes, count);
        Ok(Tournament { nodes, count })
    }

    /// The first of the earliest moments, with its place; none where there are no zones.
    pub(crate) fn first(&self) -> Option<Wait>
        ensures least { IfSome result (λ w. IsFirstOfLeast self.now w.place) }
        ensures moment { IfSome result (λ w. w.moment ≡ slice_index self.now w.place) }
        ensures none { IfNone result (length self.now ≡ 0) }
    {
        if self.count == 0 {
            return None;
        }
        Some(self.nodes[1])
    }

    /// Changes the moment at a place.
    pub(crate) fn change(&mut self, place: usize, moment: u64)
        requires { place < length self.old }
        ensures { self.new ≡ slice_set self.old place moment }
    {
        climb(&mut self.nodes, self.count, Wait { moment, place });
    }
}

/// The moment that a zone with these values waits for.
pub(crate) fn wait_of(values: Values) -> u64
    ensures value { result ≡ wait_of values }
    ensures soon { IsSoon values }
{
    if values.is_busy() {
        NEVER
    } else {
        values.next()
    }
}

/// The moments as the last half of the nodes; the others aren't decided yet. `AllocError` where memory runs out.
fn leaves(alloc: Global, values: &[Values]) -> Result<Vec<Wait>, AllocError>
    requires { length values.now < 2 ^ 32 }
    ensures size { IfOk result (λ v. length v.items ≡ length values.now + length values.now) }
    ensures own { IfOk result (λ v. AreOwn v.items (length values.now)) }
    ensures all { IfOk result (λ v. moments v.items (length values.now) ≡ map wait_of values.now) }
    ensures soon { IfOk result (λ _. All IsSoon values.now) }
{
    let mut nodes = Vec::with_capacity(alloc, 2 * values.len())?;
    'undecided: for _ in 0..values.len() {
        nodes.push(Wait {
            moment: NEVER,
            place: 0,
        })?;
    }
    'moments: for (place, zone) in values.iter().enumerate() {
        nodes.push(Wait {
            moment: wait_of(*zone),
            place,
        })?;
    }
    Ok(nodes)
}

/// Decides each node, from the last to the first.
fn play(nodes: &mut Vec<Wait>, count: usize)
    requires size { length nodes.old.items ≡ count + count }
    requires own { AreOwn nodes.old.items count }
    ensures is { IsTournament nodes.new.items count }
    ensures moments { moments nodes.new.items count ≡ moments nodes.old.items count }
{
    for at in (1..count).rev() {
        nodes[at] = earlier(nodes[2 * at], nodes[2 * at + 1]);
    }
}

/// Writes a moment at its place, and decides each node above it again.
fn climb(nodes: &mut Vec<Wait>, count: usize, wait: Wait)
    requires is { IsTournament nodes.old.items count }
    requires within { wait.place < count }
    ensures is { IsTournament nodes.new.items count }
    ensures moments { moments nodes.new.items count
        ≡ slice_set (moments nodes.old.items count) wait.place wait.moment }
{
    let mut at = count + wait.place;
    nodes[at] = wait;
    while 1 < at {
        at /= 2;
        nodes[at] = earlier(nodes[2 * at], nodes[2 * at + 1]);
    }
}
