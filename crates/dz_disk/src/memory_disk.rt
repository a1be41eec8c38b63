//! A disk in memory, whose writes a crash may tear.

ghost use Rattle.std.specs.Prelude.{◌≡◌, ◌<◌, ◌≤◌, ◌⊎◌, ℕ, List, [], ◌∷◌, ◌++◌, Some, length, is_err, option_map};
ghost use Rattle.std.specs.Prelude.{IsErr, IsOk, IsTrue, IfOk, OnOk, OnErr};
ghost use Rattle.dz_io.specs.Counts.{HasRisen};
ghost use Rattle.dz_io.specs.Device.{HasCause};
ghost use Rattle.dz_io.specs.Memory.{is_to_fail, one_more, after_call, no_calls};
ghost use Rattle.dz_disk.specs.Disk.{put, IsRead, IsSure, Passes, Tears};
ghost use Rattle.dz_disk.specs.MemoryDisk.{state_of, MayLeave, LeftFrom, HasTried};

use crate::Disk;
use dz_io::Failed;
use std::alloc::{AllocError, Global};
use std::marker::Model;

/// What was done to a disk in memory.
#[derive(Drop)]
pub enum DiskAct {
    /// A piece was written at an offset.
    Wrote(u64, Vec<u8>),
    /// A write at an offset, of this many octets, failed.
    Tried(u64, u64),
    /// All writes are on the disk.
    Synced,
}

/// How much of what was written since the last sync a crash leaves.
#[derive(Clone, Copy, Debug, PartialEq, Eq)]
pub enum Leaving {
    /// Nothing.
    Nothing,
    /// All, except for writes that failed.
    All,
    /// Noise in its place, and in place of writes that failed.
    Noise,
}

/// A disk in memory. It keeps what was done to it, and what a crash may leave: nothing, all, or noise where it was
/// written.
#[derive(Drop)]
pub struct MemoryDisk {
    alloc: Global,
    // the octets at the beginning, and what was done since
    origin: Vec<u8>,
    acts: Vec<DiskAct>,
    // what a read gives, what is certain to be on the disk, and the latter with noise where it was written since
    octets: Vec<u8>,
    sure: Vec<u8>,
    noisy: Vec<u8>,
    noise: u8,
    // how many writes and syncs there were, which of them are to fail, and how many calls failed
    count: u64,
    failing: Vec<u64>,
    faults: u64,
}

impl Model for MemoryDisk {
    ghost use Rattle.dz_disk.specs.MemoryDisk.{DiskOf};
    ghost use Rattle.dz_disk.specs.inner.Copies.{IsOf};

    ghost Value = { DiskOf };

    ghost view = { λ d. record {
      begun = d.origin.items;
      acts = d.acts.items;
      calls = record { count = d.count; failing = d.failing.items; faults = d.faults };
    } };

    ghost invariant = { λ d. IsOf d.origin.items d.acts.items d.octets.items d.sure.items d.noisy.items };
}

impl MemoryDisk {
    /// A disk with these octets, all of them certain to be there. The writes and syncs with these numbers, counted from
    /// 0, fail.
    ///
    /// # Errors
    ///
    /// `AllocError` where memory runs out.
    pub fn new(
        alloc: Global,
        octets: Vec<u8>,
        failing: Vec<u64>,
        noise: u8,
    ) -> Result<MemoryDisk, AllocError>
        ensures { IfOk result (λ d. d ≡ record {
          begun = octets.items;
          acts = [];
          calls = no_calls failing.items;
        }) }
    {
        let origin = octets.to_vec(alloc)?;
        let sure = octets.to_vec(alloc)?;
        let noisy = octets.to_vec(alloc)?;
        Ok(MemoryDisk {
            alloc,
            origin,
            acts: Vec::new(alloc),
            octets,
            sure,
            noisy,
            noise,
            count: 0,
            failing,
            faults: 0,
        })
    }

    /// The octets that a crash leaves, which a new disk may begin with.
    pub fn crash(self, leaving: Leaving) -> Vec<u8>
        ensures { MayLeave (state_of self) result.items }
    {
        let MemoryDisk {
            octets,
            sure,
            noisy,
            ..
        } = self;
        match leaving {
            Leaving::Nothing => sure,
            Leaving::All => octets,
            Leaving::Noise => noisy,
        }
    }

    /// Counts one write or sync, and fails where it is to fail.
    fn next(&mut self) -> Result<(), Failed>
        ensures planned { is_err result ≡ is_to_fail self.old.calls.count self.old.calls.failing }
        ensures calls { self.new
            ≡ record self.old { calls = after_call self.old.calls (is_err result) } }
        ensures cause { HasCause self.old.calls.faults self.new.calls.faults result }
    {
        let call = self.count;
        self.count = call.saturating_add(1);
        if call == u64::MAX || self.failing.contains(&call) {
            return Err(self.fail());
        }
        Ok(())
    }

    /// Counts a fault.
    fn fail(&mut self) -> Failed
        ensures calls { self.new ≡ record self.old {
          calls = record self.old.calls { faults = one_more self.old.calls.faults };
        } }
        ensures later { self.old.calls.faults ≤ self.new.calls.faults }
        ensures rises { HasRisen self.old.calls.faults self.new.calls.faults }
    {
        self.faults = self.faults.saturating_add(1);
        Failed
    }

    /// Writes a piece at an offset, or nothing where memory runs out.
    fn put(&mut self, at: usize, piece: &[u8]) -> Result<(), AllocError>
        requires { at ≤ length (state_of self.old).octets }
        ensures ok { OnOk result ((v : _) × (v.items ≡ piece.now)
            × (self.new ≡ record self.old { acts = self.old.acts ++ DiskAct.Wrote at v ∷ [] })) }
        ensures err { OnErr result (self.new ≡ self.old) }
    {
        let octets = with_piece(self.alloc, &self.octets, at, piece)?;
        let noise = vec![in self.alloc; self.noise; piece.len()]?;
        let noisy = with_piece(self.alloc, &self.noisy, at, &noise)?;
        self.acts
            .push(DiskAct::Wrote(at as u64, piece.to_vec(self.alloc)?))?;
        self.octets = octets;
        self.noisy = noisy;
        Ok(())
    }

    /// A write of this many octets at an offset failed, which may leave noise there. `AllocError` where memory runs
    /// out.
    fn put_noise(&mut self, at: usize, count: usize) -> Result<(), AllocError>
        requires { at ≤ length (state_of self.old).octets }
        ensures ok { OnOk result
            (self.new ≡ record self.old { acts = self.old.acts ++ DiskAct.Tried at count ∷ [] }) }
        ensures err { OnErr result (self.new ≡ self.old) }
    {
        let noise = vec![in self.alloc; self.noise; count]?;
        let noisy = with_piece(self.alloc, &self.noisy, at, &noise)?;
        self.acts.push(DiskAct::Tried(at as u64, count as u64))?;
        self.noisy = noisy;
        Ok(())
    }

    /// A write failed as planned. Where memory runs out, no trace of it is left.
    fn put_nothing(&mut self, at: usize, count: usize)
        requires { at ≤ length (state_of self.old).octets }
        ensures { HasTried at count self.old self.new }
    {
        match self.put_noise(at, count) {
            Ok(()) => (),
            Err(_) => (),
        }
    }

    /// Brings all writes to the disk, or nothing where memory runs out.
    fn settle(&mut self) -> Result<(), AllocError>
        ensures ok { OnOk result
            (self.new ≡ record self.old { acts = self.old.acts ++ DiskAct.Synced ∷ [] }) }
        ensures err { OnErr result (self.new ≡ self.old) }
    {
        let sure = self.octets.to_vec(self.alloc)?;
        let noisy = self.octets.to_vec(self.alloc)?;
        self.acts.push(DiskAct::Synced)?;
        self.sure = sure;
        self.noisy = noisy;
        Ok(())
    }
}

/// A copy of the octets with a piece at an offset. `AllocError` where memory runs out.
fn with_piece(alloc: Global, octets: &[u8], at: usize, piece: &[u8]) -> Result<Vec<u8>, AllocError>
    requires { at ≤ length octets.now }
    ensures { IfOk result (λ v. v.items ≡ put at piece.now octets.now) }
{
    let mut all = octets[..at].to_vec(alloc)?;
    all.extend_from_slice(piece)?;
    if piece.len() < octets.len() - at {
        all.extend_from_slice(&octets[at + piece.len()..])?;
    }
    Ok(all)
}

/// Moves the octets from an offset on to the beginning of a buffer, as many as there are, and returns how many.
fn move_from(octets: &[u8], at: u64, buffer: &mut [u8]) -> usize
    requires { 0 < length buffer.old }
    ensures count { result ≤ length buffer.old }
    ensures read { IsRead at result buffer.new octets.now }
{
    if octets.len() as u64 <= at {
        return 0;
    }
    let rest = &octets[at as usize..];
    let count = buffer.len().min(rest.len());
    buffer[..count].copy_from_slice(&rest[..count]);
    count
}

impl Disk for MemoryDisk {
    ghost use Rattle.dz_disk.specs.inner.Left.{told_is_left, left_now, left_alone};

    ghost file = { λ d. Some (state_of d).octets };

    ghost may_leave = { λ d. MayLeave (state_of d) };

    ghost clock = { λ d. length d.acts };

    ghost left_from = { λ d. LeftFrom d.begun d.acts };

    ghost faults = { λ d. d.calls.faults };

    /// Never fails.
    fn read(&mut self, at: u64, buffer: &mut [u8]) -> Result<usize, Failed>
        requires { 0 < length buffer.old }
        ensures never { IsOk result }
        ensures count { IfOk result (λ n. n ≤ length buffer.old) }
        ensures octets { IfOk result (λ n. (f : List ℕ) → Some (state_of self.old).octets ≡ Some f
            → IsRead at n buffer.new f) }
        ensures same { self.new ≡ self.old }
    {
        Ok(move_from(&self.octets, at, buffer))
    }

    /// Fails where the call is to fail, and then may leave noise; or where memory runs out, and then leaves nothing.
    fn write_at(&mut self, at: u64, piece: &[u8]) -> Result<(), Failed>
        requires { (f : List ℕ) → Some (state_of self.old).octets ≡ Some f → at ≤ length f }
        ensures planned { IsTrue (is_to_fail self.old.calls.count self.old.calls.failing)
            → IsErr result }
        ensures calls { self.new.calls ≡ after_call self.old.calls (is_err result) }
        ensures written { OnOk result (Some (state_of self.new).octets
            ≡ option_map (put at piece.now) (Some (state_of self.old).octets)) }
        ensures crash { Tears at (length piece.now)
            (MayLeave (state_of self.old)) (MayLeave (state_of self.new)) }
        ensures time { Passes (length self.old.acts) (length self.new.acts)
            (LeftFrom self.old.begun self.old.acts) (LeftFrom self.new.begun self.new.acts)
            (MayLeave (state_of self.new)) }
        ensures cause { HasCause self.old.calls.faults self.new.calls.faults result }
    {
        if let Err(failed) = self.next() {
            self.put_nothing(at as usize, piece.len());
            return Err(failed);
        }
        match self.put(at as usize, piece) {
            Ok(()) => Ok(()),
            Err(_) => Err(self.fail()),
        }
    }

    /// Fails where the call is to fail or memory runs out, and then leaves all as it was.
    fn sync(&mut self) -> Result<(), Failed>
        ensures planned { IsTrue (is_to_fail self.old.calls.count self.old.calls.failing)
            → IsErr result }
        ensures calls { self.new.calls ≡ after_call self.old.calls (is_err result) }
        ensures sure { OnOk result ((f : List ℕ) → Some (state_of self.old).octets ≡ Some f
            → IsSure f (MayLeave (state_of self.new))) }
        ensures same { Some (state_of self.new).octets ≡ Some (state_of self.old).octets }
        ensures crash { (c : List ℕ) → MayLeave (state_of self.new) c
            → MayLeave (state_of self.old) c }
        ensures time { Passes (length self.old.acts) (length self.new.acts)
            (LeftFrom self.old.begun self.old.acts) (LeftFrom self.new.begun self.new.acts)
            (MayLeave (state_of self.new)) }
        ensures cause { HasCause self.old.calls.faults self.new.calls.faults result }
    {
        self.next()?;
        match self.settle() {
            Ok(()) => Ok(()),
            Err(_) => Err(self.fail()),
        }
    }

    ghost told_may_be_left = { told_is_left };

    ghost now_counts = { left_now };

    ghost now_alone = { left_alone };
}
