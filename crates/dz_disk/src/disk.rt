//! A disk: a file that is read and written at offsets, with a count of faults.

ghost use Rattle.std.specs.Prelude.{◌≡◌, ◌<◌, ◌≤◌, ℕ, List, Option, Some, length, option_map, IfOk, OnOk};
ghost use Rattle.dz_io.specs.Device.{HasCause};
ghost use Rattle.dz_disk.specs.Disk.{put, IsTorn, Tears, IsSure, IsRead, Passes};

use dz_io::Failed;

/// A file. Between two syncs a crash may leave any octets in each written range, and between the old end and the new
/// one, and then the end is between the two. Other octets stay. After a sync that succeeded, a crash leaves what a read
/// gives.
pub trait Disk {
    /// The octets of the file as a read gives them, where the disk reports them.
    ghost file: { Self → Option (List ℕ) };

    /// What a crash at this moment may leave of the file.
    ghost may_leave: { Self → List ℕ → Type 0 };

    /// The present moment, a number that doesn't fall.
    ghost clock: { Self → ℕ };

    /// What a crash at that moment or later, in a call or between two, may have left.
    ghost left_from: { Self → ℕ → List ℕ → Type 0 };

    /// How often the disk has failed. The count never falls, and at 2^64 - 1 it says nothing more.
    ghost faults: { Self → ℕ };

    /// Reads octets at an offset to the beginning of `buffer`, which isn't empty, and returns how many. `Ok(0)` means
    /// the end of the file or an offset past it.
    fn read(&mut self, at: u64, buffer: &mut [u8]) -> Result<usize, Failed>
        requires { 0 < length buffer.old }
        ensures count { IfOk result (λ n. n ≤ length buffer.old) }
        ensures octets { IfOk result (λ n. (f : List ℕ) → file self.old ≡ Some f
            → IsRead at n buffer.new f) }
        ensures same { file self.new ≡ file self.old }
        ensures crash { (c : List ℕ) → may_leave self.new c → may_leave self.old c }
        ensures time { Passes (clock self.old) (clock self.new)
            (left_from self.old) (left_from self.new) (may_leave self.new) }
        ensures cause { HasCause (faults self.old) (faults self.new) result };

    /// Writes octets at an offset, over what is there and past the end. After `Failed` it isn't known what was written.
    fn write_at(&mut self, at: u64, piece: &[u8]) -> Result<(), Failed>
        requires { (f : List ℕ) → file self.old ≡ Some f → at ≤ length f }
        ensures written { OnOk result
            (file self.new ≡ option_map (put at piece.now) (file self.old)) }
        ensures crash { Tears at (length piece.now) (may_leave self.old) (may_leave self.new) }
        ensures time { Passes (clock self.old) (clock self.new)
            (left_from self.old) (left_from self.new) (may_leave self.new) }
        ensures cause { HasCause (faults self.old) (faults self.new) result };

    /// Brings all that was written to the disk. After `Failed` a crash leaves what it might have left before.
    fn sync(&mut self) -> Result<(), Failed>
        ensures sure { OnOk result ((f : List ℕ) → file self.old ≡ Some f
            → IsSure f (may_leave self.new)) }
        ensures same { file self.new ≡ file self.old }
        ensures crash { (c : List ℕ) → may_leave self.new c → may_leave self.old c }
        ensures time { Passes (clock self.old) (clock self.new)
            (left_from self.old) (left_from self.new) (may_leave self.new) }
        ensures cause { HasCause (faults self.old) (faults self.new) result };

    /// What a read gives may be left.
    ghost told_may_be_left: { (d : Self) (f : List ℕ) → file d ≡ Some f → may_leave d f };

    /// The present moment is one of those from an earlier moment on.
    ghost now_counts: { (d : Self) (t : ℕ) (c : List ℕ) → t ≤ clock d → may_leave d c
        → left_from d t c };

    /// From the present moment on there is no other moment yet.
    ghost now_alone: { (d : Self) (c : List ℕ) → left_from d (clock d) c → may_leave d c };
}

impl<D: Disk> Disk for &mut D {
    ghost file = { λ d. D.file d.now };

    ghost may_leave = { λ d. D.may_leave d.now };

    ghost clock = { λ d. D.clock d.now };

    ghost left_from = { λ d. D.left_from d.now };

    ghost faults = { λ d. D.faults d.now };

    /// Reads from the borrowed disk, with its errors.
    fn read(&mut self, at: u64, buffer: &mut [u8]) -> Result<usize, Failed> {
        (**self).read(at, buffer)
    }

    /// Writes to the borrowed disk, with its errors.
    fn write_at(&mut self, at: u64, piece: &[u8]) -> Result<(), Failed> {
        (**self).write_at(at, piece)
    }

    /// Syncs the borrowed disk, with its errors.
    fn sync(&mut self) -> Result<(), Failed> {
        (**self).sync()
    }

    ghost told_may_be_left = { λ d f told. D.told_may_be_left d.now f told };

    ghost now_counts = { λ d t c le now. D.now_counts d.now t c le now };

    ghost now_alone = { λ d c left. D.now_alone d.now c left };
}
