//! A file of the working folder as a disk.

ghost use Rattle.std.specs.Prelude.{◌≡◌, ◌≤◌, None, IfOk, length};
ghost use Rattle.dz_io.specs.Counts.{HasRisen};

use crate::Bell;
use crate::survey::{Survey, look_over};
use dz_disk::Disk;
use dz_io::Failed;
use std::alloc::Global;
use std::fs::{File, Files};
use std::io::ErrorKind;
use std::os::unix::fs::{FileExt, MetadataExt, OpenOptionsExt};
use std::time::Clock;
use std::{fs, io};

/// How many times a read is tried that signals interrupt.
const TRIES: usize = 1000;

/// A file of the working folder as a disk, which tells nothing of it. It is opened at the first call, made where it
/// isn't there, readable for its owner alone, and locked as long as it is open.
#[derive(Drop)]
pub struct HostDisk<'a, R> {
    rt: &'a R,
    bell: &'a Bell,
    path: &'static str,
    file: Option<File>,
    is_lazy: bool,
    faults: u64,
}

impl<'a, R: Files<File = File>> HostDisk<'a, R> {
    /// A file at a path, which isn't opened yet. The bell is told while the disk is at work.
    pub fn new(rt: &'a R, bell: &'a Bell, path: &'static str) -> HostDisk<'a, R>
        ensures { result.faults ≡ 0 }
    {
        HostDisk {
            rt,
            bell,
            path,
            file: None,
            is_lazy: false,
            faults: 0,
        }
    }

    /// A file that was just made at a path beside this one. Its syncs do nothing: nothing is on the disk for sure before
    /// [`HostDisk::settle`].
    pub(crate) fn beside(&self, path: &'static str, file: File) -> HostDisk<'a, R> {
        HostDisk {
            rt: self.rt,
            bell: self.bell,
            path,
            file: Some(file),
            is_lazy: true,
            faults: 0,
        }
    }

    /// Puts all that was written on the disk, and renames the file over another one, whose disk goes on with it.
    pub(crate) fn settle(self, over: &mut HostDisk<'a, R>) -> io::Result<()> {
        let HostDisk { rt, path, file, .. } = self;
        let Some(file) = file else {
            return Err(io::Error::from(ErrorKind::NotFound));
        };
        file.sync_all()?;
        fs::rename(rt, path, over.path)?;
        over.file = Some(file);
        sync_folder(rt)
    }

    /// The host.
    pub(crate) fn host(&self) -> &'a R {
        self.rt
    }

    /// Whether there is a file at the path.
    pub(crate) fn exists(&self) -> bool {
        self.file.is_some() || self.rt.symlink_metadata(self.path).is_ok()
    }

    /// Opens the file, unless it is open.
    fn open(&mut self) -> io::Result<()>
        ensures { self.new.faults ≡ self.old.faults }
    {
        if self.file.is_none() {
            self.file = Some(open_store(self.rt, self.path)?);
        }
        Ok(())
    }

    /// The file, where it is open.
    fn file(&self) -> io::Result<&File> {
        match &self.file {
            Some(file) => Ok(file),
            None => Err(io::Error::from(ErrorKind::NotFound)),
        }
    }

    /// Reads octets of the file from a place on, and answers how many; the file is opened first.
    fn read_file(&mut self, at: u64, buffer: &mut [u8]) -> io::Result<usize>
        ensures count { IfOk result (λ n. n ≤ length buffer.old) }
        ensures faults { self.new.faults ≡ self.old.faults }
    {
        self.open()?;
        read_past_signals(self.file()?, at, buffer)
    }

    /// Writes octets to a place of the file, which is opened first.
    fn write_file(&mut self, at: u64, piece: &[u8]) -> io::Result<()>
        ensures { self.new.faults ≡ self.old.faults }
    {
        self.open()?;
        self.file()?.write_all_at(piece, at)
    }

    /// Puts what was written on the disk; a file that is being made waits for [`HostDisk::settle`].
    fn sync_file(&mut self) -> io::Result<()>
        ensures { self.new.faults ≡ self.old.faults }
    {
        self.open()?;
        if self.is_lazy {
            return Ok(());
        }
        self.file()?.sync_data()
    }

    /// How much of the file counts.
    pub(crate) fn survey(&mut self, alloc: Global) -> io::Result<Survey> {
        self.open()?;
        look_over(alloc, self.file()?)
    }

    /// Counts that a call failed.
    fn failed(&mut self) -> Failed
        ensures later { self.old.faults ≤ self.new.faults }
        ensures rises { HasRisen self.old.faults self.new.faults }
    {
        self.faults = self.faults.saturating_add(1);
        Failed
    }
}

impl<'a, R: Clock + Files<File = File>> Disk for HostDisk<'a, R> {
    ghost use Rattle.std.proofs.lemmas.Option.{none-some};

    ghost file = { λ _. None };

    ghost may_leave = { λ _ _. ⊥ };

    ghost clock = { λ _. 0 };

    ghost left_from = { λ _ _ _. ⊥ };

    ghost faults = { λ d. d.faults };

    /// Reads octets of the file; it fails where the file can't be opened or read.
    fn read(&mut self, at: u64, buffer: &mut [u8]) -> Result<usize, Failed> {
        match self.read_file(at, buffer) {
            Ok(count) => Ok(count),
            Err(_) => Err(self.failed()),
        }
    }

    /// Writes octets to the file; it fails where the file can't be opened or written.
    fn write_at(&mut self, at: u64, piece: &[u8]) -> Result<(), Failed> {
        self.bell.notifies.work.begin(self.rt);
        let written = self.write_file(at, piece);
        self.bell.notifies.work.end();
        match written {
            Ok(()) => Ok(()),
            Err(_) => Err(self.failed()),
        }
    }

    /// Puts what was written on the disk; it fails where the host does.
    fn sync(&mut self) -> Result<(), Failed> {
        self.bell.notifies.work.begin(self.rt);
        let synced = self.sync_file();
        self.bell.notifies.work.end();
        match synced {
            Ok(()) => Ok(()),
            Err(_) => Err(self.failed()),
        }
    }

    ghost told_may_be_left = { λ _ f told. none-some f told };

    ghost now_counts = { λ _ _ _ _ now. now };

    ghost now_alone = { λ _ _ left. left };
}

/// Reads at a place, again where a signal interrupts.
pub(crate) fn read_past_signals(file: &File, at: u64, buffer: &mut [u8]) -> io::Result<usize>
    ensures { IfOk result (λ n. n ≤ length buffer.old) }
{
    'tries: for _ in 0..TRIES {
        match file.read_at(buffer, at) {
            Ok(count) => return Ok(count),
            Err(error) if error.kind() == ErrorKind::Interrupted => {}
            Err(error) => return Err(error),
        }
    }
    Err(io::Error::from(ErrorKind::Interrupted))
}

/// Opens the file of a store, or makes it, for its owner alone, and locks it.
///
/// # Errors
///
/// Where it can't be opened or made, where it is no regular file or begins with an octet that no gate has, and where
/// another process has its lock. The file is then as it was.
pub(crate) fn open_store<R: Files<File = File>>(rt: &R, path: &str) -> io::Result<File> {
    let file = match make_new(rt, path) {
        Ok(file) => file,
        Err(error) if error.kind() == ErrorKind::AlreadyExists => {
            if !rt.symlink_metadata(path)?.is_file() {
                return Err(io::Error::from(ErrorKind::InvalidInput));
            }
            File::options().read(true).write(true).open(rt, path)?
        }
        Err(error) => return Err(error),
    };
    file.try_lock()?;
    if is_another(rt, path, &file)? || begins_strangely(&file)? {
        return Err(io::Error::from(ErrorKind::InvalidData));
    }
    Ok(file)
}

/// Makes a file that isn't there, for its owner alone, and puts its name on the disk.
pub(crate) fn make_new<R: Files<File = File>>(rt: &R, path: &str) -> io::Result<File> {
    let file = File::options()
        .read(true)
        .write(true)
        .create_new(true)
        .mode(0o600)
        .open(rt, path)?;
    sync_folder(rt)?;
    Ok(file)
}

/// Puts the names of the working folder on the disk.
pub(crate) fn sync_folder<R: Files<File = File>>(rt: &R) -> io::Result<()> {
    File::options().read(true).open(rt, ".")?.sync_all()
}

/// Whether another file has the path by now.
fn is_another<R: Files<File = File>>(rt: &R, path: &str, file: &File) -> io::Result<bool> {
    let named = rt.symlink_metadata(path)?;
    let held = file.metadata()?;
    Ok(named.dev() != held.dev() || named.ino() != held.ino())
}

/// Whether a file begins with an octet that no gate of a store has.
fn begins_strangely(file: &File) -> io::Result<bool> {
    let mut first = [0; 1];
    let count = read_past_signals(file, 0, &mut first)?;
    Ok(count > 0 && first[0] > 1)
}
