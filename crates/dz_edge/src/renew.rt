//! A store's file that is written anew when most of it is dead.

use crate::host_disk::{HostDisk, make_new};
use dz_store::{Store, StoreFault};
use std::alloc::Global;
use std::fs::{File, Files};
use std::io::ErrorKind;
use std::time::Clock;
use std::{fs, io};

/// A file of fewer octets isn't written anew: 16 MiB.
const LEAST: u64 = 1 << 24;

impl<'a, R: Clock + Files<File = File>> HostDisk<'a, R> {
    /// Writes the file anew beside it, where more than half of it are records that no longer count, and renames that
    /// over it. The new one is on the disk before it has the old one's name, so a crash leaves one or the other, whole.
    /// Where anything before the renaming fails, the file stays, with what counts in it.
    pub fn renew(&mut self, alloc: Global, beside: &'static str) {
        if !self.exists() {
            return;
        }
        let Ok(found) = self.survey(alloc) else {
            return;
        };
        if found.all < LEAST || found.all / 2 <= found.live {
            return;
        }
        if self.renew_beside(alloc, beside).is_err() {
            let _ = fs::remove_file(self.host(), beside);
        }
    }

    /// Writes what counts to a new file beside this one, and renames that over this one.
    fn renew_beside(&mut self, alloc: Global, beside: &'static str) -> io::Result<()> {
        // what a crash left of an earlier one
        let _ = fs::remove_file(self.host(), beside);
        let file = make_new(self.host(), beside)?;
        file.try_lock()?;
        let mut fresh = self.beside(beside, file);
        match copy_store(alloc, self, &mut fresh) {
            Ok(()) => fresh.settle(self),
            Err(_) => Err(io::Error::from(ErrorKind::Other)),
        }
    }
}

/// Copies what counts.
fn copy_store<'a, R: Clock + Files<File = File>>(
    alloc: Global,
    from: &mut HostDisk<'a, R>,
    to: &mut HostDisk<'a, R>,
) -> Result<(), StoreFault> {
    let mut source = Store::open(alloc, from)?;
    let mut target = Store::open(alloc, to)?;
    source.copy(alloc, &mut target)
}
