//! How much of a store's file counts, by the heads of its records.

ghost use Rattle.std.specs.Prelude.{◌≡◌, ◌<◌, ◌≤◌, ◌+◌, ◌-◌, ◌^◌, min, IfOk, IfSome};

use crate::host_disk::read_past_signals;
use dz_name::Name;
use std::alloc::Global;
use std::collections::BTreeMap;
use std::fs::File;
use std::io;

/// What is read of a record: its gate, its length in 8 octets, and the first octets of its payload, which have a name.
const HEAD: usize = 9 + 1 + 255;

/// How many octets the records of a file take, and those of them that count.
#[derive(Clone, Copy)]
pub(crate) struct Survey {
    pub(crate) all: u64,
    pub(crate) live: u64,
}

impl Survey {
    /// Counts a record, in place of the one before it of its zone.
    fn count(&mut self, one: &Record, before: u64)
        ensures { self.new.all ≡ min (self.old.all + one.now.size) (2 ^ 64 - 1) }
    {
        self.all = self.all.saturating_add(one.size);
        if one.is_kept {
            self.live = self.live.saturating_add(one.size);
        }
        self.live = self.live.saturating_sub(before);
    }
}

/// A record by its head: the zone, whether it is kept, and how many octets the record takes.
#[derive(Drop)]
struct Record {
    zone: Name,
    is_kept: bool,
    size: u64,
}

/// Goes over the heads of a file's records, up to the first that isn't one.
pub(crate) fn look_over(alloc: Global, file: &File) -> io::Result<Survey> {
    let length = file.metadata()?.len();
    let mut sizes: BTreeMap<Name, u64> = BTreeMap::new(alloc);
    let mut found = Survey { all: 0, live: 0 };
    'records: while found.all < length {
        let Some(record) = record_at(file, found.all, length - found.all)? else {
            return Ok(found);
        };
        let before = if record.is_kept {
            sizes.insert(record.zone, record.size)?
        } else {
            sizes.remove(&record.zone)
        };
        found.count(&record, before.unwrap_or(0));
    }
    Ok(found)
}

/// The record at a place, where it has a head and ends within as many octets as are left.
fn record_at(file: &File, at: u64, left: u64) -> io::Result<Option<Record>>
    ensures { IfOk result (λ o. IfSome o (λ r. (0 < r.size) × (r.size ≤ left))) }
{
    let mut head = [0; HEAD];
    let count = read_past_signals(file, at, &mut head)?;
    match record_of(&head[..count]) {
        Some(record) if record.size <= left => Ok(Some(record)),
        _ => Ok(None),
    }
}

/// The record that begins with these octets.
fn record_of(head: &[u8]) -> Option<Record>
    ensures { IfSome result (λ r. 0 < r.size) }
{
    let [1, a, b, c, d, e, f, g, h, kind, rest @ ..] = head else {
        return None;
    };
    let size = u64::from_be_bytes([*a, *b, *c, *d, *e, *f, *g, *h]).checked_add(9)?;
    match Name::read_at(rest, 0) {
        Ok((zone, _)) => Some(Record {
            zone,
            is_kept: *kind == 1,
            size,
        }),
        Err(_) => None,
    }
}
