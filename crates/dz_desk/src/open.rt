//! Opening a desk.

ghost use Rattle.std.specs.Prelude.{◌≡◌, ◌<◌, [], None, length, All, IfOk};
ghost use Rattle.dz_desk.specs.Seen.{IsFresh, IsAtRest};

use crate::board::Look;
use crate::edition::Edition;
use crate::publisher::Publisher;
use crate::reading::Reading;
use crate::show::Showing;
use crate::told::Told;
use dz_table::Table;
use left_right::writer::Writer;
use std::alloc::{AllocError, Global};
use std::sync::{Arc, Wait};
use thiserror::Error;

/// A publisher with its readings.
pub struct Desk {
    pub publisher: Publisher,
    pub readings: Vec<Reading>,
}

/// Why no desk was opened.
#[derive(Debug, Drop, Error, PartialEq, Eq)]
pub enum DeskError {
    #[error("out of memory")]
    OutOfMemory,
    /// A reading was refused. No cause is named.
    #[error("no seat for a reading")]
    NoSeat,
}

/// Opens a desk with this many readings. Its list has no entry. It waits for nobody but its own readings.
pub fn open_desk<R: Wait>(rt: &R, alloc: Global, readers: u8) -> Result<Desk, DeskError>
    requires { 0 < readers }
    ensures list { IfOk result (λ desk. desk.publisher.list ≡ []) }
    ensures staged { IfOk result (λ desk. desk.publisher.staged ≡ None) }
    ensures count { IfOk result (λ desk. length desk.readings.items ≡ readers) }
    ensures fresh { IfOk result (λ desk. All (IsFresh desk.publisher.book) desk.readings.items) }
    ensures rest { IfOk result (λ desk. All (IsAtRest desk.publisher.book) desk.readings.items) }
{
    let Ok(publisher) = open_publisher(rt, alloc, readers) else {
        return Err(DeskError::OutOfMemory);
    };
    let mut publisher = publisher;
    match hand_out(alloc, &mut publisher, readers) {
        Ok(readings) => Ok(Desk {
            publisher,
            readings,
        }),
        Err(error) => {
            publisher.close(rt);
            Err(error)
        }
    }
}

/// A publisher with room for this many readings. The list without an entry is published once, which makes the room that
/// later lists need.
fn open_publisher<R: Wait>(rt: &R, alloc: Global, readers: u8) -> Result<Publisher, AllocError>
    requires { 0 < readers }
    ensures { IfOk result (λ p. (p.list ≡ []) × (p.staged ≡ None)) }
{
    let (told, word) = Told::open();
    let first = Edition::new(Arc::new(alloc, Table::empty(alloc))?, told);
    let second = first.share()?;
    let third = first.share()?;
    let mut writer: Showing = Writer::new(alloc, first, second, usize::from(readers))?;
    if writer.append(third).is_err() {
        drop(writer.take(rt));
        return Err(AllocError);
    }
    let (writer, turned) = writer.publish_as::<Look, R>(rt);
    if turned.is_err() {
        drop(writer.take(rt));
        return Err(AllocError);
    }
    Ok(Publisher {
        writer,
        word,
        staged: None,
    })
}

/// This many readings.
fn hand_out(
    alloc: Global,
    publisher: &mut Publisher,
    readers: u8,
) -> Result<Vec<Reading>, DeskError>
    requires { publisher.old.list ≡ [] }
    ensures same { publisher.new ≡ publisher.old }
    ensures count { IfOk result (λ readings. length readings.items ≡ readers) }
    ensures fresh { IfOk result (λ readings. All (IsFresh publisher.old.book) readings.items) }
{
    let mut readings = Vec::new(alloc);
    'readings: for _ in 0..readers {
        if readings.reserve(1).is_err() {
            return Err(DeskError::OutOfMemory);
        }
        let Ok(reading) = publisher.reading() else {
            return Err(DeskError::NoSeat);
        };
        readings.push_reserved(reading);
    }
    Ok(readings)
}
