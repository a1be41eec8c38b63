//! The incremental form, fed record by record.

ghost use Rattle.std.specs.Prelude.{◌≡◌, ◌∷◌, ◌++◌, [], true, false, IfOk, OnOk};
ghost use Rattle.dz_xfr.specs.Apex.{is_apex_soa, serial_of};
ghost use Rattle.dz_xfr.specs.Feeding.{IsOpen, progress_of};
ghost use Rattle.dz_xfr.specs.Answers.{Says};
ghost use Rattle.dz_xfr.specs.Room.{given};
ghost use Rattle.dz_xfr.specs.Stands.{Stands, IsComplete};
ghost use Rattle.dz_zone.specs.declared.revision.Removed.TheVariants.{Held, Added};
ghost use Rattle.dz_ixfr.specs.Incremental.{IsIncremental, Blames};
ghost use Rattle.dz_ixfr.specs.Reading.{reading_of};
ghost use Rattle.dz_ixfr.specs.inner.Kept.{IsAtEnd};

use dz_name::Name;
use dz_record::Rr;
use dz_xfr::{Fed, FeedError, Progress, Room, ShapeFault, apex_serial, held_serial, same_rdata};
use dz_zone::{Removed, Revision, Version};
use std::alloc::{AllocError, Global};
use std::marker::Model;
use std::sync::Arc;

/// How far the form was read.
#[derive(Clone, Copy, Debug, PartialEq, Eq)]
enum Stage {
    /// The first SOA was read. The first difference begins at this serial.
    Begun(u32),
    /// Among deleted records.
    Deleting,
    /// Among the records that are added after an SOA of this serial.
    Adding(u32),
    /// The closing SOA was read.
    Ended,
}

/// What is left of a held zone, as far as its differences were read. Contracts see the held zone and all records that
/// were fed.
#[derive(Drop)]
pub struct Differences {
    fed: Fed,
    apex: Name,
    first: Rr,
    /// The serial of the first SOA.
    goal: u32,
    stage: Stage,
    /// The held version and the changes to it: what is left of its records, and with the first SOA once the form has
    /// ended.
    revision: Revision,
    /// What is left for the records that are added.
    room: Room,
}

impl Model for Differences {
    ghost use Rattle.dz_ixfr.specs.Assembly.{Assembly};
    ghost use Rattle.dz_ixfr.specs.inner.Kept.{IsKept};

    ghost Value = { Assembly };

    ghost view = { λ d. record { held = d.revision.base; fed = d.fed } };

    ghost invariant = { λ d. IsKept d.revision.base d.fed d.apex d.goal d.first d.stage
        d.revision.records };
}

impl Differences {
    /// A form that begins with this SOA, whose owner name is the apex of the held version. No record of it is copied.
    ///
    /// # Errors
    ///
    /// `AllocError` where there is no memory for the marks of the records that are held.
    pub fn start(alloc: Global, held: Arc<Version>, first: Rr) -> Result<Differences, AllocError>
        requires soa { is_apex_soa held.value.apex first ≡ true }
        ensures started { IfOk result (λ d. d ≡ record { held = held.value; fed = first ∷ [] }) }
        ensures is_open { IfOk result
            (λ d. IsOpen (IsIncremental held.value) (Blames held.value.apex) (first ∷ [])) }
    {
        let apex = held.apex().to_name();
        let goal = match apex_serial(&apex, &first) {
            Some(serial) => serial,
            None => unreachable!(),
        };
        let stage = Stage::Begun(held_serial(&held));
        let revision = Revision::of(alloc, held)?;
        Ok(Differences {
            fed: Fed::nothing().and(&first),
            apex,
            first,
            goal,
            stage,
            revision,
            room: Room::whole(),
        })
    }

    /// Reads further records: the form with them, and whether the records that were fed are a whole form, or more is to
    /// come. After the end nothing more may be fed; an error leaves no form that could be fed.
    ///
    /// # Errors
    ///
    /// The fault of the first record with which no whole form goes on, or `AfterEnd` where records follow one; or out
    /// of memory.
    pub fn feed(mut self, records: Vec<Rr>) -> Result<(Differences, Progress), FeedError>
        requires { IsOpen (IsIncremental self.held) (Blames self.held.apex) self.fed }
        ensures held { IfOk result (λ r. r.0.held ≡ self.held) }
        ensures fed { IfOk result (λ r. r.0.fed ≡ self.fed ++ records.items) }
        ensures says { Says (progress_of result)
            (Stands (IsIncremental self.held) (Blames self.held.apex) (self.fed ++ records.items)) }
    {
        match self.read(records) {
            Ok(progress) => Ok((self, progress)),
            Err(error) => Err(error),
        }
    }

    /// Reads further records, in place. The errors are those of [`Differences::feed`].
    fn read(&mut self, records: Vec<Rr>) -> Result<Progress, FeedError>
        requires { IsOpen (IsIncremental self.old.held) (Blames self.old.held.apex) self.old.fed }
        ensures held { self.new.held ≡ self.old.held }
        ensures fed { OnOk result (self.new.fed ≡ self.old.fed ++ records.items) }
        ensures says { Says result
            (Stands (IsIncremental self.old.held) (Blames self.old.held.apex)
            (self.old.fed ++ records.items)) }
    {
        let mut progress = Progress::More;
        let mut rest = records.into_iter();
        'records: while let Some(found) = rest.next() {
            match self.take(found) {
                Ok(next) => progress = next,
                Err(error) => return Err(error),
            }
        }
        Ok(progress)
    }

    /// The held version and what the differences made of its records: the first SOA and what is left.
    pub fn finish(self) -> Revision
        requires { IsComplete (IsIncremental self.held) self.fed }
        ensures base { result.base ≡ self.held }
        ensures records { IsIncremental self.held self.fed result.records }
    {
        self.revision
    }

    /// Reads one record. A fault leaves what was read as it was; the errors are those of [`Differences::feed`].
    fn take(&mut self, found: Rr) -> Result<Progress, FeedError>
        ensures held { self.new.held ≡ self.old.held }
        ensures fed { OnOk result (self.new.fed ≡ self.old.fed ++ found ∷ []) }
        ensures says { Says result
            (λ reading. reading ≡ reading_of self.old.held (self.old.fed ++ found ∷ [])) }
    {
        match apex_serial(&self.apex, &found) {
            Some(serial) => self.take_soa(serial, found),
            None => self.take_other(found),
        }
    }

    /// Reads an SOA of the apex, which has this serial. The errors are those of [`Differences::feed`].
    fn take_soa(&mut self, serial: u32, found: Rr) -> Result<Progress, FeedError>
        requires soa { is_apex_soa self.old.held.apex found ≡ true }
        requires serial { serial ≡ serial_of found }
        ensures held { self.new.held ≡ self.old.held }
        ensures fed { OnOk result (self.new.fed ≡ self.old.fed ++ found ∷ []) }
        ensures says { Says result
            (λ reading. reading ≡ reading_of self.old.held (self.old.fed ++ found ∷ [])) }
    {
        match self.stage {
            Stage::Begun(held) => {
                if serial != held {
                    return Err(FeedError::Shape(ShapeFault::SerialGap));
                }
                self.stage = Stage::Deleting;
                self.fed = self.fed.and(&found);
                Ok(Progress::More)
            }
            Stage::Deleting => {
                self.stage = Stage::Adding(serial);
                self.fed = self.fed.and(&found);
                Ok(Progress::More)
            }
            Stage::Adding(last) => {
                if last == self.goal {
                    return self.close(found);
                }
                if serial != last {
                    return Err(FeedError::Shape(ShapeFault::SerialGap));
                }
                self.stage = Stage::Deleting;
                self.fed = self.fed.and(&found);
                Ok(Progress::More)
            }
            Stage::Ended => Err(FeedError::Shape(ShapeFault::AfterEnd)),
        }
    }

    /// Reads the closing SOA, and puts the first SOA among the records. `SerialGap` where its RDATA isn't that of the
    /// first SOA; or out of memory.
    fn close(&mut self, found: Rr) -> Result<Progress, FeedError>
        requires soa { is_apex_soa self.old.held.apex found ≡ true }
        requires here { IsAtEnd self.old.held self.old.fed }
        ensures held { self.new.held ≡ self.old.held }
        ensures fed { OnOk result (self.new.fed ≡ self.old.fed ++ found ∷ []) }
        ensures says { Says result
            (λ reading. reading ≡ reading_of self.old.held (self.old.fed ++ found ∷ [])) }
    {
        if !same_rdata(&found, &self.first) {
            return Err(FeedError::Shape(ShapeFault::SerialGap));
        }
        let first = self.first.share()?;
        self.revision.insert(first)?;
        self.stage = Stage::Ended;
        self.fed = self.fed.and(&found);
        Ok(Progress::Ended)
    }

    /// Reads a record that isn't an SOA of the apex. The errors are those of [`Differences::feed`].
    fn take_other(&mut self, found: Rr) -> Result<Progress, FeedError>
        requires other { is_apex_soa self.old.held.apex found ≡ false }
        ensures held { self.new.held ≡ self.old.held }
        ensures fed { OnOk result (self.new.fed ≡ self.old.fed ++ found ∷ []) }
        ensures says { Says result
            (λ reading. reading ≡ reading_of self.old.held (self.old.fed ++ found ∷ [])) }
    {
        match self.stage {
            Stage::Begun(_) => Err(FeedError::Shape(ShapeFault::SerialGap)),
            Stage::Deleting => match self.revision.remove(&found) {
                None => Err(FeedError::Shape(ShapeFault::DeleteMissing)),
                Some(removed) => {
                    give_back(&mut self.room, removed, &found);
                    self.fed = self.fed.and(&found);
                    Ok(Progress::More)
                }
            },
            Stage::Adding(_) => {
                self.room.take(&found)?;
                let fed = self.fed.and(&found);
                if !self.revision.insert(found)? {
                    return Err(FeedError::Shape(ShapeFault::AddPresent));
                }
                self.fed = fed;
                Ok(Progress::More)
            }
            Stage::Ended => Err(FeedError::Shape(ShapeFault::AfterEnd)),
        }
    }
}

/// Gives back what a removed record weighs where it was one of those that were added.
fn give_back(room: &mut Room, removed: Removed, found: &Rr)
    ensures added { removed ≡ Added → room.new ≡ given room.old found.now }
    ensures held { removed ≡ Held → room.new ≡ room.old }
{
    match removed {
        Removed::Held => {}
        Removed::Added => room.give(found),
    }
}
