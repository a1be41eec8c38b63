//! What is published.

ghost use Rattle.std.specs.Prelude.{◌≡◌, IfOk};
ghost use Rattle.dz_history.specs.After.{after};
ghost use Rattle.dz_history.specs.Legal.{IsLegal};

use crate::told::Told;
use dz_table::Table;
use left_right::Absorb;
use std::alloc::AllocError;
use std::marker::Model;
use std::sync::Arc;

/// A table, and the list that it is the table of. Contracts see the list, and the book that it is in.
#[derive(Drop)]
pub(crate) struct Edition {
    table: Arc<Table>,
    told: Told,
}

impl Model for Edition {
    ghost use Rattle.std.specs.Prelude.{◌≡◌};
    ghost use Rattle.dz_history.specs.After.{after};
    ghost use Rattle.dz_history.specs.Legal.{IsLegal};
    ghost use Rattle.dz_desk.specs.Seen.{Page};

    ghost Value = { Page };

    ghost view = { λ e. e.told };

    ghost invariant = { λ e. (e.table.value ≡ (after e.told.list).table) × IsLegal e.told.list };
}

impl Edition {
    /// The edition of a list.
    pub(crate) fn new(table: Arc<Table>, told: Told) -> Edition
        requires table { table.value ≡ (after told.list).table }
        requires legal { IsLegal told.list }
        ensures { result ≡ told }
    {
        Edition { table, told }
    }

    /// One more owner of this edition, which shares the table; the error is that one more can't be counted.
    pub(crate) fn share(&self) -> Result<Edition, AllocError>
        ensures { IfOk result (λ edition. edition ≡ self.now) }
    {
        Ok(Edition {
            table: Arc::try_clone(&self.table)?,
            told: self.told.again(),
        })
    }

    /// The table of the list.
    pub(crate) fn table(&self) -> &Table
        ensures table { result.now ≡ (after self.now.list).table }
        ensures legal { IsLegal self.now.list }
    {
        &self.table
    }

    /// A note of the list.
    pub(crate) fn told(&self) -> &Told
        ensures { result.now ≡ self.now }
    {
        &self.told
    }
}

/// What is put after an edition is the edition that comes next.
impl Absorb<Edition> for Edition {
    type State = Edition;

    ghost state = { λ edition. edition };

    ghost applied = { λ edition next. next };

    /// The first copy becomes an owner of the next edition's parts; the error is that one more can't be counted.
    fn absorb_first(&mut self, operation: &Edition, _other: &Edition) -> Result<(), AllocError> {
        *self = operation.share()?;
        Ok(())
    }

    /// The second copy becomes the next edition itself; it never fails.
    fn absorb_second(&mut self, operation: Edition, _other: &Edition) -> Result<(), Edition> {
        *self = operation;
        Ok(())
    }
}
