//! The records that an assembler was fed.

ghost use Rattle.std.specs.Prelude.{◌≡◌, [], ◌∷◌, ◌++◌};

use dz_record::Rr;
use std::marker::Model;
use std::snapshot::Snapshot;

/// All records that an assembler was fed, for contracts alone: it keeps none of them.
#[derive(Drop)]
pub struct Fed {
    past: Past,
}

/// What was fed before, and the last record or records.
#[derive(Drop)]
enum Past {
    Nothing,
    One(Snapshot<Past>, Snapshot<Rr>),
    All(Snapshot<Past>, Snapshot<Vec<Rr>>),
}

impl Model for Fed {
    ghost use Rattle.std.specs.Prelude.{List};
    ghost use Rattle.dz_record.specs.Record.{Record};
    ghost use Rattle.dz_xfr.specs.inner.Past.{records_of};

    ghost Value = { List Record };

    ghost view = { λ f. records_of f.past };
}

impl Fed {
    /// An assembler that was fed nothing.
    pub fn nothing() -> Fed
        ensures { result ≡ [] }
    {
        Fed {
            past: Past::Nothing,
        }
    }

    /// What was fed, followed by this record.
    pub fn and(&self, found: &Rr) -> Fed
        ensures { result ≡ self.now ++ found.now ∷ [] }
    {
        Fed {
            past: Past::One(Snapshot::of(&self.past), Snapshot::of(found)),
        }
    }

    /// What was fed, followed by these records.
    pub fn and_all(&self, records: &Vec<Rr>) -> Fed
        ensures { result ≡ self.now ++ records.now.items }
    {
        Fed {
            past: Past::All(Snapshot::of(&self.past), Snapshot::of(records)),
        }
    }
}
