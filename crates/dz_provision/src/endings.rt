//! How jobs ended, one after the other.

ghost use Rattle.std.specs.Prelude.{◌≡◌, [], ◌++◌, option_to_list};

use crate::ending::Ending;
use std::marker::Model;
use std::snapshot::Snapshot;

/// How jobs ended, of which nothing is kept at run time but how the list ends.
#[cycle(ends)]
#[derive(Drop)]
pub enum Ends {
    /// No job.
    Start,
    /// One more job.
    After(Snapshot<Last>),
}

/// The last job, and those before it.
#[cycle(ends)]
#[derive(Drop)]
pub struct Last {
    pub(crate) before: Ends,
    pub(crate) ending: Option<Ending>,
}

/// How jobs ended, in their order. Contracts see the list; at run time it is one octet, whatever its length.
#[derive(Drop)]
pub struct Endings {
    ends: Ends,
}

impl Model for Endings {
    ghost use Rattle.std.specs.Prelude.{List};
    ghost use Rattle.dz_provision.specs.Endings.{EndingOf};
    ghost use Rattle.dz_provision.specs.inner.EndsInTurn.{endings_by};

    ghost Value = { List EndingOf };

    ghost view = { λ e. endings_by e.ends };
}

impl Endings {
    /// No job.
    pub fn new() -> Endings
        ensures { result ≡ [] }
    {
        Endings { ends: Ends::Start }
    }

    /// The same, and one more job after them, where it ended.
    pub fn and(self, ending: Option<Ending>) -> Endings
        ensures { result ≡ self ++ option_to_list ending }
    {
        let last = Last {
            before: self.ends,
            ending,
        };
        Endings {
            ends: Ends::After(Snapshot::of(&last)),
        }
    }
}
