//! The rule of what is published and what was seen, as `left_right` asks for it.

use crate::edition::Edition;
use atomic_table::{Join, Split};
use crossbeam_utils::rule::{Outcome, Protocol};

/// What a seat saw last. It is never made at run time.
pub(crate) type Last = Option<Edition>;

/// What each seat saw is continued by what is published.
pub(crate) struct Board;

impl Protocol<Edition, Last> for Board {
    ghost use Rattle.std.specs.Prelude.{None};
    ghost use Rattle.dz_desk.specs.Rule.{Keeps};

    ghost holds = { Keeps };

    ghost first = { None };
}

/// A step that shows an edition: publishing, and entering.
pub(crate) struct Look;

impl Outcome<Edition, Last> for Look {
    ghost use Rattle.dz_desk.specs.Rule.{Sees};

    ghost then = { Sees };
}

/// A note of what a seat saw, for another seat, which takes it in place of what it saw itself.
pub(crate) struct Note;

impl Split<Last> for Note {
    ghost left = { λ seen. seen };

    ghost right = { λ seen. seen };
}

impl Join<Last> for Note {
    ghost use Rattle.std.specs.Prelude.{None};

    ghost both = { λ seen noted. noted };

    ghost spent = { None };
}
