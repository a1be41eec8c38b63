//! How an edition is shown to all readings.

ghost use Rattle.std.specs.Prelude.{◌≡◌, [], ◌∷◌, ◌++◌, drop, Some};
ghost use Rattle.left_right.specs.Sides.{view};
ghost use Rattle.dz_desk.specs.Seen.{Goes};
ghost use Rattle.dz_desk.specs.inner.Kept.{HasNext};

use crate::board::{Board, Last, Look};
use crate::edition::Edition;
use core::mem::replace_with;
use left_right::writer::Writer;
use std::sync::Wait;

/// The end that shows editions.
pub(crate) type Showing = Writer<Edition, Edition, Last, Board>;

/// Shows an edition that continues the one that is shown.
pub(crate) fn show<R: Wait>(rt: &R, writer: &mut Showing, next: Edition)
    requires last { view writer.old.desk.place ≡ Some writer.old.desk.shown.value }
    requires rest { drop writer.old.behind writer.old.log.items ≡ [] }
    requires goes { Goes writer.old.desk.shown.value next }
    ensures last { view writer.new.desk.place ≡ Some writer.new.desk.shown.value }
    ensures rest { drop writer.new.behind writer.new.log.items ≡ [] }
    ensures shown { writer.new.desk.shown.value ≡ next }
{
    put(rt, writer, next);
    replace_with(
        writer,
        rt,
        |writer: Showing, rt: &R| -> (Showing, ())
            requires last { view writer.desk.place ≡ Some writer.desk.shown.value }
            requires next { HasNext writer.desk.shown.value (drop writer.behind writer.log.items) }
            ensures last { view result.0.desk.place ≡ Some result.0.desk.shown.value }
            ensures shown { drop writer.behind writer.log.items ≡ result.0.desk.shown.value ∷ [] }
            ensures rest { drop result.0.behind result.0.log.items ≡ [] }
        { (turn_again(rt, turn(rt, writer)), ()) },
    );
}

/// Puts an edition after the one that is shown; where there is no memory it tries again.
fn put<R: Wait>(rt: &R, writer: &mut Showing, next: Edition)
    ensures desk { writer.new.desk ≡ writer.old.desk }
    ensures next { drop writer.new.behind writer.new.log.items
        ≡ drop writer.old.behind writer.old.log.items ++ next ∷ [] }
{
    let mut next = next;
    'memory: for _ in rt.forever() {
        match writer.append(next) {
            Ok(()) => return,
            Err(back) => next = back,
        }
    }
    unreachable!()
}

/// Turns to the edition that was put after the one that is shown; where one more owner of its table can't be counted it
/// tries again.
fn turn<R: Wait>(rt: &R, writer: Showing) -> Showing
    requires last { view writer.desk.place ≡ Some writer.desk.shown.value }
    requires next { HasNext writer.desk.shown.value (drop writer.behind writer.log.items) }
    ensures last { view result.desk.place ≡ Some result.desk.shown.value }
    ensures shown { drop writer.behind writer.log.items ≡ result.desk.shown.value ∷ [] }
    ensures rest { drop result.behind result.log.items ≡ [] }
{
    let mut writer = writer;
    'owners: for _ in rt.forever() {
        let (same, turned) = writer.publish_as::<Look, R>(rt);
        writer = same;
        if turned.is_ok() {
            return writer;
        }
    }
    unreachable!()
}

/// Shows the same edition by the other copy too, so that neither keeps the one before it, whose tables and versions are
/// given back once nobody else has them.
fn turn_again<R: Wait>(rt: &R, writer: Showing) -> Showing
    requires last { view writer.desk.place ≡ Some writer.desk.shown.value }
    requires rest { drop writer.behind writer.log.items ≡ [] }
    ensures last { view result.desk.place ≡ Some result.desk.shown.value }
    ensures same { result.desk.shown.value ≡ writer.desk.shown.value }
    ensures rest { drop result.behind result.log.items ≡ [] }
{
    let (same, _) = writer.publish_as::<Look, R>(rt);
    same
}
