//! What readings see of a published list.

ghost use Rattle.std.specs.Prelude.{◌≡◌, true, false, [], ◌∷◌, None, IfOk};
ghost use Rattle.dz_settings.specs.Config.{IsAllowed};
ghost use Rattle.dz_history.specs.After.{after};
ghost use Rattle.dz_history.specs.Legal.{IsLegal};

use crate::configs::config;
use crate::desks::{last_of, open, open_one};
use crate::transfers::CATALOG;
use dz_desk::{Desk, Publisher, Reading, Sight, Told};
use dz_history::{Entry, Step};
use dz_settings::Config;
use dz_table::Table;
use std::alloc::{AllocError, Global};
use std::process::Abort;
use std::sync::{Arc, Wait};
use std::test::*;

/// The entry of a configuration, with its table.
fn setup(alloc: Global, config: Config) -> Result<Step, AllocError>
    requires { IsAllowed config }
    ensures legal { IfOk result (λ step. IsLegal (step.entry ∷ [])) }
    ensures table { IfOk result (λ step. step.table.value ≡ (after (step.entry ∷ [])).table) }
{
    Ok(Step {
        table: Arc::new(alloc, Table::empty(alloc))?,
        entry: Entry::Setup(config),
    })
}

/// The first step of a list.
fn first_step(rt: &impl Abort, alloc: Global) -> Step
    ensures legal { IsLegal (result.entry ∷ []) }
    ensures table { result.table.value ≡ (after (result.entry ∷ [])).table }
{
    let made = match config(rt, alloc, CATALOG) {
        Ok(config) => setup(alloc, config),
        Err(error) => Err(error),
    };
    match made {
        Ok(step) => step,
        Err(_) => panic!(rt; "out of memory"),
    }
}

/// Publishes the first entry.
fn publish<R: Abort + Wait>(rt: &R, alloc: Global, publisher: &mut Publisher) -> Told
    requires { (publisher.old.list ≡ []) × (publisher.old.staged ≡ None) }
    ensures book { publisher.new.book ≡ publisher.old.book }
    ensures told { (result.list ≡ publisher.new.list) × (result.book ≡ publisher.old.book) }
{
    publisher.stage(first_step(rt, alloc));
    publisher.publish(rt)
}

/// A look that shows a sight.
fn look(rt: &impl Abort, reading: &mut Reading) -> Sight
    requires { reading.old.is_out ≡ false }
    ensures out { reading.new.is_out ≡ true }
    ensures own { (result.list ≡ reading.new.list) × (result.book ≡ reading.new.book) }
    ensures book { reading.new.book ≡ reading.old.book }
{
    match reading.see() {
        Some(sight) => sight,
        None => panic!(rt; "a look was refused"),
    }
}

#[test]
fn an_untold_reading_comes_to_what_is_published(rt: HostRuntime) {
    let (mut publisher, mut reading) = open_one(&rt, rt.alloc());
    let opening = look(&rt, &mut reading);
    reading.leave(opening);
    assert_eq!(rt; reading.count(), 0);
    drop(publish(&rt, rt.alloc(), &mut publisher));
    assert_eq!(rt; (reading.count(), publisher.count()), (0, 1));
    let sight = look(&rt, &mut reading);
    assert!(rt; sight.table().walk().next().is_none());
    reading.leave(sight);
    assert_eq!(rt;
        (reading.count(), reading.sights(), reading.refusals()),
        (1, 2, 0)
    );
    publisher.close(&rt);
}

#[test]
fn what_is_told_is_learned(rt: HostRuntime) {
    let Desk {
        mut publisher,
        mut readings,
    } = open(&rt, rt.alloc(), 6);
    let mut one = last_of(&rt, &mut readings, &publisher);
    let two = last_of(&rt, &mut readings, &publisher);
    let before = publisher.tell();
    let told = publish(&rt, rt.alloc(), &mut publisher);
    assert!(rt; one.is_within(&before) && one.is_within(&told));
    one.learn(&rt, told);
    assert_eq!(rt; (one.count(), one.sights(), two.count()), (1, 0, 0));
    assert!(rt; !one.is_within(&before) && two.is_within(&before));
    publisher.close(&rt);
}

#[test]
fn looks_are_refused_after_the_end(rt: HostRuntime) {
    let (publisher, mut reading) = open_one(&rt, rt.alloc());
    publisher.close(&rt);
    match reading.see() {
        Some(_) => panic!(rt; "a sight"),
        None => assert_eq!(rt; (reading.sights(), reading.refusals()), (0, 1)),
    }
}
