//! The records in which two versions of a zone differ.

ghost use Rattle.std.specs.Prelude.{◌≡◌, ◌+◌, ◌<◌, ◌≤◌, ◌++◌, length, map, IfOk, IfSome, OnOk, MatchOption, MatchBool};
ghost use Rattle.std.specs.Option.{option_map, option_to_list};
ghost use Rattle.dz_record.specs.Record.{full_order};
ghost use Rattle.dz_zone.specs.Apart.{missing_in};
ghost use Rattle.dz_zone.specs.inner.Step.{first_step, step_of, step_gone, step_come, step_same};

use crate::version::Version;
use dz_record::Rr;
use std::alloc::{AllocError, Global};
use std::cmp::Ordering;

/// The most records of two versions together that [`records_apart`] tells.
pub const MOST_APART: usize = 1_024;

/// The records of each of two versions that the other one hasn't.
#[derive(Drop)]
pub struct Apart<'a> {
    /// Those of the earlier version, in canonical order.
    pub gone: Vec<&'a Rr>,
    /// Those of the later one.
    pub come: Vec<&'a Rr>,
}

/// A step of a pass over the records of two versions: the record that one of them alone has, if it is one, and those
/// that follow.
#[derive(Clone, Copy)]
struct Step<'a> {
    gone: Option<&'a Rr>,
    come: Option<&'a Rr>,
    before: &'a [Rr],
    after: &'a [Rr],
}

/// The records of each of two versions that the other one hasn't, also those that differ in the TTL alone; none where
/// they are more than 1,024. It takes one pass, in which most records are compared by their octets. The error is out of
/// memory.
pub fn records_apart<'a>(
    alloc: Global,
    before: &'a Version,
    after: &'a Version,
) -> Result<Option<Apart<'a>>, AllocError>
    ensures apart { IfOk result (λ o. MatchOption o
        (MOST_APART < length (missing_in after.now.records before.now.records)
        + length (missing_in before.now.records after.now.records))
        (λ a. (map (λ r. r.now) a.gone.items ≡ missing_in after.now.records before.now.records)
        × (map (λ r. r.now) a.come.items ≡ missing_in before.now.records after.now.records))) }
    ensures few { IfOk result (λ o. IfSome o (λ a. length a.gone.items + length a.come.items
        ≤ MOST_APART)) }
{
    let mut apart = Apart {
        gone: Vec::new(alloc),
        come: Vec::new(alloc),
    };
    let mut olds = before.records();
    let mut news = after.records();
    'records: while let Some(step) = first_step(olds, news) {
        apart.add(&step)?;
        if apart.is_over() {
            return Ok(None);
        }
        olds = step.before;
        news = step.after;
    }
    Ok(Some(apart))
}

impl<'a> Apart<'a> {
    /// Puts what a step tells after the others. The error is out of memory.
    fn add(&mut self, step: &Step<'a>) -> Result<(), AllocError>
        ensures gone { OnOk result (map (λ r. r.now) self.new.gone.items
            ≡ map (λ r. r.now) self.old.gone.items ++ option_to_list (step_of step.now).gone) }
        ensures come { OnOk result (map (λ r. r.now) self.new.come.items
            ≡ map (λ r. r.now) self.old.come.items ++ option_to_list (step_of step.now).come) }
    {
        if let Some(gone) = step.gone {
            self.gone.push(gone)?;
        }
        if let Some(come) = step.come {
            self.come.push(come)?;
        }
        Ok(())
    }

    /// Whether there are more records than are told.
    fn is_over(&self) -> bool
        ensures { MatchBool result
            (MOST_APART < length self.now.gone.items + length self.now.come.items)
            (length self.now.gone.items + length self.now.come.items ≤ MOST_APART) }
    {
        MOST_APART < self.gone.len().saturating_add(self.come.len())
    }
}

/// The first step, by the first records that are left of both; none where none is left.
fn first_step<'a>(before: &'a [Rr], after: &'a [Rr]) -> Option<Step<'a>>
    ensures { option_map step_of result ≡ first_step before.now after.now }
{
    match (before.split_first(), after.split_first()) {
        (None, None) => None,
        (Some((old, olds)), None) => Some(Step::gone(old, olds, after)),
        (None, Some((new, news))) => Some(Step::come(new, before, news)),
        (Some((old, olds)), Some((new, news))) => Some(match compare(old, new) {
            Ordering::Less => Step::gone(old, olds, after),
            Ordering::Equal => Step::same(olds, news),
            Ordering::Greater => Step::come(new, before, news),
        }),
    }
}

/// How two records compare, the TTL included. Most are the same to the octet.
fn compare(a: &Rr, b: &Rr) -> Ordering
    ensures { result ≡ full_order a.now b.now }
{
    if a.octets() == b.octets() {
        Ordering::Equal
    } else {
        a.canonical_cmp(b)
    }
}

impl<'a> Step<'a> {
    /// The earlier version alone has this record.
    fn gone(found: &'a Rr, before: &'a [Rr], after: &'a [Rr]) -> Step<'a>
        ensures { step_of result ≡ step_gone found.now before.now after.now }
    {
        Step {
            gone: Some(found),
            come: None,
            before,
            after,
        }
    }

    /// The later version alone has this record.
    fn come(found: &'a Rr, before: &'a [Rr], after: &'a [Rr]) -> Step<'a>
        ensures { step_of result ≡ step_come found.now before.now after.now }
    {
        Step {
            gone: None,
            come: Some(found),
            before,
            after,
        }
    }

    /// Both have the record.
    fn same(before: &'a [Rr], after: &'a [Rr]) -> Step<'a>
        ensures { step_of result ≡ step_same before.now after.now }
    {
        Step {
            gone: None,
            come: None,
            before,
            after,
        }
    }
}
