//! The last unbroken listing of a catalog, which folds share.

ghost use Rattle.std.specs.Prelude.{◌≡◌, ◌<◌, length, replicate, slice_set, Some, None, IfOk, option_map};

use crate::nodes::Nodes;
use std::alloc::{AllocError, Global};
use std::marker::Model;
use std::mem;
use std::sync::Arc;

/// The last unbroken listing of a catalog, if it had one.
#[derive(Drop)]
pub(crate) struct Known {
    nodes: Option<Arc<Nodes>>,
}

impl Model for Known {
    ghost use Rattle.std.specs.Prelude.{List, Option, option_map};
    ghost use Rattle.std.specs.Arc.{arc_value};
    ghost use Rattle.dz_member.specs.declared.listing.Node.{Node};

    ghost Value = { Option (List Node) };

    ghost view = { λ k. option_map arc_value k.nodes };
}

impl Known {
    /// No listing yet.
    pub(crate) fn nothing() -> Known
        ensures { result ≡ None }
    {
        Known { nodes: None }
    }

    /// A listing as folds share it.
    pub(crate) fn of(nodes: Arc<Nodes>) -> Known
        ensures { result ≡ Some nodes.value }
    {
        Known { nodes: Some(nodes) }
    }

    /// The nodes of the listing, if there is one.
    pub(crate) fn nodes(&self) -> Option<&Arc<Nodes>>
        ensures { option_map (λ r. r.now.value) result ≡ self.now }
    {
        match &self.nodes {
            None => None,
            Some(nodes) => Some(nodes),
        }
    }

    /// One more reference to the same listing. The error is out of memory.
    pub(crate) fn share(&self) -> Result<Known, AllocError>
        ensures { IfOk result (λ k. k ≡ self.now) }
    {
        let nodes = match &self.nodes {
            None => None,
            Some(nodes) => Some(Arc::try_clone(nodes)?),
        };
        Ok(Known { nodes })
    }
}

/// Nothing is known yet of the given number of catalogs. The error is out of memory.
pub(crate) fn nothing_known(alloc: Global, count: usize) -> Result<Vec<Known>, AllocError>
    ensures { IfOk result (λ ks. ks.items ≡ replicate count None) }
{
    let mut known = Vec::with_capacity(alloc, count)?;
    'catalogs: for _place in 0..count {
        known.push(Known::nothing())?;
    }
    Ok(known)
}

/// The same listings, but for a catalog's: the given one is its last now. The error is out of memory.
pub(crate) fn with_listing(
    alloc: Global,
    known: &[Known],
    number: usize,
    nodes: Arc<Nodes>,
) -> Result<Vec<Known>, AllocError>
    requires { number < length known.now }
    ensures { IfOk result (λ ks. ks.items ≡ slice_set known.now number (Some nodes.value)) }
{
    let mut copies = share_all(alloc, known)?;
    put(&mut copies, number, Known::of(nodes));
    Ok(copies)
}

/// One more reference to each of the listings. The error is out of memory.
pub(crate) fn share_all(alloc: Global, known: &[Known]) -> Result<Vec<Known>, AllocError>
    ensures { IfOk result (λ ks. ks.items ≡ known.now) }
{
    let mut copies = Vec::with_capacity(alloc, known.len())?;
    'known: for one in known {
        copies.push(one.share()?)?;
    }
    Ok(copies)
}

/// Replaces the listing of the catalog of a number.
fn put(known: &mut Vec<Known>, number: usize, last: Known)
    requires { number < length known.old.items }
    ensures { known.new.items ≡ slice_set known.old.items number last }
{
    let old = mem::replace(&mut known[number], last);
    drop(old);
}
