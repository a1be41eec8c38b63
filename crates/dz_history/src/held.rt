//! Versions that are held.

ghost use Rattle.std.specs.Prelude.{◌≡◌, ◌<◌, length, replicate, slice_set, None, Some, IfOk, option_map};

use dz_zone::Version;
use std::alloc::{AllocError, Global};
use std::marker::Model;
use std::mem;
use std::sync::Arc;

/// A version that is shared, if there is one.
#[derive(Debug, Drop)]
pub(crate) struct Held {
    version: Option<Arc<Version>>,
}

impl Model for Held {
    ghost use Rattle.std.specs.Prelude.{Option, option_map};
    ghost use Rattle.std.specs.Arc.{arc_value};
    ghost use Rattle.dz_zone.specs.Version.{Zone};

    ghost Value = { Option Zone };

    ghost view = { λ h. option_map arc_value h.version };
}

impl Held {
    /// No version.
    fn nothing() -> Held
        ensures { result ≡ None }
    {
        Held { version: None }
    }

    /// This version.
    pub(crate) fn of(version: Arc<Version>) -> Held
        ensures { result ≡ Some version.value }
    {
        Held {
            version: Some(version),
        }
    }

    /// The version, if there is one.
    pub(crate) fn version(&self) -> Option<&Arc<Version>>
        ensures { option_map (λ r. r.now.value) result ≡ self.now }
    {
        self.version.as_ref()
    }

    /// The same version, shared. `AllocError` where memory runs out.
    fn share(&self) -> Result<Held, AllocError>
        ensures { IfOk result (λ h. h ≡ self.now) }
    {
        let version = match &self.version {
            None => None,
            Some(version) => Some(Arc::try_clone(version)?),
        };
        Ok(Held { version })
    }
}

/// No version, the given number of times. `AllocError` where memory runs out.
pub(crate) fn nothing_held(alloc: Global, count: usize) -> Result<Vec<Held>, AllocError>
    ensures { IfOk result (λ hs. hs.items ≡ replicate count None) }
{
    let mut held = Vec::with_capacity(alloc, count)?;
    'catalogs: for _place in 0..count {
        held.push(Held::nothing())?;
    }
    Ok(held)
}

/// The same versions, shared. `AllocError` where memory runs out.
pub(crate) fn share_all(alloc: Global, held: &[Held]) -> Result<Vec<Held>, AllocError>
    ensures { IfOk result (λ hs. hs.items ≡ held.now) }
{
    let mut copies = Vec::with_capacity(alloc, held.len())?;
    'held: for one in held {
        copies.push(one.share()?)?;
    }
    Ok(copies)
}

/// The same versions, but for this one at a place. `AllocError` where memory runs out.
pub(crate) fn with_version(
    alloc: Global,
    held: &[Held],
    place: usize,
    version: Arc<Version>,
) -> Result<Vec<Held>, AllocError>
    requires { place < length held.now }
    ensures { IfOk result (λ hs. hs.items ≡ slice_set held.now place (Some version.value)) }
{
    let mut copies = share_all(alloc, held)?;
    put(&mut copies, place, Held::of(version));
    Ok(copies)
}

/// Puts a version at a place.
fn put(held: &mut Vec<Held>, place: usize, one: Held)
    requires { place < length held.old.items }
    ensures { held.new.items ≡ slice_set held.old.items place one }
{
    let old = mem::replace(&mut held[place], one);
    drop(old);
}
