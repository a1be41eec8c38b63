//! Places that keep their distances from a new beginning.

ghost use Rattle.std.specs.Prelude.{◌≡◌, ◌+◌, ◌-◌, ◌^◌, ◌<◌, ◌++◌, map, OnOk};
ghost use Rattle.dz_index.specs.inner.Portion.{moved, AreMovable};

use std::alloc::AllocError;

/// Other places after these, each as far from the new beginning as it was from the old one. They are copied in one block.
pub(crate) fn extend_moved(
    places: &mut Vec<u32>,
    others: &[u32],
    old: u32,
    new: u32,
) -> Result<(), AllocError>
    requires { AreMovable old new others.now }
    ensures { OnOk result (places.new.items
        ≡ places.old.items ++ map (moved old new) others.now) }
{
    let before = places.len();
    places.extend_from_slice(others)?;
    move_places(&mut places[before..], old, new);
    Ok(())
}

/// Each place as far from the new beginning as it was from the old one.
fn move_places(places: &mut [u32], old: u32, new: u32)
    requires { AreMovable old new places.old }
    ensures { places.new ≡ map (moved old new) places.old }
{
    'places: for place in places.iter_mut() {
        *place = *place - old + new;
    }
}
