//! Elements taken by their places.
ghost use Rattle.std.specs.Prelude.{◌≡◌, ◌<◌, cond, nat_le, IfOk, length};
ghost use Rattle.base_columns.specs.Lists.{AreBelow, IsGathered, inside};

use std::alloc::{AllocError, Global};

/// The elements at these places.
pub(crate) fn copies<T: Copy>(
    alloc: Global,
    items: &[T],
    places: &[u32],
) -> Result<Vec<T>, AllocError>
    requires { AreBelow (length items.now) places.now }
    ensures { IfOk result (λ v. IsGathered items.now places.now v.items) }
{
    let mut out = Vec::with_capacity(alloc, places.len())?;
    for place in places {
        out.push(items[*place as usize])?;
    }
    Ok(out)
}

/// These places, but 0 where a place isn't below n.
#[tactic(auto, using(crate::proofs::MarkedColumns::places))]
pub(crate) fn inside(alloc: Global, n: usize, places: &[u32]) -> Result<Vec<u32>, AllocError>
    requires { 0 < n }
    ensures value { IfOk result (λ v. v.items ≡ inside n places.now) }
    ensures below { IfOk result (λ v. AreBelow n v.items) }
{
    let mut out = Vec::with_capacity(alloc, places.len())?;
    for place in places {
        out.push(place_inside(n, *place))?;
    }
    Ok(out)
}

// A place, but 0 where it isn't below n.
fn place_inside(n: usize, place: u32) -> u32
    ensures { result ≡ cond (nat_le n place) 0 place }
{
    if n <= place as usize {
        return 0;
    }
    place
}
