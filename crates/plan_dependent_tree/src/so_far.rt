//! The columns of the row so far that a source reads.
ghost use Rattle.std.specs.Prelude.{◌≡◌, ◌==◌, ◌||◌, ℕ, IfOk, OnOk};
ghost use Rattle.plan_dependent_nodes.specs.Seeks.{has_place, seeks_of, seeks_so_far};

use crate::outer::outer_columns;
use sql_bound_query::{BoundBlock, BoundSource};
use sqlite_items::Items;
use std::alloc::{AllocError, Global};

/// The places of the columns of the row so far that a source reads, each once.
pub fn so_far_places(alloc: Global, s: &BoundSource) -> Result<Items<u32>, AllocError>
    ensures { IfOk result (λ found. (place : ℕ)
        → has_place found place ≡ seeks_so_far s.now place) }
{
    let mut found = Items::new(alloc);
    source(alloc, s, &mut found)?;
    Ok(found)
}

// Adds a place if the list lacks it.
fn put(place: u32, found: &mut Items<u32>) -> Result<(), AllocError>
    ensures { OnOk result ((other : ℕ) → has_place found.new other
        ≡ (has_place found.old other || (place == other))) }
{
    if found.as_slice().contains(&place) {
        Ok(())
    } else {
        found.push(place)?;
        Ok(())
    }
}

// A lateral item's query has the row so far as its nearest row.
fn nearest(alloc: Global, q: &BoundBlock, found: &mut Items<u32>) -> Result<(), AllocError>
    ensures { OnOk result ((place : ℕ) → has_place found.new place
        ≡ (has_place found.old place || seeks_of q.now 0 place)) }
{
    let columns = outer_columns(alloc, q)?;
    for column in columns.as_slice() {
        if column.level == 0 {
            put(column.place, found)?;
        }
    }
    Ok(())
}

#[cycle(so_far)]
fn source(alloc: Global, s: &BoundSource, found: &mut Items<u32>) -> Result<(), AllocError>
    ensures { OnOk result ((place : ℕ) → has_place found.new place
        ≡ (has_place found.old place || seeks_so_far s.now place)) }
{
    match s {
        BoundSource::Table(_) => Ok(()),
        BoundSource::Derived(_, _) => Ok(()),
        BoundSource::Lateral(q) => {
            nearest(alloc, q.get(), found)?;
            Ok(())
        }
        BoundSource::Cross(a, b) => {
            source(alloc, a.get(), found)?;
            source(alloc, b.get(), found)?;
            Ok(())
        }
        BoundSource::Inner(a, b, _) => {
            source(alloc, a.get(), found)?;
            source(alloc, b.get(), found)?;
            Ok(())
        }
        BoundSource::Outer(a, b, _, _) => {
            source(alloc, a.get(), found)?;
            source(alloc, b.get(), found)?;
            Ok(())
        }
    }
}
