//! Some of the rows that are read, by their places.
ghost use Rattle.std.specs.Prelude.{◌≡◌, ◌<◌, IfOk, OnOk, List, [], length};
ghost use Rattle.base_value.specs.Truth.{standing_rank};
ghost use Rattle.base_columns.specs.Batches.{row_at};
ghost use Rattle.base_columns.specs.Lists.{AreBelow, gathered};
ghost use Rattle.base_row_laws.specs.Ranked.{Ranked, ranked, true_rank};
ghost use Rattle.base_value.specs.declared.value.Value.{Value as Datum};
ghost use Rattle.plan_algebra.specs.KeptPlans.{key_of};
ghost use Rattle.store_kept_views.specs.Standing.{arguments_in};

use crate::reading::Reading;
use base_value::{Standing, Value};
use std::alloc::{AllocError, Global};
use std::marker::Model;

/// What a plan reads of rows at some places. It is seen as the plan and these rows.
#[derive(Drop)]
pub(crate) struct PlacedReading<'a> {
    reading: Reading<'a>,
    places: Vec<usize>,
}

impl<'a> Model for PlacedReading<'a> {
    ghost use Rattle.std.specs.Prelude.{[], length};
    ghost use Rattle.std.specs.Coded.{codes};
    ghost use Rattle.expr_scalar.specs.contracts.expr.Expr as expr;
    ghost use Rattle.base_columns.specs.Lists.{AreBelow, gathered};
    ghost use Rattle.base_row_laws.specs.Ranked.{ranked, true_rank};
    ghost use Rattle.store_kept_views.specs.Readings.{PlanRows, plan_rows};

    ghost Value = { PlanRows };

    ghost coded = { Prim.hlevel (codes, expr.the_row.coded) };

    ghost view = { λ r. plan_rows r.reading.plan
        (gathered (ranked [] true_rank) r.reading.rows r.places.items) };

    ghost invariant = { λ r. AreBelow (length r.reading.rows) r.places.items };
}

// The places of n rows.
fn all_places(alloc: Global, n: usize) -> Result<Vec<usize>, AllocError>
    ensures below { IfOk result (λ places. AreBelow n places.items) }
    ensures all { IfOk result (λ places. (rows : List (Ranked Datum)) → length rows ≡ n
        → gathered (ranked [] true_rank) rows places.items ≡ rows) }
{
    let mut places = Vec::with_capacity(alloc, n)?;
    for i in 0..n {
        places.push(i)?;
    }
    Ok(places)
}

// The same places.
fn same_places(alloc: Global, places: &[u32]) -> Result<Vec<usize>, AllocError>
    ensures { IfOk result (λ same. same.items ≡ places.now) }
{
    let mut same = Vec::with_capacity(alloc, places.len())?;
    for place in places {
        same.push(*place as usize)?;
    }
    Ok(same)
}

impl<'a> PlacedReading<'a> {
    /// All rows.
    pub(crate) fn whole(
        alloc: Global,
        reading: Reading<'a>,
    ) -> Result<PlacedReading<'a>, AllocError>
        ensures { IfOk result (λ r. r ≡ reading.entry) }
    {
        let places = all_places(alloc, reading.len())?;
        Ok(PlacedReading { reading, places })
    }

    /// The rows at these places.
    pub(crate) fn at(
        alloc: Global,
        reading: Reading<'a>,
        places: &[u32],
    ) -> Result<PlacedReading<'a>, AllocError>
        requires { AreBelow (length reading.rows) places.now }
        ensures plan { IfOk result (λ r. r.plan ≡ reading.entry.plan) }
        ensures rows { IfOk result (λ r. r.rows
            ≡ gathered (ranked [] true_rank) reading.entry.rows places.now) }
    {
        let places = same_places(alloc, places)?;
        Ok(PlacedReading { reading, places })
    }

    /// How many rows there are.
    pub(crate) fn len(&self) -> usize
        ensures { result ≡ length self.now.rows }
    {
        self.places.len()
    }

    /// How a row stands.
    pub(crate) fn standing(&self, i: usize) -> Standing
        requires { i < length self.now.rows }
        ensures { standing_rank result ≡ (row_at self.now.rows i).standing }
    {
        self.reading.standing(self.places[i])
    }

    /// The key of a row, in the place of other values.
    pub(crate) fn put_key(
        &self,
        alloc: Global,
        i: usize,
        key: &mut Vec<Value>,
    ) -> Result<(), AllocError>
        requires { i < length self.now.rows }
        ensures { OnOk result (key.new.items
            ≡ key_of self.now.plan (row_at self.now.rows i).values) }
    {
        self.reading.put_key(alloc, self.places[i], key)?;
        Ok(())
    }

    /// The arguments of the aggregates in a row, in the place of other values.
    pub(crate) fn put_arguments(
        &self,
        alloc: Global,
        i: usize,
        arguments: &mut Vec<Value>,
    ) -> Result<(), AllocError>
        requires { i < length self.now.rows }
        ensures { OnOk result (arguments.new.items
            ≡ arguments_in self.now.plan.aggregates (row_at self.now.rows i).values) }
    {
        self.reading
            .put_arguments(alloc, self.places[i], arguments)?;
        Ok(())
    }
}
