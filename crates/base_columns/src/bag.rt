//! A list of batches.
ghost use Rattle.std.specs.Prelude.{◌≡◌, ◌+◌, ◌<◌, ◌++◌, ◌∷◌, ◌==◌, [], IfOk, OnOk, OnErr, length};
ghost use Rattle.std.specs.Prelude.{map};
ghost use Rattle.std.specs.List.{All};
ghost use Rattle.base_value.specs.Truth.{standing_rank};
ghost use Rattle.base_columns.specs.Batches.{column_at, first_columns};
ghost use Rattle.base_columns.specs.Bags.{bag_rows, AreWide};
ghost use Rattle.base_columns.specs.Tables.{standing_rows};

use crate::batch::Batch;
use crate::column::Column;
use crate::column_builder::ColumnBuilder;
use crate::rows::Rows;
use crate::standings::Standings;
use std::alloc::{AllocError, Global};
use std::marker::Model;

/// Rows with standings in batches of one width, seen as the width and the list of the rows.
#[derive(Drop)]
pub struct Bag {
    width: usize,
    batches: Vec<Batch>,
    // How many rows the batches have together.
    count: usize,
}

impl Model for Bag {
    ghost use Rattle.std.specs.Prelude.{◌≡◌, length};
    ghost use Rattle.std.specs.List.{All};
    ghost use Rattle.base_row_laws.specs.Ranked.{Relation};
    ghost use Rattle.base_value.specs.declared.value.Value.{Value as Datum};
    ghost use Rattle.base_columns.specs.Bags.{bag_relation, bag_rows, AreWide};

    ghost Value = { Relation Datum };

    ghost view = { λ b. bag_relation b.width b.batches.items };

    ghost invariant = { λ b. AreWide b.width b.batches.items
        × (b.count ≡ length (bag_rows b.batches.items))
        × All (λ r. length r.values ≡ b.width) (bag_rows b.batches.items) };
}

#[tactic(auto, using(crate::proofs::BagLists::bags))]
impl Bag {
    /// No rows, of that width.
    pub fn new(alloc: Global, width: usize) -> Bag
        ensures width { result.width ≡ width }
        ensures rows { result.rows ≡ [] }
    {
        Bag {
            width,
            batches: Vec::new(alloc),
            count: 0,
        }
    }

    /// How many values each row has.
    pub fn width(&self) -> usize
        ensures value { result ≡ self.now.width }
        ensures wide { All (λ r. length r.values ≡ self.now.width) self.now.rows }
    {
        self.width
    }

    /// How many rows there are.
    pub fn len(&self) -> usize
        ensures { result ≡ length self.now.rows }
    {
        self.count
    }

    /// Whether there is no row.
    pub fn is_empty(&self) -> bool
        ensures { result ≡ (length self.now.rows == 0) }
    {
        self.count == 0
    }

    /// The batches, in the order of their rows.
    pub fn batches(&self) -> &[Batch]
        ensures rows { self.now.rows ≡ bag_rows result.now }
        ensures width { AreWide self.now.width result.now }
    {
        self.batches.as_slice()
    }

    /// The rows of a batch at the end. More rows than a usize counts are an error, as memory that
    /// isn't there.
    pub fn push(&mut self, batch: Batch) -> Result<(), AllocError>
        requires { batch.width ≡ self.old.width }
        ensures width { self.new.width ≡ self.old.width }
        ensures ok { OnOk result (self.new.rows ≡ self.old.rows ++ batch.rows) }
        ensures err { OnErr result (self.new.rows ≡ self.old.rows) }
    {
        let count = count_with(self.count, &batch)?;
        self.batches.push(batch)?;
        self.count = count;
        Ok(())
    }

    /// The values of one column, row by row: those of all batches end to end.
    pub fn column(&self, alloc: Global, j: usize) -> Result<Column, AllocError>
        requires { j < self.now.width }
        ensures { IfOk result (λ c. c ≡ column_at self.now.rows j) }
    {
        whole_column(alloc, self.batches.as_slice(), j, self.count)
    }

    /// All rows as one batch: further shares of stored columns where there is one batch, copies of
    /// others.
    pub fn whole(&self, alloc: Global) -> Result<Batch, AllocError>
        ensures width { IfOk result (λ b. b.width ≡ self.now.width) }
        ensures rows { IfOk result (λ b. b.rows ≡ self.now.rows) }
    {
        let batches = self.batches.as_slice();
        if batches.len() == 1 {
            let only = batches[0].share(alloc)?;
            return Ok(only);
        }
        let columns = whole_columns(alloc, batches, self.width, self.count)?;
        let standings = whole_standings(alloc, batches)?;
        Ok(Batch::with_standings(columns, standings))
    }

    /// All rows of a table, in batches that share its columns.
    pub fn from_rows(alloc: Global, width: usize, rows: &Rows) -> Result<Bag, AllocError>
        requires { All (λ row. length row ≡ width) rows.now }
        ensures width { IfOk result (λ b. b.width ≡ width) }
        ensures rows { IfOk result (λ b. b.rows ≡ standing_rows rows.now) }
    {
        let mut bag = Bag::new(alloc, width);
        let segments = rows.segments();
        for segment in segments {
            let batch = segment.batch().share(alloc)?;
            bag.push(batch)?;
        }
        Ok(bag)
    }
}

// A count with the rows of a batch, which are of its width.
fn count_with(count: usize, batch: &Batch) -> Result<usize, AllocError>
    ensures value { IfOk result (λ n. n ≡ count + length batch.now.rows) }
    ensures wide { All (λ r. length r.values ≡ batch.now.width) batch.now.rows }
{
    let _width = batch.width();
    count.checked_add(batch.len()).ok_or(AllocError)
}

// The values of one column of batches, end to end, `count` in all.
fn whole_column(
    alloc: Global,
    batches: &[Batch],
    j: usize,
    count: usize,
) -> Result<Column, AllocError>
    requires { All (λ b. j < b.width) batches.now }
    ensures { IfOk result (λ c. c ≡ column_at (bag_rows batches.now) j) }
{
    if batches.is_empty() {
        return Ok(Column::from_values(Vec::new(alloc)));
    }
    let first = batches[0].column(j);
    if batches.len() == 1 {
        return first.share(alloc);
    }
    let mut whole = ColumnBuilder::like(alloc, first, count)?;
    for batch in batches {
        whole.append(alloc, batch.column(j))?;
    }
    Ok(whole.finish())
}

// The columns of batches of that width, end to end.
fn whole_columns(
    alloc: Global,
    batches: &[Batch],
    width: usize,
    count: usize,
) -> Result<Vec<Column>, AllocError>
    requires { AreWide width batches.now }
    ensures { IfOk result (λ v. v.items ≡ first_columns (bag_rows batches.now) width) }
{
    let mut columns = Vec::with_capacity(alloc, width)?;
    for j in 0..width {
        let column = whole_column(alloc, batches, j, count)?;
        columns.push(column)?;
    }
    Ok(columns)
}

// The standings of the rows of batches, end to end.
fn whole_standings(alloc: Global, batches: &[Batch]) -> Result<Standings, AllocError>
    ensures { IfOk result (λ s. map standing_rank s
        ≡ map (λ r. r.standing) (bag_rows batches.now)) }
{
    let mut whole = Standings::all_true(0);
    for batch in batches {
        whole.append(alloc, batch.standings())?;
    }
    Ok(whole)
}
