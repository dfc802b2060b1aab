//! Rows of one width with their standings, kept column by column.
ghost use Rattle.std.specs.Prelude.{◌≡◌, ℕ, ◌+◌, ◌-◌, ◌<◌, ◌≤◌, ◌^◌, ◌==◌, min, List, IfOk, OnOk};
ghost use Rattle.std.specs.Prelude.{IsTrue, length, ◌++◌, [], map, slice_index_or, replicate};
ghost use Rattle.std.specs.List.{All};
ghost use Rattle.base_row_laws.specs.Ranked.{ranked, true_rank};
ghost use Rattle.base_row_laws.specs.Rows.{keep, strip};
ghost use Rattle.base_row_laws.specs.Operators.{select};
ghost use Rattle.base_value.specs.declared.truth.Standing.TheVariants.{AtTrue as True};
ghost use Rattle.base_value.specs.declared.value.Value.{Value as Datum};
ghost use Rattle.base_value.specs.declared.value.Value.TheVariants.{Null};
ghost use Rattle.base_value.specs.Truth.{standing_rank, truth_rank};
ghost use Rattle.base_columns.specs.Batches.{cells, row_at, column_at, AreLong, column_relation};
ghost use Rattle.base_columns.specs.Batches.{projected};
ghost use Rattle.base_columns.specs.Lists.{gathered, AreBelow};
ghost use Rattle.base_columns.specs.Selections.{rows_at, IsKept};

use crate::column::Column;
use crate::standings::Standings;
use base_value::{Standing, Truth, Value};
use std::alloc::{AllocError, Global};
use std::marker::Model;

/// Rows with standings, seen as their width and the list of the rows.
#[derive(Drop)]
pub struct Batch {
    pub(crate) columns: Vec<Column>,
    pub(crate) standings: Standings,
}

impl Model for Batch {
    ghost use Rattle.std.specs.Prelude.{length};
    ghost use Rattle.base_row_laws.specs.Ranked.{Relation};
    ghost use Rattle.base_value.specs.declared.value.Value.{Value as Datum};
    ghost use Rattle.base_columns.specs.Batches.{column_relation, AreLong};

    ghost Value = { Relation Datum };

    ghost view = { λ b. column_relation b.columns.items b.standings };

    ghost invariant = { λ b. AreLong (length b.standings) b.columns.items };
}

#[tactic(auto, using(crate::proofs::BatchRows::batches))]
impl Batch {
    /// The rows of these columns, which are alike long, with one standing each.
    pub fn of(columns: Vec<Column>, standings: Vec<Standing>) -> Batch
        requires { AreLong (length standings.items) columns.items }
        ensures { result ≡ column_relation columns.items standings.items }
    {
        Batch {
            columns,
            standings: Standings::each(standings),
        }
    }

    /// The n rows of these columns, all at True.
    pub fn of_true(columns: Vec<Column>, n: usize) -> Batch
        requires { AreLong n columns.items }
        ensures { result ≡ column_relation columns.items (replicate n True) }
    {
        Batch {
            columns,
            standings: Standings::all_true(n),
        }
    }

    // The rows of these columns with these standings.
    pub(crate) fn with_standings(columns: Vec<Column>, standings: Standings) -> Batch
        requires { AreLong (length standings) columns.items }
        ensures { result ≡ column_relation columns.items standings }
    {
        Batch { columns, standings }
    }

    /// How many values each row has.
    pub fn width(&self) -> usize
        ensures value { result ≡ self.now.width }
        ensures wide { All (λ r. length r.values ≡ self.now.width) self.now.rows }
    {
        self.columns.len()
    }

    /// How many rows there are.
    pub fn len(&self) -> usize
        ensures { result ≡ length self.now.rows }
    {
        self.standings.len()
    }

    /// Whether there is no row.
    pub fn is_empty(&self) -> bool
        ensures { result ≡ (length self.now.rows == 0) }
    {
        self.len() == 0
    }

    /// The values of one column, row by row.
    pub fn column(&self, j: usize) -> &Column
        requires { j < self.now.width }
        ensures { result.now ≡ column_at self.now.rows j }
    {
        &self.columns[j]
    }

    /// How a row stands.
    pub fn standing(&self, i: usize) -> Standing
        requires { i < length self.now.rows }
        ensures { standing_rank result ≡ (row_at self.now.rows i).standing }
    {
        self.standings.at(i)
    }

    // How the rows stand.
    pub(crate) fn standings(&self) -> &Standings
        ensures { map standing_rank result.now ≡ map (λ r. r.standing) self.now.rows }
    {
        &self.standings
    }

    /// The values of a row, counted from 0.
    pub fn row(&self, alloc: Global, i: usize) -> Result<Vec<Value>, AllocError>
        requires { i < length self.now.rows }
        ensures { IfOk result (λ row. row.items ≡ (row_at self.now.rows i).values) }
    {
        cells(alloc, self.columns.as_slice(), i)
    }

    /// The rows that the truths of a condition keep: each at the lesser of its standing and its
    /// truth.
    pub fn select(&self, alloc: Global, truths: &[Truth]) -> Result<Batch, AllocError>
        requires long { length truths.now ≡ length self.now.rows }
        requires short { length self.now.rows < 2 ^ 32 }
        ensures width { IfOk result (λ b. b.width ≡ self.now.width) }
        ensures rows { IfOk result
            (λ b. (c : List Datum → ℕ)
            → map truth_rank truths.now ≡ map (λ r. c r.values) self.now.rows
            → b.rows ≡ select c self.now.rows) }
    {
        let kept = kept_places(alloc, &self.standings, truths)?;
        let (places, standings) = kept;
        let columns = gather_columns(alloc, self.columns.as_slice(), places.as_slice())?;
        Ok(Batch { columns, standings })
    }

    /// The same of a batch that isn't needed any more, which is itself the result where each truth
    /// is True.
    pub fn keep(self, alloc: Global, truths: &[Truth]) -> Result<Batch, AllocError>
        requires long { length truths.now ≡ length self.rows }
        requires short { length self.rows < 2 ^ 32 }
        ensures width { IfOk result (λ b. b.width ≡ self.width) }
        ensures rows { IfOk result
            (λ b. (c : List Datum → ℕ)
            → map truth_rank truths.now ≡ map (λ r. c r.values) self.rows
            → b.rows ≡ select c self.rows) }
    {
        // A field that is used tells how the rows stand.
        let _standings = &self.standings;
        if are_all_true(truths) {
            return Ok(self);
        }
        self.select(alloc, truths)
    }

    /// The rows at these places, in their order.
    pub fn gather(&self, alloc: Global, places: &[u32]) -> Result<Batch, AllocError>
        requires { AreBelow (length self.now.rows) places.now }
        ensures width { IfOk result (λ b. b.width ≡ self.now.width) }
        ensures rows { IfOk result
            (λ b. b.rows ≡ gathered (ranked [] true_rank) self.now.rows places.now) }
    {
        let columns = gather_columns(alloc, self.columns.as_slice(), places)?;
        let standings = self.standings.gather(alloc, places)?;
        Ok(Batch { columns, standings })
    }

    /// The rows at these places, in their order, without the first n columns.
    #[tactic(auto, using(crate::proofs::BatchRows::batches, crate::proofs::WiderRows::wider))]
    pub fn gather_after(&self, alloc: Global, n: usize, places: &[u32]) -> Result<Batch, AllocError>
        requires below { AreBelow (length self.now.rows) places.now }
        requires there { n ≤ self.now.width }
        ensures width { IfOk result (λ b. b.width ≡ self.now.width - n) }
        ensures rows { IfOk result
            (λ b. b.rows
            ≡ map (strip n) (gathered (ranked [] true_rank) self.now.rows places.now)) }
    {
        let columns = gather_columns(alloc, &self.columns.as_slice()[n..], places)?;
        let standings = self.standings.gather(alloc, places)?;
        Ok(Batch { columns, standings })
    }

    /// The rows of these columns alone, in this order: further shares of stored columns, copies of
    /// others.
    pub fn project(&self, alloc: Global, places: &[u32]) -> Result<Batch, AllocError>
        requires { AreBelow self.now.width places.now }
        ensures width { IfOk result (λ b. b.width ≡ length places.now) }
        ensures rows { IfOk result (λ b. b.rows ≡ map (projected places.now) self.now.rows) }
    {
        let columns = picked_columns(alloc, self.columns.as_slice(), places)?;
        let standings = self.standings.copy(alloc)?;
        Ok(Batch { columns, standings })
    }

    /// The same rows: further shares of stored columns, copies of others.
    pub fn share(&self, alloc: Global) -> Result<Batch, AllocError>
        ensures { IfOk result (λ b. b ≡ self.now) }
    {
        let columns = shared_columns(alloc, self.columns.as_slice())?;
        let standings = self.standings.copy(alloc)?;
        Ok(Batch { columns, standings })
    }
}

// The values of a place, one of each column.
fn cells(alloc: Global, columns: &[Column], i: usize) -> Result<Vec<Value>, AllocError>
    requires { All (λ c. i < length c) columns.now }
    ensures { IfOk result (λ row. row.items ≡ cells columns.now i) }
{
    let mut row = Vec::with_capacity(alloc, columns.len())?;
    for column in columns {
        let value = column.at(alloc, i)?;
        row.push(value)?;
    }
    Ok(row)
}

// Whether each truth is True.
fn are_all_true(truths: &[Truth]) -> bool
    ensures { IsTrue result → map truth_rank truths.now ≡ replicate (length truths.now) true_rank }
{
    for truth in truths {
        if *truth != Truth::Stands(Standing::AtTrue) {
            return false;
        }
    }
    true
}

// One row more, if its truth keeps it.
#[tactic(auto, using(crate::proofs::Kept::puts))]
fn put_kept(
    alloc: Global,
    places: &mut Vec<u32>,
    kept: &mut Standings,
    i: u32,
    standing: Standing,
    truth: Truth,
) -> Result<(), AllocError>
    requires long { length places.old.items ≡ length kept.old }
    requires below { AreBelow i places.old.items }
    ensures long { OnOk result (length places.new.items ≡ length kept.new) }
    ensures below { OnOk result (AreBelow (i + 1) places.new.items) }
    ensures rows { OnOk result
        ((row : ℕ → List Datum)
        → rows_at row places.new.items kept.new
        ≡ rows_at row places.old.items kept.old
        ++ keep (row i) (min (standing_rank standing) (truth_rank truth))) }
{
    if let Some(standing) = truth.kept(standing) {
        places.push(i)?;
        kept.push(alloc, standing)?;
    }
    Ok(())
}

// The places of the rows that the truths keep, and their standings.
fn kept_places(
    alloc: Global,
    standings: &Standings,
    truths: &[Truth],
) -> Result<(Vec<u32>, Standings), AllocError>
    requires long { length truths.now ≡ length standings.now }
    requires short { length standings.now < 2 ^ 32 }
    ensures { IfOk result (λ k. IsKept standings.now truths.now k.0.items k.1) }
{
    let mut places = Vec::new(alloc);
    let mut kept = Standings::all_true(0);
    for i in 0..truths.len() {
        put_kept(
            alloc,
            &mut places,
            &mut kept,
            i as u32,
            standings.at(i),
            truths[i],
        )?;
    }
    Ok((places, kept))
}

// Each column once more.
fn shared_columns(alloc: Global, columns: &[Column]) -> Result<Vec<Column>, AllocError>
    ensures { IfOk result (λ v. v.items ≡ columns.now) }
{
    let mut out = Vec::with_capacity(alloc, columns.len())?;
    for column in columns {
        let column = column.share(alloc)?;
        out.push(column)?;
    }
    Ok(out)
}

// The columns at these places.
fn picked_columns(
    alloc: Global,
    columns: &[Column],
    places: &[u32],
) -> Result<Vec<Column>, AllocError>
    requires { AreBelow (length columns.now) places.now }
    ensures { IfOk result (λ v. v.items ≡ gathered [] columns.now places.now) }
{
    let mut picked = Vec::with_capacity(alloc, places.len())?;
    for place in places {
        let column = columns[*place as usize].share(alloc)?;
        picked.push(column)?;
    }
    Ok(picked)
}

// Each column at these places.
fn gather_columns(
    alloc: Global,
    columns: &[Column],
    places: &[u32],
) -> Result<Vec<Column>, AllocError>
    requires { All (λ c. AreBelow (length c) places.now) columns.now }
    ensures { IfOk result (λ v. v.items ≡ map (λ c. gathered Null c places.now) columns.now) }
{
    let mut out = Vec::with_capacity(alloc, columns.len())?;
    for column in columns {
        let column = column.gather(alloc, places)?;
        out.push(column)?;
    }
    Ok(out)
}
