//! Cells side by side.
ghost use Rattle.std.specs.Prelude.{◌≡◌, ◌++◌, ◌<◌, ◌≤◌, ◌-◌, IfOk, OnOk, Some, length, map};
ghost use Rattle.std.specs.Prelude.{replicate, slice_get};
ghost use Rattle.base_row_laws.specs.Ranked.{true_rank};
ghost use Rattle.base_decimal.specs.Tally.{no_terms};
ghost use Rattle.store_groups.specs.Groups.{HaveValues, are_plain, cell, with_values};
ghost use Rattle.store_groups.specs.Groups.{without_values};
ghost use Rattle.store_groups.specs.Shelves.{part_of, with_part};
ghost use Rattle.store_groups.specs.Stored.{cell_in};

use crate::cell::Cell;
use crate::row_values::{put_large, put_small, remove_large, remove_small};
use crate::small_cell::SmallCell;
use base_value::Value;
use std::alloc::{AllocError, Global};
use std::marker::Model;

// All are small, or all are large.
#[derive(Drop)]
enum Kept {
    Small(Vec<SmallCell>),
    Large(Vec<Cell>),
}

/// Cells, seen as their list. They are of one form, so that a copy of them is a copy of bytes, and
/// of few bytes as long as they can.
pub(crate) struct Cells {
    kept: Kept,
}

// By hand, so that each place that drops them has a call in its proof, and no match over the forms.
impl Drop for Cells {
    #[inline]
    fn drop(self) {
        let Cells { kept } = self;
        drop(kept);
    }
}

impl Model for Cells {
    ghost use Rattle.std.specs.Prelude.{List};
    ghost use Rattle.store_groups.specs.Groups.{Cell as Seen};
    ghost use Rattle.store_groups.specs.Stored.{kept_cells};

    ghost Value = { List Seen };

    ghost view = { λ c. kept_cells c.kept };
}

// The same, lent.
#[derive(Clone, Copy)]
enum Lent<'a> {
    Small(&'a [SmallCell]),
    Large(&'a [Cell]),
}

/// Some of the cells where they lie, seen as their list.
#[derive(Drop)]
pub(crate) struct CellsRef<'a> {
    lent: Lent<'a>,
}

impl<'a> Model for CellsRef<'a> {
    ghost use Rattle.std.specs.Prelude.{List};
    ghost use Rattle.store_groups.specs.Groups.{Cell as Seen};
    ghost use Rattle.store_groups.specs.Stored.{lent_cells};

    ghost Value = { List Seen };

    ghost view = { λ c. lent_cells c.lent };
}

// So many small cells of no values.
fn no_cells(alloc: Global, count: usize) -> Result<Vec<SmallCell>, AllocError>
    ensures { IfOk result (λ cs. cs.items ≡ replicate count (cell true_rank no_terms)) }
{
    let mut all = Vec::with_capacity(alloc, count)?;
    for _i in 0..count {
        all.push(SmallCell::none())?;
    }
    Ok(all)
}

// Puts large cells of small ones after others.
fn put_enlarged(cells: &[SmallCell], all: &mut Vec<Cell>) -> Result<(), AllocError>
    ensures { OnOk result (map cell_in all.new.items ≡ map cell_in all.old.items ++ cells.now) }
{
    for cell in cells {
        all.push(cell.enlarged())?;
    }
    Ok(())
}

// Large cells of small ones.
fn enlarged(alloc: Global, cells: &[SmallCell]) -> Result<Vec<Cell>, AllocError>
    ensures { IfOk result (λ cs. map cell_in cs.items ≡ cells.now) }
{
    let mut all = Vec::with_capacity(alloc, cells.len())?;
    put_enlarged(cells, &mut all)?;
    Ok(all)
}

// Whether the sums of small cells are numbers, which they are.
fn are_small_plain(cells: &[SmallCell]) -> bool
    ensures { result ≡ are_plain cells.now }
{
    for cell in cells {
        if !cell.is_plain() {
            return false;
        }
    }
    true
}

// Whether no fault is among the values of any cell, and the sums are numbers.
fn are_large_plain(cells: &[Cell]) -> bool
    ensures { result ≡ are_plain (map cell_in cells.now) }
{
    for cell in cells {
        if !cell.is_plain() {
            return false;
        }
    }
    true
}

// Puts the values of a row into those of large cells from one place to another.
fn put_large_part(
    cells: &mut Vec<Cell>,
    start: usize,
    end: usize,
    values: &[Value],
) -> Result<(), AllocError>
    requires order { start ≤ end }
    requires within { end ≤ length cells.old.items }
    requires long { length values.now ≡ end - start }
    ensures long { length cells.new.items ≡ length cells.old.items }
    ensures put { OnOk result (map cell_in cells.new.items ≡ with_part start end (with_values
        (part_of start end (map cell_in cells.old.items)) values.now) (map cell_in cells.old.items)) }
{
    put_large(&mut cells[start..end], values)?;
    Ok(())
}

// Takes the values of a row out of those of large cells from one place to another.
fn remove_large_part(cells: &mut Vec<Cell>, start: usize, end: usize, values: &[Value])
    requires order { start ≤ end }
    requires within { end ≤ length cells.old.items }
    requires long { length values.now ≡ end - start }
    requires have { HaveValues (part_of start end (map cell_in cells.old.items)) values.now }
    ensures long { length cells.new.items ≡ length cells.old.items }
    ensures removed { map cell_in cells.new.items ≡ with_part start end (without_values
        (part_of start end (map cell_in cells.old.items)) values.now) (map cell_in cells.old.items) }
{
    remove_large(&mut cells[start..end], values);
}

// The cell at a place of small ones.
fn small_at(cells: &[SmallCell], i: usize) -> Cell
    requires { i < length cells.now }
    ensures { slice_get cells.now i ≡ Some (cell_in result) }
{
    cells[i].enlarged()
}

// The cell at a place of large ones.
fn large_at(cells: &[Cell], i: usize) -> Cell
    requires { i < length cells.now }
    ensures { slice_get (map cell_in cells.now) i ≡ Some (cell_in result) }
{
    cells[i]
}

// Small cells, and others after them.
fn joined(
    alloc: Global,
    cells: &[SmallCell],
    more: &[SmallCell],
) -> Result<Vec<SmallCell>, AllocError>
    ensures { IfOk result (λ all. all.items ≡ cells.now ++ more.now) }
{
    let mut all = Vec::with_capacity(alloc, cells.len() + more.len())?;
    all.extend_from_slice(cells)?;
    all.extend_from_slice(more)?;
    Ok(all)
}

impl Cells {
    /// So many cells of no values.
    pub(crate) fn none(alloc: Global, count: usize) -> Result<Cells, AllocError>
        ensures { IfOk result (λ cs. cs ≡ replicate count (cell true_rank no_terms)) }
    {
        let cells = no_cells(alloc, count)?;
        Ok(Cells {
            kept: Kept::Small(cells),
        })
    }

    /// How many there are.
    pub(crate) fn len(&self) -> usize
        ensures { result ≡ length self.now }
    {
        match &self.kept {
            Kept::Small(cells) => cells.len(),
            Kept::Large(cells) => cells.len(),
        }
    }

    /// All of them, where they lie.
    pub(crate) fn all(&self) -> CellsRef<'_>
        ensures { result ≡ self.now }
    {
        let lent = match &self.kept {
            Kept::Small(cells) => Lent::Small(cells.as_slice()),
            Kept::Large(cells) => Lent::Large(cells.as_slice()),
        };
        CellsRef { lent }
    }

    /// Those from one place to another, where they lie.
    pub(crate) fn part(&self, start: usize, end: usize) -> CellsRef<'_>
        requires order { start ≤ end }
        requires within { end ≤ length self.now }
        ensures { result ≡ part_of start end self.now }
    {
        match &self.kept {
            Kept::Small(cells) => CellsRef {
                lent: Lent::Small(&cells[start..end]),
            },
            Kept::Large(cells) => CellsRef {
                lent: Lent::Large(&cells[start..end]),
            },
        }
    }

    /// Puts the values of a row into those from one place to another. Want of memory may spoil
    /// these.
    pub(crate) fn put_values(
        &mut self,
        alloc: Global,
        start: usize,
        end: usize,
        values: &[Value],
    ) -> Result<(), AllocError>
        requires order { start ≤ end }
        requires within { end ≤ length self.old }
        requires long { length values.now ≡ end - start }
        ensures long { length self.new ≡ length self.old }
        ensures put { OnOk result (self.new ≡ with_part start end
            (with_values (part_of start end self.old) values.now) self.old) }
    {
        let large = match &mut self.kept {
            Kept::Large(cells) => return put_large_part(cells, start, end, values),
            Kept::Small(cells) => {
                if put_small(&mut cells[start..end], values) {
                    return Ok(());
                }
                let mut large = enlarged(alloc, cells.as_slice())?;
                put_large_part(&mut large, start, end, values)?;
                large
            }
        };
        self.kept = Kept::Large(large);
        Ok(())
    }

    /// Takes the values of one of their rows out of those from one place to another.
    pub(crate) fn remove_values(&mut self, start: usize, end: usize, values: &[Value])
        requires order { start ≤ end }
        requires within { end ≤ length self.old }
        requires long { length values.now ≡ end - start }
        requires have { HaveValues (part_of start end self.old) values.now }
        ensures long { length self.new ≡ length self.old }
        ensures removed { self.new ≡ with_part start end
            (without_values (part_of start end self.old) values.now) self.old }
    {
        match &mut self.kept {
            Kept::Small(cells) => remove_small(&mut cells[start..end], values),
            Kept::Large(cells) => remove_large_part(cells, start, end, values),
        }
    }
}

impl<'a> CellsRef<'a> {
    /// How many there are.
    pub(crate) fn len(&self) -> usize
        ensures { result ≡ length self.now }
    {
        match self.lent {
            Lent::Small(cells) => cells.len(),
            Lent::Large(cells) => cells.len(),
        }
    }

    /// The cell at a place.
    pub(crate) fn at(&self, i: usize) -> Cell
        requires { i < length self.now }
        ensures { slice_get self.now i ≡ Some (cell_in result) }
    {
        match self.lent {
            Lent::Small(cells) => small_at(cells, i),
            Lent::Large(cells) => large_at(cells, i),
        }
    }

    /// Whether no fault is among the values of any cell, and the sums are numbers.
    pub(crate) fn are_plain(&self) -> bool
        ensures { result ≡ are_plain self.now }
    {
        match self.lent {
            Lent::Small(cells) => are_small_plain(cells),
            Lent::Large(cells) => are_large_plain(cells),
        }
    }

    // Puts them as large cells after others.
    fn put_large_copies(&self, all: &mut Vec<Cell>) -> Result<(), AllocError>
        ensures { OnOk result (map cell_in all.new.items ≡ map cell_in all.old.items ++ self.now) }
    {
        match self.lent {
            Lent::Small(cells) => put_enlarged(cells, all),
            Lent::Large(cells) => all.extend_from_slice(cells),
        }
    }

    /// Copies of them, and of others after them.
    pub(crate) fn with(&self, alloc: Global, more: &CellsRef<'_>) -> Result<Cells, AllocError>
        ensures { IfOk result (λ cs. cs ≡ self.now ++ more.now) }
    {
        let kept = match (self.lent, more.lent) {
            (Lent::Small(cells), Lent::Small(more)) => Kept::Small(joined(alloc, cells, more)?),
            _ => {
                let mut all = Vec::new(alloc);
                self.put_large_copies(&mut all)?;
                more.put_large_copies(&mut all)?;
                Kept::Large(all)
            }
        };
        Ok(Cells { kept })
    }

    /// Copies of them.
    pub(crate) fn copy(&self, alloc: Global) -> Result<Cells, AllocError>
        ensures { IfOk result (λ cs. cs ≡ self.now) }
    {
        let kept = match self.lent {
            Lent::Small(cells) => Kept::Small(Vec::from_slice(alloc, cells)?),
            Lent::Large(cells) => Kept::Large(Vec::from_slice(alloc, cells)?),
        };
        Ok(Cells { kept })
    }
}
