//! What is kept of a group of rows.
ghost use Rattle.std.specs.Prelude.{◌≡◌, ◌<◌, IfOk, OnOk, Some, length, slice_get};
ghost use Rattle.base_value.specs.Truth.{standing_rank};
ghost use Rattle.store_groups.specs.Groups.{group, is_faultless, no_rows, with_row};
ghost use Rattle.store_groups.specs.Stored.{cell_in};

use crate::cell::Cell;
use crate::cells::{Cells, CellsRef};
use crate::head::Head;
use base_value::{Standing, Value};
use std::alloc::{AllocError, Global};
use std::marker::Model;

/// How many rows, the least of their standings, and a cell for each aggregate.
#[derive(Drop)]
pub struct Group {
    rows: u64,
    least: Standing,
    cells: Cells,
}

impl Model for Group {
    ghost use Rattle.base_value.specs.Truth.{standing_rank};
    ghost use Rattle.store_groups.specs.Groups.{Group as Kept, group};

    ghost Value = { Kept };

    ghost view = { λ g. group g.rows (standing_rank g.least) g.cells };
}

/// A group where it lies.
#[derive(Drop)]
pub struct GroupRef<'a> {
    rows: u64,
    least: Standing,
    cells: CellsRef<'a>,
}

impl<'a> Model for GroupRef<'a> {
    ghost use Rattle.base_value.specs.Truth.{standing_rank};
    ghost use Rattle.store_groups.specs.Groups.{Group as Kept, group};

    ghost Value = { Kept };

    ghost view = { λ g. group g.rows (standing_rank g.least) g.cells };
}

impl Group {
    /// Of no rows, with so many cells.
    pub fn none(alloc: Global, count: usize) -> Result<Group, AllocError>
        ensures { IfOk result (λ g. g ≡ no_rows count) }
    {
        let cells = Cells::none(alloc, count)?;
        Ok(Group {
            rows: 0,
            least: Standing::AtTrue,
            cells,
        })
    }

    /// The group where it lies.
    pub fn seen(&self) -> GroupRef<'_>
        ensures { result ≡ self.now }
    {
        GroupRef {
            rows: self.rows,
            least: self.least,
            cells: self.cells.all(),
        }
    }

    /// Puts a row in, of these arguments. More rows than are counted are an error, as memory that
    /// isn't there.
    pub(crate) fn put(
        &mut self,
        alloc: Global,
        arguments: &[Value],
        standing: Standing,
    ) -> Result<(), AllocError>
        requires { length arguments.now ≡ length self.old.cells }
        ensures { OnOk result
            (self.new ≡ with_row self.old arguments.now (standing_rank standing)) }
    {
        self.rows = self.rows.checked_add(1).ok_or(AllocError)?;
        self.least = self.least.lesser(standing);
        self.cells.put_values(alloc, 0, arguments.len(), arguments)?;
        Ok(())
    }
}

impl<'a> GroupRef<'a> {
    /// The group of so many rows, of this least standing and these cells.
    pub(crate) fn new(rows: u64, least: Standing, cells: CellsRef<'a>) -> GroupRef<'a>
        ensures { result ≡ group rows (standing_rank least) cells.entry }
    {
        GroupRef { rows, least, cells }
    }

    /// A copy of it.
    pub(crate) fn copy(&self, alloc: Global) -> Result<Group, AllocError>
        ensures { IfOk result (λ g. g ≡ self.now) }
    {
        let cells = self.cells.copy(alloc)?;
        Ok(Group {
            rows: self.rows,
            least: self.least,
            cells,
        })
    }

    /// How many rows there are.
    pub fn len(&self) -> u64
        ensures { result ≡ self.now.rows }
    {
        self.rows
    }

    /// The least standing.
    pub fn standing(&self) -> Standing
        ensures { standing_rank result ≡ self.now.least }
    {
        self.least
    }

    /// How many cells there are.
    pub fn width(&self) -> usize
        ensures { result ≡ length self.now.cells }
    {
        self.cells.len()
    }

    /// The cell at a place.
    pub fn cell(&self, i: usize) -> Cell
        requires { i < length self.now.cells }
        ensures { slice_get self.now.cells i ≡ Some (cell_in result) }
    {
        self.cells.at(i)
    }

    /// The cells, where they lie.
    pub(crate) fn cells(&self) -> &CellsRef<'a>
        ensures { result.now ≡ self.now.cells }
    {
        &self.cells
    }

    /// What it has apart from the cells.
    pub(crate) fn head(&self) -> Head
        ensures rows { result.rows ≡ self.now.rows }
        ensures least { standing_rank result.least ≡ self.now.least }
        ensures count { result.count ≡ length self.now.cells }
    {
        Head {
            rows: self.rows,
            least: self.least,
            count: self.cells.len(),
        }
    }

    /// Whether no fault is in a standing, a value or a sum.
    pub(crate) fn is_faultless(&self) -> bool
        ensures { result ≡ is_faultless self.now }
    {
        matches!(self.least, Standing::AtTrue) && self.cells.are_plain()
    }
}
