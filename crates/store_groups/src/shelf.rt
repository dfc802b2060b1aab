//! Groups side by side, so that a copy of them all is a copy of two slices.
ghost use Rattle.std.specs.Prelude.{◌≡◌, ◌++◌, ◌∷◌, ◌+◌, ◌<◌, ◌≤◌, ◌^◌, [], IfOk, OnOk};
ghost use Rattle.std.specs.Prelude.{Some, length, remove, set, slice_get, take};
ghost use Rattle.base_value.specs.Truth.{standing_rank};
ghost use Rattle.store_groups.specs.Groups.{Group as Kept, HasRow, with_row, without_row};
ghost use Rattle.store_groups.specs.Shelves.{total};

use crate::cells::Cells;
use crate::group::GroupRef;
use crate::head::Head;
use base_value::{Standing, Value};
use std::alloc::{AllocError, Global};
use std::marker::Model;

/// Groups, seen as their list. The cells of one lie after those of the groups before it.
#[derive(Drop)]
pub(crate) struct Shelf {
    heads: Vec<Head>,
    cells: Cells,
}

impl Model for Shelf {
    ghost use Rattle.std.specs.Prelude.{◌≡◌, List, length};
    ghost use Rattle.store_groups.specs.Groups.{Group as Kept};
    ghost use Rattle.store_groups.specs.Shelves.{groups_in, total};

    ghost Value = { List Kept };

    ghost view = { λ s. groups_in s.heads.items s.cells };

    ghost invariant = { λ s. total s.heads.items ≡ length s.cells };
}

// How many cells the first groups have.
fn start_of(heads: &[Head], i: usize) -> usize
    requires within { i ≤ length heads.now }
    requires fits { total heads.now < 2 ^ 64 }
    ensures { result ≡ total (take i heads.now) }
{
    let mut start = 0;
    for j in 0..i {
        start += heads[j].count;
    }
    start
}

/// Where the cells of a group lie.
#[derive(Clone, Copy)]
struct Span {
    start: usize,
    end: usize,
}

// Where the cells of the group at a place lie.
fn span_of(heads: &[Head], cells: &Cells, i: usize) -> Span
    requires within { i < length heads.now }
    requires full { total heads.now ≡ length cells.now }
    ensures start { result.start ≡ total (take i heads.now) }
    ensures end { result.end ≡ total (take (i + 1) heads.now) }
    ensures within { result.end ≤ length cells.now }
    ensures order { result.start ≤ result.end }
{
    let _many = cells.len();
    let start = start_of(heads, i);
    let end = start + heads[i].count;
    Span { start, end }
}

impl Shelf {
    /// No groups.
    pub(crate) fn none(alloc: Global) -> Result<Shelf, AllocError>
        ensures { IfOk result (λ s. s ≡ []) }
    {
        let cells = Cells::none(alloc, 0)?;
        Ok(Shelf {
            heads: Vec::new(alloc),
            cells,
        })
    }

    /// A copy of them.
    pub(crate) fn copy(&self, alloc: Global) -> Result<Shelf, AllocError>
        ensures { IfOk result (λ s. s ≡ self.now) }
    {
        let heads = Vec::from_slice(alloc, self.heads.as_slice())?;
        let cells = self.cells.all().copy(alloc)?;
        Ok(Shelf { heads, cells })
    }

    /// How many there are.
    pub(crate) fn len(&self) -> usize
        ensures { result ≡ length self.now }
    {
        self.heads.len()
    }

    /// The group at a place.
    pub(crate) fn group(&self, i: usize) -> GroupRef<'_>
        requires { i < length self.now }
        ensures { slice_get self.now i ≡ Some result }
    {
        let span = span_of(self.heads.as_slice(), &self.cells, i);
        let head = self.heads[i];
        let cells = self.cells.part(span.start, span.end);
        GroupRef::new(head.rows, head.least, cells)
    }

    /// Puts a row into the group at a place. Want of memory may spoil the group.
    pub(crate) fn put_row(
        &mut self,
        alloc: Global,
        i: usize,
        arguments: &[Value],
        standing: Standing,
    ) -> Result<(), AllocError>
        requires within { i < length self.old }
        requires long { (g : Kept) → slice_get self.old i ≡ Some g
            → length arguments.now ≡ length g.cells }
        ensures many { length self.new ≡ length self.old }
        ensures set { OnOk result ((g : Kept) → slice_get self.old i ≡ Some g
            → self.new ≡ set self.old i (with_row g arguments.now (standing_rank standing))) }
    {
        let span = span_of(self.heads.as_slice(), &self.cells, i);
        let mut head = self.heads[i];
        head.put(standing)?;
        self.heads[i] = head;
        self.cells
            .put_values(alloc, span.start, span.end, arguments)?;
        Ok(())
    }

    /// Takes one of its rows out of the group at a place.
    pub(crate) fn remove_row(&mut self, i: usize, arguments: &[Value])
        requires within { i < length self.old }
        requires long { (g : Kept) → slice_get self.old i ≡ Some g
            → length arguments.now ≡ length g.cells }
        requires has { (g : Kept) → slice_get self.old i ≡ Some g → HasRow g arguments.now }
        ensures { (g : Kept) → slice_get self.old i ≡ Some g
            → self.new ≡ set self.old i (without_row g arguments.now) }
    {
        let span = span_of(self.heads.as_slice(), &self.cells, i);
        let mut head = self.heads[i];
        head.rows -= 1;
        self.heads[i] = head;
        self.cells.remove_values(span.start, span.end, arguments);
    }

    /// The same groups and one more after them.
    pub(crate) fn with(&self, alloc: Global, group: &GroupRef<'_>) -> Result<Shelf, AllocError>
        ensures { IfOk result (λ s. s ≡ self.now ++ group.now ∷ []) }
    {
        let mut heads = Vec::with_capacity(alloc, self.heads.len() + 1)?;
        heads.extend_from_slice(self.heads.as_slice())?;
        heads.push(group.head())?;
        let cells = self.cells.all().with(alloc, group.cells())?;
        Ok(Shelf { heads, cells })
    }

    /// The same groups but for the one at a place.
    pub(crate) fn without(&self, alloc: Global, i: usize) -> Result<Shelf, AllocError>
        requires { i < length self.now }
        ensures { IfOk result (λ s. s ≡ remove self.now i) }
    {
        let span = span_of(self.heads.as_slice(), &self.cells, i);
        let mut heads = Vec::from_slice(alloc, self.heads.as_slice())?;
        let _head = heads.remove(i);
        let before = self.cells.part(0, span.start);
        let after = self.cells.part(span.end, self.cells.len());
        let cells = before.with(alloc, &after)?;
        Ok(Shelf { heads, cells })
    }
}
