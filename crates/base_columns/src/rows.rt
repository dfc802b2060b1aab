//! The rows of a table.
ghost use Rattle.std.specs.Prelude.{◌≡◌, ◌<◌, ◌++◌, ◌==◌, ◌+◌, ◌^◌, [], IfOk, OnOk, OnErr, length};
ghost use Rattle.std.specs.Prelude.{take, slice_index_or};
ghost use Rattle.base_columns.specs.Lists.{one_list};

use crate::segment::Segment;
use base_value::{Row, Value};
use std::alloc::{AllocError, Global};
use std::marker::Model;

/// Rows that lie in shared segments, seen as the list of the rows' values.
#[derive(Drop)]
pub struct Rows {
    segments: Vec<Segment>,
    // How many rows the segments have together.
    count: usize,
}

impl Model for Rows {
    ghost use Rattle.std.specs.Prelude.{◌≡◌, List, length};
    ghost use Rattle.base_value.specs.declared.value.Value.{Value as Datum};
    ghost use Rattle.base_columns.specs.Lists.{one_list};

    ghost Value = { List (List Datum) };

    ghost view = { λ r. one_list r.segments.items };

    ghost invariant = { λ r. r.count ≡ length (one_list r.segments.items) };
}

#[tactic(auto, using(crate::proofs::RowLists::rows))]
impl Rows {
    /// No rows.
    pub fn new(alloc: Global) -> Rows
        ensures { result ≡ [] }
    {
        Rows {
            segments: Vec::new(alloc),
            count: 0,
        }
    }

    // The rows of these segments, `count` in all.
    pub(crate) fn from_segments(segments: Vec<Segment>, count: usize) -> Rows
        requires { count ≡ length (one_list segments.items) }
        ensures { result ≡ one_list segments.items }
    {
        Rows { segments, count }
    }

    /// How many rows there are.
    pub fn len(&self) -> usize
        ensures { result ≡ length self.now }
    {
        self.count
    }

    /// Whether there is no row.
    pub fn is_empty(&self) -> bool
        ensures { result ≡ (length self.now == 0) }
    {
        self.count == 0
    }

    /// The segments, in the order of their rows.
    pub fn segments(&self) -> &[Segment]
        ensures { self.now ≡ one_list result.now }
    {
        self.segments.as_slice()
    }

    /// The rows of a segment at the end. More rows than a usize counts are an error, as memory that
    /// isn't there.
    pub fn push(&mut self, segment: Segment) -> Result<(), AllocError>
        ensures ok { OnOk result (self.new ≡ self.old ++ segment) }
        ensures err { OnErr result (self.new ≡ self.old) }
    {
        let count = self.count.checked_add(segment.len()).ok_or(AllocError)?;
        self.segments.push(segment)?;
        self.count = count;
        Ok(())
    }

    /// The values of a row, counted from 0.
    pub fn row(&self, alloc: Global, i: usize) -> Result<Vec<Value>, AllocError>
        requires { i < length self.now }
        ensures { IfOk result (λ row. row.items ≡ slice_index_or self.now i []) }
    {
        let segments = self.segments.as_slice();
        let mut left = i;
        for segment in segments {
            if left < segment.len() {
                return segment.row(alloc, left);
            }
            left -= segment.len();
        }
        Ok(Vec::new(alloc))
    }

    /// The rows, each as a row of its own.
    pub fn to_rows(&self, alloc: Global) -> Result<Vec<Row>, AllocError>
        ensures { IfOk result (λ rows. rows.items ≡ self.now) }
    {
        let segments = self.segments.as_slice();
        let mut rows = Vec::with_capacity(alloc, self.count)?;
        for segment in segments {
            segment.put_rows(alloc, &mut rows)?;
        }
        Ok(rows)
    }
}

impl Clone for Rows {
    ghost is_clone = { λ r s. s ≡ r };

    fn clone(&self) -> Result<Rows, AllocError>
        ensures { IfOk result (λ r. r ≡ self.now) }
    {
        let segments = self.segments.clone()?;
        Ok(Rows {
            segments,
            count: self.count,
        })
    }
}
