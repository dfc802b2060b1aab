//! The values of an expression over the rows of a batch, where they lie.
ghost use Rattle.std.specs.Prelude.{◌≡◌, IfOk};
ghost use Rattle.exec_column_expr.specs.Lanes.{One, Each, over, kept_lanes, shape_lanes};

use base_columns::Column;
use base_value::Value;
use std::alloc::{AllocError, Global};
use std::marker::Model;

// One value for all rows, a column of the batch, or a column that was made.
#[derive(Drop)]
pub(crate) enum Kept<'a> {
    One(Value),
    Lent(&'a Column),
    Made(Column),
}

/// The values of an expression: one for all rows, or one for each.
pub(crate) struct Operand<'a> {
    kept: Kept<'a>,
}

// By hand, so that each place that drops one has a call in its proof, and no match over all forms
// of a column.
impl<'a> Drop for Operand<'a> {
    #[inline]
    fn drop(self) {
        let Operand { kept } = self;
        drop(kept);
    }
}

impl<'a> Model for Operand<'a> {
    ghost use Rattle.exec_column_expr.specs.Lanes.{Lanes, kept_lanes};

    ghost Value = { Lanes };

    ghost view = { λ o. kept_lanes o.kept };
}

/// The same, lent.
#[derive(Clone, Copy)]
pub(crate) enum Shape<'b> {
    One(&'b Value),
    Each(&'b Column),
}

impl<'a> Operand<'a> {
    /// One value for all rows.
    pub(crate) fn one(value: Value) -> Operand<'a>
        ensures { result ≡ One value }
    {
        Operand {
            kept: Kept::One(value),
        }
    }

    /// A column of the batch.
    pub(crate) fn lent(column: &'a Column) -> Operand<'a>
        ensures { result ≡ Each column.now }
    {
        Operand {
            kept: Kept::Lent(column),
        }
    }

    /// A column that was made.
    pub(crate) fn made(column: Column) -> Operand<'a>
        ensures { result ≡ Each column }
    {
        Operand {
            kept: Kept::Made(column),
        }
    }

    /// The values, lent.
    pub(crate) fn shape(&self) -> Shape<'_>
        ensures { shape_lanes result ≡ self.now }
    {
        match &self.kept {
            Kept::One(value) => Shape::One(value),
            Kept::Lent(column) => Shape::Each(column),
            Kept::Made(column) => Shape::Each(column),
        }
    }

    /// The values of n rows as a column: a further share of a stored column, and a copy of another
    /// one that is lent.
    pub(crate) fn into_column(self, alloc: Global, n: usize) -> Result<Column, AllocError>
        ensures { IfOk result (λ c. c ≡ over n self.entry) }
    {
        let Operand { kept } = self;
        match kept {
            Kept::One(value) => Column::repeated(alloc, &value, n),
            Kept::Lent(column) => column.share(alloc),
            Kept::Made(column) => Ok(column),
        }
    }
}
