//! A value of a row, of which nothing is copied.
ghost use Rattle.std.specs.Prelude.{◌≡◌};
ghost use Rattle.base_value.specs.Value.{kind_rank, value_cmp};
ghost use Rattle.exec_ordered_rows.specs.Cells.{cell_value};

use base_date::CivilDate;
use base_decimal::Scale;
use base_value::{Fault, Value};
use std::cmp::Ordering;

/// A value whose text lies elsewhere.
#[derive(Clone, Copy)]
pub(crate) enum Cell<'a> {
    Fault(Fault),
    /// A coefficient at a scale.
    Number(Scale, i128),
    Text(&'a [u8]),
    Date(CivilDate),
    Null,
}

impl<'a> Cell<'a> {
    /// A value where it lies.
    pub(crate) fn of(value: &'a Value) -> Cell<'a>
        ensures { cell_value result ≡ value.now }
    {
        match value {
            Value::Fault(fault) => Cell::Fault(*fault),
            Value::Number(scale, coefficient) => Cell::Number(*scale, *coefficient),
            Value::Text(text) => Cell::Text(text.bytes()),
            Value::Date(date) => Cell::Date(*date),
            Value::Null => Cell::Null,
        }
    }

    // The place of its kind in the order.
    fn kind(&self) -> u8
        ensures { result ≡ kind_rank (cell_value self.now) }
    {
        match self {
            Cell::Fault(_) => 0,
            Cell::Number(_, _) => 1,
            Cell::Text(_) => 2,
            Cell::Date(_) => 3,
            Cell::Null => 4,
        }
    }

    /// The ascending order of ORDER BY, as `Value::order` has it.
    pub(crate) fn order(&self, other: &Cell<'_>) -> Ordering
        ensures { result ≡ value_cmp (cell_value self.now) (cell_value other.now) }
    {
        match (self, other) {
            (Cell::Fault(f), Cell::Fault(g)) => f.cmp(g),
            (Cell::Number(s, a), Cell::Number(t, b)) => s.cmp(t).then(a.cmp(b)),
            (Cell::Text(a), Cell::Text(b)) => a.cmp(b),
            (Cell::Date(a), Cell::Date(b)) => a.cmp(b),
            _ => self.kind().cmp(&other.kind()),
        }
    }
}
