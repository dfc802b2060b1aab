//! The branches of a CASE.
ghost use Rattle.std.specs.Prelude.{◌≡◌, IfOk, length, replicate};
ghost use Rattle.exec_column_operators.specs.Choices.{choice};
ghost use Rattle.exec_column_operators.specs.Zips.{zip_three};
ghost use Rattle.exec_column_expr.specs.Lanes.{Each, over, shape_lanes};

use crate::operand::{Operand, Shape};
use base_columns::Column;
use base_value::{Truth, Value};
use exec_column_operators::chosen_column;
use std::alloc::{AllocError, Global};

// One value for each of n rows.
struct Repeated {
    column: Column,
}

// By hand, as that of `Operand`.
impl Drop for Repeated {
    #[inline]
    fn drop(self) {
        let Repeated { column } = self;
        drop(column);
    }
}

impl Repeated {
    fn new(alloc: Global, value: &Value, n: usize) -> Result<Repeated, AllocError>
        ensures { IfOk result (λ r. r.column ≡ replicate n value.now) }
    {
        let column = Column::repeated(alloc, value, n)?;
        Ok(Repeated { column })
    }
}

// What columns give.
fn chosen_each<'a>(
    alloc: Global,
    truths: &[Truth],
    given: &Column,
    other: &Column,
) -> Result<Operand<'a>, AllocError>
    requires given { length given.now ≡ length truths.now }
    requires other { length other.now ≡ length truths.now }
    ensures { IfOk result (λ o. o ≡ Each (zip_three choice truths.now given.now other.now)) }
{
    let column = chosen_column(alloc, truths, given, other)?;
    Ok(Operand::made(column))
}

/// A branch of a CASE: its value where its condition is True, a fault where that is one, else the
/// rest.
#[tactic(auto, using(crate::proofs::Lists::ones))]
pub(crate) fn chosen_operand<'a>(
    alloc: Global,
    truths: &[Truth],
    gives: Shape<'_>,
    rest: Shape<'_>,
    n: usize,
) -> Result<Operand<'a>, AllocError>
    requires truths { length truths.now ≡ n }
    requires gives { length (over n (shape_lanes gives)) ≡ n }
    requires rest { length (over n (shape_lanes rest)) ≡ n }
    ensures { IfOk result (λ o. over n o
        ≡ zip_three choice truths.now (over n (shape_lanes gives.entry))
        (over n (shape_lanes rest.entry))) }
{
    match (gives, rest) {
        (Shape::One(v), Shape::One(w)) => {
            let given = Repeated::new(alloc, v, n)?;
            let other = Repeated::new(alloc, w, n)?;
            chosen_each(alloc, truths, &given.column, &other.column)
        }
        (Shape::One(v), Shape::Each(other)) => {
            let given = Repeated::new(alloc, v, n)?;
            chosen_each(alloc, truths, &given.column, other)
        }
        (Shape::Each(given), Shape::One(w)) => {
            let other = Repeated::new(alloc, w, n)?;
            chosen_each(alloc, truths, given, &other.column)
        }
        (Shape::Each(given), Shape::Each(other)) => chosen_each(alloc, truths, given, other),
    }
}
