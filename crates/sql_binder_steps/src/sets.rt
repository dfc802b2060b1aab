//! Set operations of two bound queries.
ghost use Rattle.std.specs.Prelude.{◌≡◌, IfOk};
ghost use Rattle.sql_binder_steps.specs.Sets as spec;
ghost use Rattle.sql_binder_steps.specs.Steps.{Gives};

use crate::collected::{BoundKind, BoundTable};
use crate::fault::BindFault;
use crate::kinds::{common_kind, scale_of};
use crate::names::share;
use crate::scope::narrow;
use crate::view::Header;
use base_refusals::BindRefusal;
use base_set_rows::{ClassKind, SetOperation};
use expr_scalar::{Expr, Kind};
use sql_ast::SetOperator;
use sql_bound_query::{BoundBlock, SetColumn};
use sqlite_items::{Boxed, Items};
use std::alloc::{AllocError, Global};

/// The columns of a set operation so far.
#[derive(Drop)]
pub struct SetColumns {
    /// What each is of a row of the two sides.
    pub columns: Items<SetColumn>,
    /// Their names and kinds.
    pub headers: Items<Header>,
}

// A side's column, at the scale of the set operation's.
fn rescaled(alloc: Global, at: u32, own: Kind, whole: Kind) -> Result<Expr, AllocError>
    ensures { IfOk result (λ e. e ≡ spec.rescaled at own whole) }
{
    let column = Expr::Column(at);
    let scale = scale_of(whole);
    if scale_of(own).places() == scale.places() {
        Ok(column)
    } else {
        let column = Boxed::new(alloc, column)?;
        Ok(Expr::Case(scale, Items::new(alloc), column))
    }
}

fn set_column(
    alloc: Global,
    at: u32,
    left: Kind,
    right: Kind,
    whole: &Kind,
) -> Result<SetColumn, AllocError>
    ensures { IfOk result (λ c. c ≡ spec.set_column at left right whole.now) }
{
    let left = rescaled(alloc, at, left, *whole)?;
    let right = rescaled(alloc, at, right, *whole)?;
    Ok(SetColumn { left, right })
}

fn with_column(
    alloc: Global,
    done: SetColumns,
    at: u32,
    left: &Header,
    right: &Header,
    whole: &Kind,
) -> Result<SetColumns, AllocError>
    ensures { IfOk result (λ s. s ≡ spec.with_column done at left.now right.now whole.now) }
{
    let SetColumns {
        mut columns,
        mut headers,
    } = done;
    let column = set_column(alloc, at, left.kind, right.kind, whole)?;
    columns.push(column)?;
    let name = share(&left.name)?;
    headers.push(Header { name, kind: *whole })?;
    Ok(SetColumns { columns, headers })
}

// The columns of a set operation of sides with these columns.
#[tactic(auto, unfolding(crate::specs::Sets::set_columns))]
fn set_columns(alloc: Global, left: &[Header], right: &[Header]) -> Result<SetColumns, BindFault>
    ensures { Gives (spec.set_columns left.now right.now) result }
{
    let columns = Items::new(alloc);
    let headers = Items::new(alloc);
    let mut done = SetColumns { columns, headers };
    let mut at = 0;
    let mut ls = left;
    let mut rs = right;
    'columns: while let [l, more @ ..] = ls {
        match rs {
            [r, others @ ..] => {
                let both = [BoundKind::Value(l.kind), BoundKind::Value(r.kind)];
                let whole = common_kind(&both)?;
                let place = narrow(at)?;
                done = with_column(alloc, done, place, l, r, &whole)?;
                rs = others;
            }
            [] => return Ok(done),
        }
        at += 1;
        ls = more;
    }
    Ok(done)
}

fn set_block(
    alloc: Global,
    operator: SetOperator,
    keeps_all: bool,
    left: Boxed<BoundBlock>,
    right: Boxed<BoundBlock>,
    columns: Items<SetColumn>,
) -> Result<Boxed<BoundBlock>, AllocError>
    ensures { IfOk result (λ q. q ≡ spec.set_block operator keeps_all left right columns) }
{
    match operator {
        SetOperator::Union => {
            let all = BoundBlock::Set(left, right, columns, SetOperation::Union);
            let all = Boxed::new(alloc, all)?;
            if keeps_all {
                Ok(all)
            } else {
                let once = Boxed::new(alloc, BoundBlock::Distinct(all))?;
                Ok(once)
            }
        }
        SetOperator::Intersect => {
            let operation = SetOperation::Classes(ClassKind::Intersect, keeps_all);
            let block = Boxed::new(alloc, BoundBlock::Set(left, right, columns, operation))?;
            Ok(block)
        }
        SetOperator::Except => {
            let operation = SetOperation::Classes(ClassKind::Except, keeps_all);
            let block = Boxed::new(alloc, BoundBlock::Set(left, right, columns, operation))?;
            Ok(block)
        }
    }
}

/// A set operation of two bound queries: their numbers of columns are compared first, then the
/// kinds
/// of the columns from the left.
#[tactic(auto, unfolding(crate::specs::Sets::set_table))]
pub fn set_table(
    alloc: Global,
    operator: SetOperator,
    keeps_all: bool,
    left: BoundTable,
    right: BoundTable,
) -> Result<BoundTable, BindFault>
    ensures { Gives (spec.set_table operator keeps_all left right) result }
{
    if left.headers.len() != right.headers.len() {
        return Err(BindFault::Refused(BindRefusal::SetColumns));
    }
    let SetColumns { columns, headers } = set_columns(
        alloc,
        left.headers.as_slice(),
        right.headers.as_slice(),
    )?;
    let block = set_block(alloc, operator, keeps_all, left.block, right.block, columns)?;
    Ok(BoundTable { block, headers })
}
