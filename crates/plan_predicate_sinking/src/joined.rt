//! A join under conditions, of which those on the right input alone are a selection of it.
ghost use Rattle.std.specs.Prelude.{◌≡◌, ◌+◌, ◌≤◌, IfOk, OnOk, IsTrue};
ghost use Rattle.plan_algebra.specs.declared.tree.DepTree.TheVariants.{Join};
ghost use Rattle.plan_algebra.specs.declared.tree.Side.TheVariants.{Shared};
ghost use Rattle.expr_scalar.specs.declared.expr.Expr.TheVariants.{All};
ghost use Rattle.plan_predicate_sinking.specs.Arranged.{SameRows};
ghost use Rattle.plan_predicate_sinking.specs.Selected.{IsSelected};
ghost use Rattle.plan_predicate_sinking.specs.Own.{SideServes, ReadsOwn, PutApart, IsApart, own_places};
ghost use Rattle.plan_predicate_sinking.specs.Own.{own_side, own_width};

use expr_conditions::{Parted, copy_of, put_run};
use expr_scalar::{Expr, rename, used_columns};
use plan_algebra::{DepTree, Side, width};
use sqlite_items::{Boxed, Items};
use std::alloc::{AllocError, Global};

/// Whether an expression reads, after the m first columns, only those from `low` on and below
/// `high`.
pub fn reads_own(alloc: Global, e: &Expr, m: u32, low: u32, high: u32) -> Result<bool, AllocError>
    ensures { IfOk result (λ own. IsTrue own → ReadsOwn m low high e.now) }
{
    let columns = used_columns(alloc, e)?;
    for column in &columns {
        if *column >= m {
            if *column < low {
                return Ok(false);
            }
            if *column >= high {
                return Ok(false);
            }
        }
    }
    Ok(true)
}

// Where the right input's columns are, read without the k others before them.
fn own_columns(alloc: Global, m: u32, k: u32, x: u32) -> Result<Vec<u32>, AllocError>
    ensures { IfOk result (λ v. v.items ≡ own_places m k x) }
{
    let mut places = Vec::new(alloc);
    put_run(&mut places, 0, m)?;
    put_run(&mut places, 0, k)?;
    put_run(&mut places, m, x)?;
    Ok(places)
}

// How many columns the domain row of a right input has.
fn own_columns_of_domain(closed: bool, n: u32) -> u32
    ensures width { result ≡ own_width closed n }
    ensures most { result ≤ n }
{
    if closed { 0 } else { n }
}

// Puts a condition among those on the right input alone, or among the others.
fn put_apart(
    alloc: Global,
    closed: bool,
    n: u32,
    a: u32,
    x: u32,
    e: &Expr,
    parts: &mut Parted,
) -> Result<(), AllocError>
    ensures { OnOk result (PutApart closed n a x e.now parts.old.covered parts.new.covered
        parts.old.rest parts.new.rest) }
{
    let m = own_columns_of_domain(closed, n);
    let low = n.checked_add(a).ok_or(AllocError)?;
    let high = low.checked_add(x).ok_or(AllocError)?;
    let own = reads_own(alloc, e, m, low, high)?;
    if own {
        let places = own_columns(alloc, m, low - m, x)?;
        let new = rename(alloc, e, &places)?;
        parts.covered.push(new)?;
        Ok(())
    } else {
        let new = copy_of(alloc, e)?;
        parts.rest.push(new)?;
        Ok(())
    }
}

/// The conditions on the right input alone, over its own columns, and the others.
pub(crate) fn apart(
    alloc: Global,
    closed: bool,
    n: u32,
    a: u32,
    x: u32,
    es: &[Expr],
) -> Result<Parted, AllocError>
    ensures { IfOk result (λ p. IsApart closed n a x es.now p.covered p.rest) }
{
    let covered = Items::new(alloc);
    let rest = Items::new(alloc);
    let mut parts = Parted { covered, rest };
    for e in es {
        put_apart(alloc, closed, n, a, x, e, &mut parts)?;
    }
    Ok(parts)
}

/// An input under conditions on it.
pub fn selected(
    alloc: Global,
    input: Boxed<DepTree>,
    own: Items<Expr>,
) -> Result<Boxed<DepTree>, AllocError>
    ensures { IfOk result (IsSelected input own) }
{
    if own.is_empty() {
        return Ok(input);
    }
    let condition = Boxed::new(alloc, Expr::All(own))?;
    let new = Boxed::new(alloc, DepTree::Select(input, condition))?;
    Ok(new)
}

// Whether an input has the same rows under the domain row of no columns: a table, a kept view, and
// where there are no other domain rows any input. So a table is not read together with a domain.
fn may_be_closed(n: u32, input: &DepTree) -> bool
    ensures { SideServes n input.now result }
{
    if n == 0 {
        return true;
    }
    match input {
        DepTree::Scan(_) => true,
        DepTree::Kept(_, _) => true,
        _ => false,
    }
}

// The side of a right input.
fn side_of(closed: bool) -> Side
    ensures { result ≡ own_side closed }
{
    if closed { Side::Closed } else { Side::Shared }
}

/// Two inputs joined under conditions. Those that read the second input alone become a selection of
/// it.
pub fn join_first(
    alloc: Global,
    n: u32,
    first: Boxed<DepTree>,
    input: Boxed<DepTree>,
    covered: Items<Expr>,
) -> Result<Boxed<DepTree>, AllocError>
    ensures { IfOk result (SameRows n (Join first input Shared (All covered))) }
{
    let a = width(first.get())?;
    let x = width(input.get())?;
    let closed = may_be_closed(n, input.get());
    let parts = apart(alloc, closed, n, a, x, covered.as_slice())?;
    let input = selected(alloc, input, parts.covered)?;
    let condition = Boxed::new(alloc, Expr::All(parts.rest))?;
    let side = side_of(closed);
    let new = Boxed::new(alloc, DepTree::Join(first, input, side, condition))?;
    Ok(new)
}
