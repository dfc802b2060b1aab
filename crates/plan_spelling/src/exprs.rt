//! The numbers that spell expressions.
ghost use Rattle.std.specs.Prelude.{◌≡◌, ◌++◌, ◌∷◌, ◌+◌, [], length, OnOk};
ghost use Rattle.std.specs.List.{flat_map};
ghost use Rattle.plan_spelling.specs.Exprs.{branch_spelling, expr_spelling, operation_spelling};

use crate::values::{arithmetic_number, comparison_number, part_number, put_bytes, put_value};
use expr_scalar::{Branch, Expr, Operation};
use std::alloc::AllocError;

/// Appends what an expression is that has only parts: the number of its kind, and how many parts.
fn put_kind(numbers: &mut Vec<u128>, kind: u128, parts: u128) -> Result<(), AllocError>
    ensures { OnOk result (numbers.new.items ≡ numbers.old.items ++ 1 ∷ kind ∷ parts ∷ []) }
{
    numbers.extend_from_slice(&[1, kind, parts])
}

/// Appends what an expression is that has one number more.
fn put_kind_of(
    numbers: &mut Vec<u128>,
    kind: u128,
    more: u128,
    parts: u128,
) -> Result<(), AllocError>
    ensures { OnOk result (numbers.new.items
        ≡ numbers.old.items ++ 2 ∷ kind ∷ more ∷ parts ∷ []) }
{
    numbers.extend_from_slice(&[2, kind, more, parts])
}

/// Appends what an expression is that has a first part and others, or that part alone; and the
/// numbers that spell the first part.
#[cycle(spelling)]
fn put_first(numbers: &mut Vec<u128>, kind: u128, parts: u128, e: &Expr) -> Result<(), AllocError>
    ensures { OnOk result (numbers.new.items
        ≡ numbers.old.items ++ 1 ∷ kind ∷ parts ∷ expr_spelling e.now) }
{
    put_kind(numbers, kind, parts)?;
    put_expr(numbers, e)
}

/// Appends the same of an expression that has one number more.
#[cycle(spelling)]
fn put_first_of(
    numbers: &mut Vec<u128>,
    kind: u128,
    more: u128,
    parts: u128,
    e: &Expr,
) -> Result<(), AllocError>
    ensures { OnOk result (numbers.new.items
        ≡ numbers.old.items ++ 2 ∷ kind ∷ more ∷ parts ∷ expr_spelling e.now) }
{
    put_kind_of(numbers, kind, more, parts)?;
    put_expr(numbers, e)
}

/// Appends what spells LIKE: its pattern, and the text.
#[cycle(spelling)]
fn put_like(numbers: &mut Vec<u128>, pattern: &[u8], e: &Expr) -> Result<(), AllocError>
    ensures { OnOk result (numbers.new.items ≡ numbers.old.items
        ++ (length pattern.now + 1) ∷ 9 ∷ (pattern.now ++ 1 ∷ expr_spelling e.now)) }
{
    numbers.extend_from_slice(&[pattern.len() as u128 + 1, 9])?;
    put_bytes(numbers, pattern)?;
    numbers.push(1)?;
    put_expr(numbers, e)
}

/// Appends what spells a part of a text: its place and its length, and the text.
#[cycle(spelling)]
fn put_substring(numbers: &mut Vec<u128>, from: u32, count: u32, e: &Expr) -> Result<(), AllocError>
    ensures { OnOk result (numbers.new.items
        ≡ numbers.old.items ++ 3 ∷ 6 ∷ from ∷ count ∷ 1 ∷ expr_spelling e.now) }
{
    numbers.extend_from_slice(&[3, 6, from as u128, count as u128, 1])?;
    put_expr(numbers, e)
}

/// Appends the numbers that spell an expression of these parts.
#[cycle(spelling)]
fn put_list(numbers: &mut Vec<u128>, kind: u128, es: &[Expr]) -> Result<(), AllocError>
    ensures { OnOk result (numbers.new.items
        ≡ numbers.old.items ++ 1 ∷ kind ∷ length es.now ∷ flat_map expr_spelling es.now) }
{
    put_kind(numbers, kind, es.len() as u128)?;
    put_exprs(numbers, es)
}

/// Appends the numbers that spell an expression.
#[cycle(spelling)]
#[tactic(auto, using(crate::proofs::Written::expr_written))]
pub fn put_expr(numbers: &mut Vec<u128>, e: &Expr) -> Result<(), AllocError>
    ensures { OnOk result (numbers.new.items ≡ numbers.old.items ++ expr_spelling e.now) }
{
    match e {
        Expr::Column(place) => put_kind_of(numbers, 0, *place as u128, 0),
        Expr::Literal(value) => put_value(numbers, 1, value),
        Expr::Negative(e) => put_first(numbers, 2, 1, e.get()),
        Expr::Arithmetic(first, operations) => {
            put_first(numbers, 3, operations.len() as u128 + 1, first.get())?;
            put_operations(numbers, operations.as_slice())
        }
        Expr::Case(scale, branches, other) => {
            let (scale, parts) = (scale.places() as u128, branches.len() as u128 + 1);
            put_first_of(numbers, 4, scale, parts, other.get())?;
            put_branches(numbers, branches.as_slice())
        }
        Expr::Extract(part, e) => put_first_of(numbers, 5, part_number(*part), 1, e.get()),
        Expr::Substring(e, from, count) => put_substring(numbers, *from, *count, e.get()),
        Expr::Compare(comparison, a, b) => {
            put_first_of(numbers, 7, comparison_number(*comparison), 2, a.get())?;
            put_expr(numbers, b.get())
        }
        Expr::Between(e, low, high) => {
            put_first(numbers, 8, 3, e.get())?;
            put_expr(numbers, low.get())?;
            put_expr(numbers, high.get())
        }
        Expr::Like(e, pattern) => put_like(numbers, pattern.bytes(), e.get()),
        Expr::InList(e, es) => {
            put_first(numbers, 10, es.len() as u128 + 1, e.get())?;
            put_exprs(numbers, es.as_slice())
        }
        Expr::IsNull(e) => put_first(numbers, 11, 1, e.get()),
        Expr::Not(e) => put_first(numbers, 12, 1, e.get()),
        Expr::All(es) => put_list(numbers, 13, es.as_slice()),
        Expr::Any(es) => put_list(numbers, 14, es.as_slice()),
        Expr::IsMarked(e) => put_first(numbers, 15, 1, e.get()),
    }
}

/// Appends the numbers that spell expressions, one after the other.
#[cycle(spelling)]
pub fn put_exprs(numbers: &mut Vec<u128>, es: &[Expr]) -> Result<(), AllocError>
    ensures { OnOk result (numbers.new.items ≡ numbers.old.items ++ flat_map expr_spelling es.now) }
{
    for e in es {
        put_expr(numbers, e)?;
    }
    Ok(())
}

#[cycle(spelling)]
#[tactic(auto, using(crate::proofs::Written::branch_written))]
fn put_branch(numbers: &mut Vec<u128>, branch: &Branch) -> Result<(), AllocError>
    ensures { OnOk result (numbers.new.items ≡ numbers.old.items ++ branch_spelling branch.now) }
{
    numbers.extend_from_slice(&[1, 16, 2])?;
    put_expr(numbers, &branch.when)?;
    put_expr(numbers, &branch.gives)
}

#[cycle(spelling)]
fn put_branches(numbers: &mut Vec<u128>, branches: &[Branch]) -> Result<(), AllocError>
    ensures { OnOk result
        (numbers.new.items ≡ numbers.old.items ++ flat_map branch_spelling branches.now) }
{
    for branch in branches {
        put_branch(numbers, branch)?;
    }
    Ok(())
}

#[cycle(spelling)]
#[tactic(auto, using(crate::proofs::Written::operation_written))]
fn put_operation(numbers: &mut Vec<u128>, operation: &Operation) -> Result<(), AllocError>
    ensures { OnOk result
        (numbers.new.items ≡ numbers.old.items ++ operation_spelling operation.now) }
{
    numbers.extend_from_slice(&[2, 17, arithmetic_number(operation.operator), 1])?;
    put_expr(numbers, &operation.operand)
}

#[cycle(spelling)]
fn put_operations(numbers: &mut Vec<u128>, operations: &[Operation]) -> Result<(), AllocError>
    ensures { OnOk result
        (numbers.new.items ≡ numbers.old.items ++ flat_map operation_spelling operations.now) }
{
    for operation in operations {
        put_operation(numbers, operation)?;
    }
    Ok(())
}
