//! What the parts of expressions and queries make together.
//!
//! An expression is boxed from the moment that it is read: where reading fails it is dropped by one
//! call.
ghost use Rattle.std.specs.Prelude.{◌≡◌, IfOk};
ghost use Rattle.sql_parser_steps.specs.Values as values;

use crate::filters::Filters;
use crate::test::{Compared, Test};
use sql_ast::{
    Adding, Arm, Block, Expr, Factor, FromItem, Join, JoinKind, Joined, Multiplying, Select,
    Selected, SetOperator, SetPart, Term,
};
use sqlite_items::{Boxed, Items};
use std::alloc::{AllocError, Global};

/// A factor with what joins it to those before.
pub fn factor(operator: Multiplying, value: Boxed<Expr>) -> Factor
    ensures { result ≡ values.factor operator value }
{
    Factor {
        operator,
        value: value.into_inner(),
    }
}

/// A term with what joins it to those before.
pub fn term(operator: Adding, value: Boxed<Expr>) -> Term
    ensures { result ≡ values.term operator value }
{
    Term {
        operator,
        value: value.into_inner(),
    }
}

/// `when condition then value`.
pub fn arm_of(condition: Boxed<Expr>, value: Boxed<Expr>) -> Arm
    ensures { result ≡ values.arm condition value }
{
    Arm {
        condition: condition.into_inner(),
        value: value.into_inner(),
    }
}

/// An item joined to those before it, and its condition.
pub fn join_of(kind: JoinKind, joined: (FromItem, Boxed<Expr>)) -> Join
    ensures { result ≡ values.join kind joined }
{
    let (item, condition) = joined;
    Join {
        kind,
        item,
        condition: condition.into_inner(),
    }
}

/// An item, and those that are joined to it.
pub fn joined_of(first: FromItem, joins: Items<Join>) -> Joined
    ensures { result ≡ values.joined first joins }
{
    Joined { first, joins }
}

/// A query of its select list, FROM and the clauses after it.
pub fn block_of(selected: (bool, Selected), from: Items<Joined>, filters: Filters) -> Block
    ensures { result ≡ values.block selected (from, filters) }
{
    Block::Select(Select {
        is_distinct: selected.0,
        selected: selected.1,
        from,
        condition: filters.condition,
        group: filters.group,
        having: filters.having,
    })
}

/// A query with what joins it to those before it: the set operation, and whether ALL stands after
/// it.
pub fn set_part(words: (SetOperator, bool), query: Boxed<Block>) -> SetPart
    ensures { result ≡ values.set_part words query }
{
    SetPart {
        operator: words.0,
        keeps_all: words.1,
        query: query.into_inner(),
    }
}

/// The queries joined by set operations; the first alone where there is no other.
pub fn combined(
    alloc: Global,
    first: Boxed<Block>,
    others: Items<SetPart>,
) -> Result<Boxed<Block>, AllocError>
    ensures { IfOk result (λ x. x ≡ values.combined first others) }
{
    if others.is_empty() {
        Ok(first)
    } else {
        Boxed::new(alloc, Block::Combined(first, others))
    }
}

/// The product of factors; the first alone where there is no other.
pub fn product(
    alloc: Global,
    first: Boxed<Expr>,
    others: Items<Factor>,
) -> Result<Boxed<Expr>, AllocError>
    ensures { IfOk result (λ x. x ≡ values.product first others) }
{
    if others.is_empty() {
        Ok(first)
    } else {
        Boxed::new(alloc, Expr::Product(first, others))
    }
}

/// The sum of terms; the first alone where there is no other.
pub fn sum(
    alloc: Global,
    first: Boxed<Expr>,
    others: Items<Term>,
) -> Result<Boxed<Expr>, AllocError>
    ensures { IfOk result (λ x. x ≡ values.sum first others) }
{
    if others.is_empty() {
        Ok(first)
    } else {
        Boxed::new(alloc, Expr::Sum(first, others))
    }
}

/// The conditions joined by AND; the first alone where there is no other.
pub fn all_of(
    alloc: Global,
    first: Boxed<Expr>,
    others: Items<Expr>,
) -> Result<Boxed<Expr>, AllocError>
    ensures { IfOk result (λ x. x ≡ values.all_of first others) }
{
    if others.is_empty() {
        Ok(first)
    } else {
        Boxed::new(alloc, Expr::And(first, others))
    }
}

/// The conditions joined by OR; the first alone where there is no other.
pub fn any_of(
    alloc: Global,
    first: Boxed<Expr>,
    others: Items<Expr>,
) -> Result<Boxed<Expr>, AllocError>
    ensures { IfOk result (λ x. x ≡ values.any_of first others) }
{
    if others.is_empty() {
        Ok(first)
    } else {
        Boxed::new(alloc, Expr::Or(first, others))
    }
}

/// A CASE, with ELSE or without.
pub fn case_of(
    alloc: Global,
    arms: Items<Arm>,
    otherwise: Option<Boxed<Expr>>,
) -> Result<Boxed<Expr>, AllocError>
    ensures { IfOk result (λ x. x ≡ values.case_of arms otherwise) }
{
    match otherwise {
        None => Boxed::new(alloc, Expr::Case(arms)),
        Some(value) => Boxed::new(alloc, Expr::CaseElse(arms, value)),
    }
}

/// The denial of a test that a NOT may stand before.
pub fn opposite(test: Test) -> Test
    ensures { result ≡ values.opposite test }
{
    match test {
        Test::Absent => Test::Absent,
        Test::Compare(comparison, compared) => Test::Compare(comparison, compared),
        Test::IsNull(is_denied) => Test::IsNull(!is_denied),
        Test::Between(is_denied, low, high) => Test::Between(!is_denied, low, high),
        Test::Like(is_denied, pattern) => Test::Like(!is_denied, pattern),
        Test::InList(is_denied, list) => Test::InList(!is_denied, list),
        Test::InQuery(is_denied, query) => Test::InQuery(!is_denied, query),
    }
}

/// The condition, denied or not.
fn deny(alloc: Global, is_denied: bool, condition: Expr) -> Result<Boxed<Expr>, AllocError>
    ensures { IfOk result (λ x. x ≡ values.deny is_denied condition) }
{
    let condition = Boxed::new(alloc, condition)?;
    if is_denied {
        Boxed::new(alloc, Expr::Not(condition))
    } else {
        Ok(condition)
    }
}

/// The condition that a test of a value is.
pub fn tested(alloc: Global, value: Boxed<Expr>, test: Test) -> Result<Boxed<Expr>, AllocError>
    ensures { IfOk result (λ x. x ≡ values.tested value test) }
{
    match test {
        Test::Absent => Ok(value),
        Test::Compare(comparison, Compared::Sum(other)) => {
            Boxed::new(alloc, Expr::Compare(comparison, value, other))
        }
        Test::Compare(comparison, Compared::Query(quantifier, query)) => {
            Boxed::new(
                alloc,
                Expr::CompareQuery(comparison, quantifier, value, query),
            )
        }
        Test::IsNull(is_denied) => deny(alloc, is_denied, Expr::IsNull(value)),
        Test::Between(is_denied, low, high) => {
            deny(alloc, is_denied, Expr::Between(value, low, high))
        }
        Test::Like(is_denied, pattern) => deny(alloc, is_denied, Expr::Like(value, pattern)),
        Test::InList(is_denied, list) => deny(alloc, is_denied, Expr::InList(value, list)),
        Test::InQuery(is_denied, query) => deny(alloc, is_denied, Expr::InQuery(value, query)),
    }
}
