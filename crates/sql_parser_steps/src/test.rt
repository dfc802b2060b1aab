//! What is asked of a sum.
use base_text::Text;
use sql_ast::{Block, Comparison, Expr, Quantifier};
use sqlite_items::{Boxed, Items};

/// What a sum is compared with.
#[derive(Drop)]
pub enum Compared {
    /// Another sum.
    Sum(Boxed<Expr>),
    /// The values of a query, any or all of them.
    Query(Quantifier, Boxed<Block>),
}

/// What stands after a sum in a condition; a flag tells whether it is denied.
#[derive(Drop)]
pub enum Test {
    /// Nothing is asked.
    Absent,
    /// A comparison with its right side.
    Compare(Comparison, Compared),
    /// `is null`.
    IsNull(bool),
    /// `between`, with the least and the greatest that the sum may be.
    Between(bool, Boxed<Expr>, Boxed<Expr>),
    /// `like`, with its pattern.
    Like(bool, Text),
    /// `in`, with the list.
    InList(bool, Items<Expr>),
    /// `in`, with the query.
    InQuery(bool, Boxed<Block>),
}
