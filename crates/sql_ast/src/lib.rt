//! Scripts as they are written: statements, queries and expressions, as plain data. Parentheses
//! leave no trace, and a chain of one element is that element.
#![tactic(auto)]

mod statement;
mod tree;
mod words;

pub use statement::{NamedKey, Query, RefreshKind, Statement, TemplateValue, WithQuery};
pub use tree::{
    Arm, Block, Clause, Expr, Factor, FromItem, Item, Join, Joined, Select, Selected, SetPart, Term,
};
pub use words::{
    Adding, Aggregate, Column, Comparison, JoinKind, Multiplying, Name, Quantifier, SetOperator,
    Span,
};
