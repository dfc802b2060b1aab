//! Names, and what operators and words say.
use base_text::Text;

/// A name, in lower case.
pub type Name = Text;

/// A column's name, and the name of its FROM item where one stands before it.
pub struct Column {
    /// The FROM item's name or alias.
    pub item: Option<Name>,
    /// The column's name.
    pub name: Name,
}

impl Drop for Column {
    #[inline]
    fn drop(self) {
        let Column { item, name } = self;
        drop(item);
        drop(name);
    }
}

/// How two values are compared.
#[derive(Clone, Copy, Debug, PartialEq, Eq)]
pub enum Comparison {
    /// `=`.
    Equal,
    /// `<>`.
    NotEqual,
    /// `<`.
    Less,
    /// `<=`.
    LessOrEqual,
    /// `>`.
    Greater,
    /// `>=`.
    GreaterOrEqual,
}

/// Of which rows of a query a comparison has to be true.
#[derive(Clone, Copy, Debug, PartialEq, Eq)]
pub enum Quantifier {
    /// `any` or `some`: of one row at least.
    Any,
    /// `all`: of each row.
    All,
}

/// A part of a date, and the unit of an interval.
#[derive(Clone, Copy, Debug, PartialEq, Eq)]
pub enum Span {
    Year,
    Month,
    Day,
}

/// What an aggregate computes of its argument's values.
#[derive(Clone, Copy, Debug, PartialEq, Eq)]
pub enum Aggregate {
    Sum,
    Avg,
    Min,
    Max,
}

/// How a term joins those before it.
#[derive(Clone, Copy, Debug, PartialEq, Eq)]
pub enum Adding {
    /// `+`.
    Plus,
    /// `-`.
    Minus,
}

/// How a factor joins those before it.
#[derive(Clone, Copy, Debug, PartialEq, Eq)]
pub enum Multiplying {
    /// `*`.
    Times,
    /// `/`.
    Divide,
}

/// Which rows a join keeps.
#[derive(Clone, Copy, Debug, PartialEq, Eq)]
pub enum JoinKind {
    /// `join` or `inner join`: pairs of rows alone.
    Inner,
    /// `left join` or `left outer join`: also rows of the left side without a partner.
    LeftOuter,
}

/// How a query is joined to those before it.
#[derive(Clone, Copy, Debug, PartialEq, Eq)]
pub enum SetOperator {
    /// `union`: the rows of both.
    Union,
    /// `intersect`: the rows that both have.
    Intersect,
    /// `except`: the rows that only those before it have.
    Except,
}
