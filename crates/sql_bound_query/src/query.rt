//! Queries whose names are bound: a column is n levels out and at a place of that query's row.
use base_decimal::Scale;
use base_order_limit::OrderKey;
use base_schema::TableName;
use base_set_rows::SetOperation;
use expr_aggregates::AggregateFunction;
use expr_operators::Comparison;
use expr_scalar::Expr;
use sqlite_items::{Boxed, Items};

/// What an expression reads.
#[cycle(query)]
pub enum Input {
    /// The column at a place of the row this many levels out, 0 being the innermost query's row.
    /// Both count from 0.
    Column(u32, u32),
    /// EXISTS, as a mark.
    Exists(Boxed<BoundBlock>),
    /// ANY: how the left side is compared with the values of the query, which has one column, as a
    /// mark. IN compares by `=`, and ALL is the NOT of the contrary comparison with any.
    Any(Comparison, Boxed<BoundExpr>, Boxed<BoundBlock>),
    /// The value of a query of one column.
    Scalar(Boxed<BoundBlock>),
}

impl Drop for Input {
    #[cycle(drop)]
    #[inline]
    fn drop(self) {
        match self {
            Input::Column(_, _) => {}
            Input::Exists(kept) => drop(kept),
            Input::Any(_, first, second) => {
                drop(first);
                drop(second);
            }
            Input::Scalar(kept) => drop(kept),
        }
    }
}

/// An expression of a query: a scalar expression over the row of its inputs, so that its column i
/// is the input i.
#[cycle(query)]
pub struct BoundExpr {
    /// The inputs from left to right.
    pub inputs: Items<Input>,
    /// The expression over them.
    pub expr: Boxed<Expr>,
}

impl Drop for BoundExpr {
    #[cycle(drop)]
    #[inline]
    fn drop(self) {
        let BoundExpr { inputs, expr } = self;
        drop(inputs);
        drop(expr);
    }
}

/// An aggregate of a group's rows.
#[cycle(query)]
pub enum BoundAggregate {
    /// `count(*)`.
    CountRows,
    /// The function, the scale of its argument's numbers (0 where it has none), and the argument,
    /// read from each row.
    Of(AggregateFunction, Scale, BoundExpr),
}

impl Drop for BoundAggregate {
    #[cycle(drop)]
    #[inline]
    fn drop(self) {
        match self {
            BoundAggregate::CountRows => {}
            BoundAggregate::Of(_, _, kept) => drop(kept),
        }
    }
}

/// Rows that a query is about.
#[cycle(query)]
pub enum BoundSource {
    /// A table.
    Table(TableName),
    /// A derived table or a view: its own query, which sees no row around it. The number is that of
    /// the kept view that it is, where it is one: then its rows are kept, and no table is read for
    /// them.
    Derived(Option<u32>, Boxed<BoundBlock>),
    /// A lateral item: its own query, whose nearest row around is the row so far, that of all items
    /// to its left in the same FROM.
    Lateral(Boxed<BoundBlock>),
    /// All combinations of the rows of two sources. The right one is taken anew for each left row,
    /// here and in the joins.
    Cross(Boxed<BoundSource>, Boxed<BoundSource>),
    /// JOIN: the combinations that its ON condition keeps.
    Inner(Boxed<BoundSource>, Boxed<BoundSource>, BoundExpr),
    /// LEFT OUTER JOIN: those too, and each left row without a kept partner, with nulls for the
    /// columns of the right source, whose number stands before the condition.
    Outer(Boxed<BoundSource>, Boxed<BoundSource>, u32, BoundExpr),
}

impl Drop for BoundSource {
    #[cycle(drop)]
    #[inline]
    fn drop(self) {
        match self {
            BoundSource::Table(_) => {}
            BoundSource::Derived(_, kept) => drop(kept),
            BoundSource::Lateral(kept) => drop(kept),
            BoundSource::Cross(first, second) => {
                drop(first);
                drop(second);
            }
            BoundSource::Inner(first, second, third) => {
                drop(first);
                drop(second);
                drop(third);
            }
            BoundSource::Outer(first, second, _, third) => {
                drop(first);
                drop(second);
                drop(third);
            }
        }
    }
}

/// A column of a set operation: what it is of a row of each side.
#[derive(Drop)]
pub struct SetColumn {
    /// An expression over the columns of a row of the left side.
    pub left: Expr,
    /// An expression over the columns of a row of the right side.
    pub right: Expr,
}

/// A query from its first SELECT on. No condition is the condition that always holds.
#[cycle(query)]
pub enum BoundBlock {
    /// FROM, WHERE, and the select list over the rows kept.
    Plain(Boxed<BoundSource>, BoundExpr, Items<BoundExpr>),
    /// FROM, WHERE, the places of the GROUP BY columns, the aggregates, HAVING, and the select
    /// list. HAVING and the select list read a group's row, which is its GROUP BY columns and
    /// then its aggregates.
    Grouped(
        Boxed<BoundSource>,
        BoundExpr,
        Items<u32>,
        Items<BoundAggregate>,
        BoundExpr,
        Items<BoundExpr>,
    ),
    /// DISTINCT.
    Distinct(Boxed<BoundBlock>),
    /// A set operation of the rows that its columns are of those of two queries.
    Set(Boxed<BoundBlock>, Boxed<BoundBlock>, Items<SetColumn>, SetOperation),
}

impl Drop for BoundBlock {
    #[cycle(drop)]
    #[inline]
    fn drop(self) {
        match self {
            BoundBlock::Plain(first, second, third) => {
                drop(first);
                drop(second);
                drop(third);
            }
            BoundBlock::Grouped(first, second, third, fourth, fifth, sixth) => {
                drop(first);
                drop(second);
                drop(third);
                drop(fourth);
                drop(fifth);
                drop(sixth);
            }
            BoundBlock::Distinct(kept) => drop(kept),
            BoundBlock::Set(first, second, third, _) => {
                drop(first);
                drop(second);
                drop(third);
            }
        }
    }
}

/// A query that is a statement, with its order and row limit.
#[derive(Drop)]
pub struct BoundQuery {
    /// The query without them.
    pub block: Boxed<BoundBlock>,
    /// The keys of ORDER BY; none where it is absent.
    pub order: Items<OrderKey>,
    /// How many rows the answer has at most; nothing where no limit stands.
    pub limit: Option<u32>,
}
