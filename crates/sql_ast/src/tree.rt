//! Expressions and queries, which hold each other.
use crate::words::{
    Adding, Aggregate, Column, Comparison, JoinKind, Multiplying, Name, Quantifier, SetOperator,
    Span,
};
use base_decimal::Scale;
use base_text::Text;
use sqlite_items::{Boxed, Items};

/// A value or a condition; which of the two is told when names are bound.
#[cycle(tree)]
pub enum Expr {
    /// A number's coefficient and how many of its digits stand after the point.
    Number(i128, Scale),
    /// A text without its quotes.
    Text(Text),
    /// A date's text, not read yet.
    Date(Text),
    /// An interval's one to six digits, and its unit.
    Interval(Text, Span),
    /// A column by its name.
    Column(Column),
    /// What stands after a minus sign.
    Negative(Boxed<Expr>),
    /// The first term, and at least one more.
    Sum(Boxed<Expr>, Items<Term>),
    /// The first factor, and at least one more.
    Product(Boxed<Expr>, Items<Factor>),
    /// The left side and the right side.
    Compare(Comparison, Boxed<Expr>, Boxed<Expr>),
    /// The left side, and the query with whose values it is compared, with any or with all of them.
    CompareQuery(Comparison, Quantifier, Boxed<Expr>, Boxed<Block>),
    /// What may be null.
    IsNull(Boxed<Expr>),
    /// The value, the least and the greatest that it may be.
    Between(Boxed<Expr>, Boxed<Expr>, Boxed<Expr>),
    /// The value and the pattern.
    Like(Boxed<Expr>, Text),
    /// The value, and at least one that it may equal.
    InList(Boxed<Expr>, Items<Expr>),
    /// The value, and the query whose values it may equal.
    InQuery(Boxed<Expr>, Boxed<Block>),
    /// `exists`, and the query that has a row or none.
    Exists(Boxed<Block>),
    /// The query whose one value is meant.
    Scalar(Boxed<Block>),
    /// The condition that is denied.
    Not(Boxed<Expr>),
    /// The first condition, and at least one more.
    And(Boxed<Expr>, Items<Expr>),
    /// The first condition, and at least one more.
    Or(Boxed<Expr>, Items<Expr>),
    /// At least one arm, without ELSE.
    Case(Items<Arm>),
    /// At least one arm, and what stands after ELSE.
    CaseElse(Items<Arm>, Boxed<Expr>),
    /// The part, and the date that it is taken from.
    Extract(Span, Boxed<Expr>),
    /// The text, the first place counted from 1, and how many bytes; both numbers are at most
    /// 999999999.
    Substring(Boxed<Expr>, u32, u32),
    /// `count(*)`.
    CountRows,
    /// `count(e)`.
    Count(Boxed<Expr>),
    /// `count(distinct e)`.
    CountDistinct(Boxed<Expr>),
    /// The function and its argument.
    Aggregate(Aggregate, Boxed<Expr>),
}

impl Drop for Expr {
    #[cycle(drop)]
    #[inline]
    fn drop(self) {
        match self {
            Expr::Number(_, _) => {}
            Expr::Text(kept) => drop(kept),
            Expr::Date(kept) => drop(kept),
            Expr::Interval(kept, _) => drop(kept),
            Expr::Column(kept) => drop(kept),
            Expr::Negative(kept) => drop(kept),
            Expr::Sum(first, second) => {
                drop(first);
                drop(second);
            }
            Expr::Product(first, second) => {
                drop(first);
                drop(second);
            }
            Expr::Compare(_, first, second) => {
                drop(first);
                drop(second);
            }
            Expr::CompareQuery(_, _, first, second) => {
                drop(first);
                drop(second);
            }
            Expr::IsNull(kept) => drop(kept),
            Expr::Between(first, second, third) => {
                drop(first);
                drop(second);
                drop(third);
            }
            Expr::Like(first, second) => {
                drop(first);
                drop(second);
            }
            Expr::InList(first, second) => {
                drop(first);
                drop(second);
            }
            Expr::InQuery(first, second) => {
                drop(first);
                drop(second);
            }
            Expr::Exists(kept) => drop(kept),
            Expr::Scalar(kept) => drop(kept),
            Expr::Not(kept) => drop(kept),
            Expr::And(first, second) => {
                drop(first);
                drop(second);
            }
            Expr::Or(first, second) => {
                drop(first);
                drop(second);
            }
            Expr::Case(kept) => drop(kept),
            Expr::CaseElse(first, second) => {
                drop(first);
                drop(second);
            }
            Expr::Extract(_, kept) => drop(kept),
            Expr::Substring(kept, _, _) => drop(kept),
            Expr::CountRows => {}
            Expr::Count(kept) => drop(kept),
            Expr::CountDistinct(kept) => drop(kept),
            Expr::Aggregate(first, second) => {
                drop(first);
                drop(second);
            }
        }
    }
}

/// A term of a sum after its first one.
#[cycle(tree)]
#[derive(Drop)]
pub struct Term {
    /// Whether it is added or taken away.
    pub operator: Adding,
    /// What is.
    pub value: Expr,
}

/// A factor of a product after its first one.
#[cycle(tree)]
#[derive(Drop)]
pub struct Factor {
    /// Whether it multiplies or divides.
    pub operator: Multiplying,
    /// What does.
    pub value: Expr,
}

/// `when condition then value`.
#[cycle(tree)]
#[derive(Drop)]
pub struct Arm {
    /// What stands after WHEN.
    pub condition: Expr,
    /// What stands after THEN.
    pub value: Expr,
}

/// A column of an answer: its value, and its alias where it has one.
#[cycle(tree)]
pub struct Item {
    /// The expression.
    pub value: Expr,
    /// The name after it.
    pub alias: Option<Name>,
}

impl Drop for Item {
    #[cycle(drop)]
    #[inline]
    fn drop(self) {
        let Item { value, alias } = self;
        drop(value);
        drop(alias);
    }
}

/// What a query selects.
#[cycle(tree)]
pub enum Selected {
    /// `*`.
    All,
    /// At least one item.
    Items(Items<Item>),
}

impl Drop for Selected {
    #[cycle(drop)]
    #[inline]
    fn drop(self) {
        match self {
            Selected::All => {}
            Selected::Items(kept) => drop(kept),
        }
    }
}

/// An item of FROM.
#[cycle(tree)]
pub enum FromItem {
    /// A table or a view by its name, and its alias where it has one.
    Table(Name, Option<Name>),
    /// A query in parentheses, its alias, and the names of its columns; none where no list stands.
    Derived(Boxed<Block>, Name, Items<Name>),
    /// The same after `lateral`: its query may read the items to its left.
    Lateral(Boxed<Block>, Name, Items<Name>),
}

impl Drop for FromItem {
    #[cycle(drop)]
    #[inline]
    fn drop(self) {
        match self {
            FromItem::Table(first, second) => {
                drop(first);
                drop(second);
            }
            FromItem::Derived(first, second, third) => {
                drop(first);
                drop(second);
                drop(third);
            }
            FromItem::Lateral(first, second, third) => {
                drop(first);
                drop(second);
                drop(third);
            }
        }
    }
}

/// An item that is joined to those before it.
#[cycle(tree)]
#[derive(Drop)]
pub struct Join {
    /// Which rows it keeps.
    pub kind: JoinKind,
    /// The item.
    pub item: FromItem,
    /// What stands after ON.
    pub condition: Expr,
}

/// A FROM item, and those that are joined to it from left to right.
#[cycle(tree)]
#[derive(Drop)]
pub struct Joined {
    /// The first item.
    pub first: FromItem,
    /// The joins; none where the item stands alone.
    pub joins: Items<Join>,
}

/// WHERE or HAVING.
#[cycle(tree)]
pub enum Clause {
    /// There is none.
    Absent,
    /// Its condition.
    Condition(Boxed<Expr>),
}

impl Drop for Clause {
    #[cycle(drop)]
    #[inline]
    fn drop(self) {
        match self {
            Clause::Absent => {}
            Clause::Condition(kept) => drop(kept),
        }
    }
}

/// A query from SELECT to HAVING.
#[cycle(tree)]
pub struct Select {
    /// Whether DISTINCT stands after SELECT.
    pub is_distinct: bool,
    /// The select list.
    pub selected: Selected,
    /// What stands after FROM between its commas, at least one.
    pub from: Items<Joined>,
    /// WHERE.
    pub condition: Clause,
    /// The columns of GROUP BY; none where it is absent.
    pub group: Items<Column>,
    /// HAVING.
    pub having: Clause,
}

impl Drop for Select {
    #[cycle(drop)]
    #[inline]
    fn drop(self) {
        let Select {
            is_distinct: _,
            selected,
            from,
            condition,
            group,
            having,
        } = self;
        drop(selected);
        drop(from);
        drop(condition);
        drop(group);
        drop(having);
    }
}

/// A query, as it stands also in other queries and in views.
#[cycle(tree)]
pub enum Block {
    /// One SELECT with its clauses.
    Select(Select),
    /// The first query, and at least one that a set operation joins to those before it.
    Combined(Boxed<Block>, Items<SetPart>),
}

impl Drop for Block {
    #[cycle(drop)]
    #[inline]
    fn drop(self) {
        match self {
            Block::Select(kept) => drop(kept),
            Block::Combined(first, second) => {
                drop(first);
                drop(second);
            }
        }
    }
}

/// A query after its first part, with what joins it to those before it.
#[cycle(tree)]
#[derive(Drop)]
pub struct SetPart {
    /// The set operation.
    pub operator: SetOperator,
    /// Whether ALL stands after it.
    pub keeps_all: bool,
    /// The query.
    pub query: Block,
}
