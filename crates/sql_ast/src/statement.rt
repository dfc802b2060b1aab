//! Statements.
use crate::tree::Block;
use crate::words::Name;
use base_decimal::Scale;
use base_text::Text;
use sqlite_items::Items;

/// A key of ORDER BY: an output column by its name.
#[derive(Drop)]
pub struct NamedKey {
    /// The output column's name.
    pub column: Name,
    /// Whether DESC stands after it.
    pub is_descending: bool,
}

/// A query of WITH, which its statement knows by a name.
pub struct WithQuery {
    /// Its name.
    pub name: Name,
    /// The names of its columns; none where no list stands.
    pub columns: Items<Name>,
    /// The query in the parentheses.
    pub block: Block,
}

impl Drop for WithQuery {
    #[inline]
    fn drop(self) {
        let WithQuery {
            name,
            columns,
            block,
        } = self;
        drop(name);
        drop(columns);
        drop(block);
    }
}

/// A query that is a statement: with the queries of WITH, order, row limit and version, none of
/// which an inner query has.
pub struct Query {
    /// The queries of WITH from left to right; none where it is absent.
    pub with_queries: Items<WithQuery>,
    /// The query without them.
    pub block: Block,
    /// The keys of ORDER BY; none where it is absent.
    pub order: Items<NamedKey>,
    /// How many rows the answer has at most, itself at most 999999999; nothing where no limit
    /// stands.
    pub limit: Option<u32>,
    /// The number of the version that is asked, at most 999999999; nothing where none is named.
    pub version: Option<u32>,
}

impl Drop for Query {
    #[inline]
    fn drop(self) {
        let Query {
            with_queries,
            block,
            order,
            limit: _,
            version: _,
        } = self;
        drop(with_queries);
        drop(block);
        drop(order);
    }
}

/// What a refresh does.
#[derive(Clone, Copy, Debug, PartialEq, Eq)]
pub enum RefreshKind {
    /// Adds the rows of a set's files.
    Insert,
    /// Removes the orders of a set's keys.
    Delete,
}

/// A value that is put into a template.
#[derive(Drop)]
pub enum TemplateValue {
    /// A text without its quotes.
    Text(Text),
    /// A number's coefficient, at or above 0, and how many of its digits stand after the point.
    Number(i128, Scale),
}

/// A statement of a script.
pub enum Statement {
    /// A query with its order and row limit.
    Query(Query),
    /// `create view`: its name, the names of its columns, none where no list stands, and its query.
    CreateView(Name, Items<Name>, Block),
    /// `drop view`, and its name.
    DropView(Name),
    /// `refresh`: what it does, and the number of its set, at most 999999999.
    Refresh(RefreshKind, u32),
    /// `run`: the number of a template, at most 999999999, and the values for its places.
    Run(u32, Items<TemplateValue>),
}

impl Drop for Statement {
    #[inline]
    fn drop(self) {
        match self {
            Statement::Query(kept) => drop(kept),
            Statement::CreateView(first, second, third) => {
                drop(first);
                drop(second);
                drop(third);
            }
            Statement::DropView(kept) => drop(kept),
            Statement::Refresh(_, _) => {}
            Statement::Run(_, kept) => drop(kept),
        }
    }
}
