//! Views: queries that are bound already, under a name.
ghost use Rattle.std.specs.Prelude.{◌≡◌, IfOk};

use expr_scalar::Kind;
use sql_ast::Name;
use sql_bound_query::{BoundBlock, copy_block};
use sqlite_items::{Boxed, Items};
use std::alloc::{AllocError, Global};

/// A column of a view or of a query's answer. One that has no name has the empty one, which no
/// query can write.
#[derive(Drop)]
pub struct Header {
    /// Its name.
    pub name: Name,
    /// What its values are.
    pub kind: Kind,
}

/// A view.
#[derive(Drop)]
pub struct View {
    /// Its name.
    pub name: Name,
    /// Its columns.
    pub columns: Items<Header>,
    /// Its query, which stays as it was bound whatever happens to other views.
    pub block: Boxed<BoundBlock>,
    /// How many FROM items its query has, all those in it counted.
    pub items: u32,
    /// The number of the kept view that it is, where its rows are kept.
    pub kept: Option<u32>,
}

/// The views of a session.
#[derive(Drop)]
pub struct Views {
    /// All of them, in the order in which they were made.
    pub all: Items<View>,
}

/// The views that a statement may use.
#[derive(Clone, Copy)]
pub struct StatementViews<'a> {
    /// Its queries of WITH that are bound already.
    pub with_queries: &'a [View],
    /// The views of its session.
    pub session: &'a [View],
}

fn copy_header(h: &Header) -> Result<Header, AllocError>
    ensures { IfOk result (λ c. c ≡ h.now) }
{
    let name = h.name.clone()?;
    Ok(Header { name, kind: h.kind })
}

/// Copies of columns.
pub fn copy_headers(alloc: Global, all: &[Header]) -> Result<Items<Header>, AllocError>
    ensures { IfOk result (λ c. c ≡ all.now) }
{
    let mut copies = Items::new(alloc);
    for h in all {
        let h = copy_header(h)?;
        copies.push(h)?;
    }
    Ok(copies)
}

// A copy of a view.
fn copy_view(alloc: Global, v: &View) -> Result<View, AllocError>
    ensures { IfOk result (λ c. c ≡ v.now) }
{
    let name = v.name.clone()?;
    let columns = copy_headers(alloc, v.columns.as_slice())?;
    let block = copy_block(alloc, v.block.get())?;
    let block = Boxed::new(alloc, block)?;
    Ok(View {
        name,
        columns,
        block,
        items: v.items,
        kept: v.kept,
    })
}

/// Copies of views.
pub fn copy_views(alloc: Global, all: &[View]) -> Result<Items<View>, AllocError>
    ensures { IfOk result (λ c. c ≡ all.now) }
{
    let mut copies = Items::new(alloc);
    for v in all {
        let v = copy_view(alloc, v)?;
        copies.push(v)?;
    }
    Ok(copies)
}
