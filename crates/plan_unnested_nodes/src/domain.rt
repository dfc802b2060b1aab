//! Domains: the rows that a tree is lowered over.
ghost use Rattle.std.specs.Prelude.{◌≡◌, []};
ghost use Rattle.plan_unnested_nodes.specs.Domains.{domain_width};
ghost use Rattle.plan_unnested_nodes.specs.declared.domain.DomainRows.TheVariants.{One as OneRow};

use expr_scalar::Kind;
use plan_algebra::NodeId;
use sqlite_items::Items;
use std::alloc::Global;

/// Where a domain's rows are.
#[derive(Clone, Copy)]
pub enum DomainRows {
    /// The one row of no columns, for which no node stands.
    One,
    /// The rows of the node of this number, and how many columns they have. No two are identical,
    /// and each stands at True.
    Node(NodeId, u32),
}

/// A note that a column of a domain comes unchanged from a table, whose column has this kind: it
/// holds only nulls and values of that kind and scale, and no fault.
#[derive(Clone, Copy)]
pub struct Origin {
    /// The column, from 0.
    pub column: u32,
    /// The kind of its values.
    pub kind: Kind,
}

/// The rows that a tree is lowered over, and what is known of their columns.
#[derive(Drop)]
pub struct Domain {
    /// The rows.
    pub rows: DomainRows,
    /// The columns that come unchanged from a table, as far as they are noted.
    pub unchanged: Items<Origin>,
}

impl DomainRows {
    /// How many columns the rows have.
    pub fn width(self) -> u32
        ensures { result ≡ domain_width self }
    {
        match self {
            DomainRows::One => 0,
            DomainRows::Node(_, width) => width,
        }
    }
}

impl Domain {
    /// The one row of no columns, which a whole query is lowered over.
    pub fn one(alloc: Global) -> Domain
        ensures rows { result.rows ≡ OneRow }
        ensures unchanged { result.unchanged ≡ [] }
    {
        Domain::of(alloc, DomainRows::One)
    }

    /// These rows, with no notes.
    pub fn of(alloc: Global, rows: DomainRows) -> Domain
        ensures rows { result.rows ≡ rows }
        ensures unchanged { result.unchanged ≡ [] }
    {
        Domain {
            rows,
            unchanged: Items::new(alloc),
        }
    }
}
