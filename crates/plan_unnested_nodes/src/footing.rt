//! What a tree is lowered over while its plan is built.
ghost use Rattle.std.specs.Prelude.{◌≡◌, ◌<◌, [], length, IfOk};
ghost use Rattle.plan_algebra.specs.declared.node.Node.TheVariants.{Domain as domain_of};
ghost use Rattle.plan_unnested_nodes.specs.declared.footing.FootingRows.TheVariants.{One as OneRow};
ghost use Rattle.plan_unnested_nodes.specs.Footings.{footing_width, footing_of, IsFooting, Settles};
ghost use Rattle.plan_unnested_nodes.specs.Growth.{IsPut};

use crate::domain::{Domain, DomainRows, Origin};
use plan_algebra::{Builder, Node, NodeId};
use sqlite_items::Items;
use std::alloc::{AllocError, Global};

/// Where the rows are that a tree is lowered over.
pub enum FootingRows {
    /// The one row of no columns, for which no node stands.
    One,
    /// The rows of the node of this number, and how many columns they have.
    Node(NodeId, u32),
    /// The values of this node at these columns, identical ones once. Their node is put once another
    /// node reads it.
    Due(NodeId, Items<u32>),
}

impl Drop for FootingRows {
    #[inline]
    fn drop(self) {
        match self {
            FootingRows::One => {}
            FootingRows::Node(_, _) => {}
            FootingRows::Due(_, kept) => drop(kept),
        }
    }
}

/// The rows that a tree is lowered over, a domain, and which of their columns come unchanged from a
/// table.
#[derive(Drop)]
pub struct Footing {
    /// The rows.
    pub rows: FootingRows,
    /// The columns that come unchanged from a table, as far as they are noted.
    pub unchanged: Items<Origin>,
}

impl Footing {
    /// The one row of no columns.
    pub fn one(alloc: Global) -> Footing
        ensures rows { result.rows ≡ OneRow }
        ensures unchanged { result.unchanged ≡ [] }
    {
        Footing {
            rows: FootingRows::One,
            unchanged: Items::new(alloc),
        }
    }

    /// The rows of a domain.
    pub fn of(domain: Domain) -> Footing
        ensures { result ≡ footing_of domain }
    {
        let Domain { rows, unchanged } = domain;
        let rows = match rows {
            DomainRows::One => FootingRows::One,
            DomainRows::Node(id, width) => FootingRows::Node(id, width),
        };
        Footing { rows, unchanged }
    }

    /// How many columns the rows have.
    pub fn width(&self) -> Result<u32, AllocError>
        ensures { IfOk result (λ w. w ≡ footing_width self.now.rows) }
    {
        match &self.rows {
            FootingRows::One => Ok(0),
            FootingRows::Node(_, width) => Ok(*width),
            FootingRows::Due(_, columns) => u32::try_from(columns.len()).map_err(|_| AllocError),
        }
    }

    /// The rows as a node that others can read. Where it is due, it is put now.
    #[tactic(auto, using(crate::proofs::Kept::settled_one, crate::proofs::Kept::settled_node))]
    pub fn settled(
        &mut self,
        alloc: Global,
        builder: &mut Builder,
    ) -> Result<DomainRows, AllocError>
        requires { IsFooting builder.old.nodes self.old.rows }
        ensures { IfOk result (Settles builder.old.nodes builder.new.nodes self.old self.new) }
    {
        match &self.rows {
            FootingRows::One => Ok(DomainRows::One),
            FootingRows::Node(id, width) => Ok(DomainRows::Node(*id, *width)),
            FootingRows::Due(outer, columns) => {
                let width = u32::try_from(columns.len()).map_err(|_| AllocError)?;
                let columns = Items::from_slice(alloc, columns.as_slice())?;
                let id = put_domain(builder, *outer, columns)?;
                self.rows = FootingRows::Node(id, width);
                Ok(DomainRows::Node(id, width))
            }
        }
    }
}

// The values of a node at these columns, identical ones once.
#[tactic(auto, using(plan_algebra::proofs::Fits::domain_fits))]
fn put_domain(
    builder: &mut Builder,
    outer: NodeId,
    columns: Items<u32>,
) -> Result<NodeId, AllocError>
    requires { outer < length builder.old.nodes }
    ensures { IfOk result (IsPut builder.old.nodes builder.new.nodes (domain_of outer columns)) }
{
    let id = builder.put(Node::Domain(outer, columns))?;
    Ok(id)
}
