//! Flat plans, and how they are built.
ghost use Rattle.std.specs.Prelude.{◌≡◌, [], ◌∷◌, ◌++◌, length, IsTrue, IfOk, OnErr};
ghost use Rattle.plan_algebra.specs.Plans.{fits, is_formed};

use crate::node::{Node, NodeId};
use base_order_limit::OrderKey;
use sqlite_items::Items;
use std::alloc::{AllocError, Global};

/// A plan in which no node depends on the rows of another: each names nodes before it. The last
/// node's rows are the result.
#[derive(Drop)]
pub struct FlatPlan {
    /// The nodes, each after those that it names.
    pub nodes: Items<Node>,
    /// The keys of ORDER BY; none where it is absent.
    pub order: Items<OrderKey>,
    /// How many rows the answer has at most; nothing where no limit stands.
    pub limit: Option<u64>,

    ghost formed: { IsTrue (is_formed nodes) },
}

/// A plan that is being built.
#[derive(Drop)]
pub struct Builder {
    /// The nodes so far.
    pub nodes: Items<Node>,

    ghost formed: { IsTrue (is_formed nodes) },
}

impl Builder {
    /// A plan of no nodes.
    #[tactic(auto, using(crate::proofs::Fits::none_formed))]
    pub fn new(alloc: Global) -> Builder
        ensures { result.nodes ≡ [] }
    {
        Builder {
            nodes: Items::new(alloc),
        }
    }

    /// One more node, and its number. Out of memory leaves the plan as before.
    #[tactic(auto, using(crate::proofs::Fits::grown))]
    pub fn put(&mut self, node: Node) -> Result<NodeId, AllocError>
        requires { IsTrue (fits self.old.nodes node) }
        ensures number { IfOk result (λ id. id ≡ length self.old.nodes) }
        ensures nodes { IfOk result (λ id. self.new.nodes ≡ self.old.nodes ++ node ∷ []) }
        ensures err { OnErr result (self.new.nodes ≡ self.old.nodes) }
    {
        let id = self.nodes.len();
        self.nodes.push(node)?;
        Ok(id)
    }

    /// The plan of the nodes so far, with an order and a row limit.
    pub fn finish(self, order: Items<OrderKey>, limit: Option<u64>) -> FlatPlan
        ensures nodes { result.nodes ≡ self.nodes }
        ensures order { result.order ≡ order }
        ensures limit { result.limit ≡ limit }
    {
        let Builder { nodes, .. } = self;
        FlatPlan {
            nodes,
            order,
            limit,
        }
    }
}
