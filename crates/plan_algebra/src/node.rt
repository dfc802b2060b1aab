//! The nodes of a flat plan.
use crate::aggregate::Aggregate;
use crate::kept_plan::KeptPlan;
use base_schema::TableName;
use base_set_rows::SetOperation;
use base_value::Value;
use expr_scalar::Expr;
use sqlite_items::{Boxed, Items};

/// A node's number in its plan, from 0.
pub type NodeId = usize;

/// A node of a flat plan. It reads the rows of the nodes that it names, and none of them anew for
/// each row.
///
/// Pairs match a column of the left node with one of the right node: a left row's partners are the
/// right rows whose matched columns are identical to its own. The matched columns of the right row
/// are dropped from the result.
pub enum Node {
    /// The rows of a table.
    Scan(TableName),
    /// The rows of the kept view of a number, which are those of its plan.
    Kept(u32, Boxed<KeptPlan>),
    /// The values at these columns, identical ones once.
    Domain(NodeId, Items<u32>),
    /// The rows that the condition keeps.
    Select(NodeId, Boxed<Expr>),
    /// A select list.
    Project(NodeId, Items<Expr>),
    /// The inner join of a left and a right node under a condition over the combined row.
    Join(NodeId, NodeId, Items<(u32, u32)>, Boxed<Expr>),
    /// The left outer join. The number is that of the nulls which a left row without a kept partner
    /// gets.
    Outer(NodeId, NodeId, Items<(u32, u32)>, u32, Boxed<Expr>),
    /// Each left row with its mark.
    Mark(NodeId, NodeId, Items<(u32, u32)>, Boxed<Expr>),
    /// Each left row with the value of its one partner, in this column of what is left of it.
    Single(NodeId, NodeId, Items<(u32, u32)>, u32),
    /// The groups by these columns, with aggregates. Without columns all rows are one group, also
    /// where there are none.
    Group(NodeId, Items<u32>, Items<Aggregate>),
    /// The groups of the first node, which are by just the columns of the second one, a domain; and
    /// each of its rows that has no group, with the aggregates of no rows.
    Fill(NodeId, NodeId, Items<Value>),
    /// Identical rows once.
    Distinct(NodeId),
    /// A set operation of the left and the right node.
    Set(NodeId, NodeId, SetOperation),
}

impl Drop for Node {
    #[inline]
    fn drop(self) {
        match self {
            Node::Scan(_) => {}
            Node::Kept(_, kept) => drop(kept),
            Node::Domain(_, kept) => drop(kept),
            Node::Select(_, kept) => drop(kept),
            Node::Project(_, kept) => drop(kept),
            Node::Join(_, _, first, second) => {
                drop(first);
                drop(second);
            }
            Node::Outer(_, _, first, _, second) => {
                drop(first);
                drop(second);
            }
            Node::Mark(_, _, first, second) => {
                drop(first);
                drop(second);
            }
            Node::Single(_, _, kept, _) => drop(kept),
            Node::Group(_, first, second) => {
                drop(first);
                drop(second);
            }
            Node::Fill(_, _, kept) => drop(kept),
            Node::Distinct(_) => {}
            Node::Set(_, _, _) => {}
        }
    }
}
