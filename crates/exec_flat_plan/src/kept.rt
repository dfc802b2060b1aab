//! The rows of a plan's nodes, each as long as a later node reads it.
ghost use Rattle.std.specs.Prelude.{◌≡◌, ◌<◌, ◌≤◌, length, drop, slice_index, nat_lt, IsTrue, IfOk};
ghost use Rattle.std.specs.List.{list_all};
ghost use Rattle.plan_algebra.specs.Plans.{rows_at, inputs_of};
ghost use Rattle.exec_flat_plan.specs.Kept.{all_rows, all_widths, is_there, reads_node, is_read};
ghost use Rattle.exec_flat_plan.specs.Kept.{released, Spares};

use crate::lent::LentBag;
use crate::node_rows::NodeRows;
use plan_algebra::{Node, NodeId};
use std::alloc::{AllocError, Global};
use std::thread::Threads;

// The rows of a node.
pub(crate) fn rows_at<'b, 'a>(bags: &'b [Option<NodeRows<'a>>], id: NodeId) -> &'b NodeRows<'a>
    requires { IsTrue (is_there bags.now id) }
    ensures rows { result.now.rows ≡ rows_at (all_rows bags.now) id }
    ensures width { result.now.width ≡ slice_index (all_widths bags.now) id }
{
    match &bags[id] {
        Some(rows) => rows,
        None => unreachable!(),
    }
}

// The rows of a node as a bag.
pub(crate) fn bag_at<'b, 'a, R: Threads + Sync>(
    rt: &R,
    alloc: Global,
    bags: &'b [Option<NodeRows<'a>>],
    id: NodeId,
) -> Result<LentBag<'b>, AllocError>
    requires { IsTrue (is_there bags.now id) }
    ensures rows { IfOk result (λ b. b.rows ≡ rows_at (all_rows bags.now) id) }
    ensures width { IfOk result (λ b. b.width ≡ slice_index (all_widths bags.now) id) }
{
    let bag = rows_at(bags, id).bag(rt, alloc)?;
    Ok(bag)
}

// Whether a node reads the node of this number.
fn reads_node(node: &Node, id: NodeId) -> bool
    ensures { result ≡ reads_node id node.now }
{
    match node {
        Node::Scan(_) => false,
        Node::Domain(rows, _)
        | Node::Select(rows, _)
        | Node::Project(rows, _)
        | Node::Group(rows, _, _)
        | Node::Distinct(rows) => id == *rows,
        Node::Join(left, right, _, _)
        | Node::Outer(left, right, _, _, _)
        | Node::Mark(left, right, _, _)
        | Node::Single(left, right, _, _)
        | Node::Fill(left, right, _)
        | Node::Set(left, right, _) => id == *left || id == *right,
        Node::Kept(_, _) => false,
    }
}

// Whether one of the nodes reads the node of this number.
fn is_read(nodes: &[Node], id: NodeId) -> bool
    ensures { result ≡ is_read id nodes.now }
{
    for node in nodes {
        if reads_node(node, id) {
            return true;
        }
    }
    false
}

// Whether at most one of the nodes reads the node of this number: then a scan may leave its rows
// for that one to compute.
pub(crate) fn is_read_once(nodes: &[Node], id: NodeId) -> bool {
    let mut is_found = false;
    for node in nodes {
        if reads_node(node, id) {
            if is_found {
                return false;
            }
            is_found = true;
        }
    }
    true
}

// Lets the bag of a node go that none of the nodes from the k-th on reads.
fn release(bags: &mut Vec<Option<NodeRows<'_>>>, id: NodeId, nodes: &[Node], k: usize)
    requires id { id < length bags.old.items }
    requires k { k ≤ length nodes.now }
    ensures { bags.new.items ≡ released (drop k nodes.now) id bags.old.items }
{
    if !is_read(&nodes[k..], id) {
        bags[id] = None;
    }
}

// Lets the bags go that a node has read as the last one: none of the nodes from the k-th on reads
// them.
pub(crate) fn release_read(
    bags: &mut Vec<Option<NodeRows<'_>>>,
    node: &Node,
    nodes: &[Node],
    k: usize,
)
    requires inputs { IsTrue
        (list_all (λ i. nat_lt i (length bags.old.items)) (inputs_of node.now)) }
    requires k { k ≤ length nodes.now }
    ensures { Spares node.now (drop k nodes.now) bags.old.items bags.new.items }
{
    match node {
        Node::Scan(_) => {}
        Node::Domain(rows, _)
        | Node::Select(rows, _)
        | Node::Project(rows, _)
        | Node::Group(rows, _, _)
        | Node::Distinct(rows) => release(bags, *rows, nodes, k),
        Node::Join(left, right, _, _)
        | Node::Outer(left, right, _, _, _)
        | Node::Mark(left, right, _, _)
        | Node::Single(left, right, _, _)
        | Node::Fill(left, right, _)
        | Node::Set(left, right, _) => {
            release(bags, *left, nodes, k);
            release(bags, *right, nodes, k);
        }
        Node::Kept(_, _) => {}
    }
}
