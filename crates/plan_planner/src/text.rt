//! A flat plan as it is printed.
ghost use Rattle.std.specs.Prelude.{◌≡◌, ◌++◌, length, IfOk, OnOk};
ghost use Rattle.plan_algebra.specs.Plans.{plan_scans};
ghost use Rattle.plan_planner.specs.PlanText.{kind_name, is_scan, spaced, reads_text, node_line};
ghost use Rattle.plan_planner.specs.PlanText.{head_line, text_of_plan, operation_name};

use base_set_rows::{ClassKind, SetOperation};
use itoa::Buffer;
use plan_algebra::{FlatPlan, Node, NodeId};
use std::alloc::{AllocError, Global};

/// The text of a plan: a line `plan nodes N reads R` with the numbers of its nodes and of its
/// scans; and for each node, in the plan's order, a line with its number, its kind, and the numbers
/// of its inputs, a scan's table, or a kept view's number.
pub fn plan_text(alloc: Global, plan: &FlatPlan) -> Result<Vec<u8>, AllocError>
    ensures { IfOk result (λ text. text.items ≡ text_of_plan plan.now.nodes) }
{
    let text = nodes_text(alloc, plan.nodes.as_slice())?;
    Ok(text)
}

fn nodes_text(alloc: Global, nodes: &[Node]) -> Result<Vec<u8>, AllocError>
    ensures { IfOk result (λ text. text.items ≡ text_of_plan nodes.now) }
{
    let mut text = Vec::new(alloc);
    push_head(&mut text, nodes)?;
    for (number, node) in nodes.iter().enumerate() {
        push_node(&mut text, number, node)?;
    }
    Ok(text)
}

fn is_scan(node: &Node) -> bool
    ensures { result ≡ is_scan node.now }
{
    matches!(node, Node::Scan(_) | Node::Kept(_, _))
}

// How many of the nodes are scans.
fn scans(nodes: &[Node]) -> usize
    ensures { result ≡ length (plan_scans nodes.now) }
{
    let mut count: usize = 0;
    for node in nodes {
        if is_scan(node) {
            count += 1;
        }
    }
    count
}

// Appends the first line.
fn push_head(text: &mut Vec<u8>, nodes: &[Node]) -> Result<(), AllocError>
    ensures { OnOk result (text.new.items ≡ text.old.items ++ head_line nodes.now) }
{
    let mut buffer = Buffer::new();
    text.extend_from_slice(b"plan nodes ")?;
    text.extend_from_slice(buffer.format(nodes.len()).as_bytes())?;
    text.extend_from_slice(b" reads ")?;
    text.extend_from_slice(buffer.format(scans(nodes)).as_bytes())?;
    text.push(b'\n')?;
    Ok(())
}

// The name of a set operation, with ALL and without.
fn operation_name(operation: SetOperation) -> &'static str
    ensures { result.now ≡ operation_name operation }
{
    match operation {
        SetOperation::Union => "union",
        SetOperation::Classes(ClassKind::Intersect, _) => "intersect",
        SetOperation::Classes(ClassKind::Except, _) => "except",
    }
}

// The name of a node's kind.
fn kind_name(node: &Node) -> &'static str
    ensures { result.now ≡ kind_name node.now }
{
    match node {
        Node::Scan(_) => "scan",
        Node::Domain(_, _) => "domain",
        Node::Select(_, _) => "select",
        Node::Project(_, _) => "project",
        Node::Join(_, _, _, _) => "join",
        Node::Outer(_, _, _, _, _) => "outer",
        Node::Mark(_, _, _, _) => "mark",
        Node::Single(_, _, _, _) => "single",
        Node::Group(_, _, _) => "group",
        Node::Fill(_, _, _) => "fill",
        Node::Distinct(_) => "distinct",
        Node::Set(_, _, operation) => operation_name(*operation),
        Node::Kept(_, _) => "kept",
    }
}

// Appends a number after a space.
fn push_spaced(text: &mut Vec<u8>, number: NodeId) -> Result<(), AllocError>
    ensures { OnOk result (text.new.items ≡ text.old.items ++ spaced number) }
{
    let mut buffer = Buffer::new();
    text.push(b' ')?;
    text.extend_from_slice(buffer.format(number).as_bytes())?;
    Ok(())
}

// Appends what a node reads.
fn push_reads(text: &mut Vec<u8>, node: &Node) -> Result<(), AllocError>
    ensures { OnOk result (text.new.items ≡ text.old.items ++ reads_text node.now) }
{
    match node {
        Node::Scan(table) => {
            text.push(b' ')?;
            text.extend_from_slice(table.name().as_bytes())?;
            Ok(())
        }
        Node::Domain(i, _)
        | Node::Select(i, _)
        | Node::Project(i, _)
        | Node::Group(i, _, _)
        | Node::Distinct(i) => {
            push_spaced(text, *i)?;
            Ok(())
        }
        Node::Join(i, j, _, _)
        | Node::Outer(i, j, _, _, _)
        | Node::Mark(i, j, _, _)
        | Node::Single(i, j, _, _)
        | Node::Fill(i, j, _)
        | Node::Set(i, j, _) => {
            push_spaced(text, *i)?;
            push_spaced(text, *j)?;
            Ok(())
        }
        Node::Kept(number, _) => {
            push_spaced(text, *number as usize)?;
            Ok(())
        }
    }
}

// Appends the line of a node.
fn push_node(text: &mut Vec<u8>, number: NodeId, node: &Node) -> Result<(), AllocError>
    ensures { OnOk result (text.new.items ≡ text.old.items ++ node_line number node.now) }
{
    let mut buffer = Buffer::new();
    text.extend_from_slice(buffer.format(number).as_bytes())?;
    text.push(b' ')?;
    text.extend_from_slice(kind_name(node).as_bytes())?;
    push_reads(text, node)?;
    text.push(b'\n')?;
    Ok(())
}
