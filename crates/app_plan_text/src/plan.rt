//! Flat plans, a line a node, in the plan's order.
ghost use Rattle.std.specs.Prelude.{◌≡◌, IfOk};
ghost use Rattle.plan_algebra.specs.Plans.{inputs_of};
ghost use Rattle.app_plan_text.specs.Lines.{AreLinesFrom, IsLineOf, kind_word};

use crate::line::PlanLine;
use crate::literal::push_literal;
use crate::names::{Row, rest_from};
use crate::node::{
    operation_words, put_groups, put_join, put_kept, put_list, put_mark, put_scan, put_selection,
    put_single,
};
use crate::numbering::Numbering;
use crate::row_writer::RowWriter;
use crate::writer::TextWriter;
use base_value::Value;
use plan_algebra::{Node, NodeId};
use std::alloc::{AllocError, Global};

/// The names of the columns of the node of this number.
fn columns_of(lines: &[PlanLine], node: NodeId) -> &[Vec<u8>] {
    match lines.get(node) {
        Some(line) => line.columns.as_slice(),
        None => &[],
    }
}

/// The row of a join of these nodes. Of the right row the matched columns, which stand first, are
/// dropped.
fn row_of<'n>(lines: &'n [PlanLine], i: NodeId, j: NodeId, pairs: &[(u32, u32)]) -> Row<'n> {
    Row {
        domain: &[],
        left: columns_of(lines, i),
        right: rest_from(columns_of(lines, j), pairs.len()),
    }
}

/// Appends the pairs of matched columns of these nodes.
fn push_matched(
    text: &mut TextWriter,
    lines: &[PlanLine],
    i: NodeId,
    j: NodeId,
    pairs: &[(u32, u32)],
) {
    let left = Row::of(columns_of(lines, i));
    let right = Row::of(columns_of(lines, j));
    for (place, pair) in pairs.iter().enumerate() {
        text.put(if place == 0 { b" matching " } else { b", " });
        text.put(left.name(pair.0));
        text.put(b" is ");
        text.put(right.name(pair.1));
    }
}

/// Appends names with commas between them.
fn push_names(text: &mut TextWriter, names: &[Vec<u8>]) {
    for (place, name) in names.iter().enumerate() {
        if place > 0 {
            text.put(b", ");
        }
        text.put(name.as_slice());
    }
}

/// Appends values with commas between them.
fn push_values(text: &mut TextWriter, values: &[Value]) {
    for (place, value) in values.iter().enumerate() {
        if place > 0 {
            text.put(b", ");
        }
        push_literal(text, value);
    }
}

/// Puts the groups of a domain: its columns, and the aggregates of no rows.
fn put_fill(
    alloc: Global,
    to: &mut RowWriter,
    groups: &[Vec<u8>],
    domain: &[Vec<u8>],
    empty: &[Value],
) {
    let rest = rest_from(groups, domain.len());
    to.columns.put_all(alloc, domain);
    to.columns.put_all(alloc, rest);
    to.detail.put(b"(");
    push_names(&mut to.detail, rest);
    to.detail.put(b") = (");
    push_values(&mut to.detail, empty);
    to.detail.put(b") where (");
    push_names(&mut to.detail, domain);
    to.detail.put(b") has no group");
}

/// Puts a node that reads two others.
fn put_of_two(alloc: Global, to: &mut RowWriter, lines: &[PlanLine], number: NodeId, node: &Node) {
    match node {
        Node::Join(i, j, pairs, c) | Node::Outer(i, j, pairs, _, c) => {
            let pairs = pairs.as_slice();
            put_join(alloc, to, &row_of(lines, *i, *j, pairs), c.get());
            push_matched(&mut to.detail, lines, *i, *j, pairs);
        }
        Node::Mark(i, j, pairs, c) => {
            let pairs = pairs.as_slice();
            put_mark(alloc, to, number, &row_of(lines, *i, *j, pairs), c.get());
            push_matched(&mut to.detail, lines, *i, *j, pairs);
        }
        Node::Single(i, j, pairs, column) => {
            let pairs = pairs.as_slice();
            put_single(alloc, to, number, &row_of(lines, *i, *j, pairs), *column);
            push_matched(&mut to.detail, lines, *i, *j, pairs);
        }
        _ => {}
    }
}

/// Puts the node of this number, after the lines of those before it.
fn put_node(
    alloc: Global,
    to: &mut RowWriter,
    numbering: &mut Numbering,
    lines: &[PlanLine],
    number: NodeId,
    node: &Node,
) {
    match node {
        Node::Scan(table) => put_scan(alloc, to, numbering, *table),
        Node::Kept(view, plan) => put_kept(alloc, to, *view, plan.get()),
        Node::Domain(i, places) => {
            let row = Row::of(columns_of(lines, *i));
            to.put_places(alloc, &row, places.as_slice(), b"");
        }
        Node::Select(i, c) => {
            put_selection(alloc, to, &Row::of(columns_of(lines, *i)), c.get());
        }
        Node::Project(i, es) => {
            let row = Row::of(columns_of(lines, *i));
            put_list(alloc, to, number, &row, es.as_slice());
        }
        Node::Group(i, by, aggregates) => {
            let row = Row::of(columns_of(lines, *i));
            let aggregates = aggregates.as_slice();
            put_groups(alloc, to, number, &row, by.as_slice(), aggregates);
        }
        Node::Distinct(i) | Node::Set(i, _, _) => {
            to.columns.put_all(alloc, columns_of(lines, *i));
        }
        Node::Fill(i, j, empty) => {
            let (groups, domain) = (columns_of(lines, *i), columns_of(lines, *j));
            put_fill(alloc, to, groups, domain, empty.as_slice());
        }
        _ => put_of_two(alloc, to, lines, number, node),
    }
}

/// The word for a node's kind.
fn kind_word(node: &Node) -> &'static str
    ensures { result.now ≡ kind_word node.now }
{
    match node {
        Node::Scan(_) => "scan",
        Node::Domain(_, _) => "domain",
        Node::Select(_, _) => "select",
        Node::Project(_, _) => "project",
        Node::Join(_, _, _, _) => "join",
        Node::Outer(_, _, _, _, _) => "outer",
        Node::Mark(_, _, _, _) => "mark",
        Node::Single(_, _, _, _) => "single",
        Node::Group(_, _, _) => "group",
        Node::Fill(_, _, _) => "fill",
        Node::Distinct(_) => "distinct",
        Node::Set(_, _, operation) => operation_words(*operation),
        Node::Kept(_, _) => "kept",
    }
}

/// The numbers of the nodes that a node reads.
fn inputs_of(alloc: Global, node: &Node) -> Result<Vec<NodeId>, AllocError>
    ensures { IfOk result (λ inputs. inputs.items ≡ inputs_of node.now) }
{
    match node {
        Node::Scan(_) | Node::Kept(_, _) => Ok(Vec::new(alloc)),
        Node::Domain(i, _)
        | Node::Select(i, _)
        | Node::Project(i, _)
        | Node::Group(i, _, _)
        | Node::Distinct(i) => {
            let inputs = Vec::from_slice(alloc, &[*i])?;
            Ok(inputs)
        }
        Node::Join(i, j, _, _)
        | Node::Outer(i, j, _, _, _)
        | Node::Mark(i, j, _, _)
        | Node::Single(i, j, _, _)
        | Node::Fill(i, j, _)
        | Node::Set(i, j, _) => {
            let inputs = Vec::from_slice(alloc, &[*i, *j])?;
            Ok(inputs)
        }
    }
}

/// The line of the node of this number, after those before it, with its rows where they were
/// counted.
fn line_of(
    alloc: Global,
    numbering: &mut Numbering,
    lines: &[PlanLine],
    number: NodeId,
    node: &Node,
    rows: Option<usize>,
) -> Result<PlanLine, AllocError>
    ensures { IfOk result (IsLineOf number node.now) }
{
    let inputs = inputs_of(alloc, node)?;
    let mut row = RowWriter::new(alloc);
    put_node(alloc, &mut row, numbering, lines, number, node);
    let line = row.line(
        alloc,
        number,
        0,
        kind_word(node).as_bytes(),
        inputs.as_slice(),
        rows,
    )?;
    Ok(line)
}

/// The numbering of a plan of these nodes.
fn numbering_of(nodes: &[Node]) -> Numbering {
    let mut numbering = Numbering::new(0);
    for node in nodes {
        if let Node::Scan(table) = node {
            let _number = numbering.scan(*table);
        }
    }
    numbering.again(0)
}

/// The lines of a plan: one for each node, in the plan's order, with its number, its kind and the
/// nodes that it reads, and its rows where a count of them is given.
pub fn plan_lines(
    alloc: Global,
    nodes: &[Node],
    counts: &[usize],
) -> Result<Vec<PlanLine>, AllocError>
    ensures { IfOk result (λ lines. AreLinesFrom 0 nodes.now lines.items) }
{
    let mut numbering = numbering_of(nodes);
    let mut lines: Vec<PlanLine> = Vec::new(alloc);
    for (number, node) in nodes.iter().enumerate() {
        let rows = counts.get(number).copied();
        let line = line_of(alloc, &mut numbering, lines.as_slice(), number, node, rows)?;
        lines.push(line)?;
    }
    Ok(lines)
}
