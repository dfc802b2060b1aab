//! The numbers that spell a flat plan.
ghost use Rattle.std.specs.Prelude.{◌≡◌, ◌++◌, ◌∷◌, ◌+◌, ◌*◌, length, IfOk, OnOk};
ghost use Rattle.std.specs.List.{flat_map};
ghost use Rattle.plan_algebra.specs.KeptPlans.{plain_aggregate};
ghost use Rattle.plan_algebra.specs.declared.node.Node.TheVariants.{Domain, Fill, Group, Kept, Scan};
ghost use Rattle.plan_spelling.specs.Exprs.{expr_spelling};
ghost use Rattle.plan_spelling.specs.Plans as spec;
ghost use Rattle.plan_spelling.specs.Plans.{aggregate_spelling, node_spelling, pair_numbers};
ghost use Rattle.plan_spelling.specs.Plans.{value_spelling};

use crate::exprs::{put_expr, put_exprs};
use crate::values::{
    aggregate_number, operation_number, put_bytes, put_pairs, put_places, put_value,
};
use base_schema::TableName;
use base_value::Value;
use expr_scalar::Expr;
use plan_algebra::{Aggregate, KeptAggregate, KeptPlan, Node};
use std::alloc::{AllocError, Global};

#[tactic(auto, using(crate::proofs::Written::aggregate_written))]
fn put_aggregate(numbers: &mut Vec<u128>, aggregate: &Aggregate) -> Result<(), AllocError>
    ensures { OnOk result
        (numbers.new.items ≡ numbers.old.items ++ aggregate_spelling aggregate.now) }
{
    match aggregate {
        Aggregate::CountRows => numbers.extend_from_slice(&[1, 18, 0]),
        Aggregate::Of(function, scale, argument) => {
            let scale = scale.places() as u128;
            numbers.extend_from_slice(&[3, 19, aggregate_number(*function), scale, 1])?;
            put_expr(numbers, argument.get())
        }
    }
}

fn put_aggregates(numbers: &mut Vec<u128>, aggregates: &[Aggregate]) -> Result<(), AllocError>
    ensures { OnOk result
        (numbers.new.items ≡ numbers.old.items ++ flat_map aggregate_spelling aggregates.now) }
{
    for aggregate in aggregates {
        put_aggregate(numbers, aggregate)?;
    }
    Ok(())
}

fn put_values(numbers: &mut Vec<u128>, values: &[Value]) -> Result<(), AllocError>
    ensures { OnOk result
        (numbers.new.items ≡ numbers.old.items ++ flat_map value_spelling values.now) }
{
    for value in values {
        put_value(numbers, 20, value)?;
    }
    Ok(())
}

#[tactic(auto, using(crate::proofs::Written::aggregate_written))]
fn put_kept_aggregate(numbers: &mut Vec<u128>, aggregate: &KeptAggregate) -> Result<(), AllocError>
    ensures { OnOk result (numbers.new.items
        ≡ numbers.old.items ++ aggregate_spelling (plain_aggregate aggregate.now)) }
{
    match aggregate {
        KeptAggregate::CountRows => numbers.extend_from_slice(&[1, 18, 0]),
        KeptAggregate::Count(argument) => {
            numbers.extend_from_slice(&[3, 19, 0, 0, 1])?;
            put_expr(numbers, argument.get())
        }
        KeptAggregate::Sum(scale, argument) => {
            numbers.extend_from_slice(&[3, 19, 2, scale.places() as u128, 1])?;
            put_expr(numbers, argument.get())
        }
    }
}

fn put_kept_aggregates(
    numbers: &mut Vec<u128>,
    aggregates: &[KeptAggregate],
) -> Result<(), AllocError>
    ensures { OnOk result (numbers.new.items ≡ numbers.old.items
        ++ flat_map (λ a. aggregate_spelling (plain_aggregate a)) aggregates.now) }
{
    for aggregate in aggregates {
        put_kept_aggregate(numbers, aggregate)?;
    }
    Ok(())
}

#[tactic(auto, using(crate::proofs::Written::kept_written))]
fn put_kept(numbers: &mut Vec<u128>, number: u32, plan: &KeptPlan) -> Result<(), AllocError>
    ensures { OnOk result (numbers.new.items
        ≡ numbers.old.items ++ node_spelling (Kept number plan.now)) }
{
    let name = plan.table.name().as_bytes();
    let (by, list) = (plan.by.as_slice(), plan.list.as_slice());
    let count = by.len() as u128 + list.len() as u128 + name.len() as u128 + 4;
    let sizes = [
        count,
        33,
        number as u128,
        by.len() as u128,
        list.len() as u128,
    ];
    numbers.extend_from_slice(&sizes)?;
    put_places(numbers, by)?;
    put_places(numbers, list)?;
    put_bytes(numbers, name)?;
    numbers.push(plan.aggregates.len() as u128 + 1)?;
    put_expr(numbers, plan.condition.get())?;
    put_kept_aggregates(numbers, plan.aggregates.as_slice())
}

#[tactic(auto, using(crate::proofs::Written::node_written))]
fn put_scan(numbers: &mut Vec<u128>, table: TableName) -> Result<(), AllocError>
    ensures { OnOk result (numbers.new.items ≡ numbers.old.items ++ node_spelling (Scan table)) }
{
    let name = table.name().as_bytes();
    numbers.extend_from_slice(&[name.len() as u128 + 1, 21])?;
    put_bytes(numbers, name)?;
    numbers.extend_from_slice(&[0])
}

#[tactic(auto, using(crate::proofs::Written::node_written))]
fn put_domain(numbers: &mut Vec<u128>, i: usize, places: &[u32]) -> Result<(), AllocError>
    ensures { OnOk result (numbers.new.items
        ≡ numbers.old.items ++ node_spelling (Domain i places.now)) }
{
    numbers.extend_from_slice(&[places.len() as u128 + 2, 22, i as u128])?;
    put_places(numbers, places)?;
    numbers.extend_from_slice(&[0])
}

/// Appends what spells a join or a mark, by the number of its kind.
fn put_pairing(
    numbers: &mut Vec<u128>,
    kind: u128,
    i: usize,
    j: usize,
    matched: &[(u32, u32)],
    e: &Expr,
) -> Result<(), AllocError>
    ensures { OnOk result (numbers.new.items ≡ numbers.old.items ++ (length matched.now * 2 + 3)
        ∷ kind ∷ i ∷ j ∷ (pair_numbers matched.now ++ 1 ∷ expr_spelling e.now)) }
{
    let count = matched.len() as u128 * 2 + 3;
    numbers.extend_from_slice(&[count, kind, i as u128, j as u128])?;
    put_pairs(numbers, matched)?;
    numbers.push(1)?;
    put_expr(numbers, e)
}

/// Appends what spells a join whose pairs have one number more, by the number of its kind.
fn put_matched(
    numbers: &mut Vec<u128>,
    kind: u128,
    i: usize,
    j: usize,
    matched: &[(u32, u32)],
    more: u32,
) -> Result<(), AllocError>
    ensures { OnOk result (numbers.new.items ≡ numbers.old.items ++ (length matched.now * 2 + 4)
        ∷ kind ∷ i ∷ j ∷ more ∷ pair_numbers matched.now) }
{
    let count = matched.len() as u128 * 2 + 4;
    numbers.extend_from_slice(&[count, kind, i as u128, j as u128, more as u128])?;
    put_pairs(numbers, matched)
}

#[tactic(auto, using(crate::proofs::Written::node_written))]
fn put_group(
    numbers: &mut Vec<u128>,
    i: usize,
    by: &[u32],
    aggregates: &[Aggregate],
) -> Result<(), AllocError>
    ensures { OnOk result (numbers.new.items
        ≡ numbers.old.items ++ node_spelling (Group i by.now aggregates.now)) }
{
    numbers.extend_from_slice(&[by.len() as u128 + 2, 29, i as u128])?;
    put_places(numbers, by)?;
    numbers.push(aggregates.len() as u128)?;
    put_aggregates(numbers, aggregates)
}

#[tactic(auto, using(crate::proofs::Written::node_written))]
fn put_fill(numbers: &mut Vec<u128>, i: usize, j: usize, empty: &[Value]) -> Result<(), AllocError>
    ensures { OnOk result (numbers.new.items
        ≡ numbers.old.items ++ node_spelling (Fill i j empty.now)) }
{
    numbers.extend_from_slice(&[3, 30, i as u128, j as u128, empty.len() as u128])?;
    put_values(numbers, empty)
}

#[tactic(auto, using(crate::proofs::Written::node_written))]
fn put_node(numbers: &mut Vec<u128>, node: &Node) -> Result<(), AllocError>
    ensures { OnOk result (numbers.new.items ≡ numbers.old.items ++ node_spelling node.now) }
{
    match node {
        Node::Scan(table) => put_scan(numbers, *table),
        Node::Domain(i, places) => put_domain(numbers, *i, places.as_slice()),
        Node::Select(i, e) => {
            numbers.extend_from_slice(&[2, 23, *i as u128, 1])?;
            put_expr(numbers, e.get())
        }
        Node::Project(i, es) => {
            numbers.extend_from_slice(&[2, 24, *i as u128, es.len() as u128])?;
            put_exprs(numbers, es.as_slice())
        }
        Node::Join(i, j, matched, e) => {
            put_pairing(numbers, 25, *i, *j, matched.as_slice(), e.get())
        }
        Node::Outer(i, j, matched, nulls, e) => {
            put_matched(numbers, 26, *i, *j, matched.as_slice(), *nulls)?;
            numbers.push(1)?;
            put_expr(numbers, e.get())
        }
        Node::Mark(i, j, matched, e) => {
            put_pairing(numbers, 27, *i, *j, matched.as_slice(), e.get())
        }
        Node::Single(i, j, matched, column) => {
            put_matched(numbers, 28, *i, *j, matched.as_slice(), *column)?;
            numbers.extend_from_slice(&[0])
        }
        Node::Group(i, by, aggregates) => {
            put_group(numbers, *i, by.as_slice(), aggregates.as_slice())
        }
        Node::Fill(i, j, empty) => put_fill(numbers, *i, *j, empty.as_slice()),
        Node::Distinct(i) => numbers.extend_from_slice(&[2, 31, *i as u128, 0]),
        Node::Set(i, j, operation) => {
            let operation = operation_number(*operation);
            numbers.extend_from_slice(&[4, 32, *i as u128, *j as u128, operation, 0])
        }
        Node::Kept(number, plan) => put_kept(numbers, *number, plan.get()),
    }
}

/// Appends the numbers that spell nodes, one after the other.
fn put_nodes(numbers: &mut Vec<u128>, nodes: &[Node]) -> Result<(), AllocError>
    ensures { OnOk result
        (numbers.new.items ≡ numbers.old.items ++ flat_map node_spelling nodes.now) }
{
    for node in nodes {
        put_node(numbers, node)?;
    }
    Ok(())
}

/// The numbers that spell a plan of these nodes.
#[tactic(auto, using(crate::proofs::Written::plan_written))]
pub fn plan_spelling(alloc: Global, nodes: &[Node]) -> Result<Vec<u128>, AllocError>
    ensures { IfOk result (λ numbers. numbers.items ≡ spec.plan_spelling nodes.now) }
{
    let mut numbers = Vec::new(alloc);
    numbers.extend_from_slice(&[0, nodes.len() as u128])?;
    put_nodes(&mut numbers, nodes)?;
    Ok(numbers)
}
