//! What the nodes of a plan took: rows, bytes and time, and how joins found their pairs.
ghost use Rattle.std.specs.Prelude.{◌≡◌, ◌<◌};

use crate::ways::{JoinWay, way_of_join, way_of_single};
use base_columns::{Bag, Batch, Column, ColumnForm};
use exec_flat_plan::run;
use expr_scalar::Expr;
use plan_algebra::{FlatPlan, Node, Steps, Tables};
use std::alloc::{AllocError, Global};
use std::marker::Brand;
use std::sync::ledger::{Blank, Ledger};
use std::thread::Threads;
use std::time::{Clock, Instant};

/// What the run of a plan up to one of its nodes gave.
#[derive(Clone, Copy)]
pub struct NodeFigures {
    /// How many rows the node has.
    pub rows: usize,
    /// How many bytes the values of its rows take.
    pub bytes: usize,
    /// How many microseconds the run took; 0 where the clock can't be read.
    pub micros: u64,
    /// How it finds its pairs, where it is a join.
    pub way: Option<JoinWay>,
}

/// The rows of a node, and how many microseconds the run up to it took.
struct NodeRun {
    bag: Bag,
    micros: u64,
}

// By hand, so that each place that drops one has a call in its proof.
impl Drop for NodeRun {
    #[inline]
    fn drop(self) {
        let NodeRun { bag, micros: _ } = self;
        drop(bag);
    }
}

/// The numbers of rows alone.
pub fn rows_of(alloc: Global, figures: &[NodeFigures]) -> Result<Vec<usize>, AllocError> {
    let mut rows = Vec::new(alloc);
    for node in figures {
        rows.push(node.rows)?;
    }
    Ok(rows)
}

/// How many bytes a value takes that is kept by itself.
const VALUE_BYTES: usize = 32;

/// How many bytes the value at a place takes.
fn value_bytes(column: &Column, place: usize) -> usize {
    if place >= column.len() {
        return 0;
    }
    match column.text(place) {
        Some(bytes) => bytes.len(),
        None => VALUE_BYTES,
    }
}

/// How many bytes the texts and other values of a column take.
fn values_bytes(column: &Column) -> usize {
    let mut sum: usize = 0;
    for place in 0..column.len() {
        sum = sum.saturating_add(value_bytes(column, place));
    }
    sum
}

/// How many bytes the values of a column take.
fn column_bytes(column: &Column) -> usize {
    if column.as_codes().is_some() || column.marked_codes().is_some() {
        return column.len();
    }
    match column.kept_form() {
        ColumnForm::Numbers(_) => column.len().saturating_mul(8),
        ColumnForm::Dates => column.len().saturating_mul(4),
        ColumnForm::Texts | ColumnForm::Values => values_bytes(column),
    }
}

/// How many bytes the values of a batch take.
fn batch_bytes(batch: &Batch) -> usize {
    let mut sum: usize = 0;
    for place in 0..batch.width() {
        sum = sum.saturating_add(column_bytes(batch.column(place)));
    }
    sum
}

/// How many bytes the values of a bag take.
fn bag_bytes(bag: &Bag) -> usize {
    let mut sum: usize = 0;
    for batch in bag.batches() {
        sum = sum.saturating_add(batch_bytes(batch));
    }
    sum
}

/// The time, where the clock can be read.
fn time_now<R: Clock>(clock: &R) -> Option<Instant> {
    match Instant::now(clock) {
        Ok(time) => Some(time),
        Err(_) => None,
    }
}

/// How many microseconds went by since then.
fn micros_since<R: Clock>(clock: &R, start: Option<Instant>) -> u64 {
    let Some(start) = start else {
        return 0;
    };
    match start.elapsed(clock) {
        Ok(time) => {
            let micros = u64::from(time.subsec_micros());
            time.as_secs()
                .saturating_mul(1_000_000)
                .saturating_add(micros)
        }
        Err(_) => 0,
    }
}

/// The rows of a plan.
fn last_run<R: Threads + Sync, T: Tables, L: Ledger>(
    rt: &R,
    alloc: Global,
    plan: &FlatPlan,
    tables: &T,
    blank: Blank,
) -> Result<Bag, AllocError>
    requires name { blank.name ≡ L.name }
    requires parts { blank.parts ≡ L.parts }
    requires some { 0 < blank.parts }
{
    let mut steps: Steps<L> = Steps::new(blank);
    run(rt, alloc, plan, tables, &mut steps)
}

/// The rows of a plan by steps with a ledger of their own, and how long that took.
fn own_run<R: Threads + Sync + Clock, T: Tables>(
    rt: &R,
    alloc: Global,
    plan: &FlatPlan,
    tables: &T,
) -> Result<NodeRun, AllocError> {
    let blank = Blank::new(1);
    let start = time_now(rt);
    let bag = last_run::<R, T, Brand>(rt, alloc, plan, tables, blank)?;
    let micros = micros_since(rt, start);
    Ok(NodeRun { bag, micros })
}

/// The plan without its last node.
fn without_last(plan: FlatPlan) -> FlatPlan {
    let FlatPlan {
        nodes,
        order,
        limit,
    } = plan;
    let mut nodes = nodes;
    let _last = nodes.pop();
    FlatPlan {
        nodes,
        order,
        limit,
    }
}

/// Appends the rows of a plan.
fn put_run<R: Threads + Sync + Clock, T: Tables>(
    rt: &R,
    alloc: Global,
    runs: &mut Vec<NodeRun>,
    plan: &FlatPlan,
    tables: &T,
) -> Result<(), AllocError> {
    let run = own_run(rt, alloc, plan, tables)?;
    runs.push(run)?;
    Ok(())
}

/// Appends the rows of each node of a plan, the last one first. The plan is run for each of its
/// nodes, as if that were the last one.
fn put_runs<R: Threads + Sync + Clock, T: Tables>(
    rt: &R,
    alloc: Global,
    runs: &mut Vec<NodeRun>,
    plan: FlatPlan,
    tables: &T,
) -> Result<(), AllocError> {
    let mut left = plan;
    for _ in 0..left.nodes.len() {
        put_run(rt, alloc, runs, &left, tables)?;
        left = without_last(left);
    }
    Ok(())
}

/// How nodes of these rows find their pairs under a condition. Without one these are the partners
/// for a scalar subquery.
fn way_of_sides(
    alloc: Global,
    left: Option<&NodeRun>,
    right: Option<&NodeRun>,
    matched: &[(u32, u32)],
    on: Option<&Expr>,
) -> Result<Option<JoinWay>, AllocError> {
    let (Some(left), Some(right)) = (left, right) else {
        return Ok(None);
    };
    let way = match on {
        Some(on) => way_of_join(alloc, &left.bag, &right.bag, matched, on)?,
        None => way_of_single(alloc, &left.bag, &right.bag, matched)?,
    };
    Ok(Some(way))
}

/// How a node finds its pairs, where it is a join of nodes of these runs.
fn way_of(alloc: Global, node: &Node, runs: &[NodeRun]) -> Result<Option<JoinWay>, AllocError> {
    match node {
        Node::Join(i, j, matched, on)
        | Node::Outer(i, j, matched, _, on)
        | Node::Mark(i, j, matched, on) => {
            let (left, right) = (runs.get(*i), runs.get(*j));
            way_of_sides(alloc, left, right, matched.as_slice(), Some(on.get()))
        }
        Node::Single(i, j, matched, _) => {
            let (left, right) = (runs.get(*i), runs.get(*j));
            way_of_sides(alloc, left, right, matched.as_slice(), None)
        }
        _ => Ok(None),
    }
}

/// What a node gives, which has one of these runs.
fn figures_of(
    alloc: Global,
    node: &Node,
    run: &NodeRun,
    runs: &[NodeRun],
) -> Result<NodeFigures, AllocError> {
    let way = way_of(alloc, node, runs)?;
    Ok(NodeFigures {
        rows: run.bag.len(),
        bytes: bag_bytes(&run.bag),
        micros: run.micros,
        way,
    })
}

/// What nodes of these runs give.
fn figures_of_runs(
    alloc: Global,
    nodes: &[Node],
    runs: &[NodeRun],
) -> Result<Vec<NodeFigures>, AllocError> {
    let mut figures = Vec::new(alloc);
    for (node, run) in nodes.iter().zip(runs.iter()) {
        let own = figures_of(alloc, node, run, runs)?;
        figures.push(own)?;
    }
    Ok(figures)
}

/// What each node of these gives over tables. They are those of the plan, which is taken apart. All
/// rows of all nodes are kept meanwhile.
pub fn node_figures<R: Threads + Sync + Clock, T: Tables>(
    rt: &R,
    alloc: Global,
    nodes: &[Node],
    plan: FlatPlan,
    tables: &T,
) -> Result<Vec<NodeFigures>, AllocError> {
    let mut runs = Vec::new(alloc);
    put_runs(rt, alloc, &mut runs, plan, tables)?;
    runs.reverse();
    figures_of_runs(alloc, nodes, runs.as_slice())
}
