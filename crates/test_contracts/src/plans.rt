//! Nodes of plans, and their rows.
ghost use Rattle.std.specs.Prelude.{◌≡◌, ◌+◌, ◌<◌, ◌≤◌, length, IfOk, OnOk};
ghost use Rattle.base_row_laws.specs.Bags.{SameBag};
ghost use Rattle.base_row_laws.specs.Matched.{side_matched};
ghost use Rattle.base_row_laws.specs.Trees.{side_width};
ghost use Rattle.plan_algebra.specs.declared.node.Node.TheVariants as node;
ghost use Rattle.plan_algebra.specs.Plans.{plan_reads, plan_width, result_rows, result_width};
ghost use Rattle.plan_algebra.specs.Trees.{side_of};
ghost use Rattle.plan_unnested_nodes.specs.Domains.{IsInPlan};
ghost use Rattle.plan_unnested_nodes.specs.Footings.{IsFooting, Settles};
ghost use Rattle.plan_unnested_nodes.specs.Growth.{IsPut};
ghost use Rattle.plan_unnested_nodes.specs.Lowerings.{IsTotal};

use base_columns::Bag;
use expr_scalar::Expr;
use plan_algebra::{Aggregate, Builder, FlatPlan, NodeId, Side, Steps, Tables};
use plan_unnested_nodes::{DomainRows, Footing};
use std::alloc::{AllocError, Global};
use std::sync::ledger::Ledger;
use std::thread::Threads;

/// As [`Footing::settled`].
pub fn settled(
    footing: &mut Footing,
    alloc: Global,
    builder: &mut Builder,
) -> Result<DomainRows, AllocError>
    requires { IsFooting builder.old.nodes footing.old.rows }
    ensures { IfOk result (Settles builder.old.nodes builder.new.nodes footing.old footing.new) }
{
    footing.settled(alloc, builder)
}

/// As [`plan_unnested_nodes::put_mark`].
pub fn put_mark(
    alloc: Global,
    builder: &mut Builder,
    outer: NodeId,
    rows: NodeId,
    side: &Side,
    width: u32,
    condition: &Expr,
) -> Result<NodeId, AllocError>
    requires outer { outer < length builder.old.nodes }
    requires rows { rows < length builder.old.nodes }
    requires width { side_width (side_of side.now) width ≤ plan_width builder.old.nodes rows }
    ensures { IfOk result
        (IsPut builder.old.nodes builder.new.nodes
        (node.Mark outer rows (side_matched (side_of side.now) width) condition.now)) }
{
    plan_unnested_nodes::put_mark(alloc, builder, outer, rows, side, width, condition)
}

/// As [`plan_unnested_nodes::put_total`].
pub fn put_total(
    alloc: Global,
    builder: &mut Builder,
    rows: NodeId,
    aggregates: &[Aggregate],
    domain: DomainRows,
) -> Result<NodeId, AllocError>
    requires rows { rows < length builder.old.nodes }
    requires domain { IsInPlan builder.old.nodes domain }
    ensures { IfOk result
        (IsTotal builder.old.nodes builder.new.nodes rows aggregates.now domain) }
{
    plan_unnested_nodes::put_total(alloc, builder, rows, aggregates, domain)
}

/// As [`exec_flat_plan::run`].
pub fn run<R: Threads + Sync, T: Tables, L: Ledger>(
    rt: &R,
    alloc: Global,
    plan: &FlatPlan,
    tables: &T,
    steps: &mut Steps<L>,
) -> Result<Bag, AllocError>
    ensures rows { IfOk result
        (λ b. SameBag b.rows (result_rows (T.rows tables.now) plan.now.nodes)) }
    ensures width { IfOk result (λ b. b.width ≡ result_width plan.now.nodes) }
    ensures steps { OnOk result
        (steps.new ≡ steps.old + plan_reads (T.rows tables.now) plan.now.nodes) }
    ensures most { steps.new ≤ steps.old + plan_reads (T.rows tables.now) plan.now.nodes }
{
    exec_flat_plan::run(rt, alloc, plan, tables, steps)
}
