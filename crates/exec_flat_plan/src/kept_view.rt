//! The rows of kept views.
ghost use Rattle.std.specs.Prelude.{◌≡◌, ◌+◌, ◌≤◌, ◌<◌, length, IfOk, OnOk};
ghost use Rattle.base_row_laws.specs.Bags.{SameBag};
ghost use Rattle.plan_algebra.specs.KeptPlans.{query_rows};

use crate::scan::table_scan;
use base_columns::Bag;
use exec_parallel_scan::{Stage, staged_bag};
use plan_algebra::{KeptPlan, Steps, Tables, plain_aggregates, shown_columns};
use std::alloc::{AllocError, Global};
use std::marker::Brand;
use std::sync::ledger::{Blank, Ledger};
use std::thread::Threads;

// The rows of a kept plan, computed from its table. What is read for them has steps of its own.
fn computed<R: Threads + Sync, T: Tables, L: Ledger>(
    rt: &R,
    alloc: Global,
    plan: &KeptPlan,
    tables: &T,
    blank: Blank,
) -> Result<Bag, AllocError>
    requires name { blank.name ≡ L.name }
    requires parts { blank.parts ≡ L.parts }
    requires some { 0 < blank.parts }
    ensures rows { IfOk result
        (λ b. b.rows ≡ query_rows plan.now (T.rows tables.now plan.now.table)) }
    ensures width { IfOk result (λ b. b.width ≡ length plan.now.list) }
{
    let mut steps: Steps<L> = Steps::new(blank);
    let scan = table_scan(alloc, plan.table, tables, &mut steps)?;
    let kept = scan.then(alloc, Stage::Select(plan.condition.get()))?;
    let aggregates = plain_aggregates(alloc, plan.aggregates.as_slice())?;
    let groups = kept.grouped(rt, alloc, plan.by.as_slice(), aggregates.as_slice())?;
    let columns = shown_columns(alloc, plan.list.as_slice())?;
    let bag = staged_bag(rt, alloc, &groups, &[Stage::Project(columns.as_slice())])?;
    Ok(bag)
}

// The rows of the kept view of a number and a plan: those that the tables hold, or else computed.
fn view_bag<R: Threads + Sync, T: Tables>(
    rt: &R,
    alloc: Global,
    number: u32,
    plan: &KeptPlan,
    tables: &T,
) -> Result<Bag, AllocError>
    ensures rows { IfOk result
        (λ b. SameBag b.rows (query_rows plan.now (T.rows tables.now plan.now.table))) }
    ensures width { IfOk result (λ b. b.width ≡ length plan.now.list) }
{
    match tables.kept(alloc, number, plan)? {
        Some(bag) => Ok(bag),
        None => {
            let blank = Blank::new(1);
            let bag = computed::<R, T, Brand>(rt, alloc, plan, tables, blank)?;
            Ok(bag)
        }
    }
}

/// The rows of the kept view of a number and a plan, with a step for each.
pub(crate) fn kept_rows<R: Threads + Sync, T: Tables, L: Ledger>(
    rt: &R,
    alloc: Global,
    number: u32,
    plan: &KeptPlan,
    tables: &T,
    steps: &mut Steps<L>,
) -> Result<Bag, AllocError>
    ensures rows { IfOk result
        (λ b. SameBag b.rows (query_rows plan.now (T.rows tables.now plan.now.table))) }
    ensures width { IfOk result (λ b. b.width ≡ length plan.now.list) }
    ensures steps { OnOk result (steps.new
        ≡ steps.old + length (query_rows plan.now (T.rows tables.now plan.now.table))) }
    ensures most { steps.new
        ≤ steps.old + length (query_rows plan.now (T.rows tables.now plan.now.table)) }
{
    let bag = view_bag(rt, alloc, number, plan, tables)?;
    steps.add(bag.len() as u64);
    Ok(bag)
}
