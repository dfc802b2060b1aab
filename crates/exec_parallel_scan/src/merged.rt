//! Aggregates of groups by several threads: accumulators of each part's groups, merged.
ghost use Rattle.std.specs.Prelude.{◌≡◌, ◌<◌, ◌^◌, ◌++◌, map, length, IfOk, OnOk};
ghost use Rattle.base_columns.specs.Lists.{one_list, AreBelow};
ghost use Rattle.exec_hash_group.specs.PartGroups.{part_keys, part_arguments, scale_of};
ghost use Rattle.exec_hash_group.specs.PartGroups.{merged_column};
ghost use Rattle.exec_hash_group.specs.Regrouping.{lists_by_number};
ghost use Rattle.exec_hash_group.specs.States.{HaveTaken};

use crate::made::one_after_other;
use base_columns::Column;
use base_value::Value;
use exec_accumulators::{
    Accumulator, Average, Count, CountDistinct, CountRows, Greatest, Least, Sum,
};
use exec_hash_group::{GroupedPart, column_of, merged_by_number, part_states, scale_of};
use exec_threads::{all_made, map_parts};
use expr_aggregates::AggregateFunction;
use plan_algebra::Aggregate;
use std::alloc::{AllocError, Global};
use std::thread::Threads;

// For each group of the parts, one part after the other, what an accumulator has taken: a thread
// for each part.
fn all_states<A: Accumulator + Send, R: Threads + Sync>(
    rt: &R,
    alloc: Global,
    parts: &[GroupedPart],
    aggregate: &Aggregate,
) -> Result<Vec<A>, AllocError>
    ensures { IfOk result (λ v. HaveTaken A.has_taken A.terms (A.aggregate (scale_of aggregate.now))
        (part_arguments aggregate.now parts.now) v.items) }
{
    let made = map_parts(
        rt,
        alloc,
        parts,
        1,
        &|_start: usize, part: &[GroupedPart]| -> Result<Vec<A>, AllocError>
            ensures { IfOk result (λ v.
                HaveTaken A.has_taken A.terms (A.aggregate (scale_of aggregate.entry.now))
                (part_arguments aggregate.entry.now part.now) v.items) }
        { part_states::<A>(alloc, part, aggregate) },
    )?;
    let states = all_made(alloc, made)?;
    let all = one_after_other(alloc, states)?;
    Ok(all)
}

// For each of `count` groups the accumulator's aggregate of what the parts' groups with its number
// have.
fn merged_values<A: Accumulator + Send, R: Threads + Sync>(
    rt: &R,
    alloc: Global,
    parts: &[GroupedPart],
    numbers: &[u32],
    count: usize,
    aggregate: &Aggregate,
) -> Result<Vec<Value>, AllocError>
    requires long { length numbers.now ≡ length (part_keys parts.now) }
    requires small { length numbers.now < 2 ^ 32 }
    requires below { AreBelow count numbers.now }
    ensures { IfOk result (λ v. v.items
        ≡ map (λ ls. A.aggregate (scale_of aggregate.now) (one_list ls))
        (lists_by_number numbers.now (part_arguments aggregate.now parts.now) 0 count)) }
{
    let states = all_states::<A, R>(rt, alloc, parts, aggregate)?;
    let values = merged_by_number::<A>(alloc, scale_of(aggregate), numbers, count, states)?;
    Ok(values)
}

// For each of `count` groups the aggregate of what the parts' groups with its number have.
fn merged_aggregates<R: Threads + Sync>(
    rt: &R,
    alloc: Global,
    parts: &[GroupedPart],
    numbers: &[u32],
    count: usize,
    aggregate: &Aggregate,
) -> Result<Vec<Value>, AllocError>
    requires long { length numbers.now ≡ length (part_keys parts.now) }
    requires small { length numbers.now < 2 ^ 32 }
    requires below { AreBelow count numbers.now }
    ensures { IfOk result
        (λ v. v.items ≡ merged_column parts.now numbers.now count aggregate.now) }
{
    match aggregate {
        Aggregate::CountRows => {
            merged_values::<CountRows, R>(rt, alloc, parts, numbers, count, aggregate)
        }
        Aggregate::Of(AggregateFunction::Count, _, _) => {
            merged_values::<Count, R>(rt, alloc, parts, numbers, count, aggregate)
        }
        Aggregate::Of(AggregateFunction::CountDistinct, _, _) => {
            merged_values::<CountDistinct, R>(rt, alloc, parts, numbers, count, aggregate)
        }
        Aggregate::Of(AggregateFunction::Sum, _, _) => {
            merged_values::<Sum, R>(rt, alloc, parts, numbers, count, aggregate)
        }
        Aggregate::Of(AggregateFunction::Avg, _, _) => {
            merged_values::<Average, R>(rt, alloc, parts, numbers, count, aggregate)
        }
        Aggregate::Of(AggregateFunction::Min, _, _) => {
            merged_values::<Least, R>(rt, alloc, parts, numbers, count, aggregate)
        }
        Aggregate::Of(AggregateFunction::Max, _, _) => {
            merged_values::<Greatest, R>(rt, alloc, parts, numbers, count, aggregate)
        }
    }
}

/// The aggregates of each of `count` groups, as further columns, from the parts' groups, which have
/// these numbers.
pub(crate) fn put_merged<R: Threads + Sync>(
    rt: &R,
    alloc: Global,
    columns: &mut Vec<Column>,
    parts: &[GroupedPart],
    numbers: &[u32],
    count: usize,
    aggregates: &[Aggregate],
) -> Result<(), AllocError>
    requires long { length numbers.now ≡ length (part_keys parts.now) }
    requires small { length numbers.now < 2 ^ 32 }
    requires below { AreBelow count numbers.now }
    ensures { OnOk result (columns.new.items
        ≡ columns.old.items ++ map (merged_column parts.now numbers.now count) aggregates.now) }
{
    for aggregate in aggregates {
        let values = merged_aggregates(rt, alloc, parts, numbers, count, aggregate)?;
        let column = column_of(alloc, values.as_slice())?;
        columns.push(column)?;
    }
    Ok(())
}
