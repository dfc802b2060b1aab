//! What accumulators have of the groups of parts.
ghost use Rattle.std.specs.Prelude.{◌≡◌, IfOk};
ghost use Rattle.exec_hash_group.specs.PartGroups.{group_arguments, part_arguments, scale_of};
ghost use Rattle.exec_hash_group.specs.States.{HaveTaken};

use crate::group_by::argument_column;
use crate::groups::states_by_number;
use crate::part::GroupedPart;
use crate::values::{ColumnValues, Nulls};
use base_decimal::Scale;
use exec_accumulators::Accumulator;
use plan_algebra::Aggregate;
use std::alloc::{AllocError, Global};

/// The scale of an aggregate's argument.
pub fn scale_of(aggregate: &Aggregate) -> Scale
    ensures { result ≡ scale_of aggregate.now }
{
    match aggregate {
        Aggregate::CountRows => Scale::WHOLE,
        Aggregate::Of(_, scale, _) => *scale,
    }
}

// For each group of a part an accumulator that has taken the aggregate's argument in its rows.
fn group_states<A: Accumulator>(
    alloc: Global,
    part: &GroupedPart,
    aggregate: &Aggregate,
) -> Result<Vec<A>, AllocError>
    ensures { IfOk result (λ v. HaveTaken A.has_taken A.terms (A.aggregate (scale_of aggregate.now))
        (group_arguments aggregate.now part.now) v.items) }
{
    let numbers = part.numbers.as_slice();
    match aggregate {
        Aggregate::CountRows => {
            let nulls = Nulls::new(numbers.len());
            let scale = Scale::WHOLE;
            let counts = states_by_number::<A, Nulls>(
                alloc,
                scale,
                numbers,
                part.keys.len(),
                &nulls,
            )?;
            Ok(counts)
        }
        Aggregate::Of(_, scale, e) => {
            let arguments = argument_column(alloc, &part.rows, e.get(), *scale)?;
            let values = ColumnValues::new(alloc, &arguments);
            let states = states_by_number::<A, ColumnValues>(
                alloc,
                *scale,
                numbers,
                part.keys.len(),
                &values,
            )?;
            Ok(states)
        }
    }
}

/// For each group of these parts, one part after the other, an accumulator that has taken the
/// aggregate's argument in its rows.
pub fn part_states<A: Accumulator>(
    alloc: Global,
    parts: &[GroupedPart],
    aggregate: &Aggregate,
) -> Result<Vec<A>, AllocError>
    ensures { IfOk result (λ v. HaveTaken A.has_taken A.terms (A.aggregate (scale_of aggregate.now))
        (part_arguments aggregate.now parts.now) v.items) }
{
    let mut states = Vec::new(alloc);
    for part in parts {
        let mut more = group_states::<A>(alloc, part, aggregate)?;
        states.append(&mut more)?;
    }
    Ok(states)
}
