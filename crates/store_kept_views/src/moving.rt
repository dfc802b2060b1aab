//! Rows of parts put into groups and taken out of them.
ghost use Rattle.std.specs.Prelude.{◌≡◌, ◌++◌, List, [], IfOk, OnOk, cond, length};
ghost use Rattle.base_columns.specs.Lists.{one_list};
ghost use Rattle.base_row_laws.specs.Ranked.{Ranked};
ghost use Rattle.base_value.specs.Truth.{standing_rank};
ghost use Rattle.base_value.specs.declared.value.Value.{Value as Datum};
ghost use Rattle.store_groups.specs.Entries.{CanTake, HasLong};
ghost use Rattle.store_kept_views.specs.Moving.{IsPut, IsTakenOut};
ghost use Rattle.plan_algebra.specs.KeptPlans.{selected};
ghost use Rattle.store_kept_views.specs.Standing.{CanAdd, CanMove, CanTakeAll, StandsBy};
ghost use Rattle.store_groups.specs.Entries.{group_at};
ghost use Rattle.store_kept_views.specs.Standing.{StandsFor};

use crate::part_reading::read_of;
use crate::placed::PlacedReading;
use base_value::{Standing, Value};
use plan_algebra::KeptPlan;
use std::alloc::{AllocError, Global};
use store_groups::{Groups, Taken};
use store_state::Part;

// Takes a row out of the group of a key. The key of a group that holds a fault is put into `stale`.
fn take_out(
    key: &[Value],
    arguments: &[Value],
    groups: &mut Groups,
    stale: &mut Groups,
) -> Result<(), AllocError>
    requires { CanTake arguments.now (group_at groups.old key.now) }
    ensures { OnOk result (IsTakenOut key.now arguments.now (group_at groups.old key.now)
        groups.old groups.new stale.old stale.new) }
{
    match groups.take_row(key, arguments)? {
        Taken::Faulty => {
            stale.put_key(key)?;
            Ok(())
        }
        Taken::Absent | Taken::Left | Taken::Gone => Ok(()),
    }
}

// Takes rows out of their groups.
fn take_rows(
    alloc: Global,
    reading: &PlacedReading<'_>,
    groups: &mut Groups,
    stale: &mut Groups,
) -> Result<(), AllocError>
    requires { CanTakeAll reading.now.plan groups.old stale.old reading.now.rows }
    ensures { OnOk result ((zs : List (Ranked Datum))
        → StandsBy reading.now.plan groups.old stale.old [] (reading.now.rows ++ zs)
        → StandsBy reading.now.plan groups.new stale.new [] zs) }
{
    let mut key = Vec::new(alloc);
    let mut arguments = Vec::new(alloc);
    for i in 0..reading.len() {
        reading.put_key(alloc, i, &mut key)?;
        reading.put_arguments(alloc, i, &mut arguments)?;
        take_out(key.as_slice(), arguments.as_slice(), groups, stale)?;
    }
    Ok(())
}

// Takes the rows of parts out of their groups.
fn take_parts(
    alloc: Global,
    plan: &KeptPlan,
    parts: &[Part],
    groups: &mut Groups,
    stale: &mut Groups,
) -> Result<(), AllocError>
    requires { CanTakeAll plan.now groups.old stale.old (selected plan.now (one_list parts.now)) }
    ensures { OnOk result ((zs : List (Ranked Datum))
        → StandsBy plan.now groups.old stale.old [] (selected plan.now (one_list parts.now) ++ zs)
        → StandsBy plan.now groups.new stale.new [] zs) }
{
    for part in parts {
        let reading = read_of(alloc, plan, part)?;
        take_rows(alloc, &reading, groups, stale)?;
    }
    Ok(())
}

// Puts a row into the group of a key, if the key is one of those that are wanted: those in `stale`,
// or the others.
fn put_in(
    key: &[Value],
    arguments: &[Value],
    standing: Standing,
    wanted: bool,
    stale: &Groups,
    groups: &mut Groups,
) -> Result<(), AllocError>
    requires { HasLong (length arguments.now) (group_at groups.old key.now) }
    ensures { OnOk result (IsPut key.now arguments.now (standing_rank standing) wanted stale.now
        groups.old groups.new) }
{
    if stale.contains(key) != wanted {
        return Ok(());
    }
    groups.put_row(key, arguments, standing)?;
    Ok(())
}

// Puts those of the rows whose keys are wanted into their groups.
fn put_rows(
    alloc: Global,
    reading: &PlacedReading<'_>,
    wanted: bool,
    stale: &Groups,
    groups: &mut Groups,
) -> Result<(), AllocError>
    requires { CanAdd reading.now.plan groups.old stale.now }
    ensures { OnOk result ((xs ys : List (Ranked Datum))
        → StandsBy reading.now.plan groups.old stale.now xs ys
        → StandsBy reading.now.plan groups.new stale.now
        (cond wanted (xs ++ reading.now.rows) xs) (cond wanted ys (ys ++ reading.now.rows))) }
{
    let mut key = Vec::new(alloc);
    let mut arguments = Vec::new(alloc);
    for i in 0..reading.len() {
        reading.put_key(alloc, i, &mut key)?;
        reading.put_arguments(alloc, i, &mut arguments)?;
        let standing = reading.standing(i);
        put_in(
            key.as_slice(),
            arguments.as_slice(),
            standing,
            wanted,
            stale,
            groups,
        )?;
    }
    Ok(())
}

// Puts those of the rows of parts whose keys are wanted into their groups.
fn put_parts(
    alloc: Global,
    plan: &KeptPlan,
    parts: &[Part],
    wanted: bool,
    stale: &Groups,
    groups: &mut Groups,
) -> Result<(), AllocError>
    requires { CanAdd plan.now groups.old stale.now }
    ensures { OnOk result ((xs ys : List (Ranked Datum))
        → StandsBy plan.now groups.old stale.now xs ys
        → StandsBy plan.now groups.new stale.now
        (cond wanted (xs ++ selected plan.now (one_list parts.now)) xs)
        (cond wanted ys (ys ++ selected plan.now (one_list parts.now)))) }
{
    for part in parts {
        let reading = read_of(alloc, plan, part)?;
        put_rows(alloc, &reading, wanted, stale, groups)?;
    }
    Ok(())
}

// Makes the groups of the keys in `stale` anew. Where there is none, no row is read.
fn make_anew(
    alloc: Global,
    plan: &KeptPlan,
    parts: &[Part],
    stale: &Groups,
    groups: &mut Groups,
) -> Result<(), AllocError>
    requires { CanAdd plan.now groups.old stale.now }
    ensures { OnOk result ((ys : List (Ranked Datum))
        → StandsBy plan.now groups.old stale.now [] ys
        → StandsBy plan.now groups.new stale.now (selected plan.now (one_list parts.now)) ys) }
{
    if stale.is_empty() {
        return Ok(());
    }
    put_parts(alloc, plan, parts, true, stale, groups)?;
    Ok(())
}

/// The groups of the rows of parts.
pub(crate) fn groups_of(
    alloc: Global,
    plan: &KeptPlan,
    parts: &[Part],
) -> Result<Groups, AllocError>
    ensures { IfOk result (λ groups. StandsFor plan.now groups (one_list parts.now)) }
{
    let mut groups = Groups::new(alloc)?;
    let stale = Groups::new(alloc)?;
    put_parts(alloc, plan, parts, false, &stale, &mut groups)?;
    Ok(groups)
}

/// The groups of the rows of parts after some rows were removed and others added. The parts are
/// read only where a group that holds a fault lost a row.
pub(crate) fn groups_after(
    alloc: Global,
    plan: &KeptPlan,
    groups: &Groups,
    added: &[Part],
    removed: &[Part],
    parts: &[Part],
) -> Result<Groups, AllocError>
    requires { CanMove plan.now groups.now
        (one_list added.now) (one_list removed.now) (one_list parts.now) }
    ensures { IfOk result (λ groups. StandsFor plan.now groups (one_list parts.now)) }
{
    let mut next = groups.share()?;
    let mut stale = Groups::new(alloc)?;
    take_parts(alloc, plan, removed, &mut next, &mut stale)?;
    put_parts(alloc, plan, added, false, &stale, &mut next)?;
    make_anew(alloc, plan, parts, &stale, &mut next)?;
    Ok(next)
}
