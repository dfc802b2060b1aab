//! The standings of groups.
ghost use Rattle.std.specs.Prelude.{◌≡◌, ◌++◌, map, length, slice_index, IfOk, OnOk};
ghost use Rattle.base_columns.specs.Lists.{AreBelow};
ghost use Rattle.exec_hash_group.specs.Standings.{ranks, row_ranks, least_of, greatest_of};
ghost use Rattle.exec_hash_group.specs.Standings.{AreOfNumbers};
ghost use Rattle.exec_hash_group.specs.Standings.{AreFirsts};

use base_columns::{Bag, Batch};
use base_value::Standing;
use std::alloc::{AllocError, Global};

// The standings of a batch's rows after others.
fn put_standings(standings: &mut Vec<Standing>, batch: &Batch) -> Result<(), AllocError>
    ensures { OnOk result (ranks standings.new.items
        ≡ ranks standings.old.items ++ row_ranks batch.now.rows) }
{
    for i in 0..batch.len() {
        standings.push(batch.standing(i))?;
    }
    Ok(())
}

/// How each row of a bag stands.
pub(crate) fn row_standings(alloc: Global, bag: &Bag) -> Result<Vec<Standing>, AllocError>
    ensures { IfOk result (λ v. ranks v.items ≡ row_ranks bag.now.rows) }
{
    let mut standings = Vec::with_capacity(alloc, bag.len())?;
    let batches = bag.batches();
    for batch in batches {
        put_standings(&mut standings, batch)?;
    }
    Ok(standings)
}

/// For each of `count` numbers the least of the standings of the rows with that number.
pub(crate) fn least_standings(
    alloc: Global,
    standings: &[Standing],
    numbers: &[u32],
    count: usize,
) -> Result<Vec<Standing>, AllocError>
    requires rows { length standings.now ≡ length numbers.now }
    requires numbers { AreBelow count numbers.now }
    ensures { IfOk result (λ v.
        AreOfNumbers (least_of numbers.now (ranks standings.now)) count (ranks v.items)) }
{
    let mut least = vec![in alloc; Standing::AtTrue; count]?;
    for i in 0..numbers.len() {
        let number = numbers[i] as usize;
        least[number] = least[number].lesser(standings[i]);
    }
    Ok(least)
}

// The standings at these places.
fn standings_at(
    alloc: Global,
    standings: &[Standing],
    places: &[u32],
) -> Result<Vec<Standing>, AllocError>
    requires { AreBelow (length standings.now) places.now }
    ensures { IfOk result (λ v. ranks v.items
        ≡ map (slice_index (ranks standings.now)) places.now) }
{
    let mut picked = Vec::with_capacity(alloc, places.len())?;
    for place in places {
        picked.push(standings[*place as usize])?;
    }
    Ok(picked)
}

/// For each number the greatest of the standings of the rows with that number, of which one stands
/// at its place of `firsts`.
pub(crate) fn greatest_standings(
    alloc: Global,
    standings: &[Standing],
    numbers: &[u32],
    firsts: &[u32],
) -> Result<Vec<Standing>, AllocError>
    requires rows { length standings.now ≡ length numbers.now }
    requires numbers { AreBelow (length firsts.now) numbers.now }
    requires firsts { AreFirsts numbers.now firsts.now }
    ensures { IfOk result (λ v.
        AreOfNumbers (greatest_of numbers.now (ranks standings.now)) (length firsts.now)
        (ranks v.items)) }
{
    let mut greatest = standings_at(alloc, standings, firsts)?;
    for i in 0..numbers.len() {
        let number = numbers[i] as usize;
        greatest[number] = greatest[number].greater(standings[i]);
    }
    Ok(greatest)
}
