//! Numbers of keys by several threads, each of which takes a part of the keys.
ghost use Rattle.std.specs.Prelude.{◌≡◌, ℕ, ◌+◌, ◌<◌, ◌≤◌, ◌^◌, ◌++◌, ◌∷◌, [], map, length};
ghost use Rattle.std.specs.Prelude.{set, slice_index_or, IfOk, OnOk};
ghost use Rattle.base_row_laws.specs.Bags.{IsIdentity};
ghost use Rattle.base_row_laws.specs.Numbers.{numbers_of};
ghost use Rattle.base_key_tables.specs.Distinct.{first_places};
ghost use Rattle.exec_key_parts.specs.KeyParts.{key_part, leaders_of_part, AreLeaders};

use crate::leaders::part_leaders;
use crate::parts::key_part;
use base_key_tables::{Numbered, numbers};
use exec_threads::part_count;
use rayon::prelude::*;
use std::alloc::{AllocError, Global};
use std::hash::Hash;
use std::thread::Threads;

// For each part the places at which its keys first stand among all keys: a thread for each part.
fn all_leaders<R: Threads + Sync, K: Copy + Eq + Hash + Drop + Send + Sync>(
    rt: &R,
    alloc: Global,
    keys: &[K],
    count: usize,
) -> Result<Vec<Vec<u32>>, AllocError>
    requires identity { IsIdentity K.eq }
    requires small { length keys.now < 2 ^ 32 }
    requires count { 0 < count }
    ensures count { IfOk result (λ v. length v.items ≡ count) }
    ensures leaders { IfOk result (λ v. AreLeaders K.eq (key_part K.hash_input count) keys.now
        (map (λ l. l.items) v.items)) }
{
    let made = (0..count)
        .into_par_iter()
        .with_min_len(1)
        .map(
            |part: usize| -> Result<Vec<u32>, AllocError>
                requires identity { IsIdentity K.eq }
                requires small { length keys.now < 2 ^ 32 }
                requires count { 0 < count }
                ensures { IfOk result (λ v. v.items
                    ≡ leaders_of_part K.eq (key_part K.hash_input count) keys.entry.now part) }
            { part_leaders(alloc, keys, count, part) },
        )
        .collect::<Result<Vec<Vec<u32>>, AllocError>>(rt, alloc)?;
    let leaders = made?;
    Ok(leaders)
}

// The next leader of a part; `taken` says how many of each part were taken.
fn next_leader(leaders: &[Vec<u32>], taken: &mut Vec<usize>, part: usize) -> u32
    requires parts { length taken.old.items ≡ length leaders.now }
    requires part { part < length leaders.now }
    requires left { slice_index_or taken.old.items part 0
        < length (slice_index_or (map (λ l. l.items) leaders.now) part []) }
    ensures leader { result ≡ slice_index_or (slice_index_or (map (λ l. l.items) leaders.now)
        part []) (slice_index_or taken.old.items part 0) 0 }
    ensures taken { taken.new.items
        ≡ set taken.old.items part (slice_index_or taken.old.items part 0 + 1) }
{
    let next = taken[part];
    let leader = leaders[part][next];
    taken[part] = next + 1;
    leader
}

// Puts the number of the key at a place after those of the keys before it. It first stood at
// `first`, which is the place itself where the key is new.
fn put_number(
    numbers: &mut Vec<u32>,
    firsts: &mut Vec<u32>,
    first: u32,
    place: u32,
) -> Result<(), AllocError>
    requires long { length numbers.old.items ≡ place }
    requires few { length firsts.old.items < 2 ^ 32 }
    ensures known { first < place → OnOk result ((firsts.new.items ≡ firsts.old.items)
        × (numbers.new.items
        ≡ numbers.old.items ++ slice_index_or numbers.old.items first 0 ∷ [])) }
    ensures new { place ≤ first → OnOk result ((firsts.new.items ≡ firsts.old.items ++ place ∷ [])
        × (numbers.new.items ≡ numbers.old.items ++ length firsts.old.items ∷ [])) }
{
    if first < place {
        let number = numbers[first as usize];
        numbers.push(number)?;
        return Ok(());
    }
    numbers.push(firsts.len() as u32)?;
    firsts.push(place)?;
    Ok(())
}

// The numbers of keys by the leaders of each part: where its keys first stand among all.
fn numbers_by_leaders<K: Copy + Eq + Hash + Drop>(
    alloc: Global,
    keys: &[K],
    leaders: &[Vec<u32>],
) -> Result<Numbered, AllocError>
    requires identity { IsIdentity K.eq }
    requires small { length keys.now < 2 ^ 32 }
    requires some { 0 < length leaders.now }
    requires leaders { AreLeaders K.eq (key_part K.hash_input (length leaders.now)) keys.now
        (map (λ l. l.items) leaders.now) }
    ensures numbers { IfOk result (λ n. n.numbers.items ≡ numbers_of K.eq keys.now) }
    ensures firsts { IfOk result (λ n. n.firsts.items ≡ first_places K.eq keys.now) }
{
    let mut taken = vec![in alloc; 0usize; leaders.len()]?;
    let mut numbers = Vec::with_capacity(alloc, keys.len())?;
    let mut firsts = Vec::new(alloc);
    for place in 0..keys.len() {
        let part = key_part(&keys[place], leaders.len());
        let first = next_leader(leaders, &mut taken, part);
        put_number(&mut numbers, &mut firsts, first, place as u32)?;
    }
    Ok(Numbered { numbers, firsts })
}

/// The number of each key, and where each number first stands, by as many threads as there are
/// processors: each reads all keys, and numbers those of its own part. 2^32 keys or more aren't
/// taken.
pub fn numbers_in_parts<R: Threads + Sync, K: Copy + Eq + Hash + Drop + Send + Sync>(
    rt: &R,
    alloc: Global,
    keys: &[K],
) -> Result<Numbered, AllocError>
    requires small { length keys.now < 2 ^ 32 }
    requires identity { IsIdentity K.eq }
    ensures numbers { IfOk result (λ n. n.numbers.items ≡ numbers_of K.eq keys.now) }
    ensures firsts { IfOk result (λ n. n.firsts.items ≡ first_places K.eq keys.now) }
{
    let count = part_count(rt);
    if count == 1 {
        let numbered = numbers(alloc, keys)?;
        return Ok(numbered);
    }
    let leaders = all_leaders(rt, alloc, keys, count)?;
    let numbered = numbers_by_leaders(alloc, keys, leaders.as_slice())?;
    Ok(numbered)
}
