//! Numbers of keys of 64 bits. Those that ascend need no table: each run of equal keys has the
//! next number.
ghost use Rattle.std.specs.Prelude.{◌≡◌, ◌<◌, ◌-◌, ◌^◌, ◌++◌, ◌∷◌, [], not, pos, true, length};
ghost use Rattle.std.specs.Prelude.{slice_index_or, IfOk, OnOk, IsTrue, if◌then◌else◌};
ghost use Rattle.std.specs.Ordering.{int_eq};
ghost use Rattle.base_row_laws.specs.Numbers.{numbers_of};
ghost use Rattle.base_key_tables.specs.Distinct.{first_places};
ghost use Rattle.exec_hash_group.specs.Runs.{Ascend};

use crate::workers::Workers;
use base_key_tables::Numbered;
use std::alloc::{AllocError, Global};

// Whether no key is below the one before it.
fn ascend(keys: &[i64]) -> bool
    ensures { IsTrue result → Ascend keys.now }
{
    for i in 1..keys.len() {
        if keys[i] < keys[i - 1] {
            return false;
        }
    }
    true
}

// Whether the key at a place isn't the one before it.
fn begins_run(keys: &[i64], place: usize) -> bool
    requires { place < length keys.now }
    ensures first { place ≡ 0 → result ≡ true }
    ensures later { 0 < place
        → result ≡ not (int_eq (slice_index_or keys.now place (pos 0))
        (slice_index_or keys.now (place - 1) (pos 0))) }
{
    place == 0 || keys[place] != keys[place - 1]
}

// Notes the place where a run begins.
fn note_run(firsts: &mut Vec<u32>, begins: bool, place: u32) -> Result<(), AllocError>
    ensures { OnOk result (firsts.new.items
        ≡ (if begins then firsts.old.items ++ place ∷ [] else firsts.old.items)) }
{
    if begins {
        firsts.push(place)?;
    }
    Ok(())
}

// The numbers of keys that ascend, and where each first stands.
fn run_numbers(alloc: Global, keys: &[i64]) -> Result<Numbered, AllocError>
    requires small { length keys.now < 2 ^ 32 }
    requires ascend { Ascend keys.now }
    ensures numbers { IfOk result (λ n. n.numbers.items ≡ numbers_of int_eq keys.now) }
    ensures firsts { IfOk result (λ n. n.firsts.items ≡ first_places int_eq keys.now) }
{
    let mut numbers = Vec::with_capacity(alloc, keys.len())?;
    let mut firsts = Vec::new(alloc);
    for place in 0..keys.len() {
        note_run(&mut firsts, begins_run(keys, place), place as u32)?;
        numbers.push(firsts.len() as u32 - 1)?;
    }
    Ok(Numbered { numbers, firsts })
}

/// The number of each key, and where each number first stands. `AllocError` at 2^32 keys: numbers
/// are `u32`.
pub(crate) fn key_numbers<W: Workers>(
    workers: &W,
    alloc: Global,
    keys: &[i64],
) -> Result<Numbered, AllocError>
    requires { W.ready workers.now }
    ensures numbers { IfOk result (λ n. n.numbers.items ≡ numbers_of int_eq keys.now) }
    ensures firsts { IfOk result (λ n. n.firsts.items ≡ first_places int_eq keys.now) }
{
    if keys.len() > u32::MAX as usize {
        return Err(AllocError);
    }
    if ascend(keys) {
        let numbered = run_numbers(alloc, keys)?;
        return Ok(numbered);
    }
    let numbered = workers.table_numbers(alloc, keys)?;
    Ok(numbered)
}
