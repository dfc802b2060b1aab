//! Numbers of keys: equal ones exactly for the same keys.
ghost use Rattle.std.specs.Prelude.{◌≡◌, ℕ, ◌<◌, ◌^◌, ◌+◌, ◌++◌, ◌∷◌, [], not, length, slice_get};
ghost use Rattle.std.specs.Prelude.{Some, IfOk, OnOk, if◌then◌else◌};
ghost use Rattle.base_row_laws.specs.Bags.{IsIdentity, has};
ghost use Rattle.base_row_laws.specs.Numbers.{numbers_of};
ghost use Rattle.base_key_tables.specs.Distinct.{added, first_places};

use crate::key_set::KeySet;
use std::alloc::{AllocError, Global};
use std::hash::Hash;

/// The numbers of keys, and the first place of each number.
#[derive(Drop)]
pub struct Numbered {
    /// Each key's number, from 0 in the order in which the keys first came.
    pub numbers: Vec<u32>,
    /// For each number the first place at which it stands.
    pub firsts: Vec<u32>,
}

// Notes the place of a key that is new.
fn note_first(firsts: &mut Vec<u32>, is_new: bool, row: u32) -> Result<(), AllocError>
    ensures { OnOk result (firsts.new.items
        ≡ (if is_new then firsts.old.items ++ row ∷ [] else firsts.old.items)) }
{
    if is_new {
        firsts.push(row)?;
    }
    Ok(())
}

/// The number of each key, and where each number first stands.
pub fn numbers<K: Copy + Eq + Hash + Drop>(
    alloc: Global,
    keys: &[K],
) -> Result<Numbered, AllocError>
    requires small { length keys.now < 2 ^ 32 }
    requires identity { IsIdentity K.eq }
    ensures numbers { IfOk result (λ n. n.numbers.items ≡ numbers_of K.eq keys.now) }
    ensures firsts { IfOk result (λ n. n.firsts.items ≡ first_places K.eq keys.now) }
{
    let mut seen = KeySet::new(alloc);
    let mut numbers = Vec::with_capacity(alloc, keys.len())?;
    let mut firsts = Vec::new(alloc);
    for row in 0..keys.len() {
        let (number, is_new) = seen.put(keys[row])?;
        numbers.push(number as u32)?;
        note_first(&mut firsts, is_new, row as u32)?;
    }
    Ok(Numbered { numbers, firsts })
}
