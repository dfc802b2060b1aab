//! Where the keys of a part first stand among all keys.
ghost use Rattle.std.specs.Prelude.{◌≡◌, ◌<◌, ◌^◌, ◌++◌, ◌∷◌, [], cond, length, slice_index_or};
ghost use Rattle.std.specs.Prelude.{IfOk, OnOk};
ghost use Rattle.base_row_laws.specs.Bags.{IsIdentity, has};
ghost use Rattle.base_row_laws.specs.Numbers.{place_in};
ghost use Rattle.base_key_tables.specs.Distinct.{added};
ghost use Rattle.exec_key_parts.specs.KeyParts.{key_part, leaders_of_part};

use crate::parts::key_part;
use base_key_tables::KeySet;
use std::alloc::{AllocError, Global};
use std::hash::Hash;

// The place at which a key first stood: its own where it is new. The keys that were seen before have
// their first places beside them.
fn first_place<K: Copy + Eq + Hash + Drop>(
    seen: &mut KeySet<K>,
    firsts: &mut Vec<u32>,
    key: K,
    place: u32,
) -> Result<u32, AllocError>
    requires identity { IsIdentity K.eq }
    requires beside { length firsts.old.items ≡ length seen.old }
    ensures seen { OnOk result (seen.new ≡ added K.eq seen.old key) }
    ensures firsts { OnOk result (firsts.new.items
        ≡ cond (has K.eq key seen.old) firsts.old.items (firsts.old.items ++ place ∷ [])) }
    ensures first { IfOk result
        (λ p. p ≡ slice_index_or firsts.new.items (place_in K.eq seen.new key) 0) }
{
    let (number, is_new) = seen.put(key)?;
    if is_new {
        firsts.push(place)?;
        return Ok(place);
    }
    Ok(firsts[number])
}

/// For each key of a part the place at which it first stands among all keys.
pub(crate) fn part_leaders<K: Copy + Eq + Hash + Drop>(
    alloc: Global,
    keys: &[K],
    count: usize,
    part: usize,
) -> Result<Vec<u32>, AllocError>
    requires identity { IsIdentity K.eq }
    requires small { length keys.now < 2 ^ 32 }
    requires count { 0 < count }
    ensures { IfOk result
        (λ v. v.items ≡ leaders_of_part K.eq (key_part K.hash_input count) keys.now part) }
{
    let mut seen = KeySet::new(alloc);
    let mut firsts = Vec::new(alloc);
    let mut leaders = Vec::new(alloc);
    for place in 0..keys.len() {
        let key = keys[place];
        if key_part(&key, count) != part {
            continue;
        }
        let first = first_place(&mut seen, &mut firsts, key, place as u32)?;
        leaders.push(first)?;
    }
    Ok(leaders)
}
