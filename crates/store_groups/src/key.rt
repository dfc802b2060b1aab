//! Keys with their hashes.
ghost use Rattle.std.specs.Prelude.{◌≡◌, IfOk, MatchOption, Some, false, slice_get};
ghost use Rattle.base_row_laws.specs.Bags.{has};
ghost use Rattle.store_groups.specs.Entries.{IsHash, hash_in, same_key};

use base_value::{Row, RowKey, Value};
use std::alloc::{AllocError, Global};
use std::hash::{FoldHasher, Hash, Hasher};
use std::marker::Model;

/// A share of a key, seen as the list of its values, and the key's hash.
#[derive(Drop)]
pub(crate) struct Key {
    hash: u64,
    values: Row,
}

impl Model for Key {
    ghost use Rattle.std.specs.Prelude.{List};
    ghost use Rattle.base_value.specs.declared.value.Value.{Value as Datum};
    ghost use Rattle.store_groups.specs.Entries.{IsHash};

    ghost Value = { List Datum };

    ghost view = { λ k. k.values };

    ghost invariant = { λ k. IsHash ⟦<Row as Hash>⟧.hash_input k.hash k.values };
}

// The hash of a key.
fn hashed(key: &[Value]) -> u64
    ensures { result ≡ hash_in ⟦<Row as Hash>⟧.hash_input key.now }
{
    let mut state = FoldHasher::default();
    key.hash(&mut state);
    state.finish()
}

/// The hash of a key.
pub(crate) fn hash_of(key: &[Value]) -> u64
    ensures { IsHash ⟦<Row as Hash>⟧.hash_input result key.now }
{
    hashed(key)
}

impl Key {
    /// A key of this hash.
    pub(crate) fn new(alloc: Global, hash: u64, key: &[Value]) -> Result<Key, AllocError>
        requires { IsHash ⟦<Row as Hash>⟧.hash_input hash key.now }
        ensures { IfOk result (λ k. k ≡ key.now) }
    {
        let values = Row::from_slice(alloc, key)?;
        Ok(Key { hash, values })
    }

    /// A further share of it.
    pub(crate) fn share(&self) -> Result<Key, AllocError>
        ensures { IfOk result (λ k. k ≡ self.now) }
    {
        let values = self.values.clone()?;
        Ok(Key {
            hash: self.hash,
            values,
        })
    }

    /// Its hash.
    pub(crate) fn hash(&self) -> u64
        ensures { IsHash ⟦<Row as Hash>⟧.hash_input result self.now }
    {
        self.hash
    }

    /// Whether it is the key of this hash.
    pub(crate) fn is_of(&self, hash: u64, key: &[Value]) -> bool
        requires { IsHash ⟦<Row as Hash>⟧.hash_input hash key.now }
        ensures { result ≡ same_key key.now self.now }
    {
        if self.hash != hash {
            return false;
        }
        RowKey::new(key) == RowKey::new(self.values.values())
    }

    /// Its values.
    pub(crate) fn values(&self) -> &[Value]
        ensures { result.now ≡ self.now }
    {
        self.values.values()
    }
}

/// Further shares of keys.
pub(crate) fn key_shares(alloc: Global, keys: &[Key]) -> Result<Vec<Key>, AllocError>
    ensures { IfOk result (λ all. all.items ≡ keys.now) }
{
    let mut all = Vec::with_capacity(alloc, keys.len() + 1)?;
    for key in keys {
        all.push(key.share()?)?;
    }
    Ok(all)
}

/// The place of a key, if it is among others.
pub(crate) fn place_of(keys: &[Key], hash: u64, key: &[Value]) -> Option<usize>
    requires { IsHash ⟦<Row as Hash>⟧.hash_input hash key.now }
    ensures { MatchOption result (has same_key key.now keys.now ≡ false)
        (λ i. slice_get keys.now i ≡ Some key.now) }
{
    for i in 0..keys.len() {
        if keys[i].is_of(hash, key) {
            return Some(i);
        }
    }
    None
}
