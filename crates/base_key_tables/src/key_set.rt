//! Distinct keys by hash, in the order in which they came.
ghost use Rattle.std.specs.Prelude.{◌≡◌, ◌+◌, ◌-◌, ◌^◌, ◌<◌, ◌++◌, ◌∷◌, [], false, not, length};
ghost use Rattle.std.specs.Prelude.{cond, if◌then◌else◌, slice_get, Some, None, IfOk, OnOk, OnErr};
ghost use Rattle.std.specs.List.{list_any};
ghost use Rattle.base_row_laws.specs.Bags.{IsIdentity, has};
ghost use Rattle.base_row_laws.specs.Numbers.{place_in};
ghost use Rattle.base_key_tables.specs.Distinct.{added};

use crate::goes_on::GoesOn;
use crate::sample::{LEAST, agree_too_often};
use indexmap::IndexSet;
use std::alloc::{AllocError, Global};
use std::hash::Hash;
use std::marker::Model;

/// Distinct keys in the order in which they came. Contracts see their list. Where the hashes of a
/// sample of them agree too often, as for keys that somebody made to collide, the keys are hashed
/// anew in another way.
#[derive(Drop)]
pub struct KeySet<K: Eq + Hash + Drop> {
    alloc: Global,
    keys: IndexSet<K, GoesOn>,
    /// The next sample is taken at this number of keys.
    next_sample: usize,
}

impl<K: Eq + Hash + Drop> Model for KeySet<K> {
    ghost use Rattle.std.specs.Prelude.{List};

    ghost Value = { List K };

    ghost view = { λ s. s.keys.keys };
}

impl<K: Eq + Hash + Drop> KeySet<K> {
    /// No keys.
    pub fn new(alloc: Global) -> KeySet<K>
        ensures { result ≡ [] }
    {
        KeySet {
            alloc,
            keys: IndexSet::with_hasher(alloc, GoesOn::new()),
            next_sample: LEAST,
        }
    }

    /// How many keys there are.
    pub fn len(&self) -> usize
        ensures { result ≡ length self.now }
    {
        self.keys.len()
    }

    /// The keys, in the order in which they came.
    pub fn as_slice(&self) -> &[K]
        ensures { result.now ≡ self.now }
    {
        self.keys.as_slice()
    }

    /// The key's place, if it is there.
    pub fn place(&self, key: &K) -> Option<usize>
        requires { IsIdentity K.eq }
        ensures { result ≡ cond (has K.eq key.now self.now)
            (Some (place_in K.eq self.now key.now)) None }
    {
        self.keys.get_index_of(key)
    }

    /// Whether the key is there.
    pub fn contains(&self, key: &K) -> bool
        requires { IsIdentity K.eq }
        ensures { result ≡ list_any (K.eq key.now) self.now }
    {
        self.keys.contains(key)
    }

    // The keys in a set that goes on from the next state.
    fn hash_anew(&mut self) -> Result<(), AllocError>
        ensures { self.new ≡ self.old }
    {
        let hasher = self.keys.hasher().next();
        let count = self.keys.len();
        let mut anew = IndexSet::with_capacity_and_hasher(self.alloc, count, hasher)?;
        anew.append(&mut self.keys)?;
        self.keys = anew;
        Ok(())
    }

    // Looks at a sample of the keys each time that their number has grown by 4 times its square
    // root.
    fn look_at_sample(&mut self) -> Result<(), AllocError>
        ensures { self.new ≡ self.old }
    {
        let count = self.keys.len();
        if count < self.next_sample || count == 0 {
            return Ok(());
        }
        self.next_sample = count.saturating_add(count.isqrt().saturating_mul(4));
        if agree_too_often(self.alloc, self.keys.hasher(), self.keys.as_slice())? {
            self.hash_anew()?;
        }
        Ok(())
    }

    /// Puts a key after the others, if it isn't there yet: its place, and whether it is new. From
    /// 9 * 2^28 keys on a new one is an error, as memory that isn't there.
    pub fn put(&mut self, key: K) -> Result<(usize, bool), AllocError>
        requires { IsIdentity K.eq }
        ensures keys { OnOk result (self.new ≡ added K.eq self.old key) }
        ensures there { IfOk result (λ n. slice_get self.new n.0 ≡ Some key) }
        ensures place { IfOk result (λ n. n.0 ≡ place_in K.eq self.new key) }
        ensures is_new { IfOk result (λ n. n.1 ≡ not (has K.eq key self.old)) }
        ensures unchanged { OnErr result (self.new ≡ self.old) }
    {
        self.look_at_sample()?;
        let put = self.keys.insert_full(key)?;
        Ok(put)
    }

    /// Puts a key after the others, if it isn't there yet: whether it is new. It fails as `put`
    /// does.
    pub fn insert(&mut self, key: K) -> Result<bool, AllocError>
        requires { IsIdentity K.eq }
        ensures is_new { IfOk result (λ is_new. is_new ≡ not (list_any (K.eq key) self.old)) }
        ensures keys { IfOk result
            (λ is_new. self.new ≡ (if is_new then self.old ++ key ∷ [] else self.old)) }
        ensures unchanged { OnErr result (self.new ≡ self.old) }
    {
        let (_, is_new) = self.put(key)?;
        Ok(is_new)
    }
}
