//! What a page holds: keys with their groups.
ghost use Rattle.std.specs.Prelude.{◌≡◌, ◌++◌, ◌∷◌, ◌<◌, [], IfOk, OnErr};
ghost use Rattle.base_value.specs.declared.value.Value.{Value as Datum};
ghost use Rattle.std.specs.Prelude.{List, OnOk, Some, is_some, length, option_map, remove, slice_get};
ghost use Rattle.std.specs.List.{IsDistinct};
ghost use Rattle.base_value.specs.Truth.{standing_rank};
ghost use Rattle.store_groups.specs.Entries.{CanTake, HasLong, IsHash, group_at};
ghost use Rattle.store_groups.specs.Entries.{keys_of, or_empty, same_key, with_group};
ghost use Rattle.store_groups.specs.Groups.{no_rows, with_row};
ghost use Rattle.store_groups.specs.Taken.{IsSetOn, IsTaken, left_of};

use crate::entry::{Entry, Taken};
use crate::group::{Group, GroupRef};
use crate::key::{Key, key_shares, place_of};
use crate::shelf::Shelf;
use base_value::{Row, Standing, Value};
use std::alloc::{AllocError, Global};
use std::hash::Hash;
use std::marker::Model;
use std::sync::Arc;

/// A share of keys, and their groups, seen as the list of keys with their groups.
#[derive(Drop)]
pub(crate) struct Body {
    keys: Arc<Vec<Key>>,
    groups: Shelf,
}

impl Model for Body {
    ghost use Rattle.std.specs.Arc.{arc_value};
    ghost use Rattle.std.specs.Prelude.{◌≡◌, length, zip};
    ghost use Rattle.store_groups.specs.Entries.{Entries};

    ghost Value = { Entries };

    ghost view = { λ b. zip (arc_value b.keys).items b.groups };

    ghost invariant = { λ b. length b.groups ≡ length (arc_value b.keys).items };
}

// What comes of a group when one of its rows is taken out.
fn fate_of(group: &GroupRef<'_>) -> Taken
    ensures { (arguments : List Datum) → IsTaken arguments (Some group.now) result }
{
    if !group.is_faultless() {
        return Taken::Faulty;
    }
    if group.len() <= 1 {
        return Taken::Gone;
    }
    Taken::Left
}

impl Body {
    /// No entries.
    pub(crate) fn none(alloc: Global) -> Result<Body, AllocError>
        ensures { IfOk result (λ b. b ≡ []) }
    {
        let keys = Arc::new(alloc, Vec::new(alloc))?;
        let groups = Shelf::none(alloc)?;
        Ok(Body { keys, groups })
    }

    /// A copy of it, which shares the keys.
    pub(crate) fn copy(&self, alloc: Global) -> Result<Body, AllocError>
        ensures { IfOk result (λ b. b ≡ self.now) }
    {
        let groups = self.groups.copy(alloc)?;
        let keys = Arc::try_clone(&self.keys)?;
        Ok(Body { keys, groups })
    }

    /// How many entries there are.
    pub(crate) fn len(&self) -> usize
        ensures { result ≡ length self.now }
    {
        self.groups.len()
    }

    /// The key at a place.
    pub(crate) fn key(&self, i: usize) -> &Key
        requires { i < length self.now }
        ensures { option_map (λ e. e.0) (slice_get self.now i) ≡ Some result.now }
    {
        &self.keys[i]
    }

    /// The group at a place.
    pub(crate) fn group(&self, i: usize) -> GroupRef<'_>
        requires { i < length self.now }
        ensures { option_map (λ e. e.1) (slice_get self.now i) ≡ Some result }
    {
        self.groups.group(i)
    }

    /// Whether a key has an entry.
    pub(crate) fn contains(&self, hash: u64, key: &[Value]) -> bool
        requires { IsHash ⟦<Row as Hash>⟧.hash_input hash key.now }
        ensures { result ≡ is_some (group_at self.now key.now) }
    {
        place_of(self.keys.as_slice(), hash, key).is_some()
    }

    /// The same entries and one more after them.
    fn with(&self, alloc: Global, key: Key, group: &GroupRef<'_>) -> Result<Body, AllocError>
        ensures { IfOk result (λ b. b ≡ self.now ++ (key, group.now) ∷ []) }
    {
        let mut keys = key_shares(alloc, self.keys.as_slice())?;
        keys.push(key)?;
        let groups = self.groups.with(alloc, group)?;
        let keys = Arc::new(alloc, keys)?;
        Ok(Body { keys, groups })
    }

    /// The same entries but for the one at a place.
    fn without(&self, alloc: Global, i: usize) -> Result<Body, AllocError>
        requires { i < length self.now }
        ensures { IfOk result (λ b. b ≡ remove self.now i) }
    {
        let mut keys = key_shares(alloc, self.keys.as_slice())?;
        drop(keys.remove(i));
        let groups = self.groups.without(alloc, i)?;
        let keys = Arc::new(alloc, keys)?;
        Ok(Body { keys, groups })
    }

    /// The entry at a place.
    pub(crate) fn entry(&self, alloc: Global, i: usize) -> Result<Entry, AllocError>
        requires { i < length self.now }
        ensures { IfOk result (λ e. slice_get self.now i ≡ Some e) }
    {
        let key = self.key(i).share()?;
        let group = self.group(i).copy(alloc)?;
        Ok(Entry::new(key, group))
    }

    /// The entries with a first row of a key that has none.
    fn with_key(
        &self,
        alloc: Global,
        hash: u64,
        key: &[Value],
        arguments: &[Value],
        standing: Standing,
    ) -> Result<Body, AllocError>
        requires { IsHash ⟦<Row as Hash>⟧.hash_input hash key.now }
        ensures { IfOk result (λ b. b ≡ self.now ++ (
          key.now,
          with_row
              (no_rows (length arguments.now)) arguments.now (standing_rank standing),
        ) ∷ []) }
    {
        let mut group = Group::none(alloc, arguments.len())?;
        group.put(alloc, arguments, standing)?;
        let key = Key::new(alloc, hash, key)?;
        let body = self.with(alloc, key, &group.seen())?;
        Ok(body)
    }

    /// Puts a row into the group of a key, or into one of no rows. Want of memory may spoil the
    /// group.
    pub(crate) fn put_row(
        &mut self,
        alloc: Global,
        hash: u64,
        key: &[Value],
        arguments: &[Value],
        standing: Standing,
    ) -> Result<(), AllocError>
        requires hash { IsHash ⟦<Row as Hash>⟧.hash_input hash key.now }
        requires distinct { IsDistinct same_key (keys_of self.old) }
        requires long { HasLong (length arguments.now) (group_at self.old key.now) }
        ensures ok { OnOk result (IsSetOn key.now (Some (with_row
            (or_empty (length arguments.now) (group_at self.old key.now))
            arguments.now (standing_rank standing))) self.old self.new) }
        ensures err { OnErr result (keys_of self.new ≡ keys_of self.old) }
    {
        if let Some(i) = place_of(self.keys.as_slice(), hash, key) {
            self.groups.put_row(alloc, i, arguments, standing)?;
            return Ok(());
        }
        *self = self.with_key(alloc, hash, key, arguments, standing)?;
        Ok(())
    }

    /// Takes a row out of the group of a key. A group that holds a fault is dropped, and so is one
    /// of which no row is left. Where memory isn't there, nothing is changed.
    pub(crate) fn take_row(
        &mut self,
        alloc: Global,
        hash: u64,
        key: &[Value],
        arguments: &[Value],
    ) -> Result<Taken, AllocError>
        requires hash { IsHash ⟦<Row as Hash>⟧.hash_input hash key.now }
        requires distinct { IsDistinct same_key (keys_of self.old) }
        requires can { CanTake arguments.now (group_at self.old key.now) }
        ensures taken { IfOk result (IsTaken arguments.now (group_at self.old key.now)) }
        ensures ok { IfOk result (λ t. IsSetOn key.now
            (left_of arguments.now (group_at self.old key.now) t) self.old self.new) }
        ensures err { OnErr result (self.new ≡ self.old) }
    {
        let Some(i) = place_of(self.keys.as_slice(), hash, key) else {
            return Ok(Taken::Absent);
        };
        let taken = fate_of(&self.groups.group(i));
        if matches!(taken, Taken::Left) {
            self.groups.remove_row(i, arguments);
        } else {
            *self = self.without(alloc, i)?;
        }
        Ok(taken)
    }

    /// Puts an entry in the place of its key's. Where memory isn't there, nothing is changed.
    pub(crate) fn put_entry(&mut self, alloc: Global, entry: Entry) -> Result<(), AllocError>
        requires { IsDistinct same_key (keys_of self.old) }
        ensures ok { OnOk result (self.new ≡ with_group entry.0 (Some entry.1) self.old) }
        ensures err { OnErr result (self.new ≡ self.old) }
    {
        let key = entry.key().share()?;
        match place_of(self.keys.as_slice(), entry.hash(), key.values()) {
            Some(i) => {
                let others = self.without(alloc, i)?;
                *self = others.with(alloc, key, &entry.group())?;
            }
            None => *self = self.with(alloc, key, &entry.group())?,
        }
        Ok(())
    }
}
