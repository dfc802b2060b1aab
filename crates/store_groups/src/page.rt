//! Pages of a table of groups.
ghost use Rattle.std.specs.Prelude.{◌≡◌, ◌<◌, [], Some, IfOk, OnErr, OnOk, is_some, length};
ghost use Rattle.std.specs.Prelude.{option_map, slice_get};
ghost use Rattle.std.specs.List.{IsDistinct};
ghost use Rattle.base_value.specs.Truth.{standing_rank};
ghost use Rattle.store_groups.specs.Entries.{CanTake, HasLong, IsHash, group_at, keys_of};
ghost use Rattle.store_groups.specs.Entries.{or_empty, same_key, with_group};
ghost use Rattle.store_groups.specs.Groups.{with_row};
ghost use Rattle.store_groups.specs.Taken.{IsSetOn, IsTaken, left_of};

use crate::body::Body;
use crate::entry::{Entry, Taken};
use crate::group::GroupRef;
use base_value::{Row, Standing, Value};
use std::alloc::{AllocError, Global};
use std::hash::Hash;
use std::marker::Model;
use std::sync::Arc;

/// A share of keys with their groups, seen as their list. A change makes a copy of the groups first
/// where there are other shares.
#[derive(Drop)]
pub struct Page {
    body: Arc<Body>,
}

impl Model for Page {
    ghost use Rattle.std.specs.Arc.{arc_value};
    ghost use Rattle.store_groups.specs.Entries.{Entries};

    ghost Value = { Entries };

    ghost view = { λ p. arc_value p.body };
}

impl Page {
    /// No entries.
    pub(crate) fn none(alloc: Global) -> Result<Page, AllocError>
        ensures { IfOk result (λ p. p ≡ []) }
    {
        let body = Arc::new(alloc, Body::none(alloc)?)?;
        Ok(Page { body })
    }

    /// A further share of it.
    pub(crate) fn share(&self) -> Result<Page, AllocError>
        ensures { IfOk result (λ p. p ≡ self.now) }
    {
        let body = Arc::try_clone(&self.body)?;
        Ok(Page { body })
    }

    /// How many groups there are.
    pub fn len(&self) -> usize
        ensures { result ≡ length self.now }
    {
        self.body.len()
    }

    /// The key at a place.
    pub fn key(&self, i: usize) -> &[Value]
        requires { i < length self.now }
        ensures { option_map (λ e. e.0) (slice_get self.now i) ≡ Some result.now }
    {
        self.body.key(i).values()
    }

    /// The group at a place.
    pub fn group(&self, i: usize) -> GroupRef<'_>
        requires { i < length self.now }
        ensures { option_map (λ e. e.1) (slice_get self.now i) ≡ Some result }
    {
        self.body.group(i)
    }

    /// The entry at a place.
    pub(crate) fn entry(&self, alloc: Global, i: usize) -> Result<Entry, AllocError>
        requires { i < length self.now }
        ensures { IfOk result (λ e. slice_get self.now i ≡ Some e) }
    {
        let entry = self.body.entry(alloc, i)?;
        Ok(entry)
    }

    /// Whether a key has a group.
    pub(crate) fn contains(&self, hash: u64, key: &[Value]) -> bool
        requires { IsHash ⟦<Row as Hash>⟧.hash_input hash key.now }
        ensures { result ≡ is_some (group_at self.now key.now) }
    {
        self.body.contains(hash, key)
    }

    /// Puts a row into the group of a key, or into one of no rows. Want of memory may spoil the
    /// group.
    pub(crate) fn put_row(
        &mut self,
        alloc: Global,
        hash: u64,
        key: &[Value],
        arguments: &[Value],
        standing: Standing,
    ) -> Result<(), AllocError>
        requires hash { IsHash ⟦<Row as Hash>⟧.hash_input hash key.now }
        requires distinct { IsDistinct same_key (keys_of self.old) }
        requires long { HasLong (length arguments.now) (group_at self.old key.now) }
        ensures ok { OnOk result (IsSetOn key.now (Some (with_row
            (or_empty (length arguments.now) (group_at self.old key.now))
            arguments.now (standing_rank standing))) self.old self.new) }
        ensures err { OnErr result (keys_of self.new ≡ keys_of self.old) }
    {
        if let Some(body) = Arc::get_mut(&mut self.body) {
            body.put_row(alloc, hash, key, arguments, standing)?;
            return Ok(());
        }
        let mut body = self.body.copy(alloc)?;
        body.put_row(alloc, hash, key, arguments, standing)?;
        self.body = Arc::new(alloc, body)?;
        Ok(())
    }

    /// Takes a row out of the group of a key. Where memory isn't there, nothing is changed.
    pub(crate) fn take_row(
        &mut self,
        alloc: Global,
        hash: u64,
        key: &[Value],
        arguments: &[Value],
    ) -> Result<Taken, AllocError>
        requires hash { IsHash ⟦<Row as Hash>⟧.hash_input hash key.now }
        requires distinct { IsDistinct same_key (keys_of self.old) }
        requires can { CanTake arguments.now (group_at self.old key.now) }
        ensures taken { IfOk result (IsTaken arguments.now (group_at self.old key.now)) }
        ensures ok { IfOk result (λ t. IsSetOn key.now
            (left_of arguments.now (group_at self.old key.now) t) self.old self.new) }
        ensures err { OnErr result (self.new ≡ self.old) }
    {
        if let Some(body) = Arc::get_mut(&mut self.body) {
            let taken = body.take_row(alloc, hash, key, arguments)?;
            return Ok(taken);
        }
        let mut body = self.body.copy(alloc)?;
        let taken = body.take_row(alloc, hash, key, arguments)?;
        self.body = Arc::new(alloc, body)?;
        Ok(taken)
    }

    /// Puts an entry in the place of its key's. Where memory isn't there, nothing is changed.
    pub(crate) fn put(&mut self, alloc: Global, entry: Entry) -> Result<(), AllocError>
        requires { IsDistinct same_key (keys_of self.old) }
        ensures ok { OnOk result (self.new ≡ with_group entry.0 (Some entry.1) self.old) }
        ensures err { OnErr result (self.new ≡ self.old) }
    {
        if let Some(body) = Arc::get_mut(&mut self.body) {
            body.put_entry(alloc, entry)?;
            return Ok(());
        }
        let mut body = self.body.copy(alloc)?;
        body.put_entry(alloc, entry)?;
        self.body = Arc::new(alloc, body)?;
        Ok(())
    }
}
