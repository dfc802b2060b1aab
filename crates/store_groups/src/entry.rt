//! A key with its group.
ghost use Rattle.std.specs.Prelude.{◌≡◌};
ghost use Rattle.store_groups.specs.Entries.{IsHash};

use crate::group::{Group, GroupRef};
use crate::key::Key;
use base_value::{Row, Value};
use std::hash::Hash;
use std::marker::Model;

/// A key and its group, seen as the two.
#[derive(Drop)]
pub(crate) struct Entry {
    key: Key,
    group: Group,
}

impl Model for Entry {
    ghost use Rattle.std.specs.Prelude.{List};
    ghost use Rattle.base_value.specs.declared.value.Value.{Value as Datum};
    ghost use Rattle.store_groups.specs.Groups.{Group as Kept};

    ghost Value = { List Datum × Kept };

    ghost view = { λ e. (e.key, e.group) };
}

/// What comes of the group of a key when one of its rows is taken out.
#[derive(Clone, Copy)]
pub enum Taken {
    /// There is no group.
    Absent,
    /// The group of the other rows is left.
    Left,
    /// No row is left, nor the group.
    Gone,
    /// It held a fault, and is dropped.
    Faulty,
}

impl Entry {
    /// A key with its group.
    pub(crate) fn new(key: Key, group: Group) -> Entry
        ensures { result ≡ (key, group) }
    {
        Entry { key, group }
    }

    /// The hash of the key.
    pub(crate) fn hash(&self) -> u64
        ensures { IsHash ⟦<Row as Hash>⟧.hash_input result self.now.0 }
    {
        self.key.hash()
    }

    /// The key.
    pub(crate) fn key(&self) -> &Key
        ensures { result.now ≡ self.now.0 }
    {
        &self.key
    }

    /// The group.
    pub(crate) fn group(&self) -> GroupRef<'_>
        ensures { result ≡ self.now.1 }
    {
        self.group.seen()
    }
}
