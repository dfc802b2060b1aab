//! A row's values where they lie as the key of a map or a set.
ghost use Rattle.std.specs.Prelude.{◌≡◌};

use crate::value::Value;
use std::hash::{Hash, Hasher};
use std::marker::Model;

/// Borrowed values as the key of a map or a set. Equality and hash are those of identity.
#[derive(Drop)]
pub struct RowKey<'a> {
    values: &'a [Value],
}

impl<'a> Model for RowKey<'a> {
    ghost use Rattle.std.specs.Prelude.{List};
    ghost use Rattle.base_value.specs.declared.value.Value.{Value as Datum};

    ghost Value = { List Datum };

    ghost view = { λ k. k.values.now };
}

impl<'a> RowKey<'a> {
    /// The key that these values make.
    pub fn new(values: &'a [Value]) -> Self
        ensures { result ≡ values.now }
    {
        RowKey { values }
    }

    /// The key's values.
    pub fn values(&self) -> &'a [Value]
        ensures { result.now ≡ self.now }
    {
        self.values
    }
}

impl<'a> PartialEq for RowKey<'a> {
    ghost use Rattle.base_value.specs.contracts.value.ValuePartialEq.TheImpl.Laws as value_per;
    ghost use Rattle.std.specs.Cmp.Lexicographic.{pointwise, lists_per};

    ghost eq = { pointwise ⟦<Value as PartialEq>⟧.eq };

    ghost laws = { lists_per value_per.laws-law };

    fn eq(&self, other: &Self) -> bool {
        self.values == other.values
    }
}

impl<'a> Eq for RowKey<'a> {
    ghost use Rattle.base_value.specs.contracts.value.ValueEq.TheImpl.Laws as value_equiv;
    ghost use Rattle.std.specs.Cmp.Lexicographic.{lists_equiv};

    ghost laws = { lists_equiv value_equiv.laws-law };
}

impl<'a> Hash for RowKey<'a> {
    ghost use Rattle.base_value.specs.contracts.value.ValueHash.TheImpl.Laws as value_hash;
    ghost use Rattle.std.specs.Hash as fed;
    ghost use Rattle.std.specs.Hash.{items_Alike};

    ghost hash_input = { fed.slice ⟦<Value as Hash>⟧.hash_input };

    ghost respects_eq = { (items_Alike (record { fed = value_hash.respects_eq-law })).fed };

    fn hash<H: Hasher>(&self, state: &mut H) {
        self.values.hash(state);
    }
}
