//! A row: a shared slice of values, seen as the list of its values.
ghost use Rattle.std.specs.Prelude.{◌≡◌, ◌↔◌, ◌++◌, IsTrue, IfOk, OnOk, OnErr};
ghost use Rattle.base_value.specs.Value.{same_row};

use crate::value::Value;
use std::alloc::{AllocError, Global};
use std::hash::{Hash, Hasher};
use std::marker::Model;
use std::sync::ArcSlice;

/// The values of a row, from left to right. A clone is another share of the same values. Equality
/// and hash are those of identity.
#[derive(Drop)]
pub struct Row {
    values: ArcSlice<Value>,
}

impl Model for Row {
    ghost use Rattle.std.specs.Prelude.{List};
    ghost use Rattle.std.specs.Arc.{arc_slice_items};
    ghost use Rattle.base_value.specs.declared.value.Value.{Value as Datum};

    ghost Value = { List Datum };

    ghost view = { λ r. arc_slice_items r.values };
}

impl Row {
    /// The row of these values, which are moved into it.
    pub fn new(values: Vec<Value>) -> Result<Row, AllocError>
        ensures { IfOk result (λ r. r ≡ values.items) }
    {
        let values = ArcSlice::from_vec(values)?;
        Ok(Row { values })
    }

    /// The row of clones of these values.
    pub fn from_slice(alloc: Global, values: &[Value]) -> Result<Row, AllocError>
        ensures { IfOk result (λ r. r ≡ values.now) }
    {
        let mut cloned = Vec::with_capacity(alloc, values.len())?;
        put_clones(&mut cloned, values)?;
        Row::new(cloned)
    }

    /// The values, of which nothing is copied.
    pub fn values(&self) -> &[Value]
        ensures { result.now ≡ self.now }
    {
        self.values.as_slice()
    }

    /// Whether each value of the one is the other's.
    pub fn is_identical(&self, other: &Row) -> bool
        ensures fact { IsTrue result ↔ (self.now ≡ other.now) }
        ensures test { result ≡ same_row self.now other.now }
    {
        self == other
    }
}

// Clones of all of the values at the end, or no change.
pub(crate) fn put_clones(to: &mut Vec<Value>, more: &[Value]) -> Result<(), AllocError>
    ensures ok { OnOk result (to.new.items ≡ to.old.items ++ more.now) }
    ensures err { OnErr result (to.new.items ≡ to.old.items) }
{
    to.extend_from_slice(more)
}

impl Clone for Row {
    ghost is_clone = { λ r s. s ≡ r };

    fn clone(&self) -> Result<Row, AllocError>
        ensures { IfOk result (λ r. r ≡ self.now) }
    {
        let values = self.values.clone()?;
        Ok(Row { values })
    }
}

impl PartialEq for Row {
    ghost use Rattle.base_value.specs.contracts.value.ValuePartialEq.TheImpl.Laws as value_per;
    ghost use Rattle.std.specs.Cmp.Lexicographic.{pointwise, lists_per};

    ghost eq = { pointwise ⟦<Value as PartialEq>⟧.eq };

    ghost laws = { lists_per value_per.laws-law };

    fn eq(&self, other: &Row) -> bool {
        self.values() == other.values()
    }
}

impl Eq for Row {
    ghost use Rattle.base_value.specs.contracts.value.ValueEq.TheImpl.Laws as value_equiv;
    ghost use Rattle.std.specs.Cmp.Lexicographic.{lists_equiv};

    ghost laws = { lists_equiv value_equiv.laws-law };
}

impl Hash for Row {
    ghost use Rattle.base_value.specs.contracts.value.ValueHash.TheImpl.Laws as value_hash;
    ghost use Rattle.std.specs.Hash as fed;
    ghost use Rattle.std.specs.Hash.{items_Alike};

    ghost hash_input = { fed.slice ⟦<Value as Hash>⟧.hash_input };

    ghost respects_eq = { (items_Alike (record { fed = value_hash.respects_eq-law })).fed };

    fn hash<H: Hasher>(&self, state: &mut H) {
        self.values().hash(state);
    }
}
