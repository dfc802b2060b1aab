//! The rows of a table as parts.
ghost use Rattle.std.specs.Prelude.{◌≡◌, ◌++◌, [], IfOk, OnErr, OnOk, length};
ghost use Rattle.base_columns.specs.Lists.{one_list};
ghost use Rattle.store_state.specs.Keys.{line_keys, order_keys};
ghost use Rattle.store_state.specs.Moves.{with_keys};
ghost use Rattle.store_state.specs.Refresh.{without_keys};

use crate::keys::LineKey;
use crate::part::Part;
use base_columns::Rows;
use base_key_tables::KeySet;
use base_value::Row;
use std::alloc::{AllocError, Global};
use std::marker::Model;

/// Rows that lie in parts, seen as the list of the rows.
#[derive(Drop)]
pub(crate) struct Parts {
    parts: Vec<Part>,
    /// How many rows the parts have together.
    count: usize,
}

impl Model for Parts {
    ghost use Rattle.std.specs.Prelude.{◌≡◌, List, length};
    ghost use Rattle.base_value.specs.declared.value.Value.{Value as Datum};
    ghost use Rattle.base_columns.specs.Lists.{one_list};

    ghost Value = { List (List Datum) };

    ghost view = { λ p. one_list p.parts.items };

    ghost invariant = { λ p. p.count ≡ length (one_list p.parts.items) };
}

#[tactic(auto, using(crate::proofs::PartLists::lists))]
impl Parts {
    /// No rows.
    pub(crate) fn new(alloc: Global) -> Parts
        ensures { result ≡ [] }
    {
        Parts {
            parts: Vec::new(alloc),
            count: 0,
        }
    }

    /// The rows of a table as it was read, of which nothing is copied.
    pub(crate) fn of(alloc: Global, rows: &Rows) -> Result<Parts, AllocError>
        ensures { IfOk result (λ parts. parts ≡ rows.now) }
    {
        let mut parts = Parts::new(alloc);
        let segments = rows.segments();
        for segment in segments {
            let part = Part::whole(alloc, segment.clone()?)?;
            parts.push(part)?;
        }
        Ok(parts)
    }

    /// How many rows there are.
    pub(crate) fn len(&self) -> usize
        ensures { result ≡ length self.now }
    {
        self.count
    }

    /// The parts, in the order of their rows.
    pub(crate) fn as_slice(&self) -> &[Part]
        ensures { self.now ≡ one_list result.now }
    {
        self.parts.as_slice()
    }

    /// The rows of a part at the end. More rows than a usize counts are an error, as memory that
    /// isn't there.
    pub(crate) fn push(&mut self, part: Part) -> Result<(), AllocError>
        ensures ok { OnOk result (self.new ≡ self.old ++ part) }
        ensures err { OnErr result (self.new ≡ self.old) }
    {
        let count = self.count.checked_add(part.len()).ok_or(AllocError)?;
        self.parts.push(part)?;
        self.count = count;
        Ok(())
    }

    /// Further shares of the parts of others at the end, as far as memory goes.
    pub(crate) fn append(&mut self, others: &Parts) -> Result<(), AllocError>
        ensures { OnOk result (self.new ≡ self.old ++ others.now) }
    {
        let parts = others.as_slice();
        for part in parts {
            self.push(part.clone()?)?;
        }
        Ok(())
    }

    /// The keys of the orders.
    pub(crate) fn order_keys(&self, alloc: Global) -> Result<Vec<i64>, AllocError>
        ensures { IfOk result (λ keys. keys.items ≡ order_keys self.now) }
    {
        let mut keys = Vec::with_capacity(alloc, self.count)?;
        let parts = self.as_slice();
        for part in parts {
            part.put_order_keys(&mut keys)?;
        }
        Ok(keys)
    }

    /// The keys of the lineitems.
    pub(crate) fn line_keys(&self, alloc: Global) -> Result<Vec<LineKey>, AllocError>
        ensures { IfOk result (λ keys. keys.items ≡ line_keys self.now) }
    {
        let mut keys = Vec::with_capacity(alloc, self.count)?;
        let parts = self.as_slice();
        for part in parts {
            part.put_line_keys(&mut keys)?;
        }
        Ok(keys)
    }

    /// The rows, each as a row of its own.
    pub(crate) fn to_rows(&self, alloc: Global) -> Result<Vec<Row>, AllocError>
        ensures { IfOk result (λ rows. rows.items ≡ self.now) }
    {
        let mut rows = Vec::with_capacity(alloc, self.count)?;
        let parts = self.as_slice();
        for part in parts {
            part.put_rows(alloc, &mut rows)?;
        }
        Ok(rows)
    }

    /// The rows of none of the orders of these keys, in order.
    pub(crate) fn without(&self, alloc: Global, keys: &KeySet<i64>) -> Result<Parts, AllocError>
        ensures { IfOk result (λ kept. kept ≡ without_keys keys.now self.now) }
    {
        let mut kept = Parts::new(alloc);
        let parts = self.as_slice();
        for part in parts {
            kept.push(part.without(alloc, keys)?)?;
        }
        Ok(kept)
    }

    /// The rows of the orders of these keys, in order.
    pub(crate) fn of_orders(&self, alloc: Global, keys: &KeySet<i64>) -> Result<Parts, AllocError>
        ensures { IfOk result (λ found. found ≡ with_keys keys.now self.now) }
    {
        let mut found = Parts::new(alloc);
        let parts = self.as_slice();
        for part in parts {
            found.push_orders(alloc, part, keys)?;
        }
        Ok(found)
    }

    /// The rows of a part's orders of these keys at the end. A part that can have none of them is
    /// not read.
    fn push_orders(
        &mut self,
        alloc: Global,
        part: &Part,
        keys: &KeySet<i64>,
    ) -> Result<(), AllocError>
        ensures { OnOk result (self.new ≡ self.old ++ with_keys keys.now part.now) }
    {
        if part.may_have(keys) {
            self.push(part.of_orders(alloc, keys)?)?;
        }
        Ok(())
    }
}

impl Clone for Parts {
    ghost is_clone = { λ p q. q ≡ p };

    fn clone(&self) -> Result<Parts, AllocError>
        ensures { IfOk result (λ parts. parts ≡ self.now) }
    {
        let parts = self.parts.clone()?;
        Ok(Parts {
            parts,
            count: self.count,
        })
    }
}
