//! What a refresh is to do.
ghost use Rattle.std.specs.Prelude.{◌≡◌, false, IfOk, IsTrue};
ghost use Rattle.std.specs.List.{All};
ghost use Rattle.base_schema.specs.Kinds.{RowsAreOf};
ghost use Rattle.base_schema.specs.LineForm.{RowsFit, refresh_form};
ghost use Rattle.store_state.specs.Actions.{change_by};
ghost use Rattle.store_state.specs.Keys.{order_keys};
ghost use Rattle.store_state.specs.Refresh.{DeleteKeys, InsertRows, IsOrderKey, MalformedFile};
ghost use Rattle.store_state.specs.Refresh.{is_insert};

use crate::action::Action;
use crate::parts::Parts;
use crate::same_rows::{are_same_numbers, are_same_rows};
use base_columns::Rows;
use base_refusals::{LineRefusal, RefreshFile};
use base_schema::TableName;
use std::alloc::{AllocError, Global};
use std::marker::Model;
use std::sync::Arc;

/// Orders and their lineitems, as an insert adds them.
#[derive(Drop)]
pub(crate) struct Sales {
    pub(crate) orders: Rows,
    pub(crate) lineitems: Rows,
}

/// What a refresh is to do, with the rows or keys of its files.
pub(crate) enum Form {
    /// Adds these orders and lineitems.
    Insert(Arc<Sales>),
    /// Removes the orders of these keys with their lineitems.
    Delete(Arc<Vec<i64>>),
    /// Nothing, since a file of the set of this number has a bad line.
    Malformed(RefreshFile, u32, LineRefusal),
}

impl Drop for Form {
    #[inline]
    fn drop(self) {
        match self {
            Form::Insert(kept) => drop(kept),
            Form::Delete(kept) => drop(kept),
            Form::Malformed(first, _, second) => {
                drop(first);
                drop(second);
            }
        }
    }
}

/// A refresh, read from its files. Rows are of their tables' kinds, and keys from 0 to 2^63 - 1. A
/// clone is one share more of the same rows or keys, and takes no memory.
#[derive(Drop)]
pub struct Refresh {
    pub(crate) form: Form,
}

impl Model for Refresh {
    ghost use Rattle.store_state.specs.Refresh.{Change};

    ghost Value = { Change };

    ghost use Rattle.store_state.specs.Form.{IsFormed, change_of};

    ghost view = { λ r. change_of r.form };

    ghost invariant = { λ r. IsFormed r.form };
}

impl Refresh {
    /// Adds these orders and lineitems at the ends of their tables.
    pub fn insert(alloc: Global, orders: Rows, lineitems: Rows) -> Result<Refresh, AllocError>
        requires orders { RowsAreOf TableName.Orders orders }
        requires lineitems { RowsAreOf TableName.Lineitem lineitems }
        ensures { IfOk result (λ refresh. refresh ≡ InsertRows orders lineitems) }
    {
        let sales = Arc::new(alloc, Sales { orders, lineitems })?;
        Ok(Refresh {
            form: Form::Insert(sales),
        })
    }

    /// Removes the orders of these keys, with all their lineitems.
    pub fn delete(alloc: Global, keys: Vec<i64>) -> Result<Refresh, AllocError>
        requires { All IsOrderKey keys.items }
        ensures { IfOk result (λ refresh. refresh ≡ DeleteKeys keys.items) }
    {
        let keys = Arc::new(alloc, keys)?;
        Ok(Refresh {
            form: Form::Delete(keys),
        })
    }

    /// Removes the orders whose keys are the lines of a delete file, with all their lineitems.
    /// These are the file's rows.
    pub fn delete_rows(alloc: Global, rows: &Rows) -> Result<Refresh, AllocError>
        requires { RowsFit (refresh_form RefreshFile.Delete) rows.now }
        ensures { IfOk result (λ refresh. refresh ≡ DeleteKeys (order_keys rows.now)) }
    {
        let keys = Parts::of(alloc, rows)?.order_keys(alloc)?;
        let refresh = Refresh::delete(alloc, keys)?;
        Ok(refresh)
    }

    /// Is refused, since this file of the set of this number has a bad line.
    pub fn malformed(file: RefreshFile, set: u32, refusal: LineRefusal) -> Refresh
        ensures { result ≡ MalformedFile file set refusal }
    {
        Refresh {
            form: Form::Malformed(file, set, refusal),
        }
    }

    /// What it is to do, of whose rows or keys nothing is copied.
    pub fn action(&self) -> Action<'_>
        ensures { change_by result ≡ self.now }
    {
        match &self.form {
            Form::Insert(sales) => Action::Insert(&sales.orders, &sales.lineitems),
            Form::Delete(keys) => Action::Delete(keys.as_slice()),
            Form::Malformed(file, set, refusal) => Action::Malformed(*file, *set, *refusal),
        }
    }

    /// Whether the two are found to be the same. The rows of inserts are compared column by column
    /// as they are stored, so it may not be found where they are stored in other ways.
    pub fn is_same(&self, other: &Refresh) -> bool
        ensures same { IsTrue result → self.now ≡ other.now }
        ensures found { is_insert self.now ≡ false → self.now ≡ other.now → IsTrue result }
    {
        match (self.action(), other.action()) {
            (Action::Insert(orders, lineitems), Action::Insert(others, lines)) => {
                are_same_rows(orders, others) && are_same_rows(lineitems, lines)
            }
            (Action::Delete(keys), Action::Delete(others)) => are_same_numbers(keys, others),
            (Action::Malformed(file, set, refusal), Action::Malformed(other, number, first)) => {
                file == other && set == number && refusal == first
            }
            _ => false,
        }
    }
}

impl Clone for Refresh {
    ghost is_clone = { λ r s. s ≡ r };

    fn clone(&self) -> Result<Refresh, AllocError>
        ensures { IfOk result (λ refresh. refresh ≡ self.now) }
    {
        let form = match &self.form {
            Form::Insert(sales) => Form::Insert(Arc::try_clone(sales)?),
            Form::Delete(keys) => Form::Delete(Arc::try_clone(keys)?),
            Form::Malformed(file, set, refusal) => Form::Malformed(*file, *set, *refusal),
        };
        Ok(Refresh { form })
    }
}
