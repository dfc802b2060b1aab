//! The rows that a refresh adds and those that it removes.
ghost use Rattle.std.specs.Prelude.{◌≡◌, IfOk};
ghost use Rattle.base_schema.specs.Kinds.{RowsAreOf};
ghost use Rattle.base_schema.specs.State.{State as Tables};
ghost use Rattle.store_state.specs.Moves.{AreMoved, no_rows};
ghost use Rattle.store_state.specs.Refresh.{DeleteKeys, InsertRows, changed, with_sales};

use crate::found::key_set;
use crate::parts::Parts;
use crate::refresh::{Form, Refresh};
use crate::state::State;
use base_columns::Rows;
use base_schema::TableName;
use std::alloc::{AllocError, Global};

/// The rows that a refresh adds to each table, and those that it removes.
#[derive(Drop)]
pub struct Moves {
    /// The added ones.
    pub added: State,
    /// The removed ones.
    pub removed: State,
}

/// A state with these orders and lineitems alone.
fn sales_alone(alloc: Global, orders: Parts, lineitems: Parts) -> Result<State, AllocError>
    requires orders { RowsAreOf TableName.Orders orders }
    requires lineitems { RowsAreOf TableName.Lineitem lineitems }
    ensures { IfOk result (λ state. state ≡ with_sales no_rows orders lineitems) }
{
    let mut state = State::empty(alloc)?;
    state.replace_sales(orders, lineitems);
    Ok(state)
}

/// The rows that an insert adds. It removes none.
fn moves_of_insert(alloc: Global, orders: &Rows, lineitems: &Rows) -> Result<Moves, AllocError>
    requires orders { RowsAreOf TableName.Orders orders.now }
    requires lineitems { RowsAreOf TableName.Lineitem lineitems.now }
    ensures { IfOk result (λ moves. (before : Tables) → AreMoved before moves.added moves.removed
        (changed before (InsertRows orders.now lineitems.now))) }
{
    let orders = Parts::of(alloc, orders)?;
    let lineitems = Parts::of(alloc, lineitems)?;
    let added = sales_alone(alloc, orders, lineitems)?;
    let removed = State::empty(alloc)?;
    Ok(Moves { added, removed })
}

/// The rows that a delete removes. It adds none.
fn moves_of_delete(alloc: Global, before: &State, keys: &[i64]) -> Result<Moves, AllocError>
    ensures { IfOk result (λ moves. AreMoved before.now moves.added moves.removed
        (changed before.now (DeleteKeys keys.now))) }
{
    let wanted = key_set(alloc, keys)?;
    let orders = before.table(TableName::Orders).of_orders(alloc, &wanted)?;
    let lineitems = before.table(TableName::Lineitem).of_orders(alloc, &wanted)?;
    let removed = sales_alone(alloc, orders, lineitems)?;
    let added = State::empty(alloc)?;
    Ok(Moves { added, removed })
}

/// No rows are added and none are removed.
fn no_moves(alloc: Global) -> Result<Moves, AllocError>
    ensures { IfOk result (λ moves. (before : Tables) → AreMoved before moves.added moves.removed
        before) }
{
    let added = State::empty(alloc)?;
    let removed = State::empty(alloc)?;
    Ok(Moves { added, removed })
}

/// The rows that a refresh without a cause against it adds to the tables of a state, and those that
/// it removes. No row is copied.
pub fn moves_of(alloc: Global, before: &State, refresh: &Refresh) -> Result<Moves, AllocError>
    ensures { IfOk result (λ moves. AreMoved before.now moves.added moves.removed
        (changed before.now refresh.now)) }
{
    match &refresh.form {
        Form::Insert(sales) => moves_of_insert(alloc, &sales.orders, &sales.lineitems),
        Form::Delete(keys) => moves_of_delete(alloc, before, keys.as_slice()),
        Form::Malformed(..) => no_moves(alloc),
    }
}
