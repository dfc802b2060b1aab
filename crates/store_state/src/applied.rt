//! A refresh applied to a state.
ghost use Rattle.std.specs.Prelude.{◌≡◌, ◌++◌, [], IfOk, OnErr, OnOk};
ghost use Rattle.base_schema.specs.Kinds.{RowsAreOf};
ghost use Rattle.store_state.specs.Applied.{Applies};
ghost use Rattle.store_state.specs.Found.{HasSameKeys};
ghost use Rattle.store_state.specs.Keys.{line_keys, order_keys};
ghost use Rattle.store_state.specs.Refresh.{DeleteKeys, InsertRows, cause_of, changed, first_cause};
ghost use Rattle.store_state.specs.Refresh.{insert_cause, line_cause, order_cause};

use crate::action::Action;
use crate::cause::{first_delete_cause, first_line_cause, first_order_cause};
use crate::found::{key_set, lines_found, orders_found};
use crate::keys::LineKey;
use crate::parts::Parts;
use crate::refresh::{Form, Refresh};
use crate::state::State;
use base_columns::Rows;
use base_key_tables::KeySet;
use base_refusals::Cause;
use base_schema::TableName;
use std::alloc::{AllocError, Global};

/// Why a refresh was not applied.
#[derive(Clone, Copy, Debug, PartialEq, Eq)]
pub enum RefreshError {
    /// The refresh is refused in this state.
    Refused(Cause),
    /// Memory ran out.
    OutOfMemory,
}

impl From<AllocError> for RefreshError {
    ghost use Rattle.std.specs.Prelude.{◌≡◌};
    ghost use Rattle.store_state.specs.declared.applied.RefreshError.TheVariants.{OutOfMemory};

    ghost from_gives = { λ a r. r ≡ OutOfMemory };

    fn from(_: AllocError) -> RefreshError {
        RefreshError::OutOfMemory
    }
}

/// The first cause of inserted orders with these keys, if they have one.
fn cause_of_orders(
    alloc: Global,
    state: &State,
    keys: &[i64],
    wanted: &KeySet<i64>,
) -> Result<Option<Cause>, AllocError>
    requires { HasSameKeys wanted.now keys.now }
    ensures { IfOk result (λ cause. cause
        ≡ first_cause (order_cause (order_keys state.now.orders)) [] keys.now) }
{
    let present = orders_found(alloc, state.table(TableName::Orders), wanted)?;
    let cause = first_order_cause(alloc, &present, keys)?;
    Ok(cause)
}

/// The first cause of inserted lineitems with these keys, beside orders of the wanted keys, if they
/// have one.
fn cause_of_lines(
    alloc: Global,
    state: &State,
    wanted: &KeySet<i64>,
    lines: &[LineKey],
) -> Result<Option<Cause>, AllocError>
    ensures { IfOk result (λ cause. cause
        ≡ first_cause (line_cause wanted.now (line_keys state.now.lineitem)) [] lines.now) }
{
    let present = lines_found(alloc, state.table(TableName::Lineitem), wanted)?;
    let cause = first_line_cause(alloc, wanted, &present, lines)?;
    Ok(cause)
}

/// The first cause of keys that are to be deleted, if they have one.
fn cause_of_delete(
    alloc: Global,
    state: &State,
    keys: &[i64],
    wanted: &KeySet<i64>,
) -> Result<Option<Cause>, AllocError>
    requires { HasSameKeys wanted.now keys.now }
    ensures { IfOk result (λ cause. cause ≡ cause_of state.now (DeleteKeys keys.now)) }
{
    let present = orders_found(alloc, state.table(TableName::Orders), wanted)?;
    let cause = first_delete_cause(alloc, &present, keys)?;
    Ok(cause)
}

/// The first cause of inserted orders with these keys and of their lineitems, if they have one.
fn cause_of_rows(
    alloc: Global,
    state: &State,
    keys: &[i64],
    wanted: &KeySet<i64>,
    lineitems: &Parts,
) -> Result<Option<Cause>, AllocError>
    requires { HasSameKeys wanted.now keys.now }
    ensures { IfOk result (λ cause. cause
        ≡ insert_cause state.now keys.now (line_keys lineitems.now)) }
{
    match cause_of_orders(alloc, state, keys, wanted)? {
        Some(cause) => Ok(Some(cause)),
        None => {
            let lines = lineitems.line_keys(alloc)?;
            let cause = cause_of_lines(alloc, state, wanted, &lines)?;
            Ok(cause)
        }
    }
}

/// The first cause of an insert, if it has one.
fn cause_of_insert(
    alloc: Global,
    state: &State,
    orders: &Parts,
    lineitems: &Parts,
) -> Result<Option<Cause>, AllocError>
    ensures { IfOk result (λ cause. cause
        ≡ cause_of state.now (InsertRows orders.now lineitems.now)) }
{
    let keys = orders.order_keys(alloc)?;
    let wanted = key_set(alloc, &keys)?;
    let cause = cause_of_rows(alloc, state, &keys, &wanted, lineitems)?;
    Ok(cause)
}

/// Rows with others after them.
fn rows_with(rows: &Parts, added: &Parts) -> Result<Parts, AllocError>
    ensures { IfOk result (λ all. all ≡ rows.now ++ added.now) }
{
    let mut all = rows.clone()?;
    all.append(added)?;
    Ok(all)
}

/// Adds orders and lineitems, which have no cause against them, at the ends of their tables.
fn insert(orders: &Parts, lineitems: &Parts, state: &mut State) -> Result<(), AllocError>
    requires orders { RowsAreOf TableName.Orders orders.now }
    requires lineitems { RowsAreOf TableName.Lineitem lineitems.now }
    ensures ok { OnOk result (state.new ≡ changed state.old (InsertRows orders.now lineitems.now)) }
    ensures err { OnErr result (state.new ≡ state.old) }
{
    let orders = rows_with(state.table(TableName::Orders), orders)?;
    let lineitems = rows_with(state.table(TableName::Lineitem), lineitems)?;
    state.replace_sales(orders, lineitems);
    Ok(())
}

/// Removes the orders of these keys, which have no cause against them, with their lineitems.
fn delete(alloc: Global, wanted: &KeySet<i64>, state: &mut State) -> Result<(), AllocError>
    ensures ok { OnOk result (state.new ≡ changed state.old (DeleteKeys wanted.now)) }
    ensures err { OnErr result (state.new ≡ state.old) }
{
    let orders = state.table(TableName::Orders).without(alloc, wanted)?;
    let lineitems = state.table(TableName::Lineitem).without(alloc, wanted)?;
    state.replace_sales(orders, lineitems);
    Ok(())
}

/// Tries an insert.
fn try_insert(
    alloc: Global,
    orders: &Rows,
    lineitems: &Rows,
    state: &mut State,
) -> Result<(), RefreshError>
    requires orders { RowsAreOf TableName.Orders orders.now }
    requires lineitems { RowsAreOf TableName.Lineitem lineitems.now }
    ensures { Applies state.old state.new (InsertRows orders.now lineitems.now) result }
{
    let orders = Parts::of(alloc, orders)?;
    let lineitems = Parts::of(alloc, lineitems)?;
    match cause_of_insert(alloc, state, &orders, &lineitems)? {
        Some(cause) => Err(RefreshError::Refused(cause)),
        None => {
            insert(&orders, &lineitems, state)?;
            Ok(())
        }
    }
}

/// Tries a delete.
fn try_delete(alloc: Global, keys: &[i64], state: &mut State) -> Result<(), RefreshError>
    ensures { Applies state.old state.new (DeleteKeys keys.now) result }
{
    let wanted = key_set(alloc, keys)?;
    match cause_of_delete(alloc, state, keys, &wanted)? {
        Some(cause) => Err(RefreshError::Refused(cause)),
        None => {
            delete(alloc, &wanted, state)?;
            Ok(())
        }
    }
}

/// The first cause why the state refuses a refresh; none where it accepts it.
pub fn cause_of(
    alloc: Global,
    state: &State,
    refresh: &Refresh,
) -> Result<Option<Cause>, AllocError>
    ensures { IfOk result (λ cause. cause ≡ cause_of state.now refresh.now) }
{
    match refresh.action() {
        Action::Insert(orders, lineitems) => {
            let orders = Parts::of(alloc, orders)?;
            let lineitems = Parts::of(alloc, lineitems)?;
            cause_of_insert(alloc, state, &orders, &lineitems)
        }
        Action::Delete(keys) => {
            let wanted = key_set(alloc, keys)?;
            cause_of_delete(alloc, state, keys, &wanted)
        }
        Action::Malformed(file, set, refusal) => Ok(Some(Cause::Malformed(file, set, refusal))),
    }
}

/// Applies a refresh whole: adds its rows, or removes the orders of its keys with their lineitems.
/// If it is refused, its first cause is answered and the state stays as it was; so it does when
/// memory runs out.
pub fn apply(alloc: Global, state: &mut State, refresh: &Refresh) -> Result<(), RefreshError>
    ensures { Applies state.old state.new refresh.now result }
{
    match &refresh.form {
        Form::Insert(sales) => try_insert(alloc, &sales.orders, &sales.lineitems, state),
        Form::Delete(keys) => try_delete(alloc, keys.as_slice(), state),
        Form::Malformed(file, set, refusal) => {
            Err(RefreshError::Refused(Cause::Malformed(*file, *set, *refusal)))
        }
    }
}
