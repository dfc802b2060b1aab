//! The first cause why a refresh is refused, by sets of the keys that the state has.
ghost use Rattle.std.specs.Prelude.{◌≡◌, ◌++◌, ◌∷◌, [], None, IfOk};
ghost use Rattle.store_state.specs.Refresh.{delete_cause, first_cause, line_cause, order_cause};

use crate::keys::{LineKey, has_key, has_line, put_key, put_line};
use base_key_tables::KeySet;
use base_refusals::Cause;
use std::alloc::{AllocError, Global};

// The first cause of these keys, where none came before.
fn find_order_cause(
    present: &KeySet<i64>,
    earlier: &mut KeySet<i64>,
    keys: &[i64],
) -> Result<Option<Cause>, AllocError>
    requires { earlier.old ≡ [] }
    ensures { IfOk result (λ cause. cause
        ≡ first_cause (order_cause present.now) [] keys.now) }
{
    for key in keys {
        if has_key(present, *key) {
            return Ok(Some(Cause::OrderExists(*key)));
        }
        if !put_key(earlier, *key)? {
            return Ok(Some(Cause::OrderTwice(*key)));
        }
    }
    Ok(None)
}

/// The first cause of inserted orders with these keys, where the state has those that are present.
pub(crate) fn first_order_cause(
    alloc: Global,
    present: &KeySet<i64>,
    keys: &[i64],
) -> Result<Option<Cause>, AllocError>
    ensures { IfOk result (λ cause. cause
        ≡ first_cause (order_cause present.now) [] keys.now) }
{
    let mut earlier = KeySet::new(alloc);
    let cause = find_order_cause(present, &mut earlier, keys)?;
    Ok(cause)
}

/// The state has a lineitem with this key.
fn line_exists(line: &LineKey) -> Cause
    ensures { result ≡ Cause.LineExists line.now.0 line.now.1 }
{
    Cause::LineExists(line.0, line.1)
}

/// An earlier lineitem of the file has this key.
fn line_twice(line: &LineKey) -> Cause
    ensures { result ≡ Cause.LineTwice line.now.0 line.now.1 }
{
    Cause::LineTwice(line.0, line.1)
}

// The cause of a line, after earlier ones without a cause; a line without a cause is noted.
fn cause_of_line(
    orders: &KeySet<i64>,
    present: &KeySet<LineKey>,
    earlier: &mut KeySet<LineKey>,
    line: &LineKey,
) -> Result<Option<Cause>, AllocError>
    ensures cause { IfOk result
        (λ cause. cause ≡ line_cause orders.now present.now earlier.old line.now) }
    ensures noted { IfOk result
        (λ cause. cause ≡ None → earlier.new ≡ earlier.old ++ line.now ∷ []) }
{
    if !has_key(orders, line.0) {
        return Ok(Some(Cause::StrayLine(line.0)));
    }
    if has_line(present, line) {
        return Ok(Some(line_exists(line)));
    }
    if !put_line(earlier, *line)? {
        return Ok(Some(line_twice(line)));
    }
    Ok(None)
}

// The first cause of these lines, where none came before.
fn find_line_cause(
    orders: &KeySet<i64>,
    present: &KeySet<LineKey>,
    earlier: &mut KeySet<LineKey>,
    lines: &[LineKey],
) -> Result<Option<Cause>, AllocError>
    requires { earlier.old ≡ [] }
    ensures { IfOk result (λ cause. cause
        ≡ first_cause (line_cause orders.now present.now) [] lines.now) }
{
    for line in lines {
        let cause = cause_of_line(orders, present, earlier, line)?;
        if cause.is_some() {
            return Ok(cause);
        }
    }
    Ok(None)
}

/// The first cause of inserted lineitems with these keys, beside orders of these keys, where the
/// state has the lineitems that are present.
pub(crate) fn first_line_cause(
    alloc: Global,
    orders: &KeySet<i64>,
    present: &KeySet<LineKey>,
    lines: &[LineKey],
) -> Result<Option<Cause>, AllocError>
    ensures { IfOk result (λ cause. cause
        ≡ first_cause (line_cause orders.now present.now) [] lines.now) }
{
    let mut earlier = KeySet::new(alloc);
    let cause = find_line_cause(orders, present, &mut earlier, lines)?;
    Ok(cause)
}

// The first cause of these keys, where none came before.
fn find_delete_cause(
    present: &KeySet<i64>,
    earlier: &mut KeySet<i64>,
    keys: &[i64],
) -> Result<Option<Cause>, AllocError>
    requires { earlier.old ≡ [] }
    ensures { IfOk result (λ cause. cause
        ≡ first_cause (delete_cause present.now) [] keys.now) }
{
    for key in keys {
        if !has_key(present, *key) {
            return Ok(Some(Cause::UnknownOrder(*key)));
        }
        if !put_key(earlier, *key)? {
            return Ok(Some(Cause::KeyTwice(*key)));
        }
    }
    Ok(None)
}

/// The first cause of keys that are to be deleted, where the state has the orders that are present.
pub(crate) fn first_delete_cause(
    alloc: Global,
    present: &KeySet<i64>,
    keys: &[i64],
) -> Result<Option<Cause>, AllocError>
    ensures { IfOk result (λ cause. cause
        ≡ first_cause (delete_cause present.now) [] keys.now) }
{
    let mut earlier = KeySet::new(alloc);
    let cause = find_delete_cause(present, &mut earlier, keys)?;
    Ok(cause)
}
