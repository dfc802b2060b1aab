//! Which of some keys a table has.
ghost use Rattle.std.specs.Prelude.{◌≡◌, ◌++◌, ◌∷◌, [], List, ℤ, IfOk, OnOk};
ghost use Rattle.store_state.specs.Found.{HasSameKeys, TellsKeys, TellsLines};
ghost use Rattle.store_state.specs.Keys.{line_keys, order_keys};

use crate::keys::{LineKey, has_key, put_key, put_line};
use crate::part::Part;
use crate::parts::Parts;
use base_key_tables::KeySet;
use std::alloc::{AllocError, Global};

/// The set of these keys.
pub(crate) fn key_set(alloc: Global, keys: &[i64]) -> Result<KeySet<i64>, AllocError>
    ensures { IfOk result (λ set. HasSameKeys set keys.now) }
{
    let mut set = KeySet::new(alloc);
    for key in keys {
        put_key(&mut set, *key)?;
    }
    Ok(set)
}

/// Puts an order's key among the found ones, if it is wanted.
fn find_order(key: &i64, wanted: &KeySet<i64>, found: &mut KeySet<i64>) -> Result<(), AllocError>
    ensures { OnOk result ((keys : List ℤ) → TellsKeys wanted.now keys found.old
        → TellsKeys wanted.now (keys ++ key.now ∷ []) found.new) }
{
    if has_key(wanted, *key) {
        put_key(found, *key)?;
    }
    Ok(())
}

/// Puts those of some orders' keys among the found ones that are wanted.
fn find_orders(
    keys: &[i64],
    wanted: &KeySet<i64>,
    found: &mut KeySet<i64>,
) -> Result<(), AllocError>
    ensures { OnOk result ((before : List ℤ) → TellsKeys wanted.now before found.old
        → TellsKeys wanted.now (before ++ keys.now) found.new) }
{
    for key in keys {
        find_order(key, wanted, found)?;
    }
    Ok(())
}

/// Puts those of the keys of a part's orders among the found ones that are wanted. A part that can
/// have none of them is not read.
fn find_part_orders(
    part: &Part,
    wanted: &KeySet<i64>,
    keys: &mut Vec<i64>,
    found: &mut KeySet<i64>,
) -> Result<(), AllocError>
    ensures { OnOk result ((before : List ℤ) → TellsKeys wanted.now before found.old
        → TellsKeys wanted.now (before ++ order_keys part.now) found.new) }
{
    if !part.may_have(wanted) {
        return Ok(());
    }
    part.tell_orders(wanted, keys)?;
    find_orders(keys.as_slice(), wanted, found)?;
    Ok(())
}

/// Those of the wanted keys that an order has. A part that may have one is searched where its keys
/// ascend; else each of its orders is looked up once.
pub(crate) fn orders_found(
    alloc: Global,
    orders: &Parts,
    wanted: &KeySet<i64>,
) -> Result<KeySet<i64>, AllocError>
    ensures { IfOk result (λ found. TellsKeys wanted.now (order_keys orders.now) found) }
{
    let mut found = KeySet::new(alloc);
    let mut keys = Vec::new(alloc);
    let parts = orders.as_slice();
    for part in parts {
        find_part_orders(part, wanted, &mut keys, &mut found)?;
    }
    Ok(found)
}

/// Puts a lineitem's key among the found ones, if its order is wanted.
fn find_line(
    line: LineKey,
    wanted: &KeySet<i64>,
    found: &mut KeySet<LineKey>,
) -> Result<(), AllocError>
    ensures { OnOk result ((lines : List (ℤ × ℤ)) → TellsLines wanted.now lines found.old
        → TellsLines wanted.now (lines ++ line ∷ []) found.new) }
{
    if has_key(wanted, line.0) {
        put_line(found, line)?;
    }
    Ok(())
}

/// Puts those of some lineitems' keys among the found ones whose orders are wanted.
fn find_lines(
    lines: &[LineKey],
    wanted: &KeySet<i64>,
    found: &mut KeySet<LineKey>,
) -> Result<(), AllocError>
    ensures { OnOk result ((before : List (ℤ × ℤ))
        → TellsLines wanted.now before found.old
        → TellsLines wanted.now (before ++ lines.now) found.new) }
{
    for line in lines {
        find_line(*line, wanted, found)?;
    }
    Ok(())
}

/// Puts those of the keys of a part's lineitems among the found ones whose orders are wanted. A
/// part that can have none of them is not read.
fn find_part_lines(
    part: &Part,
    wanted: &KeySet<i64>,
    lines: &mut Vec<LineKey>,
    found: &mut KeySet<LineKey>,
) -> Result<(), AllocError>
    ensures { OnOk result ((before : List (ℤ × ℤ))
        → TellsLines wanted.now before found.old
        → TellsLines wanted.now (before ++ line_keys part.now) found.new) }
{
    if !part.may_have(wanted) {
        return Ok(());
    }
    part.tell_lines(wanted, lines)?;
    find_lines(lines.as_slice(), wanted, found)?;
    Ok(())
}

/// The keys of the lineitems of the wanted orders. A part that may have one is searched where its
/// keys ascend; else each of its lineitems is looked up once.
pub(crate) fn lines_found(
    alloc: Global,
    lineitems: &Parts,
    wanted: &KeySet<i64>,
) -> Result<KeySet<LineKey>, AllocError>
    ensures { IfOk result (λ found.
        TellsLines wanted.now (line_keys lineitems.now) found) }
{
    let mut found = KeySet::new(alloc);
    let mut lines = Vec::new(alloc);
    let parts = lineitems.as_slice();
    for part in parts {
        find_part_lines(part, wanted, &mut lines, &mut found)?;
    }
    Ok(found)
}
