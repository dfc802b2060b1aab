//! Orders of given keys in a segment whose keys ascend.
ghost use Rattle.std.specs.Prelude.{◌≡◌, ℕ, ◌<◌, ◌≤◌, ◌<ℤ◌, ◌≤ℤ◌, true, ◌∷◌, ◌++◌, [], OnOk};
ghost use Rattle.std.specs.Prelude.{length, slice_index_or, if◌then◌else◌};
ghost use Rattle.store_state.specs.Found.{AddsKeys, AddsLines};
ghost use Rattle.store_state.specs.Keys.{has_key, line_keys, order_key, order_keys};
ghost use Rattle.store_state.specs.Parts.{Ascend, IsStoredPart, left_rows};

use crate::key_range::KeyRange;
use crate::keys::{LineKey, number_at};
use crate::part::{has_place, put_line_key};
use base_columns::Segment;
use std::alloc::AllocError;

/// The first place from which on no key is less than this one.
fn first_at_least(segment: &Segment, key: i64) -> usize
    requires { Ascend (length segment.now) segment.now }
    ensures within { result ≤ length segment.now }
    ensures less { (i : ℕ) → i < result → order_key (slice_index_or segment.now i []) <ℤ key }
    ensures rest { (i : ℕ) → result ≤ i → i < length segment.now
        → key ≤ℤ order_key (slice_index_or segment.now i []) }
{
    let mut low = 0;
    let mut high = segment.len();
    while low < high {
        let middle = low + (high - low) / 2;
        if number_at(segment, middle, 0) < key {
            low = middle + 1;
        } else {
            high = middle;
        }
    }
    low
}

/// Whether an order of this key is left.
fn has_order(segment: &Segment, deleted: &[u32], range: KeyRange, key: i64) -> bool
    requires { IsStoredPart deleted.now range.least range.greatest true segment.now }
    ensures { result ≡ has_key (order_keys (left_rows deleted.now segment.now)) key }
{
    if !range.has(key) {
        return false;
    }
    for i in first_at_least(segment, key)..segment.len() {
        if number_at(segment, i, 0) != key {
            return false;
        }
        if !has_place(deleted, i as u32) {
            return true;
        }
    }
    false
}

/// Puts a key after others, if an order of it is left.
fn put_order_of(
    segment: &Segment,
    deleted: &[u32],
    range: KeyRange,
    key: &i64,
    keys: &mut Vec<i64>,
) -> Result<(), AllocError>
    requires { IsStoredPart deleted.now range.least range.greatest true segment.now }
    ensures { OnOk result (keys.new.items
        ≡ (if has_key (order_keys (left_rows deleted.now segment.now)) key.now then keys.old.items
        ++ key.now ∷ [] else keys.old.items)) }
{
    if has_order(segment, deleted, range, *key) {
        keys.push(*key)?;
    }
    Ok(())
}

/// Puts those of these keys after others of which an order is left.
pub(crate) fn put_orders_of(
    segment: &Segment,
    deleted: &[u32],
    range: KeyRange,
    wanted: &[i64],
    keys: &mut Vec<i64>,
) -> Result<(), AllocError>
    requires { IsStoredPart deleted.now range.least range.greatest true segment.now }
    ensures { OnOk result (AddsKeys wanted.now (order_keys (left_rows deleted.now segment.now))
        keys.old.items keys.new.items) }
{
    for key in wanted {
        put_order_of(segment, deleted, range, key, keys)?;
    }
    Ok(())
}

/// Puts the keys of the lineitems that are left of this order after others.
fn put_lines_of_one(
    segment: &Segment,
    deleted: &[u32],
    range: KeyRange,
    key: i64,
    lines: &mut Vec<LineKey>,
) -> Result<(), AllocError>
    requires { IsStoredPart deleted.now range.least range.greatest true segment.now }
    ensures { OnOk result (AddsLines (key ∷ []) (line_keys (left_rows deleted.now segment.now))
        lines.old.items lines.new.items) }
{
    if !range.has(key) {
        return Ok(());
    }
    for i in first_at_least(segment, key)..segment.len() {
        if number_at(segment, i, 0) != key {
            return Ok(());
        }
        put_line_key(segment, deleted, i, lines)?;
    }
    Ok(())
}

/// Puts the keys of the lineitems that are left of these orders after others.
pub(crate) fn put_lines_of(
    segment: &Segment,
    deleted: &[u32],
    range: KeyRange,
    wanted: &[i64],
    lines: &mut Vec<LineKey>,
) -> Result<(), AllocError>
    requires { IsStoredPart deleted.now range.least range.greatest true segment.now }
    ensures { OnOk result (AddsLines wanted.now (line_keys (left_rows deleted.now segment.now))
        lines.old.items lines.new.items) }
{
    for key in wanted {
        put_lines_of_one(segment, deleted, range, *key, lines)?;
    }
    Ok(())
}
