//! The keys of orders and lineitems, and sets of them.
ghost use Rattle.std.specs.Prelude.{◌≡◌, ◌<◌, ◌++◌, ◌∷◌, [], not, if◌then◌else◌, IfOk, OnErr};
ghost use Rattle.std.specs.Prelude.{length, slice_index_or};
ghost use Rattle.store_state.specs.Keys.{has_key, has_line, number_at};

use base_columns::Segment;
use base_key_tables::KeySet;
use std::alloc::AllocError;

/// The key of a lineitem: its order's key and its line number.
pub(crate) type LineKey = (i64, i64);

/// Puts an order's key after the others, if it isn't there yet; whether it was put there.
pub(crate) fn put_key(keys: &mut KeySet<i64>, key: i64) -> Result<bool, AllocError>
    ensures added { IfOk result (λ added. added ≡ not (has_key keys.old key)) }
    ensures keys { IfOk result
        (λ added. keys.new ≡ (if added then keys.old ++ key ∷ [] else keys.old)) }
    ensures err { OnErr result (keys.new ≡ keys.old) }
{
    let added = keys.insert(key)?;
    Ok(added)
}

/// Puts a lineitem's key after the others, if it isn't there yet; whether it was put there.
pub(crate) fn put_line(lines: &mut KeySet<LineKey>, line: LineKey) -> Result<bool, AllocError>
    ensures added { IfOk result (λ added. added ≡ not (has_line lines.old line)) }
    ensures lines { IfOk result
        (λ added. lines.new ≡ (if added then lines.old ++ line ∷ [] else lines.old)) }
    ensures err { OnErr result (lines.new ≡ lines.old) }
{
    let added = lines.insert(line)?;
    Ok(added)
}

/// Whether the set has the order's key.
pub(crate) fn has_key(keys: &KeySet<i64>, key: i64) -> bool
    ensures { result ≡ has_key keys.now key }
{
    keys.contains(&key)
}

/// Whether the set has the lineitem's key.
pub(crate) fn has_line(lines: &KeySet<LineKey>, line: &LineKey) -> bool
    ensures { result ≡ has_line lines.now line.now }
{
    lines.contains(line)
}

/// The most keys that are compared one by one.
const FEW: usize = 8;

/// Whether the key is one of these, which are compared one by one.
fn is_one_of(keys: &[i64], key: i64) -> bool
    ensures { result ≡ has_key keys.now key }
{
    for other in keys {
        if key == *other {
            return true;
        }
    }
    false
}

/// Whether the set has the key, as those of its keys tell that may be the same.
pub(crate) fn has_near(keys: &KeySet<i64>, near: &[i64], key: i64) -> bool
    requires { has_key near.now key ≡ has_key keys.now key }
    ensures { result ≡ has_key keys.now key }
{
    if near.len() <= FEW {
        is_one_of(near, key)
    } else {
        has_key(keys, key)
    }
}

/// The key that was asked for last, and whether a set has it. The lineitems of an order lie side by
/// side, so most rows ask for the key of the row before.
#[derive(Clone, Copy)]
pub(crate) struct LastKey {
    pub(crate) key: i64,
    pub(crate) is_there: bool,
}

impl LastKey {
    /// Any key.
    pub(crate) fn first(keys: &KeySet<i64>) -> LastKey
        ensures { result.is_there ≡ has_key keys.now result.key }
    {
        LastKey {
            key: 0,
            is_there: has_key(keys, 0),
        }
    }

    /// Whether the set has a key, which is the last one then.
    pub(crate) fn has(&mut self, keys: &KeySet<i64>, near: &[i64], key: i64) -> bool
        requires near { has_key near.now key ≡ has_key keys.now key }
        requires last { self.old.is_there ≡ has_key keys.now self.old.key }
        ensures value { result ≡ has_key keys.now key }
        ensures last { self.new.is_there ≡ has_key keys.now self.new.key }
    {
        if self.key != key {
            *self = LastKey {
                key,
                is_there: has_near(keys, near, key),
            };
        }
        self.is_there
    }
}

/// The whole number in a column of a row; 0 where there is none of 64 bits.
pub(crate) fn number_at(segment: &Segment, i: usize, column: usize) -> i64
    requires { i < length segment.now }
    ensures { result ≡ number_at column (slice_index_or segment.now i []) }
{
    segment.number(i, column).unwrap_or(0)
}
