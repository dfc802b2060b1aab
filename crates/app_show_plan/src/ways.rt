//! How joins find the pairs of their rows.
ghost use Rattle.std.specs.Prelude.{◌≡◌, IsTrue, length};
ghost use Rattle.std.specs.List.{range_with_len};
ghost use Rattle.base_row_laws.specs.Matched.{right_places};

use base_columns::Bag;
use exec_hash_join::{join_keys, match_keys};
use expr_operators::Comparison;
use expr_scalar::Expr;
use std::alloc::{AllocError, Global};

/// How a join finds the pairs of its rows.
#[derive(Clone, Copy)]
pub enum JoinWay {
    /// By columns whose values are numbers of a narrow range: a list by number.
    DenseKeys,
    /// By the hashes of such columns.
    Hashes,
    /// All pairs are tried.
    Pairs,
}

impl JoinWay {
    /// The words for it.
    pub fn words(self) -> &'static str {
        match self {
            JoinWay::DenseKeys => "dense keys",
            JoinWay::Hashes => "hashes",
            JoinWay::Pairs => "pairs",
        }
    }
}

/// Whether a column of the joined row is one of the left side, which has so many.
fn is_left(e: &Expr, left: usize) -> Option<bool> {
    match e {
        Expr::Column(place) => Some((*place as usize) < left),
        _ => None,
    }
}

/// Whether a condition is the equality of a column of the left side and one of the right side.
fn is_across(on: &Expr, left: usize) -> bool {
    match on {
        Expr::Compare(Comparison::Equal, a, b) => {
            match (is_left(a.get(), left), is_left(b.get(), left)) {
                (Some(first), Some(second)) => first != second,
                _ => false,
            }
        }
        _ => false,
    }
}

/// Whether a condition asks for such an equality.
fn asks_equal(on: &Expr, left: usize) -> bool {
    match on {
        Expr::All(es) => {
            let mut found = false;
            for e in es.as_slice() {
                found |= is_across(e, left);
            }
            found
        }
        _ => is_across(on, left),
    }
}

/// Whether the right columns of pairs are the first ones, in their order.
fn are_first(matched: &[(u32, u32)]) -> bool
    ensures { IsTrue result → right_places matched.now ≡ range_with_len 0 (length matched.now) }
{
    for (place, pair) in matched.iter().enumerate() {
        if pair.1 as usize != place {
            return false;
        }
    }
    true
}

/// How many numbers the range of keys has: of the second ones where the first ones are all the same
/// and the second ones not below 0.
fn range_of(keys: &[(i64, i64)]) -> Option<usize> {
    let first = keys.first()?.0;
    let mut low = i64::MAX;
    let mut high: i64 = 0;
    for key in keys {
        if key.0 != first || key.1 < 0 {
            return None;
        }
        low = low.min(key.1);
        high = high.max(key.1);
    }
    match usize::try_from(high.saturating_sub(low)) {
        Ok(width) => width.checked_add(1),
        Err(_) => None,
    }
}

/// How the rows of these keys are found, the side with fewer rows by a table of its keys: a list
/// where its range is at most four times as long as both sides.
fn way_of_keys(left: &[(i64, i64)], right: &[(i64, i64)]) -> JoinWay {
    let most = left.len().saturating_add(right.len()).saturating_mul(4);
    let fewer = if left.len() < right.len() {
        left
    } else {
        right
    };
    match range_of(fewer) {
        Some(count) if count <= most => JoinWay::DenseKeys,
        _ => JoinWay::Hashes,
    }
}

/// How two sides find their pairs under a condition on both together.
pub fn way_of_join(
    alloc: Global,
    left: &Bag,
    right: &Bag,
    matched: &[(u32, u32)],
    on: &Expr,
) -> Result<JoinWay, AllocError> {
    if matched.is_empty() && !asks_equal(on, left.width()) {
        return Ok(JoinWay::Pairs);
    }
    if !are_first(matched) {
        return Ok(JoinWay::Hashes);
    }
    let keys = join_keys(alloc, left, right, matched, on, false)?;
    Ok(way_of_keys(keys.left.as_slice(), keys.right.as_slice()))
}

/// How the left rows of a scalar subquery find their partners.
pub fn way_of_single(
    alloc: Global,
    left: &Bag,
    right: &Bag,
    matched: &[(u32, u32)],
) -> Result<JoinWay, AllocError> {
    if matched.is_empty() {
        return Ok(JoinWay::Pairs);
    }
    let keys = match_keys(alloc, left, right, matched)?;
    Ok(way_of_keys(keys.left.as_slice(), keys.right.as_slice()))
}
