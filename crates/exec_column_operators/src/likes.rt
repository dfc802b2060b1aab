//! LIKE of a column's texts, each of which is searched for a part of the pattern first.
ghost use Rattle.std.specs.Prelude.{◌≡◌, ◌<◌, ◌≤◌, IfOk, length, map};
ghost use Rattle.std.specs.Prelude.{slice_index_or};
ghost use Rattle.base_value.specs.declared.value.Value.TheVariants.{Null};
ghost use Rattle.expr_operators.specs.Operators.{liked};
ghost use Rattle.exec_column_operators.specs.Parts.{is_plain, IsPlainPart};

use base_columns::Column;
use base_text::Text;
use base_value::Truth;
use expr_operators::liked;
use memchr::memmem::Finder;
use std::alloc::{AllocError, Global};

/// LIKE, value by value.
pub(crate) fn liked_values(
    alloc: Global,
    a: &Column,
    pattern: &Text,
) -> Result<Vec<Truth>, AllocError>
    ensures { IfOk result (λ v. v.items ≡ map (liked pattern.now) a.now) }
{
    let finder = Finder::new(longest_part(pattern.bytes()));
    let mut truths = Vec::with_capacity(alloc, a.len())?;
    for i in 0..a.len() {
        let truth = liked_at(alloc, a, i, pattern, &finder)?;
        truths.push(truth)?;
    }
    Ok(truths)
}

// LIKE of the value at a place. A text that has not the part which is looked for is not like the
// pattern.
fn liked_at(
    alloc: Global,
    a: &Column,
    i: usize,
    pattern: &Text,
    finder: &Finder<'_>,
) -> Result<Truth, AllocError>
    requires within { i < length a.now }
    requires part { IsPlainPart pattern.now finder.now }
    ensures { IfOk result (λ t. t ≡ liked pattern.now (slice_index_or a.now i Null)) }
{
    if let Some(text) = a.text(i) {
        if finder.find(text).is_none() {
            return Ok(Truth::False);
        }
    }
    let x = a.at(alloc, i)?;
    Ok(liked(&x, pattern))
}

// The longest part of a pattern that has neither `%` nor `_`.
#[tactic(auto, using(crate::proofs::PlainParts::run_part, crate::proofs::PlainParts::no_run))]
fn longest_part(pattern: &[u8]) -> &[u8]
    ensures { IsPlainPart pattern.now result.now }
{
    let (from, to) = longest_run(pattern);
    let part = &pattern[from..to];
    if is_plain(part) { part } else { &pattern[..0] }
}

// Where it begins and ends.
fn longest_run(pattern: &[u8]) -> (usize, usize)
    ensures order { result.0 ≤ result.1 }
    ensures within { result.1 ≤ length pattern.now }
{
    let (mut begin, mut end): (usize, usize) = (0, 0);
    let mut from: usize = 0;
    for (place, byte) in pattern.iter().enumerate() {
        let next = place.saturating_add(1);
        if *byte == b'%' || *byte == b'_' {
            from = next;
        } else if next.saturating_sub(from) > end.saturating_sub(begin) {
            begin = from;
            end = next;
        }
    }
    let end = end.min(pattern.len());
    (begin.min(end), end)
}

// Whether no byte is `%` or `_`.
fn is_plain(part: &[u8]) -> bool
    ensures { result ≡ is_plain part.now }
{
    !part.contains(&b'%') && !part.contains(&b'_')
}
