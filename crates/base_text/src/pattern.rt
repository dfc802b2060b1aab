//! LIKE: texts against patterns.
ghost use Rattle.std.specs.Prelude.{◌≡◌, ℕ, ◌+◌, ◌<◌, ◌≤◌, List, length, take, drop, true, false};
ghost use Rattle.std.specs.Prelude.{IsTrue, IsNone, IfSome, MatchOption};
ghost use Rattle.base_text.specs.Pattern.{is_like, some_rest};
ghost use Rattle.base_text.specs.Parts.{fits, has_no_percent, IsNoFit, IsFirstFit, IsPercent};

use crate::Text;

/// Whether the text is like the pattern, in which `_` stands for any one byte and `%` for any
/// bytes, none among them (SQL's LIKE without ESCAPE). It takes no memory, and time at most the
/// product of the two lengths.
#[tactic(auto, using(crate::proofs::Likes::like_parted))]
pub fn like(text: &Text, pattern: &Text) -> bool
    ensures { result ≡ is_like pattern.now text.now }
{
    let text = text.bytes();
    let pattern = pattern.bytes();
    match percent_place(pattern) {
        None => is_whole(text, pattern),
        Some(front) => fits(&pattern[..front], text)
            && like_some_rest(&text[front..], &pattern[front + 1..]),
    }
}

// Whether some rest of the text is like the pattern. Each part up to the next `%` is put at the
// first place that it fits: a later place leaves less for what follows.
fn like_some_rest(text: &[u8], pattern: &[u8]) -> bool
    ensures { result ≡ some_rest (is_like pattern.now) text.now }
{
    let mut text = text;
    let mut pattern = pattern;
    'parts: loop {
        let Some(part) = percent_place(pattern) else {
            return ends_with(text, pattern);
        };
        let Some(behind) = place_behind(text, pattern, part) else {
            return false;
        };
        text = &text[behind..];
        pattern = &pattern[part + 1..];
    }
}

// Whether the text is like a pattern without `%`.
#[tactic(auto, using(crate::proofs::Likes::like_alone, crate::proofs::Likes::unlike_short, crate::proofs::Likes::unlike_long))]
fn is_whole(text: &[u8], part: &[u8]) -> bool
    requires { has_no_percent part.now ≡ true }
    ensures { result ≡ is_like part.now text.now }
{
    text.len() == part.len() && fits(part, text)
}

// Whether the text's end is like a pattern without `%`.
#[tactic(auto, using(crate::proofs::Likes::no_last, crate::proofs::Likes::last_at_end))]
fn ends_with(text: &[u8], part: &[u8]) -> bool
    requires { has_no_percent part.now ≡ true }
    ensures { result ≡ some_rest (is_like part.now) text.now }
{
    part.len() <= text.len() && fits(part, &text[text.len() - part.len()..])
}

// The place of the text after the first place that the part before the pattern's `%` fits.
#[tactic(auto, using(crate::proofs::Likes::part_found, crate::proofs::Likes::part_missing))]
fn place_behind(text: &[u8], pattern: &[u8], part: usize) -> Option<usize>
    requires { IsPercent pattern.now part }
    ensures missing { IsNone result → some_rest (is_like pattern.now) text.now ≡ false }
    ensures found { IfSome result (λ behind. (behind ≤ length text.now)
        × (some_rest (is_like pattern.now) text.now
        ≡ some_rest (is_like (drop (part + 1) pattern.now)) (drop behind text.now))) }
{
    let place = first_fit(&pattern[..part], text)?;
    Some(place + part)
}

// The place of the first `%`.
#[tactic(auto, using(crate::proofs::Likes::no_percent_more))]
fn percent_place(pattern: &[u8]) -> Option<usize>
    ensures place { MatchOption result (has_no_percent pattern.now ≡ true) (IsPercent pattern.now) }
    ensures short { IfSome result (λ place. place < usize.MAX) }
{
    for (place, byte) in pattern.iter().enumerate() {
        if *byte == b'%' {
            return Some(place);
        }
    }
    None
}

// Whether the text begins with bytes that those of the part stand for.
#[tactic(auto, using(crate::proofs::Likes::fits_short, crate::proofs::Likes::fits_long, crate::proofs::Likes::fits_more))]
fn fits(part: &[u8], text: &[u8]) -> bool
    ensures fits { result ≡ fits part.now text.now }
    ensures long { IsTrue result → length part.now ≤ length text.now }
{
    if text.len() < part.len() {
        return false;
    }
    for (place, mark) in part.iter().enumerate() {
        if *mark != b'_' && *mark != text[place] {
            return false;
        }
    }
    true
}

// The first place of the text at which the part fits.
fn first_fit(part: &[u8], text: &[u8]) -> Option<usize>
    ensures { MatchOption result (IsNoFit part.now text.now) (IsFirstFit part.now text.now) }
{
    for place in 0..=text.len() {
        if fits(part, &text[place..]) {
            return Some(place);
        }
    }
    None
}
