//! Operators on texts of a dictionary: once for each of its texts, then row by row by the texts'
//! codes.
ghost use Rattle.std.specs.Prelude.{◌≡◌, [], IfOk, IfSome, length, map};
ghost use Rattle.base_value.specs.declared.truth.Truth.TheVariants.{False as Never};
ghost use Rattle.base_value.specs.declared.value.Value.TheVariants.{Text as TextOf};
ghost use Rattle.base_columns.specs.Lists.{gathered, AreBelow};
ghost use Rattle.expr_operators.specs.Operators.{compared, liked};
ghost use Rattle.exec_column_operators.specs.Zips.{zip_with};

use base_columns::{Column, Dictionary};
use base_null_marks::masked;
use base_text::{Text, like};
use base_value::Truth;
use expr_operators::{Comparison, holds, truth_of};
use std::alloc::{AllocError, Global};

/// LIKE of a column's texts, where they are codes of a dictionary.
#[tactic(auto, using(crate::proofs::CodedTexts::coded))]
pub(crate) fn liked_codes(
    alloc: Global,
    a: &Column,
    pattern: &Text,
) -> Result<Option<Vec<Truth>>, AllocError>
    ensures { IfOk result (λ r. IfSome r (λ v. v.items ≡ map (liked pattern.now) a.now)) }
{
    let Some((codes, dictionary, marks)) = a.marked_codes() else {
        return Ok(None);
    };
    let table = liked_texts(alloc, dictionary.texts(), pattern)?;
    let truths = by_code(alloc, table.as_slice(), codes)?;
    Ok(Some(masked(truths, marks, Truth::Unknown)))
}

/// A comparison of a column's texts with one text, where they are codes of a dictionary.
#[tactic(auto, using(crate::proofs::CodedTexts::coded))]
pub(crate) fn compared_codes(
    alloc: Global,
    comparison: Comparison,
    a: &Column,
    b: &Column,
) -> Result<Option<Vec<Truth>>, AllocError>
    requires { length a.now ≡ length b.now }
    ensures { IfOk result (λ r.
        IfSome r (λ v. v.items ≡ zip_with (compared comparison) a.now b.now)) }
{
    let Some((codes, dictionary, marks)) = a.marked_codes() else {
        return Ok(None);
    };
    let Some((_ones, one)) = b.as_codes() else {
        return Ok(None);
    };
    if one.len() != 1 {
        return Ok(None);
    }
    let table = compared_texts(alloc, comparison, dictionary.texts(), one.text(0))?;
    let truths = by_code(alloc, table.as_slice(), codes)?;
    Ok(Some(masked(truths, marks, Truth::Unknown)))
}

// LIKE of each text.
fn liked_texts(alloc: Global, texts: &[Text], pattern: &Text) -> Result<Vec<Truth>, AllocError>
    ensures { IfOk result (λ v. v.items ≡ map (λ t. liked pattern.now (TextOf t)) texts.now) }
{
    let mut truths = Vec::with_capacity(alloc, texts.len())?;
    for text in texts {
        truths.push(truth_of(like(text, pattern)))?;
    }
    Ok(truths)
}

// A comparison of each text with one.
fn compared_texts(
    alloc: Global,
    comparison: Comparison,
    texts: &[Text],
    one: &Text,
) -> Result<Vec<Truth>, AllocError>
    ensures { IfOk result
        (λ v. v.items ≡ map (λ t. compared comparison (TextOf t) (TextOf one.now)) texts.now) }
{
    let mut truths = Vec::with_capacity(alloc, texts.len())?;
    for text in texts {
        truths.push(holds(comparison, text.cmp(one)))?;
    }
    Ok(truths)
}

// The truth of each code.
fn by_code(alloc: Global, table: &[Truth], codes: &[u8]) -> Result<Vec<Truth>, AllocError>
    requires { AreBelow (length table.now) codes.now }
    ensures { IfOk result (λ v. v.items ≡ gathered Never table.now codes.now) }
{
    let mut truths = Vec::with_capacity(alloc, codes.len())?;
    for code in codes {
        truths.push(table[*code as usize])?;
    }
    Ok(truths)
}
