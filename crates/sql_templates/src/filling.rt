//! The text of a query with values put in.
ghost use Rattle.std.specs.Prelude.{◌≡◌, ℕ, ◌∷◌, ◌++◌, ◌≤◌, IfOk, IfSome, IsNone, IsTrue, List};
ghost use Rattle.std.specs.Prelude.{OnOk, length, None};
ghost use Rattle.sql_ast.specs.declared.statement.TemplateValue.{TemplateValue};
ghost use Rattle.sql_templates.specs.Templates.{doubled, filled, first_misfit, place_with, put};
ghost use Rattle.sql_templates.specs.Templates.{put_value, is_query, template_of};
ghost use Rattle.sql_templates.specs.Filling.{Fills};
ghost use Rattle.sql_templates.specs.Laws.{IsSomeScript};
ghost use Rattle.sql_templates.specs.Writable.{AreWritable};

use crate::fault::TemplateFault;
use crate::kind::{ValueKind, kinds};
use crate::texts;
use base_decimal::push_decimal;
use base_refusals::TemplateRefusal;
use sql_ast::TemplateValue;
use std::alloc::{AllocError, Global};

/// Whether a query has this number.
fn is_query(number: u64) -> bool
    ensures { result ≡ is_query number }
{
    (1..=22).contains(&number)
}

/// The text of a query's template.
fn text(number: u64) -> &'static str
    requires { IsTrue (is_query number) }
    ensures { result.now ≡ (template_of number).text }
{
    match number {
        1 => texts::QUERY_1,
        2 => texts::QUERY_2,
        3 => texts::QUERY_3,
        4 => texts::QUERY_4,
        5 => texts::QUERY_5,
        6 => texts::QUERY_6,
        7 => texts::QUERY_7,
        8 => texts::QUERY_8,
        9 => texts::QUERY_9,
        10 => texts::QUERY_10,
        11 => texts::QUERY_11,
        12 => texts::QUERY_12,
        13 => texts::QUERY_13,
        14 => texts::QUERY_14,
        15 => texts::QUERY_15,
        16 => texts::QUERY_16,
        17 => texts::QUERY_17,
        18 => texts::QUERY_18,
        19 => texts::QUERY_19,
        20 => texts::QUERY_20,
        21 => texts::QUERY_21,
        22 => texts::QUERY_22,
        _ => "",
    }
}

/// The number of the first place that doesn't take its value.
#[tactic(auto, using(crate::proofs::Misfits::misfit_here, crate::proofs::Misfits::misfit_past, crate::proofs::WritableValues::writable_all, crate::proofs::WritableValues::writable_more))]
fn misfit(kinds: &[ValueKind], values: &[TemplateValue]) -> Option<u32>
    requires { length kinds.now ≤ 10 }
    ensures place { result ≡ first_misfit 1 kinds.now values.now }
    ensures writable { IsNone result → length kinds.now ≡ length values.now
        → AreWritable values.now }
{
    let mut at = 0usize;
    'places: while at < kinds.len() && at < values.len() {
        if !kinds[at].fits(&values[at]) {
            return Some(at as u32 + 1);
        }
        at += 1;
    }
    None
}

/// Appends a text with each quote in it twice.
fn push_doubled(script: &mut Vec<u8>, text: &[u8]) -> Result<(), AllocError>
    ensures { OnOk result (script.new.items ≡ script.old.items ++ doubled text.now) }
{
    for byte in text {
        if *byte == b'\'' {
            script.push(b'\'')?;
        }
        script.push(*byte)?;
    }
    Ok(())
}

/// Appends the value of this number, counted from 1, if there is one.
fn push_value(script: &mut Vec<u8>, values: &[TemplateValue], number: u32) -> Result<(), AllocError>
    ensures { OnOk result (script.new.items ≡ script.old.items ++ put_value values.now number) }
{
    match values.get((number as usize).saturating_sub(1)) {
        None => Ok(()),
        Some(TemplateValue::Text(text)) => push_doubled(script, text.bytes()),
        Some(TemplateValue::Number(number, scale)) => push_decimal(script, *number, *scale),
    }
}

/// Appends a byte that stands in no place's number, unless it is a colon, which begins one: the
/// number so far, if it does.
fn put_plain(script: &mut Vec<u8>, byte: u8) -> Result<Option<u32>, AllocError>
    ensures text { IfOk result (λ now. (values : List TemplateValue) (rest : List ℕ)
        → script.old.items ++ filled values None (byte ∷ rest)
        ≡ script.new.items ++ filled values now rest) }
    ensures small { IfOk result (λ now. IfSome now (λ n. n ≤ 99)) }
{
    if byte == b':' {
        return Ok(Some(0));
    }
    script.push(byte)?;
    Ok(None)
}

/// Takes one more byte of a template, where `place` is the number so far of a place: the number
/// after it, if one goes on.
#[tactic(auto, using(crate::proofs::Bytes::digit_more, crate::proofs::Bytes::value_ends))]
fn put_byte(
    script: &mut Vec<u8>,
    values: &[TemplateValue],
    place: Option<u32>,
    byte: u8,
) -> Result<Option<u32>, AllocError>
    requires { IfSome place (λ n. n ≤ 99) }
    ensures text { IfOk result (λ now. (rest : List ℕ)
        → script.old.items ++ filled values.now place (byte ∷ rest)
        ≡ script.new.items ++ filled values.now now rest) }
    ensures small { IfOk result (λ now. IfSome now (λ n. n ≤ 99)) }
{
    match place {
        None => {
            let now = put_plain(script, byte)?;
            Ok(now)
        }
        Some(number) => {
            if byte.is_ascii_digit() {
                return Ok(Some((10 * number + (byte - b'0') as u32).min(99)));
            }
            push_value(script, values, number)?;
            let now = put_plain(script, byte)?;
            Ok(now)
        }
    }
}

/// The template with its values.
fn with_values(
    alloc: Global,
    template: &[u8],
    values: &[TemplateValue],
) -> Result<Vec<u8>, AllocError>
    ensures { IfOk result (λ script. script.items ≡ filled values.now None template.now) }
{
    let mut script = Vec::with_capacity(alloc, template.len())?;
    let mut place: Option<u32> = None;
    'bytes: for byte in template {
        place = put_byte(&mut script, values, place, *byte)?;
    }
    if let Some(number) = place {
        push_value(&mut script, values, number)?;
    }
    Ok(script)
}

/// The text of one of the 22 queries (TPC-H, section 2.4) with these values, a script: one
/// statement, but query 15 also creates its view before and drops it after.
///
/// A text is put in with each quote in it twice, a number as answers print it. Refused are, in this
/// order, a number that is none of 1 to 22, another number of values than the query has places, and
/// the first value that its place doesn't take.
#[tactic(auto, using(crate::proofs::Misfits::query_is))]
pub fn fill(alloc: Global, number: u64, values: &[TemplateValue]) -> Result<Vec<u8>, TemplateFault>
    ensures text { Fills number values.now result }
    // The text is a script.
    ensures script { IfOk result (λ script. IsSomeScript script.items) }
{
    if !is_query(number) {
        return Err(TemplateFault::Refused(TemplateRefusal::NoSuchQuery));
    }
    let kinds = kinds(number);
    if values.len() != kinds.len() {
        return Err(TemplateFault::Refused(TemplateRefusal::WrongCount));
    }
    match misfit(kinds, values) {
        Some(place) => Err(TemplateFault::Refused(TemplateRefusal::WrongKind(place))),
        None => {
            match with_values(alloc, text(number).as_bytes(), values) {
                Ok(script) => Ok(script),
                Err(_) => Err(TemplateFault::OutOfMemory),
            }
        }
    }
}
