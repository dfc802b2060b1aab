//! Cutting a script into its tokens.
ghost use Rattle.std.specs.Prelude.{◌≡◌, ℕ, ◌+◌, ◌^◌, ◌<◌, ◌≤◌, ◌==◌, not, length, drop, take};
ghost use Rattle.std.specs.Prelude.{IfOk, Err};
ghost use Rattle.std.specs.List.{prefix_len};
ghost use Rattle.sql_lexer.specs.Bytes as byte;
ghost use Rattle.sql_lexer.specs.Lexing as lexing;
ghost use Rattle.sql_lexer.specs.Lexing.{Cuts, InOrder, Lexes, NeverBoth, OneRefusal, OneTokens};
ghost use Rattle.sql_lexer.specs.Lexing.{Refuses, SomeAnswer};
ghost use Rattle.sql_lexer.specs.declared.fault.LexRefusal.{LexRefusal};

use crate::content::make;
use crate::fault::{LexFault, LexRefusal};
use crate::front::{Form, after, front, is_letter};
use crate::token::Token;
use std::alloc::Global;

fn is_blank(b: u8) -> bool
    ensures { result ≡ byte.is_blank b }
{
    b == b' ' || b == b'\t' || b == b'\n' || b == b'\r'
}

fn is_comment(bytes: &[u8]) -> bool
    ensures { result ≡ lexing.is_comment bytes.now }
{
    match bytes {
        [b, c, ..] => *b == b'-' && *c == b'-',
        _ => false,
    }
}

/// How many bytes stand before the line's end.
fn line_len(bytes: &[u8]) -> usize
    ensures value { result ≡ prefix_len (λ x. not (x == 10)) bytes.now }
    ensures within { result ≤ length bytes.now }
{
    bytes.iter().take_while(|b| **b != b'\n').count()
}

/// How many bytes at the front part tokens: a blank, or a comment up to its line's end.
fn gap_len(bytes: &[u8]) -> usize
    ensures value { result ≡ lexing.gap_len bytes.now }
    ensures within { result ≤ length bytes.now }
{
    match bytes {
        [] => 0,
        [b, ..] => {
            if is_blank(*b) {
                1
            } else if is_comment(bytes) {
                line_len(bytes)
            } else {
                0
            }
        }
    }
}

fn is_glued(form: Form, rest: &[u8]) -> bool
    ensures { result ≡ lexing.glued form rest.now }
{
    match (form, rest) {
        (Form::Number, [b, ..]) => is_letter(*b),
        _ => false,
    }
}

/// What is wrong with a byte that no token begins with.
fn refusal_at(b: u8) -> LexRefusal
    ensures { result ≡ lexing.refusal_at b }
{
    if b == b'\'' {
        LexRefusal::OpenText
    } else {
        LexRefusal::BadByte
    }
}

/// The first bytes.
fn before(bytes: &[u8], n: usize) -> &[u8]
    requires { n ≤ length bytes.now }
    ensures { result.now ≡ take n bytes.now }
{
    let (front, _) = bytes.split_at(n);
    front
}

/// The next token, from the bytes at place `at` on.
fn next_token(alloc: Global, bytes: &[u8], at: usize) -> Result<Token, LexFault>
    requires some { 0 < length bytes.now }
    requires no_gap { lexing.gap_len bytes.now ≡ 0 }
    requires place { at + length bytes.now < 2 ^ 64 }
    ensures token { IfOk result (λ t. Cuts at bytes.now t) }
    ensures refused { (r : LexRefusal) (place : ℕ) → result ≡ Err (LexFault.Refused r place)
        → Refuses at bytes.now r place }
{
    match front(bytes) {
        None => Err(LexFault::Refused(refusal_at(bytes[0]), at)),
        Some((form, len)) => {
            let (kind, content) = make(alloc, form, before(bytes, len), at)?;
            if is_glued(form, after(bytes, len)) {
                return Err(LexFault::Refused(LexRefusal::BadByte, at + len));
            }
            Ok(Token {
                kind,
                content,
                start: at,
                len,
            })
        }
    }
}

/// The tokens of a script, the longest from the left, without what parts them. Refused is the first
/// byte from the left that makes it no tokens. A token's text is the slice that its start and
/// length name.
pub fn lex(alloc: Global, script: &[u8]) -> Result<Vec<Token>, LexFault>
    // The script is these tokens.
    ensures tokens { IfOk result (λ v. Lexes 0 script.now v.items) }
    // They stand in order.
    ensures order { IfOk result (λ v. InOrder 0 (length script.now) v.items) }
    // A refusal is the first one, at its byte.
    ensures refused { (r : LexRefusal) (place : ℕ) → result ≡ Err (LexFault.Refused r place)
        → Refuses 0 script.now r place }
{
    let mut found = Vec::new(alloc);
    let mut at = 0;
    let mut rest = script;
    'cut: while !rest.is_empty() {
        let gap = gap_len(rest);
        if gap > 0 {
            rest = after(rest, gap);
            at += gap;
            continue;
        }
        let token = next_token(alloc, rest, at)?;
        let len = token.len;
        found.push(token)?;
        rest = after(rest, len);
        at += len;
    }
    Ok(found)
}

/// A script has one list of tokens, or one first refusal, and never both.
pub fn one_answer()
    ensures some { SomeAnswer }
    ensures tokens { OneTokens }
    ensures refusal { OneRefusal }
    ensures never { NeverBoth }
{}
