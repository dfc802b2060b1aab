//! Whole scripts, from their tokens and from their bytes.
ghost use Rattle.std.specs.Prelude.{◌≡◌, ℕ, length, IfOk, Err};
ghost use Rattle.sql_grammar_laws.specs.declared.SyntaxFault.{SyntaxFault};
ghost use Rattle.sql_grammar_laws.specs.Readings.{Reads};
ghost use Rattle.sql_grammar_laws.specs.Scripts as scripts;
ghost use Rattle.sql_grammar_laws.specs.Scripts.{IsFirst, IsRead};
ghost use Rattle.sql_parser.specs.declared.fault.ScriptRefusal.{ScriptRefusal};
ghost use Rattle.sql_parser_steps.specs.Readings.{ended_at};
ghost use Rattle.sql_parser.specs.Script.{IsReadScript, IsRefusedScript, NeverBoth, OneMeaning};
ghost use Rattle.sql_parser.specs.Script.{OneScript, SomeMeaning, SomeScript, Sql, byte_at};

use crate::fault::{ParseFault, ScriptFault, ScriptRefusal, of_lexer, of_parser};
use crate::statements::ended_statement;
use sql_ast::Statement;
use sql_grammar_laws::{SyntaxError, SyntaxFault};
use sql_lexer::{LexFault, Token, lex};
use sql_parser_steps::{MAX_DEPTH, Parser};
use sqlite_items::Items;
use std::alloc::Global;

/// How many bytes a script may have.
pub const MAX_SCRIPT: usize = 1048576;

/// `{statement ";"}`, to the end of the tokens.
fn script(alloc: Global, parser: &mut Parser<'_>) -> Result<Items<Statement>, SyntaxError>
    ensures { Reads (scripts.statements (ended_at 1023 64) (length parser.old) parser.old) result
        parser.new }
{
    let mut found = Items::new(alloc);
    'more: while !parser.is_done() {
        found.push(ended_statement(alloc, parser, MAX_DEPTH)?)?;
    }
    Ok(found)
}

/// The statements of a script, given as its tokens.
pub fn parse_script(alloc: Global, tokens: &[Token]) -> Result<Items<Statement>, ParseFault>
    // The tokens are a script with these statements and no others, and no refusal stands at any of
    // them.
    ensures read { IfOk result (λ ss. IsRead Sql tokens.now ss) }
    // A refusal is the first one that stands.
    ensures refused { (r : SyntaxFault) (n : ℕ) → result ≡ Err (ParseFault.Refused r n)
        → IsFirst Sql r tokens.now n }
{
    let mut parser = Parser::new(tokens);
    match script(alloc, &mut parser) {
        Ok(statements) => Ok(statements),
        Err(SyntaxError::OutOfMemory) => Err(ParseFault::OutOfMemory),
        Err(SyntaxError::Refused(refusal)) => {
            Err(ParseFault::Refused(refusal, tokens.len() - parser.rest().len()))
        }
    }
}

/// The byte of the token of this number, or the script's length after the last one.
fn byte_of(tokens: &[Token], n: usize, end: usize) -> usize
    ensures { result ≡ byte_at end tokens.now n }
{
    match tokens.get(n) {
        None => end,
        Some(token) => token.start,
    }
}

/// The statements of a script, given as its bytes.
pub fn read_script(alloc: Global, script: &[u8]) -> Result<Items<Statement>, ScriptFault>
    // The bytes are a script with these statements and no others, and no refusal stands in it.
    ensures read { IfOk result (λ ss. IsReadScript script.now ss) }
    // A refusal is the first one that stands, at its byte.
    ensures refused { (r : ScriptRefusal) (place : ℕ) → result ≡ Err (ScriptFault.Refused r place)
        → IsRefusedScript r script.now place }
{
    if script.len() > MAX_SCRIPT {
        return Err(ScriptFault::Refused(ScriptRefusal::TooLong, MAX_SCRIPT));
    }
    let tokens = match lex(alloc, script) {
        Ok(tokens) => tokens,
        Err(LexFault::OutOfMemory) => return Err(ScriptFault::OutOfMemory),
        Err(LexFault::Refused(refusal, place)) => {
            return Err(ScriptFault::Refused(of_lexer(refusal), place));
        }
    };
    match parse_script(alloc, &tokens) {
        Ok(statements) => Ok(statements),
        Err(ParseFault::OutOfMemory) => Err(ScriptFault::OutOfMemory),
        Err(ParseFault::Refused(refusal, n)) => {
            let place = byte_of(&tokens, n, script.len());
            Err(ScriptFault::Refused(of_parser(refusal), place))
        }
    }
}

/// Tokens have one statement list or a first refusal, and so have bytes; no bytes are both read and
/// refused.
pub fn one_meaning()
    ensures tokens { OneMeaning }
    ensures some_tokens { SomeMeaning }
    ensures bytes { OneScript }
    ensures some_bytes { SomeScript }
    ensures never { NeverBoth }
{}
