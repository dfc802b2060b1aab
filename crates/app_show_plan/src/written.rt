//! The texts of a script's statements, a run's replaced by those that it stands for.
use sql_ast::Statement;
use sql_lexer::{Kind, LexFault, Token, lex};
use sql_parser::{ScriptFault, read_script};
use sql_templates::{TemplateFault, fill};
use std::alloc::{AllocError, Global};

/// Where a statement stands in a script.
#[derive(Clone, Copy)]
struct Span {
    start: usize,
    end: usize,
    is_run: bool,
}

/// The bytes from a place up to another one; none where they aren't there.
fn bytes_between(bytes: &[u8], start: usize, end: usize) -> &[u8] {
    if start <= end && end <= bytes.len() {
        &bytes[start..end]
    } else {
        &[]
    }
}

/// The tokens of a script; none where it has none.
fn tokens_of(alloc: Global, script: &[u8]) -> Result<Vec<Token>, AllocError> {
    match lex(alloc, script) {
        Ok(tokens) => Ok(tokens),
        Err(LexFault::Refused(_, _)) => Ok(Vec::new(alloc)),
        Err(LexFault::OutOfMemory) => Err(AllocError),
    }
}

/// Appends where the statements of these tokens stand, each from its first token to its semicolon.
fn put_spans(spans: &mut Vec<Span>, tokens: &[Token]) -> Result<(), AllocError> {
    let mut is_begun = false;
    let mut start = 0;
    let mut is_run = false;
    for token in tokens {
        if !is_begun {
            start = token.start;
            is_run = token.kind == Kind::Run;
        }
        let is_end = token.kind == Kind::Semicolon;
        if is_end {
            let end = token.start.saturating_add(token.len);
            spans.push(Span { start, end, is_run })?;
        }
        is_begun = !is_end;
    }
    Ok(())
}

/// Where the statements of a script stand.
fn spans_of(alloc: Global, script: &[u8]) -> Result<Vec<Span>, AllocError> {
    let tokens = tokens_of(alloc, script)?;
    let mut spans = Vec::new(alloc);
    put_spans(&mut spans, tokens.as_slice())?;
    Ok(spans)
}

/// The text that statements stand for, where they are one run, and its template is filled.
fn run_text(alloc: Global, statements: &[Statement]) -> Result<Option<Vec<u8>>, AllocError> {
    let [Statement::Run(number, values)] = statements else {
        return Ok(None);
    };
    match fill(alloc, *number as u64, values.as_slice()) {
        Ok(text) => Ok(Some(text)),
        Err(TemplateFault::Refused(_)) => Ok(None),
        Err(TemplateFault::OutOfMemory) => Err(AllocError),
    }
}

/// The text that a run stands for, where its template is filled.
fn filled_text(alloc: Global, run: &[u8]) -> Result<Option<Vec<u8>>, AllocError> {
    match read_script(alloc, run) {
        Ok(statements) => run_text(alloc, statements.as_slice()),
        Err(ScriptFault::Refused(_, _)) => Ok(None),
        Err(ScriptFault::OutOfMemory) => Err(AllocError),
    }
}

/// Appends a text.
fn put_text(alloc: Global, all: &mut Vec<Vec<u8>>, text: &[u8]) -> Result<(), AllocError> {
    let text = Vec::from_slice(alloc, text)?;
    all.push(text)?;
    Ok(())
}

/// Appends the statements of a run's text.
fn put_filled(alloc: Global, all: &mut Vec<Vec<u8>>, text: &[u8]) -> Result<(), AllocError> {
    let spans = spans_of(alloc, text)?;
    for span in spans.as_slice() {
        put_text(alloc, all, bytes_between(text, span.start, span.end))?;
    }
    Ok(())
}

/// Appends the statements that a run stands for, or the run itself where it stands for none.
fn put_run(alloc: Global, all: &mut Vec<Vec<u8>>, run: &[u8]) -> Result<(), AllocError> {
    match filled_text(alloc, run)? {
        Some(filled) => put_filled(alloc, all, filled.as_slice()),
        None => put_text(alloc, all, run),
    }
}

/// Appends the statements of a script that stand at these spans, or those that they stand for.
fn put_statements(
    alloc: Global,
    all: &mut Vec<Vec<u8>>,
    script: &[u8],
    spans: &[Span],
) -> Result<(), AllocError> {
    for span in spans {
        let text = bytes_between(script, span.start, span.end);
        if span.is_run {
            put_run(alloc, all, text)?;
        } else {
            put_text(alloc, all, text)?;
        }
    }
    Ok(())
}

/// The texts of the statements that a script's stand for, each with its semicolon.
pub fn written_statements(alloc: Global, script: &[u8]) -> Result<Vec<Vec<u8>>, AllocError> {
    let spans = spans_of(alloc, script)?;
    let mut all = Vec::new(alloc);
    put_statements(alloc, &mut all, script, spans.as_slice())?;
    Ok(all)
}
