//! Names, numbers and words: the parts of a line that hold no expression.
ghost use Rattle.std.specs.Prelude.{◌≡◌, true, IfOk};
ghost use Rattle.sql_grammar_laws.specs.Readings.{Reads, mapped, one};
ghost use Rattle.sql_lexer.specs.Kinds.{is};
ghost use Rattle.sql_parser_steps.specs.Values as values;
ghost use Rattle.sql_parser_steps.specs.ExpressionReadings as expressions;
ghost use Rattle.sql_parser_steps.specs.Readings as readings;

use crate::parser::Parser;
use crate::test::Test;
use base_decimal::Scale;
use base_text::Text;
use sql_ast::{
    Adding, Aggregate, Column, Comparison, Expr, Multiplying, Name, Quantifier, Span, TemplateValue,
};
use sql_grammar_laws::{SyntaxError, SyntaxFault};
use sql_lexer::{Content, Kind, Token};
use std::alloc::{AllocError, Global};

/// The most that a number in the place of a count may be.
const MAX_COUNT: i128 = 999_999_999;

/// The token's name or text.
fn text_of(alloc: Global, token: &Token) -> Result<Text, AllocError>
    ensures { IfOk result (λ text. text ≡ values.text_of token.now) }
{
    match &token.content {
        Content::Text(text) => text.clone(),
        Content::Nothing => Text::of_printable(alloc, b""),
        Content::Number(_, _) => Text::of_printable(alloc, b""),
    }
}

/// Whether a number may stand in the place of a count.
fn is_small(value: i128) -> bool
    ensures { result ≡ values.is_small value }
{
    0 <= value && value <= MAX_COUNT
}

/// Whether the token is a number without a point, from 0 to 999999999.
fn is_count(token: &Token) -> bool
    ensures { result ≡ values.is_count token.now }
{
    if !token.is(Kind::Number) {
        return false;
    }
    match &token.content {
        Content::Number(value, places) => places.places() == 0 && is_small(*value),
        Content::Nothing => false,
        Content::Text(_) => false,
    }
}

/// The number that such a token writes.
fn count_of(token: &Token) -> u32
    requires { values.is_count token.now ≡ true }
    ensures { result ≡ values.count_of token.now }
{
    match &token.content {
        Content::Number(value, _) => *value as u32,
        Content::Nothing => 0,
        Content::Text(_) => 0,
    }
}

/// Whether there are digits only.
fn are_digits(bytes: &[u8]) -> bool
    ensures { result ≡ values.all_digits bytes.now }
{
    bytes.iter().all(|b| b.is_ascii_digit())
}

/// Whether the token is a text of one to six digits.
fn is_digits(token: &Token) -> bool
    ensures { result ≡ values.is_digits token.now }
{
    if !token.is(Kind::Text) {
        return false;
    }
    match &token.content {
        Content::Text(text) => {
            let bytes = text.bytes();
            1 <= bytes.len() && bytes.len() <= 6 && are_digits(bytes)
        }
        Content::Nothing => false,
        Content::Number(_, _) => false,
    }
}

/// The token as a number.
fn number_of(token: &Token) -> Expr
    ensures { result ≡ values.number token.now }
{
    match &token.content {
        Content::Number(value, places) => Expr::Number(*value, *places),
        Content::Nothing => Expr::Number(0, Scale::new(0)),
        Content::Text(_) => Expr::Number(0, Scale::new(0)),
    }
}

/// The token as a template's value.
fn number_value_of(token: &Token) -> TemplateValue
    ensures { result ≡ values.number_value token.now }
{
    match &token.content {
        Content::Number(value, places) => TemplateValue::Number(*value, *places),
        Content::Nothing => TemplateValue::Number(0, Scale::new(0)),
        Content::Text(_) => TemplateValue::Number(0, Scale::new(0)),
    }
}

/// A name alone is the column's, one before a point is its FROM item's.
fn column_of(first: Name, tail: Option<Name>) -> Column
    ensures { result ≡ values.column first tail }
{
    match tail {
        None => Column {
            item: None,
            name: first,
        },
        Some(name) => Column {
            item: Some(first),
            name,
        },
    }
}

impl<'a> Parser<'a> {
    /// A name.
    #[tactic(auto, unfolding(crate::specs::ExpressionReadings::read_name))]
    pub fn name(&mut self, alloc: Global) -> Result<Name, SyntaxError>
        ensures { Reads (expressions.read_name self.old) result self.new }
    {
        let token = self.one(Kind::Name)?;
        Ok(text_of(alloc, token)?)
    }

    /// A text.
    #[tactic(auto, unfolding(crate::specs::ExpressionReadings::read_literal))]
    pub(crate) fn literal(&mut self, alloc: Global) -> Result<Name, SyntaxError>
        ensures { Reads (expressions.read_literal self.old) result self.new }
    {
        let token = self.one(Kind::Text)?;
        Ok(text_of(alloc, token)?)
    }

    /// A number without a point of at most 999999999.
    #[tactic(auto, unfolding(crate::specs::ExpressionReadings::read_number))]
    pub(crate) fn number(&mut self) -> Result<u32, SyntaxError>
        ensures { Reads (expressions.read_number self.old) result self.new }
    {
        match self.rest {
            [token, rest @ ..] if is_count(token) => {
                self.rest = rest;
                Ok(count_of(token))
            }
            _ => Err(SyntaxError::Refused(SyntaxFault::Unexpected)),
        }
    }

    /// A text of one to six digits.
    #[tactic(auto, unfolding(crate::specs::ExpressionReadings::read_digits))]
    fn digits(&mut self, alloc: Global) -> Result<Name, SyntaxError>
        ensures { Reads (expressions.read_digits self.old) result self.new }
    {
        match self.rest {
            [token, rest @ ..] if is_digits(token) => {
                self.rest = rest;
                Ok(text_of(alloc, token)?)
            }
            _ => Err(SyntaxError::Refused(SyntaxFault::Unexpected)),
        }
    }

    /// One token of this kind, which means this value.
    pub(crate) fn word<T: Copy>(&mut self, kind: Kind, value: T) -> Result<T, SyntaxError>
        ensures { Reads (mapped (values.constant value) (one (is kind)) self.old) result self.new }
    {
        self.one(kind)?;
        Ok(value)
    }

    /// `year`, `month` or `day`.
    #[tactic(auto, unfolding(crate::specs::ExpressionReadings::read_span))]
    pub fn span(&mut self) -> Result<Span, SyntaxError>
        ensures { Reads (expressions.read_span self.old) result self.new }
    {
        if self.starts(Kind::Year) {
            return self.word(Kind::Year, Span::Year);
        }
        if self.starts(Kind::Month) {
            return self.word(Kind::Month, Span::Month);
        }
        self.word(Kind::Day, Span::Day)
    }

    /// `*` or `/`.
    #[tactic(auto, unfolding(crate::specs::ExpressionReadings::read_multiply))]
    pub fn multiply(&mut self) -> Result<Multiplying, SyntaxError>
        ensures { Reads (expressions.read_multiply self.old) result self.new }
    {
        if self.starts(Kind::Star) {
            return self.word(Kind::Star, Multiplying::Times);
        }
        self.word(Kind::Slash, Multiplying::Divide)
    }

    /// `+` or `-`.
    #[tactic(auto, unfolding(crate::specs::ExpressionReadings::read_add))]
    pub fn add(&mut self) -> Result<Adding, SyntaxError>
        ensures { Reads (expressions.read_add self.old) result self.new }
    {
        if self.starts(Kind::Plus) {
            return self.word(Kind::Plus, Adding::Plus);
        }
        self.word(Kind::Minus, Adding::Minus)
    }

    /// `=`, `<>`, `<`, `<=`, `>` or `>=`.
    #[tactic(auto, unfolding(crate::specs::ExpressionReadings::read_comparison))]
    pub fn comparison(&mut self) -> Result<Comparison, SyntaxError>
        ensures { Reads (expressions.read_comparison self.old) result self.new }
    {
        if self.starts(Kind::Equal) {
            return self.word(Kind::Equal, Comparison::Equal);
        }
        if self.starts(Kind::NotEqual) {
            return self.word(Kind::NotEqual, Comparison::NotEqual);
        }
        if self.starts(Kind::Less) {
            return self.word(Kind::Less, Comparison::Less);
        }
        if self.starts(Kind::LessOrEqual) {
            return self.word(Kind::LessOrEqual, Comparison::LessOrEqual);
        }
        if self.starts(Kind::Greater) {
            return self.word(Kind::Greater, Comparison::Greater);
        }
        self.word(Kind::GreaterOrEqual, Comparison::GreaterOrEqual)
    }

    /// `any`, `some` or `all`.
    #[tactic(auto, unfolding(crate::specs::ExpressionReadings::read_quantifier))]
    pub(crate) fn quantifier(&mut self) -> Result<Quantifier, SyntaxError>
        ensures { Reads (expressions.read_quantifier self.old) result self.new }
    {
        if self.starts(Kind::Any) {
            return self.word(Kind::Any, Quantifier::Any);
        }
        if self.starts(Kind::Some) {
            return self.word(Kind::Some, Quantifier::Any);
        }
        self.word(Kind::All, Quantifier::All)
    }

    /// `sum`, `avg`, `min` or `max`.
    #[tactic(auto, unfolding(crate::specs::ExpressionReadings::read_aggregate_word))]
    pub fn aggregate_word(&mut self) -> Result<Aggregate, SyntaxError>
        ensures { Reads (expressions.read_aggregate_word self.old) result self.new }
    {
        if self.starts(Kind::Sum) {
            return self.word(Kind::Sum, Aggregate::Sum);
        }
        if self.starts(Kind::Avg) {
            return self.word(Kind::Avg, Aggregate::Avg);
        }
        if self.starts(Kind::Min) {
            return self.word(Kind::Min, Aggregate::Min);
        }
        self.word(Kind::Max, Aggregate::Max)
    }

    /// `["." name]`.
    #[tactic(auto, unfolding(crate::specs::ExpressionReadings::read_column_tail))]
    fn column_tail(&mut self, alloc: Global) -> Result<Option<Name>, SyntaxError>
        ensures { Reads (expressions.read_column_tail self.old) result self.new }
    {
        if self.starts(Kind::Point) {
            self.one(Kind::Point)?;
            let name = self.name(alloc)?;
            return Ok(Some(name));
        }
        Ok(None)
    }

    /// `name ["." name]`.
    #[tactic(auto, unfolding(crate::specs::ExpressionReadings::read_column))]
    pub(crate) fn column(&mut self, alloc: Global) -> Result<Column, SyntaxError>
        ensures { Reads (expressions.read_column self.old) result self.new }
    {
        let first = self.name(alloc)?;
        let tail = self.column_tail(alloc)?;
        Ok(column_of(first, tail))
    }

    /// `T | "(" T ")"`.
    #[tactic(auto, unfolding(crate::specs::ExpressionReadings::read_date_text))]
    fn date_text(&mut self, alloc: Global, room: usize) -> Result<Name, SyntaxError>
        ensures { Reads (expressions.read_date_text room self.old) result self.new }
    {
        if self.starts(Kind::OpenParen) {
            self.opens(room, Kind::OpenParen)?;
            let text = self.literal(alloc)?;
            self.one(Kind::CloseParen)?;
            return Ok(text);
        }
        self.literal(alloc)
    }

    /// `date T | date "(" T ")"`.
    #[tactic(auto, unfolding(crate::specs::ExpressionReadings::read_date))]
    fn date(&mut self, alloc: Global, room: usize) -> Result<Expr, SyntaxError>
        ensures { Reads (expressions.read_date room self.old) result self.new }
    {
        self.one(Kind::Date)?;
        let text = self.date_text(alloc, room)?;
        Ok(Expr::Date(text))
    }

    /// `["(" N ")"]`, which means nothing.
    #[tactic(auto, unfolding(crate::specs::ExpressionReadings::read_precision))]
    fn precision(&mut self, room: usize) -> Result<(), SyntaxError>
        ensures { Reads (expressions.read_precision room self.old) result self.new }
    {
        if !self.starts(Kind::OpenParen) {
            return Ok(());
        }
        self.opens(room, Kind::OpenParen)?;
        self.number()?;
        self.one(Kind::CloseParen)?;
        Ok(())
    }

    /// `interval T (day|month|year) ["(" N ")"]`, the text of one to six digits.
    #[tactic(auto, unfolding(crate::specs::ExpressionReadings::read_interval))]
    fn interval(&mut self, alloc: Global, room: usize) -> Result<Expr, SyntaxError>
        ensures { Reads (expressions.read_interval room self.old) result self.new }
    {
        self.one(Kind::Interval)?;
        let digits = self.digits(alloc)?;
        let unit = self.span()?;
        self.precision(room)?;
        Ok(Expr::Interval(digits, unit))
    }

    /// `from N for N`.
    #[tactic(auto, unfolding(crate::specs::ExpressionReadings::read_places))]
    pub fn places(&mut self) -> Result<(u32, u32), SyntaxError>
        ensures { Reads (expressions.read_places self.old) result self.new }
    {
        self.one(Kind::From)?;
        let first = self.number()?;
        self.one(Kind::For)?;
        let count = self.number()?;
        Ok((first, count))
    }

    /// `is [not] null`.
    #[tactic(auto, unfolding(crate::specs::ExpressionReadings::read_null))]
    pub fn null(&mut self) -> Result<Test, SyntaxError>
        ensures { Reads (expressions.read_null self.old) result self.new }
    {
        self.one(Kind::Is)?;
        if self.starts(Kind::Not) {
            self.one(Kind::Not)?;
            self.one(Kind::Null)?;
            return Ok(Test::IsNull(true));
        }
        self.one(Kind::Null)?;
        Ok(Test::IsNull(false))
    }

    /// `like T`.
    #[tactic(auto, unfolding(crate::specs::ExpressionReadings::read_like))]
    pub fn like(&mut self, alloc: Global) -> Result<Test, SyntaxError>
        ensures { Reads (expressions.read_like self.old) result self.new }
    {
        self.one(Kind::Like)?;
        let pattern = self.literal(alloc)?;
        Ok(Test::Like(false, pattern))
    }

    /// A text or a number.
    #[tactic(auto, unfolding(crate::specs::Readings::read_value))]
    pub(crate) fn value(&mut self, alloc: Global) -> Result<TemplateValue, SyntaxError>
        ensures { Reads (readings.read_value self.old) result self.new }
    {
        if self.starts(Kind::Text) {
            let token = self.one(Kind::Text)?;
            let text = text_of(alloc, token)?;
            return Ok(TemplateValue::Text(text));
        }
        let token = self.one(Kind::Number)?;
        Ok(number_value_of(token))
    }

    /// What holds no expression.
    #[tactic(auto, unfolding(crate::specs::ExpressionReadings::read_leaf))]
    pub fn leaf(&mut self, alloc: Global, room: usize) -> Result<Expr, SyntaxError>
        ensures { Reads (expressions.read_leaf room self.old) result self.new }
    {
        if self.starts(Kind::Number) {
            let token = self.one(Kind::Number)?;
            return Ok(number_of(token));
        }
        if self.starts(Kind::Text) {
            let token = self.one(Kind::Text)?;
            let text = text_of(alloc, token)?;
            return Ok(Expr::Text(text));
        }
        if self.starts(Kind::Date) {
            return self.date(alloc, room);
        }
        if self.starts(Kind::Interval) {
            return self.interval(alloc, room);
        }
        let column = self.column(alloc)?;
        Ok(Expr::Column(column))
    }
}
