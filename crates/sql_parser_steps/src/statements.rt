//! The rules of statements that hold no query.
ghost use Rattle.std.specs.Prelude.{◌∷◌};
ghost use Rattle.sql_grammar_laws.specs.Readings.{Reads, links, mapped, one};
ghost use Rattle.sql_parser_steps.specs.Readings as readings;
ghost use Rattle.sql_parser_steps.specs.Values as values;
ghost use Rattle.sql_lexer.specs.Kinds.{is};
ghost use Rattle.sql_lexer.specs.declared.kind.Kind.TheVariants as k;

use crate::clauses::column_names;
use crate::parser::{MAX_MORE, Parser};
use sql_ast::{Name, RefreshKind, Statement, TemplateValue};
use sql_grammar_laws::SyntaxError;
use sql_lexer::Kind;
use sqlite_items::Items;
use std::alloc::Global;

/// `create view name ["(" name {"," name} ")"]`.
#[tactic(auto, unfolding(crate::specs::Readings::read_view_name))]
pub fn view_name(
    alloc: Global,
    parser: &mut Parser<'_>,
    room: usize,
) -> Result<(Name, Items<Name>), SyntaxError>
    ensures { Reads (readings.read_view_name 1023 room parser.old) result parser.new }
{
    parser.one(Kind::Create)?;
    parser.one(Kind::View)?;
    let name = parser.name(alloc)?;
    let columns = column_names(alloc, parser, room)?;
    Ok((name, columns))
}

impl<'a> Parser<'a> {
    /// `drop view name`.
    #[tactic(auto, unfolding(crate::specs::Readings::read_drop))]
    pub fn drop_view(&mut self, alloc: Global) -> Result<Statement, SyntaxError>
        ensures { Reads (readings.read_drop self.old) result self.new }
    {
        self.one(Kind::Drop)?;
        self.one(Kind::View)?;
        let name = self.name(alloc)?;
        Ok(Statement::DropView(name))
    }

    /// `insert|delete`.
    #[tactic(auto, unfolding(crate::specs::Readings::read_refresh_word))]
    fn refresh_word(&mut self) -> Result<RefreshKind, SyntaxError>
        ensures { Reads (readings.read_refresh_word self.old) result self.new }
    {
        if self.starts(Kind::Insert) {
            return self.word(Kind::Insert, RefreshKind::Insert);
        }
        self.word(Kind::Delete, RefreshKind::Delete)
    }

    /// `refresh (insert|delete) N`.
    #[tactic(auto, unfolding(crate::specs::Readings::read_refresh))]
    pub fn refresh(&mut self) -> Result<Statement, SyntaxError>
        ensures { Reads (readings.read_refresh self.old) result self.new }
    {
        self.one(Kind::Refresh)?;
        let kind = self.refresh_word()?;
        let set = self.number()?;
        Ok(Statement::Refresh(kind, set))
    }
}

/// The values, of which the first is read.
fn more_values(
    alloc: Global,
    parser: &mut Parser<'_>,
    first: TemplateValue,
) -> Result<Items<TemplateValue>, SyntaxError>
    ensures { Reads (mapped (λ xs. first ∷ xs) (links (is k.Comma) (one (is k.Comma)) values.second
        readings.read_value 1023) parser.old) result parser.new }
{
    let mut found = Items::new(alloc);
    found.push(first)?;
    let mut width = MAX_MORE;
    'more: while parser.starts(Kind::Comma) {
        parser.one(Kind::Comma)?;
        let here = parser.rest();
        let element = parser.value(alloc);
        if width == 0 {
            return Err(parser.one_too_many(here, element));
        }
        found.push(element?)?;
        width -= 1;
    }
    Ok(found)
}

/// `value {"," value}`.
#[tactic(auto, unfolding(crate::specs::Readings::read_values))]
fn values(alloc: Global, parser: &mut Parser<'_>) -> Result<Items<TemplateValue>, SyntaxError>
    ensures { Reads (readings.read_values 1023 parser.old) result parser.new }
{
    let first = parser.value(alloc)?;
    more_values(alloc, parser, first)
}

/// `[value {"," value}] ")"`.
#[tactic(auto, unfolding(crate::specs::Readings::read_run_inside))]
fn run_inside(alloc: Global, parser: &mut Parser<'_>) -> Result<Items<TemplateValue>, SyntaxError>
    ensures { Reads (readings.read_run_inside 1023 parser.old) result parser.new }
{
    if parser.starts(Kind::CloseParen) {
        parser.one(Kind::CloseParen)?;
        return Ok(Items::new(alloc));
    }
    let values = values(alloc, parser)?;
    parser.one(Kind::CloseParen)?;
    Ok(values)
}

/// `run N "(" [value {"," value}] ")"`.
#[tactic(auto, unfolding(crate::specs::Readings::read_run))]
pub fn run(alloc: Global, parser: &mut Parser<'_>, room: usize) -> Result<Statement, SyntaxError>
    ensures { Reads (readings.read_run 1023 room parser.old) result parser.new }
{
    parser.one(Kind::Run)?;
    let number = parser.number()?;
    parser.opens(room, Kind::OpenParen)?;
    let values = run_inside(alloc, parser)?;
    Ok(Statement::Run(number, values))
}
