//! Aliases, and the lists and clauses that hold names and numbers alone.
ghost use Rattle.std.specs.Prelude.{◌∷◌};
ghost use Rattle.sql_grammar_laws.specs.Readings.{Reads, links, mapped, one};
ghost use Rattle.sql_lexer.specs.Kinds.{is};
ghost use Rattle.sql_lexer.specs.declared.kind.Kind.TheVariants as k;
ghost use Rattle.sql_parser_steps.specs.ExpressionReadings as expressions;
ghost use Rattle.sql_parser_steps.specs.Readings as readings;
ghost use Rattle.sql_parser_steps.specs.Values as values;

use crate::parser::{MAX_MORE, Parser};
use sql_ast::{Column, JoinKind, Name, NamedKey};
use sql_grammar_laws::SyntaxError;
use sql_lexer::Kind;
use sqlite_items::Items;
use std::alloc::Global;

impl<'a> Parser<'a> {
    /// `[[as] name]`.
    #[tactic(auto, unfolding(crate::specs::Readings::read_alias))]
    pub fn alias(&mut self, alloc: Global) -> Result<Option<Name>, SyntaxError>
        ensures { Reads (readings.read_alias self.old) result self.new }
    {
        if self.starts(Kind::As) {
            self.one(Kind::As)?;
            let name = self.name(alloc)?;
            return Ok(Some(name));
        }
        if self.starts(Kind::Name) {
            let name = self.name(alloc)?;
            return Ok(Some(name));
        }
        Ok(None)
    }

    /// `[as] name`.
    #[tactic(auto, unfolding(crate::specs::Readings::read_derived_alias))]
    pub fn derived_alias(&mut self, alloc: Global) -> Result<Name, SyntaxError>
        ensures { Reads (readings.read_derived_alias self.old) result self.new }
    {
        if self.starts(Kind::As) {
            self.one(Kind::As)?;
        }
        self.name(alloc)
    }

    /// `[inner] join`.
    #[tactic(auto, unfolding(crate::specs::Readings::read_inner_words))]
    fn inner_words(&mut self) -> Result<JoinKind, SyntaxError>
        ensures { Reads (readings.read_inner_words self.old) result self.new }
    {
        if self.starts(Kind::Join) {
            return self.word(Kind::Join, JoinKind::Inner);
        }
        self.one(Kind::Inner)?;
        self.one(Kind::Join)?;
        Ok(JoinKind::Inner)
    }

    /// `left [outer] join`.
    #[tactic(auto, unfolding(crate::specs::Readings::read_left_words))]
    fn left_words(&mut self) -> Result<JoinKind, SyntaxError>
        ensures { Reads (readings.read_left_words self.old) result self.new }
    {
        self.one(Kind::Left)?;
        if self.starts(Kind::Outer) {
            self.one(Kind::Outer)?;
        }
        self.one(Kind::Join)?;
        Ok(JoinKind::LeftOuter)
    }

    /// `[inner] join | left [outer] join`.
    #[tactic(auto, unfolding(crate::specs::Readings::read_join_words))]
    pub fn join_words(&mut self) -> Result<JoinKind, SyntaxError>
        ensures { Reads (readings.read_join_words self.old) result self.new }
    {
        if self.starts(Kind::Left) {
            return self.left_words();
        }
        self.inner_words()
    }

    /// `[asc|desc]`; whether it descends.
    #[tactic(auto, unfolding(crate::specs::Readings::read_direction))]
    fn direction(&mut self) -> Result<bool, SyntaxError>
        ensures { Reads (readings.read_direction self.old) result self.new }
    {
        if self.starts(Kind::Asc) {
            return self.word(Kind::Asc, false);
        }
        if self.starts(Kind::Desc) {
            return self.word(Kind::Desc, true);
        }
        Ok(false)
    }

    /// `name [asc|desc]`.
    #[tactic(auto, unfolding(crate::specs::Readings::read_named_key))]
    fn named_key(&mut self, alloc: Global) -> Result<NamedKey, SyntaxError>
        ensures { Reads (readings.read_named_key self.old) result self.new }
    {
        let column = self.name(alloc)?;
        let is_descending = self.direction()?;
        Ok(NamedKey {
            column,
            is_descending,
        })
    }

    /// `[limit N | fetch first N rows only]`.
    #[tactic(auto, unfolding(crate::specs::Readings::read_limit, crate::specs::Readings::read_rows_only))]
    pub fn limit(&mut self) -> Result<Option<u32>, SyntaxError>
        ensures { Reads (readings.read_limit self.old) result self.new }
    {
        if self.starts(Kind::Limit) {
            self.one(Kind::Limit)?;
            let rows = self.number()?;
            return Ok(Some(rows));
        }
        if self.starts(Kind::Fetch) {
            self.one(Kind::Fetch)?;
            self.one(Kind::First)?;
            let rows = self.number()?;
            self.one(Kind::Rows)?;
            self.one(Kind::Only)?;
            return Ok(Some(rows));
        }
        Ok(None)
    }

    /// `[at version N]`.
    #[tactic(auto, unfolding(crate::specs::Readings::read_version))]
    pub fn version(&mut self) -> Result<Option<u32>, SyntaxError>
        ensures { Reads (readings.read_version self.old) result self.new }
    {
        if self.starts(Kind::At) {
            self.one(Kind::At)?;
            self.one(Kind::Version)?;
            let version = self.number()?;
            return Ok(Some(version));
        }
        Ok(None)
    }
}

/// The columns, of which the first is read.
fn more_columns(
    alloc: Global,
    parser: &mut Parser<'_>,
    first: Column,
) -> Result<Items<Column>, SyntaxError>
    ensures { Reads (mapped (λ xs. first ∷ xs) (links (is k.Comma) (one (is k.Comma)) values.second
        expressions.read_column 1023) parser.old) result parser.new }
{
    let mut found = Items::new(alloc);
    found.push(first)?;
    let mut width = MAX_MORE;
    'more: while parser.starts(Kind::Comma) {
        parser.one(Kind::Comma)?;
        let here = parser.rest();
        let element = parser.column(alloc);
        if width == 0 {
            return Err(parser.one_too_many(here, element));
        }
        found.push(element?)?;
        width -= 1;
    }
    Ok(found)
}

/// `[group by column {"," column}]`.
#[tactic(auto, unfolding(crate::specs::Readings::read_group))]
pub fn group(alloc: Global, parser: &mut Parser<'_>) -> Result<Items<Column>, SyntaxError>
    ensures { Reads (readings.read_group 1023 parser.old) result parser.new }
{
    if parser.starts(Kind::Group) {
        parser.one(Kind::Group)?;
        parser.one(Kind::By)?;
        let first = parser.column(alloc)?;
        return more_columns(alloc, parser, first);
    }
    Ok(Items::new(alloc))
}

/// The keys, of which the first is read.
fn more_named_keys(
    alloc: Global,
    parser: &mut Parser<'_>,
    first: NamedKey,
) -> Result<Items<NamedKey>, SyntaxError>
    ensures { Reads (mapped (λ xs. first ∷ xs) (links (is k.Comma) (one (is k.Comma)) values.second
        readings.read_named_key 1023) parser.old) result parser.new }
{
    let mut found = Items::new(alloc);
    found.push(first)?;
    let mut width = MAX_MORE;
    'more: while parser.starts(Kind::Comma) {
        parser.one(Kind::Comma)?;
        let here = parser.rest();
        let element = parser.named_key(alloc);
        if width == 0 {
            return Err(parser.one_too_many(here, element));
        }
        found.push(element?)?;
        width -= 1;
    }
    Ok(found)
}

/// `[order by key {"," key}]`.
#[tactic(auto, unfolding(crate::specs::Readings::read_order))]
pub fn order(alloc: Global, parser: &mut Parser<'_>) -> Result<Items<NamedKey>, SyntaxError>
    ensures { Reads (readings.read_order 1023 parser.old) result parser.new }
{
    if parser.starts(Kind::Order) {
        parser.one(Kind::Order)?;
        parser.one(Kind::By)?;
        let first = parser.named_key(alloc)?;
        return more_named_keys(alloc, parser, first);
    }
    Ok(Items::new(alloc))
}

/// The names, of which the first is read.
fn more_names(
    alloc: Global,
    parser: &mut Parser<'_>,
    first: Name,
) -> Result<Items<Name>, SyntaxError>
    ensures { Reads (mapped (λ xs. first ∷ xs) (links (is k.Comma) (one (is k.Comma)) values.second
        expressions.read_name 1023) parser.old) result parser.new }
{
    let mut found = Items::new(alloc);
    found.push(first)?;
    let mut width = MAX_MORE;
    'more: while parser.starts(Kind::Comma) {
        parser.one(Kind::Comma)?;
        let here = parser.rest();
        let element = parser.name(alloc);
        if width == 0 {
            return Err(parser.one_too_many(here, element));
        }
        found.push(element?)?;
        width -= 1;
    }
    Ok(found)
}

/// `name {"," name}`.
#[tactic(auto, unfolding(crate::specs::Readings::read_names))]
fn names(alloc: Global, parser: &mut Parser<'_>) -> Result<Items<Name>, SyntaxError>
    ensures { Reads (readings.read_names 1023 parser.old) result parser.new }
{
    let first = parser.name(alloc)?;
    more_names(alloc, parser, first)
}

/// `["(" name {"," name} ")"]`; no names where no parenthesis stands.
#[tactic(auto, unfolding(crate::specs::Readings::read_column_names))]
pub fn column_names(
    alloc: Global,
    parser: &mut Parser<'_>,
    room: usize,
) -> Result<Items<Name>, SyntaxError>
    ensures { Reads (readings.read_column_names 1023 room parser.old) result parser.new }
{
    if parser.starts(Kind::OpenParen) {
        parser.opens(room, Kind::OpenParen)?;
        let names = names(alloc, parser)?;
        parser.one(Kind::CloseParen)?;
        return Ok(names);
    }
    Ok(Items::new(alloc))
}
