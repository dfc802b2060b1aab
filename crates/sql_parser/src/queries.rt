//! The select list, and the clauses after FROM.
ghost use Rattle.std.specs.Prelude.{◌≡◌, ◌∷◌};
ghost use Rattle.sql_grammar_laws.specs.Readings.{Reads, both, links, mapped, one};
ghost use Rattle.sql_lexer.specs.Kinds.{is};
ghost use Rattle.sql_lexer.specs.declared.kind.Kind.TheVariants as k;
ghost use Rattle.sql_parser_steps.specs.Nests.{At};
ghost use Rattle.sql_parser_steps.specs.Readings as readings;
ghost use Rattle.sql_parser_steps.specs.Readings.{part_at};
ghost use Rattle.sql_parser_steps.specs.Values as values;

use crate::level::Level;
use sql_ast::{Clause, Column, Expr, Item, Name, Selected};
use sql_grammar_laws::SyntaxError;
use sql_lexer::Kind;
use sql_parser_steps::clauses::group;
use sql_parser_steps::{Filters, MAX_MORE, Parser};
use sqlite_items::{Boxed, Items};
use std::alloc::Global;

/// An item of a select list.
fn item_of(value: Boxed<Expr>, alias: Option<Name>) -> Item
    ensures { result ≡ values.item value alias }
{
    Item {
        value: value.into_inner(),
        alias,
    }
}

impl<P: Fn(Global, &mut Parser<'_>, usize) -> Result<Boxed<Expr>, SyntaxError>> Level<P> {
    /// `e [[as] name]`.
    #[tactic(auto, unfolding(sql_parser_steps::specs::Readings::read_item))]
    fn item(&self, parser: &mut Parser<'_>) -> Result<Item, SyntaxError>
        requires { At (part_at 1023) self.now.room (P.pre self.now.part) (P.post self.now.part) }
        ensures { Reads (readings.read_item 1023 (part_at 1023 self.now.room) parser.old) result
            parser.new }
    {
        let value = self.whole(parser)?;
        let alias = parser.alias(self.alloc)?;
        Ok(item_of(value, alias))
    }

    /// The items, of which the first is read.
    fn more_items(&self, parser: &mut Parser<'_>, first: Item) -> Result<Items<Item>, SyntaxError>
        requires { At (part_at 1023) self.now.room (P.pre self.now.part) (P.post self.now.part) }
        ensures { Reads (mapped (λ xs. first ∷ xs)
            (links (is k.Comma) (one (is k.Comma)) values.second
            (readings.read_item 1023 (part_at 1023 self.now.room)) 1023) parser.old) result
            parser.new }
    {
        let mut found = Items::new(self.alloc);
        found.push(first)?;
        let mut width = MAX_MORE;
        'more: while parser.starts(Kind::Comma) {
            parser.one(Kind::Comma)?;
            let here = parser.rest();
            let element = self.item(parser);
            if width == 0 {
                return Err(parser.one_too_many(here, element));
            }
            found.push(element?)?;
            width -= 1;
        }
        Ok(found)
    }

    /// `item {"," item}`.
    fn items(&self, parser: &mut Parser<'_>) -> Result<Items<Item>, SyntaxError>
        requires { At (part_at 1023) self.now.room (P.pre self.now.part) (P.post self.now.part) }
        ensures { Reads (both values.cons (readings.read_item 1023 (part_at 1023 self.now.room))
            (links (is k.Comma) (one (is k.Comma)) values.second
            (readings.read_item 1023 (part_at 1023 self.now.room)) 1023) parser.old) result
            parser.new }
    {
        let first = self.item(parser)?;
        self.more_items(parser, first)
    }

    /// `"*" | item {"," item}`.
    #[tactic(auto, unfolding(sql_parser_steps::specs::Readings::read_selection))]
    fn selection(&self, parser: &mut Parser<'_>) -> Result<Selected, SyntaxError>
        requires { At (part_at 1023) self.now.room (P.pre self.now.part) (P.post self.now.part) }
        ensures { Reads (readings.read_selection 1023 (part_at 1023 self.now.room) parser.old)
            result parser.new }
    {
        if parser.starts(Kind::Star) {
            parser.one(Kind::Star)?;
            return Ok(Selected::All);
        }
        let items = self.items(parser)?;
        Ok(Selected::Items(items))
    }

    /// `select [distinct] ..`; whether DISTINCT stands there, and what is selected.
    #[tactic(auto, unfolding(sql_parser_steps::specs::Readings::read_select))]
    pub(crate) fn select(&self, parser: &mut Parser<'_>) -> Result<(bool, Selected), SyntaxError>
        requires { At (part_at 1023) self.now.room (P.pre self.now.part) (P.post self.now.part) }
        ensures { Reads (readings.read_select 1023 (part_at 1023 self.now.room) parser.old) result
            parser.new }
    {
        parser.one(Kind::Select)?;
        if parser.starts(Kind::Distinct) {
            parser.one(Kind::Distinct)?;
            let selected = self.selection(parser)?;
            return Ok((true, selected));
        }
        let selected = self.selection(parser)?;
        Ok((false, selected))
    }

    /// `[where e]`.
    #[tactic(auto, unfolding(sql_parser_steps::specs::Readings::read_where))]
    fn condition(&self, parser: &mut Parser<'_>) -> Result<Clause, SyntaxError>
        requires { At (part_at 1023) self.now.room (P.pre self.now.part) (P.post self.now.part) }
        ensures { Reads (readings.read_where 1023 (part_at 1023 self.now.room) parser.old) result
            parser.new }
    {
        if parser.starts(Kind::Where) {
            parser.one(Kind::Where)?;
            let condition = self.whole(parser)?;
            return Ok(Clause::Condition(condition));
        }
        Ok(Clause::Absent)
    }

    /// `[having e]`.
    #[tactic(auto, unfolding(sql_parser_steps::specs::Readings::read_having))]
    fn having(&self, parser: &mut Parser<'_>) -> Result<Clause, SyntaxError>
        requires { At (part_at 1023) self.now.room (P.pre self.now.part) (P.post self.now.part) }
        ensures { Reads (readings.read_having 1023 (part_at 1023 self.now.room) parser.old) result
            parser.new }
    {
        if parser.starts(Kind::Having) {
            parser.one(Kind::Having)?;
            let condition = self.whole(parser)?;
            return Ok(Clause::Condition(condition));
        }
        Ok(Clause::Absent)
    }

    /// `[where e] [group by ..] [having e]`.
    #[tactic(auto, unfolding(sql_parser_steps::specs::Readings::read_filters))]
    pub(crate) fn filters(&self, parser: &mut Parser<'_>) -> Result<Filters, SyntaxError>
        requires { At (part_at 1023) self.now.room (P.pre self.now.part) (P.post self.now.part) }
        ensures { Reads (readings.read_filters 1023 (part_at 1023 self.now.room) parser.old) result
            parser.new }
    {
        let condition = self.condition(parser)?;
        let group = group(self.alloc, parser)?;
        let having = self.having(parser)?;
        Ok(Filters {
            condition,
            group,
            having,
        })
    }
}
