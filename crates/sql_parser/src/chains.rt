//! Queries as chains of SELECTs that set operations join.
ghost use Rattle.std.specs.Prelude.{◌∷◌, []};
ghost use Rattle.sql_grammar_laws.specs.Kinds.{among};
ghost use Rattle.sql_grammar_laws.specs.Readings.{Reads, links};
ghost use Rattle.sql_lexer.specs.Kinds.{is};
ghost use Rattle.sql_lexer.specs.declared.kind.Kind.TheVariants as k;
ghost use Rattle.sql_parser_steps.specs.Kinds.{kinds};
ghost use Rattle.sql_parser_steps.specs.Nests.{At, Below};
ghost use Rattle.sql_parser_steps.specs.Readings as readings;
ghost use Rattle.sql_parser_steps.specs.Readings.{inner_query, part_at, query_at};
ghost use Rattle.sql_parser_steps.specs.Values as values;

use crate::blocks::Blocks;
use sql_ast::{Block, Expr, SetPart};
use sql_grammar_laws::SyntaxError;
use sql_lexer::Kind;
use sql_parser_steps::parts::{combined, set_part};
use sql_parser_steps::{MAX_MORE, Parser};
use sqlite_items::{Boxed, Items};
use std::alloc::Global;

impl<
    P: Copy + Fn(Global, &mut Parser<'_>, usize) -> Result<Boxed<Expr>, SyntaxError>,
    Q: Copy + Fn(Global, &mut Parser<'_>, usize) -> Result<Boxed<Block>, SyntaxError>,
> Blocks<P, Q> {
    /// `{intersect [all] select ..}`.
    fn intersections(&self, parser: &mut Parser<'_>) -> Result<Items<SetPart>, SyntaxError>
        requires part { At (part_at 1023) self.now.room (P.pre self.now.part)
            (P.post self.now.part) }
        requires query { Below (query_at 1023) self.now.room (Q.pre self.now.query)
            (Q.post self.now.query) }
        ensures { Reads (links (is k.Intersect) readings.read_intersect_words values.set_part
            (readings.read_block 1023 self.now.room (part_at 1023 self.now.room)
            (inner_query 1023 self.now.room)) 1023 parser.old) result parser.new }
    {
        let mut found = Items::new(self.alloc);
        let mut width = MAX_MORE;
        'more: while parser.starts(Kind::Intersect) {
            let words = parser.intersect_words()?;
            let here = parser.rest();
            let element = self.block(parser);
            if width == 0 {
                return Err(parser.one_too_many(here, element));
            }
            found.push(set_part(words, element?))?;
            width -= 1;
        }
        Ok(found)
    }

    /// `select .. {intersect [all] select ..}`.
    #[tactic(auto, unfolding(sql_parser_steps::specs::Readings::read_term))]
    fn term(&self, parser: &mut Parser<'_>) -> Result<Boxed<Block>, SyntaxError>
        requires part { At (part_at 1023) self.now.room (P.pre self.now.part)
            (P.post self.now.part) }
        requires query { Below (query_at 1023) self.now.room (Q.pre self.now.query)
            (Q.post self.now.query) }
        ensures { Reads (readings.read_term 1023 self.now.room (part_at 1023 self.now.room)
            (inner_query 1023 self.now.room) parser.old) result parser.new }
    {
        let first = self.block(parser)?;
        let others = self.intersections(parser)?;
        Ok(combined(self.alloc, first, others)?)
    }

    /// `{(union | except) [all] term}`.
    fn more_terms(&self, parser: &mut Parser<'_>) -> Result<Items<SetPart>, SyntaxError>
        requires part { At (part_at 1023) self.now.room (P.pre self.now.part)
            (P.post self.now.part) }
        requires query { Below (query_at 1023) self.now.room (Q.pre self.now.query)
            (Q.post self.now.query) }
        ensures { Reads (links (among kinds (k.Union ∷ k.Except ∷ [])) readings.read_set_words
            values.set_part (readings.read_term 1023 self.now.room (part_at 1023 self.now.room)
            (inner_query 1023 self.now.room)) 1023 parser.old) result parser.new }
    {
        let mut found = Items::new(self.alloc);
        let mut width = MAX_MORE;
        'more: while parser.starts_any(&[Kind::Union, Kind::Except]) {
            let words = parser.set_words()?;
            let here = parser.rest();
            let element = self.term(parser);
            if width == 0 {
                return Err(parser.one_too_many(here, element));
            }
            found.push(set_part(words, element?))?;
            width -= 1;
        }
        Ok(found)
    }

    /// `term {(union | except) [all] term}`.
    #[tactic(auto, unfolding(sql_parser_steps::specs::Readings::read_query_line))]
    pub(crate) fn query(&self, parser: &mut Parser<'_>) -> Result<Boxed<Block>, SyntaxError>
        requires part { At (part_at 1023) self.now.room (P.pre self.now.part)
            (P.post self.now.part) }
        requires query { Below (query_at 1023) self.now.room (Q.pre self.now.query)
            (Q.post self.now.query) }
        ensures { Reads (readings.read_query_line 1023 self.now.room (part_at 1023 self.now.room)
            (inner_query 1023 self.now.room) parser.old) result parser.new }
    {
        let first = self.term(parser)?;
        let others = self.more_terms(parser)?;
        Ok(combined(self.alloc, first, others)?)
    }
}
