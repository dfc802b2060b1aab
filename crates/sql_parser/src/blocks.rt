//! Queries from SELECT to HAVING, and the items of their FROM.
ghost use Rattle.std.specs.Prelude.{◌≡◌, ◌∷◌, []};
ghost use Rattle.sql_grammar_laws.specs.Kinds.{among};
ghost use Rattle.sql_grammar_laws.specs.Readings.{Reads, links, mapped, one};
ghost use Rattle.sql_lexer.specs.Kinds.{is};
ghost use Rattle.sql_lexer.specs.declared.kind.Kind.TheVariants as k;
ghost use Rattle.sql_parser_steps.specs.Kinds.{kinds};
ghost use Rattle.sql_parser_steps.specs.Nests.{At, Below};
ghost use Rattle.sql_parser_steps.specs.Readings as readings;
ghost use Rattle.sql_parser_steps.specs.Readings.{inner_query, part_at, query_at};
ghost use Rattle.sql_parser_steps.specs.Values as values;

use crate::level::Level;
use sql_ast::{Block, Expr, FromItem, Join, Joined, Name};
use sql_grammar_laws::SyntaxError;
use sql_lexer::Kind;
use sql_parser_steps::clauses::column_names;
use sql_parser_steps::parts::{block_of, join_of, joined_of};
use sql_parser_steps::{MAX_MORE, Parser, Subqueries};
use sqlite_items::{Boxed, Items};
use std::alloc::Global;

/// What holds expressions of one level, and queries of the level below. `part` reads the parts of
/// the first, `query` the second; `room` is how many levels may still be opened.
#[derive(Clone, Copy)]
pub(crate) struct Blocks<P, Q> {
    pub(crate) alloc: Global,
    pub(crate) room: usize,
    pub(crate) part: P,
    pub(crate) query: Q,
}

impl<
    P: Copy + Fn(Global, &mut Parser<'_>, usize) -> Result<Boxed<Expr>, SyntaxError>,
    Q: Copy + Fn(Global, &mut Parser<'_>, usize) -> Result<Boxed<Block>, SyntaxError>,
> Blocks<P, Q> {
    /// `"(" query ")" [as] name ["(" name {"," name} ")"]`.
    #[tactic(auto, unfolding(sql_parser_steps::specs::Readings::read_from_query))]
    fn from_query(
        &self,
        parser: &mut Parser<'_>,
    ) -> Result<(Boxed<Block>, (Name, Items<Name>)), SyntaxError>
        requires query { Below (query_at 1023) self.now.room (Q.pre self.now.query)
            (Q.post self.now.query) }
        ensures { Reads (readings.read_from_query 1023 self.now.room
            (inner_query 1023 self.now.room) parser.old) result parser.new }
    {
        let subqueries = Subqueries {
            alloc: self.alloc,
            room: self.room,
            query: self.query,
        };
        let query = subqueries.subquery(parser)?;
        let alias = parser.derived_alias(self.alloc)?;
        let columns = column_names(self.alloc, parser, self.room)?;
        Ok((query, (alias, columns)))
    }

    /// Such a query, as a derived table.
    #[tactic(auto, unfolding(sql_parser_steps::specs::Readings::read_derived))]
    fn derived(&self, parser: &mut Parser<'_>) -> Result<FromItem, SyntaxError>
        requires query { Below (query_at 1023) self.now.room (Q.pre self.now.query)
            (Q.post self.now.query) }
        ensures { Reads (readings.read_derived 1023 self.now.room (inner_query 1023 self.now.room)
            parser.old) result parser.new }
    {
        let (query, (alias, columns)) = self.from_query(parser)?;
        Ok(FromItem::Derived(query, alias, columns))
    }

    /// `lateral` and such a query.
    #[tactic(auto, unfolding(sql_parser_steps::specs::Readings::read_lateral))]
    fn lateral(&self, parser: &mut Parser<'_>) -> Result<FromItem, SyntaxError>
        requires query { Below (query_at 1023) self.now.room (Q.pre self.now.query)
            (Q.post self.now.query) }
        ensures { Reads (readings.read_lateral 1023 self.now.room (inner_query 1023 self.now.room)
            parser.old) result parser.new }
    {
        parser.one(Kind::Lateral)?;
        let (query, (alias, columns)) = self.from_query(parser)?;
        Ok(FromItem::Lateral(query, alias, columns))
    }

    /// `name [[as] name]`.
    #[tactic(auto, unfolding(sql_parser_steps::specs::Readings::read_table))]
    fn table(&self, parser: &mut Parser<'_>) -> Result<FromItem, SyntaxError>
        ensures { Reads (readings.read_table parser.old) result parser.new }
    {
        let name = parser.name(self.alloc)?;
        let alias = parser.alias(self.alloc)?;
        Ok(FromItem::Table(name, alias))
    }

    /// A derived table, a lateral item or a table.
    #[tactic(auto, unfolding(sql_parser_steps::specs::Readings::read_from_item))]
    fn from_item(&self, parser: &mut Parser<'_>) -> Result<FromItem, SyntaxError>
        requires query { Below (query_at 1023) self.now.room (Q.pre self.now.query)
            (Q.post self.now.query) }
        ensures { Reads (readings.read_from_item 1023 self.now.room (inner_query 1023 self.now.room)
            parser.old) result parser.new }
    {
        if parser.starts(Kind::OpenParen) {
            return self.derived(parser);
        }
        if parser.starts(Kind::Lateral) {
            return self.lateral(parser);
        }
        self.table(parser)
    }

    /// `item on e`.
    #[tactic(auto, unfolding(sql_parser_steps::specs::Readings::read_joined_item))]
    fn joined_item(&self, parser: &mut Parser<'_>) -> Result<(FromItem, Boxed<Expr>), SyntaxError>
        requires part { At (part_at 1023) self.now.room (P.pre self.now.part)
            (P.post self.now.part) }
        requires query { Below (query_at 1023) self.now.room (Q.pre self.now.query)
            (Q.post self.now.query) }
        ensures { Reads (readings.read_joined_item 1023 self.now.room (part_at 1023 self.now.room)
            (inner_query 1023 self.now.room) parser.old) result parser.new }
    {
        let item = self.from_item(parser)?;
        parser.one(Kind::On)?;
        let level = Level {
            alloc: self.alloc,
            room: self.room,
            part: self.part,
        };
        let condition = level.whole(parser)?;
        Ok((item, condition))
    }

    /// `{([inner] join | left [outer] join) item on e}`.
    fn joins(&self, parser: &mut Parser<'_>) -> Result<Items<Join>, SyntaxError>
        requires part { At (part_at 1023) self.now.room (P.pre self.now.part)
            (P.post self.now.part) }
        requires query { Below (query_at 1023) self.now.room (Q.pre self.now.query)
            (Q.post self.now.query) }
        ensures { Reads (links (among kinds (k.Left ∷ k.Join ∷ k.Inner ∷ []))
            readings.read_join_words values.join
            (readings.read_joined_item 1023 self.now.room (part_at 1023 self.now.room)
            (inner_query 1023 self.now.room)) 1023 parser.old) result parser.new }
    {
        let mut found = Items::new(self.alloc);
        let mut width = MAX_MORE;
        'more: while parser.starts_any(&[Kind::Left, Kind::Join, Kind::Inner]) {
            let join = parser.join_words()?;
            let here = parser.rest();
            let element = self.joined_item(parser);
            if width == 0 {
                return Err(parser.one_too_many(here, element));
            }
            found.push(join_of(join, element?))?;
            width -= 1;
        }
        Ok(found)
    }

    /// `item {([inner] join | left [outer] join) item on e}`.
    #[tactic(auto, unfolding(sql_parser_steps::specs::Readings::read_joined))]
    fn joined(&self, parser: &mut Parser<'_>) -> Result<Joined, SyntaxError>
        requires part { At (part_at 1023) self.now.room (P.pre self.now.part)
            (P.post self.now.part) }
        requires query { Below (query_at 1023) self.now.room (Q.pre self.now.query)
            (Q.post self.now.query) }
        ensures { Reads (readings.read_joined 1023 self.now.room (part_at 1023 self.now.room)
            (inner_query 1023 self.now.room) parser.old) result parser.new }
    {
        let first = self.from_item(parser)?;
        let joins = self.joins(parser)?;
        Ok(joined_of(first, joins))
    }

    /// What stands between FROM's commas, of which the first is read.
    fn more_joined(
        &self,
        parser: &mut Parser<'_>,
        first: Joined,
    ) -> Result<Items<Joined>, SyntaxError>
        requires part { At (part_at 1023) self.now.room (P.pre self.now.part)
            (P.post self.now.part) }
        requires query { Below (query_at 1023) self.now.room (Q.pre self.now.query)
            (Q.post self.now.query) }
        ensures { Reads (mapped (λ xs. first ∷ xs)
            (links (is k.Comma) (one (is k.Comma)) values.second
            (readings.read_joined 1023 self.now.room (part_at 1023 self.now.room)
            (inner_query 1023 self.now.room)) 1023) parser.old) result parser.new }
    {
        let mut found = Items::new(self.alloc);
        found.push(first)?;
        let mut width = MAX_MORE;
        'more: while parser.starts(Kind::Comma) {
            parser.one(Kind::Comma)?;
            let here = parser.rest();
            let element = self.joined(parser);
            if width == 0 {
                return Err(parser.one_too_many(here, element));
            }
            found.push(element?)?;
            width -= 1;
        }
        Ok(found)
    }

    /// `from joined {"," joined}`.
    #[tactic(auto, unfolding(sql_parser_steps::specs::Readings::read_from))]
    fn from(&self, parser: &mut Parser<'_>) -> Result<Items<Joined>, SyntaxError>
        requires part { At (part_at 1023) self.now.room (P.pre self.now.part)
            (P.post self.now.part) }
        requires query { Below (query_at 1023) self.now.room (Q.pre self.now.query)
            (Q.post self.now.query) }
        ensures { Reads (readings.read_from 1023 self.now.room (part_at 1023 self.now.room)
            (inner_query 1023 self.now.room) parser.old) result parser.new }
    {
        parser.one(Kind::From)?;
        let first = self.joined(parser)?;
        self.more_joined(parser, first)
    }

    /// `select .. from .. [where ..] [group by ..] [having ..]`.
    #[tactic(auto, unfolding(sql_parser_steps::specs::Readings::read_block))]
    pub(crate) fn block(&self, parser: &mut Parser<'_>) -> Result<Boxed<Block>, SyntaxError>
        requires part { At (part_at 1023) self.now.room (P.pre self.now.part)
            (P.post self.now.part) }
        requires query { Below (query_at 1023) self.now.room (Q.pre self.now.query)
            (Q.post self.now.query) }
        ensures { Reads (readings.read_block 1023 self.now.room (part_at 1023 self.now.room)
            (inner_query 1023 self.now.room) parser.old) result parser.new }
    {
        let level = Level {
            alloc: self.alloc,
            room: self.room,
            part: self.part,
        };
        let selected = level.select(parser)?;
        let from = self.from(parser)?;
        let filters = level.filters(parser)?;
        Ok(Boxed::new(self.alloc, block_of(selected, from, filters))?)
    }
}
