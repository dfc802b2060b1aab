//! Whole expressions of one level, and lists of them.
ghost use Rattle.std.specs.Prelude.{◌∷◌};
ghost use Rattle.sql_grammar_laws.specs.Readings.{Reads, links, mapped, one};
ghost use Rattle.sql_lexer.specs.Kinds.{is};
ghost use Rattle.sql_lexer.specs.declared.kind.Kind.TheVariants as k;
ghost use Rattle.sql_parser_steps.specs.Nests.{At};
ghost use Rattle.sql_parser_steps.specs.ExpressionReadings as readings;
ghost use Rattle.sql_parser_steps.specs.Readings.{part_at};
ghost use Rattle.sql_parser_steps.specs.Values as values;

use sql_ast::Expr;
use sql_grammar_laws::SyntaxError;
use sql_lexer::Kind;
use sql_parser_steps::parts::{all_of, any_of};
use sql_parser_steps::{MAX_MORE, Parser};
use sqlite_items::{Boxed, Items};
use std::alloc::Global;

/// What holds not-parts of one level. `part` reads such a part where `room` levels may still be
/// opened.
#[derive(Clone, Copy)]
pub(crate) struct Level<P> {
    pub(crate) alloc: Global,
    pub(crate) room: usize,
    pub(crate) part: P,
}

impl<P: Fn(Global, &mut Parser<'_>, usize) -> Result<Boxed<Expr>, SyntaxError>> Level<P> {
    /// A not-part.
    fn part(&self, parser: &mut Parser<'_>) -> Result<Boxed<Expr>, SyntaxError>
        requires { At (part_at 1023) self.now.room (P.pre self.now.part) (P.post self.now.part) }
        ensures { Reads (part_at 1023 self.now.room parser.old) result parser.new }
    {
        (self.part)(self.alloc, parser, self.room)
    }

    /// `{and not-part}`.
    fn conjuncts(&self, parser: &mut Parser<'_>) -> Result<Items<Expr>, SyntaxError>
        requires { At (part_at 1023) self.now.room (P.pre self.now.part) (P.post self.now.part) }
        ensures { Reads (links (is k.And) (one (is k.And)) values.second
            (part_at 1023 self.now.room) 1023 parser.old) result parser.new }
    {
        let mut found = Items::new(self.alloc);
        let mut width = MAX_MORE;
        'more: while parser.starts(Kind::And) {
            parser.one(Kind::And)?;
            let here = parser.rest();
            let element = self.part(parser);
            if width == 0 {
                return Err(parser.one_too_many(here, element));
            }
            found.push(element?.into_inner())?;
            width -= 1;
        }
        Ok(found)
    }

    /// `not-part {and not-part}`.
    #[tactic(auto, unfolding(sql_parser_steps::specs::ExpressionReadings::read_conjunction))]
    fn conjunction(&self, parser: &mut Parser<'_>) -> Result<Boxed<Expr>, SyntaxError>
        requires { At (part_at 1023) self.now.room (P.pre self.now.part) (P.post self.now.part) }
        ensures { Reads (readings.read_conjunction 1023 (part_at 1023 self.now.room) parser.old)
            result parser.new }
    {
        let first = self.part(parser)?;
        let others = self.conjuncts(parser)?;
        Ok(all_of(self.alloc, first, others)?)
    }

    /// `{or and-part}`.
    fn disjuncts(&self, parser: &mut Parser<'_>) -> Result<Items<Expr>, SyntaxError>
        requires { At (part_at 1023) self.now.room (P.pre self.now.part) (P.post self.now.part) }
        ensures { Reads (links (is k.Or) (one (is k.Or)) values.second
            (readings.read_conjunction 1023 (part_at 1023 self.now.room)) 1023 parser.old) result
            parser.new }
    {
        let mut found = Items::new(self.alloc);
        let mut width = MAX_MORE;
        'more: while parser.starts(Kind::Or) {
            parser.one(Kind::Or)?;
            let here = parser.rest();
            let element = self.conjunction(parser);
            if width == 0 {
                return Err(parser.one_too_many(here, element));
            }
            found.push(element?.into_inner())?;
            width -= 1;
        }
        Ok(found)
    }

    /// An expression: `and-part {or and-part}`.
    #[tactic(auto, unfolding(sql_parser_steps::specs::ExpressionReadings::read_whole))]
    pub(crate) fn whole(&self, parser: &mut Parser<'_>) -> Result<Boxed<Expr>, SyntaxError>
        requires { At (part_at 1023) self.now.room (P.pre self.now.part) (P.post self.now.part) }
        ensures { Reads (readings.read_whole 1023 (part_at 1023 self.now.room) parser.old) result
            parser.new }
    {
        let first = self.conjunction(parser)?;
        let others = self.disjuncts(parser)?;
        Ok(any_of(self.alloc, first, others)?)
    }

    /// The list, of which the first expression is read.
    fn more_exprs(&self, parser: &mut Parser<'_>, first: Expr) -> Result<Items<Expr>, SyntaxError>
        requires { At (part_at 1023) self.now.room (P.pre self.now.part) (P.post self.now.part) }
        ensures { Reads (mapped (λ xs. first ∷ xs)
            (links (is k.Comma) (one (is k.Comma)) values.second
            (readings.read_whole 1023 (part_at 1023 self.now.room)) 1023) parser.old) result
            parser.new }
    {
        let mut found = Items::new(self.alloc);
        found.push(first)?;
        let mut width = MAX_MORE;
        'more: while parser.starts(Kind::Comma) {
            parser.one(Kind::Comma)?;
            let here = parser.rest();
            let element = self.whole(parser);
            if width == 0 {
                return Err(parser.one_too_many(here, element));
            }
            found.push(element?.into_inner())?;
            width -= 1;
        }
        Ok(found)
    }

    /// `e {"," e}`.
    #[tactic(auto, unfolding(sql_parser_steps::specs::ExpressionReadings::read_expr_list))]
    pub(crate) fn expr_list(&self, parser: &mut Parser<'_>) -> Result<Items<Expr>, SyntaxError>
        requires { At (part_at 1023) self.now.room (P.pre self.now.part) (P.post self.now.part) }
        ensures { Reads (readings.read_expr_list 1023 (part_at 1023 self.now.room) parser.old)
            result parser.new }
    {
        let first = self.whole(parser)?;
        self.more_exprs(parser, first.into_inner())
    }
}
