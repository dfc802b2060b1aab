//! Sums and products, and the tests that hold sums alone.
ghost use Rattle.std.specs.Prelude.{◌∷◌, []};
ghost use Rattle.sql_grammar_laws.specs.Kinds.{among};
ghost use Rattle.sql_grammar_laws.specs.Readings.{Reads, links};
ghost use Rattle.sql_lexer.specs.declared.kind.Kind.TheVariants as k;
ghost use Rattle.sql_parser_steps.specs.Kinds.{kinds};
ghost use Rattle.sql_parser_steps.specs.Nests.{At};
ghost use Rattle.sql_parser_steps.specs.ExpressionReadings as readings;
ghost use Rattle.sql_parser_steps.specs.Readings.{unary_at};
ghost use Rattle.sql_parser_steps.specs.Values as values;

use sql_ast::{Expr, Factor, Term};
use sql_grammar_laws::SyntaxError;
use sql_lexer::Kind;
use sql_parser_steps::parts::{factor, product, sum, term};
use sql_parser_steps::{MAX_MORE, Parser, Test};
use sqlite_items::{Boxed, Items};
use std::alloc::Global;

/// What holds unary parts of one level. `unary` reads such a part where `room` levels may still be
/// opened.
#[derive(Clone, Copy)]
pub(crate) struct Sums<U> {
    pub(crate) alloc: Global,
    pub(crate) room: usize,
    pub(crate) unary: U,
}

impl<U: Fn(Global, &mut Parser<'_>, usize) -> Result<Boxed<Expr>, SyntaxError>> Sums<U> {
    /// A unary part.
    fn unary(&self, parser: &mut Parser<'_>) -> Result<Boxed<Expr>, SyntaxError>
        requires { At (unary_at 1023) self.now.room (U.pre self.now.unary) (U.post self.now.unary) }
        ensures { Reads (unary_at 1023 self.now.room parser.old) result parser.new }
    {
        (self.unary)(self.alloc, parser, self.room)
    }

    /// `{(*|/) unary}`.
    fn factors(&self, parser: &mut Parser<'_>) -> Result<Items<Factor>, SyntaxError>
        requires { At (unary_at 1023) self.now.room (U.pre self.now.unary) (U.post self.now.unary) }
        ensures { Reads (links (among kinds (k.Star ∷ k.Slash ∷ [])) readings.read_multiply
            values.factor (unary_at 1023 self.now.room) 1023 parser.old) result parser.new }
    {
        let mut found = Items::new(self.alloc);
        let mut width = MAX_MORE;
        'more: while parser.starts_any(&[Kind::Star, Kind::Slash]) {
            let join = parser.multiply()?;
            let here = parser.rest();
            let element = self.unary(parser);
            if width == 0 {
                return Err(parser.one_too_many(here, element));
            }
            found.push(factor(join, element?))?;
            width -= 1;
        }
        Ok(found)
    }

    /// `unary {(*|/) unary}`.
    #[tactic(auto, unfolding(sql_parser_steps::specs::ExpressionReadings::read_product))]
    fn product(&self, parser: &mut Parser<'_>) -> Result<Boxed<Expr>, SyntaxError>
        requires { At (unary_at 1023) self.now.room (U.pre self.now.unary) (U.post self.now.unary) }
        ensures { Reads (readings.read_product 1023 (unary_at 1023 self.now.room) parser.old) result
            parser.new }
    {
        let first = self.unary(parser)?;
        let others = self.factors(parser)?;
        Ok(product(self.alloc, first, others)?)
    }

    /// `{(+|-) product}`.
    fn terms(&self, parser: &mut Parser<'_>) -> Result<Items<Term>, SyntaxError>
        requires { At (unary_at 1023) self.now.room (U.pre self.now.unary) (U.post self.now.unary) }
        ensures { Reads (links (among kinds (k.Plus ∷ k.Minus ∷ [])) readings.read_add values.term
            (readings.read_product 1023 (unary_at 1023 self.now.room)) 1023 parser.old) result
            parser.new }
    {
        let mut found = Items::new(self.alloc);
        let mut width = MAX_MORE;
        'more: while parser.starts_any(&[Kind::Plus, Kind::Minus]) {
            let join = parser.add()?;
            let here = parser.rest();
            let element = self.product(parser);
            if width == 0 {
                return Err(parser.one_too_many(here, element));
            }
            found.push(term(join, element?))?;
            width -= 1;
        }
        Ok(found)
    }

    /// `product {(+|-) product}`.
    #[tactic(auto, unfolding(sql_parser_steps::specs::ExpressionReadings::read_sum))]
    pub(crate) fn sum(&self, parser: &mut Parser<'_>) -> Result<Boxed<Expr>, SyntaxError>
        requires { At (unary_at 1023) self.now.room (U.pre self.now.unary) (U.post self.now.unary) }
        ensures { Reads (readings.read_sum 1023 (unary_at 1023 self.now.room) parser.old) result
            parser.new }
    {
        let first = self.product(parser)?;
        let others = self.terms(parser)?;
        Ok(sum(self.alloc, first, others)?)
    }

    /// `between sum and sum`.
    #[tactic(auto, unfolding(sql_parser_steps::specs::ExpressionReadings::read_between))]
    pub(crate) fn between(&self, parser: &mut Parser<'_>) -> Result<Test, SyntaxError>
        requires { At (unary_at 1023) self.now.room (U.pre self.now.unary) (U.post self.now.unary) }
        ensures { Reads (readings.read_between 1023 (unary_at 1023 self.now.room) parser.old) result
            parser.new }
    {
        parser.one(Kind::Between)?;
        let low = self.sum(parser)?;
        parser.one(Kind::And)?;
        let high = self.sum(parser)?;
        Ok(Test::Between(false, low, high))
    }
}
