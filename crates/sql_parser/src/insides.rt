//! What CASE and the parentheses of a call hold.
ghost use Rattle.std.specs.Prelude.{◌∷◌};
ghost use Rattle.sql_grammar_laws.specs.Readings.{Reads, links, mapped, nothing};
ghost use Rattle.sql_lexer.specs.Kinds.{is};
ghost use Rattle.sql_lexer.specs.declared.kind.Kind.TheVariants as k;
ghost use Rattle.sql_parser_steps.specs.Nests.{At};
ghost use Rattle.sql_parser_steps.specs.ExpressionReadings as readings;
ghost use Rattle.sql_parser_steps.specs.Readings.{part_at};
ghost use Rattle.sql_parser_steps.specs.Values as values;

use crate::level::Level;
use sql_ast::{Arm, Expr};
use sql_grammar_laws::SyntaxError;
use sql_lexer::Kind;
use sql_parser_steps::parts::{arm_of, case_of};
use sql_parser_steps::{MAX_MORE, Parser};
use sqlite_items::{Boxed, Items};
use std::alloc::Global;

impl<P: Fn(Global, &mut Parser<'_>, usize) -> Result<Boxed<Expr>, SyntaxError>> Level<P> {
    /// `when e then e`.
    #[tactic(auto, unfolding(sql_parser_steps::specs::ExpressionReadings::read_arm))]
    fn arm(&self, parser: &mut Parser<'_>) -> Result<Arm, SyntaxError>
        requires { At (part_at 1023) self.now.room (P.pre self.now.part) (P.post self.now.part) }
        ensures { Reads (readings.read_arm 1023 (part_at 1023 self.now.room) parser.old) result
            parser.new }
    {
        parser.one(Kind::When)?;
        let condition = self.whole(parser)?;
        parser.one(Kind::Then)?;
        let value = self.whole(parser)?;
        Ok(arm_of(condition, value))
    }

    /// The arms, of which the first is read.
    fn more_arms(&self, parser: &mut Parser<'_>, first: Arm) -> Result<Items<Arm>, SyntaxError>
        requires { At (part_at 1023) self.now.room (P.pre self.now.part) (P.post self.now.part) }
        ensures { Reads (mapped (λ xs. first ∷ xs)
            (links (is k.When) (nothing (tt {0})) values.second
            (readings.read_arm 1023 (part_at 1023 self.now.room)) 1023) parser.old) result
            parser.new }
    {
        let mut found = Items::new(self.alloc);
        found.push(first)?;
        let mut width = MAX_MORE;
        'more: while parser.starts(Kind::When) {
            let here = parser.rest();
            let element = self.arm(parser);
            if width == 0 {
                return Err(parser.one_too_many(here, element));
            }
            found.push(element?)?;
            width -= 1;
        }
        Ok(found)
    }

    /// `when e then e {when e then e}`.
    #[tactic(auto, unfolding(sql_parser_steps::specs::ExpressionReadings::read_arms))]
    fn arms(&self, parser: &mut Parser<'_>) -> Result<Items<Arm>, SyntaxError>
        requires { At (part_at 1023) self.now.room (P.pre self.now.part) (P.post self.now.part) }
        ensures { Reads (readings.read_arms 1023 (part_at 1023 self.now.room) parser.old) result
            parser.new }
    {
        let first = self.arm(parser)?;
        self.more_arms(parser, first)
    }

    /// `[else e]`.
    #[tactic(auto, unfolding(sql_parser_steps::specs::ExpressionReadings::read_else))]
    fn otherwise(&self, parser: &mut Parser<'_>) -> Result<Option<Boxed<Expr>>, SyntaxError>
        requires { At (part_at 1023) self.now.room (P.pre self.now.part) (P.post self.now.part) }
        ensures { Reads (readings.read_else 1023 (part_at 1023 self.now.room) parser.old) result
            parser.new }
    {
        if parser.starts(Kind::Else) {
            parser.one(Kind::Else)?;
            let value = self.whole(parser)?;
            return Ok(Some(value));
        }
        Ok(None)
    }

    /// The arms, and what stands after ELSE.
    #[tactic(auto, unfolding(sql_parser_steps::specs::ExpressionReadings::read_case_body))]
    pub(crate) fn case_body(&self, parser: &mut Parser<'_>) -> Result<Boxed<Expr>, SyntaxError>
        requires { At (part_at 1023) self.now.room (P.pre self.now.part) (P.post self.now.part) }
        ensures { Reads (readings.read_case_body 1023 (part_at 1023 self.now.room) parser.old)
            result parser.new }
    {
        let arms = self.arms(parser)?;
        let otherwise = self.otherwise(parser)?;
        Ok(case_of(self.alloc, arms, otherwise)?)
    }

    /// `(year|month|day) from e`.
    #[tactic(auto, unfolding(sql_parser_steps::specs::ExpressionReadings::read_extract_inside))]
    pub(crate) fn extract_inside(&self, parser: &mut Parser<'_>) -> Result<Boxed<Expr>, SyntaxError>
        requires { At (part_at 1023) self.now.room (P.pre self.now.part) (P.post self.now.part) }
        ensures { Reads (readings.read_extract_inside 1023 (part_at 1023 self.now.room) parser.old)
            result parser.new }
    {
        let part = parser.span()?;
        parser.one(Kind::From)?;
        let inner = self.whole(parser)?;
        Ok(Boxed::new(self.alloc, Expr::Extract(part, inner))?)
    }

    /// `e from N for N`.
    #[tactic(auto, unfolding(sql_parser_steps::specs::ExpressionReadings::read_substring_inside))]
    pub(crate) fn substring_inside(
        &self,
        parser: &mut Parser<'_>,
    ) -> Result<Boxed<Expr>, SyntaxError>
        requires { At (part_at 1023) self.now.room (P.pre self.now.part) (P.post self.now.part) }
        ensures { Reads (readings.read_substring_inside 1023 (part_at 1023 self.now.room)
            parser.old) result parser.new }
    {
        let inner = self.whole(parser)?;
        let (first, count) = parser.places()?;
        Ok(Boxed::new(self.alloc, Expr::Substring(inner, first, count))?)
    }

    /// `"*" | [distinct] e`.
    #[tactic(auto, unfolding(sql_parser_steps::specs::ExpressionReadings::read_count_inside))]
    pub(crate) fn count_inside(&self, parser: &mut Parser<'_>) -> Result<Boxed<Expr>, SyntaxError>
        requires { At (part_at 1023) self.now.room (P.pre self.now.part) (P.post self.now.part) }
        ensures { Reads (readings.read_count_inside 1023 (part_at 1023 self.now.room) parser.old)
            result parser.new }
    {
        if parser.starts(Kind::Star) {
            parser.one(Kind::Star)?;
            return Ok(Boxed::new(self.alloc, Expr::CountRows)?);
        }
        if parser.starts(Kind::Distinct) {
            parser.one(Kind::Distinct)?;
            let inner = self.whole(parser)?;
            return Ok(Boxed::new(self.alloc, Expr::CountDistinct(inner))?);
        }
        let inner = self.whole(parser)?;
        Ok(Boxed::new(self.alloc, Expr::Count(inner))?)
    }
}
