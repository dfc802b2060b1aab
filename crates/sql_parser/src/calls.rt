//! What opens a level and holds expressions there: CASE, and words with parentheses.
ghost use Rattle.sql_grammar_laws.specs.Readings.{Reads};
ghost use Rattle.sql_parser_steps.specs.Nests.{Below};
ghost use Rattle.sql_parser_steps.specs.ExpressionReadings as readings;
ghost use Rattle.sql_parser_steps.specs.Readings.{inner_part, part_at};

use crate::level::Level;
use sql_ast::Expr;
use sql_grammar_laws::SyntaxError;
use sql_lexer::Kind;
use sql_parser_steps::Parser;
use sqlite_items::Boxed;
use std::alloc::Global;

/// What holds expressions of the level below. `part` reads their parts; `room` is how many levels
/// may still be opened.
#[derive(Clone, Copy)]
pub(crate) struct Calls<P> {
    pub(crate) alloc: Global,
    pub(crate) room: usize,
    pub(crate) part: P,
}

impl<P: Copy + Fn(Global, &mut Parser<'_>, usize) -> Result<Boxed<Expr>, SyntaxError>> Calls<P> {
    /// `case .. end`.
    #[tactic(auto, using(sql_parser_steps::proofs::Inner::rules_inner), unfolding(sql_parser_steps::specs::ExpressionReadings::read_case))]
    pub(crate) fn case(&self, parser: &mut Parser<'_>) -> Result<Boxed<Expr>, SyntaxError>
        requires { Below (part_at 1023) self.now.room (P.pre self.now.part) (P.post self.now.part) }
        ensures { Reads (readings.read_case 1023 self.now.room (inner_part 1023 self.now.room)
            parser.old) result parser.new }
    {
        parser.opens(self.room, Kind::Case)?;
        let level = Level {
            alloc: self.alloc,
            room: self.room - 1,
            part: self.part,
        };
        let inner = level.case_body(parser)?;
        parser.one(Kind::End)?;
        Ok(inner)
    }

    /// `extract "(" .. ")"`.
    #[tactic(auto, using(sql_parser_steps::proofs::Inner::rules_inner), unfolding(sql_parser_steps::specs::ExpressionReadings::read_extract))]
    fn extract(&self, parser: &mut Parser<'_>) -> Result<Boxed<Expr>, SyntaxError>
        requires { Below (part_at 1023) self.now.room (P.pre self.now.part) (P.post self.now.part) }
        ensures { Reads (readings.read_extract 1023 self.now.room (inner_part 1023 self.now.room)
            parser.old) result parser.new }
    {
        parser.one(Kind::Extract)?;
        parser.opens(self.room, Kind::OpenParen)?;
        let level = Level {
            alloc: self.alloc,
            room: self.room - 1,
            part: self.part,
        };
        let inner = level.extract_inside(parser)?;
        parser.one(Kind::CloseParen)?;
        Ok(inner)
    }

    /// `substring "(" .. ")"`.
    #[tactic(auto, using(sql_parser_steps::proofs::Inner::rules_inner), unfolding(sql_parser_steps::specs::ExpressionReadings::read_substring))]
    fn substring(&self, parser: &mut Parser<'_>) -> Result<Boxed<Expr>, SyntaxError>
        requires { Below (part_at 1023) self.now.room (P.pre self.now.part) (P.post self.now.part) }
        ensures { Reads (readings.read_substring 1023 self.now.room (inner_part 1023 self.now.room)
            parser.old) result parser.new }
    {
        parser.one(Kind::Substring)?;
        parser.opens(self.room, Kind::OpenParen)?;
        let level = Level {
            alloc: self.alloc,
            room: self.room - 1,
            part: self.part,
        };
        let inner = level.substring_inside(parser)?;
        parser.one(Kind::CloseParen)?;
        Ok(inner)
    }

    /// `count "(" .. ")"`.
    #[tactic(auto, using(sql_parser_steps::proofs::Inner::rules_inner), unfolding(sql_parser_steps::specs::ExpressionReadings::read_count))]
    fn count(&self, parser: &mut Parser<'_>) -> Result<Boxed<Expr>, SyntaxError>
        requires { Below (part_at 1023) self.now.room (P.pre self.now.part) (P.post self.now.part) }
        ensures { Reads (readings.read_count 1023 self.now.room (inner_part 1023 self.now.room)
            parser.old) result parser.new }
    {
        parser.one(Kind::Count)?;
        parser.opens(self.room, Kind::OpenParen)?;
        let level = Level {
            alloc: self.alloc,
            room: self.room - 1,
            part: self.part,
        };
        let inner = level.count_inside(parser)?;
        parser.one(Kind::CloseParen)?;
        Ok(inner)
    }

    /// `sum(e)` and its like.
    #[tactic(auto, using(sql_parser_steps::proofs::Inner::rules_inner), unfolding(sql_parser_steps::specs::ExpressionReadings::read_aggregate))]
    fn aggregate(&self, parser: &mut Parser<'_>) -> Result<Boxed<Expr>, SyntaxError>
        requires { Below (part_at 1023) self.now.room (P.pre self.now.part) (P.post self.now.part) }
        ensures { Reads (readings.read_aggregate 1023 self.now.room (inner_part 1023 self.now.room)
            parser.old) result parser.new }
    {
        let function = parser.aggregate_word()?;
        parser.opens(self.room, Kind::OpenParen)?;
        let level = Level {
            alloc: self.alloc,
            room: self.room - 1,
            part: self.part,
        };
        let inner = level.whole(parser)?;
        parser.one(Kind::CloseParen)?;
        Ok(Boxed::new(self.alloc, Expr::Aggregate(function, inner))?)
    }

    /// What a word and parentheses make.
    #[tactic(auto, unfolding(sql_parser_steps::specs::ExpressionReadings::read_call))]
    pub(crate) fn call(&self, parser: &mut Parser<'_>) -> Result<Boxed<Expr>, SyntaxError>
        requires { Below (part_at 1023) self.now.room (P.pre self.now.part) (P.post self.now.part) }
        ensures { Reads (readings.read_call 1023 self.now.room (inner_part 1023 self.now.room)
            parser.old) result parser.new }
    {
        if parser.starts(Kind::Extract) {
            return self.extract(parser);
        }
        if parser.starts(Kind::Substring) {
            return self.substring(parser);
        }
        if parser.starts(Kind::Count) {
            return self.count(parser);
        }
        self.aggregate(parser)
    }
}
