//! The words that join queries by set operations.
ghost use Rattle.sql_grammar_laws.specs.Readings.{Reads};
ghost use Rattle.sql_parser_steps.specs.Readings as readings;

use crate::parser::Parser;
use sql_ast::SetOperator;
use sql_grammar_laws::SyntaxError;
use sql_lexer::Kind;

impl<'a> Parser<'a> {
    /// `[all]`; whether it stands there.
    #[tactic(auto, unfolding(crate::specs::Readings::read_all))]
    fn all(&mut self) -> Result<bool, SyntaxError>
        ensures { Reads (readings.read_all self.old) result self.new }
    {
        if self.starts(Kind::All) {
            return self.word(Kind::All, true);
        }
        Ok(false)
    }

    /// `intersect [all]`.
    #[tactic(auto, unfolding(crate::specs::Readings::read_intersect_words))]
    pub fn intersect_words(&mut self) -> Result<(SetOperator, bool), SyntaxError>
        ensures { Reads (readings.read_intersect_words self.old) result self.new }
    {
        let operator = self.word(Kind::Intersect, SetOperator::Intersect)?;
        let keeps_all = self.all()?;
        Ok((operator, keeps_all))
    }

    /// `union | except`.
    #[tactic(auto, unfolding(crate::specs::Readings::read_set_word))]
    fn set_word(&mut self) -> Result<SetOperator, SyntaxError>
        ensures { Reads (readings.read_set_word self.old) result self.new }
    {
        if self.starts(Kind::Union) {
            return self.word(Kind::Union, SetOperator::Union);
        }
        self.word(Kind::Except, SetOperator::Except)
    }

    /// `(union | except) [all]`.
    #[tactic(auto, unfolding(crate::specs::Readings::read_set_words))]
    pub fn set_words(&mut self) -> Result<(SetOperator, bool), SyntaxError>
        ensures { Reads (readings.read_set_words self.old) result self.new }
    {
        let operator = self.set_word()?;
        let keeps_all = self.all()?;
        Ok((operator, keeps_all))
    }
}
