//! Laws of filled templates. Each function has an empty body: its contract is the law.
ghost use Rattle.sql_templates.specs.Laws.{FilledIsScript, FilledIsTokens};

/// The text that a query is filled to has tokens, whatever the values are.
#[tactic(auto, using(crate::proofs::Filled::filled_is_tokens))]
pub fn filled_is_tokens()
    ensures { FilledIsTokens }
{}

/// The text that a query is filled to is a script, whatever the values are.
#[tactic(auto, using(crate::proofs::Scripts::filled_is_script))]
pub fn filled_is_script()
    ensures { FilledIsScript }
{}
