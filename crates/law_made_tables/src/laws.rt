//! Laws of the made tables. Each function has an empty body: its contract is the law.
ghost use Rattle.law_made_tables.specs.Laws.{MadeTablesGiveRows};

/// Each table that is made for a number from 1 to 1000 is of its form: its file gives rows.
#[tactic(auto, using(crate::proofs::Files::made_tables_give_rows))]
pub fn made_tables_give_rows()
    ensures { MadeTablesGiveRows }
{}
