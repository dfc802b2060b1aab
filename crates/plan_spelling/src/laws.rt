//! Laws of spellings. The functions do nothing: their contracts are the laws.
ghost use Rattle.plan_spelling.specs.Laws.{SpellingIsUnique, TextDeterminesPlan};

/// The numbers that spell a plan are those of no other plan.
#[tactic(auto, using(crate::proofs::UniqueParts::spelling_is_unique))]
pub fn spelling_is_unique()
    ensures { SpellingIsUnique }
{}

/// A text that ends with the line of a plan ends with that of no other plan.
pub fn text_determines_plan()
    ensures { TextDeterminesPlan }
{}
