//! Laws of answers.
ghost use Rattle.base_order_limit.specs.AnswerLaws.{AnswersOfBags};

/// Rows in another order have the same answer.
pub fn answers_of_bags()
    ensures { AnswersOfBags }
{}
