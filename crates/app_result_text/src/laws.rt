//! Small cases of the definitions. The function does nothing: its contract is what they compute to.
ghost use Rattle.app_result_text.specs.Examples.{Examples, LineExamples};

/// The definitions have the values that were worked out by hand.
pub fn examples_hold()
    ensures answers { Examples }
    ensures lines { LineExamples }
{}
