//! Laws of which words are a command, each the contract of a function that does nothing.
ghost use Rattle.app_inputs.specs.WordLaws.{AcceptedLaw, ValuesLaw, WordExamples};

/// Words are a command exactly where clap finds no fault in them.
pub fn words_without_fault_are_commands()
    ensures { AcceptedLaw }
{}

/// Words of UTF-8 are the command that their first word and their values say: the first `--` is
/// left out, what follows it is a value however it begins, and no flag may come before it.
pub fn commands_are_read_by_their_values()
    ensures { ValuesLaw }
{}

/// The definitions have the values that were worked out by hand.
pub fn word_examples_hold()
    ensures { WordExamples }
{}
