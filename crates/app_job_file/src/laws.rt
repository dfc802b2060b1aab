//! Laws of the definitions, each the contract of a function that does nothing.
ghost use Rattle.app_job_file.specs.Examples.{Examples};

/// The definitions have the values that were worked out by hand.
pub fn examples_hold()
    ensures { Examples }
{}
