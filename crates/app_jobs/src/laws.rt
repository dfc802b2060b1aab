//! A law of the definitions, the contract of a function that does nothing.
ghost use Rattle.app_jobs.specs.Laws.{NextRunLaw};

/// A file that holds what a run accepted, and isn't too long, the next run over the same tables
/// reads as just that.
pub fn the_next_run_reads_what_is_left()
    ensures { NextRunLaw }
{}
