//! Laws of trials. Each function has an empty body: its contract is the law.
ghost use Rattle.law_trials.specs.Laws.{TrialWordsAreAccepted, TrialsAreAccepted};

/// A trial of each number from 1 to 1000 is accepted: its job, its script and the tables that it
/// makes are of their forms.
#[tactic(auto, using(crate::proofs::Trials::trials_are_accepted))]
pub fn trials_are_accepted()
    ensures { TrialsAreAccepted }
{}

/// Words that ask for a trial are accepted. So `tpch` ends with Done or SomeRefused for them,
/// unless memory runs out or the sink fails.
pub fn trial_words_are_accepted()
    ensures { TrialWordsAreAccepted }
{}
