//! Laws of sessions and of plans. Each function does nothing: its contract is the law.
ghost use Rattle.app_sessions.specs.Examples.{Examples};
ghost use Rattle.app_sessions.specs.JobExamples.{JobExamples};
ghost use Rattle.app_sessions.specs.Laws.{ExpandOnce, PlansRun, SessionsText, VersionsAsked};
ghost use Rattle.app_sessions.specs.VersionExamples.{VersionExamples};

/// The plan of a query, run over tables of their kinds, gives the query's rows as a bag, and reads
/// as much as the query.
pub fn plans_give_rows()
    ensures { PlansRun }
{}

/// A script's statements stand for one list of statements.
pub fn scripts_stand_for_one_list()
    ensures { ExpandOnce }
{}

/// The text of a session is that of its statements, each at its moment.
pub fn sessions_have_their_text()
    ensures { SessionsText }
{}

/// A statement is asked over the version that it names exactly where that is the one at which it
/// began or one of the 63 before it.
pub fn versions_that_can_be_asked()
    ensures { VersionsAsked }
{}

/// Texts of queries that name a version, worked out by hand.
pub fn worked_versions()
    ensures { VersionExamples }
{}

/// Texts of sessions and of explanations, worked out by hand.
pub fn worked_sessions()
    ensures { Examples }
{}

/// Reports of jobs, worked out by hand.
pub fn worked_reports()
    ensures { JobExamples }
{}
