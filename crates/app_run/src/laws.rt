//! Laws of the definitions that the top call's promise stands on, each the contract of a function
//! that does nothing: inputs are accepted exactly where all of them are good, the first bad table
//! is the one that is refused, a text is the only one, and refreshes that nobody sends have one
//! order.
ghost use Rattle.app_run.specs.Examples.{Examples};
ghost use Rattle.app_run.specs.Laws.{SessionAcceptedLaw, TablesAcceptedLaw, TablesOrderLaw};
ghost use Rattle.app_run.specs.Laws.{TextLaw, UnsentLaw};

/// Two texts that an accepted `session` or `check` prints are one text, with one status. A job may
/// choose other versions, and `explain` may print any plan of a query.
pub fn texts_are_unique()
    ensures { TextLaw }
{}

/// Of the tables the first bad one in the schema's order is refused, before which all are good.
pub fn first_bad_table_is_refused()
    ensures { TablesOrderLaw }
{}

/// A folder's tables are accepted with a state exactly where each table's file is accepted with
/// that state's rows, and a session's inputs exactly where its script, its tables and its refresh
/// files are.
pub fn good_inputs_are_accepted()
    ensures tables { TablesAcceptedLaw }
    ensures session { SessionAcceptedLaw }
{}

/// A job none of whose refreshes is sent has a text in just one order of them, that of its lines.
pub fn unsent_refreshes_keep_their_order()
    ensures { UnsentLaw }
{}

/// The definitions have the values that were worked out by hand.
pub fn examples_hold()
    ensures { Examples }
{}
