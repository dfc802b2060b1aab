//! Reads worked out by hand. The function does nothing: its contract is the cases.
ghost use Rattle.plan_kept_queries.specs.Scans.{ReadCases};

/// How many rows queries read, with kept views in them and without.
pub fn worked_reads()
    ensures { ReadCases }
{}
