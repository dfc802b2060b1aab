//! Small cases of the definitions. The function does nothing: its contract is what they compute to.
ghost use Rattle.base_date.specs.Cases.{LeapDays, MonthEnds, NinetyDays, TheEnds};

/// Small cases of dates read and moved, computed.
pub fn cases()
    ensures leap { LeapDays }
    ensures months { MonthEnds }
    ensures days { NinetyDays }
    ensures ends { TheEnds }
{}
