//! Small cases of the definitions. The function does nothing: its contract is what they compute to.
ghost use Rattle.base_text.specs.Cases.{AnyBytes, LastPart, OneByte, Parts, Tab};

/// Small cases of patterns, places and printable bytes, computed.
pub fn cases()
    ensures any { AnyBytes }
    ensures one { OneByte }
    ensures last { LastPart }
    ensures parts { Parts }
    ensures tab { Tab }
{}
