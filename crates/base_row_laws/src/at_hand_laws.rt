//! Only what conditions and select lists say of the rows at hand matters.

ghost use Rattle.std.specs.Prelude.{Bool};
ghost use Rattle.base_row_laws.specs.AtHandLaws.{SelectAtHand, ProjectAtHand, JoinAtHand, OuterAtHand};
ghost use Rattle.base_row_laws.specs.AtHandLaws.{MarkAtHand, AttachAtHand, GroupAtHand, DomainAtHand};

/// WHERE and HAVING keep the same rows under conditions that say the same of each row.
pub fn select_at_hand<V>()
    ensures { SelectAtHand V }
{}

/// Select lists that give the same for each row give the same rows.
pub fn project_at_hand<V>()
    ensures { ProjectAtHand V }
{}

/// The inner join gives the same rows under conditions that say the same of each combination.
pub fn join_at_hand<V>()
    ensures { JoinAtHand V }
{}

/// The left outer join gives the same rows under conditions that say the same of each combination.
pub fn outer_at_hand<V>()
    ensures { OuterAtHand V }
{}

/// Marks are the same under conditions that say the same of each combination.
pub fn mark_at_hand<V>()
    ensures { MarkAtHand V }
{}

/// An attached column is the same where one function gives for each left row and the right side's
/// rows under it what another gives for that row and another right side's rows.
pub fn attach_at_hand<V>()
    ensures { AttachAtHand V }
{}

/// GROUP BY gives the same groups under keys that say the same of each row, and aggregates that say
/// the same of any of the rows.
pub fn group_at_hand<V>()
    ensures { (same : V → V → Bool) → GroupAtHand same }
{}

/// A domain is the same where two functions take the same of each row.
pub fn domain_at_hand<V>()
    ensures { (same : V → V → Bool) → DomainAtHand same }
{}
