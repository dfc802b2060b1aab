//! The laws: each is the contract of a function that does nothing.
ghost use Rattle.law_versions.specs.Accepted.{DeleteLaw, InsertLaw};

/// A refresh has no cause against it exactly where its keys are as they must be: an insert's orders
/// and lineitems are new and each lineitem is of one of its orders; a delete's orders are there;
/// and no key stands twice.
pub fn accepted_refreshes_are_told_by_their_keys()
    ensures insert { InsertLaw }
    ensures delete { DeleteLaw }
{}
