//! What groups by numbers have to compute. Each function has an empty body: its contract is the
//! law.
ghost use Rattle.exec_hash_group.specs.GroupLaws.{GroupByNumbers, DistinctByNumbers};
ghost use Rattle.exec_hash_group.specs.GroupLaws.{KeysAtFirstPlaces};

/// GROUP BY: each key with the aggregates of the rows that have its number, at the least of their
/// standings.
pub fn group_by_numbers<V>()
    ensures { GroupByNumbers V }
{}

/// DISTINCT: each row once, at the greatest of the standings of the rows that have its number.
pub fn distinct_by_numbers<V>()
    ensures { DistinctByNumbers V }
{}

/// The keys in the order of their numbers are those at their first places.
pub fn keys_at_first_places<X>()
    ensures { KeysAtFirstPlaces X }
{}
