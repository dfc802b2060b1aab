//! Laws of bags.

ghost use Rattle.std.specs.Prelude.{Bool};
ghost use Rattle.base_row_laws.specs.Bags.{IsIdentity};
ghost use Rattle.base_row_laws.specs.BagLaws.{BagReflexive, BagSymmetric, BagTransitive, AppendAlike};
ghost use Rattle.base_row_laws.specs.BagLaws.{AppendSwapped, PartsByTest, LoopsExchanged, MapAlike};
ghost use Rattle.base_row_laws.specs.BagLaws.{FilterAlike, FlatMapAlike, LengthAlike, SameSums};
ghost use Rattle.base_row_laws.specs.BagLaws.{PermutationAlike, WeightsOfAppended, HasAlike};
ghost use Rattle.base_row_laws.specs.BagLaws.{RowsHaveIdentity, IdentitiesAgree, ClassesAlike};
ghost use Rattle.base_row_laws.specs.BagLaws.{DistinctRows, ClassesMade, EntriesMade};

/// Each list is the same bag as itself.
pub fn same_bag_reflexive<X>()
    ensures { BagReflexive X }
{}

/// Where one list is the same bag as another, the other is the same bag as it.
pub fn same_bag_symmetric<X>()
    ensures { BagSymmetric X }
{}

/// Two lists that are each the same bag as a third are the same bag.
pub fn same_bag_transitive<X>()
    ensures { BagTransitive X }
{}

/// Two bags put together: one bag gives one bag.
pub fn append_alike<X>()
    ensures { AppendAlike X }
{}

/// Two lists one after the other are the same bag in either order.
pub fn append_swapped<X>()
    ensures { AppendSwapped X }
{}

/// A list is, as a bag, what passes a test and what doesn't.
pub fn parts_by_test<X>()
    ensures { PartsByTest X }
{}

/// Two nested loops may be exchanged: they give the same bag.
pub fn loops_exchanged<X, Y, Z>()
    ensures { LoopsExchanged X Y Z }
{}

/// The images under a function: one bag gives one bag.
pub fn map_alike<X, Y>()
    ensures { MapAlike X Y }
{}

/// What a test keeps: one bag gives one bag.
pub fn filter_alike<X>()
    ensures { FilterAlike X }
{}

/// Lists made of each element, one after the other: one bag gives one bag, where f and g make the
/// same bag of each element.
pub fn flat_map_alike<X, Y>()
    ensures { FlatMapAlike X Y }
{}

/// Lists that are the same bag have the same length.
pub fn length_alike<X>()
    ensures { LengthAlike X }
{}

/// Two lists are one bag where std's sums of each measure over them are equal, and only there.
pub fn same_sums<X>()
    ensures { SameSums X }
{}

/// A list in another order, as a sort leaves it, is the same bag.
pub fn same_bag_from_permutation<X>()
    ensures { PermutationAlike X }
{}

/// The sum, the greatest and the least of two lists one after the other are the sum, the greatest
/// and the least of theirs, as partial groups are merged.
pub fn weights_of_appended<X>()
    ensures { WeightsOfAppended X }
{}

/// One bag has the same elements, each as often; and lists in which each element stands equally
/// often are one bag.
pub fn has_alike<X>()
    ensures { (same : X → X → Bool) → IsIdentity same → HasAlike same }
{}

/// Where a test tells identical values, the test value by value tells identical rows.
pub fn rows_have_identity<V>()
    ensures { (same : V → V → Bool) → IsIdentity same → RowsHaveIdentity same }
{}

/// Two tests that tell identical elements say the same of any two, so identical elements once and
/// classes are the same lists by both.
pub fn identities_agree<R, K, S>()
    ensures { (same alike : K → K → Bool) → IsIdentity same → IsIdentity alike
        → IdentitiesAgree R S same alike }
{}

/// GROUP BY: classes of one bag are one bag, where each class is a function of the bag of its
/// elements.
pub fn classes_alike<R, K, S>()
    ensures { (same : K → K → Bool) → IsIdentity same → ClassesAlike R S same }
{}

/// DISTINCT leaves no two identical rows, and the same rows as were there.
pub fn distinct_rows<V>()
    ensures { (same : V → V → Bool) → IsIdentity same → DistinctRows same }
{}

/// What a list of keys with their classes has to show: the keys are those of the elements, each
/// once.
pub fn classes_made<R, K, S>()
    ensures { (same : K → K → Bool) → IsIdentity same → ClassesMade R S same }
{}

/// What a hash table of groups has to show:
/// its keys differ, it has for the key of each element the part that the elements with that key
/// make, and nothing for other keys.
/// Then the rows made of its entries, in whatever order, are the classes.
pub fn entries_made<R, K, A, S>()
    ensures { (same : K → K → Bool) → IsIdentity same → EntriesMade R A S same }
{}
