//! Laws of all backed grants.

ghost use Rattle.grant_certificate.specs.UserLaws.{BackedByUsersIsBest, UsersHaveLargestAtEachLevel, OneLeafEachIsBest};
ghost use Rattle.grant_certificate.specs.Equals.{EqualsAreNear};
ghost use Rattle.grant_certificate.specs.TwoStages.{DeepestIsBacked, TwoStagesAreBacked};
ghost use Rattle.grant_certificate.specs.Laws.{BackedIsLargestAtEachLevel, BackedIsBest, EachHasAscending, PlainBackedIsLargestAtEachLevel, PlainBackedIsBest};

/// For backed grants, the sum of what each leaf has up to a level is the largest possible, at every
/// level.
pub fn backed_is_largest_at_each_level()
    ensures largest { BackedIsLargestAtEachLevel }
{}

/// Backed grants are best.
pub fn backed_is_best()
    ensures best { BackedIsBest }
{}

/// Every list of grants can be sorted upwards, so best grants are compared with all grants within the
/// limits.
pub fn each_has_ascending()
    ensures ascending { EachHasAscending }
{}

/// The law of the largest sum at every level, without floors.
pub fn plain_backed_is_largest_at_each_level()
    ensures largest { PlainBackedIsLargestAtEachLevel }
{}

/// Backed grants are best, without floors.
pub fn plain_backed_is_best()
    ensures best { PlainBackedIsBest }
{}

/// Grants that are backed among users are best by users.
pub fn backed_by_users_is_best()
    ensures best { BackedByUsersIsBest }
{}

/// For grants backed among users, the sum of what each user has up to a level is the largest possible, at every level.
pub fn users_have_largest_at_each_level()
    ensures largest { UsersHaveLargestAtEachLevel }
{}

/// If each leaf is a user of its own, best by users means best.
pub fn one_leaf_each_is_best()
    ensures best { OneLeafEachIsBest }
{}

/// Totals that are best in a tree over the users, and then grants that are best within those totals, are backed among
/// users.
pub fn two_stages_are_backed()
    ensures backed { TwoStagesAreBacked }
{}

/// If some certificate backs grants among users, so does that of the deepest full branches.
pub fn deepest_is_backed()
    ensures backed { DeepestIsBacked }
{}

/// In best grants, an unmet leaf has at most one octet less than another leaf under the same limits, unless that has its
/// floor.
pub fn equals_are_near()
    ensures near { EqualsAreNear }
{}
