//! Laws of all users and of all lists of calls.

ghost use Rattle.authorizer.specs.Numbers.{NoNumberAgain, EachHasOwnNumber};
ghost use Rattle.authorizer.specs.Renumbered.{NumbersAreKept, NumbersStayOwn};
ghost use Rattle.authorizer.specs.Users.{AllowedByTheDeepest};

/// After any calls, no number of a user is used again, not even after its user was removed.
pub fn no_number_again()
    ensures again { NoNumberAgain }
{}

/// After any calls, each user has a number of its own.
pub fn each_has_own_number()
    ensures own { EachHasOwnNumber }
{}

/// A user may do something at a path exactly if the deepest override that covers the path has the
/// letter, or, if none covers it, the user's own letters have it.
pub fn allowed_by_the_deepest()
    ensures allowed { AllowedByTheDeepest }
{}

/// After `keep_numbers` a user of an earlier name has the earlier number, and each other user one that no earlier user
/// had; if each user had a number of its own in both, then each has one afterwards, and any other calls keep that.
pub fn numbers_are_kept()
    ensures kept { NumbersAreKept }
    ensures own { NumbersStayOwn }
{}
