//! The height of columns of one colour.

ghost use Rattle.sheet_commands.specs.Levels.{OneLimitIsLevel, OneLimitIsLevelForAUser};

/// Of wants that one limit holds back, none gets two octets more than another, unless it gets just its floor.
pub fn one_limit_is_level()
    ensures level { OneLimitIsLevel }
{}

/// Among users, of wants of one user that one limit holds back, none gets two octets more than another, unless it gets
/// just its floor.
pub fn one_limit_is_level_for_a_user()
    ensures level { OneLimitIsLevelForAUser }
{}
