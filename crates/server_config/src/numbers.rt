//! The numbers of users: a law.

ghost use Rattle.server_config.specs.Numbers.{NumbersAgree};

/// Each user of a configuration has one number with the authorizer and in the limits: that of their place in the file.
pub fn numbers_agree()
    ensures agree { NumbersAgree }
{}
