//! The texts that the tests use.

pub(crate) const LUNCH: &str = "limit / 10\nwant /a 10\nwant /b 10\nwant /c 10\n";

pub(crate) const LUNCH_LINES: &str =
    "/a 4 of 10 full /\n/b 3 of 10 full /\n/c 3 of 10 full /\ntotal 10\n";

pub(crate) const LUNCH_GRANTS: &str = "grant /a 4 /\ngrant /b 3 /\ngrant /c 3 /\n";

/// A sheet of two users by depth 1, of unlike many wants; its lines, and its grants.
pub(crate) const TWO_USERS: &str =
    "limit / 12\nwant /ann 100\nwant /bob/1 100\nwant /bob/2 100\nwant /bob/3 100\n";

pub(crate) const TWO_USERS_LINES: &str =
    "/ann 6 of 100 full /\n/bob/1 2 of 100 full /\n/bob/2 2 of 100 full /\n/bob/3 2 of 100 full /\ntotal 12\n";

pub(crate) const TWO_USERS_GRANTS: &str =
    "grant /ann 6\ngrant /bob/1 2\ngrant /bob/2 2\ngrant /bob/3 2\n";

/// A configuration of one user, and the same in version 2.
pub(crate) const SMALL: &str =
    "version = 1\n[server]\nroot = \"memory\"\npassive_last = 40001\npassive_first = 40000\n[[user]]\nname = \"ann\"\npassword = \"secret\"\nhome = \"/\"\n";

pub(crate) const MIGRATED: &str =
    "version = 2\n\n[server]\npassive_first = 40000\npassive_last = 40001\nroot = \"memory\"\n\n[[user]]\nhome = \"/\"\nname = \"ann\"\npassword = \"secret\"\n";

pub(crate) const LOGIN: &str = "USER ann\r\nPASS secret\r\nPWD\r\n";

/// The replies to that login.
pub(crate) const WELCOME: &str =
    "220 Ready\r\n331 Password required\r\n230 Welcome\r\n257 \"/\"\r\n";
