//! Settings of a session, by a type parameter.
//!
//! Settings contain fixed texts. A call that names their type cannot take a host that borrows several values.

ghost use Rattle.std.specs.Prelude.{◌≡◌};

use session_table::Settings;

/// A value that has the settings of a session.
pub trait GivesSettings {
    ghost use Rattle.session_table.specs.declared.settings.Settings.{Settings};
    ghost use Rattle.std.specs.declared.alloc.Global.{Global};

    ghost given: { Self → Settings Global };

    fn settings(self) -> Settings
        ensures settings { result ≡ given self };
}

impl GivesSettings for Settings {
    ghost given = { λ settings. settings };

    fn settings(self) -> Settings {
        self
    }
}
