//! A handler without effect.

use handler_hooks::Hooks;

/// A handler that does nothing.
#[derive(Clone, Copy, Debug)]
pub struct Silent;

impl Hooks for Silent {
    ghost use Rattle.session_host.specs.Silent.{StaysSilent};

    ghost Reported = { StaysSilent };

    fn on_connect(&mut self) {}

    fn on_disconnect(&mut self) {}

    fn on_login(&mut self, _user: &str) {}

    fn on_login_failed(&mut self, _user: &str) {}

    fn on_logout(&mut self, _user: &str) {}

    fn on_file_sent(&mut self, _path: &str) {}

    fn on_file_received(&mut self, _path: &str) {}

    fn on_incomplete_file_sent(&mut self, _path: &str) {}

    fn on_incomplete_file_received(&mut self, _path: &str) {}
}
