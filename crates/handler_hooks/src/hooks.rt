//! The callbacks of a handler.

ghost use Rattle.handler_hooks.specs.Events.{Event};
ghost use Rattle.handler_hooks.specs.Events.Event.{Connected, Disconnected, LoggedIn, LoginFailed, LoggedOut, FileSent, FileReceived, FileNotSent, FileNotReceived};

/// Callbacks for the events of a server's sessions.
///
/// `Reported` is the effect of one call on the handler. Each handler defines its own, so the proofs about the calls apply
/// to every handler. The session waits for a callback: it may note, count or report to others, and must not take long.
/// It cannot refuse what has happened.
pub trait Hooks: Drop {
    /// The effect of one event on the handler.
    ghost Reported: { Self → Event → Self → Type 0 };

    /// A client has connected, and was greeted.
    fn on_connect(&mut self)
        ensures { Reported self.old Connected self.new };

    /// The control connection is gone. This is the last call of a session.
    fn on_disconnect(&mut self)
        ensures { Reported self.old Disconnected self.new };

    /// A user has logged in.
    fn on_login(&mut self, user: &str)
        ensures { Reported self.old (LoggedIn user.now) self.new };

    /// A wrong password was given for a name, which may be no user's.
    fn on_login_failed(&mut self, user: &str)
        ensures { Reported self.old (LoginFailed user.now) self.new };

    /// A user has left: by QUIT, REIN or another USER, or because the connection is gone.
    fn on_logout(&mut self, user: &str)
        ensures { Reported self.old (LoggedOut user.now) self.new };

    /// A file was sent whole, by RETR. The path is the user's.
    fn on_file_sent(&mut self, path: &str)
        ensures { Reported self.old (FileSent path.now) self.new };

    /// A file was received whole, by STOR or APPE. The reply to the client says whether the store took it.
    fn on_file_received(&mut self, path: &str)
        ensures { Reported self.old (FileReceived path.now) self.new };

    /// A transfer by RETR ended before the file was sent whole.
    fn on_incomplete_file_sent(&mut self, path: &str)
        ensures { Reported self.old (FileNotSent path.now) self.new };

    /// A transfer by STOR or APPE ended before the file was received whole.
    fn on_incomplete_file_received(&mut self, path: &str)
        ensures { Reported self.old (FileNotReceived path.now) self.new };
}
