//! The lines of one log, counted.

ghost use Rattle.std.specs.Prelude.{◌≡◌, [], IfSome};
ghost use Rattle.usage_report.specs.Looks.{IsLookOf, looked};

/// The lines of a log, and those that are not of the form.
#[derive(Clone, Copy, Debug, PartialEq, Eq)]
pub struct LogLook {
    /// The number of lines.
    pub lines: u64,
    /// The number of those that are not of the form of a transfer log.
    pub unread: u64,
    /// The number of the first of these, from 1.
    pub first_unread: Option<u64>,
}

impl LogLook {
    /// The look at a log before its first line.
    pub(crate) fn none() -> LogLook
        ensures none { IsLookOf result [] }
    {
        LogLook {
            lines: 0,
            unread: 0,
            first_unread: None,
        }
    }

    // The look after one more line, unless a number is not below 2^64.
    pub(crate) fn after(self, is_read: bool) -> Option<LogLook>
        ensures looked { IfSome result (λ after. after ≡ looked self is_read) }
    {
        let lines = self.lines.checked_add(1)?;
        if is_read {
            return Some(LogLook {
                lines,
                unread: self.unread,
                first_unread: self.first_unread,
            });
        }
        Some(LogLook {
            lines,
            unread: self.unread.checked_add(1)?,
            first_unread: Some(self.first_unread.unwrap_or(lines)),
        })
    }
}
