//! The head of a note.

use jiff::Timestamp;
use line_queue::LogForm;
use std::fmt;

/// The time of a note and a blank; nothing in the form of the journal, which has the time.
#[derive(Clone, Copy)]
pub(crate) struct Stamp {
    form: LogForm,
    time: Timestamp,
}

impl Stamp {
    pub fn new(form: LogForm, time: Timestamp) -> Stamp {
        Stamp { form, time }
    }
}

impl fmt::Display for Stamp {
    fn fmt<W: fmt::Write>(&self, f: &mut fmt::Formatter<W>) -> fmt::Result {
        match self.form {
            LogForm::Plain => write!(f, "{} ", self.time),
            LogForm::Journal => Ok(()),
        }
    }
}
