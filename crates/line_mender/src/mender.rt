//! The state of the open line.

ghost use Rattle.std.specs.Prelude.{◌≡◌, ◌≤◌, length, take};
ghost use Rattle.line_mender.specs.Mended.{at_start, letter_at, line_after, after, is_stray, after_all, kept, is_cut, after_silence};

use std::marker::Model;

const LF: u8 = 10;

const CR: u8 = 13;

const DATA_MARK: u8 = 242;

const IAC: u8 = 255;

/// The count for an open line that is not the start of ABOR CR.
const OTHER: u8 = 6;

/// Takes a control text as it is read, and passes it on with the octets restored that were lost as urgent data.
#[derive(Drop)]
pub struct Mender {
    // the number of octets of ABOR CR in the open line, or 6 if it is another
    line: u8,
    behind_iac: bool,
    is_late: bool,
}

impl Model for Mender {
    ghost use Rattle.std.specs.Prelude.{◌≤◌};
    ghost use Rattle.line_mender.specs.Mended.{Open, open_code};

    ghost Value = { Open };

    ghost coded = { open_code };

    ghost view = { λ m. record { line = m.line; behind_iac = m.behind_iac; is_late = m.is_late } };

    ghost invariant = { λ m. m.line ≤ 6 };
}

fn letter_at(place: u8) -> u8
    ensures letter { result ≡ letter_at place }
{
    match place {
        0 => b'A',
        1 => b'B',
        2 => b'O',
        3 => b'R',
        _ => CR,
    }
}

fn line_after(line: u8, octet: u8) -> u8
    requires line { line ≤ 6 }
    ensures line { result ≡ line_after line octet }
    ensures most { result ≤ 6 }
{
    if octet == LF {
        0
    } else if octet >= 128 {
        line
    } else if line < 5 && octet.to_ascii_uppercase() == letter_at(line) {
        line + 1
    } else {
        OTHER
    }
}

impl Mender {
    /// A mender at the start of a line.
    pub fn new() -> Mender
        ensures start { result ≡ at_start }
    {
        Mender {
            line: 0,
            behind_iac: false,
            is_late: false,
        }
    }

    // Takes the next octet. Returns whether it is to be removed.
    fn take(&mut self, octet: u8) -> bool
        ensures stray { result ≡ is_stray self.old octet }
        ensures after { self.new ≡ after self.old octet }
    {
        let is_stray = self.is_late && octet == LF
            || octet == DATA_MARK && self.line == 0 && !self.behind_iac;
        *self = Mender {
            line: line_after(self.line, octet),
            behind_iac: octet == IAC,
            is_late: false,
        };
        is_stray
    }

    /// Takes the octets read, and moves those that are kept to the start of the buffer. Returns their number.
    pub fn mend(&mut self, buffer: &mut [u8]) -> usize
        ensures kept { take result buffer.new ≡ kept self.old buffer.old }
        ensures count { result ≤ length buffer.old }
        ensures same_length { length buffer.new ≡ length buffer.old }
        ensures after { self.new ≡ after_all self.old buffer.old }
    {
        let mut count = 0;
        for place in 0..buffer.len() {
            let octet = buffer[place];
            if !self.take(octet) {
                buffer[count] = octet;
                count += 1;
            }
        }
        count
    }

    /// Returns whether the open line is exactly ABOR and CR; a read that then returns nothing should be followed by
    /// `silence`.
    pub fn is_cut(&self) -> bool
        ensures cut { result ≡ is_cut self.now }
    {
        self.line == 5
    }

    /// Reports that nothing has come for a while. Returns whether an LF is to be passed on, which is if the open line
    /// is exactly ABOR and CR. If the LF itself comes next, it is removed.
    pub fn silence(&mut self) -> bool
        ensures cut { result ≡ is_cut self.old }
        ensures after { self.new ≡ after_silence self.old }
    {
        if !self.is_cut() {
            return false;
        }
        *self = Mender {
            line: 0,
            behind_iac: self.behind_iac,
            is_late: true,
        };
        true
    }
}
