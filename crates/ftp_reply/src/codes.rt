//! The codes of replies.

ghost use Rattle.std.specs.Prelude.{◌≡◌, ◌+◌, ◌/◌, ◌%◌, ◌≤◌};
ghost use Rattle.std.specs.Fmt.{decimal};
ghost use Rattle.ftp_reply.specs.declared.codes.TheConstants.{HIGHEST_CODE, LOWEST_CODE};

/// The lowest code of three digits whose first digit is 1.
pub const LOWEST_CODE: u16 = 100;

/// The highest code of three digits whose first digit is 5.
pub const HIGHEST_CODE: u16 = 599;

/// The code of a reply: a number of three digits, the first of them 1 to 5 (RFC 959, section 4.2).
#[derive(Clone, Copy, Debug, PartialEq, Eq)]
pub struct ReplyCode {
    pub number: u16,
    pub ghost low: { LOWEST_CODE ≤ number },
    pub ghost high: { number ≤ HIGHEST_CODE },
}

impl ReplyCode {
    /// The code with that number.
    pub fn new(number: u16) -> ReplyCode
        requires low { LOWEST_CODE ≤ number }
        requires high { number ≤ HIGHEST_CODE }
        ensures number { result.number ≡ number }
    {
        ReplyCode { number }
    }

    /// The three digits.
    pub(crate) fn digits(self) -> [u8; 3]
        ensures digits { result ≡ decimal self.number }
    {
        let code = self.number;
        [
            b'0' + (code / 100) as u8,
            b'0' + (code / 10 % 10) as u8,
            b'0' + (code % 10) as u8,
        ]
    }
}
