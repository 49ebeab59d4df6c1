//! Removes Telnet commands from a stream, octet by octet (RFC 854).

ghost use Rattle.std.specs.Prelude.{◌++◌, ◌∷◌, [], ℕ, List, option_to_list};
ghost use Rattle.ftp_wire.specs.Stages.{StripsTo};

const IAC: u8 = 255;

const SB: u8 = 250;

const SE: u8 = 240;

/// The position of the stream within a Telnet command. Nothing of a subnegotiation is stored.
#[derive(Clone, Copy)]
pub(crate) enum Stage {
    /// Outside any command.
    Text,
    /// After IAC.
    Command,
    /// After IAC and WILL, WONT, DO or DONT.
    Option,
    /// In a subnegotiation.
    Inside,
    /// In a subnegotiation, after IAC.
    InsideCommand,
}

impl Stage {
    pub fn new() -> Stage
        ensures start { StripsTo [] [] result }
    {
        Stage::Text
    }

    /// Reads the next octet, and returns it if it is kept.
    pub fn step(&mut self, octet: u8) -> Option<u8>
        ensures strips { (octets text : List ℕ) → StripsTo octets text self.old
            → StripsTo (octets ++ octet ∷ []) (text ++ option_to_list result) self.new }
    {
        let (next, kept) = match *self {
            Stage::Text => from_text(octet),
            Stage::Command => from_command(octet),
            Stage::Option => (Stage::Text, None),
            Stage::Inside => (from_inside(octet), None),
            Stage::InsideCommand => (from_inside_command(octet), None),
        };
        *self = next;
        kept
    }
}

fn from_text(octet: u8) -> (Stage, Option<u8>)
    ensures strips { (octets text : List ℕ) → StripsTo octets text Stage.Text
        → StripsTo (octets ++ octet ∷ []) (text ++ option_to_list result.1) result.0 }
{
    if octet == IAC {
        (Stage::Command, None)
    } else {
        (Stage::Text, Some(octet))
    }
}

fn from_command(octet: u8) -> (Stage, Option<u8>)
    ensures strips { (octets text : List ℕ) → StripsTo octets text Stage.Command
        → StripsTo (octets ++ octet ∷ []) (text ++ option_to_list result.1) result.0 }
{
    if octet < SE || octet == IAC {
        (Stage::Text, Some(octet))
    } else if octet < SB {
        (Stage::Text, None)
    } else if octet == SB {
        (Stage::Inside, None)
    } else {
        (Stage::Option, None)
    }
}

fn from_inside(octet: u8) -> Stage
    ensures strips { (octets text : List ℕ) → StripsTo octets text Stage.Inside
        → StripsTo (octets ++ octet ∷ []) text result }
{
    if octet == IAC {
        Stage::InsideCommand
    } else {
        Stage::Inside
    }
}

fn from_inside_command(octet: u8) -> Stage
    ensures strips { (octets text : List ℕ) → StripsTo octets text Stage.InsideCommand
        → StripsTo (octets ++ octet ∷ []) text result }
{
    if octet == SE {
        Stage::Text
    } else {
        Stage::Inside
    }
}
