//! The words of what held a transfer back.

ghost use Rattle.std.specs.Prelude.{◌≡◌, ◌||◌, nat_lt};
ghost use Rattle.session_notes.specs.Courses.{all_of, held_of, held_text, lead_of, percent_of, way_of};

use round_tally::HeldTally;
use server_house::TransferKind;
use status_keeper::TransferCourse;
use std::fmt;

/// A second, in microseconds.
const SECOND: u64 = 1_000_000;

// The rounds of all kinds.
fn all_of(rounds: HeldTally) -> u128
    ensures all { result ≡ all_of rounds }
{
    u128::from(rounds.server)
        + u128::from(rounds.direction)
        + u128::from(rounds.group)
        + u128::from(rounds.user)
        + u128::from(rounds.session)
        + u128::from(rounds.nothing)
}

// A part of all rounds in per cent, rounded down.
fn percent_of(part: u64, all: u128) -> u128
    ensures percent { result ≡ percent_of part all }
{
    if all == 0 {
        return 0;
    }
    u128::from(part) * 100 / all
}

// The direction of a transfer's kind, after a blank.
fn way_of(kind: TransferKind) -> &'static str
    ensures way { result.now ≡ way_of kind }
{
    match kind {
        TransferKind::Received => " up",
        TransferKind::Sent | TransferKind::Listed => " down",
    }
}

// Some part is there: one of the limits further out, or this one's.
fn any(is_more: bool, percent: u128) -> bool
    ensures any { result ≡ (is_more || nat_lt 0 percent) }
{
    is_more || percent > 0
}

// The words before a part, if there are others before it, or none.
fn lead_of(is_more: bool) -> &'static str
    ensures lead { result.now ≡ lead_of is_more }
{
    if is_more { ", " } else { ", held by " }
}

/// A limit of nobody's, by the name that a plan gives it, and its part of the rounds in per cent. It prints as nothing for
/// a part of none.
#[derive(Clone, Copy)]
struct PlainPart {
    /// There are others before it.
    is_more: bool,
    kind: &'static str,
    /// The direction, after a blank; empty for both.
    way: &'static str,
    percent: u128,
}

impl fmt::Display for PlainPart {
    ghost use Rattle.session_notes.specs.Courses.{plain_part};

    ghost output = { plain_part };

    fn fmt<W: fmt::Write>(&self, f: &mut fmt::Formatter<W>) -> fmt::Result {
        if self.percent == 0 {
            return Ok(());
        }
        let (way, percent) = (self.way, self.percent);
        f.write_str(lead_of(self.is_more))?;
        f.write_str(self.kind)?;
        write!(f, "{way} {percent} %")
    }
}

/// The same of a limit that is a group's or a user's, with the name.
#[derive(Clone, Copy)]
struct NamedPart<'a> {
    /// There are others before it.
    is_more: bool,
    kind: &'static str,
    /// The group or the user; none for a user without a group, whose part is none.
    whose: Option<&'a str>,
    /// The direction, after a blank.
    way: &'static str,
    percent: u128,
}

impl fmt::Display for NamedPart<'_> {
    ghost use Rattle.session_notes.specs.Courses.{named_part};

    ghost output = { named_part };

    fn fmt<W: fmt::Write>(&self, f: &mut fmt::Formatter<W>) -> fmt::Result {
        if self.percent == 0 {
            return Ok(());
        }
        let (way, percent) = (self.way, self.percent);
        f.write_str(lead_of(self.is_more))?;
        f.write_str(self.kind)?;
        if let Some(whose) = self.whose {
            write!(f, " {whose:?}")?;
        }
        write!(f, "{way} {percent} %")
    }
}

// The part of a limit of nobody's.
fn plain(is_more: bool, kind: &'static str, way: &'static str, percent: u128) -> PlainPart
    ensures part { result ≡ record {
      is_more = is_more;
      kind = kind.entry;
      way = way.entry;
      percent = percent;
    } }
{
    PlainPart {
        is_more,
        kind,
        way,
        percent,
    }
}

/// A guarantee that was not met, and for how long. It prints as nothing below a second.
#[derive(Clone, Copy)]
struct UnmetText {
    guaranteed: u64,
    micros: u64,
}

impl fmt::Display for UnmetText {
    ghost use Rattle.session_notes.specs.Courses.{unmet_text};

    ghost output = { unmet_text };

    fn fmt<W: fmt::Write>(&self, f: &mut fmt::Formatter<W>) -> fmt::Result {
        if self.micros < SECOND {
            return Ok(());
        }
        let (guaranteed, seconds) = (self.guaranteed, self.micros / SECOND);
        write!(f, ", guarantee of {guaranteed} not met for {seconds} s")
    }
}

/// The part of each limit that held a transfer back, the outer one first.
#[derive(Clone, Copy)]
struct HeldText<'a> {
    server: PlainPart,
    direction: PlainPart,
    group: NamedPart<'a>,
    user: NamedPart<'a>,
    session: PlainPart,
    /// No limit: the rounds in which the client had all that it asked for.
    client: PlainPart,
}

impl fmt::Display for HeldText<'_> {
    ghost use Rattle.session_notes.specs.Courses.{held_text};

    ghost output = { held_text };

    fn fmt<W: fmt::Write>(&self, f: &mut fmt::Formatter<W>) -> fmt::Result {
        let (server, direction, session, client) = (
            self.server,
            self.direction,
            self.session,
            self.client,
        );
        let (group, user) = (self.group, self.user);
        write!(f, "{server}{direction}{group}{user}{session}{client}")
    }
}

/// The course of a transfer of a user: each limit that held it back, with its part of the rounds, and for how long its
/// guarantee was not met.
#[derive(Clone, Copy)]
pub(crate) struct CourseText<'a> {
    pub user: &'a str,
    pub kind: TransferKind,
    pub course: TransferCourse<'a>,
}

impl<'a> CourseText<'a> {
    // The parts of the limits.
    fn parts(self) -> HeldText<'a>
        ensures held { held_text result ≡ held_of self.entry }
    {
        let (way, rounds) = (way_of(self.kind), self.course.rounds);
        let all = all_of(rounds);
        let server = plain(false, "server", "", percent_of(rounds.server, all));
        let is_more = any(false, server.percent);
        let direction = plain(is_more, "server", way, percent_of(rounds.direction, all));
        let is_more = any(is_more, direction.percent);
        let group = NamedPart {
            is_more,
            kind: "group",
            whose: self.course.group,
            way,
            percent: percent_of(rounds.group, all),
        };
        let is_more = any(is_more, group.percent);
        let user = NamedPart {
            is_more,
            kind: "user",
            whose: Some(self.user),
            way,
            percent: percent_of(rounds.user, all),
        };
        let is_more = any(is_more, user.percent);
        let session = plain(is_more, "session", way, percent_of(rounds.session, all));
        let is_more = any(is_more, session.percent);
        let client = plain(is_more, "client", "", percent_of(rounds.nothing, all));
        HeldText {
            server,
            direction,
            group,
            user,
            session,
            client,
        }
    }
}

impl fmt::Display for CourseText<'_> {
    ghost use Rattle.session_notes.specs.Courses.{course_text};

    ghost output = { course_text };

    fn fmt<W: fmt::Write>(&self, f: &mut fmt::Formatter<W>) -> fmt::Result {
        let held = self.parts();
        let unmet = UnmetText {
            guaranteed: self.course.guaranteed,
            micros: self.course.unmet,
        };
        write!(f, "{held}{unmet}")
    }
}
