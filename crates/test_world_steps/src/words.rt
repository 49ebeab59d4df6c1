//! Requests in lines.

use line_rates::{Ask, GroupRate, ShareBy, UserRate, Way};
use share_world::Event;

/// The request of a line.
#[derive(Clone, Copy)]
pub(crate) enum Line {
    /// `group NUMBER DOWN UP`: a group of the next world.
    Group(GroupRate),
    /// `user NUMBER GROUP DOWN UP SESSION_DOWN SESSION_UP FLOOR_DOWN FLOOR_UP`: a user of the next world; `-` for no
    /// group.
    User(UserRate),
    /// `world LANES SERVER DOWN UP`: a new world, with the groups and users before it. A last word `users` shares its
    /// line among users, and otherwise it is shared among sessions.
    World(u64, [u64; 3], ShareBy),
    /// `sit LANE`, `ask LANE USER SESSION WAY WANT`, `collect LANE`, `decide MOMENT`, `post LANE`, `take LANE`,
    /// `move LANE OCTETS`, `rise LANE`: an event.
    Event(Event),
    /// `run COUNT`: the events of this number of lines are performed as one run, and the answers printed then.
    Run(u64),
    /// `look`: prints the octets issued, and for each lane the octets moved and given back, and the amounts posted and
    /// taken.
    Look,
}

/// The remaining words of a line.
#[derive(Clone, Copy)]
struct Words<'a>(&'a str);

impl<'a> Words<'a> {
    fn word(&mut self) -> &'a str {
        match self.0.split_once(' ') {
            Some((word, rest)) => {
                self.0 = rest;
                word
            }
            None => {
                let word = self.0;
                self.0 = "";
                word
            }
        }
    }

    fn number(&mut self) -> Option<u64> {
        self.word().parse().ok()
    }

    fn lane(&mut self) -> Option<usize> {
        self.word().parse().ok()
    }

    fn small(&mut self) -> Option<u32> {
        self.word().parse().ok()
    }

    fn way(&mut self) -> Option<Way> {
        match self.word() {
            "down" => Some(Way::Down),
            "up" => Some(Way::Up),
            _ => None,
        }
    }

    fn share_by(&mut self) -> Option<ShareBy> {
        match self.word() {
            "" => Some(ShareBy::Sessions),
            "users" => Some(ShareBy::Users),
            _ => None,
        }
    }

    fn group(&mut self) -> Option<Option<u32>> {
        match self.word() {
            "-" => Some(None),
            word => Some(Some(word.parse().ok()?)),
        }
    }
}

fn ask(words: &mut Words<'_>) -> Option<Event> {
    let lane = words.lane()?;
    let user = words.small()?;
    let session = words.small()?;
    let way = words.way()?;
    let want = words.number()?;
    let ask = Ask {
        user,
        session,
        way,
        want,
    };
    Some(Event::Asked { lane, ask })
}

fn group(words: &mut Words<'_>) -> Option<GroupRate> {
    let group = words.small()?;
    let down = words.number()?;
    let up = words.number()?;
    Some(GroupRate { group, down, up })
}

fn user(words: &mut Words<'_>) -> Option<UserRate> {
    let user = words.small()?;
    let group = words.group()?;
    let down = words.number()?;
    let up = words.number()?;
    let session_down = words.number()?;
    let session_up = words.number()?;
    let session_down_floor = words.number()?;
    let session_up_floor = words.number()?;
    Some(UserRate {
        user,
        group,
        down,
        up,
        session_down,
        session_up,
        session_down_floor,
        session_up_floor,
    })
}

fn world(words: &mut Words<'_>) -> Option<Line> {
    let lanes = words.number()?;
    let server = words.number()?;
    let down = words.number()?;
    let up = words.number()?;
    let share_by = words.share_by()?;
    Some(Line::World(lanes, [server, down, up], share_by))
}

fn event(verb: &str, words: &mut Words<'_>) -> Option<Event> {
    if verb == "ask" {
        return ask(words);
    }
    if verb == "decide" {
        return Some(Event::Decide {
            moment: words.number()?,
        });
    }
    let lane = words.lane()?;
    match verb {
        "sit" => Some(Event::Sit { lane }),
        "collect" => Some(Event::Collect { lane }),
        "post" => Some(Event::Post { lane }),
        "take" => Some(Event::Taken { lane }),
        "move" => Some(Event::Moved {
            lane,
            octets: words.number()?,
        }),
        "rise" => Some(Event::Rise { lane }),
        _ => None,
    }
}

/// The request of a line, if the program knows it.
pub(crate) fn line_of(text: &str) -> Option<Line> {
    let mut words = Words(text);
    match words.word() {
        "group" => Some(Line::Group(group(&mut words)?)),
        "user" => Some(Line::User(user(&mut words)?)),
        "world" => world(&mut words),
        "run" => Some(Line::Run(words.number()?)),
        "look" => Some(Line::Look),
        verb => Some(Line::Event(event(verb, &mut words)?)),
    }
}
