//! A world, its output, the rows of the next one, and the events of a run.

use crate::fault::Fault;
use crate::words::{Line, line_of};
use line_rates::{GroupRate, Limits, ShareBy, UserRate};
use share_world::{Event, EventAnswer, StepFault, World};
use std::alloc::{AllocError, Global};
use std::io::Write;
use std::mem;

#[derive(Drop)]
pub(crate) struct Room {
    alloc: Global,
    world: World,
    groups: Vec<GroupRate>,
    users: Vec<UserRate>,
    // the events of a run that has begun, and the number of those that are still to come
    events: Vec<Event>,
    left: u64,
}

fn limits(rates: [u64; 3], groups: Vec<GroupRate>, users: Vec<UserRate>) -> Result<Limits, Fault> {
    let [server, down, up] = rates;
    match Limits::of(server, down, up, groups, users) {
        Ok(limits) => Ok(limits),
        Err(_) => Err(Fault::Refused),
    }
}

fn report_answer<W: Write>(writer: &mut W, answer: EventAnswer) -> Result<(), Fault> {
    match answer {
        EventAnswer::Done => writeln!(writer, "done")?,
        EventAnswer::Got => writeln!(writer, "got")?,
        EventAnswer::Missed => writeln!(writer, "missed")?,
        EventAnswer::Decided { tick, total } => writeln!(writer, "decided {tick} {total}")?,
        EventAnswer::Posted(octets) => writeln!(writer, "posted {octets}")?,
        EventAnswer::Taken(octets) => writeln!(writer, "taken {octets}")?,
    }
    Ok(())
}

fn report_fault<W: Write>(writer: &mut W, fault: StepFault) -> Result<(), Fault> {
    match fault {
        StepFault::NotYet(last) => writeln!(writer, "NotYet {last}")?,
        fault => writeln!(writer, "{fault:?}")?,
    }
    Ok(())
}

fn report_reply<W: Write>(
    writer: &mut W,
    reply: Result<EventAnswer, StepFault>,
) -> Result<(), Fault> {
    match reply {
        Ok(answer) => report_answer(writer, answer),
        Err(fault) => report_fault(writer, fault),
    }
}

fn report_amounts<W: Write>(writer: &mut W, word: &str, amounts: &[u64]) -> Result<(), Fault> {
    write!(writer, " {word}")?;
    for octets in amounts {
        write!(writer, " {octets}")?;
    }
    Ok(())
}

fn report_world<W: Write>(writer: &mut W, world: &World) -> Result<(), Fault> {
    let issued = world.issued();
    writeln!(writer, "issued {issued}")?;
    for lane in 0..world.lanes() {
        let (moved, back) = (world.moved(lane), world.back(lane));
        write!(writer, "lane {lane} moved {moved} back {back}")?;
        report_amounts(writer, "posted", world.posted(lane))?;
        report_amounts(writer, "taken", world.taken(lane))?;
        writeln!(writer)?;
    }
    Ok(())
}

impl Room {
    /// A world without lanes and limits.
    pub fn new(alloc: Global) -> Result<Room, Fault> {
        let limits = limits([0, 0, 0], Vec::new(alloc), Vec::new(alloc))?;
        Ok(Room {
            alloc,
            world: World::new(alloc, 0, limits)?,
            groups: Vec::new(alloc),
            users: Vec::new(alloc),
            events: Vec::new(alloc),
            left: 0,
        })
    }

    /// Plays a line of standard input, and prints the result.
    pub fn play<W: Write>(&mut self, writer: &mut W, line: &[u8]) -> Result<(), Fault> {
        match str::from_utf8(line) {
            Ok(text) => self.follow(writer, line_of(text.trim_end()).ok_or(Fault::Word)?),
            Err(_) => Err(Fault::Word),
        }
    }

    fn follow<W: Write>(&mut self, writer: &mut W, line: Line) -> Result<(), Fault> {
        match line {
            Line::Group(row) => Ok(self.add_group(row)?),
            Line::User(row) => Ok(self.add_user(row)?),
            Line::World(lanes, rates, share_by) => self.begin(lanes, rates, share_by),
            Line::Event(event) => self.make(writer, event),
            Line::Run(count) => {
                self.left = count;
                Ok(())
            }
            Line::Look => report_world(writer, &self.world),
        }
    }

    fn add_group(&mut self, row: GroupRate) -> Result<(), AllocError> {
        self.groups.push(row)?;
        Ok(())
    }

    fn add_user(&mut self, row: UserRate) -> Result<(), AllocError> {
        self.users.push(row)?;
        Ok(())
    }

    fn add_event(&mut self, event: Event) -> Result<(), AllocError> {
        self.events.push(event)?;
        Ok(())
    }

    fn begin(&mut self, lanes: u64, rates: [u64; 3], share_by: ShareBy) -> Result<(), Fault> {
        let groups = mem::replace(&mut self.groups, Vec::new(self.alloc));
        let users = mem::replace(&mut self.users, Vec::new(self.alloc));
        let limits = limits(rates, groups, users)?.shared_by(share_by);
        self.world = World::new(self.alloc, lanes as usize, limits)?;
        Ok(())
    }

    fn make<W: Write>(&mut self, writer: &mut W, event: Event) -> Result<(), Fault> {
        match self.left.checked_sub(1) {
            None => report_reply(writer, self.world.step(event)),
            Some(left) => {
                self.add_event(event)?;
                self.left = left;
                if left == 0 { self.run(writer) } else { Ok(()) }
            }
        }
    }

    // Performs the events of a run.
    fn run<W: Write>(&mut self, writer: &mut W) -> Result<(), Fault> {
        let replies = self.world.run(&self.events)?;
        for reply in &replies {
            report_reply(writer, *reply)?;
        }
        self.events.clear();
        Ok(())
    }
}
