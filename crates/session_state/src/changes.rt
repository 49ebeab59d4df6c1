//! The changes of the state of a session.

ghost use Rattle.std.specs.Prelude.{◌≡◌, ◌-◌, [], Some, None, MatchOption, false, true};

use crate::state::State;
use ftp_terms::{DataType, Facts};
use session_table::{Control, Passive, Stage, Text, TransferContent, Work};
use std::alloc::Allocator;
use std::mem;
use virtual_path::VPath;

impl<A: Allocator> State<A> {
    ghost use Rattle.session_table.specs.Views.{aborted, anew, running};
    ghost use Rattle.session_table.specs.declared.stages.Work.TheVariants.{AwaitsPort, Idle, Transfers};
    ghost use Rattle.session_table.specs.declared.stages.Control.TheVariants.{Closing, Quitting};
    ghost use Rattle.session_table.specs.declared.stages.Stage.TheVariants.{Closed, Greeted, Inside};

    /// Resets all parameters to those of a new client. Returns the previous user name.
    pub fn begin_anew(&mut self, root: VPath<A>, name: Text<A>, stage: Stage) -> Text<A>
        requires root { root ≡ [] }
        ensures anew { self.new ≡ record (anew self.old) { stage = stage; name = name } }
        ensures name { result ≡ self.old.name }
    {
        self.stage = stage;
        self.cwd = root;
        self.data_type = DataType::Ascii;
        self.offset = 0;
        self.facts = Facts {
            kind: true,
            size: true,
            modify: true,
            perm: true,
        };
        self.only_extended = false;
        self.prepared = false;
        mem::replace(&mut self.name, name)
    }

    /// Logs the user with this number in.
    pub fn log_in(&mut self, number: u32)
        ensures inside { self.new ≡ record self.old { stage = Inside; number = number } }
    {
        self.stage = Stage::Inside;
        self.number = number;
    }

    /// Marks the control connection for closing and forgets the user. Returns the previous user name.
    pub fn log_out(&mut self, empty: Text<A>) -> Text<A>
        requires empty { empty ≡ [] }
        ensures out { self.new
            ≡ record self.old { stage = Greeted; name = []; control = Closing } }
        ensures name { result ≡ self.old.name }
    {
        self.stage = Stage::Greeted;
        self.control = Control::Closing;
        mem::replace(&mut self.name, empty)
    }

    /// Notes a QUIT that waits for the end of the work in progress.
    pub fn await_quit(&mut self)
        ensures quitting { self.new ≡ record self.old { control = Quitting } }
    {
        self.control = Control::Quitting;
    }

    /// Marks the control connection as gone. Returns the previous user name.
    pub fn disconnect(&mut self, empty: Text<A>) -> Text<A>
        requires empty { empty ≡ [] }
        ensures closed { self.new ≡ record self.old { stage = Closed; name = [] } }
        ensures name { result ≡ self.old.name }
    {
        self.stage = Stage::Closed;
        mem::replace(&mut self.name, empty)
    }

    /// Marks the control connection for closing.
    pub fn close_control(&mut self)
        ensures closing { self.new ≡ record self.old { control = Closing } }
    {
        self.control = Control::Closing;
    }

    /// Takes the last login attempt, and marks the control connection for closing.
    pub fn lose_last_attempt(&mut self)
        ensures lost { self.new ≡ record self.old { attempts_left = 0; control = Closing } }
    {
        self.attempts_left = 0;
        self.control = Control::Closing;
    }

    /// Takes one login attempt, not the last.
    pub fn lose_attempt(&mut self)
        ensures lost { self.new
            ≡ record self.old { attempts_left = self.old.attempts_left - 1; stage = Greeted } }
    {
        self.attempts_left = self.attempts_left.saturating_sub(1);
        self.stage = Stage::Greeted;
    }

    pub fn change_directory(&mut self, path: VPath<A>)
        ensures cwd { self.new ≡ record self.old { cwd = path } }
    {
        self.cwd = path;
    }

    /// Sets the data type, and the offset to 0.
    pub fn set_data_type(&mut self, data_type: DataType)
        ensures data_type { self.new ≡ record self.old { data_type = data_type; offset = 0 } }
    {
        self.data_type = data_type;
        self.offset = 0;
    }

    pub fn set_offset(&mut self, offset: u64)
        ensures offset { self.new ≡ record self.old { offset = offset } }
    {
        self.offset = offset;
    }

    pub fn set_facts(&mut self, facts: Facts)
        ensures facts { self.new ≡ record self.old { facts = facts } }
    {
        self.facts = facts;
    }

    /// Puts EPSV ALL in force (RFC 2428, section 4).
    pub fn forbid_plain(&mut self)
        ensures only_extended { self.new ≡ record self.old { only_extended = true } }
    {
        self.only_extended = true;
    }

    /// Notes a prepared data connection.
    pub fn prepare(&mut self)
        ensures prepared { self.new ≡ record self.old { prepared = true } }
    {
        self.prepared = true;
    }

    /// Awaits a passive port, and forgets a prepared data connection.
    pub fn await_port(&mut self, passive: Passive)
        ensures awaited { self.new
            ≡ record self.old { prepared = false; work = AwaitsPort passive } }
    {
        self.prepared = false;
        self.work = Work::AwaitsPort(passive);
    }

    /// Begins a transfer, which uses up the prepared data connection.
    pub fn begin(&mut self, content: TransferContent<VPath<A>>)
        ensures begun { self.new
            ≡ record self.old { prepared = false; work = Transfers content } }
    {
        self.prepared = false;
        self.work = Work::Transfers(content);
    }

    /// Aborts a running transfer; its end is still to come.
    pub fn abort(&mut self)
        ensures aborted { self.new ≡ record self.old { work = aborted self.old.work } }
    {
        self.work = match mem::replace(&mut self.work, Work::Idle) {
            Work::Transfers(content) => Work::Aborted(content),
            other => other,
        };
    }

    /// Ends the wait for a passive port.
    pub fn end_waiting(&mut self)
        ensures ended { self.new ≡ record self.old { work = Idle } }
    {
        self.work = Work::Idle;
    }

    /// Ends a transfer, aborted or not. Returns its content; None if no transfer runs.
    pub fn end_transfer(&mut self) -> Option<TransferContent<VPath<A>>>
        ensures content { result ≡ running self.old.work }
        ensures ended { MatchOption result
            (self.new ≡ self.old)
            (λ content. self.new ≡ record self.old { work = Idle }) }
    {
        match mem::replace(&mut self.work, Work::Idle) {
            Work::Transfers(content) | Work::Aborted(content) => Some(content),
            Work::AwaitsPort(passive) => {
                self.work = Work::AwaitsPort(passive);
                None
            }
            Work::Idle => None,
        }
    }

    /// Keeps the store's path of a file or directory to rename.
    pub fn keep_source(&mut self, source: VPath<A>)
        ensures source { self.new ≡ record self.old { source = Some source } }
    {
        self.source = Some(source);
    }

    /// Forgets the path that RNFR named.
    pub fn forget_source(&mut self)
        ensures source { self.new ≡ record self.old { source = None } }
    {
        self.source = None;
    }
}
