//! The state of a session.

ghost use Rattle.std.specs.Prelude.{◌≡◌, IfOk};
ghost use Rattle.std.specs.Option.{option_copied};
ghost use Rattle.ftp_terms.specs.Lines.{IsLine};

use ftp_terms::{DataType, Facts};
use ftp_wire::HostPort;
use session_table::{Control, Passive, Settings, Stage, Text, Work};
use std::alloc::{AllocError, Allocator, Global};
use std::marker::Model;
use virtual_path::VPath;

/// The state of a session: the user, the stage, the parameters and the work in progress.
#[derive(Drop)]
pub struct State<A: Allocator = Global> {
    pub(crate) settings: Settings<A>,
    pub(crate) peer: [u8; 4],
    pub(crate) stage: Stage,
    pub(crate) control: Control,
    pub(crate) name: Text<A>,
    pub(crate) number: u32,
    pub(crate) attempts_left: u32,
    pub(crate) cwd: VPath<A>,
    pub(crate) data_type: DataType,
    pub(crate) offset: u64,
    pub(crate) facts: Facts,
    pub(crate) only_extended: bool,
    pub(crate) prepared: bool,
    pub(crate) source: Option<VPath<A>>,
    pub(crate) work: Work<VPath<A>>,
    pub(crate) alloc: A,
}

impl<A: Allocator> Model for State<A> {
    ghost use Rattle.ftp_terms.specs.LineText.{text_of};
    ghost use Rattle.session_table.specs.Views.{View};

    ghost Value = { View };

    ghost view = { λ state. record {
      banner = text_of state.settings.banner;
      permits_foreign_addresses = state.settings.permits_foreign_addresses;
      permits_privileged_ports = state.settings.permits_privileged_ports;
      address = state.settings.address;
      peer = state.peer;
      stage = state.stage;
      control = state.control;
      name = state.name;
      number = state.number;
      attempts_left = state.attempts_left;
      cwd = state.cwd;
      data_type = state.data_type;
      offset = state.offset;
      facts = state.facts;
      only_extended = state.only_extended;
      prepared = state.prepared;
      source = state.source;
      work = state.work;
    } };
}

impl<A: Allocator + Clone> State<A> {
    ghost use Rattle.session_table.specs.StateRows.{is_foreign, is_last_attempt, is_privileged};
    ghost use Rattle.session_table.specs.Views.{awaited, fresh, has_transfer, is_aborted, is_busy, is_inside, runs};

    /// The state of a new session of a client at this address.
    pub fn new(alloc: A, settings: Settings<A>, peer: [u8; 4]) -> Result<State<A>, AllocError>
        ensures fresh { IfOk result (λ state. state ≡ fresh settings peer) }
    {
        let name = Text::empty(alloc.clone()?);
        let cwd = VPath::root(alloc.clone()?);
        let attempts_left = settings.login_attempts;
        Ok(State {
            settings,
            peer,
            stage: Stage::Greeted,
            control: Control::Open,
            name,
            number: 0,
            attempts_left,
            cwd,
            data_type: DataType::Ascii,
            offset: 0,
            facts: Facts::ALL,
            only_extended: false,
            prepared: false,
            source: None,
            work: Work::Idle,
            alloc,
        })
    }

    /// A clone of the session's allocator.
    pub fn alloc(&self) -> Result<A, AllocError> {
        self.alloc.clone()
    }

    pub fn stage(&self) -> Stage
        ensures stage { result ≡ self.now.stage }
    {
        self.stage
    }

    pub fn is_inside(&self) -> bool
        ensures inside { result ≡ is_inside self.now.stage }
    {
        self.stage == Stage::Inside
    }

    pub fn control(&self) -> Control
        ensures control { result ≡ self.now.control }
    {
        self.control
    }

    /// The name in the last USER.
    pub fn name(&self) -> &str
        ensures name { result.now ≡ self.now.name }
    {
        self.name.as_str()
    }

    /// The user's number at the login.
    pub fn number(&self) -> u32
        ensures number { result ≡ self.now.number }
    {
        self.number
    }

    /// Returns whether the next wrong password is the last.
    pub fn is_last_attempt(&self) -> bool
        ensures last { result ≡ is_last_attempt self.now }
    {
        self.attempts_left <= 1
    }

    /// The text of the greeting.
    pub fn banner(&self) -> &str
        ensures banner { result.now ≡ self.now.banner }
        ensures line { IsLine result.now }
    {
        self.settings.banner.as_str()
    }

    /// The address in the reply to PASV.
    pub fn address(&self) -> [u8; 4]
        ensures address { result ≡ self.now.address }
    {
        self.settings.address
    }

    pub fn cwd(&self) -> &VPath<A>
        ensures cwd { result.now ≡ self.now.cwd }
    {
        &self.cwd
    }

    pub fn data_type(&self) -> DataType
        ensures data_type { result ≡ self.now.data_type }
    {
        self.data_type
    }

    /// The offset set by REST, in octets.
    pub fn offset(&self) -> u64
        ensures offset { result ≡ self.now.offset }
    {
        self.offset
    }

    /// The facts of a listing that are in force.
    pub fn facts(&self) -> Facts
        ensures facts { result ≡ self.now.facts }
    {
        self.facts
    }

    /// Returns whether EPSV ALL is in force.
    pub fn forbids_plain(&self) -> bool
        ensures only_extended { result ≡ self.now.only_extended }
    {
        self.only_extended
    }

    /// Returns whether a data connection is prepared.
    pub fn is_prepared(&self) -> bool
        ensures prepared { result ≡ self.now.prepared }
    {
        self.prepared
    }

    /// The store's path that RNFR named, if any.
    pub fn source(&self) -> Option<&VPath<A>>
        ensures source { option_copied result ≡ self.now.source }
    {
        self.source.as_ref()
    }

    /// The command that awaits a passive port, if any.
    pub fn awaited(&self) -> Option<Passive>
        ensures awaited { result ≡ awaited self.now.work }
    {
        match &self.work {
            Work::AwaitsPort(passive) => Some(*passive),
            Work::Idle | Work::Transfers(_) | Work::Aborted(_) => None,
        }
    }

    /// Returns whether a transfer runs, aborted or not, or a passive port is awaited.
    pub fn is_busy(&self) -> bool
        ensures busy { result ≡ is_busy self.now.work }
    {
        !matches!(&self.work, Work::Idle)
    }

    /// Returns whether an aborted transfer has not ended.
    pub fn is_aborted(&self) -> bool
        ensures aborted { result ≡ is_aborted self.now.work }
    {
        matches!(&self.work, Work::Aborted(_))
    }

    /// Returns whether a transfer has not ended, aborted or not.
    pub fn runs(&self) -> bool
        ensures runs { result ≡ runs self.now.work }
    {
        matches!(&self.work, Work::Transfers(_) | Work::Aborted(_))
    }

    /// Returns whether a transfer runs and is not aborted.
    pub fn has_transfer(&self) -> bool
        ensures transfer { result ≡ has_transfer self.now.work }
    {
        matches!(&self.work, Work::Transfers(_))
    }

    /// Returns whether the address is another host than the client's and the settings forbid that.
    pub fn is_foreign(&self, to: HostPort) -> bool
        ensures foreign { result ≡ is_foreign self.now to }
    {
        to.address.as_slice() != self.peer.as_slice() && !self.settings.permits_foreign_addresses
    }

    /// Returns whether the port is 0, or below 1024 and the settings forbid that.
    pub fn is_privileged(&self, to: HostPort) -> bool
        ensures privileged { result ≡ is_privileged self.now to }
    {
        to.port == 0 || (to.port < 1024 && !self.settings.permits_privileged_ports)
    }
}
