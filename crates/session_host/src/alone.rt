//! A control session on a host of its own.

ghost use Rattle.std.specs.Prelude.{◌≡◌, IfErr};
ghost use Rattle.std.specs.declared.alloc.Global.{Global};
ghost use Rattle.control_session.specs.Floors.{HasFloors};
ghost use Rattle.control_session.specs.Rows.{IsRow};
ghost use Rattle.control_session.specs.Sessions.{IsServed, new_session};
ghost use Rattle.rate_floors.specs.Promises.{Promises};
ghost use Rattle.session_host.specs.Breaks.{IsBreak, MayBreakReading, MayBreakWriting};
ghost use Rattle.session_host.specs.Alone.{AloneDoes, SameLent, parts};
ghost use Rattle.session_host.specs.Reported.{IsReported};

use crate::given::GivesSettings;
use crate::host::SoleHost;
use control_session::{ControlFault, DataSide, Host, Moments, run_control};
use handler_hooks::Hooks;
use std::alloc::{Allocator, Global};
use text_io::{TextReader, TextWriter};
use virtual_tree::Store;

/// Runs the session on any host.
fn run_on<H: Host<Global>, T: GivesSettings>(
    alloc: &Global,
    host: &mut H,
    settings: T,
    peer: [u8; 4],
    turns: u32,
) -> Result<(), ControlFault>
    ensures whole { IsServed (IsRow {A = Global} {R = H.Source} H.Step) H.Does
        turns result (new_session (T.given settings) peer) host.old host.new }
    ensures floors { (floors : H → Promises) → HasFloors H.Does floors
        → floors host.new ≡ floors host.old }
{
    run_control(alloc, host, settings.settings(), peer, turns)
}

/// Serves a whole control session of a client at this address, on a host of its own, as in `run_control`.
///
/// However it ends, the floors are unchanged.
pub fn run_alone<
    'u,
    's,
    'f,
    'c,
    'd,
    'r,
    'w,
    'h,
    S: Store<Global>,
    F: Allocator + Clone,
    C: Moments,
    D: DataSide<Global, S::Source, S::Sink>,
    R: TextReader,
    W: TextWriter,
    H: Hooks,
    T: GivesSettings,
>(
    alloc: &Global,
    host: &mut SoleHost<'u, 's, 'f, 'c, 'd, 'r, 'w, 'h, S, F, C, D, R, W, H>,
    settings: T,
    peer: [u8; 4],
    turns: u32,
) -> Result<(), ControlFault>
    ensures whole { IsServed (IsRow S.Step)
        (AloneDoes host.old.users.now.users C.Gives D.Asks H.Reported R.remaining R.may_fail W.contents
        W.may_refuse)
        turns result (new_session (T.given settings) peer) (parts host.old) (parts host.new) }
    ensures reported { IsReported (IsRow S.Step host.old.users.now.users)
        C.Gives D.Asks H.Reported R.remaining W.contents
        result (new_session (T.given settings) peer) (parts host.old) (parts host.new) }
    ensures breaks { IfErr result (IsBreak
        (MayBreakReading turns (R.may_fail host.old.reader.now) (R.remaining host.old.reader.now))
        (MayBreakWriting W.contents W.may_refuse host.old.writer.now)) }
    ensures floors { host.new.floors.now ≡ host.old.floors.now }
    ensures same { SameLent host.old host.new }
{
    run_on(alloc, host, settings, peer, turns)
}
