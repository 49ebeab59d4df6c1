//! The calls that a list of actions asks for.

ghost use Rattle.handler_hooks.specs.Events.{AllLeave, Leaves, event_of};

use crate::hooks::Hooks;
use session_table::{Action, HookCall};
use std::alloc::Allocator;

/// Makes the call of one `Hook`.
pub fn report<H: Hooks, A: Allocator>(hooks: &mut H, call: &HookCall<A>)
    ensures reported { H.Reported hooks.old (event_of call.now) hooks.new }
{
    match call {
        HookCall::Connect => hooks.on_connect(),
        HookCall::Disconnect => hooks.on_disconnect(),
        HookCall::Login(name) => hooks.on_login(name.as_str()),
        HookCall::LoginFailed(name) => hooks.on_login_failed(name.as_str()),
        HookCall::Logout(name) => hooks.on_logout(name.as_str()),
        HookCall::FileSent(path) => hooks.on_file_sent(path.text()),
        HookCall::FileReceived(path) => hooks.on_file_received(path.text()),
        HookCall::IncompleteFileSent(path) => hooks.on_incomplete_file_sent(path.text()),
        HookCall::IncompleteFileReceived(path) => { hooks.on_incomplete_file_received(path.text()) }
    }
}

fn report_action<H: Hooks, A: Allocator, R, K>(hooks: &mut H, action: &Action<A, R, K>)
    ensures left { Leaves H.Reported hooks.old action.now hooks.new }
{
    match action {
        Action::Hook(call) => report(hooks, call),
        Action::Say(_)
        | Action::OpenPassive
        | Action::ConnectTo(_)
        | Action::DropData
        | Action::Start(_)
        | Action::Abort
        | Action::CloseControl
        | Action::ReleaseFloor(_) => {}
    }
}

/// Makes one call for each `Hook` among the actions, in their order, and no other.
pub fn run_hooks<H: Hooks, A: Allocator, R, K>(hooks: &mut H, actions: &[Action<A, R, K>])
    ensures left { AllLeave H.Reported hooks.old actions.now hooks.new }
{
    for action in actions {
        report_action(hooks, action);
    }
}
