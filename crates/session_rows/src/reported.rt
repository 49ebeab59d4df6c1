//! Lines over a data connection, or in the reply.

ghost use Rattle.std.specs.Prelude.{◌≡◌, [], ◌∷◌, IfOk, List, OnErr, map, ℕ};
ghost use Rattle.ftp_terms.specs.LineText.{text_of};
ghost use Rattle.session_rows.specs.Listed.{IsListed};
ghost use Rattle.session_table.specs.Plans.Plan.{Then};
ghost use Rattle.session_table.specs.Texts.{ended_lines};
ghost use Rattle.session_table.specs.TransferRows.{itself, sends_lines, status_lines};
ghost use Rattle.virtual_tree.specs.Calls.{entry_of};

use crate::lines::{line_of_file, lines_of, octets_of, push_line};
use crate::way::Way;
use authorizer::Authorizer;
use ftp_reply::{Reply, ReplyCode};
use ftp_terms::{LineText, Meta};
use session_state::{RowResult, State, push_reserved, with_room};
use session_table::{Action, Answer, Job, Notice, Octets, Style, TransferContent};
use std::alloc::Allocator;
use virtual_path::VPath;
use virtual_tree::ListedEntry;

/// Sends lines by their octets.
fn send_octets<A: Allocator + Clone, R: Drop, K: Drop>(
    state: &mut State<A>,
    octets: Octets<A>,
) -> RowResult<A, R, K>
    ensures row { (lines : List (List ℕ)) → octets ≡ ended_lines lines
        → IfOk result (λ actions. Then state.new actions.items ≡ sends_lines state.old lines) }
    ensures unchanged { OnErr result (state.new ≡ state.old) }
{
    let mut actions = with_room(state.alloc()?, 2)?;
    push_reserved(&mut actions, Action::Say(Answer::Notice(Notice::Opening)));
    push_reserved(&mut actions, Action::Start(Job::Text(octets)));
    state.begin(TransferContent::Listing);
    Ok(actions)
}

fn send_line<A: Allocator + Clone, R: Drop, K: Drop>(
    state: &mut State<A>,
    line: &LineText<A>,
) -> RowResult<A, R, K>
    ensures row { IfOk result (λ actions.
        Then state.new actions.items ≡ sends_lines state.old (text_of line.now ∷ [])) }
    ensures unchanged { OnErr result (state.new ≡ state.old) }
{
    let mut octets = Vec::new(state.alloc()?);
    push_line(&mut octets, line.as_str())?;
    send_octets(state, Octets::new(octets))
}

fn report_lines<A: Allocator + Clone, R: Drop, K: Drop>(
    state: &State<A>,
    lines: Vec<LineText<A>, A>,
) -> RowResult<A, R, K>
    ensures row { IfOk result (λ actions.
        Then state.now actions.items ≡ status_lines state.now (map text_of lines.items)) }
{
    let first = LineText::fixed("Status");
    let last = LineText::fixed("End");
    let reply = Reply::several_lines(ReplyCode::new(213), first, lines, last);
    state.reply(Answer::Made(reply))
}

fn report_line<A: Allocator + Clone, R: Drop, K: Drop>(
    state: &State<A>,
    line: LineText<A>,
) -> RowResult<A, R, K>
    ensures row { IfOk result (λ actions.
        Then state.now actions.items ≡ status_lines state.now (text_of line ∷ [])) }
{
    let mut lines = with_room(state.alloc()?, 1)?;
    push_reserved(&mut lines, line);
    report_lines(state, lines)
}

/// A directory's entries.
pub(crate) fn report_entries<A: Allocator + Clone, R: Drop, K: Drop>(
    state: &mut State<A>,
    users: &Authorizer<A>,
    above: &VPath<A>,
    style: Style,
    way: Way,
    entries: &[ListedEntry<A>],
) -> RowResult<A, R, K>
    ensures listed { IfOk result (λ actions. IsListed users.now.users state.old style way
        above.now (map entry_of entries.now) state.new actions.items) }
    ensures unchanged { OnErr result (state.new ≡ state.old) }
{
    match way {
        Way::OverData => {
            let octets = octets_of(state, users, above, style, entries)?;
            send_octets(state, octets)
        }
        Way::InReply => {
            let lines = lines_of(state, users, above, style, entries)?;
            report_lines(state, lines)
        }
    }
}

/// A file itself.
pub(crate) fn report_file<A: Allocator + Clone, R: Drop, K: Drop>(
    state: &mut State<A>,
    users: &Authorizer<A>,
    path: &VPath<A>,
    style: Style,
    way: Way,
    meta: &Meta,
) -> RowResult<A, R, K>
    ensures listed { IfOk result (λ actions. IsListed users.now.users state.old style way
        path.now (itself path.now meta.now) state.new actions.items) }
    ensures unchanged { OnErr result (state.new ≡ state.old) }
{
    let line = line_of_file(state, users, path, style, meta)?;
    match way {
        Way::OverData => send_line(state, &line),
        Way::InReply => report_line(state, line),
    }
}
