//! The lines of a listing, one for each entry.

ghost use Rattle.std.specs.Prelude.{◌≡◌, ◌++◌, ◌∷◌, [], IfOk, OnOk, map};
ghost use Rattle.ftp_terms.specs.LineText.{text_of};
ghost use Rattle.ftp_terms.specs.Lines.{IsLine};
ghost use Rattle.session_rows.specs.Listed.{AreEnded};
ghost use Rattle.session_table.specs.Texts.{AreReported, IsReported};
ghost use Rattle.session_table.specs.TransferRows.{entry_reported, last_name, letters_by, letters_held};
ghost use Rattle.virtual_path.specs.Path.{child_of};
ghost use Rattle.virtual_tree.specs.Calls.{entry_of};

use authorizer::Authorizer;
use ftp_reply::{list_line, mlst_entry};
use ftp_terms::{Letters, LineText, Meta};
use session_state::State;
use session_table::{Octets, Style};
use std::alloc::{AllocError, Allocator};
use virtual_path::{PathFault, VPath};
use virtual_tree::ListedEntry;

/// All letters that the user has at a path; a removed user has none.
pub(crate) fn letters_held<A: Allocator + Clone>(
    state: &State<A>,
    users: &Authorizer<A>,
    path: &VPath<A>,
) -> Letters
    ensures letters { result ≡ letters_held users.now.users state.now.name path.now }
{
    users
        .letters_at(state.name(), path)
        .unwrap_or(Letters::NONE)
}

/// All letters that the user has at an entry; none if its path would be too long.
fn letters_of<A: Allocator + Clone>(
    state: &State<A>,
    users: &Authorizer<A>,
    above: &VPath<A>,
    name: &str,
) -> Result<Letters, AllocError>
    ensures letters { IfOk result (λ letters.
        letters ≡ letters_by users.now.users state.now.name (child_of above.now name.now)) }
{
    match above.child(state.alloc()?, name) {
        Ok(path) => Ok(letters_held(state, users, &path)),
        Err(fault) => match fault {
            PathFault::Memory => Err(AllocError),
            PathFault::BadName | PathFault::TooLong => Ok(Letters::NONE),
        },
    }
}

/// An entry's name alone.
fn name_line<A: Allocator>(alloc: A, name: &str) -> Result<LineText<A>, AllocError>
    requires line { IsLine name.now }
    ensures text { IfOk result (λ line. text_of line ≡ name.now) }
{
    let copy = String::from_str(alloc, name)?;
    Ok(LineText::made(copy))
}

/// The line of an entry.
fn entry_line<A: Allocator + Clone>(
    state: &State<A>,
    users: &Authorizer<A>,
    above: &VPath<A>,
    style: Style,
    name: &str,
    meta: &Meta,
) -> Result<LineText<A>, AllocError>
    requires line { IsLine name.now }
    ensures reported { IfOk result (λ line. IsReported
        (entry_reported users.now.users state.now above.now style (name.now, meta.now))
        (text_of line)) }
{
    match style {
        Style::LongLines => list_line(state.alloc()?, meta, name),
        Style::Names => name_line(state.alloc()?, name),
        Style::FactLines => {
            let letters = letters_of(state, users, above, name)?;
            mlst_entry(state.alloc()?, meta, state.facts(), letters, name)
        }
    }
}

/// The lines of a directory's entries, for a reply.
pub(crate) fn lines_of<A: Allocator + Clone>(
    state: &State<A>,
    users: &Authorizer<A>,
    above: &VPath<A>,
    style: Style,
    entries: &[ListedEntry<A>],
) -> Result<Vec<LineText<A>, A>, AllocError>
    ensures reported { IfOk result (λ lines. AreReported
        (map (entry_reported users.now.users state.now above.now style)
        (map entry_of entries.now))
        (map text_of lines.items)) }
{
    let mut lines = Vec::new(state.alloc()?);
    for entry in entries {
        let name = entry.name.as_str();
        let line = entry_line(state, users, above, style, name, &entry.meta)?;
        lines.push(line)?;
    }
    Ok(lines)
}

/// The octets of the lines of a directory's entries, each ended by CR LF.
pub(crate) fn octets_of<A: Allocator + Clone>(
    state: &State<A>,
    users: &Authorizer<A>,
    above: &VPath<A>,
    style: Style,
    entries: &[ListedEntry<A>],
) -> Result<Octets<A>, AllocError>
    ensures reported { IfOk result (λ octets. AreEnded
        (map (entry_reported users.now.users state.now above.now style) (map entry_of entries.now))
        octets) }
{
    let mut octets = Vec::new(state.alloc()?);
    for entry in entries {
        let name = entry.name.as_str();
        let line = entry_line(state, users, above, style, name, &entry.meta)?;
        push_line(&mut octets, line.as_str())?;
    }
    Ok(Octets::new(octets))
}

fn last_name<A: Allocator>(path: &VPath<A>) -> &str
    ensures name { result.now ≡ last_name path.now }
    ensures line { IsLine result.now }
{
    path.file_name().unwrap_or("")
}

/// The line of a file itself.
pub(crate) fn line_of_file<A: Allocator + Clone>(
    state: &State<A>,
    users: &Authorizer<A>,
    path: &VPath<A>,
    style: Style,
    meta: &Meta,
) -> Result<LineText<A>, AllocError>
    ensures reported { IfOk result (λ line. IsReported
        (entry_reported users.now.users state.now path.now style (last_name path.now, meta.now))
        (text_of line)) }
{
    let name = last_name(path);
    entry_line(state, users, path, style, name, meta)
}

/// Appends a line, ended by CR LF.
pub(crate) fn push_line<A: Allocator>(octets: &mut Vec<u8, A>, line: &str) -> Result<(), AllocError>
    ensures line { OnOk result (
        octets.new.items ≡ octets.old.items ++ (line.now ++ 13 ∷ 10 ∷ [])) }
{
    octets.extend_from_slice(line.as_bytes())?;
    octets.extend_from_slice(b"\r\n")
}
