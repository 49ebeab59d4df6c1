//! The lines of listings.

ghost use Rattle.std.specs.Prelude.{◌≡◌, ◌≤◌, [], IfOk, ◌&&◌, if◌then◌else◌, codes};
ghost use Rattle.std.specs.Fmt.{decimal};
ghost use Rattle.std.specs.String.{string_bytes};
ghost use Rattle.ftp_terms.specs.LineText.{text_of};
ghost use Rattle.ftp_terms.specs.Lines.{IsLine};
ghost use Rattle.ftp_reply.specs.Determined.{EntriesHaveOneText, LinesHaveOneText, MomentsHaveOneText};
ghost use Rattle.ftp_reply.specs.Listings as Listings;
ghost use Rattle.ftp_reply.specs.Listings.{IsListLine, IsMlstEntry, directory_perms, fact, file_perms, has_size, mode_text, perms, type_name};
ghost use Rattle.ftp_reply.specs.Written.{Appends};

use crate::dates::{date_of, digits_text, mdtm_text, year_of};
use ftp_terms::{EntryKind, Facts, Letters, LineText, Meta};
use std::alloc::{AllocError, Allocator};
use std::fmt::Write;

/// A line of a listing in the style of `ls -l`, without the end of the line:
/// `-rw-r--r-- 1 ftp ftp          120 Feb 29  2000 a.txt`. The size is right-aligned in 12 columns,
/// and takes more if it has more digits. Returns `Err` if memory runs out.
pub fn list_line<A: Allocator>(
    alloc: A,
    entry: &Meta,
    name: &str,
) -> Result<LineText<A>, AllocError>
    requires line { IsLine name.now }
    ensures text { IfOk result (λ line. IsListLine entry.now name.now (text_of line)) }
{
    let text = list_text(alloc, entry, name)?;
    Ok(LineText::made(text))
}

fn list_text<A: Allocator>(alloc: A, entry: &Meta, name: &str) -> Result<String<A>, AllocError>
    ensures text { IfOk result (λ text. IsListLine entry.now name.now (string_bytes text)) }
{
    let date = date_of(entry.modified);
    let mode = mode_text(entry.kind);
    let size = listed_size(entry);
    let month = month_name(date.month);
    let day = date.day;
    let year = year_of(date);
    let text = format!(in alloc; "{mode} 1 ftp ftp {size:>12} {month} {day:>2}  {year:04} {name}")?;
    Ok(text)
}

/// A law: a moment has one text, an entry under a name has one line, and an entry with its facts, letters
/// and path has one text, since each day has one date.
pub fn listings_have_one_text()
    ensures moments { MomentsHaveOneText }
    ensures lines { LinesHaveOneText }
    ensures entries { EntriesHaveOneText }
{}

fn mode_text(kind: EntryKind) -> &'static str
    ensures text { result.now ≡ mode_text kind }
{
    match kind {
        EntryKind::Directory => "drwxr-xr-x",
        EntryKind::File => "-rw-r--r--",
    }
}

fn listed_size(entry: &Meta) -> u64
    ensures size { result ≡ Listings.listed_size entry.now.kind entry.now.size }
{
    match entry.kind {
        EntryKind::Directory => 0,
        EntryKind::File => entry.size,
    }
}

fn month_name(month: u8) -> &'static str
    requires low { 1 ≤ month }
    requires high { month ≤ 12 }
    ensures name { result.now ≡ Listings.month_name month }
{
    match month {
        1 => "Jan",
        2 => "Feb",
        3 => "Mar",
        4 => "Apr",
        5 => "May",
        6 => "Jun",
        7 => "Jul",
        8 => "Aug",
        9 => "Sep",
        10 => "Oct",
        11 => "Nov",
        _ => "Dec",
    }
}

/// An entry of MLST and MLSD, without the end of the line (RFC 3659, section 7.2): each enabled fact
/// as `name=value;` in the order type, size, modify, perm, then a space and the path. Returns `Err`
/// if memory runs out.
pub fn mlst_entry<A: Allocator>(
    alloc: A,
    entry: &Meta,
    facts: Facts,
    letters: Letters,
    path: &str,
) -> Result<LineText<A>, AllocError>
    requires line { IsLine path.now }
    ensures text { IfOk result
        (λ line. IsMlstEntry entry.now facts letters path.now (text_of line)) }
{
    let text = entry_text(alloc, entry, facts, letters, path)?;
    Ok(LineText::made(text))
}

fn entry_text<A: Allocator>(
    alloc: A,
    entry: &Meta,
    facts: Facts,
    letters: Letters,
    path: &str,
) -> Result<String<A>, AllocError>
    ensures text { IfOk result
        (λ text. IsMlstEntry entry.now facts letters path.now (string_bytes text)) }
{
    let time = mdtm_text(entry.modified);
    let mut text = String::new(alloc);
    push_fact(&mut text, facts.kind, "type", type_name(entry.kind))?;
    push_size(&mut text, facts.size, entry)?;
    push_fact(&mut text, facts.modify, "modify", digits_text(&time))?;
    push_perm(&mut text, facts.perm, entry.kind, letters)?;
    text.push_str(" ")?;
    text.push_str(path)?;
    Ok(text)
}

fn type_name(kind: EntryKind) -> &'static str
    ensures name { result.now ≡ type_name kind }
{
    match kind {
        EntryKind::Directory => "dir",
        EntryKind::File => "file",
    }
}

/// Appends the text if it is enabled.
fn push_if<A: Allocator>(text: &mut String<A>, in_force: bool, part: &str) -> Result<(), AllocError>
    ensures appended { Appends result text.old text.new (if in_force then part.now else []) }
{
    if in_force {
        text.push_str(part)?;
    }
    Ok(())
}

/// Appends the fact if it is enabled.
fn push_fact<A: Allocator>(
    text: &mut String<A>,
    in_force: bool,
    name: &str,
    value: &str,
) -> Result<(), AllocError>
    ensures appended { Appends result text.old text.new
        (if in_force then fact name.now value.now else []) }
{
    push_if(text, in_force, name)?;
    push_if(text, in_force, "=")?;
    push_if(text, in_force, value)?;
    push_if(text, in_force, ";")
}

fn has_size(kind: EntryKind) -> bool
    ensures size { result ≡ has_size kind }
{
    kind == EntryKind::File
}

/// Appends the fact of a file's size if it is enabled.
fn push_size<A: Allocator>(
    text: &mut String<A>,
    in_force: bool,
    entry: &Meta,
) -> Result<(), AllocError>
    ensures appended { Appends result text.old text.new
        (if in_force && has_size entry.now.kind
        then fact (codes "size") (decimal entry.now.size) else []) }
{
    if in_force && has_size(entry.kind) {
        let size = entry.size;
        write!(text, "size={size};")?;
    }
    Ok(())
}

fn push_perm<A: Allocator>(
    text: &mut String<A>,
    in_force: bool,
    kind: EntryKind,
    letters: Letters,
) -> Result<(), AllocError>
    ensures appended { Appends result text.old text.new
        (if in_force then fact (codes "perm") (perms kind letters) else []) }
{
    if !in_force {
        return Ok(());
    }
    text.push_str("perm=")?;
    match kind {
        EntryKind::Directory => push_directory_perms(text, letters)?,
        EntryKind::File => push_file_perms(text, letters)?,
    }
    text.push_str(";")
}

fn push_directory_perms<A: Allocator>(
    text: &mut String<A>,
    letters: Letters,
) -> Result<(), AllocError>
    ensures appended { Appends result text.old text.new (directory_perms letters) }
{
    push_if(text, letters.store, "c")?;
    push_if(text, letters.delete, "d")?;
    push_if(text, letters.change_directory, "e")?;
    push_if(text, letters.rename, "f")?;
    push_if(text, letters.listing, "l")?;
    push_if(text, letters.make_directory, "m")?;
    push_if(text, letters.delete, "p")
}

fn push_file_perms<A: Allocator>(text: &mut String<A>, letters: Letters) -> Result<(), AllocError>
    ensures appended { Appends result text.old text.new (file_perms letters) }
{
    push_if(text, letters.append_to, "a")?;
    push_if(text, letters.delete, "d")?;
    push_if(text, letters.rename, "f")?;
    push_if(text, letters.retrieve, "r")?;
    push_if(text, letters.store, "w")
}
