//! Calls on stores, read from lines.

use std::alloc::{Allocator, Global};
use virtual_path::VPath;
use virtual_tree::WriteMode;

/// A request to a store.
#[derive(Clone, Copy, Debug, PartialEq, Eq)]
pub enum Call {
    MakeDirectory,
    RemoveDirectory,
    RemoveFile,
    Rename,
    /// Opens a file, writes a text and ends the file, at 5 and 7 seconds.
    Write(WriteMode),
    /// Opens a file for writing, and no more.
    Open(WriteMode),
    /// Reads a file from an offset on.
    Read(u64),
    Names,
    Size,
    Modified,
    Faults,
}

/// A call with its paths and its text.
#[derive(Drop)]
pub struct Asked<A: Allocator> {
    pub call: Call,
    pub path: VPath<A>,
    pub to: VPath<A>,
    pub text: String,
}

fn call_of(name: &str, number: u64) -> Option<Call> {
    match name {
        "make" => Some(Call::MakeDirectory),
        "remove-directory" => Some(Call::RemoveDirectory),
        "remove-file" => Some(Call::RemoveFile),
        "rename" => Some(Call::Rename),
        "read" => Some(Call::Read(number)),
        "names" => Some(Call::Names),
        "size" => Some(Call::Size),
        "modified" => Some(Call::Modified),
        "faults" => Some(Call::Faults),
        _ => writing_of(name, number),
    }
}

fn writing_of(name: &str, number: u64) -> Option<Call> {
    match name {
        "new" => Some(Call::Write(WriteMode::New)),
        "at" => Some(Call::Write(WriteMode::At(number))),
        "append" => Some(Call::Write(WriteMode::Append)),
        "open-new" => Some(Call::Open(WriteMode::New)),
        "open-at" => Some(Call::Open(WriteMode::At(number))),
        "open-append" => Some(Call::Open(WriteMode::Append)),
        _ => None,
    }
}

/// A call's name, with a number after a colon if it has one.
fn read_call(word: &str) -> Option<Call> {
    match word.split_once(':') {
        Some((name, number)) => call_of(name, number.parse().ok()?),
        None => call_of(word, 0),
    }
}

/// The call of a line; none if the line has no such call or path, or memory runs out.
pub fn read_line<A: Allocator + Copy>(global: Global, alloc: A, line: &str) -> Option<Asked<A>> {
    let mut words = line.split(' ');
    let call = read_call(words.next()?)?;
    let path = words.next().unwrap_or("/");
    let text = words.next().unwrap_or("");
    Some(Asked {
        call,
        path: VPath::root(alloc).resolve(alloc, path).ok()?,
        to: VPath::root(alloc).resolve(alloc, text).ok()?,
        text: String::from_str(global, text).ok()?,
    })
}
