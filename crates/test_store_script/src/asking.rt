//! Carrying out a call on a store.

ghost use Rattle.std.specs.Prelude.{IfSome};
ghost use Rattle.virtual_tree.specs.Calls.{in_answer};
ghost use Rattle.test_store_script.specs.Changes.{change_of, done};

use crate::calls::{Asked, Call};
use std::alloc::{Allocator, Global};
use virtual_path::VPath;
use virtual_tree::{Sink, Source, Store, StoreFault, WriteMode};

/// Writes a text to a file, opened at 5 seconds and ended at 7.
fn write<A: Allocator, S: Store<A>>(
    store: &mut S,
    path: &VPath<A>,
    mode: WriteMode,
    text: &str,
) -> Result<(), StoreFault> {
    let mut sink = store.open_write(path, mode, 5_000)?;
    sink.write(text.as_bytes())?;
    store.finish(sink, 7_999)
}

/// The octets of a source, up to 512, as UTF-8, which they are if the file was written by a script.
fn rest_of<K: Source>(global: Global, mut source: K) -> Result<String, StoreFault> {
    let mut octets = Vec::new(global);
    let mut buffer = [0; 64];
    for _ in 0..8 {
        let count = source.read(&mut buffer)?;
        octets.extend_from_slice(&buffer[..count])?;
    }
    match String::from_utf8(octets) {
        Ok(text) => Ok(text),
        Err(_) => Err(StoreFault::Memory),
    }
}

/// The names of a directory's entries, each after a blank.
fn names_in<A: Allocator, S: Store<A>>(
    global: Global,
    store: &mut S,
    path: &VPath<A>,
) -> Result<String, StoreFault> {
    let mut names = String::new(global);
    for entry in store.list(path)? {
        names.push(' ')?;
        names.push_str(entry.name.as_str())?;
    }
    Ok(names)
}

fn number(global: Global, number: u64) -> Result<String, StoreFault> {
    Ok(format!(in global; "{number}")?)
}

/// The result of a call that changes nothing.
fn report<A: Allocator, S: Store<A>>(
    global: Global,
    store: &mut S,
    asked: &Asked<A>,
) -> Result<String, StoreFault> {
    match asked.call {
        Call::Read(offset) => rest_of(global, store.open_read(&asked.path, offset)?),
        Call::Names => names_in(global, store, &asked.path),
        Call::Size => number(global, store.stat(&asked.path)?.size),
        Call::Modified => number(global, store.stat(&asked.path)?.modified),
        _ => number(global, store.faults()),
    }
}

/// Carries out a call that changes a store.
fn change<A: Allocator, S: Store<A>>(store: &mut S, asked: &Asked<A>) -> Result<(), StoreFault>
    ensures step { IfSome (change_of asked.now.call asked.now.path asked.now.to result)
        (λ exchange. S.Step store.old exchange store.new) }
{
    match asked.call {
        Call::MakeDirectory => store.make_dir(&asked.path),
        Call::RemoveDirectory => store.remove_dir(&asked.path),
        Call::RemoveFile => store.remove_file(&asked.path),
        Call::Rename => store.rename(&asked.path, &asked.to),
        Call::Write(mode) => write(store, &asked.path, mode, asked.text.as_str()),
        Call::Open(mode) => {
            drop(store.open_write(&asked.path, mode, 6_000)?);
            Ok(())
        }
        _ => Ok(()),
    }
}

/// Carries out a call, and returns its result; empty if it only changes the store.
pub fn ask<A: Allocator, S: Store<A>>(
    global: Global,
    store: &mut S,
    asked: &Asked<A>,
) -> Result<String, StoreFault>
    ensures step { IfSome
        (change_of asked.now.call asked.now.path asked.now.to (in_answer done result))
        (λ exchange. S.Step store.old exchange store.new) }
{
    match asked.call {
        Call::Read(_) | Call::Names | Call::Size | Call::Modified | Call::Faults => {
            report(global, store, asked)
        }
        _ => {
            change(store, asked)?;
            Ok(String::new(global))
        }
    }
}

/// The result of a call, or the text of its fault.
pub fn reported<A: Allocator, S: Store<A>>(
    global: Global,
    store: &mut S,
    asked: &Asked<A>,
) -> Result<String, StoreFault> {
    match ask(global, store, asked) {
        Ok(reported) => Ok(reported),
        Err(fault) => Ok(format!(in global; "{fault}")?),
    }
}
