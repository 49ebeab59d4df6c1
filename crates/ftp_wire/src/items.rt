//! Reads a line without its LF.

ghost use Rattle.std.specs.Prelude.{◌≡◌, Err, IfOk, Ok, Option, Some, option_map, string_bytes};
ghost use Rattle.ftp_wire.specs.Commands.{bare_command, listing_command, optional_command, text_command, with_texts};
ghost use Rattle.ftp_wire.specs.Items.{absent_item, argument_item, form_command, line_item, text_item, verb_item, with_command, without_cr, words_item};
ghost use Rattle.ftp_wire.specs.Reading.{item_of};

use crate::arguments::{
    extended_passive_of, letter_of, offset_of, option_of, type_of, without_switches,
};
use crate::commands::{Command, ExtendedPassive};
use crate::faults::LineFault;
use crate::ports::{read_eprt, read_port};
use crate::table::{Form, Known, Listing, Optional, Text, Verb, verb_of};
use crate::verbs::{bare_command, listing_command, optional_command, text_command};
use crate::words::{is_blank, split_word, text_of};
use std::alloc::{AllocError, Allocator, Global};

/// Longest line, in octets without its end.
pub const LONGEST_LINE: usize = 4096;

/// Most octets stored of a line: after the longest line, a CR may belong to its end.
pub const LONGEST_HELD: usize = LONGEST_LINE + 1;

/// The item that a line represents. No `Debug`, like a command.
#[derive(Drop)]
pub enum LineItem<A: Allocator = Global> {
    Command(Command<String<A>>),
    Fault(LineFault),
}

fn from_result<A: Allocator>(read: Result<Command<String<A>>, LineFault>) -> LineItem<A>
    ensures item { item_of result ≡ with_command (with_texts string_bytes) read }
{
    match read {
        Ok(command) => LineItem::Command(command),
        Err(fault) => LineItem::Fault(fault),
    }
}

fn form_command<T>(verb: Form, text: &str) -> Result<Command<T>, LineFault>
    ensures command { result ≡ form_command verb text.now }
{
    match verb {
        Form::SetType => Ok(Command::SetType(type_of(text)?)),
        Form::Mode => {
            letter_of(text, "S", "B", "C")?;
            Ok(Command::Mode)
        }
        Form::Stru => {
            letter_of(text, "F", "R", "P")?;
            Ok(Command::Stru)
        }
        Form::Port => Ok(Command::Port(read_port(text)?)),
        Form::Eprt => Ok(Command::Eprt(read_eprt(text)?)),
        Form::Rest => Ok(Command::Rest(offset_of(text)?)),
        Form::Opts => Ok(Command::Opts(option_of(text)?)),
    }
}

fn copied<A: Allocator>(alloc: A, text: Option<&str>) -> Result<Option<String<A>>, AllocError>
    ensures text { IfOk result
        (λ copy. option_map string_bytes copy ≡ option_map (λ t. t.now) text.entry) }
{
    match text {
        Some(text) => Ok(Some(String::from_str(alloc, text)?)),
        None => Ok(None),
    }
}

fn passive_item<A: Allocator>(text: &str) -> LineItem<A>
    ensures item { item_of result ≡ text_item Verb.Epsv text.now }
{
    match extended_passive_of(text) {
        Ok(passive) => LineItem::Command(Command::Epsv(passive)),
        Err(fault) => LineItem::Fault(fault),
    }
}

/// The item of a command that needs a text.
fn needed_item<A: Allocator>(alloc: A, verb: Text, text: &str) -> Result<LineItem<A>, AllocError>
    ensures item { IfOk result (λ item. item_of item ≡ Ok (text_command verb text.now)) }
{
    let text = String::from_str(alloc, text)?;
    Ok(LineItem::Command(text_command(verb, text)))
}

/// The item of a command whose text is optional and present.
fn optional_item<A: Allocator>(
    alloc: A,
    verb: Optional,
    text: &str,
) -> Result<LineItem<A>, AllocError>
    ensures item { IfOk result
        (λ item. item_of item ≡ Ok (optional_command verb (Some text.now))) }
{
    let text = String::from_str(alloc, text)?;
    Ok(LineItem::Command(optional_command(verb, Some(text))))
}

/// The item of a command with an optional text after its switches.
fn listing_item<A: Allocator>(
    alloc: A,
    verb: Listing,
    text: Option<&str>,
) -> Result<LineItem<A>, AllocError>
    ensures item { IfOk result (λ item. item_of item
        ≡ Ok (listing_command verb (option_map (λ t. t.now) text.entry))) }
{
    let text = copied(alloc, text)?;
    Ok(LineItem::Command(listing_command(verb, text)))
}

/// The item of a command with a text.
fn text_item<A: Allocator>(alloc: A, verb: Verb, text: &str) -> Result<LineItem<A>, AllocError>
    ensures item { IfOk result (λ item. item_of item ≡ text_item verb text.now) }
{
    match verb {
        Verb::Bare(_) => Ok(LineItem::Fault(LineFault::ArgumentUnwanted)),
        Verb::Text(verb) => needed_item(alloc, verb, text),
        Verb::Form(verb) => Ok(from_result(form_command(verb, text))),
        Verb::Optional(verb) => optional_item(alloc, verb, text),
        Verb::Listing(verb) => listing_item(alloc, verb, without_switches(text)),
        Verb::Epsv => Ok(passive_item(text)),
    }
}

/// The item of a command with an argument.
fn argument_item<A: Allocator>(
    alloc: A,
    verb: Verb,
    argument: &[u8],
) -> Result<LineItem<A>, AllocError>
    ensures item { IfOk result (λ item. item_of item ≡ argument_item verb argument.now) }
{
    if let Verb::Bare(_) = verb {
        return Ok(LineItem::Fault(LineFault::ArgumentUnwanted));
    }
    match text_of(argument) {
        Some(text) => text_item(alloc, verb, text),
        None => Ok(LineItem::Fault(LineFault::BadArgument)),
    }
}

/// The item of a command without an argument.
fn absent_item<A: Allocator>(verb: Verb) -> LineItem<A>
    ensures item { item_of result ≡ absent_item verb }
{
    match verb {
        Verb::Bare(verb) => LineItem::Command(bare_command(verb)),
        Verb::Text(_) | Verb::Form(_) => LineItem::Fault(LineFault::ArgumentMissing),
        Verb::Optional(verb) => LineItem::Command(optional_command(verb, None)),
        Verb::Listing(verb) => LineItem::Command(listing_command(verb, None)),
        Verb::Epsv => LineItem::Command(Command::Epsv(ExtendedPassive::Same)),
    }
}

/// The item of a command and its argument; a blank argument counts as absent.
fn verb_item<A: Allocator>(alloc: A, verb: Verb, argument: &[u8]) -> Result<LineItem<A>, AllocError>
    ensures item { IfOk result (λ item. item_of item ≡ verb_item verb argument.now) }
{
    if is_blank(argument) {
        Ok(absent_item(verb))
    } else {
        argument_item(alloc, verb, argument)
    }
}

/// The item of a line without its end.
#[tactic(auto, unfolding(crate::specs::Items::words_item))]
fn read_words<A: Allocator>(alloc: A, line: &[u8]) -> Result<LineItem<A>, AllocError>
    ensures item { IfOk result (λ item. item_of item ≡ words_item line.now) }
{
    let (code, argument) = split_word(line);
    if code.is_empty() {
        return Ok(LineItem::Fault(LineFault::Empty));
    }
    match verb_of(code) {
        None => Ok(LineItem::Fault(LineFault::Unknown)),
        Some(Known::NotServed) => Ok(LineItem::Fault(LineFault::NotServed)),
        Some(Known::Served(verb)) => verb_item(alloc, verb, argument),
    }
}

fn without_cr(line: &[u8]) -> &[u8]
    ensures line { result.now ≡ without_cr line.now }
{
    match line {
        [front @ .., 13] => front,
        _ => line,
    }
}

/// The item of a line without its LF.
#[tactic(auto, unfolding(crate::specs::Items::line_item))]
pub(crate) fn read_line<A: Allocator>(alloc: A, line: &[u8]) -> Result<LineItem<A>, AllocError>
    ensures item { IfOk result (λ item. item_of item ≡ line_item line.now) }
{
    let line = without_cr(line);
    if line.len() > LONGEST_LINE {
        return Ok(LineItem::Fault(LineFault::TooLong));
    }
    read_words(alloc, line)
}
