//! Writes commands.

ghost use Rattle.std.specs.Prelude.{◌≡◌, ◌∷◌, [], IfOk, Ok, Some, option_map, string_bytes};
ghost use Rattle.ftp_reply.specs.Written.{Appends};
ghost use Rattle.ftp_wire.specs.Commands.{with_texts};
ghost use Rattle.ftp_wire.specs.Given.{CanBeReadBack};
ghost use Rattle.ftp_wire.specs.Reading.{OnlyReadsAs};
ghost use Rattle.ftp_wire.specs.Written.{argument_part, extended_passive_text, extended_port_text, form_argument, has_facts, option_text, type_text, written};

use crate::commands::{Command, ExtendedPassive, ExtendedPort, FeatureOption};
use crate::texts::{push_facts, push_port};
use crate::verbs::{argument_of, code_of};
use ftp_terms::{DataType, Facts};
use std::alloc::{AllocError, Allocator};
use std::fmt::Write;

fn type_text(data_type: DataType) -> &'static str
    ensures text { result.now ≡ type_text data_type }
{
    match data_type {
        DataType::Ascii => "A",
        DataType::Image => "I",
    }
}

/// Appends a space and the argument of EPRT.
#[tactic(auto, unfolding(crate::specs::Written::extended_port_text))]
fn push_extended_port<A: Allocator>(
    out: &mut String<A>,
    port: &ExtendedPort,
) -> Result<(), AllocError>
    ensures appended { Appends result out.old out.new
        (argument_part (Some (extended_port_text port.now))) }
{
    match port {
        ExtendedPort::Ipv4(host) => {
            let [a, b, c, d] = host.address;
            let port = host.port;
            write!(out, " |1|{a}.{b}.{c}.{d}|{port}|")
        }
        ExtendedPort::Unsupported(protocol) => write!(out, " |{protocol}|||"),
    }
}

fn push_passive<A: Allocator>(
    out: &mut String<A>,
    passive: ExtendedPassive,
) -> Result<(), AllocError>
    ensures appended { Appends result out.old out.new
        (argument_part (extended_passive_text passive)) }
{
    match passive {
        ExtendedPassive::Same => Ok(()),
        ExtendedPassive::All => out.push_str(" ALL"),
        ExtendedPassive::Protocol(protocol) => write!(out, " {protocol}"),
    }
}

fn has_facts(facts: Facts) -> bool
    ensures named { result ≡ has_facts facts }
{
    facts.kind || facts.size || facts.modify || facts.perm
}

/// Appends a space and the argument of OPTS.
#[tactic(auto, unfolding(crate::specs::Written::option_text))]
fn push_option<A: Allocator>(out: &mut String<A>, option: FeatureOption) -> Result<(), AllocError>
    ensures appended { Appends result out.old out.new
        (argument_part (Some (option_text option))) }
{
    match option {
        FeatureOption::Utf8On => out.push_str(" UTF8 ON"),
        FeatureOption::Mlst(facts) => {
            if !has_facts(facts) {
                return out.push_str(" MLST");
            }
            out.push_str(" MLST ")?;
            push_facts(out, facts)
        }
    }
}

/// Appends a space and the argument, if it has a form of its own.
fn push_form<A: Allocator, T>(out: &mut String<A>, command: &Command<T>) -> Result<(), AllocError>
    ensures appended { Appends result out.old out.new (argument_part (form_argument command.now)) }
{
    match command {
        Command::SetType(data_type) => write!(out, " {}", type_text(*data_type)),
        Command::Mode => out.push_str(" S"),
        Command::Stru => out.push_str(" F"),
        Command::Port(port) => {
            out.push_str(" ")?;
            push_port(out, port)
        }
        Command::Eprt(port) => push_extended_port(out, port),
        Command::Epsv(passive) => push_passive(out, *passive),
        Command::Rest(offset) => write!(out, " {offset}"),
        Command::Opts(option) => push_option(out, *option),
        _ => Ok(()),
    }
}

/// Appends a space and the text, if there is one.
fn push_text<A: Allocator, B: Allocator>(
    out: &mut String<A>,
    text: Option<&String<B>>,
) -> Result<(), AllocError>
    ensures appended { Appends result out.old out.new
        (argument_part (option_map string_bytes (option_map (λ t. t.now) text.entry))) }
{
    match text {
        Some(text) => {
            out.push_str(" ")?;
            out.push_str(text.as_str())
        }
        None => Ok(()),
    }
}

/// Appends the line of a command.
fn push_command<A: Allocator, B: Allocator>(
    out: &mut String<A>,
    command: &Command<String<B>>,
) -> Result<(), AllocError>
    ensures appended { Appends result out.old out.new
        (written (with_texts string_bytes command.now)) }
{
    out.push_str(code_of(command))?;
    push_text(out, argument_of(command))?;
    push_form(out, command)?;
    out.push_str("\r\n")
}

/// The line of a command: its code in capitals and without an X, a space and the argument if there is one, CR
/// and LF.
///
/// A reader returns the same command from it, if the line without its end has at most 4,096 octets and the
/// command is one that a reader returns.
pub fn write_command<A: Allocator, B: Allocator>(
    alloc: A,
    command: &Command<String<B>>,
) -> Result<Vec<u8, A>, AllocError>
    ensures line { IfOk result
        (λ line. line.items ≡ written (with_texts string_bytes command.now)) }
    ensures read_back { CanBeReadBack (with_texts string_bytes command.now)
        → IfOk result
        (λ line. OnlyReadsAs line.items (Ok (with_texts string_bytes command.now) ∷ [])) }
{
    let mut out = String::new(alloc);
    push_command(&mut out, command)?;
    Ok(out.into_bytes())
}
