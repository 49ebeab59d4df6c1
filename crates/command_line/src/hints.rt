//! Commands that somebody may have meant by words that are refused.

ghost use Rattle.std.specs.Prelude.{◌≡◌, [], IfErr, IfOk, map, true};
ghost use Rattle.clap.specs.Words.{Kinds, app_of, fault_of, is_simple, is_simple_and_free, subcommand_of, subcommand_rows_of, takes};
ghost use Rattle.command_line.specs.Given.{IsRefusal};
ghost use Rattle.command_line.specs.declared.words.WordsFault.TheVariants as WordsFault;

use crate::words::{WordsFault, parsed};
use clap::{ArgMatches, Command};
use std::alloc::{AllocError, Global};

/// The command for what a word names elsewhere.
fn meant_by(word: &str) -> Option<&'static str> {
    match word {
        "start" | "run" | "daemon" | "server" | "listen" => Some("serve"),
        "test" | "configtest" | "validate" | "verify" => Some("check-config"),
        "status" | "who" | "show" | "monitor" => Some("top"),
        "stats" => Some("usage"),
        _ => None,
    }
}

/// Returns whether words check the grants of a file that has the name of a configuration.
fn is_config_checked(words: &[&str]) -> bool {
    match words {
        ["check", path] => path.ends_with(".toml") && !path.starts_with('-'),
        _ => false,
    }
}

/// The refusal of words, with the command that was meant; none if nothing is known of it.
fn hint_text(alloc: Global, words: &[&str]) -> Result<Option<String>, AllocError> {
    if is_config_checked(words) {
        let text =
            "error: the following required arguments were not provided:\n  <GRANTS>\n\n  tip: to check a configuration, use 'check-config'\n\nUsage: ftpd check <SHEET> <GRANTS>\n\nFor more information, try '--help'.\n";
        let text = String::from_str(alloc, text)?;
        return Ok(Some(text));
    }
    let Some(word) = words.first() else {
        return Ok(None);
    };
    let Some(meant) = meant_by(word) else {
        return Ok(None);
    };
    let text = format!(in alloc;
        "error: unrecognized subcommand '{word}'\n\n  tip: a similar subcommand exists: '{meant}'\n\nUsage: ftpd <COMMAND>\n\nFor more information, try '--help'.\n"
    )?;
    Ok(Some(text))
}

/// The fault of words of `ftpd`, with the command that was meant, if something is known of it.
fn hinted(alloc: Global, words: &[&str], fault: WordsFault) -> WordsFault
    ensures memory { fault ≡ WordsFault.Memory → result ≡ WordsFault.Memory }
    ensures refused { (kinds : Kinds) → IsRefusal kinds fault → IsRefusal kinds result }
{
    let WordsFault::Refused { is_help: false, .. } = &fault else {
        return fault;
    };
    match hint_text(alloc, words) {
        Ok(Some(text)) => WordsFault::Refused {
            text,
            is_help: false,
        },
        Ok(None) => fault,
        Err(_) => WordsFault::Memory,
    }
}

/// Parses the words of `ftpd`, which do not include the program's name, with a hint in a refusal.
pub(crate) fn parsed_or_hinted<'a>(
    alloc: Global,
    command: Command<'a>,
    words: &'a [&'a str],
) -> Result<ArgMatches<'a>, WordsFault>
    ensures takes { takes (app_of command.entry) (map (λ s. s.now) words.now) ≡ true
        → IfErr result (λ fault. fault ≡ WordsFault.Memory) }
    ensures refused { is_simple_and_free (app_of command.entry) ≡ true
        → IfErr result (IsRefusal (fault_of (app_of command.entry) (map (λ s. s.now) words.now))) }
    ensures given { is_simple_and_free (app_of command.entry) ≡ true
        → IfOk result (λ _. fault_of (app_of command.entry) (map (λ s. s.now) words.now) ≡ []) }
    ensures found { is_simple (app_of command.entry) ≡ true
        → IfOk result (λ matches. subcommand_rows_of matches
        ≡ subcommand_of (app_of command.entry) (map (λ s. s.now) words.now)) }
{
    match parsed(alloc, command, words) {
        Ok(matches) => Ok(matches),
        Err(fault) => Err(hinted(alloc, words, fault)),
    }
}
