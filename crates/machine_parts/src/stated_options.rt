//! Forms, numbers and options that the words of a command line state: they are decided without the machine.

ghost use Rattle.std.specs.Prelude.{◌≡◌, ◌++◌, ℕ, false, IfErr, IfOk, MatchResult, OnOk, Ok, Err, Some, None, option_map, string_bytes};
ghost use Rattle.std.specs.Result.{result_ok};
ghost use Rattle.machine_parts.specs.Starting.{IsContradiction, ReadsInputAgain, StateSessions, drains_nothing, form_of, idle_line, idle_lines};
ghost use Rattle.machine_parts.specs.Unprepared.{HasItsFault, fault_of};

use crate::asked::{ReadText, SignPaths};
use client_patience::Patience;
use ftpd_program::{
    IdleOption, ServeFault, StartFault, idle_sessions, idle_sync, is_for_nothing,
    reads_input_again, stated_sessions,
};
use line_queue::LogForm;
use server_config::{Config, ServedStore};
use std::alloc::AllocError;

/// The fault of a start, and the reason in the machine's words, if it is known.
#[derive(Drop)]
pub struct Unprepared {
    pub fault: ServeFault,
    pub start: Option<StartFault>,
}

/// The fault of a start, with its reason.
pub(crate) fn not_prepared(fault: ServeFault, start: StartFault) -> Unprepared
    ensures fault { result.fault ≡ fault }
    ensures start { result.start ≡ Some start }
{
    Unprepared {
        fault,
        start: Some(start),
    }
}

/// A part of a service, or the fault of its start.
pub(crate) fn part<T>(made: Result<T, StartFault>, fault: ServeFault) -> Result<T, Unprepared>
    ensures part { MatchResult made (λ part. result ≡ Ok part)
        (λ start. result ≡ Err (record { fault = fault; start = Some start })) }
    ensures its { IfErr made (λ start. fault_of start ≡ fault) → IfErr result HasItsFault }
{
    match made {
        Ok(part) => Ok(part),
        Err(start) => Err(not_prepared(fault, start)),
    }
}

/// Returns the form of a name; plain if none is stated. `Err` if no form has this name.
pub(crate) fn form_named(name: Option<String>) -> Result<LogForm, StartFault>
    ensures form { result_ok result ≡ form_of (option_map string_bytes name) }
    ensures refused { IfErr result (λ fault. option_map StartFault.UnknownForm name ≡ Some fault) }
    ensures fault { IfErr result (λ reason. fault_of reason ≡ ServeFault.LogForm) }
{
    let Some(word) = name else {
        return Ok(LogForm::Plain);
    };
    match word.as_str() {
        "plain" => Ok(LogForm::Plain),
        "journal" => Ok(LogForm::Journal),
        _ => Err(StartFault::UnknownForm { word }),
    }
}

/// Returns the number of sessions that a word states; 0, which is no limit, if none is stated. `Err` if it states none.
pub(crate) fn sessions_in(word: Option<String>) -> Result<u32, StartFault>
    ensures sessions { IfOk result (StateSessions (option_map string_bytes word)) }
    ensures refused { IfErr result (λ fault. (option_map StartFault.NoSessions word ≡ Some fault)
        × ((n : ℕ) → StateSessions (option_map string_bytes word) n → ⊥)) }
    ensures fault { IfErr result (λ reason. fault_of reason ≡ ServeFault.UserSessions) }
{
    let Some(word) = word else {
        return Ok(0);
    };
    match stated_sessions(word.as_str()) {
        Some(sessions) => Ok(sessions),
        None => Err(StartFault::NoSessions { word }),
    }
}

/// Adds a line on an option, if it has no effect.
fn add_idle(warnings: &mut String, option: Option<IdleOption>) -> Result<(), AllocError>
    ensures line { OnOk result (string_bytes warnings.new
        ≡ string_bytes warnings.old ++ idle_line option) }
{
    match option {
        Some(option) => writeln!(warnings, "{option}"),
        None => Ok(()),
    }
}

/// Returns the texts of warnings, a line each, with those of options that have no effect.
fn with_idle(
    warnings: String,
    config: &Config,
    syncs: bool,
    user_sessions: u32,
) -> Result<String, Unprepared>
    ensures lines { IfOk result (λ text. string_bytes text ≡ string_bytes warnings
        ++ idle_lines config.now.store syncs user_sessions config.now.numbers.max_cons) }
    ensures fault { IfErr result HasItsFault }
{
    let mut warnings = warnings;
    let is_in_memory = matches!(&config.store, ServedStore::Memory(_));
    let sync = add_idle(&mut warnings, idle_sync(syncs, is_in_memory));
    let sessions = add_idle(
        &mut warnings,
        idle_sessions(user_sessions, config.numbers.max_cons),
    );
    if sync.is_err() || sessions.is_err() {
        return Err(Unprepared {
            fault: ServeFault::Memory,
            start: None,
        });
    }
    Ok(warnings)
}

/// Fails if options contradict each other.
pub(crate) fn check_options(
    patience: Patience,
    read: &ReadText,
    signs: &SignPaths,
) -> Result<(), Unprepared>
    ensures drains { OnOk result (drains_nothing patience signs.now ≡ false) }
    ensures reads { OnOk result (ReadsInputAgain read.now signs.now → ⊥) }
    ensures refused { IfErr result (IsContradiction patience read.now signs.now) }
    ensures fault { IfErr result HasItsFault }
{
    if is_for_nothing(patience, signs.drain.is_some()) {
        return Err(not_prepared(ServeFault::DrainSeconds, StartFault::NothingDrains));
    }
    if reads_input_again(read.path.as_str(), signs.reload.is_some()) {
        return Err(not_prepared(ServeFault::ReloadFile, StartFault::InputAgain));
    }
    Ok(())
}

/// The configuration of a service, with warnings of options that have no effect. `Err` if memory runs out.
pub(crate) fn warned(
    read: ReadText,
    syncs: bool,
    user_sessions: u32,
) -> Result<ReadText, Unprepared>
    ensures path { IfOk result (λ text. text.path ≡ read.path) }
    ensures config { IfOk result (λ text. text.config ≡ read.config) }
    ensures octets { IfOk result (λ text. text.octets ≡ read.octets) }
    ensures warnings { IfOk result
        (λ text. string_bytes text.warnings ≡ string_bytes read.warnings
        ++ idle_lines read.config.store syncs user_sessions read.config.numbers.max_cons) }
    ensures fault { IfErr result HasItsFault }
{
    let ReadText {
        path,
        config,
        warnings,
        octets,
    } = read;
    let warnings = with_idle(warnings, &config, syncs, user_sessions)?;
    Ok(ReadText {
        path,
        config,
        warnings,
        octets,
    })
}
