//! The numbers that words state.

ghost use Rattle.std.specs.Prelude.{◌≡◌, ◌≤◌, ◌++◌, ℕ, None, Some, IfErr, IfOk, IfSome, OnOk, codes, option_map, string_bytes};
ghost use Rattle.clap.specs.Words.{first_of, found_of, rows_of, subcommand_rows_of};
ghost use Rattle.command_line.specs.Numbers.{AreLinesIn, IsDepthOf, IsNoDepthOf, IsNumber, IsNumberOr, IsPortIn, IsRefusalOf, IsStated, IsUnnumberedBy, least_of, most_of, refusal_head, refusal_range, refusal_text, value_kind, value_name};
ghost use Rattle.command_line.specs.Stated.{IsServeUnnumberedIn, IsStatedBy, IsUnnumbered};
ghost use Rattle.command_line.specs.Timed.{IsPatienceIn};
ghost use Rattle.command_line.specs.Ways.{IsUnknownWayIn, IsWayIn};

use crate::patience::{patience_of, usual_patience};
use crate::ways::way_of;
use crate::words::{WordsFault, entered, word_of};
use clap::ArgMatches;
use client_patience::Patience;
use line_rates::ShareBy;
use std::alloc::{AllocError, Global};

/// Largest number of seconds that words may state: a day.
pub const MAX_SECONDS: u32 = 86_400;

/// Largest port that words may state.
pub const MAX_PORT: u32 = 65_535;

/// Fewest lines of a screen that words may state.
pub const LEAST_ROWS: u32 = 8;

/// Most lines of a screen that words may state.
pub const MOST_ROWS: u32 = 500;

/// Lines of a screen, unless the words state others.
pub const ROWS: u16 = 24;

/// Largest depth that words may state.
pub const MOST_DEPTH: u32 = 99;

/// The form of a number that an option states.
#[derive(Clone, Copy)]
pub(crate) enum NumberForm {
    /// A number of seconds.
    Seconds,
    /// A port.
    Port,
    /// A number of lines.
    Lines,
    /// A depth in a tree.
    Depth,
}

fn least(form: NumberForm) -> u32
    ensures least { result ≡ least_of form }
{
    match form {
        NumberForm::Seconds | NumberForm::Depth => 0,
        NumberForm::Port => 1,
        NumberForm::Lines => LEAST_ROWS,
    }
}

fn most(form: NumberForm) -> u32
    ensures most { result ≡ most_of form }
{
    match form {
        NumberForm::Seconds => MAX_SECONDS,
        NumberForm::Port => MAX_PORT,
        NumberForm::Lines => MOST_ROWS,
        NumberForm::Depth => MOST_DEPTH,
    }
}

/// The name of such a value in the help.
fn name(form: NumberForm) -> &'static str
    ensures name { result.now ≡ value_name form }
{
    match form {
        NumberForm::Seconds => "SECONDS",
        NumberForm::Port => "PORT",
        NumberForm::Lines => "N",
        NumberForm::Depth => "DEPTH",
    }
}

fn kind(form: NumberForm) -> &'static str
    ensures kind { result.now ≡ value_kind form }
{
    match form {
        NumberForm::Seconds => "a number of seconds",
        NumberForm::Port => "a port",
        NumberForm::Lines => "a number of lines",
        NumberForm::Depth => "a depth",
    }
}

/// The number of that form that a text states in digits, if it is one.
fn number_in(text: &str, form: NumberForm) -> Option<u32>
    ensures some { IfSome result (IsNumber form text.now) }
    ensures none { result ≡ None → (n : ℕ) → IsNumber form text.now n → ⊥ }
{
    if text.as_bytes().first() == Some(&b'+') {
        return None;
    }
    match text.parse::<u32>() {
        Ok(number) if number >= least(form) && number <= most(form) => Some(number),
        _ => None,
    }
}

/// The beginning of a refusal of a value of an option: the name of such a value, and what it must be.
pub(crate) fn refusal_head(
    alloc: Global,
    option: &str,
    value: &str,
    name: &str,
    kind: &str,
) -> Result<String, AllocError>
    ensures head { IfOk result (λ text. string_bytes text
        ≡ refusal_head name.now kind.now option.now value.now) }
{
    format!(in alloc; "error: invalid value '{value}' for '--{option} <{name}>': it must be {kind}")
}

/// Appends the end of a refusal: the least number and the largest.
fn push_range(text: &mut String, least: u32, most: u32) -> Result<(), AllocError>
    ensures range { OnOk result
        (string_bytes text.new ≡ string_bytes text.old ++ refusal_range least most) }
{
    write!(
        text,
        " from {least} to {most}, in digits\n\nFor more information, try '--help'.\n"
    )
}

fn refusal_text(
    alloc: Global,
    form: NumberForm,
    option: &str,
    value: &str,
) -> Result<String, AllocError>
    ensures text { IfOk result
        (λ text. string_bytes text ≡ refusal_text form option.now value.now) }
{
    let mut text = refusal_head(alloc, option, value, name(form), kind(form))?;
    push_range(&mut text, least(form), most(form))?;
    Ok(text)
}

/// The refusal of that value of an option.
fn refusal(alloc: Global, form: NumberForm, option: &str, value: &str) -> WordsFault
    ensures refusal { IsRefusalOf form option.now value.now result }
{
    match refusal_text(alloc, form, option, value) {
        Ok(text) => WordsFault::Refused {
            text,
            is_help: false,
        },
        Err(_) => WordsFault::Memory,
    }
}

/// The number of that form that an option states, if it is given.
fn number_of(
    alloc: Global,
    inner: &ArgMatches<'_>,
    form: NumberForm,
    option: &str,
) -> Result<Option<u32>, WordsFault>
    ensures number { IfOk result
        (IsStated form (first_of option.now (rows_of (found_of inner.now)))) }
    ensures refused { IfErr result
        (IsUnnumberedBy form option.now (rows_of (found_of inner.now))) }
{
    let Some(value) = word_of(inner, option) else {
        return Ok(None);
    };
    match number_in(value, form) {
        Some(number) => Ok(Some(number)),
        None => Err(refusal(alloc, form, option, value)),
    }
}

/// The number of that form that an option states, or the default if it is not given.
pub(crate) fn number_or(
    alloc: Global,
    inner: &ArgMatches<'_>,
    form: NumberForm,
    option: &str,
    default: u32,
) -> Result<u32, WordsFault>
    ensures number { IfOk result
        (IsNumberOr form default option.now (rows_of (found_of inner.now))) }
    ensures refused { IfErr result
        (IsUnnumberedBy form option.now (rows_of (found_of inner.now))) }
{
    match number_of(alloc, inner, form, option)? {
        Some(number) => Ok(number),
        None => Ok(default),
    }
}

/// The depth that a word states.
fn depth_in(alloc: Global, value: &str) -> Result<u32, WordsFault>
    ensures depth { IfOk result (IsNumber NumberForm.Depth value.now) }
    ensures refused { IfErr result (IsNoDepthOf (Some value.now)) }
{
    match number_in(value, NumberForm::Depth) {
        Some(depth) => Ok(depth),
        None => Err(refusal(alloc, NumberForm::Depth, "by", value)),
    }
}

/// Returns the depth that a word states, from 0 to `MOST_DEPTH` in digits, if there is a word. `Refused`: the word
/// states none. `Memory`: memory ran out.
pub fn stated_depth(alloc: Global, by: Option<&str>) -> Result<Option<usize>, WordsFault>
    ensures depth { IfOk result (IsDepthOf (option_map (λ w. w.now) by.entry)) }
    ensures refused { IfErr result (IsNoDepthOf (option_map (λ w. w.now) by.entry)) }
{
    match by {
        Some(value) => match depth_in(alloc, value) {
            Ok(depth) => Ok(Some(depth as usize)),
            Err(fault) => Err(fault),
        },
        None => Ok(None),
    }
}

/// The numbers that the words of a command state, and the way of sharing, or those that count if the words state none.
#[derive(Clone, Copy)]
pub(crate) struct Numbers {
    pub(crate) patience: Patience,
    pub(crate) status_port: Option<u16>,
    pub(crate) rows: u16,
    pub(crate) share_by: ShareBy,
}

/// The port that the arguments of `serve` state, if any.
fn port_of(alloc: Global, inner: &ArgMatches<'_>) -> Result<Option<u16>, WordsFault>
    ensures port { IfOk result (IsPortIn (rows_of (found_of inner.now))) }
    ensures refused { IfErr result
        (IsUnnumberedBy NumberForm.Port (codes "status-port") (rows_of (found_of inner.now))) }
{
    match number_of(alloc, inner, NumberForm::Port, "status-port")? {
        Some(port) => Ok(Some(port as u16)),
        None => Ok(None),
    }
}

/// The numbers that the arguments of `serve` state.
fn serve_numbers(alloc: Global, inner: &ArgMatches<'_>) -> Result<Numbers, WordsFault>
    ensures patience { IfOk result (λ n. IsPatienceIn (rows_of (found_of inner.now)) n.patience) }
    ensures port { IfOk result (λ n. IsPortIn (rows_of (found_of inner.now)) n.status_port) }
    ensures way { IfOk result (λ n. IsWayIn (rows_of (found_of inner.now)) n.share_by) }
    ensures refused { IfErr result (IsServeUnnumberedIn (rows_of (found_of inner.now))) }
{
    let patience = patience_of(alloc, inner)?;
    let status_port = port_of(alloc, inner)?;
    let share_by = way_of(alloc, inner)?;
    Ok(Numbers {
        patience,
        status_port,
        rows: ROWS,
        share_by,
    })
}

/// The numbers that the arguments of `top` state.
fn top_numbers(alloc: Global, inner: &ArgMatches<'_>) -> Result<Numbers, WordsFault>
    ensures lines { IfOk result (λ n. AreLinesIn (rows_of (found_of inner.now)) n.rows) }
    ensures refused { IfErr result
        (IsUnnumberedBy NumberForm.Lines (codes "rows") (rows_of (found_of inner.now))) }
{
    let rows = number_or(alloc, inner, NumberForm::Lines, "rows", u32::from(ROWS))?;
    Ok(Numbers {
        patience: usual_patience(),
        status_port: None,
        rows: rows as u16,
        share_by: ShareBy::Sessions,
    })
}

/// The way of sharing that the arguments of `plan` or of `check-config` state.
fn way_numbers(alloc: Global, inner: &ArgMatches<'_>) -> Result<Numbers, WordsFault>
    ensures way { IfOk result (λ n. IsWayIn (rows_of (found_of inner.now)) n.share_by) }
    ensures refused { IfErr result (IsUnknownWayIn (rows_of (found_of inner.now))) }
{
    let share_by = way_of(alloc, inner)?;
    Ok(Numbers {
        patience: usual_patience(),
        status_port: None,
        rows: ROWS,
        share_by,
    })
}

/// The numbers and the way of sharing that the words of the entered command state; those that it does not take are of
/// no account.
pub(crate) fn stated_numbers(alloc: Global, matches: &ArgMatches<'_>) -> Result<Numbers, WordsFault>
    ensures stated { IfOk result (λ n. IsStatedBy (subcommand_rows_of matches.now)
        n.patience n.status_port n.rows n.share_by) }
    ensures refused { IfErr result (IsUnnumbered (subcommand_rows_of matches.now)) }
{
    match entered(matches) {
        Some(("serve", inner)) => serve_numbers(alloc, inner),
        Some(("top", inner)) => top_numbers(alloc, inner),
        Some(("plan", inner)) => way_numbers(alloc, inner),
        Some(("check-config", inner)) => way_numbers(alloc, inner),
        _ => Ok(Numbers {
            patience: usual_patience(),
            status_port: None,
            rows: ROWS,
            share_by: ShareBy::Sessions,
        }),
    }
}
