//! The report that words ask for.

ghost use Rattle.std.specs.Prelude.{◌≡◌, ℕ, None, Option, IfOk, IfSome, IsErrOf, option_map};
ghost use Rattle.log_lines.specs.declared.moment.LogDay.{LogDay};
ghost use Rattle.usage_report.specs.declared.key.UsageKey.{UsageKey};
ghost use Rattle.usage_report.specs.Asks.{AreTwoForms, IsAsked, IsDayAsked, IsFirst, IsFirstAsked, IsKeyAsked, form_of, key_name, key_named};

use crate::key::UsageKey;
use log_lines::{LogDay, read_day};
use thiserror::Error;

/// Rows of a report, unless the words state another number.
pub const FIRST: u32 = 20;

/// Most rows that words may state.
pub const MOST_FIRST: u32 = 1_000_000;

/// The form of a report.
#[derive(Clone, Copy, Debug, PartialEq, Eq)]
pub enum UsageForm {
    Table,
    Json,
    Csv,
}

/// The words that ask for a report.
#[derive(Clone, Copy, Debug, PartialEq, Eq)]
pub struct AskWords<'w> {
    pub by: Option<&'w str>,
    pub day: Option<&'w str>,
    pub first: Option<&'w str>,
    pub json: bool,
    pub csv: bool,
}

/// A report that is asked for.
#[derive(Clone, Copy, Debug, PartialEq, Eq)]
pub struct UsageAsk {
    pub by: UsageKey,
    /// The day of the transfers that are counted; all are, if it is `None`.
    pub day: Option<LogDay>,
    /// The greatest number of rows; 0 is no limit.
    pub first: u32,
    pub form: UsageForm,
}

/// The reason for which words ask for no report.
#[derive(Clone, Copy, Debug, PartialEq, Eq, Drop, Error)]
pub enum AskFault {
    #[error("it must be a day of the calendar, as 2026-11-24")]
    Day,
    #[error("it must be user, file, hour or address")]
    Key,
    #[error("it must be a number from 0 to 1000000, in digits")]
    First,
    #[error("the argument '--json' cannot be used with '--csv'")]
    TwoForms,
}

/// The name of a key.
pub fn key_name(by: UsageKey) -> &'static str
    ensures name { result.now ≡ key_name by }
{
    match by {
        UsageKey::User => "user",
        UsageKey::File => "file",
        UsageKey::Hour => "hour",
        UsageKey::Address => "address",
    }
}

// The key of that name.
fn key_named(word: &str) -> Option<UsageKey>
    ensures key { result ≡ key_named word.now }
{
    match word {
        "user" => Some(UsageKey::User),
        "file" => Some(UsageKey::File),
        "hour" => Some(UsageKey::Hour),
        "address" => Some(UsageKey::Address),
        _ => None,
    }
}

// The number of rows that a word states, in digits.
fn first_in(word: &str) -> Option<u32>
    ensures some { IfSome result (IsFirst word.now) }
    ensures none { result ≡ None → (n : ℕ) → IsFirst word.now n → ⊥ }
{
    if word.as_bytes().first() == Some(&b'+') {
        return None;
    }
    match word.parse::<u32>() {
        Ok(number) if number <= MOST_FIRST => Some(number),
        _ => None,
    }
}

fn key_asked(by: Option<&str>) -> Option<UsageKey>
    ensures key { IfSome result (IsKeyAsked (option_map (λ w. w.now) by.entry)) }
    ensures none { result ≡ None → (key : UsageKey)
        → IsKeyAsked (option_map (λ w. w.now) by.entry) key → ⊥ }
{
    match by {
        Some(word) => key_named(word),
        None => Some(UsageKey::User),
    }
}

// The day, if one is stated, or `None` if that is no day.
fn day_asked(day: Option<&str>) -> Option<Option<LogDay>>
    ensures day { IfSome result (IsDayAsked (option_map (λ w. w.now) day.entry)) }
    ensures none { result ≡ None → (stated : Option LogDay)
        → IsDayAsked (option_map (λ w. w.now) day.entry) stated → ⊥ }
{
    let Some(word) = day else {
        return Some(None);
    };
    match read_day(word) {
        Some(day) => Some(Some(day)),
        None => None,
    }
}

fn first_asked(first: Option<&str>) -> Option<u32>
    ensures first { IfSome result (IsFirstAsked (option_map (λ w. w.now) first.entry)) }
    ensures none { result ≡ None → (n : ℕ)
        → IsFirstAsked (option_map (λ w. w.now) first.entry) n → ⊥ }
{
    match first {
        Some(word) => first_in(word),
        None => Some(FIRST),
    }
}

fn form_of(json: bool, csv: bool) -> UsageForm
    ensures form { result ≡ form_of json csv }
{
    if json {
        return UsageForm::Json;
    }
    if csv {
        UsageForm::Csv
    } else {
        UsageForm::Table
    }
}

/// Returns the report that words ask for, or the reason for which they ask for none.
pub fn asked(words: &AskWords<'_>) -> Result<UsageAsk, AskFault>
    ensures asked { IfOk result (IsAsked words.now) }
    ensures two_forms { IsErrOf result AskFault.TwoForms → AreTwoForms words.now }
    ensures no_key { IsErrOf result AskFault.Key → (key : UsageKey)
        → IsKeyAsked (option_map (λ w. w.now) words.now.by) key → ⊥ }
    ensures no_day { IsErrOf result AskFault.Day → (stated : Option LogDay)
        → IsDayAsked (option_map (λ w. w.now) words.now.day) stated → ⊥ }
    ensures no_first { IsErrOf result AskFault.First → (n : ℕ)
        → IsFirstAsked (option_map (λ w. w.now) words.now.first) n → ⊥ }
{
    if words.json && words.csv {
        return Err(AskFault::TwoForms);
    }
    let Some(by) = key_asked(words.by) else {
        return Err(AskFault::Key);
    };
    let Some(day) = day_asked(words.day) else {
        return Err(AskFault::Day);
    };
    let Some(first) = first_asked(words.first) else {
        return Err(AskFault::First);
    };
    Ok(UsageAsk {
        by,
        day,
        first,
        form: form_of(words.json, words.csv),
    })
}
