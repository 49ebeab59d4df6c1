//! Readers of the arguments of commands.

ghost use Rattle.std.specs.Prelude.{◌≡◌, ◌==◌, ◌≤◌, ◌-◌, ◌^◌, IfSome, codes, min, option_map, slice_index, true};
ghost use Rattle.std.specs.Char.{is_ascii_digit};
ghost use Rattle.std.specs.List.{after_first, list_all, list_any};
ghost use Rattle.std.specs.Str.Parse.{digits_value};
ghost use Rattle.ftp_wire.specs.Words.{hyphen, is_space, same_letters, semicolon};
ghost use Rattle.ftp_wire.specs.Arguments.{after_word, extended_passive_of, facts_of, is_name_list, is_number, letter_of, listed_facts, local_size, local_type, names_fact, number_cut_at, number_up_to, offset_of, option_of, or_bad, parts_at, type_of, without_switches};

use crate::commands::{ExtendedPassive, FeatureOption};
use crate::faults::LineFault;
use crate::words::{find_octet, is_blank, same_letters, split_part};
use ftp_terms::{DataType, Facts};

/// Returns whether the text is decimal digits and nothing else.
fn is_number(text: &[u8]) -> bool
    ensures number { result ≡ is_number text.now }
{
    if text.is_empty() {
        return false;
    }
    has_only_digits(text)
}

fn has_only_digits(text: &[u8]) -> bool
    ensures digits { result ≡ list_all is_ascii_digit text.now }
{
    text.iter().all(|octet| octet.is_ascii_digit())
}

/// The number that decimal digits represent, at most 2^64 - 1.
fn value_of(digits: &[u8]) -> u64
    requires digits { is_number digits.now ≡ true }
    ensures number { result ≡ min (digits_value 10 digits.now) (2 ^ 64 - 1) }
{
    let mut number = 0u64;
    for octet in digits {
        let digit = u64::from(*octet - b'0');
        number = number.saturating_mul(10).saturating_add(digit);
    }
    number
}

/// The number of a text that is decimal digits, at most 2^64 - 1; otherwise `None`.
#[tactic(auto, unfolding(crate::specs::Arguments::number_cut_at, crate::specs::Arguments::number_of))]
pub(crate) fn number_or_most(text: &[u8]) -> Option<u64>
    ensures number { result ≡ number_cut_at (2 ^ 64 - 1) text.now }
{
    if is_number(text) {
        Some(value_of(text))
    } else {
        None
    }
}

/// A number up to the limit.
#[tactic(auto, unfolding(crate::specs::Arguments::number_up_to, crate::specs::Arguments::number_cut_at, crate::specs::Arguments::number_of))]
pub(crate) fn number_up_to(limit: u16, text: &[u8]) -> Option<u16>
    ensures number { result ≡ number_up_to limit text.now }
    ensures bound { IfSome result (λ number. number ≤ limit) }
{
    let number = number_or_most(text)?;
    if number <= u64::from(limit) {
        Some(number as u16)
    } else {
        None
    }
}

/// A number, cut to 65,535.
#[tactic(auto, unfolding(crate::specs::Arguments::number_cut_at, crate::specs::Arguments::number_of))]
pub(crate) fn number_cut(text: &[u8]) -> Option<u16>
    ensures number { result ≡ number_cut_at 65535 text.now }
{
    let number = number_or_most(text)?;
    Some(number.min(65535) as u16)
}

/// The text after the word at the start; letters match in either case.
#[tactic(auto, using(crate::proofs::Fronts::no_word, crate::proofs::Fronts::word_found, crate::proofs::Fronts::word_absent))]
fn after_word<'a>(text: &'a [u8], word: &[u8]) -> Option<&'a [u8]>
    ensures rest { option_map (λ rest. rest.now) result ≡ after_word word.now text.now }
{
    if text.len() < word.len() {
        return None;
    }
    let (front, rest) = text.split_at(word.len());
    if same_letters(front, word) {
        Some(rest)
    } else {
        None
    }
}

fn is_word(text: &str, word: &str) -> bool
    ensures word { result ≡ same_letters text.now word.now }
{
    same_letters(text.as_bytes(), word.as_bytes())
}

/// The type of L and the size of an octet.
fn local_size(size: Option<u16>) -> Result<DataType, LineFault>
    ensures data_type { result ≡ local_size size }
{
    match size {
        Some(8) => Ok(DataType::Image),
        Some(1..=255) => Err(LineFault::BadParameter),
        _ => Err(LineFault::BadArgument),
    }
}

fn local_type(text: &[u8]) -> Result<DataType, LineFault>
    ensures data_type { result ≡ local_type text.now }
{
    match after_word(text, b"L ") {
        Some(size) => local_size(number_cut(size)),
        None => Err(LineFault::BadArgument),
    }
}

/// The argument of TYPE.
#[tactic(auto, unfolding(crate::specs::Arguments::type_of))]
pub(crate) fn type_of(text: &str) -> Result<DataType, LineFault>
    ensures data_type { result ≡ type_of text.now }
{
    if is_word(text, "A") || is_word(text, "A N") {
        return Ok(DataType::Ascii);
    }
    if is_word(text, "I") {
        return Ok(DataType::Image);
    }
    if is_word(text, "E") || is_word(text, "A T") || is_word(text, "A C") {
        return Err(LineFault::BadParameter);
    }
    local_type(text.as_bytes())
}

/// The argument of MODE or STRU: one letter is served, two others are known.
#[tactic(auto, unfolding(crate::specs::Arguments::letter_of))]
pub(crate) fn letter_of(text: &str, served: &str, one: &str, other: &str) -> Result<(), LineFault>
    ensures answer { result ≡ letter_of served.now one.now other.now text.now }
{
    if is_word(text, served) {
        return Ok(());
    }
    if is_word(text, one) || is_word(text, other) {
        return Err(LineFault::BadParameter);
    }
    Err(LineFault::BadArgument)
}

/// The argument of EPSV.
#[tactic(auto, unfolding(crate::specs::Arguments::extended_passive_of))]
pub(crate) fn extended_passive_of(text: &str) -> Result<ExtendedPassive, LineFault>
    ensures passive { result ≡ extended_passive_of text.now }
{
    if is_word(text, "ALL") {
        return Ok(ExtendedPassive::All);
    }
    match number_cut(text.as_bytes()) {
        Some(protocol) => Ok(ExtendedPassive::Protocol(protocol)),
        None => Err(LineFault::BadArgument),
    }
}

/// The argument of REST.
#[tactic(auto, unfolding(crate::specs::Arguments::offset_of, crate::specs::Arguments::number_cut_at, crate::specs::Arguments::number_of))]
pub(crate) fn offset_of(text: &str) -> Result<u64, LineFault>
    ensures offset { result ≡ offset_of text.now }
{
    if text.len() > 19 {
        return Err(LineFault::BadArgument);
    }
    match number_or_most(text.as_bytes()) {
        Some(offset) => Ok(offset),
        None => Err(LineFault::BadArgument),
    }
}

/// Returns whether the names between semicolons include this fact.
fn names_fact(names: &[u8], fact: &[u8]) -> bool
    ensures named { result ≡ names_fact fact.now (parts_at semicolon names.now) }
{
    let mut rest = names;
    while let Some((name, more)) = split_part(rest, b';') {
        if same_letters(name, fact) {
            return true;
        }
        rest = more;
    }
    same_letters(rest, fact)
}

#[tactic(auto, unfolding(crate::specs::Arguments::facts_of))]
fn facts_of(names: &[u8]) -> Facts
    ensures facts { result ≡ facts_of (parts_at semicolon names.now) }
{
    Facts {
        kind: names_fact(names, b"type"),
        size: names_fact(names, b"size"),
        modify: names_fact(names, b"modify"),
        perm: names_fact(names, b"perm"),
    }
}

fn has_space(text: &[u8]) -> bool
    ensures space { result ≡ list_any is_space text.now }
{
    text.iter().any(|octet| *octet == b' ')
}

/// Returns whether there are no names, or each is followed by a semicolon and contains no space.
fn is_name_list(text: &[u8]) -> bool
    ensures names { result ≡ is_name_list text.now }
{
    match text {
        [] => true,
        [.., last] => *last == b';' && !has_space(text),
    }
}

fn listed_facts(text: &[u8]) -> Result<FeatureOption, LineFault>
    ensures facts { result ≡ or_bad (listed_facts (after_word (codes "MLST ") text.now)) }
{
    match after_word(text, b"MLST ") {
        Some(names) if is_name_list(names) => Ok(FeatureOption::Mlst(facts_of(names))),
        _ => Err(LineFault::BadArgument),
    }
}

/// The argument of OPTS.
#[tactic(auto, unfolding(crate::specs::Arguments::option_of))]
pub(crate) fn option_of(text: &str) -> Result<FeatureOption, LineFault>
    ensures option { result ≡ option_of text.now }
{
    if is_word(text, "UTF8 ON") {
        return Ok(FeatureOption::Utf8On);
    }
    if is_word(text, "MLST") {
        return Ok(FeatureOption::Mlst(Facts::NONE));
    }
    listed_facts(text.as_bytes())
}

/// The text after the first space; empty if there is none.
fn after_space(text: &str) -> &str
    ensures rest { result.now ≡ after_first is_space text.now }
{
    match find_octet(text.as_bytes(), b' ') {
        Some(at) => &text[at + 1..],
        None => "",
    }
}

fn has_switch(text: &str) -> bool
    ensures switch { result ≡ (slice_index text.now 0 == hyphen) }
{
    match text.as_bytes() {
        [first, ..] => *first == b'-',
        [] => false,
    }
}

/// The text without a first word that begins with a hyphen.
#[tactic(auto, unfolding(crate::specs::Arguments::without_switches))]
pub(crate) fn without_switches(text: &str) -> Option<&str>
    ensures text { option_map (λ t. t.now) result ≡ without_switches text.now }
{
    if !has_switch(text) {
        return Some(text);
    }
    let rest = after_space(text);
    if is_blank(rest.as_bytes()) {
        None
    } else {
        Some(rest)
    }
}
