//! The rule of each command: its conditions, and its row by name.

ghost use Rattle.std.specs.Prelude.{◌≡◌, [], Some, option_map, unwrap_or};
ghost use Rattle.std.specs.String.{string_bytes};
ghost use Rattle.ftp_wire.specs.Commands.{with_texts};
ghost use Rattle.ftp_wire.specs.Reading.{item_of};
ghost use Rattle.session_core.specs.Entering.{is_right};
ghost use Rattle.session_core.specs.Rows.{rule_by};
ghost use Rattle.session_table.specs.Rules.{meanwhile_of, rule};
ghost use Rattle.session_table.specs.Steps.{is_pass};

use authorizer::Authorizer;
use ftp_terms::Letter;
use ftp_wire::{Command, LineItem};
use session_table::{
    Conditions, FileRow, LocatedRow, LoginRow, Meanwhile, NamedRow, Notice, Rule, StateRow, Style,
};
use std::alloc::Allocator;

const AT_ANY_TIME: Conditions = Conditions {
    needs_login: false,
    needs_source: false,
    needs_no_offset: false,
    needs_plain: false,
    moves_data: false,
    keeps_source: false,
    meanwhile: Meanwhile::Waits,
};

const SERVED_AT_ANY_TIME: Conditions = Conditions {
    meanwhile: Meanwhile::Served,
    ..AT_ANY_TIME
};

const QUITTING: Conditions = Conditions {
    meanwhile: Meanwhile::QuitsLater,
    ..AT_ANY_TIME
};

const AFTER_LOGIN: Conditions = Conditions {
    needs_login: true,
    ..AT_ANY_TIME
};

const SERVED_AFTER_LOGIN: Conditions = Conditions {
    meanwhile: Meanwhile::Served,
    ..AFTER_LOGIN
};

/// The commands that EPSV ALL forbids (RFC 2428, section 4).
const UNLESS_ONLY_EXTENDED: Conditions = Conditions {
    needs_plain: true,
    ..AFTER_LOGIN
};

const KEEPING_SOURCE: Conditions = Conditions {
    keeps_source: true,
    ..AFTER_LOGIN
};

const FROM_SOURCE: Conditions = Conditions {
    needs_source: true,
    ..AFTER_LOGIN
};

/// The commands that move octets over a data connection.
const MOVING: Conditions = Conditions {
    moves_data: true,
    ..AFTER_LOGIN
};

const MOVING_FROM_START: Conditions = Conditions {
    needs_no_offset: true,
    ..MOVING
};

fn text_or_none<A: Allocator>(text: &Option<String<A>>) -> &str
    ensures text { result.now ≡ unwrap_or (option_map string_bytes text.now) [] }
{
    match text {
        Some(text) => text.as_str(),
        None => "",
    }
}

/// A rule with a row on logins.
macro_rules! login {
    ($conditions:expr, $row:expr) => {
        Rule {
            conditions: $conditions,
            row: NamedRow::Login($row),
        }
    };
}

/// A rule with another row without a path.
macro_rules! alone {
    ($conditions:expr, $row:expr) => {
        Rule {
            conditions: $conditions,
            row: NamedRow::State($row),
        }
    };
}

/// A rule with a row at the location of a text.
macro_rules! at {
    ($conditions:expr, $letter:ident, $text:expr, $row:expr) => {
        Rule {
            conditions: $conditions,
            row: NamedRow::At(LocatedRow {
                letter: Letter::$letter,
                text: $text,
                row: $row,
            }),
        }
    };
}

const LONG_LIST: FileRow = FileRow::List(Style::LongLines);

const NAME_LIST: FileRow = FileRow::List(Style::Names);

/// The rule of a command.
pub(crate) fn rule_of<A: Allocator>(command: &Command<String<A>>) -> Rule<&str>
    ensures rule { rule_by (λ text. text.now) result
        ≡ rule (with_texts string_bytes command.now) }
{
    match command {
        Command::User(name) => login!(AT_ANY_TIME, LoginRow::User(name.as_str())),
        Command::Pass(text) => login!(AT_ANY_TIME, LoginRow::Pass(text_or_none(text))),
        Command::Quit => login!(QUITTING, LoginRow::Quit),
        Command::Rein => login!(AT_ANY_TIME, LoginRow::Rein),
        Command::Noop => alone!(SERVED_AT_ANY_TIME, StateRow::Note(Notice::Fine)),
        Command::Syst => alone!(AT_ANY_TIME, StateRow::Note(Notice::System)),
        Command::Help(_) => alone!(AT_ANY_TIME, StateRow::Note(Notice::Standards)),
        Command::Feat => alone!(AT_ANY_TIME, StateRow::Feat),
        Command::Opts(wanted) => alone!(AT_ANY_TIME, StateRow::Opts(*wanted)),
        Command::Allo(_) => alone!(AFTER_LOGIN, StateRow::Note(Notice::NoAllocation)),
        Command::SetType(wanted) => alone!(AFTER_LOGIN, StateRow::Type(*wanted)),
        Command::Mode => alone!(AFTER_LOGIN, StateRow::Note(Notice::ModeIsStream)),
        Command::Stru => alone!(AFTER_LOGIN, StateRow::Note(Notice::StructureIsFile)),
        Command::Rest(offset) => alone!(AFTER_LOGIN, StateRow::Rest(*offset)),
        Command::Port(to) => alone!(UNLESS_ONLY_EXTENDED, StateRow::Port(*to)),
        Command::Eprt(to) => alone!(UNLESS_ONLY_EXTENDED, StateRow::Eprt(*to)),
        Command::Pasv => alone!(UNLESS_ONLY_EXTENDED, StateRow::Pasv),
        Command::Epsv(wanted) => alone!(AFTER_LOGIN, StateRow::Epsv(*wanted)),
        Command::Pwd => alone!(AFTER_LOGIN, StateRow::Pwd),
        Command::Stat(None) => alone!(SERVED_AFTER_LOGIN, StateRow::Status),
        Command::Abor => alone!(SERVED_AFTER_LOGIN, StateRow::Abor),
        Command::Cwd(text) => at!(AFTER_LOGIN, ChangeDirectory, text.as_str(), FileRow::Cwd),
        Command::Cdup => at!(AFTER_LOGIN, ChangeDirectory, "..", FileRow::Cwd),
        Command::Mkd(text) => at!(AFTER_LOGIN, MakeDirectory, text.as_str(), FileRow::Mkd),
        Command::Rmd(text) => at!(AFTER_LOGIN, Delete, text.as_str(), FileRow::Rmd),
        Command::Dele(text) => at!(AFTER_LOGIN, Delete, text.as_str(), FileRow::Dele),
        Command::Rnfr(text) => at!(KEEPING_SOURCE, Rename, text.as_str(), FileRow::Rnfr),
        Command::Rnto(text) => at!(FROM_SOURCE, Rename, text.as_str(), FileRow::Rnto),
        Command::Size(text) => at!(AFTER_LOGIN, Listing, text.as_str(), FileRow::Size),
        Command::Mdtm(text) => at!(AFTER_LOGIN, Listing, text.as_str(), FileRow::Mdtm),
        Command::Stat(Some(text)) => at!(AFTER_LOGIN, Listing, text.as_str(), FileRow::Stat),
        Command::Mlst(text) => at!(AFTER_LOGIN, Listing, text_or_none(text), FileRow::Mlst),
        Command::List(text) => at!(MOVING, Listing, text_or_none(text), LONG_LIST),
        Command::Nlst(text) => at!(MOVING, Listing, text_or_none(text), NAME_LIST),
        Command::Mlsd(text) => at!(MOVING, Listing, text_or_none(text), FileRow::Mlsd),
        Command::Retr(text) => at!(MOVING, Retrieve, text.as_str(), FileRow::Retr),
        Command::Stor(text) => at!(MOVING, Store, text.as_str(), FileRow::Stor),
        Command::Appe(text) => at!(MOVING_FROM_START, AppendTo, text.as_str(), FileRow::Appe),
    }
}

/// The fate of a line while a transfer runs or a passive port is awaited; a line that is no command waits.
pub(crate) fn meanwhile_of<A: Allocator>(item: &LineItem<A>) -> Meanwhile
    ensures meanwhile { result ≡ meanwhile_of (item_of item.now) }
{
    match item {
        LineItem::Command(command) => rule_of(command).conditions.meanwhile,
        LineItem::Fault(_) => Meanwhile::Waits,
    }
}

/// Returns whether a line is PASS with the password of a user.
pub(crate) fn is_right<A: Allocator + Clone>(
    users: &Authorizer<A>,
    name: &str,
    item: &LineItem<A>,
) -> bool
    ensures right { result ≡ is_right users.now.users name.now (Some (item_of item.now)) }
{
    match item {
        LineItem::Command(Command::Pass(text)) => users.check_password(name, text_or_none(text)),
        _ => false,
    }
}

/// Returns whether a line is PASS.
pub(crate) fn is_pass<A: Allocator>(item: &LineItem<A>) -> bool
    ensures pass { result ≡ is_pass (item_of item.now) }
{
    matches!(item, LineItem::Command(Command::Pass(_)))
}
