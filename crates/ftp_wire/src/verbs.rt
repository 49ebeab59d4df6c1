//! Commands by their verbs, for the reader; codes and texts of commands, for the writer.

ghost use Rattle.std.specs.Prelude.{◌≡◌, Option, option_map};
ghost use Rattle.ftp_wire.specs.Commands.{bare_command, listing_command, optional_command, text_argument, text_command, verb_of};
ghost use Rattle.ftp_wire.specs.Table.{code};

use crate::commands::Command;
use crate::table::{Bare, Listing, Optional, Text, with_served};

/// Matches a verb of one kind against the rows of its kind; rows of other kinds are skipped.
macro_rules! command {
    (Bare $verb:ident: Bare { $($name:ident $code:literal)* } $($others:tt)*) => {
        match $verb { $(Bare::$name => Command::$name,)* }
    };
    (Text $verb:ident $text:ident: Text { $($name:ident $code:literal)* } $($others:tt)*) => {
        match $verb { $(Text::$name => Command::$name($text),)* }
    };
    (Optional $verb:ident $text:ident: Optional { $($name:ident $code:literal)* } $($others:tt)*) => {
        match $verb { $(Optional::$name => Command::$name($text),)* }
    };
    (Listing $verb:ident $text:ident: Listing { $($name:ident $code:literal)* } $($others:tt)*) => {
        match $verb { $(Listing::$name => Command::$name($text),)* }
    };
    ($kind:ident $verb:ident $($text:ident)?: $other:ident $rows:tt $($others:tt)*) => {
        command!($kind $verb $($text)?: $($others)*)
    };
}

/// The command without an argument.
pub(crate) fn bare_command<T>(verb: Bare) -> Command<T>
    ensures command { result ≡ bare_command verb }
{
    with_served!(command Bare verb)
}

/// The command with its text.
pub(crate) fn text_command<T>(verb: Text, text: T) -> Command<T>
    ensures command { result ≡ text_command verb text }
{
    with_served!(command Text verb text)
}

/// The command with its text, or with none.
pub(crate) fn optional_command<T>(verb: Optional, text: Option<T>) -> Command<T>
    ensures command { result ≡ optional_command verb text }
{
    with_served!(command Optional verb text)
}

/// The command with its text, or with none, after its switches are dropped.
pub(crate) fn listing_command<T>(verb: Listing, text: Option<T>) -> Command<T>
    ensures command { result ≡ listing_command verb text }
{
    with_served!(command Listing verb text)
}

/// The code of a command, from the rows of all kinds.
macro_rules! codes {
    ($command:ident:
        Bare { $($bare:ident $bare_code:literal)* }
        Text { $($text:ident $text_code:literal)* }
        Form { $($form:ident $form_code:literal)* }
        Optional { $($optional:ident $optional_code:literal)* }
        Listing { $($listing:ident $listing_code:literal)* }
    ) => {
        match $command {
            $(Command::$bare => $bare_code,)*
            $(Command::$text(_) => $text_code,)*
            $(Command::$form { .. } => $form_code,)*
            $(Command::$optional(_) => $optional_code,)*
            $(Command::$listing(_) => $listing_code,)*
            Command::Epsv(_) => "EPSV",
        }
    };
}

/// The code of a command, in capitals and without an X.
pub(crate) fn code_of<T>(command: &Command<T>) -> &'static str
    ensures code { result.now ≡ code (verb_of command.now) }
{
    with_served!(codes command)
}

/// The text of a command, if it has one, from the rows of the kinds that have one.
macro_rules! texts {
    ($command:ident:
        Bare $bare:tt
        Text { $($text:ident $text_code:literal)* }
        Form $form:tt
        Optional { $($optional:ident $optional_code:literal)* }
        Listing { $($listing:ident $listing_code:literal)* }
    ) => {
        match $command {
            $(Command::$text(text) => Some(text),)*
            $(Command::$optional(text) => text.as_ref(),)*
            $(Command::$listing(text) => text.as_ref(),)*
            _ => None,
        }
    };
}

/// The text of a command, if it has one.
pub(crate) fn argument_of<T>(command: &Command<T>) -> Option<&T>
    ensures text { option_map (λ t. t.now) result ≡ text_argument command.now }
{
    with_served!(texts command)
}
