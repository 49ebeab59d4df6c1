//! Permissions of users.

ghost use Rattle.std.specs.Prelude.{◌≡◌, ◌==◌};
ghost use Rattle.std.specs.List.{list_all};
ghost use Rattle.ftp_terms.specs.Letters.{has_letter, holds, is_letter, letters_of};

/// A permission, named by a letter as in the fact `perm` of RFC 3659, section 7.5.5.
#[derive(Clone, Copy, Debug, PartialEq, Eq)]
pub enum Letter {
    /// `e`: make a directory the current one.
    ChangeDirectory,
    /// `l`: list, and ask for facts, sizes and times.
    Listing,
    /// `r`: retrieve a file.
    Retrieve,
    /// `a`: append to a file.
    AppendTo,
    /// `d`: delete a file or a directory.
    Delete,
    /// `f`: rename.
    Rename,
    /// `m`: make a directory.
    MakeDirectory,
    /// `w`: store a file.
    Store,
}

/// A set of letters.
#[derive(Clone, Copy, Debug, PartialEq, Eq)]
pub struct Letters {
    pub change_directory: bool,
    pub listing: bool,
    pub retrieve: bool,
    pub append_to: bool,
    pub delete: bool,
    pub rename: bool,
    pub make_directory: bool,
    pub store: bool,
}

impl Letters {
    /// No letter.
    pub const NONE: Letters = Letters {
        change_directory: false,
        listing: false,
        retrieve: false,
        append_to: false,
        delete: false,
        rename: false,
        make_directory: false,
        store: false,
    };

    /// All letters, `elradfmw`.
    pub const ALL: Letters = Letters {
        change_directory: true,
        listing: true,
        retrieve: true,
        append_to: true,
        delete: true,
        rename: true,
        make_directory: true,
        store: true,
    };

    /// The set of the letters in a text, such as `elr`; `None` if it contains anything else.
    pub fn read(text: &str) -> Option<Letters>
        ensures letters { result ≡ letters_of text.now }
    {
        if !are_letters(text) {
            return None;
        }
        Some(Letters {
            change_directory: has_letter(text, b'e'),
            listing: has_letter(text, b'l'),
            retrieve: has_letter(text, b'r'),
            append_to: has_letter(text, b'a'),
            delete: has_letter(text, b'd'),
            rename: has_letter(text, b'f'),
            make_directory: has_letter(text, b'm'),
            store: has_letter(text, b'w'),
        })
    }

    pub fn holds(self, letter: Letter) -> bool
        ensures holds { result ≡ holds self letter }
    {
        match letter {
            Letter::ChangeDirectory => self.change_directory,
            Letter::Listing => self.listing,
            Letter::Retrieve => self.retrieve,
            Letter::AppendTo => self.append_to,
            Letter::Delete => self.delete,
            Letter::Rename => self.rename,
            Letter::MakeDirectory => self.make_directory,
            Letter::Store => self.store,
        }
    }
}

fn are_letters(text: &str) -> bool
    ensures letters { result ≡ list_all is_letter text.now }
{
    text.bytes().all(|octet| is_letter(octet))
}

fn is_letter(octet: u8) -> bool
    ensures letter { result ≡ is_letter octet }
{
    octet == b'e'
        || octet == b'l'
        || octet == b'r'
        || octet == b'a'
        || octet == b'd'
        || octet == b'f'
        || octet == b'm'
        || octet == b'w'
}

fn has_letter(text: &str, letter: u8) -> bool
    ensures letter { result ≡ has_letter text.now letter }
{
    text.bytes().any(|octet| octet == letter)
}
