//! The words of the command line of the program.

ghost use Rattle.std.specs.Prelude.{◌≡◌, IfErr, IfOk, map, string_bytes};
ghost use Rattle.sheets_program.specs.Endings.{IsNoLine, IsOutOfMemory};

use crate::ending::Exit;
use std::alloc::{AllocError, Global};
use std::env;
use std::io::ErrorKind;
use std::rt::Env;

const NOT_A_TEXT: &str = "error: a word is not UTF-8\n";

/// Returns the words after the program's name, or the ending of the program if they cannot be read.
pub fn line_words<'w, R: Env + Alloc<A = Global>>(rt: &R) -> Result<Vec<String>, Exit<'w>>
    ensures ends { IfErr result IsNoLine }
{
    let arguments = match env::args(rt) {
        Ok(arguments) => arguments,
        Err(error) if error.kind() == ErrorKind::InvalidData => {
            return Err(Exit::refused(rt.alloc(), NOT_A_TEXT));
        }
        Err(_) => return Err(Exit::out_of_memory()),
    };
    match arguments.skip(1).collect::<Vec<String>>(rt.alloc()) {
        Ok(words) => Ok(words),
        Err(_) => Err(Exit::out_of_memory()),
    }
}

fn borrowed(alloc: Global, texts: &[String]) -> Result<Vec<&str>, AllocError>
    ensures words { IfOk result
        (λ words. map (λ word. word.now) words.items ≡ map string_bytes texts.now) }
{
    texts.iter().map(|text| text.as_str()).collect(alloc)
}

/// Borrows the words, as the commands take them.
pub fn as_words(alloc: Global, texts: &[String]) -> Result<Vec<&str>, Exit<'_>>
    ensures words { IfOk result
        (λ words. map (λ word. word.now) words.items ≡ map string_bytes texts.now) }
    ensures memory { IfErr result IsOutOfMemory }
{
    match borrowed(alloc, texts) {
        Ok(words) => Ok(words),
        Err(_) => Err(Exit::out_of_memory()),
    }
}
