//! What is wrong with words.

ghost use Rattle.std.specs.Prelude.{◌≡◌, ◌≢◌, [], map, string_bytes, IfOk, IfSome, IfNone};
ghost use Rattle.clap.specs.Words.{kind_of};
ghost use Rattle.clap.specs.declared.error.kind.ErrorKind.TheVariants as kinds;
ghost use Rattle.bz_words.specs.Definition.{faults};

use crate::definition::program;
use clap::Error;
use clap::error::ErrorKind;
use std::alloc::{AllocError, Global};

/// What `clap` says of words that it refuses: lines, the last of them without its end. There is none
/// where it takes them, whether or not they give a command.
pub fn complaint(alloc: Global, words: &[String]) -> Result<Option<String>, AllocError>
    ensures some { IfOk result (λ said. IfSome said (λ _. faults (map string_bytes words.now) ≢ [])) }
    ensures none { IfOk result (λ said. IfNone said (faults (map string_bytes words.now) ≡ [])) }
{
    let program = program(alloc)?;
    match program.try_get_matches_from(words) {
        Ok(_) => Ok(None),
        Err(error) => {
            let said = text_of(alloc, &error)?;
            Ok(Some(said))
        }
    }
}

// The text of an error, without the line feed at its end.
fn text_of(alloc: Global, error: &Error) -> Result<String, AllocError>
    ensures { IfOk result (λ _. kind_of error.now ≢ kinds.OutOfMemory) }
{
    if error.kind() == ErrorKind::OutOfMemory {
        return Err(AllocError);
    }
    let text = format!(in alloc; "{error}")?;
    let said = String::from_str(alloc, text.as_str().trim_end())?;
    Ok(said)
}
