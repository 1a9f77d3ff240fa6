//! What a run is about to end with and write.

ghost use Rattle.std.specs.Prelude.{◌≡◌, ◌↔◌, IfOk, IsOkUnless, string_bytes};
ghost use Rattle.bz_files.specs.Looked.{Faulted};
ghost use Rattle.bz_symq.specs.Outcome.{bad_line, done_with, refused_as};
ghost use Rattle.bz_symq.specs.Reply.{outcome_of, RepliesTo};

use crate::status::Status;
use bz_base::{Error, Result, Symbolized};
use bz_symbolize::Lookups;
use std::alloc::Global;
use std::borrow::CowStr;

/// What a run ends with and writes, if nothing fails.
#[derive(Drop)]
pub struct Reply {
    /// How the run ends.
    pub status: Status,
    /// All that it writes.
    pub said: Said,
}

/// What a run writes.
#[derive(Drop)]
pub enum Said {
    /// A text.
    Text(CowStr<'static>),
    /// The texts of the answers at the addresses. A part of them is made at a time, as they are
    /// written.
    Answers(Lookups<'static>),
    /// The texts of answers that were all given, which are made as they are written.
    Owned(OwnedAnswers),
    /// Bytes that were made, which are written as they are.
    Made(Vec<u8>),
}

/// The answers of a process at addresses, in their order.
#[derive(Drop)]
pub struct OwnedAnswers {
    /// The addresses, absolute in the process.
    pub addrs: Vec<u64>,
    /// The answer at each of them.
    pub answers: Vec<Symbolized<'static>>,
}

/// A reply whose text is always the same.
pub fn stored_reply(status: Status, text: &'static str) -> Reply
    ensures { outcome_of result ≡ record { status = status; text = text.now } }
{
    Reply {
        status,
        said: Said::Text(CowStr::Borrowed(text)),
    }
}

/// A reply whose text was made for it.
pub fn text_reply(status: Status, text: String) -> Reply
    ensures { outcome_of result ≡ record { status = status; text = string_bytes text } }
{
    Reply {
        status,
        said: Said::Text(CowStr::Owned(text)),
    }
}

/// The reply that says bytes that were made.
pub fn made_reply(bytes: Vec<u8>) -> Reply
    ensures { outcome_of result ≡ done_with bytes.items }
{
    Reply {
        status: Status::Done,
        said: Said::Made(bytes),
    }
}

/// The reply to an input whose first line that isn't well formed has this number.
pub fn bad_line(alloc: Global, number: u64) -> Result<Reply>
    ensures reply { IfOk result (λ given. outcome_of given ≡ bad_line number) }
    ensures memory { IsOkUnless result Error.OutOfMemory }
{
    let text = format!(in alloc; "input: line {number}\n")?;
    Ok(text_reply(Status::Input, text))
}

/// The reply to what is refused by a name.
pub(crate) fn refused_as(alloc: Global, name: &str) -> Result<Reply>
    ensures reply { IfOk result (λ given. outcome_of given ≡ refused_as name.now) }
    ensures memory { IsOkUnless result Error.OutOfMemory }
{
    let text = format!(in alloc; "refused: {name}\n")?;
    Ok(text_reply(Status::Refused, text))
}

/// The reply to a refused call; a failure stays one, and so ends the run by status 4 or 5.
pub fn refusal(alloc: Global, error: Error) -> Result<Reply>
    ensures reply { RepliesTo error result }
    ensures status { IfOk result (λ given. given.status ≡ Status.Refused) }
    ensures fault { Faulted result ↔ (error ≡ Error.ReadFault) }
{
    match error {
        Error::ReadFault => Err(Error::ReadFault),
        Error::OutOfMemory => Err(Error::OutOfMemory),
        _ => {
            let text = format!(in alloc; "refused: {error}\n")?;
            Ok(text_reply(Status::Refused, text))
        }
    }
}
