//! What an input of requests asks for.

ghost use Rattle.std.specs.Prelude.{◌≡◌, Err, IfOk, IsOkUnless};
ghost use Rattle.bz_base.specs.declared.error.Error.{Error};
ghost use Rattle.bz_serve.specs.Asked.{asked_of, or_bad_line};
ghost use Rattle.bz_serve.specs.Requests.{HasInputStatus, ReadsRequests};
ghost use Rattle.bz_requests.specs.Requests.{requests_in};

use bz_base::{Error, Result};
use bz_files::TextIn;
use bz_requests::{BadInput, Request, read_input, read_requests};
use bz_symq::{Reply, bad_line, unread};
use std::alloc::Global;

/// What an input asks for.
#[derive(Drop)]
pub(crate) enum Asked {
    /// The requests of its lines.
    Requests(Vec<Request>),
    /// Nothing: it is too long, or has a bad line, and this says so.
    Bad(Reply),
}

/// Reads the whole input, and what it asks for.
pub(crate) fn requests_asked<R: TextIn>(alloc: Global, input: &mut R) -> Result<Asked>
    ensures { ReadsRequests R.TextIn result input.old input.new }
{
    match read_input(alloc, input) {
        Ok(text) => asked_in_lines(alloc, text.as_slice()),
        Err(stop) => Ok(Asked::Bad(unread(stop)?)),
    }
}

// What the lines of an input ask for that isn't too long.
fn asked_in_lines(alloc: Global, text: &[u8]) -> Result<Asked>
    ensures asked { IfOk result (λ asked. asked_of asked ≡ or_bad_line (requests_in text.now)) }
    ensures status { IfOk result HasInputStatus }
    ensures memory { IsOkUnless result Error.OutOfMemory }
{
    match read_requests(alloc, text) {
        Ok(requests) => Ok(Asked::Requests(requests)),
        Err(BadInput::Line(number)) => Ok(Asked::Bad(bad_line(alloc, number)?)),
        Err(BadInput::OutOfMemory) => Err(Error::OutOfMemory),
    }
}
