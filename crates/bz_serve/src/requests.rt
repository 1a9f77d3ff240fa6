//! A run over an input of requests.

ghost use Rattle.bz_serve.specs.Requests.{RunsRequests};

use crate::input::{Asked, requests_asked};
use crate::serving::serve;
use bz_files::{Files, TextIn, TextOut};
use bz_requests::Config;
use bz_symq::{Status, failed, finish};
use std::alloc::Global;

/// Reads the whole input, which is requests, one on a line, and answers them one after the other, each
/// in its world of files.
pub fn serve_input<R: TextIn, W: TextOut, F: Files>(
    alloc: Global,
    config: Config,
    input: &mut R,
    output: &mut W,
    files: &mut F,
) -> Status
    ensures { RunsRequests R.TextIn W.TextOut F.Files config result input.old input.new output.old output.new files.old files.new }
{
    match requests_asked(alloc, input) {
        Ok(Asked::Requests(requests)) => serve(alloc, config, requests.as_slice(), output, files),
        Ok(Asked::Bad(reply)) => finish(alloc, output, &reply),
        Err(error) => failed(error),
    }
}
