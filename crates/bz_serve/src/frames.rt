//! The frames of a crash, one on each line, and a run over an input of them.

ghost use Rattle.bz_serve.specs.FrameRun.{RunsFrames};
ghost use Rattle.bz_serve.specs.FrameTurns.{RepliesToInput};

mod reading;
mod replying;
mod writing;

use crate::frames::replying::reply_to_frames;
use bz_base::{FindSymOpts, Result};
use bz_files::{Files, TextIn, TextOut};
use bz_requests::read_input;
use bz_symq::{Reply, Status, failed, finish, unread};
pub use reading::read_frames;
use std::alloc::Global;
pub use writing::{frame_text, frame_texts};

/// Reads the whole input, which is frames, one on a line, and writes what they are answered by the
/// symbol files below the root.
pub fn run_frames<R: TextIn, W: TextOut, F: Files>(
    alloc: Global,
    root: &str,
    opts: &FindSymOpts,
    input: &mut R,
    output: &mut W,
    files: &mut F,
) -> Status
    ensures { RunsFrames R.TextIn W.TextOut F.Files root.now opts.now result input.old input.new output.old output.new files.old files.new }
{
    match reply_with_frames(alloc, root, opts, input, files) {
        Ok(reply) => finish(alloc, output, &reply),
        Err(error) => failed(error),
    }
}

// What the run ends with and writes, before any of it is written.
fn reply_with_frames<R: TextIn, F: Files>(
    alloc: Global,
    root: &str,
    opts: &FindSymOpts,
    input: &mut R,
    files: &mut F,
) -> Result<Reply>
    ensures { RepliesToInput R.TextIn F.Files root.now opts.now result input.old input.new files.old files.new }
{
    match read_input(alloc, input) {
        Ok(text) => reply_to_frames(alloc, root, opts, text.as_slice(), files),
        Err(stop) => unread(stop),
    }
}
