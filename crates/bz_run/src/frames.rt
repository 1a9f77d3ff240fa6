//! The frames of a crash, as words ask for them.

ghost use Rattle.bz_run.specs.Run.{RunsJob};
ghost use Rattle.bz_words.specs.Command.{Frames};

use bz_base::FindSymOpts;
use bz_files::{Files, TextIn, TextOut};
use bz_requests::Config;
use bz_serve::run_frames;
use bz_symq::Status;
use std::alloc::Global;

/// The answers to the frames of the input, by the symbol files below the root and the settings of the
/// command.
pub(crate) fn answer_frames<R: TextIn, W: TextOut, F: Files>(
    alloc: Global,
    config: Config,
    root: &str,
    input: &mut R,
    output: &mut W,
    files: &mut F,
) -> Status
    ensures { RunsJob R.TextIn W.TextOut F.Files config (Frames root.now) result input.old input.new output.old output.new files.old files.new }
{
    let opts = FindSymOpts::by(config.code_info, config.inlined);
    run_frames(alloc, root, &opts, input, output, files)
}
