//! A run over an input of stacks.

ghost use Rattle.bz_run.specs.StackRun.{RunsStacks};

mod replying;

use crate::stacks::replying::reply_with_stacks;
use bz_files::{Files, TextIn, TextOut};
use bz_requests::Config;
use bz_symq::{Status, failed, finish};
use std::alloc::Global;

/// Reads the whole input, which is stacks, one on a line. It writes what they fold to by the
/// answers of the Breakpad file at the path, under the settings. The file is looked at even if
/// the input has no stacks.
pub fn run_stacks<R: TextIn, W: TextOut, F: Files>(
    alloc: Global,
    path: &str,
    config: Config,
    input: &mut R,
    output: &mut W,
    files: &mut F,
) -> Status
    ensures { RunsStacks R.TextIn W.TextOut F.Files path.now config result input.old input.new output.old output.new files.old files.new }
{
    match reply_with_stacks(alloc, path, config, input, files) {
        Ok(reply) => finish(alloc, output, &reply),
        Err(error) => failed(error),
    }
}
