//! One run over words: the command that they give, and what runs it.

ghost use Rattle.std.specs.Prelude.{map, string_bytes};
ghost use Rattle.bz_requests.specs.declared.requests.Config.{Config};
ghost use Rattle.bz_run.specs.Run.{Runs, RunsCommand, RunsJob};
ghost use Rattle.bz_symq.specs.Command.{asking_of, Batch};
ghost use Rattle.bz_symq.specs.Run.{Runs as RunsOne};
ghost use Rattle.bz_words.specs.Command.{HasSmallNumbers, Make, command_in, job_of, product_of};

use crate::frames::answer_frames;
use crate::generating::generate;
use crate::misuse::tell_usage;
use crate::stacks::run_stacks;
use crate::targets::{asked_batch, asked_product};
use bz_files::{Files, TextIn, TextOut};
use bz_requests::Config;
use bz_serve::serve_input;
use bz_symq::Status;
use bz_words::{BadWords, Job, Product, read_command};
use std::alloc::Global;

/// Reads the words, which come without the program's name, and runs the command that they give.
pub fn run<R: TextIn, W: TextOut, F: Files>(
    alloc: Global,
    words: &[String],
    input: &mut R,
    output: &mut W,
    files: &mut F,
) -> Status
    ensures { Runs R.TextIn W.TextOut F.Files (map string_bytes words.now) result input.old input.new output.old output.new files.old files.new }
{
    run_words(alloc, words, input, output, files)
}

// The run of the command, or the usage where there is none.
fn run_words<R: TextIn, W: TextOut, F: Files>(
    alloc: Global,
    words: &[String],
    input: &mut R,
    output: &mut W,
    files: &mut F,
) -> Status
    ensures { RunsCommand R.TextIn W.TextOut F.Files (command_in (map string_bytes words.now)) result input.old input.new output.old output.new files.old files.new }
{
    match read_command(alloc, words) {
        Ok(command) => run_job(alloc, command.config, &command.job, input, output, files),
        Err(BadWords::Usage) => tell_usage(alloc, output),
        Err(BadWords::OutOfMemory) => Status::Memory,
    }
}

fn run_job<R: TextIn, W: TextOut, F: Files>(
    alloc: Global,
    config: Config,
    job: &Job,
    input: &mut R,
    output: &mut W,
    files: &mut F,
) -> Status
    requires { HasSmallNumbers (job_of job.now) }
    ensures { RunsJob R.TextIn W.TextOut F.Files config (job_of job.now) result input.old input.new output.old output.new files.old files.new }
{
    match job {
        Job::Batch(target, kind) => {
            let batch = asked_batch(target, *kind, config);
            run_batch(alloc, &batch, input, output, files)
        }
        Job::Serve => serve_input(alloc, config, input, output, files),
        Job::Make(product) => make(alloc, product, input, output, files),
        Job::Generate {
            seed,
            functions,
            addresses,
        } => generate(alloc, config, *seed, *functions, *addresses, output),
        Job::Frames(root) => answer_frames(alloc, config, root.as_str(), input, output, files),
        Job::Stacks(path) => run_stacks(alloc, path.as_str(), config, input, output, files),
    }
}

// The answers of the batch's target to the addresses of the input.
fn run_batch<R: TextIn, W: TextOut, F: Files>(
    alloc: Global,
    batch: &bz_symq::Batch<'_>,
    input: &mut R,
    output: &mut W,
    files: &mut F,
) -> Status
    ensures { RunsOne R.TextIn W.TextOut F.Files (Batch (asking_of batch.now)) result input.old input.new output.old output.new files.old files.new }
{
    let command = bz_symq::Command::Batch(*batch);
    bz_symq::run_command(alloc, &command, input, output, files)
}

// What is made of one file; no settings change it.
fn make<R: TextIn, W: TextOut, F: Files>(
    alloc: Global,
    product: &Product,
    input: &mut R,
    output: &mut W,
    files: &mut F,
) -> Status
    ensures { (config : Config) → RunsJob R.TextIn W.TextOut F.Files config (Make (product_of product.now)) result input.old input.new output.old output.new files.old files.new }
{
    let command = bz_symq::Command::Make(asked_product(product));
    bz_symq::run_command(alloc, &command, input, output, files)
}
