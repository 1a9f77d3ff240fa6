//! What failed.

ghost use Rattle.std.specs.Prelude.{◌≡◌, map, option_map, string_bytes, IfOk, IfSome};
ghost use Rattle.std.specs.Cow.{cow_str_bytes};
ghost use Rattle.bz_words.specs.Messages.{IsAboutFailed, IsCause, IsOnFile, IsOnNamed, file_path};
ghost use Rattle.bz_words.specs.Command.{job_of};

use crate::given::{Job, Product};
use crate::refused::line_about;
use crate::words::read_command;
use bz_base::Result;
use bz_files::Files;
use bz_requests::Target;
use std::alloc::Global;
use std::borrow::CowStr;

/// The greatest length of a file that is read, in bytes.
const MOST_BYTES: u64 = 1_073_741_824;

/// How many calls have failed on each side of a run.
#[derive(Clone, Copy)]
pub struct Failed {
    /// Reads of standard input.
    pub input: u64,
    /// Writes to standard output.
    pub output: u64,
    /// Looks at files.
    pub files: u64,
}

/// Which side failed, and at which path if that is known.
pub(crate) fn failure<F: Files>(
    alloc: Global,
    words: &[String],
    failed: Failed,
    files: &mut F,
) -> CowStr<'static>
    ensures about { IsAboutFailed (map string_bytes words.now) failed (cow_str_bytes result) }
    ensures unopened { F.opens files.new ≡ F.opens files.old }
    ensures worlds { F.worlds files.new ≡ F.worlds files.old }
{
    if failed.output > 0 {
        return CowStr::Borrowed("symq: standard output: writing failed");
    }
    if failed.input > 0 {
        return CowStr::Borrowed("symq: standard input: reading failed");
    }
    if failed.files == 0 {
        return CowStr::Borrowed("symq: reading or writing failed");
    }
    match failed_file(alloc, words, files) {
        Ok(Some(line)) => CowStr::Owned(line),
        Ok(None) | Err(_) => CowStr::Borrowed("symq: reading a file failed"),
    }
}

// A line on the one file that the words ask to read.
fn failed_file<F: Files>(alloc: Global, words: &[String], files: &mut F) -> Result<Option<String>>
    ensures named { IfOk result (λ found. IfSome found (λ line. IsOnNamed (map string_bytes words.now) (string_bytes line))) }
    ensures unopened { F.opens files.new ≡ F.opens files.old }
    ensures worlds { F.worlds files.new ≡ F.worlds files.old }
{
    let Ok(command) = read_command(alloc, words) else {
        return Ok(None);
    };
    let Some(path) = file_path(&command.job) else {
        return Ok(None);
    };
    let line = line_on_file(alloc, path, files)?;
    Ok(Some(line))
}

// The path of the one file that the job reads, whatever it asks of it.
fn file_path(job: &Job) -> Option<&str>
    ensures { option_map (λ path. path.now) result ≡ file_path (job_of job.now) }
{
    match job {
        Job::Batch(Target::Breakpad(path) | Target::Gsym(path) | Target::Elf(path), _)
        | Job::Make(Product::Converted(path) | Product::Canonical(path))
        | Job::Stacks(path) => Some(path.as_str()),
        _ => None,
    }
}

// A line that says why the file at the path can't be read.
fn line_on_file<F: Files>(alloc: Global, path: &str, files: &mut F) -> Result<String>
    ensures says { IfOk result (λ line. IsOnFile path.now (string_bytes line)) }
    ensures unopened { F.opens files.new ≡ F.opens files.old }
    ensures worlds { F.worlds files.new ≡ F.worlds files.old }
{
    let cause = cause_at(alloc, path, files)?;
    let line = line_about(alloc, path, cause)?;
    Ok(line)
}

// Why the file at the path can't be read.
fn cause_at<F: Files>(alloc: Global, path: &str, files: &mut F) -> Result<&'static str>
    ensures cause { IfOk result (λ cause. IsCause cause.now) }
    ensures unopened { F.opens files.new ≡ F.opens files.old }
    ensures worlds { F.worlds files.new ≡ F.worlds files.old }
{
    if is_folder(alloc, path, files)? {
        return Ok("is a folder");
    }
    match files.stat(path) {
        Ok(stamp) if stamp.size > MOST_BYTES => Ok("is longer than 1 GiB"),
        _ => Ok("reading failed"),
    }
}

// Whether there is a folder at the path.
fn is_folder<F: Files>(alloc: Global, path: &str, files: &mut F) -> Result<bool>
    ensures unopened { F.opens files.new ≡ F.opens files.old }
    ensures worlds { F.worlds files.new ≡ F.worlds files.old }
{
    // Only a folder has an entry named by a dot.
    let within = format!(in alloc; "{path}/.")?;
    Ok(files.stat(within.as_str()).is_ok())
}
