//! Where a file is refused.

ghost use Rattle.std.specs.Prelude.{◌≡◌, None, map, option_map, string_bytes, IfOk, IfErr, IsOkUnless};
ghost use Rattle.bz_base.specs.Refusals.{IsFailure};
ghost use Rattle.bz_base.specs.declared.error.Error.{Error};
ghost use Rattle.bz_files.specs.Looked.{Faulted, Looked, ReadsOne};
ghost use Rattle.bz_files.specs.World.{Told, in_view};
ghost use Rattle.bz_words.specs.Messages.{SaysAt, SaysOf, SaysWhere, Tells, breakpad_path, named_file, line_about, said_of};
ghost use Rattle.bz_words.specs.Command.{job_of};

use crate::given::{Job, Product};
use crate::words::{BadWords, read_command};
use bz_base::{Error, Input, Result};
use bz_breakpad_table::{Refused, first_refused};
use bz_files::{FileError, Files};
use bz_requests::Target;
use std::alloc::{AllocError, Global};

/// A line that says where the file is refused that the words ask to read as a Breakpad file. There is
/// none where it isn't refused so, or there is no such file. ReadFault: the file couldn't be read.
pub fn refused_file<F: Files>(
    alloc: Global,
    words: &[String],
    files: &mut F,
) -> Result<Option<String>>
    ensures tells { Told (in_view (F.worlds files.old)) (λ world. IfOk result (λ said. Tells (option_map string_bytes said) (SaysWhere (map string_bytes words.now) world))) }
    ensures spared { named_file (map string_bytes words.now) ≡ None → F.opens files.new ≡ F.opens files.old }
    ensures most { ReadsOne F.Files files.old files.new }
    ensures files { Looked F.Files files.old files.new (Faulted result) }
    ensures failure { IfErr result IsFailure }
{
    match read_command(alloc, words) {
        Ok(command) => match breakpad_path(&command.job) {
            Some(path) => refused_at(alloc, path, files),
            None => Ok(None),
        },
        Err(BadWords::Usage) => Ok(None),
        Err(BadWords::OutOfMemory) => Err(Error::OutOfMemory),
    }
}

/// The path of the file that the words ask to read as a Breakpad file, if they do.
pub fn named_file(alloc: Global, words: &[String]) -> Result<Option<String>>
    ensures named { IfOk result (λ path. option_map string_bytes path ≡ named_file (map string_bytes words.now)) }
    ensures memory { IsOkUnless result Error.OutOfMemory }
{
    match read_command(alloc, words) {
        Ok(command) => owned_breakpad_path(alloc, &command.job),
        Err(BadWords::Usage) => Ok(None),
        Err(BadWords::OutOfMemory) => Err(Error::OutOfMemory),
    }
}

// The path of the file that the job reads as a Breakpad file, as a text of its own.
fn owned_breakpad_path(alloc: Global, job: &Job) -> Result<Option<String>>
    ensures named { IfOk result (λ path. option_map string_bytes path ≡ breakpad_path (job_of job.now)) }
    ensures memory { IsOkUnless result Error.OutOfMemory }
{
    match breakpad_path(job) {
        Some(path) => {
            let path = path.to_string(alloc)?;
            Ok(Some(path))
        }
        None => Ok(None),
    }
}

// The path of the file that the job reads as a Breakpad file.
fn breakpad_path(job: &Job) -> Option<&str>
    ensures { option_map (λ path. path.now) result ≡ breakpad_path (job_of job.now) }
{
    match job {
        Job::Batch(Target::Breakpad(path), Input::FileOffset(()))
        | Job::Make(Product::Canonical(path) | Product::Converted(path))
        | Job::Stacks(path) => Some(path.as_str()),
        _ => None,
    }
}

// A line that says where the file at the path is refused as a Breakpad file.
fn refused_at<F: Files>(alloc: Global, path: &str, files: &mut F) -> Result<Option<String>>
    ensures tells { Told (in_view (F.worlds files.old)) (λ world. IfOk result (λ said. Tells (option_map string_bytes said) (SaysAt path.now world))) }
    ensures most { ReadsOne F.Files files.old files.new }
    ensures files { Looked F.Files files.old files.new (Faulted result) }
    ensures failure { IfErr result IsFailure }
{
    match files.read(alloc, path) {
        Ok(bytes) => refused_of(alloc, path, bytes.as_slice()),
        Err(FileError::NotFound | FileError::Denied) => Ok(None),
        Err(FileError::Fault) => Err(Error::ReadFault),
        Err(FileError::OutOfMemory) => Err(Error::OutOfMemory),
    }
}

// A line that says where the bytes of the file at the path are refused.
fn refused_of(alloc: Global, path: &str, bytes: &[u8]) -> Result<Option<String>>
    ensures tells { IfOk result (λ said. Tells (option_map string_bytes said) (SaysOf path.now bytes.now)) }
    ensures memory { IsOkUnless result Error.OutOfMemory }
{
    match first_refused(alloc, bytes)? {
        Some(why) => {
            let line = refused_line(alloc, path, why)?;
            Ok(Some(line))
        }
        None => Ok(None),
    }
}

// A line that says why the file at the path is refused.
fn refused_line(alloc: Global, path: &str, why: Refused) -> std::result::Result<String, AllocError>
    ensures { IfOk result (λ line. string_bytes line ≡ line_about path.now (said_of why)) }
{
    match why {
        Refused::Line(number) => {
            let said = format!(in alloc; "line {number}: no Breakpad record, or out of place")?;
            line_about(alloc, path, said.as_str())
        }
        Refused::NoEnd => line_about(alloc, path, "the last line has no end"),
        Refused::Empty => line_about(alloc, path, "no lines"),
    }
}

/// A line about what lies at a path.
pub(crate) fn line_about(
    alloc: Global,
    path: &str,
    said: &str,
) -> std::result::Result<String, AllocError>
    ensures { IfOk result (λ line. string_bytes line ≡ line_about path.now said.now) }
{
    let line = format!(in alloc; "symq: {path}: {said}")?;
    Ok(line)
}
