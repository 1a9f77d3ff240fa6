//! The message of a run.

ghost use Rattle.std.specs.Prelude.{◌≡◌, None, is_some, true, map, option_map, string_bytes, IfSome};
ghost use Rattle.std.specs.Cow.{cow_str_bytes};
ghost use Rattle.bz_files.specs.Looked.{ReadsOne};
ghost use Rattle.bz_files.specs.World.{Told, in_view};
ghost use Rattle.bz_symq.specs.Outcome.{message_of};
ghost use Rattle.bz_words.specs.Messages.{IsAboutFailed, IsSilent, HasMessage, ReadsForMessage, SaysWhere};

use crate::failed::{Failed, failure};
use crate::faulty::complaint;
use crate::refused::refused_file;
use bz_files::Files;
use bz_symq::Status;
use std::alloc::{AllocError, Global};
use std::borrow::CowStr;

/// What command lines there are: said of faulty words of which nothing closer is known.
const NO_COMMAND: &str =
    "symq: not a command line: one of breakpad PATH, gsym PATH, elf PATH, process PID, canon PATH, convert PATH, stacks PATH, frames ROOT, serve, gen SEED FUNCTIONS ADDRESSES; --input abs, virt or file goes with the first four";

/// The kinds of command, each with what is said where its arguments are wrong.
static USES: [(&str, &str); 10] = [
    (
        "breakpad",
        "symq: breakpad takes one PATH; addresses come on standard input",
    ),
    (
        "gsym",
        "symq: gsym takes one PATH; addresses come on standard input",
    ),
    (
        "elf",
        "symq: elf takes one PATH; addresses come on standard input",
    ),
    (
        "process",
        "symq: process takes one PID, at most 4294967295; addresses come on standard input",
    ),
    (
        "serve",
        "symq: serve takes nothing; requests come on standard input",
    ),
    (
        "stacks",
        "symq: stacks takes one PATH; stacks come on standard input",
    ),
    (
        "frames",
        "symq: frames takes one ROOT; frames come on standard input",
    ),
    ("canon", "symq: canon takes one PATH"),
    ("convert", "symq: convert takes one PATH"),
    (
        "gen",
        "symq: gen takes SEED, at most 2147483647, FUNCTIONS, 1 to 100000, and ADDRESSES, at most 100000",
    ),
];

/// What standard error says of a run of these words that ended so, without the end of the last line.
/// It says nothing of a run that is done or whose input is bad, of which standard output says it all.
/// Of a refused run it says where the Breakpad file is refused that the words name, if that is read
/// once more and is refused. Of a faulty command line it says what is wrong with it, in one line. Of a
/// failed run it says which side failed, by the counts, and at which path if that is known. Where
/// memory ran out it says that. It reads one file at most, and only of a refused run.
pub fn message<F: Files>(
    alloc: Global,
    words: &[String],
    status: Status,
    failed: Failed,
    files: &mut F,
) -> Option<CowStr<'static>>
    ensures silent { IsSilent status → result ≡ None }
    ensures refused { status ≡ Status.Refused → Told (in_view (F.worlds files.old)) (λ world. IfSome result (λ line. SaysWhere (map string_bytes words.now) world (cow_str_bytes line))) }
    ensures about { status ≡ Status.Fault → IfSome result (λ line. IsAboutFailed (map string_bytes words.now) failed (cow_str_bytes line)) }
    ensures memory { status ≡ Status.Memory → option_map cow_str_bytes result ≡ message_of status }
    ensures sure { HasMessage status → is_some result ≡ true }
    ensures files { ReadsForMessage F.Files status files.old files.new }
{
    match status {
        Status::Done | Status::Input => None,
        Status::Refused => where_refused(alloc, words, files),
        Status::Usage => Some(usage(alloc, words)),
        Status::Fault => Some(failure(alloc, words, failed, files)),
        Status::Memory => stored_message(status),
    }
}

/// What the status says by itself.
pub fn stored_message(status: Status) -> Option<CowStr<'static>>
    ensures { option_map cow_str_bytes result ≡ message_of status }
{
    match status.message() {
        Some(text) => Some(CowStr::Borrowed(text)),
        None => None,
    }
}

// Where the Breakpad file is refused that the words name.
fn where_refused<F: Files>(
    alloc: Global,
    words: &[String],
    files: &mut F,
) -> Option<CowStr<'static>>
    ensures says { Told (in_view (F.worlds files.old)) (λ world. IfSome result (λ line. SaysWhere (map string_bytes words.now) world (cow_str_bytes line))) }
    ensures most { ReadsOne F.Files files.old files.new }
    ensures worlds { F.worlds files.new ≡ F.worlds files.old }
{
    match refused_file(alloc, words, files) {
        Ok(Some(line)) => Some(CowStr::Owned(line)),
        Ok(None) | Err(_) => None,
    }
}

// What is wrong with the words, if anything is known of it, in one line.
fn usage(alloc: Global, words: &[String]) -> CowStr<'static> {
    match complaint_line(alloc, words) {
        Ok(Some(line)) => CowStr::Owned(line),
        Ok(None) => CowStr::Borrowed(kind_use(words)),
        Err(_) => CowStr::Borrowed(NO_COMMAND),
    }
}

// What the kind of command takes that the first word without a dash names. Else, or where the words
// have an option with a value, which kinds there are, and which of them the option goes with.
fn kind_use(words: &[String]) -> &'static str {
    if has_value(words) {
        return NO_COMMAND;
    }
    for word in words {
        if !word.as_str().starts_with('-') {
            return use_of(word.as_str());
        }
    }
    NO_COMMAND
}

// Whether a word is the one option that has a value.
fn has_value(words: &[String]) -> bool {
    for word in words {
        let word = word.as_str();
        if word == "--input" || word.starts_with("--input=") {
            return true;
        }
    }
    false
}

// What the kind of command of a name takes, or else which kinds there are.
fn use_of(name: &str) -> &'static str {
    for (kind, said) in &USES {
        if *kind == name {
            return said;
        }
    }
    NO_COMMAND
}

// The first line of what `clap` says of words that it refuses, if it is whole by itself.
fn complaint_line(
    alloc: Global,
    words: &[String],
) -> std::result::Result<Option<String>, AllocError> {
    let Some(said) = complaint(alloc, words)? else {
        return Ok(None);
    };
    match said.as_str().split_once('\n') {
        // What is missing stands in the lines behind it.
        Some((line, _)) if line.ends_with(':') => Ok(None),
        Some((line, _)) => Ok(Some(String::from_str(alloc, line)?)),
        None => Ok(Some(said)),
    }
}
