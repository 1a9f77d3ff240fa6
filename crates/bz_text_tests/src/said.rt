//! Runs, and what standard error says of them.

use crate::words::words_of;
use bz_base::Result;
use bz_files::{MemFiles, Stamp};
use bz_symq::Status;
use bz_words::{Failed, message, named_file};
use std::alloc::Global;

/// The words of a run, which stand between spaces, and how what is said of it begins, or nothing.
type Said = (&'static str, &'static str);

/// How runs ended; how many calls failed on standard input, on standard output, and on files; and what
/// is said of them.
type Runs = (Status, (u64, u64, u64), &'static [Said]);

/// Runs refused for the text of a Breakpad file, and runs refused for something else, of which
/// nothing is said.
const REFUSED: &[Said] = &[
    (
        "breakpad /bad",
        "symq: /bad: line 3: no Breakpad record, or out of place",
    ),
    (
        "canon /bad",
        "symq: /bad: line 3: no Breakpad record, or out of place",
    ),
    (
        "convert /bad",
        "symq: /bad: line 3: no Breakpad record, or out of place",
    ),
    (
        "--no-inlined breakpad /bad",
        "symq: /bad: line 3: no Breakpad record, or out of place",
    ),
    ("breakpad /cut", "symq: /cut: the last line has no end"),
    ("canon /empty", "symq: /empty: no lines"),
    ("breakpad /none", ""),
    ("breakpad /denied", ""),
    ("breakpad /good", ""),
    ("breakpad --input abs /bad", ""),
    ("gsym /bad", ""),
    ("process 7", ""),
];

/// Words that are no command.
const MISUSED: &[Said] = &[
    (
        "--bogus breakpad /bad",
        "error: unexpected argument '--bogus' found",
    ),
    (
        "--no-reload breakpad --no-reload /bad",
        "error: the argument '--no-reload' cannot be used multiple times",
    ),
    ("--no-reload", "symq: not a command line: "),
    ("--help", "Usage: symq "),
    ("elf /a --input other", "symq: not a command line: one of "),
    (
        "convert /a --input abs",
        "symq: not a command line: one of ",
    ),
    ("--input=virt elf", "symq: not a command line: one of "),
    ("what /bad", "symq: not a command line: "),
    ("breakpad", "symq: breakpad takes one PATH; addresses come"),
    ("process x", "symq: process takes one PID, "),
    ("--no-reload gen 1 0 4", "symq: gen takes SEED, "),
    ("gsym", "symq: gsym takes one PATH; addresses"),
    ("elf a b", "symq: elf takes one PATH; addresses"),
    ("serve x", "symq: serve takes nothing; requests"),
    ("stacks", "symq: stacks takes one PATH; stacks"),
    ("frames a b", "symq: frames takes one ROOT; frames"),
    ("canon", "symq: canon takes one PATH"),
    ("convert a b", "symq: convert takes one PATH"),
];

/// Files that can't be read.
const UNREAD: &[Said] = &[
    ("breakpad /good", "symq: /good: reading failed"),
    ("breakpad /folder", "symq: /folder: is a folder"),
    ("canon /folder", "symq: /folder: is a folder"),
    ("gsym /long", "symq: /long: is longer than 1 GiB"),
    ("elf /none", "symq: /none: reading failed"),
    ("process 7", "symq: reading a file failed"),
    ("serve", "symq: reading a file failed"),
];

/// Of each way to end what is said, if anything is.
static RUNS: [Runs; 8] = [
    (Status::Refused, (0, 0, 0), REFUSED),
    (Status::Usage, (0, 0, 0), MISUSED),
    (
        Status::Fault,
        (1, 0, 0),
        &[("breakpad /good", "symq: standard input: reading failed")],
    ),
    (
        Status::Fault,
        (0, 1, 0),
        &[("breakpad /good", "symq: standard output: writing failed")],
    ),
    (Status::Fault, (0, 0, 1), UNREAD),
    (
        Status::Memory,
        (0, 0, 0),
        &[("breakpad /bad", "symq: out of memory")],
    ),
    (Status::Done, (0, 0, 0), &[("breakpad /bad", "")]),
    (
        Status::Input,
        (0, 0, 0),
        &[("breakpad /bad", ""), ("serve", "")],
    ),
];

/// Files by their texts; a folder has itself in it.
static FILES: [(&str, &[u8]); 5] = [
    ("/good", b"FUNC 1 2 3 x\n1 2 3 4\n"),
    ("/bad", b"FUNC 1 2 3 x\n1 2 3 4\n1 2 3\n"),
    ("/cut", b"FUNC 1 2 3 x\n1 2 3 4"),
    ("/empty", b""),
    ("/folder/.", b""),
];

/// Puts them all, one that may not be read, and a long one, which has its length in its stamp.
fn put_files(alloc: Global, files: &mut MemFiles) -> Result<()> {
    for (path, text) in &FILES {
        files.put(alloc, path, Vec::from_slice(alloc, text)?)?;
    }
    files.deny(alloc, "/denied")?;
    let stamp = Stamp {
        dev: 1,
        inode: 1,
        size: 1_073_741_825,
        mtime_sec: 1,
        mtime_nsec: 1,
    };
    files.put_as(alloc, "/long", stamp, Vec::new(alloc))?;
    Ok(())
}

/// Whether this is said of a run that ended so.
fn is_said(
    alloc: Global,
    files: &mut MemFiles,
    words: &[String],
    runs: &Runs,
    start: &str,
) -> bool {
    let (input, output, looks) = runs.1;
    let failed = Failed {
        input,
        output,
        files: looks,
    };
    match message(alloc, words, runs.0, failed, files) {
        Some(said) => !start.is_empty() && said.as_str().starts_with(start),
        None => start.is_empty(),
    }
}

/// The words of the first run of which something else is said; nothing where there is none.
fn first_unsaid(alloc: Global, files: &mut MemFiles, runs: &Runs) -> &'static str {
    for (line, start) in runs.2 {
        let Some(words) = words_of(alloc, line) else {
            return *line;
        };
        if !is_said(alloc, files, words.as_slice(), runs, start) {
            return *line;
        }
    }
    ""
}

/// The same over these files.
fn first_of_unsaid(alloc: Global, runs: &Runs) -> &'static str {
    let mut files = MemFiles::new(alloc, 7);
    if put_files(alloc, &mut files).is_err() {
        return "files";
    }
    first_unsaid(alloc, &mut files, runs)
}

#[test]
fn says_what_a_run_lacks_or_nothing(rt: HostRuntime) {
    let all = &RUNS;
    for index in 0..all.len() {
        let unsaid = first_of_unsaid(rt.alloc(), &all[index]);
        assert!(rt; unsaid.is_empty(), "runs {index}: {unsaid}");
    }
}

/// Words, and the Breakpad file that they ask to read, or nothing.
static NAMED: [(&str, &str); 7] = [
    ("breakpad a.sym", "a.sym"),
    ("breakpad --no-inlined breakpad", "breakpad"),
    ("canon a.sym", "a.sym"),
    ("convert a.sym", "a.sym"),
    ("stacks a.sym", "a.sym"),
    ("gsym a.gsym", ""),
    ("a.sym", ""),
];

/// Whether the words name that file.
fn is_named(alloc: Global, words: &[String], file: &str) -> bool {
    match named_file(alloc, words) {
        Ok(Some(path)) => path.as_str() == file,
        Ok(None) => file.is_empty(),
        Err(_) => false,
    }
}

/// The same of the words of a line.
fn names(alloc: Global, line: &str, file: &str) -> bool {
    match words_of(alloc, line) {
        Some(words) => is_named(alloc, words.as_slice(), file),
        None => false,
    }
}

#[test]
fn names_the_breakpad_file_that_is_read_or_none(rt: HostRuntime) {
    let named = &NAMED;
    for index in 0..named.len() {
        let (line, file) = named[index];
        assert!(rt; names(rt.alloc(), line, file), "row {index}");
    }
}
