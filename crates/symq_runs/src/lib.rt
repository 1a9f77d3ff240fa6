//! Runs of the program over files in memory, for tests. Rows tell what runs are given, and how they are
//! to end.
#![tactic(auto)]

use bz_base::Result;
use bz_files::{MemFiles, MemIn, MemOut};
use bz_run::run;
use bz_samples::{ELF_FUNCTION, put};
use bz_symq::{Command, Product, Status, run_command};
use std::alloc::Global;

/// An edit of files in memory.
pub enum Edit {
    /// The text is put at the path.
    Text(&'static str, &'static str),
    /// The bytes are put at the path.
    Bytes(&'static str, &'static [u8]),
    /// What is at the path may not be read.
    Deny(&'static str),
    /// Nothing is at the path any more.
    Remove(&'static str),
    /// The world after the last one begins; each request comes one world further.
    Next,
}

use Edit::{Bytes, Deny, Next, Remove, Text};

/// What runs are given, and how each of them is to end.
pub struct Row {
    /// The words of each run.
    pub lines: &'static [&'static [&'static str]],
    /// The path that is converted by a command in place of words, if it isn't empty.
    pub converted: &'static str,
    /// What makes the files, in two parts, and the process that they are seen by.
    pub edits: &'static [Edit],
    pub later: &'static [Edit],
    pub own_pid: u32,
    /// How many empty lines come before the input.
    pub blanks: usize,
    pub input: &'static str,
    /// The calls of files, input and output that fail, counted from 1; 0 where none does.
    pub faults: (u64, u64, u64),
    pub status: Status,
    pub written: &'static str,
    /// Whether all of it is written, or a part from its beginning on.
    pub whole: bool,
    /// How many files are read, where that is looked at.
    pub opens: Option<u64>,
}

/// A Breakpad file of one function.
const FIRST: &str = "MODULE Linux x86 ffff0000 bar\nFUNC 1000 30 10 another func\n";

/// An address in the function, and the one at its end.
pub const ADDRESSES: &str = "1010\n1030\n";

/// How the program is called.
pub const USAGE: &str = "usage: symq [OPTION] KIND [ARG]...\n";

/// A run over the first file for no addresses.
pub const FIRST_RUN: Row = Row {
    lines: &[&["breakpad", "/a.sym"]],
    converted: "",
    edits: &[Text("/a.sym", FIRST), Deny("/denied")],
    later: &[],
    own_pid: 7,
    blanks: 0,
    input: "",
    faults: (0, 0, 0),
    status: Status::Done,
    written: "",
    whole: true,
    opens: None,
};

/// A Breakpad file of one function with lines and an inlined call.
pub const SOURCE: &str =
    "MODULE Linux x86 ffff0000 bar\nFILE 53 bar.c\nINLINE_ORIGIN 1 a\nFUNC 1000 30 10 another func\nINLINE 0 5 53 1 1000 8 1010 8\n1000 30 7 53\n";

/// The Breakpad file at two paths, one of which looks like a flag, and a process with the ELF file that
/// it maps.
pub const SOURCES: &[Edit] = &[
    Text("/s.sym", SOURCE),
    Text("--no-inlined", SOURCE),
    Bytes("/bin/e", &ELF_FUNCTION),
    Text(
        "/proc/7/maps",
        "400000-401000 r-xp 00000000 08:01 11 /bin/e\n",
    ),
];

/// An answer of the Breakpad file.
pub const WHOLE_ANSWER: &str =
    "0x1010: another func+0x10 start 0x1000 size 0x30 module bar at bar.c:5\n  a at bar.c:7\n";

/// The same without code info.
pub const BARE_ANSWER: &str = "0x1010: another func+0x10 start 0x1000 size 0x30 module bar at -\n";

/// Makes an edit. Says whether memory was left, and what is removed was there.
fn make_edit(alloc: Global, files: &mut MemFiles, edit: &Edit) -> bool {
    match edit {
        Text(path, text) => put(alloc, files, path, text.as_bytes()).is_ok(),
        Bytes(path, bytes) => put(alloc, files, path, bytes).is_ok(),
        Deny(path) => files.deny(alloc, path).is_ok(),
        Remove(path) => files.remove(path),
        Next => files.schedule(alloc).is_ok(),
    }
}

/// Makes the edits in their order. Says whether each was made.
fn make_edits(alloc: Global, files: &mut MemFiles, edits: &[Edit]) -> bool {
    for edit in edits {
        if !make_edit(alloc, files, edit) {
            return false;
        }
    }
    true
}

/// The words, owned.
fn words_of(alloc: Global, line: &[&str]) -> Result<Vec<String>> {
    let mut words = Vec::new(alloc);
    for word in line {
        words.push(String::from_str(alloc, word)?)?;
    }
    Ok(words)
}

/// So many empty lines, and then the text.
fn input_of(alloc: Global, blanks: usize, text: &str) -> Result<Vec<u8>> {
    let mut input = vec![in alloc; b'\n'; blanks]?;
    input.extend_from_slice(text.as_bytes())?;
    Ok(input)
}

/// How the run of the words ends, or that of the row's command.
fn ended(
    alloc: Global,
    words: &[String],
    row: &Row,
    input: &mut MemIn,
    output: &mut MemOut,
    files: &mut MemFiles,
) -> Status {
    if row.converted.is_empty() {
        return run(alloc, words, input, output, files);
    }
    let command = Command::Make(Product::Converted(row.converted));
    run_command(alloc, &command, input, output, files)
}

/// Whether the part is the whole, or some of it from its beginning on, and not all.
fn is_written(part: &[u8], text: &[u8], whole: bool) -> bool {
    if whole {
        part == text
    } else {
        !part.is_empty() && part.len() < text.len() && text.starts_with(part)
    }
}

/// How many calls of a side fail in a run: the one that ends it by a fault.
fn count_of(row: &Row, call: u64) -> u64 {
    if row.status == Status::Fault && call > 0 {
        1
    } else {
        0
    }
}

/// Whether so many calls of files, input and output failed.
fn have_failed(row: &Row, files: &MemFiles, input: &MemIn, output: &MemOut) -> bool {
    let (look, read, write) = row.faults;
    files.faults() == count_of(row, look)
        && input.faults() == count_of(row, read)
        && output.faults() == count_of(row, write)
}

/// Whether the run of the words ends as the row says, with this written.
fn ends_by(
    alloc: Global,
    words: &[String],
    row: &Row,
    written: &str,
    input: &mut MemIn,
    output: &mut MemOut,
    files: &mut MemFiles,
) -> bool {
    input.fail_call(row.faults.1);
    output.fail_call(row.faults.2);
    make_edits(alloc, files, row.edits)
        && make_edits(alloc, files, row.later)
        && files.fail_call(alloc, row.faults.0).is_ok()
        && ended(alloc, words, row, input, output, files) == row.status
        && is_written(output.written(), written.as_bytes(), row.whole)
        && row.opens.unwrap_or(files.opens()) == files.opens()
        && have_failed(row, files, input, output)
}

/// Whether the run of the line over this input ends as the row says, with this written.
pub fn ends_on(alloc: Global, line: &[&str], row: &Row, input: &str, written: &str) -> bool {
    let Ok(words) = words_of(alloc, line) else {
        return false;
    };
    let Ok(bytes) = input_of(alloc, row.blanks, input) else {
        return false;
    };
    let mut input = MemIn::new(bytes);
    let mut output = MemOut::new(alloc);
    let mut files = MemFiles::new(alloc, row.own_pid);
    let words = words.as_slice();
    ends_by(
        alloc,
        words,
        row,
        written,
        &mut input,
        &mut output,
        &mut files,
    )
}

/// Whether each run of the row ends as it says.
fn ends_so(alloc: Global, row: &Row) -> bool {
    for line in row.lines {
        if !ends_on(alloc, line, row, row.input, row.written) {
            return false;
        }
    }
    true
}

/// A table of runs, and what it is about.
pub type Table = (&'static str, &'static [Row]);

/// The first table of which some row has a run that doesn't end as it says, and that row. The name
/// is empty where there is none.
pub fn first_to_fail(alloc: Global, tables: &[Table]) -> (&'static str, usize) {
    for (name, rows) in tables {
        for index in 0..rows.len() {
            if !ends_so(alloc, &rows[index]) {
                return (*name, index);
            }
        }
    }
    ("", 0)
}
