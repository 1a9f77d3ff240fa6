//! Stacks that are folded by what sources answer, and refused as these refuse.

use crate::files::{File, put_all};
use bz_base::Error::{NotFound, Unsupported};
use bz_base::Input::{AbsAddr, FileOffset, VirtOffset};
use bz_base::{Input, Result};
use bz_files::MemFiles;
use bz_samples::{BREAKPAD_CALLS, GSYM_CALLS};
use bz_stacks::{Stack, fold, read_stacks};
use bz_symbolize::source::{Breakpad, GsymData, Process, Source};
use bz_symbolize::{Pid, Symbolizer};
use std::alloc::Global;

/// A source that is asked.
enum Asked {
    /// The Breakpad file at `/s.sym`.
    File,
    /// GSYM bytes that are handed in.
    Bytes,
    /// Process 7.
    Process,
}

/// What is asked of a source, and what comes of it.
struct Step {
    /// The files that are put first.
    files: &'static [File],
    /// The kind of the addresses.
    kind: Input<()>,
    /// The lines of stacks that are folded then.
    lines: &'static str,
    /// The text that they may fold to.
    text: &'static str,
    /// Whether the stacks fold to the text, or how they are refused.
    folded: Result<bool>,
    /// How many files are read by then.
    opens: u64,
}

/// Inlined calls inside one another.
const NESTED: &[File] = &[("/s.sym", BREAKPAD_CALLS)];

/// A name with a `;`.
const SEMICOLON: &[File] = &[("/s.sym", b"FUNC 1 1 0 a;b\n")];

/// An inlined call whose origin is missing.
const NO_ORIGIN: &[File] = &[(
    "/s.sym",
    b"FILE 0 a.c\nFUNC 10 8 0 f\nINLINE 0 1 0 3 10 4\n10 8 1 0\n",
)];

/// A function.
const PLAIN: &[File] = &[("/s.sym", b"FUNC 1 1 0 a\n")];

/// A function, put where no file was.
const ONE: &[File] = &[("/s.sym", b"FUNC 1000 20 0 one\n")];

/// The mappings of process 7, its status and its perf map.
const PROCESS: &[File] = &[
    (
        "/proc/7/maps",
        b"3000-4000 rw-p 00000000 00:00 0\n5000-6000 r-xp 00000000 00:00 0 [vdso]\n",
    ),
    ("/proc/7/status", b"Name:\tx\n"),
    ("/proc/7/root/tmp/perf-7.map", b"3000 10 jit\n3010 10 a;b\n"),
];

/// A source, and what is asked of it one after the other.
static ROWS: [(Asked, &[Step]); 10] = [
    // Paths of one address and of two.
    (
        Asked::File,
        &[Step {
            files: NESTED,
            kind: FileOffset(()),
            lines: "1010 2\n1020 3\n1010 5\n2000 1020 1\n",
            text: "[unknown];outer_func() 1\nouter_func() 3\nouter_func();mid_func();inner_func_2() 7\n",
            folded: Ok(true),
            opens: 1,
        }],
    ),
    // One path from different addresses.
    (
        Asked::File,
        &[Step {
            files: NESTED,
            kind: FileOffset(()),
            lines: "1020 1010 1\n\n0x102f 0x101F 2\r\n1020 0",
            text: "outer_func() 0\nouter_func();outer_func();mid_func();inner_func_2() 3\n",
            folded: Ok(true),
            opens: 1,
        }],
    ),
    // The same counts in other groups and in another order.
    (
        Asked::File,
        &[Step {
            files: NESTED,
            kind: FileOffset(()),
            lines: "2000 102f 1\n1011 3\n1020 1\n101f 4\n1021 2\n",
            text: "[unknown];outer_func() 1\nouter_func() 3\nouter_func();mid_func();inner_func_2() 7\n",
            folded: Ok(true),
            opens: 1,
        }],
    ),
    (
        Asked::File,
        &[Step {
            files: SEMICOLON,
            kind: FileOffset(()),
            lines: "1 4\n",
            text: "a:b 4\n",
            folded: Ok(true),
            opens: 1,
        }],
    ),
    // The address of the missing origin is refused.
    (
        Asked::File,
        &[Step {
            files: NO_ORIGIN,
            kind: FileOffset(()),
            lines: "10 1\n14 2\n",
            text: "[unknown] 1\nf 2\n",
            folded: Ok(true),
            opens: 1,
        }],
    ),
    // No stack.
    (
        Asked::File,
        &[Step {
            files: PLAIN,
            kind: FileOffset(()),
            lines: "\n\r\n",
            text: "",
            folded: Ok(true),
            opens: 1,
        }],
    ),
    // Refused calls read no file, and leave nothing in the way of one that is answered.
    (
        Asked::File,
        &[
            Step {
                files: &[],
                kind: FileOffset(()),
                lines: "1000 1\n",
                text: "",
                folded: Err(NotFound),
                opens: 0,
            },
            Step {
                files: ONE,
                kind: AbsAddr(()),
                lines: "1000 1\n",
                text: "",
                folded: Err(Unsupported),
                opens: 0,
            },
            Step {
                files: &[],
                kind: FileOffset(()),
                lines: "1010 1\n",
                text: "one 1\n",
                folded: Ok(true),
                opens: 1,
            },
        ],
    ),
    // `main` with a call of `sub`, `sub` alone, and no symbol.
    (
        Asked::Bytes,
        &[Step {
            files: &[],
            kind: VirtOffset(()),
            lines: "1040 1004 2\n1020 3\n1040 1005 1\n",
            text: "[unknown] 3\nsub;main;sub 3\n",
            folded: Ok(true),
            opens: 0,
        }],
    ),
    // A process answers by its perf map.
    (
        Asked::Process,
        &[Step {
            files: PROCESS,
            kind: AbsAddr(()),
            lines: "3008 7000 1\n5000 3008 3018 2\n3000 2000 4\n",
            text: "[unknown];jit;a:b 2\njit;[unknown] 5\n",
            folded: Ok(true),
            opens: 3,
        }],
    ),
    // A process that isn't there is refused, and so is another kind of address.
    (
        Asked::Process,
        &[
            Step {
                files: &[],
                kind: AbsAddr(()),
                lines: "1000 1\n",
                text: "",
                folded: Err(NotFound),
                opens: 0,
            },
            Step {
                files: PROCESS,
                kind: FileOffset(()),
                lines: "1000 1\n",
                text: "",
                folded: Err(Unsupported),
                opens: 0,
            },
        ],
    ),
];

/// The source.
fn source(alloc: Global, asked: &Asked) -> Result<Source<'static>> {
    match asked {
        Asked::File => Ok(Source::from(Breakpad::new(String::from_str(alloc, "/s.sym")?))),
        Asked::Bytes => Ok(Source::from(GsymData::new(&GSYM_CALLS))),
        Asked::Process => Ok(Source::from(Process::new(Pid::from(7)))),
    }
}

/// Whether the stacks, of which there are few, fold to the step's text, or how they are refused.
fn fold_few(
    alloc: Global,
    symbolizer: &mut Symbolizer,
    files: &mut MemFiles,
    src: &Source<'_>,
    stacks: &[Stack],
    step: &Step,
) -> Result<bool> {
    if stacks.len() > 9 {
        return Ok(false);
    }
    let text = fold(alloc, symbolizer, files, src, step.kind, stacks)?;
    Ok(text.as_slice() == step.text.as_bytes())
}

/// The same of the stacks of the step's lines.
fn fold_lines(
    alloc: Global,
    symbolizer: &mut Symbolizer,
    files: &mut MemFiles,
    src: &Source<'_>,
    step: &Step,
) -> Result<bool> {
    match read_stacks(alloc, step.lines.as_bytes()) {
        Ok(stacks) => fold_few(alloc, symbolizer, files, src, &stacks, step),
        Err(_) => Ok(false),
    }
}

/// Whether each step is answered or refused so.
fn are_answered(
    alloc: Global,
    symbolizer: &mut Symbolizer,
    files: &mut MemFiles,
    src: &Source<'_>,
    steps: &[Step],
) -> bool {
    for step in steps {
        if !put_all(alloc, files, step.files)
            || fold_lines(alloc, symbolizer, files, src, step) != step.folded
            || files.opens() != step.opens
        {
            return false;
        }
    }
    true
}

/// Whether each step is answered or refused so by a new symbolizer.
fn holds(alloc: Global, asked: &Asked, steps: &[Step]) -> bool {
    let Ok(src) = source(alloc, asked) else {
        return false;
    };
    let mut files = MemFiles::new(alloc, 0);
    let mut symbolizer = Symbolizer::new(alloc);
    are_answered(alloc, &mut symbolizer, &mut files, &src, steps)
}

#[test]
fn stacks_fold_by_what_sources_answer_or_are_refused(rt: HostRuntime) {
    let rows = &ROWS;
    for index in 0..rows.len() {
        let row = &rows[index];
        assert!(rt; holds(rt.alloc(), &row.0, row.1), "row {index}");
    }
}
