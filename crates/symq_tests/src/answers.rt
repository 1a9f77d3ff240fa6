//! The answers of Breakpad files.

use bz_samples::{BREAKPAD_CALLS, BREAKPAD_KINDS, BREAKPAD_PROGRAM};
use symq_runs::Edit::{Bytes, Text};
use symq_runs::{ADDRESSES, FIRST_RUN, Row};

/// The first file's answers to the two addresses.
const ANSWERS: &str =
    "0x1010: another func+0x10 start 0x1000 size 0x30 module bar at -\n0x1030: ? address not found in symbolization source\n";

/// A file of several records, whose line record tells the site. The same with carriage returns before
/// its line feeds follows.
const WITH_LINE: Row = Row {
    edits: &[Bytes("/a.sym", BREAKPAD_KINDS)],
    input: "1010\n0x1030\n",
    written: "0x1010: another func+0x10 start 0x1000 size 0x30 module bar at bar.c:7\n0x1030: ? address not found in symbolization source\n",
    ..FIRST_RUN
};

/// Its text, with a carriage return before each line feed.
const ONE_RETURN: &str =
    "MODULE Linux x86 ffff0000 bar\r\nFILE 53 bar.c\r\nPUBLIC 1234 10 some public\r\nFUNC 1000 30 10 another func\r\n1000 30 7 53\r\n";

/// The same with two of them.
const TWO_RETURNS: &str =
    "MODULE Linux x86 ffff0000 bar\r\r\nFILE 53 bar.c\r\r\nPUBLIC 1234 10 some public\r\r\nFUNC 1000 30 10 another func\r\r\n1000 30 7 53\r\r\n";

/// A file of every kind of record, with a blank line, and an address in a call that was inlined.
const EVERY_KIND: Row = Row {
    edits: &[Text(
        "/a.sym",
        "MODULE Linux x86 ffff0000 bar\nINFO CODE_ID 0\n\nFILE 53 bar.c\nINLINE_ORIGIN 1 a\nFUNC m 1000 30 10 another func\nINLINE 0 5 53 1 1000 8 1010 8\nINLINE_ORIGIN 2 b\n1000 30 7 53\nPUBLIC m 1234 10 some public\nSTACK WIN 4 1000 30\nSTACK CFI INIT 1000 30 .cfa: $rsp 8 +\nSTACK CFI 1001 .cfa: $rsp 16 +\n",
    )],
    input: ADDRESSES,
    written: "0x1010: another func+0x10 start 0x1000 size 0x30 module bar at bar.c:5\n  a at bar.c:7\n0x1030: ? address not found in symbolization source\n",
    ..FIRST_RUN
};

/// Calls in calls: they stand below their caller, each with its site; outside of them the line record
/// has it.
const CALLS: Row = Row {
    edits: &[Bytes("/a.sym", BREAKPAD_CALLS)],
    input: "1010\n1020\n1000\n",
    written: "0x1010: outer_func()+0x10 start 0x1000 size 0x30 module - at o.c:60\n  mid_func() at m.c:17\n  inner_func_2() at i2.c:52\n0x1020: outer_func()+0x20 start 0x1000 size 0x30 module - at o.c:62\n0x1000: ? an error occurred but was ignored in batch mode\n",
    ..FIRST_RUN
};

/// The file of a C program, as Breakpad writes it. Of its addresses one is in a call that was inlined,
/// one behind that call, and of the last one's function a PUBLIC record alone tells.
const PROGRAM: Row = Row {
    edits: &[Bytes("/a.sym", BREAKPAD_PROGRAM)],
    input: "1174\n1188\n1020\n",
    written: "0x1174: main+0x14 start 0x1160 size 0x2a module app at /src/app/main.c:12\n  clamp at /src/app/util.h:4\n0x1188: main+0x28 start 0x1160 size 0x2a module app at /src/app/main.c:13\n0x1020: _start+0x0 start 0x1020 size - module app at - public\n",
    ..FIRST_RUN
};

/// Each form of an answer's line, and of a file each kind of record.
pub(crate) static ROWS: [Row; 15] = [
    Row {
        input: ADDRESSES,
        written: ANSWERS,
        ..FIRST_RUN
    },
    PROGRAM,
    WITH_LINE,
    Row {
        edits: &[Text("/a.sym", ONE_RETURN)],
        ..WITH_LINE
    },
    Row {
        edits: &[Text("/a.sym", TWO_RETURNS)],
        ..WITH_LINE
    },
    EVERY_KIND,
    CALLS,
    Row {
        input: "0x1010\r\n\r\n1030",
        written: ANSWERS,
        ..FIRST_RUN
    },
    Row {
        edits: &[Text("/a.sym", "PUBLIC 10 0 p\n")],
        input: "10\nf\n",
        written: "0x10: p+0x0 start 0x10 size - module - at - public\n0xf: ? address not found in symbolization source\n",
        ..FIRST_RUN
    },
    Row {
        edits: &[Text("/a.sym", "INFO x\n")],
        input: "10\n",
        written: "0x10: ? symbolization source has no or no relevant symbols\n",
        ..FIRST_RUN
    },
    Row {
        edits: &[Text("/a.sym", "FUNC 1000 10 0 f\n\n1000 10 5 1\nFILE 1 a.c\n\n")],
        input: "1000\n",
        written: "0x1000: f+0x0 start 0x1000 size 0x10 module - at a.c:5\n",
        ..FIRST_RUN
    },
    FIRST_RUN,
    Row {
        edits: &[Text("/a.sym", "FUNC 1 2 3 x\nFUNC 1 3 3 y\n")],
        input: "1\n2\n4\n",
        written: "0x1: x+0x0 start 0x1 size 0x2 module - at -\n0x2: y+0x1 start 0x1 size 0x3 module - at -\n0x4: ? address not found in symbolization source\n",
        ..FIRST_RUN
    },
    Row {
        edits: &[Text("/a.sym", "MODULE a b c d\n")],
        input: "1\n",
        written: "0x1: ? symbolization source has no or no relevant symbols\n",
        ..FIRST_RUN
    },
    Row {
        edits: &[Text("/a.sym", "MODULE a b c \nFUNC 0 1 0 \n")],
        input: "0\n",
        written: "0x0: +0x0 start 0x0 size 0x1 module  at -\n",
        ..FIRST_RUN
    },
];
