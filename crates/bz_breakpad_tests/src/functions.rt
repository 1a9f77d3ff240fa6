//! What a file's functions tell, what is found in one, their orders, and walks of them.

use crate::fact::Fact::{Function, Functions, InFile};
use crate::fact::Row;
use crate::fact::Told::{
    CallAtDepth, Calls, CallsAround, LineRecord, Lines, Nothing, OneByOne, Parts,
};
use bz_breakpad::{Inlinee, SourceLine};
use bz_samples::{BREAKPAD_CALLS, BREAKPAD_KINDS};

/// The line of BREAKPAD_CALLS at 0x1010.
const LINE: SourceLine = SourceLine {
    addr: 0x1010,
    size: 0x10,
    file: 8,
    line: 52,
};

/// The outer call there.
const OUTER: Inlinee = Inlinee {
    depth: 0,
    addr: 0x1000,
    size: 0x20,
    call_file: 15,
    call_line: 60,
    origin_id: 2,
};

/// The inner call there.
const INNER: Inlinee = Inlinee {
    depth: 1,
    addr: 0x1010,
    size: 0x10,
    call_file: 4,
    call_line: 17,
    origin_id: 1,
};

/// The function at an address, and the line and the calls at one.
pub(crate) const FOUND: &[Row] = &[
    (
        BREAKPAD_KINDS,
        &[
            Function(0xfff, Nothing),
            Function(0x1000, Parts("another func", 0x1000, 0x30, 0x10)),
            Function(0x102f, Parts("another func", 0x1000, 0x30, 0x10)),
            Function(0x1030, Nothing),
        ],
    ),
    (
        BREAKPAD_CALLS,
        &[
            Function(0x1010, LineRecord(0x1010, Some(LINE))),
            Function(0x1010, LineRecord(0x1030, None)),
            Function(0x1010, CallAtDepth(1, 0x1010, Some(INNER))),
            Function(0x1010, CallAtDepth(2, 0x1010, None)),
            Function(0x1010, CallsAround(0x1010, &[OUTER, INNER])),
        ],
    ),
];

/// The ranges of calls of three depths, of which two are alike in depth and start.
const INLINEES: &[Inlinee] = &[
    Inlinee {
        depth: 0,
        addr: 0x1000,
        size: 0x40,
        call_file: 4,
        call_line: 20,
        origin_id: 1,
    },
    Inlinee {
        depth: 1,
        addr: 0x1008,
        size: 8,
        call_file: 5,
        call_line: 21,
        origin_id: 2,
    },
    Inlinee {
        depth: 1,
        addr: 0x1008,
        size: 2,
        call_file: 6,
        call_line: 23,
        origin_id: 4,
    },
    Inlinee {
        depth: 1,
        addr: 0x1010,
        size: 0x10,
        call_file: 5,
        call_line: 21,
        origin_id: 2,
    },
    Inlinee {
        depth: 2,
        addr: 0x1010,
        size: 4,
        call_file: 5,
        call_line: 22,
        origin_id: 3,
    },
];

/// Functions and lines in the order of start and size, and calls in the order of depth and start.
pub(crate) const IN_ORDER: &[Row] = &[
    (b"FUNC 10 8 0 a\nFUNC 20 8 0 b\n", &[Functions(&["a", "b"])]),
    (
        b"FUNC 30 10 0 c\nFUNC 10 20 0 b\nFUNC m 10 8 0 a\nFUNC 30 10 4 d\n",
        &[Functions(&["a", "b", "c", "d"])],
    ),
    (b"FILE 1 a\n", &[Functions(&[])]),
    // a run of lines, before another record and at the end of the file
    (
        b"FUNC 1000 60 0 f\n1000 10 7 1\n1010 8 3 1\n1020 8 5 1\nINFO a record of more bytes than a load\n",
        &[Function(0x1000, Lines(&[7, 3, 5]))],
    ),
    (
        b"FUNC 1000 60 0 f\n1000 10 7 1\n1010 8 3 1\n",
        &[Function(0x1000, Lines(&[7, 3]))],
    ),
    (
        b"FUNC 1000 60 0 f\n1020 8 4 1\n1010 8 2 1\n1000 10 1 1\n1010 8 3 2\n1010 4 9 1\n",
        &[Function(0x1000, Lines(&[1, 9, 2, 3, 4]))],
    ),
    (
        b"FUNC 1000 60 0 f\n1000 10 7 1\nINLINE 0 5 1 1 1000 8\n1010 8 3 1\nFUNC 2000 10 0 g\n2000 10 8 1\n",
        &[Function(0x1000, Lines(&[7, 3]))],
    ),
    (b"FUNC 1000 60 0 f\n", &[Function(0x1000, Lines(&[]))]),
    // calls out of order
    (
        b"FUNC 1000 100 0 f\nINLINE 1 21 5 2 1010 10 1008 8\nINLINE 0 20 4 1 1000 40\nINLINE 2 22 5 3 1010 4\nINLINE 1 23 6 4 1008 2\n",
        &[Function(0x1000, Calls(INLINEES))],
    ),
];

/// The lines of a run with numbers of more than four digits.
const LONG: &[(u64, u32, u32, u32)] = &[
    (0x1000, 0x10, 12345, 1),
    (0x1010, 8, 123456, 10007),
    (0x1020, 8, 4294967295, 2),
];

/// The lines of a list, out of order in its text.
const LISTED: &[(u64, u32, u32, u32)] = &[
    (0x1000, 0x10, 1, 1),
    (0x1010, 4, 9, 1),
    (0x1010, 8, 3, 2),
];

/// Walks in their orders. The lines of a run have tabs, two spaces and carriage returns.
pub(crate) const WALKED: &[Row] = &[
    (
        b"FUNC 30 10 0 c\nFUNC 10 20 0 b\nFUNC m 10 8 0 a\nFUNC 30 10 4 d\n",
        &[InFile(&["c", "b", "a", "d"])],
    ),
    (
        b"FUNC 1000 60 0 f\n1000 10 12345 1\r\n1010\t8\t123456\t10007\r\n1020  8  4294967295  2\r\nINFO a record of more bytes than a load\n",
        &[Function(0x1000, OneByOne(LONG))],
    ),
    (
        b"FUNC 1000 60 0 f\n1010 8 3 2\n1000 10 1 1\n1010 4 9 1\n",
        &[Function(0x1000, OneByOne(LISTED))],
    ),
    (b"FUNC 1000 60 0 f\n", &[Function(0x1000, OneByOne(&[]))]),
];
