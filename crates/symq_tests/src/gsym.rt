//! GSYM files.

use bz_samples::{GSYM_CALLS, GSYM_LINES};
use bz_symq::Status;
use symq_runs::Edit::{Bytes, Text};
use symq_runs::{FIRST_RUN, Row, USAGE};

/// A run over a file of two functions with lines.
const LINES: Row = Row {
    lines: &[&["gsym", "/g"]],
    edits: &[Bytes("/g", &GSYM_LINES)],
    input: "fff\n1000\n0x100C\n101f\n1020\n1040\n9999\n",
    written: "0xfff: ? address not found in symbolization source\n0x1000: main+0x0 start 0x1000 size 0x20 module - at src/a.c:5\n0x100c: main+0xc start 0x1000 size 0x20 module - at src/a.c:7\n0x101f: main+0x1f start 0x1000 size 0x20 module - at src/a.c:10\n0x1020: ? address not found in symbolization source\n0x1040: sub+0x0 start 0x1040 size 0x0 module - at -\n0x9999: sub+0x8959 start 0x1040 size 0x0 module - at -\n",
    ..FIRST_RUN
};

/// One over it with an inlined call.
const CALLS: Row = Row {
    edits: &[Bytes("/g", &GSYM_CALLS)],
    input: "1005\n1009\n",
    written: "0x1005: main+0x5 start 0x1000 size 0x20 module - at src/a.c:9\n  sub at src/a.c:5\n0x1009: main+0x9 start 0x1000 size 0x20 module - at src/a.c:7\n",
    ..LINES
};

/// Symbols with their sites, in the order of their addresses, and runs that answer nothing.
pub(crate) static ROWS: [Row; 6] = [
    LINES,
    CALLS,
    Row {
        edits: &[Text(
            "/g",
            "MODULE Linux x86 ffff0000 bar\nFUNC 1000 30 10 another func\n",
        )],
        input: "1000\n",
        status: Status::Refused,
        written: "refused: InvalidData\n",
        ..LINES
    },
    Row {
        lines: &[&["gsym", "/other"]],
        input: "1000\n",
        status: Status::Refused,
        written: "refused: NotFound\n",
        ..LINES
    },
    Row {
        lines: &[&["breakpad", "/g"]],
        input: "1000\n",
        status: Status::Refused,
        written: "refused: InvalidInput\n",
        ..LINES
    },
    Row {
        lines: &[&["gsym", "-g"], &["GSYM", "/g"]],
        input: "1000\n",
        status: Status::Usage,
        written: USAGE,
        ..LINES
    },
];
