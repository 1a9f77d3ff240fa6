//! Inputs of requests.

use bz_samples::PERF_FUNCTION;
use bz_symq::Status;
use symq_runs::Edit::{Bytes, Next, Remove, Text};
use symq_runs::{BARE_ANSWER, FIRST_RUN, Row, SOURCE, SOURCES, WHOLE_ANSWER};

/// A run over requests, none here.
const SERVED: Row = Row {
    lines: &[&["serve"]],
    edits: &[Text("/s.sym", SOURCE)],
    own_pid: 1,
    ..FIRST_RUN
};

/// Two batches of one file, where a call fails.
const FAULT: Row = Row {
    input: "breakpad /s.sym 1010\nbreakpad /s.sym 1010\n",
    status: Status::Fault,
    ..SERVED
};

/// Requests of a file that is another one at the second of them, and is gone at the third.
const CHANGING: Row = Row {
    edits: &[
        Next,
        Text("/s.sym", "FUNC 1000 20 0 one\n"),
        Next,
        Text("/s.sym", "FUNC 1000 20 0 two\n"),
        Next,
        Remove("/s.sym"),
    ],
    input: "breakpad /s.sym 1010\nbreakpad /s.sym 1010\nsingle breakpad /s.sym 1010\nevict elf /x\ncache elf /x\n",
    written: "0x1010: one+0x10 start 0x1000 size 0x20 module - at -\n0x1010: two+0x10 start 0x1000 size 0x20 module - at -\nrefused: NotFound\nok\nrefused: NotFound\n",
    ..SERVED
};

/// Requests of a process's mapped file, which is there by its own path alone.
const MAPPED: Row = Row {
    lines: &[&["serve", "--no-map-files"]],
    edits: SOURCES,
    input: "process 7 400088\nsingle process 7 0x400088\n",
    written: "0x400088: f+0x8 start 0x400080 size 0x10 module /bin/e at -\n0x400088: f+0x8 start 0x400080 size 0x10 module /bin/e at -\n",
    ..SERVED
};

/// Requests of a process: it is another source than its file, and answers on where it is kept, until it
/// is forgotten.
pub(crate) static PROCESSES: [Row; 4] = [
    MAPPED,
    Row {
        lines: &[&["serve"]],
        input: "process 7 400088\n",
        written: "0x400088: ? an error occurred but was ignored in batch mode\n",
        ..MAPPED
    },
    Row {
        input: "single elf /bin/e 400088\nprocess 0 400088\n",
        written: "0x400088: f+0x8 start 0x400080 size 0x10 module /bin/e at -\nrefused: NotFound\n",
        ..MAPPED
    },
    Row {
        lines: &[&["serve"]],
        edits: &[
            Text("/proc/7/maps", "3000-4000 rw-p 00000000 00:00 0\n"),
            Text("/proc/7/status", "Name:\tx\n"),
            Bytes("/proc/7/root/tmp/perf-7.map", PERF_FUNCTION),
            Next,
            Next,
            Remove("/proc/7/maps"),
            Remove("/proc/7/status"),
            Remove("/proc/7/root/tmp/perf-7.map"),
        ],
        input: "cache process 7\nprocess 7 3008\nevict process 7\nprocess 7 3008\n",
        written: "ok\n0x3008: jit+0x8 start 0x3000 size 0x10 module - at -\nok\nrefused: NotFound\n",
        ..SERVED
    },
];

/// The changing file's requests, one of whose calls fails.
const CUT: Row = Row {
    status: Status::Fault,
    written: "",
    ..CHANGING
};

/// The first two requests look for a stamp and for bytes. The third and the last one look for a stamp
/// that isn't there, and the fourth one doesn't look.
pub(crate) static FAULTS: [Row; 8] = [
    Row {
        faults: (1, 0, 0),
        ..CUT
    },
    Row {
        faults: (2, 0, 0),
        ..CUT
    },
    Row {
        faults: (3, 0, 0),
        written: "0x1010: one+0x10 start 0x1000 size 0x20 module - at -\n",
        ..CUT
    },
    Row {
        faults: (4, 0, 0),
        written: "0x1010: one+0x10 start 0x1000 size 0x20 module - at -\n",
        ..CUT
    },
    Row {
        faults: (5, 0, 0),
        written: "0x1010: one+0x10 start 0x1000 size 0x20 module - at -\n0x1010: two+0x10 start 0x1000 size 0x20 module - at -\n",
        ..CUT
    },
    Row {
        faults: (6, 0, 0),
        written: "0x1010: one+0x10 start 0x1000 size 0x20 module - at -\n0x1010: two+0x10 start 0x1000 size 0x20 module - at -\nrefused: NotFound\nok\n",
        ..CUT
    },
    // So many looks don't come.
    Row {
        faults: (7, 0, 0),
        ..CHANGING
    },
    // The output fails under the second answer.
    Row {
        faults: (0, 0, 2),
        written: "0x1010: one+0x10 start 0x1000 size 0x20 module - at -\n",
        ..CUT
    },
];

/// Each request sees its own files, and what is written before a call fails stays.
pub(crate) static ROWS: [Row; 18] = [
    SERVED,
    CHANGING,
    // The file isn't looked at anew.
    Row {
        lines: &[&["--no-reload", "serve"]],
        written: "0x1010: one+0x10 start 0x1000 size 0x20 module - at -\n0x1010: one+0x10 start 0x1000 size 0x20 module - at -\n0x1010: one+0x10 start 0x1000 size 0x20 module - at -\nok\nrefused: NotFound\n",
        ..CHANGING
    },
    Row {
        input: "breakpad /s.sym\nevict process 7\n",
        written: "ok\n",
        ..SERVED
    },
    Row {
        input: "breakpad /s.sym\nevict process 7\n",
        written: "ok\n",
        ..CHANGING
    },
    Row {
        input: "",
        written: "",
        ..CHANGING
    },
    Row {
        input: "single breakpad /s.sym\n",
        status: Status::Input,
        written: "input: line 1\n",
        ..SERVED
    },
    Row {
        input: "single breakpad /s.sym 1010\n\nfoo\nbar\n",
        status: Status::Input,
        written: "input: line 3\n",
        ..SERVED
    },
    Row {
        input: "breakpad /s.sym 1010",
        written: WHOLE_ANSWER,
        ..SERVED
    },
    Row {
        lines: &[&["--no-code-info", "serve"]],
        input: "\r\nsingle breakpad /s.sym 0x1010\r\n",
        written: BARE_ANSWER,
        ..SERVED
    },
    Row {
        lines: &[&["serve", "--no-map-files"]],
        edits: SOURCES,
        input: "process 7 400088\nsingle elf /x 0\n",
        written: "0x400088: f+0x8 start 0x400080 size 0x10 module /bin/e at -\nrefused: NotFound\n",
        ..SERVED
    },
    // A batch is answered in its order.
    Row {
        input: "breakpad /s.sym 1020 1010\n",
        written: "0x1020: ? address not found in symbolization source\n0x1010: one+0x10 start 0x1000 size 0x20 module - at -\n",
        ..CHANGING
    },
    Row {
        faults: (0, 1, 0),
        ..FAULT
    },
    Row {
        faults: (0, 2, 0),
        ..FAULT
    },
    Row {
        faults: (0, 0, 1),
        ..FAULT
    },
    Row {
        faults: (0, 0, 2),
        written: WHOLE_ANSWER,
        ..FAULT
    },
    Row {
        faults: (1, 0, 0),
        ..FAULT
    },
    Row {
        faults: (3, 0, 0),
        written: WHOLE_ANSWER,
        ..FAULT
    },
];

/// The longest input is served, and one byte more isn't.
pub(crate) static LONGEST: [Row; 2] = [
    Row {
        edits: &[],
        blanks: 16_777_216,
        ..SERVED
    },
    Row {
        edits: &[],
        blanks: 16_777_217,
        status: Status::Input,
        written: "input: too long\n",
        ..SERVED
    },
];
