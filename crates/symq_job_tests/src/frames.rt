//! Frames of a crash, by the words `frames ROOT`.

use bz_samples::BREAKPAD_KINDS;
use bz_symq::Status;
use symq_runs::Edit::{Bytes, Deny, Text};
use symq_runs::{FIRST_RUN, Row, USAGE};

/// A Breakpad file of a function with an inlined call.
const CALLS: &str =
    "FILE 53 bar.c\nINLINE_ORIGIN 1 a\nFUNC 1000 30 10 f\nINLINE 0 5 53 1 1000 8\n1000 30 7 53\n";

/// A run for frames in a file and in none. Its store has two Breakpad files, one file that is none, and
/// one that may not be read.
const FRAMES: Row = Row {
    lines: &[&["frames", "/r"], &["--no-inlined", "frames", "/r"]],
    edits: &[
        Bytes("/r/bar/AA/bar.sym", BREAKPAD_KINDS),
        Text("/r/calls/1/calls.sym", CALLS),
        Text("/r/bad/AA/bad.sym", "FUNC\n"),
        Deny("/r/shut/AA/shut.sym"),
    ],
    own_pid: 1,
    input: "bar AA 1010\nfoo AA 0\n.. AA 0\nbar AA 1030\n",
    written: "bar AA 0x1010: another func+0x10 start 0x1000 size 0x30 module bar at bar.c:7\nfoo AA 0x0: ? no symbol file\n.. AA 0x0: ? bad name\nbar AA 0x1030: ? address not found in symbolization source\n",
    opens: Some(1),
    ..FIRST_RUN
};

/// A frame of the function with an inlined call, whose answer is told whole.
const WHOLE: Row = Row {
    lines: &[
        &["frames", "/r"],
        &["--no-reload", "frames", "--no-map-files", "/r"],
    ],
    input: "calls 1 1000\n",
    written: "calls 1 0x1000: f+0x0 start 0x1000 size 0x30 module - at bar.c:5\n  a at bar.c:7\n",
    ..FRAMES
};

/// Words that are no command.
const MISUSED: Row = Row {
    lines: &[
        &["--input", "file", "frames", "/r"],
        &["frames"],
        &["frames", "/r", "/r"],
    ],
    status: Status::Usage,
    written: USAGE,
    opens: Some(0),
    ..FRAMES
};

/// What frames are told, by their files, by words and by the input.
pub(crate) static ROWS: [Row; 12] = [
    FRAMES,
    WHOLE,
    MISUSED,
    Row {
        lines: &[&["--no-inlined", "frames", "/r"]],
        written: "calls 1 0x1000: f+0x0 start 0x1000 size 0x30 module - at bar.c:7\n",
        ..WHOLE
    },
    Row {
        lines: &[&["frames", "/r", "--no-code-info"]],
        written: "calls 1 0x1000: f+0x0 start 0x1000 size 0x30 module - at -\n",
        ..WHOLE
    },
    Row {
        input: "bar AA 1010\nbar AA\n",
        status: Status::Input,
        written: "input: line 2\n",
        opens: Some(0),
        ..FRAMES
    },
    // Files that give no answer, and a frame without a name.
    Row {
        input: "shut AA ABC\nbad AA 0x10\n",
        written: "shut AA 0xabc: ? access denied\nbad AA 0x10: ? bad symbol file\n",
        ..FRAMES
    },
    Row {
        input: " AA ffffffffffffffff\n",
        written: " AA 0xffffffffffffffff: ? bad name\n",
        opens: Some(0),
        ..FRAMES
    },
    EMPTY,
    Row {
        input: "\n\r\n",
        ..EMPTY
    },
    Row {
        lines: &[&["frames", "/absent"]],
        input: "",
        written: "",
        opens: Some(0),
        ..FRAMES
    },
    Row {
        lines: &[&["frames", "/absent"]],
        input: "bar AA 0\n",
        written: "bar AA 0x0: ? no symbol file\n",
        opens: Some(0),
        ..FRAMES
    },
];

/// No frames, for which neither files nor the output are called, so that neither fails.
const EMPTY: Row = Row {
    faults: (1, 0, 1),
    input: "",
    written: "",
    opens: Some(0),
    ..FRAMES
};

/// A fault that ends a run before a file is read.
const FAULT: Row = Row {
    status: Status::Fault,
    written: "",
    opens: Some(0),
    ..FRAMES
};

/// Files fail at the first file and at the second, and the input at its begin and at its end. The
/// output fails under answers and under the name of a line.
pub(crate) static FAULTS: [Row; 7] = [
    Row {
        faults: (1, 0, 0),
        ..FAULT
    },
    Row {
        input: "bar AA 1010\nbad AA 10\n",
        faults: (2, 0, 0),
        opens: Some(1),
        ..FAULT
    },
    Row {
        faults: (0, 1, 0),
        ..FAULT
    },
    Row {
        faults: (0, 2, 0),
        ..FAULT
    },
    Row {
        faults: (0, 0, 1),
        opens: Some(1),
        ..FAULT
    },
    Row {
        input: "bar AA 1010\nbar AA\n",
        faults: (0, 0, 1),
        ..FAULT
    },
    // Files aren't called before a bad line.
    Row {
        input: "bar AA 1010\nbar AA\n",
        faults: (1, 0, 0),
        status: Status::Input,
        written: "input: line 2\n",
        ..FAULT
    },
];
