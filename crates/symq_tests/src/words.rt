//! Words of the command line, as far as they show in a run.

use bz_symq::Status;
use symq_runs::{BARE_ANSWER, FIRST_RUN, Row, SOURCES, USAGE, WHOLE_ANSWER};

/// Two flags and the option, each in each place, and words behind `--`, none of which show in the
/// answer.
const ANSWERED: Row = Row {
    lines: &[
        &["breakpad", "/s.sym"],
        &["--no-reload", "breakpad", "/s.sym"],
        &["breakpad", "--no-reload", "/s.sym"],
        &["breakpad", "/s.sym", "--no-reload"],
        &["--no-map-files", "breakpad", "/s.sym"],
        &["breakpad", "--no-map-files", "/s.sym"],
        &["breakpad", "/s.sym", "--no-map-files"],
        &["--input", "file", "breakpad", "/s.sym"],
        &["breakpad", "--input", "file", "/s.sym"],
        &["breakpad", "/s.sym", "--input", "file"],
        &["breakpad", "--input=file", "/s.sym"],
        &["breakpad", "--", "/s.sym"],
        &["breakpad", "--", "--no-inlined"],
    ],
    edits: SOURCES,
    own_pid: 1,
    input: "1010\n",
    written: WHOLE_ANSWER,
    ..FIRST_RUN
};

/// Words that are no command: among them flags that are given twice, a kind of input where there is
/// none, and numbers that are too small or too large.
const MISUSED: Row = Row {
    lines: &[
        &["-"],
        &["--"],
        &["--help"],
        &["--bogus", "breakpad", "/s.sym"],
        &["breakpad"],
        &["gen", "1", "0", "4"],
        &["--input", "abs", "serve"],
        &["process", "4294967296"],
        &["--no-code-info", "--no-code-info", "breakpad", "/s.sym"],
        &["breakpad", "/s.sym", "--no-inlined", "--no-inlined"],
        &["--no-map-files", "breakpad", "/s.sym", "--no-map-files"],
    ],
    status: Status::Usage,
    written: USAGE,
    ..ANSWERED
};

/// A run over the ELF file that process 7 maps, which is there by its own path alone, and not by that
/// of its mapping.
const MAPPED: Row = Row {
    lines: &[&["process", "7"], &["process", "--input", "abs", "7"]],
    input: "400088\n",
    written: "0x400088: ? an error occurred but was ignored in batch mode\n",
    ..ANSWERED
};

/// Flags, options and arguments, as far as they show.
pub(crate) static ROWS: [Row; 10] = [
    ANSWERED,
    MISUSED,
    MAPPED,
    Row {
        lines: &[
            &["--no-code-info", "breakpad", "/s.sym"],
            &["breakpad", "--no-code-info", "/s.sym"],
            &["breakpad", "/s.sym", "--no-code-info"],
            &["--no-code-info", "--no-inlined", "breakpad", "/s.sym"],
        ],
        written: BARE_ANSWER,
        ..ANSWERED
    },
    // Behind `--` words that look like flags are arguments.
    Row {
        lines: &[
            &["--no-inlined", "breakpad", "/s.sym"],
            &["breakpad", "--no-inlined", "/s.sym"],
            &["breakpad", "/s.sym", "--no-inlined"],
            &["breakpad", "--no-inlined", "--", "--no-inlined"],
        ],
        written: "0x1010: another func+0x10 start 0x1000 size 0x30 module bar at bar.c:7\n",
        ..ANSWERED
    },
    Row {
        lines: &[
            &["--input", "virt", "breakpad", "/s.sym"],
            &["--input", "abs", "breakpad", "/absent"],
        ],
        status: Status::Refused,
        written: "refused: Unsupported\n",
        ..ANSWERED
    },
    Row {
        lines: &[
            &["breakpad", "--", "--input"],
            &["breakpad", "-"],
            &["breakpad", ""],
        ],
        status: Status::Refused,
        written: "refused: NotFound\n",
        ..ANSWERED
    },
    // A generated job of three functions and four addresses.
    Row {
        lines: &[&["gen", "1", "3", "4"]],
        written: "functions 3\naddresses 4\nknown 2\nunknown 2\ninlined 1\noffsets 44\n",
        ..ANSWERED
    },
    Row {
        lines: &[&["--no-map-files", "process", "7"]],
        written: "0x400088: f+0x8 start 0x400080 size 0x10 module /bin/e at -\n",
        ..MAPPED
    },
    Row {
        lines: &[&["--input", "virt", "process", "7"]],
        status: Status::Refused,
        written: "refused: Unsupported\n",
        ..MAPPED
    },
];
