//! Stacks of a profile, by the words `stacks PATH`.

use bz_samples::BREAKPAD_CALLS;
use bz_symq::Status;
use symq_runs::Edit::{Bytes, Deny, Text};
use symq_runs::{FIRST_RUN, Row, USAGE};

/// Stacks over inlined calls inside one another, and over a function whose name would end a frame.
const STACKS: Row = Row {
    lines: &[&["stacks", "/n.sym"]],
    edits: &[
        Bytes("/n.sym", BREAKPAD_CALLS),
        Text("/o.sym", "FUNC 1 1 0 a;b\n"),
        Deny("/denied"),
    ],
    own_pid: 1,
    input: "1010 2\n1020 3\n1010 5\n2000 1020 1\n",
    written: "[unknown];outer_func() 1\nouter_func() 3\nouter_func();mid_func();inner_func_2() 7\n",
    opens: Some(1),
    ..FIRST_RUN
};

/// Functions whose names are in another order than their addresses. The last name is a `;`, and its
/// record ends in two carriage returns.
const NAMES: Row = Row {
    lines: &[&["stacks", "/s.sym"]],
    edits: &[Text(
        "/s.sym",
        "FUNC 1 1 0 b\nFUNC 2 1 0 ab\nFUNC 3 1 0 B\nFUNC 4 2 0 a\nFUNC 8 1 0 ;\r\r\n",
    )],
    ..STACKS
};

/// What folds: one path from two addresses, sums past 32 bits, a count of 0, and paths in the order of
/// their bytes. Then no stacks.
pub(crate) static FOLDED: [Row; 7] = [
    STACKS,
    Row {
        input: "4 1\r\n\n5 2\n",
        written: "a 3\n",
        ..NAMES
    },
    Row {
        input: "1 4294967295\n1 4294967295\n1 0000000002\n",
        written: "b 8589934592\n",
        ..NAMES
    },
    Row {
        input: "1 1\n2 2\n3 3\n4 0x1 4\n4 5\n9 6\n8 7\n",
        written: ": 7\nB 3\n[unknown] 6\na 5\na;b 4\nab 2\nb 1\n",
        ..NAMES
    },
    Row {
        input: "1 2 3 1\n3 2 1 1\n",
        written: "B;ab;b 1\nb;ab;B 1\n",
        ..NAMES
    },
    Row {
        lines: &[&["stacks", "/o.sym"]],
        input: "\n\r\n",
        written: "",
        ..STACKS
    },
    Row {
        lines: &[&["stacks", "/o.sym"]],
        input: "1 0",
        written: "a:b 0\n",
        ..STACKS
    },
];

/// A bad line, which is named though the file is absent, and a look at it would fail.
const BAD: Row = Row {
    lines: &[&["stacks", "/absent"]],
    faults: (1, 0, 0),
    status: Status::Input,
    written: "input: line 3\n",
    opens: Some(0),
    ..STACKS
};

/// A fault that ends a run before the file is read.
const FAULT: Row = Row {
    lines: &[&["stacks", "/o.sym"]],
    input: "1 4\n",
    status: Status::Fault,
    written: "",
    opens: Some(0),
    ..STACKS
};

/// Bytes that are no Breakpad file: none, a record without fields, a name with a return inside.
const UNFORMED: Row = Row {
    edits: &[Text("/s.sym", "")],
    input: "1 4\n",
    status: Status::Refused,
    written: "refused: InvalidInput\n",
    ..NAMES
};

/// How runs end that fold nothing.
pub(crate) static ENDINGS: [Row; 12] = [
    // An address without a count.
    Row {
        lines: &[&["stacks", "/o.sym"]],
        input: "1\n",
        status: Status::Input,
        written: "input: line 1\n",
        opens: Some(0),
        ..STACKS
    },
    // A line of one word, and one with a bad address. Empty lines are counted too.
    Row {
        input: "1 4\n\n4",
        ..BAD
    },
    Row {
        input: "\r\n1 4\n1 x 4\n",
        ..BAD
    },
    UNFORMED,
    Row {
        edits: &[Text("/s.sym", "FUNC\n")],
        ..UNFORMED
    },
    Row {
        edits: &[Text("/s.sym", "FUNC 1 1 0 a\rb\n")],
        ..UNFORMED
    },
    // A look, the read of the file, the first and the last call of the input, and the output's.
    Row {
        faults: (1, 0, 0),
        ..FAULT
    },
    Row {
        faults: (2, 0, 0),
        ..FAULT
    },
    Row {
        faults: (0, 1, 0),
        ..FAULT
    },
    Row {
        faults: (0, 2, 0),
        ..FAULT
    },
    Row {
        faults: (0, 0, 1),
        opens: Some(1),
        ..FAULT
    },
    // A file that may not be read.
    Row {
        lines: &[&["stacks", "/denied"]],
        input: "1 4\n",
        status: Status::Refused,
        written: "refused: PermissionDenied\n",
        opens: Some(0),
        ..STACKS
    },
];

/// An input that is a byte too long, which is told though the file is absent.
pub(crate) static LONGEST: [Row; 1] = [Row {
    blanks: 16_777_217,
    input: "",
    written: "input: too long\n",
    ..BAD
}];

/// Flags and words.
pub(crate) static ROWS: [Row; 6] = [
    Row {
        lines: &[
            &["stacks", "/n.sym", "--no-inlined"],
            &["--no-code-info", "stacks", "/n.sym"],
            &["stacks", "--no-code-info", "/n.sym"],
        ],
        written: "[unknown];outer_func() 1\nouter_func() 10\n",
        ..STACKS
    },
    Row {
        lines: &[&["stacks", "/o.sym"]],
        input: "1 4\n",
        written: "a:b 4\n",
        ..STACKS
    },
    Row {
        lines: &[&["stacks", "/o.sym"]],
        input: "",
        written: "",
        ..STACKS
    },
    Row {
        lines: &[&["stacks", "/absent"]],
        input: "1 4\n",
        status: Status::Refused,
        written: "refused: NotFound\n",
        opens: Some(0),
        ..STACKS
    },
    Row {
        lines: &[&["stacks", "/absent"]],
        input: "",
        status: Status::Refused,
        written: "refused: NotFound\n",
        opens: Some(0),
        ..STACKS
    },
    Row {
        lines: &[&["--input", "file", "stacks", "/o.sym"], &["stacks"]],
        input: "1 4\n",
        status: Status::Usage,
        written: USAGE,
        opens: Some(0),
        ..STACKS
    },
];
