//! Converted files.

use bz_samples::BREAKPAD_KINDS;
use bz_symq::Status;
use symq_runs::Edit::{Bytes, Deny, Text};
use symq_runs::{FIRST_RUN, Row};

/// A conversion of a Breakpad file of one function with one line, to GSYM bytes.
const CONVERTED: Row = Row {
    lines: &[&[]],
    converted: "/a.sym",
    edits: &[
        Text(
            "/a.sym",
            "MODULE Linux x86 ffff0000 bar\nFILE 53 bar.c\nFUNC 1000 30 10 another func\n1000 30 7 53\n",
        ),
        Deny("/denied"),
    ],
    written: "MYSG\x01\0\x08\0\0\0\0\0\0\0\0\0\x01\0\0\0\x50\0\0\0\x15\0\0\0\0\0\0\0\0\0\0\0\0\0\0\0\0\0\0\0\0\0\0\0\0\x10\0\0\0\0\0\0\x68\0\0\0\x02\0\0\0\0\0\0\0\0\0\0\0\x0e\0\0\0\x0f\0\0\0\0another func\0\0bar.c\0\0\0\0\x30\0\0\0\x01\0\0\0\x01\0\0\0\x0a\0\0\0\0\0\0\x01\x01\x03\x07\x02\0\0\0\0\0\0\0\0\0\0",
    ..FIRST_RUN
};

/// The same by words, of a file with a PUBLIC record, which is left out.
const BY_WORDS: Row = Row {
    lines: &[&["convert", "/a.sym"]],
    converted: "",
    edits: &[Bytes("/a.sym", BREAKPAD_KINDS)],
    ..CONVERTED
};

/// One that a fault ends.
const FAULT: Row = Row {
    status: Status::Fault,
    written: "",
    ..CONVERTED
};

/// One that is refused.
const REFUSED: Row = Row {
    status: Status::Refused,
    ..CONVERTED
};

/// A name with a zero byte, which is refused.
const ZERO_BYTE: Row = Row {
    edits: &[Text("/a.sym", "FUNC 10 4 0 a\x00b\n")],
    written: "refused: ZeroByte\n",
    ..REFUSED
};

/// Each ending but for want of memory and for bytes that 32 bits don't count; the file is looked at
/// once.
pub(crate) static ROWS: [Row; 17] = [
    CONVERTED,
    BY_WORDS,
    Row {
        faults: (2, 0, 2),
        ..CONVERTED
    },
    Row {
        faults: (1, 0, 0),
        ..FAULT
    },
    Row {
        faults: (0, 0, 1),
        ..FAULT
    },
    Row {
        converted: "/absent",
        written: "refused: NotFound\n",
        ..REFUSED
    },
    Row {
        converted: "/denied",
        written: "refused: PermissionDenied\n",
        ..REFUSED
    },
    Row {
        edits: &[Text("/a.sym", "INFO x")],
        written: "refused: InvalidInput\n",
        ..REFUSED
    },
    Row {
        edits: &[Text("/a.sym", "FUNC 10 0 0 f\n")],
        written: "refused: ZeroSize\n",
        ..REFUSED
    },
    Row {
        edits: &[Text("/a.sym", "FUNC 10 8 0 g\nFUNC 10 4 0 f\n")],
        written: "refused: EqualStarts\n",
        ..REFUSED
    },
    Row {
        edits: &[Text(
            "/a.sym",
            "FUNC 1000 20 0 f\n1000 8 1 0\n1010 10 2 0\nFILE 0 a.c\n",
        )],
        written: "refused: LineGap\n",
        ..REFUSED
    },
    Row {
        edits: &[Text(
            "/a.sym",
            "FILE 0 a.c\nINLINE_ORIGIN 0 g\nFUNC 10 8 0 f\nINLINE 0 1 0 0 14 8\n10 8 1 0\n",
        )],
        written: "refused: NotNested\n",
        ..REFUSED
    },
    Row {
        edits: &[Text(
            "/a.sym",
            "FILE 0 a.c\nINLINE_ORIGIN 0 g\nFUNC 10 8 0 f\nINLINE 0 1 0 0 10 4 12 4\n10 8 1 0\n",
        )],
        written: "refused: Overlap\n",
        ..REFUSED
    },
    Row {
        edits: &[Text("/a.sym", "FUNC 10 8 0 f\n10 8 1 9\n")],
        written: "refused: NoFile\n",
        ..REFUSED
    },
    Row {
        edits: &[Text(
            "/a.sym",
            "FILE 0 a.c\nFUNC 10 8 0 f\nINLINE 0 1 0 3 10 4\n10 8 1 0\n",
        )],
        written: "refused: NoOrigin\n",
        ..REFUSED
    },
    ZERO_BYTE,
    Row {
        faults: (0, 0, 1),
        status: Status::Fault,
        written: "",
        ..ZERO_BYTE
    },
];
