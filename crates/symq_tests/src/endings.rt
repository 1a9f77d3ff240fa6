//! How a run ends, and what is written where nothing is answered.

use bz_symq::Status;
use symq_runs::Edit::Text;
use symq_runs::{ADDRESSES, FIRST_RUN, Row, USAGE};

/// A run that is refused, over a path where no file is.
const ABSENT: Row = Row {
    lines: &[&["breakpad", "/absent"], &["breakpad", "-"]],
    input: ADDRESSES,
    status: Status::Refused,
    written: "refused: NotFound\n",
    ..FIRST_RUN
};

/// A run that a fault ends.
const FAULT: Row = Row {
    input: ADDRESSES,
    status: Status::Fault,
    ..FIRST_RUN
};

/// Each ending but for want of memory, and its text.
pub(crate) static ROWS: [Row; 10] = [
    ABSENT,
    Row {
        lines: &[&["breakpad", "/denied"]],
        written: "refused: PermissionDenied\n",
        ..ABSENT
    },
    Row {
        lines: &[&["breakpad", "-x"]],
        status: Status::Usage,
        written: USAGE,
        ..ABSENT
    },
    // A blank line after a line record.
    Row {
        lines: &[&["breakpad", "/a.sym"]],
        edits: &[Text("/a.sym", "FUNC 1000 10 0 f\n1000 10 5 1\n\nFILE 1 a.c\n")],
        written: "refused: InvalidInput\n",
        ..ABSENT
    },
    Row {
        faults: (1, 0, 0),
        ..FAULT
    },
    Row {
        faults: (2, 0, 0),
        ..FAULT
    },
    Row {
        faults: (0, 2, 0),
        ..FAULT
    },
    Row {
        faults: (0, 0, 1),
        ..FAULT
    },
    // Without words nothing is looked at.
    Row {
        lines: &[&[]],
        edits: &[],
        status: Status::Usage,
        written: USAGE,
        ..FIRST_RUN
    },
    // The file is looked at for no addresses too.
    Row {
        lines: &[&["breakpad", "/absent"]],
        input: "",
        ..ABSENT
    },
];
