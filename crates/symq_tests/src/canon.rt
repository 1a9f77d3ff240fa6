//! Canonical texts.

use bz_symq::Status;
use symq_runs::Edit::Text;
use symq_runs::{FIRST_RUN, Row, USAGE};

/// A run that makes the canonical text of the first file. A second look at files and a second piece of
/// output would fail, and don't come.
const CANON: Row = Row {
    lines: &[&["canon", "/a.sym"]],
    faults: (2, 0, 2),
    written: "MODULE - - - bar\nFUNC 1000 30 10 another func\n",
    ..FIRST_RUN
};

/// One that is refused.
const REFUSED: Row = Row {
    lines: &[&["canon", "/absent"], &["canon", "-"]],
    status: Status::Refused,
    written: "refused: NotFound\n",
    ..FIRST_RUN
};

/// One that a fault ends.
const FAULT: Row = Row {
    lines: &[&["canon", "/a.sym"]],
    status: Status::Fault,
    ..FIRST_RUN
};

/// Each ending but for want of memory; the file is looked at once.
pub(crate) static ROWS: [Row; 8] = [
    CANON,
    REFUSED,
    Row {
        lines: &[&["canon", "/denied"]],
        written: "refused: PermissionDenied\n",
        ..REFUSED
    },
    Row {
        lines: &[&["canon", "/a.sym"]],
        edits: &[Text("/a.sym", "INFO x")],
        written: "refused: InvalidInput\n",
        ..REFUSED
    },
    Row {
        lines: &[&["canon", "-x"]],
        status: Status::Usage,
        written: USAGE,
        ..FIRST_RUN
    },
    Row {
        faults: (1, 0, 0),
        ..FAULT
    },
    Row {
        faults: (0, 0, 1),
        ..FAULT
    },
    Row {
        edits: &[Text("/a.sym", "")],
        faults: (0, 0, 1),
        ..FAULT
    },
];
