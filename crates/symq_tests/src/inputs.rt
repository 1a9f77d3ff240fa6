//! Inputs that aren't addresses, and the longest ones.

use bz_symq::Status;
use symq_runs::{FIRST_RUN, Row};

/// An input with a bad line.
const BAD: Row = Row {
    status: Status::Input,
    ..FIRST_RUN
};

/// The first line that is neither empty nor an address is named by its number.
pub(crate) static BAD_LINES: [Row; 1] = [Row {
    input: "10\nxyz\n",
    written: "input: line 2\n",
    ..BAD
}];

/// The longest input may be empty lines alone, or end in a line; one byte more is too long.
pub(crate) static LONGEST: [Row; 4] = [
    Row {
        blanks: 16_777_216,
        ..FIRST_RUN
    },
    Row {
        blanks: 16_777_215,
        input: "x",
        written: "input: line 16777216\n",
        ..BAD
    },
    Row {
        blanks: 16_777_215,
        input: "x\n",
        written: "input: too long\n",
        ..BAD
    },
    Row {
        blanks: 16_777_217,
        written: "input: too long\n",
        ..BAD
    },
];
