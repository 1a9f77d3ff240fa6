//! ELF files.

use bz_samples::ELF_FUNCTION;
use bz_symq::Status;
use symq_runs::Edit::{Bytes, Text};
use symq_runs::{FIRST_RUN, Row};

/// The front of a file of 32 bits.
const OTHER_CLASS: &str = "\x7fELF\x01\x01";

/// A run over an ELF file of one function.
const ELF_RUN: Row = Row {
    lines: &[&["elf", "/e"]],
    edits: &[Bytes("/e", &ELF_FUNCTION)],
    input: "400088\n400090\n",
    written: "0x400088: f+0x8 start 0x400080 size 0x10 module /e at -\n0x400090: ? address not found in symbolization source\n",
    ..FIRST_RUN
};

/// Symbols with the path as their module, and files that are refused.
pub(crate) static ROWS: [Row; 4] = [
    ELF_RUN,
    Row {
        edits: &[Text("/e", "\x7fELF")],
        status: Status::Refused,
        written: "refused: InvalidData\n",
        ..ELF_RUN
    },
    Row {
        edits: &[Text("/e", OTHER_CLASS)],
        status: Status::Refused,
        written: "refused: Unsupported\n",
        ..ELF_RUN
    },
    Row {
        lines: &[&["elf", "/x"]],
        status: Status::Refused,
        written: "refused: NotFound\n",
        ..ELF_RUN
    },
];
