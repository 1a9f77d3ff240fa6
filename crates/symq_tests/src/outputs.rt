//! Answers that are written in several pieces.

use bz_base::Result;
use bz_symq::Status;
use std::alloc::Global;
use symq_runs::Edit::Text;
use symq_runs::{FIRST_RUN, Row, ends_on};

/// A run over one function with more addresses than have their answers written at a time.
const WIDE: Row = Row {
    edits: &[Text("/a.sym", "FUNC 0 bb8 0 f\n")],
    ..FIRST_RUN
};

/// It, and the same where the second piece can't be written, but the first one is.
static ROWS: [Row; 2] = [
    WIDE,
    Row {
        faults: (0, 0, 2),
        status: Status::Fault,
        whole: false,
        ..WIDE
    },
];

/// Pushes many addresses from 0 on, and the texts of their answers.
fn push_many(input: &mut String, written: &mut String) -> Result<()> {
    for addr in 0..2500u64 {
        write!(input, "{addr:x}\n")?;
        write!(
            written,
            "0x{addr:x}: f+0x{addr:x} start 0x0 size 0xbb8 module - at -\n"
        )?;
    }
    Ok(())
}

/// Whether the answers are written whole and in order, and where that fails, in part.
fn writes_in_pieces(alloc: Global, input: &str, written: &str) -> bool {
    for row in &ROWS {
        if !ends_on(alloc, &["breakpad", "/a.sym"], row, input, written) {
            return false;
        }
    }
    true
}

/// Whether this is so of many addresses.
fn writes_many(alloc: Global) -> bool {
    let mut input = String::new(alloc);
    let mut written = String::new(alloc);
    push_many(&mut input, &mut written).is_ok()
        && writes_in_pieces(alloc, input.as_str(), written.as_str())
}

#[test]
fn many_answers_are_written_whole_or_up_to_a_fault(rt: HostRuntime) {
    assert!(rt; writes_many(rt.alloc()));
}
