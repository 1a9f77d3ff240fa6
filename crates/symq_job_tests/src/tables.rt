//! All tables of these runs.

use crate::{frames, serve, stacks};
use symq_runs::{Table, first_to_fail};

#[test]
fn requests_are_served_or_end_by_their_cause(rt: HostRuntime) {
    let tables: [Table; 4] = [
        ("requests", serve::ROWS.as_slice()),
        ("requests of processes", serve::PROCESSES.as_slice()),
        ("faults under requests", serve::FAULTS.as_slice()),
        ("the longest requests", serve::LONGEST.as_slice()),
    ];
    let (failed, row) = first_to_fail(rt.alloc(), &tables);
    assert!(rt; failed.is_empty(), "{failed}, row {row}");
}

#[test]
fn frames_and_stacks_answer_or_end_by_their_cause(rt: HostRuntime) {
    let tables: [Table; 6] = [
        ("frames", frames::ROWS.as_slice()),
        ("faults under frames", frames::FAULTS.as_slice()),
        ("folded stacks", stacks::FOLDED.as_slice()),
        ("words of stacks", stacks::ROWS.as_slice()),
        ("endings of stacks", stacks::ENDINGS.as_slice()),
        ("the longest stacks", stacks::LONGEST.as_slice()),
    ];
    let (failed, row) = first_to_fail(rt.alloc(), &tables);
    assert!(rt; failed.is_empty(), "{failed}, row {row}");
}
