//! All tables of these runs.

use crate::{answers, canon, convert, elf, endings, gsym, inputs, processes, words};
use symq_runs::{Table, first_to_fail};

#[test]
fn runs_over_files_and_processes_answer_or_end_by_their_cause(rt: HostRuntime) {
    let tables: [Table; 5] = [
        ("answers of Breakpad files", answers::ROWS.as_slice()),
        ("answers of GSYM files", gsym::ROWS.as_slice()),
        ("answers of ELF files", elf::ROWS.as_slice()),
        ("answers of processes", processes::ROWS.as_slice()),
        ("endings", endings::ROWS.as_slice()),
    ];
    let (failed, row) = first_to_fail(rt.alloc(), &tables);
    assert!(rt; failed.is_empty(), "{failed}, row {row}");
}

#[test]
fn words_make_products_and_choose_flags_or_end_by_their_cause(rt: HostRuntime) {
    let tables: [Table; 3] = [
        ("canonical texts", canon::ROWS.as_slice()),
        ("converted files", convert::ROWS.as_slice()),
        ("flags", words::ROWS.as_slice()),
    ];
    let (failed, row) = first_to_fail(rt.alloc(), &tables);
    assert!(rt; failed.is_empty(), "{failed}, row {row}");
}

#[test]
fn inputs_are_read_to_a_bad_line_or_their_bound(rt: HostRuntime) {
    let tables: [Table; 2] = [
        ("bad lines", inputs::BAD_LINES.as_slice()),
        ("the longest inputs", inputs::LONGEST.as_slice()),
    ];
    let (failed, row) = first_to_fail(rt.alloc(), &tables);
    assert!(rt; failed.is_empty(), "{failed}, row {row}");
}
