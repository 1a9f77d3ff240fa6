//! All tables of what files show.

use crate::fact::Row;
use crate::holding::count_until_failure;
use crate::read::Way::{self, Bytes, Version};
use crate::{answers, functions, inspected, lines, names, sites, texts};
use std::alloc::Global;

/// What the rows of a table tell of, how their files are made, and the rows.
type Table = (&'static str, Way, &'static [Row]);

/// What the first table tells of whose file of a row doesn't show it, and this row; nothing where all
/// show theirs.
fn first_to_fail(alloc: Global, tables: &[Table]) -> (&'static str, usize) {
    for (told, way, rows) in tables {
        let shown = count_until_failure(alloc, rows, way);
        if shown != rows.len() {
            return (told, shown);
        }
    }
    ("", 0)
}

/// Tables of texts and the records of their files.
static TEXTS: [Table; 7] = [
    ("records of bytes", Bytes, texts::COUNTED),
    ("records of a version", Version, texts::COUNTED),
    ("numbers", Bytes, texts::NUMBERS),
    ("separators", Bytes, texts::SEPARATORS),
    ("names", Bytes, texts::NAMES),
    ("records in their roles", Bytes, texts::ROLES),
    ("line ends and white space", Bytes, texts::LINE_ENDS),
];

#[test]
fn files_have_the_records_of_their_texts(rt: HostRuntime) {
    let (told, row) = first_to_fail(rt.alloc(), &TEXTS);
    assert!(rt; told.is_empty(), "{told}: row {row}");
}

/// Tables of names.
static NAMES: [Table; 6] = [
    ("names by ids", Bytes, names::NAMES),
    ("names of modules", Bytes, names::MODULES),
    ("ids of one record", Bytes, names::ONCE),
    ("ids of several records", Bytes, names::AGAIN),
    ("lists of names", Bytes, names::IDS),
    ("lists of PUBLIC records", Bytes, names::PUBLICS),
];

#[test]
fn files_have_the_names_of_their_records(rt: HostRuntime) {
    let (told, row) = first_to_fail(rt.alloc(), &NAMES);
    assert!(rt; told.is_empty(), "{told}: row {row}");
}

/// Tables of functions.
static FUNCTIONS: [Table; 5] = [
    ("functions, lines and calls", Bytes, functions::FOUND),
    ("their order", Bytes, functions::IN_ORDER),
    ("walks of functions and lines", Bytes, functions::WALKED),
    ("lines of runs and lists", Bytes, lines::LINES),
    ("walks in order", Bytes, inspected::WALKS),
];

#[test]
fn functions_have_their_order_lines_and_calls(rt: HostRuntime) {
    let (told, row) = first_to_fail(rt.alloc(), &FUNCTIONS);
    assert!(rt; told.is_empty(), "{told}: row {row}");
}

/// Tables of answers.
static ANSWERS: [Table; 7] = [
    ("the nearest functions", Bytes, answers::BY_FUNCTIONS),
    ("PUBLIC records", Bytes, answers::BY_PUBLICS),
    ("PUBLIC records beside functions", Bytes, answers::BY_BOTH),
    ("both together", Bytes, answers::BATCHES),
    ("sites by lines and calls", Bytes, sites::CALLS),
    ("unknown sites", Bytes, sites::UNKNOWN),
    ("sites by records out of order", Bytes, sites::FROM_LISTS),
];

#[test]
fn files_answer_addresses(rt: HostRuntime) {
    let (told, row) = first_to_fail(rt.alloc(), &ANSWERS);
    assert!(rt; told.is_empty(), "{told}: row {row}");
}
