//! Lines of stacks.

use bz_stacks::{Stack, StackError, read_stacks};
use std::alloc::{AllocError, Global};

/// An input, how many stacks it says, the addresses and the count of the last, and the first bad line.
/// The line is 0 where there is none. Where there is one, no stacks are said.
type Row = (&'static str, usize, &'static [u64], u32, u64);

static ROWS: [Row; 20] = [
    ("10 1", 1, &[0x10], 1, 0),
    (
        "\n1 2\r\n\r\n0x10 fFfFfFfFfFfFfFfF 3\n",
        2,
        &[0x10, u64::MAX],
        3,
        0,
    ),
    ("1 4294967295\n", 1, &[1], 4294967295, 0),
    ("1 0000000007\n", 1, &[1], 7, 0),
    ("10 0\n", 1, &[0x10], 0, 0),
    ("1 2 3 4\n", 1, &[1, 2, 3], 4, 0),
    ("1\n", 0, &[], 0, 1),
    ("1 1\n\n2\nx\n", 0, &[], 0, 3),
    ("1 4294967296\n", 0, &[], 0, 1),
    ("1 00000000007\n", 0, &[], 0, 1),
    ("1 a\n", 0, &[], 0, 1),
    ("1 0x1\n", 0, &[], 0, 1),
    ("1 -1\n", 0, &[], 0, 1),
    ("1  1\n", 0, &[], 0, 1),
    (" 1 1\n", 0, &[], 0, 1),
    ("1 1 \n", 0, &[], 0, 1),
    ("1\t1\n", 0, &[], 0, 1),
    ("x 1\n", 0, &[], 0, 1),
    ("1 x 1\n", 0, &[], 0, 1),
    ("1 1\r\r\n", 0, &[], 0, 1),
];

/// Whether the stacks are as many as the row says, with its one at the end.
fn are_said(stacks: &[Stack], row: &Row) -> bool {
    match stacks.last() {
        Some(stack) => { stacks.len() == row.1 && stack.addrs() == row.2 && stack.count() == row.3 }
        None => false,
    }
}

/// Whether the row's input says its stacks, or is refused at its line.
fn holds(alloc: Global, row: &Row) -> bool {
    match read_stacks(alloc, row.0.as_bytes()) {
        Ok(stacks) => are_said(&stacks, row),
        Err(StackError::Line(number)) => row.1 == 0 && number == row.4,
        Err(StackError::OutOfMemory) => false,
    }
}

#[test]
fn reads_stacks_or_names_the_first_bad_line(rt: HostRuntime) {
    let rows = &ROWS;
    for index in 0..rows.len() {
        assert!(rt; holds(rt.alloc(), &rows[index]), "row {index}");
    }
}

/// Whether this is the message of a bad line.
fn is_message(alloc: Global, error: StackError, expected: &str) -> Result<bool, AllocError> {
    let mut message = String::new(alloc);
    write!(message, "{error}")?;
    Ok(message.as_str() == expected)
}

#[test]
fn names_a_bad_line_by_its_number(rt: HostRuntime) {
    assert!(rt; is_message(rt.alloc(), StackError::Line(16), "line 16 is no stack") == Ok(true));
}
