//! Line tables, and the states that answer for addresses.

use crate::gsym::answers::{self, NOWHERE, REFUSED, UNKNOWN, answers};
use bz_base::Cursor;
use bz_base::FindSymOpts::CodeInfo;
use bz_gsym::{LineTableHeader, LineTableRow, RunResult, run_op};
use std::alloc::{AllocError, Global};

/// Address, file and line of a state.
type State = (u64, u32, u32);

/// No row of the table answers.
const NO_ROW: State = (0, 0, 0);

/// The table's head isn't whole.
const NO_HEAD: State = (0, 0, 1);

/// The example's table: rows at 0x1000, 0x1008 and 0x1018, and then line 10.
const TABLE: &[u8] = b"\x7c\x0a\x05\x08\x82\x02\x10\x03\x03\x00";

/// A row, another file and the next line, and a row 8 bytes on.
const TWO_FILES: &[u8] = b"\x7c\x0a\x05\x08\x01\x02\x03\x01\x82";

/// Rows at the last address and, by a special operator, at the first one.
const WRAPS: &[u8] = b"\x7c\x0a\x05\x02\xff\xdf\xff\xff\xff\xff\xff\xff\xff\x01\x13";

/// A table of a symbol at 0x1000, an address, and the state that answers. The least and the greatest
/// line delta are mostly -4 and 10, so that there are 15.
type Row = (&'static [u8], u64, State);

static TABLES: [Row; 50] = [
    (TABLE, 0xfff, NO_ROW),
    (TABLE, 0x1000, (0x1000, 1, 5)),
    (TABLE, 0x1007, (0x1000, 1, 5)),
    (TABLE, 0x1008, (0x1008, 1, 7)),
    (TABLE, 0x1017, (0x1008, 1, 7)),
    // The state at the end, and not the last row.
    (TABLE, 0x1018, (0x1018, 1, 10)),
    (TABLE, 0x9999, (0x1018, 1, 10)),
    // The row before the first one above, and not the state before that.
    (TWO_FILES, 0x1007, (0x1000, 1, 5)),
    (TWO_FILES, 0x1008, (0x1008, 2, 8)),
    // A first line of more than 32 bits.
    (b"\x7c\x0a\x85\x80\x80\x80\x10\x08", 0x1000, (0x1000, 1, 5)),
    // No row.
    (b"\x7c\x0a\x05", 0x1000, NO_ROW),
    (b"\x7c\x0a\x05\x00\x08", 0x1000, NO_ROW),
    (b"\x7c\x0a\x05\x01\x02\x03\x01", 0x1000, NO_ROW),
    // Set file.
    (b"\x7c\x0a\x05\x01\x07\x08", 0x1000, (0x1000, 7, 5)),
    (
        b"\x7c\x0a\x05\x01\x87\x80\x80\x80\x10\x08",
        0x1000,
        (0x1000, 7, 5),
    ),
    // Advance address.
    (b"\x7c\x0a\x05\x02\x00", 0x1000, (0x1000, 1, 5)),
    (
        b"\x7c\x0a\x05\x02\xff\xff\xff\xff\xff\xff\xff\xff\xff\x01",
        0xfff,
        (0xfff, 1, 5),
    ),
    // Advance line.
    (
        b"\x7c\x0a\x05\x03\x7a\x08",
        0x1000,
        (0x1000, 1, 0xffff_ffff),
    ),
    (
        b"\x7c\x0a\x05\x03\xff\xff\xff\xff\xff\xff\xff\xff\xff\x00\x08",
        0x1000,
        (0x1000, 1, 4),
    ),
    (
        b"\x7c\x0a\x05\x03\x80\x80\x80\x80\x80\x80\x80\x80\x80\x7f\x08",
        0x1000,
        (0x1000, 1, 5),
    ),
    // Special operators.
    (b"\x7c\x0a\x05\x04", 0x1000, (0x1000, 1, 1)),
    (b"\x7c\x0a\x05\x12", 0x1000, (0x1000, 1, 15)),
    (b"\x7c\x0a\x05\x13", 0x1000, NO_ROW),
    (b"\x7c\x0a\x05\x13", 0x1001, (0x1001, 1, 1)),
    (b"\x7c\x0a\x05\xff", 0x1010, (0x1010, 1, 12)),
    (b"\x7c\x0a\x00\x04", 0x1000, (0x1000, 1, 0xffff_fffc)),
    // A range of one.
    (b"\x01\x01\x05\x04", 0x1000, (0x1000, 1, 6)),
    (b"\x01\x01\x05\xff", 0x10fb, (0x10fb, 1, 6)),
    // A range of zero or less ends the table.
    (b"\x01\x00\x05\x08", 0x1000, NO_ROW),
    (b"\x01\x00\x05\x02\x00\x08\x03\x01", 0x1000, (0x1000, 1, 5)),
    (b"\x02\x00\x05\x02\x00\x04\x03\x01", 0x1000, (0x1000, 1, 5)),
    // Ranges of 251, 252, 256 and 2 to the power of 64.
    (b"\x00\xfa\x01\x05\xff", 0x1001, (0x1001, 1, 5)),
    (b"\x00\xfb\x01\x05\xff", 0x1000, (0x1000, 1, 256)),
    (b"\x80\x7f\xff\x00\x05\xff", 0x1000, (0x1000, 1, 128)),
    (
        b"\x80\x80\x80\x80\x80\x80\x80\x80\x80\x7f\xff\xff\xff\xff\xff\xff\xff\xff\xff\x00\x05\x04",
        0x1000,
        (0x1000, 1, 5),
    ),
    (
        b"\x80\x80\x80\x80\x80\x80\x80\x80\x80\x7f\xff\xff\xff\xff\xff\xff\xff\xff\xff\x00\x05\xff",
        0x1000,
        (0x1000, 1, 256),
    ),
    // Addresses that wrap.
    (WRAPS, 0, NO_ROW),
    (WRAPS, 0xffff_ffff_ffff_fffe, NO_ROW),
    (WRAPS, 0xffff_ffff_ffff_ffff, (0, 1, 1)),
    // An end without operator 0, and operands that are missing.
    (b"\x7c\x0a\x05\x08", 0x2000, (0x1000, 1, 5)),
    (b"\x7c\x0a\x05\x08\x01", 0x1000, (0x1000, 1, 5)),
    (b"\x7c\x0a\x05\x08\x02\x80", 0x1000, (0x1000, 1, 5)),
    (b"\x7c\x0a\x05\x08\x03", 0x1000, (0x1000, 1, 5)),
    (b"\x7c\x0a\x05\x08\x01\x02\x03\x80", 0x1000, (0x1000, 2, 5)),
    // What stands behind the end.
    (b"\x7c\x0a\x05\x08\x00\x03\x01", 0x1000, (0x1000, 1, 5)),
    (b"\x7c\x0a\x05\x08\x00\x82", 0x2000, (0x1000, 1, 5)),
    // No head, since a number is missing.
    (b"", 0x1000, NO_HEAD),
    (b"\x7c\x0a", 0x1000, NO_HEAD),
    (b"\x7c\x0a\x80", 0x1000, NO_HEAD),
    (b"\x7c\x80", 0x1000, NO_HEAD),
];

/// The state that answers for an address: that of the row before the first one above it. Where none is
/// above it, that is the state at the end, if there is a row.
fn answering(table: &[u8], addr: u64) -> State {
    let mut ops = Cursor::new(table);
    let Some(header) = LineTableHeader::parse(&mut ops) else {
        return NO_HEAD;
    };
    let mut row = LineTableRow::from_header(&header, 0x1000);
    let mut last = NO_ROW;
    // No operator is shorter than one byte.
    for _ in table {
        match run_op(&mut row, &header, &mut ops) {
            Some(RunResult::Ok) => {}
            Some(RunResult::NewRow) => {
                if addr < row.addr {
                    return last;
                }
                last = (row.addr, row.file_idx, row.file_line);
            }
            Some(RunResult::End) | None => break,
        }
    }
    if last == NO_ROW {
        NO_ROW
    } else {
        (row.addr, row.file_idx, row.file_line)
    }
}

/// The front of a file of one symbol from 0x1000 on, with size 0. What follows are the length and the
/// bytes of its line table.
const FRONT: [u8; 148] = [
    // The head: magic, version, address size 1, base address 0x1000, one address, strings at 124.
    0x4d, 0x59, 0x53, 0x47, 0x01, 0x00, 0x01, 0x00, 0x00, 0x10, 0x00, 0x00, 0x00, 0x00, 0x00, 0x00,
    0x01, 0x00, 0x00, 0x00, 0x7c, 0x00, 0x00, 0x00, 0x0c, 0x00, 0x00, 0x00, 0x00, 0x00, 0x00, 0x00,
    0x00, 0x00, 0x00, 0x00, 0x00, 0x00, 0x00, 0x00, 0x00, 0x00, 0x00, 0x00, 0x00, 0x00, 0x00, 0x00,
    // The start 0; filling; the data place 136.
    0x00, 0x00, 0x00, 0x00, 0x88, 0x00, 0x00, 0x00,
    // Eight files, of which the ones of index 1, 2 and 7 have a name.
    0x08, 0x00, 0x00, 0x00, 0x00, 0x00, 0x00, 0x00, 0x00, 0x00, 0x00, 0x00, 0x00, 0x00, 0x00, 0x00,
    0x06, 0x00, 0x00, 0x00, 0x00, 0x00, 0x00, 0x00, 0x08, 0x00, 0x00, 0x00, 0x00, 0x00, 0x00, 0x00,
    0x00, 0x00, 0x00, 0x00, 0x00, 0x00, 0x00, 0x00, 0x00, 0x00, 0x00, 0x00, 0x00, 0x00, 0x00, 0x00,
    0x00, 0x00, 0x00, 0x00, 0x00, 0x00, 0x00, 0x00, 0x00, 0x00, 0x00, 0x00, 0x00, 0x00, 0x00, 0x00,
    0x0a, 0x00, 0x00, 0x00,
    // The strings: an empty one, `main`, `1`, `2`, `7`.
    0x00, 0x6d, 0x61, 0x69, 0x6e, 0x00, 0x31, 0x00, 0x32, 0x00, 0x37, 0x00,
    // The symbol: size 0, name at 1, a line table.
    0x00, 0x00, 0x00, 0x00, 0x01, 0x00, 0x00, 0x00, 0x01, 0x00, 0x00, 0x00,
];

/// What the file answers for an address by a state. Its symbol answers from its start on.
fn answer_by(addr: u64, (_, file, line): &State) -> answers::Row {
    let main = ("main", 0x1000, 0);
    let (symbol, site) = match (addr >= 0x1000, file, line) {
        (false, _, _) => (UNKNOWN, NOWHERE),
        (true, 0, 0) => (main, NOWHERE),
        (true, 1, line) => (main, ("", "1", *line)),
        (true, 2, line) => (main, ("", "2", *line)),
        (true, 7, line) => (main, ("", "7", *line)),
        _ => (REFUSED, NOWHERE),
    };
    (0, &[], addr, CodeInfo, symbol, site, "", NOWHERE)
}

/// Whether the file with the row's table answers for its address by its state.
fn answers_by_state(alloc: Global, (table, addr, state): &Row) -> Result<bool, AllocError> {
    let mut bytes = Vec::from_slice(alloc, &FRONT)?;
    bytes.extend_from_slice(&[(table.len() % 256) as u8, 0, 0, 0])?;
    bytes.extend_from_slice(table)?;
    Ok(answers(alloc, bytes.as_slice(), &answer_by(*addr, state)))
}

#[test]
fn lines_answer_for_addresses_or_none_does(rt: HostRuntime) {
    let tables = &TABLES;
    for index in 0..tables.len() {
        let row = &tables[index];
        assert!(rt; answering(row.0, row.1) == row.2, "state of row {index}");
        assert!(rt;
            answers_by_state(rt.alloc(), row) == Ok(true),
            "file of row {index}"
        );
    }
}

/// The least and the greatest line delta, the operators' bytes, and what the first one came to: nothing
/// where none ran. Then the state, and how many bytes are left.
type Operator = (i64, i64, &'static [u8], &'static str, State, usize);

static OPERATORS: [Operator; 14] = [
    (i64::MIN, i64::MAX, b"\x04", "row", (0x1000, 1, 5), 0),
    (i64::MIN, i64::MAX, b"\xff", "row", (0x1000, 1, 256), 0),
    (1, 0, b"\x04", "", (0x1000, 1, 5), 0),
    (2, 0, b"\x04\x01", "", (0x1000, 1, 5), 1),
    (i64::MAX, i64::MIN, b"\x04", "", (0x1000, 1, 5), 0),
    (
        -4,
        10,
        b"\x02\xff\xff\xff\xff\xff\xff\xff\xff\xff\x01",
        "row",
        (0xfff, 1, 5),
        0,
    ),
    (-4, 10, b"\x03\x7a", "state", (0x1000, 1, 4294967295), 0),
    (-4, 10, b"\x01\x02\x00", "state", (0x1000, 2, 5), 1),
    (-4, 10, b"\x82\x00", "row", (0x1008, 1, 7), 1),
    (-4, 10, b"", "", (0x1000, 1, 5), 0),
    (-4, 10, b"\x01", "", (0x1000, 1, 5), 0),
    (-4, 10, b"\x02\x80\x80", "", (0x1000, 1, 5), 2),
    (-4, 10, b"\x03\x80", "", (0x1000, 1, 5), 1),
    (-4, 10, b"\x00", "end", (0x1000, 1, 5), 0),
];

/// Whether the operator at the front runs as its row says.
fn runs((min_delta, max_delta, bytes, came, state, left): &Operator) -> bool {
    let header = LineTableHeader {
        min_delta: *min_delta,
        max_delta: *max_delta,
        first_line: 5,
    };
    let mut row = LineTableRow::from_header(&header, 0x1000);
    let mut ops = Cursor::new(bytes);
    let given = match run_op(&mut row, &header, &mut ops) {
        Some(RunResult::Ok) => "state",
        Some(RunResult::NewRow) => "row",
        Some(RunResult::End) => "end",
        None => "",
    };
    given == *came && (row.addr, row.file_idx, row.file_line) == *state && ops.rest().len() == *left
}

/// Whether the head of the example's table has its deltas and its line.
fn reads_a_head() -> bool {
    match LineTableHeader::parse(&mut Cursor::new(TABLE)) {
        Some(header) => {
            header.min_delta == -4 && header.max_delta == 10 && header.first_line == 5
        }
        None => false,
    }
}

#[test]
fn heads_are_read_and_operators_run_one_by_one(rt: HostRuntime) {
    assert!(rt; reads_a_head(), "a head");
    let operators = &OPERATORS;
    for index in 0..operators.len() {
        assert!(rt; runs(&operators[index]), "row {index}");
    }
}
