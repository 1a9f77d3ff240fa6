//! What the tables of a file hold, by index and by place.

use bz_gsym::{GsymContext, parse_address_data};
use bz_samples::GSYM_LINES;

/// Places in the string table, and the strings there; outside it there is none.
static STRINGS: [(usize, &str); 7] = [
    (0, ""),
    (1, "main"),
    (3, "in"),
    (14, "sub"),
    (17, ""),
    (18, NONE),
    (1000, NONE),
];

const NONE: &str = "(none)";

/// Whether all strings are at their places.
fn has_strings(context: &GsymContext<'_>) -> bool {
    for row in &STRINGS {
        if context.get_str(row.0).unwrap_or(NONE) != row.1 {
            return false;
        }
    }
    true
}

/// Whether the example file has its two addresses, and its second symbol and file with their places.
fn reads_tables() -> bool {
    let Ok(context) = GsymContext::parse_header(&GSYM_LINES) else {
        return false;
    };
    let (Some(symbol), Some(file)) = (context.addr_info(1), context.file_info(1)) else {
        return false;
    };
    context.header().num_addrs == 2
        && context.addr_at(0) == Some(0x1000)
        && context.addr_at(1) == Some(0x1040)
        && context.addr_at(2) == None
        && symbol.size == 0
        && symbol.name == 14
        && context.addr_info(2).is_none()
        && file.directory == 6
        && file.filename == 10
        && context.file_info(2).is_none()
        && has_strings(&context)
}

/// Bytes, and the type and the length of each data entry in front of them.
static ENTRIES: [(&[u8], &[(u32, usize)]); 7] = [
    (b"", &[]),
    (b"\x01\0\0\0\0\0\0\0", &[(1, 0)]),
    (
        b"\x01\0\0\0\x02\0\0\0ab\x02\0\0\0\x01\0\0\0c",
        &[(1, 2), (2, 1)],
    ),
    (
        b"\x01\0\0\0\0\0\0\0\0\0\0\0\x01\0\0\0\x02\0\0\0\0\0\0\0",
        &[(1, 0)],
    ),
    (b"\xff\xff\xff\xff\x01\0\0\0a\x01\0\0", &[(4294967295, 1)]),
    (b"\x01\0\0\0\x02\0\0\0a", &[]),
    (b"\x01\0\0\0\xff\xff\xff\xffa", &[]),
];

/// Whether these are the type and the length of each data entry in front of the bytes.
fn lists(bytes: &[u8], expected: &[(u32, usize)]) -> bool {
    let mut entries = parse_address_data(bytes);
    for (typ, len) in expected {
        let Some(entry) = entries.next() else {
            return false;
        };
        if entry.typ != *typ || entry.bytes.len() != *len {
            return false;
        }
    }
    entries.next().is_none()
}

#[test]
fn tables_and_data_entries_are_read(rt: HostRuntime) {
    assert!(rt; reads_tables(), "tables");
    let rows = &ENTRIES;
    for index in 0..rows.len() {
        let (bytes, expected) = rows[index];
        assert!(rt; lists(bytes, expected), "entries of row {index}");
    }
}
