//! Which heads are taken.

use bz_base::Error;
use bz_gsym::GsymContext;
use bz_samples::{GSYM_LINES, damaged};
use std::alloc::Global;

/// A place in the file, the bytes that stand from there on, and whether it is taken then.
type Row = (usize, &'static [u8], bool);

/// Each field of the head is 0, its greatest value, the last one that the bytes hold, and one past
/// that.
static HEADS: [Row; 34] = [
    // The magic number.
    (0, b"\0\0\0\0", false),
    (0, b"\xff\xff\xff\xff", false),
    (0, b"\x4e\x59\x53\x47", false),
    (0, b"\x47\x53\x59\x4d", false),
    // The version.
    (4, b"\0\0", false),
    (4, b"\xff\xff", false),
    (4, b"\x02\0", false),
    // The size of addresses: at 0 the bytes at 56 are a count of 104 files.
    (6, b"\0", false),
    (6, b"\xff", false),
    (6, b"\x03", true),
    (6, b"\x2c", true),
    (6, b"\x2d", false),
    // The size of the build id.
    (7, b"\0", true),
    (7, b"\xff", true),
    // The base address.
    (8, b"\0\0\0\0\0\0\0\0", true),
    (8, b"\xff\xff\xff\xff\xff\xff\xff\xff", true),
    // The count of addresses: with 12 of them the starts descend, as the strings are among them.
    (16, b"\0\0\0\0", true),
    (16, b"\xff\xff\xff\xff", false),
    (16, b"\x03\0\0\0", true),
    (16, b"\x0c\0\0\0", false),
    (16, b"\x0d\0\0\0", false),
    // The place of the string table.
    (20, b"\0\0\0\0", true),
    (20, b"\xff\xff\xff\xff", false),
    (20, b"\x82\0\0\0", true),
    (20, b"\x83\0\0\0", false),
    // The size of the string table.
    (24, b"\0\0\0\0", true),
    (24, b"\xff\xff\xff\xff", false),
    (24, b"\x40\0\0\0", true),
    (24, b"\x41\0\0\0", false),
    // The build id.
    (
        28,
        b"\xff\xff\xff\xff\xff\xff\xff\xff\xff\xff\xff\xff\xff\xff\xff\xff\xff\xff\xff\xff",
        true,
    ),
    // The first start above the second, and both alike.
    (48, b"\x50\0\0\0", false),
    (48, b"\x40\0\0\0", true),
    // The count of files: the most that the bytes hold, and one more.
    (64, b"\x0a\0\0\0", true),
    (64, b"\x0b\0\0\0", false),
];

/// Whether the file with these bytes from a place on is taken, or else refused as outside the format.
fn is_taken(alloc: Global, file: &[u8], (place, new, expected): &Row) -> bool {
    let Ok(bytes) = damaged(alloc, file, *place, new) else {
        return false;
    };
    match GsymContext::parse_header(bytes.as_slice()) {
        Ok(_) => *expected,
        Err(error) => !*expected && error == Error::InvalidData,
    }
}

#[test]
fn heads_are_taken_or_refused_by_fields_and_length(rt: HostRuntime) {
    let heads = &HEADS;
    for index in 0..heads.len() {
        assert!(rt;
            is_taken(rt.alloc(), &GSYM_LINES, &heads[index]),
            "row {index}"
        );
    }
    // Of a file that is cut the string table has to be whole: the last of the tables, which ends at
    // 102.
    for len in 0..104usize {
        assert!(rt;
            is_taken(rt.alloc(), &GSYM_LINES[..len], &(0, b"", len >= 102)),
            "cut at {len}"
        );
    }
}
