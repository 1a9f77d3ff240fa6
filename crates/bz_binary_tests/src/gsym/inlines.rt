//! Inline trees, and the frames that they give.

use bz_base::Error;
use bz_gsym::{InlineFrame, InlineInfo};
use std::alloc::{AllocError, Global};

/// The function itself, which nothing calls, and two calls in it.
const MAIN: InlineFrame = InlineFrame {
    name: 1,
    call_file: 0,
    call_line: 0,
};

const SUB: InlineFrame = InlineFrame {
    name: 14,
    call_file: 1,
    call_line: 9,
};

const NEXT: InlineFrame = InlineFrame {
    name: 2,
    call_file: 1,
    call_line: 6,
};

/// Functions whose call file and call line are the greatest ones.
const LAST_FILE: InlineFrame = InlineFrame {
    name: 1,
    call_file: 4294967295,
    call_line: 0,
};

const LAST_LINE: InlineFrame = InlineFrame {
    name: 1,
    call_file: 0,
    call_line: 4294967295,
};

/// A function of 0x20 bytes, in it a call without a name of 0x10 bytes, and in that one of 4 bytes.
const NESTED: &[u8] =
    b"\x01\x00\x20\x01\x01\0\0\0\x00\x00\x01\x00\x10\x01\0\0\0\0\x00\x00\x01\x04\x04\x00\x0e\0\0\0\x01\x09\x00\x00";

/// A function of 0x10 bytes, with a call in it whose start passes 64 bits.
const FAR: &[u8] =
    b"\x01\x00\x10\x01\x01\0\0\0\x00\x00\x01\xff\xff\xff\xff\xff\xff\xff\xff\xff\x01\x01\x00\x02\0\0\0\x00\x00\x00";

/// A function of two ranges, whose call counts from the first one and is followed by another call.
const RANGES: &[u8] =
    b"\x02\x08\x04\x20\x04\x01\x01\0\0\0\x00\x00\x01\x18\x01\x00\x0e\0\0\0\x01\x09\x01\x19\x01\x00\x02\0\0\0\x01\x06\x00";

/// A tree, an address, whether the tree is taken, and the frames around the address. Each tree's base
/// is 0x1000.
type TreeRow = (&'static [u8], u64, bool, &'static [InlineFrame]);

/// Trees that are taken for an address, and then ones that are refused for one.
static TREES: [TreeRow; 19] = [
    (NESTED, 0x0fff, true, &[]),
    (NESTED, 0x1003, true, &[MAIN]),
    (NESTED, 0x1004, true, &[MAIN, SUB]),
    (NESTED, 0x1007, true, &[MAIN, SUB]),
    (NESTED, 0x1008, true, &[MAIN]),
    (NESTED, 0x1020, true, &[]),
    (RANGES, 0x1020, true, &[MAIN, SUB]),
    (RANGES, 0x1021, true, &[MAIN, NEXT]),
    (RANGES, 0x100c, true, &[]),
    // What is passed over may lie anywhere.
    (FAR, 0x1020, true, &[]),
    // A count of 0 is a tree without nodes.
    (b"\0", 0x1000, true, &[]),
    // The greatest call file; call lines that are cut to 32 bits.
    (
        b"\x01\x00\x10\x00\x01\0\0\0\xff\xff\xff\xff\x0f\x00",
        0x1000,
        true,
        &[LAST_FILE],
    ),
    (
        b"\x01\x00\x10\x00\x01\0\0\0\x00\x80\x80\x80\x80\x10",
        0x1000,
        true,
        &[LAST_LINE],
    ),
    (
        b"\x01\x00\x10\x00\x01\0\0\0\x00\xff\xff\xff\xff\x0f",
        0x1000,
        true,
        &[LAST_LINE],
    ),
    // What is read may not lie past 64 bits.
    (FAR, 0x1005, false, &[]),
    // Bytes or numbers are missing.
    (b"", 0x1000, false, &[]),
    (b"\x01", 0x1000, false, &[]),
    (
        b"\xff\xff\xff\xff\xff\xff\xff\xff\xff\x01",
        0x1000,
        false,
        &[],
    ),
    // A call file past 32 bits.
    (
        b"\x01\x00\x10\x00\x01\0\0\0\x80\x80\x80\x80\x10\x00",
        0x1000,
        false,
        &[],
    ),
];

/// A node of the deep tree.
const LEVEL: InlineFrame = InlineFrame {
    name: 1,
    call_file: 1,
    call_line: 3,
};

const DEPTH: usize = 100000;

/// Whether the bytes give these frames around an address, or are refused where they aren't taken.
fn gives(alloc: Global, bytes: &[u8], addr: u64, taken: bool, expected: &[InlineFrame]) -> bool {
    match InlineInfo::parse_inline_stack(alloc, bytes, 0x1000, addr) {
        Ok(frames) => taken && frames.as_slice() == expected,
        Err(error) => !taken && error == Error::InvalidData,
    }
}

/// Whether a tree of nodes one inside the other, each of 0x20 bytes, gives its frames inside and none
/// outside. Without its last byte it is refused at both addresses.
fn walks_deep(alloc: Global) -> Result<bool, AllocError> {
    let mut bytes = Vec::new(alloc);
    let mut levels = Vec::new(alloc);
    for _ in 0..DEPTH {
        bytes.extend_from_slice(b"\x01\x00\x20\x01\x01\0\0\0\x01\x03")?;
        levels.push(LEVEL)?;
    }
    for _ in 1..DEPTH {
        bytes.push(0)?;
    }
    let refused = gives(alloc, bytes.as_slice(), 0x1005, false, &[])
        && gives(alloc, bytes.as_slice(), 0x1020, false, &[]);
    bytes.push(0)?;
    Ok(
        refused
            && gives(alloc, bytes.as_slice(), 0x1005, true, levels.as_slice())
            && gives(alloc, bytes.as_slice(), 0x1020, true, &[]),
    )
}

#[test]
fn trees_give_the_frames_around_an_address_or_are_refused(rt: HostRuntime) {
    let trees = &TREES;
    for index in 0..trees.len() {
        let (bytes, addr, taken, frames) = trees[index];
        assert!(rt;
            gives(rt.alloc(), bytes, addr, taken, frames),
            "row {index}"
        );
    }
    assert!(rt; walks_deep(rt.alloc()) == Ok(true), "a deep tree");
}
