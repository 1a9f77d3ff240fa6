//! Lines of addresses, and fields.

use bz_requests::{BadInput, address, fields, read_addrs};
use std::alloc::Global;

/// An input, how many addresses it says, the last of them, and its first line that isn't well formed;
/// 0 where there is none.
static INPUTS: [(&[u8], usize, u64, u64); 20] = [
    (b"", 0, 0, 0),
    (b"\n\r\n\n", 0, 0, 0),
    (b"10\n", 1, 0x10, 0),
    (b"10", 1, 0x10, 0),
    (b"1010\n0x1030\n", 2, 0x1030, 0),
    (b"1\r\n\r\n2\r\n3\r", 3, 3, 0),
    (b"\n\nfFfFfFfFfFfFfFfF\n", 1, 0xffff_ffff_ffff_ffff, 0),
    (b"0xABCDEF\n0x0\n", 2, 0, 0),
    (b"0000000000000001\n", 1, 1, 0),
    (b"10\nxyz\n", 0, 0, 2),
    (b"\n\n10 \n", 0, 0, 3),
    (b" 10\n", 0, 0, 1),
    (b"10\r\r\n", 0, 0, 1),
    (b"\r\r\n", 0, 0, 1),
    (b"0x\n", 0, 0, 1),
    (b"0X10\n", 0, 0, 1),
    (b"0x0x10\n", 0, 0, 1),
    (b"00000000000000001\n", 0, 0, 1),
    (b"1\n2\n-3\n+4\n", 0, 0, 3),
    (b"1\n2\n10 20", 0, 0, 3),
];

/// A text, how many fields it has, and the last of them. Fields are cut at each space.
static FIELDS: [(&[u8], usize, &[u8]); 6] = [
    (b"", 1, b""),
    (b"a", 1, b"a"),
    (b"a b", 2, b"b"),
    (b"a  b\tc", 3, b"b\tc"),
    (b"a ", 2, b""),
    (b" ", 2, b""),
];

/// Whether the input says so many addresses, with this one at its end, or is refused at this line.
fn says(alloc: Global, text: &[u8], count: usize, last: u64, line: u64) -> bool {
    match read_addrs(alloc, text) {
        Ok(addrs) => {
            line == 0 && addrs.len() == count && addrs.last().copied().unwrap_or(0) == last
        }
        Err(BadInput::Line(number)) => line > 0 && number == line,
        Err(_) => false,
    }
}

/// Whether the text has so many fields, with this one at its end.
fn has_fields(alloc: Global, text: &[u8], count: usize, last: &[u8]) -> bool {
    match fields(alloc, text) {
        Ok(all) => all.len() == count && all.last().copied().unwrap_or(b"-") == last,
        Err(_) => false,
    }
}

#[test]
fn reads_addresses_refuses_bad_lines_and_cuts_fields(rt: HostRuntime) {
    let inputs = &INPUTS;
    for index in 0..inputs.len() {
        let (text, count, last, line) = inputs[index];
        assert!(rt; says(rt.alloc(), text, count, last, line), "row {index}");
    }
    let rows = &FIELDS;
    for index in 0..rows.len() {
        let (text, count, last) = rows[index];
        assert!(rt;
            has_fields(rt.alloc(), text, count, last),
            "fields of row {index}"
        );
    }
    // An address is a whole text.
    assert!(rt;
        address(b"0x1f") == Some(31) && address(b"1f ") == None,
        "whole texts"
    );
}
