//! The search among the starts of a file, beside a plain scan.

use bz_gsym::GsymContext;
use bz_samples::{GSYM_LINES, damaged};
use std::alloc::{AllocError, Global};

/// A file with these starts, each of so many bytes, and base address 0x1000. Its symbols have no data.
fn file_of(alloc: Global, size: u8, starts: &[u8]) -> Result<Vec<u8>, AllocError> {
    let count = (starts.len() % 256) as u8;
    let head = [
        b'M', b'Y', b'S', b'G', 1, 0, size, 0, 0, 0x10, 0, 0, 0, 0, 0, 0, count,
    ];
    let mut bytes = Vec::from_slice(alloc, &head)?;
    bytes.extend_from_slice(&[0; 31])?;
    for start in starts {
        bytes.push(*start)?;
        for _ in 1..size {
            bytes.push(0)?;
        }
    }
    // Up to the next place divisible by 4, and then the data places and the count of files.
    let padding = (4 - bytes.len() % 4) % 4;
    for _ in 0..padding {
        bytes.push(0)?;
    }
    for _ in 0..=starts.len() {
        bytes.extend_from_slice(&[0; 4])?;
    }
    Ok(bytes)
}

/// The index of the first start that equals the distance, else of the last one below it.
fn scanned(starts: &[u8], distance: u8) -> Option<usize> {
    let mut below = None;
    for (index, start) in starts.iter().enumerate() {
        if *start == distance {
            return Some(index);
        }
        if *start < distance {
            below = Some(index);
        }
    }
    below
}

/// The starts of files, in ascending order.
static STARTS: [&[u8]; 8] = [
    &[],
    &[0],
    &[5],
    &[3, 3],
    &[0, 0, 7],
    &[1, 4, 4, 4],
    &[2, 2, 2, 2, 2],
    &[0, 3, 3, 6, 8, 8, 9, 12, 15],
];

/// The sizes of a start, in bytes.
const SIZES: &[u8] = &[1, 2, 4, 8];

/// Whether the search in a file with these starts, each of so many bytes, finds nothing below the base
/// address. At each distance from that it finds what a scan of the starts finds.
fn finds_as_scanned(alloc: Global, size: u8, starts: &[u8]) -> bool {
    let Ok(bytes) = file_of(alloc, size, starts) else {
        return false;
    };
    let Ok(context) = GsymContext::parse_header(bytes.as_slice()) else {
        return false;
    };
    let mut found = context.find_addr(0xfff) == None;
    for distance in 0..17u8 {
        let index = context.find_addr(0x1000 + u64::from(distance));
        found = found && index == scanned(starts, distance);
    }
    found
}

/// A file of starts of two bytes each, as LLVM's tools wrote them, without data of symbols.
const WRITTEN: [u8; 216] = [
    // The head: magic, version, address size 2, base address 0, 27 addresses, no strings.
    0x4d, 0x59, 0x53, 0x47, 0x01, 0x00, 0x02, 0x00, 0x00, 0x00, 0x00, 0x00, 0x00, 0x00, 0x00, 0x00,
    0x1b, 0x00, 0x00, 0x00, 0x00, 0x00, 0x00, 0x00, 0x00, 0x00, 0x00, 0x00, 0x00, 0x00, 0x00, 0x00,
    0x00, 0x00, 0x00, 0x00, 0x00, 0x00, 0x00, 0x00, 0x00, 0x00, 0x00, 0x00, 0x00, 0x00, 0x00, 0x00,
    // The starts, the least byte first.
    0x9c, 0x60, 0xb4, 0x60, 0xc0, 0x60, 0xf0, 0x60, 0x30, 0x61, 0x70, 0x61, 0x80, 0x61, 0xa0, 0x61,
    0xe0, 0x64, 0x30, 0x6b, 0x20, 0x6e, 0x80, 0x70, 0xd0, 0x76, 0x50, 0x78, 0xa0, 0x79, 0x90, 0x85,
    0x30, 0x87, 0xa0, 0x8a, 0xe0, 0x8c, 0x00, 0xf4, 0xd0, 0xf5, 0x30, 0xf7, 0xf0, 0xf8, 0x40, 0xfa,
    0xf0, 0xfb, 0xa0, 0xfc, 0x80, 0xff,
    // Filling; the data places; no files.
    0x00, 0x00, 0x00, 0x00, 0x00, 0x00, 0x00, 0x00, 0x00, 0x00, 0x00, 0x00, 0x00, 0x00, 0x00, 0x00,
    0x00, 0x00, 0x00, 0x00, 0x00, 0x00, 0x00, 0x00, 0x00, 0x00, 0x00, 0x00, 0x00, 0x00, 0x00, 0x00,
    0x00, 0x00, 0x00, 0x00, 0x00, 0x00, 0x00, 0x00, 0x00, 0x00, 0x00, 0x00, 0x00, 0x00, 0x00, 0x00,
    0x00, 0x00, 0x00, 0x00, 0x00, 0x00, 0x00, 0x00, 0x00, 0x00, 0x00, 0x00, 0x00, 0x00, 0x00, 0x00,
    0x00, 0x00, 0x00, 0x00, 0x00, 0x00, 0x00, 0x00, 0x00, 0x00, 0x00, 0x00, 0x00, 0x00, 0x00, 0x00,
    0x00, 0x00, 0x00, 0x00, 0x00, 0x00, 0x00, 0x00, 0x00, 0x00, 0x00, 0x00, 0x00, 0x00, 0x00, 0x00,
    0x00, 0x00, 0x00, 0x00, 0x00, 0x00, 0x00, 0x00, 0x00, 0x00, 0x00, 0x00, 0x00, 0x00, 0x00, 0x00,
    0x00, 0x00,
];

/// A file of one start of one byte, behind a base address that is the last one. Its symbol has no
/// data.
const LAST_BASE: [u8; 60] = [
    // The head: magic, version, address size 1, the base address, one address, no strings.
    0x4d, 0x59, 0x53, 0x47, 0x01, 0x00, 0x01, 0x00, 0xff, 0xff, 0xff, 0xff, 0xff, 0xff, 0xff, 0xff,
    0x01, 0x00, 0x00, 0x00, 0x00, 0x00, 0x00, 0x00, 0x00, 0x00, 0x00, 0x00, 0x00, 0x00, 0x00, 0x00,
    0x00, 0x00, 0x00, 0x00, 0x00, 0x00, 0x00, 0x00, 0x00, 0x00, 0x00, 0x00, 0x00, 0x00, 0x00, 0x00,
    // The start 1 and filling; the data place 0; no files.
    0x01, 0x00, 0x00, 0x00, 0x00, 0x00, 0x00, 0x00, 0x00, 0x00, 0x00, 0x00,
];

/// A file, a place in it, and the bytes that stand from there on. Then an address, and the index and
/// the start that are found for it.
type Row = (
    &'static [u8],
    usize,
    &'static [u8],
    u64,
    Option<usize>,
    Option<u64>,
);

/// Searches in a file that LLVM's tools wrote, in one whose addresses are unknown, and in one whose
/// start is within 64 bits or past them.
static FOUND: [Row; 11] = [
    // The last start is below the address.
    (&WRITTEN, 0, b"", 0x10635, Some(26), Some(0xff80)),
    // Addresses of 3 bytes are unknown.
    (&GSYM_LINES, 6, b"\x03", 0, None, None),
    (&GSYM_LINES, 6, b"\x03", 0x1000, None, None),
    (&GSYM_LINES, 6, b"\x03", 0x1040, None, None),
    (&GSYM_LINES, 6, b"\x03", 18446744073709551615, None, None),
    // The start stands for no address, or for the last one.
    (&LAST_BASE, 48, b"\x01", u64::MAX, None, None),
    (&LAST_BASE, 48, b"\x01", u64::MAX - 1, None, None),
    (&LAST_BASE, 48, b"\xff", u64::MAX, None, None),
    (&LAST_BASE, 48, b"\xff", u64::MAX - 1, None, None),
    (&LAST_BASE, 48, b"\0", u64::MAX, Some(0), Some(u64::MAX)),
    (&LAST_BASE, 48, b"\0", u64::MAX - 1, None, Some(u64::MAX)),
];

/// Whether the file finds what the row says: the start of the index, or that of the first one.
/// No start is behind its last one.
fn finds(alloc: Global, (file, place, new, addr, index, start): &Row) -> bool {
    let Ok(bytes) = damaged(alloc, file, *place, new) else {
        return false;
    };
    match GsymContext::parse_header(bytes.as_slice()) {
        Ok(context) => {
            context.find_addr(*addr) == *index
                && context.addr_at(index.unwrap_or(0)) == *start
                && context.addr_at(context.header().num_addrs as usize) == None
        }
        Err(_) => false,
    }
}

#[test]
fn searches_find_the_nearest_start_or_none(rt: HostRuntime) {
    let rows = &STARTS;
    for index in 0..rows.len() {
        for size in SIZES {
            assert!(rt;
                finds_as_scanned(rt.alloc(), *size, rows[index]),
                "starts {index} of size {size}"
            );
        }
    }
    let found = &FOUND;
    for index in 0..found.len() {
        assert!(rt; finds(rt.alloc(), &found[index]), "row {index}");
    }
}
