//! Which names are taken: UTF-8 that a zero byte ends, wherever in the strings it begins.

use crate::elf::files::tells;
use crate::elf::made::with_symbols;
use bz_base::Error;
use bz_elf::ElfFile;
use std::alloc::{AllocError, Global};

/// Strings that are UTF-8.
const TEXT: &[u8] = b"\0a\xc3\xa9b\0\xe2\x82\xac\0cd";

/// Strings that aren't: at 3 stands a byte that is in no character, at 8 the first of two, and at 17
/// a later one.
const MIXED: &[u8] = b"\0ab\xffc\0d\0\xc3\0\xe2\x82\xace\0f\0\x80";

/// Strings, places of names in them, and the names, or nothing where the last of them is none.
type Row = (&'static [u8], &'static [u32], &'static [&'static str]);

static NAMES: [Row; 24] = [
    (
        TEXT,
        &[0, 1, 2, 4, 5, 6, 9],
        &["", "aéb", "éb", "b", "", "€", ""],
    ),
    // In the order of the file, whatever the order of the places.
    (TEXT, &[9, 4, 1, 4], &["", "b", "aéb", "b"]),
    (b"abc\0", &[3, 2, 1, 0], &["", "c", "bc", "abc"]),
    (b"\0", &[0], &[""]),
    // What is named is UTF-8, though what lies beside it isn't.
    (MIXED, &[4, 6, 10, 14], &["c", "d", "€e", ""]),
    (
        MIXED,
        &[13, 10, 15, 16, 9, 0, 5, 7],
        &["e", "€e", "f", "", "", "", "", ""],
    ),
    (b"\xff\0", &[1], &[""]),
    // Within a character, behind the last zero byte, at the end and past it.
    (TEXT, &[1, 3], &[]),
    (TEXT, &[7], &[]),
    (TEXT, &[6, 8], &[]),
    (TEXT, &[10], &[]),
    (TEXT, &[12], &[]),
    (TEXT, &[13], &[]),
    (TEXT, &[u32::MAX], &[]),
    // No UTF-8 from there on, also where it lies in front of a name that is good.
    (MIXED, &[1], &[]),
    (MIXED, &[4, 2], &[]),
    (MIXED, &[4, 3], &[]),
    (MIXED, &[8], &[]),
    (MIXED, &[10, 11], &[]),
    (MIXED, &[10, 12], &[]),
    (MIXED, &[15, 17], &[]),
    (MIXED, &[15, 18], &[]),
    // No zero byte.
    (b"ab", &[0], &[]),
    (b"", &[0], &[]),
];

/// A file with these strings, and with functions of one byte each, from the address 0 on, that have
/// their names at these places.
fn with_names(alloc: Global, strings: &[u8], places: &[u32]) -> Result<Vec<u8>, AllocError> {
    let mut symbols = Vec::new(alloc);
    for (i, place) in places.iter().enumerate() {
        let name = place.to_le_bytes();
        let start = (i % 256) as u8;
        symbols.extend_from_slice(&[
            name[0], name[1], name[2], name[3], 2, 0, 1, 0, start, 0, 0, 0, 0, 0, 0, 0, 1, 0, 0, 0,
            0, 0, 0, 0,
        ])?;
    }
    with_symbols(alloc, symbols.as_slice(), strings)
}

/// Whether the functions, of one byte each from the address 0 on, have these names, of which there are
/// some.
fn are_named(alloc: Global, file: &ElfFile, names: &[&'static str]) -> bool {
    for (i, name) in names.iter().enumerate() {
        let addr = i as u64;
        if !tells(alloc, file, addr, "", &(*name, addr, Some(1), None)) {
            return false;
        }
    }
    !names.is_empty()
}

/// Whether the file has the row's names, or is refused where there are none.
fn has_names(alloc: Global, (strings, places, names): &Row) -> bool {
    let Ok(bytes) = with_names(alloc, strings, places) else {
        return false;
    };
    match ElfFile::from_bytes(alloc, bytes) {
        Ok(file) => are_named(alloc, &file, names),
        Err(error) => names.is_empty() && error == Error::InvalidData,
    }
}

#[test]
fn names_are_utf_8_that_a_zero_byte_ends(rt: HostRuntime) {
    let names = &NAMES;
    for index in 0..names.len() {
        assert!(rt; has_names(rt.alloc(), &names[index]), "row {index}");
    }
}
