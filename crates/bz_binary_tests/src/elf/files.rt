//! What files with damaged fields are refused for, and what they tell of addresses and offsets.

use crate::elf::made::with_symbols;
use bz_base::{Error, FindSymOpts, Reason, ResolvedSym, Symbolize, TranslateFileOffset};
use bz_elf::ElfFile;
use bz_samples::{ELF_FUNCTION, damaged};
use std::alloc::{AllocError, Global};

/// A symbol's name, start and size; or why there is none.
pub(crate) type Told = (&'static str, u64, Option<usize>, Option<Reason>);

pub(crate) const F: Told = ("f", 0x400080, Some(16), None);

const UNNAMED: Told = ("", 0x400080, Some(16), None);

pub(crate) const UNKNOWN: Told = ("", 0, None, Some(Reason::UnknownAddr));

const MISSING: Told = ("", 0, None, Some(Reason::MissingSyms));

/// How a file is refused, if it is; what it tells of addresses; and the addresses of its bytes at file
/// offsets.
type Look = (
    Option<Error>,
    &'static [(u64, Told)],
    &'static [(u64, Option<u64>)],
);

const TAKEN: Look = (None, &[], &[]);

const BAD: Look = (Some(Error::InvalidData), &[], &[]);

const OTHER: Look = (Some(Error::Unsupported), &[], &[]);

/// A place in the file, the bytes that stand from there on, and what it is then.
type Row = (usize, &'static [u8], Look);

/// Each field is 0, its greatest value, the last one that the bytes hold, and one past that.
static FIELDS: [Row; 83] = [
    // The number in front, the class and the order of bytes; the version isn't looked at.
    (0, b"\0\0\0\0", BAD),
    (0, b"\xff\xff\xff\xff", BAD),
    (0, b"\x7fELG", BAD),
    (4, b"\0", OTHER),
    (4, b"\xff", OTHER),
    (4, b"\x01", OTHER),
    (5, b"\0", OTHER),
    (5, b"\xff", OTHER),
    (5, b"\x02", OTHER),
    (6, b"\xff", TAKEN),
    // Place, size and count of the program headers.
    (32, b"\0\0\0\0\0\0\0\0", TAKEN),
    (32, b"\xff\xff\xff\xff\xff\xff\xff\xff", BAD),
    (32, b"\x38\x01", TAKEN),
    (32, b"\x39\x01", BAD),
    (54, b"\0\0", BAD),
    (54, b"\xff\xff", BAD),
    (54, b"\x39\0", BAD),
    (56, b"\0\0", TAKEN),
    (56, b"\xff\xff", BAD),
    (56, b"\x05\0", TAKEN),
    (56, b"\x06\0", BAD),
    // Place, size and count of the section headers: at 0 none of them is a symbol table.
    (40, b"\0\0\0\0\0\0\0\0", TAKEN),
    (40, b"\xff\xff\xff\xff\xff\xff\xff\xff", BAD),
    (40, b"\xb1", BAD),
    (58, b"\0\0", BAD),
    (58, b"\xff\xff", BAD),
    (58, b"\x41\0", BAD),
    (60, b"\0\0", BAD),
    (60, b"\xff\xff", BAD),
    (60, b"\x04\0", BAD),
    (60, b"\x02\0", BAD),
    (60, b"\x01\0", TAKEN),
    // The program header.
    (64, b"\0\0\0\0", TAKEN),
    (64, b"\xff\xff\xff\xff", TAKEN),
    (72, b"\xff\xff\xff\xff\xff\xff\xff\xff", TAKEN),
    (80, b"\xff\xff\xff\xff\xff\xff\xff\xff", TAKEN),
    (96, b"\0\0\0\0\0\0\0\0", TAKEN),
    (96, b"\xff\xff\xff\xff\xff\xff\xff\xff", TAKEN),
    // A second symbol table: of those that hold all symbols the first is looked at, and no other.
    (180, b"\x02", BAD),
    (180, b"\x0b", TAKEN),
    // Type, place, size, link and entry size of the symbol table: at 0 the head is a symbol.
    (244, b"\0\0\0\0", TAKEN),
    (244, b"\xff\xff\xff\xff", TAKEN),
    (244, b"\x0b", TAKEN),
    (264, b"\0\0\0\0\0\0\0\0", BAD),
    (264, b"\xff\xff\xff\xff\xff\xff\xff\xff", BAD),
    (264, b"\x40\x01", TAKEN),
    (264, b"\x41\x01", BAD),
    (272, b"\0\0\0\0\0\0\0\0", TAKEN),
    (272, b"\xff\xff\xff\xff\xff\xff\xff\xff", BAD),
    (272, b"\xf0", TAKEN),
    (272, b"\x08\x01", BAD),
    (272, b"\x2f", BAD),
    (280, b"\0\0\0\0", BAD),
    (280, b"\xff\xff\xff\xff", BAD),
    (280, b"\x03", BAD),
    (280, b"\x01", TAKEN),
    (296, b"\0\0\0\0\0\0\0\0", BAD),
    (296, b"\xff\xff\xff\xff\xff\xff\xff\xff", BAD),
    (296, b"\x11", BAD),
    (296, b"\x17", BAD),
    // Type, place and size of the strings: with 2 bytes the name has no zero byte.
    (308, b"\xff\xff\xff\xff", TAKEN),
    (328, b"\0\0\0\0\0\0\0\0", BAD),
    (328, b"\xff\xff\xff\xff\xff\xff\xff\xff", BAD),
    (328, b"\x6d\x01", TAKEN),
    (328, b"\x6e\x01", BAD),
    (336, b"\0\0\0\0\0\0\0\0", BAD),
    (336, b"\xff\xff\xff\xff\xff\xff\xff\xff", BAD),
    (336, b"\xc8", TAKEN),
    (336, b"\xc9", BAD),
    (336, b"\x02", BAD),
    // Name, type, section, start and size of a symbol; and a name that isn't UTF-8.
    (144, b"\0\0\0\0", TAKEN),
    (144, b"\xff\xff\xff\xff", BAD),
    (144, b"\x02", TAKEN),
    (144, b"\x03", BAD),
    (148, b"\0", TAKEN),
    (148, b"\xff", TAKEN),
    (150, b"\0\0", TAKEN),
    (150, b"\xff\xff", TAKEN),
    (152, b"\0\0\0\0\0\0\0\0", TAKEN),
    (152, b"\xff\xff\xff\xff\xff\xff\xff\xff", TAKEN),
    (160, b"\0\0\0\0\0\0\0\0", TAKEN),
    (160, b"\xff\xff\xff\xff\xff\xff\xff\xff", TAKEN),
    (169, b"\xff", BAD),
];

/// The program header and symbol 0 as two segments, with the count of both. The second is of 0x400080
/// bytes from 0 on.
const TWO_SEGMENTS: &[u8] =
    b"\x02\0\x40\0\x03\0\0\0\x01\0\0\0\0\0\0\0\0\0\0\0\0\0\0\0\0\0\x40\0\0\0\0\0\0\0\0\0\0\0\0\0\0\x02\0\0\0\0\0\0\0\0\0\0\0\0\0\0\0\0\0\0\0\0\0\0\x01";

/// What files tell of addresses, and where their bytes at offsets are loaded.
static ANSWERS: [Row; 21] = [
    (
        0,
        b"",
        (
            None,
            &[
                (0x40007f, UNKNOWN),
                (0x400080, F),
                (0x400088, F),
                (0x40008f, F),
                (0x400090, UNKNOWN),
            ],
            &[
                (0, Some(0x400000)),
                (0x88, Some(0x400088)),
                (0x1ff, Some(0x4001ff)),
                (0x200, None),
            ],
        ),
    ),
    // A function that is chosen when the file is loaded; an object, and one that is elsewhere.
    (148, b"\x1a", (None, &[(0x400088, F)], &[])),
    (148, b"\x11", (None, &[(0x400088, MISSING)], &[])),
    (150, b"\0\0", (None, &[(0x400088, MISSING)], &[])),
    // A size of 0, and ends that don't fit 64 bits.
    (
        160,
        b"\0",
        (
            None,
            &[(0x400080, ("f", 0x400080, None, None)), (0x400081, UNKNOWN)],
            &[],
        ),
    ),
    (
        160,
        b"\xff\xff\xff\xff\xff\xff\xff\xff",
        (None, &[(0x400080, UNKNOWN)], &[]),
    ),
    (
        152,
        b"\xff\xff\xff\xff\xff\xff\xff\xff",
        (None, &[(u64::MAX, UNKNOWN)], &[]),
    ),
    (
        152,
        b"\xef\xff\xff\xff\xff\xff\xff\xff",
        (
            None,
            &[(u64::MAX - 1, ("f", u64::MAX - 16, Some(16), None))],
            &[],
        ),
    ),
    // No symbol table, the symbols for linking alone, and both.
    (244, b"\0", (None, &[(0x400088, MISSING)], &[])),
    (244, b"\x0b", (None, &[(0x400088, F)], &[])),
    (180, b"\x0b", (None, &[(0x400088, F)], &[])),
    // The name is empty; other strings.
    (144, b"\x02", (None, &[(0x400088, UNNAMED)], &[])),
    (280, b"\x01", (None, &[(0x400088, UNNAMED)], &[])),
    (328, b"\x6d\x01", (None, &[(0x400088, UNNAMED)], &[])),
    // No segment, and one of another kind.
    (56, b"\0", (None, &[], &[(0x88, None)])),
    (64, b"\x02", (None, &[], &[(0x88, None)])),
    // The segment begins at 0x10.
    (
        72,
        b"\x10",
        (None, &[], &[(0xf, None), (0x20f, Some(0x4001ff))]),
    ),
    // Another load segment, with sums at the end of 64 bits and past it.
    (
        80,
        b"\xff\xff\xff\xff\xff\xff\xff\xff",
        (None, &[(0, UNKNOWN)], &[(0, Some(u64::MAX)), (0x88, None)]),
    ),
    (96, b"\0\0", (None, &[], &[(0, None)])),
    (
        96,
        b"\xff\xff\xff\xff\xff\xff\xff\xff",
        (None, &[], &[(u64::MAX - 1, None)]),
    ),
    // The first segment that has the offset.
    (
        56,
        TWO_SEGMENTS,
        (
            None,
            &[],
            &[
                (0x88, Some(0x400088)),
                (0x200, Some(0x200)),
                (0x400080, None),
            ],
        ),
    ),
];

/// Whether this is what is found, in this module, where an empty text stands for none.
fn is_told(
    found: &Result<Result<ResolvedSym<'_>, Reason>, Error>,
    module: &str,
    (name, start, size, reason): &Told,
) -> bool {
    match found {
        Ok(Ok(symbol)) => {
            *reason == None
                && symbol.name == *name
                && symbol.addr == *start
                && symbol.size == *size
                && symbol.module.is_none() == module.is_empty()
                && symbol.module.unwrap_or("") == module
        }
        Ok(Err(given)) => *reason == Some(*given),
        Err(_) => false,
    }
}

/// Whether a table tells this of an address, as of this module.
pub(crate) fn tells<T: Symbolize>(
    alloc: Global,
    table: &T,
    addr: u64,
    module: &str,
    told: &Told,
) -> bool {
    is_told(
        &table.find_sym(alloc, addr, &FindSymOpts::Basic),
        module,
        told,
    )
}

/// Whether the file looks so, and isn't to be refused.
fn looks(alloc: Global, file: &ElfFile, (refusal, answers, offsets): &Look) -> bool {
    for row in *answers {
        if !tells(alloc, file, row.0, "", &row.1) {
            return false;
        }
    }
    for row in *offsets {
        if file.file_offset_to_virt_offset(row.0) != Ok(row.1) {
            return false;
        }
    }
    *refusal == None
}

/// Whether the bytes, damaged as the row says, are a file that looks so, or are refused so.
fn shows(alloc: Global, bytes: &[u8], (place, new, look): &Row) -> bool {
    let Ok(bytes) = damaged(alloc, bytes, *place, new) else {
        return false;
    };
    match ElfFile::from_bytes(alloc, bytes) {
        Ok(file) => looks(alloc, &file, look),
        Err(error) => look.0 == Some(error),
    }
}

#[test]
fn files_are_taken_or_refused_by_fields_and_length(rt: HostRuntime) {
    let fields = &FIELDS;
    for index in 0..fields.len() {
        assert!(rt;
            shows(rt.alloc(), &ELF_FUNCTION, &fields[index]),
            "row {index}"
        );
    }
    // Class and order of bytes are looked at as soon as both stand there, before anything behind them.
    for len in 0..368usize {
        let front = &ELF_FUNCTION[..len];
        let of_32_bits = if len < 6 { BAD } else { OTHER };
        assert!(rt; shows(rt.alloc(), front, &(0, b"", BAD)), "cut at {len}");
        assert!(rt;
            shows(rt.alloc(), front, &(4, b"\x01", of_32_bits)),
            "32 bits, cut at {len}"
        );
    }
}

/// Functions in the order of a file: the place of the name, then the kind and the section, the start
/// and the size.
const FUNCTIONS: [u8; 144] = [
    // `f` from 0x40 on with 4 bytes.
    0x01, 0x00, 0x00, 0x00, 0x02, 0x00, 0x01, 0x00, 0x40, 0x00, 0x00, 0x00, 0x00, 0x00, 0x00, 0x00,
    0x04, 0x00, 0x00, 0x00, 0x00, 0x00, 0x00, 0x00,
    // `f` from 0x20 on with 8 bytes.
    0x01, 0x00, 0x00, 0x00, 0x02, 0x00, 0x01, 0x00, 0x20, 0x00, 0x00, 0x00, 0x00, 0x00, 0x00, 0x00,
    0x08, 0x00, 0x00, 0x00, 0x00, 0x00, 0x00, 0x00,
    // One without a name from 0x20 on with 2 bytes.
    0x00, 0x00, 0x00, 0x00, 0x02, 0x00, 0x01, 0x00, 0x20, 0x00, 0x00, 0x00, 0x00, 0x00, 0x00, 0x00,
    0x02, 0x00, 0x00, 0x00, 0x00, 0x00, 0x00, 0x00,
    // `f` from 0x30 on with 4 bytes.
    0x01, 0x00, 0x00, 0x00, 0x02, 0x00, 0x01, 0x00, 0x30, 0x00, 0x00, 0x00, 0x00, 0x00, 0x00, 0x00,
    0x04, 0x00, 0x00, 0x00, 0x00, 0x00, 0x00, 0x00,
    // One without a name from 0x30 on with 4 bytes.
    0x00, 0x00, 0x00, 0x00, 0x02, 0x00, 0x01, 0x00, 0x30, 0x00, 0x00, 0x00, 0x00, 0x00, 0x00, 0x00,
    0x04, 0x00, 0x00, 0x00, 0x00, 0x00, 0x00, 0x00,
    // `f` from 0x10 on with 128 bytes.
    0x01, 0x00, 0x00, 0x00, 0x02, 0x00, 0x01, 0x00, 0x10, 0x00, 0x00, 0x00, 0x00, 0x00, 0x00, 0x00,
    0x80, 0x00, 0x00, 0x00, 0x00, 0x00, 0x00, 0x00,
];

/// What the file with these functions tells of addresses.
const BY_ORDER: Look = (
    None,
    &[
        (0xf, UNKNOWN),
        (0x1f, ("f", 0x10, Some(0x80), None)),
        (0x20, ("", 0x20, Some(2), None)),
        (0x21, ("f", 0x20, Some(8), None)),
        (0x28, UNKNOWN),
        (0x30, ("f", 0x30, Some(4), None)),
        (0x31, ("", 0x30, Some(4), None)),
        (0x43, ("f", 0x40, Some(4), None)),
        (0x50, UNKNOWN),
    ],
    &[],
);

/// Whether it does so, with an empty string and `f`.
fn answers_by_order(alloc: Global) -> Result<bool, AllocError> {
    let bytes = with_symbols(alloc, &FUNCTIONS, b"\0f\0")?;
    Ok(shows(alloc, bytes.as_slice(), &(0, b"", BY_ORDER)))
}

#[test]
fn answers_by_the_nearest_symbol_and_the_first_segment(rt: HostRuntime) {
    let answers = &ANSWERS;
    for index in 0..answers.len() {
        assert!(rt;
            shows(rt.alloc(), &ELF_FUNCTION, &answers[index]),
            "row {index}"
        );
    }
    assert!(rt;
        answers_by_order(rt.alloc()) == Ok(true),
        "functions out of order"
    );
}
