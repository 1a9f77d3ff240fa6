//! What files answer for addresses: symbols, their sites, and inlined calls.

use bz_base::FindSymOpts::{Basic, CodeInfo, CodeInfoAndInlined};
use bz_base::{Error, FindSymOpts, InlinedFn, Reason, ResolvedSym, Symbolize};
use bz_gsym::{GsymContext, GsymResolver, GsymTable};
use bz_samples::{GSYM_CALLS, GSYM_LINES, damaged};
use std::alloc::Global;

/// Name, start and size of a symbol. Without a name the address is unknown.
pub(crate) type Symbol = (&'static str, u64, usize);

pub(crate) const UNKNOWN: Symbol = ("", 0, 0);

/// What is asked for is outside the format.
pub(crate) const REFUSED: Symbol = ("(refused)", 0, 0);

const MAIN: Symbol = ("main", 0x1000, 0x20);

const SUB: Symbol = ("sub", 0x1040, 0);

/// A directory, a file and a line. Without a line there is no site.
pub(crate) type Site = (&'static str, &'static str, u32);

pub(crate) const NOWHERE: Site = ("", "", 0);

const LINE_5: Site = ("src", "a.c", 5);

const LINE_7: Site = ("src", "a.c", 7);

const LINE_9: Site = ("src", "a.c", 9);

const LINE_10: Site = ("src", "a.c", 10);

/// A place in the file, the bytes that stand from there on, an address, and what is asked for. Then the
/// symbol and its site, and the name of its inlined call and the site in that. Without a name there is
/// no call.
pub(crate) type Row = (
    usize,
    &'static [u8],
    u64,
    FindSymOpts,
    Symbol,
    Site,
    &'static str,
    Site,
);

/// `main` is at its start.
pub(crate) const AT_MAIN: Row = (0, b"", 0x1000, Basic, MAIN, NOWHERE, "", NOWHERE);

/// What the file with lines answers.
static LINES: [Row; 29] = [
    (0, b"", 0xfff, Basic, UNKNOWN, NOWHERE, "", NOWHERE),
    (0, b"", 0x1000, Basic, MAIN, NOWHERE, "", NOWHERE),
    (0, b"", 0x100c, Basic, MAIN, NOWHERE, "", NOWHERE),
    (0, b"", 0x101f, Basic, MAIN, NOWHERE, "", NOWHERE),
    (0, b"", 0x1020, Basic, UNKNOWN, NOWHERE, "", NOWHERE),
    (0, b"", 0x1040, Basic, SUB, NOWHERE, "", NOWHERE),
    (0, b"", 0x9999, Basic, SUB, NOWHERE, "", NOWHERE),
    // Addresses of 3 bytes are unknown.
    (6, b"\x03", 0x1000, Basic, UNKNOWN, NOWHERE, "", NOWHERE),
    (6, b"\x03", 0x1040, CodeInfo, UNKNOWN, NOWHERE, "", NOWHERE),
    // A symbol that doesn't reach the address isn't refused for its name.
    (108, b"\x12", 0x1020, Basic, UNKNOWN, NOWHERE, "", NOWHERE),
    // The data place lies 7 bytes before the end.
    (56, b"\x8d", 0x1000, Basic, REFUSED, NOWHERE, "", NOWHERE),
    // The name lies on the last byte of the string table but isn't ended there, lies past it, or
    // isn't UTF-8.
    (101, b"\x62", 0x1040, Basic, REFUSED, NOWHERE, "", NOWHERE),
    (140, b"\x12", 0x1040, Basic, REFUSED, NOWHERE, "", NOWHERE),
    (
        140,
        b"\xff\xff\xff\xff",
        0x1040,
        Basic,
        REFUSED,
        NOWHERE,
        "",
        NOWHERE,
    ),
    (98, b"\xff", 0x1040, Basic, REFUSED, NOWHERE, "", NOWHERE),
    // On lines.
    (0, b"", 0xfff, CodeInfo, UNKNOWN, NOWHERE, "", NOWHERE),
    (0, b"", 0x1000, CodeInfo, MAIN, LINE_5, "", NOWHERE),
    (
        0,
        b"",
        0x1000,
        CodeInfoAndInlined,
        MAIN,
        LINE_5,
        "",
        NOWHERE,
    ),
    (0, b"", 0x100c, CodeInfo, MAIN, LINE_7, "", NOWHERE),
    (0, b"", 0x101f, CodeInfo, MAIN, LINE_10, "", NOWHERE),
    (0, b"", 0x1020, CodeInfo, UNKNOWN, NOWHERE, "", NOWHERE),
    (0, b"", 0x9999, CodeInfo, SUB, NOWHERE, "", NOWHERE),
    // The first row lies at 0x1001.
    (123, b"\x17", 0x1000, CodeInfo, MAIN, NOWHERE, "", NOWHERE),
    // A line table without rows, or with a first row above the address, and one more.
    (
        112,
        b"\x01\0\0\0\x03\0\0\0\x7c\x0a\x05\x01\0\0\0\x04\0\0\0\x7c\x0a\x09\x08",
        0x1000,
        CodeInfo,
        MAIN,
        LINE_9,
        "",
        NOWHERE,
    ),
    (
        112,
        b"\x01\0\0\0\x04\0\0\0\x7c\x0a\x05\x17\x01\0\0\0\x04\0\0\0\x7c\x0a\x09\x08",
        0x1000,
        CodeInfo,
        MAIN,
        LINE_9,
        "",
        NOWHERE,
    ),
    // A line table behind one with a row isn't read, whatever it is.
    (
        112,
        b"\x01\0\0\0\x04\0\0\0\x7c\x0a\x05\x08\x01\0\0\0\x01\0\0\0\x7c\0\0\0",
        0x1000,
        CodeInfo,
        MAIN,
        LINE_5,
        "",
        NOWHERE,
    ),
    // A head that isn't whole isn't looked at for the name alone.
    (116, b"\x02", 0x1000, Basic, MAIN, NOWHERE, "", NOWHERE),
    // File 0 has empty texts.
    (
        123,
        b"\x01\x00\x08\x00",
        0x1000,
        CodeInfo,
        MAIN,
        ("", "", 5),
        "",
        NOWHERE,
    ),
    // Entries of another type are passed over.
    (
        112,
        b"\x03",
        0x1000,
        CodeInfoAndInlined,
        MAIN,
        NOWHERE,
        "",
        NOWHERE,
    ),
];

/// What the file with an inlined call answers.
static CALLS: [Row; 17] = [
    (
        0,
        b"",
        0x1005,
        CodeInfoAndInlined,
        MAIN,
        LINE_9,
        "sub",
        LINE_5,
    ),
    (
        0,
        b"",
        0x1009,
        CodeInfoAndInlined,
        MAIN,
        LINE_7,
        "",
        NOWHERE,
    ),
    (0, b"", 0x1005, CodeInfo, MAIN, LINE_5, "", NOWHERE),
    (0, b"", 0x1005, Basic, MAIN, NOWHERE, "", NOWHERE),
    // Without a line there is neither a call nor another name.
    (
        123,
        b"\x27",
        0x1000,
        CodeInfoAndInlined,
        MAIN,
        NOWHERE,
        "",
        NOWHERE,
    ),
    (
        142,
        b"\x0a",
        0x1005,
        CodeInfoAndInlined,
        ("a.c", 0x1000, 0x20),
        LINE_9,
        "sub",
        LINE_5,
    ),
    // The first function's call site doesn't matter; without a name the next one is the first.
    (
        146,
        b"\x07",
        0x1005,
        CodeInfoAndInlined,
        MAIN,
        LINE_9,
        "sub",
        LINE_5,
    ),
    (
        142,
        b"\0",
        0x1005,
        CodeInfoAndInlined,
        ("sub", 0x1000, 0x20),
        LINE_5,
        "",
        NOWHERE,
    ),
    // A name that isn't ended, and a call file that there isn't, where they aren't asked for.
    (142, b"\x12", 0x1005, CodeInfo, MAIN, LINE_5, "", NOWHERE),
    (
        166,
        b"\x02",
        0x1009,
        CodeInfoAndInlined,
        MAIN,
        LINE_7,
        "",
        NOWHERE,
    ),
    // The head of the line table isn't whole; there is no file 2; a directory isn't ended.
    (
        116, b"\x02", 0x1000, CodeInfo, REFUSED, NOWHERE, "", NOWHERE,
    ),
    (
        123,
        b"\x01\x02\x08",
        0x1000,
        CodeInfo,
        REFUSED,
        NOWHERE,
        "",
        NOWHERE,
    ),
    (76, b"\x12", 0x1000, CodeInfo, REFUSED, NOWHERE, "", NOWHERE),
    // Names that aren't ended, and a call file that there isn't.
    (
        108,
        b"\x12",
        0x1005,
        CodeInfoAndInlined,
        REFUSED,
        NOWHERE,
        "",
        NOWHERE,
    ),
    (
        142,
        b"\x12",
        0x1005,
        CodeInfoAndInlined,
        REFUSED,
        NOWHERE,
        "",
        NOWHERE,
    ),
    (
        162,
        b"\x12",
        0x1005,
        CodeInfoAndInlined,
        REFUSED,
        NOWHERE,
        "",
        NOWHERE,
    ),
    (
        166,
        b"\x02",
        0x1005,
        CodeInfoAndInlined,
        REFUSED,
        NOWHERE,
        "",
        NOWHERE,
    ),
];

/// Whether this is the site.
fn is_site(found: &Option<bz_base::CodeInfo<'_>>, (dir, file, line): &Site) -> bool {
    match found {
        Some(found) => match &found.dir {
            Some(found_dir) => {
                found_dir.as_str() == *dir
                    && found.file.as_str() == *file
                    && found.line == Some(*line)
            }
            None => false,
        },
        None => *line == 0,
    }
}

/// Whether there is one call, of this name and site, or none where there is no name.
fn is_call(found: &[InlinedFn<'_>], name: &str, site: &Site) -> bool {
    match found {
        [call] => call.name.as_str() == name && is_site(&call.code_info, site),
        [] => name.is_empty(),
        _ => false,
    }
}

/// Whether the answer is the row's symbol, or the refusal.
fn is_answer(found: &Result<Result<ResolvedSym<'_>, Reason>, Error>, row: &Row) -> bool {
    let (name, start, size) = row.4;
    match found {
        Ok(Ok(symbol)) => {
            symbol.name == name
                && symbol.addr == start
                && symbol.size == Some(size)
                && is_site(&symbol.code_info, &row.5)
                && is_call(symbol.inlined.as_slice(), row.6, &row.7)
        }
        Ok(Err(reason)) => name.is_empty() && *reason == Reason::UnknownAddr,
        Err(error) => name == REFUSED.0 && *error == Error::InvalidData,
    }
}

/// Whether the table answers as the row says.
pub(crate) fn tells<T: Symbolize>(alloc: Global, table: &T, row: &Row) -> bool {
    is_answer(&table.find_sym(alloc, row.2, &row.3), row)
}

/// Whether the file, whose bytes are lent, answers so.
fn tells_lent(alloc: Global, context: &GsymContext<'_>, row: &Row) -> bool {
    is_answer(&context.find_sym(alloc, row.2, &row.3), row)
}

/// Whether the file, damaged as the row says, answers so, its table too, and a resolver that has it.
pub(crate) fn answers(alloc: Global, file: &[u8], row: &Row) -> bool {
    let Ok(bytes) = damaged(alloc, file, row.0, row.1) else {
        return false;
    };
    let Ok(resolver) = GsymResolver::with_data(alloc, bytes.as_slice()) else {
        return false;
    };
    match GsymTable::from_bytes(bytes) {
        Ok(table) => {
            tells(alloc, &resolver, row)
                && tells(alloc, &table, row)
                && tells_lent(alloc, &table.context(), row)
        }
        Err(_) => false,
    }
}

#[test]
fn files_answer_for_addresses_or_are_refused(rt: HostRuntime) {
    let rows = &LINES;
    for index in 0..rows.len() {
        assert!(rt;
            answers(rt.alloc(), &GSYM_LINES, &rows[index]),
            "row {index} of lines"
        );
    }
    let calls = &CALLS;
    for index in 0..calls.len() {
        assert!(rt;
            answers(rt.alloc(), &GSYM_CALLS, &calls[index]),
            "row {index} of calls"
        );
    }
}
