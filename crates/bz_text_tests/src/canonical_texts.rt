//! Texts of files, and their canonical texts.

use bz_base::Error;
use bz_breakpad::SymbolFile;
use bz_canon::canonical;
use bz_samples::{BREAKPAD_CALLS, BREAKPAD_KINDS, BREAKPAD_PROGRAM};
use std::alloc::Global;

/// A file's text, and its canonical text.
type Row = (&'static [u8], &'static [u8]);

/// Texts of inlined calls inside one another, and of a record that isn't kept. Then of a module
/// without name and a function that is marked, and of records of every kind.
const KINDS: &[Row] = &[
    (
        BREAKPAD_CALLS,
        b"FILE 4 m.c\nFILE 8 i2.c\nFILE 15 o.c\nINLINE_ORIGIN 1 inner_func_2()\nINLINE_ORIGIN 2 mid_func()\nINLINE_ORIGIN 3 inner_func_1()\nFUNC 1000 30 10 outer_func()\nINLINE 0 60 15 2 1000 20\nINLINE 1 12 4 3 1000 10\nINLINE 1 17 4 1 1010 10\n1000 10 42 7\n1010 10 52 8\n1020 10 62 15\n",
    ),
    (b"INFO x\n", b"INFO -\n"),
    (
        b"MODULE a b c \nFUNC m 0001 3 3 y\nFUNC 1 2 3 x\n",
        b"MODULE - - - \nFUNC 1 2 3 x\nFUNC 1 3 3 y\n",
    ),
    (
        BREAKPAD_KINDS,
        b"MODULE - - - bar\nFILE 53 bar.c\nPUBLIC 1234 10 some public\nFUNC 1000 30 10 another func\n1000 30 7 53\n",
    ),
    (
        BREAKPAD_PROGRAM,
        b"MODULE - - - app\nFILE 0 /src/app/main.c\nFILE 1 /src/app/util.h\nINLINE_ORIGIN 0 clamp\nPUBLIC 1020 0 _start\nFUNC 1160 2a 0 main\nINLINE 0 12 0 0 1170 8\n1160 10 10 0\n1170 8 4 1\n1178 12 13 0\n",
    ),
];

/// The same of records in several orders. Those that are alike stand as in the file.
const ORDERS: &[Row] = &[
    (
        b"PUBLIC 20 0 r\nPUBLIC 10 0 p\nPUBLIC 10 4 q\n",
        b"PUBLIC 10 0 p\nPUBLIC 10 4 q\nPUBLIC 20 0 r\n",
    ),
    (
        b"PUBLIC 10 4 q\nPUBLIC 20 0 r\nPUBLIC 10 0 p\n",
        b"PUBLIC 10 4 q\nPUBLIC 10 0 p\nPUBLIC 20 0 r\n",
    ),
    (
        b"FUNC 10 8 0 b\nFUNC 10 8 4 a\nFUNC 10 4 0 c\nPUBLIC 18 0 p\nFUNC 8 20 0 d\n",
        b"PUBLIC 18 0 p\nFUNC 8 20 0 d\nFUNC 10 4 0 c\nFUNC 10 8 0 b\nFUNC 10 8 4 a\n",
    ),
    (
        b"FUNC 10 8 4 a\nFUNC 8 20 0 d\nFUNC 10 4 0 c\nPUBLIC 18 0 p\nFUNC 10 8 0 b\n",
        b"PUBLIC 18 0 p\nFUNC 8 20 0 d\nFUNC 10 4 0 c\nFUNC 10 8 4 a\nFUNC 10 8 0 b\n",
    ),
    (
        b"FUNC 1000 60 0 f\n1010 8 3 2\n1000 10 1 1\n1010 8 2 1\n1010 4 9 1\n",
        b"FUNC 1000 60 0 f\n1000 10 1 1\n1010 4 9 1\n1010 8 3 2\n1010 8 2 1\n",
    ),
    (
        b"FUNC 1000 60 0 f\n1010 4 9 1\n1010 8 2 1\n1010 8 3 2\n1000 10 1 1\n",
        b"FUNC 1000 60 0 f\n1000 10 1 1\n1010 4 9 1\n1010 8 2 1\n1010 8 3 2\n",
    ),
    (
        b"FUNC 1000 60 0 f\n1000 60 1 1\nINLINE 1 12 4 3 1000 10\nINLINE 0 60 15 2 1010 10 1000 8\nINLINE 0 61 15 2 1000 20\n",
        b"FUNC 1000 60 0 f\nINLINE 0 60 15 2 1000 8\nINLINE 0 61 15 2 1000 20\nINLINE 0 60 15 2 1010 10\nINLINE 1 12 4 3 1000 10\n1000 60 1 1\n",
    ),
    (
        b"FUNC 1000 60 0 f\nINLINE 0 61 15 2 1000 20\nINLINE 0 60 15 2 1000 8 1010 10\nINLINE 1 12 4 3 1000 10\n1000 60 1 1\n",
        b"FUNC 1000 60 0 f\nINLINE 0 61 15 2 1000 20\nINLINE 0 60 15 2 1000 8\nINLINE 0 60 15 2 1010 10\nINLINE 1 12 4 3 1000 10\n1000 60 1 1\n",
    ),
];

/// The same of texts and numbers that may be written in several ways. There are blank lines and white
/// space, zeros in front, upper case and marks. Ids come in any order, and the last name of each
/// counts. Numbers are the greatest ones, and the greatest and least of so many digits.
const SPELLINGS: &[Row] = &[
    (
        b"PUBLIC m 00AB 0F x y\n\n \tPUBLIC\t0  0 \r\n",
        b"PUBLIC 0 0 \nPUBLIC ab f x y\n",
    ),
    (
        b"FUNC 0Ab0 0c 000 f\n0ab0 0C 007 01\nINLINE  00 1 02 3 AB0 c\n",
        b"FUNC ab0 c 0 f\nINLINE 0 1 2 3 ab0 c\nab0 c 7 1\n",
    ),
    (
        b"FILE 20 c\nFILE 3 a\nINLINE_ORIGIN 7 o\nFILE 20 b\nINLINE_ORIGIN 1 i\n",
        b"FILE 3 a\nFILE 20 b\nINLINE_ORIGIN 1 i\nINLINE_ORIGIN 7 o\n",
    ),
    (
        b"FUNC FFFFFFFFFFFFFFFF FFFFFFFF FFFFFFFF z\nFFFFFFFFFFFFFFFF FFFFFFFF 4294967295 4294967295\n",
        b"FUNC ffffffffffffffff ffffffff ffffffff z\nffffffffffffffff ffffffff 4294967295 4294967295\n",
    ),
    (
        b"FUNC 0FFFF 10000 FFFFF z\nFFFF 1 9 10\n10000 F 99 100\nFFFFFFFF 10 999 1000\n100000000 FF 9999 10000\nFFFFFFFFFFFFFFF 100 99999 100000\n",
        b"FUNC ffff 10000 fffff z\nffff 1 9 10\n10000 f 99 100\nffffffff 10 999 1000\n100000000 ff 9999 10000\nfffffffffffffff 100 99999 100000\n",
    ),
    (b"INFO a\n\n \nINFO b\nSTACK WIN 4 x\n", b"INFO -\n"),
    (
        b"FUNC 2 1 0 \nFUNC 1 1 0 \xc3\xa4\n",
        b"FUNC 1 1 0 \xc3\xa4\nFUNC 2 1 0 \n",
    ),
];

/// The lines of a function as the canonical text has them.
const LINES: &[u8] =
    b"FUNC 1000 100 0 f\n1000 10 42 0\n1010 8 7 10\n1018 a8 100 1\n10c0 40 4294967295 20\n";

/// The lines as they may be written: the same, in upper case, with zeros in front, and with tabs or
/// more blanks. Then with carriage returns, and in another order.
static LINES_WRITTEN: [&[u8]; 14] = [
    LINES,
    b"FUNC 1000 100 0 f\n1000 10 42 0\n1010 8 7 10\n1018 a8 100 1\n10C0 40 4294967295 20\n",
    b"FUNC 1000 100 0 f\n1000 10 42 0\n1010 8 7 10\n1018 A8 100 1\n10c0 40 4294967295 20\n",
    b"FUNC 1000 100 0 f\n01000 10 42 0\n1010 8 7 10\n1018 a8 100 1\n10c0 40 4294967295 20\n",
    b"FUNC 1000 100 0 f\n1000 10 42 0\n1010 08 7 10\n1018 a8 100 1\n10c0 40 4294967295 20\n",
    b"FUNC 1000 100 0 f\n1000 10 42 0\n1010 8 007 10\n1018 a8 100 1\n10c0 40 4294967295 20\n",
    b"FUNC 1000 100 0 f\n1000 10 42 0\n1010 8 7 10\n1018 a8 100 1\n10c0 40 4294967295 020\n",
    b"FUNC 1000 100 0 f\n1000 10 42 00\n1010 8 7 10\n1018 a8 100 1\n10c0 40 4294967295 20\n",
    b"FUNC 1000 100 0 f\n1000 10 42 0\n1010\t8 7 10\n1018 a8 100 1\n10c0 40 4294967295 20\n",
    b"FUNC 1000 100 0 f\n1000 10 42 0\n1010 8 7 10\n1018 a8  100 1\n10c0 40 4294967295 20\n",
    b"FUNC 1000 100 0 f\n1000 10 42 0\n1010 8 7 10\n1018 a8 100 1\n10c0 40 4294967295 \t20\n",
    b"FUNC 1000 100 0 f\n1000 10 42 0\r\n1010 8 7 10\n1018 a8 100 1\n10c0 40 4294967295 20\n",
    b"FUNC 1000 100 0 f\n1000 10 42 0\n1010 8 7 10\n1018 a8 100 1\n10c0 40 4294967295 20\r\r\n",
    b"FUNC 1000 100 0 f\n1010 8 7 10\n1000 10 42 0\n10c0 40 4294967295 20\n1018 a8 100 1\n",
];

/// The canonical text of a text.
fn canonical_of(alloc: Global, text: &[u8]) -> Result<Vec<u8>, Error> {
    let file = SymbolFile::from_bytes(alloc, Vec::from_slice(alloc, text)?)?;
    canonical(alloc, &file)
}

/// Whether a text has this canonical text.
fn has_canonical(alloc: Global, text: &[u8], expected: &[u8]) -> bool {
    match canonical_of(alloc, text) {
        Ok(written) => written.as_slice() == expected,
        Err(_) => false,
    }
}

/// Whether a text has this canonical text, which is its own.
fn holds(alloc: Global, text: &[u8], expected: &[u8]) -> bool {
    has_canonical(alloc, text, expected) && has_canonical(alloc, expected, expected)
}

/// The texts, by what they show.
static TABLES: [(&str, &[Row]); 3] = [
    ("records of every kind", KINDS),
    ("orders", ORDERS),
    ("spellings", SPELLINGS),
];

#[test]
fn texts_have_their_canonical_texts(rt: HostRuntime) {
    for (told, rows) in &TABLES {
        for index in 0..rows.len() {
            let (text, expected) = rows[index];
            assert!(rt; holds(rt.alloc(), text, expected), "{told}: row {index}");
        }
    }
    let lines_written = &LINES_WRITTEN;
    for index in 0..lines_written.len() {
        let text = lines_written[index];
        assert!(rt;
            has_canonical(rt.alloc(), text, LINES),
            "lines: row {index}"
        );
    }
}
