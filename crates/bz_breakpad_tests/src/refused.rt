//! Texts that are no Breakpad files.

use crate::read::records_of;
use bz_base::Error;
use std::alloc::Global;

/// Whether the text is refused.
fn is_refused(alloc: Global, text: &[u8]) -> bool {
    records_of(alloc, text) == Err(Error::InvalidInput)
}

const NO_LINES: &[&[u8]] = &[
    b"",
    b"FUNC 1 2 3 x",
    b"FUNC 1 2 3 x\nFILE 1 a",
    b"FILE 1 a\n ",
    b"\n",
    b" \n",
    b"\r\n",
    b"\nFILE 1 a\n",
    b" FILE 1 a\n",
    b"\rFILE 1 a\n",
    b"\tFILE 1 a\n",
];

const NO_NUMBERS: &[&[u8]] = &[
    b"FUNC 00000000000000001 2 3 x\n",
    b"FUNC 1 000000002 3 x\n",
    b"FUNC 1 2 000000003 x\n",
    b"FUNC g 2 3 x\n",
    b"FUNC 0x1 2 3 x\n",
    b"FUNC  2 3 x\n",
    b"FUNC 1 2 3x\n",
    b"PUBLIC 10000000000000000 2 x\n",
    b"PUBLIC 1 100000000 x\n",
    b"FILE 4294967296 a\n",
    b"FILE 00000000001 a\n",
    b"FILE a b\n",
    b"FILE -1 a\n",
    b"FILE  a\n",
    b"INLINE_ORIGIN 4294967296 a\n",
    b"INLINE_ORIGIN 00000000001 a\n",
    b"FUNC 1 2 3 x\nINLINE_ORIGIN 4294967296 a\n",
    b"FUNC 1 2 3 x\n10000000000000000 1 1 1\n",
    b"FUNC 1 2 3 x\n1 100000000 1 1\n",
    b"FUNC 1 2 3 x\n1 1 4294967296 1\n",
    b"FUNC 1 2 3 x\n1 1 1 4294967296\n",
    b"FUNC 1 2 3 x\n1 1 00000000001 1\n",
    b"FUNC 1 2 3 x\n1 1 1 00000000001\n",
    b"FUNC 1 2 3 x\n1 1 a 1\n",
    b"FUNC 1 2 3 x\n1 1 1 a\n",
    b"FUNC 1 2 3 x\nINLINE 4294967296 1 0 5 1 1\n",
    b"FUNC 1 2 3 x\nINLINE 0 4294967296 0 5 1 1\n",
    b"FUNC 1 2 3 x\nINLINE 0 1 4294967296 0 1 1\n",
    b"FUNC 1 2 3 x\nINLINE 0 1 0 4294967296 1 1\n",
    b"FUNC 1 2 3 x\nINLINE 00000000001 1 0 5 1 1\n",
    b"FUNC 1 2 3 x\nINLINE 0 1 0 5 10000000000000000 1\n",
    b"FUNC 1 2 3 x\nINLINE 0 1 0 5 1 100000000\n",
    b"FUNC 1 2 3 x\nINLINE a 1 0 5 1 1\n",
];

const NO_FIELDS: &[&[u8]] = &[
    b"FUNC 1000\n1000 10 42 7\n",
    b"MODULE Linux x86 xxxxxx\nFILE 0 foo.c\n",
    b"MODULE a b c\n",
    b"MODULE a\tb c d\n",
    b"MODULE a b c\td\n",
    b"MODULE \n",
    b"MODULE\n",
    b"INFO\n",
    b"INFO\r\n",
    b"FILE 1\n",
    b"FILE 1\r\n",
    b"INLINE_ORIGIN 1\n",
    b"PUBLIC 1 2\n",
    b"PUBLIC 1 x\n",
    b"FUNC 1 2 3\n",
    b"FUNC 1 2 x\n",
    b"FUNC 1 2 m\n",
    b"PUBLIC m m 1 2 x\n",
    b"PUBLIC m1 2 x\n",
    b"PUBLIC M 1 2 x\n",
    b"FUNC m m 1 2 3 x\n",
    b"FUNC m1 2 3 x\n",
    b"FUNC n 1 2 3 x\n",
    b"STACK WIN\n",
    b"STACK CFI INIT\n",
    b"STACK  WIN a\n",
    b"STACK\tWIN a\n",
    b"STACK CFI  INIT a\n",
    b"FUNC 1 2 3 x\n1 1 1\n",
    b"FUNC 1 2 3 x\n1 1 1 1 1\n",
    b"FUNC 1 2 3 x\n1 1 1 1 \n",
    b"FUNC 1 2 3 x\n1 1 1 \n",
    b"FUNC 1 2 3 x\nINLINE 0 1 0 5\n",
    b"FUNC 1 2 3 x\nINLINE 0 1 0 5 \n",
    b"FUNC 1 2 3 x\nINLINE 0 1 0 5 1\n",
    b"FUNC 1 2 3 x\nINLINE 0 1 0 5 1 1 2\n",
    b"FUNC 1 2 3 x\nINLINE 0 1 0 5 1 1 \n",
    b"FUNC 1 2 3 x\nINLINE_ORIGIN 1\n",
    b"STACK CFI INIT a\nSTACK CFI\n",
];

const NO_TAGS: &[&[u8]] = &[
    b"MODUL a b c d\n",
    b"MODULEa b c d\n",
    b"INF a\n",
    b"INFOa\n",
    b"FIL 1 a\n",
    b"FILE1 a\n",
    b"INLINE_ORIGI 1 a\n",
    b"INLINE_ORIGIN1 a\n",
    b"PUBLI 1 2 x\n",
    b"PUBLIC1 2 x\n",
    b"FUN 1 2 3 x\n",
    b"FUNC1 2 3 x\n",
    b"func 1 2 3 x\n",
    b"STACK\n",
    b"STACK WI a\n",
    b"STACK WINa\n",
    b"STACK CFI INI a\n",
    b"STACK CFI INITa\n",
    b"FUNC 1 2 3 x\nINLIN 0 1 0 5 1 1\n",
    b"FUNC 1 2 3 x\nINLINE0 1 0 5 1 1\n",
    b"FUNC 1 2 3 x\nINLINE_ORIGIN1 a\n",
    b"FUNC 1 2 3 x\nINLINE_ 1 a\n",
    b"STACK CFI INIT a\nSTACK CF b\n",
    b"STACK CFI INIT a\nSTACK CFIb\n",
];

const NO_UTF_8: &[&[u8]] = &[
    b"MODULE a b c \xff\n",
    b"FILE 1 \xff\n",
    b"INLINE_ORIGIN 1 a\xc3\n",
    b"PUBLIC 1 2 \xed\xa0\x80\n",
    b"FUNC 1 2 3 \xc0\x80\n",
    b"FUNC 1 2 3 x\nINLINE_ORIGIN 1 \x80\n",
];

const NO_OWNERS: &[&[u8]] = &[
    b"1 1 1 1\n",
    b"FILE 1 a\n1 1 1 1\n",
    b"INLINE 0 1 0 5 1 1\n",
    b"STACK CFI a\n",
    b"FUNC 1 2 3 x\nFILE 1 a\n1 1 1 1\n",
    b"FUNC 1 2 3 x\nPUBLIC 1 2 y\n1 1 1 1\n",
    b"FUNC 1 2 3 x\nSTACK WIN a\n1 1 1 1\n",
    b"FUNC 1 2 3 x\nINFO a\n1 1 1 1\n",
    b"FUNC 1 2 3 x\nFILE 1 a\nINLINE 0 1 0 5 1 1\n",
    b"FUNC 1 2 3 x\nINLINE_ORIGIN\t5 g\n1 2 3 4\n",
    b"FUNC 1 2 3 x\nINLINE\t0 1 0 5 1 1\n",
    b"FUNC 1 2 3 x\nSTACK CFI a\n",
    b"STACK CFI INIT a\n1 1 1 1\n",
    b"STACK CFI INIT a\nINLINE 0 1 0 5 1 1\n",
    b"STACK CFI INIT a\nINLINE_ORIGIN 1 a\nSTACK CFI b\n",
    b"STACK CFI INIT a\nSTACK WIN a\nSTACK CFI b\n",
    b"FILE 1 a\nMODULE a b c d\n",
    b"MODULE a b c d\nMODULE a b c d\n",
    b"FUNC 1 2 3 x\n1 1 1 1\nMODULE a b c d\n",
    b"STACK CFI INIT a\nSTACK CFI b\nMODULE a b c d\n",
    b"INFO a\n\nMODULE a b c d\n",
];

const NO_LINE_ENDS: &[&[u8]] = &[
    b"FUNC 1 2 3 x\ry\n",
    b"FUNC 1\r2 3 x\n",
    b"FUNC 1 2 3\r\n",
    b"FUNC 1 2 3 x\r \n",
    b"FILE 1 a\rb\n",
    b"MODULE a b c d\re\n",
    b"MODULE a\rb b c d\n",
    b"MODULE a b\r c d\n",
    b"INFO a\rb\n",
    b"STACK WIN a\rb\n",
    b"STACK CFI INIT a\rb\n",
    b"STACK CFI INIT a\nSTACK CFI b\rc\n",
    b"FUNC 1 2 3 x\n1 1\r1 1\n",
    b"FUNC 1 2 3 x\n1 1 1 1\r1\n",
    b"FUNC 1 2 3 x\nINLINE 0 1 0 5 1\r1\n",
    b"FUNC 1000 10 0 f\n1000 10 5 1\n\nFILE 1 a.c\n",
    b"FUNC 1 2 3 x\n1 1 1 1\n\r\n",
    b"FUNC 1 2 3 x\n1 1 1 1\n 1 1 1 1\n",
    b"FUNC 1 2 3 x\n1 1 1 1\n FILE 1 a\n",
    b"FUNC 1 2 3 x\n1 1 1 1\n\rFILE 1 a\n",
    b"FUNC 1 2 3 x\nINLINE 0 1 0 5 1 1\n\n",
    b"FUNC 1 2 3 x\nINLINE_ORIGIN 1 a\n\n",
    b"FUNC 1 2 3 x\nINLINE_ORIGIN 1 a\n FILE 1 a\n",
    b"STACK CFI INIT a b\nSTACK CFI INIT c d\n\n",
    b"STACK CFI INIT a\nSTACK CFI b\n\n",
    b"STACK CFI INIT a\nSTACK CFI b\n STACK CFI c\n",
    b"FILE 1 a\n\x0b\n",
    b"FILE 1 a\n\x0cFILE 2 b\n",
];

/// Texts with the same thing wrong, and what that is.
type Wrong = (&'static str, &'static [&'static [u8]]);

static REFUSED: [Wrong; 7] = [
    ("lines", NO_LINES),
    ("numbers", NO_NUMBERS),
    ("fields", NO_FIELDS),
    ("tags", NO_TAGS),
    ("bytes that are no text", NO_UTF_8),
    ("records without owners", NO_OWNERS),
    ("line ends and white space", NO_LINE_ENDS),
];

/// What is wrong with the first text that isn't refused, and its row; nothing where all are refused.
fn first_to_pass(alloc: Global, tables: &[Wrong]) -> (&'static str, usize) {
    for (wrong, texts) in tables {
        for index in 0..texts.len() {
            if !is_refused(alloc, texts[index]) {
                return (wrong, index);
            }
        }
    }
    ("", 0)
}

#[test]
fn refuses_texts_that_are_no_files(rt: HostRuntime) {
    let (wrong, row) = first_to_pass(rt.alloc(), &REFUSED);
    assert!(rt; wrong.is_empty(), "{wrong}: row {row}");
}
