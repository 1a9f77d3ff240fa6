//! Which texts are Breakpad files, and how many records they have.

use crate::fact::Fact::{Counts, Records};
use crate::fact::Row;
use bz_samples::{BREAKPAD_CALLS, BREAKPAD_KINDS, BREAKPAD_PROGRAM};

/// Files of every kind of record but STACK WIN, with other line ends, with blank lines, and with equal
/// records.
pub(crate) const COUNTED: &[Row] = &[
    (BREAKPAD_KINDS, &[Records(5), Counts(1, 1, 1)]),
    (
        b"MODULE Linux x86 ffff0000 bar\r\nFILE 53 bar.c\r\nPUBLIC 1234 10 some public\r\nFUNC 1000 30 10 another func\r\n1000 30 7 53\r\n",
        &[Records(5), Counts(1, 1, 1)],
    ),
    (
        b"MODULE Linux x86 ffff0000 bar\r\r\nFILE 53 bar.c\r\r\nPUBLIC 1234 10 some public\r\r\nFUNC 1000 30 10 another func\r\r\n1000 30 7 53\r\r\n",
        &[Records(5), Counts(1, 1, 1)],
    ),
    (BREAKPAD_CALLS, &[Records(13), Counts(1, 3, 0)]),
    (
        b"FUNC 1000 10 0 f\n\n1000 10 5 1\nFILE 1 a.c\n\n",
        &[Records(3), Counts(1, 1, 0)],
    ),
    (b"MODULE a b c \n", &[Records(1), Counts(0, 0, 0)]),
    (
        b"FILE 1 a\n \t\n  FILE 1 b\r\n",
        &[Records(2), Counts(0, 1, 0)],
    ),
    (BREAKPAD_PROGRAM, &[Records(13), Counts(1, 2, 1)]),
    (
        b"FUNC 1 2 3 x\nFUNC 1 2 3 x\nPUBLIC 1 2 x\nPUBLIC 1 2 x\nFILE 1 a\nFILE 0000000001 a\nFILE 2 a\n",
        &[Records(7), Counts(2, 2, 2)],
    ),
    (b"PUBLIC 10 0 p\n", &[Records(1), Counts(0, 0, 1)]),
];

/// Numbers of the most digits, of the greatest values and in either case.
pub(crate) const NUMBERS: &[Row] = &[
    (
        b"FUNC 0000000000000001 00000002 00000003 x\n",
        &[Records(1)],
    ),
    (
        b"FUNC ffffffffffffffff ffffffff ffffffff x\n",
        &[Records(1)],
    ),
    (b"FUNC FfFfFFFFFFFFFFFF AbCdEf09 0 x\n", &[Records(1)]),
    (b"PUBLIC ffffffffffffffff ffffffff x\n", &[Records(1)]),
    (b"PUBLIC 0000000000000000 00000000 x\n", &[Records(1)]),
    (b"FILE 4294967295 a\n", &[Records(1)]),
    (b"FILE 0000000001 a\n", &[Records(1)]),
    (b"INLINE_ORIGIN 4294967295 a\n", &[Records(1)]),
    (b"FUNC 1 2 3 x\nINLINE_ORIGIN 4294967295 a\n", &[Records(2)]),
    (
        b"FUNC 1 2 3 x\nffffffffffffffff ffffffff 4294967295 4294967295\n",
        &[Records(2)],
    ),
    (
        b"FUNC 1 2 3 x\n0000000000000000 00000000 0000000000 0000000000\n",
        &[Records(2)],
    ),
    (
        b"FUNC 1 2 3 x\nINLINE 4294967295 4294967295 4294967295 4294967295 ffffffffffffffff ffffffff\n",
        &[Records(2)],
    ),
    (b"FUNC 1 2 3 x\nFACE 1 2 3\n", &[Records(2)]),
];

/// Tabs and spaces between fields.
pub(crate) const SEPARATORS: &[Row] = &[
    (b"MODULE  a  b  c  d\n", &[Records(1)]),
    (b"MODULE\ta \tb \tc \td\n", &[Records(1)]),
    (b"MODULE a\tb c\t d \t \n", &[Records(1)]),
    (b"MODULE a b c d e\n", &[Records(1)]),
    (b"INFO\tx\n", &[Records(1)]),
    (b"INFO \n", &[Records(1)]),
    (b"INFO URL x\n", &[Records(1)]),
    (b"FILE\t 1 \ta\n", &[Records(1)]),
    (b"INLINE_ORIGIN\t1\ta\n", &[Records(1)]),
    (b"PUBLIC\tm\t1\t2\tx\n", &[Records(1)]),
    (b"PUBLIC  m  1  2  x\n", &[Records(1)]),
    (b"FUNC\tm\t1\t2\t3\tx\n", &[Records(1)]),
    (b"FUNC  m  1  2  3  x\n", &[Records(1)]),
    (b"STACK WIN\tx\n", &[Records(1)]),
    (b"STACK WIN \n", &[Records(1)]),
    (b"STACK CFI INIT\t\n", &[Records(1)]),
    (
        b"FUNC 1 2 3 x\nINLINE \t0\t 1\t0  5\t1\t1  1  1\n",
        &[Records(2)],
    ),
    (b"FUNC 1 2 3 x\nINLINE_ORIGIN\t1 a\n\n", &[Records(2)]),
    (b"FUNC 1 2 3 x\n1\t1\t1\t1\n1  1  1  1\n", &[Records(3)]),
    (
        b"FUNC 1 2 3 x\nINLINE_ORIGIN \t1\ta\n1 1 1 1\n",
        &[Records(3)],
    ),
    (
        b"STACK CFI INIT a\nSTACK CFI\tb\nSTACK CFI \n",
        &[Records(3)],
    ),
];

/// Names that are empty, `m` or beyond ASCII, and fields of any bytes.
pub(crate) const NAMES: &[Row] = &[
    (b"PUBLIC m 1 2 m\n", &[Records(1)]),
    (b"PUBLIC 1 2 m\n", &[Records(1)]),
    (b"PUBLIC 1 2 \n", &[Records(1)]),
    (b"FUNC m 1 2 3 m\n", &[Records(1)]),
    (b"FUNC 1 2 3 m\n", &[Records(1)]),
    (b"FUNC 1 2 3 \n", &[Records(1)]),
    (b"FUNC 1 2 3 \xc3\xa9\xf0\x9f\x98\x80\x00\n", &[Records(1)]),
    (b"FILE 1 \n", &[Records(1)]),
    (b"INLINE_ORIGIN 1 \n", &[Records(1)]),
    (b"MODULE \xff \xfe \xfd d\n", &[Records(1)]),
    (b"INFO \xff\n", &[Records(1)]),
    (b"STACK WIN \xff\x00\n", &[Records(1)]),
    (b"FUNC 1 2 3 x\nINLINE_ORIGIN 1 \n", &[Records(2)]),
    (b"STACK CFI INIT \xff\nSTACK CFI \xff\n", &[Records(2)]),
];

/// Records under their owners, also behind others, and records that look like others.
pub(crate) const ROLES: &[Row] = &[
    (b"FUNC 1 2 3 x\nINLINE 0 1 0 5 1 1 2 2 3 3\n", &[Records(2)]),
    (b"STACK CFI INIT a\nSTACK WIN a\n\n", &[Records(2)]),
    (b"FUNC 1 2 3 x\nFUNC 1 2 3 y\n1 1 1 1\n", &[Records(3)]),
    (b"STACK CFI INIT a\nFUNC 1 2 3 x\n1 1 1 1\n", &[Records(3)]),
    (
        b"FUNC 1 2 3 x\nSTACK CFI INIT a\nSTACK CFI b\n",
        &[Records(3)],
    ),
    (
        b"STACK CFI INIT a\nSTACK CFI INIT b\nSTACK CFI c\n",
        &[Records(3)],
    ),
    (
        b"FUNC 1 2 3 x\nINLINE_ORIGIN 1 a\nINLINE 0 1 0 5 1 1\n1 1 1 1\n",
        &[Records(4)],
    ),
    (
        b"STACK CFI INIT a\nSTACK CFI INIT\nSTACK CFI INITb\nSTACK CFI  INIT b\n",
        &[Records(4)],
    ),
];

/// Carriage returns at line ends, blank lines and white space in front of records.
pub(crate) const LINE_ENDS: &[Row] = &[
    (b"FILE 1 a\n\r\n\n \t\r \n", &[Records(1)]),
    (b"FUNC 1 2 3 x\r\r\r\n1 1 1 1\r\n", &[Records(2)]),
    (b"FUNC 1 2 3 x\n\n \n\r1 1 1 1\n", &[Records(2)]),
    (b"FUNC 1 2 3 x\n INLINE 0 1 0 5 1 1\n", &[Records(2)]),
    (b"FUNC 1 2 3 x\n\n FUNC 1 2 3 x\n", &[Records(2)]),
    (b"STACK CFI INIT a\n\n STACK CFI b\n", &[Records(2)]),
    (
        b"FUNC 1 2 3 \r\nINLINE 0 1 0 5 1 1\r\nINLINE_ORIGIN 1 \r\n",
        &[Records(3)],
    ),
    (b"FILE 1 a\n\r FILE 2 b\n\t\tFILE 3 c\n", &[Records(3)]),
    (b"FUNC 1 2 3 x\n1 1 1 1\nFILE 1 a\n\n", &[Records(3)]),
    (
        b"MODULE a b c d\r\nINFO \r\nSTACK CFI INIT \r\nSTACK CFI \r\n",
        &[Records(4)],
    ),
    (
        b"MODULE a b c d\n\nFILE 1 a\n\nINLINE_ORIGIN 1 a\n\nPUBLIC 1 2 x\n\nINFO a\n\nSTACK WIN a\n\n",
        &[Records(6)],
    ),
];
