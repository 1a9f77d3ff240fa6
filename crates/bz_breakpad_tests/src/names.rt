//! The names that a file holds.

use crate::fact::Fact::{Counts, Module, Name, Names, Public, Publics};
use crate::fact::{ABSENT, Row};
use bz_breakpad::PublicSymbol;

const NAMED: &[u8] =
    b"MODULE a b c d e\nFILE 1 a\n \t\n  FILE 1 b\r\nINLINE_ORIGIN 1 f\nFUNC m 1000 30 10 g h\nINLINE_ORIGIN 2 i\nINLINE_ORIGIN 3 k\nFILE 4 c \nFILE 4294967295 \nINLINE_ORIGIN\t1 j\nFILE 7 \xc3\xa9\r\nINLINE_ORIGIN 3 \nPUBLIC 1234 10 some public\nPUBLIC m ff ffffffff \n";

const IN_ORDER: &[u8] = b"FILE 0 a\nFILE 1 b\nFILE 2 c\n";

const OUT_OF_ORDER: &[u8] = b"FILE 0 a\nFILE 2 c\nFILE 1 b\n";

const WITH_GAP: &[u8] = b"FILE 2 c\nFILE 0 a\nFILE 3 d\n";

const REPEATED: &[u8] = b"FILE 0 a\nFILE 0 b\nFILE 2 c\nFILE 1 d\nFILE 1 e\nFILE 2 f\n";

const LAST: &[u8] = b"FILE 0 a\nFILE 4294967295 y\nFILE 4294967295 z\n";

/// Names by ids, of PUBLIC records and of a module.
pub(crate) const NAMES: &[Row] = &[(
    NAMED,
    &[
        Name(0, ABSENT, ABSENT),
        Name(1, "b", "j"),
        Name(2, ABSENT, "i"),
        Name(3, ABSENT, ""),
        Name(4, "c ", ABSENT),
        Name(7, "é", ABSENT),
        Name(8, ABSENT, ABSENT),
        Name(4294967295, "", ABSENT),
        Counts(1, 4, 2),
        Public(
            0,
            PublicSymbol {
                addr: 0x1234,
                parameter_size: 0x10,
                name: "some public",
            },
        ),
        Public(
            1,
            PublicSymbol {
                addr: 0xff,
                parameter_size: 0xffffffff,
                name: "",
            },
        ),
        Module("d e"),
    ],
)];

/// Names of modules.
pub(crate) const MODULES: &[Row] = &[
    (b"MODULE a b c \r\n", &[Module("")]),
    (b"MODULE  a \tb\t c \t d \r\r\n", &[Module("d ")]),
    (b"MODULE a\tb c d e\n", &[Module("e")]),
    (b"MODULE a b c \xc3\xa9\n\nFILE 1 a\n", &[Module("é")]),
    (b"FILE 1 a\n", &[Module(ABSENT)]),
    (b"INFO MODULE a b c d\n", &[Module(ABSENT)]),
];

/// Names by ids in order, out of order and with a gap.
pub(crate) const ONCE: &[Row] = &[
    (
        IN_ORDER,
        &[
            Counts(0, 3, 0),
            Name(0, "a", ABSENT),
            Name(1, "b", ABSENT),
            Name(2, "c", ABSENT),
            Name(3, ABSENT, ABSENT),
        ],
    ),
    (
        OUT_OF_ORDER,
        &[
            Counts(0, 3, 0),
            Name(0, "a", ABSENT),
            Name(1, "b", ABSENT),
            Name(2, "c", ABSENT),
            Name(3, ABSENT, ABSENT),
        ],
    ),
    (
        WITH_GAP,
        &[
            Counts(0, 3, 0),
            Name(0, "a", ABSENT),
            Name(1, ABSENT, ABSENT),
            Name(2, "c", ABSENT),
            Name(3, "d", ABSENT),
        ],
    ),
];

/// Names by ids of several records, and by the last id.
pub(crate) const AGAIN: &[Row] = &[
    (
        REPEATED,
        &[
            Counts(0, 3, 0),
            Name(0, "b", ABSENT),
            Name(1, "e", ABSENT),
            Name(2, "f", ABSENT),
            Name(3, ABSENT, ABSENT),
        ],
    ),
    (
        LAST,
        &[
            Counts(0, 2, 0),
            Name(0, "a", ABSENT),
            Name(1, ABSENT, ABSENT),
            Name(4294967294, ABSENT, ABSENT),
            Name(4294967295, "z", ABSENT),
        ],
    ),
];

/// Ids one after another, out of order, with gaps and repeated, and none.
pub(crate) const IDS: &[Row] = &[
    (
        b"FILE 0 a\nINLINE_ORIGIN 0 f\nFILE 1 b\nFILE 2 c\n",
        &[Names(&[(0, "a"), (1, "b"), (2, "c")], &[(0, "f")])],
    ),
    (
        b"INLINE_ORIGIN 3 h\nFILE 0 a\nFILE 4294967295 z\nFILE 1 b\nINLINE_ORIGIN 2 g\n",
        &[Names(
            &[(0, "a"), (1, "b"), (4294967295, "z")],
            &[(2, "g"), (3, "h")],
        )],
    ),
    (
        b"FILE 7 y\nFILE 5 x\nFILE 7 z\nINLINE_ORIGIN 0 f\nINLINE_ORIGIN 9 i\nINLINE_ORIGIN 0 e\nINLINE_ORIGIN 4 g\n",
        &[Names(&[(5, "x"), (7, "z")], &[(0, "e"), (4, "g"), (9, "i")])],
    ),
    (b"FUNC 10 8 0 a\n", &[Names(&[], &[])]),
];

/// PUBLIC records in order, out of order with some of one address, and none.
pub(crate) const PUBLICS: &[Row] = &[
    (
        b"PUBLIC 10 0 a\nPUBLIC 20 4 b\n",
        &[Publics(&[
            PublicSymbol {
                addr: 0x10,
                parameter_size: 0,
                name: "a",
            },
            PublicSymbol {
                addr: 0x20,
                parameter_size: 4,
                name: "b",
            },
        ])],
    ),
    (
        b"PUBLIC 20 0 b\nPUBLIC 10 4 a\nPUBLIC 20 8 c\nPUBLIC m 10 0 d\n",
        &[Publics(&[
            PublicSymbol {
                addr: 0x10,
                parameter_size: 4,
                name: "a",
            },
            PublicSymbol {
                addr: 0x10,
                parameter_size: 0,
                name: "d",
            },
            PublicSymbol {
                addr: 0x20,
                parameter_size: 0,
                name: "b",
            },
            PublicSymbol {
                addr: 0x20,
                parameter_size: 8,
                name: "c",
            },
        ])],
    ),
    (b"FILE 1 a\n", &[Publics(&[])]),
];
