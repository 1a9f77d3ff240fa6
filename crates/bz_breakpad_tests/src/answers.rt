//! Which record answers at an address.

use crate::fact::Answer::{Symbol, Unknown};
use crate::fact::Fact::{Answer, Batch};
use crate::fact::Row;
use crate::files::OVERLAPPING;
use bz_base::{FindSymOpts, Reason};
use bz_breakpad::FoundRecord;
use bz_samples::BREAKPAD_KINDS;

const GAP: &[u8] = b"FUNC 1000 100 0 outer\nFUNC 1010 10 0 inner\n";

const EQUAL: &[u8] = b"FUNC 9 0 0 none\nFUNC 1 3 3 y\nFUNC 1 2 3 x\n";

const LAST: &[u8] = b"FUNC fffffffffffffff0 f 0 z\n";

const PAST: &[u8] = b"FUNC fffffffffffffff0 10 0 z\n";

const PUBLICS: &[u8] = b"PUBLIC 10 0 p\nPUBLIC 10 0 q\nPUBLIC 40 0 r\nFUNC 20 8 0 f\n";

const SAME: &[u8] = b"PUBLIC 20 0 s\nFUNC 20 8 0 f\n";

const ZERO: &[u8] = b"PUBLIC 0 0 z\n";

const ONE: &[u8] = b"PUBLIC 10 0 p\n";

const WITHIN: &[u8] = b"FUNC 10 20 0 f\nPUBLIC 18 0 p\n";

const BEHIND: &[u8] = b"FUNC 10 8 0 f\nPUBLIC 20 0 p\n";

const EMPTY: &[u8] = b"PUBLIC 10 0 p\nFUNC 20 0 0 f\n";

const BEYOND: &[u8] = b"PUBLIC 10 0 p\nFUNC ffffffffffffffff 10 0 f\n";

const TOP: u64 = 0xffffffffffffffff;

/// Answers by the nearest function, and nowhere else.
pub(crate) const BY_FUNCTIONS: &[Row] = &[
    (
        BREAKPAD_KINDS,
        &[
            Answer(
                0x1010,
                FindSymOpts::Basic,
                Symbol("another func", 0x1000, 0x10, Some(0x30), "bar", false),
            ),
            Answer(0xfff, FindSymOpts::Basic, Unknown(Reason::UnknownAddr)),
            Answer(0x1030, FindSymOpts::Basic, Unknown(Reason::UnknownAddr)),
            Answer(0x1233, FindSymOpts::Basic, Unknown(Reason::UnknownAddr)),
        ],
    ),
    (
        GAP,
        &[
            Answer(
                0x100f,
                FindSymOpts::Basic,
                Symbol("outer", 0x1000, 0xf, Some(0x100), "", false),
            ),
            Answer(0x1025, FindSymOpts::Basic, Unknown(Reason::UnknownAddr)),
        ],
    ),
    (
        OVERLAPPING,
        &[
            Answer(1, FindSymOpts::Basic, Symbol("x", 1, 0, Some(2), "", false)),
            Answer(2, FindSymOpts::Basic, Symbol("y", 1, 1, Some(3), "", false)),
            Answer(3, FindSymOpts::Basic, Symbol("y", 1, 2, Some(3), "", false)),
            Answer(4, FindSymOpts::Basic, Unknown(Reason::UnknownAddr)),
        ],
    ),
    (
        EQUAL,
        &[
            Answer(1, FindSymOpts::Basic, Symbol("x", 1, 0, Some(2), "", false)),
            Answer(2, FindSymOpts::Basic, Symbol("y", 1, 1, Some(3), "", false)),
            Answer(3, FindSymOpts::Basic, Symbol("y", 1, 2, Some(3), "", false)),
            Answer(
                9,
                FindSymOpts::Basic,
                Symbol("none", 9, 0, Some(0), "", false),
            ),
            Answer(4, FindSymOpts::Basic, Unknown(Reason::UnknownAddr)),
            Answer(10, FindSymOpts::Basic, Unknown(Reason::UnknownAddr)),
        ],
    ),
    (
        LAST,
        &[
            Answer(
                0xfffffffffffffff0,
                FindSymOpts::Basic,
                Symbol("z", 0xfffffffffffffff0, 0, Some(15), "", false),
            ),
            Answer(
                0xfffffffffffffffe,
                FindSymOpts::Basic,
                Symbol("z", 0xfffffffffffffff0, 14, Some(15), "", false),
            ),
            Answer(TOP, FindSymOpts::Basic, Unknown(Reason::UnknownAddr)),
        ],
    ),
    (
        PAST,
        &[Answer(
            0xfffffffffffffff0,
            FindSymOpts::Basic,
            Unknown(Reason::UnknownAddr),
        )],
    ),
    (
        b"INFO x\n",
        &[Answer(0x10, FindSymOpts::Basic, Unknown(Reason::MissingSyms))],
    ),
];

/// Answers by PUBLIC records, after which no function starts.
pub(crate) const BY_PUBLICS: &[Row] = &[
    (
        PUBLICS,
        &[
            Answer(
                0x20,
                FindSymOpts::Basic,
                Symbol("f", 0x20, 0, Some(8), "", false),
            ),
            Answer(
                0x10,
                FindSymOpts::Basic,
                Symbol("p", 0x10, 0, None, "", true),
            ),
            Answer(
                0x1f,
                FindSymOpts::Basic,
                Symbol("p", 0x10, 0xf, None, "", true),
            ),
            Answer(
                0x40,
                FindSymOpts::Basic,
                Symbol("r", 0x40, 0, None, "", true),
            ),
            Answer(
                0x100,
                FindSymOpts::Basic,
                Symbol("r", 0x40, 0xc0, None, "", true),
            ),
            Answer(0xf, FindSymOpts::Basic, Unknown(Reason::UnknownAddr)),
            Answer(0x28, FindSymOpts::Basic, Unknown(Reason::UnknownAddr)),
            Answer(0x3f, FindSymOpts::Basic, Unknown(Reason::UnknownAddr)),
        ],
    ),
    (
        ONE,
        &[
            Answer(
                0x10,
                FindSymOpts::Basic,
                Symbol("p", 0x10, 0, None, "", true),
            ),
            Answer(0xf, FindSymOpts::Basic, Unknown(Reason::UnknownAddr)),
        ],
    ),
    (
        ZERO,
        &[
            Answer(0, FindSymOpts::Basic, Symbol("z", 0, 0, None, "", true)),
            Answer(
                TOP,
                FindSymOpts::Basic,
                Symbol("z", 0, 0xffffffffffffffff, None, "", true),
            ),
        ],
    ),
];

/// Answers where a PUBLIC record is at a function's start, within it, behind it or before it.
pub(crate) const BY_BOTH: &[Row] = &[
    (
        SAME,
        &[
            Answer(
                0x20,
                FindSymOpts::Basic,
                Symbol("f", 0x20, 0, Some(8), "", false),
            ),
            Answer(
                0x27,
                FindSymOpts::Basic,
                Symbol("f", 0x20, 7, Some(8), "", false),
            ),
            Answer(0x28, FindSymOpts::Basic, Unknown(Reason::UnknownAddr)),
        ],
    ),
    (
        WITHIN,
        &[
            Answer(
                0x18,
                FindSymOpts::Basic,
                Symbol("f", 0x10, 8, Some(0x20), "", false),
            ),
            Answer(
                0x30,
                FindSymOpts::Basic,
                Symbol("p", 0x18, 0x18, None, "", true),
            ),
        ],
    ),
    (
        BEHIND,
        &[
            Answer(
                0x20,
                FindSymOpts::Basic,
                Symbol("p", 0x20, 0, None, "", true),
            ),
            Answer(0x18, FindSymOpts::Basic, Unknown(Reason::UnknownAddr)),
        ],
    ),
    (
        EMPTY,
        &[
            Answer(
                0x20,
                FindSymOpts::Basic,
                Symbol("f", 0x20, 0, Some(0), "", false),
            ),
            Answer(
                0x1f,
                FindSymOpts::Basic,
                Symbol("p", 0x10, 0xf, None, "", true),
            ),
            Answer(0x21, FindSymOpts::Basic, Unknown(Reason::UnknownAddr)),
        ],
    ),
    (
        BEYOND,
        &[
            Answer(
                0x20,
                FindSymOpts::Basic,
                Symbol("p", 0x10, 0x10, None, "", true),
            ),
            Answer(TOP, FindSymOpts::Basic, Unknown(Reason::UnknownAddr)),
        ],
    ),
];

/// Functions, PUBLIC records and addresses with neither, together.
pub(crate) const BATCHES: &[Row] = &[
    (
        BREAKPAD_KINDS,
        &[Batch(
            &[0x1010, 0x1234, 0xfff],
            FindSymOpts::CodeInfoAndInlined,
            &[
                FoundRecord::Function(0),
                FoundRecord::Public(0),
                FoundRecord::Absent,
            ],
            &[
                Symbol("another func", 0x1000, 0x10, Some(0x30), "bar", false),
                Symbol("some public", 0x1234, 0, None, "bar", true),
                Unknown(Reason::UnknownAddr),
            ],
        )],
    ),
    (
        PUBLICS,
        &[Batch(
            &[0x100, 0x20, 0xf, 0x1f],
            FindSymOpts::Basic,
            &[
                FoundRecord::Public(2),
                FoundRecord::Function(0),
                FoundRecord::Absent,
                FoundRecord::Public(0),
            ],
            &[
                Symbol("r", 0x40, 0xc0, None, "", true),
                Symbol("f", 0x20, 0, Some(8), "", false),
                Unknown(Reason::UnknownAddr),
                Symbol("p", 0x10, 0xf, None, "", true),
            ],
        )],
    ),
];
