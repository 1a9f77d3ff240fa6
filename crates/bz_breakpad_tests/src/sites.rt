//! Where addresses lie in the source code.

use crate::fact::Answer::{Located, Symbol, Unknown};
use crate::fact::Fact::Answer;
use crate::fact::Row;
use bz_base::FindSymOpts::{Basic, CodeInfo, CodeInfoAndInlined};
use bz_base::Reason;
use bz_samples::{BREAKPAD_CALLS, BREAKPAD_KINDS, BREAKPAD_PROGRAM};

const UNKNOWN_FILE: &[u8] = b"FUNC 1000 10 0 f\n1000 10 5 9\n";

const NO_COMPONENT: &[u8] = b"FILE 9 \nFUNC 1000 10 0 f\n1000 10 5 9\n";

const UNKNOWN_CALL: &[u8] = b"FILE 1 a.c\nFUNC 1000 10 0 f\nINLINE 0 3 1 7 1000 8\n1000 10 5 1\n";

const DISORDERED: &[u8] =
    b"FILE 1 a.c\nFUNC 1000 40 0 f\n1020 10 3 1\n1010 10 2 1\n1000 10 1 1\n1030 8 5 1\n1030 10 6 1\n1010 0 9 1\n";

const GAP_OF_DEPTH: &[u8] =
    b"FILE 1 a.c\nINLINE_ORIGIN 1 g\nINLINE_ORIGIN 2 h\nFUNC 1000 10 0 f\nINLINE 2 8 1 2 1000 10\nINLINE 0 7 1 1 1000 10\n1000 10 5 1\n";

const BEYOND: &[u8] = b"FUNC 1 2 3 x\nffffffffffffffff 2 0 0\n";

/// Sites by lines and inlined calls, as far as they are asked for.
pub(crate) const CALLS: &[Row] = &[
    (
        BREAKPAD_KINDS,
        &[
            Answer(
                0x1010,
                CodeInfoAndInlined,
                Located(("another func", "", "bar.c", 7), &[]),
            ),
            Answer(0x1010, Basic, Located(("another func", "", "", 0), &[])),
        ],
    ),
    (
        BREAKPAD_CALLS,
        &[
            Answer(
                0x1010,
                CodeInfoAndInlined,
                Located(
                    ("outer_func()", "", "o.c", 60),
                    &[
                        ("mid_func()", "", "m.c", 17),
                        ("inner_func_2()", "", "i2.c", 52),
                    ],
                ),
            ),
            Answer(
                0x1010,
                CodeInfo,
                Located(("outer_func()", "", "i2.c", 52), &[]),
            ),
            Answer(
                0x1020,
                CodeInfoAndInlined,
                Located(("outer_func()", "", "o.c", 62), &[]),
            ),
            Answer(0x1000, CodeInfoAndInlined, Unknown(Reason::IgnoredError)),
            Answer(0x1000, Basic, Located(("outer_func()", "", "", 0), &[])),
        ],
    ),
    (
        BREAKPAD_PROGRAM,
        &[
            Answer(
                0x1174,
                CodeInfoAndInlined,
                Located(
                    ("main", "/src/app", "main.c", 12),
                    &[("clamp", "/src/app", "util.h", 4)],
                ),
            ),
            Answer(
                0x1188,
                CodeInfoAndInlined,
                Located(("main", "/src/app", "main.c", 13), &[]),
            ),
            Answer(
                0x1020,
                CodeInfoAndInlined,
                Located(("_start", "", "", 0), &[]),
            ),
            Answer(
                0x1174,
                CodeInfoAndInlined,
                Symbol("main", 0x1160, 0x14, Some(0x2a), "app", false),
            ),
            Answer(
                0x1188,
                CodeInfoAndInlined,
                Symbol("main", 0x1160, 0x28, Some(0x2a), "app", false),
            ),
            Answer(
                0x1020,
                CodeInfoAndInlined,
                Symbol("_start", 0x1020, 0, None, "app", true),
            ),
        ],
    ),
];

/// Sites that are refused where they are asked for, and there alone.
pub(crate) const UNKNOWN: &[Row] = &[
    (
        UNKNOWN_FILE,
        &[
            Answer(0x1000, CodeInfoAndInlined, Unknown(Reason::IgnoredError)),
            Answer(0x1000, Basic, Located(("f", "", "", 0), &[])),
        ],
    ),
    (
        NO_COMPONENT,
        &[Answer(0x1000, CodeInfo, Unknown(Reason::IgnoredError))],
    ),
    (
        UNKNOWN_CALL,
        &[
            Answer(0x1000, CodeInfoAndInlined, Unknown(Reason::IgnoredError)),
            Answer(0x1000, CodeInfo, Located(("f", "", "a.c", 5), &[])),
            Answer(
                0x1008,
                CodeInfoAndInlined,
                Located(("f", "", "a.c", 5), &[]),
            ),
        ],
    ),
];

/// Lines out of order, a depth without a call, and a line that ends past 64 bits.
pub(crate) const FROM_LISTS: &[Row] = &[
    (
        DISORDERED,
        &[
            Answer(0x1005, CodeInfo, Located(("f", "", "a.c", 1), &[])),
            Answer(0x1010, CodeInfo, Located(("f", "", "a.c", 9), &[])),
            Answer(0x1011, CodeInfo, Located(("f", "", "a.c", 2), &[])),
            Answer(0x102f, CodeInfo, Located(("f", "", "a.c", 3), &[])),
            Answer(0x1030, CodeInfo, Located(("f", "", "a.c", 5), &[])),
            Answer(0x1031, CodeInfo, Located(("f", "", "a.c", 6), &[])),
        ],
    ),
    (
        GAP_OF_DEPTH,
        &[Answer(
            0x1000,
            CodeInfoAndInlined,
            Located(("f", "", "a.c", 7), &[("g", "", "a.c", 5)]),
        )],
    ),
    (
        BEYOND,
        &[
            Answer(1, CodeInfoAndInlined, Located(("x", "", "", 0), &[])),
            Answer(0xffffffffffffffff, Basic, Unknown(Reason::UnknownAddr)),
        ],
    ),
];
