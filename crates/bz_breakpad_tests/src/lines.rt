//! Which line record answers: of runs, which are found by their text, and of lines out of order.

use crate::fact::Fact::Function;
use crate::fact::Row;
use crate::fact::Told::Line;

/// 20 lines one after another, each with a gap after it.
const RUN: &[u8] = b"\
FUNC ff0 200 0 f\n\
00001000 8 1001 1\n\
00001010 8 1002 1\n\
00001020 8 1003 1\n\
00001030 8 1004 1\n\
00001040 8 1005 1\n\
00001050 8 1006 1\n\
00001060 8 1007 1\n\
00001070 8 1008 1\n\
00001080 8 1009 1\n\
00001090 8 1010 1\n\
000010a0 8 1011 1\n\
000010b0 8 1012 1\n\
000010c0 8 1013 1\n\
000010d0 8 1014 1\n\
000010e0 8 1015 1\n\
000010f0 8 1016 1\n\
00001100 8 1017 1\n\
00001110 8 1018 1\n\
00001120 8 1019 1\n\
00001130 8 1020 1\n\
INFO a record of more bytes than a load\n";

const DIGITS_GROW: &[u8] =
    b"FUNC fe0 40 0 f\nfe0 10 1 1\nff0 10 2 1\n1000 10 3 1\n1010 10 4 1\nINFO a record of more bytes than a load\n";

const DISORDERED: &[u8] =
    b"FUNC 1000 40 0 f\n1010 8 2 1\n1020 8 3 1\n1000 8 1 1\nINFO a record of more bytes than a load\n";

const EQUAL: &[u8] =
    b"FUNC 1000 40 0 f\n1000 4 1 1\n1010 8 2 1\n1010 4 3 1\n1020 8 4 1\nINFO a record of more bytes than a load\n";

const INTERRUPTED: &[u8] =
    b"FUNC 1000 40 0 f\n1000 10 1 1\nINLINE 0 5 1 1 1000 8\n1010 10 2 1\n1020 8 3 1\nINFO a record of more bytes than a load\n";

const CARRIAGE_RETURNS: &[u8] =
    b"FUNC 1000 40 0 f\r\n1000 10 1 1\r\n1010 8 2 1\r\n1020 8 3 1\nINFO a record of more bytes than a load\n";

/// The lines at addresses: in runs, and among lines that are out of order, start alike, or are
/// interrupted.
pub(crate) const LINES: &[Row] = &[
    (
        RUN,
        &[
            Function(0xff8, Line(0xff8, None)),
            Function(0x1000, Line(0x1000, Some(1001))),
            Function(0x1007, Line(0x1007, Some(1001))),
            Function(0x1008, Line(0x1008, None)),
            Function(0x1010, Line(0x1010, Some(1002))),
            Function(0x10a0, Line(0x10a0, Some(1011))),
            Function(0x10a7, Line(0x10a7, Some(1011))),
            Function(0x10af, Line(0x10af, None)),
            Function(0x10b3, Line(0x10b3, Some(1012))),
            Function(0x1130, Line(0x1130, Some(1020))),
            Function(0x1137, Line(0x1137, Some(1020))),
            Function(0x1138, Line(0x1138, None)),
        ],
    ),
    (
        DIGITS_GROW,
        &[
            Function(0xfef, Line(0xfef, Some(1))),
            Function(0xff0, Line(0xff0, Some(2))),
            Function(0x1000, Line(0x1000, Some(3))),
            Function(0x101f, Line(0x101f, Some(4))),
        ],
    ),
    (
        DISORDERED,
        &[
            Function(0x1000, Line(0x1000, Some(1))),
            Function(0x1014, Line(0x1014, Some(2))),
            Function(0x1018, Line(0x1018, None)),
            Function(0x1020, Line(0x1020, Some(3))),
        ],
    ),
    (
        EQUAL,
        &[
            Function(0x1003, Line(0x1003, Some(1))),
            Function(0x1010, Line(0x1010, Some(3))),
            Function(0x1011, Line(0x1011, Some(2))),
            Function(0x1020, Line(0x1020, Some(4))),
        ],
    ),
    (
        INTERRUPTED,
        &[
            Function(0x1008, Line(0x1008, Some(1))),
            Function(0x1010, Line(0x1010, Some(2))),
            Function(0x1027, Line(0x1027, Some(3))),
        ],
    ),
    (
        CARRIAGE_RETURNS,
        &[
            Function(0x100f, Line(0x100f, Some(1))),
            Function(0x1010, Line(0x1010, Some(2))),
            Function(0x1020, Line(0x1020, Some(3))),
        ],
    ),
];
