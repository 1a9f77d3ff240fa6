//! GSYM, handed in and in a file.

use crate::asking::Asked::{Batch, LookedUp, Single};
use crate::asking::Subject::{Bytes, Gsym};
use crate::lookups::Then;
use crate::steps::Step::{Ask, Opens, Put};
use crate::steps::{ALL, Script, Start, hold};
use crate::told::Told::{Located, Named, Refused, Unknown};
use crate::told::{Code, Told};
use bz_base::{Error, Input, Reason};
use bz_samples::{GSYM_CALLS, GSYM_CONVERTED, GSYM_LINES, damaged};
use std::alloc::Global;

/// An address past the end of `main`, and one in it: not in the order in which they are found.
const ADDRESSES: Input<&[u64]> = Input::VirtOffset(&[0x1020, 0x1004]);

/// What is told of them.
const MAIN: &[Told] = &[Unknown(Reason::UnknownAddr), Named("main")];

/// Bytes that are handed in answer the addresses, at once and looked up.
const HANDED_IN: Script = &[
    Ask(Bytes, Batch(ADDRESSES, MAIN)),
    Ask(Bytes, LookedUp(ADDRESSES, MAIN, Then::Answers)),
];

/// A file answers a batch and a single address, is read once, and refuses another kind of address.
const IN_FILE: Script = &[
    Put("/m.gsym", &GSYM_CALLS),
    Ask(Gsym("/m.gsym"), Batch(ADDRESSES, MAIN)),
    Ask(
        Gsym("/m.gsym"),
        Single(Input::VirtOffset(0x1004), Named("main")),
    ),
    Opens(1),
    Ask(
        Gsym("/m.gsym"),
        Single(Input::FileOffset(4), Refused(Error::Unsupported)),
    ),
];

/// The source code of either function.
const CODE: &Code = &Code {
    module: "",
    dir: "src",
    file: "a.c",
    inlined: "sub",
    inlined_file: "a.c",
};

/// Sites are told by lines. The function of size 0 has none, and answers far behind its start too.
const SITES: Script = &[
    Ask(
        Bytes,
        Single(Input::VirtOffset(0xfff), Unknown(Reason::UnknownAddr)),
    ),
    Ask(
        Bytes,
        Single(Input::VirtOffset(0x1000), Located(CODE, "main", 0, 5, 0)),
    ),
    Ask(
        Bytes,
        Single(Input::VirtOffset(0x100c), Located(CODE, "main", 12, 7, 0)),
    ),
    Ask(
        Bytes,
        Single(Input::VirtOffset(0x101f), Located(CODE, "main", 31, 10, 0)),
    ),
    Ask(
        Bytes,
        Single(Input::VirtOffset(0x1020), Unknown(Reason::UnknownAddr)),
    ),
    Ask(
        Bytes,
        Single(Input::VirtOffset(0x1040), Located(CODE, "sub", 0, 0, 0)),
    ),
    Ask(
        Bytes,
        Single(Input::VirtOffset(0x9999), Located(CODE, "sub", 35161, 0, 0)),
    ),
];

/// Inlined calls are told, and an address behind them has none.
const INLINED: Script = &[
    Ask(
        Bytes,
        Single(Input::VirtOffset(0x1005), Located(CODE, "main", 5, 9, 5)),
    ),
    Ask(
        Bytes,
        Single(Input::VirtOffset(0x1009), Located(CODE, "main", 9, 7, 0)),
    ),
];

/// The site is that of the address itself.
const WITHOUT_CALLS: Script = &[Ask(
    Bytes,
    Single(Input::VirtOffset(0x1005), Located(CODE, "main", 5, 5, 0)),
)];

/// Neither function has a site or inlined calls.
const WITHOUT_CODE_INFO: Script = &[
    Ask(
        Bytes,
        Single(Input::VirtOffset(0x1005), Located(CODE, "main", 5, 0, 0)),
    ),
    Ask(
        Bytes,
        Single(Input::VirtOffset(0x1040), Located(CODE, "sub", 0, 0, 0)),
    ),
];

/// What isn't GSYM is refused: bytes short of a head, and starts that descend.
const REFUSED: Script = &[Ask(Bytes, Batch(ADDRESSES, &[Refused(Error::InvalidData)]))];

/// The source code of a converted Breakpad file of one function with one line.
const CONVERTED_CODE: &Code = &Code {
    module: "",
    dir: "",
    file: "bar.c",
    inlined: "",
    inlined_file: "",
};

/// An address in the function has its line, and no module; one past its end is unknown.
const CONVERTED: Script = &[Ask(
    Bytes,
    Batch(
        Input::VirtOffset(&[0x1010, 0x1030]),
        &[
            Located(CONVERTED_CODE, "another func", 16, 7, 0),
            Unknown(Reason::UnknownAddr),
        ],
    ),
)];

/// Addresses of three bytes are none that a head tells, so that no address is known.
const NO_ADDRESSES: Script = &[Ask(
    Bytes,
    Batch(
        Input::VirtOffset(&[0, 0xfff, 0x1000, 0x1040, 18446744073709551615]),
        &[
            Unknown(Reason::UnknownAddr),
            Unknown(Reason::UnknownAddr),
            Unknown(Reason::UnknownAddr),
            Unknown(Reason::UnknownAddr),
            Unknown(Reason::UnknownAddr),
        ],
    ),
)];

/// A function whose first line comes behind its start has no site there.
const NO_SITE: Script = &[Ask(
    Bytes,
    Single(Input::VirtOffset(0x1000), Located(CODE, "main", 0, 0, 0)),
)];

/// An address is asked for in an inlined call whose file isn't there. It is an ignored error in a
/// batch, in which the one behind the call answers, and is refused alone.
const FOLDED: Script = &[
    Ask(
        Bytes,
        Batch(
            Input::VirtOffset(&[0x1005, 0x1009]),
            &[
                Unknown(Reason::IgnoredError),
                Located(CODE, "main", 9, 7, 0),
            ],
        ),
    ),
    Ask(
        Bytes,
        Single(Input::VirtOffset(0x1005), Refused(Error::InvalidData)),
    ),
];

/// A file, a place in it, other bytes from there on, and what is done then.
pub(crate) type Damage = (&'static [u8], usize, &'static [u8], Script);

/// Each is damaged in one place.
static DAMAGED: [Damage; 4] = [
    // Addresses of three bytes, and such as descend.
    (&GSYM_LINES, 6, b"\x03", NO_ADDRESSES),
    (&GSYM_LINES, 48, b"\x50\0\0\0", REFUSED),
    // The first line begins a byte later, and an inlined call is in another file.
    (&GSYM_LINES, 123, b"\x17", NO_SITE),
    (&GSYM_CALLS, 166, b"\x02", FOLDED),
];

/// Whether all is as told over the damaged file.
pub(crate) fn damage_holds(alloc: Global, damage: &Damage) -> bool {
    match damaged(alloc, damage.0, damage.1, damage.2) {
        Ok(bytes) => {
            let start = Start {
                bytes: bytes.as_slice(),
                ..ALL
            };
            hold(alloc, &start, &[damage.3])
        }
        Err(_) => false,
    }
}

/// All features are on, and the file without inlined calls is handed in.
const OVER_LINES: Start<'static> = Start {
    bytes: &GSYM_LINES,
    ..ALL
};

/// The file with inlined calls is.
const OVER_CALLS: Start<'static> = Start {
    bytes: &GSYM_CALLS,
    ..ALL
};

/// No inlined calls are told of it.
const CALLS_OFF: Start<'static> = Start {
    calls: false,
    ..OVER_CALLS
};

/// No code info is.
const CODE_INFO_OFF: Start<'static> = Start {
    code_info: false,
    ..OVER_CALLS
};

/// Neither is.
const BOTH_OFF: Start<'static> = Start {
    code_info: false,
    ..CALLS_OFF
};

/// The converted file is handed in.
const OVER_CONVERTED: Start<'static> = Start {
    bytes: GSYM_CONVERTED,
    ..ALL
};

/// What is started with, and what is done.
static SCRIPTS: [(Start<'static>, Script); 9] = [
    (OVER_CALLS, HANDED_IN),
    (OVER_CALLS, IN_FILE),
    (OVER_LINES, SITES),
    (OVER_CALLS, SITES),
    (OVER_CALLS, INLINED),
    (CALLS_OFF, WITHOUT_CALLS),
    (CODE_INFO_OFF, WITHOUT_CODE_INFO),
    (BOTH_OFF, WITHOUT_CODE_INFO),
    (OVER_CONVERTED, CONVERTED),
];

#[test]
fn calls_on_gsym_answer_or_are_refused(rt: HostRuntime) {
    let scripts = &SCRIPTS;
    for index in 0..scripts.len() {
        let row = &scripts[index];
        assert!(rt; hold(rt.alloc(), &row.0, &[row.1]), "script {index}");
    }
    let damaged = &DAMAGED;
    for index in 0..damaged.len() {
        assert!(rt; damage_holds(rt.alloc(), &damaged[index]), "damage {index}");
    }
    let cut = Start {
        bytes: &GSYM_LINES[..47],
        ..ALL
    };
    assert!(rt; hold(rt.alloc(), &cut, &[REFUSED]), "a cut head");
}
