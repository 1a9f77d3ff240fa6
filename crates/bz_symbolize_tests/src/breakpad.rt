//! Breakpad files: single addresses, batches, counts and look-ups.

use crate::asking::Asked::{Batch, Counted, LookedUp, Single};
use crate::asking::Subject;
use crate::calling::answers_at;
use crate::lookups::Then;
use crate::steps::Step::{Ask, CallOfFile, Put};
use crate::steps::{ALL, CODE_INFO_OFF, Script, Start, hold};
use crate::told::Told::{Located, Named, Refused, Unknown};
use crate::told::{Code, Told, are_given};
use bz_base::{Error, Input, Reason};
use bz_files::MemFiles;
use std::alloc::Global;

/// A Breakpad file of one function, `one`.
pub(crate) const FIRST: &[u8] = b"FUNC 1000 20 0 one\n";

/// A Breakpad file with `two` in its place.
pub(crate) const SECOND: &[u8] = b"FUNC 1000 20 0 two\n";

/// An address before the function of either, and one in it.
pub(crate) const ADDRESSES: Input<&[u64]> = Input::FileOffset(&[0xfff, 0x1010]);

/// What the first file tells of these addresses.
pub(crate) const ONE: &[Told] = &[Unknown(Reason::UnknownAddr), Named("one")];

/// What the second file tells of them.
pub(crate) const TWO: &[Told] = &[Unknown(Reason::UnknownAddr), Named("two")];

/// The file that is asked.
pub(crate) const FILE: Subject = Subject::Breakpad("/s.sym");

/// A single address is answered as in a batch.
const ALONE: Script = &[
    Put("/s.sym", FIRST),
    Ask(FILE, Single(Input::FileOffset(0x1010), Named("one"))),
];

/// Another kind of address is refused before the file is looked at, which is absent.
const OTHER_KIND: Script = &[Ask(
    FILE,
    Single(Input::AbsAddr(0x1010), Refused(Error::Unsupported)),
)];

/// A batch is answered with a count of its steps.
const COUNTED: Script = &[Put("/s.sym", FIRST), Ask(FILE, Counted(ADDRESSES, ONE))];

/// A batch that was looked up answers by the version that it found, also after the file has changed.
const LOOKED_UP: Script = &[
    Put("/s.sym", FIRST),
    Ask(
        FILE,
        LookedUp(Input::FileOffset(&[0x1010]), ONE, Then::Changes),
    ),
];

/// Code without a module, in which nothing has a site.
const NO_CODE: &Code = &Code {
    module: "",
    dir: "",
    file: "",
    inlined: "",
    inlined_file: "",
};

/// PUBLIC records before a function and behind it, two of them at one address.
const AROUND: &[u8] = b"PUBLIC 10 0 p\nPUBLIC 10 0 q\nPUBLIC 40 0 r\nFUNC 20 8 0 f\n";

/// One at the start of a function.
const AT_START: &[u8] = b"PUBLIC 20 0 s\nFUNC 20 8 0 f\n";

/// One alone, at the first address.
const AT_ZERO: &[u8] = b"PUBLIC 0 0 z\n";

/// A PUBLIC record answers from its address on, up to the start of a function or to the last address.
const PUBLICS: Script = &[
    Put("/s.sym", AROUND),
    Ask(
        FILE,
        Batch(
            Input::FileOffset(&[0xf, 0x10, 0x1f, 0x20, 0x28, 0x3f, 0x40, 0x100]),
            &[
                Unknown(Reason::UnknownAddr),
                Located(NO_CODE, "p", 0, 0, 0),
                Located(NO_CODE, "p", 0xf, 0, 0),
                Located(NO_CODE, "f", 0, 0, 0),
                Unknown(Reason::UnknownAddr),
                Unknown(Reason::UnknownAddr),
                Located(NO_CODE, "r", 0, 0, 0),
                Located(NO_CODE, "r", 0xc0, 0, 0),
            ],
        ),
    ),
    Put("/s.sym", AT_START),
    Ask(
        FILE,
        Batch(
            Input::FileOffset(&[0x27, 0x28]),
            &[Located(NO_CODE, "f", 7, 0, 0), Unknown(Reason::UnknownAddr)],
        ),
    ),
    Put("/s.sym", AT_ZERO),
    Ask(
        FILE,
        Single(
            Input::FileOffset(18446744073709551615),
            Located(NO_CODE, "z", 18446744073709551615, 0, 0),
        ),
    ),
];

/// A function with a line record whose file has no FILE record.
const WITHOUT_ITS_FILE: &[u8] = b"FUNC 1000 10 0 f\n1000 10 5 9\n";

/// The address of that line.
const FILELESS: Input<u64> = Input::FileOffset(0x1000);

/// A batch of it.
const ONE_FILELESS: Input<&[u64]> = Input::FileOffset(&[0x1000]);

/// The same function, and one without line records.
const BESIDE_ANOTHER: &[u8] = b"FUNC 1000 10 0 f\n1000 10 5 9\nFUNC 2000 10 0 g\n";

/// The address of the line, and one in the other function.
const BOTH: Input<&[u64]> = Input::FileOffset(&[0x1000, 0x2000]);

/// An address whose line has an unknown file is refused alone, and is an ignored error in a batch.
const FOLDED: Script = &[
    Put("/s.sym", WITHOUT_ITS_FILE),
    Ask(FILE, Batch(ONE_FILELESS, &[Unknown(Reason::IgnoredError)])),
    Ask(FILE, Single(FILELESS, Refused(Error::InvalidInput))),
    Put("/s.sym", BESIDE_ANOTHER),
    Ask(
        FILE,
        Batch(BOTH, &[Unknown(Reason::IgnoredError), Named("g")]),
    ),
];

/// Without code info it is answered in a batch and alone.
const WITHOUT_CODE_INFO: Script = &[
    Put("/s.sym", WITHOUT_ITS_FILE),
    Ask(FILE, Batch(ONE_FILELESS, &[Named("f")])),
    Ask(FILE, Single(FILELESS, Named("f"))),
];

/// A file of a function with an inlined call.
const APP: &[u8] =
    b"MODULE Linux x86_64 0 app\nFILE 0 /src/app/main.c\nFILE 1 /src/app/util.h\nINLINE_ORIGIN 0 clamp\nFUNC 1160 2a 0 main\nINLINE 0 12 0 0 1170 8\n1160 10 10 0\n1170 8 4 1\n1178 12 13 0\n";

/// Its source code.
const CODE: &Code = &Code {
    module: "app",
    dir: "/src/app",
    file: "main.c",
    inlined: "clamp",
    inlined_file: "util.h",
};

/// What is told of an address in the function and in the inlined call.
static MAIN: [Told; 1] = [Located(CODE, "main", 0x14, 12, 4)];

/// A caller gets function, line and inlined call.
const CALLED: Script = &[Put("/app.sym", APP), CallOfFile];

/// Whether a caller gets them of a new symbolizer.
pub(crate) fn asks_of_file(alloc: Global, files: &mut MemFiles) -> bool {
    are_given(answers_at(alloc, files, "/app.sym", &[0x1174]), &MAIN)
}

/// What is started with, and what is done.
static SCRIPTS: [(Start<'static>, Script); 8] = [
    (ALL, ALONE),
    (ALL, OTHER_KIND),
    (ALL, COUNTED),
    (ALL, LOOKED_UP),
    (ALL, PUBLICS),
    (ALL, FOLDED),
    (CODE_INFO_OFF, WITHOUT_CODE_INFO),
    (ALL, CALLED),
];

#[test]
fn calls_on_breakpad_files_answer_or_are_refused(rt: HostRuntime) {
    let scripts = &SCRIPTS;
    for index in 0..scripts.len() {
        let row = &scripts[index];
        assert!(rt; hold(rt.alloc(), &row.0, &[row.1]), "script {index}");
    }
}
