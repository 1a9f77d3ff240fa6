//! Calls that are refused by their source's file, or by the kind of address.

use crate::failing::asking::Call;
use crate::failing::sources::{Asked, BREAKPAD, ELF, GSYM, PROCESS};
use crate::failing::steps::{Cause, Step, There, hold};
use bz_base::Error;
use bz_base::Input::{AbsAddr, FileOffset, VirtOffset};
use bz_samples::ELF_FUNCTION;

/// A source, and why calls on it are refused.
static CAUSES: [(&Asked, Cause); 30] = [
    // Another kind of address is refused before the file is looked at.
    (
        BREAKPAD,
        (VirtOffset(()), There::Nothing, b"", Error::Unsupported),
    ),
    (
        BREAKPAD,
        (AbsAddr(()), There::Denied, b"", Error::Unsupported),
    ),
    (
        BREAKPAD,
        (
            AbsAddr(()),
            There::Bytes,
            b"FUNC 1000 20 0 one\n",
            Error::Unsupported,
        ),
    ),
    (
        BREAKPAD,
        (FileOffset(()), There::Nothing, b"", Error::NotFound),
    ),
    (
        BREAKPAD,
        (FileOffset(()), There::Denied, b"", Error::PermissionDenied),
    ),
    (
        BREAKPAD,
        (FileOffset(()), There::Bytes, b"", Error::InvalidInput),
    ),
    (
        BREAKPAD,
        (
            FileOffset(()),
            There::Bytes,
            b"FUNC 1000 20 0 one",
            Error::InvalidInput,
        ),
    ),
    (
        GSYM,
        (FileOffset(()), There::Nothing, b"", Error::Unsupported),
    ),
    (GSYM, (AbsAddr(()), There::Denied, b"", Error::Unsupported)),
    (
        GSYM,
        (FileOffset(()), There::Bytes, b"", Error::Unsupported),
    ),
    (GSYM, (VirtOffset(()), There::Nothing, b"", Error::NotFound)),
    (
        GSYM,
        (VirtOffset(()), There::Denied, b"", Error::PermissionDenied),
    ),
    (
        GSYM,
        (VirtOffset(()), There::Bytes, b"", Error::InvalidData),
    ),
    // Of an ELF file it is refused after the look.
    (ELF, (AbsAddr(()), There::Nothing, b"", Error::NotFound)),
    (
        ELF,
        (AbsAddr(()), There::Denied, b"", Error::PermissionDenied),
    ),
    (
        ELF,
        (AbsAddr(()), There::Bytes, b"\x7fELF", Error::InvalidData),
    ),
    (
        ELF,
        (AbsAddr(()), There::Bytes, &ELF_FUNCTION, Error::Unsupported),
    ),
    (ELF, (VirtOffset(()), There::Nothing, b"", Error::NotFound)),
    (
        ELF,
        (FileOffset(()), There::Denied, b"", Error::PermissionDenied),
    ),
    (
        ELF,
        (VirtOffset(()), There::Bytes, b"\x7fELF", Error::InvalidData),
    ),
    (
        ELF,
        (
            VirtOffset(()),
            There::Bytes,
            b"\x7fELF\x01\x01",
            Error::Unsupported,
        ),
    ),
    (
        ELF,
        (
            FileOffset(()),
            There::Bytes,
            b"\x7fELF\x02\x02",
            Error::Unsupported,
        ),
    ),
    (
        PROCESS,
        (FileOffset(()), There::Nothing, b"", Error::Unsupported),
    ),
    (
        PROCESS,
        (VirtOffset(()), There::Denied, b"", Error::Unsupported),
    ),
    (PROCESS, (AbsAddr(()), There::Nothing, b"", Error::NotFound)),
    (
        PROCESS,
        (AbsAddr(()), There::Denied, b"", Error::PermissionDenied),
    ),
    (
        PROCESS,
        (AbsAddr(()), There::Bytes, b"x\n", Error::InvalidData),
    ),
    (
        PROCESS,
        (
            AbsAddr(()),
            There::Bytes,
            b"2000-1000 r-xp 0 0:0 1\n",
            Error::InvalidData,
        ),
    ),
    (
        PROCESS,
        (AbsAddr(()), There::Bytes, b"", Error::UnexpectedEof),
    ),
    (
        PROCESS,
        (AbsAddr(()), There::Bytes, b"\n\n", Error::UnexpectedEof),
    ),
];

/// Each call is refused by the row's cause, and nothing is left of it.
static STEPS: [Step; 4] = [
    Step::PutCause,
    Step::RefuseEach,
    Step::PutGood,
    Step::AnswerAnew,
];

#[test]
fn each_call_is_refused_by_its_cause(rt: HostRuntime) {
    let causes = &CAUSES;
    for index in 0..causes.len() {
        let row = &causes[index];
        assert!(rt;
            hold(rt.alloc(), (row.0, &Call::Batch, 0, &row.1), &STEPS),
            "row {index}"
        );
    }
}
