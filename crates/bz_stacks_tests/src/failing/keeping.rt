//! Requests to keep a file, or to register one, that are refused.

use crate::failing::asking::Call;
use crate::failing::sources::ELF;
use crate::failing::steps::{Cause, Step, There, hold};
use bz_base::Error;
use bz_base::Input::VirtOffset;
use bz_samples::ELF_FUNCTION;

/// A look that no case comes to.
const NEVER: u64 = 99;

/// The number of the look at the file that fails, and why keeping it is refused.
const REFUSALS: &[(u64, Cause)] = &[
    (
        NEVER,
        (VirtOffset(()), There::Nothing, b"", Error::NotFound),
    ),
    (
        NEVER,
        (VirtOffset(()), There::Denied, b"", Error::PermissionDenied),
    ),
    (
        NEVER,
        (VirtOffset(()), There::Bytes, b"\x7fELF", Error::InvalidData),
    ),
    (
        NEVER,
        (
            VirtOffset(()),
            There::Bytes,
            b"\x7fELF\x01\x01",
            Error::Unsupported,
        ),
    ),
    (
        1,
        (
            VirtOffset(()),
            There::Bytes,
            &ELF_FUNCTION,
            Error::ReadFault,
        ),
    ),
    (
        2,
        (
            VirtOffset(()),
            There::Bytes,
            &ELF_FUNCTION,
            Error::ReadFault,
        ),
    ),
];

/// The same of registering a file where this one is.
const REGISTRATIONS: &[(u64, Cause)] = &[
    (
        NEVER,
        (VirtOffset(()), There::Nothing, b"", Error::NotFound),
    ),
    (
        NEVER,
        (VirtOffset(()), There::Denied, b"", Error::PermissionDenied),
    ),
    (
        1,
        (
            VirtOffset(()),
            There::Bytes,
            &ELF_FUNCTION,
            Error::ReadFault,
        ),
    ),
];

/// What is refused, and what holds of it.
static ROWS: [(&[(u64, Cause)], &[Step]); 3] = [
    // A refused request leaves a path unpinned that wasn't asked before: once the file is asked and
    // gone it is absent.
    (
        REFUSALS,
        &[
            Step::PutCause,
            Step::Fail(0),
            Step::RefuseToKeep,
            Step::PutGood,
            Step::Answer(Ok(true)),
            Step::Remove,
            Step::Answer(Err(Error::NotFound)),
        ],
    ),
    // It leaves a pinned path pinned: the file that was kept by two looks answers on.
    (
        REFUSALS,
        &[
            Step::PutGood,
            Step::Keep,
            Step::Remove,
            Step::PutCause,
            Step::Fail(2),
            Step::RefuseToKeep,
            Step::Answer(Ok(true)),
        ],
    ),
    // A refused registration takes nothing in: the file that is there is read. After that the path has
    // a version, and another registration is refused.
    (
        REGISTRATIONS,
        &[
            Step::PutCause,
            Step::Fail(0),
            Step::RefuseToRegister,
            Step::PutGood,
            Step::Answer(Ok(true)),
            Step::Read(1),
            Step::RefuseAnother,
        ],
    ),
];

#[test]
fn a_refused_request_changes_nothing(rt: HostRuntime) {
    let rows = &ROWS;
    for row in 0..rows.len() {
        let (refusals, steps) = rows[row];
        for index in 0..refusals.len() {
            let refused = &refusals[index];
            assert!(rt;
                hold(
                    rt.alloc(),
                    (ELF, &Call::Single, refused.0, &refused.1),
                    steps
                ),
                "row {row}, refusal {index}"
            );
        }
    }
}
