//! Calls in which a look at a file fails, and files that change or are gone.

use crate::failing::asking::{CALLS, Call};
use crate::failing::sources::{Asked, BREAKPAD, ELF, GSYM, MAPPED, Question};
use crate::failing::steps::{NO_CAUSE, Step, hold};
use bz_base::Error;
use bz_base::Input::FileOffset;

/// The sources that name one file.
static FILES: [&Asked; 3] = [BREAKPAD, GSYM, ELF];

/// Looks, and how a call fails by each of them, as the only one, and the next one answers. A file
/// is looked at for its stamp and for its bytes.
static FAULTS: [(&[u64], &[Step]); 3] = [
    // The first call on a file, by either look.
    (
        &[1, 2],
        &[
            Step::PutGood,
            Step::Fail(0),
            Step::Answer(Err(Error::ReadFault)),
            Step::Failed(1),
            Step::Read(0),
            Step::Answer(Ok(true)),
            Step::Read(1),
        ],
    ),
    // A call on a file that is kept, by its only look.
    (
        &[3],
        &[
            Step::PutGood,
            Step::Fail(0),
            Step::Answer(Ok(true)),
            Step::Read(1),
            Step::Answer(Err(Error::ReadFault)),
            Step::Failed(1),
            Step::Read(1),
            Step::Answer(Ok(true)),
            Step::Read(1),
        ],
    ),
    // A call on a file that has changed, by either look.
    (
        &[3, 4],
        &[
            Step::PutGood,
            Step::Fail(0),
            Step::Answer(Ok(true)),
            Step::Read(1),
            Step::PutGood,
            Step::Answer(Err(Error::ReadFault)),
            Step::Failed(1),
            Step::Read(1),
            Step::Answer(Ok(true)),
            Step::Read(2),
        ],
    ),
];

#[test]
fn a_call_on_a_file_fails_by_each_look(rt: HostRuntime) {
    let files = &FILES;
    let calls = &CALLS;
    let faults = &FAULTS;
    for file in 0..files.len() {
        for call in 0..calls.len() {
            for row in 0..faults.len() {
                let (looks, steps) = faults[row];
                for look in looks {
                    assert!(rt;
                        hold(
                            rt.alloc(),
                            (files[file], &calls[call], *look, NO_CAUSE),
                            steps
                        ),
                        "file {file}, call {call}, row {row}, look {look}"
                    );
                }
            }
        }
    }
}

/// The look of the case's number fails in the first batch or the second. In which order the files are
/// looked at isn't said.
static PROCESS_FAILS: [Step; 6] = [
    Step::PutGood,
    Step::Fail(0),
    Step::AnswerOrFail,
    Step::AnswerOrFail,
    Step::Failed(1),
    Step::Answer(Ok(true)),
];

#[test]
fn a_batch_of_a_process_fails_by_any_look(rt: HostRuntime) {
    for look in 1..11 {
        assert!(rt;
            hold(
                rt.alloc(),
                (MAPPED, &Call::Batch, look, NO_CAUSE),
                &PROCESS_FAILS
            ),
            "look {look}"
        );
    }
}

/// What the changed file is asked.
const TWO: &Question = &(FileOffset(()), &[0x1010], &[("two", None, false)]);

/// A source, and what becomes of it.
static ROWS: [(&Asked, &[Step]); 2] = [
    // Each of two versions is read once, whatever becomes of the path.
    (
        BREAKPAD,
        &[
            Step::PutGood,
            Step::Answer(Ok(true)),
            Step::Read(1),
            Step::Put(&[("/s.sym", b"FUNC 1000 20 0 two\n")]),
            Step::Link("/t.sym", "/s.sym"),
            Step::AnswerTo(TWO, Ok(true)),
            Step::Read(2),
            Step::Remove,
            Step::AnswerTo(TWO, Err(Error::NotFound)),
            Step::Read(2),
            Step::Link("/s.sym", "/t.sym"),
            Step::AnswerTo(TWO, Ok(true)),
            Step::Read(2),
            Step::AnswerTo(TWO, Ok(true)),
            Step::Read(2),
        ],
    ),
    // A batch is refused where there are no mappings, and answered once there are some.
    (
        MAPPED,
        &[
            Step::PutGood,
            Step::Put(&[("/proc/7/maps", b"")]),
            Step::Answer(Err(Error::UnexpectedEof)),
            Step::PutGood,
            Step::Answer(Ok(true)),
        ],
    ),
];

#[test]
fn files_answer_or_are_refused_by_what_they_are_then(rt: HostRuntime) {
    let rows = &ROWS;
    for index in 0..rows.len() {
        let (asked, steps) = rows[index];
        assert!(rt;
            hold(rt.alloc(), (asked, &Call::Batch, 0, NO_CAUSE), steps),
            "row {index}"
        );
    }
}
