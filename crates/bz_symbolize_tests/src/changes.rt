//! Files that change, go and come back, and files that keep their stamp.

use crate::asking::Asked;
use crate::asking::Asked::{Batch, Single};
use crate::breakpad::{ADDRESSES, FILE, FIRST, ONE, SECOND, TWO};
use crate::steps::Step::{Ask, AskStill, Fail, Faults, Link, Opens, Put, PutUnderItsStamp, Remove};
use crate::steps::{ALL, Script, hold};
use crate::told::Told::{Named, Refused};
use bz_base::{Error, Input};

/// A file that has changed answers by its present version, or by its first one where files aren't
/// looked at anew. After a look that fails the next call answers.
const CHANGES: Script = &[
    Put("/s.sym", FIRST),
    Ask(FILE, Batch(ADDRESSES, ONE)),
    AskStill(FILE, Batch(ADDRESSES, ONE)),
    Put("/s.sym", SECOND),
    Fail(5),
    Ask(FILE, Batch(ADDRESSES, &[Refused(Error::ReadFault)])),
    Faults(1),
    Ask(FILE, Batch(ADDRESSES, TWO)),
    AskStill(FILE, Batch(ADDRESSES, ONE)),
    Opens(3),
];

/// An address in the function of either file.
const ADDRESS: Input<u64> = Input::FileOffset(0x1010);

/// The file is asked for it, and answers by the first text.
const FROM_FIRST: Asked = Single(ADDRESS, Named("one"));

/// The file answers by the second text.
const FROM_SECOND: Asked = Single(ADDRESS, Named("two"));

/// The file is absent.
const ABSENT: Asked = Single(ADDRESS, Refused(Error::NotFound));

/// A file that is removed is absent, and one that comes back by a link is known by its stamp. Where
/// files aren't looked at anew the first version answers throughout.
const COMES_BACK: Script = &[
    Put("/s.sym", FIRST),
    Ask(FILE, FROM_FIRST),
    AskStill(FILE, FROM_FIRST),
    Put("/s.sym", SECOND),
    Link("/t.sym", "/s.sym"),
    Ask(FILE, FROM_SECOND),
    AskStill(FILE, FROM_FIRST),
    Remove("/s.sym"),
    Ask(FILE, ABSENT),
    AskStill(FILE, FROM_FIRST),
    Link("/s.sym", "/t.sym"),
    Ask(FILE, FROM_SECOND),
    AskStill(FILE, FROM_FIRST),
    Opens(3),
    Ask(FILE, FROM_SECOND),
    Opens(3),
];

/// A first read that fails leaves nothing behind: the next call reads the file and answers.
const FAILS_AT_FIRST: Script = &[
    Put("/s.sym", FIRST),
    Fail(2),
    Ask(FILE, Single(ADDRESS, Refused(Error::ReadFault))),
    Faults(1),
    Opens(0),
    Ask(FILE, FROM_FIRST),
    Opens(1),
];

/// Other bytes under a kept stamp aren't seen.
const KEEPS_ITS_STAMP: Script = &[
    Put("/s.sym", FIRST),
    Ask(FILE, FROM_FIRST),
    AskStill(FILE, FROM_FIRST),
    PutUnderItsStamp("/s.sym", SECOND),
    Ask(FILE, FROM_FIRST),
    AskStill(FILE, FROM_FIRST),
    Opens(2),
];

/// Each over new files.
static SCRIPTS: [Script; 4] = [CHANGES, COMES_BACK, FAILS_AT_FIRST, KEEPS_ITS_STAMP];

#[test]
fn files_answer_by_their_stamps_or_as_first_read(rt: HostRuntime) {
    let scripts = &SCRIPTS;
    for index in 0..scripts.len() {
        assert!(rt; hold(rt.alloc(), &ALL, &[scripts[index]]), "script {index}");
    }
}
