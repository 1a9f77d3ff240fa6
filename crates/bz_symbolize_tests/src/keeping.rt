//! What a symbolizer keeps ahead of addresses, and what it forgets.

use crate::asking::Asked;
use crate::asking::Asked::Single;
use crate::asking::Subject::{Elf, Process};
use crate::steps::Step::{
    Ask, AskStill, Fail, Faults, Forget, Keep, KeepStill, NoFiles, Opens, Put, Remove,
};
use crate::steps::{ALL, Script, hold};
use crate::told::Told::{Named, Refused, Unknown};
use bz_base::{Error, Input, Reason, Result};
use bz_files::MemFiles;
use bz_samples::{ELF_FUNCTION, PERF_FUNCTION, THREE_MAPPINGS};
use bz_symbolize::cache::{Cache, Elf as ElfToKeep, Process as ProcessToKeep};
use bz_symbolize::evict::{Elf as ElfToForget, Evict, Process as ProcessToForget};
use bz_symbolize::{Pid, Symbolizer};
use std::alloc::Global;

/// What is kept or forgotten.
pub(crate) enum Kept {
    /// The ELF file at the path.
    File(&'static str),
    /// The process of this number, which is the own one for 0, by a new request.
    Process(u32),
    /// The same by a request for its mappings or not, and for its perf map or not.
    Parts(u32, bool, bool),
}

/// The request to keep it.
pub(crate) fn to_keep(alloc: Global, kept: &Kept) -> Result<Cache> {
    Ok(match kept {
        Kept::File(path) => Cache::from(ElfToKeep::new(String::from_str(alloc, path)?)),
        Kept::Process(number) => Cache::from(ProcessToKeep::new(Pid::from(*number))),
        Kept::Parts(number, vmas, perf_map) => {
            let mut process = ProcessToKeep::new(Pid::from(*number));
            process.cache_vmas = *vmas;
            process.cache_perf_map = *perf_map;
            Cache::from(process)
        }
    })
}

/// The request to forget it.
pub(crate) fn to_forget(alloc: Global, kept: &Kept) -> Result<Evict> {
    Ok(match kept {
        Kept::File(path) => Evict::from(ElfToForget::new(String::from_str(alloc, path)?)),
        Kept::Process(number) | Kept::Parts(number, _, _) => {
            Evict::from(ProcessToForget::new(Pid::from(*number)))
        }
    })
}

/// Whether keeping it is refused so, or isn't refused.
pub(crate) fn keeps(
    alloc: Global,
    symbolizer: &mut Symbolizer,
    files: &mut MemFiles,
    kept: &Kept,
    refused: Option<Error>,
) -> bool {
    match to_keep(alloc, kept) {
        Ok(request) => symbolizer.cache(alloc, files, &request).err() == refused,
        Err(_) => false,
    }
}

/// Whether it is forgotten.
pub(crate) fn forgets(alloc: Global, symbolizer: &mut Symbolizer, kept: &Kept) -> bool {
    match to_forget(alloc, kept) {
        Ok(request) => symbolizer.evict(&request).is_ok(),
        Err(_) => false,
    }
}

/// The ELF file at `/e`.
const FILE: Kept = Kept::File("/e");

/// The function of the ELF file answers.
const ANSWERS: Asked = Single(Input::VirtOffset(0x400088), Named("f"));

/// The ELF file is absent.
const ABSENT: Asked = Single(Input::VirtOffset(0x400088), Refused(Error::NotFound));

/// A file that was asked and has other bytes now isn't pinned by a request that is refused.
const LEFT_UNPINNED: Script = &[
    Put("/e", &ELF_FUNCTION),
    Ask(Elf("/e"), ANSWERS),
    Put("/e", b"\x7fELF"),
    Keep(FILE, Some(Error::InvalidData)),
    Remove("/e"),
    Ask(Elf("/e"), ABSENT),
];

/// A file that is kept answers without it, also after a refused request, until it is forgotten.
const KEPT_UNTIL_FORGOTTEN: Script = &[
    Put("/e", &ELF_FUNCTION),
    Keep(FILE, None),
    Remove("/e"),
    Ask(Elf("/e"), ANSWERS),
    Keep(FILE, Some(Error::NotFound)),
    Ask(Elf("/e"), ANSWERS),
    Forget(FILE),
    Ask(Elf("/e"), ABSENT),
];

/// A file that is held and isn't looked at anew is kept as it is, and none is read.
const KEPT_AS_HELD: Script = &[
    Put("/e", &ELF_FUNCTION),
    AskStill(Elf("/e"), ANSWERS),
    Put("/e", b"\x7fELF"),
    KeepStill(FILE, None),
    Opens(1),
    AskStill(Elf("/e"), ANSWERS),
];

/// The files of process 7: its mapped file isn't an ELF file, and its perf map has a function.
const FILES: Script = &[
    Put("/proc/7/maps", THREE_MAPPINGS),
    Put("/proc/7/map_files/1000-2000", b"\x7fELF"),
    Put("/proc/7/status", b"Name:\tx\n"),
    Put("/proc/7/root/tmp/perf-7.map", PERF_FUNCTION),
];

/// Process 7.
const PROCESS: Kept = Kept::Process(7);

/// The perf map of process 7 answers.
const ANSWERS_JIT: Asked = Single(Input::AbsAddr(0x3008), Named("jit"));

/// The process is absent.
const ABSENT_PROCESS: Asked = Single(Input::AbsAddr(0x3008), Refused(Error::NotFound));

/// A kept process answers without its files, also after a refused request, until it is forgotten.
const PROCESS_KEPT: Script = &[
    Keep(PROCESS, None),
    NoFiles,
    Ask(Process(7), ANSWERS_JIT),
    Put("/proc/7/maps", b"x\n"),
    Keep(PROCESS, Some(Error::InvalidData)),
    NoFiles,
    Ask(Process(7), ANSWERS_JIT),
    Forget(PROCESS),
    Ask(Process(7), ABSENT_PROCESS),
];

/// The perf map alone is kept where it alone is asked for, and nothing is read where nothing is.
const PERF_MAP_KEPT: Script = &[
    Keep(Kept::Parts(7, false, false), None),
    Opens(0),
    Keep(Kept::Parts(7, false, true), None),
    NoFiles,
    Ask(Process(7), ABSENT_PROCESS),
];

/// The mappings alone are kept beside it.
const MAPPINGS_KEPT: Script = &[
    Keep(Kept::Parts(7, true, false), None),
    NoFiles,
    Ask(Process(7), ANSWERS_JIT),
];

/// Scripts that follow one another, each time over new files.
static SCRIPTS: [&[Script]; 4] = [
    &[LEFT_UNPINNED, KEPT_UNTIL_FORGOTTEN],
    &[KEPT_AS_HELD],
    &[FILES, PROCESS_KEPT],
    &[FILES, PERF_MAP_KEPT, FILES, MAPPINGS_KEPT],
];

#[test]
fn only_what_is_kept_answers_until_it_is_forgotten(rt: HostRuntime) {
    let rows = &SCRIPTS;
    for index in 0..rows.len() {
        assert!(rt; hold(rt.alloc(), &ALL, rows[index]), "scripts {index}");
    }
}

/// The ELF file is kept.
static FILE_KEPT: Script = &[Put("/e", &ELF_FUNCTION), Keep(FILE, None)];

/// All that may be kept of process 7 is kept.
const ALL_KEPT: Script = &[Keep(PROCESS, None)];

/// Other files of process 7 than the first ones come, whose looks are counted anew.
static LATER: Script = &[
    NoFiles,
    Put("/proc/7/maps", b"3000-5000 rw-p 00000000 00:00 0\n"),
    Put("/proc/7/status", b"Name:\ty\n"),
    Put("/proc/7/root/tmp/perf-7.map", b"3000 10 later\n"),
];

/// A request for the later files, of which one look fails, is refused.
static REFUSED: Script = &[Keep(PROCESS, Some(Error::ReadFault)), Faults(1)];

/// An address that only the later files map has no mapping.
const UNMAPPED: Asked = Single(Input::AbsAddr(0x4008), Unknown(Reason::Unmapped));

/// All that was kept answers as before.
const BOTH_STAY: Script = &[
    NoFiles,
    Ask(Process(7), ANSWERS_JIT),
    Ask(Process(7), UNMAPPED),
    Ask(Elf("/e"), ANSWERS),
];

/// Nothing is kept of the process, but the ELF file is.
const FILE_STAYS: Script = &[
    NoFiles,
    Ask(Process(7), ABSENT_PROCESS),
    Ask(Elf("/e"), ANSWERS),
];

/// What is kept of the process before the later files come, the look that fails, and what stays. The
/// mappings are read, the perf map is looked at and read; the status is read if nothing was kept.
static FAILS: [(Script, Script, Script); 7] = [
    (ALL_KEPT, &[Fail(1)], BOTH_STAY),
    (ALL_KEPT, &[Fail(2)], BOTH_STAY),
    (ALL_KEPT, &[Fail(3)], BOTH_STAY),
    (&[], &[Fail(1)], FILE_STAYS),
    (&[], &[Fail(2)], FILE_STAYS),
    (&[], &[Fail(3)], FILE_STAYS),
    (&[], &[Fail(4)], FILE_STAYS),
];

#[test]
fn a_look_that_fails_leaves_what_is_kept(rt: HostRuntime) {
    let rows = &FAILS;
    for index in 0..rows.len() {
        let (kept, fails, stays) = rows[index];
        let parts = &[FILE_KEPT, FILES, kept, LATER, fails, REFUSED, stays];
        assert!(rt; hold(rt.alloc(), &ALL, parts), "row {index}");
    }
}
