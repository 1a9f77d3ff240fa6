//! What stores answer frames, and which files they keep.

use bz_base::{Error, FindSymOpts, Sym, Symbolized};
use bz_files::MemFiles;
use bz_samples::{BREAKPAD_KINDS, put};
use bz_store::{CrashFrame, FrameAnswer, Store};
use std::alloc::Global;

/// A file of another function.
const OTHER: &[u8] = b"FUNC 2000 10 0 other\n";

/// Paths, and the files that lie there.
static FILES: [(&str, &[u8]); 7] = [
    ("/r/bar/AA/bar.sym", BREAKPAD_KINDS),
    ("/r/two/AA/two.sym", OTHER),
    ("/r/.../AA/....sym", BREAKPAD_KINDS),
    ("/r/bad/AA/bad.sym", b"FUNC\n"),
    ("/r/a/AA/a.sym", BREAKPAD_KINDS),
    ("/r/b/AA/b.sym", BREAKPAD_KINDS),
    ("/r/c/AA/c.sym", BREAKPAD_KINDS),
];

/// A frame: its module, the module's id, and its offset there.
type Frame = (&'static str, &'static str, u64);

/// Frames by each kind of answer:
/// - a known one, in a file and outside its functions;
/// - no file;
/// - a bad name;
/// - a file that may not be read;
/// - one that isn't a Breakpad file.
const KINDS: &[Frame] = &[
    ("bar", "AA", 0x1010),
    ("foo", "AA", 0),
    ("..", "AA", 0),
    ("bar", "AA", 0x1030),
    ("shut", "AA", 0),
    ("bad", "AA", 0),
    ("bad", "AA", 1),
    ("bar", "AB", 0x1010),
];

/// Names that no folder has, as a module and as an id.
const BAD_NAMES: &[Frame] = &[
    ("", "AA", 0),
    (".", "AA", 0),
    ("..", "AA", 0),
    ("a/b", "AA", 0),
    ("/", "AA", 0),
    ("a\0", "AA", 0),
    ("bar", "", 0),
    ("bar", ".", 0),
    ("bar", "..", 0),
    ("bar", "AA/", 0),
    ("bar", "/AA", 0),
    ("bar", "\0", 0),
];

/// Names with dots that a folder can have.
const DOTS: &[Frame] = &[("...", "AA", 0x1010), (".a", "..", 0), ("a.", "b..", 0)];

/// Frames of files that share an id, and one alone.
const MODULES: &[Frame] = &[
    ("bar", "AA", 0x1010),
    ("two", "AA", 0x1010),
    ("two", "AA", 0x2000),
    ("bar", "AA", 0x1100),
    ("bar", "AA", 0x1000),
];

/// Frames of the first file, of the second, of the third, and of the first two by turns.
const A: &[Frame] = &[("a", "AA", 0x1000)];

const B: &[Frame] = &[("b", "AA", 0x1000)];

const C: &[Frame] = &[("c", "AA", 0x1000)];

const ABA: &[Frame] = &[
    ("a", "AA", 0x1000),
    ("b", "AA", 0x1000),
    ("a", "AA", 0x1000),
];

/// Frames that are asked about together, the letters of their answers, and then how many files are
/// kept, and were read. Where there is no frame, the first file is replaced before.
type Asked = (&'static [Frame], &'static [u8], usize, u64);

/// Whether a new store keeps two files, or else one; the read that fails, or 0; and what it is asked.
type Course = (bool, u64, &'static [Asked]);

/// Courses. Each file is read once that is kept, and one that isn't a Breakpad file at each of its
/// frames. Nothing is read under a bad name.
static COURSES: [Course; 10] = [
    (true, 0, &[(KINDS, b"fanudxxa", 1, 3)]),
    (false, 0, &[(KINDS, b"fanudxxa", 1, 3)]),
    (true, 0, &[(BAD_NAMES, b"nnnnnnnnnnnn", 0, 0)]),
    (true, 0, &[(DOTS, b"fna", 1, 1)]),
    (true, 0, &[(MODULES, b"fusus", 2, 2)]),
    // As many files are kept as may be.
    (false, 0, &[(ABA, b"sss", 1, 3)]),
    (true, 0, &[(ABA, b"sss", 2, 2)]),
    // The file that was used longest ago goes first.
    (
        true,
        0,
        &[
            (ABA, b"sss", 2, 2),
            (C, b"s", 2, 3),
            (A, b"s", 2, 3),
            (B, b"s", 2, 4),
        ],
    ),
    // The files that were answered before a failed read stay kept.
    (true, 2, &[(ABA, b"e", 1, 1), (A, b"s", 1, 1)]),
    // A file that is replaced answers by its kept bytes until it isn't kept any more.
    (
        false,
        0,
        &[
            (A, b"s", 1, 1),
            (&[], b"", 1, 1),
            (A, b"s", 1, 1),
            (B, b"s", 1, 2),
            (A, b"u", 1, 3),
        ],
    ),
];

/// The files, and one that may not be read.
fn files(alloc: Global) -> Result<MemFiles, Error> {
    let mut files = MemFiles::new(alloc, 0);
    for (path, text) in &FILES {
        put(alloc, &mut files, path, text)?;
    }
    files.deny(alloc, "/r/shut/AA/shut.sym")?;
    Ok(files)
}

/// A store at `/r` that keeps one file, or two.
fn store(alloc: Global, two: bool) -> Result<Store, Error> {
    let root = String::from_str(alloc, "/r")?;
    Store::new(alloc, root, if two { 2 } else { 1 })
}

/// Frames of rows.
fn frames(alloc: Global, rows: &[Frame]) -> Result<Vec<CrashFrame>, Error> {
    let mut frames = Vec::new(alloc);
    for row in rows {
        let name = String::from_str(alloc, row.0)?;
        let id = String::from_str(alloc, row.1)?;
        frames.push(CrashFrame::new(name, id, row.2))?;
    }
    Ok(frames)
}

/// Whether the symbol is that of the function, 16 bytes past its start.
fn is_the_function(sym: &Sym<'_>) -> bool {
    sym.name.as_str() == "another func"
        && sym.addr == 0x1000
        && sym.offset == 0x10
        && sym.size == Some(0x30)
}

/// A letter for an answer:
/// - `f` the function `another func`, 16 bytes past its start;
/// - `s` another symbol;
/// - `u` an unknown address;
/// - `n` a bad name;
/// - `a` no file;
/// - `d` a file that may not be read;
/// - `x` a file that isn't a Breakpad file.
fn letter(answer: &FrameAnswer) -> u8 {
    match answer {
        FrameAnswer::Known(Symbolized::Sym(sym)) => if is_the_function(sym) { b'f' } else { b's' },
        FrameAnswer::Known(Symbolized::Unknown(_)) => b'u',
        FrameAnswer::BadName => b'n',
        FrameAnswer::NoFile => b'a',
        FrameAnswer::Denied => b'd',
        FrameAnswer::BadFile => b'x',
    }
}

/// Whether these are the answers' letters.
fn are(answers: &[FrameAnswer], letters: &[u8]) -> bool {
    if answers.len() != letters.len() {
        return false;
    }
    for index in 0..answers.len() {
        if letter(&answers[index]) != letters[index] {
            return false;
        }
    }
    true
}

/// Whether frames are answered by these letters, or by `e` where the call fails by a fault.
fn answers(
    alloc: Global,
    store: &mut Store,
    files: &mut MemFiles,
    rows: &[Frame],
    letters: &[u8],
) -> Result<bool, Error> {
    let frames = frames(alloc, rows)?;
    match store.answer(alloc, files, &frames, &FindSymOpts::CodeInfo) {
        Ok(answers) => Ok(are(&answers, letters)),
        Err(error) => Ok(error == Error::ReadFault && letters == b"e".as_slice()),
    }
}

/// Whether all is answered, kept and read as the course says, and only the failed read is a fault.
fn holds(
    alloc: Global,
    store: &mut Store,
    files: &mut MemFiles,
    course: &Course,
) -> Result<bool, Error> {
    if course.1 > 0 {
        files.fail_call(alloc, course.1)?;
    }
    for (rows, letters, kept, opens) in course.2 {
        if rows.is_empty() {
            put(alloc, files, "/r/a/AA/a.sym", OTHER)?;
        }
        let answered = answers(alloc, store, files, rows, letters)?;
        if !answered || store.kept() != *kept || files.opens() != *opens {
            return Ok(false);
        }
    }
    Ok(files.faults() == u64::from(course.1 > 0))
}

/// Whether a course goes so with a new store and new files.
fn goes_so(alloc: Global, course: &Course) -> Result<bool, Error> {
    let mut store = store(alloc, course.0)?;
    let mut files = files(alloc)?;
    holds(alloc, &mut store, &mut files, course)
}

#[test]
fn stores_answer_by_what_lies_at_the_path_and_keep_the_last_used(rt: HostRuntime) {
    let courses = &COURSES;
    for index in 0..courses.len() {
        assert!(rt;
            goes_so(rt.alloc(), &courses[index]) == Ok(true),
            "course {index}"
        );
    }
}
