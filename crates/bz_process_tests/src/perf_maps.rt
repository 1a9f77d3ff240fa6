//! Perf maps: what they answer, which bytes are taken, and where they lie.

use crate::files::put;
use bz_base::{Error, FindSymOpts, Pid, Reason, ResolvedSym, Symbolize};
use bz_cache::FileCache;
use bz_files::MemFiles;
use bz_proc::PerfMap;
use std::alloc::Global;

/// A function's name, start and size, or that none is there.
type Told = (&'static str, u64, usize);

/// No function is there: a size of its own, since a name may be empty.
const UNKNOWN: Told = ("", 0, usize::MAX);

/// Three functions of a program in Python. The third name runs on into the line that comes after.
pub(crate) const PYTHON: &[u8] = b"7fbf1fc21441 b py::MutableSequence:<frozen _collections_abc>\n\
7fbf1fc2144c b py::<module>:<frozen posixpath>\n\
7fbf1fc215ee b py::_getuserbase.<locals>.joinuser:<frozen sitej7fbf1fc215f9 b py::expanduser:<frozen posixpath>\n";

/// The first of them.
const SEQUENCE: Told = (
    "py::MutableSequence:<frozen _collections_abc>",
    0x7fbf1fc21441,
    11,
);

/// The second one.
const MODULE: Told = ("py::<module>:<frozen posixpath>", 0x7fbf1fc2144c, 11);

/// The third one.
const RUN_ON: Told = (
    "py::_getuserbase.<locals>.joinuser:<frozen sitej7fbf1fc215f9 b py::expanduser:<frozen posixpath>",
    0x7fbf1fc215ee,
    11,
);

/// Functions that start alike, in no order, and one around others.
const ALIKE: &[u8] =
    b"20 8 b\n10 30 around\n20 8 c\n20 4 a\n20 4 d\n20 9 e\n20 9 f\n30 0 g\n30 0 h\n";

/// Perf maps, an address, and what is told there.
static ANSWERS: [(&[u8], u64, Told); 37] = [
    (PYTHON, 0x7fbf1fc21440, UNKNOWN),
    (PYTHON, 0x7fbf1fc21441, SEQUENCE),
    (PYTHON, 0x7fbf1fc2144b, SEQUENCE),
    (PYTHON, 0x7fbf1fc2144c, MODULE),
    (PYTHON, 0x7fbf1fc21456, MODULE),
    (PYTHON, 0x7fbf1fc21457, UNKNOWN),
    (PYTHON, 0x7fbf1fc215f0, RUN_ON),
    (PYTHON, 0x7fbf1fc215f9, UNKNOWN),
    // At the start itself the smallest answers, inside the largest; a function around them is never
    // tried.
    (ALIKE, 0x10, ("around", 0x10, 0x30)),
    (ALIKE, 0x1f, ("around", 0x10, 0x30)),
    (ALIKE, 0x20, ("a", 0x20, 4)),
    (ALIKE, 0x21, ("f", 0x20, 9)),
    (ALIKE, 0x28, ("f", 0x20, 9)),
    (ALIKE, 0x29, UNKNOWN),
    (ALIKE, 0x30, ("g", 0x30, 0)),
    (ALIKE, 0x31, UNKNOWN),
    // An end past 64 bits covers nothing; size 0 covers the start.
    (b"ffffffffffffffff 1 x\n", u64::MAX, UNKNOWN),
    (
        b"fffffffffffffffe 1 x\n",
        u64::MAX - 1,
        ("x", u64::MAX - 1, 1),
    ),
    (b"ffffffffffffffff 0 x\n", u64::MAX, ("x", u64::MAX, 0)),
    // The greatest end that 64 bits have is an end.
    (b"0 ffffffffffffffff x\n", 0, ("x", 0, usize::MAX)),
    (b"0 ffffffffffffffff x\n", u64::MAX, UNKNOWN),
    (b"10 0 x\n", 0x10, ("x", 0x10, 0)),
    (b"10 0 x\n", 0x11, UNKNOWN),
    (b"+10 +8 y\n", 0x17, ("y", 0x10, 8)),
    // Any number of leading zeros, and digits in either case.
    (
        b"0000000000000000000abCD 00000000000000000Ff z",
        0xabcd,
        ("z", 0xabcd, 255),
    ),
    // A name may be empty, and begin with a blank and end with one.
    (b"10 8 \n", 0x10, ("", 0x10, 8)),
    (b"10 8   n  \n", 0x10, ("  n  ", 0x10, 8)),
    (b"10\t8\x0c\x0bn\n", 0x10, ("\x0bn", 0x10, 8)),
    (b"10 8 a\tb\x0cc d\n", 0x10, ("a\tb\x0cc d", 0x10, 8)),
    (b"10 8 \xc3\xa4\n", 0x10, ("\u{e4}", 0x10, 8)),
    (b"10 8 \0\n", 0x10, ("\0", 0x10, 8)),
    // Lines end at a line feed, at a carriage return, or with the bytes. Empty ones are skipped.
    (b"10 8 x\r20 8 y", 0x10, ("x", 0x10, 8)),
    (b"10 8 x\r20 8 y", 0x20, ("y", 0x20, 8)),
    (b"10 8 x\r\n20 8 y\r\n", 0x10, ("x", 0x10, 8)),
    (b"\n\n\r10 8 x\n\n\r\r\n20 8 y\r", 0x20, ("y", 0x20, 8)),
    (b"", 0, UNKNOWN),
    (b"\n\r\n", 0, UNKNOWN),
];

/// Bytes that aren't a perf map.
static REFUSED: [&[u8]; 35] = [
    b"123",
    b"xxxx b py::foobar",
    b"1234 yyy py::foobar",
    // A field that is empty or isn't there.
    b"10",
    b"10 ",
    b"10 8",
    b" 10 8 x",
    b"10  8 x",
    b" ",
    b"\t\n",
    // Signs.
    b"-10 8 x",
    b"10 -8 x",
    b"+ 8 x",
    b"10 + x",
    b"++10 8 x",
    b"+-10 8 x",
    b"-0 8 x",
    // No digits of base 16, and bytes that part nothing here.
    b"0x10 8 x",
    b"10g 8 x",
    b"10\x0b8 x",
    b"10\0 8 x",
    b"10,8 x",
    b"10\xc2\xa08 x",
    b"\xff 8 x",
    b"10 8\xff x",
    // Past 64 bits.
    b"10000000000000000 8 x",
    b"00010000000000000000 8 x",
    b"10 fffffffffffffffff x",
    // No UTF-8.
    b"10 8 \xff",
    b"10 8 \xc3",
    b"10 8 \xc3\n\xa4",
    b"10 8 \xed\xa0\x80",
    // One line of many.
    b"10 8 x\n20 8 y\n30\n",
    b"10 8 x\r8 y\n",
    b"10 8 x\n20 \r8 y\n",
];

/// Whether this is told.
fn is_told(found: &Result<ResolvedSym<'_>, Reason>, told: &Told) -> bool {
    match found {
        Ok(symbol) => {
            symbol.name == told.0
                && symbol.addr == told.1
                && symbol.size == Some(told.2)
                && symbol.module.is_none()
                && symbol.code_info.is_none()
                && symbol.inlined.is_empty()
        }
        Err(reason) => *reason == Reason::UnknownAddr && told.2 == UNKNOWN.2,
    }
}

/// Whether a perf map tells this of an address.
fn tells(alloc: Global, map: &PerfMap, addr: u64, told: &Told) -> bool {
    match map.find_sym(alloc, addr, &FindSymOpts::CodeInfoAndInlined) {
        Ok(found) => is_told(&found, told),
        Err(_) => false,
    }
}

/// The perf map of these bytes.
fn parsed(alloc: Global, bytes: &[u8]) -> Result<PerfMap, Error> {
    PerfMap::parse(alloc, Vec::from_slice(alloc, bytes)?)
}

/// Whether the bytes are a perf map that tells this of an address.
fn answers(alloc: Global, bytes: &[u8], addr: u64, told: &Told) -> bool {
    match parsed(alloc, bytes) {
        Ok(map) => tells(alloc, &map, addr, told),
        Err(_) => false,
    }
}

/// Whether the bytes are refused as no perf map.
fn is_refused(alloc: Global, bytes: &[u8]) -> bool {
    match parsed(alloc, bytes) {
        Ok(_) => false,
        Err(error) => error == Error::InvalidData,
    }
}

/// Processes (0 is the own one), the ids by which they know themselves, and their perf maps' paths.
static PATHS: [(u32, u32, &str); 5] = [
    (1337, 1, "/proc/1337/root/tmp/perf-1.map"),
    (0, 7, "/proc/7/root/tmp/perf-7.map"),
    (0, 1, "/proc/7/root/tmp/perf-1.map"),
    (
        4294967295,
        4294967295,
        "/proc/4294967295/root/tmp/perf-4294967295.map",
    ),
    (1, 0, "/proc/1/root/tmp/perf-0.map"),
];

/// Whether the perf map of a process lies here, where the own process is 7.
fn lies_at(alloc: Global, process: u32, ns_tgid: u32, want: &str) -> bool {
    match PerfMap::path(alloc, Pid::from(process), 7, ns_tgid) {
        Ok(path) => path.as_str() == want,
        Err(_) => false,
    }
}

/// Whether a perf map of the files answers from the cache.
fn answers_from(alloc: Global, files: &mut MemFiles, cache: &mut FileCache<PerfMap>) -> bool {
    put(alloc, files, "/map", PYTHON)
        && match cache.entry(alloc, files, "/map") {
            Ok(map) => tells(alloc, map, 0x7fbf1fc2144c, &MODULE),
            Err(_) => false,
        }
}

/// Whether a perf map in a cache answers.
fn cached_answers(alloc: Global) -> bool {
    let mut files = MemFiles::new(alloc, 0);
    let mut cache = FileCache::builder().build(alloc);
    answers_from(alloc, &mut files, &mut cache)
}

#[test]
fn perf_maps_lie_at_their_paths_and_answer_or_are_refused(rt: HostRuntime) {
    let rows = &ANSWERS;
    for index in 0..rows.len() {
        let (bytes, addr, told) = rows[index];
        assert!(rt; answers(rt.alloc(), bytes, addr, &told), "answer {index}");
    }
    let refused = &REFUSED;
    for index in 0..refused.len() {
        assert!(rt;
            is_refused(rt.alloc(), refused[index]),
            "refused text {index}"
        );
    }
    let paths = &PATHS;
    for index in 0..paths.len() {
        let (process, ns_tgid, path) = paths[index];
        assert!(rt; lies_at(rt.alloc(), process, ns_tgid, path), "path {index}");
    }
    assert!(rt; cached_answers(rt.alloc()), "a cached perf map");
}
