//! Which texts tell mappings, and what they tell.

use bz_base::{Error, Pid};
use bz_proc::{EntryPath, MapsEntry, PathName, parse_maps};
use bz_samples::THREE_MAPPINGS;
use std::alloc::Global;

/// A mapping: its start, its end and its offset, the path that stands for it and the file's own. A
/// part of the system has no path that stands for it, and a mapping without a name has neither.
type Told = (u64, u64, u64, &'static str, &'static str);

/// Whether the path is this one.
fn is_path(path: &EntryPath, maps_file: &str, text: &str) -> bool {
    !maps_file.is_empty()
        && path.maps_file.as_str() == maps_file
        && path.symbolic_path.as_str() == text
}

/// Whether the name is this one.
fn is_named(name: &PathName, maps_file: &str, text: &str) -> bool {
    match name {
        PathName::Path(path) => is_path(path, maps_file, text),
        PathName::Component(part) => {
            maps_file.is_empty() && !text.is_empty() && part.as_str() == text
        }
    }
}

/// Whether the copy of a name is equal to it.
fn is_copied(alloc: Global, name: &PathName) -> bool {
    match name.try_clone(alloc) {
        Ok(copy) => copy == *name,
        Err(_) => false,
    }
}

/// Whether the mapping is this one, and its name is copied, if it has one.
fn is_told(alloc: Global, entry: &MapsEntry, told: &Told) -> bool {
    entry.range.start == told.0
        && entry.range.end == told.1
        && entry.offset == told.2
        && match &entry.path_name {
            Some(name) => is_named(name, told.3, told.4) && is_copied(alloc, name),
            None => told.3.is_empty() && told.4.is_empty(),
        }
}

/// Whether the mappings are these, in this order.
fn are_told(alloc: Global, entries: &[MapsEntry], told: &[Told]) -> bool {
    if entries.len() != told.len() {
        return false;
    }
    for index in 0..told.len() {
        if !is_told(alloc, &entries[index], &told[index]) {
            return false;
        }
    }
    true
}

/// Whether the text tells these mappings of the process.
fn tells(alloc: Global, pid: Pid, text: &[u8], told: &[Told]) -> bool {
    match parse_maps(alloc, pid, text) {
        Ok(entries) => are_told(alloc, entries.as_slice(), told),
        Err(_) => false,
    }
}

/// Whether the text is refused, since it isn't one of mappings.
fn is_refused(alloc: Global, text: &[u8]) -> bool {
    match parse_maps(alloc, Pid::Slf, text) {
        Ok(_) => false,
        Err(error) => error == Error::InvalidData,
    }
}

/// The mappings of a process that maps a file, memory and a part of the system.
static THREE_TOLD: [Told; 3] = [
    (0x1000, 0x2000, 0, "/proc/7/map_files/1000-2000", "/bin/bad"),
    (0x3000, 0x4000, 0, "", ""),
    (0x5000, 0x6000, 0, "", "[vdso]"),
];

/// Lines, and the mapping that each tells of the process that reads it.
static LINES: [(&[u8], Told); 24] = [
    // As the system writes them, with the text at a column.
    (
        b"7f5a3c200000-7f5a3c228000 r--p 00000000 103:05 1573                       /usr/lib/libc.so.6\n",
        (
            0x7f5a3c200000,
            0x7f5a3c228000,
            0,
            "/proc/self/map_files/7f5a3c200000-7f5a3c228000",
            "/usr/lib/libc.so.6",
        ),
    ),
    (
        b"ffffffffff600000-ffffffffff601000 --xp 00000000 00:00 0                  [vsyscall]\n",
        (0xffffffffff600000, 0xffffffffff601000, 0, "", "[vsyscall]"),
    ),
    // Without an end, and between empty lines.
    (
        b"1-2 r--p 3 0:0 4 /a",
        (1, 2, 3, "/proc/self/map_files/1-2", "/a"),
    ),
    (
        b"\n\n1-2 r--p 3 0:0 4 /a\n\n",
        (1, 2, 3, "/proc/self/map_files/1-2", "/a"),
    ),
    // Digits in either case, zeros in front, and the greatest numbers.
    (
        b"00ab-00CD r--p 0eF 0:0 4 /a\n",
        (0xab, 0xcd, 0xef, "/proc/self/map_files/ab-cd", "/a"),
    ),
    (
        b"0000000000000000-ffffffffffffffff r--p FFFFFFFFFFFFFFFF 0:0 4 /a\n",
        (
            0,
            u64::MAX,
            u64::MAX,
            "/proc/self/map_files/0-ffffffffffffffff",
            "/a",
        ),
    ),
    (b"5-5 r--p 0 0:0 99999999999999999999\n", (5, 5, 0, "", "")),
    // More spaces, also at the end; other blanks belong to a field.
    (b"1-2   r--p   3   0:0   4   \n", (1, 2, 3, "", "")),
    (
        b"1-2 r--p 3 \t 4 /a\n",
        (1, 2, 3, "/proc/self/map_files/1-2", "/a"),
    ),
    (
        b"1-2 \t\r-p 3 0:0 4 /a\n",
        (1, 2, 3, "/proc/self/map_files/1-2", "/a"),
    ),
    (
        b"1-2 \xc3\xa9\xc3\xa9 3 \xc3\xbc 4 /\xc3\xa4\n",
        (1, 2, 3, "/proc/self/map_files/1-2", "/ä"),
    ),
    // A text has spaces of its own, and a carriage return belongs to it.
    (
        b"1-2 r--p 3 0:0 4 /a b  c \n",
        (1, 2, 3, "/proc/self/map_files/1-2", "/a b  c "),
    ),
    (
        b"1-2 r--p 3 0:0 4 /a\r\n",
        (1, 2, 3, "/proc/self/map_files/1-2", "/a\r"),
    ),
    (b"1-2 r--p 3 0:0 4 \t/a\n", (1, 2, 3, "", "\t/a")),
    (b"1-2 r--p 3 0:0 4 a/b\n", (1, 2, 3, "", "a/b")),
    (
        b"1-2 r--p 3 0:0 4 /\n",
        (1, 2, 3, "/proc/self/map_files/1-2", "/"),
    ),
    // A mark of deletion is cut once, at the end of a path alone.
    (b"1-2 r--p 3 0:0 4 (deleted)\n", (1, 2, 3, "", "(deleted)")),
    (
        b"1-2 r--p 3 0:0 4 /a (deleted)\n",
        (1, 2, 3, "/proc/self/map_files/1-2", "/a"),
    ),
    (
        b"1-2 r--p 3 0:0 4 /a (deleted) (deleted)\n",
        (1, 2, 3, "/proc/self/map_files/1-2", "/a (deleted)"),
    ),
    (
        b"1-2 r--p 3 0:0 4 /a(deleted)\n",
        (1, 2, 3, "/proc/self/map_files/1-2", "/a(deleted)"),
    ),
    (
        b"1-2 r--p 3 0:0 4 /a (deleted) \n",
        (1, 2, 3, "/proc/self/map_files/1-2", "/a (deleted) "),
    ),
    (
        b"1-2 r--p 3 0:0 4 / (deleted)\n",
        (1, 2, 3, "/proc/self/map_files/1-2", "/"),
    ),
    (
        b"1-2 r--p 3 0:0 4 [heap] (deleted)\n",
        (1, 2, 3, "", "[heap] (deleted)"),
    ),
    (b"1-2 r--p 3 0:0 4 [heap]\n", (1, 2, 3, "", "[heap]")),
];

/// Whether a text tells several mappings, and an empty one none.
fn texts_tell(alloc: Global) -> bool {
    tells(alloc, Pid::from(7), THREE_MAPPINGS, &THREE_TOLD) && tells(alloc, Pid::from(7), b"", &[])
}

/// Texts of which some line is no mapping.
static REFUSED: [&[u8]; 53] = [
    // A field is empty or absent.
    b"-2 r--p 3 0:0 4 /a\n",
    b"1- r--p 3 0:0 4 /a\n",
    b"1 r--p 3 0:0 4 /a\n",
    b"- r--p 3 0:0 4 /a\n",
    b"1-2  3 0:0 4 /a\n",
    b"1-2 r--p  0:0 4 /a\n",
    b"1-2 r--p 3  4 /a\n",
    b"1-2 r--p 3 0:0  /a\n",
    b"1-2\n",
    b"1-2 r--p\n",
    b"1-2 r--p 3\n",
    b"1-2 r--p 3 0:0\n",
    b"1-2 r--p 3 0:0 \n",
    b" \n",
    // A digit too many, or none.
    b"10000000000000000-2 r--p 3 0:0 4 /a\n",
    b"00000000000000001-2 r--p 3 0:0 4 /a\n",
    b"1-00000000000000002 r--p 3 0:0 4 /a\n",
    b"1-2 r--p 00000000000000003 0:0 4 /a\n",
    b"1-2 r--p 3 0:0 000000000000000000004 /a\n",
    b"1-2 r--p 3 0:0 f /a\n",
    b"1-2 r--p 3 0:0 4a /a\n",
    b"g-h r--p 3 0:0 4 /a\n",
    b"1-2 r--p 3g 0:0 4 /a\n",
    // Signs and prefixes.
    b"+1-2 r--p 3 0:0 4 /a\n",
    b"1-+2 r--p 3 0:0 4 /a\n",
    b"1--2 r--p 3 0:0 4 /a\n",
    b"0x1-0x2 r--p 3 0:0 4 /a\n",
    b"1-2 r--p +3 0:0 4 /a\n",
    b"1-2 r--p 3 0:0 -4 /a\n",
    // Other permissions.
    b"1-2 r-p 3 0:0 4 /a\n",
    b"1-2 r--ps 3 0:0 4 /a\n",
    b"1-2 r-p\xc3\xa9 3 0:0 4 /a\n",
    // Other blanks, and spaces where none stand.
    b"1-2\tr--p 3 0:0 4 /a\n",
    b"1-2 r--p\t3 0:0 4 /a\n",
    b"1-2 r--p 3\t0:0 4 /a\n",
    b"1-2 r--p 3 0:0\t4 /a\n",
    b"1-2 r--p 3 0:0 4\t/a\n",
    b"1-2 r--p 3 0:0 4/a\n",
    b" 1-2 r--p 3 0:0 4 /a\n",
    b"1 -2 r--p 3 0:0 4 /a\n",
    b"1- 2 r--p 3 0:0 4 /a\n",
    // A carriage return where no text stands, and as a line.
    b"1-2 r--p 3 0:0 4\r\n",
    b"\r\n",
    b"1-2 r--p 3 0:0 4 /a\n\r\n",
    b"1-2 r--p 3 0:0 4 /a\r5-6 r--p 3 0:0 4\n7\n",
    // The end is before the start.
    b"2000-1000 r-xp 0 0:0 1\n",
    b"ffffffffffffffff-fffffffffffffffe r-xp 0 0:0 1 /a\n",
    // One bad line among good ones.
    b"1-2 r--p 3 0:0 4 /a\nx\n5-6 r--p 3 0:0 4 /a\n",
    // The bytes aren't UTF-8.
    b"1-2 r--p 3 0:0 4 /\xff\n",
    b"1-2 r--p 3 0:0 4 /a\xc3\n",
    b"1-2 r--p 3 \xff:0 4 /a\n",
    b"1-2 r-\xc3p 3 0:0 4 /a\n",
    b"1-2 r--p 3 0:0 4 /a\n\xed\xa0\x80",
];

#[test]
fn a_text_tells_its_mappings_or_is_refused(rt: HostRuntime) {
    assert!(rt; texts_tell(rt.alloc()), "texts");
    let lines = &LINES;
    for index in 0..lines.len() {
        let (line, told) = lines[index];
        assert!(rt; tells(rt.alloc(), Pid::Slf, line, &[told]), "line {index}");
    }
    let refused = &REFUSED;
    for index in 0..refused.len() {
        assert!(rt;
            is_refused(rt.alloc(), refused[index]),
            "refused text {index}"
        );
    }
}
