//! Processes.

use bz_samples::{ELF_FUNCTION, THREE_MAPPINGS};
use bz_symq::{Status, own_pid};
use symq_runs::Edit::{self, Bytes, Deny, Text};
use symq_runs::{FIRST_RUN, Row, USAGE};

/// The mappings of a process that maps an ELF file, and memory.
const ELF_MAPPINGS: &str =
    "400000-401000 r-xp 00000000 08:01 11 /bin/e\n7fbf1fc21000-7fbf1fc22000 r-xp 00000000 00:00 0\n";

/// The status of a process, which tells no id.
const STATUS_TEXT: &str = "Name:\tx\n";

/// What a process maps that isn't an ELF file.
const BAD_ELF: &str = "\x7fELF";

/// A perf map of three functions, two of them at addresses of memory that is mapped.
const PERF_MAP: &str =
    "3000 10 jit\n7fbf1fc21441 b py::MutableSequence:<frozen _collections_abc>\n7fbf1fc2144c b py::<module>:<frozen posixpath>\n7fbf1fc215ee b py::_getuserbase.<locals>.joinuser:<frozen sitej7fbf1fc215f9 b py::expanduser:<frozen posixpath>\n";

/// The own process with three mappings, by its id and as `self`, and a process whose mappings may
/// not be read.
const PROCESSES: &[Edit] = &[
    Bytes("/proc/7/maps", THREE_MAPPINGS),
    Text("/proc/7/status", STATUS_TEXT),
    Text("/proc/7/map_files/1000-2000", BAD_ELF),
    Text("/proc/7/root/tmp/perf-7.map", PERF_MAP),
    Bytes("/proc/self/maps", THREE_MAPPINGS),
    Text("/proc/self/status", STATUS_TEXT),
    Text("/proc/self/map_files/1000-2000", BAD_ELF),
    Deny("/proc/9/maps"),
];

/// Answers outside of the three mappings, in a part of the system, and in memory with a perf map. The
/// last two are between two mappings, and in a mapped file that isn't an ELF file.
const FIVE: Row = Row {
    lines: &[
        &["process", "7"],
        &["process", "0000000007"],
        &["process", "0"],
    ],
    edits: PROCESSES,
    input: "7000\n5000\n3008\n2800\n1004\n",
    written: "0x7000: ? absolute address not found in virtual memory map of process\n0x5000: ? address belongs to unsupported entity\n0x3008: jit+0x8 start 0x3000 size 0x10 module - at -\n0x2800: ? absolute address not found in virtual memory map of process\n0x1004: ? an error occurred but was ignored in batch mode\n",
    ..FIRST_RUN
};

/// Words that name no process.
const MISUSED: Row = Row {
    lines: &[&["process", "+7"], &["process", "7x"], &["process", "self"]],
    input: "",
    status: Status::Usage,
    written: USAGE,
    ..FIVE
};

/// A process that is refused.
const REFUSED: Row = Row {
    lines: &[&["process", "7"]],
    input: "7000\n",
    status: Status::Refused,
    ..FIVE
};

/// How runs over processes end: by mappings, mapped files, a perf map, words, and an input with a bad
/// line. The mappings may be absent, not to be read, bad, or none.
pub(crate) static ROWS: [Row; 12] = [
    FIVE,
    MISUSED,
    Row {
        lines: &[&["process", "7"]],
        later: &[Text("/proc/7/maps", ELF_MAPPINGS)],
        input: "400088\n7fbf1fc2144c\n7fbf1fc21456\n7fbf1fc21457\n",
        written: "0x400088: ? an error occurred but was ignored in batch mode\n0x7fbf1fc2144c: py::<module>:<frozen posixpath>+0x0 start 0x7fbf1fc2144c size 0xb module - at -\n0x7fbf1fc21456: py::<module>:<frozen posixpath>+0xa start 0x7fbf1fc2144c size 0xb module - at -\n0x7fbf1fc21457: ? address not found in symbolization source\n",
        ..FIVE
    },
    Row {
        lines: &[&["process", "1234567890"]],
        later: &[
            Text("/proc/1234567890/maps", ELF_MAPPINGS),
            Bytes("/proc/1234567890/map_files/400000-401000", &ELF_FUNCTION),
        ],
        input: "400088\n400090\n",
        written: "0x400088: f+0x8 start 0x400080 size 0x10 module /bin/e at -\n0x400090: ? address not found in symbolization source\n",
        ..FIVE
    },
    Row {
        lines: &[&["process", "7"]],
        input: "",
        written: "",
        ..FIVE
    },
    Row {
        lines: &[&["process", "7"]],
        input: "7000\nx\n",
        status: Status::Input,
        written: "input: line 2\n",
        ..FIVE
    },
    Row {
        lines: &[&["process", "8"]],
        written: "refused: NotFound\n",
        ..REFUSED
    },
    Row {
        lines: &[&["process", "4294967295"]],
        input: "",
        written: "refused: NotFound\n",
        ..REFUSED
    },
    Row {
        lines: &[&["process", "9"]],
        written: "refused: PermissionDenied\n",
        ..REFUSED
    },
    Row {
        lines: &[&["process", "9"]],
        input: "",
        written: "refused: PermissionDenied\n",
        ..REFUSED
    },
    // What isn't a mapping, and no mappings.
    Row {
        later: &[Text("/proc/7/maps", "1000\n")],
        written: "refused: InvalidData\n",
        ..REFUSED
    },
    Row {
        later: &[Text("/proc/7/maps", "")],
        written: "refused: UnexpectedEof\n",
        ..REFUSED
    },
];

/// A text of `/proc/self/stat`, and the id that begins it, or 0 where none does.
static STATS: [(&[u8], u32); 7] = [
    (b"4242 (symq) R 1 4242", 4242),
    (b"4294967295 (x", 4294967295),
    (b"4294967296 (x", 0),
    (b"42", 42),
    (b"(symq) 42", 0),
    (b" 42", 0),
    (b"", 0),
];

#[test]
fn reads_the_own_id_or_none(rt: HostRuntime) {
    let stats = &STATS;
    for index in 0..stats.len() {
        let (text, id) = stats[index];
        assert!(rt; own_pid(text) == id, "row {index}");
    }
}
