//! Sources and requests are printed as what they are of, and their copies are the same throughout.

use crate::asking::{Subject, source};
use crate::keeping::{Kept, to_forget, to_keep};
use bz_base::Result;
use bz_symbolize::Pid;
use bz_symbolize::cache::{Cache, Process as ProcessToKeep};
use bz_symbolize::evict::Evict;
use bz_symbolize::source::{Elf, Gsym, Process, Source};
use std::alloc::Global;
use std::fmt;

/// Whether the value is printed so.
fn prints<T: fmt::Debug>(alloc: Global, value: &T, text: &str) -> bool {
    match format!(in alloc; "{value:?}") {
        Ok(printed) => printed.as_str() == text,
        Err(_) => false,
    }
}

/// Whether the processes are the same in every field.
fn are_same_processes(process: &Process, other: &Process) -> bool {
    process.pid == other.pid
        && process.debug_syms == other.debug_syms
        && process.perf_map == other.perf_map
        && process.map_files == other.map_files
        && process.vdso == other.vdso
}

/// Whether GSYM of either kind is the same.
fn are_same_gsym(gsym: &Gsym<'_>, other: &Gsym<'_>) -> bool {
    match gsym {
        Gsym::Data(bytes) => match other {
            Gsym::Data(copy) => bytes.bytes == copy.bytes,
            Gsym::File(_) => false,
        },
        Gsym::File(file) => match other {
            Gsym::Data(_) => false,
            Gsym::File(copy) => file.path == copy.path,
        },
    }
}

/// Whether the sources are the same in every field.
fn are_same_sources(source: &Source<'_>, other: &Source<'_>) -> bool {
    match source {
        Source::Breakpad(file) => match other {
            Source::Breakpad(copy) => file.path == copy.path,
            _ => false,
        },
        Source::Gsym(gsym) => match other {
            Source::Gsym(copy) => are_same_gsym(gsym, copy),
            _ => false,
        },
        Source::Elf(file) => match other {
            Source::Elf(copy) => file.path == copy.path && file.debug_syms == copy.debug_syms,
            _ => false,
        },
        Source::Process(process) => match other {
            Source::Process(copy) => are_same_processes(process, copy),
            _ => false,
        },
    }
}

/// Whether the copy of the source is printed so, and is the same.
fn is_copy(alloc: Global, source: &Source<'_>, copy: Result<Source<'_>>, text: &str) -> bool {
    match copy {
        Ok(copy) => prints(alloc, &copy, text) && are_same_sources(source, &copy),
        Err(_) => false,
    }
}

/// Whether the source is printed so, and has such a copy.
fn is_printed(alloc: Global, source: &Source<'_>, text: &str) -> bool {
    prints(alloc, source, text) && is_copy(alloc, source, source.try_clone(alloc), text)
}

/// A source, the GSYM that is handed in, and how the source is printed. Of the bytes the first 32 are.
static SOURCES: [(Subject, &[u8], &str); 8] = [
    (
        Subject::Breakpad("/a-path/with/components.sym"),
        b"",
        "Breakpad(\"/a-path/with/components.sym\")",
    ),
    (
        Subject::Elf("/a-path/with/components.elf"),
        b"",
        "Elf(\"/a-path/with/components.elf\")",
    ),
    (
        Subject::Gsym("/a-path/gsym"),
        b"",
        "GsymFile(\"/a-path/gsym\")",
    ),
    (Subject::Bytes, b"12345", "GsymData([49, 50, 51, 52, 53])"),
    (Subject::AnyGsym, b"\x01\x02", "GsymData([1, 2])"),
    (
        Subject::Bytes,
        b"ABCDEFGHIJKLMNOPQRSTUVWXYZ0123456",
        "GsymData([65, 66, 67, 68, 69, 70, 71, 72, 73, 74, 75, 76, 77, 78, 79, 80, 81, 82, 83, 84, 85, 86, 87, 88, 89, 90, 48, 49, 50, 51, 52, 53])",
    ),
    (Subject::Process(0), b"", "Process(self)"),
    (Subject::Process(1234), b"", "Process(1234)"),
];

/// Whether the source is printed so, and its copy too, and they are the same.
fn is_source(alloc: Global, subject: &Subject, bytes: &[u8], text: &str) -> bool {
    match source(alloc, bytes, subject) {
        Ok(source) => is_printed(alloc, &source, text),
        Err(_) => false,
    }
}

/// How a process is asked: whether debug symbols are looked for, its perf map answers, mapped files
/// are looked at by the paths that stand for mappings, and symbols of the vDSO are looked for.
type Ways = (bool, bool, bool, bool);

/// In each of them one thing is off.
static WAYS: [Ways; 4] = [
    (false, true, true, true),
    (true, false, true, true),
    (true, true, false, true),
    (true, true, true, false),
];

/// Whether a copy of the process is the same.
fn process_is_copied(alloc: Global, process: &Process) -> bool {
    match process.try_clone(alloc) {
        Ok(copy) => are_same_processes(process, &copy),
        Err(_) => false,
    }
}

/// Whether this is so of the own process, asked so.
fn own_process_is_copied(alloc: Global, ways: &Ways) -> bool {
    let process = Process {
        pid: Pid::Slf,
        debug_syms: ways.0,
        perf_map: ways.1,
        map_files: ways.2,
        vdso: ways.3,
    };
    process_is_copied(alloc, &process)
}

/// Whether a copy of the ELF file is the same.
fn elf_is_copied(alloc: Global, file: &Elf) -> bool {
    match file.try_clone(alloc) {
        Ok(copy) => file.path == copy.path && file.debug_syms == copy.debug_syms,
        Err(_) => false,
    }
}

/// Whether this is so of an ELF file whose debug symbols are looked for, or aren't.
fn elf_file_is_copied(alloc: Global, debug_syms: bool) -> bool {
    match String::from_str(alloc, "/e") {
        Ok(path) => elf_is_copied(alloc, &Elf { path, debug_syms }),
        Err(_) => false,
    }
}

/// Whether both ask to keep the same parts of the same process.
fn are_same_to_keep(process: &ProcessToKeep, other: &ProcessToKeep) -> bool {
    process.pid == other.pid
        && process.cache_vmas == other.cache_vmas
        && process.cache_perf_map == other.cache_perf_map
}

/// Whether both ask to keep the same, in every field.
fn keep_the_same(request: &Cache, other: &Cache) -> bool {
    match request {
        Cache::Elf(file) => match other {
            Cache::Elf(copy) => file.path == copy.path,
            Cache::Process(_) => false,
        },
        Cache::Process(process) => match other {
            Cache::Elf(_) => false,
            Cache::Process(copy) => are_same_to_keep(process, copy),
        },
    }
}

/// Whether both ask to forget the same.
fn forget_the_same(request: &Evict, other: &Evict) -> bool {
    match request {
        Evict::Elf(file) => match other {
            Evict::Elf(copy) => file.path == copy.path,
            Evict::Process(_) => false,
        },
        Evict::Process(process) => match other {
            Evict::Elf(_) => false,
            Evict::Process(copy) => process.pid == copy.pid,
        },
    }
}

/// What is kept or forgotten, and how either request is printed.
static REQUESTS: [(Kept, &str); 5] = [
    (
        Kept::File("/a-path/with/components.elf"),
        "Elf(\"/a-path/with/components.elf\")",
    ),
    (Kept::Process(0), "Process(self)"),
    (Kept::Process(1234), "Process(1234)"),
    (Kept::Parts(1234, false, true), "Process(1234)"),
    (Kept::Parts(1234, true, false), "Process(1234)"),
];

/// Whether the request to keep it is printed so, and its copy too, and they are the same.
fn is_to_keep(alloc: Global, request: &Cache, text: &str) -> bool {
    match request.try_clone(alloc) {
        Ok(copy) => {
            prints(alloc, request, text)
                && prints(alloc, &copy, text)
                && keep_the_same(request, &copy)
        }
        Err(_) => false,
    }
}

/// The same of the request to forget it.
fn is_to_forget(alloc: Global, request: &Evict, text: &str) -> bool {
    match request.try_clone(alloc) {
        Ok(copy) => {
            prints(alloc, request, text)
                && prints(alloc, &copy, text)
                && forget_the_same(request, &copy)
        }
        Err(_) => false,
    }
}

/// Whether both requests are so.
fn are_requests(alloc: Global, kept: &Kept, text: &str) -> bool {
    let keeps = match to_keep(alloc, kept) {
        Ok(request) => is_to_keep(alloc, &request, text),
        Err(_) => false,
    };
    let forgets = match to_forget(alloc, kept) {
        Ok(request) => is_to_forget(alloc, &request, text),
        Err(_) => false,
    };
    keeps && forgets
}

#[test]
fn sources_and_requests_are_printed_and_copied(rt: HostRuntime) {
    let sources = &SOURCES;
    for index in 0..sources.len() {
        let row = &sources[index];
        assert!(rt;
            is_source(rt.alloc(), &row.0, row.1, row.2),
            "source {index}"
        );
    }
    let rows = &WAYS;
    for index in 0..rows.len() {
        assert!(rt;
            own_process_is_copied(rt.alloc(), &rows[index]),
            "ways {index}"
        );
    }
    assert!(rt; elf_file_is_copied(rt.alloc(), true), "with debug symbols");
    assert!(rt;
        elf_file_is_copied(rt.alloc(), false),
        "without debug symbols"
    );
    let requests = &REQUESTS;
    for index in 0..requests.len() {
        let row = &requests[index];
        assert!(rt; are_requests(rt.alloc(), &row.0, row.1), "request {index}");
    }
}
