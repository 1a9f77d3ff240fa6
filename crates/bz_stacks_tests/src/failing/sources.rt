//! The sources that are asked, what their files are, and what they answer.

use crate::files::File;
use bz_base::Input::{AbsAddr, FileOffset, VirtOffset};
use bz_base::{Input, Reason, Result};
use bz_samples::{ELF_FUNCTION, GSYM_LINES, PERF_FUNCTION, PROCESS_FILES};
use bz_symbolize::Pid;
use bz_symbolize::source::{Breakpad, Elf, GsymFile, Process, Source};
use std::alloc::Global;

/// A kind of source.
pub(crate) enum Kind {
    Breakpad,
    Gsym,
    Elf,
    /// Process 7.
    Process,
}

/// What an address is told: the name of its symbol, or why it has none; and whether it has a site.
pub(crate) type Told = (&'static str, Option<Reason>, bool);

/// The kind of addresses, the addresses, and what they are told.
pub(crate) type Question = (Input<()>, &'static [u64], &'static [Told]);

/// A source, and what it is asked.
pub(crate) struct Asked {
    pub kind: Kind,
    /// The path of the file that it names.
    pub path: &'static str,
    /// Good files for it.
    pub files: &'static [File],
    /// What it is asked then.
    pub question: Question,
    /// How many files are read for that.
    pub reads: u64,
}

/// A Breakpad file of one function without a site.
pub(crate) const BREAKPAD: &Asked = &Asked {
    kind: Kind::Breakpad,
    path: "/s.sym",
    files: &[("/s.sym", b"FUNC 1000 20 0 one\n")],
    question: (FileOffset(()), &[0x1010], &[("one", None, false)]),
    reads: 1,
};

/// A GSYM file. The function that is asked has a site.
pub(crate) const GSYM: &Asked = &Asked {
    kind: Kind::Gsym,
    path: "/m.gsym",
    files: &[("/m.gsym", &GSYM_LINES)],
    question: (VirtOffset(()), &[0x1004], &[("main", None, true)]),
    reads: 1,
};

/// An ELF file of one function.
pub(crate) const ELF: &Asked = &Asked {
    kind: Kind::Elf,
    path: "/e",
    files: &[("/e", &ELF_FUNCTION)],
    question: (VirtOffset(()), &[0x400088], &[("f", None, false)]),
    reads: 1,
};

/// A process, of which the status and the perf map are read too.
pub(crate) const PROCESS: &Asked = &Asked {
    kind: Kind::Process,
    path: "/proc/7/maps",
    files: &[
        ("/proc/7/maps", b"3000-4000 rw-p 00000000 00:00 0\n"),
        ("/proc/7/status", b"Name:\tx\n"),
        ("/proc/7/root/tmp/perf-7.map", PERF_FUNCTION),
    ],
    question: (AbsAddr(()), &[0x3008], &[("jit", None, false)]),
    reads: 3,
};

/// A process whose mapped file isn't an ELF file. It is asked, in this order:
/// - outside the mappings;
/// - in a part of the system;
/// - in memory with a perf map;
/// - past the first mapping's end and before the next;
/// - in the mapped file.
pub(crate) const MAPPED: &Asked = &Asked {
    kind: Kind::Process,
    path: "/proc/7/maps",
    files: PROCESS_FILES,
    question: (
        AbsAddr(()),
        &[0x7000, 0x5000, 0x3008, 0x2800, 0x1004],
        &[
            ("", Some(Reason::Unmapped), false),
            ("", Some(Reason::Unsupported), false),
            ("jit", None, false),
            ("", Some(Reason::Unmapped), false),
            ("", Some(Reason::IgnoredError), false),
        ],
    ),
    reads: 4,
};

/// The source.
pub(crate) fn source(alloc: Global, asked: &Asked) -> Result<Source<'static>> {
    let path = String::from_str(alloc, asked.path)?;
    Ok(match asked.kind {
        Kind::Breakpad => Source::from(Breakpad::new(path)),
        Kind::Gsym => Source::from(GsymFile::new(path)),
        Kind::Elf => Source::from(Elf::new(path)),
        Kind::Process => Source::from(Process::new(Pid::from(7))),
    })
}
