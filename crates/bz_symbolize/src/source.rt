//! What a symbolizer reads symbols from.

ghost use Rattle.std.specs.Prelude.{◌≡◌, true, is_some};
ghost use Rattle.bz_symbolize.specs.Sources.{form_of, process_query, query_in};
ghost use Rattle.bz_symbolize.specs.declared.source.Gsym.TheVariants as gsyms;
ghost use Rattle.bz_symbolize.specs.declared.source.Source.TheVariants as sources;

use bz_base::Pid;
use bz_process::ProcessQuery;
use std::fmt;

/// A Breakpad file. It takes file offsets: addresses relative to the module's base, as the file's
/// records have them.
#[derive(Drop)]
pub struct Breakpad {
    /// The path of the file.
    pub path: String,
}

impl Breakpad {
    /// The Breakpad file at a path.
    pub fn new(path: String) -> Breakpad
        ensures { result.path ≡ path }
    {
        Breakpad { path }
    }
}

impl fmt::Debug for Breakpad {
    fn fmt<W: fmt::Write>(&self, f: &mut fmt::Formatter<W>) -> fmt::Result {
        let path = &self.path;
        write!(f, "Breakpad({path:?})")
    }
}

/// GSYM bytes that are handed in. They take virtual offsets: addresses as their tables have them.
#[derive(Drop)]
pub struct GsymData<'d> {
    /// The bytes.
    pub bytes: &'d [u8],
}

impl<'d> GsymData<'d> {
    /// GSYM bytes.
    pub fn new(bytes: &'d [u8]) -> GsymData<'d>
        ensures { result.bytes ≡ bytes.entry }
    {
        GsymData { bytes }
    }
}

impl fmt::Debug for GsymData<'_> {
    fn fmt<W: fmt::Write>(&self, f: &mut fmt::Formatter<W>) -> fmt::Result {
        let shown = &self.bytes[..self.bytes.len().min(32)];
        write!(f, "GsymData({shown:?})")
    }
}

/// A GSYM file. It takes virtual offsets: addresses as its tables have them.
#[derive(Drop)]
pub struct GsymFile {
    /// The path of the file.
    pub path: String,
}

impl GsymFile {
    /// The GSYM file at a path.
    pub fn new(path: String) -> GsymFile
        ensures { result.path ≡ path }
    {
        GsymFile { path }
    }
}

impl fmt::Debug for GsymFile {
    fn fmt<W: fmt::Write>(&self, f: &mut fmt::Formatter<W>) -> fmt::Result {
        let path = &self.path;
        write!(f, "GsymFile({path:?})")
    }
}

/// An ELF file. It takes virtual offsets: addresses as its symbol table has them; and file offsets,
/// which go through its load segments.
#[derive(Drop)]
pub struct Elf {
    /// The path of the file. It is the module of the answers.
    pub path: String,
    /// Whether debug symbols are looked for. It has no effect: none are.
    pub debug_syms: bool,
}

impl Elf {
    /// The ELF file at a path.
    pub fn new(path: String) -> Elf
        ensures path { result.path ≡ path }
        ensures debug_syms { result.debug_syms ≡ true }
    {
        Elf {
            path,
            debug_syms: true,
        }
    }
}

impl fmt::Debug for Elf {
    fn fmt<W: fmt::Write>(&self, f: &mut fmt::Formatter<W>) -> fmt::Result {
        let path = &self.path;
        write!(f, "Elf({path:?})")
    }
}

/// A process. It takes absolute addresses: those of its memory. What it has mapped there answers. An
/// address outside all mappings is `Unmapped`. Where a dispatcher gives no resolver, one of `[vdso]`,
/// `[stack]` and the like is `Unsupported`. One of a mapping without a name is `UnknownAddr` where no
/// perf map knows it.
#[derive(Drop)]
pub struct Process {
    /// The process.
    pub pid: Pid,
    /// Whether debug symbols are looked for. It has no effect: none are.
    pub debug_syms: bool,
    /// Whether its perf map answers for addresses of mappings without a name.
    pub perf_map: bool,
    /// Whether mapped files are looked at by the paths that stand for their mappings. Only a privileged
    /// caller may read these, but at a file's own path another file may lie by now.
    pub map_files: bool,
    /// Whether the symbols of the vDSO are looked for. It has no effect: none are.
    pub vdso: bool,
}

impl Process {
    /// The process, with all that it may be asked for.
    pub fn new(pid: Pid) -> Process
        ensures { result ≡ record { pid = pid; debug_syms = true; perf_map = true; map_files = true; vdso = true } }
    {
        Process {
            pid,
            debug_syms: true,
            perf_map: true,
            map_files: true,
            vdso: true,
        }
    }

    // How it is asked.
    fn query(&self) -> ProcessQuery
        ensures { result ≡ process_query self.now }
    {
        ProcessQuery {
            pid: self.pid,
            perf_map: self.perf_map,
            map_files: self.map_files,
        }
    }
}

impl fmt::Debug for Process {
    fn fmt<W: fmt::Write>(&self, f: &mut fmt::Formatter<W>) -> fmt::Result {
        let pid = &self.pid;
        write!(f, "Process({pid})")
    }
}

/// GSYM, handed in or in a file.
#[derive(Drop)]
pub enum Gsym<'d> {
    /// Bytes.
    Data(GsymData<'d>),
    /// A file.
    File(GsymFile),
}

impl fmt::Debug for Gsym<'_> {
    fn fmt<W: fmt::Write>(&self, f: &mut fmt::Formatter<W>) -> fmt::Result {
        match self {
            Gsym::Data(source) => fmt::Debug::fmt(source, f),
            Gsym::File(source) => fmt::Debug::fmt(source, f),
        }
    }
}

/// Any source of symbols.
#[derive(Drop)]
pub enum Source<'d> {
    /// A Breakpad file.
    Breakpad(Breakpad),
    /// GSYM, handed in or in a file.
    Gsym(Gsym<'d>),
    /// An ELF file.
    Elf(Elf),
    /// A process.
    Process(Process),
}

impl Source<'_> {
    /// Whether it is a process, of which no version answers.
    pub fn is_process(&self) -> bool
        ensures { result ≡ is_some (query_in (form_of self.now)) }
    {
        self.query().is_some()
    }

    /// How a process is asked, where the source is one.
    pub(crate) fn query(&self) -> Option<ProcessQuery>
        ensures { result ≡ query_in (form_of self.now) }
    {
        match self {
            Source::Process(process) => Some(process.query()),
            Source::Breakpad(_) | Source::Gsym(_) | Source::Elf(_) => None,
        }
    }
}

impl fmt::Debug for Source<'_> {
    fn fmt<W: fmt::Write>(&self, f: &mut fmt::Formatter<W>) -> fmt::Result {
        match self {
            Source::Breakpad(source) => fmt::Debug::fmt(source, f),
            Source::Gsym(source) => fmt::Debug::fmt(source, f),
            Source::Elf(source) => fmt::Debug::fmt(source, f),
            Source::Process(source) => fmt::Debug::fmt(source, f),
        }
    }
}

impl<'d> From<Breakpad> for Source<'d> {
    ghost from_gives = { λ source given. given ≡ sources.Breakpad source };

    fn from(source: Breakpad) -> Source<'d> {
        Source::Breakpad(source)
    }
}

impl<'d> From<Elf> for Source<'d> {
    ghost from_gives = { λ source given. given ≡ sources.Elf source };

    fn from(source: Elf) -> Source<'d> {
        Source::Elf(source)
    }
}

impl<'d> From<Process> for Source<'d> {
    ghost from_gives = { λ source given. given ≡ sources.Process source };

    fn from(source: Process) -> Source<'d> {
        Source::Process(source)
    }
}

impl<'d> From<Gsym<'d>> for Source<'d> {
    ghost from_gives = { λ source given. given ≡ sources.Gsym source };

    fn from(source: Gsym<'d>) -> Source<'d> {
        Source::Gsym(source)
    }
}

impl<'d> From<GsymData<'d>> for Source<'d> {
    ghost from_gives = { λ source given. given ≡ sources.Gsym (gsyms.Data source) };

    fn from(source: GsymData<'d>) -> Source<'d> {
        Source::Gsym(Gsym::Data(source))
    }
}

impl<'d> From<GsymFile> for Source<'d> {
    ghost from_gives = { λ source given. given ≡ sources.Gsym (gsyms.File source) };

    fn from(source: GsymFile) -> Source<'d> {
        Source::Gsym(Gsym::File(source))
    }
}
