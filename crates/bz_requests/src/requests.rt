//! Requests to a symbolizer, and the settings that it is asked with.

ghost use Rattle.std.specs.Prelude.{◌≡◌};
ghost use Rattle.bz_base.specs.InputKind.{address_kind};
ghost use Rattle.bz_requests.specs.Requests.{target_of, usual_kind};

use bz_base::Input;

/// How a symbolizer is set, and how processes are asked.
#[derive(Clone, Copy, Debug, PartialEq, Eq)]
pub struct Config {
    /// Whether files are looked at anew at each call.
    pub reload: bool,
    /// Whether answers have sites in the source code.
    pub code_info: bool,
    /// Whether answers have inlined calls.
    pub inlined: bool,
    /// Whether the files that a process maps are read through the process.
    pub map_files: bool,
}

/// A source of symbols.
#[derive(Drop)]
pub enum Target {
    /// The Breakpad file at a path.
    Breakpad(String),
    /// The GSYM file at a path.
    Gsym(String),
    /// The ELF file at a path.
    Elf(String),
    /// The process with an id; 0 is the own one.
    Process(u32),
}

impl Target {
    /// What addresses of the target are relative to, unless something else is said.
    pub fn usual_kind(&self) -> Input<()>
        ensures { address_kind result ≡ usual_kind (target_of self.now) }
    {
        match self {
            Target::Breakpad(_) => Input::FileOffset(()),
            Target::Gsym(_) | Target::Elf(_) => Input::VirtOffset(()),
            Target::Process(_) => Input::AbsAddr(()),
        }
    }
}

/// A request to a symbolizer. Addresses are of the usual kind of their target.
#[derive(Drop)]
pub enum Request {
    /// The answers of a target to addresses.
    Batch(Target, Vec<u64>),
    /// The answer of a target to an address alone.
    Single(Target, u64),
    /// The ELF file at a path is to be kept.
    CacheElf(String),
    /// Mappings and perf map of the process with an id are to be kept; 0 is the own one.
    CacheProcess(u32),
    /// The ELF file at a path is to be forgotten.
    EvictElf(String),
    /// What is kept of the process with an id is to be forgotten; 0 is the own one.
    EvictProcess(u32),
}
