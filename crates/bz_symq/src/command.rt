//! What a run is asked for.

use bz_base::Input;
use bz_requests::Config;

/// A file that answers addresses, in words that are lent.
#[derive(Clone, Copy)]
pub enum FileTarget<'a> {
    /// The Breakpad file at a path.
    Breakpad(&'a str),
    /// The GSYM file at a path.
    Gsym(&'a str),
    /// The ELF file at a path.
    Elf(&'a str),
}

/// What answers addresses, in words that are lent.
#[derive(Clone, Copy)]
pub enum Target<'a> {
    /// A file.
    File(FileTarget<'a>),
    /// The process with an id; 0 stands for the own one.
    Process(u32),
}

/// One batch of the addresses on the input: what answers them, what they are relative to, and how it
/// is asked.
#[derive(Clone, Copy)]
pub struct Batch<'a> {
    /// What answers the addresses.
    pub target: Target<'a>,
    /// What the addresses are relative to: a target refuses kinds that it doesn't take.
    pub kind: Input<()>,
    /// The settings of the symbolizer, and how a process is asked.
    pub config: Config,
}

/// A batch that a file is asked, in words that are lent.
#[derive(Drop)]
pub(crate) struct FileBatch<'a> {
    /// The file that answers the addresses.
    pub(crate) file: FileTarget<'a>,
    /// What the addresses are relative to.
    pub(crate) kind: Input<()>,
    /// The settings of the symbolizer.
    pub(crate) config: Config,
}

/// A batch that a process is asked.
#[derive(Drop)]
pub(crate) struct ProcessBatch {
    /// The id of the process; 0 stands for the own one.
    pub(crate) number: u32,
    /// What the addresses are relative to.
    pub(crate) kind: Input<()>,
    /// The settings of the symbolizer, and how the process is asked.
    pub(crate) config: Config,
}

/// What is made of one file, in words that are lent.
#[derive(Drop)]
pub enum Product<'a> {
    /// The GSYM bytes of the Breakpad file at a path.
    Converted(&'a str),
    /// The canonical text of the Breakpad file at a path.
    Canonical(&'a str),
}

/// What a run is asked for.
#[derive(Drop)]
pub enum Command<'a> {
    /// The answers to the addresses of the input.
    Batch(Batch<'a>),
    /// A product; the input isn't read.
    Make(Product<'a>),
}
