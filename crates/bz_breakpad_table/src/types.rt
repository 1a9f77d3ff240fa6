//! What is kept of a Breakpad file: numbers, and places in its bytes.

ghost use Rattle.std.specs.Prelude.{◌≡◌, ◌≤◌, IsOk, IfOk};

use crate::names::Names;
use std::alloc::AllocError;

/// A part of the file's bytes or of a table: from one place up to another, which isn't in it.
/// Its places take four bytes each, since many parts are kept.
#[derive(Clone, Copy)]
pub struct Part {
    /// Where it begins.
    pub from: u32,
    /// Where it ends.
    pub to: u32,
}

impl Part {
    /// The part between two places. Want of memory: a place of 4 GiB or more can't be kept.
    #[inline(always)]
    pub fn new(from: usize, to: usize) -> Result<Part, AllocError>
        ensures from { IfOk result (λ part. part.from ≡ from) }
        ensures to { IfOk result (λ part. part.to ≡ to) }
        ensures succeeds { from ≤ 4294967295 → to ≤ 4294967295 → IsOk result }
    {
        if from > u32::MAX as usize || to > u32::MAX as usize {
            return Err(AllocError);
        }
        Ok(Part {
            from: from as u32,
            to: to as u32,
        })
    }
}

/// The line records of a function.
#[derive(Clone, Copy)]
pub enum LineRecords {
    /// They stand one after another in this part of the file's bytes, and each starts after the one
    /// before it.
    Run(Part),
    /// They begin at the places in this part of the table of places.
    Listed(Part),
}

/// A FUNC record.
#[derive(Clone, Copy)]
pub struct KeptFunction {
    /// Where the function starts, relative to the module's base.
    pub start: u64,
    /// Its size, in bytes.
    pub size: u32,
    /// The size of its parameters, in bytes.
    pub parameter_size: u32,
    /// Its name, in the file's bytes.
    pub name: Part,
    /// Its line records.
    pub lines: LineRecords,
    /// Its inlined calls, in the table of all of them.
    pub inlinees: Part,
}

/// By what a function is found, and where it stands.
#[derive(Clone, Copy)]
pub struct FunctionKey {
    /// Where the function starts, relative to the module's base.
    pub start: u64,
    /// Its size, in bytes.
    pub size: u32,
    /// Its index in the list of functions.
    pub index: u32,
}

/// By what a line record is put in order, and where it begins in the file's bytes. It is read once, and
/// not at each comparison.
#[derive(Clone, Copy)]
pub struct LineKey {
    /// Where its code starts, relative to the module's base.
    pub start: u64,
    /// The size of its code, in bytes.
    pub size: u32,
    /// Where it begins.
    pub place: usize,
}

/// A range of an INLINE record: by what its call is found, and where the record stands, which says the
/// rest. There are more of these than of anything else that is kept, so the start is cut in halves.
/// Whole it would take four bytes more, for its alignment.
#[derive(Clone, Copy)]
pub struct CallRange {
    /// The upper half of where its code starts, relative to the module's base.
    pub high: u32,
    /// The lower half.
    pub low: u32,
    /// The size of its code, in bytes.
    pub size: u32,
    /// How many inlined calls it lies inside.
    pub depth: u32,
    /// Where the record begins in the file's bytes.
    pub place: u32,
}

/// A PUBLIC record.
#[derive(Clone, Copy)]
pub struct KeptPublic {
    /// Where the symbol starts, relative to the module's base.
    pub start: u64,
    /// The size of its parameters, in bytes.
    pub parameter_size: u32,
    /// Its name, in the file's bytes.
    pub name: Part,
}

/// The FUNC records of a file, with what stands under them.
#[derive(Drop)]
pub struct FunctionTable {
    /// The functions, in the order of the file.
    pub functions: Vec<KeptFunction>,
    /// Their keys by start and size, once all are read.
    pub keys: Vec<FunctionKey>,
    /// The table of places: where listed line records begin in the file's bytes, those of each
    /// function by start and size.
    pub lines: Vec<usize>,
    /// The ranges of the INLINE records: those of each function by depth and start.
    pub inlinees: Vec<CallRange>,
}

/// The records of a file.
#[derive(Drop)]
pub struct KeptTable {
    /// The name in the MODULE record.
    pub module: Option<Part>,
    /// The FUNC records.
    pub code: FunctionTable,
    /// The names of files, by id.
    pub files: Names,
    /// The names of inlined functions, by id.
    pub origins: Names,
    /// The PUBLIC records, in the order of the file.
    pub publics: Vec<KeptPublic>,
}
