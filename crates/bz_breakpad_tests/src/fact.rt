//! What tables tell of Breakpad files.

use bz_base::{FindSymOpts, Reason};
use bz_breakpad::{FoundRecord, Inlinee, PublicSymbol, SourceLine, SymInfo};

/// A text, and what its file shows.
pub(crate) type Row = (&'static [u8], &'static [Fact]);

/// Stands where there is no name.
pub(crate) const ABSENT: &str = "-";

/// Ids with their names, in order.
pub(crate) type Names = &'static [(u32, &'static str)];

/// What a file shows.
pub(crate) enum Fact {
    /// How many records it has.
    Records(u64),
    /// How many functions it has, how many ids its FILE records have, and how many PUBLIC records it
    /// has.
    Counts(usize, usize, usize),
    /// The name in its MODULE record.
    Module(&'static str),
    /// The name of the file of an id, and that of its inlined function.
    Name(u32, &'static str, &'static str),
    /// The names of its FILE records, and those of its INLINE_ORIGIN records.
    Names(Names, Names),
    /// The PUBLIC record of an index.
    Public(usize, PublicSymbol<'static>),
    /// Its PUBLIC records, in the order of their addresses.
    Publics(&'static [PublicSymbol<'static>]),
    /// The functions that a walk in their order meets which ends at a name.
    Walk(&'static str, &'static [SymInfo<'static>]),
    /// The names of its functions, in the order of start and size.
    Functions(&'static [&'static str]),
    /// The names of its functions, in the order of the file.
    InFile(&'static [&'static str]),
    /// What the function shows that answers for the address.
    Function(u64, Told),
    /// The answer at an address, as far as is asked.
    Answer(u64, FindSymOpts, Answer),
    /// The records for addresses, and the answers there, as far as is asked.
    Batch(&'static [u64], FindSymOpts, &'static [FoundRecord], &'static [Answer]),
}

/// What a function shows.
pub(crate) enum Told {
    /// There is no such function.
    Nothing,
    /// Its name, its start, its size and the size of its parameters.
    Parts(&'static str, u64, u32, u32),
    /// The line of the record that answers for an address.
    Line(u64, Option<u32>),
    /// The line record that answers for an address.
    LineRecord(u64, Option<SourceLine>),
    /// The lines of its line records, in the order of start and size.
    Lines(&'static [u32]),
    /// Its line records one after another, in the order of start and size: address, size, line, file.
    OneByOne(&'static [(u64, u32, u32, u32)]),
    /// The inlined call of a depth around an address.
    CallAtDepth(u32, u64, Option<Inlinee>),
    /// The inlined calls around an address.
    CallsAround(u64, &'static [Inlinee]),
    /// Its inlined calls, in the order of depth and start.
    Calls(&'static [Inlinee]),
}

/// The name of a function, and the directory, the file and the line of a site in it. Where no site
/// is known, the file is empty.
pub(crate) type Call = (&'static str, &'static str, &'static str, u32);

/// What is answered at an address.
pub(crate) enum Answer {
    /// The symbol's name, start, offset, size and module, which is empty where there is none, and
    /// whether it is a PUBLIC record.
    Symbol(&'static str, u64, usize, Option<usize>, &'static str, bool),
    /// The symbol's name and site, and the inlined calls.
    Located(Call, &'static [Call]),
    /// Why there is no symbol.
    Unknown(Reason),
}
