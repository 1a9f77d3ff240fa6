//! What is told of an inlined call of a function.

/// A range of code where a call was inlined, of an INLINE record.
#[derive(Clone, Copy, Debug, PartialEq, Eq)]
pub struct Inlinee {
    /// How many inlined calls it lies inside.
    pub depth: u32,
    /// Where its code starts, relative to the module's base.
    pub addr: u64,
    /// The size of its code, in bytes.
    pub size: u32,
    /// The id of the call's file.
    pub call_file: u32,
    /// The line of the call.
    pub call_line: u32,
    /// The id of the name of what was called.
    pub origin_id: u32,
}
