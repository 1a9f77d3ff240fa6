//! What the walk over an inline tree holds of a node.

use crate::types::InlineFrame;

/// How siblings are taken.
#[derive(Clone, Copy)]
pub(crate) enum Level {
    /// They and all below them are passed over.
    PassedOver,
    /// They are read, and their offsets count from this address.
    Read(u64),
}

/// What a node gives.
#[derive(Clone, Copy)]
pub(crate) struct Visit {
    /// Its frame, if it has one.
    pub frame: Option<InlineFrame>,
    /// How its children are taken, if it has some.
    pub inside: Option<Level>,
}

/// What stands in a node after its ranges.
#[derive(Clone, Copy)]
pub(crate) struct Tail {
    /// Whether children follow.
    pub has_children: bool,
    /// The place of its name in the string table.
    pub name: u32,
    /// The index of the file that the call stands in.
    pub call_file: u64,
    /// The line of the call.
    pub call_line: u64,
}

/// What the ranges of a node say of an address.
#[derive(Clone, Copy)]
pub(crate) struct Span {
    /// Whether the address lies in one of them.
    pub covers: bool,
    /// The address that the first one starts at.
    pub start: u64,
}
