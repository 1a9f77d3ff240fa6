//! The numbers that a file is written with, where the format leaves a choice.

/// The size of a start in the address table, in bytes.
pub(crate) const ADDR_OFF_SIZE: u8 = 8;

/// The size of the build id, in bytes: there is none.
pub(crate) const UUID_SIZE: u8 = 0;

/// The address that the starts of the address table count from.
pub(crate) const BASE_ADDRESS: u64 = 0;

/// The least line delta of a special operator, none of which is written.
pub(crate) const MIN_DELTA: u8 = 0;

/// The greatest line delta of a special operator.
pub(crate) const MAX_DELTA: u8 = 0;

/// The line before the first operator.
pub(crate) const FIRST_LINE: u8 = 0;

/// How many ranges each node of an inline tree has.
pub(crate) const ONE_RANGE: u8 = 1;

/// The flag of a node of an inline tree that has children.
pub(crate) const SOME_CHILDREN: u8 = 1;

/// The offset of the root of an inline tree, which starts where its function does.
pub(crate) const ROOT_OFFSET: u64 = 0;

/// The file that the root of an inline tree is called in: none.
pub(crate) const NO_FILE: u64 = 0;

/// The line that the root of an inline tree is called at: none.
pub(crate) const NO_LINE: u32 = 0;
