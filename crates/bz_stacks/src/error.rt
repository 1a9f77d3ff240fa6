//! Why an input gives no stacks.

use thiserror::Error;

/// Why an input gives no stacks.
#[derive(Clone, Copy, Debug, PartialEq, Eq, Drop, Error)]
pub enum StackError {
    /// The number of the first line that is no stack. All lines count, from 1.
    #[error("line {0} is no stack")]
    Line(u64),
    /// Memory ran out.
    #[error("memory ran out")]
    OutOfMemory,
}
