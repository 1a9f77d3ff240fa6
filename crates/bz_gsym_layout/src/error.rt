//! Why a plan isn't laid out.

ghost use Rattle.std.specs.Prelude.{◌≡◌};
ghost use Rattle.bz_gsym_layout.specs.declared.error.LayoutError.TheVariants.{OutOfMemory};

use std::alloc::{AllocError, AllocFailed};

/// Why a plan isn't laid out.
#[derive(Clone, Copy, Debug, PartialEq, Eq)]
pub enum LayoutError {
    /// The file would be longer than 32 bits count.
    TooLarge {
        /// How many bytes it would have.
        bytes: u64,
    },
    /// Memory ran out, or the file would have more bytes than 64 bits count.
    OutOfMemory,
}

/// The answer of a call that writes a part of a file.
pub(crate) type Result<T> = std::result::Result<T, LayoutError>;

impl From<AllocError> for LayoutError {
    ghost from_gives = { λ _ e. e ≡ OutOfMemory };

    fn from(_error: AllocError) -> LayoutError {
        LayoutError::OutOfMemory
    }
}

impl<T: Drop> From<AllocFailed<T>> for LayoutError {
    ghost from_gives = { λ _ e. e ≡ OutOfMemory };

    fn from(_failed: AllocFailed<T>) -> LayoutError {
        LayoutError::OutOfMemory
    }
}
