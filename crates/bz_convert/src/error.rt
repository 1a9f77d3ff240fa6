//! Why a Breakpad file isn't converted.

ghost use Rattle.std.specs.Prelude.{◌≡◌};
ghost use Rattle.bz_convert.specs.ErrorNames.{name_of};
ghost use Rattle.bz_convert.specs.declared.error.ConvertError.TheVariants.{OutOfMemory};

use std::alloc::{AllocError, AllocFailed};
use thiserror::Error;

/// A refusal of a conversion. Addresses are relative to the module's base.
#[derive(Clone, Copy, Debug, PartialEq, Eq, Drop, Error)]
pub enum ConvertError {
    /// A function has size 0.
    #[error("the function at {addr:#x} has size 0")]
    ZeroSize {
        /// Where the function starts.
        addr: u64,
    },
    /// Two functions have one start.
    #[error("two functions start at {addr:#x}")]
    EqualStarts {
        /// Where they start.
        addr: u64,
    },
    /// No line record answers at an address above one that has a line.
    #[error("the function at {func:#x} has no line at {addr:#x}")]
    LineGap {
        /// Where the function starts.
        func: u64,
        /// The least such address of the function.
        addr: u64,
    },
    /// An inlined call of some size doesn't lie wholly inside its function, if its depth is 0. A deeper
    /// one doesn't lie wholly inside a call of the depth before.
    #[error("the function at {func:#x} has a call of depth {depth} at {addr:#x} that isn't nested")]
    NotNested {
        /// Where the function starts.
        func: u64,
        /// The depth of the call.
        depth: u32,
        /// Where the call's code starts.
        addr: u64,
    },
    /// An inlined call starts where another of its depth does, or inside one.
    #[error("the function at {func:#x} has calls of depth {depth} that overlap at {addr:#x}")]
    Overlap {
        /// Where the function starts.
        func: u64,
        /// The depth of the call.
        depth: u32,
        /// Where the call's code starts.
        addr: u64,
    },
    /// No FILE record has an id that is asked for, or its name has no component.
    #[error("the function at {func:#x} asks for a file of id {id}, which isn't known")]
    NoFile {
        /// Where the function starts.
        func: u64,
        /// The id.
        id: u32,
    },
    /// No INLINE_ORIGIN record has an id that is asked for.
    #[error("the function at {func:#x} asks for an origin of id {id}, which isn't known")]
    NoOrigin {
        /// Where the function starts.
        func: u64,
        /// The id.
        id: u32,
    },
    /// A text that would be laid out holds a zero byte, which ends texts in a GSYM file.
    #[error("a text of the function at {func:#x} holds a zero byte")]
    ZeroByte {
        /// Where the function starts.
        func: u64,
    },
    /// The GSYM file would have more bytes than 32 bits count.
    #[error("the converted file would have {bytes} bytes, which is too many")]
    TooLarge {
        /// How many bytes it would have.
        bytes: u64,
    },
    /// Memory ran out, or 32 bits don't count the texts or source files, or 64 bits the bytes.
    #[error("memory ran out")]
    OutOfMemory,
}

impl ConvertError {
    /// The name of this refusal: that of its variant.
    pub fn name(&self) -> &'static str
        ensures { result.now ≡ name_of self.now }
    {
        match self {
            ConvertError::ZeroSize { .. } => "ZeroSize",
            ConvertError::EqualStarts { .. } => "EqualStarts",
            ConvertError::LineGap { .. } => "LineGap",
            ConvertError::NotNested { .. } => "NotNested",
            ConvertError::Overlap { .. } => "Overlap",
            ConvertError::NoFile { .. } => "NoFile",
            ConvertError::NoOrigin { .. } => "NoOrigin",
            ConvertError::ZeroByte { .. } => "ZeroByte",
            ConvertError::TooLarge { .. } => "TooLarge",
            ConvertError::OutOfMemory => "OutOfMemory",
        }
    }
}

impl From<AllocError> for ConvertError {
    ghost from_gives = { λ _ e. e ≡ OutOfMemory };

    fn from(_error: AllocError) -> ConvertError {
        ConvertError::OutOfMemory
    }
}

impl<T: Drop> From<AllocFailed<T>> for ConvertError {
    ghost from_gives = { λ _ e. e ≡ OutOfMemory };

    fn from(_failed: AllocFailed<T>) -> ConvertError {
        ConvertError::OutOfMemory
    }
}
