//! Why a call was refused.

ghost use Rattle.std.specs.Prelude.{◌≡◌, Some};
ghost use Rattle.bz_base.specs.ErrorNames.{kind_of, name_of};
ghost use Rattle.bz_base.specs.declared.error.Error.TheVariants.{OutOfMemory};

use std::alloc::{AllocError, AllocFailed};
use std::fmt;

/// The answer of a call that may be refused.
pub type Result<T> = std::result::Result<T, Error>;

/// The kinds of refusal.
#[derive(Clone, Copy, Debug, PartialEq, Eq)]
pub enum ErrorKind {
    /// The source doesn't take this kind of input or search; or an ELF file isn't of 64 bits and
    /// little-endian.
    Unsupported,
    /// A file that is needed is absent.
    NotFound,
    /// A file that is needed may not be read.
    PermissionDenied,
    /// A Breakpad file outside its format; or, of one address there, an id that names nothing, or
    /// an empty source name.
    InvalidInput,
    /// GSYM, ELF, mappings, a perf map or a status outside their formats.
    InvalidData,
    /// A process has no mappings.
    UnexpectedEof,
    /// There is a version already, where one was to be taken in.
    AlreadyExists,
    /// Looking at a file failed, and the count of faults rose.
    ReadFault,
    /// Memory ran out.
    OutOfMemory,
}

/// A refusal.
#[derive(Clone, Copy, Debug, PartialEq, Eq)]
pub enum Error {
    /// The source doesn't take this kind of input or search; or an ELF file isn't of 64 bits and
    /// little-endian.
    Unsupported,
    /// A file that is needed is absent.
    NotFound,
    /// A file that is needed may not be read.
    PermissionDenied,
    /// A Breakpad file outside its format; or, of one address there, an id that names nothing, or
    /// an empty source name.
    InvalidInput,
    /// GSYM, ELF, mappings, a perf map or a status outside their formats.
    InvalidData,
    /// A process has no mappings.
    UnexpectedEof,
    /// There is a version already, where one was to be taken in.
    AlreadyExists,
    /// Looking at a file failed, and the count of faults rose.
    ReadFault,
    /// Memory ran out.
    OutOfMemory,
}

impl Error {
    /// The kind of this refusal.
    pub fn kind(&self) -> ErrorKind
        ensures { result ≡ kind_of self.now }
    {
        match self {
            Error::Unsupported => ErrorKind::Unsupported,
            Error::NotFound => ErrorKind::NotFound,
            Error::PermissionDenied => ErrorKind::PermissionDenied,
            Error::InvalidInput => ErrorKind::InvalidInput,
            Error::InvalidData => ErrorKind::InvalidData,
            Error::UnexpectedEof => ErrorKind::UnexpectedEof,
            Error::AlreadyExists => ErrorKind::AlreadyExists,
            Error::ReadFault => ErrorKind::ReadFault,
            Error::OutOfMemory => ErrorKind::OutOfMemory,
        }
    }
}

/// Prints the name of the variant.
impl fmt::Display for Error {
    ghost output = { λ e. Some (name_of e) };

    fn fmt<W: fmt::Write>(&self, f: &mut fmt::Formatter<W>) -> fmt::Result {
        match self {
            Error::Unsupported => f.write_str("Unsupported"),
            Error::NotFound => f.write_str("NotFound"),
            Error::PermissionDenied => f.write_str("PermissionDenied"),
            Error::InvalidInput => f.write_str("InvalidInput"),
            Error::InvalidData => f.write_str("InvalidData"),
            Error::UnexpectedEof => f.write_str("UnexpectedEof"),
            Error::AlreadyExists => f.write_str("AlreadyExists"),
            Error::ReadFault => f.write_str("ReadFault"),
            Error::OutOfMemory => f.write_str("OutOfMemory"),
        }
    }
}

impl From<AllocError> for Error {
    ghost from_gives = { λ _ e. e ≡ OutOfMemory };

    fn from(_error: AllocError) -> Error {
        Error::OutOfMemory
    }
}

impl<T: Drop> From<AllocFailed<T>> for Error {
    ghost from_gives = { λ _ e. e ≡ OutOfMemory };

    fn from(_failed: AllocFailed<T>) -> Error {
        Error::OutOfMemory
    }
}
