//! What a cached file is.

ghost use Rattle.std.specs.Prelude.{◌≡◌, ℕ, List, Option, Some, None, IfOk, IfErr};
ghost use Rattle.bz_base.specs.Refusals.{IsFormatRefusal};
ghost use Rattle.bz_base.specs.declared.error.Error.{Error};
ghost use Rattle.bz_cache.specs.Format.{IsRefusalBy};

use bz_base::Result;
use std::alloc::Global;

/// A file that was parsed whole. It depends on its bytes alone.
pub trait Version: Sized {
    /// The bytes that it was parsed from.
    ghost bytes_of: { Self → List ℕ };

    /// Which refusal the bytes give; none where they are in the format.
    ghost test: { List ℕ → Option Error };

    /// Parses the bytes of a file.
    fn parse(alloc: Global, bytes: Vec<u8>) -> Result<Self>
        ensures ok { IfOk result (λ version. bytes_of version ≡ bytes.items) }
        ensures formed { IfOk result (λ version. test bytes.items ≡ None) }
        ensures refusal { IfErr result (IsRefusalBy (test bytes.items)) };

    /// Shows that the bytes are in the format, and does nothing.
    fn formed(&self)
        ensures { test (bytes_of self.now) ≡ None };

    /// A format refuses bytes by these refusals alone.
    ghost refusals: { (bytes : List ℕ) (e : Error) → test bytes ≡ Some e → IsFormatRefusal e };
}
