//! By what inlined calls are searched: depth, start and size.

ghost use Rattle.std.specs.Prelude.{◌+◌, ◌*◌};

use crate::types::CallRange;
use bz_base::{Nested, Spanned};

impl Spanned for CallRange {
    ghost start = { λ c. c.high * 4294967296 + c.low };

    ghost size = { λ c. c.size };

    fn start(&self) -> u64 {
        u64::from(self.high) * 4_294_967_296 + u64::from(self.low)
    }

    fn size(&self) -> u64 {
        u64::from(self.size)
    }
}

impl Nested for CallRange {
    ghost depth = { λ c. c.depth };

    fn depth(&self) -> u32 {
        self.depth
    }
}
