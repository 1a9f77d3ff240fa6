//! By what functions' keys are searched: start and size.

use crate::types::FunctionKey;
use bz_base::Spanned;

impl Spanned for FunctionKey {
    ghost start = { λ k. k.start };

    ghost size = { λ k. k.size };

    fn start(&self) -> u64 {
        self.start
    }

    fn size(&self) -> u64 {
        u64::from(self.size)
    }
}
