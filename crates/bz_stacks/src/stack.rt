//! A stack of a profile.

ghost use Rattle.std.specs.Prelude.{◌≡◌};

use std::marker::Model;

/// A stack's addresses, the outermost first, and its count.
#[derive(Drop)]
pub struct Stack {
    addrs: Vec<u64>,
    count: u32,
}

impl Model for Stack {
    ghost use Rattle.bz_stacks.specs.Stack.{CountedStack, coded_counted_stack};

    ghost Value = { CountedStack };

    ghost coded = { coded_counted_stack };

    ghost view = { λ s. record { addrs = s.addrs.items; count = s.count } };
}

impl Stack {
    /// A stack of these addresses, the outermost first, which was seen so often.
    pub fn new(addrs: Vec<u64>, count: u32) -> Stack
        ensures { result ≡ record { addrs = addrs.items; count = count } }
    {
        Stack { addrs, count }
    }

    /// The addresses, the outermost first.
    pub fn addrs(&self) -> &[u64]
        ensures { result.now ≡ self.now.addrs }
    {
        self.addrs.as_slice()
    }

    /// How often the stack was seen.
    pub fn count(&self) -> u32
        ensures { result ≡ self.now.count }
    {
        self.count
    }
}
