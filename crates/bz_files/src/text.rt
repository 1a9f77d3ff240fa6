//! The ends of texts: what a program reads its input from and writes its output to.

ghost use Rattle.std.specs.Prelude.{ℕ, ◌<◌, ◌≤◌, List, Option, length, IfOk, IsErrOf};
ghost use Rattle.bz_files.specs.Count.{CountsFaults};
ghost use Rattle.bz_files.specs.TextEnd.{Takes, Puts};

/// Why an end of a text failed.
#[derive(Clone, Copy, PartialEq, Eq)]
pub enum IoFault {
    /// The end failed, and its count of faults rose.
    Fault,
    /// Memory ran out.
    OutOfMemory,
}

/// Where a text is read from.
pub trait TextIn {
    /// The bytes that are left; none where they aren't told.
    ghost left: { Self → Option (List ℕ) };

    /// How many calls ended in a `Fault`. It rises by one at each, unless it is at its last value,
    /// and at no other answer.
    ghost faults: { Self → ℕ };

    /// Moves the next bytes to the front of `piece`, and says how many. At a piece that isn't empty
    /// 0 is the end of the text.
    fn take(&mut self, piece: &mut [u8]) -> Result<usize, IoFault>
        ensures within { IfOk result (λ n. n ≤ length piece.old) }
        ensures takes { Takes (left self.old) (left self.new) piece.old piece.new result }
        ensures faults { CountsFaults (faults self.old) (faults self.new) (IsErrOf result IoFault.Fault) }
        ensures no_memory { IsErrOf result IoFault.OutOfMemory → ⊥ };
}

/// Where a text is written to.
pub trait TextOut {
    /// The bytes written so far; none where they aren't told.
    ghost written: { Self → Option (List ℕ) };

    /// How many calls ended in a `Fault`. It rises by one at each, unless it is at its last value,
    /// and at no other answer.
    ghost faults: { Self → ℕ };

    /// Writes bytes from the front of `piece`, at least one where there is one, and says how many.
    fn put(&mut self, piece: &[u8]) -> Result<usize, IoFault>
        ensures within { IfOk result (λ n. n ≤ length piece.now) }
        ensures positive { IfOk result (λ n. 0 < length piece.now → 0 < n) }
        ensures puts { Puts (written self.old) (written self.new) piece.now result }
        ensures faults { CountsFaults (faults self.old) (faults self.new) (IsErrOf result IoFault.Fault) };
}
