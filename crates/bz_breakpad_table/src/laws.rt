//! What holds of this crate's definitions.

ghost use Rattle.bz_breakpad_table.specs.Refusals.{AreFound};

/// What is found of the bytes, line by line, is why they are refused, and nothing else is.
pub fn refusals_are_found()
    ensures { AreFound }
{}
