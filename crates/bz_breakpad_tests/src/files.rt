//! A text of a Breakpad file that several tables tell of.

/// Two functions of one start.
pub(crate) const OVERLAPPING: &[u8] = b"FUNC 1 2 3 x\nFUNC 1 3 3 y\n";
