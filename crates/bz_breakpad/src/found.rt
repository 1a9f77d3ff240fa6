//! Which record of a file answers for an address.

ghost use Rattle.std.specs.Prelude.{◌≡◌};
ghost use Rattle.bz_breakpad.specs.Found.{is_public};

use bz_base::Addr;
use bz_breakpad_function::Cuts;

/// Which record of a Breakpad file answers for an address.
#[derive(Clone, Copy)]
pub enum FoundRecord {
    /// The function of an index, in the order of the file.
    Function(u32),
    /// The PUBLIC record of an index, in the order of the file.
    Public(u32),
    /// No record answers.
    Absent,
}

impl FoundRecord {
    /// Whether it is a PUBLIC record.
    pub(crate) fn is_public(self) -> bool
        ensures { result ≡ is_public self }
    {
        match self {
            FoundRecord::Public(_) => true,
            FoundRecord::Function(_) | FoundRecord::Absent => false,
        }
    }
}

/// An address, the record that was found for it, and hints for `location_at` there.
#[derive(Drop)]
pub(crate) struct FoundAddr {
    pub addr: Addr,
    pub found: FoundRecord,
    pub hints: Cuts,
}
