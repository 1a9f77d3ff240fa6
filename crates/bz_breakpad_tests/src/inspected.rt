//! Functions of one name, and walks that end at a name.

use crate::fact::Fact::Walk;
use crate::fact::Row;
use bz_base::SymType;
use bz_breakpad::SymInfo;

/// Functions out of order, three of them of one name.
pub(crate) const TWINS: &[u8] =
    b"FUNC 2000 10 0 twin\nFUNC 1000 20 0 twin\nFUNC 1000 10 0 other\nFUNC 1000 10 0 twin\nPUBLIC 900 0 twin\nFUNC 3000 5 0 last\n";

const OTHER: SymInfo<'static> = SymInfo {
    name: "other",
    addr: 0x1000,
    size: Some(0x10),
    sym_type: SymType::Function,
    file_offset: None,
    module: None,
};

pub(crate) const SHORT_TWIN: SymInfo<'static> = SymInfo {
    name: "twin",
    addr: 0x1000,
    size: Some(0x10),
    sym_type: SymType::Function,
    file_offset: None,
    module: None,
};

pub(crate) const LONG_TWIN: SymInfo<'static> = SymInfo {
    name: "twin",
    addr: 0x1000,
    size: Some(0x20),
    sym_type: SymType::Function,
    file_offset: None,
    module: None,
};

pub(crate) const LATE_TWIN: SymInfo<'static> = SymInfo {
    name: "twin",
    addr: 0x2000,
    size: Some(0x10),
    sym_type: SymType::Function,
    file_offset: None,
    module: None,
};

const LAST: SymInfo<'static> = SymInfo {
    name: "last",
    addr: 0x3000,
    size: Some(5),
    sym_type: SymType::Function,
    file_offset: None,
    module: None,
};

/// Walks in the order of start, size and place in the file.
pub(crate) const WALKS: &[Row] = &[(
    TWINS,
    &[
        Walk("twin", &[OTHER, SHORT_TWIN]),
        Walk("none", &[OTHER, SHORT_TWIN, LONG_TWIN, LATE_TWIN, LAST]),
    ],
)];
