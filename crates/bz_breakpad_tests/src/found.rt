//! Which records are found for addresses, and what is answered by them.

ghost use Rattle.std.specs.Prelude.{◌≡◌, ◌<◌, length, Some};
ghost use Rattle.bz_breakpad.specs.Found.{AreRecordsFor};
ghost use Rattle.bz_breakpad.specs.Reader.{table_in};
ghost use Rattle.bz_breakpad.specs.Table.{Table};

use crate::answered::are_answers;
use crate::fact::Answer;
use crate::named::are_listed;
use bz_base::{FindSymOpts, Steps, Symbolized};
use bz_breakpad::{FoundRecord, SymbolFile};
use std::alloc::Global;
use std::sync::ledger::Ledger;

/// Whether these records are found for the addresses, and this is answered there in a batch, by the
/// records, and by each of them.
pub(crate) fn has_batch<L: Ledger>(
    alloc: Global,
    file: &SymbolFile,
    addrs: &[u64],
    opts: &FindSymOpts,
    records: &[FoundRecord],
    expected: &[Answer],
    steps: &mut Steps<L>,
) -> bool {
    match file.find_records(alloc, addrs, steps) {
        Ok(found) => {
            are_records(&found, records)
                && has_answers(alloc, file, addrs, &found, opts, expected, steps)
        }
        Err(_) => false,
    }
}

/// Whether this is answered in a batch, and the records have the same answers together and one by one.
fn has_answers<L: Ledger>(
    alloc: Global,
    file: &SymbolFile,
    addrs: &[u64],
    found: &[FoundRecord],
    opts: &FindSymOpts,
    expected: &[Answer],
    steps: &mut Steps<L>,
) -> bool
    requires records { (table : Table) → table_in file.now ≡ Some table → AreRecordsFor table addrs.now found.now }
    requires count { length found.now ≡ length addrs.now }
{
    match file.answer_batch(alloc, addrs, opts, steps) {
        Ok(answers) => {
            are_answers(&answers, expected)
                && are_listed(file.answers_by(alloc, addrs, found, opts), &answers)
                && are_answered_singly(alloc, file, addrs, found, opts, &answers)
        }
        Err(_) => false,
    }
}

fn are_records(found: &[FoundRecord], expected: &[FoundRecord]) -> bool {
    if found.len() != expected.len() {
        return false;
    }
    for index in 0..found.len() {
        let same = match (found[index], expected[index]) {
            (FoundRecord::Function(found), FoundRecord::Function(expected)) => found == expected,
            (FoundRecord::Public(found), FoundRecord::Public(expected)) => found == expected,
            (FoundRecord::Absent, FoundRecord::Absent) => true,
            _ => false,
        };
        if !same {
            return false;
        }
    }
    true
}

/// Whether the records have these answers one by one.
fn are_answered_singly(
    alloc: Global,
    file: &SymbolFile,
    addrs: &[u64],
    found: &[FoundRecord],
    opts: &FindSymOpts,
    expected: &[Symbolized<'_>],
) -> bool
    requires records { (table : Table) → table_in file.now ≡ Some table → AreRecordsFor table addrs.now found.now }
    requires count { length found.now ≡ length addrs.now }
{
    if expected.len() != addrs.len() {
        return false;
    }
    for index in 0..addrs.len() {
        if !is_answered_at(alloc, file, addrs, found, index, opts, &expected[index]) {
            return false;
        }
    }
    true
}

/// Whether the record of an index has this answer.
fn is_answered_at(
    alloc: Global,
    file: &SymbolFile,
    addrs: &[u64],
    found: &[FoundRecord],
    index: usize,
    opts: &FindSymOpts,
    expected: &Symbolized<'_>,
) -> bool
    requires records { (table : Table) → table_in file.now ≡ Some table → AreRecordsFor table addrs.now found.now }
    requires count { length found.now ≡ length addrs.now }
    requires within { index < length addrs.now }
{
    match file.answer_by(alloc, addrs[index], found[index], opts) {
        Ok(answer) => answer == *expected,
        Err(_) => false,
    }
}
