//! The table of a Breakpad file.

ghost use Rattle.std.specs.Prelude.{◌≡◌, ℕ, List, Some, IfOk, IfErr, IsOkUnless};
ghost use Rattle.bz_base.specs.declared.error.Error.{Error};
ghost use Rattle.bz_breakpad_lines.specs.Grammar.{Accepted};
ghost use Rattle.bz_breakpad_lines.specs.Reader.{counted_in, table_in};
ghost use Rattle.bz_breakpad_lines.specs.Table.{Table};
ghost use Rattle.bz_breakpad_table.specs.Kept.{IsNestedTable, TableFits, kept_table};
ghost use Rattle.bz_breakpad_table.specs.Refusal.{Refuses};
ghost use Rattle.bz_breakpad_table.specs.Sorted.{IsKept, StandsFor, starts_of};
ghost use Rattle.bz_breakpad_table.specs.Walked.{IsFinished};

use crate::publics::{PublicTable, public_table};
use crate::read::read;
use crate::sorting::sorted_keys;
use crate::types::KeptTable;
use crate::walk::Walk;
use bz_base::{Error, Result, Starts};
use std::alloc::Global;

/// What was read of a Breakpad file.
#[derive(Drop)]
pub struct FileRead {
    /// Its records.
    pub table: KeptTable,
    /// The starts of its functions, in the order of their keys.
    pub starts: Starts,
    /// The addresses of its PUBLIC records.
    pub publics: PublicTable,
    /// How many records it has.
    pub count: u64,
}

/// Reads a Breakpad file. InvalidInput: the bytes aren't one. OutOfMemory: memory ran out, or the file
/// has 4 GiB or more, and places that far can't be kept.
pub fn read_table(alloc: Global, bytes: &[u8]) -> Result<FileRead>
    ensures kept { IfOk result (λ read. IsKept bytes.now read.table read.starts read.publics) }
    ensures accepted { IfOk result (λ read. (table : Table) × (counted_in bytes.now ≡ Some (table, read.count)) × Accepted bytes.now table read.count) }
    ensures refusal { IfErr result (Refuses (table_in bytes.now)) }
{
    let walk = read(alloc, bytes)?;
    let count = walk.count as u64;
    let mut table = finished(walk)?;
    let starts = sorted(alloc, &mut table)?;
    let publics = public_table(alloc, &table.publics)?;
    Ok(FileRead {
        table,
        starts,
        publics,
        count,
    })
}

/// The records of a file that was read to its end.
fn finished(walk: Walk) -> Result<KeptTable>
    ensures ok { IfOk result (λ table. (bytes : List ℕ) → IsFinished bytes walk table) }
    ensures memory { IsOkUnless result Error.OutOfMemory }
{
    let mut kept = walk.kept;
    kept.functions.close()?;
    Ok(KeptTable {
        module: kept.module,
        code: kept.functions.into_table(),
        files: kept.files,
        origins: kept.origins,
        publics: kept.publics,
    })
}

/// Puts the keys of the functions in order, and gives their starts.
fn sorted(alloc: Global, kept: &mut KeptTable) -> Result<Starts>
    ensures ok { IfOk result (λ starts. ((bytes : List ℕ) (table : Table) → IsNestedTable table (kept_table bytes kept.old) → TableFits bytes kept.old → StandsFor bytes table kept.new)
        × (starts ≡ starts_of kept.new.code)) }
    ensures memory { IsOkUnless result Error.OutOfMemory }
{
    kept.code.keys = sorted_keys(alloc, &kept.code.functions)?;
    let starts = bz_base::starts_of(alloc, &kept.code.keys)?;
    Ok(starts)
}
