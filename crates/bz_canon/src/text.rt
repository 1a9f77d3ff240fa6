//! The canonical text of a file.

ghost use Rattle.std.specs.Prelude.{◌≡◌, ◌<◌, ◌++◌, Some, map, option_map, IfOk, IfSome, OnOk, IsOkUnless};
ghost use Rattle.bz_base.specs.declared.error.Error.{Error};
ghost use Rattle.bz_breakpad.specs.InOrder.{lines_in_order};
ghost use Rattle.bz_breakpad.specs.Lent.{inlinee_seen};
ghost use Rattle.bz_breakpad.specs.Listed.{lent_public};
ghost use Rattle.bz_breakpad_lines.specs.Contexts.Record.{OfFunc};
ghost use Rattle.bz_breakpad_lines.specs.Printed.{function_records, inlinee_one, line_one, public_record, table_records};
ghost use Rattle.bz_breakpad_lines.specs.Reader.{table_in};
ghost use Rattle.bz_breakpad_lines.specs.Table.{Table};
ghost use Rattle.bz_breakpad_lines.specs.Told.{line_seen};
ghost use Rattle.bz_breakpad_lines.specs.Written.{records_text};
ghost use Rattle.bz_canon.specs.Canon.{canon, canon_function, canonical_text};
ghost use Rattle.bz_canon.specs.Parts.{canon_functions, functions_text, lines_of, named_lines};

use crate::canonical_run::is_canonical_run;
use crate::record::{push_func, push_inlinee, push_line, push_module, push_named, push_public};
use bz_base::{Result, Steps};
use bz_breakpad::{Function, Inlinee, PublicSymbol, SourceLine, SymbolFile};
use std::alloc::Global;
use std::marker::Brand;
use std::sync::ledger::{Blank, Ledger};

/// Of so many functions the line records are touched together, before the first of them is written.
const TOGETHER: usize = 32;

/// The canonical text of a file: a Breakpad file that answers alike at every address. Files have the
/// same one exactly where the canonical forms of their tables are equal. OutOfMemory: memory ran out.
pub fn canonical(alloc: Global, file: &SymbolFile) -> Result<Vec<u8>>
    ensures text { IfOk result (λ text. option_map canonical_text (table_in file.now) ≡ Some text.items) }
    ensures memory { IsOkUnless result Error.OutOfMemory }
{
    let mut text = Vec::new(alloc);
    push_records(alloc, &mut text, file)?;
    if text.is_empty() {
        text.extend_from_slice(b"INFO -\n")?;
    }
    Ok(text)
}

/// The records of a file, in the order of the canonical text.
fn push_records(alloc: Global, text: &mut Vec<u8>, file: &SymbolFile) -> Result<()>
    ensures ok { OnOk result (option_map (λ table. text.old.items ++ records_text (table_records (canon table))) (table_in file.now) ≡ Some (text.new.items)) }
    ensures memory { IsOkUnless result Error.OutOfMemory }
{
    push_module(text, file.module())?;
    let files = file.files(alloc)?;
    push_names(text, "FILE", &files)?;
    let origins = file.origins(alloc)?;
    push_names(text, "INLINE_ORIGIN", &origins)?;
    let publics = file.publics(alloc)?;
    push_publics(text, &publics)?;
    push_functions(alloc, text, file)?;
    Ok(())
}

/// A record of the tag for each id and its name.
fn push_names(text: &mut Vec<u8>, tag: &str, names: &[(u32, &str)]) -> Result<()>
    ensures ok { OnOk result (text.new.items ≡ text.old.items ++ named_lines tag.now (map (λ name. (name.0, name.1.now)) names.now)) }
    ensures memory { IsOkUnless result Error.OutOfMemory }
{
    for name in names {
        push_named(text, tag, name.0, name.1)?;
    }
    Ok(())
}

/// PUBLIC records.
fn push_publics(text: &mut Vec<u8>, publics: &[PublicSymbol<'_>]) -> Result<()>
    ensures ok { OnOk result (text.new.items ≡ text.old.items ++ lines_of public_record (map lent_public publics.now)) }
    ensures memory { IsOkUnless result Error.OutOfMemory }
{
    for public in publics {
        push_public(text, public)?;
    }
    Ok(())
}

/// The functions of a file, by start and size.
fn push_functions(alloc: Global, text: &mut Vec<u8>, file: &SymbolFile) -> Result<()>
    ensures ok { OnOk result (text.new.items ≡ text.old.items ++ functions_text (canon_functions file.now)) }
    ensures memory { IsOkUnless result Error.OutOfMemory }
{
    push_functions_blank::<Brand>(alloc, text, file, Blank::new(1))
}

// The same, with a count that nobody reads.
fn push_functions_blank<L: Ledger>(
    alloc: Global,
    text: &mut Vec<u8>,
    file: &SymbolFile,
    blank: Blank,
) -> Result<()>
    requires name { blank.name ≡ L.name }
    requires parts { blank.parts ≡ L.parts }
    requires positive { 0 < L.parts }
    ensures ok { OnOk result (text.new.items ≡ text.old.items ++ functions_text (canon_functions file.now)) }
    ensures memory { IsOkUnless result Error.OutOfMemory }
{
    let mut steps = Steps::<L>::new(blank);
    let mut may_copy = false;
    for index in 0..file.function_count() {
        if index % TOGETHER == 0 {
            may_copy = any_seems_canonical(file, index, &mut steps);
        }
        let function = file.function(index, &mut steps);
        push_function(alloc, text, &function, may_copy)?;
    }
    Ok(())
}

/// Whether any of the next functions, from an index on, has line records that seem canonical. All are
/// read, though one would do, so that memory fetches the records of all at once.
fn any_seems_canonical<L: Ledger>(file: &SymbolFile, from: usize, steps: &mut Steps<L>) -> bool {
    let to = file.function_count().min(from.saturating_add(TOGETHER));
    let mut any = false;
    for index in from..to {
        let function = file.function(index, steps);
        any |= seems_canonical(&function);
    }
    any
}

/// Whether the line records of a function begin and end as canonical ones may.
fn seems_canonical(function: &Function<'_>) -> bool {
    match function.line_text() {
        Some([first, .., last]) => *first > b' ' && *last == b'\n',
        _ => false,
    }
}

/// A function, with its inlined calls by depth and start, and its lines by start and size. These are
/// copied as they stand where that is allowed and they are seen to be canonical.
fn push_function(
    alloc: Global,
    text: &mut Vec<u8>,
    function: &Function<'_>,
    may_copy: bool,
) -> Result<()>
    ensures ok { OnOk result (text.new.items ≡ text.old.items ++ records_text (function_records (canon_function function.now))) }
    ensures memory { IsOkUnless result Error.OutOfMemory }
{
    push_func(text, function)?;
    let inlinees = function.inlinees(alloc)?;
    push_inlinees(text, &inlinees)?;
    push_lines_of(alloc, text, function, may_copy)?;
    Ok(())
}

/// The line records of a function, by start and size. They are copied as they stand where that is
/// allowed and they are seen to be canonical.
fn push_lines_of(
    alloc: Global,
    text: &mut Vec<u8>,
    function: &Function<'_>,
    may_copy: bool,
) -> Result<()>
    ensures ok { OnOk result (text.new.items ≡ text.old.items ++ lines_of (λ l. OfFunc (line_one l)) (lines_in_order function.now)) }
    ensures memory { IsOkUnless result Error.OutOfMemory }
{
    if may_copy {
        if let Some(run) = canonical_run(function) {
            text.extend_from_slice(run)?;
            return Ok(());
        }
    }
    let lines = function.lines(alloc)?;
    push_lines(text, &lines)?;
    Ok(())
}

/// A function's line records as they stand in the file, where that is seen to be their canonical text.
fn canonical_run<'a>(function: &Function<'a>) -> Option<&'a [u8]>
    ensures { IfSome result (λ run. run.now ≡ lines_of (λ l. OfFunc (line_one l)) (lines_in_order function.now)) }
{
    let text = function.line_text()?;
    if is_canonical_run(text) {
        Some(text)
    } else {
        None
    }
}

/// INLINE records.
fn push_inlinees(text: &mut Vec<u8>, inlinees: &[Inlinee]) -> Result<()>
    ensures ok { OnOk result (text.new.items ≡ text.old.items ++ lines_of (λ i. OfFunc (inlinee_one i)) (map inlinee_seen inlinees.now)) }
    ensures memory { IsOkUnless result Error.OutOfMemory }
{
    for inlinee in inlinees {
        push_inlinee(text, inlinee)?;
    }
    Ok(())
}

/// Line records.
fn push_lines(text: &mut Vec<u8>, lines: &[SourceLine]) -> Result<()>
    ensures ok { OnOk result (text.new.items ≡ text.old.items ++ lines_of (λ l. OfFunc (line_one l)) (map line_seen lines.now)) }
    ensures memory { IsOkUnless result Error.OutOfMemory }
{
    for line in lines {
        push_line(text, line)?;
    }
    Ok(())
}
