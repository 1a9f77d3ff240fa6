//! What the ids of line records and inlined calls name.

ghost use Rattle.std.specs.Prelude.{◌≡◌, true, map, option_map, None, Some};
ghost use Rattle.std.specs.List.{list_any};
ghost use Rattle.bz_breakpad.specs.Lent.{inlinee_seen};
ghost use Rattle.bz_breakpad_function.specs.InOrder.{calls_in_order};
ghost use Rattle.bz_breakpad_lines.specs.Reader.{table_in};
ghost use Rattle.bz_breakpad_lines.specs.Table.{Table};
ghost use Rattle.bz_breakpad_lines.specs.Told.{line_seen};
ghost use Rattle.bz_convert.specs.Fault.{call_file_fault, has_zero, line_file_fault, not_nested, origin_fault, overlap, ◌or◌};
ghost use Rattle.bz_convert.specs.Ids.{call_has_zero, file_has_zero, lent_source, row_has_zero, sized_with};
ghost use Rattle.bz_convert.specs.Plan.{changes, code_of, is_checked, located};
ghost use Rattle.bz_convert.specs.Points.{row_seen};
ghost use Rattle.bz_gsym_layout.specs.Numbering.{texts_of};

use crate::clean_ids::CleanIds;
use crate::error::ConvertError;
use crate::rows::LineRow;
use bz_base::split_source;
use bz_breakpad::{Function, Inlinee, SourceLine, SymbolFile};

/// A source file, as its directory and its name.
pub(crate) type Source<'a> = (Option<&'a str>, &'a str);

/// The source file of an id: none if no FILE record has the id, or its name has no component.
pub(crate) fn located(file: &SymbolFile, id: u32) -> Option<Source<'_>>
    ensures { (table : Table) → table_in file.now ≡ Some table → option_map lent_source result ≡ located table id }
{
    split_source(file.file(id)?)
}

/// The first fault of the ids of a function's line records and inlined calls.
pub(crate) fn ids_fault(
    ids: &CleanIds<'_>,
    func: u64,
    lines: &[SourceLine],
    calls: &[Inlinee],
) -> Option<ConvertError>
    ensures { (table : Table) → table_in ids.now ≡ Some table →
        result ≡ (line_file_fault table func (map line_seen lines.now)
        or (call_file_fault table func (map inlinee_seen calls.now) or origin_fault table func (map inlinee_seen calls.now))) }
{
    if let Some(fault) = line_file_fault(ids, func, lines) {
        return Some(fault);
    }
    if let Some(fault) = call_file_fault(ids, func, calls) {
        return Some(fault);
    }
    origin_fault(ids, func, calls)
}

/// The fault of the first line record whose file isn't known.
fn line_file_fault(ids: &CleanIds<'_>, func: u64, lines: &[SourceLine]) -> Option<ConvertError>
    ensures { (table : Table) → table_in ids.now ≡ Some table → result ≡ line_file_fault table func (map line_seen lines.now) }
{
    for line in lines {
        if ids.lacks_file(line.file) {
            return Some(ConvertError::NoFile {
                func,
                id: line.file,
            });
        }
    }
    None
}

/// The fault of the first inlined call of some size whose file isn't known.
fn call_file_fault(ids: &CleanIds<'_>, func: u64, calls: &[Inlinee]) -> Option<ConvertError>
    ensures { (table : Table) → table_in ids.now ≡ Some table → result ≡ call_file_fault table func (map inlinee_seen calls.now) }
{
    for call in calls {
        if call.size > 0 && ids.lacks_file(call.call_file) {
            return Some(ConvertError::NoFile {
                func,
                id: call.call_file,
            });
        }
    }
    None
}

/// The fault of the first inlined call of some size whose name isn't known.
fn origin_fault(ids: &CleanIds<'_>, func: u64, calls: &[Inlinee]) -> Option<ConvertError>
    ensures { (table : Table) → table_in ids.now ≡ Some table → result ≡ origin_fault table func (map inlinee_seen calls.now) }
{
    for call in calls {
        if call.size > 0 && ids.lacks_origin(call.origin_id) {
            return Some(ConvertError::NoOrigin {
                func,
                id: call.origin_id,
            });
        }
    }
    None
}

/// Whether a text holds a zero byte.
pub(crate) fn has_zero(text: &str) -> bool
    ensures { result ≡ has_zero text.now }
{
    text.as_bytes().contains(&0)
}

/// Whether the directory or name of an id's file holds a zero byte.
pub(crate) fn file_has_zero(file: &SymbolFile, id: u32) -> bool
    ensures { (table : Table) → table_in file.now ≡ Some table → result ≡ file_has_zero table id }
{
    let Some((dir, name)) = located(file, id) else {
        return false;
    };
    dir.is_some_and(has_zero) || has_zero(name)
}

/// Whether a text laid out for a function has a zero byte: its name, or one of its rows or calls.
pub(crate) fn texts_have_zero(
    ids: &CleanIds<'_>,
    function: &Function<'_>,
    rows: &[LineRow],
    calls: &[Inlinee],
) -> bool
    requires checked { is_checked function.now ≡ true }
    requires rows { map row_seen rows.now ≡ changes function.now }
    requires calls { map inlinee_seen calls.now ≡ calls_in_order function.now }
    ensures { (table : Table) → table_in ids.now ≡ Some table → not_nested function.now ≡ None → overlap function.now ≡ None →
        result ≡ list_any has_zero (texts_of (code_of table function.now)) }
{
    if has_zero(function.name()) {
        return true;
    }
    if rows_have_zero(ids, rows) {
        return true;
    }
    !rows.is_empty() && calls_have_zero(ids, calls)
}

/// Whether the texts of rows hold a zero byte.
fn rows_have_zero(ids: &CleanIds<'_>, rows: &[LineRow]) -> bool
    ensures { (table : Table) → table_in ids.now ≡ Some table → result ≡ list_any (row_has_zero table) (map row_seen rows.now) }
{
    for row in rows {
        if ids.file_has_zero(row.line.file) {
            return true;
        }
    }
    false
}

/// Whether the texts of inlined calls of some size hold a zero byte.
fn calls_have_zero(ids: &CleanIds<'_>, calls: &[Inlinee]) -> bool
    ensures { (table : Table) → table_in ids.now ≡ Some table → result ≡ list_any (sized_with (call_has_zero table)) (map inlinee_seen calls.now) }
{
    for call in calls {
        if call.size > 0 && call_has_zero(ids, call) {
            return true;
        }
    }
    false
}

/// Whether the name of an inlined call, or the directory or name of its file, holds a zero byte.
fn call_has_zero(ids: &CleanIds<'_>, call: &Inlinee) -> bool
    ensures { (table : Table) → table_in ids.now ≡ Some table → result ≡ call_has_zero table (inlinee_seen call.now) }
{
    ids.origin_has_zero(call.origin_id) || ids.file_has_zero(call.call_file)
}
