//! What stands before the functions' data: the head, the tables, and the string table.

ghost use Rattle.std.specs.Prelude.{◌≡◌, ◌<◌, ◌+◌, ◌*◌, ◌++◌, ◌∷◌, ℕ, List, Some, flat_map, length, map, slice_get, suc, IfOk, IsOkUnless, OnOk};
ghost use Rattle.bz_gsym.specs.Tables.{data_place_len, file_count_len, file_entry_len, header_len};
ghost use Rattle.bz_gsym_layout.specs.Format.{addr_off_size};
ghost use Rattle.bz_gsym_layout.specs.Layout.{head_bytes, word};
ghost use Rattle.bz_gsym_layout.specs.Numbering.{stored};
ghost use Rattle.bz_gsym_layout.specs.Pass.{source_bytes};
ghost use Rattle.bz_gsym_layout.specs.Indexed.{AreFiles};
ghost use Rattle.bz_gsym_layout.specs.Places.{text_places};
ghost use Rattle.bz_gsym_layout.specs.declared.error.LayoutError.{LayoutError};

use crate::error::{LayoutError, Result};
use crate::format::{ADDR_OFF_SIZE, BASE_ADDRESS, UUID_SIZE};
use crate::plan::{Function, SourceFile};
use crate::words::{push_long, push_low_word, push_short, push_word, push_zeros};
use bz_gsym::format::{
    DATA_PLACE_LEN, FILE_COUNT_LEN, FILE_ENTRY_LEN, GSYM_MAGIC, GSYM_MAX_UUID_SIZE, GSYM_VERSION,
    HEADER_LEN,
};
use std::alloc::Global;

/// The byte that ends each text of the string table.
pub(crate) const TEXT_END: u8 = 0;

/// How many bytes a function has in the tables: its start and its data place.
const SYMBOL_LEN: u64 = ADDR_OFF_SIZE as u64 + DATA_PLACE_LEN as u64;

/// How many bytes the head, the count of source files, and the entry of file 0, which is none, have
/// together.
const FIXED_LEN: u64 = (HEADER_LEN + FILE_COUNT_LEN + FILE_ENTRY_LEN) as u64;

/// Where texts lie in the string table, and how many bytes that has.
#[derive(Drop)]
pub(crate) struct TextPlaces {
    pub places: Vec<u64>,
    pub end: u64,
}

/// Where each text lies in the string table. This begins with a zero byte, and a zero byte ends
/// each text.
pub(crate) fn place_texts(alloc: Global, texts: &[&str]) -> Result<TextPlaces>
    ensures places { IfOk result (λ found. found.places.items ≡ text_places 1 (map (λ text. text.now) texts.now)) }
    ensures end { IfOk result (λ found. found.end ≡ 1 + length (flat_map stored (map (λ text. text.now) texts.now))) }
    ensures memory { IsOkUnless result LayoutError.OutOfMemory }
{
    let mut places = Vec::with_capacity(alloc, texts.len())?;
    let mut end: u64 = 1;
    for text in texts {
        places.push(end)?;
        end = further(end, text.len() as u64)?;
        end = further(end, 1)?;
    }
    Ok(TextPlaces { places, end })
}

/// A place so much further on, if 64 bits count it.
pub(crate) fn further(place: u64, by: u64) -> Result<u64>
    ensures sum { IfOk result (λ end. end ≡ place + by) }
    ensures memory { IsOkUnless result LayoutError.OutOfMemory }
{
    place.checked_add(by).ok_or(LayoutError::OutOfMemory)
}

/// So many times a number, if 64 bits count that.
fn times(number: u64, count: u64) -> Result<u64>
    ensures product { IfOk result (λ all. all ≡ number * count) }
    ensures memory { IsOkUnless result LayoutError.OutOfMemory }
{
    number.checked_mul(count).ok_or(LayoutError::OutOfMemory)
}

/// Where the string table stands in a file of so many functions and source files. In front of it lie
/// the head, a start and a data place for each function, the file count, and the files.
pub(crate) fn strings_place(functions: usize, sources: usize) -> Result<u64>
    ensures place { IfOk result (λ place. place ≡ header_len + addr_off_size * functions + data_place_len * functions + file_count_len + file_entry_len * suc sources) }
    ensures memory { IsOkUnless result LayoutError.OutOfMemory }
{
    let symbols = times(SYMBOL_LEN, functions as u64)?;
    let files = times(FILE_ENTRY_LEN as u64, sources as u64)?;
    further(further(symbols, files)?, FIXED_LEN)
}

/// Writes the head of a file of so many functions, whose string table stands at a place and has so many
/// bytes.
pub(crate) fn push_head(
    out: &mut Vec<u8>,
    count: u64,
    strings_at: u64,
    strings_len: u64,
) -> Result<()>
    ensures ok { OnOk result (out.new.items ≡ out.old.items ++ head_bytes count strings_at strings_len) }
    ensures memory { IsOkUnless result LayoutError.OutOfMemory }
{
    push_word(out, GSYM_MAGIC)?;
    push_short(out, GSYM_VERSION)?;
    out.push(ADDR_OFF_SIZE)?;
    out.push(UUID_SIZE)?;
    push_long(out, BASE_ADDRESS)?;
    push_low_word(out, count)?;
    push_low_word(out, strings_at)?;
    push_low_word(out, strings_len)?;
    push_zeros(out, GSYM_MAX_UUID_SIZE)
}

/// Writes the starts of functions.
pub(crate) fn push_starts(out: &mut Vec<u8>, functions: &[Function]) -> Result<()>
    ensures ok { OnOk result (out.new.items ≡ out.old.items ++ flat_map (λ f. word addr_off_size f.start) functions.now) }
    ensures memory { IsOkUnless result LayoutError.OutOfMemory }
{
    for function in functions {
        push_long(out, function.start)?;
    }
    Ok(())
}

/// Writes data places.
pub(crate) fn push_places(out: &mut Vec<u8>, places: &[u64]) -> Result<()>
    ensures ok { OnOk result (out.new.items ≡ out.old.items ++ flat_map (word data_place_len) places.now) }
    ensures memory { IsOkUnless result LayoutError.OutOfMemory }
{
    for place in places {
        push_low_word(out, *place)?;
    }
    Ok(())
}

/// Writes source files, whose texts have these places in the string table.
pub(crate) fn push_files(out: &mut Vec<u8>, sources: &[SourceFile], places: &[u64]) -> Result<()>
    requires { AreFiles (length places.now) sources.now }
    ensures ok { OnOk result (out.new.items ≡ out.old.items ++ flat_map (source_bytes places.now) sources.now) }
    ensures memory { IsOkUnless result LayoutError.OutOfMemory }
{
    for source in sources {
        push_low_word(out, places[source.dir])?;
        push_low_word(out, places[source.name])?;
    }
    Ok(())
}

/// Writes texts, each with the zero byte that ends it.
pub(crate) fn push_texts(out: &mut Vec<u8>, texts: &[&str]) -> Result<()>
    ensures ok { OnOk result (out.new.items ≡ out.old.items ++ flat_map stored (map (λ text. text.now) texts.now)) }
    ensures memory { IsOkUnless result LayoutError.OutOfMemory }
{
    for text in texts {
        out.extend_from_slice(text.as_bytes())?;
        out.push(TEXT_END)?;
    }
    Ok(())
}
