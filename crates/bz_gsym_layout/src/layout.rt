//! The bytes of a file that is laid out from a plan.

ghost use Rattle.std.specs.Prelude.{◌≡◌, ◌≤◌, ◌<◌, ◌+◌, ◌^◌, ◌++◌, ℕ, drop, flat_map, length, map, IfErr, IfOk, IsOkUnless, OnOk};
ghost use Rattle.bz_gsym_layout.specs.Indexed.{AreFunctions, IsPlan, codes_of, tables_listed, texts_listed};
ghost use Rattle.bz_gsym_layout.specs.Layout.{Tables, data_bytes, data_places, layout, strings_place};
ghost use Rattle.bz_gsym_layout.specs.Numbering.{stored};
ghost use Rattle.bz_gsym_layout.specs.Pass.{AreCodesOf};
ghost use Rattle.bz_gsym_layout.specs.Places.{text_places};
ghost use Rattle.bz_gsym_layout.specs.Plan.{Code};
ghost use Rattle.bz_gsym_layout.specs.Written.{Refuses};
ghost use Rattle.bz_gsym_layout.specs.declared.error.LayoutError.{LayoutError};
ghost use Rattle.bz_gsym_layout.specs.declared.plan.Function.{Function};

use crate::error::{LayoutError, Result};
use crate::function::{push_function, usual_function_len};
use crate::plan::{Function, Plan};
use crate::tables::{
    TEXT_END, TextPlaces, further, place_texts, push_files, push_head, push_places, push_starts,
    push_texts, strings_place,
};
use crate::words::{push_low_word, push_zeros};
use bz_base::padding;
use bz_gsym::format::FILE_ENTRY_LEN;
use std::alloc::Global;

/// About how many bytes a file has whose functions' data begin at a place.
fn usual_len(data_at: usize, functions: &[Function]) -> usize {
    let mut len = data_at;
    for function in functions {
        len = len.saturating_add(usual_function_len(function));
    }
    len
}

/// Writes the data of functions behind what is written of the file, each at the next place that is
/// divisible by 4. The answer has these places. `texts` are the places of texts in the string table.
fn push_data(
    alloc: Global,
    out: &mut Vec<u8>,
    functions: &[Function],
    texts: &[u64],
) -> Result<Vec<u64>>
    requires { (sources : ℕ) × AreFunctions (length texts.now) sources functions.now }
    ensures ok { OnOk result ((t : Tables) (view : Function → Code) → AreCodesOf t texts.now view functions.now →
        out.new.items ≡ out.old.items ++ data_bytes t (length out.old.items) (map view functions.now)) }
    ensures places { IfOk result (λ places. (t : Tables) (view : Function → Code) → AreCodesOf t texts.now view functions.now →
        places.items ≡ data_places t (length out.old.items) (map view functions.now)) }
    ensures memory { IsOkUnless result LayoutError.OutOfMemory }
{
    let mut places = Vec::with_capacity(alloc, functions.len())?;
    for function in functions {
        push_zeros(out, padding(out.len()))?;
        places.push(out.len() as u64)?;
        push_function(alloc, out, function, texts)?;
    }
    Ok(places)
}

/// What stands before the functions' data, which lie at these places. The string table stands at
/// `strings_at`, and `texts` are the places of texts in it.
fn front_of(
    alloc: Global,
    plan: &Plan<'_>,
    strings_at: u64,
    texts: &TextPlaces,
    places: &[u64],
) -> Result<Vec<u8>>
    requires formed { IsPlan plan.now }
    requires strings { strings_at ≡ strings_place (codes_of plan.now) (tables_listed plan.now) }
    requires texts { texts.now.places.items ≡ text_places 1 (texts_listed plan.now) }
    requires end { texts.now.end ≡ 1 + length (flat_map stored (texts_listed plan.now)) }
    requires places { places.now ≡ data_places (tables_listed plan.now) (strings_at + texts.now.end) (codes_of plan.now) }
    ensures len { IfOk result (λ front. length front.items ≡ strings_at + texts.now.end) }
    ensures whole { IfOk result (λ front. front.items ++ data_bytes (tables_listed plan.now) (length front.items) (codes_of plan.now) ≡ layout (codes_of plan.now)) }
    ensures memory { IsOkUnless result LayoutError.OutOfMemory }
{
    let room = strings_at.saturating_add(texts.end) as usize;
    let mut front = Vec::with_capacity(alloc, room)?;
    push_head(
        &mut front,
        plan.functions.len() as u64,
        strings_at,
        texts.end,
    )?;
    push_starts(&mut front, &plan.functions)?;
    push_places(&mut front, places)?;
    push_low_word(&mut front, plan.sources.len() as u64 + 1)?;
    push_zeros(&mut front, FILE_ENTRY_LEN)?;
    push_files(&mut front, &plan.sources, &texts.places)?;
    front.push(TEXT_END)?;
    push_texts(&mut front, &plan.texts)?;
    Ok(front)
}

/// Puts bytes in the place of as many at the front of others.
fn overwrite(bytes: &mut [u8], front: &[u8])
    requires { length front.now ≤ length bytes.old }
    ensures { bytes.new ≡ front.now ++ drop (length front.now) bytes.old }
{
    bytes[..front.len()].copy_from_slice(front);
}

/// Puts bytes in the place of as many at the front of a file.
fn put_front(out: &mut Vec<u8>, front: &[u8])
    requires { length front.now ≤ length out.old.items }
    ensures { out.new.items ≡ front.now ++ drop (length front.now) out.old.items }
{
    overwrite(out, front);
}

/// The bytes that a plan is laid out in. Where its functions ascend and its numbers and texts fit
/// the format, they are a GSYM file of version 1. TooLarge: they would be more than 32 bits count.
/// OutOfMemory: memory ran out, or they would be more than 64 bits count.
pub fn write(alloc: Global, plan: &Plan<'_>) -> Result<Vec<u8>>
    requires { IsPlan plan.now }
    ensures ok { IfOk result (λ bytes. (bytes.items ≡ layout (codes_of plan.now)) × (length bytes.items < 2 ^ 32)) }
    ensures refusal { IfErr result (λ e. Refuses e (length (layout (codes_of plan.now)))) }
{
    let strings_at = strings_place(plan.functions.len(), plan.sources.len())?;
    let texts = place_texts(alloc, &plan.texts)?;
    let data_at = further(strings_at, texts.end)? as usize;
    let mut out = Vec::with_capacity(alloc, usual_len(data_at, &plan.functions))?;
    out.resize(data_at, 0)?;
    let places = push_data(alloc, &mut out, &plan.functions, &texts.places)?;
    if out.len() > u32::MAX as usize {
        return Err(LayoutError::TooLarge {
            bytes: out.len() as u64,
        });
    }
    let front = front_of(alloc, plan, strings_at, &texts, &places)?;
    put_front(&mut out, &front);
    Ok(out)
}
