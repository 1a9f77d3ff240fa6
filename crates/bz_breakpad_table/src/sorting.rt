//! Puts the keys of a file's functions in the order of start and size.

ghost use Rattle.std.specs.Prelude.{◌≡◌, map, IfOk};
ghost use Rattle.bz_base.specs.Starts.{NeverDescends};
ghost use Rattle.bz_breakpad_table.specs.FunctionKeys.{AreSortedKeys, keys_from};

use crate::types::{FunctionKey, KeptFunction};
use bz_base::sort_table;
use std::alloc::{AllocError, Global};

/// The keys of the functions in the order of start and size; those that are alike in both stand as
/// the functions do. The functions aren't moved: a key has a third of a function's bytes.
pub fn sorted_keys(
    alloc: Global,
    functions: &[KeptFunction],
) -> Result<Vec<FunctionKey>, AllocError>
    ensures keys { IfOk result (λ keys. AreSortedKeys functions.now keys.items) }
    ensures ascending { IfOk result (λ keys. NeverDescends (map (λ k. k.start) keys.items)) }
{
    let mut keys = keys_of(alloc, functions)?;
    sort_table(&mut keys)?;
    Ok(keys)
}

/// The keys of the functions, in their order. Want of memory also where there are so many functions
/// that an index can't be kept in four bytes.
fn keys_of(alloc: Global, functions: &[KeptFunction]) -> Result<Vec<FunctionKey>, AllocError>
    ensures { IfOk result (λ keys. keys.items ≡ keys_from 0 functions.now) }
{
    if functions.len() > u32::MAX as usize {
        return Err(AllocError);
    }
    let mut keys = Vec::with_capacity(alloc, functions.len())?;
    for index in 0..functions.len() {
        let function = &functions[index];
        keys.push(FunctionKey {
            start: function.start,
            size: function.size,
            index: index as u32,
        })?;
    }
    Ok(keys)
}
