//! Maps from numbers to numbers.

use bz_base::{Error, Result};
use bz_cache::InsertMap;
use std::alloc::Global;

/// The value at the key, which gets this one if it is absent.
fn given(map: &mut InsertMap<u32, u32>, alloc: Global, key: u32, value: u32) -> Result<u32> {
    Ok(*map.get_or_insert(alloc, key, move || value)?)
}

/// The value at the key, which gets this answer if it is absent.
fn tried(
    map: &mut InsertMap<u32, u32>,
    alloc: Global,
    key: u32,
    answer: Result<u32>,
) -> Result<u32> {
    Ok(*map.get_or_try_insert(alloc, key, move || answer)?)
}

/// Whether keys that are absent get values, and one is taken out, and the other one let go.
fn gives_values(map: &mut InsertMap<u32, u32>, alloc: Global) -> bool {
    let gave = given(map, alloc, 42, 2) == Ok(2)
        && tried(map, alloc, 43, Ok(1)) == Ok(1)
        && map.get(&43) == Some(&1)
        && map.remove(&42) == Some(2)
        && map.get(&42).is_none()
        && map.len() == 1;
    map.retain(|key, _value| *key != 43);
    gave && map.len() == 0
}

/// Whether a key whose value is refused stays absent.
fn stays_absent(map: &mut InsertMap<u32, u32>, alloc: Global) -> bool {
    tried(map, alloc, 31, Err(Error::Unsupported)) == Err(Error::Unsupported)
        && map.get(&31).is_none()
}

/// Whether the value at a key is replaced, and none at a key that is absent.
fn replaces(map: &mut InsertMap<u32, u32>, alloc: Global) -> bool {
    given(map, alloc, 1, 10) == Ok(10)
        && map.replace(&1, 11) == Ok(10)
        && map.replace(&2, 12) == Err(12)
        && map.len() == 1
}

/// The first thing that a new map doesn't do; nothing where it does all.
fn first_to_fail(alloc: Global) -> &'static str {
    if !gives_values(&mut InsertMap::new(alloc), alloc) {
        return "gives and drops values";
    }
    if !stays_absent(&mut InsertMap::new(alloc), alloc) {
        return "refuses a value";
    }
    if !replaces(&mut InsertMap::new(alloc), alloc) {
        return "replaces a value";
    }
    ""
}

#[test]
fn maps_give_drop_refuse_and_replace_values(rt: HostRuntime) {
    let failed = first_to_fail(rt.alloc());
    assert!(rt; failed.is_empty(), "{failed}");
}
