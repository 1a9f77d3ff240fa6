//! A caller: the name of the function symbol at an address of an ELF file.

ghost use Rattle.std.specs.Prelude.{◌≡◌, Some, option_map, string_bytes, IfOk};
ghost use Rattle.bz_elf.specs.Plain.{plain};
ghost use Rattle.bz_binary_tests.specs.ElfNames.{name_of};

use bz_base::{Addr, FindSymOpts, Result, Symbolize};
use bz_elf::ElfResolver;
use bz_samples::ELF_FUNCTION;
use std::alloc::Global;

/// The name of the function symbol at an address of an ELF file, as its plain answer has it.
fn name_at(alloc: Global, path: &str, bytes: Vec<u8>, addr: Addr) -> Result<Option<String>>
    ensures { IfOk result (λ name. name_of (plain (Some path.now) bytes.items addr) ≡ option_map string_bytes name) }
{
    let resolver = ElfResolver::from_bytes(alloc, path, bytes)?;
    match resolver.find_sym(alloc, addr, &FindSymOpts::Basic)? {
        Ok(found) => Ok(Some(String::from_str(alloc, found.name)?)),
        Err(_) => Ok(None),
    }
}

/// Whether the name at an address in the sample's function is the function's.
fn is_named(alloc: Global) -> Result<bool> {
    let bytes = Vec::from_slice(alloc, &ELF_FUNCTION)?;
    match name_at(alloc, "/e", bytes, 0x400088)? {
        Some(name) => Ok(name.as_str() == "f"),
        None => Ok(false),
    }
}

#[test]
fn names_the_symbol_at_an_address(rt: HostRuntime) {
    assert!(rt; is_named(rt.alloc()) == Ok(true));
}
