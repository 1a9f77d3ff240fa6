//! A caller: the name of the symbol at an address of GSYM bytes.

ghost use Rattle.std.specs.Prelude.{◌≡◌, Some, option_map, string_bytes, IfOk};
ghost use Rattle.bz_base.specs.declared.types.FindSymOpts.TheVariants as asked;
ghost use Rattle.bz_gsym.specs.Plain.{plain};
ghost use Rattle.bz_binary_tests.specs.GsymNames.{name_of};

use bz_base::{Addr, FindSymOpts, Result, Symbolize};
use bz_gsym::GsymResolver;
use bz_samples::GSYM_LINES;
use std::alloc::Global;

/// The name of the symbol at an address of GSYM bytes, as their plain answer has it.
fn name_at(alloc: Global, bytes: &[u8], addr: Addr) -> Result<Option<String>>
    ensures { IfOk result (λ name. name_of (plain bytes.now asked.CodeInfoAndInlined addr) ≡ Some (option_map string_bytes name)) }
{
    let resolver = GsymResolver::with_data(alloc, bytes)?;
    match resolver.find_sym(alloc, addr, &FindSymOpts::CodeInfoAndInlined)? {
        Ok(found) => Ok(Some(String::from_str(alloc, found.name)?)),
        Err(_) => Ok(None),
    }
}

/// Whether the name at an address in `main` is that.
fn is_named(alloc: Global) -> bool {
    match name_at(alloc, &GSYM_LINES, 0x100c) {
        Ok(Some(name)) => name.as_str() == "main",
        Ok(None) | Err(_) => false,
    }
}

#[test]
fn names_the_symbol_at_an_address(rt: HostRuntime) {
    assert!(rt; is_named(rt.alloc()));
}
