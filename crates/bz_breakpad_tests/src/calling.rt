//! A caller: the name of the symbol at an address of a Breakpad file.

ghost use Rattle.std.specs.Prelude.{option_map, string_bytes, IfOk};
ghost use Rattle.bz_breakpad_tests.specs.Calling.{HasName, IsNamed};
ghost use Rattle.bz_files.specs.World.{in_view};

use bz_base::{Addr, FindSymOpts, Result, Symbolize};
use bz_breakpad::BreakpadResolver;
use bz_files::{Files, MemFiles};
use bz_samples::{BREAKPAD_PROGRAM, put};
use std::alloc::Global;

/// The name of the symbol at an address of the Breakpad file at a path, as its plain answer has it.
fn name_at<F: Files>(alloc: Global, files: &mut F, path: &str, addr: Addr) -> Result<Option<String>>
    ensures { IfOk result (λ name. IsNamed (in_view (F.worlds files.old)) path.now addr (option_map string_bytes name)) }
{
    let resolver = BreakpadResolver::open(alloc, files, path)?;
    name_in(alloc, &resolver, addr)
}

/// The name of the symbol at an address of a resolver's file, as its plain answer has it.
fn name_in(alloc: Global, resolver: &BreakpadResolver, addr: Addr) -> Result<Option<String>>
    ensures { IfOk result (λ name. HasName resolver.now.bytes addr (option_map string_bytes name)) }
{
    match resolver.find_sym(alloc, addr, &FindSymOpts::Basic)? {
        Ok(found) => Ok(Some(String::from_str(alloc, found.name)?)),
        Err(_) => Ok(None),
    }
}

/// Whether the name at an address of the file that `dump_syms` writes is that.
fn is_named(alloc: Global, files: &mut MemFiles, addr: Addr, expected: &str) -> Result<bool> {
    put(alloc, files, "/app.sym", BREAKPAD_PROGRAM)?;
    match name_at(alloc, files, "/app.sym", addr)? {
        Some(name) => Ok(name.as_str() == expected),
        None => Ok(false),
    }
}

/// Whether the names of a function and of a PUBLIC record are told.
fn are_named(alloc: Global, files: &mut MemFiles) -> bool {
    is_named(alloc, files, 0x1174, "main") == Ok(true)
        && is_named(alloc, files, 0x1020, "_start") == Ok(true)
}

#[test]
fn names_symbols_at_addresses(rt: HostRuntime) {
    let named = are_named(rt.alloc(), &mut MemFiles::new(rt.alloc(), 0));
    assert!(rt; named);
}
