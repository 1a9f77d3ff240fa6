//! Code over any table of symbols.

ghost use Rattle.std.specs.Prelude.{IfOk, IfErr};
ghost use Rattle.bz_base.specs.Refusals.{IsFormatRefusal};
ghost use Rattle.bz_base.specs.Resolution.{StartsBefore};

use bz_base::{
    Addr, Error, FindSymOpts, Reason, Resolve, ResolvedSym, SrcLang, Sym, Symbolize,
    TranslateFileOffset,
};
use std::alloc::Global;

/// A file of one function without end, which lies at this address and begins the file.
struct OneFunction {
    start: Addr,
}

static MAIN: OneFunction = OneFunction { start: 0x1000 };

impl Symbolize for OneFunction {
    ghost may_find = { λ _ _ addr answer. IfOk answer (StartsBefore addr) };

    fn find_sym(
        &self,
        alloc: Global,
        addr: Addr,
        _opts: &FindSymOpts,
    ) -> Result<Result<ResolvedSym<'_>, Reason>, Error> {
        if addr < self.start {
            return Ok(Err(Reason::UnknownAddr));
        }
        Ok(Ok(ResolvedSym {
            name: "main",
            module: Some("app"),
            addr: self.start,
            size: None,
            lang: SrcLang::Unknown,
            code_info: None,
            inlined: Vec::new(alloc),
        }))
    }
}

impl TranslateFileOffset for OneFunction {
    ghost may_translate = { λ _ _ answer. IfErr answer IsFormatRefusal };

    fn file_offset_to_virt_offset(&self, file_offset: u64) -> Result<Option<Addr>, Error> {
        Ok(self.start.checked_add(file_offset))
    }
}

/// Whether the symbol is `main`, and an address lies so far in it.
fn is_main(symbol: &Sym<'_>, offset: Option<usize>) -> bool {
    symbol.name.as_str() == "main" && symbol.addr == 0x1000 && Some(symbol.offset) == offset
}

/// Whether the address lies so far into `main`, or has no symbol.
fn is_found<T: Symbolize>(table: &T, alloc: Global, addr: Addr, offset: Option<usize>) -> bool {
    match table.find_sym(alloc, addr, &FindSymOpts::Basic) {
        Ok(Ok(found)) => is_main(&found.into_sym(addr), offset),
        Ok(Err(_)) => offset.is_none(),
        Err(_) => false,
    }
}

/// The same of the file's byte at an offset. Nothing is there whose address would pass the last one.
fn is_found_in_file<T: Resolve>(
    table: &T,
    alloc: Global,
    file_offset: u64,
    offset: Option<usize>,
) -> bool {
    match table.file_offset_to_virt_offset(file_offset) {
        Ok(Some(addr)) => is_found(table, alloc, addr, offset),
        Ok(None) => offset.is_none(),
        Err(_) => false,
    }
}

#[test]
fn finds_the_symbol_at_an_offset_and_none_outside_the_function(rt: HostRuntime) {
    assert!(rt;
        is_found_in_file(&MAIN, rt.alloc(), 16, Some(16)),
        "sixteen bytes into the file"
    );
    assert!(rt;
        is_found_in_file(&MAIN, rt.alloc(), u64::MAX, None),
        "past the last address"
    );
    assert!(rt;
        is_found(&MAIN, rt.alloc(), 0xfff, None),
        "below the function"
    );
}
