//! Clones of answers and of their parts.

ghost use Rattle.std.specs.Prelude.{◌≡◌, IfOk, IfSome, IsOkUnless, map, option_map};
ghost use Rattle.std.specs.Cow.{cow_str_bytes};
ghost use Rattle.std.specs.List.{AllByRecursion};
ghost use Rattle.bz_base.specs.Answer.{site_of, call_of, symbol_of, reading};
ghost use Rattle.bz_base.specs.Lent.{IsLent, IsLentCall, IsLentSite, IsLentSymbol, IsLentText};

use crate::error::{Error, Result};
use crate::types::{CodeInfo, InlinedFn, Sym, Symbolized};
use std::alloc::Global;
use std::borrow::CowStr;

impl<'a> CodeInfo<'a> {
    /// The same site again: a borrowed text stays borrowed, and an owned one is copied.
    pub fn try_clone(&self, alloc: Global) -> Result<CodeInfo<'a>>
        ensures same { IfOk result (λ site. site_of site ≡ site_of self.now) }
        ensures lent { IsLentSite self.now → IfOk result IsLentSite }
        ensures memory { IsOkUnless result Error.OutOfMemory }
    {
        let dir = option_again(alloc, &self.dir)?;
        let file = text_again(alloc, &self.file)?;
        Ok(CodeInfo {
            dir,
            file,
            line: self.line,
            column: self.column,
        })
    }
}

impl<'a> InlinedFn<'a> {
    /// The same call again: a borrowed text stays borrowed, and an owned one is copied.
    pub fn try_clone(&self, alloc: Global) -> Result<InlinedFn<'a>>
        ensures same { IfOk result (λ call. call_of call ≡ call_of self.now) }
        ensures lent { IsLentCall self.now → IfOk result IsLentCall }
        ensures memory { IsOkUnless result Error.OutOfMemory }
    {
        let name = text_again(alloc, &self.name)?;
        let code_info = site_again(alloc, &self.code_info)?;
        Ok(InlinedFn { name, code_info })
    }
}

impl<'a> Sym<'a> {
    /// The same symbol again: a borrowed text stays borrowed, and an owned one is copied.
    pub fn try_clone(&self, alloc: Global) -> Result<Sym<'a>>
        ensures same { IfOk result (λ symbol. symbol_of symbol ≡ symbol_of self.now) }
        ensures lent { IsLentSymbol self.now → IfOk result IsLentSymbol }
        ensures memory { IsOkUnless result Error.OutOfMemory }
    {
        let name = text_again(alloc, &self.name)?;
        let module = option_again(alloc, &self.module)?;
        let code_info = site_again(alloc, &self.code_info)?;
        let inlined = calls_again(alloc, self.inlined.as_slice())?;
        Ok(Sym {
            name,
            module,
            addr: self.addr,
            offset: self.offset,
            size: self.size,
            code_info,
            inlined,
            public: self.public,
        })
    }
}

impl<'a> Symbolized<'a> {
    /// The same answer again: a borrowed text stays borrowed, and an owned one is copied.
    pub fn try_clone(&self, alloc: Global) -> Result<Symbolized<'a>>
        ensures same { IfOk result (λ answer. reading answer ≡ reading self.now) }
        ensures lent { IsLent self.now → IfOk result IsLent }
        ensures memory { IsOkUnless result Error.OutOfMemory }
    {
        match self {
            Symbolized::Sym(symbol) => {
                let symbol = symbol.try_clone(alloc)?;
                Ok(Symbolized::Sym(symbol))
            }
            Symbolized::Unknown(reason) => Ok(Symbolized::Unknown(*reason)),
        }
    }
}

fn text_again<'a>(alloc: Global, text: &CowStr<'a>) -> Result<CowStr<'a>>
    ensures same { IfOk result (λ again. cow_str_bytes again ≡ cow_str_bytes text.now) }
    ensures lent { IsLentText text.now → IfOk result IsLentText }
    ensures memory { IsOkUnless result Error.OutOfMemory }
{
    match text {
        CowStr::Borrowed(lent) => Ok(CowStr::Borrowed(*lent)),
        CowStr::Owned(own) => {
            let own = String::from_str(alloc, own.as_str())?;
            Ok(CowStr::Owned(own))
        }
    }
}

fn option_again<'a>(alloc: Global, text: &Option<CowStr<'a>>) -> Result<Option<CowStr<'a>>>
    ensures same { IfOk result (λ again. option_map cow_str_bytes again ≡ option_map cow_str_bytes text.now) }
    ensures lent { IfSome text.now IsLentText → IfOk result (λ again. IfSome again IsLentText) }
    ensures memory { IsOkUnless result Error.OutOfMemory }
{
    match text {
        Some(text) => {
            let text = text_again(alloc, text)?;
            Ok(Some(text))
        }
        None => Ok(None),
    }
}

fn site_again<'a>(alloc: Global, site: &Option<CodeInfo<'a>>) -> Result<Option<CodeInfo<'a>>>
    ensures same { IfOk result (λ again. option_map site_of again ≡ option_map site_of site.now) }
    ensures lent { IfSome site.now IsLentSite → IfOk result (λ again. IfSome again IsLentSite) }
    ensures memory { IsOkUnless result Error.OutOfMemory }
{
    match site {
        Some(site) => {
            let site = site.try_clone(alloc)?;
            Ok(Some(site))
        }
        None => Ok(None),
    }
}

fn calls_again<'a>(alloc: Global, calls: &[InlinedFn<'a>]) -> Result<Vec<InlinedFn<'a>>>
    ensures same { IfOk result (λ again. map call_of again.items ≡ map call_of calls.now) }
    ensures lent { AllByRecursion IsLentCall calls.now → IfOk result (λ again. AllByRecursion IsLentCall again.items) }
    ensures memory { IsOkUnless result Error.OutOfMemory }
{
    let mut all = Vec::with_capacity(alloc, calls.len())?;
    for call in calls {
        all.push(call.try_clone(alloc)?)?;
    }
    Ok(all)
}
