//! What is answered for an address.

ghost use Rattle.std.specs.Prelude.{◌≡◌, ◌≤◌, ◌++◌, ◌∷◌, [], Some, IfOk, IfSome, IsOkUnless, map, option_map, option_copied};
ghost use Rattle.std.specs.Cow.{cow_str_bytes};
ghost use Rattle.bz_base.specs.Answer.{reading, site_of, call_of, resolved_of, symbol_of, sym_in};
ghost use Rattle.bz_bytes.specs.Byte.{zero_byte};
ghost use Rattle.bz_base.specs.Lent.{IsLentResolved, IsLentSymbol, IsLentText};
ghost use Rattle.bz_base.specs.Options.{opts_by};
ghost use Rattle.bz_base.specs.ReasonText.{text_of};
ghost use Rattle.bz_base.specs.Resolution.{symbol_at};

use crate::error::{Error, Result};
use bz_search::Addr;
use std::alloc::Global;
use std::borrow::CowStr;
use std::fmt;

/// What a symbol names.
#[derive(Clone, Copy, Debug, Default, PartialEq, Eq, Hash)]
pub enum SymType {
    /// It isn't known.
    #[default]
    Undefined,
    /// A function.
    Function,
    /// A variable.
    Variable,
}

/// The language that a symbol's name is from.
#[derive(Clone, Copy, Debug, Default, PartialEq)]
pub enum SrcLang {
    /// It isn't known.
    #[default]
    Unknown,
    /// C++.
    Cpp,
    /// Rust.
    Rust,
}

/// What to look up beside name, start and size.
#[derive(Debug, Drop)]
pub enum FindSymOpts {
    /// Nothing more.
    Basic,
    /// The site in source code too.
    CodeInfo,
    /// The site in source code and the inlined calls too.
    CodeInfoAndInlined,
}

impl FindSymOpts {
    /// By whether sites in source code are looked up, and inlined calls: these only with sites.
    pub fn by(code_info: bool, inlined: bool) -> FindSymOpts
        ensures { result ≡ opts_by code_info inlined }
    {
        match (code_info, inlined) {
            (false, _) => FindSymOpts::Basic,
            (true, false) => FindSymOpts::CodeInfo,
            (true, true) => FindSymOpts::CodeInfoAndInlined,
        }
    }
}

/// A site in source code.
#[derive(Debug, PartialEq, Drop)]
pub struct CodeInfo<'a> {
    /// The directory that the file's name is relative to.
    pub dir: Option<CowStr<'a>>,
    /// The name of the source file.
    pub file: CowStr<'a>,
    /// The line, as the source has it: counted from 1, and 0 where it names none.
    pub line: Option<u32>,
    /// The column; no source here tells one.
    pub column: Option<u16>,
}

/// A call that was inlined at the address.
#[derive(Debug, PartialEq, Drop)]
pub struct InlinedFn<'a> {
    /// The name of the function that was inlined.
    pub name: CowStr<'a>,
    /// The site in that function.
    pub code_info: Option<CodeInfo<'a>>,
}

/// A symbol as a table of symbols gives it.
#[derive(Debug, PartialEq, Drop)]
pub struct ResolvedSym<'a> {
    /// The symbol's name.
    pub name: &'a str,
    /// The module that the table is of.
    pub module: Option<&'a str>,
    /// The symbol's start, as the source has it: in a Breakpad file relative to the module's base.
    pub addr: Addr,
    /// The symbol's size, in bytes; none where the source doesn't tell it.
    pub size: Option<usize>,
    /// The language that the name is from.
    pub lang: SrcLang,
    /// The site in the symbol's own function: that of the address, or, with inlined calls, that of the
    /// outermost call.
    pub code_info: Option<CodeInfo<'a>>,
    /// The calls that were inlined at the address, the outermost first.
    pub inlined: Vec<InlinedFn<'a>>,
}

/// The symbol at an address.
#[derive(Debug, PartialEq, Drop)]
pub struct Sym<'a> {
    /// The symbol's name.
    pub name: CowStr<'a>,
    /// The module that the symbol is in.
    pub module: Option<CowStr<'a>>,
    /// The symbol's start, as the source has it: in a Breakpad file relative to the module's base.
    pub addr: Addr,
    /// How many bytes the address lies past the start.
    pub offset: usize,
    /// The symbol's size, in bytes; none where the source doesn't tell it.
    pub size: Option<usize>,
    /// The site in the symbol's own function: that of the address, or, with inlined calls, that of the
    /// outermost call.
    pub code_info: Option<CodeInfo<'a>>,
    /// The calls that were inlined at the address, the outermost first.
    pub inlined: Vec<InlinedFn<'a>>,
    /// Whether it is the symbol of a PUBLIC record in a Breakpad file.
    pub public: bool,
}

/// Why an address has no symbol.
#[derive(Clone, Copy, Debug, PartialEq, Eq, Hash)]
pub enum Reason {
    /// No mapping of the process has the address.
    Unmapped,
    /// The file offset isn't mapped by the file.
    InvalidFileOffset,
    /// The mapping has no file. It is never given.
    MissingComponent,
    /// The source has no symbols.
    MissingSyms,
    /// The mapping is of a kind that isn't looked into.
    Unsupported,
    /// No symbol of the source answers for the address.
    UnknownAddr,
    /// Looking the address up failed, and the batch went on.
    IgnoredError,
}

/// The answer for an address.
#[derive(Debug, PartialEq, Drop)]
pub enum Symbolized<'a> {
    /// The symbol there.
    Sym(Sym<'a>),
    /// Why there is none.
    Unknown(Reason),
}

impl CodeInfo<'_> {
    /// The same site, with texts of its own.
    pub fn into_owned(self, alloc: Global) -> Result<CodeInfo<'static>>
        ensures same { IfOk result (λ site. site_of site ≡ site_of self.entry) }
        ensures memory { IsOkUnless result Error.OutOfMemory }
    {
        let dir = owned_option(alloc, self.dir)?;
        let file = owned(alloc, self.file)?;
        Ok(CodeInfo {
            dir,
            file,
            line: self.line,
            column: self.column,
        })
    }
}

impl InlinedFn<'_> {
    /// The same call, with texts of its own.
    pub fn into_owned(self, alloc: Global) -> Result<InlinedFn<'static>>
        ensures same { IfOk result (λ call. call_of call ≡ call_of self.entry) }
        ensures memory { IsOkUnless result Error.OutOfMemory }
    {
        let name = owned(alloc, self.name)?;
        let code_info = owned_site(alloc, self.code_info)?;
        Ok(InlinedFn { name, code_info })
    }
}

impl<'a> ResolvedSym<'a> {
    /// The symbol at an address that isn't before its start, with the same texts. It takes no memory.
    pub fn into_sym(self, addr: Addr) -> Sym<'a>
        requires { self.addr ≤ addr }
        ensures same { symbol_of result ≡ symbol_at addr (resolved_of self.entry) }
        ensures lent { IsLentResolved self.entry → IsLentSymbol result }
    {
        Sym {
            name: CowStr::Borrowed(self.name),
            module: lent_option(self.module),
            addr: self.addr,
            offset: (addr - self.addr) as usize,
            size: self.size,
            code_info: self.code_info,
            inlined: self.inlined,
            public: false,
        }
    }
}

impl Sym<'_> {
    /// The same symbol, with texts of its own.
    pub fn into_owned(self, alloc: Global) -> Result<Sym<'static>>
        ensures same { IfOk result (λ symbol. symbol_of symbol ≡ symbol_of self.entry) }
        ensures memory { IsOkUnless result Error.OutOfMemory }
    {
        let name = owned(alloc, self.name)?;
        let module = owned_option(alloc, self.module)?;
        let code_info = owned_site(alloc, self.code_info)?;
        let inlined = owned_calls(alloc, self.inlined)?;
        Ok(Sym {
            name,
            module,
            addr: self.addr,
            offset: self.offset,
            size: self.size,
            code_info,
            inlined,
            public: self.public,
        })
    }
}

impl Reason {
    /// The text of the reason, with a zero byte at its end.
    pub fn as_bytes(&self) -> &'static [u8]
        ensures { result.now ≡ text_of self.now ++ zero_byte ∷ [] }
    {
        match self {
            Reason::Unmapped => b"absolute address not found in virtual memory map of process\0",
            Reason::InvalidFileOffset =>
                b"file offset does not map to a valid piece of code/data\0",
            Reason::MissingComponent => b"proc maps entry has no component\0",
            Reason::MissingSyms => b"symbolization source has no or no relevant symbols\0",
            Reason::Unsupported => b"address belongs to unsupported entity\0",
            Reason::UnknownAddr => b"address not found in symbolization source\0",
            Reason::IgnoredError => b"an error occurred but was ignored in batch mode\0",
        }
    }
}

/// Prints the text of the reason.
impl fmt::Display for Reason {
    ghost output = { λ r. Some (text_of r) };

    fn fmt<W: fmt::Write>(&self, f: &mut fmt::Formatter<W>) -> fmt::Result {
        match self {
            Reason::Unmapped => {
                f.write_str("absolute address not found in virtual memory map of process")
            }
            Reason::InvalidFileOffset => {
                f.write_str("file offset does not map to a valid piece of code/data")
            }
            Reason::MissingComponent => f.write_str("proc maps entry has no component"),
            Reason::MissingSyms => {
                f.write_str("symbolization source has no or no relevant symbols")
            }
            Reason::Unsupported => f.write_str("address belongs to unsupported entity"),
            Reason::UnknownAddr => f.write_str("address not found in symbolization source"),
            Reason::IgnoredError => f.write_str("an error occurred but was ignored in batch mode"),
        }
    }
}

impl<'a> Symbolized<'a> {
    /// The symbol, lent.
    pub fn as_sym(&self) -> Option<&Sym<'a>>
        ensures { option_copied result ≡ sym_in self.now }
    {
        match self {
            Symbolized::Sym(lent) => Some(lent),
            Symbolized::Unknown(_) => None,
        }
    }

    /// The symbol.
    pub fn into_sym(self) -> Option<Sym<'a>>
        ensures { result ≡ sym_in self.entry }
    {
        match self {
            Symbolized::Sym(symbol) => Some(symbol),
            Symbolized::Unknown(_) => None,
        }
    }

    /// The same answer, with texts of its own.
    pub fn into_owned(self, alloc: Global) -> Result<Symbolized<'static>>
        ensures same { IfOk result (λ own. reading own ≡ reading self.entry) }
        ensures memory { IsOkUnless result Error.OutOfMemory }
    {
        match self {
            Symbolized::Sym(symbol) => {
                let symbol: Sym<'static> = symbol.into_owned(alloc)?;
                Ok(Symbolized::Sym(symbol))
            }
            Symbolized::Unknown(reason) => Ok(Symbolized::Unknown(reason)),
        }
    }
}

fn lent_option(text: Option<&str>) -> Option<CowStr<'_>>
    ensures same { option_map cow_str_bytes result ≡ option_map (λ lent. lent.now) text.entry }
    ensures lent { IfSome result IsLentText }
{
    match text {
        Some(text) => Some(CowStr::Borrowed(text)),
        None => None,
    }
}

fn owned(alloc: Global, text: CowStr<'_>) -> Result<CowStr<'static>>
    ensures same { IfOk result (λ own. cow_str_bytes own ≡ cow_str_bytes text.entry) }
    ensures memory { IsOkUnless result Error.OutOfMemory }
{
    let text = text.into_owned(alloc)?;
    Ok(CowStr::Owned(text))
}

fn owned_option(alloc: Global, text: Option<CowStr<'_>>) -> Result<Option<CowStr<'static>>>
    ensures same { IfOk result (λ own. option_map cow_str_bytes own ≡ option_map cow_str_bytes text.entry) }
    ensures memory { IsOkUnless result Error.OutOfMemory }
{
    match text {
        Some(text) => {
            let text = owned(alloc, text)?;
            Ok(Some(text))
        }
        None => Ok(None),
    }
}

fn owned_site(alloc: Global, site: Option<CodeInfo<'_>>) -> Result<Option<CodeInfo<'static>>>
    ensures same { IfOk result (λ own. option_map site_of own ≡ option_map site_of site.entry) }
    ensures memory { IsOkUnless result Error.OutOfMemory }
{
    match site {
        Some(site) => {
            let site = site.into_owned(alloc)?;
            Ok(Some(site))
        }
        None => Ok(None),
    }
}

fn owned_calls(alloc: Global, calls: Vec<InlinedFn<'_>>) -> Result<Vec<InlinedFn<'static>>>
    ensures same { IfOk result (λ own. map call_of own.items ≡ map call_of calls.entry.items) }
    ensures memory { IsOkUnless result Error.OutOfMemory }
{
    let mut all = Vec::with_capacity(alloc, calls.len())?;
    for call in calls {
        all.push(call.into_owned(alloc)?)?;
    }
    Ok(all)
}
