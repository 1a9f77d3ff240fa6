//! What is told of symbols by their names and in their order.

ghost use Rattle.std.specs.Prelude.{◌≡◌, ◌<◌, List, Ok, Some, Result, map, length, slice_get, IfErr, IsOk, IsOkUnless};
ghost use Rattle.bz_base.specs.Answer.{Gives};
ghost use Rattle.bz_base.specs.Refusals.{WantsMemory};
ghost use Rattle.bz_base.specs.declared.error.Error.{Error};
ghost use Rattle.bz_base.specs.declared.types.SymType.{SymType};
ghost use Rattle.bz_breakpad.specs.Inspect.{CalledInTurn, Goes, Info, info_of, infos_in, infos_of, named, told_named, told_of};
ghost use Rattle.bz_breakpad.specs.Stands.{OfTableIn, StandsForSome};

use crate::file::SymbolFile;
use bz_base::{Addr, Error, Result, SymType};
use bz_breakpad_table::{KeptTable, text_of};
use std::alloc::Global;

/// Which symbols are looked for.
#[derive(Debug, Default, Drop)]
pub struct FindAddrOpts {
    /// What they name; `Undefined` are symbols of any kind.
    pub sym_type: SymType,
}

/// What is told of a symbol.
#[derive(Clone, Debug, PartialEq, Drop)]
pub struct SymInfo<'a> {
    /// The symbol's name.
    pub name: &'a str,
    /// The symbol's start, as the source has it: in a Breakpad file relative to the module's base.
    pub addr: Addr,
    /// The symbol's size, in bytes.
    pub size: Option<usize>,
    /// What the symbol names.
    pub sym_type: SymType,
    /// Where it lies in the file that the source describes, in bytes from that file's beginning.
    pub file_offset: Option<u64>,
    /// The module that the symbol is in.
    pub module: Option<&'a str>,
}

/// A table of symbols that are told by their names and in their order.
pub trait Inspect {
    /// What it tells of the symbols of a kind, in its order; or the refusal of the kind.
    ghost told: { Self → SymType → Result (List Info) Error };

    /// What is told of the symbols of a name, in the table's order: of a Breakpad file by start,
    /// size and place in the file. Unsupported: the table has no symbols of the kind.
    fn find_addr(&self, alloc: Global, name: &str, opts: &FindAddrOpts) -> Result<Vec<SymInfo<'_>>>
        ensures answer { Gives (λ infos. map info_of infos.items) (told_named name.now (told self.now opts.now.sym_type)) result }
        ensures memory { IfErr result (WantsMemory (IsOk (told self.now opts.now.sym_type))) };

    /// Calls the closure at what is told of each symbol, in the table's order, until it answers false.
    /// Unsupported: the table has no symbols of the kind.
    fn for_each<F: FnMut(&SymInfo<'_>) -> bool>(&self, opts: &FindAddrOpts, f: F) -> Result<()>
        requires { F.IsAlwaysCallable f }
        ensures { Goes F.FnMut f (told self.now opts.now.sym_type) result };
}

impl Inspect for SymbolFile {
    ghost told = { λ bytes kind. told_of kind (infos_in bytes) };

    fn find_addr(
        &self,
        alloc: Global,
        name: &str,
        opts: &FindAddrOpts,
    ) -> Result<Vec<SymInfo<'_>>> {
        match opts.sym_type {
            SymType::Variable => Err(Error::Unsupported),
            SymType::Undefined | SymType::Function => self.infos_named(alloc, name),
        }
    }

    fn for_each<F: FnMut(&SymInfo<'_>) -> bool>(&self, opts: &FindAddrOpts, f: F) -> Result<()> {
        match opts.sym_type {
            SymType::Variable => Err(Error::Unsupported),
            SymType::Undefined | SymType::Function => {
                self.each_info(f);
                Ok(())
            }
        }
    }
}

/// What is told of the functions of a name, in their order.
pub(crate) fn infos_named<'a>(
    alloc: Global,
    bytes: &'a [u8],
    kept: &'a KeptTable,
    name: &str,
) -> Result<Vec<SymInfo<'a>>>
    requires stands { StandsForSome bytes.now kept.now }
    ensures infos { OfTableIn bytes.now kept.now (λ table. Gives (λ infos. map info_of infos.items) (Ok (named name.now (infos_of table.functions))) result) }
    ensures memory { IsOkUnless result Error.OutOfMemory }
{
    let mut infos = Vec::new(alloc);
    for index in 0..kept.code.keys.len() {
        let info = info_at(bytes, kept, index);
        if info.name == name {
            infos.push(info)?;
        }
    }
    Ok(infos)
}

/// Calls the closure at what is told of each function, in their order, until it answers false.
pub(crate) fn each_info<F: FnMut(&SymInfo<'_>) -> bool>(bytes: &[u8], kept: &KeptTable, mut f: F)
    requires callable { F.IsAlwaysCallable f }
    requires stands { StandsForSome bytes.now kept.now }
    ensures { OfTableIn bytes.now kept.now (λ table. (last : F) × CalledInTurn F.FnMut f (infos_of table.functions) last) }
{
    for index in 0..kept.code.keys.len() {
        let info = info_at(bytes, kept, index);
        if !f(&info) {
            return;
        }
    }
}

/// What is told of the function at an index, in the order of start, size and place in the file.
fn info_at<'a>(bytes: &'a [u8], kept: &'a KeptTable, index: usize) -> SymInfo<'a>
    requires within { index < length kept.now.code.keys.items }
    requires stands { StandsForSome bytes.now kept.now }
    ensures { OfTableIn bytes.now kept.now (λ table. slice_get (infos_of table.functions) index ≡ Some (info_of result)) }
{
    let key = &kept.code.keys[index];
    let function = &kept.code.functions[key.index as usize];
    SymInfo {
        name: text_of(bytes, &function.name),
        addr: function.start,
        size: Some(function.size as usize),
        sym_type: SymType::Function,
        file_offset: None,
        module: None,
    }
}
