//! An ELF file as one that answers.

ghost use Rattle.std.specs.Prelude.{◌≡◌, string_bytes, IfOk, IfErr, IsOkUnless};
ghost use Rattle.bz_base.specs.Answer.{Gives, reading};
ghost use Rattle.bz_base.specs.InputKind.{address_kind};
ghost use Rattle.bz_base.specs.Lent.{IsLent};
ghost use Rattle.bz_base.specs.Refusals.{MayRefuse};
ghost use Rattle.bz_base.specs.declared.error.Error.{Error};
ghost use Rattle.bz_base.specs.declared.types.FindSymOpts.{FindSymOpts};
ghost use Rattle.bz_cache.specs.FileCall.{each_of, query_given};
ghost use Rattle.bz_lookups.specs.Batch.{ElfVersion, held_singles, kind_of, version_of};
ghost use Rattle.bz_lookups.specs.Counted.{TakesSteps, no_steps};
ghost use Rattle.bz_lookups.specs.Formats.{elf_answering, elf_single, virtual_offset};

use crate::answering::Answers;
use crate::held::{ElfAddressKind, Held, HeldElf};
use bz_base::{Addr, Error, Input, Reason, Result, Symbolized};
use bz_elf::ElfFile;
use bz_process::elf_answer_at;
use std::alloc::Global;
use std::rc::Rc;

impl Answers for ElfFile {
    ghost answering = { elf_answering };

    ghost few_steps = { no_steps };

    fn takes<A>(_input: &Input<A>) -> bool {
        // Addresses of a process are refused after the look.
        true
    }

    fn hold<'d, A>(
        alloc: Global,
        version: Rc<ElfFile>,
        path: &str,
        input: &Input<A>,
    ) -> Result<Held<'d>>
        ensures held { (opts : FindSymOpts) → Gives (held_singles opts) (query_given elf_answering opts path.now (each_of (address_kind input.now)) version.value) result }
        ensures steps { IfOk result (λ held. TakesSteps (version_of held) (no_steps version.value)) }
        ensures refusal { IfErr result MayRefuse }
    {
        match input {
            Input::VirtOffset(_) => held_as(alloc, version, path, ElfAddressKind::Table),
            Input::FileOffset(_) => held_as(alloc, version, path, ElfAddressKind::File),
            Input::AbsAddr(_) => Err(Error::Unsupported),
        }
    }
}

// The file, held with the path, which is the module of its answers.
fn held_as<'d>(
    alloc: Global,
    file: Rc<ElfFile>,
    path: &str,
    kind: ElfAddressKind,
) -> Result<Held<'d>>
    ensures held { IfOk result (λ held. version_of held ≡ ElfVersion path.now file.value (kind_of kind)) }
    ensures memory { IsOkUnless result Error.OutOfMemory }
{
    let path = String::from_str(alloc, path)?;
    Ok(Held::Elf(HeldElf { file, path, kind }))
}

/// The answer at an address, whose texts are lent. An ELF file tells no site.
pub(crate) fn answer_at<'a>(alloc: Global, elf: &'a HeldElf, addr: Addr) -> Symbolized<'a>
    ensures answer { reading result ≡ elf_single (string_bytes elf.now.path) elf.now.file.value (kind_of elf.now.kind) addr }
    ensures lent { IsLent result }
{
    let file = elf.file.as_ref();
    match virtual_offset(file, elf.kind, addr) {
        Some(addr) => elf_answer_at(alloc, file, elf.path.as_str(), addr),
        None => Symbolized::Unknown(Reason::InvalidFileOffset),
    }
}

// The address as the symbol table has it: an offset in the file goes through the load segments.
fn virtual_offset(file: &ElfFile, kind: ElfAddressKind, addr: u64) -> Option<Addr>
    ensures { result ≡ virtual_offset file.now (kind_of kind) addr }
{
    match kind {
        ElfAddressKind::Table => Some(addr),
        ElfAddressKind::File => file.addr_of(addr),
    }
}
