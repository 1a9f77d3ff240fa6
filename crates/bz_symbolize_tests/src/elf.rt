//! ELF files.

use crate::asking::Asked::{Batch, LookedUp, Single};
use crate::asking::Subject::Elf;
use crate::gsym::{Damage, damage_holds};
use crate::lookups::Then;
use crate::steps::Step::{Ask, Link, Opens, Put, PutHandedIn, Register};
use crate::steps::{ALL, Script, hold};
use crate::told::Told;
use crate::told::Told::{InModule, Named, Refused, Unknown};
use bz_base::{Error, Input, Reason, Result};
use bz_elf::ElfResolver;
use bz_files::MemFiles;
use bz_samples::ELF_FUNCTION;
use bz_symbolize::Symbolizer;
use std::alloc::Global;
use std::rc::Rc;

/// A file without symbols: a head alone, which tells of no tables.
const NO_SYMBOLS: [u8; 64] = [
    0x7f, 0x45, 0x4c, 0x46, 0x02, 0x01, 0x01, 0x00, 0x00, 0x00, 0x00, 0x00, 0x00, 0x00, 0x00, 0x00,
    0x00, 0x00, 0x00, 0x00, 0x00, 0x00, 0x00, 0x00, 0x00, 0x00, 0x00, 0x00, 0x00, 0x00, 0x00, 0x00,
    0x00, 0x00, 0x00, 0x00, 0x00, 0x00, 0x00, 0x00, 0x00, 0x00, 0x00, 0x00, 0x00, 0x00, 0x00, 0x00,
    0x00, 0x00, 0x00, 0x00, 0x00, 0x00, 0x00, 0x00, 0x00, 0x00, 0x00, 0x00, 0x00, 0x00, 0x00, 0x00,
];

/// The files, and at `/l` the one at `/e` under the same stamp; what is at `/d` isn't an ELF file.
const FILES: Script = &[
    Put("/e", &ELF_FUNCTION),
    Put("/n", &NO_SYMBOLS),
    Put("/d", b"\x7fELF"),
    Link("/l", "/e"),
];

/// An address in the function, as the symbol table has it.
const IN_FUNCTION: Input<u64> = Input::VirtOffset(0x400088);

/// The same address of a process.
const IN_PROCESS: Input<u64> = Input::AbsAddr(0x400088);

/// Addresses are answered by their kind, and each file is read once.
const KINDS: Script = &[
    Ask(Elf("/e"), Single(IN_FUNCTION, InModule("/e"))),
    Ask(Elf("/e"), Single(Input::FileOffset(0x88), InModule("/e"))),
    Ask(Elf("/l"), Single(IN_FUNCTION, InModule("/l"))),
    Ask(
        Elf("/e"),
        Single(Input::VirtOffset(0x400090), Unknown(Reason::UnknownAddr)),
    ),
    Ask(
        Elf("/e"),
        Single(Input::FileOffset(0x200), Unknown(Reason::InvalidFileOffset)),
    ),
    Ask(Elf("/e"), Single(IN_PROCESS, Refused(Error::Unsupported))),
    Ask(Elf("/n"), Single(IN_FUNCTION, Unknown(Reason::MissingSyms))),
    Ask(
        Elf("/n"),
        Single(Input::FileOffset(0x88), Unknown(Reason::InvalidFileOffset)),
    ),
    Ask(Elf("/d"), Single(IN_PROCESS, Refused(Error::InvalidData))),
    Ask(Elf("/x"), Single(IN_PROCESS, Refused(Error::NotFound))),
    Ask(Elf("/x"), Single(IN_FUNCTION, Refused(Error::NotFound))),
    Opens(3),
];

/// A file offset that no segment has, and one in the function.
const OFFSETS: Input<&[u64]> = Input::FileOffset(&[0x200, 0x88]);

/// What is told of them.
const OF_OFFSETS: &[Told] = &[Unknown(Reason::InvalidFileOffset), Named("f")];

/// The offsets are answered at once and looked up.
const BATCHES: Script = &[
    Ask(Elf("/e"), Batch(OFFSETS, OF_OFFSETS)),
    Ask(Elf("/e"), LookedUp(OFFSETS, OF_OFFSETS, Then::Answers)),
];

/// A path, and what registering the file of a function there is refused by.
pub(crate) type Registration = (&'static str, Option<Error>);

/// One after the other. `/d` has other bytes, and `/l` the stamp of `/e`.
const REGISTERED: &[Registration] = &[
    ("/e", None),
    ("/e", Some(Error::AlreadyExists)),
    ("/l", Some(Error::AlreadyExists)),
    ("/x", Some(Error::NotFound)),
    ("/d", None),
];

/// What is registered answers, and no file is read.
const UNREAD: Script = &[
    Register(REGISTERED),
    Ask(Elf("/e"), Single(IN_FUNCTION, InModule("/e"))),
    Ask(Elf("/l"), Single(IN_FUNCTION, InModule("/l"))),
    Ask(Elf("/d"), Single(IN_FUNCTION, InModule("/d"))),
    Opens(0),
];

/// The resolver of the file of a function.
fn resolver(alloc: Global) -> Result<Rc<ElfResolver>> {
    let bytes = Vec::from_slice(alloc, &ELF_FUNCTION)?;
    Ok(Rc::new(alloc, ElfResolver::from_bytes(alloc, "/e", bytes)?)?)
}

/// Whether registering it at the paths, one after the other, is refused so.
fn registers_each(
    alloc: Global,
    symbolizer: &mut Symbolizer,
    files: &mut MemFiles,
    resolver: &Rc<ElfResolver>,
    rows: &[Registration],
) -> bool {
    for row in rows {
        let Ok(shared) = resolver.clone() else {
            return false;
        };
        let registered = symbolizer.register_elf_resolver(alloc, files, row.0, shared);
        if registered.err() != row.1 {
            return false;
        }
    }
    true
}

/// Whether registering the resolver of the file of a function is refused so.
pub(crate) fn registers_all(
    alloc: Global,
    symbolizer: &mut Symbolizer,
    files: &mut MemFiles,
    rows: &[Registration],
) -> bool {
    match resolver(alloc) {
        Ok(resolver) => registers_each(alloc, symbolizer, files, &resolver, rows),
        Err(_) => false,
    }
}

/// The segment is at the last address, so that of its offsets the first alone has an address.
static LAST: Damage = (
    &ELF_FUNCTION,
    80,
    b"\xff\xff\xff\xff\xff\xff\xff\xff",
    &[
        PutHandedIn("/e"),
        Ask(
            Elf("/e"),
            Single(Input::FileOffset(0x88), Unknown(Reason::InvalidFileOffset)),
        ),
        Ask(
            Elf("/e"),
            Single(Input::FileOffset(0), Unknown(Reason::UnknownAddr)),
        ),
    ],
);

/// Each over the files.
static SCRIPTS: [Script; 3] = [KINDS, BATCHES, UNREAD];

#[test]
fn calls_on_elf_files_answer_or_are_refused(rt: HostRuntime) {
    let scripts = &SCRIPTS;
    for index in 0..scripts.len() {
        assert!(rt;
            hold(rt.alloc(), &ALL, &[FILES, scripts[index]]),
            "script {index}"
        );
    }
    assert!(rt; damage_holds(rt.alloc(), &LAST), "the last address");
}
