//! Batches that are looked up, and answer by the version that was found.

ghost use Rattle.std.specs.Prelude.{◌≡◌, ◌<◌};

use crate::asking::answers;
use crate::breakpad::{ADDRESSES, SECOND, TWO};
use crate::steps::put;
use crate::told::{Told, are_given, is_given, is_refused};
use bz_base::{Input, Result, Steps};
use bz_files::MemFiles;
use bz_symbolize::source::Source;
use bz_symbolize::{Lookups, Symbolizer};
use std::alloc::Global;
use std::sync::ledger::{Blank, Ledger};

/// What comes when a batch has been looked up.
pub(crate) enum Then {
    /// Its two addresses are answered one by one and together.
    Answers,
    /// The file changes. The address is in the function of the first Breakpad file, which answers it
    /// after the second file has come. Together with one before the function it is answered as is told.
    Changes,
}

/// A copy of the addresses.
fn copied(alloc: Global, input: Input<&[u64]>) -> Result<Input<Vec<u64>>> {
    let addrs = Vec::from_slice(alloc, input.into_inner())?;
    Ok(match input {
        Input::AbsAddr(_) => Input::AbsAddr(addrs),
        Input::VirtOffset(_) => Input::VirtOffset(addrs),
        Input::FileOffset(_) => Input::FileOffset(addrs),
    })
}

/// Whether two addresses that were looked up are answered as is told, one by one and together.
fn are_looked_up(alloc: Global, lookups: &Lookups<'_>, told: &[Told]) -> bool {
    if lookups.len() != 2 || told.len() != 2 {
        return false;
    }
    is_given(lookups.answer(alloc, 0), &told[0])
        && is_given(lookups.answer(alloc, 1), &told[1])
        && are_given(lookups.answers_of(alloc, &[0, 1]), told)
}

/// Whether the address 0x1010, looked up in the first file, is answered by `one` after the second file
/// has come. Together with another address it is answered as is told.
fn stays_looked_up(
    alloc: Global,
    symbolizer: &mut Symbolizer,
    files: &mut MemFiles,
    src: &Source<'_>,
    lookups: &Lookups<'_>,
    told: &[Told],
) -> bool {
    if lookups.len() != 1 || lookups.addr(0) != 0x1010 {
        return false;
    }
    put(alloc, files, "/s.sym", SECOND)
        && answers(alloc, symbolizer, files, src, ADDRESSES, TWO)
        && is_given(lookups.answer(alloc, 0), &Told::Named("one"))
        && are_given(lookups.answers_at(alloc, &[0xfff, lookups.addr(0)]), told)
        && !lookups.heeds_order()
}

/// Whether the addresses are looked up, and answered or refused as is told. Nobody reads the count.
pub(crate) fn looks_up<L: Ledger>(
    alloc: Global,
    symbolizer: &mut Symbolizer,
    files: &mut MemFiles,
    src: &Source<'_>,
    input: Input<&[u64]>,
    told: &[Told],
    then: &Then,
    blank: Blank,
) -> bool
    requires name { blank.name ≡ L.name }
    requires parts { blank.parts ≡ L.parts }
    requires positive { 0 < L.parts }
{
    let Ok(addrs) = copied(alloc, input) else {
        return false;
    };
    let mut steps = Steps::<L>::new(blank);
    match symbolizer.look_up(alloc, files, src, addrs, &mut steps) {
        Ok(lookups) => match then {
            Then::Answers => are_looked_up(alloc, &lookups, told),
            Then::Changes => stays_looked_up(alloc, symbolizer, files, src, &lookups, told),
        },
        Err(refusal) => told.len() == 1 && is_refused(refusal, &told[0]),
    }
}
