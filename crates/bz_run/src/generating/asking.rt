//! What a generated text answers at generated addresses.

ghost use Rattle.std.specs.Prelude.{◌≡◌, ◌<◌, ◌≤◌, IfOk, IsOkUnless};
ghost use Rattle.bz_base.specs.declared.error.Error.{Error};
ghost use Rattle.bz_breakpad.specs.Grammar.{IsFile};
ghost use Rattle.bz_breakpad.specs.Plain.{batch};
ghost use Rattle.bz_breakpad.specs.Table.{Table};
ghost use Rattle.bz_run.specs.Generating.{generated_answers};
ghost use Rattle.bz_symq.specs.Kept.{settings_of};
ghost use Rattle.bz_symbolize.specs.State.{opts_of};

use crate::generating::steady_files::SteadyFiles;
use crate::source::breakpad_source;
use bz_base::{Input, Result, Steps};
use bz_canon::laws::generated_texts_are_files;
use bz_canon::{gen_addrs, gen_text};
use bz_requests::Config;
use bz_symbolize::Lookups;
use bz_symq::new_symbolizer;
use std::alloc::Global;
use std::marker::Brand;
use std::sync::ledger::{Blank, Ledger};

/// Where the text lies.
const PATH: &str = "/gen.sym";

/// The answers of the text of so many functions to so many addresses, by the numbers after the seed.
pub(crate) fn generated_answers(
    alloc: Global,
    config: Config,
    seed: u64,
    functions: u64,
    addresses: u64,
) -> Result<Lookups<'static>>
    requires seed { seed < 2147483648 }
    requires functions { functions ≤ 100000 }
    requires addresses { addresses ≤ 100000 }
    ensures answers { IfOk result (λ lookups. lookups.answers ≡ generated_answers config seed functions addresses) }
    ensures memory { IsOkUnless result Error.OutOfMemory }
{
    generated_texts_are_files();
    let text = gen_text(alloc, functions)?;
    let addrs = gen_addrs(alloc, seed, functions, addresses)?;
    answers_of::<Brand>(alloc, config, text, addrs, Blank::new(1))
}

// What a new symbolizer answers by a text that is a Breakpad file, with a count of steps of its own.
fn answers_of<L: Ledger>(
    alloc: Global,
    config: Config,
    text: Vec<u8>,
    addrs: Vec<u64>,
    blank: Blank,
) -> Result<Lookups<'static>>
    requires name { blank.name ≡ L.name }
    requires parts { blank.parts ≡ L.parts }
    requires positive { 0 < L.parts }
    ensures answers { (table : Table) → IsFile text.items table → IfOk result (λ lookups. lookups.answers ≡ batch table (opts_of (settings_of config)) addrs.items) }
    ensures memory { (table : Table) → IsFile text.items table → IsOkUnless result Error.OutOfMemory }
{
    let mut steps = Steps::<L>::new(blank);
    let mut files = SteadyFiles::of_file(alloc, PATH, text)?;
    let src = breakpad_source(alloc, PATH)?;
    let mut symbolizer = new_symbolizer(alloc, config);
    symbolizer.look_up(
        alloc,
        &mut files,
        &src,
        Input::FileOffset(addrs),
        &mut steps,
    )
}
