//! The summary of a generated job.

ghost use Rattle.std.specs.Prelude.{◌≡◌, ◌<◌, ◌≤◌, ◌++◌, string_bytes, IfOk, OnOk, IsOkUnless};
ghost use Rattle.bz_base.specs.declared.error.Error.{Error};
ghost use Rattle.bz_run.specs.Generating.{generated_summary};
ghost use Rattle.bz_run.specs.GeneratedSummary.{line, tally_text};

use crate::generating::asking::generated_answers;
use crate::generating::tally::{Tally, tally_of};
use bz_base::Result;
use bz_requests::Config;
use std::alloc::Global;

/// The summary of the answers to so many addresses among so many functions, by the numbers after the
/// seed.
pub(crate) fn generated_summary(
    alloc: Global,
    config: Config,
    seed: u64,
    functions: u64,
    addresses: u64,
) -> Result<String>
    requires seed { seed < 2147483648 }
    requires functions { functions ≤ 100000 }
    requires addresses { addresses ≤ 100000 }
    ensures ok { IfOk result (λ text. string_bytes text ≡ generated_summary config seed functions addresses) }
    ensures memory { IsOkUnless result Error.OutOfMemory }
{
    let lookups = generated_answers(alloc, config, seed, functions, addresses)?;
    let tally = tally_of(alloc, &lookups)?;
    text_of(alloc, functions, addresses, tally)
}

fn text_of(alloc: Global, functions: u64, addresses: u64, tally: Tally) -> Result<String>
    ensures ok { IfOk result (λ text. string_bytes text ≡ tally_text functions addresses tally) }
    ensures memory { IsOkUnless result Error.OutOfMemory }
{
    let mut text = String::new(alloc);
    push_line(&mut text, "functions", functions)?;
    push_line(&mut text, "addresses", addresses)?;
    push_line(&mut text, "known", tally.known)?;
    push_line(&mut text, "unknown", tally.unknown)?;
    push_line(&mut text, "inlined", tally.inlined)?;
    push_line(&mut text, "offsets", tally.offsets)?;
    Ok(text)
}

fn push_line(text: &mut String, name: &str, number: u64) -> Result<()>
    ensures ok { OnOk result (string_bytes text.new ≡ string_bytes text.old ++ line name.now number) }
    ensures memory { IsOkUnless result Error.OutOfMemory }
{
    write!(text, "{name} {number}\n")?;
    Ok(())
}
