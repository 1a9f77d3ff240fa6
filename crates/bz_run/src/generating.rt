//! The generated job.

ghost use Rattle.std.specs.Prelude.{◌<◌, ◌≤◌};
ghost use Rattle.bz_run.specs.Generating.{Generates};

mod asking;
mod steady_files;
mod summary;
mod tally;

use crate::generating::summary::generated_summary;
use bz_files::TextOut;
use bz_requests::Config;
use bz_symq::{Status, finish, text_reply};
use std::alloc::Global;

/// Puts the text of so many functions at a path in memory. It asks a new symbolizer for so many
/// addresses, by the numbers after the seed. It writes what it counts, a line each: functions,
/// addresses, known and unknown answers, inlined calls, and the sum of the offsets in bytes. It ends by
/// `Done`; by `Fault` where writing failed; or by `Memory`.
pub fn generate<W: TextOut>(
    alloc: Global,
    config: Config,
    seed: u64,
    functions: u64,
    addresses: u64,
    output: &mut W,
) -> Status
    requires seed { seed < 2147483648 }
    requires functions { functions ≤ 100000 }
    requires addresses { addresses ≤ 100000 }
    ensures { Generates W.TextOut config seed functions addresses result output.old output.new }
{
    match generated_summary(alloc, config, seed, functions, addresses) {
        Ok(text) => {
            let summary = text_reply(Status::Done, text);
            finish(alloc, output, &summary)
        }
        Err(_) => Status::Memory,
    }
}
