//! What is answered to words that give no command.

ghost use Rattle.bz_run.specs.Misuse.{usage};
ghost use Rattle.bz_symq.specs.Writing.{Finishes};

use bz_files::TextOut;
use bz_symq::{Status, finish, stored_reply};
use std::alloc::Global;

/// Writes how the program is called.
pub(crate) fn tell_usage<W: TextOut>(alloc: Global, output: &mut W) -> Status
    ensures { Finishes W.TextOut usage result output.old output.new }
{
    let reply = stored_reply(Status::Usage, "usage: symq [OPTION] KIND [ARG]...\n");
    finish(alloc, output, &reply)
}
