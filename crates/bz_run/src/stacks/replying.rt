//! What an input of stacks is answered.

ghost use Rattle.std.specs.Prelude.{◌≡◌, ◌<◌, ◌≤◌, length, vec_len, Ok, IfErr, IfOk, IsErr, IsOk};
ghost use Rattle.bz_cache.specs.Format.{GivesOrFaults};
ghost use Rattle.bz_files.specs.Looked.{Faulted, Looked};
ghost use Rattle.bz_files.specs.World.{Told, in_view};
ghost use Rattle.bz_stacks.specs.Spelling.{stacks_in};
ghost use Rattle.bz_symq.specs.Command.{Breakpad};
ghost use Rattle.bz_requests.specs.InputText.{greatest_input};
ghost use Rattle.bz_symq.specs.Reply.{IsDoneReply, IsInputStatus, IsLineReply, IsRefusalReply, IsSomeCauseOrFails, Replies};
ghost use Rattle.bz_symq.specs.Targets.{IsSomeFileCause};
ghost use Rattle.bz_symq.specs.Turns.{FailsAtOne, ReadsOneFor};
ghost use Rattle.bz_run.specs.StackOutcome.{answers_in, by_stacks, folded_by};
ghost use Rattle.bz_run.specs.StackReply.{IsInputReply, IsSomeText, IsTextReply, RepliesToStacks, TakesTurns};

use crate::source::breakpad_source;
use bz_base::{Error, Input, Result};
use bz_files::{Files, TextIn};
use bz_requests::{Config, read_input};
use bz_stacks::{Stack, StackError, fold, read_stacks};
use bz_symq::{Reply, bad_line, made_reply, new_symbolizer, refusal, unread};
use std::alloc::Global;

/// What a run over an input of stacks ends with and writes, before any of it is written.
pub(crate) fn reply_with_stacks<R: TextIn, F: Files>(
    alloc: Global,
    path: &str,
    config: Config,
    input: &mut R,
    files: &mut F,
) -> Result<Reply>
    ensures reply { RepliesToStacks path.now config (R.left input.old) (in_view (F.worlds files.old)) result }
    ensures turns { TakesTurns R.TextIn result input.old input.new files.old files.new }
    ensures opens { ReadsOneFor F.Files (IsDoneReply result) files.old files.new }
    ensures fails { FailsAtOne R.TextIn F.Files (Faulted result) input.old input.new files.old files.new }
{
    match read_input(alloc, input) {
        Ok(text) => reply_to_input(alloc, path, config, text, files),
        Err(stop) => unread(stop),
    }
}

// The input's text is let go before the file is looked at.
fn reply_to_input<F: Files>(
    alloc: Global,
    path: &str,
    config: Config,
    text: Vec<u8>,
    files: &mut F,
) -> Result<Reply>
    requires short { vec_len text ≤ greatest_input }
    ensures reply { Told (in_view (F.worlds files.old)) (λ world. Replies (by_stacks path.now config world (stacks_in text.items)) result) }
    ensures answered { IfOk result (λ given. IsInputReply config text.items given) }
    ensures refusal { IfOk result (λ given. IsRefusalReply (IsSomeFileCause (Breakpad path.now)) given) }
    ensures status { IfOk result (λ given. IsInputStatus (stacks_in text.items) given.status) }
    ensures line { IfOk result (λ given. IsLineReply (stacks_in text.items) given) }
    ensures unlooked { IsErr (stacks_in text.items) → files.new ≡ files.old }
    ensures opens { ReadsOneFor F.Files (IsDoneReply result) files.old files.new }
    ensures files { Looked F.Files files.old files.new (Faulted result) }
{
    let read = read_stacks(alloc, text.as_slice());
    drop(text);
    match read {
        Ok(stacks) => reply_of_file(alloc, path, config, stacks.as_slice(), files),
        Err(StackError::Line(number)) => bad_line(alloc, number),
        Err(StackError::OutOfMemory) => Err(Error::OutOfMemory),
    }
}

// The stacks are folded, or the file refuses them.
fn reply_of_file<F: Files>(
    alloc: Global,
    path: &str,
    config: Config,
    stacks: &[Stack],
    files: &mut F,
) -> Result<Reply>
    requires few { length stacks.now < 4294967296 }
    ensures reply { Told (in_view (F.worlds files.old)) (λ world. Replies (by_stacks path.now config world (Ok stacks.now)) result) }
    ensures answered { IfOk result (λ given. IsTextReply config stacks.now given) }
    ensures refusal { IfOk result (λ given. IsRefusalReply (IsSomeFileCause (Breakpad path.now)) given) }
    ensures status { IfOk result (λ given. IsInputStatus (Ok stacks.now) given.status) }
    ensures opens { ReadsOneFor F.Files (IsDoneReply result) files.old files.new }
    ensures files { Looked F.Files files.old files.new (Faulted result) }
{
    match folded(alloc, path, config, stacks, files) {
        Ok(text) => Ok(made_reply(text)),
        Err(error) => refusal(alloc, error),
    }
}

// What the stacks fold to by the answers of the Breakpad file at the path.
fn folded<F: Files>(
    alloc: Global,
    path: &str,
    config: Config,
    stacks: &[Stack],
    files: &mut F,
) -> Result<Vec<u8>>
    requires few { length stacks.now < 4294967296 }
    ensures answer { Told (in_view (F.worlds files.old)) (λ world. GivesOrFaults (λ text. text.items) (folded_by stacks.now (answers_in path.now config world stacks.now)) result) }
    ensures answered { IfOk result (λ text. IsSomeText config stacks.now text.items) }
    ensures refusal { IfErr result (λ error. IsSomeCauseOrFails (IsSomeFileCause (Breakpad path.now)) error) }
    ensures opens { ReadsOneFor F.Files (IsOk result) files.old files.new }
    ensures files { Looked F.Files files.old files.new (Faulted result) }
{
    let src = breakpad_source(alloc, path)?;
    let mut symbolizer = new_symbolizer(alloc, config);
    fold(
        alloc,
        &mut symbolizer,
        files,
        &src,
        Input::FileOffset(()),
        stacks,
    )
}
