//! One run of one command.

ghost use Rattle.std.specs.Prelude.{◌≡◌, ◌⊎◌, ◌↔◌, ◌<◌, false, length, IfErr, IfOk, Ok, IsErr, IsOk, IsOkUnless};
ghost use Rattle.bz_base.specs.InputKind.{address_kind};
ghost use Rattle.bz_files.specs.Looked.{Faulted, Looked};
ghost use Rattle.bz_files.specs.World.{Told, in_view};
ghost use Rattle.bz_cache.specs.Format.{GivesOrFaults};
ghost use Rattle.bz_requests.specs.Addresses.{addresses_in};
ghost use Rattle.bz_symq.specs.Command.{asking_of, command_of, file_asking, file_target_of, seen_by, target_of, Batch as OneBatch, OneFile};
ghost use Rattle.bz_symq.specs.Counted.{AnswersInFew, InputTakesFew, RunTakesFew, TakesFew};
ghost use Rattle.bz_symq.specs.Outcome.{by_addresses};
ghost use Rattle.bz_symq.specs.Reply.{IsBatchReply, IsDoneReply, IsInputReply, IsInputStatus, IsLineReply, IsRefusalReply, IsSomeCauseOrFails, Replies, RepliesToCommand, RepliesUnread};
ghost use Rattle.bz_symq.specs.Run.{Runs};
ghost use Rattle.bz_symq.specs.Targets.{answer_to, file_takes, takes, AnswersSome, IsSomeCause, IsSourceOf};
ghost use Rattle.bz_symq.specs.Turns.{FailsAtOne, ReadsFor, ReadsForInput, ReadsOneFor, TakesTurns};

use crate::asking::new_symbolizer;
use crate::command::{Batch, Command, FileBatch, FileTarget, ProcessBatch, Target};
use crate::output::finish;
use crate::process::reply_of_process;
use crate::product::reply_with_product;
use crate::reply::{Reply, Said, bad_line, refusal, stored_reply};
use crate::status::Status;
use bz_base::{Error, Result, Steps};
use bz_files::{Files, TextIn, TextOut};
use bz_requests::{BadInput, ReadStop, read_addrs, read_input};
use bz_symbolize::Lookups;
use bz_symbolize::source::{Breakpad, Elf, GsymFile, Source};
use std::alloc::Global;
use std::marker::Brand;
use std::sync::ledger::{Blank, Ledger};

/// Answers the addresses of the whole input, or makes a product, and writes what comes of it.
pub fn run_command<R: TextIn, W: TextOut, F: Files>(
    alloc: Global,
    command: &Command<'_>,
    input: &mut R,
    output: &mut W,
    files: &mut F,
) -> Status
    ensures { Runs R.TextIn W.TextOut F.Files (command_of command.now) result input.old input.new output.old output.new files.old files.new }
{
    run_blank::<R, W, F, Brand>(alloc, command, input, output, files, Blank::new(1))
}

// The run, with a count of steps that begins with it.
fn run_blank<R: TextIn, W: TextOut, F: Files, L: Ledger>(
    alloc: Global,
    command: &Command<'_>,
    input: &mut R,
    output: &mut W,
    files: &mut F,
    blank: Blank,
) -> Status
    requires name { blank.name ≡ L.name }
    requires parts { blank.parts ≡ L.parts }
    requires positive { 0 < L.parts }
    ensures { Runs R.TextIn W.TextOut F.Files (command_of command.now) result input.old input.new output.old output.new files.old files.new }
{
    let mut steps = Steps::<L>::new(blank);
    run_counted(alloc, command, input, output, files, &mut steps)
}

/// Runs the command as `run_command` does, and counts the steps of its searches.
pub fn run_counted<R: TextIn, W: TextOut, F: Files, L: Ledger>(
    alloc: Global,
    command: &Command<'_>,
    input: &mut R,
    output: &mut W,
    files: &mut F,
    steps: &mut Steps<L>,
) -> Status
    ensures run { Runs R.TextIn W.TextOut F.Files (command_of command.now) result input.old input.new output.old output.new files.old files.new }
    ensures steps { RunTakesFew (command_of command.now) (R.left input.old) steps.old steps.new }
{
    match reply_to_command(alloc, command, input, files, steps) {
        Ok(reply) => finish(alloc, output, &reply),
        Err(error) => failed(error),
    }
}

/// How a run without a reply ends: by `Fault` where reading failed, and else by `Memory`.
pub fn failed(error: Error) -> Status
    ensures failure { (result ≡ Status.Fault) ⊎ (result ≡ Status.Memory) }
    ensures fault { (error ≡ Error.ReadFault) ↔ (result ≡ Status.Fault) }
{
    match error {
        Error::ReadFault => Status::Fault,
        _ => Status::Memory,
    }
}

/// What is answered where the input wasn't read to its end: one that is too long is named so.
pub fn unread(stop: ReadStop) -> Result<Reply>
    ensures { RepliesUnread stop result }
{
    match stop {
        ReadStop::TooLong => Ok(stored_reply(Status::Input, "input: too long\n")),
        ReadStop::Fault => Err(Error::ReadFault),
        ReadStop::Memory => Err(Error::OutOfMemory),
    }
}

// What the run ends with and writes, before any of it is written.
fn reply_to_command<R: TextIn, F: Files, L: Ledger>(
    alloc: Global,
    command: &Command<'_>,
    input: &mut R,
    files: &mut F,
    steps: &mut Steps<L>,
) -> Result<Reply>
    ensures reply { RepliesToCommand (command_of command.now) (seen_by (command_of command.now) (R.left input.old)) (in_view (F.worlds files.old)) (F.pid files.old) result }
    ensures turns { TakesTurns R.TextIn F.Files (command_of command.now) result input.old input.new files.old files.new }
    ensures opens { ReadsFor F.Files (command_of command.now) (R.left input.old) (IsDoneReply result) files.old files.new }
    ensures fails { FailsAtOne R.TextIn F.Files (Faulted result) input.old input.new files.old files.new }
    ensures steps { RunTakesFew (command_of command.now) (R.left input.old) steps.old steps.new }
{
    match command {
        Command::Batch(batch) => reply_with_answers(alloc, batch, input, files, steps),
        Command::Make(product) => reply_with_product(alloc, product, files),
    }
}

// The whole input is read, and its addresses are answered.
fn reply_with_answers<R: TextIn, F: Files, L: Ledger>(
    alloc: Global,
    batch: &Batch<'_>,
    input: &mut R,
    files: &mut F,
    steps: &mut Steps<L>,
) -> Result<Reply>
    ensures reply { RepliesToCommand (OneBatch (asking_of batch.now)) (R.left input.old) (in_view (F.worlds files.old)) (F.pid files.old) result }
    ensures turns { TakesTurns R.TextIn F.Files (OneBatch (asking_of batch.now)) result input.old input.new files.old files.new }
    ensures opens { ReadsFor F.Files (OneBatch (asking_of batch.now)) (R.left input.old) (IsDoneReply result) files.old files.new }
    ensures fails { FailsAtOne R.TextIn F.Files (Faulted result) input.old input.new files.old files.new }
    ensures steps { RunTakesFew (OneBatch (asking_of batch.now)) (R.left input.old) steps.old steps.new }
{
    match read_input(alloc, input) {
        Ok(text) => reply_to_input(alloc, batch, text, files, steps),
        Err(stop) => unread(stop),
    }
}

// The input's text is let go before the source is looked at.
fn reply_to_input<F: Files, L: Ledger>(
    alloc: Global,
    batch: &Batch<'_>,
    text: Vec<u8>,
    files: &mut F,
    steps: &mut Steps<L>,
) -> Result<Reply>
    ensures reply { Told (in_view (F.worlds files.old)) (λ world. Replies (by_addresses (asking_of batch.now) world (F.pid files.old) (addresses_in text.items)) result) }
    ensures answered { IfOk result (λ given. IsInputReply (asking_of batch.now) (F.pid files.old) text.items given) }
    ensures refusal { IfOk result (λ given. IsRefusalReply (IsSomeCause (asking_of batch.now)) given) }
    ensures status { IfOk result (λ given. IsInputStatus (addresses_in text.items) given.status) }
    ensures line { IfOk result (λ given. IsLineReply (addresses_in text.items) given) }
    ensures unlooked { IsErr (addresses_in text.items) → files.new ≡ files.old }
    ensures untaken { takes (target_of batch.now.target) (address_kind batch.now.kind) ≡ false → files.new ≡ files.old }
    ensures opens { ReadsForInput F.Files batch.now.config (target_of batch.now.target) (addresses_in text.items) (IsDoneReply result) files.old files.new }
    ensures files { Looked F.Files files.old files.new (Faulted result) }
    ensures steps { InputTakesFew (target_of batch.now.target) (addresses_in text.items) steps.old steps.new }
{
    let read = read_addrs(alloc, text.as_slice());
    drop(text);
    match read {
        Ok(addrs) => reply_to_batch(alloc, batch, addrs, files, steps),
        Err(BadInput::Line(number)) => bad_line(alloc, number),
        Err(BadInput::OutOfMemory) => Err(Error::OutOfMemory),
    }
}

// The addresses are answered by the target.
fn reply_to_batch<F: Files, L: Ledger>(
    alloc: Global,
    batch: &Batch<'_>,
    addrs: Vec<u64>,
    files: &mut F,
    steps: &mut Steps<L>,
) -> Result<Reply>
    ensures reply { Told (in_view (F.worlds files.old)) (λ world. Replies (by_addresses (asking_of batch.now) world (F.pid files.old) (Ok addrs.items)) result) }
    ensures answered { IfOk result (λ given. IsBatchReply (asking_of batch.now) (F.pid files.old) addrs.items given) }
    ensures refusal { IfOk result (λ given. IsRefusalReply (IsSomeCause (asking_of batch.now)) given) }
    ensures status { IfOk result (λ given. IsInputStatus (Ok addrs.items) given.status) }
    ensures untaken { takes (target_of batch.now.target) (address_kind batch.now.kind) ≡ false → files.new ≡ files.old }
    ensures opens { ReadsForInput F.Files batch.now.config (target_of batch.now.target) (Ok addrs.items) (IsDoneReply result) files.old files.new }
    ensures files { Looked F.Files files.old files.new (Faulted result) }
    ensures steps { TakesFew (target_of batch.now.target) (length addrs.items) steps.old steps.new }
{
    let kind = batch.kind;
    let config = batch.config;
    match batch.target {
        Target::File(file) => {
            let asked = FileBatch { file, kind, config };
            reply_of_file(alloc, &asked, addrs, files, steps)
        }
        Target::Process(number) => {
            let asked = ProcessBatch {
                number,
                kind,
                config,
            };
            reply_of_process(alloc, asked, addrs, files, steps)
        }
    }
}

// The addresses are answered by a file.
fn reply_of_file<F: Files, L: Ledger>(
    alloc: Global,
    batch: &FileBatch<'_>,
    addrs: Vec<u64>,
    files: &mut F,
    steps: &mut Steps<L>,
) -> Result<Reply>
    ensures reply { Told (in_view (F.worlds files.old)) (λ world. Replies (by_addresses (file_asking batch.now) world (F.pid files.old) (Ok addrs.items)) result) }
    ensures answered { IfOk result (λ given. IsBatchReply (file_asking batch.now) (F.pid files.old) addrs.items given) }
    ensures refusal { IfOk result (λ given. IsRefusalReply (IsSomeCause (file_asking batch.now)) given) }
    ensures status { IfOk result (λ given. IsInputStatus (Ok addrs.items) given.status) }
    ensures untaken { file_takes (file_target_of batch.now.file) (address_kind batch.now.kind) ≡ false → files.new ≡ files.old }
    ensures opens { ReadsOneFor F.Files (IsDoneReply result) files.old files.new }
    ensures files { Looked F.Files files.old files.new (Faulted result) }
    ensures steps { TakesFew (OneFile (file_target_of batch.now.file)) (length addrs.items) steps.old steps.new }
{
    match look_up(alloc, batch, addrs, files, steps) {
        Ok(lookups) => Ok(Reply {
            status: Status::Done,
            said: Said::Answers(lookups),
        }),
        Err(error) => refusal(alloc, error),
    }
}

// The file's source, looked at for the addresses, which are searched for in it.
fn look_up<F: Files, L: Ledger>(
    alloc: Global,
    batch: &FileBatch<'_>,
    addrs: Vec<u64>,
    files: &mut F,
    steps: &mut Steps<L>,
) -> Result<Lookups<'static>>
    ensures answer { Told (in_view (F.worlds files.old)) (λ world. GivesOrFaults (λ lookups. lookups.answers) (answer_to (file_asking batch.now) addrs.items world (F.pid files.old)) result) }
    ensures answered { IfOk result (λ lookups. AnswersSome (file_asking batch.now) (F.pid files.old) addrs.items lookups.answers) }
    ensures refusal { IfErr result (λ error. IsSomeCauseOrFails (IsSomeCause (file_asking batch.now)) error) }
    ensures addrs { IfOk result (λ lookups. lookups.addrs ≡ addrs.items) }
    ensures untaken { file_takes (file_target_of batch.now.file) (address_kind batch.now.kind) ≡ false → files.new ≡ files.old }
    ensures opens { ReadsOneFor F.Files (IsOk result) files.old files.new }
    ensures files { Looked F.Files files.old files.new (Faulted result) }
    ensures found { IfOk result (λ lookups. AnswersInFew (file_target_of batch.now.file) (address_kind batch.now.kind) batch.now.config addrs.items lookups.answers steps.old steps.new) }
    ensures steps { TakesFew (OneFile (file_target_of batch.now.file)) (length addrs.items) steps.old steps.new }
{
    let src = source(alloc, &batch.file)?;
    let mut symbolizer = new_symbolizer(alloc, batch.config);
    symbolizer.look_up(alloc, files, &src, batch.kind.with(addrs), steps)
}

// The source that is the file's.
fn source(alloc: Global, file: &FileTarget<'_>) -> Result<Source<'static>>
    ensures ok { IfOk result (λ src. IsSourceOf (file_target_of file.now) src) }
    ensures memory { IsOkUnless result Error.OutOfMemory }
{
    match file {
        FileTarget::Breakpad(path) => {
            let path = String::from_str(alloc, path)?;
            Ok(Source::from(Breakpad::new(path)))
        }
        FileTarget::Gsym(path) => {
            let path = String::from_str(alloc, path)?;
            Ok(Source::from(GsymFile::new(path)))
        }
        FileTarget::Elf(path) => {
            let path = String::from_str(alloc, path)?;
            Ok(Source::from(Elf::new(path)))
        }
    }
}
