//! What a process answers.

ghost use Rattle.std.specs.Prelude.{◌≡◌, ◌+◌, ◌≤◌, false, true, List, Ok, map, IfErr, IfOk, IsOk};
ghost use Rattle.bz_base.specs.Answer.{Answer, reading};
ghost use Rattle.bz_base.specs.InputKind.{address_kind};
ghost use Rattle.bz_cache.specs.Format.{GivesOrFaults};
ghost use Rattle.bz_files.specs.Looked.{Faulted, Looked};
ghost use Rattle.bz_files.specs.World.{Told, in_view};
ghost use Rattle.bz_process.specs.Processes.{is_in_process};
ghost use Rattle.bz_symq.specs.Command.{process_asking};
ghost use Rattle.bz_symq.specs.Outcome.{by_addresses};
ghost use Rattle.bz_symq.specs.Processes.{IsSomeProcessBatch, process_batch};
ghost use Rattle.bz_symq.specs.Reply.{IsBatchReply, IsInputStatus, IsRefusalReply, IsSomeCauseOrFails, Replies};
ghost use Rattle.bz_symq.specs.Targets.{answer_to, IsSomeCause};

use crate::asking::new_symbolizer;
use crate::command::ProcessBatch;
use crate::reply::{OwnedAnswers, Reply, Said, refusal};
use crate::status::Status;
use bz_base::{Result, Steps, Symbolized};
use bz_files::Files;
use bz_symbolize::Pid;
use bz_symbolize::source::{Process, Source};
use std::alloc::Global;
use std::sync::ledger::Ledger;

/// The reply of a process: its answers at the addresses, or the refusal. Addresses that aren't absolute
/// in it are refused without a look.
pub(crate) fn reply_of_process<F: Files, L: Ledger>(
    alloc: Global,
    batch: ProcessBatch,
    addrs: Vec<u64>,
    files: &mut F,
    steps: &mut Steps<L>,
) -> Result<Reply>
    ensures reply { Told (in_view (F.worlds files.old)) (λ world. Replies (by_addresses (process_asking batch) world (F.pid files.old) (Ok addrs.items)) result) }
    ensures answered { IfOk result (λ given. IsBatchReply (process_asking batch) (F.pid files.old) addrs.items given) }
    ensures refusal { IfOk result (λ given. IsRefusalReply (IsSomeCause (process_asking batch)) given) }
    ensures status { IfOk result (λ given. IsInputStatus (Ok addrs.items) given.status) }
    ensures untaken { is_in_process (address_kind batch.kind) ≡ false → files.new ≡ files.old }
    ensures opens { Told (in_view (F.worlds files.old)) (λ world. F.opens files.new ≤ F.opens files.old + (process_batch batch.config batch.number (F.pid files.old) addrs.items world).opens) }
    ensures files { Looked F.Files files.old files.new (Faulted result) }
    ensures steps { steps.new ≡ steps.old }
{
    match answers_of(alloc, batch, addrs.as_slice(), files, steps) {
        Ok(answers) => Ok(Reply {
            status: Status::Done,
            said: Said::Owned(OwnedAnswers { addrs, answers }),
        }),
        Err(error) => refusal(alloc, error),
    }
}

// The answers of the process at the addresses.
fn answers_of<F: Files, L: Ledger>(
    alloc: Global,
    batch: ProcessBatch,
    addrs: &[u64],
    files: &mut F,
    steps: &mut Steps<L>,
) -> Result<Vec<Symbolized<'static>>>
    ensures answer { Told (in_view (F.worlds files.old)) (λ world. GivesOrFaults (λ answers. map reading answers.items) (answer_to (process_asking batch) addrs.now world (F.pid files.old)) result) }
    ensures served { IsOk result → is_in_process (address_kind batch.kind) ≡ true }
    ensures answered { IfOk result (λ answers. IsSomeProcessBatch batch.config batch.number (F.pid files.old) addrs.now (map reading answers.items)) }
    ensures refusal { IfErr result (λ error. IsSomeCauseOrFails (IsSomeCause (process_asking batch)) error) }
    ensures untaken { is_in_process (address_kind batch.kind) ≡ false → files.new ≡ files.old }
    ensures opens { Told (in_view (F.worlds files.old)) (λ world. F.opens files.new ≤ F.opens files.old + (process_batch batch.config batch.number (F.pid files.old) addrs.now world).opens) }
    ensures files { Looked F.Files files.old files.new (Faulted result) }
    ensures steps { steps.new ≡ steps.old }
{
    let mut process = Process::new(Pid::from(batch.number));
    process.map_files = batch.config.map_files;
    let src = Source::from(process);
    let mut symbolizer = new_symbolizer(alloc, batch.config);
    symbolizer.symbolize_counted(alloc, files, &src, batch.kind.with(addrs), steps)
}
