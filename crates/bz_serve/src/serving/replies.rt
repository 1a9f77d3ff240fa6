//! What is said to a request in the world in view. A refusal is said, and a failure isn't.

ghost use Rattle.std.specs.Prelude.{◌≡◌, ℕ, Bool, true, IfOk};
ghost use Rattle.bz_base.specs.InputKind.{InProcess, address_kind, payload};
ghost use Rattle.bz_process.specs.declared.query.ProcessQuery.{ProcessQuery};
ghost use Rattle.bz_requests.specs.Requests.{request_of, target_of, Batch, Single};
ghost use Rattle.bz_serve.specs.Serving.{AreKeptOfText, Replied, Says};
ghost use Rattle.bz_serve.specs.RequestSteps.{asking, asking_batch, done_by, keeping, okay, query_by, step};
ghost use Rattle.bz_serve.specs.SomeReplies.{FileMaySay, KeepingMaySay, MayReply, ProcessMaySay};
ghost use Rattle.bz_symbolize.specs.Evicting.{evicting};
ghost use Rattle.bz_symbolize.specs.FileCall.{batch_of};
ghost use Rattle.bz_symbolize.specs.Requests.{ToCache, ToEvict, cache_read, evict_read};
ghost use Rattle.bz_symbolize.specs.Sources.{FileSource, OneFile, OneProcess, form_of};
ghost use Rattle.bz_symbolize.specs.State.{opts_of};
ghost use Rattle.bz_canon.specs.AnswerText.{answer_texts};
ghost use Rattle.bz_symq.specs.Command.{FileTarget};
ghost use Rattle.bz_symq.specs.Kept.{kept_of};
ghost use Rattle.bz_symq.specs.Reply.{text_of};
ghost use Rattle.bz_symq.specs.Targets.{IsSourceOf, file_takes};

use crate::serving::Server;
use crate::serving::saying::{said_answer, said_okay, said_refusal};
use crate::serving::sources::{
    elf_to_cache, elf_to_evict, input_of, process_to_cache, process_to_evict, source_of,
};
use bz_base::{Addr, Input, Result, Steps};
use bz_files::Files;
use bz_requests::{Request, Target};
use bz_symbolize::Symbolizer;
use bz_symbolize::cache::Cache;
use bz_symbolize::evict::Evict;
use bz_symbolize::source::Source;
use bz_symq::{OwnedAnswers, Said};
use std::alloc::Global;
use std::sync::ledger::Ledger;

/// What is said to a request in the world in view.
pub(crate) fn reply_to_request<F: Files, L: Ledger>(
    alloc: Global,
    server: &mut Server,
    request: &Request,
    files: &mut F,
    steps: &mut Steps<L>,
) -> Result<Said>
    requires { AreKeptOfText server.old.symbolizer.processes.mappings }
    ensures reply { Replied F.Files (step server.old.map_files (F.pid files.old) (request_of request.now)) result (kept_of server.old.symbolizer) (kept_of server.new.symbolizer) files.old files.new }
    ensures untold { IfOk result (λ said. MayReply (opts_of server.old.symbolizer.files.settings) (request_of request.now) (text_of said)) }
    ensures map_files { server.new.map_files ≡ server.old.map_files }
    ensures settings { server.new.symbolizer.files.settings ≡ server.old.symbolizer.files.settings }
    ensures kept { AreKeptOfText server.new.symbolizer.processes.mappings }
{
    match request {
        Request::Batch(target, addrs) => {
            reply_to_addrs(alloc, server, target, addrs.as_slice(), files, steps)
        }
        Request::Single(target, addr) => reply_to_addr(alloc, server, target, *addr, files),
        Request::CacheElf(path) => {
            let cache = elf_to_cache(alloc, path.as_str())?;
            reply_to_cache(alloc, &mut server.symbolizer, &cache, files)
        }
        Request::CacheProcess(number) => {
            let cache = process_to_cache(*number);
            reply_to_cache(alloc, &mut server.symbolizer, &cache, files)
        }
        Request::EvictElf(path) => {
            let evict = elf_to_evict(alloc, path.as_str())?;
            reply_to_evict(&mut server.symbolizer, &evict)
        }
        Request::EvictProcess(number) => {
            let evict = process_to_evict(*number);
            reply_to_evict(&mut server.symbolizer, &evict)
        }
    }
}

fn reply_to_addrs<F: Files, L: Ledger>(
    alloc: Global,
    server: &mut Server,
    target: &Target,
    addrs: &[Addr],
    files: &mut F,
    steps: &mut Steps<L>,
) -> Result<Said>
    requires { AreKeptOfText server.old.symbolizer.processes.mappings }
    ensures reply { Replied F.Files (step server.old.map_files (F.pid files.old) (Batch (target_of target.now) addrs.now)) result (kept_of server.old.symbolizer) (kept_of server.new.symbolizer) files.old files.new }
    ensures untold { IfOk result (λ said. MayReply (opts_of server.old.symbolizer.files.settings) (Batch (target_of target.now) addrs.now) (text_of said)) }
    ensures map_files { server.new.map_files ≡ server.old.map_files }
    ensures settings { server.new.symbolizer.files.settings ≡ server.old.symbolizer.files.settings }
    ensures kept { AreKeptOfText server.new.symbolizer.processes.mappings }
{
    let src = source_of(alloc, server.map_files, target)?;
    let symbolizer = &mut server.symbolizer;
    let addrs = Vec::from_slice(alloc, addrs)?;
    match target {
        Target::Process(_) => reply_by_process(alloc, symbolizer, &src, addrs, files, steps),
        Target::Breakpad(_) | Target::Gsym(_) | Target::Elf(_) => {
            let input = input_of(target, addrs);
            reply_by_file(alloc, symbolizer, &src, input, files, steps)
        }
    }
}

// The answers of a file, which lend their texts from the version that was found.
fn reply_by_file<F: Files, L: Ledger>(
    alloc: Global,
    symbolizer: &mut Symbolizer,
    src: &Source<'static>,
    input: Input<Vec<Addr>>,
    files: &mut F,
    steps: &mut Steps<L>,
) -> Result<Said>
    ensures reply { (file : FileSource) → form_of src.now ≡ OneFile file →
        Replied F.Files (done_by (answer_texts (payload input).items) (asking (OneFile file) (batch_of (address_kind input) (payload input).items))) result (kept_of symbolizer.old) (kept_of symbolizer.new) files.old files.new }
    ensures untold { (file : FileTarget) → IsSourceOf file src.now → file_takes file (address_kind input) ≡ true →
        IfOk result (λ said. FileMaySay (answer_texts (payload input).items) (opts_of symbolizer.old.files.settings) file (batch_of (address_kind input) (payload input).items) (text_of said)) }
    ensures settings { symbolizer.new.files.settings ≡ symbolizer.old.files.settings }
    ensures processes { symbolizer.new.processes ≡ symbolizer.old.processes }
{
    match symbolizer.look_up(alloc, files, src, input, steps) {
        Ok(lookups) => Ok(Said::Answers(lookups)),
        Err(error) => said_refusal(alloc, error),
    }
}

// The answers of a process, which are of many files.
fn reply_by_process<F: Files, L: Ledger>(
    alloc: Global,
    symbolizer: &mut Symbolizer,
    src: &Source<'static>,
    addrs: Vec<Addr>,
    files: &mut F,
    steps: &mut Steps<L>,
) -> Result<Said>
    requires { AreKeptOfText symbolizer.old.processes.mappings }
    ensures reply { (query : ProcessQuery) → form_of src.now ≡ OneProcess query →
        Replied F.Files (done_by (answer_texts addrs.items) (asking_batch (F.pid files.old) (OneProcess query) InProcess addrs.items)) result (kept_of symbolizer.old) (kept_of symbolizer.new) files.old files.new }
    ensures untold { (map_files : Bool) (number : ℕ) → form_of src.now ≡ OneProcess (query_by map_files number) → IfOk result (λ said. ProcessMaySay number addrs.items (text_of said)) }
    ensures settings { symbolizer.new.files.settings ≡ symbolizer.old.files.settings }
    ensures kept { AreKeptOfText symbolizer.new.processes.mappings }
{
    match symbolizer.symbolize_counted(alloc, files, src, Input::AbsAddr(addrs.as_slice()), steps) {
        Ok(answers) => Ok(Said::Owned(OwnedAnswers { addrs, answers })),
        Err(error) => said_refusal(alloc, error),
    }
}

fn reply_to_addr<F: Files>(
    alloc: Global,
    server: &mut Server,
    target: &Target,
    addr: Addr,
    files: &mut F,
) -> Result<Said>
    requires { AreKeptOfText server.old.symbolizer.processes.mappings }
    ensures reply { Replied F.Files (step server.old.map_files (F.pid files.old) (Single (target_of target.now) addr)) result (kept_of server.old.symbolizer) (kept_of server.new.symbolizer) files.old files.new }
    ensures untold { IfOk result (λ said. MayReply (opts_of server.old.symbolizer.files.settings) (Single (target_of target.now) addr) (text_of said)) }
    ensures map_files { server.new.map_files ≡ server.old.map_files }
    ensures settings { server.new.symbolizer.files.settings ≡ server.old.symbolizer.files.settings }
    ensures kept { AreKeptOfText server.new.symbolizer.processes.mappings }
{
    let src = source_of(alloc, server.map_files, target)?;
    let input = input_of(target, addr);
    match server
        .symbolizer
        .symbolize_single(alloc, files, &src, input)
    {
        Ok(answer) => said_answer(alloc, addr, &answer),
        Err(error) => said_refusal(alloc, error),
    }
}

fn reply_to_cache<F: Files>(
    alloc: Global,
    symbolizer: &mut Symbolizer,
    cache: &Cache,
    files: &mut F,
) -> Result<Said>
    requires { AreKeptOfText symbolizer.old.processes.mappings }
    ensures reply { (asked : ToCache) → cache_read cache.now ≡ asked → Replied F.Files (done_by okay (keeping (F.pid files.old) asked)) result (kept_of symbolizer.old) (kept_of symbolizer.new) files.old files.new }
    ensures untold { (asked : ToCache) → cache_read cache.now ≡ asked → IfOk result (λ said. KeepingMaySay asked (text_of said)) }
    ensures settings { symbolizer.new.files.settings ≡ symbolizer.old.files.settings }
    ensures kept { AreKeptOfText symbolizer.new.processes.mappings }
{
    match symbolizer.cache(alloc, files, cache) {
        Ok(()) => Ok(said_okay()),
        Err(error) => said_refusal(alloc, error),
    }
}

// No file is looked at.
fn reply_to_evict(symbolizer: &mut Symbolizer, evict: &Evict) -> Result<Said>
    requires { AreKeptOfText symbolizer.old.processes.mappings }
    ensures says { Says (okay tt) result }
    ensures state { (asked : ToEvict) → evict_read evict.now ≡ asked → kept_of symbolizer.new ≡ evicting asked (kept_of symbolizer.old) }
    ensures settings { symbolizer.new.files.settings ≡ symbolizer.old.files.settings }
    ensures kept { AreKeptOfText symbolizer.new.processes.mappings }
{
    symbolizer.evict(evict)?;
    Ok(said_okay())
}
