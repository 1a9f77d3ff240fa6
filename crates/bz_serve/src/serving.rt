//! A run of requests: one symbolizer is asked one request after the other.

ghost use Rattle.std.specs.Prelude.{◌≡◌, ◌<◌, map};
ghost use Rattle.bz_requests.specs.Requests.{request_of};
ghost use Rattle.bz_serve.specs.Serving.{AreKeptOfText, EndsAs, Served, Serves, ServesAll, StopsAs, stop_by};
ghost use Rattle.bz_serve.specs.RequestSteps.{step};
ghost use Rattle.bz_serve.specs.SomeReplies.{MayReply};
ghost use Rattle.bz_symbolize.specs.State.{opts_of};
ghost use Rattle.bz_symq.specs.Kept.{kept_of};

mod replies;
mod saying;
mod sources;

use crate::serving::replies::reply_to_request;
use bz_base::{Error, Steps};
use bz_files::{Files, IoFault, TextOut};
use bz_requests::{Config, Request};
use bz_symbolize::Symbolizer;
use bz_symq::{Status, new_symbolizer, write_said};
use std::alloc::Global;
use std::marker::Brand;
use std::sync::ledger::{Blank, Ledger};

/// Why a run of requests stopped.
#[derive(Drop)]
pub(crate) enum Stop {
    /// A look at a file failed.
    Files,
    /// Writing failed.
    Output,
    /// Memory ran out.
    Memory,
}

/// What serves requests.
#[derive(Drop)]
pub(crate) struct Server {
    /// The symbolizer that is asked, which keeps what it learnt.
    pub(crate) symbolizer: Symbolizer,
    /// Whether mapped files of a process are looked at by the paths that stand for their mappings.
    pub(crate) map_files: bool,
}

/// Answers the requests by one symbolizer, each in its world of files, and writes the texts of the
/// answers as they come. A refused request is answered by the name of its refusal, and the run goes on.
/// It ends by `Done`; by `Fault` where a look at a file or the writing failed; or by `Memory`.
pub fn serve<W: TextOut, F: Files>(
    alloc: Global,
    config: Config,
    requests: &[Request],
    output: &mut W,
    files: &mut F,
) -> Status
    ensures { Serves W.TextOut F.Files config (map request_of requests.now) result output.old output.new files.old files.new }
{
    serve_blank::<W, F, Brand>(alloc, config, requests, output, files, Blank::new(1))
}

// The run, with a count of steps that begins with it.
fn serve_blank<W: TextOut, F: Files, L: Ledger>(
    alloc: Global,
    config: Config,
    requests: &[Request],
    output: &mut W,
    files: &mut F,
    blank: Blank,
) -> Status
    requires name { blank.name ≡ L.name }
    requires parts { blank.parts ≡ L.parts }
    requires positive { 0 < L.parts }
    ensures { Serves W.TextOut F.Files config (map request_of requests.now) result output.old output.new files.old files.new }
{
    let mut steps = Steps::<L>::new(blank);
    let mut server = Server {
        symbolizer: new_symbolizer(alloc, config),
        map_files: config.map_files,
    };
    let served = serve_all(alloc, &mut server, requests, output, files, &mut steps);
    status_of(served)
}

// How a run of requests ends.
fn status_of(served: Result<(), Stop>) -> Status
    ensures { EndsAs served result }
{
    match served {
        Ok(()) => Status::Done,
        Err(Stop::Files | Stop::Output) => Status::Fault,
        Err(Stop::Memory) => Status::Memory,
    }
}

fn serve_all<W: TextOut, F: Files, L: Ledger>(
    alloc: Global,
    server: &mut Server,
    requests: &[Request],
    output: &mut W,
    files: &mut F,
    steps: &mut Steps<L>,
) -> Result<(), Stop>
    requires { AreKeptOfText server.old.symbolizer.processes.mappings }
    ensures { ServesAll W.TextOut F.Files (step server.old.map_files) (MayReply (opts_of server.old.symbolizer.files.settings)) (map request_of requests.now) result (kept_of server.old.symbolizer) output.old output.new files.old files.new }
{
    for request in requests {
        files.begin();
        serve_one(alloc, server, request, output, files, steps)?;
    }
    Ok(())
}

// Answers one request in the world in view, and writes its text.
fn serve_one<W: TextOut, F: Files, L: Ledger>(
    alloc: Global,
    server: &mut Server,
    request: &Request,
    output: &mut W,
    files: &mut F,
    steps: &mut Steps<L>,
) -> Result<(), Stop>
    requires { AreKeptOfText server.old.symbolizer.processes.mappings }
    ensures served { Served W.TextOut F.Files (step server.old.map_files (F.pid files.old) (request_of request.now)) (MayReply (opts_of server.old.symbolizer.files.settings) (request_of request.now)) result (kept_of server.old.symbolizer) (kept_of server.new.symbolizer) output.old output.new files.old files.new }
    ensures map_files { server.new.map_files ≡ server.old.map_files }
    ensures settings { server.new.symbolizer.files.settings ≡ server.old.symbolizer.files.settings }
    ensures kept { AreKeptOfText server.new.symbolizer.processes.mappings }
{
    match reply_to_request(alloc, server, request, files, steps) {
        Ok(said) => stopped(write_said(alloc, output, &said)),
        Err(error) => Err(stop_by(error)),
    }
}

fn stopped(put: Result<(), IoFault>) -> Result<(), Stop>
    ensures { StopsAs put result }
{
    match put {
        Ok(()) => Ok(()),
        Err(IoFault::Fault) => Err(Stop::Output),
        Err(IoFault::OutOfMemory) => Err(Stop::Memory),
    }
}

fn stop_by(error: Error) -> Stop
    ensures { result ≡ stop_by error }
{
    match error {
        Error::ReadFault => Stop::Files,
        _ => Stop::Memory,
    }
}
