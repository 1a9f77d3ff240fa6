//! Parts of a run, called by themselves: requests, stacks, frames, and the text of one answer.

use bz_base::{FindSymOpts, Result};
use bz_files::{MemFiles, MemIn, MemOut};
use bz_requests::{Config, read_requests};
use bz_run::run_stacks;
use bz_serve::{frame_text, run_frames, serve};
use bz_store::{CrashFrame, FrameAnswer};
use bz_symq::Status;
use std::alloc::Global;

/// All features on.
const ALL: Config = Config {
    reload: true,
    code_info: true,
    inlined: true,
    map_files: true,
};

/// Files with this text at the path alone.
fn files_of(alloc: Global, path: &str, text: &str) -> Result<MemFiles> {
    let bytes = Vec::from_slice(alloc, text.as_bytes())?;
    let mut files = MemFiles::new(alloc, 1);
    files.put(alloc, path, bytes)?;
    Ok(files)
}

/// Whether the requests of these lines are served over the files, with this written.
fn are_served(alloc: Global, files: &mut MemFiles, lines: &str, written: &str) -> bool {
    let mut output = MemOut::new(alloc);
    match read_requests(alloc, lines.as_bytes()) {
        Ok(requests) => {
            serve(alloc, ALL, &requests, &mut output, files) == Status::Done
                && output.written() == written.as_bytes()
        }
        Err(_) => false,
    }
}

/// Whether a batch is served in its order.
fn serves_a_batch(alloc: Global) -> Result<bool> {
    let mut files = files_of(alloc, "/s.sym", "FUNC 1000 20 0 one\n")?;
    let served = are_served(
        alloc,
        &mut files,
        "breakpad /s.sym 1020 1010\n",
        "0x1020: ? address not found in symbolization source\n0x1010: one+0x10 start 0x1000 size 0x20 module - at -\n",
    );
    Ok(served)
}

/// Whether a stack is folded.
fn folds_a_stack(alloc: Global) -> Result<bool> {
    let mut input = MemIn::new(Vec::from_slice(alloc, "1 4\n".as_bytes())?);
    let mut files = files_of(alloc, "/s.sym", "FUNC 1 1 0 a;b\n")?;
    let mut output = MemOut::new(alloc);
    let ended = run_stacks(alloc, "/s.sym", ALL, &mut input, &mut output, &mut files);
    Ok(ended == Status::Done && output.written() == "a:b 4\n".as_bytes())
}

/// Whether a frame is answered.
fn answers_a_frame(alloc: Global) -> Result<bool> {
    let mut input = MemIn::new(Vec::from_slice(alloc, "bar AA 1010\n".as_bytes())?);
    let mut files = files_of(alloc, "/r/bar/AA/bar.sym", "FUNC 1000 30 10 f\n")?;
    let mut output = MemOut::new(alloc);
    let ended = run_frames(
        alloc,
        "/r",
        &FindSymOpts::CodeInfo,
        &mut input,
        &mut output,
        &mut files,
    );
    let written = "bar AA 0x1010: f+0x10 start 0x1000 size 0x30 module - at -\n";
    Ok(ended == Status::Done && output.written() == written.as_bytes())
}

/// Whether a frame without a name is written with its answer.
fn writes_a_frame(alloc: Global) -> Result<bool> {
    let name = String::from_str(alloc, "")?;
    let id = String::from_str(alloc, "AA")?;
    let frame = CrashFrame::new(name, id, 0xffff_ffff_ffff_ffff);
    let written = frame_text(alloc, &frame, &FrameAnswer::BadName)?;
    Ok(written.as_str() == " AA 0xffffffffffffffff: ? bad name\n")
}

#[test]
fn parts_do_what_a_run_does(rt: HostRuntime) {
    assert!(rt; serves_a_batch(rt.alloc()) == Ok(true), "requests");
    assert!(rt; folds_a_stack(rt.alloc()) == Ok(true), "stacks");
    assert!(rt; answers_a_frame(rt.alloc()) == Ok(true), "frames");
    assert!(rt; writes_a_frame(rt.alloc()) == Ok(true), "its text");
}
