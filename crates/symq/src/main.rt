//! Symbolizes addresses, stacks, frames and requests on standard input, by symbol files and processes,
//! and makes products of symbol files.
#![tactic(auto)]

use bz_files::{RealFiles, RealIn, RealOut};
use bz_run::run;
use bz_symq::{Status, own_pid};
use bz_words::{Failed, message, named_file, stored_message};
use std::borrow::CowStr;
use std::process::ExitCode;
use std::{env, fs, io};

fn main(rt: HostRuntime) -> ExitCode {
    let (status, message) = run_real(&rt);
    if let Some(message) = message {
        // The status says it too, so a message that can't be written is let go.
        let _unwritten = eprintln!(rt; "{message}");
    }
    ExitCode::from(status.code())
}

// Runs the program over the real files and the standard streams, and says what
// standard error is to say.
fn run_real(rt: &HostRuntime) -> (Status, Option<CowStr<'static>>) {
    let (words, are_text) = match command_words(rt) {
        Ok(words) => (words, true),
        Err(error) if error.kind() == io::ErrorKind::OutOfMemory => return out_of_memory(),
        // A word that isn't UTF-8 makes the words no command, as no words do.
        Err(_) => (Vec::new(rt.alloc()), false),
    };
    let Ok(files_rt) = rt.clone() else {
        return out_of_memory();
    };
    let mut files = RealFiles::new(files_rt, own_pid_for(rt, words.as_slice()));
    let mut input = RealIn::new(rt.reader());
    let mut output = RealOut::new(io::writer(rt));
    let status = run(
        rt.alloc(),
        words.as_slice(),
        &mut input,
        &mut output,
        &mut files,
    );
    let failed = Failed {
        input: input.faults(),
        output: output.faults(),
        files: files.faults(),
    };
    let words = words.as_slice();
    let message = match status {
        Status::Usage if !are_text => Some(CowStr::Borrowed("symq: a word isn't UTF-8")),
        // What comes of a pipe or a device is gone, and can't be looked at again.
        Status::Refused if names_a_special_file(rt, words) => None,
        _ => message(rt.alloc(), words, status, failed, &mut files),
    };
    (status, message)
}

// Whether the words name a Breakpad file that can't be read once more. Where memory runs out, they are
// taken to name one.
fn names_a_special_file(rt: &HostRuntime, words: &[String]) -> bool {
    match named_file(rt.alloc(), words) {
        Ok(Some(path)) => is_special_file(rt, path.as_str()),
        Ok(None) => false,
        Err(_) => true,
    }
}

// Whether a file is there that is neither a regular one nor a folder.
fn is_special_file(rt: &HostRuntime, path: &str) -> bool {
    match fs::metadata(rt, path) {
        Ok(found) => !found.is_file() && !found.is_dir(),
        Err(_) => false,
    }
}

// A run for which there was no memory.
fn out_of_memory() -> (Status, Option<CowStr<'static>>) {
    (Status::Memory, stored_message(Status::Memory))
}

// The id of the own process, if the words may ask for it: the digits that begin `/proc/self/stat`. 0
// where they don't, or where it can't be read.
fn own_pid_for(rt: &HostRuntime, words: &[String]) -> u32 {
    if !names_processes(words) {
        return 0;
    }
    match fs::read(rt, "/proc/self/stat") {
        Ok(stat) => own_pid(stat.as_slice()),
        Err(_) => 0,
    }
}

// Whether a word may be a kind of command that asks processes.
fn names_processes(words: &[String]) -> bool {
    for word in words {
        if word.as_str() == "process" || word.as_str() == "serve" {
            return true;
        }
    }
    false
}

// The words of the command line, without the program's name.
fn command_words(rt: &HostRuntime) -> io::Result<Vec<String>> {
    let mut words = Vec::new(rt.alloc());
    for word in env::args(rt)?.skip(1) {
        words.push(word)?;
    }
    Ok(words)
}
