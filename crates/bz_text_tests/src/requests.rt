//! Lines of requests.

use bz_base::Input;
use bz_requests::{BadInput, Request, Target, read_requests};
use std::alloc::Global;

/// Requests of every kind; lines that end in a carriage return, that are empty, and one that lacks
/// its end.
const INPUT: &[u8] =
    b"breakpad /s.sym 1010\r\n\nsingle gsym /g 0x10\r\n\r\nelf /e 1 2 0xff\nprocess 7\ncache elf /x\ncache process 0\nevict elf \xc3\xa9\nevict process 4294967295";

/// The requests that it says: a word, none for a batch; a target's kind, path and id; how many
/// addresses, and the last of them.
static SAID: [(&str, &str, &str, u32, usize, u64); 8] = [
    ("", "breakpad", "/s.sym", 0, 1, 0x1010),
    ("single", "gsym", "/g", 0, 1, 0x10),
    ("", "elf", "/e", 0, 3, 0xff),
    ("", "process", "", 7, 0, 0),
    ("cache", "elf", "/x", 0, 0, 0),
    ("cache", "process", "", 0, 0, 0),
    ("evict", "elf", "é", 0, 0, 0),
    ("evict", "process", "", 4_294_967_295, 0, 0),
];

/// An input, and its first line that isn't well formed; 0 for the input above. Lines have unknown
/// words, too few fields and too many, and spaces where none may be. There are texts that aren't
/// UTF-8, and numbers that are too great.
static INPUTS: [(&[u8], u64); 25] = [
    (INPUT, 0),
    (b"single breakpad /s.sym\n", 1),
    (b"single breakpad /s.sym 10 20\n", 1),
    (b"single /s.sym 10\n", 1),
    (b"\nbreakpad  1\n", 2),
    (b"breakpad /a  1\n", 1),
    (b"breakpad /a 1 \n", 1),
    (b" breakpad /a 1\n", 1),
    (b"breakpad\t/a 1\n", 1),
    (b"breakpad\n", 1),
    (b"breakpad \n", 1),
    (b"breakpad /a 1g\n", 1),
    (b"evict elf /x\nevict breakpad /x\n", 2),
    (b"cache gsym /x\n", 1),
    (b"cache elf\n", 1),
    (b"cache elf /x /y\n", 1),
    (b"cache elf \n", 1),
    (b"evict process\n", 1),
    (b"evict process self\n", 1),
    (b"process 4294967296\n", 1),
    (b"process -1 10\n", 1),
    (b"elf \xff\n", 1),
    (b"Breakpad /a 1\n", 1),
    (b"serve\n", 1),
    (b"breakpad /a 1\r\r\n", 1),
];

/// Whether the target is this one: the word of its kind, and its path, or its id.
fn is_target(target: &Target, kind: &str, path: &str, pid: u32) -> bool {
    match target {
        Target::Breakpad(text) => kind == "breakpad" && text.as_str() == path,
        Target::Gsym(text) => kind == "gsym" && text.as_str() == path,
        Target::Elf(text) => kind == "elf" && text.as_str() == path,
        Target::Process(id) => kind == "process" && *id == pid,
    }
}

/// Whether the request is this one: its word, none for a batch; its target; how many addresses it
/// has, and the last of them.
fn is_request(request: &Request, row: &(&str, &str, &str, u32, usize, u64)) -> bool {
    match request {
        Request::Batch(target, addrs) => {
            row.0 == ""
                && is_target(target, row.1, row.2, row.3)
                && addrs.len() == row.4
                && addrs.last().copied().unwrap_or(0) == row.5
        }
        Request::Single(target, addr) => {
            row.0 == "single" && is_target(target, row.1, row.2, row.3) && *addr == row.5
        }
        Request::CacheElf(path) => row.0 == "cache" && row.1 == "elf" && path.as_str() == row.2,
        Request::CacheProcess(pid) => row.0 == "cache" && row.1 == "process" && *pid == row.3,
        Request::EvictElf(path) => row.0 == "evict" && row.1 == "elf" && path.as_str() == row.2,
        Request::EvictProcess(pid) => row.0 == "evict" && row.1 == "process" && *pid == row.3,
    }
}

/// Whether the requests are those of the input above.
fn are_all(all: &[Request]) -> bool {
    for (index, request) in all.iter().enumerate() {
        match SAID.get(index) {
            Some(row) => {
                if !is_request(request, row) {
                    return false;
                }
            }
            None => return false,
        }
    }
    all.len() == SAID.len()
}

/// Whether the input is refused at this line, or says all requests above.
fn is_read(alloc: Global, text: &[u8], line: u64) -> bool {
    match read_requests(alloc, text) {
        Ok(all) => line == 0 && are_all(all.as_slice()),
        Err(BadInput::Line(number)) => line > 0 && number == line,
        Err(_) => false,
    }
}

/// Whether addresses of the target are absolute.
fn is_absolute(target: &Target) -> bool {
    target.usual_kind() == Input::AbsAddr(())
}

#[test]
fn reads_requests_of_every_kind_and_refuses_bad_lines(rt: HostRuntime) {
    let inputs = &INPUTS;
    for index in 0..inputs.len() {
        let (text, line) = inputs[index];
        assert!(rt; is_read(rt.alloc(), text, line), "row {index}");
    }
}

#[test]
fn addresses_of_processes_are_absolute(rt: HostRuntime) {
    assert!(rt; is_absolute(&Target::Process(0)));
}
