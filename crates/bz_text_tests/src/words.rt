//! Command lines.

use bz_base::Input;
use bz_requests::{Config, Target};
use bz_words::{BadWords, Command, Job, Product, complaint, read_command};
use std::alloc::Global;

/// A line whose words stand between its spaces, and which flags it gives. They are a sum of 1 for
/// reload, 2 for code info, 4 for inlined calls and 8 for map files. Then what is to be done, what
/// addresses are relative to, a path, and an id or the numbers of a generated job.
type Row = (
    &'static str,
    u8,
    &'static str,
    &'static str,
    &'static str,
    &'static [u64],
);

/// Lines that are taken. Flags and values are taken wherever they stand, and numbers to their
/// greatest.
static TAKEN: [Row; 38] = [
    ("breakpad /a", 0, "breakpad", "file", "/a", &[]),
    ("gsym /g", 0, "gsym", "virt", "/g", &[]),
    ("elf /e", 0, "elf", "virt", "/e", &[]),
    ("process 7", 0, "process", "abs", "", &[7]),
    ("process 0", 0, "process", "abs", "", &[0]),
    (
        "process 4294967295",
        0,
        "process",
        "abs",
        "",
        &[4_294_967_295],
    ),
    ("serve", 0, "serve", "", "", &[]),
    ("gen 1 3 4", 0, "gen", "", "", &[1, 3, 4]),
    (
        "gen 2147483647 100000 100000",
        0,
        "gen",
        "",
        "",
        &[2_147_483_647, 100_000, 100_000],
    ),
    ("gen 0 0000000001 00", 0, "gen", "", "", &[0, 1, 0]),
    ("convert /a", 0, "convert", "", "/a", &[]),
    ("canon /a", 0, "canon", "", "/a", &[]),
    ("stacks /a", 0, "stacks", "", "/a", &[]),
    ("frames /r", 0, "frames", "", "/r", &[]),
    ("--no-reload breakpad /a", 1, "breakpad", "file", "/a", &[]),
    ("breakpad --no-reload /a", 1, "breakpad", "file", "/a", &[]),
    ("breakpad /a --no-reload", 1, "breakpad", "file", "/a", &[]),
    ("--no-code-info gsym /g", 2, "gsym", "virt", "/g", &[]),
    ("gsym --no-inlined /g", 4, "gsym", "virt", "/g", &[]),
    ("--no-map-files process 7", 8, "process", "abs", "", &[7]),
    (
        "serve --no-map-files --no-reload --no-code-info",
        11,
        "serve",
        "",
        "",
        &[],
    ),
    (
        "stacks --no-code-info /a --no-inlined",
        6,
        "stacks",
        "",
        "/a",
        &[],
    ),
    ("--no-inlined frames /r", 4, "frames", "", "/r", &[]),
    (
        "--no-reload convert --no-map-files /a",
        9,
        "convert",
        "",
        "/a",
        &[],
    ),
    (
        "--no-map-files --no-inlined --no-code-info --no-reload canon /a",
        15,
        "canon",
        "",
        "/a",
        &[],
    ),
    (
        "--no-code-info gen 1 --no-inlined 3 4",
        6,
        "gen",
        "",
        "",
        &[1, 3, 4],
    ),
    ("--input abs breakpad /a", 0, "breakpad", "abs", "/a", &[]),
    ("breakpad --input virt /a", 0, "breakpad", "virt", "/a", &[]),
    ("breakpad /a --input file", 0, "breakpad", "file", "/a", &[]),
    ("elf --input=file /e", 0, "elf", "file", "/e", &[]),
    ("process --input abs 7", 0, "process", "abs", "", &[7]),
    (
        "--input virt gsym --no-inlined /g",
        4,
        "gsym",
        "virt",
        "/g",
        &[],
    ),
    ("breakpad -- -x", 0, "breakpad", "file", "-x", &[]),
    (
        "breakpad --no-inlined -- --no-reload",
        4,
        "breakpad",
        "file",
        "--no-reload",
        &[],
    ),
    ("-- elf --input", 0, "elf", "virt", "--input", &[]),
    ("elf -", 0, "elf", "virt", "-", &[]),
    ("breakpad ", 0, "breakpad", "file", "", &[]),
    ("frames ", 0, "frames", "", "", &[]),
];

/// Lines that are refused.
static REFUSED: [&str; 48] = [
    "",
    "help",
    "-h",
    "--help",
    "breakpad --help",
    "--version",
    "--bogus breakpad /a",
    "-x breakpad /a",
    "breakpad -x",
    "breakpad -1",
    "Breakpad /a",
    "breakpad",
    "breakpad /a /b",
    "breakpad -- -x -y",
    "process",
    "process ",
    "process x",
    "process -1",
    "process 4294967296",
    "process 00000000007",
    "serve x",
    "serve ",
    "gen",
    "gen 1 3",
    "gen 1 3 4 5",
    "gen 1 0 4",
    "gen 1 100001 4",
    "gen 1 3 100001",
    "gen 2147483648 3 4",
    "gen 1 3 +4",
    "gen -1 3 4",
    "convert",
    "canon /a /b",
    "stacks",
    "frames /r /s",
    "--input abs serve",
    "--input abs gen 1 3 4",
    "--input file convert /a",
    "canon --input file /a",
    "stacks /a --input file",
    "--input abs frames /r",
    "--input what breakpad /a",
    "--input  breakpad /a",
    "breakpad /a --input",
    "--input abs --input abs breakpad /a",
    "--no-reload breakpad --no-reload /a",
    "--no-reload=1 breakpad /a",
    "--no-reload --input file",
];

/// Lines, and how what `clap` says of them begins; nothing where it takes them.
static COMPLAINTS: [(&str, &str); 9] = [
    ("breakpad /a", ""),
    ("breakpad", ""),
    ("Breakpad /a", ""),
    ("--input what breakpad /a", ""),
    ("-x breakpad /a", "error: unexpected argument '-x' found\n"),
    (
        "breakpad /a --input",
        "error: a value is required for '--input <input>' but none was supplied\n",
    ),
    (
        "--no-reload breakpad --no-reload /a",
        "error: the argument '--no-reload' cannot be used multiple times\n",
    ),
    (
        "--no-reload",
        "error: the following required arguments were not provided:\n  <kind>\n",
    ),
    ("--help", "Usage: symq [OPTIONS] <kind> [arg]...\n"),
];

/// The words of a line, where memory is left.
pub(crate) fn words_of(alloc: Global, line: &str) -> Option<Vec<String>> {
    let mut words = Vec::new(alloc);
    for word in line.split(' ') {
        let Ok(word) = String::from_str(alloc, word) else {
            return None;
        };
        let Ok(()) = words.push(word) else {
            return None;
        };
    }
    Some(words)
}

/// The sum of the flags that are given.
fn flags_of(config: Config) -> u8 {
    let reload = if config.reload { 0 } else { 1 };
    let code_info = if config.code_info { 0 } else { 2 };
    let inlined = if config.inlined { 0 } else { 4 };
    let map_files = if config.map_files { 0 } else { 8 };
    reload + code_info + inlined + map_files
}

/// Whether addresses are relative to what the word says.
fn is_relative(kind: Input<()>, word: &str) -> bool {
    match kind {
        Input::AbsAddr(()) => word == "abs",
        Input::VirtOffset(()) => word == "virt",
        Input::FileOffset(()) => word == "file",
    }
}

/// Whether the target is this one: the word of its kind, and its path, or its id.
fn is_target(target: &Target, row: &Row) -> bool {
    match target {
        Target::Breakpad(text) => row.2 == "breakpad" && text.as_str() == row.4,
        Target::Gsym(text) => row.2 == "gsym" && text.as_str() == row.4,
        Target::Elf(text) => row.2 == "elf" && text.as_str() == row.4,
        Target::Process(id) => row.2 == "process" && row.5 == [u64::from(*id)].as_slice(),
    }
}

/// Whether the product is this one.
fn is_product(product: &Product, row: &Row) -> bool {
    match product {
        Product::Converted(text) => row.2 == "convert" && text.as_str() == row.4,
        Product::Canonical(text) => row.2 == "canon" && text.as_str() == row.4,
    }
}

/// Whether the job is this one.
fn is_job(job: &Job, row: &Row) -> bool {
    match job {
        Job::Batch(target, input) => is_target(target, row) && is_relative(*input, row.3),
        Job::Serve => row.2 == "serve",
        Job::Generate {
            seed,
            functions,
            addresses,
        } => row.2 == "gen" && row.5 == [*seed, *functions, *addresses].as_slice(),
        Job::Make(product) => is_product(product, row),
        Job::Stacks(text) => row.2 == "stacks" && text.as_str() == row.4,
        Job::Frames(text) => row.2 == "frames" && text.as_str() == row.4,
    }
}

/// Whether the command is this one.
fn is_command(command: &Command, row: Option<&Row>) -> bool {
    match row {
        Some(row) => flags_of(command.config) == row.1 && is_job(&command.job, row),
        None => false,
    }
}

/// Whether words are taken as this command, or refused where there is none.
fn are_read(alloc: Global, words: &[String], row: Option<&Row>) -> bool {
    match read_command(alloc, words) {
        Ok(command) => is_command(&command, row),
        Err(bad) => bad == BadWords::Usage && row.is_none(),
    }
}

/// Whether a line is taken as this command, or refused where there is none.
fn is_read(alloc: Global, line: &str, row: Option<&Row>) -> bool {
    match words_of(alloc, line) {
        Some(words) => are_read(alloc, words.as_slice(), row),
        None => false,
    }
}

#[test]
fn takes_and_refuses_command_lines(rt: HostRuntime) {
    for row in &TAKEN {
        let line = row.0;
        assert!(rt; is_read(rt.alloc(), line, Some(row)), "taken: {line}");
    }
    for line in &REFUSED {
        assert!(rt; is_read(rt.alloc(), line, None), "refused: {line}");
    }
    assert!(rt; are_read(rt.alloc(), &[], None), "no words");
}

/// Whether what `clap` says of words begins so, and has no line feed at its end.
fn are_complained_of(alloc: Global, words: &[String], start: &str) -> bool {
    match complaint(alloc, words) {
        Ok(Some(said)) => {
            !start.is_empty() && said.as_str().starts_with(start) && !said.as_str().ends_with('\n')
        }
        Ok(None) => start.is_empty(),
        Err(_) => false,
    }
}

/// The same of a line.
fn is_complaint(alloc: Global, line: &str, start: &str) -> bool {
    match words_of(alloc, line) {
        Some(words) => are_complained_of(alloc, words.as_slice(), start),
        None => false,
    }
}

#[test]
fn says_what_clap_says(rt: HostRuntime) {
    for (line, start) in &COMPLAINTS {
        assert!(rt; is_complaint(rt.alloc(), line, start), "{line}");
    }
}
