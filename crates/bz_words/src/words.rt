//! The command that words give: its kind, arguments and flags are read here.

ghost use Rattle.std.specs.Prelude.{◌≡◌, ◌≢◌, ◌≤◌, true, Ok, Some, None, [], map, option_map, string_bytes, IfOk, IfSome};
ghost use Rattle.bz_base.specs.InputKind.{address_kind};
ghost use Rattle.bz_requests.specs.Requests.{target_of};
ghost use Rattle.clap.specs.Words.{first_of, found_of, kind_of, rows_of};
ghost use Rattle.clap.specs.declared.error.kind.ErrorKind.TheVariants as kinds;
ghost use Rattle.bz_words.specs.Command.{IsUsage, batch_in, command_by, command_in, command_of, config_in, generate_in, has_flag, job_by_rows, job_in, job_of, job_on, kind_for, kind_named, number_in, numbers_in, on_path_in, path_job, positive_in, process_in, serve_in, with_argument};
ghost use Rattle.bz_words.specs.Definition.{IsTakenByClap, faults, rows};
ghost use Rattle.bz_words.specs.declared.words.BadWords.TheVariants.{OutOfMemory};

use crate::definition::program;
use crate::given::{Command, Job, Product};
use bz_base::{Input, whole_decimal, whole_u32};
use bz_requests::{Config, Target};
use clap::error::ErrorKind;
use clap::{ArgMatches, Error};
use std::alloc::{AllocError, Global};

/// Why words give no command.
#[derive(Clone, Copy, Debug, PartialEq, Eq)]
pub enum BadWords {
    /// They are no command line of the program.
    Usage,
    /// Memory ran out.
    OutOfMemory,
}

impl From<AllocError> for BadWords {
    ghost from_gives = { λ _ e. e ≡ OutOfMemory };

    fn from(_failed: AllocError) -> BadWords {
        BadWords::OutOfMemory
    }
}

/// The command that the words give, which come without the program's name.
pub fn read_command(alloc: Global, words: &[String]) -> Result<Command, BadWords>
    ensures ok { IfOk result (λ command. command_in (map string_bytes words.now) ≡ Some (command_of command)) }
    ensures usage { IsUsage result → command_in (map string_bytes words.now) ≡ None }
    // What `clap` says of its own accord: words that it takes are refused only where
    // they read as no command.
    ensures taken { IsUsage result → IsTakenByClap (map string_bytes words.now) → command_by (rows (map string_bytes words.now)) ≡ None }
{
    let matches = matches(alloc, words)?;
    command_given(alloc, &matches)
}

// What `clap` makes of the words.
fn matches<'a>(alloc: Global, words: &'a [String]) -> Result<ArgMatches<'a>, BadWords>
    ensures ok { IfOk result (λ matches. rows_of (found_of matches) ≡ rows (map string_bytes words.now)) }
    ensures faultless { IfOk result (λ matches. faults (map string_bytes words.now) ≡ []) }
    ensures usage { IsUsage result → faults (map string_bytes words.now) ≡ [] → ⊥ }
    ensures taken { IsUsage result → IsTakenByClap (map string_bytes words.now) → ⊥ }
{
    let program = program(alloc)?;
    match program.try_get_matches_from(words) {
        Ok(matches) => Ok(matches),
        Err(error) => Err(refusal(&error)),
    }
}

// Words that aren't taken are a faulty command line, whatever is wrong with them.
fn refusal(error: &Error) -> BadWords
    ensures usage { result ≡ BadWords.Usage → kind_of error.now ≢ kinds.OutOfMemory }
{
    if error.kind() == ErrorKind::OutOfMemory {
        BadWords::OutOfMemory
    } else {
        BadWords::Usage
    }
}

// The command that the matches give.
fn command_given(alloc: Global, matches: &ArgMatches<'_>) -> Result<Command, BadWords>
    ensures ok { IfOk result (λ command. command_by (rows_of (found_of matches.now)) ≡ Some (command_of command)) }
    ensures usage { IsUsage result → command_by (rows_of (found_of matches.now)) ≡ None }
{
    let config = config_given(matches);
    match job_of_matches(alloc, matches)? {
        Some(job) => Ok(Command { config, job }),
        None => Err(BadWords::Usage),
    }
}

fn config_given(matches: &ArgMatches<'_>) -> Config
    ensures { result ≡ config_in (rows_of (found_of matches.now)) }
{
    Config {
        reload: !has_flag(matches, "no-reload"),
        code_info: !has_flag(matches, "no-code-info"),
        inlined: !has_flag(matches, "no-inlined"),
        map_files: !has_flag(matches, "no-map-files"),
    }
}

// Whether a flag was given.
fn has_flag(matches: &ArgMatches<'_>, flag: &str) -> bool
    ensures { result ≡ has_flag flag.now (rows_of (found_of matches.now)) }
{
    match text(matches, flag) {
        Some(value) => value == "true",
        None => false,
    }
}

// The first value of an argument.
fn text<'a>(matches: &ArgMatches<'a>, id: &str) -> Option<&'a str>
    ensures { option_map (λ text. text.now) result ≡ first_of id.now (rows_of (found_of matches.now)) }
{
    matches.get_str(id)
}

// What is to be done, by the matches.
fn job_of_matches(alloc: Global, matches: &ArgMatches<'_>) -> Result<Option<Job>, AllocError>
    ensures { IfOk result (λ job. option_map job_of job ≡ job_by_rows (rows_of (found_of matches.now))) }
{
    let kind = text(matches, "kind");
    let input = text(matches, "input");
    match matches.get_strs("arg") {
        Some(args) => job_given(alloc, kind, input, args),
        None => job_given(alloc, kind, input, &[]),
    }
}

// What is to be done, by the kind of command, the kind of address and the arguments.
fn job_given(
    alloc: Global,
    kind: Option<&str>,
    input: Option<&str>,
    args: &[&str],
) -> Result<Option<Job>, AllocError>
    ensures { IfOk result (λ job. option_map job_of job ≡ job_in (option_map (λ text. text.now) kind.entry) (option_map (λ text. text.now) input.entry) (map (λ text. text.now) args.now)) }
{
    match kind {
        Some("serve") => Ok(serve(input, args)),
        Some("gen") => Ok(generate(input, args)),
        Some(kind) => with_argument(alloc, kind, input, args),
        None => Ok(None),
    }
}

fn serve(input: Option<&str>, args: &[&str]) -> Option<Job>
    ensures { option_map job_of result ≡ serve_in (option_map (λ text. text.now) input.entry) (map (λ text. text.now) args.now) }
{
    match (input, args) {
        (None, []) => Some(Job::Serve),
        _ => None,
    }
}

fn generate(input: Option<&str>, args: &[&str]) -> Option<Job>
    ensures { option_map job_of result ≡ generate_in (option_map (λ text. text.now) input.entry) (map (λ text. text.now) args.now) }
{
    match (input, args) {
        (None, [seed, functions, addresses]) => numbers(seed, functions, addresses),
        _ => None,
    }
}

fn numbers(seed: &str, functions: &str, addresses: &str) -> Option<Job>
    ensures { option_map job_of result ≡ numbers_in seed.now functions.now addresses.now }
{
    let seed = number(seed, 2_147_483_647)?;
    let functions = positive(functions, 100_000)?;
    let addresses = number(addresses, 100_000)?;
    Some(Job::Generate {
        seed,
        functions,
        addresses,
    })
}

fn positive(text: &str, greatest: u64) -> Option<u64>
    ensures value { result ≡ positive_in greatest text.now }
{
    let value = number(text, greatest)?;
    if value >= 1 { Some(value) } else { None }
}

// One to ten decimal digits.
fn number(text: &str, greatest: u64) -> Option<u64>
    ensures value { result ≡ number_in greatest text.now }
    ensures small { IfSome result (λ value. value ≤ greatest) }
{
    whole_decimal(text.as_bytes(), 10, greatest)
}

// Any other kind of command takes one argument.
fn with_argument(
    alloc: Global,
    kind: &str,
    input: Option<&str>,
    args: &[&str],
) -> Result<Option<Job>, AllocError>
    ensures { IfOk result (λ job. option_map job_of job ≡ with_argument kind.now (option_map (λ text. text.now) input.entry) (map (λ text. text.now) args.now)) }
{
    match args {
        [arg] => job_on(alloc, kind, input, arg),
        _ => Ok(None),
    }
}

fn job_on(
    alloc: Global,
    kind: &str,
    input: Option<&str>,
    arg: &str,
) -> Result<Option<Job>, AllocError>
    ensures { IfOk result (λ job. option_map job_of job ≡ job_on kind.now (option_map (λ text. text.now) input.entry) arg.now) }
{
    match kind {
        "breakpad" => Ok(batch(Target::Breakpad(String::from_str(alloc, arg)?), input)),
        "gsym" => Ok(batch(Target::Gsym(String::from_str(alloc, arg)?), input)),
        "elf" => Ok(batch(Target::Elf(String::from_str(alloc, arg)?), input)),
        "process" => Ok(process(input, arg)),
        _ => on_path(alloc, kind, input, arg),
    }
}

// The addresses on the input, asked of the target.
fn batch(target: Target, input: Option<&str>) -> Option<Job>
    ensures { option_map job_of result ≡ batch_in (option_map (λ text. text.now) input.entry) (target_of target) }
{
    let kind = kind_for(&target, input)?;
    Some(Job::Batch(target, kind))
}

fn process(input: Option<&str>, text: &str) -> Option<Job>
    ensures { option_map job_of result ≡ process_in (option_map (λ text. text.now) input.entry) text.now }
{
    let number = whole_u32(text.as_bytes())?;
    batch(Target::Process(number), input)
}

// The work on one path, which takes no kind of address.
fn on_path(
    alloc: Global,
    kind: &str,
    input: Option<&str>,
    path: &str,
) -> Result<Option<Job>, AllocError>
    ensures { IfOk result (λ job. option_map job_of job ≡ on_path_in kind.now (option_map (λ text. text.now) input.entry) path.now) }
{
    match input {
        None => path_job(alloc, kind, path),
        Some(_) => Ok(None),
    }
}

fn path_job(alloc: Global, kind: &str, path: &str) -> Result<Option<Job>, AllocError>
    ensures { IfOk result (λ job. option_map job_of job ≡ path_job kind.now path.now) }
{
    let job = match kind {
        "convert" => Job::Make(Product::Converted(String::from_str(alloc, path)?)),
        "canon" => Job::Make(Product::Canonical(String::from_str(alloc, path)?)),
        "stacks" => Job::Stacks(String::from_str(alloc, path)?),
        "frames" => Job::Frames(String::from_str(alloc, path)?),
        _ => return Ok(None),
    };
    Ok(Some(job))
}

fn kind_for(target: &Target, input: Option<&str>) -> Option<Input<()>>
    ensures { option_map address_kind result ≡ kind_for (target_of target.now) (option_map (λ text. text.now) input.entry) }
{
    match input {
        None => Some(target.usual_kind()),
        Some(text) => kind_named(text),
    }
}

fn kind_named(text: &str) -> Option<Input<()>>
    ensures { option_map address_kind result ≡ kind_named text.now }
{
    if text == "abs" {
        Some(Input::AbsAddr(()))
    } else if text == "virt" {
        Some(Input::VirtOffset(()))
    } else if text == "file" {
        Some(Input::FileOffset(()))
    } else {
        None
    }
}
