//! The requests that lines spell.

ghost use Rattle.std.specs.Prelude.{◌≡◌, ◌∷◌, ℕ, Ok, Err, Some, None, bytes_eq, map, option_map, string_bytes, IfOk, IsErrOf};
ghost use Rattle.bz_requests.specs.Requests.{CacheElf, CacheProcess, EvictElf, EvictProcess, batch_in, cache_in, evict_in, other_in, path_in, request_by, request_in, request_of, request_to, requests_in, single_in, target_alone_in, target_in, target_of};

use crate::addresses::{address, each_address};
use crate::field::fields;
use crate::lines::{BadInput, FromLine, read_lines};
use crate::requests::{Request, Target};
use bz_base::whole_u32;
use std::alloc::{AllocError, Global};

/// The requests that the lines of the input say: one on each line, or none where it is empty.
pub fn read_requests(alloc: Global, text: &[u8]) -> Result<Vec<Request>, BadInput>
    ensures ok { IfOk result (λ requests. requests_in text.now ≡ Ok (map request_of requests.items)) }
    ensures line { (n : ℕ) → IsErrOf result (BadInput.Line n) → requests_in text.now ≡ Err n }
{
    read_lines(alloc, text)
}

impl FromLine for Request {
    ghost Data = { Rattle.bz_requests.specs.Requests.Request };

    ghost data_of = { request_of };

    ghost reads = { request_in };

    fn from_line(alloc: Global, content: &[u8]) -> Result<Option<Request>, AllocError> {
        spelled_request(alloc, content)
    }
}

// The request that the text spells.
#[tactic(auto, unfolding(crate::specs::Requests::request_in))]
fn spelled_request(alloc: Global, text: &[u8]) -> Result<Option<Request>, AllocError>
    ensures { IfOk result (λ request. option_map request_of request ≡ request_in text.now) }
{
    let fields = fields(alloc, text)?;
    request_of_fields(alloc, fields.as_slice())
}

fn request_of_fields(alloc: Global, fields: &[&[u8]]) -> Result<Option<Request>, AllocError>
    ensures { IfOk result (λ request. option_map request_of request ≡ request_by (map (λ field. field.now) fields.now)) }
{
    match fields {
        [] => Ok(None),
        [first, others @ ..] => request_of_kind(alloc, first, others),
    }
}

fn request_of_kind(
    alloc: Global,
    kind: &[u8],
    others: &[&[u8]],
) -> Result<Option<Request>, AllocError>
    ensures { IfOk result (λ request. option_map request_of request ≡ request_by (kind.now ∷ map (λ field. field.now) others.now)) }
{
    if is(kind, "single") {
        single(alloc, others)
    } else if is(kind, "cache") {
        cache(alloc, others)
    } else if is(kind, "evict") {
        evict(alloc, others)
    } else {
        other(alloc, kind, others)
    }
}

fn single(alloc: Global, fields: &[&[u8]]) -> Result<Option<Request>, AllocError>
    ensures { IfOk result (λ request. option_map request_of request ≡ single_in (map (λ field. field.now) fields.now)) }
{
    let [kind, text, addr] = fields else {
        return Ok(None);
    };
    let Some(target) = named_target(alloc, kind, text)? else {
        return Ok(None);
    };
    match address(addr) {
        Some(addr) => Ok(Some(Request::Single(target, addr))),
        None => Ok(None),
    }
}

fn cache(alloc: Global, fields: &[&[u8]]) -> Result<Option<Request>, AllocError>
    ensures { IfOk result (λ request. option_map request_of request ≡ cache_in (map (λ field. field.now) fields.now)) }
{
    match target_alone(alloc, fields)? {
        Some(target) => Ok(request_to_cache(target)),
        None => Ok(None),
    }
}

fn evict(alloc: Global, fields: &[&[u8]]) -> Result<Option<Request>, AllocError>
    ensures { IfOk result (λ request. option_map request_of request ≡ evict_in (map (λ field. field.now) fields.now)) }
{
    match target_alone(alloc, fields)? {
        Some(target) => Ok(request_to_evict(target)),
        None => Ok(None),
    }
}

fn request_to_cache(target: Target) -> Option<Request>
    ensures { option_map request_of result ≡ request_to CacheElf CacheProcess (target_of target) }
{
    match target {
        Target::Elf(path) => Some(Request::CacheElf(path)),
        Target::Process(pid) => Some(Request::CacheProcess(pid)),
        Target::Breakpad(_) | Target::Gsym(_) => None,
    }
}

fn request_to_evict(target: Target) -> Option<Request>
    ensures { option_map request_of result ≡ request_to EvictElf EvictProcess (target_of target) }
{
    match target {
        Target::Elf(path) => Some(Request::EvictElf(path)),
        Target::Process(pid) => Some(Request::EvictProcess(pid)),
        Target::Breakpad(_) | Target::Gsym(_) => None,
    }
}

fn other(alloc: Global, kind: &[u8], fields: &[&[u8]]) -> Result<Option<Request>, AllocError>
    ensures { IfOk result (λ request. option_map request_of request ≡ other_in kind.now (map (λ field. field.now) fields.now)) }
{
    match fields {
        [] => Ok(None),
        [text, addrs @ ..] => batch(alloc, kind, text, addrs),
    }
}

fn batch(
    alloc: Global,
    kind: &[u8],
    text: &[u8],
    addrs: &[&[u8]],
) -> Result<Option<Request>, AllocError>
    ensures { IfOk result (λ request. option_map request_of request ≡ batch_in kind.now text.now (map (λ field. field.now) addrs.now)) }
{
    let Some(target) = named_target(alloc, kind, text)? else {
        return Ok(None);
    };
    match each_address(alloc, addrs)? {
        Some(addrs) => Ok(Some(Request::Batch(target, addrs))),
        None => Ok(None),
    }
}

// The target that the fields name, with no field behind.
fn target_alone(alloc: Global, fields: &[&[u8]]) -> Result<Option<Target>, AllocError>
    ensures { IfOk result (λ target. option_map target_of target ≡ target_alone_in (map (λ field. field.now) fields.now)) }
{
    let [kind, text] = fields else {
        return Ok(None);
    };
    named_target(alloc, kind, text)
}

fn named_target(alloc: Global, kind: &[u8], text: &[u8]) -> Result<Option<Target>, AllocError>
    ensures { IfOk result (λ target. option_map target_of target ≡ target_in kind.now text.now) }
{
    if is(kind, "breakpad") {
        match path(alloc, text)? {
            Some(path) => Ok(Some(Target::Breakpad(path))),
            None => Ok(None),
        }
    } else if is(kind, "gsym") {
        match path(alloc, text)? {
            Some(path) => Ok(Some(Target::Gsym(path))),
            None => Ok(None),
        }
    } else if is(kind, "elf") {
        match path(alloc, text)? {
            Some(path) => Ok(Some(Target::Elf(path))),
            None => Ok(None),
        }
    } else if is(kind, "process") {
        match whole_u32(text) {
            Some(pid) => Ok(Some(Target::Process(pid))),
            None => Ok(None),
        }
    } else {
        Ok(None)
    }
}

// UTF-8 text of at least one byte.
fn path(alloc: Global, text: &[u8]) -> Result<Option<String>, AllocError>
    ensures { IfOk result (λ path. option_map string_bytes path ≡ path_in text.now) }
{
    if text.is_empty() {
        return Ok(None);
    }
    match str::from_utf8(text) {
        Ok(text) => {
            let path = String::from_str(alloc, text)?;
            Ok(Some(path))
        }
        Err(_) => Ok(None),
    }
}

// Whether the text is the word.
fn is(text: &[u8], word: &str) -> bool
    ensures { result ≡ bytes_eq text.now word.now }
{
    text == word.as_bytes()
}
