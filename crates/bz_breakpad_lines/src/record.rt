//! The records that lines are, read the general way.

ghost use Rattle.std.specs.Prelude.{◌≡◌, option_map, IfOk};
ghost use Rattle.bz_breakpad_lines.specs.Choice.{one_at};
ghost use Rattle.bz_breakpad_lines.specs.Contexts.{body_record, under_at};
ghost use Rattle.bz_breakpad_lines.specs.Form.Form.{◌·◌, Name, SeparatorText};
ghost use Rattle.bz_breakpad_lines.specs.Form.Piece.{Decimal, Separator, Tag};
ghost use Rattle.bz_breakpad_lines.specs.Reads.{form_at, many_at, reads};
ghost use Rattle.bz_breakpad_lines.specs.Records.{CALL, FUNC, INLINE, INNER, INNER_ORIGIN, LINE, MODULE, PUBLIC, RANGE, TOP};
ghost use Rattle.bz_breakpad_lines.specs.Told.{call_told, context_told, func_told, inline_told, inner_told, line_told, public_told, range_told, ranges_told, record_told, top_told};

use crate::field::{
    decimal_field, end, gap, hex_field, marked, module_separator, name, next_decimal, next_name,
    next_size, separator, separator_text, tag, word,
};
use std::alloc::AllocError;

/// A line record.
#[derive(Clone, Copy, Debug, PartialEq, Eq)]
pub struct SourceLine {
    /// Where its code starts, relative to the module's base.
    pub addr: u64,
    /// The size of its code, in bytes.
    pub size: u32,
    /// The id of the source file.
    pub file: u32,
    /// The line in it.
    pub line: u32,
}

/// A FUNC record in the text.
#[derive(Drop)]
pub struct FuncLine<'a> {
    /// Where the function starts, relative to the module's base.
    pub start: u64,
    /// Its size, in bytes.
    pub size: u32,
    /// The size of its parameters, in bytes.
    pub parameter_size: u32,
    /// Its name.
    pub name: &'a str,
}

/// The function of a FUNC record.
fn func(line: &[u8]) -> Option<FuncLine<'_>>
    ensures { option_map func_told result ≡ form_at FUNC line.now }
{
    let rest = separator(tag(line, b"FUNC")?)?;
    let (start, rest) = hex_field(marked(rest, b'm'), 16)?;
    let (size, rest) = next_size(rest)?;
    let (parameter_size, rest) = next_size(rest)?;
    Some(FuncLine {
        start,
        size,
        parameter_size,
        name: next_name(rest)?,
    })
}

/// The line record that the body is.
pub fn line_record(line: &[u8]) -> Option<SourceLine>
    ensures { option_map line_told result ≡ form_at LINE line.now }
{
    let (addr, rest) = hex_field(line, 16)?;
    let (size, rest) = next_size(rest)?;
    let (line, rest) = next_decimal(rest)?;
    let (file, rest) = next_decimal(rest)?;
    end(rest)?;
    Some(SourceLine {
        addr,
        size,
        line,
        file,
    })
}

/// The id and the name in a record whose tag this is: a FILE or an INLINE_ORIGIN record.
#[inline(always)]
fn named_record<'a>(line: &'a [u8], kind: &[u8]) -> Option<(u32, &'a str)>
    ensures { option_map (λ f. (f.0, f.1.now)) result ≡ form_at (Tag kind.now · Separator · Decimal · Separator · Name) line.now }
{
    let (id, rest) = next_decimal(tag(line, kind)?)?;
    Some((id, next_name(rest)?))
}

/// The name in a MODULE record.
fn module_name(line: &[u8]) -> Option<&str>
    ensures { option_map (λ name. name.now) result ≡ form_at MODULE line.now }
{
    let rest = word(separator(tag(line, b"MODULE")?)?)?;
    let rest = word(module_separator(rest)?)?;
    let rest = word(module_separator(rest)?)?;
    name(module_separator(rest)?)
}

/// A range of code, where a function was inlined.
#[derive(Clone, Copy)]
pub struct Range {
    /// Where it starts, relative to the module's base.
    pub addr: u64,
    /// Its size, in bytes.
    pub size: u32,
}

/// The call in an INLINE record.
#[derive(Drop)]
pub struct InlineCall {
    /// How many calls it lies inside.
    pub depth: u32,
    /// The line of the call.
    pub line: u32,
    /// The id of the call's file.
    pub file: u32,
    /// The id of the function's name.
    pub origin: u32,
}

/// The call in an INLINE record, and the text after it.
pub fn call_front(line: &[u8]) -> Option<(InlineCall, &[u8])>
    ensures { option_map (λ read. (call_told read.0, read.1.now)) result ≡ reads CALL line.now }
{
    let (depth, rest) = decimal_field(gap(tag(line, b"INLINE ")?))?;
    let (line, rest) = next_decimal(rest)?;
    let (file, rest) = next_decimal(rest)?;
    let (origin, rest) = next_decimal(rest)?;
    Some((
        InlineCall {
            depth,
            line,
            file,
            origin,
        },
        rest,
    ))
}

/// A range at the front of the text, and the text after it.
fn range_front(text: &[u8]) -> Option<(Range, &[u8])>
    ensures { option_map (λ read. (range_told read.0, read.1.now)) result ≡ reads RANGE text.now }
{
    let (addr, rest) = hex_field(separator(text)?, 16)?;
    let (size, rest) = next_size(rest)?;
    Some((Range { addr, size }, rest))
}

/// Reads the ranges that make up the text, if there is at least one and nothing else.
fn read_ranges(ranges: &mut Vec<Range>, text: &[u8]) -> Result<Option<()>, AllocError>
    ensures { IfOk result (λ found. option_map (λ _. ranges_told ranges.new.items) found ≡ many_at (reads RANGE) text.now) }
{
    ranges.clear();
    let mut rest = text;
    while let Some((range, after)) = range_front(rest) {
        ranges.push(range)?;
        if after.is_empty() {
            return Ok(Some(()));
        }
        rest = after;
    }
    Ok(None)
}

/// The call of an INLINE record, whose ranges are read.
fn inline(ranges: &mut Vec<Range>, line: &[u8]) -> Result<Option<InlineCall>, AllocError>
    ensures { IfOk result (λ found. option_map (λ call. inline_told call ranges.new.items) found ≡ form_at INLINE line.now) }
{
    let Some((call, rest)) = call_front(line) else {
        return Ok(None);
    };
    match read_ranges(ranges, rest)? {
        Some(()) => Ok(Some(call)),
        None => Ok(None),
    }
}

/// A PUBLIC record in the text.
#[derive(Drop)]
pub struct PublicLine<'a> {
    /// Where the symbol starts, relative to the module's base.
    pub addr: u64,
    /// The size of its parameters, in bytes.
    pub parameter_size: u32,
    /// Its name.
    pub name: &'a str,
}

fn public_line(line: &[u8]) -> Option<PublicLine<'_>>
    ensures { option_map public_told result ≡ form_at PUBLIC line.now }
{
    let rest = separator(tag(line, b"PUBLIC")?)?;
    let (addr, rest) = hex_field(marked(rest, b'm'), 16)?;
    let (parameter_size, rest) = next_size(rest)?;
    Some(PublicLine {
        addr,
        parameter_size,
        name: next_name(rest)?,
    })
}

/// That the line is a record whose tag this is, and of whose text nothing is kept.
#[inline(always)]
fn text_record(line: &[u8], kind: &[u8]) -> Option<()>
    ensures { option_map (λ _. tt) result ≡ form_at (Tag kind.now · SeparatorText) line.now }
{
    separator_text(tag(line, kind)?)
}

/// A record that stands by itself.
#[derive(Drop)]
pub enum TopLine<'a> {
    /// The name in a MODULE record.
    Module(&'a str),
    /// An INFO record.
    Info,
    /// The id and the path of a FILE record.
    File(u32, &'a str),
    /// The id and the name of an INLINE_ORIGIN record.
    InlineOrigin(u32, &'a str),
    /// A PUBLIC record.
    Public(PublicLine<'a>),
    /// A FUNC record.
    Func(FuncLine<'a>),
    /// A STACK WIN record.
    StackWin,
    /// A STACK CFI INIT record.
    StackCfiInit,
}

/// The record by itself that the body is.
pub fn top_body(body: &[u8]) -> Option<TopLine<'_>>
    ensures { option_map top_told result ≡ one_at TOP body.now }
{
    if let Some(name) = module_name(body) {
        return Some(TopLine::Module(name));
    }
    if text_record(body, b"INFO").is_some() {
        return Some(TopLine::Info);
    }
    if let Some((id, path)) = named_record(body, b"FILE") {
        return Some(TopLine::File(id, path));
    }
    if let Some((id, name)) = named_record(body, b"INLINE_ORIGIN") {
        return Some(TopLine::InlineOrigin(id, name));
    }
    if let Some(public) = public_line(body) {
        return Some(TopLine::Public(public));
    }
    if let Some(func) = func(body) {
        return Some(TopLine::Func(func));
    }
    if text_record(body, b"STACK WIN").is_some() {
        return Some(TopLine::StackWin);
    }
    if text_record(body, b"STACK CFI INIT").is_some() {
        return Some(TopLine::StackCfiInit);
    }
    None
}

/// The id and the name of an INLINE_ORIGIN record that is an inner record.
fn inner_origin(line: &[u8]) -> Option<(u32, &str)>
    ensures { option_map (λ f. (f.0, f.1.now)) result ≡ form_at INNER_ORIGIN line.now }
{
    let (id, rest) = decimal_field(gap(tag(line, b"INLINE_ORIGIN ")?))?;
    Some((id, next_name(rest)?))
}

/// An inner record: one that belongs to a FUNC record.
#[derive(Drop)]
pub enum InnerLine<'a> {
    /// A line record.
    Line(SourceLine),
    /// The call of an INLINE record, whose ranges stand beside it.
    Inline(InlineCall),
    /// The id and the name of an INLINE_ORIGIN record.
    InnerOrigin(u32, &'a str),
}

/// The inner record that the body is.
fn inner<'a>(ranges: &mut Vec<Range>, body: &'a [u8]) -> Result<Option<InnerLine<'a>>, AllocError>
    ensures { IfOk result (λ found. option_map (λ inner. inner_told inner ranges.new.items) found ≡ one_at INNER body.now) }
{
    if let Some(line) = line_record(body) {
        return Ok(Some(InnerLine::Line(line)));
    }
    if let Some(call) = inline(ranges, body)? {
        return Ok(Some(InnerLine::Inline(call)));
    }
    match inner_origin(body) {
        Some((id, name)) => Ok(Some(InnerLine::InnerOrigin(id, name))),
        None => Ok(None),
    }
}

/// The record under which a line stands.
#[derive(Clone, Copy)]
pub enum Context {
    /// No record that has lines of its own.
    Outside,
    /// A FUNC record.
    InFunc,
    /// A STACK CFI INIT record.
    InCfi,
}

/// The record that a line is.
#[derive(Drop)]
pub enum RecordLine<'a> {
    /// A record that stands by itself.
    Top(TopLine<'a>),
    /// An inner record, which belongs to a FUNC record.
    OfFunc(InnerLine<'a>),
    /// A STACK CFI record, which belongs to a STACK CFI INIT record.
    OfCfi,
}

/// The record that the body is under the one that the context names.
fn under<'a>(
    ranges: &mut Vec<Range>,
    context: Context,
    body: &'a [u8],
) -> Result<Option<RecordLine<'a>>, AllocError>
    ensures { IfOk result (λ found. option_map (λ r. record_told r ranges.new.items) found ≡ under_at (context_told context) body.now) }
{
    match context {
        Context::Outside => Ok(None),
        Context::InFunc => match inner(ranges, body)? {
            Some(inner) => Ok(Some(RecordLine::OfFunc(inner))),
            None => Ok(None),
        },
        Context::InCfi => match text_record(body, b"STACK CFI") {
            Some(()) => Ok(Some(RecordLine::OfCfi)),
            None => Ok(None),
        },
    }
}

/// The record that the body is in the context. The ranges of an INLINE record stand beside it.
pub fn read_record<'a>(
    ranges: &mut Vec<Range>,
    context: Context,
    body: &'a [u8],
) -> Result<Option<RecordLine<'a>>, AllocError>
    ensures { IfOk result (λ found. option_map (λ r. record_told r ranges.new.items) found ≡ body_record (context_told context) body.now) }
{
    if let Some(found) = under(ranges, context, body)? {
        return Ok(Some(found));
    }
    match top_body(body) {
        Some(top) => Ok(Some(RecordLine::Top(top))),
        None => Ok(None),
    }
}
