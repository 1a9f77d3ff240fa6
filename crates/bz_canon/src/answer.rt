//! The text of an answer.

ghost use Rattle.std.specs.Prelude.{◌≡◌, ◌+◌, ◌++◌, ◌≤◌, Some, map, option_map, codes, length, string_bytes, OnOk, IfOk, IsOkUnless};
ghost use Rattle.std.specs.Cow.{cow_str_bytes};
ghost use Rattle.std.specs.Str.{IsUtf8};
ghost use Rattle.bz_base.specs.Answer.{site_of, call_of, symbol_of, reading};
ghost use Rattle.bz_base.specs.Answer.Answer.{Unknown};
ghost use Rattle.bz_base.specs.Path.{path_text};
ghost use Rattle.bz_canon.specs.AnswerText.{hex, size_text, module_text, line_text, site_text, end_text, line_end, numbers_text, call_text, calls_text, symbol_text, result_text, answer_text};

use crate::piece::Piece;
use crate::text_piece::{push_piece, put_hex_after, put_str};
use bz_base::{
    CodeInfo, Error, InlinedFn, Reason, Result, Sym, Symbolized, begins_with_slash, slash_after,
};
use std::alloc::Global;
use std::borrow::CowStr;

/// The text of the answer at an address.
pub fn answer_text(alloc: Global, addr: u64, answer: &Symbolized<'_>) -> Result<String>
    ensures ok { IfOk result (λ text. string_bytes text ≡ answer_text addr (reading answer.now)) }
    ensures memory { IsOkUnless result Error.OutOfMemory }
{
    let mut text = String::new(alloc);
    push_answer(&mut text, addr, answer)?;
    Ok(text)
}

/// Adds the text of the answer at an address to the end of a text.
pub fn push_answer(text: &mut String, addr: u64, answer: &Symbolized<'_>) -> Result<()>
    ensures ok { OnOk result (string_bytes text.new ≡ string_bytes text.old ++ answer_text addr (reading answer.now)) }
    ensures memory { IsOkUnless result Error.OutOfMemory }
{
    push_addr(text, addr)?;
    match answer {
        Symbolized::Sym(symbol) => push_symbol(text, symbol),
        Symbolized::Unknown(reason) => push_reason(text, *reason),
    }
}

// 0xADDR:
fn push_addr(text: &mut String, addr: u64) -> Result<()>
    ensures ok { OnOk result (string_bytes text.new ≡ string_bytes text.old ++ (hex addr ++ codes ": ")) }
    ensures memory { IsOkUnless result Error.OutOfMemory }
{
    let mut piece = Piece::new();
    put_str(&mut piece, ": ");
    put_hex_after(&mut piece, "0x", addr);
    push_piece(text, &piece)?;
    Ok(())
}

fn push_reason(text: &mut String, reason: Reason) -> Result<()>
    ensures ok { OnOk result (string_bytes text.new ≡ string_bytes text.old ++ result_text (Unknown reason)) }
    ensures memory { IsOkUnless result Error.OutOfMemory }
{
    write!(text, "? {reason}\n")?;
    Ok(())
}

// The line of a symbol, and a line for each of its inlined calls.
fn push_symbol(text: &mut String, symbol: &Sym<'_>) -> Result<()>
    ensures ok { OnOk result (string_bytes text.new ≡ string_bytes text.old ++ symbol_text (symbol_of symbol.now)) }
    ensures memory { IsOkUnless result Error.OutOfMemory }
{
    text.push_str(symbol.name.as_str())?;
    push_numbers(text, symbol)?;
    push_module(text, &symbol.module)?;
    push_end(text, &symbol.code_info, symbol.public)?;
    push_calls(text, symbol.inlined.as_slice())
}

// +0xOFFSET start 0xSTART size 0xSIZE module, which stand together in one piece
fn push_numbers(text: &mut String, symbol: &Sym<'_>) -> Result<()>
    ensures ok { OnOk result (string_bytes text.new ≡ string_bytes text.old ++ numbers_text (symbol_of symbol.now)) }
    ensures memory { IsOkUnless result Error.OutOfMemory }
{
    let mut piece = Piece::new();
    put_str(&mut piece, " module ");
    put_size(&mut piece, symbol.size);
    put_hex_after(&mut piece, " start 0x", symbol.addr);
    put_hex_after(&mut piece, "+0x", symbol.offset as u64);
    push_piece(text, &piece)?;
    Ok(())
}

// size 0xSIZE, in front of a piece
#[inline(always)]
fn put_size(piece: &mut Piece, size: Option<usize>)
    requires { length piece.old + 24 ≤ 96 }
    ensures text { piece.new ≡ codes " size " ++ (size_text size ++ piece.old) }
    ensures short { length piece.new ≤ length piece.old + 24 }
    ensures utf8 { IsUtf8 piece.old → IsUtf8 piece.new }
{
    match size {
        Some(size) => put_hex_after(piece, " size 0x", size as u64),
        None => put_str(piece, " size -"),
    }
}

fn push_module(text: &mut String, name: &Option<CowStr<'_>>) -> Result<()>
    ensures ok { OnOk result (string_bytes text.new ≡ string_bytes text.old ++ module_text (option_map cow_str_bytes name.now)) }
    ensures memory { IsOkUnless result Error.OutOfMemory }
{
    match name {
        Some(name) => text.push_str(name.as_str())?,
        None => text.push_str("-")?,
    }
    Ok(())
}

fn push_calls(text: &mut String, calls: &[InlinedFn<'_>]) -> Result<()>
    ensures ok { OnOk result (string_bytes text.new ≡ string_bytes text.old ++ calls_text (map call_of calls.now)) }
    ensures memory { IsOkUnless result Error.OutOfMemory }
{
    for call in calls {
        push_call(text, call)?;
    }
    Ok(())
}

// NAME at WHERE, after two spaces
fn push_call(text: &mut String, call: &InlinedFn<'_>) -> Result<()>
    ensures ok { OnOk result (string_bytes text.new ≡ string_bytes text.old ++ call_text (call_of call.now)) }
    ensures memory { IsOkUnless result Error.OutOfMemory }
{
    text.push_str("  ")?;
    text.push_str(call.name.as_str())?;
    push_end(text, &call.code_info, false)
}

// at WHERE, and the line's end
fn push_end(text: &mut String, place: &Option<CodeInfo<'_>>, public: bool) -> Result<()>
    ensures ok { OnOk result (string_bytes text.new ≡ string_bytes text.old ++ end_text (option_map site_of place.now) public) }
    ensures memory { IsOkUnless result Error.OutOfMemory }
{
    text.push_str(" at ")?;
    match place {
        Some(place) => push_site(text, place, public),
        None => {
            text.push_str("-")?;
            text.push_str(line_end(public))?;
            Ok(())
        }
    }
}

// How the answer's line ends.
fn line_end(public: bool) -> &'static str
    ensures text { result.now ≡ line_end public }
    ensures short { length result.now ≤ 8 }
{
    if public { " public\n" } else { "\n" }
}

// The joined path and the line, and the end of the answer's line.
fn push_site(text: &mut String, site: &CodeInfo<'_>, public: bool) -> Result<()>
    ensures ok { OnOk result (string_bytes text.new ≡ string_bytes text.old ++ (site_text (Some (site_of site.now)) ++ line_end public)) }
    ensures memory { IsOkUnless result Error.OutOfMemory }
{
    push_path(text, &site.dir, site.file.as_str())?;
    push_line(text, site.line, public)
}

// :LINE, and the end of the answer's line
fn push_line(text: &mut String, line: Option<u32>, public: bool) -> Result<()>
    ensures ok { OnOk result (string_bytes text.new ≡ string_bytes text.old ++ (line_text line ++ line_end public)) }
    ensures memory { IsOkUnless result Error.OutOfMemory }
{
    match line {
        Some(line) => {
            let mut piece = Piece::new();
            put_str(&mut piece, line_end(public));
            piece.put_decimal(line);
            put_str(&mut piece, ":");
            push_piece(text, &piece)?;
        }
        None => text.push_str(line_end(public))?,
    }
    Ok(())
}

fn push_path(text: &mut String, dir: &Option<CowStr<'_>>, file: &str) -> Result<()>
    ensures ok { OnOk result (string_bytes text.new ≡ string_bytes text.old ++ path_text (option_map cow_str_bytes dir.now) file.now) }
    ensures memory { IsOkUnless result Error.OutOfMemory }
{
    match dir {
        Some(dir) => push_joined(text, dir.as_str(), file),
        None => {
            text.push_str(file)?;
            Ok(())
        }
    }
}

// The path of a file in a directory.
fn push_joined(text: &mut String, dir: &str, file: &str) -> Result<()>
    ensures ok { OnOk result (string_bytes text.new ≡ string_bytes text.old ++ path_text (Some dir.now) file.now) }
    ensures memory { IsOkUnless result Error.OutOfMemory }
{
    if !begins_with_slash(file) {
        text.push_str(dir)?;
        text.push_str(slash_after(dir))?;
    }
    text.push_str(file)?;
    Ok(())
}
