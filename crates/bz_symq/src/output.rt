//! The output.

ghost use Rattle.std.specs.Prelude.{◌≡◌, ◌<◌, ◌++◌, [], length, map, slice_get, slice_index, Some, string_bytes, OnOk, IsOkUnless};
ghost use Rattle.bz_base.specs.Answer.{Answer, reading};
ghost use Rattle.bz_base.specs.declared.error.Error.{Error};
ghost use Rattle.bz_canon.specs.AnswerText.{answer_text, answer_texts};
ghost use Rattle.bz_symq.specs.Reply.{outcome_of, text_of};
ghost use Rattle.bz_symq.specs.Run.{IsNoFailure};
ghost use Rattle.bz_symq.specs.Texts.{AreTexts};
ghost use Rattle.bz_symq.specs.Writing.{Finishes, WritesText};

use crate::reply::{OwnedAnswers, Reply, Said};
use crate::status::Status;
use crate::texts::{Texts, push_entry};
use bz_base::{Error, Result};
use bz_canon::push_answer;
use bz_files::{IoFault, TextOut};
use bz_symbolize::Lookups;
use std::alloc::Global;

/// How long the texts of answers grow, in bytes, before they are written.
const WRITE_THRESHOLD: usize = 65_536;

/// Writes the reply, and ends with its status.
pub fn finish<W: TextOut>(alloc: Global, output: &mut W, reply: &Reply) -> Status
    requires no_failure { IsNoFailure reply.now.status }
    ensures { Finishes W.TextOut (outcome_of reply.now) result output.old output.new }
{
    match write_said(alloc, output, &reply.said) {
        Ok(()) => reply.status,
        Err(IoFault::Fault) => Status::Fault,
        Err(IoFault::OutOfMemory) => Status::Memory,
    }
}

/// Writes what is said, in as many calls as it takes.
pub fn write_said<W: TextOut>(
    alloc: Global,
    output: &mut W,
    said: &Said,
) -> std::result::Result<(), IoFault>
    ensures { WritesText W.TextOut (text_of said.now) result output.old output.new }
{
    match said {
        Said::Text(text) => write_all(output, text.as_str().as_bytes()),
        Said::Answers(lookups) => write_answers(alloc, output, lookups),
        Said::Owned(owned) => write_owned(alloc, output, owned),
        Said::Made(bytes) => write_all(output, bytes.as_slice()),
    }
}

// Writes the texts of the answers at the addresses, one after the other. However many there are,
// only a few answers and some of their texts are in memory.
fn write_answers<W: TextOut>(
    alloc: Global,
    output: &mut W,
    lookups: &Lookups<'_>,
) -> std::result::Result<(), IoFault>
    ensures { WritesText W.TextOut (answer_texts lookups.now.addrs lookups.now.answers) result output.old output.new }
{
    let mut piece = String::new(alloc);
    let mut texts = Texts::new(alloc);
    for index in 0..lookups.len() {
        let Ok(()) = push_next(alloc, &mut piece, &mut texts, lookups, index) else {
            return Err(IoFault::OutOfMemory);
        };
        if piece.len() >= WRITE_THRESHOLD {
            write_piece(output, &mut piece)?;
        }
    }
    write_piece(output, &mut piece)
}

// Writes the texts of answers that were all given, one after the other. However many there are, only
// some of their texts are in memory.
fn write_owned<W: TextOut>(
    alloc: Global,
    output: &mut W,
    owned: &OwnedAnswers,
) -> std::result::Result<(), IoFault>
    ensures { WritesText W.TextOut (answer_texts owned.now.addrs.items (map reading owned.now.answers.items)) result output.old output.new }
{
    let mut piece = String::new(alloc);
    let count = owned.addrs.len().min(owned.answers.len());
    for index in 0..count {
        let Ok(()) = push_answer(&mut piece, owned.addrs[index], &owned.answers[index]) else {
            return Err(IoFault::OutOfMemory);
        };
        if piece.len() >= WRITE_THRESHOLD {
            write_piece(output, &mut piece)?;
        }
    }
    write_piece(output, &mut piece)
}

// Adds the text of the answer at the address of the next index to the end of a text. Past the texts
// that were made ahead, it is made together with some that follow.
fn push_next(
    alloc: Global,
    text: &mut String,
    texts: &mut Texts,
    lookups: &Lookups<'_>,
    index: usize,
) -> Result<()>
    requires within { index < length lookups.now.addrs }
    requires texts { AreTexts lookups.now texts.old }
    ensures ok { OnOk result ((answer : Answer) × (slice_get lookups.now.answers index ≡ Some answer)
        × (string_bytes text.new ≡ string_bytes text.old ++ answer_text (slice_index lookups.now.addrs index) answer)) }
    ensures texts { OnOk result (AreTexts lookups.now texts.new) }
    ensures memory { IsOkUnless result Error.OutOfMemory }
{
    if texts.end_before(index) {
        texts.make(alloc, lookups, index)?;
    }
    push_text(alloc, text, texts, lookups, index)
}

// Adds the text of the answer at the address of an index to the end of a text. Where it wasn't made
// ahead, it is made now.
fn push_text(
    alloc: Global,
    text: &mut String,
    texts: &Texts,
    lookups: &Lookups<'_>,
    index: usize,
) -> Result<()>
    requires within { index < length lookups.now.addrs }
    requires texts { AreTexts lookups.now texts.now }
    ensures ok { OnOk result ((answer : Answer) × (slice_get lookups.now.answers index ≡ Some answer)
        × (string_bytes text.new ≡ string_bytes text.old ++ answer_text (slice_index lookups.now.addrs index) answer)) }
    ensures memory { IsOkUnless result Error.OutOfMemory }
{
    match texts.get(index) {
        Some(made) => {
            text.push_str(made)?;
            Ok(())
        }
        None => push_entry(alloc, text, lookups, index),
    }
}

// Writes the piece; the next one begins in the same memory.
fn write_piece<W: TextOut>(output: &mut W, piece: &mut String) -> std::result::Result<(), IoFault>
    ensures wrote { WritesText W.TextOut (string_bytes piece.old) result output.old output.new }
    ensures next { OnOk result (string_bytes piece.new ≡ []) }
{
    write_all(output, piece.as_str().as_bytes())?;
    piece.clear();
    Ok(())
}

// Writes the whole text, in as many calls as it takes.
fn write_all<W: TextOut>(output: &mut W, text: &[u8]) -> std::result::Result<(), IoFault>
    ensures { WritesText W.TextOut text.now result output.old output.new }
{
    let mut rest = text;
    while !rest.is_empty() {
        let n = output.put(rest)?;
        rest = &rest[n..];
    }
    Ok(())
}
