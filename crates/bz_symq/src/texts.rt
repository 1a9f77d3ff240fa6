//! The texts of answers that are made together. They are made in the order of their addresses where
//! that is faster: what stands close together in a file is read together then.

ghost use Rattle.std.specs.Prelude.{◌≡◌, ◌<◌, ◌++◌, length, slice_get, slice_index, string_bytes, All, Some, OnOk, IfSome, IsOkUnless};
ghost use Rattle.bz_base.specs.Answer.{Answer, reading};
ghost use Rattle.bz_base.specs.declared.error.Error.{Error};
ghost use Rattle.bz_lookups.specs.Batch.{Batch};
ghost use Rattle.bz_lookups.specs.Together.{IsAmong};
ghost use Rattle.bz_canon.specs.AnswerText.{answer_text};
ghost use Rattle.bz_symq.specs.Texts.{AreTexts, IsTextOf, MakesMore};

use bz_base::{Error, Result, Symbolized};
use bz_canon::push_answer;
use bz_symbolize::{Lookups, TOGETHER};
use std::alloc::Global;

/// Behind texts that are longer than this, in bytes, no more are made ahead. What is left then is
/// made as it is written.
const ROOM: usize = 16_777_216;

/// Behind texts that are longer than this, in bytes, answers are made one by one, so that long ones
/// don't stand in memory together.
const LONG: usize = 65_536;

/// Where a text stands among others.
#[derive(Clone, Copy)]
struct TextPart {
    /// Where it begins.
    from: usize,
    /// Where it ends.
    to: usize,
}

/// The texts of some answers of a batch.
#[derive(Drop)]
pub(crate) struct Texts {
    /// The index of the first of these answers.
    first: usize,
    /// The texts, in the order in which they were made.
    text: String,
    /// Where the text of each answer stands, if it was made.
    parts: Vec<Option<TextPart>>,
    /// Whether the next answer is made alone: the last texts were long, or none was made.
    alone: bool,
}

impl Texts {
    /// No texts.
    pub(crate) fn new(alloc: Global) -> Texts
        ensures { (batch : Batch) → AreTexts batch result }
    {
        Texts {
            first: 0,
            text: String::new(alloc),
            parts: Vec::new(alloc),
            alone: true,
        }
    }

    /// Whether the index is past those whose texts were made.
    pub(crate) fn end_before(&self, index: usize) -> bool {
        match index.checked_sub(self.first) {
            Some(place) => place >= self.parts.len(),
            None => true,
        }
    }

    /// The text of the answer at an index, if it was made.
    pub(crate) fn get(&self, index: usize) -> Option<&str>
        ensures { (batch : Batch) → AreTexts batch self.now → IfSome result (λ text. IsTextOf batch index text.now) }
    {
        let place = index.checked_sub(self.first)?;
        if place >= self.parts.len() {
            return None;
        }
        match self.parts[place] {
            Some(part) => self.text.as_str().get(part.from..part.to),
            None => None,
        }
    }

    /// Makes the texts of the answers from an index on, in place of those that were made.
    pub(crate) fn make(&mut self, alloc: Global, lookups: &Lookups<'_>, first: usize) -> Result<()>
        ensures ok { OnOk result (AreTexts lookups.now self.new) }
        ensures memory { IsOkUnless result Error.OutOfMemory }
    {
        let order = lookups.next_indices(alloc, first)?;
        self.first = first;
        self.text.clear();
        self.parts.clear();
        self.parts.resize(order.len(), None)?;
        self.make_in(alloc, lookups, &order)
    }

    // Makes the texts of the answers at these indices, as long as there is room.
    fn make_in(&mut self, alloc: Global, lookups: &Lookups<'_>, order: &[usize]) -> Result<()>
        requires among { All (IsAmong lookups.now self.old.first (length self.old.parts.items)) order.now }
        requires texts { AreTexts lookups.now self.old }
        ensures ok { OnOk result (AreTexts lookups.now self.new) }
        ensures memory { IsOkUnless result Error.OutOfMemory }
    {
        let mut from = 0;
        while from < order.len() && self.text.len() <= ROOM {
            let to = order.len().min(from.saturating_add(self.together()));
            let before = self.text.len();
            self.make_some(alloc, lookups, &order[from..to])?;
            self.alone = self.text.len().saturating_sub(before) > LONG;
            from = to;
        }
        Ok(())
    }

    // How many answers are made together next.
    fn together(&self) -> usize
        ensures { 0 < result }
    {
        if self.alone { 1 } else { TOGETHER }
    }

    // Makes the texts of the answers at some indices, which are made together.
    fn make_some(&mut self, alloc: Global, lookups: &Lookups<'_>, indices: &[usize]) -> Result<()>
        requires among { All (IsAmong lookups.now self.old.first (length self.old.parts.items)) indices.now }
        ensures ok { OnOk result (MakesMore lookups.now self.old self.new) }
        ensures memory { IsOkUnless result Error.OutOfMemory }
    {
        let answers = lookups.answers_of(alloc, indices)?;
        for place in 0..answers.len() {
            self.make_one(lookups, indices[place], &answers[place])?;
        }
        Ok(())
    }

    // Makes the text of the answer at an index of the batch.
    fn make_one(
        &mut self,
        lookups: &Lookups<'_>,
        index: usize,
        answer: &Symbolized<'_>,
    ) -> Result<()>
        requires among { IsAmong lookups.now self.old.first (length self.old.parts.items) index }
        requires answer { slice_get lookups.now.answers index ≡ Some (reading answer.now) }
        ensures ok { OnOk result (MakesMore lookups.now self.old self.new) }
        ensures memory { IsOkUnless result Error.OutOfMemory }
    {
        let from = self.text.len();
        push_answer(&mut self.text, lookups.addr(index), answer)?;
        let to = self.text.len();
        self.parts[index - self.first] = Some(TextPart { from, to });
        Ok(())
    }
}

/// Adds the text of the answer at the address of an index to the end of a text.
pub(crate) fn push_entry(
    alloc: Global,
    text: &mut String,
    lookups: &Lookups<'_>,
    index: usize,
) -> Result<()>
    requires { index < length lookups.now.addrs }
    ensures ok { OnOk result ((answer : Answer) × (slice_get lookups.now.answers index ≡ Some answer)
        × (string_bytes text.new ≡ string_bytes text.old ++ answer_text (slice_index lookups.now.addrs index) answer)) }
    ensures memory { IsOkUnless result Error.OutOfMemory }
{
    let answer = lookups.answer(alloc, index)?;
    push_answer(text, lookups.addr(index), &answer)
}
