//! Answers of a batch that are made together.

ghost use Rattle.std.specs.Prelude.{◌≡◌, ◌<◌, length, map, All, IfOk, OnOk, IsOkUnless};
ghost use Rattle.bz_base.specs.Answer.{reading};
ghost use Rattle.bz_base.specs.declared.error.Error.{Error};
ghost use Rattle.bz_lookups.specs.Batch.{answers_to};
ghost use Rattle.bz_lookups.specs.Together.{AnswersMore, AreNext, Grows};

use crate::lookups::Lookups;
use bz_base::{Addr, Reason, Result, Symbolized};
use std::alloc::Global;

/// How many answers are made together. `answers_of` is best asked for so many.
pub const TOGETHER: usize = 32;

/// How many answers are made at a time in the order of their addresses: so many that addresses near
/// each other come together.
const IN_ORDER: usize = 32_768;

impl<'d> Lookups<'d> {
    /// The indices of the answers to make next, from `first` on: as many as are made at a time. They
    /// come in the order in which they are found fastest, so that what stands together in a file is
    /// read together.
    pub fn next_indices(&self, alloc: Global, first: usize) -> Result<Vec<usize>>
        ensures next { IfOk result (λ indices. AreNext self.now first indices.items) }
        ensures memory { IsOkUnless result Error.OutOfMemory }
    {
        let mut entries = self.next_entries(alloc, first)?;
        if self.heeds_order() {
            entries.sort_unstable_by_key(|entry| entry.0);
        }
        indices_of(alloc, &entries)
    }

    // The addresses from an index on, as many as are answered at a time, with their indices.
    fn next_entries(&self, alloc: Global, first: usize) -> Result<Vec<(Addr, usize)>>
        ensures next { IfOk result (λ entries. AreNext self.now first (map (λ e. e.1) entries.items)) }
        ensures memory { IsOkUnless result Error.OutOfMemory }
    {
        let end = self.len().min(first.saturating_add(self.at_a_time()));
        let mut entries = Vec::with_capacity(alloc, end.saturating_sub(first))?;
        for index in first..end {
            entries.push((self.addr(index), index))?;
        }
        Ok(entries)
    }

    // How many answers are made at a time.
    fn at_a_time(&self) -> usize
        ensures { 0 < result }
    {
        if self.heeds_order() {
            IN_ORDER
        } else {
            TOGETHER
        }
    }

    /// All answers, with texts of their own.
    pub fn owned_answers(&self, alloc: Global) -> Result<Vec<Symbolized<'static>>>
        ensures answers { IfOk result (λ answers. map reading answers.items ≡ answers_to self.now.addrs self.now) }
        ensures memory { IsOkUnless result Error.OutOfMemory }
    {
        let mut answers = Vec::with_capacity(alloc, self.len())?;
        let mut first = 0;
        while first < self.len() {
            let indices = self.next_indices(alloc, first)?;
            grow(&mut answers, indices.len())?;
            self.answer_all(alloc, &indices, &mut answers)?;
            first = answers.len();
        }
        Ok(answers)
    }

    // Puts the answers at these indices in their places.
    fn answer_all(
        &self,
        alloc: Global,
        indices: &[usize],
        answers: &mut Vec<Symbolized<'static>>,
    ) -> Result<()>
        requires within { All (λ index. index < length self.now.addrs) indices.now }
        requires room { All (λ index. index < length answers.old.items) indices.now }
        ensures ok { OnOk result (AnswersMore self.now indices.now answers.old.items answers.new.items) }
        ensures memory { IsOkUnless result Error.OutOfMemory }
    {
        let mut from = 0;
        while from < indices.len() {
            let to = indices.len().min(from.saturating_add(TOGETHER));
            self.answer_some(alloc, &indices[from..to], answers)?;
            from = to;
        }
        Ok(())
    }

    // The same of some that are made together. From the last one on, each gets texts of its own.
    fn answer_some(
        &self,
        alloc: Global,
        indices: &[usize],
        answers: &mut Vec<Symbolized<'static>>,
    ) -> Result<()>
        requires within { All (λ index. index < length self.now.addrs) indices.now }
        requires room { All (λ index. index < length answers.old.items) indices.now }
        ensures ok { OnOk result (AnswersMore self.now indices.now answers.old.items answers.new.items) }
        ensures memory { IsOkUnless result Error.OutOfMemory }
    {
        let mut lent = self.answers_of(alloc, indices)?;
        while let Some(answer) = lent.pop() {
            let index = indices[lent.len()];
            answers[index] = answer.into_owned(alloc)?;
        }
        Ok(())
    }
}

// Makes places for more answers, whose values say nothing yet.
fn grow(answers: &mut Vec<Symbolized<'static>>, count: usize) -> Result<()>
    ensures ok { OnOk result (Grows count answers.old.items answers.new.items) }
    ensures memory { IsOkUnless result Error.OutOfMemory }
{
    answers.reserve(count)?;
    for _place in 0..count {
        answers.push_reserved(Symbolized::Unknown(Reason::UnknownAddr));
    }
    Ok(())
}

// The indices of entries, in their order.
fn indices_of(alloc: Global, entries: &[(Addr, usize)]) -> Result<Vec<usize>>
    ensures indices { IfOk result (λ indices. indices.items ≡ map (λ e. e.1) entries.now) }
    ensures memory { IsOkUnless result Error.OutOfMemory }
{
    let mut indices = Vec::with_capacity(alloc, entries.len())?;
    for entry in entries {
        indices.push(entry.1)?;
    }
    Ok(indices)
}
