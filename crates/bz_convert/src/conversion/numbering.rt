//! Texts and source files, numbered where they are first used.

ghost use Rattle.std.specs.Prelude.{◌≡◌, ◌∷◌, ℕ, [], Some, option_map, slice_get, unwrap_or, IfOk, IfSome, OnOk};
ghost use Rattle.bz_breakpad_lines.specs.Reader.{table_in};
ghost use Rattle.bz_breakpad_lines.specs.Table.{Table};
ghost use Rattle.bz_convert.specs.Ids.{lent_source};
ghost use Rattle.bz_convert.specs.Numbered.{IsNumbered, IsNumbering, IsRemembered, Uses, listed_sources};
ghost use Rattle.bz_gsym_layout.specs.Listing.{listed_texts};
ghost use Rattle.bz_convert.specs.Plan.{origin_named, source_named};
ghost use Rattle.bz_gsym_layout.specs.Numbering.{source_texts};

use crate::ids::{Source, located};
use bz_breakpad::SymbolFile;
use bz_gsym_layout::{Function, Plan, SourceFile, Sources, Texts};
use std::alloc::{AllocError, Global};

/// The texts and the source files that a plan lists.
#[derive(Drop)]
pub(crate) struct Numbering<'a> {
    pub texts: Texts<'a>,
    pub sources: Sources,
    /// The index of the source file of each id from 0 on, where it is known.
    pub files: Vec<Option<u32>>,
    /// The index of the text of each origin from 0 on, where it is known.
    pub origins: Vec<Option<u32>>,
}

impl<'a> Numbering<'a> {
    /// The numbering in which nothing of a file is numbered.
    pub fn new(alloc: Global, file: &SymbolFile) -> Result<Numbering<'a>, AllocError>
        ensures { IfOk result (λ numbering. (table : Table) → IsNumbering table [] [] numbering) }
    {
        let files = none_known(alloc, file.file_count())?;
        let origins = none_known(alloc, file.origin_count())?;
        Ok(Numbering {
            texts: Texts::new(alloc),
            sources: Sources::new(alloc),
            files,
            origins,
        })
    }

    /// The index of a text, which is listed if it wasn't used before.
    pub fn text(&mut self, text: &'a str) -> Result<usize, AllocError>
        ensures numbering { OnOk result ((table : Table) → Uses table (text.now ∷ []) [] self.old self.new) }
        ensures index { IfOk result (λ index. (table : Table) → IsNumbered table self.old → slice_get (listed_texts self.new.texts) index ≡ Some text.now) }
    {
        self.texts.index_of(text)
    }

    /// The index of a source file, which is listed if it wasn't used before.
    fn source(&mut self, source: Source<'a>) -> Result<usize, AllocError>
        ensures numbering { OnOk result ((table : Table) → Uses table (source_texts (lent_source source.entry)) (lent_source source.entry ∷ []) self.old self.new) }
        ensures index { IfOk result (λ index. (table : Table) → IsNumbered table self.old → slice_get (listed_sources self.new) index ≡ Some (lent_source source.entry)) }
    {
        let (dir, name) = source;
        let dir = self.texts.index_of(dir_text(dir))?;
        let name = self.texts.index_of(name)?;
        self.sources.index_of(SourceFile { dir, name })
    }

    /// The index of the source file of an id.
    pub fn file_source(&mut self, file: &'a SymbolFile, id: u32) -> Result<u32, AllocError>
        ensures numbering { OnOk result ((table : Table) → table_in file.now ≡ Some table → Uses table (source_texts (source_named table id)) (source_named table id ∷ []) self.old self.new) }
        ensures index { IfOk result (λ index. (table : Table) → table_in file.now ≡ Some table → IsNumbered table self.old → slice_get (listed_sources self.new) index ≡ Some (source_named table id)) }
    {
        if let Some(index) = known_at(&self.files, id) {
            return Ok(index);
        }
        let listed = self.source(source_of(file, id))?;
        let index = narrow(listed)?;
        remember(&mut self.files, id, index);
        Ok(index)
    }

    /// The index of the text of an origin.
    pub fn origin_text(&mut self, file: &'a SymbolFile, id: u32) -> Result<u32, AllocError>
        ensures numbering { OnOk result ((table : Table) → table_in file.now ≡ Some table → Uses table (origin_named table id ∷ []) [] self.old self.new) }
        ensures index { IfOk result (λ index. (table : Table) → table_in file.now ≡ Some table → IsNumbered table self.old → slice_get (listed_texts self.new.texts) index ≡ Some (origin_named table id)) }
    {
        if let Some(index) = known_at(&self.origins, id) {
            return Ok(index);
        }
        let listed = self.text(name_of(file, id))?;
        let index = narrow(listed)?;
        remember(&mut self.origins, id, index);
        Ok(index)
    }

    /// The plan of functions that use what is listed.
    pub fn into_plan(self, functions: Vec<Function>) -> Plan<'a>
        ensures texts { result.texts ≡ self.entry.texts.listed }
        ensures sources { result.sources ≡ self.entry.sources.listed }
        ensures functions { result.functions ≡ functions }
    {
        let Numbering {
            texts,
            sources,
            files: _,
            origins: _,
        } = self;
        Plan {
            texts: texts.listed,
            sources: sources.listed,
            functions,
        }
    }
}

/// The source file of an id; an empty one if it isn't known.
fn source_of(file: &SymbolFile, id: u32) -> Source<'_>
    ensures { (table : Table) → table_in file.now ≡ Some table → lent_source result ≡ source_named table id }
{
    located(file, id).unwrap_or((None, ""))
}

/// The name of an origin; an empty one if it isn't known.
fn name_of(file: &SymbolFile, origin: u32) -> &str
    ensures { (table : Table) → table_in file.now ≡ Some table → result.now ≡ origin_named table origin }
{
    file.origin(origin).unwrap_or("")
}

/// The text of a directory; that of none is empty.
fn dir_text(dir: Option<&str>) -> &str
    ensures { result.now ≡ unwrap_or (option_map (λ dir. dir.now) dir.entry) [] }
{
    dir.unwrap_or("")
}

/// An index in 32 bits. One that they don't count is told as want of memory.
fn narrow(index: usize) -> Result<u32, AllocError>
    ensures { IfOk result (λ narrowed. narrowed ≡ index) }
{
    u32::try_from(index).map_err(|_| AllocError)
}

/// The indexes of so many ids, of which none is known.
fn none_known(alloc: Global, count: usize) -> Result<Vec<Option<u32>>, AllocError>
    ensures { IfOk result (λ known. (id index : ℕ) → slice_get known.items id ≡ Some (Some index) → ⊥) }
{
    let mut known = Vec::with_capacity(alloc, count)?;
    for _id in 0..count {
        known.push(None)?;
    }
    Ok(known)
}

/// The index of an id, if it is known.
fn known_at(known: &[Option<u32>], id: u32) -> Option<u32>
    ensures { IfSome result (λ index. slice_get known.now id ≡ Some (Some index)) }
{
    known.get(id as usize).copied().flatten()
}

/// Remembers the index of an id, if there is a place for it.
fn remember(known: &mut [Option<u32>], id: u32, index: u32)
    ensures { IsRemembered known.old known.new id index }
{
    let place = id as usize;
    if place < known.len() {
        known[place] = Some(index);
    }
}
