//! What has been read of a file so far, and one line more.

ghost use Rattle.std.specs.Prelude.{◌≡◌, ◌+◌, ◌∷◌, ◌++◌, [], ℕ, List, length, Some, IfSome, IfOk, OnOk};
ghost use Rattle.bz_breakpad_lines.specs.Contexts.{Context, body_record};
ghost use Rattle.bz_breakpad_lines.specs.Contexts.Record.{OfFunc, Top};
ghost use Rattle.bz_breakpad_lines.specs.Line.{EndsWith};
ghost use Rattle.bz_breakpad_lines.specs.Reader.{Reading, nothing_read, with_record};
ghost use Rattle.bz_breakpad_lines.specs.Table.{PublicSymbol};
ghost use Rattle.bz_breakpad_lines.specs.Told.{InnerStands, inner_told, public_symbol, record_told, top_name, top_told};
ghost use Rattle.bz_breakpad_table.specs.Kept.{IsNameAt, IsRecordAt, IsSoFar, LinesFitSoFar, PublicsSoFar};

use crate::functions::FunctionsReading;
use crate::names::Names;
use crate::types::{KeptPublic, Part};
use bz_breakpad_lines::{InnerLine, PublicLine, Range, RecordLine, TopLine};
use std::alloc::{AllocError, Global};

/// What has been read of a file, up to the end of a line.
#[derive(Drop)]
pub struct KeptReading {
    /// The name in the MODULE record.
    pub module: Option<Part>,
    /// The FUNC records, with what stands under them.
    pub functions: FunctionsReading,
    /// The names of files, by id.
    pub files: Names,
    /// The names of inlined functions, by id.
    pub origins: Names,
    /// The PUBLIC records, in the order of the file.
    pub publics: Vec<KeptPublic>,
}

impl KeptReading {
    /// Nothing read.
    pub fn new(alloc: Global) -> KeptReading
        ensures { (bytes : List ℕ) → IsSoFar bytes result nothing_read }
    {
        KeptReading {
            module: None,
            functions: FunctionsReading::new(alloc),
            files: Names::new(alloc),
            origins: Names::new(alloc),
            publics: Vec::new(alloc),
        }
    }

    /// Keeps a record by itself, whose body ends at a place in the bytes.
    fn top(&mut self, top: TopLine<'_>, end: usize) -> Result<(), AllocError>
        ensures { OnOk result ((bytes body : List ℕ) (start : ℕ) (reading : Reading) → IsRecordAt bytes start body → end ≡ start + length body →
            IfSome (top_name top.entry) (EndsWith body) → IsSoFar bytes self.old reading →
            IsSoFar bytes self.new (with_record reading (Top (top_told top.entry)))) }
    {
        self.functions.close()?;
        match top {
            TopLine::Module(name) => self.module = Some(name_part(name, end)?),
            TopLine::File(id, path) => self.files.insert(id, name_part(path, end)?)?,
            TopLine::InlineOrigin(id, name) => self.origins.insert(id, name_part(name, end)?)?,
            TopLine::Public(public) => keep_public(
                &mut self.publics,
                &public,
                name_part(public.name, end)?,
            )?,
            TopLine::Func(func) => self.functions.begin(&func, name_part(func.name, end)?),
            TopLine::Info => {}
            TopLine::StackWin => {}
            TopLine::StackCfiInit => {}
        }
        Ok(())
    }

    /// Keeps a record under a FUNC record, whose body stands at a place in the bytes.
    fn inner(
        &mut self,
        bytes: &[u8],
        inner: InnerLine<'_>,
        ranges: &[Range],
        start: usize,
        end: usize,
    ) -> Result<(), AllocError>
        requires { LinesFitSoFar bytes.now self.old.functions.listed.items self.old.functions.lines }
        ensures { OnOk result ((body : List ℕ) (reading : Reading) → IsRecordAt bytes.now start body → end ≡ start + length body →
            InnerStands bytes.now start body inner.entry → IsSoFar bytes.now self.old reading →
            IsSoFar bytes.now self.new (with_record reading (OfFunc (inner_told inner.entry ranges.now)))) }
    {
        match inner {
            InnerLine::Line(_) => self.functions.list(bytes, start),
            InnerLine::Inline(call) => self.functions.inline(&call, ranges, start),
            InnerLine::InnerOrigin(id, name) => self.origins.insert(id, name_part(name, end)?),
        }
    }

    /// Keeps a record whose body stands at a place in the bytes, with the ranges of an INLINE record.
    pub fn record(
        &mut self,
        bytes: &[u8],
        found: RecordLine<'_>,
        ranges: &[Range],
        start: usize,
        end: usize,
    ) -> Result<(), AllocError>
        requires { LinesFitSoFar bytes.now self.old.functions.listed.items self.old.functions.lines }
        ensures { OnOk result ((body : List ℕ) (context : Context) (reading : Reading) → IsRecordAt bytes.now start body →
            end ≡ start + length body → body_record context body ≡ Some (record_told found.entry ranges.now) → IsSoFar bytes.now self.old reading →
            IsSoFar bytes.now self.new (with_record reading (record_told found.entry ranges.now))) }
    {
        match found {
            RecordLine::Top(top) => self.top(top, end),
            RecordLine::OfFunc(inner) => self.inner(bytes, inner, ranges, start, end),
            RecordLine::OfCfi => Ok(()),
        }
    }
}

/// The part of the bytes that a name has that ends at a place.
pub fn name_part(name: &str, end: usize) -> Result<Part, AllocError>
    ensures { IfOk result (λ part. (bytes body : List ℕ) (start : ℕ) → IsRecordAt bytes start body → end ≡ start + length body → EndsWith body name.now →
        IsNameAt bytes part name.now) }
{
    let part = Part::new(end.saturating_sub(name.len()), end)?;
    Ok(part)
}

/// Keeps a PUBLIC record.
fn keep_public(
    publics: &mut Vec<KeptPublic>,
    public: &PublicLine<'_>,
    name: Part,
) -> Result<(), AllocError>
    ensures { OnOk result ((bytes : List ℕ) (list : List PublicSymbol) → IsNameAt bytes name public.now.name.now → PublicsSoFar bytes publics.old.items list →
        PublicsSoFar bytes publics.new.items (list ++ public_symbol public.now ∷ [])) }
{
    publics.push(KeptPublic {
        start: public.addr,
        parameter_size: public.parameter_size,
        name,
    })?;
    Ok(())
}
