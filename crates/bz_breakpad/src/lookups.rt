//! The answers to addresses whose records were found. What a batch of them reads is touched together.

ghost use Rattle.std.specs.Prelude.{◌≡◌, ◌<◌, map, length, slice_index, IfOk, IfErr, IsOkUnless};
ghost use Rattle.std.specs.List.{AllByRecursion};
ghost use Rattle.bz_base.specs.Answer.{Gives, reading};
ghost use Rattle.bz_base.specs.Lent.{IsLent, IsLentResolved};
ghost use Rattle.bz_base.specs.Refusals.{WantsMemory};
ghost use Rattle.bz_base.specs.Resolution.{StartsBefore, answer_at, found_of};
ghost use Rattle.bz_base.specs.declared.error.Error.{Error};
ghost use Rattle.bz_base.specs.declared.types.FindSymOpts.{FindSymOpts};
ghost use Rattle.bz_breakpad.specs.Found.{AreRecordsFor, IsRecordFor, is_public};
ghost use Rattle.bz_breakpad.specs.Plain.{batch, plain};
ghost use Rattle.bz_breakpad.specs.Resolver.{marked};
ghost use Rattle.bz_breakpad.specs.Stands.{OfTableIn, StandsForSuch};
ghost use Rattle.bz_breakpad_function.specs.Locations.{IsAnswerRefusal};

use crate::found::{FoundAddr, FoundRecord};
use crate::symbol::symbol_from;
use bz_base::{Addr, Error, FindSymOpts, Reason, ResolvedSym, Result, Sym, Symbolized, in_batch};
use bz_breakpad_function::{Cuts, Guess};
use bz_breakpad_table::{KeptFunction, KeptTable, LineRecords};
use std::alloc::Global;

/// For so many answers what lies far is touched together.
const TOGETHER: usize = 32;

/// Addresses of a file, and the records that were found for them.
#[derive(Drop)]
pub(crate) struct FoundAddrs<'f, 'b> {
    pub bytes: &'f [u8],
    pub kept: &'f KeptTable,
    pub addrs: &'b [Addr],
    pub found: &'b [FoundRecord],
}

impl<'f, 'b> FoundAddrs<'f, 'b> {
    /// The answers to all addresses, in their order; an address that is refused is an ignored error.
    pub fn answers(&self, alloc: Global, opts: &FindSymOpts) -> Result<Vec<Symbolized<'f>>>
        requires records { StandsForSuch self.now.bytes.now self.now.kept.now (λ table. AreRecordsFor table self.now.addrs.now self.now.found.now) }
        requires count { length self.now.found.now ≡ length self.now.addrs.now }
        ensures answers { IfOk result (λ answers. OfTableIn self.now.bytes.now self.now.kept.now (λ table. AreRecordsFor table self.now.addrs.now self.now.found.now →
            map reading answers.items ≡ batch table opts.now self.now.addrs.now)) }
        ensures lent { IfOk result (λ answers. AllByRecursion IsLent answers.items) }
        ensures memory { IsOkUnless result Error.OutOfMemory }
    {
        let mut answers = Vec::with_capacity(alloc, self.addrs.len())?;
        let mut hints = [Cuts::unknown(); TOGETHER];
        for index in 0..self.addrs.len() {
            if index % TOGETHER == 0 {
                hints = self.hints(index);
            }
            match self.answer_at(alloc, index, opts, hints[index % TOGETHER]) {
                Ok(answer) => answers.push_reserved(answer),
                Err(error) => answers.push_reserved(in_batch(Err(error))?),
            }
        }
        Ok(answers)
    }

    /// The answer at the address of an index, with hints for `location_at`.
    fn answer_at(
        &self,
        alloc: Global,
        index: usize,
        opts: &FindSymOpts,
        hints: Cuts,
    ) -> Result<Symbolized<'f>>
        requires records { StandsForSuch self.now.bytes.now self.now.kept.now (λ table. AreRecordsFor table self.now.addrs.now self.now.found.now) }
        requires count { length self.now.found.now ≡ length self.now.addrs.now }
        requires within { index < length self.now.addrs.now }
        ensures answer { OfTableIn self.now.bytes.now self.now.kept.now (λ table. AreRecordsFor table self.now.addrs.now self.now.found.now →
            Gives reading (plain table opts.now (slice_index self.now.addrs.now index)) result) }
        ensures lent { IfOk result IsLent }
        ensures refusal { IfErr result IsAnswerRefusal }
        ensures memory { IfErr result (WantsMemory (opts.now ≡ FindSymOpts.CodeInfoAndInlined)) }
    {
        let at = FoundAddr {
            addr: self.addrs[index],
            found: self.found[index],
            hints,
        };
        answer_from(alloc, self.bytes, self.kept, opts, &at)
    }

    /// Hints for the answers from an index on. What lies far is touched for all of them together: the
    /// functions first, and then what the answers read of each.
    fn hints(&self, from: usize) -> [Cuts; TOGETHER] {
        let indices = self.function_indices(from);
        let functions = self.functions(&indices);
        let far = self.far_places(from, &functions);
        let usual = self.which_are_usual(&far);
        self.cuts_of_usual(from, &far, &usual)
    }

    /// The indices of the functions that answer from an index on.
    fn function_indices(&self, from: usize) -> [usize; TOGETHER] {
        let mut indices = [usize::MAX; TOGETHER];
        for place in 0..TOGETHER {
            indices[place] = self.function_index(from.saturating_add(place));
        }
        indices
    }

    /// The functions of the indices.
    fn functions(&self, indices: &[usize; TOGETHER]) -> [Option<KeptFunction>; TOGETHER] {
        let mut functions = [None; TOGETHER];
        for place in 0..TOGETHER {
            functions[place] = self.kept.code.functions.get(indices[place]).copied();
        }
        functions
    }

    /// The far places of the answers from an index on, by their functions.
    fn far_places(
        &self,
        from: usize,
        functions: &[Option<KeptFunction>; TOGETHER],
    ) -> [FarPlaces; TOGETHER] {
        let mut far = [FarPlaces::none(); TOGETHER];
        for place in 0..TOGETHER {
            far[place] = self.far_places_of(&functions[place], from.saturating_add(place));
        }
        far
    }

    /// Which answers are usual, by their far places, which are touched.
    fn which_are_usual(&self, far: &[FarPlaces; TOGETHER]) -> [bool; TOGETHER] {
        let mut usual = [false; TOGETHER];
        for place in 0..TOGETHER {
            usual[place] = self.touched(&far[place]).is_usual();
        }
        usual
    }

    /// Where the line records are to be cut for the answers from an index on, of those that are usual.
    fn cuts_of_usual(
        &self,
        from: usize,
        far: &[FarPlaces; TOGETHER],
        usual: &[bool; TOGETHER],
    ) -> [Cuts; TOGETHER] {
        let mut hints = [Cuts::unknown(); TOGETHER];
        for place in 0..TOGETHER {
            if usual[place] {
                hints[place] = self.cuts(&far[place], from.saturating_add(place));
            }
        }
        hints
    }

    /// The index of the function that answers at an index, which is past all if there is none.
    fn function_index(&self, index: usize) -> usize {
        match self.found.get(index) {
            Some(FoundRecord::Function(function)) => *function as usize,
            _ => usize::MAX,
        }
    }

    /// The far places of the answer at an index, by its function.
    fn far_places_of(&self, function: &Option<KeptFunction>, index: usize) -> FarPlaces {
        let (Some(function), Some(addr)) = (function, self.addrs.get(index)) else {
            return FarPlaces::none();
        };
        let guess = match function.lines {
            LineRecords::Run(run) => {
                Guess::at(run, addr.saturating_sub(function.start), function.size)
            }
            LineRecords::Listed(_) => Guess::none(),
        };
        FarPlaces {
            guess,
            name: function.name.from as usize,
            inlinees: function.inlinees.from as usize,
        }
    }

    /// What stands at the far places of an answer.
    /// All of it is read: each read brings memory close that the answer reads.
    fn touched(&self, far: &FarPlaces) -> Touched {
        Touched {
            name: self.bytes.get(far.name).copied(),
            depth: match self.kept.code.inlinees.get(far.inlinees) {
                Some(call) => Some(call.depth),
                None => None,
            },
            line: self.bytes.get(far.guess.place()).copied(),
            last: self.bytes.get(far.guess.last()).copied(),
        }
    }

    /// Where the line records are to be cut for the answer at an index.
    fn cuts(&self, far: &FarPlaces, index: usize) -> Cuts {
        match self.addrs.get(index) {
            Some(addr) => far.guess.cuts(self.bytes, *addr),
            None => Cuts::unknown(),
        }
    }
}

/// The places elsewhere that an answer reads of its function.
#[derive(Clone, Copy)]
struct FarPlaces {
    /// Where its line record is likely to stand.
    guess: Guess,
    /// Where the function's name begins.
    name: usize,
    /// Where its inlined calls begin in the table of all of them, even if it has none.
    inlinees: usize,
}

impl FarPlaces {
    /// Of no function.
    fn none() -> FarPlaces {
        FarPlaces {
            guess: Guess::none(),
            name: usize::MAX,
            inlinees: usize::MAX,
        }
    }
}

/// What stands at the far places of an answer.
#[derive(Clone, Copy)]
struct Touched {
    /// The first byte of the function's name.
    name: Option<u8>,
    /// The depth of its first inlined call.
    /// Where it has none, another function's stands there, or none.
    depth: Option<u32>,
    /// The byte where its line record is likely to stand.
    line: Option<u8>,
    /// The last byte of its line records.
    last: Option<u8>,
}

impl Touched {
    /// Whether the function has a name, and line records that are text to the end of a line.
    /// The inlined call where its own begin, if one stands there, must lie in no other.
    /// No test is skipped where another fails, so that all that was read is waited for together.
    fn is_usual(&self) -> bool {
        let named = match self.name {
            Some(first) => first != b'\n',
            None => false,
        };
        let outermost = match self.depth {
            Some(depth) => depth == 0,
            None => true,
        };
        let text = match self.line {
            Some(byte) => byte != 0,
            None => false,
        };
        let ended = match self.last {
            Some(byte) => byte == b'\n',
            None => false,
        };
        named & outermost & text & ended
    }
}

/// The answer at an address, from the record that was found for it.
pub(crate) fn answer_from<'a>(
    alloc: Global,
    bytes: &'a [u8],
    kept: &'a KeptTable,
    opts: &FindSymOpts,
    at: &FoundAddr,
) -> Result<Symbolized<'a>>
    requires { StandsForSuch bytes.now kept.now (λ table. IsRecordFor table at.now.addr at.now.found) }
    ensures answer { OfTableIn bytes.now kept.now (λ table. IsRecordFor table at.now.addr at.now.found →
        Gives reading (plain table opts.now at.now.addr) result) }
    ensures lent { IfOk result IsLent }
    ensures refusal { IfErr result IsAnswerRefusal }
    ensures memory { IfErr result (WantsMemory (opts.now ≡ FindSymOpts.CodeInfoAndInlined)) }
{
    let symbol = symbol_from(alloc, bytes, kept, opts, at)?;
    Ok(answer_of(symbol, at.found, at.addr))
}

/// The symbol of a record, or why there is none, as the answer at the address.
fn answer_of<'a>(
    symbol: std::result::Result<ResolvedSym<'a>, Reason>,
    found: FoundRecord,
    addr: Addr,
) -> Symbolized<'a>
    requires { StartsBefore addr (found_of symbol) }
    ensures answer { reading result ≡ marked (is_public found) (answer_at addr (found_of symbol.entry)) }
    ensures lent { IfOk symbol.entry IsLentResolved → IsLent result }
{
    match symbol {
        Ok(symbol) => Symbolized::Sym(Sym {
            public: found.is_public(),
            ..symbol.into_sym(addr)
        }),
        Err(reason) => Symbolized::Unknown(reason),
    }
}
