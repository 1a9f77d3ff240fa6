//! What holds of this crate's definitions.

ghost use Rattle.std.specs.Prelude.{◌≡◌, ◌↔◌, ◌∷◌, ℕ, List, Ok, Err, map};
ghost use Rattle.std.specs.List.{AllByRecursion};
ghost use denote.Ref.{Bor};
ghost use Rattle.bz_base.specs.Answer.{Answer};
ghost use Rattle.bz_base.specs.InputKind.{AddressKind};
ghost use Rattle.bz_base.specs.declared.error.Error.{Error};
ghost use Rattle.bz_base.specs.declared.input.Input.TheVariants.{FileOffset, VirtOffset};
ghost use Rattle.bz_base.specs.declared.types.FindSymOpts.{FindSymOpts};
ghost use Rattle.bz_files.specs.Agreement.{Agree};
ghost use Rattle.bz_breakpad.specs.Version.{format_test};
ghost use Rattle.bz_cache.specs.Cache.{Cache, new_cache};
ghost use Rattle.bz_cache.specs.Coherence.{Coherent};
ghost use Rattle.bz_cache.specs.Insertion.{insertion};
ghost use Rattle.bz_files.specs.World.{World, entry_at};
ghost use Rattle.bz_elf.specs.Format as elf;
ghost use Rattle.bz_elf.specs.Profile.{IsElf};
ghost use Rattle.bz_gsym.specs.Version as gsym;
ghost use Rattle.bz_lookups.specs.Formats.{breakpad_answering, elf_answering, gsym_answering};
ghost use Rattle.bz_symbolize.specs.Alike.{BatchesFoldRefusals, EntriesStandAlone, HandedFold, HandedStandAlone, OrderMovesAnswers, OrderMovesHanded};
ghost use Rattle.bz_symbolize.specs.FileCall.{batch_of, batch_query, file_answer, query_asked};
ghost use Rattle.bz_symbolize.specs.History.{Call, Coheres, MayReach, PerfMapsMayReach, RegistersTruly};
ghost use Rattle.bz_symbolize.specs.Lookup.{breakpad_answer, elf_answer, fresh_answer, gsym_answer};
ghost use Rattle.bz_symbolize.specs.Promise.{IsAnswerOf, IsBreakpadAnswer, IsBreakpadBatch, IsElfAnswer, IsElfBatch, IsGsymAnswer, IsGsymBatch};
ghost use Rattle.bz_symbolize.specs.Registration.{StaysRegistered};
ghost use Rattle.bz_symbolize.specs.Sources.{OnFile, OnHanded};
ghost use Rattle.bz_symbolize.specs.State.{Settings, State, new_state};
ghost use Rattle.bz_symbolize.specs.declared.source.Source.{Source};

/// A symbolizer that keeps nothing answers a source that is a file by what lies at its path.
pub fn new_symbolizer_answers()
    ensures breakpad { (opts : FindSymOpts) (settings : Settings) (path : List ℕ) (addrs : Bor (List ℕ)) (world : World) →
        file_answer (query_asked format_test breakpad_answering opts path (batch_query (FileOffset addrs))) (new_state settings).breakpad path (entry_at world path) ≡ fresh_answer (breakpad_answer opts addrs.now) (entry_at world path) }
    ensures gsym { (opts : FindSymOpts) (settings : Settings) (path : List ℕ) (addrs : Bor (List ℕ)) (world : World) →
        file_answer (query_asked gsym.format_test gsym_answering opts path (batch_query (VirtOffset addrs))) (new_state settings).gsym path (entry_at world path) ≡ fresh_answer (gsym_answer opts addrs.now) (entry_at world path) }
    ensures elf { (opts : FindSymOpts) (settings : Settings) (path : List ℕ) (kind : AddressKind) (addrs : List ℕ) (world : World) →
        file_answer (query_asked elf.format_test elf_answering opts path (batch_of kind addrs)) (new_state settings).elf path (entry_at world path) ≡ fresh_answer (elf_answer path kind addrs) (entry_at world path) }
{}

/// From a new symbolizer on, take any list of calls whose worlds agree with each other and with the
/// present one. Kept Breakpad and GSYM files and perf maps then cohere with the world in view, whatever
/// was registered. So do kept ELF files where each registration was of the bytes that its file had. A
/// call on a process is the list of its looks. One that keeps or forgets what answers is the list of
/// its looks, pins and forgotten paths.
pub fn runs_stay_coherent()
    ensures read { (settings : Settings) (calls : List (World × Call)) (state : State) (world : World) →
        Agree (world ∷ map (λ call. call.0) calls) → MayReach (new_state settings) calls state → Coherent state.breakpad.kept world × Coherent state.gsym.kept world }
    ensures registered { (settings : Settings) (calls : List (World × Call)) (state : State) (world : World) →
        Agree (world ∷ map (λ call. call.0) calls) → AllByRecursion (λ call. RegistersTruly call.0 call.1) calls → MayReach (new_state settings) calls state → Coheres state world }
    ensures perf_maps { (settings : Settings) (calls : List (World × Call)) (perf_maps : Cache) (world : World) →
        Agree (world ∷ map (λ call. call.0) calls) → PerfMapsMayReach (new_cache settings.reload) calls perf_maps → Coherent perf_maps.kept world }
{}

/// After a registration that is answered, take any list of calls in any worlds. The registered bytes
/// answer an ELF source at the path while it is at the stamp that its file had, and this stays kept. So
/// they do at any other path that comes to that stamp.
pub fn registered_files_answer()
    ensures { (state : State) (world : World) (path bytes : List ℕ) →
        IsElf bytes → (insertion state.elf path bytes (entry_at world path)).0 ≡ Ok tt → StaysRegistered state world path bytes }
{}

/// An entry of a batch that is answered is what a batch of its address alone is answered, over the
/// same version in view.
pub fn entries_stand_alone()
    ensures { (source : Source) → OnFile source EntriesStandAlone }
{}

/// In two batches that are answered over the same version in view, equal addresses have equal entries.
/// A batch in another order has its answers in that order.
pub fn order_moves_answers()
    ensures { (source : Source) → OnFile source OrderMovesAnswers }
{}

/// An entry of an answered batch is what the single call makes of its address over the same version in
/// view. There a refusal is an ignored error. That call is answered, or refused for its address.
pub fn batches_fold_refusals()
    ensures { (source : Source) → OnFile source (BatchesFoldRefusals source) }
{}

/// No version refuses a batch by itself, so a promise of a batch leaves no such refusal. What a
/// Breakpad file answers to one is the batch of its table. What a GSYM file answers is that of its
/// tables, and what an ELF file does that of its symbol table.
pub fn batches_are_answered()
    ensures refused { (source : Source) (opts : FindSymOpts) (bytes : List ℕ) (kind : AddressKind) (addrs : List ℕ) (e : Error) → IsAnswerOf source opts bytes (batch_of kind addrs) (Err e) → ⊥ }
    ensures breakpad { (opts : FindSymOpts) (bytes : List ℕ) (kind : AddressKind) (addrs : List ℕ) (answers : List Answer) →
        IsBreakpadAnswer opts bytes (batch_of kind addrs) (Ok answers) ↔ IsBreakpadBatch opts bytes addrs answers }
    ensures gsym { (opts : FindSymOpts) (bytes : List ℕ) (kind : AddressKind) (addrs : List ℕ) (answers : List Answer) →
        IsGsymAnswer opts bytes (batch_of kind addrs) (Ok answers) ↔ IsGsymBatch opts bytes addrs answers }
    ensures elf { (path bytes : List ℕ) (kind : AddressKind) (addrs : List ℕ) (answers : List Answer) →
        IsElfAnswer path bytes (batch_of kind addrs) (Ok answers) ↔ IsElfBatch path bytes kind addrs answers }
{}

/// Bytes that are handed in keep the laws `entries_stand_alone`, `order_moves_answers` and
/// `batches_fold_refusals` too.
pub fn handed_batches_are_alike()
    ensures alone { (source : Source) → OnHanded source HandedStandAlone }
    ensures moved { (source : Source) → OnHanded source OrderMovesHanded }
    ensures folded { (source : Source) → OnHanded source HandedFold }
{}
