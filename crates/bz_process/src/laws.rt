//! What holds of calls on processes.

ghost use Rattle.std.specs.Prelude.{◌≡◌, ◌↔◌, ◌∷◌, [], ℕ, ◌+◌, true, map, List, Option, Some, IfOk, Contains};
ghost use Rattle.std.specs.List.{AllByRecursion};
ghost use Rattle.bz_files.specs.Agreement.{Agree};
ghost use Rattle.bz_files.specs.World.{World};
ghost use Rattle.bz_cache.specs.Format.{GivesOrFaults};
ghost use Rattle.bz_proc.specs.Maps.{Mapping};
ghost use Rattle.bz_process.specs.Asked.{Asked};
ghost use Rattle.bz_process.specs.Caches.{ProcessCaches};
ghost use Rattle.bz_process.specs.Called.{BatchCalled, CoverAddresses, GoesByView, ReadsAtMost, SingleCalled, SymbolizesBatch, SymbolizesSingle, answer_in_view, caches_after, caches_before, entry_in_view, once_read, view_before};
ghost use Rattle.bz_process.specs.InView.{CoheresFor, process_in_view};
ghost use Rattle.bz_process.specs.Mapped.{asks_process_at};
ghost use Rattle.bz_process.specs.Process.{unsaid};
ghost use Rattle.bz_process.specs.ProcessCall.{Change, IsTold, Reaches, after_changes};
ghost use Rattle.bz_process.specs.Processes.{is_in_process};
ghost use Rattle.bz_process.specs.Reached.{AreLookedOver, CohereWithAll};
ghost use Rattle.bz_process.specs.Reads.{reads_again};
ghost use Rattle.bz_process.specs.declared.dispatch.ProcessMemberInfo.{ProcessMemberInfo};

use crate::dispatch::{ProcessDispatch, ProcessMemberInfo};
use bz_files::Files;

/// Whatever a call on a process answers, looks and remembered ids lead from what was kept to what is
/// kept. Where the world is told, they are those that it tells.
pub fn calls_are_looks<D: ProcessDispatch + Drop, F: Files, A>()
    ensures batch { (call : BatchCalled A F.Files D.may_dispatch D.Resolver.TranslateFileOffset D.Resolver.Symbolize) →
        SymbolizesBatch call → Reaches call.asked.own (view_before call) (caches_before call) (caches_after call) }
    ensures single { (call : SingleCalled A F.Files D.may_dispatch D.Resolver.TranslateFileOffset D.Resolver.Symbolize) →
        SymbolizesSingle call → Reaches call.asked.own (view_before call) (caches_before call) (caches_after call) }
{}

/// Over any list of looks and remembered ids that a world tells, kept versions stay coherent with all
/// worlds that agree, it among them. So they do over a call on a process in any of these worlds.
pub fn looks_stay_coherent()
    ensures changes { (own : ℕ) (worlds : List World) (world : World) (changes : List Change) (kept : ProcessCaches) →
        Agree worlds → Contains worlds world → AllByRecursion (IsTold own world) changes → CohereWithAll kept worlds → CohereWithAll (after_changes changes kept) worlds }
    ensures calls { (own : ℕ) (worlds : List World) (world : World) (old now : ProcessCaches) →
        Agree worlds → Contains worlds world → Reaches own (Some world) old now → CohereWithAll old worlds → CohereWithAll now worlds }
{}

/// After a call on a process, whatever it answers, each path is as it was or as after its look. Each
/// version that is kept anew lies at some path. What is remembered of each process is what it was or
/// what its present status tells.
pub fn paths_are_as_looked()
    ensures { (own : ℕ) (world : World) (old now : ProcessCaches) → Reaches own (Some world) old now → AreLookedOver own world old now }
{}

/// Take a dispatcher that gives no resolver and refuses nothing. Let the kept versions that the
/// addresses use cohere with the world in view. What is in view when the call begins then answers each
/// address alone, in a batch and by itself. In a batch a refusal is an ignored error. So entries stand
/// alone, and addresses in another order have their answers in that order. An entry is the answer of
/// the single call or folds its refusal.
pub fn entries_are_in_view<D: ProcessDispatch + Drop, F: Files, A>()
    ensures batch { (call : BatchCalled A F.Files D.may_dispatch D.Resolver.TranslateFileOffset D.Resolver.Symbolize) (world : World) →
        SymbolizesBatch call → GoesByView world call call.input → IfOk call.result (λ answers. call.reading answers ≡ map (entry_in_view world call) call.input) }
    ensures single { (call : SingleCalled A F.Files D.may_dispatch D.Resolver.TranslateFileOffset D.Resolver.Symbolize) (world : World) →
        SymbolizesSingle call → is_in_process call.kind ≡ true → GoesByView world call (call.input ∷ []) → GivesOrFaults call.reading (answer_in_view world call call.input) call.result }
    ensures alone { (asked : Asked) (known : Option (List Mapping)) (world : World) (kept : ProcessCaches) (addr : ℕ) →
        CoheresFor asked known world kept (addr ∷ []) → (asks_process_at asked known (unsaid addr) world kept).answer ≡ process_in_view asked world kept known addr }
{}

/// Where the world is told, a call on a process reads no more files than were left to read, each
/// once. These are the text of the mappings where none are kept, and the status of a process that
/// isn't remembered. With them goes each mapped file and perf map whose present stamp isn't kept. An
/// answered batch may read one more for each address that is refused, a refused batch one more for
/// each address. `paths` may be any list that has the paths of the mapped files.
pub fn reads_are_few<D: ProcessDispatch + Drop, F: Files, A>()
    ensures batch { (call : BatchCalled A F.Files D.may_dispatch D.Resolver.TranslateFileOffset D.Resolver.Symbolize) (world : World) (paths : List (List ℕ)) →
        SymbolizesBatch call → view_before call ≡ Some world → CoverAddresses world paths call call.input →
        ReadsAtMost call (once_read world paths call + reads_again call.reading call.input call.result) }
    ensures single { (call : SingleCalled A F.Files D.may_dispatch D.Resolver.TranslateFileOffset D.Resolver.Symbolize) (world : World) (paths : List (List ℕ)) →
        SymbolizesSingle call → view_before call ≡ Some world → CoverAddresses world paths call (call.input ∷ []) →
        ReadsAtMost call (once_read world paths call) }
{}

/// A clone of what a process has mapped has the same range and refers to the same name. Cloning takes
/// no memory.
pub fn member_clones_are_equal()
    ensures clone { (a b : ProcessMemberInfo) → ⟦<ProcessMemberInfo<'static> as Clone>⟧.is_clone a b ↔ (a ≡ b) }
    ensures no_memory { (a : ProcessMemberInfo) → ⟦<ProcessMemberInfo<'static> as Clone>⟧.is_infallible a }
{}
