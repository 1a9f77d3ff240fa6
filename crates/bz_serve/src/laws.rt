//! What holds of runs of requests, and of frames.

ghost use Rattle.std.specs.Prelude.{◌≡◌, ◌≤◌, ◌↔◌, ℕ, Bool, List, None, Some, Ok, Err};
ghost use Rattle.bz_files.specs.World.{World};
ghost use Rattle.bz_requests.specs.Lines.{IsFirstBad};
ghost use Rattle.bz_process.specs.Caches.{ProcessCaches};
ghost use Rattle.bz_process.specs.Caching.{Caching, caches_process};
ghost use Rattle.bz_requests.specs.Requests.{Request};
ghost use Rattle.bz_requests.specs.declared.requests.Config.{Config};
ghost use Rattle.bz_serve.specs.FrameLines.{AreFrames, IsFrame, frame_in, frames_in};
ghost use Rattle.bz_serve.specs.RequestBounds.{batch_reads, caching_reads, request_reads, requests_read};
ghost use Rattle.bz_serve.specs.RequestRuns.{run_reads, turns};
ghost use Rattle.bz_serve.specs.RequestSteps.{step};
ghost use Rattle.bz_store.specs.Frames.{Frame};
ghost use Rattle.bz_symq.specs.Kept.{KeptState, new_kept, settings_of};
ghost use Rattle.bz_symq.specs.Processes.{asked_by, nothing_kept, process_batch};

/// A request reads no more files than what is kept leaves to read. A file may be read where its present
/// stamp isn't kept. Of a process, mappings may be read where none are kept, or to keep them, and a
/// status where its id isn't remembered. Each of its mapped files and perf maps may be read once, where
/// its present stamp isn't kept. In a batch one more may be read for each address that is refused, or
/// for each where the batch is. A run of requests reads no more than the sum of these, each in its state
/// and its world. A run of one batch reads no more than that batch, where nothing is kept.
pub fn requests_read_few()
    ensures request { (map_files : Bool) (own : ℕ) (request : Request) (kept : KeptState) (world : World) → (step map_files own request kept world).reads ≤ request_reads map_files own request kept world }
    ensures run { (config : Config) (requests : List Request) (worlds : List World) (own : ℕ) → run_reads config requests worlds own ≤ requests_read config.map_files own (new_kept (settings_of config)) (turns requests worlds) }
    ensures batch { (config : Config) (number own : ℕ) (addrs : List ℕ) (world : World) → (process_batch config number own addrs world).opens ≤ batch_reads (asked_by config number own) None addrs world (nothing_kept config) }
    ensures caching { (asked : Caching) (world : World) (kept : ProcessCaches) → (caches_process asked world kept).opens ≤ caching_reads asked world kept }
{}

/// The frame that is read of a line's content is the one that it spells. Those that are read of an
/// input are those that its lines say. The number that is read of another one is that of its first line
/// that isn't well formed.
pub fn frames_are_read()
    ensures frame { (text : List ℕ) (frame : Frame) → (frame_in text ≡ Some frame) ↔ IsFrame text frame }
    ensures frames { (text : List ℕ) (frames : List Frame) → (frames_in text ≡ Ok frames) ↔ AreFrames text frames }
    ensures line { (text : List ℕ) (n : ℕ) → (frames_in text ≡ Err n) ↔ IsFirstBad IsFrame text n }
{}
