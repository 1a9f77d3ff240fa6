//! What holds of the definitions of a store, for the crates above.

ghost use Rattle.std.specs.Prelude.{◌≡◌, ℕ, List, [], map};
ghost use Rattle.bz_base.specs.declared.types.FindSymOpts.{FindSymOpts};
ghost use Rattle.bz_files.specs.World.{World};
ghost use Rattle.bz_store.specs.Calls.{found_each};
ghost use Rattle.bz_store.specs.Frames.{Frame};
ghost use Rattle.bz_store.specs.Plain.{AreOfWorld, answer_in, answered, keys, keys_after, opens_after_all};
ghost use Rattle.bz_store.specs.Shelf.{ShelfFiles};
ghost use Rattle.bz_store.specs.Visits.{Found, visited};

/// Where the kept files are those of the world, the answers are those of the world alone, and the kept
/// files stay so.
pub fn kept_files_answer_as_the_world()
    ensures answers { (world : World) (root : List ℕ) (cap : ℕ) (opts : FindSymOpts) (frames : List Frame) (kept : ShelfFiles) (opens : ℕ) → AreOfWorld world root kept → (visited cap opts (found_each world root frames) (record { kept = kept; answers = []; opens = opens })).answers ≡ map (answer_in world root opts) frames }
    ensures agrees { (world : World) (root : List ℕ) (cap : ℕ) (opts : FindSymOpts) (frames : List Frame) (kept : ShelfFiles) (opens : ℕ) → AreOfWorld world root kept → AreOfWorld world root (visited cap opts (found_each world root frames) (record { kept = kept; answers = []; opens = opens })).kept }
{}

/// Whatever is found, the keys that are kept are those of the frames that their files answered, and
/// each file is counted that is read.
pub fn kept_keys_go_by_answers()
    ensures keys { (cap : ℕ) (opts : FindSymOpts) (visits : List (Frame × Found)) (kept : ShelfFiles) (opens : ℕ) → keys (visited cap opts visits (record { kept = kept; answers = []; opens = opens })).kept ≡ keys_after cap (answered (map (λ v. v.0) visits) (visited cap opts visits (record { kept = kept; answers = []; opens = opens })).answers) (keys kept) }
    ensures opens { (cap : ℕ) (opts : FindSymOpts) (visits : List (Frame × Found)) (kept : ShelfFiles) (opens : ℕ) → (visited cap opts visits (record { kept = kept; answers = []; opens = opens })).opens ≡ opens_after_all cap visits (visited cap opts visits (record { kept = kept; answers = []; opens = opens })).answers (keys kept) opens }
{}
