//! What holds of this crate's definitions.

ghost use Rattle.std.specs.Prelude.{◌≡◌, ◌≢◌, ◌⊎◌, ℕ, List, map, None};
ghost use Rattle.bz_base.specs.Answer.{Answer, in_batch};
ghost use Rattle.bz_files.specs.Agreement.{AgreeOn};
ghost use Rattle.bz_files.specs.World.{World};
ghost use Rattle.bz_process.specs.InView.{process_in_view};
ghost use Rattle.bz_symq.specs.Command.{Asking, Command, OneProcess};
ghost use Rattle.bz_symq.specs.Outcome.{run_outcome};
ghost use Rattle.bz_symq.specs.Processes.{asked_by, nothing_kept};
ghost use Rattle.bz_symq.specs.Run.{ComesExactlyWhere, EndsOnlyWhere, IsAnswerable, IsBadInput, IsDone, IsMade, IsMakeable, IsRefusable, IsRefused, IsUnmade, IsUnmakeable};
ghost use Rattle.bz_symq.specs.Targets.{AnswersIn};
ghost use Rattle.bz_symq.specs.declared.status.Status.TheVariants as statuses;

/// The outcome of a run has status `Done`, `Refused` or `Input` exactly where that status has its
/// cause. Its status is never `Usage`, which is that of words that give no command.
pub fn outcomes_have_causes()
    ensures done { ComesExactlyWhere statuses.Done (λ command input world. IsAnswerable command input world ⊎ IsMakeable command world) }
    ensures refused { ComesExactlyWhere statuses.Refused (λ command input world. IsRefusable command input world ⊎ IsUnmakeable command world) }
    ensures usage { (command : Command) (input : List ℕ) (world : World) (own : ℕ) → (run_outcome command input world own).status ≢ statuses.Usage }
    ensures input { ComesExactlyWhere statuses.Input (λ command input world. IsBadInput command input) }
{}

/// A run that ends as its outcome, done or refused, has written the answers,
/// the product or the refusal.
pub fn endings_have_causes()
    ensures done { EndsOnlyWhere statuses.Done (λ command input world own old new. IsDone command input world own old new ⊎ IsMade command world old new) }
    ensures refused { EndsOnlyWhere statuses.Refused (λ command input world own old new. IsRefused command input world old new ⊎ IsUnmade command world old new) }
{}

/// Each answer of a process is what is in view for its address alone, and a refusal is an
/// ignored error. So answers don't depend on what else is asked. Equal stamps have to have
/// equal bytes in the world.
pub fn process_answers_stand_alone()
    ensures { (asking : Asking) (number own : ℕ) (addrs : List ℕ) (world : World) (answers : List Answer) → AgreeOn world world → asking.target ≡ OneProcess number → AnswersIn asking world own addrs answers →
        answers ≡ map (λ addr. in_batch (process_in_view (asked_by asking.config number own) world (nothing_kept asking.config) None addr)) addrs }
{}
