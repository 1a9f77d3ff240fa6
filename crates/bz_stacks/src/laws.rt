//! What holds of the definitions of folded stacks, for the crates above.

ghost use Rattle.std.specs.Prelude.{◌≡◌, ◌↔◌, ℕ, List, Some, Ok, Err, ◌++◌, is_some, length};
ghost use Rattle.std.specs.List.{list_any};
ghost use Rattle.std.specs.FinMap as finite;
ghost use Rattle.bz_stacks.specs.Folding.{Folding, AnsweredStack, added_all, has_path, nothing_folded, sum_at, sum_of, sums_of};
ghost use Rattle.bz_requests.specs.Lines.{IsFirstBad};
ghost use Rattle.bz_stacks.specs.Spelling.{AreStacks, IsStack, stack_in, stacks_in};
ghost use Rattle.bz_stacks.specs.Stack.{CountedStack};
ghost use Rattle.bz_stacks.specs.Text.{folded_text, text_of};

/// However stacks are grouped, what was added has the sums and the text that the stacks
/// have from scratch. There is each path that one of them has, with the sum of the counts
/// of the stacks with that path.
pub fn folds_from_scratch()
    ensures grouped { (one two : List AnsweredStack) (folding : Folding) → added_all (one ++ two) folding ≡ added_all two (added_all one folding) }
    ensures text { (seen : List AnsweredStack) → text_of (added_all seen nothing_folded).sums ≡ folded_text seen }
    ensures stacks { (seen : List AnsweredStack) → (added_all seen nothing_folded).stacks ≡ length seen }
    ensures scratch { (seen : List AnsweredStack) → (added_all seen nothing_folded).sums ≡ sums_of seen }
    ensures sums { (seen : List AnsweredStack) (path : List ℕ) → sum_at path (sums_of seen) ≡ sum_of path seen }
    ensures paths { (seen : List AnsweredStack) (path : List ℕ) → is_some (finite.get (sums_of seen) path) ≡ list_any (has_path path) seen }
{}

/// The stack that is read of a line's content is the one that it spells. The stacks that are
/// read of an input are those that its lines say. Of any other input the number of its first
/// line that is no stack is read.
pub fn stacks_are_read()
    ensures stack { (text : List ℕ) (stack : CountedStack) → (stack_in text ≡ Some stack) ↔ IsStack text stack }
    ensures stacks { (text : List ℕ) (stacks : List CountedStack) → (stacks_in text ≡ Ok stacks) ↔ AreStacks text stacks }
    ensures line { (text : List ℕ) (n : ℕ) → (stacks_in text ≡ Err n) ↔ IsFirstBad IsStack text n }
{}
