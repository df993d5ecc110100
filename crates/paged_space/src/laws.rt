//! Laws of what the calls say, which need no code.
ghost use Rattle.std.specs.Prelude.{◌≡◌, ◌≤◌, ℕ, List, [], ◌∷◌, slice_get, Some};
ghost use Rattle.page_pool.specs.Frames.{Frames, spare_of};
ghost use Rattle.paged_space.specs.PageTable.{PageTable};
ghost use Rattle.paged_space.specs.Moves.{StandIn};
ghost use Rattle.paged_space.specs.Follows.{Follows, shared_of};
ghost use Rattle.paged_space.specs.Together.{LeavesOthers, StandTogether};
ghost use Rattle.paged_space.specs.Twins.{AreTwins};

/// Two Spaces that were twins once both stand in the pool, and it has the spare frames that a store in either asks.
#[tactic(auto, using(crate::proofs::TwinLaws::twins_whole))]
pub fn twins_law()
    ensures first_stands { (t u : PageTable) (s : Frames) → AreTwins t u s → StandIn t.frames s }
    ensures second_stands { (t u : PageTable) (s : Frames) → AreTwins t u s → StandIn u.frames s }
    ensures first_ready { (t u : PageTable) (s : Frames) → AreTwins t u s → shared_of t s ≤ spare_of s }
    ensures second_ready { (t u : PageTable) (s : Frames) → AreTwins t u s → shared_of u s ≤ spare_of s }
{}

/// Stores through one of two Spaces leave them twins, and leave all other Spaces in the pool as they were.
#[tactic(auto, using(crate::proofs::TwinLaws::twins_first, crate::proofs::TwinLaws::twins_second))]
pub fn twins_stay_law()
    ensures first { (t u v : PageTable) (old new : Frames) → AreTwins t u old → Follows t v old new → AreTwins v u new }
    ensures second { (t u v : PageTable) (old new : Frames) → AreTwins t u old → Follows u v old new → AreTwins t v new }
    ensures others { (t u : PageTable) (old new : Frames) → Follows t u old new → LeavesOthers t u old new }
{}

/// Spaces that stand together each stand in the pool, and their order does not matter; one alone stands together with no other.
pub fn together_law()
    ensures each { (ts : List PageTable) (i : ℕ) (t : PageTable) (s : Frames) → slice_get ts i ≡ Some t → StandTogether ts s → StandIn t.frames s }
    ensures swap { (t u : PageTable) (ts : List PageTable) (s : Frames) → StandTogether (t ∷ u ∷ ts) s → StandTogether (u ∷ t ∷ ts) s }
    ensures one { (t : PageTable) (s : Frames) → StandIn t.frames s → StandTogether (t ∷ []) s }
{}
