//! Laws of the definitions: each stands as the contract of a function without parameters.
ghost use Rattle.std.specs.Prelude.{◌≡◌};
ghost use Rattle.std.specs.Bool.{Decides};
ghost use Rattle.tt_share.specs.DeskLaw.{DeskLaw};
ghost use Rattle.tt_game.specs.SameKey.{same_key};

/// Between any two steps at a desk the numbers that all seats drew are those below the count of draws, each once; the
/// numbers of each seat rise, and at most one of them, its last, is no job; the flag is raised only where some seat raised
/// it, and wherever a seat raised or saw it. The same holds of the numbers that seats got as grants and the count of the asks,
/// where a number that is not below the total is no grant.
pub fn desk_law()
    ensures { DeskLaw }
{}

/// The equality by which a table compares keys holds exactly where two keys are equal.
pub fn key_equality_is_exact()
    ensures { (a b : _) → Decides (same_key a b) (a ≡ b) }
{}
