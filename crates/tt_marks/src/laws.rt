//! Laws of walls, each the contract of a function that does nothing.

ghost use Rattle.std.specs.Prelude.{◌≡◌, ◌⊎◌, ℕ, ◌<◌, List, None, All, false};
ghost use Rattle.std.specs.FinSet as set;
ghost use Rattle.tt_sgf.specs.declared.size.Size.{Size};
ghost use Rattle.tt_sgf.specs.Sizes.{point_count};
ghost use Rattle.tt_board.specs.declared.Colour.{Colour};
ghost use Rattle.tt_board.specs.Near.{IsNeighbour};
ghost use Rattle.tt_board.specs.Play.{other, play_of};
ghost use Rattle.tt_board.specs.Position.{Colouring};
ghost use Rattle.tt_board.specs.Reach.{IsPath, entry_at, path_end};
ghost use Rattle.tt_board.specs.Setup.{AllHaveLiberties};
ghost use Rattle.tt_board.specs.Stones.{PointNumberSet};
ghost use Rattle.tt_marks.specs.Reached.{Has, PointTest};
ghost use Rattle.tt_marks.specs.Walls.{HasOuterLiberty, HasStone, IsEnclosedGroup, IsOfGroup, IsWall, IsWithin};

/// No path that avoids the wall leads out: what begins within ends within.
pub fn no_path_leads_out()
    ensures { (s : Size) (q : ℕ) (wall : PointTest) (p : ℕ) (path : List ℕ) → p < point_count s
        → IsWithin s q wall p
        → IsPath s p path → All (λ r. wall r ≡ false) path → IsWithin s q wall (path_end p path) }
{}

/// A wall stands: whatever is played within it, by either colour, it is a wall still. So no number of plays within takes one of its stones.
pub fn walls_stand()
    ensures { (s : Size) (c : Colouring) (k : Colour) (q : ℕ) (wall : PointTest)
        → IsWall s c k q wall
        → (j : Colour) (p : ℕ)
        → entry_at c p ≡ None → IsWithin s q wall p → IsWall s (play_of s c j p) k q wall }
{}

/// What is proposed leaves out no point that can be filled: an empty point beside an enclosed group or its region is in the region.
pub fn liberties_are_in_the_region()
    ensures { (s : Size) (c : Colouring) (k : Colour) (q : ℕ) (region : PointNumberSet) → IsEnclosedGroup s c k q region
        → (p e : ℕ) → p < point_count s → IsOfGroup s c k q p ⊎ Has (set.contains region) p
        → IsNeighbour s p e → entry_at c e ≡ None → Has (set.contains region) e }
{}

/// Nor a stone of the wall's colour that plays in it can take: outside the region each of these has a liberty that isn't in it.
pub fn stones_outside_stand()
    ensures { (s : Size) (c : Colouring) (k : Colour) (q : ℕ) (region : PointNumberSet) → IsEnclosedGroup s c k q region
        → AllHaveLiberties s c
        → (p : ℕ) → p < point_count s → HasStone s c (other k) p → (Has (set.contains region) p → ⊥)
        → HasOuterLiberty s c (other k) (Has (set.contains region)) p }
{}
