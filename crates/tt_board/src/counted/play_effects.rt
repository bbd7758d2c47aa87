//! What a play does, known by the counts before it: which chains go, and whether it is suicide. No board is made for it.

ghost use Rattle.std.specs.Prelude.{◌≡◌, ℕ, ◌+◌, ◌/◌, ◌<◌, ◌≤◌, ◌⊎◌, ◌↔◌, length, Contains};
ghost use Rattle.tt_sgf.specs.declared.size.TheConstants.{MOST_POINTS};
ghost use Rattle.tt_board.specs.inside.Chains.{name_at, root_of, IsEachOnce, IsOneName};

use crate::counted::chain_counts::ChainName;
use crate::counted::chain_names::is_not_yet_found;
use crate::counted::play_kind::{NeighbourNames, is_in_atari};
use arrayvec::ArrayVec;

/// What a play does: the names of the chains that go, one's own in a suicide and else the opponent's, and whether it is suicide.
#[derive(Drop)]
pub(crate) struct PlayEffect {
    pub(crate) goes: ArrayVec<ChainName, 4>,
    pub(crate) suicide: bool,
}

/// Adds the chain of this name to those found, if it is of the colour of this code, has one liberty and is not among them.
#[inline]
fn push_if_in_atari(
    found: &mut ArrayVec<ChainName, 4>,
    liberties: &[u16; 361],
    name: ChainName,
    code: u16,
)
    requires in_range { root_of name < MOST_POINTS }
    requires room { length found.old.items < 4 }
    requires once { IsEachOnce found.old.items }
    ensures few { length found.new.items ≤ length found.old.items + 1 }
    ensures still_once { IsEachOnce found.new.items }
    ensures added { (m : ℕ) → Contains found.new.items m
        ↔ (Contains found.old.items m
        ⊎ ((name ≡ m) × (m / 512 ≡ code) × (name_at liberties.now (root_of m) ≡ 1))) }
{
    if is_in_atari(liberties, name, code) && is_not_yet_found(found, name) {
        found.push(name);
    }
}

/// The different chains of the colour of this code that have one liberty, among those of which these are the names.
pub(crate) fn chains_in_atari(
    liberties: &[u16; 361],
    near: &NeighbourNames,
    code: u16,
) -> ArrayVec<ChainName, 4>
    requires in_range { (m : ℕ)
        → IsOneName near.now.above near.now.left near.now.right near.now.below m
        → root_of m < MOST_POINTS }
    ensures found { (m : ℕ) → Contains result.items m
        ↔ (IsOneName near.now.above near.now.left near.now.right near.now.below m × (m / 512 ≡ code)
        × (name_at liberties.now (root_of m) ≡ 1)) }
    ensures once { IsEachOnce result.items }
{
    let mut found = ArrayVec::new();
    push_if_in_atari(&mut found, liberties, near.above, code);
    push_if_in_atari(&mut found, liberties, near.left, code);
    push_if_in_atari(&mut found, liberties, near.right, code);
    push_if_in_atari(&mut found, liberties, near.below, code);
    found
}
