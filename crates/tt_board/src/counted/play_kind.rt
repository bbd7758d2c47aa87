//! Plays that are known by four names and the counts of their chains: those by which nothing goes, and those that change nothing.

ghost use Rattle.std.specs.Prelude.{◌≡◌, ◌≢◌, ℕ, ◌+◌, ◌/◌, ◌<◌, ◌≤◌, ◌⊎◌, ◌↔◌, length, IsTrue, Some, MatchOption, false};
ghost use Rattle.tt_sgf.specs.declared.size.TheConstants.{MOST_POINTS};
ghost use Rattle.tt_sgf.specs.Sizes.{point_count};
ghost use Rattle.tt_board.specs.declared.counted.play_kind.TheConstants.{OFF_BOARD_NAME};
ghost use Rattle.tt_board.specs.inside.Chains.{name_at, root_of, colour_number, IsOneName, AreNear, bare_one, AreCounted};

use crate::Colour;
use crate::counted::chain_counts::{ChainCounts, ChainName};
use crate::counted::chain_names::root_of;
use crate::near::neighbours_of;
use tt_sgf::Size;

/// What the points beside an empty point tell of a play there.
#[derive(Clone, Copy, PartialEq, Eq)]
pub enum PlayKind {
    /// The stone is put, and no stone goes.
    NoCapture,
    /// The stone goes at once and alone, so that the colouring stays.
    SingleStoneSuicide,
    /// More has to be looked at.
    NeedsBoard,
}

/// Instead of a name where the board has no point. No chain has it.
pub(crate) const OFF_BOARD_NAME: ChainName = 1536;

/// The names on the four neighbours of a point, `OFF_BOARD_NAME` where the board has no such point; and how many of them are empty.
#[derive(Clone, Copy)]
pub(crate) struct NeighbourNames {
    pub(crate) above: ChainName,
    pub(crate) left: ChainName,
    pub(crate) right: ChainName,
    pub(crate) below: ChainName,
    pub(crate) empty: u16,
}

/// A colour as part of a name.
#[inline]
pub(crate) fn colour_number(colour: Colour) -> u16
    ensures { result ≡ colour_number colour }
{
    match colour {
        Colour::Black => 1,
        Colour::White => 2,
    }
}

/// The name on a point; `OFF_BOARD_NAME` for no point.
#[inline]
fn name_there(names: &[ChainName; 361], index: Option<usize>) -> ChainName
    requires { (q : ℕ) → index ≡ Some q → q < MOST_POINTS }
    ensures { MatchOption index (result ≡ OFF_BOARD_NAME) (λ q. result ≡ name_at names.now q) }
{
    match index {
        Some(q) => names[q],
        None => OFF_BOARD_NAME,
    }
}

/// Whether the name is of a chain of the colour of this code, with one liberty.
#[inline]
pub(crate) fn is_in_atari(liberties: &[u16; 361], name: ChainName, code: u16) -> bool
    requires { root_of name < MOST_POINTS }
    ensures { IsTrue result ↔ ((name / 512 ≡ code) × (name_at liberties.now (root_of name) ≡ 1)) }
{
    name / 512 == code && liberties[root_of(name)] == 1
}

/// Whether the name is that of an empty point, or of a chain of the colour of this code, with another number of liberties than one.
#[inline]
fn is_empty_or_not_in_atari(liberties: &[u16; 361], name: ChainName, code: u16) -> bool
    requires { root_of name < MOST_POINTS }
    ensures { IsTrue result
        ↔ ((name ≡ 0) ⊎ ((name / 512 ≡ code) × (name_at liberties.now (root_of name) ≢ 1))) }
{
    name == 0 || (name / 512 == code && liberties[root_of(name)] != 1)
}

/// 1 for the name of an empty point, 0 for another one.
#[inline]
fn one_if_empty(name: ChainName) -> u16
    ensures { result ≡ bare_one name }
{
    if name == 0 { 1 } else { 0 }
}

impl ChainCounts {
    /// The names beside `p`.
    #[inline]
    pub(crate) fn names_beside(&self, size: Size, p: usize) -> NeighbourNames
        requires counted { AreCounted size self.now }
        requires on_board { p < point_count size }
        ensures { AreNear size self.now.names p result }
    {
        let near = neighbours_of(size, p);
        let above = name_there(&self.names, near.above);
        let left = name_there(&self.names, near.left);
        let right = name_there(&self.names, near.right);
        let below = name_there(&self.names, near.below);
        NeighbourNames {
            above,
            left,
            right,
            below,
            empty: one_if_empty(above)
                + one_if_empty(left)
                + one_if_empty(right)
                + one_if_empty(below),
        }
    }
}

impl NeighbourNames {
    /// Whether a chain of the colour of this code has one liberty.
    #[inline]
    pub(crate) fn has_chain_in_atari(&self, liberties: &[u16; 361], code: u16) -> bool
        requires { (m : ℕ) → IsOneName self.now.above self.now.left self.now.right self.now.below m
            → root_of m < MOST_POINTS }
        ensures { result ≡ false → (m : ℕ)
            → IsOneName self.now.above self.now.left self.now.right self.now.below m
            → m / 512 ≡ code
            → name_at liberties.now (root_of m) ≢ 1 }
    {
        is_in_atari(liberties, self.above, code)
            || is_in_atari(liberties, self.left, code)
            || is_in_atari(liberties, self.right, code)
            || is_in_atari(liberties, self.below, code)
    }

    /// Whether a point is empty, or a chain of the colour of this code has not one liberty.
    #[inline]
    pub(crate) fn has_empty_or_not_in_atari(&self, liberties: &[u16; 361], code: u16) -> bool
        requires { (m : ℕ) → IsOneName self.now.above self.now.left self.now.right self.now.below m
            → root_of m < MOST_POINTS }
        ensures some { IsTrue result
            → (m : ℕ) × IsOneName self.now.above self.now.left self.now.right self.now.below m
            × ((m ≡ 0) ⊎ ((m / 512 ≡ code) × (name_at liberties.now (root_of m) ≢ 1))) }
        ensures none { result ≡ false → (m : ℕ)
            → IsOneName self.now.above self.now.left self.now.right self.now.below m → m ≢ 0 }
        ensures shut { result ≡ false → (m : ℕ)
            → IsOneName self.now.above self.now.left self.now.right self.now.below m
            → m / 512 ≡ code
            → name_at liberties.now (root_of m) ≢ 1 → ⊥ }
    {
        is_empty_or_not_in_atari(liberties, self.above, code)
            || is_empty_or_not_in_atari(liberties, self.left, code)
            || is_empty_or_not_in_atari(liberties, self.right, code)
            || is_empty_or_not_in_atari(liberties, self.below, code)
    }

    /// Whether one is of a chain of the colour of this code.
    #[inline]
    pub(crate) fn has_colour(&self, code: u16) -> bool
        ensures { result ≡ false → (m : ℕ)
            → IsOneName self.now.above self.now.left self.now.right self.now.below m
            → m / 512 ≢ code }
    {
        self.above / 512 == code
            || self.left / 512 == code
            || self.right / 512 == code
            || self.below / 512 == code
    }
}
