//! Bounds of boards, by which a board is distinguished from all that lie within, without a look at each.

ghost use Rattle.std.specs.Prelude.{◌≡◌, ◌<◌, ◌↔◌, IsTrue, Some};
ghost use Rattle.tt_sgf.specs.declared.bits.TheConstants.{BITS};
ghost use Rattle.tt_proof.specs.BoardSetBounds.{MayContainBoard, IsWiderOrSame, HasAllStones, hash_bit};

use tt_board::{Board, Colour};
use tt_game::{HASH_DIVISOR, board_hash};
use tt_sgf::{BITS, Bits};

/// The stones of each colour that all of some boards have, and a bit for the hash of each of these boards.
#[derive(Clone, Copy)]
pub struct BoardSetBound {
    pub black: Bits,
    pub white: Bits,
    pub hashes: Bits,
}

/// The bit of a board's hash.
fn hash_bit(board: &Board) -> usize
    ensures value { result ≡ hash_bit board.now }
    ensures small { result < BITS }
{
    (board_hash(board) / HASH_DIVISOR) as usize % BITS
}

/// The stones of a colour on the board.
fn stones_of(board: &Board, colour: Colour) -> Bits
    ensures { HasAllStones result colour board.now }
{
    *board.bits(colour)
}

/// Whether the board has each of these stones of the colour.
fn has_all_stones(stones: &Bits, board: &Board, colour: Colour) -> bool
    ensures { IsTrue result ↔ HasAllStones stones.now colour board.now }
{
    let there = board.bits(colour);
    stones.is_within_union(there, there)
}

impl BoardSetBound {
    /// That of one board alone.
    pub fn of(board: &Board) -> BoardSetBound
        ensures { MayContainBoard (Some result) board.now }
    {
        let mut hashes = Bits::none();
        hashes.set(hash_bit(board));
        BoardSetBound {
            black: stones_of(board, Colour::Black),
            white: stones_of(board, Colour::White),
            hashes,
        }
    }

    /// That of the boards of both.
    pub fn union_with(&self, other: &BoardSetBound) -> BoardSetBound
        ensures left { IsWiderOrSame (Some result) (Some self.now) }
        ensures right { IsWiderOrSame (Some result) (Some other.now) }
    {
        BoardSetBound {
            black: self.black.and(&other.black),
            white: self.white.and(&other.white),
            hashes: self.hashes.or(&other.hashes),
        }
    }

    /// Whether the board lies within.
    pub fn has(&self, board: &Board) -> bool
        ensures { IsTrue result ↔ MayContainBoard (Some self.now) board.now }
    {
        has_all_stones(&self.black, board, Colour::Black)
            && has_all_stones(&self.white, board, Colour::White)
            && self.hashes.has(hash_bit(board))
    }
}

/// A bound of the boards of both; none where there are no boards.
pub fn union_of_bounds(
    one: &Option<BoardSetBound>,
    other: &Option<BoardSetBound>,
) -> Option<BoardSetBound>
    ensures left { IsWiderOrSame result one.now }
    ensures right { IsWiderOrSame result other.now }
{
    let Some(a) = one else {
        return *other;
    };
    let Some(b) = other else {
        return *one;
    };
    Some(a.union_with(b))
}

/// Whether the board lies within the bound, where there is one.
pub fn is_board_within(bound: &Option<BoardSetBound>, board: &Board) -> bool
    ensures { IsTrue result ↔ MayContainBoard bound.now board.now }
{
    match bound {
        Some(bound) => bound.has(board),
        None => false,
    }
}
