//! Keys of positions, for tables.

ghost use Rattle.std.specs.Prelude.{◌≡◌, ◌≤◌, ◌*◌, ◌/◌, ◌%◌, ◌^◌, ◌↔◌, IsTrue, [], ◌∷◌};
ghost use Rattle.tt_game.specs.Keys.{key_of};
ghost use Rattle.tt_game.specs.KeyHash.{words_in_use, mover_and_passes_word, hash_of_key};
ghost use Rattle.tt_game.specs.Mixing.{mix};
ghost use Rattle.tt_game.specs.declared.history.bloom_filter.TheConstants.{MIXER};

use crate::frame::{Frame, Side};
use crate::history::bloom_filter::{MIXER, mix, mix_board};
use crate::line::Line;
use std::hash::{Hash, Hasher};
use tt_board::{Board, Colour};
use tt_sgf::Size;

/// What positions share that are looked up as one: the frame, the colouring, the side to move and the passes in a row,
/// and no history. Two positions have one key exactly where they agree in these. Sets of points are kept as six words
/// of 64 bits, a bit for each point of the board.
///
/// Keys of one problem share the frame, so the hash is of the position alone: keys that differ in their frames alone have
/// one hash, and a table has to compare the keys that it finds by it.
#[derive(Clone, Copy, PartialEq, Eq)]
pub struct Key {
    size: Size,
    region: [u64; 6],
    targets: [u64; 6],
    defender: Colour,
    black: [u64; 6],
    white: [u64; 6],
    to_move: Side,
    passes: u8,
}

impl Hash for Key {
    ghost use Rattle.tt_game.specs.KeyHash.{position_writes};
    ghost use Rattle.tt_game.specs.laws.KeyLaws.{same_keys_are_hashed_alike};

    ghost hash_input = { position_writes };

    ghost respects_eq = { same_keys_are_hashed_alike };

    fn hash<H: Hasher>(&self, state: &mut H) {
        let used = words_in_use(self.size);
        Hash::hash_slice(&self.black[..used], state);
        Hash::hash_slice(&self.white[..used], state);
        self.to_move.hash(state);
        self.passes.hash(state);
    }
}

/// How many words have bits of points of the board: all behind them are 0.
fn words_in_use(size: Size) -> usize
    ensures value { result ≡ words_in_use size }
    ensures most { result ≤ 6 }
{
    (size.point_count() + 63) / 64
}

/// The number of a side to move and so many passes, for a hash.
fn mover_and_passes_word(to_move: Side, passes: u8) -> u64
    ensures { result ≡ mover_and_passes_word to_move passes }
{
    match to_move {
        Side::Attacker => u64::from(passes),
        Side::Defender => 256 + u64::from(passes),
    }
}

/// The hash of the position of a board, a side to move and so many passes, by what the board's words make.
fn hash_of_board_and_mover(board: u64, turn: u64) -> u32
    ensures { result ≡ mix board (turn ∷ []) * MIXER % 2 ^ 64 / 2 ^ 32 }
{
    (mix(board, &[turn]).wrapping_mul(MIXER) >> 32) as u32
}

/// The key of a position.
pub(crate) fn key_from_parts(frame: &Frame, board: &Board, to_move: Side, passes: u8) -> Key
    requires { board.now.size ≡ frame.now.size }
    ensures { result
        ≡ key_of frame.now (record { earlier = []; present = board.now.points; to_move = to_move; passes = passes }) }
{
    Key {
        size: frame.size,
        region: frame.region.words_on_board(frame.size),
        targets: frame.targets.words_on_board(frame.size),
        defender: frame.defender,
        black: board.words(Colour::Black),
        white: board.words(Colour::White),
        to_move,
        passes,
    }
}

impl Line {
    /// The key of the line's position.
    pub fn key(&self) -> Key
        ensures { result ≡ key_of self.now.frame self.now.state }
    {
        key_from_parts(self.frame(), self.present(), self.to_move(), self.passes())
    }

    /// The hash of the line's key. It takes the line's board as it stands, so no key is made.
    pub fn key_hash(&self) -> u32
        ensures { result ≡ hash_of_key (key_of self.now.frame self.now.state) }
    {
        let turn = mover_and_passes_word(self.to_move(), self.passes());
        hash_of_board_and_mover(mix_board(self.present()), turn)
    }
}

impl Key {
    /// Whether both keys are one.
    pub fn same(&self, other: &Key) -> bool
        ensures { IsTrue result ↔ (self.now ≡ other.now) }
    {
        self == other
    }
}
