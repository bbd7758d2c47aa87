//! Where lines stood, kept in little memory.

ghost use Rattle.std.specs.Prelude.{◌≡◌, ◌<◌, ◌≤◌, ◌++◌, ◌↔◌, length, take, All, Contains, IsTrue, IfOk};
ghost use Rattle.std.specs.Arc.{arc_value};
ghost use Rattle.tt_game.specs.Game.{history};
ghost use Rattle.tt_game.specs.Keys.{key_of};
ghost use Rattle.tt_game.specs.KeyHash.{hash_of_key};
ghost use Rattle.tt_game.specs.Line.{IsPositionOf};
ghost use Rattle.tt_game.specs.inside.Undoing.{state_at};
ghost use Rattle.tt_game.specs.GameHistory.{so_far, colourings};
ghost use Rattle.tt_game.specs.inside.Roots.{BoardsBegin};

use crate::frame::Side;
use crate::history::History;
use crate::history::root::Root;
use crate::keys::{Key, key_from_parts};
use crate::line::Line;
use std::marker::Model;
use std::sync::Arc;
use tt_board::{Board, BoardDeltas};
use tt_sgf::NoMemory;

/// Where a line stood: its frame, history, side to move and passes. What the line shares with others of its beginning stands
/// once; the boards since then are kept by their differences, and none of them stands here. The hash of the position's key is kept
/// too, so that a table finds the position without its board.
#[derive(Drop)]
pub struct Snapshot {
    root: Arc<Root>,
    later: BoardDeltas,
    hash: u32,
    to_move: Side,
    passes: u8,
}

impl Model for Snapshot {
    ghost use Rattle.std.specs.Prelude.{◌≡◌, ◌<◌, ◌++◌, length, All};
    ghost use Rattle.std.specs.Arc.{arc_value};
    ghost use Rattle.std.specs.Coded.{codes};
    ghost use Rattle.tt_sgf.specs.contracts.sets.PointSet as points;
    ghost use Rattle.tt_game.specs.Keys.{key_of};
    ghost use Rattle.tt_game.specs.KeyHash.{hash_of_key};
    ghost use Rattle.tt_game.specs.Line.{SnapshotState};
    ghost use Rattle.tt_game.specs.inside.Undoing.{game_history_of, state_at};

    ghost Value = { SnapshotState };

    ghost coded = { Prim.hlevel (codes, points.the_row.coded) };

    ghost view = { λ p. record {
      frame = (arc_value p.root).frame;
      state = state_at (game_history_of (arc_value p.root).frame.size ((arc_value p.root).begun ++ p.later) p.passes) p.to_move;
    } };

    ghost invariant = { λ p. record {
      some_board : 0 < length ((arc_value p.root).begun ++ p.later);
      sizes : All (λ b. b.size ≡ (arc_value p.root).frame.size) ((arc_value p.root).begun ++ p.later);
      hash : p.hash ≡ hash_of_key (key_of (arc_value p.root).frame
          (state_at (game_history_of (arc_value p.root).frame.size ((arc_value p.root).begun ++ p.later) p.passes) p.to_move));
    } };
}

/// Whether boards begin with those of a root. They begin with those of the other one, which mostly are the same: that is seen without
/// a board made.
fn begins_with_root(root: &Root, boards: &[Board], other: &Root) -> bool
    requires sizes { All (λ b. b.size ≡ other.now.frame.size) boards.now }
    requires begins { BoardsBegin other.now.begun (colourings boards.now) }
    ensures { IsTrue result ↔ (root.now.begun ≡ take (length root.now.begun) boards.now) }
{
    if other.keeps_beginning_alike(root) {
        return true;
    }
    let begun = root.board_count();
    if boards.len() < begun {
        return false;
    }
    root.equals_beginning(&boards[..begun])
}

impl Snapshot {
    /// What stands after this history, which begins as the root's lines began, with the hash of its key.
    pub(crate) fn of(
        root: &Arc<Root>,
        history: &History,
        to_move: Side,
        hash: u32,
    ) -> Result<Snapshot, NoMemory>
        requires size { history.now.size ≡ (arc_value root.now).frame.size }
        requires begins { BoardsBegin (arc_value root.now).begun (so_far history.now) }
        requires hash { hash
            ≡ hash_of_key (key_of (arc_value root.now).frame (state_at history.now to_move)) }
        ensures { IfOk result
            (λ p. p ≡ record { frame = (arc_value root.now).frame; state = state_at history.now to_move }) }
    {
        let later = BoardDeltas::of(
            history.alloc(),
            root.delta_base(),
            &history.boards()[root.board_count()..],
        )?;
        Ok(Snapshot {
            root: Arc::try_clone(root)?,
            later,
            hash,
            to_move,
            passes: history.passes(),
        })
    }

    /// Whether the line, of the same board size, has exactly the history there.
    fn has_history(&self, line: &Line) -> bool
        requires { line.now.frame.size ≡ self.now.frame.size }
        ensures { IsTrue result ↔ (history self.now.state ≡ history line.now.state) }
    {
        let begun = self.root.board_count();
        let boards = line.history();
        if boards.len() < begun {
            return false;
        }
        if !self.later.equals_boards(&boards[begun..]) {
            return false;
        }
        begins_with_root(&self.root, boards, line.root())
    }

    /// With how many boards the history there and the line's begin alike: with all those of the beginning, where the line has them,
    /// too, and with none else. It takes no memory.
    pub fn known_common_history_length(&self, line: &Line) -> usize
        ensures within { result ≤ length (history line.now.state) }
        ensures alike { take result (history line.now.state)
            ≡ take result (history self.now.state) }
    {
        if !begins_with_root(&self.root, line.history(), line.root()) {
            return 0;
        }
        self.root.board_count()
    }

    /// True only where the board was made there behind the beginning. It takes no memory.
    pub fn has_later_board(&self, board: &Board) -> bool
        ensures { IsTrue result → Contains (history self.now.state) board.now.points }
    {
        self.later.has(board)
    }

    /// Whether the line stands there: with the same frame, history, side to move and passes. It takes no memory.
    pub fn is_state_of(&self, line: &Line) -> bool
        ensures { IsTrue result
            ↔ ((self.now.frame ≡ line.now.frame) × (self.now.state ≡ line.now.state)) }
    {
        if !self.has_frame_mover_passes_of(line) {
            return false;
        }
        self.has_history(line)
    }

    /// The present board there, made anew: a copy of some hundred bytes, which takes no memory.
    pub fn present(&self) -> Board
        ensures size { result.size ≡ self.now.frame.size }
        ensures points { result.points ≡ self.now.state.present }
    {
        match self.later.last() {
            Some(board) => board,
            None => self.root.last().copy(),
        }
    }

    /// Whether the line stands in the same position: with the same frame, present board, side to move and passes, whatever
    /// came before. It takes no memory.
    pub fn is_position_of(&self, line: &Line) -> bool
        ensures { IsTrue result ↔ IsPositionOf self.now line.now.frame line.now.state }
    {
        if !self.has_frame_mover_passes_of(line) {
            return false;
        }
        self.present().same(line.present())
    }

    /// Whether the line's position has the key of the one there. It mostly is that position, which is seen sooner than its key is made.
    /// It takes no memory.
    pub fn has_key_of(&self, line: &Line) -> bool
        ensures { IsTrue result
            ↔ (key_of self.now.frame self.now.state ≡ key_of line.now.frame line.now.state) }
    {
        if self.is_position_of(line) {
            return true;
        }
        self.key().same(&line.key())
    }

    /// Whether the line has the same frame, side to move and passes.
    fn has_frame_mover_passes_of(&self, line: &Line) -> bool
        ensures { IsTrue result
            ↔ ((self.now.frame ≡ line.now.frame) × (self.now.state.to_move ≡ line.now.state.to_move)
            × (self.now.state.passes ≡ line.now.state.passes)) }
    {
        if self.to_move != line.to_move() {
            return false;
        }
        if self.passes != line.passes() {
            return false;
        }
        self.root.frame().same(line.frame())
    }

    /// The hash of the position's key. No board is made for it.
    pub fn key_hash(&self) -> u32
        ensures { result ≡ hash_of_key (key_of self.now.frame self.now.state) }
    {
        self.hash
    }

    /// The key of the position there. It takes no memory.
    pub fn key(&self) -> Key
        ensures { result ≡ key_of self.now.frame self.now.state }
    {
        key_from_parts(
            self.root.frame(),
            &self.present(),
            self.to_move,
            self.passes,
        )
    }
}
