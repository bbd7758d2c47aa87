//! The history of a game: its boards so far and the passes in a row. Superko stands here, for problems and for records.

pub(crate) mod bloom_filter;
pub(crate) mod board_stack;
pub(crate) mod root;
pub(crate) mod snapshot;

ghost use Rattle.std.specs.Prelude.{◌≡◌, ◌≢◌, ◌+◌, ◌<◌, ◌≤◌, ◌↔◌, ◌∷◌, ◌++◌, [], length, take, drop, All, IsTrue, OnOk, OnErr, IfOk, Some};
ghost use Rattle.tt_sgf.specs.Sizes.{point_count};
ghost use Rattle.tt_board.specs.Position.{Colouring};
ghost use Rattle.tt_game.specs.GameHistory.{IsInHistory, colourings};
ghost use Rattle.tt_board.specs.Reach.{entry_at};

use std::alloc::Global;
use std::marker::Model;
use tt_board::{Board, Colour, CountedBoard};
use tt_sgf::{NoMemory, Point, Size};

/// For how many plays a copy has room.
const SPARE_PLAYS: usize = 16;

/// The boards of a game so far, the last one present, and how many passes were made in a row since the last play.
/// Contracts see it as `GameHistory`.
///
/// The first `count` boards are those so far. Boards above them stay when plays are taken back, so that the next play is written over
/// one of them: it moves no board and takes no memory.
#[derive(Drop)]
pub(crate) struct History {
    size: Size,
    boards: Vec<Board>,
    count: usize,
    passes: u8,
    alloc: Global,
}

impl Model for History {
    ghost use Rattle.std.specs.Prelude.{◌≡◌, ◌<◌, ◌≤◌, length, take, All};
    ghost use Rattle.tt_game.specs.GameHistory.{GameHistory};
    ghost use Rattle.tt_game.specs.inside.Undoing.{game_history_of};

    ghost Value = { GameHistory };

    ghost view = { λ h. game_history_of h.size (take h.count h.boards.items) h.passes };

    ghost invariant = { λ h. record {
      some_board : 0 < h.count;
      count : h.count ≤ length h.boards.items;
      sizes : All (λ b. b.size ≡ h.size) (take h.count h.boards.items);
      passes : h.passes ≤ 2;
    } };
}

/// Whether the colouring of `next` is one of the boards'. The last one is looked at first: a stone that dies at once makes it again.
fn repeats(boards: &[Board], next: &Board) -> bool
    requires { All (λ b. b.size ≡ next.now.size) boards.now }
    ensures { IsTrue result ↔ IsInHistory (colourings boards.now) next.now.points }
{
    for k in 0..boards.len() {
        if boards[boards.len() - 1 - k].same(next) {
            return true;
        }
    }
    false
}

/// False only where no stone of this colour stands on `p` on any of the boards.
fn stone_stood(boards: &[Board], colour: Colour, p: Point) -> bool
    requires { All (λ b. p < point_count b.size) boards.now }
    ensures { (c : Colouring) → IsInHistory (colourings boards.now) c → entry_at c p ≡ Some colour
        → IsTrue result }
{
    for board in boards {
        if board.has_stone_of(colour, p) {
            return true;
        }
    }
    false
}

/// Writes a board over the one at the index `count`, or adds it there; without memory there are none more.
fn write_or_push_board(
    boards: &mut Vec<Board>,
    count: usize,
    next: &CountedBoard,
) -> Result<(), NoMemory>
    requires { count ≤ length boards.old.items }
    ensures ok { OnOk result (take (count + 1) boards.new.items ≡ take count boards.old.items ++ next.now ∷ []) }
    ensures wide { OnOk result (count < length boards.new.items) }
    ensures err { OnErr result (boards.new.items ≡ boards.old.items) }
{
    if count < boards.len() {
        next.write_to_board(&mut boards[count]);
    } else {
        boards.push(next.board())?;
    }
    Ok(())
}

impl History {
    ghost use Rattle.tt_game.specs.GameHistory.{GameHistory, so_far, with_next_colouring, with_pass, new_game_history};
    ghost use Rattle.tt_game.specs.inside.Undoing.{without_play, without_pass};

    /// The history of this board alone.
    pub(crate) fn of(alloc: Global, board: Board) -> Result<History, NoMemory>
        ensures { IfOk result (λ h. h ≡ new_game_history board.size board.points) }
    {
        let size = board.size();
        let mut boards = Vec::new(alloc);
        boards.push(board)?;
        Ok(History {
            size,
            boards,
            count: 1,
            passes: 0,
            alloc,
        })
    }

    /// The size of its boards.
    pub(crate) fn size(&self) -> Size
        ensures { result ≡ self.now.size }
    {
        self.size
    }

    /// How many passes were made in a row: 0 to 2.
    pub(crate) fn passes(&self) -> u8
        ensures value { result ≡ self.now.passes }
        ensures most { result ≤ 2 }
    {
        self.passes
    }

    /// The boards, oldest first; the last one is the present one.
    pub(crate) fn boards(&self) -> &[Board]
        ensures colourings { colourings result.now ≡ so_far self.now }
        ensures sizes { All (λ b. b.size ≡ self.now.size) result.now }
        ensures some { 0 < length result.now }
    {
        &self.boards[..self.count]
    }

    /// The boards behind the first `from`, oldest first.
    pub(crate) fn boards_since(&self, from: usize) -> &[Board]
        requires { from ≤ length (so_far self.now) }
        ensures colourings { colourings result.now ≡ drop from (so_far self.now) }
        ensures sizes { All (λ b. b.size ≡ self.now.size) result.now }
    {
        &self.boards()[from..]
    }

    /// The present board.
    pub(crate) fn present(&self) -> &Board
        ensures size { result.now.size ≡ self.now.size }
        ensures points { result.now.points ≡ self.now.present }
    {
        &self.boards[self.count - 1]
    }

    /// Where its memory comes from.
    pub(crate) fn alloc(&self) -> Global {
        self.alloc
    }

    /// False only where no stone of this colour stood on `p` on any board behind the first `from`.
    pub(crate) fn stone_has_stood(&self, from: usize, colour: Colour, p: Point) -> bool
        requires on_board { p < point_count self.now.size }
        requires within { from ≤ length (so_far self.now) }
        ensures { (c : Colouring) → IsInHistory (drop from (so_far self.now)) c
            → entry_at c p ≡ Some colour → IsTrue result }
    {
        stone_stood(&self.boards()[from..], colour, p)
    }

    /// Whether a board of this size has the colouring of some board behind the first `from`.
    pub(crate) fn has_been_since(&self, from: usize, next: &Board) -> bool
        requires size { next.now.size ≡ self.now.size }
        requires within { from ≤ length (so_far self.now) }
        ensures { IsTrue result ↔ IsInHistory (drop from (so_far self.now)) next.now.points }
    {
        repeats(&self.boards()[from..], next)
    }

    /// True only where the board at an index has the colouring of a board of this size.
    pub(crate) fn has_colouring_at(&self, index: usize, next: &Board) -> bool
        requires { next.now.size ≡ self.now.size }
        ensures { IsTrue result → IsInHistory (so_far self.now) next.now.points }
    {
        let boards = self.boards();
        index < boards.len() && boards[index].same(next)
    }

    /// Adds the board that a play made; without memory it is as it was.
    pub(crate) fn push(&mut self, next: Board) -> Result<(), NoMemory>
        requires { next.size ≡ self.old.size }
        ensures ok { OnOk result (self.new ≡ with_next_colouring self.old next.points) }
        ensures err { OnErr result (self.new ≡ self.old) }
    {
        self.boards.truncate(self.count);
        self.boards.push(next)?;
        self.count += 1;
        self.passes = 0;
        Ok(())
    }

    /// Adds the board that a play made, with its chains counted: it is written over the board above, where there is one. Without memory
    /// the history is as it was.
    pub(crate) fn push_counted(&mut self, next: &CountedBoard) -> Result<(), NoMemory>
        requires { next.now.size ≡ self.old.size }
        ensures ok { OnOk result (self.new ≡ with_next_colouring self.old next.now.points) }
        ensures err { OnErr result (self.new ≡ self.old) }
    {
        write_or_push_board(&mut self.boards, self.count, next)?;
        self.count += 1;
        self.passes = 0;
        Ok(())
    }

    /// Counts a pass.
    pub(crate) fn add_pass(&mut self)
        requires { self.old.passes ≢ 2 }
        ensures { self.new ≡ with_pass self.old }
    {
        self.passes += 1;
    }

    /// Takes back a play that was made after so many passes.
    pub(crate) fn undo_play(&mut self, passes: u8)
        requires some { 0 < length self.old.earlier }
        requires passes { passes ≤ 2 }
        ensures { self.new ≡ without_play self.old passes }
    {
        self.count -= 1;
        self.passes = passes;
    }

    /// Takes back a pass.
    pub(crate) fn undo_pass(&mut self)
        requires { 1 ≤ self.old.passes }
        ensures { self.new ≡ without_pass self.old }
    {
        self.passes -= 1;
    }

    /// The same boards, and no pass counted.
    pub(crate) fn without_passes(self) -> History
        ensures { result
            ≡ record { size = self.size; earlier = self.earlier; present = self.present; passes = 0 } }
    {
        History { passes: 0, ..self }
    }

    /// The same history again, with room for some plays: they move no board.
    pub(crate) fn copy(&self) -> Result<History, NoMemory>
        ensures { IfOk result (λ h. h ≡ self.now) }
    {
        let so_far = self.boards();
        let mut boards = Vec::with_capacity(self.alloc, so_far.len().saturating_add(SPARE_PLAYS))?;
        for board in so_far {
            boards.push_reserved(board.copy());
        }
        Ok(History {
            size: self.size,
            boards,
            count: self.count,
            passes: self.passes,
            alloc: self.alloc,
        })
    }
}
