//! Games of Black and White under the Tromp-Taylor rules, as records have them: no region, no target.

ghost use Rattle.std.specs.Prelude.{◌≡◌, ◌≢◌, ℕ, ◌+◌, ◌*◌, ◌<◌, ◌≤◌, ◌↔◌, length, map, Some, None, All, IsTrue, Contains, MatchResult, OnOk, OnErr, IfOk, IfErr};
ghost use Rattle.tt_sgf.specs.Sizes.{point_count};
ghost use Rattle.tt_game.specs.GameHistory.{so_far};
ghost use Rattle.tt_game.specs.BloomFilter.{filter_index, MayHoldAll};

use crate::faults::{Refused, Why};
use crate::frame::{Frame, Side};
use crate::history::History;
use crate::history::bloom_filter::{BloomFilter, filter_index};
use crate::line::Line;
use crate::turns::Turn;
use std::alloc::Global;
use std::marker::Model;
use tt_board::{Board, Colour, CountedBoard, Occupied};
use tt_sgf::{NoMemory, Point, PointSet, Size};

/// From so many boards on a game notes hashes: to compare a colouring with fewer costs less than their rows.
const MANY_BOARDS: usize = 32;

/// A game: its history, who moves, and the passes in a row. Contracts see it as `GameState`.
///
/// Moves are made on one board with its chains counted, which the first move behind a setup counts anew: a record that only sets up
/// stones pays for no count. Superko is asked of the board behind the move, so where it refuses that board is another's, and isn't
/// counted. In a long game colourings are noted by hashes, by which superko knows most of the new ones.
#[derive(Drop)]
pub struct Game {
    history: History,
    board: CountedBoard,
    counted: bool,
    filter: BloomFilter,
    to_move: Colour,
}

/// Counts the chains of the present board, where they aren't counted yet.
fn ensure_chains_counted(board: &mut CountedBoard, counted: bool, present: &Board)
    requires { IsTrue counted → board.old ≡ present.now }
    ensures { board.new ≡ present.now }
{
    if !counted {
        *board = CountedBoard::of(present);
    }
}

/// Notes the present board, which has this hash. From so many boards on all are noted.
fn note_present_board(filter: &mut BloomFilter, history: &History, hash: usize)
    requires hash { hash ≡ filter_index history.now.size history.now.present }
    requires before { MayHoldAll filter.old history.now.size history.now.earlier }
    ensures { MayHoldAll filter.new history.now.size (so_far history.now) }
{
    let boards = history.boards();
    if boards.len() == MANY_BOARDS {
        *filter = BloomFilter::of_boards(history.alloc(), boards);
    } else {
        filter.add(hash);
    }
}

impl Model for Game {
    ghost use Rattle.std.specs.Prelude.{◌≡◌, IsTrue};
    ghost use Rattle.tt_game.specs.GameHistory.{so_far};
    ghost use Rattle.tt_game.specs.Games.{GameState, game_from_history};
    ghost use Rattle.tt_game.specs.BloomFilter.{MayHoldAll};
    ghost use Rattle.tt_game.specs.inside.Undoing.{board_on};

    ghost Value = { GameState };

    ghost view = { λ g. game_from_history g.history g.to_move };

    ghost invariant = { λ g. record {
      board : IsTrue g.counted → g.board ≡ board_on g.history.size g.history.present;
      filter : MayHoldAll g.filter g.history.size (so_far g.history);
    } };
}

impl Game {
    ghost use Rattle.std.specs.FinSet as set;
    ghost use Rattle.tt_board.specs.Reach.{entry_at};
    ghost use Rattle.tt_game.specs.Games.{GameState, IsGamePushError, colouring_after_move, game_colourings, move_refusal, refusal_of, game_after_turn, empty_game, begun_with};
    ghost use Rattle.tt_game.specs.Turns.{IsTurnOnBoardOfSize};
    ghost use Rattle.tt_game.specs.Superko.{repeats};
    ghost use Rattle.tt_board.specs.Stones.{IsSetOnBoard};
    ghost use Rattle.tt_game.specs.Problems.{posed_problem};
    ghost use Rattle.tt_game.specs.declared.turns.Turn.{Turn};

    /// The game of an empty board, with Black to move.
    pub fn empty(alloc: Global, size: Size) -> Result<Game, NoMemory>
        ensures { IfOk result (λ g. g ≡ empty_game size) }
    {
        let board = Board::empty(size);
        Ok(Game {
            board: CountedBoard::of(&board),
            counted: true,
            filter: BloomFilter::saturated(alloc),
            history: History::of(alloc, board)?,
            to_move: Colour::Black,
        })
    }

    /// The size of its boards.
    pub fn size(&self) -> Size
        ensures { result ≡ self.now.size }
    {
        self.history.size()
    }

    /// The colour that moves next.
    pub fn to_move(&self) -> Colour
        ensures { result ≡ self.now.to_move }
    {
        self.to_move
    }

    /// How many passes were made in a row: 0 to 2, and 2 where the game is over.
    pub fn passes(&self) -> u8
        ensures value { result ≡ self.now.passes }
        ensures most { result ≤ 2 }
    {
        self.history.passes()
    }

    /// The present board.
    pub fn present(&self) -> &Board
        ensures size { result.now.size ≡ self.now.size }
        ensures points { result.now.points ≡ self.now.present }
    {
        self.history.present()
    }

    /// Whether a board of the game's size, which has this hash, has a colouring of the history.
    fn has_been(&self, next: &Board, hash: usize) -> bool
        requires size { next.now.size ≡ self.now.size }
        requires hash { hash ≡ filter_index next.now.size next.now.points }
        ensures { result ≡ repeats (game_colourings self.now) next.now.points }
    {
        if !self.filter.has(hash) {
            return false;
        }
        self.history.has_been_since(0, next)
    }

    /// The board that a move makes, or why the move is refused.
    fn board_after_move(&self, p: Point) -> Result<Board, Why>
        requires { p < point_count self.now.size }
        ensures { MatchResult result
            (λ b. (move_refusal self.now p ≡ None)
            × (b ≡ record { size = self.now.size; points = colouring_after_move self.now p }))
            (λ why. move_refusal self.now p ≡ Some why) }
    {
        let next = match self.present().play(self.to_move, p) {
            Err(Occupied) => return Err(Why::Occupied),
            Ok(next) => next,
        };
        if self.has_been(&next, filter_index(&next)) {
            return Err(Why::Repeats);
        }
        Ok(next)
    }

    /// Why a turn is refused, or none where it is legal: `Over` exactly where two passes ended the game. A
    /// play is on a point of the board.
    pub fn refusal(&self, t: Turn) -> Option<Why>
        requires { IsTurnOnBoardOfSize self.now.size t }
        ensures { result ≡ refusal_of self.now t }
    {
        if self.history.passes() == 2 {
            return Some(Why::Over);
        }
        match t {
            Turn::Pass => None,
            Turn::Play(p) => self.board_after_move(p).err(),
        }
    }

    /// Adds a pass.
    fn push_pass(&mut self)
        requires { self.old.passes < 2 }
        ensures { self.new ≡ game_after_turn self.old Turn.Pass }
    {
        self.history.add_pass();
        self.to_move = self.to_move.other();
    }

    /// Makes a move before the end; after an error the game is as it was.
    fn push_play(&mut self, p: Point) -> Result<(), Refused>
        requires on_board { p < point_count self.old.size }
        requires open { self.old.passes < 2 }
        ensures ok { OnOk result ((refusal_of self.old (Turn.Play p) ≡ None)
            × (self.new ≡ game_after_turn self.old (Turn.Play p))) }
        ensures err { OnErr result (self.new ≡ self.old) }
        ensures why { IfErr result (λ e. IsGamePushError self.old (Turn.Play p) e) }
    {
        if self.present().at(p).is_some() {
            return Err(Refused::Illegal(Why::Occupied));
        }
        ensure_chains_counted(&mut self.board, self.counted, self.history.present());
        self.board.play(self.to_move, p);
        self.counted = false;
        let next = self.board.board();
        let hash = filter_index(&next);
        if self.has_been(&next, hash) {
            return Err(Refused::Illegal(Why::Repeats));
        }
        if self.history.push(next).is_err() {
            return Err(Refused::NoMemory);
        }
        note_present_board(&mut self.filter, &self.history, hash);
        self.counted = true;
        self.to_move = self.to_move.other();
        Ok(())
    }

    /// Makes a turn: a pass, or a play on a point of the board. `Illegal` where it is refused, `NoMemory` where memory
    /// was; the game is then as it was.
    pub fn push(&mut self, t: Turn) -> Result<(), Refused>
        requires { IsTurnOnBoardOfSize self.old.size t }
        ensures ok { OnOk result ((refusal_of self.old t ≡ None)
            × (self.new ≡ game_after_turn self.old t)) }
        ensures err { OnErr result (self.new ≡ self.old) }
        ensures why { IfErr result (λ e. IsGamePushError self.old t e) }
    {
        if self.history.passes() == 2 {
            return Err(Refused::Illegal(Why::Over));
        }
        match t {
            Turn::Play(p) => self.push_play(p),
            Turn::Pass => {
                self.push_pass();
                Ok(())
            }
        }
    }

    /// Begins the game anew with a board of its size alone; without memory it is as it was.
    pub(crate) fn restart_with(&mut self, board: Board, colour: Colour) -> Result<(), NoMemory>
        requires { board.size ≡ self.old.size }
        ensures ok { OnOk result (self.new ≡ begun_with self.old.size board.points colour) }
        ensures err { OnErr result (self.new ≡ self.old) }
    {
        let history = History::of(self.history.alloc(), board.copy())?;
        if !self.present().same(&board) {
            self.counted = false;
        }
        self.filter = BloomFilter::saturated(history.alloc());
        self.history = history;
        self.to_move = colour;
        Ok(())
    }

    /// The game as a problem: the history and the side to move stay.
    pub fn into_problem(
        self,
        region: PointSet,
        targets: PointSet,
        defender: Colour,
    ) -> Result<Line, NoMemory>
        requires some { 0 < set.len targets }
        requires on_board { IsSetOnBoard self.size targets }
        ensures { IfOk result (λ l. l ≡ posed_problem self region targets defender) }
    {
        let to_move = if self.to_move == defender {
            Side::Defender
        } else {
            Side::Attacker
        };
        let frame = Frame {
            size: self.history.size(),
            region,
            targets,
            defender,
        };
        let mut board = self.board;
        ensure_chains_counted(&mut board, self.counted, self.history.present());
        Line::begin(frame, self.history.without_passes(), to_move, board)
    }
}
