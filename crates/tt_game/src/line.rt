//! A problem and a game of it (Tromp-Taylor rules with a region and targets): turns are made and undone.

ghost use Rattle.std.specs.Prelude.{◌≡◌, ◌≢◌, ℕ, ◌+◌, ◌-◌, ◌<◌, ◌≤◌, ◌↔◌, ◌∷◌, length, slice_set, IsTrue, IsSome, IfSome, MatchOption, Contains, All};
ghost use Rattle.tt_game.specs.GameHistory.{IsInHistory, colourings};
ghost use Rattle.tt_game.specs.Line.{problem_after_turn};
ghost use Rattle.tt_game.specs.Mixing.{mix_board};
ghost use Rattle.tt_board.specs.Position.{Colouring};
ghost use Rattle.tt_sgf.specs.Sizes.{point_count};

use crate::faults::{Refused, Why};
use crate::frame::{Frame, Side};
use crate::history::History;
use crate::history::bloom_filter::{filter_index_with_stone, mix_board};
use crate::history::board_stack::BoardStack;
use crate::history::root::{Root, union_of_stones};
use crate::history::snapshot::Snapshot;
use crate::turns::Turn;
use std::marker::Model;
use std::sync::Arc;
use tt_board::{Board, Colour, CountedBoard};
use tt_sgf::{Bits, NoMemory, Point};

/// How a push is undone.
#[derive(Clone, Copy)]
enum Undo {
    UndoPlay(u8),
    UndoPass,
}

/// A problem and a game of it. Contracts see its frame, its state, and the states that pops lead back to. The root is what
/// all that is kept of it shares.
#[derive(Drop)]
pub struct Line {
    frame: Frame,
    root: Arc<Root>,
    history: History,
    stack: BoardStack,
    to_move: Side,
    pushes: Vec<Undo>,
}

impl Model for Line {
    ghost use Rattle.std.specs.Prelude.{◌≡◌, ◌<◌, ◌≤◌, reverse, length, All};
    ghost use Rattle.tt_sgf.specs.Sizes.{point_count};
    ghost use Rattle.std.specs.Arc.{arc_value};
    ghost use Rattle.tt_game.specs.Line.{LineWithUndo, HasTargetsOnBoard};
    ghost use Rattle.tt_game.specs.inside.Roots.{AreRooted};
    ghost use Rattle.tt_game.specs.inside.Undoing.{line_with_undo, state_at, board_on, IsUndoable};
    ghost use Rattle.tt_sgf.specs.contracts.sets.PointSet as points;
    ghost use Rattle.std.specs.Coded.{codes};

    ghost Value = { LineWithUndo };

    ghost coded = { Prim.hlevel (codes, points.the_row.coded) };

    ghost view = { λ l. line_with_undo l.frame (state_at l.history l.to_move) (reverse l.pushes.items) };

    ghost invariant = { λ l. record {
      size : l.history.size ≡ l.frame.size;
      targets : HasTargetsOnBoard l.frame;
      board : l.stack.present ≡ board_on l.frame.size l.history.present;
      undoable : IsUndoable l.frame.size (state_at l.history l.to_move) (reverse l.pushes.items) l.stack.below;
      same_frame : (arc_value l.root).frame ≡ l.frame;
      rooted : AreRooted (arc_value l.root).begun (state_at l.history l.to_move) (reverse l.pushes.items);
    } };
}

impl Line {
    ghost use Rattle.std.specs.Prelude.{Some, None, Err, Ok, [], MatchResult, EachIndex};
    ghost use Rattle.tt_game.specs.Game.{history, winner_of, side_colour, colouring_after_play, IsLegal, after};
    ghost use Rattle.tt_game.specs.Line.{IsBarredBySuperko};
    ghost use Rattle.tt_board.specs.Reach.{entry_at};
    ghost use Rattle.std.specs.Prelude.{OnOk, OnErr, IfErr, IfOk};
    ghost use Rattle.tt_game.specs.Line.{HasTargetsOnBoard, HasBoardInHistory, IsRefusalOfTurn, IsPushError, IsLineAfterTurn};
    ghost use Rattle.tt_game.specs.inside.Roots.{BoardsBegin};
    ghost use Rattle.tt_game.specs.inside.Undoing.{IsMoved, state_at, board_on};
    ghost use Rattle.tt_game.specs.Turns.{IsTurnOnBoard};
    ghost use Rattle.tt_game.specs.MoveGenerators.{IncludesStoodPoints};
    ghost use Rattle.tt_game.specs.declared.turns.Turn.{Turn};

    /// The line that begins with this history, whose present board is given with its chains counted, with nothing to undo.
    pub(crate) fn begin(
        frame: Frame,
        history: History,
        to_move: Side,
        board: CountedBoard,
    ) -> Result<Line, NoMemory>
        requires size { history.size ≡ frame.size }
        requires targets { HasTargetsOnBoard frame }
        requires board { board ≡ board_on frame.size history.present }
        ensures { IfOk result
            (λ l. l ≡ record { frame = frame; state = state_at history to_move; before = [] }) }
    {
        let alloc = history.alloc();
        let root = Arc::new(alloc, Root::of(&frame, &history)?)?;
        Ok(Line {
            frame,
            root,
            history,
            stack: BoardStack::of(alloc, board)?,
            to_move,
            pushes: Vec::new(alloc),
        })
    }

    /// Who moves next.
    pub fn to_move(&self) -> Side
        ensures { result ≡ self.now.state.to_move }
    {
        self.to_move
    }

    /// The frame; it has some target, and all are on the board.
    pub fn frame(&self) -> &Frame
        ensures value { result.now ≡ self.now.frame }
        ensures targets { HasTargetsOnBoard self.now.frame }
    {
        &self.frame
    }

    /// The colour that moves next.
    pub(crate) fn colour_to_move(&self) -> Colour
        ensures { result ≡ side_colour self.now.frame self.now.state.to_move }
    {
        self.frame.colour_of(self.to_move)
    }

    /// What all lines of its beginning share.
    #[tactic(auto, using(crate::proofs::RootLemmas::rooted_here))]
    pub(crate) fn root(&self) -> &Root
        ensures frame { result.now.frame ≡ self.now.frame }
        ensures begins { BoardsBegin result.now.begun (history self.now.state) }
    {
        &self.root
    }

    /// The present board.
    pub fn present(&self) -> &Board
        ensures size { result.now.size ≡ self.now.frame.size }
        ensures points { result.now.points ≡ self.now.state.present }
    {
        self.history.present()
    }

    /// The present board, with its chains counted.
    pub(crate) fn counted_board(&self) -> &CountedBoard
        ensures { result.now ≡ board_on self.now.frame.size self.now.state.present }
    {
        self.stack.present()
    }

    /// Who has won, if somebody has: the attacker where some target is empty, else the defender after two passes in a row.
    pub fn winner(&self) -> Option<Side>
        ensures { result ≡ winner_of self.now.frame self.now.state }
    {
        self.frame.winner_on(self.present(), self.history.passes())
    }

    /// The board after a play of the side to move on an empty point.
    pub(crate) fn board_after_play(&self, p: Point) -> Board
        requires on_board { p < point_count self.now.frame.size }
        requires free { entry_at self.now.state.present p ≡ None }
        ensures { result
            ≡ record { size = self.now.frame.size; points = colouring_after_play self.now.frame self.now.state p } }
    {
        self.stack.present().after(self.colour_to_move(), p)
    }

    /// The board after a turn that is known to be legal. Nothing is pushed, and it takes no memory.
    pub fn board_after_turn(&self, t: Turn) -> Board
        requires { IsLegal self.now.frame self.now.state t }
        ensures { result
            ≡ record { size = self.now.frame.size; points = (after self.now.frame self.now.state t).present } }
    {
        match t {
            Turn::Play(p) => self.board_after_play(p),
            Turn::Pass => self.present().copy(),
        }
    }

    /// False only where no stone of this colour stood on `p` on any board so far.
    fn stone_has_stood(&self, colour: Colour, p: Point) -> bool
        requires { p < point_count self.now.frame.size }
        ensures { (c : Colouring) → IsInHistory (history self.now.state) c
            → entry_at c p ≡ Some colour → IsTrue result }
    {
        if self.root.stone_has_stood(colour, p) {
            return true;
        }
        self.history
            .stone_has_stood(self.root.board_count(), colour, p)
    }

    /// Whether the region has many points. Nothing goes by it but time.
    pub(crate) fn has_large_region(&self) -> bool {
        self.root.has_large_region()
    }

    /// The stones of a colour on all boards so far.
    pub(crate) fn stones_so_far(&self, colour: Colour) -> Bits
        ensures { IncludesStoodPoints colour self.now.frame.size (history self.now.state) result.words }
    {
        let later = union_of_stones(self.history.boards_since(self.root.board_count()), colour);
        self.root.stones_on_any_board(colour).or(&later)
    }

    /// Whether a play of the side to move on an empty point makes a colouring that has been.
    fn repeats(&self, p: Point) -> bool
        requires on_board { p < point_count self.now.frame.size }
        requires free { entry_at self.now.state.present p ≡ None }
        ensures { IsTrue result
            ↔ IsInHistory (history self.now.state) (colouring_after_play self.now.frame self.now.state p) }
    {
        self.has_been(p, &self.board_after_play(p))
    }

    /// Whether a board of the line's size, which a play of the side to move on `p` may have made, has a colouring that has been. Where
    /// its stone stands on `p` and never did before, no board is compared, and none of the beginning where its hash tells it from them.
    pub(crate) fn has_been(&self, p: Point, next: &Board) -> bool
        requires on_board { p < point_count self.now.frame.size }
        requires size { next.now.size ≡ self.now.frame.size }
        ensures { IsTrue result ↔ IsInHistory (history self.now.state) next.now.points }
    {
        let colour = self.colour_to_move();
        if next.has_stone_of(colour, p) && !self.stone_has_stood(colour, p) {
            return false;
        }
        self.has_colouring_in_history(next)
    }

    /// Whether a board of the line's size has a colouring that has been: none of the beginning is compared where its hash tells it from
    /// them, and where it doesn't, the one that its hash names is compared first.
    pub(crate) fn has_colouring_in_history(&self, next: &Board) -> bool
        requires { next.now.size ≡ self.now.frame.size }
        ensures { IsTrue result ↔ IsInHistory (history self.now.state) next.now.points }
    {
        match self.root.likely_board_index(next) {
            None => self.history.has_been_since(self.root.board_count(), next),
            Some(index) => self.history.has_colouring_at(index, next)
                || self.history.has_been_since(0, next),
        }
    }

    /// Whether the line's history has the board. It takes no memory.
    pub fn has_board_in_history(&self, board: &Board) -> bool
        ensures { IsTrue result ↔ HasBoardInHistory self.now.frame self.now.state board.now }
    {
        if board.size() != self.frame.size {
            return false;
        }
        self.has_colouring_in_history(board)
    }

    /// What the words of the present board make, where hashes were noted of the boards of the beginning.
    pub(crate) fn unfinished_board_hash(&self) -> Option<u64>
        ensures { IfSome result (λ n. n ≡ mix_board self.now.frame.size self.now.state.present) }
    {
        if !self.root.keeps_hashes() {
            return None;
        }
        Some(mix_board(self.present()))
    }

    /// Whether a stone more, of `colour` on the empty point `p`, makes a colouring that differs from all so far: from those of the
    /// beginning by its hash, and from the others where none has that stone. `sum` is what the words make without it.
    pub(crate) fn is_new_by_hash(&self, sum: u64, colour: Colour, p: Point) -> bool
        requires sum { sum ≡ mix_board self.now.frame.size self.now.state.present }
        requires fits { length self.now.state.present ≡ point_count self.now.frame.size }
        requires on_board { p < point_count self.now.frame.size }
        requires free { entry_at self.now.state.present p ≡ None }
        ensures { IsTrue result
            → IsInHistory (history self.now.state) (slice_set self.now.state.present p (Some colour)) → ⊥ }
    {
        if self
            .root
            .may_have_hash(filter_index_with_stone(sum, colour, p))
        {
            return false;
        }
        !self
            .history
            .stone_has_stood(self.root.board_count(), colour, p)
    }

    /// Why a play of the side to move is refused, or none where it is legal.
    pub(crate) fn play_refusal(&self, p: Point) -> Option<Why>
        requires on_board { p < point_count self.now.frame.size }
        requires open { winner_of self.now.frame self.now.state ≡ None }
        ensures { MatchOption result (IsLegal self.now.frame self.now.state (Turn.Play p)) (IsRefusalOfTurn self.now.frame self.now.state (Turn.Play p)) }
    {
        if self.present().at(p).is_some() {
            return Some(Why::Occupied);
        }
        if !self.frame.region.has(p) {
            return Some(Why::Outside);
        }
        if self.repeats(p) {
            return Some(Why::Repeats);
        }
        None
    }

    /// The board that a play of the side to move on an empty point of the region makes, where the line's history has its
    /// colouring; none where the history hasn't, and for any other point. It takes no memory.
    pub fn repeated_board(&self, p: Point) -> Option<Board>
        ensures { MatchOption result (IsBarredBySuperko self.now.frame self.now.state p → ⊥)
            (λ b. IsBarredBySuperko self.now.frame self.now.state p
            × (b ≡ record { size = self.now.frame.size; points = colouring_after_play self.now.frame self.now.state p })) }
    {
        if !self.frame.size.holds(p)
            || !self.frame.region.has(p)
            || self.present().at(p).is_some()
        {
            return None;
        }
        let next = self.board_after_play(p);
        if !self.has_been(p, &next) {
            return None;
        }
        Some(next)
    }

    /// Why a turn is refused, or none where it is legal: `Over` exactly where somebody has won. A play is
    /// on a point of the board.
    pub fn refusal(&self, t: Turn) -> Option<Why>
        requires { IsTurnOnBoard self.now.frame t }
        ensures { MatchOption result (IsLegal self.now.frame self.now.state t)
            (IsRefusalOfTurn self.now.frame self.now.state t) }
    {
        if self.winner().is_some() {
            return Some(Why::Over);
        }
        match t {
            Turn::Pass => None,
            Turn::Play(p) => self.play_refusal(p),
        }
    }

    /// Whether a turn is legal. A play off the board isn't.
    pub fn is_legal(&self, t: Turn) -> bool
        ensures { IsTrue result ↔ IsLegal self.now.frame self.now.state t }
    {
        if let Turn::Play(p) = t {
            if !self.frame.size.holds(p) {
                return false;
            }
        }
        self.refusal(t).is_none()
    }

    /// Adds a pass; the line is unchanged where memory is refused.
    fn push_pass(&mut self) -> Result<(), NoMemory>
        requires { winner_of self.old.frame self.old.state ≡ None }
        ensures ok { OnOk result (IsLineAfterTurn self.old self.new Turn.Pass) }
        ensures err { OnErr result (self.new ≡ self.old) }
    {
        self.pushes.push(Undo::UndoPass)?;
        self.history.add_pass();
        self.to_move = self.to_move.opponent();
        Ok(())
    }

    /// Adds a play on an empty point; the line is unchanged where memory is refused.
    fn push_play_on_empty(&mut self, p: Point) -> Result<(), NoMemory>
        requires on_board { p < point_count self.old.frame.size }
        requires free { entry_at self.old.state.present p ≡ None }
        ensures ok { OnOk result (IsMoved self.old self.new (colouring_after_play self.old.frame self.old.state p)) }
        ensures err { OnErr result (self.new ≡ self.old) }
    {
        let colour = self.colour_to_move();
        self.pushes.push(Undo::UndoPlay(self.history.passes()))?;
        if let Err(error) = self.stack.push(colour, p) {
            self.pushes.pop();
            return Err(error);
        }
        if let Err(error) = self.history.push_counted(self.stack.present()) {
            self.stack.pop();
            self.pushes.pop();
            return Err(error);
        }
        self.to_move = self.to_move.opponent();
        Ok(())
    }

    /// Makes a play where nobody has won.
    fn push_play(&mut self, p: Point) -> Result<(), Refused>
        requires on_board { p < point_count self.old.frame.size }
        requires open { winner_of self.old.frame self.old.state ≡ None }
        ensures ok { OnOk result (IsLegal self.old.frame self.old.state (Turn.Play p)
            × IsLineAfterTurn self.old self.new (Turn.Play p)) }
        ensures err { OnErr result (self.new ≡ self.old) }
        ensures why { IfErr result
            (λ e. IsPushError self.old.frame self.old.state (Turn.Play p) e) }
    {
        if let Some(why) = self.play_refusal(p) {
            return Err(Refused::Illegal(why));
        }
        if self.push_play_on_empty(p).is_err() {
            return Err(Refused::NoMemory);
        }
        Ok(())
    }

    /// Makes a turn: a pass, or a play on a point of the board. `Illegal` where the turn isn't legal, `NoMemory` where
    /// memory was refused; the line is then as it was.
    pub fn push(&mut self, t: Turn) -> Result<(), Refused>
        requires { IsTurnOnBoard self.old.frame t }
        ensures ok { OnOk result (IsLegal self.old.frame self.old.state t
            × IsLineAfterTurn self.old self.new t) }
        ensures err { OnErr result (self.new ≡ self.old) }
        ensures why { IfErr result (λ e. IsPushError self.old.frame self.old.state t e) }
    {
        if self.winner().is_some() {
            return Err(Refused::Illegal(Why::Over));
        }
        match t {
            Turn::Play(p) => self.push_play(p),
            Turn::Pass => {
                if self.push_pass().is_err() {
                    return Err(Refused::NoMemory);
                }
                Ok(())
            }
        }
    }

    /// Makes a turn that is known to be legal, without a second look at the rules; where memory is refused the line is as
    /// it was.
    pub fn push_legal(&mut self, t: Turn) -> Result<(), NoMemory>
        requires { IsLegal self.old.frame self.old.state t }
        ensures ok { OnOk result (IsLineAfterTurn self.old self.new t) }
        ensures err { OnErr result (self.new ≡ self.old) }
    {
        match t {
            Turn::Play(p) => self.push_play_on_empty(p)?,
            Turn::Pass => self.push_pass()?,
        }
        Ok(())
    }

    /// Undoes the last push, its pass count and side to move among it. A line made by `problem` or `try_clone` has no
    /// push to undo.
    pub fn pop(&mut self)
        requires { 0 < length self.old.before }
        ensures before { self.old.before ≡ self.new.state ∷ self.new.before }
        ensures frame { self.new.frame ≡ self.old.frame }
    {
        self.to_move = self.to_move.opponent();
        match self.pushes.pop() {
            Some(Undo::UndoPass) => self.history.undo_pass(),
            Some(Undo::UndoPlay(passes)) => {
                self.history.undo_play(passes);
                self.stack.pop();
            }
            None => unreachable!(),
        }
    }

    /// How many passes were made in a row: 0 to 2.
    pub fn passes(&self) -> u8
        ensures value { result ≡ self.now.state.passes }
        ensures most { result ≤ 2 }
    {
        self.history.passes()
    }

    /// The boards, oldest first; the last one is the present one.
    pub fn history(&self) -> &[Board]
        ensures colourings { colourings result.now ≡ history self.now.state }
        ensures sizes { All (λ b. b.size ≡ self.now.frame.size) result.now }
    {
        self.history.boards()
    }

    /// Where the line stands, to be kept in little memory.
    #[tactic(auto, using(crate::proofs::RootLemmas::rooted_here))]
    pub fn snapshot(&self) -> Result<Snapshot, NoMemory>
        ensures { IfOk result (λ p. p ≡ record { frame = self.now.frame; state = self.now.state }) }
    {
        Snapshot::of(&self.root, &self.history, self.to_move, self.key_hash())
    }

    /// The same line, with nothing to undo. What is kept of both shares one root.
    #[tactic(auto, using(crate::proofs::RootLemmas::rooted_here))]
    pub fn try_clone(&self) -> Result<Line, NoMemory>
        ensures { IfOk result
            (λ l. l ≡ record { frame = self.now.frame; state = self.now.state; before = [] }) }
    {
        let history = self.history.copy()?;
        let alloc = history.alloc();
        Ok(Line {
            frame: self.frame.copy(),
            root: Arc::try_clone(&self.root)?,
            history,
            stack: self.stack.from_present(alloc)?,
            to_move: self.to_move,
            pushes: Vec::new(alloc),
        })
    }

    /// The line after a legal turn, which alone may be undone in it.
    pub fn after(&self, t: Turn) -> Result<Line, NoMemory>
        requires { IsLegal self.now.frame self.now.state t }
        ensures { IfOk result (λ l. l ≡ problem_after_turn self.now t) }
    {
        let mut next = self.try_clone()?;
        next.push_legal(t)?;
        Ok(next)
    }
}
