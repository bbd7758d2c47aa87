//! Footprints: what a tree rests on in the history of its state.

ghost use Rattle.std.specs.Prelude.{◌≡◌, ◌≤◌, ◌<◌, ◌↔◌, ◌⊎◌, List, [], ◌∷◌, ◌++◌, Contains, IfOk, OnOk, MatchOption};
ghost use Rattle.tt_board.specs.Position.{Position, Colouring};
ghost use Rattle.tt_game.specs.Game.{State, IsLegal, after, history, colouring_after_play};
ghost use Rattle.tt_game.specs.Line.{IsBarredBySuperko};
ghost use Rattle.tt_game.specs.declared.turns.Turn.{Turn};
ghost use Rattle.tt_game.specs.declared.frame.Frame.{Frame};
ghost use Rattle.tt_proof.specs.declared.tree.TheConstants.{MOST_DEPTH};
ghost use Rattle.tt_proof.specs.Strategy.{Strategy, done, pick, reply, none, depth, depth_of_entries, strategy_of, entries_of, entries_of_reply, IsInOrder, AreInOrder, IsTurnOnBoardOfSize};
ghost use Rattle.tt_proof.specs.Footprints.{IsRepeatedByPlay};
ghost use Rattle.tt_proof.specs.KeptFootprints.{IsFootprint, IsBoardAfter, IsEntryJoined, HaveFrameSize, board_of_colouring, AreLegalPlays};
ghost use Rattle.tt_proof.specs.inside.Collecting.{IsMadeWithin};
ghost use Rattle.tt_proof.specs.laws.PlayedBoards.{IsPassedUp, IsPlayed};
ghost use Rattle.tt_proof.specs.BoardSetBounds.{IsWiderOrSame};

use crate::board_set::BoardSet;
use crate::board_set_bounds::{BoardSetBound, union_of_bounds};
use crate::tree::Tree;
use std::alloc::Global;
use tt_board::Board;
use tt_game::{Line, Refused, Turn};
use tt_sgf::{NoMemory, Point, PointSet};

/// What a tree needs in the history of its state, and what it avoids there: the boards of two sets of colourings. Each board that
/// a turn of the other side makes lies within the bound `met`.
#[derive(Drop)]
pub struct Footprint {
    pub needs: BoardSet,
    pub avoids: BoardSet,
    pub met: Option<BoardSetBound>,
}

impl Footprint {
    /// That of a tree that plays nothing more.
    pub fn empty(alloc: Global) -> Footprint
        ensures { (f : Frame) (s : State) → IsFootprint f s done result }
    {
        Footprint {
            needs: BoardSet::new(alloc),
            avoids: BoardSet::new(alloc),
            met: None,
        }
    }

    /// That of a reply without entries: it needs the colourings of the history that plays on empty points of the region
    /// would repeat.
    pub fn of_empty_reply(alloc: Global, line: &Line) -> Result<Footprint, NoMemory>
        ensures { IfOk result (λ x. IsFootprint line.now.frame line.now.state (reply none) x) }
    {
        Footprint::of_empty_reply_given_legal(alloc, line, &PointSet::empty())
    }

    /// The same where plays on these points are known to be legal: such a play repeats nothing, and isn't tried.
    pub fn of_empty_reply_given_legal(
        alloc: Global,
        line: &Line,
        legal: &PointSet,
    ) -> Result<Footprint, NoMemory>
        requires { AreLegalPlays line.now.frame line.now.state legal.now }
        ensures { IfOk result (λ x. IsFootprint line.now.frame line.now.state (reply none) x) }
    {
        let needs = repeated_boards(alloc, line, legal)?;
        Ok(Footprint {
            needs,
            avoids: BoardSet::new(alloc),
            met: None,
        })
    }

    /// That of a pick of the turn, which is legal at the line, from that of the tree behind it. `board` is the one after the
    /// turn.
    pub fn picked(
        alloc: Global,
        line: &Line,
        turn: &Turn,
        board: &Board,
        behind: Footprint,
    ) -> Result<Footprint, NoMemory>
        requires legal { IsLegal line.now.frame line.now.state turn.now }
        requires board { IsBoardAfter line.now.frame line.now.state turn.now board.now }
        ensures { IfOk result (λ x. (u : Strategy)
            → IsFootprint line.now.frame (after line.now.frame line.now.state turn.now) u behind
            → IsFootprint line.now.frame line.now.state (pick turn.now u) x) }
    {
        let Footprint {
            mut needs,
            mut avoids,
            met,
        } = behind;
        remove_made_board(&mut needs, turn, board);
        add_made_board(alloc, &mut avoids, turn, board)?;
        Ok(Footprint { needs, avoids, met })
    }

    /// Joins that of the tree behind one more turn of a reply. The turn is legal at the line, and `board` is the one after
    /// it. After want of memory the footprint is of no use.
    pub fn join_reply_turn(
        &mut self,
        line: &Line,
        turn: &Turn,
        board: &Board,
        behind: Footprint,
    ) -> Result<(), NoMemory>
        requires legal { IsLegal line.now.frame line.now.state turn.now }
        requires board { IsBoardAfter line.now.frame line.now.state turn.now board.now }
        ensures { OnOk result ((u : Strategy)
            → IsFootprint line.now.frame (after line.now.frame line.now.state turn.now) u behind
            → IsEntryJoined line.now.frame line.now.state turn.now u self.old self.new) }
    {
        let Footprint {
            mut needs,
            avoids,
            met,
        } = behind;
        remove_made_board(&mut needs, turn, board);
        self.needs.join(needs)?;
        self.met = widened_bound(&self.met, turn, board, &met);
        self.avoids.join(avoids)
    }

    /// The same footprint again, whose boards are those of this one.
    pub fn try_clone(&self, alloc: Global) -> Result<Footprint, NoMemory>
        ensures { IfOk result (λ x. x ≡ self.now) }
    {
        let needs = self.needs.try_clone(alloc)?;
        let avoids = self.avoids.try_clone(alloc)?;
        Ok(Footprint {
            needs,
            avoids,
            met: self.met,
        })
    }
}

/// Of what the child of a turn needs, which led to the board, only that stays which it needs in its parent's history too.
pub(crate) fn remove_made_board(needs: &mut BoardSet, turn: &Turn, board: &Board)
    ensures { (b : Position) → Contains needs.new b ↔ IsPassedUp turn.now board.now needs.old b }
{
    match turn {
        Turn::Pass => {}
        Turn::Play(_) => needs.remove(board),
    }
}

/// Adds the board that a play made; a pass made none.
pub(crate) fn add_made_board(
    alloc: Global,
    avoids: &mut BoardSet,
    turn: &Turn,
    board: &Board,
) -> Result<(), NoMemory>
    ensures { OnOk result ((b : Position)
        → Contains avoids.new b ↔ (Contains avoids.old b ⊎ IsPlayed turn.now board.now b)) }
{
    match turn {
        Turn::Pass => Ok(()),
        Turn::Play(_) => avoids.add(alloc, board),
    }
}

/// A bound of what is met behind the turns of a reply, from that behind others and from that behind one more, which led to
/// the board.
fn widened_bound(
    met: &Option<BoardSetBound>,
    turn: &Turn,
    board: &Board,
    behind: &Option<BoardSetBound>,
) -> Option<BoardSetBound>
    ensures before { IsWiderOrSame result met.now }
    ensures behind { IsWiderOrSame result behind.now }
    ensures made { IsMadeWithin turn.now board.now result }
{
    let both = union_of_bounds(met, behind);
    match turn {
        Turn::Pass => both,
        Turn::Play(_) => union_of_bounds(&both, &Some(BoardSetBound::of(board))),
    }
}

/// The board of the history that a play on the point would repeat. A play that is known to be legal isn't tried.
fn repeated_board_unless_legal(line: &Line, legal: &PointSet, p: Point) -> Option<Board>
    requires { AreLegalPlays line.now.frame line.now.state legal.now }
    ensures { MatchOption result (IsBarredBySuperko line.now.frame line.now.state p → ⊥)
        (λ b. IsBarredBySuperko line.now.frame line.now.state p
        × (b ≡ board_of_colouring line.now.frame (colouring_after_play line.now.frame line.now.state p))) }
{
    if legal.has(p) {
        return None;
    }
    line.repeated_board(p)
}

/// Adds the board of the history that a play on the point would repeat.
fn add_repeated_board(
    alloc: Global,
    needs: &mut BoardSet,
    line: &Line,
    legal: &PointSet,
    p: Point,
) -> Result<(), NoMemory>
    requires { AreLegalPlays line.now.frame line.now.state legal.now }
    ensures sized { OnOk result (HaveFrameSize line.now.frame needs.old
        → HaveFrameSize line.now.frame needs.new) }
    ensures more { OnOk result ((c : Colouring)
        → Contains needs.new (board_of_colouring line.now.frame c)
        ↔ (Contains needs.old (board_of_colouring line.now.frame c)
        ⊎ (IsBarredBySuperko line.now.frame line.now.state p
        × (colouring_after_play line.now.frame line.now.state p ≡ c)))) }
{
    match repeated_board_unless_legal(line, legal, p) {
        Some(board) => needs.add(alloc, &board),
        None => Ok(()),
    }
}

/// The boards of the history that plays on empty points of the region would repeat.
fn repeated_boards(alloc: Global, line: &Line, legal: &PointSet) -> Result<BoardSet, NoMemory>
    requires { AreLegalPlays line.now.frame line.now.state legal.now }
    ensures sized { IfOk result (λ needs. HaveFrameSize line.now.frame needs) }
    ensures exact { IfOk result (λ needs. (c : Colouring)
        → Contains needs (board_of_colouring line.now.frame c)
        ↔ IsRepeatedByPlay line.now.frame (history line.now.state) [] line.now.state c) }
{
    let region = &line.frame().region;
    let mut needs = BoardSet::new(alloc);
    let mut from = 0;
    while let Some(p) = region.least_from(from) {
        add_repeated_board(alloc, &mut needs, line, legal, p)?;
        from = p.number() + 1;
    }
    Ok(needs)
}

/// Joins the footprint of the tree behind the turn, where the turn is legal. The line stands as before.
#[cycle(collect)]
fn join_entry(
    alloc: Global,
    turn: &Turn,
    tree: &Tree,
    line: &mut Line,
    footprint: &mut Footprint,
) -> Result<(), NoMemory>
    requires depth { depth (strategy_of tree.now) ≤ MOST_DEPTH }
    requires on_board { IsTurnOnBoardOfSize line.old.frame.size turn.now }
    requires in_order { IsInOrder line.old.frame.size (strategy_of tree.now) }
    ensures exact { OnOk result (IsEntryJoined line.old.frame line.old.state turn.now (strategy_of tree.now) footprint.old footprint.new) }
    ensures same { line.new ≡ line.old }
{
    match line.push(*turn) {
        Ok(()) => {
            let board = line.present().copy();
            let found = footprint_of(alloc, tree, line);
            line.pop();
            let behind = found?;
            footprint.join_reply_turn(line, turn, &board, behind)
        }
        Err(Refused::Illegal(_)) => Ok(()),
        Err(Refused::NoMemory) => Err(NoMemory),
    }
}

#[cycle(collect)]
fn footprint_of_pick(
    alloc: Global,
    turn: &Turn,
    tree: &Tree,
    line: &mut Line,
) -> Result<Footprint, NoMemory>
    requires depth { depth (strategy_of tree.now) ≤ MOST_DEPTH }
    requires on_board { IsTurnOnBoardOfSize line.old.frame.size turn.now }
    requires in_order { IsInOrder line.old.frame.size (strategy_of tree.now) }
    ensures exact { IfOk result
        (λ x. IsFootprint line.old.frame line.old.state (pick turn.now (strategy_of tree.now)) x) }
    ensures same { line.new ≡ line.old }
{
    match line.push(*turn) {
        Ok(()) => {
            let board = line.present().copy();
            let found = footprint_of(alloc, tree, line);
            line.pop();
            let behind = found?;
            Footprint::picked(alloc, line, turn, &board, behind)
        }
        Err(Refused::Illegal(_)) => Ok(Footprint::empty(alloc)),
        Err(Refused::NoMemory) => Err(NoMemory),
    }
}

#[cycle(collect)]
fn footprint_of_reply(
    alloc: Global,
    list: &[(Turn, Tree)],
    line: &mut Line,
) -> Result<Footprint, NoMemory>
    requires depth { depth_of_entries (entries_of_reply list.now) ≤ MOST_DEPTH }
    requires in_order { AreInOrder line.old.frame.size 0 (entries_of_reply list.now) }
    ensures exact { IfOk result
        (λ x. IsFootprint line.old.frame line.old.state (reply (entries_of_reply list.now)) x) }
    ensures same { line.new ≡ line.old }
{
    let mut footprint = Footprint::of_empty_reply(alloc, line)?;
    for (turn, tree) in list {
        join_entry(alloc, turn, tree, line, &mut footprint)?;
    }
    Ok(footprint)
}

/// The footprint of the tree at the line's state. Whether the tree wins there isn't asked; entries of turns that aren't
/// legal aren't looked at. The tree is at most 512 turns deep, its points lie on the board, and the turns of each reply
/// rise. The line stands as before, also after want of memory.
#[cycle(collect)]
pub fn footprint_of(alloc: Global, t: &Tree, line: &mut Line) -> Result<Footprint, NoMemory>
    requires depth { depth (strategy_of t.now) ≤ MOST_DEPTH }
    requires in_order { IsInOrder line.old.frame.size (strategy_of t.now) }
    ensures exact { IfOk result
        (λ x. IsFootprint line.old.frame line.old.state (strategy_of t.now) x) }
    ensures same { line.new ≡ line.old }
{
    match t {
        Tree::Done => Ok(Footprint::empty(alloc)),
        Tree::Pick(turn, child) => footprint_of_pick(alloc, turn, child, line),
        Tree::Reply(list) => footprint_of_reply(alloc, list, line),
    }
}
