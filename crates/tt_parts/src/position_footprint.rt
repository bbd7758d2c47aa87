//! What a tree rests on: it wins wherever that is met.

ghost use Rattle.std.specs.Prelude.{◌≡◌, ◌↔◌, ◌⊎◌, Contains, IfOk, IsTrue};
ghost use Rattle.tt_board.specs.Position.{Position};
ghost use Rattle.tt_proof.specs.KeptFootprints.{IsBoardAfter};
ghost use Rattle.tt_proof.specs.laws.PlayedBoards.{IsPassedUp, IsPlayed};
ghost use Rattle.tt_parts.specs.SharedParts.{FootprintFits, RestsOnPositionAlone, RestsOnRepeats, RestsBeforePick, RestsBeforeOpposingTurn, RestsOnBoth};

use std::alloc::Global;
use tt_board::Board;
use tt_game::{Line, Side, Turn};
use tt_proof::{BoardSet, Footprint, SharedBoardSet};
use tt_sgf::NoMemory;

/// A position, the boards that a history there has to have, and those that it may not have.
#[derive(Drop)]
pub(crate) struct PositionFootprint {
    board: Board,
    to_move: Side,
    passes: u8,
    needs: SharedBoardSet,
    avoids: SharedBoardSet,
}

/// Of what the child of a turn needs, which led to the board, only that which it needs in its parent's history too.
fn without_made_board(
    alloc: Global,
    needs: SharedBoardSet,
    turn: &Turn,
    board: &Board,
) -> Result<SharedBoardSet, NoMemory>
    ensures { IfOk result (λ s. (b : Position)
        → Contains s b ↔ IsPassedUp turn.now board.now needs b) }
{
    match turn {
        Turn::Pass => Ok(needs),
        Turn::Play(_) => needs.without(alloc, board),
    }
}

/// With the board that a play made; a pass made none.
fn with_made_board(
    alloc: Global,
    avoids: SharedBoardSet,
    turn: &Turn,
    board: &Board,
) -> Result<SharedBoardSet, NoMemory>
    ensures { IfOk result (λ s. (b : Position)
        → Contains s b ↔ (Contains avoids b ⊎ IsPlayed turn.now board.now b)) }
{
    match turn {
        Turn::Pass => Ok(avoids),
        Turn::Play(_) => avoids.with(alloc, board),
    }
}

impl PositionFootprint {
    /// The line's position with any history.
    pub(crate) fn of(alloc: Global, line: &Line) -> Result<PositionFootprint, NoMemory>
        ensures { IfOk result (λ x. RestsOnPositionAlone line.now.frame line.now.state x) }
    {
        let needs = SharedBoardSet::of(alloc, BoardSet::new(alloc))?;
        let avoids = SharedBoardSet::of(alloc, BoardSet::new(alloc))?;
        Ok(PositionFootprint {
            board: line.present().copy(),
            to_move: line.to_move(),
            passes: line.passes(),
            needs,
            avoids,
        })
    }

    /// The line's position with a history that has the boards which plays would repeat.
    pub(crate) fn of_empty_reply(alloc: Global, line: &Line) -> Result<PositionFootprint, NoMemory>
        ensures { IfOk result (λ x. RestsOnRepeats line.now.frame line.now.state x) }
    {
        let Footprint {
            needs,
            avoids,
            met: _,
        } = Footprint::of_empty_reply(alloc, line)?;
        let needs = SharedBoardSet::of(alloc, needs)?;
        let avoids = SharedBoardSet::of(alloc, avoids)?;
        Ok(PositionFootprint {
            board: line.present().copy(),
            to_move: line.to_move(),
            passes: line.passes(),
            needs,
            avoids,
        })
    }

    /// What a tree rests on at the line that plays the turn, which leads to the board, and goes on with a tree that rests on this.
    pub(crate) fn picked(
        self,
        alloc: Global,
        line: &Line,
        turn: &Turn,
        board: &Board,
    ) -> Result<PositionFootprint, NoMemory>
        requires { IsBoardAfter line.now.frame line.now.state turn.now board.now }
        ensures { IfOk result (λ x. RestsBeforePick line.now.frame line.now.state turn.now self x) }
    {
        let PositionFootprint {
            board: _,
            to_move: _,
            passes: _,
            needs,
            avoids,
        } = self;
        let needs = without_made_board(alloc, needs, turn, board)?;
        let avoids = with_made_board(alloc, avoids, turn, board)?;
        Ok(PositionFootprint {
            board: line.present().copy(),
            to_move: line.to_move(),
            passes: line.passes(),
            needs,
            avoids,
        })
    }

    /// What a tree that rests on this rests on in front of the turn of the other side, which leads to the board.
    pub(crate) fn before_opposing_turn(
        self,
        alloc: Global,
        line: &Line,
        turn: &Turn,
        board: &Board,
    ) -> Result<PositionFootprint, NoMemory>
        requires { IsBoardAfter line.now.frame line.now.state turn.now board.now }
        ensures { IfOk result
            (λ x. RestsBeforeOpposingTurn line.now.frame line.now.state turn.now self x) }
    {
        let PositionFootprint {
            board: _,
            to_move: _,
            passes: _,
            needs,
            avoids,
        } = self;
        let needs = without_made_board(alloc, needs, turn, board)?;
        Ok(PositionFootprint {
            board: line.present().copy(),
            to_move: line.to_move(),
            passes: line.passes(),
            needs,
            avoids,
        })
    }

    /// What two trees rest on together that stand at one position.
    pub(crate) fn joined(
        self,
        alloc: Global,
        other: PositionFootprint,
    ) -> Result<PositionFootprint, NoMemory>
        ensures { IfOk result (λ x. RestsOnBoth self other x) }
    {
        let PositionFootprint {
            board,
            to_move,
            passes,
            needs,
            avoids,
        } = self;
        let PositionFootprint {
            board: _,
            to_move: _,
            passes: _,
            needs: more_needs,
            avoids: more_avoids,
        } = other;
        let needs = needs.joined(alloc, more_needs)?;
        let avoids = avoids.joined(alloc, more_avoids)?;
        Ok(PositionFootprint {
            board,
            to_move,
            passes,
            needs,
            avoids,
        })
    }

    /// The same once more.
    pub(crate) fn try_clone(&self) -> Result<PositionFootprint, NoMemory>
        ensures { IfOk result (λ x. x ≡ self.now) }
    {
        let needs = self.needs.try_clone()?;
        let avoids = self.avoids.try_clone()?;
        Ok(PositionFootprint {
            board: self.board.copy(),
            to_move: self.to_move,
            passes: self.passes,
            needs,
            avoids,
        })
    }

    /// Whether the line has the position, and its history all that is needed and nothing that is avoided.
    pub(crate) fn fits_line(&self, line: &Line) -> bool
        ensures { IsTrue result ↔ FootprintFits line.now.frame self.now line.now.state }
    {
        if self.to_move != line.to_move() || self.passes != line.passes() {
            return false;
        }
        if !self.board.same(line.present()) || !self.needs.all_in_history(line) {
            return false;
        }
        self.avoids.none_in_history(line)
    }
}
