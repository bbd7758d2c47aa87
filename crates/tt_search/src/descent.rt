//! What a descent carries.

ghost use Rattle.std.specs.Prelude.{◌≡◌, ◌<◌, ◌↔◌, ◌+◌, ◌∷◌, true, length, OnOk, OnErr};
ghost use Rattle.tt_game.specs.Game.{IsLegal};
ghost use Rattle.tt_proof.specs.declared.tree.TheConstants.{MOST_DEPTH};
ghost use Rattle.tt_search.specs.inside.Walking.{IsDown};
ghost use Rattle.tt_search.specs.declared.descent.StopAfter.TheVariants.{OneStep};

use std::alloc::Global;
use tt_game::{Line, Turn};
use tt_sgf::NoMemory;

/// How far steps go: one step, or steps up to the first that changes the numbers of the node where they began, or is stuck.
#[derive(Clone, Copy)]
pub(crate) enum StopAfter {
    OneStep,
    NumbersChange,
}

impl StopAfter {
    /// Whether it is that of one step.
    pub(crate) fn is_one_step(self) -> bool
        ensures { (result ≡ true) ↔ (self ≡ OneStep) }
    {
        matches!(self, StopAfter::OneStep)
    }
}

/// Where a descent stands, and what it may still use: how many turns deeper it may go, how many nodes it may expand, and
/// whether it offers proofs to the store.
#[derive(Drop)]
pub(crate) struct Descent {
    pub(crate) alloc: Global,
    pub(crate) line: Line,
    pub(crate) room: u16,
    pub(crate) left: u32,
    pub(crate) offering: bool,
}

impl Descent {
    /// Goes down by a legal turn; where memory is refused the walk is as it was.
    pub(crate) fn go_down(&mut self, turn: Turn) -> Result<(), NoMemory>
        requires legal { IsLegal self.old.line.frame self.old.line.state turn }
        requires room { 0 < self.old.room }
        ensures ok { OnOk result (IsDown turn self.old self.new) }
        ensures err { OnErr result (self.new.line ≡ self.old.line) }
        ensures err_room { OnErr result (self.new.room ≡ self.old.room) }
        ensures err_left { OnErr result (self.new.left ≡ self.old.left) }
    {
        self.line.push_legal(turn)?;
        self.room -= 1;
        Ok(())
    }

    /// Goes back up by one turn.
    pub(crate) fn go_up(&mut self)
        requires below { 0 < length self.old.line.before }
        requires room { self.old.room < MOST_DEPTH }
        ensures before { self.old.line.before ≡ self.new.line.state ∷ self.new.line.before }
        ensures frame { self.new.line.frame ≡ self.old.line.frame }
        ensures room { self.new.room ≡ self.old.room + 1 }
        ensures left { self.new.left ≡ self.old.left }
    {
        self.line.pop();
        self.room += 1;
    }
}
