//! The legal plays, one after the other, with what is the same for all of them worked out once.

pub(crate) mod move_generator;

ghost use Rattle.std.specs.Prelude.{◌≡◌, ◌+◌, ◌<◌, ◌≤◌, ◌∷◌, [], None, MatchOption};
ghost use Rattle.tt_sgf.specs.Sizes.{point_count};
ghost use Rattle.tt_game.specs.Game.{winner_of, after};
ghost use Rattle.tt_game.specs.Turns.{turn_with_winner, turns_with_winners_from};
ghost use Rattle.tt_game.specs.declared.turns.Turn.{Turn};

use crate::frame::Side;
use crate::line::Line;
use crate::plays::move_generator::MoveGenerator;
use std::marker::Model;
use tt_sgf::Point;

/// The legal plays of a line at which nobody has won, rising by their points, each with who has won after it. Contracts see from which
/// point on they are left.
#[derive(Drop)]
pub struct LegalPlays<'a> {
    line: &'a Line,
    moves: MoveGenerator,
    from: u16,
}

impl<'a> Model for LegalPlays<'a> {
    ghost use Rattle.std.specs.Prelude.{◌≡◌, ◌≤◌, None};
    ghost use Rattle.std.specs.Coded.{codes};
    ghost use Rattle.tt_sgf.specs.Sizes.{point_count};
    ghost use Rattle.tt_sgf.specs.contracts.sets.PointSet as points;
    ghost use Rattle.tt_game.specs.Game.{winner_of};
    ghost use Rattle.tt_game.specs.MoveGenerators.{IsMoveGenerator};
    ghost use Rattle.tt_game.specs.Turns.{PlaysFrom};

    ghost Value = { PlaysFrom };

    ghost coded = { Prim.hlevel (codes, points.the_row.coded) };

    ghost view = { λ l. record { frame = l.line.now.frame; state = l.line.now.state; from = l.from } };

    ghost invariant = { λ l. record {
      moves : IsMoveGenerator l.moves l.line.now.frame l.line.now.state;
      nobody : winner_of l.line.now.frame l.line.now.state ≡ None;
      inside : l.from ≤ point_count l.line.now.frame.size;
    } };
}

impl Line {
    /// The legal plays, where nobody has won.
    #[inline(always)]
    pub fn legal_plays<'a>(&'a self) -> LegalPlays<'a>
        requires { winner_of self.now.frame self.now.state ≡ None }
        ensures { result ≡ record { frame = self.now.frame; state = self.now.state; from = 0 } }
    {
        LegalPlays {
            line: self,
            moves: self.move_generator(),
            from: 0,
        }
    }
}

impl<'a> LegalPlays<'a> {
    /// The next legal play, and who has won after it; none where only the pass is left. Each empty point is looked at once, and no other.
    pub fn next(&mut self) -> Option<(Point, Option<Side>)>
        ensures same { (self.new.frame ≡ self.old.frame) × (self.new.state ≡ self.old.state) }
        ensures inside { self.new.from ≤ point_count self.old.frame.size }
        ensures next { MatchOption result
            (turns_with_winners_from self.old.frame self.old.state self.old.from
            ≡ turn_with_winner self.old.frame self.old.state Turn.Pass ∷ [])
            (λ x. (self.old.from ≤ x.0) × (x.0 < point_count self.old.frame.size)
            × (self.new.from ≡ x.0 + 1)
            × (x.1 ≡ winner_of self.old.frame (after self.old.frame self.old.state (Turn.Play x.0)))
            × (turns_with_winners_from self.old.frame self.old.state self.old.from
            ≡ turn_with_winner self.old.frame self.old.state (Turn.Play x.0) ∷ turns_with_winners_from self.old.frame self.old.state (x.0 + 1))) }
    {
        while let Some(p) = self.line.next_empty(&self.moves, self.from) {
            self.from = p.number() + 1;
            if let Some(winner) = self.line.winner_if_legal(&self.moves, p) {
                return Some((p, winner));
            }
        }
        None
    }

    /// Goes back to the first of them.
    pub fn restart(&mut self)
        ensures { self.new ≡ record { frame = self.old.frame; state = self.old.state; from = 0 } }
    {
        self.from = 0;
    }

    /// Who has won after the pass, which is legal too.
    pub fn winner_by_pass(&self) -> Option<Side>
        ensures { result
            ≡ winner_of self.now.frame (after self.now.frame self.now.state Turn.Pass) }
    {
        let line = self.line;
        line.frame().winner_on(line.present(), line.passes() + 1)
    }

    /// Whether the region has many points. Nothing goes by it but time.
    pub fn may_be_many(&self) -> bool {
        self.line.has_large_region()
    }
}
