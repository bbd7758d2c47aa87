//! The ways from an expanded node to its children, two bytes each.

ghost use Rattle.std.specs.Prelude.{◌≡◌, IsTrue};
ghost use Rattle.tt_search.specs.inside.Edges.{edge_turn, edge_state_of};
ghost use Rattle.tt_search.specs.inside.Untried.{fresh_edge};
ghost use Rattle.tt_sgf.specs.declared.size.TheConstants.{MOST_POINTS};

use tt_game::{Side, Turn};
use tt_sgf::{MOST_POINTS, Point};

/// What is known of a child: nothing, who has won there, or what its node says. A child has grown once it is expanded, or
/// closed by a proof.
#[derive(Clone, Copy, PartialEq, Eq)]
pub(crate) enum EdgeState {
    Fresh,
    Won(Side),
    Grown,
}

/// A turn, and the state of the child behind it. The number of the turn is that of its point, or `MOST_POINTS` for a pass.
#[derive(Clone, Copy, Default)]
pub(crate) struct Edge {
    code: u16,
}

/// What the number of a turn is below.
pub(crate) const TURN_NUMBER_BOUND: u16 = 512;

impl Edge {
    /// The edge of a turn to a child in the state.
    pub(crate) fn new(turn: Turn, edge_state: EdgeState) -> Edge
        ensures turn { edge_turn result ≡ turn }
        ensures edge_state { edge_state_of result ≡ edge_state }
    {
        let number = match turn {
            Turn::Play(point) => point.number(),
            Turn::Pass => MOST_POINTS,
        };
        let kind = match edge_state {
            EdgeState::Fresh => 0,
            EdgeState::Won(Side::Attacker) => 1,
            EdgeState::Won(Side::Defender) => 2,
            EdgeState::Grown => 3,
        };
        Edge {
            code: kind * TURN_NUMBER_BOUND + number,
        }
    }

    /// The edge of a play to a child of which nothing is known.
    pub(crate) fn fresh_play(p: Point) -> Edge
        ensures { result ≡ fresh_edge p }
    {
        Edge { code: p.number() }
    }

    /// The edge of a pass to a child of which nothing is known.
    pub(crate) fn fresh_pass() -> Edge
        ensures { result ≡ fresh_edge MOST_POINTS }
    {
        Edge { code: MOST_POINTS }
    }

    /// The turn.
    pub(crate) fn turn(self) -> Turn
        ensures { result ≡ edge_turn self }
    {
        match Point::new(self.code % TURN_NUMBER_BOUND) {
            Some(point) => Turn::Play(point),
            None => Turn::Pass,
        }
    }

    /// Whether nothing is known of the child.
    pub(crate) fn is_fresh(self) -> bool
        ensures { IsTrue result → edge_state_of self ≡ EdgeState.Fresh }
    {
        self.code < TURN_NUMBER_BOUND
    }

    /// The state of the child.
    pub(crate) fn edge_state(self) -> EdgeState
        ensures { result ≡ edge_state_of self }
    {
        match self.code / TURN_NUMBER_BOUND {
            0 => EdgeState::Fresh,
            1 => EdgeState::Won(Side::Attacker),
            2 => EdgeState::Won(Side::Defender),
            _ => EdgeState::Grown,
        }
    }

    /// The edge of the same turn to a child that has grown.
    pub(crate) fn with_grown_child(self) -> Edge
        ensures turn { edge_turn result ≡ edge_turn self }
        ensures edge_state { edge_state_of result ≡ EdgeState.Grown }
    {
        Edge {
            code: 3 * TURN_NUMBER_BOUND + self.code % TURN_NUMBER_BOUND,
        }
    }
}
