//! The turns of a node of which none has been tried.

ghost use Rattle.std.specs.Prelude.{◌≡◌, ◌++◌, ◌∷◌, [], IfOk, length};
ghost use Rattle.tt_search.specs.inside.Untried.{fresh_edge, plays_and_pass, AreBelow};

use crate::tree::edge_storage::Edges;
use crate::tree::edges::Edge;
use arrayvec::ArrayVec;
use std::alloc::Global;
use std::marker::Model;
use tt_game::MOST_LEGAL;
use tt_sgf::{Bits, NoMemory, Point};

/// Plays behind which nothing is known: the bits of their points, and how many there are. Contracts see their edges.
#[derive(Drop)]
pub(crate) struct UntriedPlays {
    points: Bits,
    count: u16,
}

impl Model for UntriedPlays {
    ghost use Rattle.std.specs.Prelude.{◌≡◌, List, length};
    ghost use Rattle.tt_sgf.specs.MachineWords.{bit_in};
    ghost use Rattle.tt_sgf.specs.declared.size.TheConstants.{MOST_POINTS};
    ghost use Rattle.tt_search.specs.declared.tree.edges.Edge.{Edge};
    ghost use Rattle.tt_search.specs.inside.Untried.{plays_in};

    ghost Value = { List Edge };

    ghost view = { λ p. plays_in (bit_in p.points.words) MOST_POINTS };

    ghost invariant = { λ p. p.count ≡ length (plays_in (bit_in p.points.words) MOST_POINTS) };
}

impl UntriedPlays {
    /// No plays.
    pub(crate) fn new() -> UntriedPlays
        ensures { result ≡ [] }
    {
        UntriedPlays {
            points: Bits::none(),
            count: 0,
        }
    }

    /// Adds a play on a point behind those of all others.
    pub(crate) fn push(&mut self, p: Point)
        requires { AreBelow p self.old }
        ensures { self.new ≡ self.old ++ fresh_edge p ∷ [] }
    {
        self.points.set(usize::from(p.number()));
        self.count += 1;
    }

    /// How many there are.
    pub(crate) fn len(&self) -> u16
        ensures { result ≡ length self.now }
    {
        self.count
    }

    /// Their edges, and that of a pass, in a row. `NoMemory` where memory was refused.
    pub(crate) fn edges_with_pass(&self, alloc: Global) -> Result<Edges, NoMemory>
        ensures { IfOk result (λ row. row ≡ plays_and_pass self.now) }
    {
        let mut edges: ArrayVec<Edge, MOST_LEGAL> = ArrayVec::new();
        let mut from = 0;
        while let Some(p) = Point::new(self.points.first_from(from) as u16) {
            edges.push(Edge::fresh_play(p));
            from = usize::from(p.number()) + 1;
        }
        edges.push(Edge::fresh_pass());
        Edges::of(alloc, edges.as_slice())
    }
}
