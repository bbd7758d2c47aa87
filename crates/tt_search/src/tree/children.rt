//! The children of an expanded node: contracts see the list of its turns, and of a tree behind each.

ghost use Rattle.std.specs.Prelude.{◌≡◌, ◌<◌, ◌≤◌, [], length, slice_index_or};
ghost use Rattle.tt_search.specs.declared.tree.edges.TheConstants.{TURN_NUMBER_BOUND};
ghost use Rattle.tt_search.specs.inside.Edges.{edge_turns, edge_trees, grown_in};

use crate::tree::edge_storage::Edges;
use crate::tree::edges::{Edge, EdgeState};
use crate::tree::node::Node;
use crate::tree::numbers::PhiDelta;
use std::alloc::Global;
use tt_game::{Side, Turn};

/// The children of a node as they are kept: an edge for each, and the nodes of those that have grown, in the order of the
/// edges. Most never grow, and take no more than their edge.
#[cycle(node)]
#[derive(Drop)]
pub(crate) struct ChildNodes {
    pub(crate) edges: Edges,
    pub(crate) grown: Vec<Node>,
}

/// The side to move at an expanded node, the index of the child to go to, and how many before it have grown.
#[derive(Clone, Copy)]
pub(crate) struct BestChild {
    pub(crate) mover: Side,
    pub(crate) index: u16,
    pub(crate) rank: u16,
}

/// A child: nothing is known of it, a side has won there, or it has grown and has a node.
#[derive(Clone, Copy)]
pub(crate) enum Child<'a> {
    Fresh,
    Won(Side),
    Grown(&'a Node),
}

impl ChildNodes {
    ghost use Rattle.tt_search.specs.inside.ChildNodes.{choices_of};
    ghost use Rattle.tt_search.specs.inside.Kept.{IsKeptWith};

    /// Children of which none has grown, which of them to go to, and the numbers of the mover and of the other side at
    /// their node.
    pub(crate) fn new(alloc: Global, mover: Side, edges: Edges) -> (BestChild, ChildNodes, PhiDelta)
        requires few { length edges ≤ TURN_NUMBER_BOUND }
        requires none { grown_in edges ≡ 0 }
        ensures children { choices_of result.0.mover result.1
            ≡ record { mover = mover; turns = edge_turns edges; trees = edge_trees edges [] } }
        ensures kept { IsKeptWith result.0 result.1 result.2 }
    {
        let grown = Vec::new(alloc);
        let child_nodes = ChildNodes { edges, grown };
        let (best, sum) = child_nodes.initial_best_and_sum(mover);
        let numbers = PhiDelta {
            own: best.least,
            other: sum,
        };
        let focus = BestChild {
            mover,
            index: best.index,
            rank: best.rank,
        };
        (focus, child_nodes, numbers)
    }

    /// The turn to the child to go to.
    pub(crate) fn best_turn(&self, focus: BestChild) -> Turn
        requires { focus.index < length self.now.edges }
        ensures { result ≡ slice_index_or (edge_turns self.now.edges) focus.index result }
    {
        self.edges.at(usize::from(focus.index)).turn()
    }
}

impl ChildNodes {
    ghost use Rattle.tt_search.specs.inside.Child.{child_tree};
    ghost use Rattle.tt_search.specs.inside.ChildNodes.{HasItsNodes, IsRank, child_of};

    /// The child at an index, and of a rank.
    pub(crate) fn child(&self, index: usize, rank: usize) -> Child<'_>
        requires there { index < length self.now.edges }
        requires rank { IsRank rank index self.now }
        requires whole { HasItsNodes self.now }
        ensures { child_tree result ≡ child_of self.now index }
    {
        match self.edges.at(index).edge_state() {
            EdgeState::Fresh => Child::Fresh,
            EdgeState::Won(side) => Child::Won(side),
            EdgeState::Grown => Child::Grown(&self.grown[rank]),
        }
    }
}

impl<'a> Child<'a> {
    ghost use Rattle.tt_search.specs.inside.Child.{child_tree};
    ghost use Rattle.tt_search.specs.inside.Edges.{edge_state_of, tree_of, grown_behind, counted};

    /// The child behind an edge, where these are the nodes of the children that have grown, from this one on; and the
    /// nodes of those behind it.
    pub(crate) fn split_first_child(edge: Edge, rest: &'a [Node]) -> (Child<'a>, &'a [Node])
        requires { counted (edge_state_of edge) 0 ≤ length rest.now }
        ensures child { child_tree result.0 ≡ tree_of (edge_state_of edge) rest.now }
        ensures behind { result.1.now ≡ grown_behind (edge_state_of edge) rest.now }
    {
        match edge.edge_state() {
            EdgeState::Fresh => (Child::Fresh, rest),
            EdgeState::Won(side) => (Child::Won(side), rest),
            EdgeState::Grown => match rest.split_first() {
                Some((node, behind)) => (Child::Grown(node), behind),
                None => unreachable!(),
            },
        }
    }
}
