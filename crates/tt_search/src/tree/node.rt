//! The nodes of a search's tree. A node keeps its two numbers and no board: a line stands at the node that is looked at.

ghost use Rattle.std.specs.Prelude.{◌≡◌};

use crate::tree::children::{BestChild, ChildNodes};
use crate::tree::untried::UntriedPlays;
use std::marker::Model;
use std::sync::Arc;
use tt_game::Side;
use tt_proof::Proof;

/// A node with its proof and disproof number.
#[cycle(node)]
#[derive(Drop)]
pub(crate) struct Node {
    pub(crate) proof: u32,
    pub(crate) disproof: u32,
    pub(crate) node_state: NodeState,
}

/// What a node has become. An expanded node in a large region, where nobody has won behind any turn and none has been tried, has its
/// mover and the points of its plays. An expanded node that has offered its proof is of its own kind: it has its mover, its children, and
/// the proof, so that the nodes above take its tree from there.
#[cycle(node)]
#[derive(Drop)]
pub(crate) enum NodeState {
    Fresh,
    Won(Side),
    Closed(Arc<Proof>),
    Untried(Side, UntriedPlays),
    Expanded(BestChild, ChildNodes),
    Offered(Side, ChildNodes, Arc<Proof>),
}

impl Model for Node {
    ghost use Rattle.tt_search.specs.PartialTree.{PartialTree};
    ghost use Rattle.tt_search.specs.laws.PartialTreeCode.{partial_tree_code};
    ghost use Rattle.tt_search.specs.inside.Weight.{weight};

    ghost Value = { PartialTree };

    ghost coded = { partial_tree_code };

    ghost use Rattle.tt_search.specs.inside.Shape.{shape};
    ghost use Rattle.tt_search.specs.inside.Cached.{IsCached};
    ghost use Rattle.tt_search.specs.inside.Offered.{HoldsItsOwn};

    ghost view = { λ a. shape a.node_state };

    ghost invariant = { λ a. IsCached a.proof a.disproof (shape a.node_state) × HoldsItsOwn a.node_state };

    ghost size = { weight };

    ghost use Rattle.tt_search.specs.inside.Falls.{deep-weight};

    ghost size_decreases = { λ a h. deep-weight a.node_state h.1 };
}

impl Node {
    ghost use Rattle.tt_search.specs.Numbers.{number};

    /// The number of a goal: the proof number is the attacker's, the disproof number the defender's.
    pub fn number(&self, goal: Side) -> u32
        ensures { result ≡ number goal self.now }
    {
        match goal {
            Side::Attacker => self.proof,
            Side::Defender => self.disproof,
        }
    }
}
