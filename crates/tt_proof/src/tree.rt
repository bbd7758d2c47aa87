//! Strategy trees.

ghost use Rattle.std.specs.Prelude.{◌≡◌, IfOk};
ghost use Rattle.tt_proof.specs.Strategy.{strategy_of};
ghost use Rattle.tt_proof.specs.ProofClaim.{first_turn_of};

use std::sync::Arc;
use tt_game::Turn;
use tt_sgf::NoMemory;

/// How many turns the longest way down a tree may have that a proof holds or a certificate shows.
pub const MOST_DEPTH: u16 = 512;

/// What a side plays to win. Its parts may be those of other trees, too: a value of this type is a handle.
#[derive(Drop)]
pub enum Tree {
    /// Nothing more: somebody has won, or, of a `LifeProof`, the targets are unconditionally alive.
    Done,
    /// The side plays this turn, and goes on with the tree.
    Pick(Turn, Arc<Tree>),
    /// The other side plays; each turn, rising by their numbers, with the tree that answers it.
    Reply(Arc<Vec<(Turn, Tree)>>),
}

impl Tree {
    /// Another handle of the same tree. It takes no memory, however large the tree is.
    pub fn try_clone(&self) -> Result<Tree, NoMemory>
        ensures { IfOk result (λ t. strategy_of t ≡ strategy_of self.now) }
    {
        match self {
            Tree::Done => Ok(Tree::Done),
            Tree::Pick(turn, child) => {
                let child = Arc::try_clone(child)?;
                Ok(Tree::Pick(*turn, child))
            }
            Tree::Reply(list) => {
                let list = Arc::try_clone(list)?;
                Ok(Tree::Reply(list))
            }
        }
    }

    /// The turn that the side plays first, where it plays one at once.
    pub fn first(&self) -> Option<Turn>
        ensures { result ≡ first_turn_of (strategy_of self.now) }
    {
        match self {
            Tree::Pick(turn, _) => Some(*turn),
            Tree::Done => None,
            Tree::Reply(_) => None,
        }
    }
}
