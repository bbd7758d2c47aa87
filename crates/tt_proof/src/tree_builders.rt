//! Trees made of their parts.

ghost use Rattle.std.specs.Prelude.{◌≡◌, IfOk};
ghost use Rattle.tt_proof.specs.Strategy.{done, pick, reply, strategy_of, entries_of_reply};

use crate::tree::Tree;
use std::alloc::Global;
use std::sync::Arc;
use tt_game::Turn;
use tt_sgf::NoMemory;

impl Tree {
    /// The tree that plays nothing more.
    #[tactic(auto, using(crate::proofs::StrategyLemmas::strategy_of_done))]
    pub fn done() -> Tree
        ensures { strategy_of result ≡ done }
    {
        Tree::Done
    }

    /// The tree that plays the turn and goes on with the child.
    #[tactic(auto, using(crate::proofs::StrategyLemmas::strategy_of_pick))]
    pub fn pick(alloc: Global, turn: Turn, child: Tree) -> Result<Tree, NoMemory>
        ensures { IfOk result (λ t. strategy_of t ≡ pick turn (strategy_of child)) }
    {
        Ok(Tree::Pick(turn, Arc::new(alloc, child)?))
    }

    /// The tree that answers each of the listed turns with its own tree.
    #[tactic(auto, using(crate::proofs::StrategyLemmas::strategy_of_reply))]
    pub fn reply(alloc: Global, entries: Vec<(Turn, Tree)>) -> Result<Tree, NoMemory>
        ensures { IfOk result (λ t. strategy_of t ≡ reply (entries_of_reply entries.items)) }
    {
        Ok(Tree::Reply(Arc::new(alloc, entries)?))
    }
}
