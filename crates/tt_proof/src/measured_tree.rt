//! Trees with their measures.

ghost use Rattle.std.specs.Prelude.{◌≡◌, ◌++◌, ◌∷◌, [], ◌-◌, ◌^◌, min, OnOk, OnErr, IfOk};
ghost use Rattle.tt_proof.specs.Strategy.{done, pick, reply, depth, strategy_of, entries_of};
ghost use Rattle.tt_proof.specs.Nodes.{nodes};

use crate::measures::measures;
use crate::tree::Tree;
use std::alloc::Global;
use std::marker::Model;
use tt_game::Turn;
use tt_sgf::NoMemory;

/// A tree that knows how deep it is and how many nodes it has, so that neither is counted again when it becomes a part of
/// other trees.
#[derive(Drop)]
pub struct MeasuredTree {
    tree: Tree,
    levels: u16,
    size: u64,
}

impl Model for MeasuredTree {
    ghost use Rattle.std.specs.Prelude.{◌≡◌, ◌-◌, ◌^◌, min};
    ghost use Rattle.tt_proof.specs.Nodes.{nodes};
    ghost use Rattle.tt_proof.specs.Strategy.{Strategy, depth, strategy_of};
    ghost use Rattle.tt_proof.specs.laws.StrategyCode.{strategy_code};

    ghost Value = { Strategy };

    ghost coded = { strategy_code };

    ghost view = { λ p. strategy_of p.tree };

    ghost invariant = { λ p. (p.levels ≡ min (depth (strategy_of p.tree)) (2 ^ 16 - 1)) × (p.size ≡ min (nodes (strategy_of p.tree)) (2 ^ 64 - 1)) };
}

/// Turns of the other side, each with the measured tree that answers it, from which a measured tree is made.
#[derive(Drop)]
pub struct ReplyBuilder {
    entries: Vec<(Turn, Tree)>,
    levels: u16,
    size: u64,
}

impl Model for ReplyBuilder {
    ghost use Rattle.std.specs.Prelude.{◌≡◌, ◌+◌, ◌-◌, ◌^◌, min, List, map};
    ghost use Rattle.std.specs.Coded.{codes};
    ghost use Rattle.tt_game.specs.contracts.turns.Turn as turns;
    ghost use Rattle.tt_game.specs.declared.turns.Turn.{Turn};
    ghost use Rattle.tt_proof.specs.Nodes.{nodes_of_entries};
    ghost use Rattle.tt_proof.specs.Strategy.{Strategy, depth_of_entries, strategy_of, entries_of_reply};
    ghost use Rattle.tt_proof.specs.laws.StrategyCode.{strategy_code};

    ghost Value = { List (Turn × Strategy) };

    ghost coded = { Prim.hlevel (codes, turns.the_row.coded, strategy_code) };

    ghost view = { λ r. map (λ e. (e.0, strategy_of e.1)) r.entries.items };

    ghost invariant = { λ r. (r.levels ≡ min (depth_of_entries (entries_of_reply r.entries.items)) (2 ^ 16 - 1))
        × (r.size ≡ min (nodes_of_entries (entries_of_reply r.entries.items) + 1) (2 ^ 64 - 1)) };
}

impl MeasuredTree {
    /// The tree, measured once.
    pub(crate) fn of(tree: Tree) -> MeasuredTree
        ensures { result ≡ strategy_of tree }
    {
        let (levels, size) = measures(&tree);
        MeasuredTree { tree, levels, size }
    }

    /// The measured tree that plays nothing more.
    pub fn done() -> MeasuredTree
        ensures { result ≡ done }
    {
        MeasuredTree {
            tree: Tree::Done,
            levels: 0,
            size: 1,
        }
    }

    /// The measured tree that plays the turn and goes on with the child.
    pub fn pick(alloc: Global, turn: Turn, child: MeasuredTree) -> Result<MeasuredTree, NoMemory>
        ensures { IfOk result (λ p. p ≡ pick turn child) }
    {
        let MeasuredTree { tree, levels, size } = child;
        let tree = Tree::pick(alloc, turn, tree)?;
        Ok(MeasuredTree {
            tree,
            levels: levels.saturating_add(1),
            size: size.saturating_add(1),
        })
    }

    /// Another handle of the same measured tree. It takes no memory.
    pub fn try_clone(&self) -> Result<MeasuredTree, NoMemory>
        ensures { IfOk result (λ p. p ≡ self.now) }
    {
        let tree = self.tree.try_clone()?;
        Ok(MeasuredTree {
            tree,
            levels: self.levels,
            size: self.size,
        })
    }

    /// The tree.
    pub fn tree(&self) -> &Tree
        ensures { strategy_of result.now ≡ self.now }
    {
        &self.tree
    }

    /// How many turns the longest way down has: at most 65,535, which stands for more, too.
    pub fn depth(&self) -> u16
        ensures { result ≡ min (depth self.now) (2 ^ 16 - 1) }
    {
        self.levels
    }

    /// How many nodes there are, or the greatest `u64` where they are more.
    pub fn nodes(&self) -> u64
        ensures { result ≡ min (nodes self.now) (2 ^ 64 - 1) }
    {
        self.size
    }
}

impl ReplyBuilder {
    /// No turn yet, with room for so many.
    pub fn with_capacity(alloc: Global, capacity: usize) -> Result<ReplyBuilder, NoMemory>
        ensures { IfOk result (λ r. r ≡ []) }
    {
        let entries = Vec::with_capacity(alloc, capacity)?;
        Ok(ReplyBuilder {
            entries,
            levels: 0,
            size: 1,
        })
    }

    /// Adds a turn, with the measured tree that answers it.
    pub fn push(&mut self, turn: Turn, child: MeasuredTree) -> Result<(), NoMemory>
        ensures ok { OnOk result (self.new ≡ self.old ++ (turn, child) ∷ []) }
        ensures err { OnErr result (self.new ≡ self.old) }
    {
        let MeasuredTree { tree, levels, size } = child;
        self.entries.push((turn, tree))?;
        self.levels = self.levels.max(levels.saturating_add(1));
        self.size = self.size.saturating_add(size);
        Ok(())
    }

    /// The measured tree that answers each of the turns.
    pub fn into_measured_tree(self, alloc: Global) -> Result<MeasuredTree, NoMemory>
        ensures { IfOk result (λ p. p ≡ reply (entries_of self)) }
    {
        let ReplyBuilder {
            entries,
            levels,
            size,
        } = self;
        let tree = Tree::reply(alloc, entries)?;
        Ok(MeasuredTree { tree, levels, size })
    }
}
