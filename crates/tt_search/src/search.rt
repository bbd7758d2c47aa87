//! A search over one line.

ghost use Rattle.std.specs.Prelude.{◌≡◌, ◌+◌, ◌^◌, ◌<◌, ◌≤◌, IfOk};
ghost use Rattle.tt_search.specs.declared.limits.Step.TheVariants.{Closed};
ghost use Rattle.tt_search.specs.Numbers.{proof_number, disproof_number, count, IsCappedOrInfinite, IsUndecided};
ghost use Rattle.tt_search.specs.Growing.{new_leaf, IsGrownFromRoot};
ghost use Rattle.tt_search.specs.SearchState.{HasSameLineAndLimits, IsStepOf};
ghost use Rattle.tt_search.specs.RunEnds.{IsEndOf, HasGrantPerExpansion, IsTallyAfterRun, IsProofOf};
ghost use Rattle.tt_search.specs.Grants.{IsAskOfStep};
ghost use Rattle.tt_search.specs.inside.Asking.{AreAsked};
ghost use Rattle.tt_search.specs.inside.Advanced.{IsAdvanced};

use crate::descent::{Descent, StopAfter};
use crate::grants::Grants;
use crate::leaves::new_leaf;
use crate::limits::{Limits, Reason, Step};
use crate::store::Store;
use crate::tree::node::Node;
use std::alloc::Global;
use std::marker::Model;
use tt_game::{Line, Side};
use tt_proof::Proof;
use tt_sgf::NoMemory;

/// How a run ends: with a proof at the search's line, or stuck, with the search as it stands then. A run that is stuck
/// always holds its search; there is none where a caller has dropped it, or was refused memory before a search began.
#[derive(Drop)]
pub enum End {
    Settled(Proof),
    Stuck(Reason, Option<Search>),
}

/// A proof-number search: a line, limits, and a partial tree that grows at its most-proving leaf.
#[derive(Drop)]
pub struct Search {
    walk: Descent,
    limits: Limits,
    root: Node,
}

impl Model for Search {
    ghost use Rattle.tt_sgf.specs.contracts.sets.PointSet as points;
    ghost use Rattle.std.specs.Coded.{codes};
    ghost use Rattle.tt_search.specs.laws.PartialTreeCode.{partial_tree_code};
    ghost use Rattle.tt_search.specs.SearchState.{SearchState};
    ghost use Rattle.tt_search.specs.inside.Searching.{IsSearch};
    ghost use Rattle.tt_search.specs.inside.Walking.{stage, stand_of};

    ghost Value = { SearchState };

    ghost coded = { Prim.hlevel (codes, partial_tree_code, points.the_row.coded) };

    ghost view = { λ a. record { line = a.walk.line; limits = a.limits; tree = a.root } };

    ghost invariant = { λ a. IsSearch (stand_of a.walk) a.limits (stage a.root a.walk.left) };
}

impl Search {
    /// A search at the line, with a tree that is only the root.
    pub fn new(alloc: Global, line: Line, limits: Limits) -> Result<Search, NoMemory>
        ensures { result
            ≡ Ok (record { line = line; limits = limits; tree = new_leaf line.frame line.state }) }
    {
        let root = new_leaf(line.winner());
        let walk = Descent {
            alloc,
            line,
            room: limits.depth(),
            left: limits.budget(),
            offering: true,
        };
        Ok(Search { walk, limits, root })
    }

    /// How many nodes are expanded.
    pub fn expanded(&self) -> u32
        ensures count { result ≡ count self.now.tree }
        ensures grown { IsGrownFromRoot self.now.limits self.now.line.frame self.now.line.state self.now.tree }
    {
        self.limits.budget() - self.walk.left
    }

    /// The root's proof number and disproof number: 0 to 1,000,000,000 (a greater sum counts as that), or 4,294,967,295,
    /// which is infinite. The first is 0 where the attacker's win is proved, the second where the defender's is.
    #[tactic(auto, using(crate::proofs::Rows::number_capped))]
    pub fn numbers(&self) -> (u32, u32)
        ensures exact { result ≡ (proof_number self.now.tree, disproof_number self.now.tree) }
        ensures capped { IsCappedOrInfinite result.0 × IsCappedOrInfinite result.1 }
    {
        (
            self.root.number(Side::Attacker),
            self.root.number(Side::Defender),
        )
    }

    /// Expands the most-proving leaf, or closes it by a proof of the store. An expansion is asked for once nothing can hinder
    /// it any more. The grants have room for what the budget has left.
    pub fn step<S: Store, G: Grants>(&mut self, store: &mut S, grants: &mut G) -> Step
        requires grants { (G.asked grants.old).granted + self.old.limits.budget < 2 ^ 64 + count self.old.tree }
        ensures problem { HasSameLineAndLimits self.old self.new }
        ensures taken { IsStepOf self.old result self.new }
        ensures may { result ≡ Closed → S.may_answer }
        ensures asked { IsAskOfStep (G.asked grants.old) result (G.asked grants.new) }
        ensures spent { HasGrantPerExpansion self.old (G.asked grants.old) self.new (G.asked grants.new) }
        ensures source { G.source grants.new ≡ G.source grants.old }
    {
        self.advance(store, grants, StopAfter::OneStep)
    }

    /// Steps until the root is settled or a step is stuck. The grants have room for what the budget has left.
    pub fn run<S: Store, G: Grants>(self, store: &mut S, grants: &mut G) -> End
        requires grants { (G.asked grants.old).granted + self.limits.budget < 2 ^ 64 + count self.tree }
        ensures end { IsEndOf self result }
        ensures spent { IsTallyAfterRun self (G.asked grants.old) result (G.asked grants.new) }
        ensures few { (G.asked grants.new).granted + count self.tree ≤ (G.asked grants.old).granted + self.limits.budget }
        ensures source { G.source grants.new ≡ G.source grants.old }
    {
        let mut search = self;
        loop {
            match search.advance(store, grants, StopAfter::NumbersChange) {
                Step::Expanded | Step::Closed => {}
                Step::Settled => {
                    return match search.proof() {
                        Ok(proof) => End::Settled(proof),
                        Err(_) => End::Stuck(Reason::Memory, Some(search)),
                    };
                }
                Step::Stuck(reason) => return End::Stuck(reason, Some(search)),
            }
        }
    }

    /// Steps: one step, or up to one that changes the root's numbers or is stuck. The answer is that of the last step.
    fn advance<S: Store, G: Grants>(
        &mut self,
        store: &mut S,
        grants: &mut G,
        stop: StopAfter,
    ) -> Step
        requires grants { (G.asked grants.old).granted + self.old.limits.budget < 2 ^ 64 + count self.old.tree }
        ensures problem { HasSameLineAndLimits self.old self.new }
        ensures advanced { IsAdvanced stop self.old result self.new }
        ensures may { result ≡ Closed → S.may_answer }
        ensures asked { AreAsked stop (G.asked grants.old) result (G.asked grants.new) }
        ensures spent { HasGrantPerExpansion self.old (G.asked grants.old) self.new (G.asked grants.new) }
        ensures source { G.source grants.new ≡ G.source grants.old }
        ensures few { count self.new.tree ≤ self.new.limits.budget }
    {
        let (proof, disproof) = self.numbers();
        if proof == 0 || disproof == 0 {
            return Step::Settled;
        }
        self.root.grow(&mut self.walk, stop, store, grants)
    }

    /// The proof of a settled root. The search is as before.
    fn proof(&mut self) -> Result<Proof, NoMemory>
        requires { IsUndecided self.old.tree → ⊥ }
        ensures exact { IfOk result (λ p. IsProofOf self.old p) }
        ensures same { self.new ≡ self.old }
    {
        let Some(side) = self.root.settled_side() else {
            unreachable!();
        };
        self.root.proof(self.walk.alloc, &mut self.walk.line, side)
    }
}
