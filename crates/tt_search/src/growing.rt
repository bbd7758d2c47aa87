//! Steps of a search: the tree grows at its most-proving leaf, and the numbers on the way to it are brought up to date.

ghost use Rattle.std.specs.Prelude.{◌≡◌, ◌≢◌, ◌+◌, ◌-◌, ◌^◌, ◌<◌, ◌≤◌, ◌↔◌, ◌⊎◌, true, false, None, OnOk, length, take, insert};
ghost use Rattle.std.specs.Vec.{vec_len, vec_capacity};
ghost use Rattle.tt_game.specs.Game.{winner_of};
ghost use Rattle.tt_search.specs.PartialTree.{fresh};
ghost use Rattle.tt_search.specs.inside.ChildNodes.{HasItsNodes, IsRank, child_of, choices_of};
ghost use Rattle.tt_search.specs.inside.Choices.{node_with};
ghost use Rattle.tt_search.specs.inside.Kept.{IsKept, IsKeptWith};
ghost use Rattle.tt_search.specs.inside.Walking.{stage, stand_of};
ghost use Rattle.tt_search.specs.inside.Descending.{MayDescend, Descends};
ghost use Rattle.tt_search.specs.inside.ChildSteps.{IsFreshAt, FirstStepAt, StepsBelow, BestSteps};
ghost use Rattle.tt_search.specs.inside.Taken.{Taken, IsLeft};
ghost use Rattle.tt_search.specs.inside.Steady.{AreSteps};
ghost use Rattle.tt_search.specs.Grants.{IsAskOfStep};
ghost use Rattle.tt_search.specs.declared.limits.Reason.TheVariants.{Total};
ghost use Rattle.tt_search.specs.declared.limits.Step.TheVariants.{Expanded, Closed, Stuck};
ghost use Rattle.tt_search.specs.declared.descent.StopAfter.TheVariants.{OneStep};

use crate::descent::{Descent, StopAfter};
use crate::grants::Grants;
use crate::leaves::{closed_leaf, expanded_at, new_leaf, untried_children};
use crate::limits::{Reason, Step};
use crate::store::Store;
use crate::store::usable_proofs::find_usable_proof;
use crate::tree::children::{BestChild, ChildNodes};
use crate::tree::edges::EdgeState;
use crate::tree::node::{Node, NodeState};
use crate::tree::numbers::PhiDelta;
use tt_game::Side;
use tt_sgf::NoMemory;

/// Whether the step changed its tree.
fn changes_tree(step: Step) -> bool
    ensures { (result ≡ true) ↔ ((step ≡ Expanded) ⊎ (step ≡ Closed)) }
{
    matches!(step, Step::Expanded | Step::Closed)
}

/// Whether a step may be taken: an expansion is asked for, and nothing else.
fn ask_grant<G: Grants>(step: Step, grants: &mut G) -> bool
    requires room { step ≡ Expanded → (G.asked grants.old).granted < 2 ^ 64 - 1 }
    requires unasked { step ≢ Stuck Total }
    ensures granted { result ≡ true → IsAskOfStep (G.asked grants.old) step (G.asked grants.new) }
    ensures refused { result ≡ false
        → (step ≡ Expanded) × IsAskOfStep (G.asked grants.old) (Stuck Total) (G.asked grants.new) }
    ensures source { G.source grants.new ≡ G.source grants.old }
{
    match step {
        Step::Expanded => grants.ask(),
        Step::Closed | Step::Settled | Step::Stuck(_) => true,
    }
}

/// What the budget has left after a step.
fn budget_left_after(step: Step, left: u32) -> u32
    requires { step ≡ Expanded → 0 < left }
    ensures { IsLeft step left result }
{
    match step {
        Step::Expanded => left - 1,
        Step::Closed => left,
        Step::Settled => left,
        Step::Stuck(_) => left,
    }
}

/// Makes room for one more node, and where there is none, for half as many as there are: most lists stay short.
fn make_room_for_node(nodes: &mut Vec<Node>) -> Result<(), NoMemory>
    ensures items { nodes.new.items ≡ nodes.old.items }
    ensures room { OnOk result (vec_len nodes.new < vec_capacity nodes.new) }
{
    if nodes.len() == nodes.capacity() {
        nodes.reserve_exact(nodes.len() / 2 + 1)?;
    }
    Ok(())
}

/// Puts a fresh node at an index among others, where there is room for it. It mostly comes last, and then no other one is looked at.
fn insert_fresh_node(nodes: &mut Vec<Node>, rank: usize)
    requires within { rank ≤ vec_len nodes.old }
    requires room { vec_len nodes.old < vec_capacity nodes.old }
    ensures items { nodes.new.items ≡ insert nodes.old.items rank fresh }
    ensures len { vec_len nodes.new ≡ vec_len nodes.old + 1 }
{
    if rank == nodes.len() {
        nodes.push_reserved(new_leaf(None));
        return;
    }
    let Ok(()) = nodes.insert(rank, new_leaf(None)) else {
        unreachable!();
    };
}

impl Node {
    /// Steps at an undecided node, where the walk stands at it: one step, or steps up to the first that changes the node's
    /// numbers or is stuck. While they stay, every node above keeps its numbers and its choice, so the way down still leads
    /// through this node.
    #[cycle(descent)]
    pub(crate) fn grow<S: Store, G: Grants>(
        &mut self,
        walk: &mut Descent,
        stop: StopAfter,
        store: &mut S,
        grants: &mut G,
    ) -> Step
        requires { MayDescend walk.old self.old (G.asked grants.old) }
        ensures descends { Descends G.asked G.source S.may_answer stop walk.old grants.old result walk.new grants.new }
        ensures steps { AreSteps stop walk.old self.old result self.new walk.new }
    {
        'rounds: loop {
            let proof = self.number(Side::Attacker);
            let disproof = self.number(Side::Defender);
            // A new step may offer again, though a proof couldn't be made in the last one.
            walk.offering = true;
            let step = self.grow_once(walk, stop, store, grants);
            if stop.is_one_step() || !changes_tree(step) {
                return step;
            }
            if self.number(Side::Attacker) != proof || self.number(Side::Defender) != disproof {
                return step;
            }
        }
    }

    /// Steps at an undecided node, as `grow`, by one descent: one step at a leaf, and otherwise the steps of its best
    /// child. Each node that becomes settled is offered to the store, the deepest first.
    #[cycle(descent)]
    fn grow_once<S: Store, G: Grants>(
        &mut self,
        walk: &mut Descent,
        stop: StopAfter,
        store: &mut S,
        grants: &mut G,
    ) -> Step
        requires { MayDescend walk.old self.old (G.asked grants.old) }
        ensures descends { Descends G.asked G.source S.may_answer stop walk.old grants.old result walk.new grants.new }
        ensures steps { AreSteps stop walk.old self.old result self.new walk.new }
    {
        let (proof, disproof) = (self.proof, self.disproof);
        match &mut self.node_state {
            NodeState::Expanded(focus, children) => {
                let was = PhiDelta::of(focus.mover, proof, disproof);
                let (step, numbers) = children.descend(focus, was, walk, stop, store, grants);
                let (proof, disproof) = numbers.proof_and_disproof(focus.mover);
                self.proof = proof;
                self.disproof = disproof;
                if let Some(side) = self.settled_side() {
                    walk.offering = self.offer_proof(side, walk, store);
                }
                step
            }
            NodeState::Untried(mover, plays) => {
                let Ok((focus, children)) = untried_children(walk.alloc, *mover, plays) else {
                    return Step::Stuck(Reason::Memory);
                };
                self.grow_untried(focus, children, walk, stop, store, grants)
            }
            NodeState::Won(_) | NodeState::Closed(_) | NodeState::Offered(_, _, _) =>
                unreachable!(),
            NodeState::Fresh => self.first_step(walk, store, grants),
        }
    }

    /// Steps at a node of which no turn has been tried, by one descent below these children of it, which it keeps.
    #[cycle(descent)]
    #[inline(never)]
    fn grow_untried<S: Store, G: Grants>(
        &mut self,
        mut focus: BestChild,
        mut children: ChildNodes,
        walk: &mut Descent,
        stop: StopAfter,
        store: &mut S,
        grants: &mut G,
    ) -> Step
        requires same { node_with (choices_of focus.mover children) ≡ self.old }
        requires kept { IsKept focus children }
        requires ready { MayDescend walk.old self.old (G.asked grants.old) }
        ensures descends { Descends G.asked G.source S.may_answer stop walk.old grants.old result walk.new grants.new }
        ensures steps { AreSteps stop walk.old self.old result self.new walk.new }
    {
        let was = PhiDelta::of(focus.mover, self.proof, self.disproof);
        let (step, numbers) = children.descend(&mut focus, was, walk, stop, store, grants);
        let (proof, disproof) = numbers.proof_and_disproof(focus.mover);
        *self = Node {
            proof,
            disproof,
            node_state: NodeState::Expanded(focus, children),
        };
        if let Some(side) = self.settled_side() {
            walk.offering = self.offer_proof(side, walk, store);
        }
        step
    }

    /// A step at a fresh leaf, and what the node becomes: a kept proof closes it, or it is expanded where the budget and the
    /// room allow it. The expansion is still to be asked for.
    fn close_or_expand<S: Store>(&mut self, walk: &mut Descent, store: &mut S) -> Step
        requires fresh { self.old ≡ fresh }
        requires open { winner_of walk.old.line.frame walk.old.line.state ≡ None }
        ensures walk { walk.new ≡ walk.old }
        ensures may { result ≡ Closed → S.may_answer }
        ensures kept { S.kept store.new ≡ S.kept store.old }
        ensures unasked { result ≢ Stuck Total }
        ensures taken { Taken (stand_of walk.old) (stage fresh walk.old.left) result self.new }
    {
        match find_usable_proof(&mut walk.line, walk.room, store) {
            Err(_) => return Step::Stuck(Reason::Memory),
            Ok(Some(proof)) => {
                *self = closed_leaf(proof);
                return Step::Closed;
            }
            Ok(None) => {}
        }
        if walk.left == 0 {
            return Step::Stuck(Reason::Budget);
        }
        if walk.room == 0 {
            return Step::Stuck(Reason::Depth);
        }
        match expanded_at(walk.alloc, &mut walk.line) {
            Ok(node) => {
                *self = node;
                Step::Expanded
            }
            Err(_) => Step::Stuck(Reason::Memory),
        }
    }

    /// A step at a fresh node. Its expansion is asked for once it is made, and then nothing can fail. Where the step is stuck, the node
    /// stays fresh.
    fn first_step<S: Store, G: Grants>(
        &mut self,
        walk: &mut Descent,
        store: &mut S,
        grants: &mut G,
    ) -> Step
        requires fresh { self.old ≡ fresh }
        requires open { winner_of walk.old.line.frame walk.old.line.state ≡ None }
        requires grants { (G.asked grants.old).granted + walk.old.left < 2 ^ 64 }
        ensures descends { Descends G.asked G.source S.may_answer OneStep walk.old grants.old result walk.new grants.new }
        ensures kept { (reason : _) → result ≡ Stuck reason → S.kept store.new ≡ S.kept store.old }
        ensures taken { Taken (stand_of walk.old) (stage fresh walk.old.left) result self.new }
        ensures left { IsLeft result walk.old.left walk.new.left }
    {
        let step = self.close_or_expand(walk, store);
        if !ask_grant(step, grants) {
            *self = new_leaf(None);
            return Step::Stuck(Reason::Total);
        }
        if let Step::Expanded = step {
            if let Some(side) = self.settled_side() {
                walk.offering = self.offer_proof(side, walk, store);
            }
        }
        walk.left = budget_left_after(step, walk.left);
        step
    }
}

impl ChildNodes {
    /// Steps at an undecided node with these children, by one descent to the child to go to, where the walk stands at the node; and
    /// the numbers of the node after them, where these were its numbers before.
    #[cycle(descent)]
    #[inline(always)]
    fn descend<S: Store, G: Grants>(
        &mut self,
        focus: &mut BestChild,
        was: PhiDelta,
        walk: &mut Descent,
        stop: StopAfter,
        store: &mut S,
        grants: &mut G,
    ) -> (Step, PhiDelta)
        requires kept { IsKeptWith focus.old self.old was }
        requires ready { MayDescend walk.old (node_with (choices_of focus.old.mover self.old)) (G.asked grants.old) }
        ensures descends { Descends G.asked G.source S.may_answer stop walk.old grants.old result.0 walk.new grants.new }
        ensures steps { AreSteps stop walk.old (node_with (choices_of focus.old.mover self.old)) result.0 (node_with (choices_of focus.new.mover self.new)) walk.new }
        ensures kept { IsKeptWith focus.new self.new result.1 }
    {
        let Ok(()) = walk.go_down(self.best_turn(*focus)) else {
            return (Step::Stuck(Reason::Memory), was);
        };
        let (step, numbers) = self.grow_best(focus, was, walk, stop, store, grants);
        walk.go_up();
        (step, numbers)
    }

    /// Steps at the child to go to, which is undecided, where the walk stands at it; and the numbers of the node after
    /// them, where these were its numbers before. A new child to go to is looked for only where the least number has risen.
    #[cycle(descent)]
    #[inline(always)]
    fn grow_best<S: Store, G: Grants>(
        &mut self,
        focus: &mut BestChild,
        was: PhiDelta,
        walk: &mut Descent,
        stop: StopAfter,
        store: &mut S,
        grants: &mut G,
    ) -> (Step, PhiDelta)
        requires kept { IsKeptWith focus.old self.old was }
        requires there { focus.old.index < length self.old.edges }
        requires ready { MayDescend walk.old (child_of self.old focus.old.index) (G.asked grants.old) }
        ensures descends { Descends G.asked G.source S.may_answer stop walk.old grants.old result.0 walk.new grants.new }
        ensures steps { BestSteps stop walk.old (choices_of focus.old.mover self.old) result.0 (choices_of focus.new.mover self.new) walk.new }
        ensures kept { IsKeptWith focus.new self.new result.1 }
    {
        let (index, rank) = (usize::from(focus.index), usize::from(focus.rank));
        let goal = focus.mover.opponent();
        let old = self.child(index, rank).number(goal);
        let step = self.grow_at(index, rank, walk, stop, store, grants);
        let child = self.child(index, rank);
        let own = child.number(focus.mover);
        let new = child.number(goal);
        let other = self.opponent_sum_after(focus.mover, was.other, old, new);
        if own <= was.own {
            return (step, PhiDelta { own, other });
        }
        let best = self.best(focus.mover, was.own);
        focus.index = best.index;
        focus.rank = best.rank;
        let own = best.least;
        (step, PhiDelta { own, other })
    }
}

impl ChildNodes {
    /// Steps at the child at an index, which is undecided, where the walk stands at it: those of its node where it has
    /// grown, and one step where it is fresh.
    #[cycle(descent)]
    #[inline(always)]
    fn grow_at<S: Store, G: Grants>(
        &mut self,
        index: usize,
        rank: usize,
        walk: &mut Descent,
        stop: StopAfter,
        store: &mut S,
        grants: &mut G,
    ) -> Step
        requires there { index < length self.old.edges }
        requires rank { IsRank rank index self.old }
        requires whole { HasItsNodes self.old }
        requires ready { MayDescend walk.old (child_of self.old index) (G.asked grants.old) }
        ensures descends { Descends G.asked G.source S.may_answer stop walk.old grants.old result walk.new grants.new }
        ensures whole { HasItsNodes self.new }
        ensures before { take index self.new.edges ≡ take index self.old.edges }
        ensures steps { StepsBelow stop walk.old index self.old result self.new walk.new }
    {
        match self.edges.at(index).edge_state() {
            EdgeState::Grown => self.grown[rank].grow(walk, stop, store, grants),
            EdgeState::Fresh => self.first_step_at(index, rank, walk, store, grants),
            EdgeState::Won(_) => unreachable!(),
        }
    }

    /// A step at a fresh child, whose node is put among those that have grown and takes the step there, so that it is written once. There
    /// is room for the node before its expansion is asked for and its proof is offered, so nothing is granted or kept of a node that the
    /// search can't hold. Where the step is stuck, the child has no node as before.
    #[inline(always)]
    fn first_step_at<S: Store, G: Grants>(
        &mut self,
        index: usize,
        rank: usize,
        walk: &mut Descent,
        store: &mut S,
        grants: &mut G,
    ) -> Step
        requires open { winner_of walk.old.line.frame walk.old.line.state ≡ None }
        requires whole { HasItsNodes self.old }
        requires there { IsFreshAt index self.old.edges }
        requires rank { IsRank rank index self.old }
        requires grants { (G.asked grants.old).granted + walk.old.left < 2 ^ 64 }
        ensures descends { Descends G.asked G.source S.may_answer OneStep walk.old grants.old result walk.new grants.new }
        ensures kept { (reason : _) → result ≡ Stuck reason → S.kept store.new ≡ S.kept store.old }
        ensures whole { HasItsNodes self.new }
        ensures before { take index self.new.edges ≡ take index self.old.edges }
        ensures first_step { FirstStepAt walk.old index self.old result self.new walk.new }
    {
        if make_room_for_node(&mut self.grown).is_err() {
            return Step::Stuck(Reason::Memory);
        }
        insert_fresh_node(&mut self.grown, rank);
        let step = self.grown[rank].first_step(walk, store, grants);
        if let Step::Stuck(reason) = step {
            let _fresh = self.grown.remove(rank);
            return Step::Stuck(reason);
        }
        let edge = self.edges.at(index).with_grown_child();
        self.edges.set(index, edge);
        step
    }
}
