//! The strategies and proofs of settled nodes, and their offer to a store. What a node offers is a new root over trees that
//! are there already: a found proof's tree is taken as it is.

ghost use Rattle.std.specs.Prelude.{◌≡◌, ◌≤◌, ◌<◌, false, length, IfOk, MatchOption};
ghost use Rattle.tt_proof.specs.Strategy.{reply};
ghost use Rattle.tt_proof.specs.ProofClaim.{StandsAt};
ghost use Rattle.tt_proof.specs.declared.tree.TheConstants.{MOST_DEPTH};
ghost use Rattle.tt_search.specs.Numbers.{number, child_numbers, least, IsUndecided};
ghost use Rattle.tt_search.specs.Growing.{IsPartialTree};
ghost use Rattle.tt_search.specs.inside.Within.{StaysWithin};
ghost use Rattle.tt_search.specs.Settled.{strategy_for, first_settled_index, pick_at, replies};
ghost use Rattle.tt_search.specs.inside.Offered.{IsProofOfTree};
ghost use Rattle.tt_search.specs.inside.Joining.{IsSettledAt, AreZero};
ghost use Rattle.tt_search.specs.inside.Children.{children_of};
ghost use Rattle.tt_search.specs.inside.Edges.{edge_turns, edge_trees, grown_in};
ghost use Rattle.tt_search.specs.inside.Choices.{node_with};
ghost use Rattle.tt_search.specs.inside.ChildNodes.{HasItsNodes, children_in, choices_of};
ghost use Rattle.tt_search.specs.inside.Child.{child_tree};

use crate::descent::Descent;
use crate::store::Store;
use crate::tree::children::{Child, ChildNodes};
use crate::tree::edges::Edge;
use crate::tree::node::{Node, NodeState};
use crate::tree::numbers::is_same_side;
use std::alloc::Global;
use std::mem;
use std::sync::Arc;
use tt_game::{Line, Side};
use tt_proof::{MeasuredTree, Proof, ReplyBuilder};
use tt_sgf::NoMemory;

impl Node {
    /// The strategy of a node for the side that it is settled for.
    #[cycle(measured_tree_of)]
    pub(crate) fn measured_tree(&self, alloc: Global, side: Side) -> Result<MeasuredTree, NoMemory>
        requires { number side self.now ≡ 0 }
        ensures { IfOk result (λ p. p ≡ strategy_for side self.now) }
    {
        match &self.node_state {
            NodeState::Fresh => Ok(MeasuredTree::done()),
            NodeState::Won(_) => Ok(MeasuredTree::done()),
            NodeState::Closed(proof) => proof.measured_tree().try_clone(),
            NodeState::Untried(_, _) => unreachable!(),
            NodeState::Expanded(focus, children) => children.measured_tree(
                alloc,
                focus.mover,
                side,
            ),
            NodeState::Offered(_, _, proof) => proof.measured_tree().try_clone(),
        }
    }

    /// The side that the node is settled for.
    pub(crate) fn settled_side(&self) -> Option<Side>
        ensures { MatchOption result (IsUndecided self.now) (λ side. number side self.now ≡ 0) }
    {
        if self.number(Side::Attacker) == 0 {
            return Some(Side::Attacker);
        }
        if self.number(Side::Defender) == 0 {
            return Some(Side::Defender);
        }
        None
    }

    /// The proof of a settled node, where the line stands at it. Its tree is not walked through: the measured tree is a new root over
    /// the children's, and the footprint is joined from theirs. The line stands as before.
    pub(crate) fn proof(
        &self,
        alloc: Global,
        line: &mut Line,
        side: Side,
    ) -> Result<Proof, NoMemory>
        requires { IsSettledAt side line.old.frame line.old.state self.now }
        ensures stands { IfOk result (λ p. StandsAt p line.old.frame line.old.state) }
        ensures side { IfOk result (λ p. p.side ≡ side) }
        ensures tree { IfOk result (λ p. p.tree ≡ strategy_for side self.now) }
        ensures same { line.new ≡ line.old }
    {
        let measured_tree = self.measured_tree(alloc, side)?;
        let footprint = self.footprint(alloc, line, side)?;
        Proof::from_known_win(line, side, measured_tree, footprint)
    }

    /// Holds a proof that the node offers, where memory for a handle is left.
    fn hold_offered_proof(&mut self, proof: &Arc<Proof>)
        requires { IsProofOfTree self.old proof.now.value }
        ensures { self.new ≡ self.old }
    {
        let Ok(handle) = Arc::try_clone(proof) else {
            return;
        };
        self.node_state = match mem::replace(&mut self.node_state, NodeState::Fresh) {
            NodeState::Expanded(focus, children) => NodeState::Offered(
                focus.mover,
                children,
                handle,
            ),
            kept => kept,
        };
    }

    /// Offers the proof of a node that is settled for the side to the store, where the walk stands at the node, and
    /// answers whether the walk may offer on. None is made for a store that is full, nor where the proof of a node below it
    /// couldn't be made.
    pub(crate) fn offer_proof<S: Store>(
        &mut self,
        side: Side,
        walk: &mut Descent,
        store: &mut S,
    ) -> bool
        requires settled { number side self.old ≡ 0 }
        requires partial { IsPartialTree walk.old.line.frame walk.old.line.state self.old }
        requires stays { StaysWithin walk.old.line.frame.size MOST_DEPTH self.old }
        ensures same { self.new ≡ self.old }
        ensures walk { walk.new ≡ walk.old }
        ensures shut { walk.old.offering ≡ false
            → (result ≡ false) × (S.kept store.new ≡ S.kept store.old) }
    {
        if !walk.offering || store.kept() == store.capacity() {
            return walk.offering;
        }
        let Ok(proof) = self.proof(walk.alloc, &mut walk.line, side) else {
            return false;
        };
        let Ok(proof) = Arc::new(walk.alloc, proof) else {
            return false;
        };
        self.hold_offered_proof(&proof);
        let _kept = store.keep(proof);
        true
    }
}

impl Child<'_> {
    /// The strategy of a child for the side that it is settled for.
    #[cycle(measured_tree_of)]
    fn measured_tree(self, alloc: Global, side: Side) -> Result<MeasuredTree, NoMemory>
        requires { number side (child_tree self) ≡ 0 }
        ensures { IfOk result (λ p. p ≡ strategy_for side (child_tree self.entry)) }
    {
        match self {
            Child::Fresh | Child::Won(_) => Ok(MeasuredTree::done()),
            Child::Grown(node) => node.measured_tree(alloc, side),
        }
    }
}

impl ChildNodes {
    /// The strategy of the node for the side that it is settled for.
    #[cycle(measured_tree_of)]
    fn measured_tree(
        &self,
        alloc: Global,
        mover: Side,
        side: Side,
    ) -> Result<MeasuredTree, NoMemory>
        requires whole { HasItsNodes self.now }
        requires settled { number side (node_with (choices_of mover self.now)) ≡ 0 }
        ensures { IfOk result (λ p. p ≡ strategy_for side (node_with (choices_of mover self.now))) }
    {
        if is_same_side(side, mover) {
            pick_tree(alloc, side, self)
        } else {
            reply_tree(alloc, side, self.edges.as_slice(), self.grown.as_slice())
        }
    }
}

/// The strategy that picks the first child that is settled for the side.
#[cycle(measured_tree_of)]
fn pick_tree(alloc: Global, side: Side, children: &ChildNodes) -> Result<MeasuredTree, NoMemory>
    requires whole { HasItsNodes children.now }
    requires settled { least (child_numbers side (children_in children.now)) ≡ 0 }
    ensures { IfOk result
        (λ p. p ≡ pick_at side (first_settled_index side (children_in children.now)) (edge_turns children.now.edges) (children_in children.now)) }
{
    let (index, rank) = children.first_settled_index(side);
    if index >= children.edges.len() {
        return Ok(MeasuredTree::done());
    }
    let child = children.child(index, rank).measured_tree(alloc, side)?;
    MeasuredTree::pick(alloc, children.edges.at(index).turn(), child)
}

/// The strategy that replies to each turn.
#[cycle(measured_tree_of)]
fn reply_tree(
    alloc: Global,
    side: Side,
    edges: &[Edge],
    grown: &[Node],
) -> Result<MeasuredTree, NoMemory>
    requires whole { grown_in edges.now ≡ length grown.now }
    requires settled { AreZero side (children_of (edge_trees edges.now grown.now)) }
    ensures { IfOk result
        (λ p. p ≡ reply (replies side (edge_turns edges.now) (children_of (edge_trees edges.now grown.now)))) }
{
    let mut answers = ReplyBuilder::with_capacity(alloc, edges.len())?;
    let mut rest = grown;
    for edge in edges {
        let (child, behind) = Child::split_first_child(*edge, rest);
        let answer = child.measured_tree(alloc, side)?;
        answers.push(edge.turn(), answer)?;
        rest = behind;
    }
    answers.into_measured_tree(alloc)
}
