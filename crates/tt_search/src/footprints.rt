//! The footprints of settled nodes: each is joined from those of the node's children, so that no tree of a proof is walked
//! through. Only a proof that was found under another history may need a walk, where its own footprint can't be taken over.

ghost use Rattle.std.specs.Prelude.{◌≡◌, length, IfOk};
ghost use Rattle.tt_game.specs.declared.frame.Frame.{Frame};
ghost use Rattle.tt_game.specs.Game.{State, IsLegal, after};
ghost use Rattle.tt_game.specs.laws.TurnLaws.{EachIsLegal};
ghost use Rattle.tt_proof.specs.Strategy.{reply};
ghost use Rattle.tt_proof.specs.KeptFootprints.{IsFootprint, IsBoardAfter, AreLegalPlays};
ghost use Rattle.tt_search.specs.inside.Joining.{IsSettledAt, AreSettledAt};
ghost use Rattle.tt_search.specs.Settled.{strategy_for, first_settled_index, pick_at, replies};
ghost use Rattle.tt_search.specs.inside.Children.{children_of};
ghost use Rattle.tt_search.specs.inside.Edges.{edge_turns, edge_trees};
ghost use Rattle.tt_search.specs.inside.Choices.{node_with};
ghost use Rattle.tt_search.specs.inside.ChildNodes.{HasItsNodes, children_in, choices_of};
ghost use Rattle.tt_search.specs.inside.Child.{child_tree};

use crate::tree::children::{Child, ChildNodes};
use crate::tree::edges::Edge;
use crate::tree::node::{Node, NodeState};
use crate::tree::numbers::is_same_side;
use std::alloc::Global;
use tt_board::Board;
use tt_game::{Line, Side, Turn};
use tt_proof::Footprint;
use tt_sgf::{NoMemory, PointSet};

impl Node {
    /// The footprint of the strategy of a node for the side that it is settled for, where the line stands at it. The line
    /// stands as before, also after want of memory.
    #[cycle(footprint)]
    pub(crate) fn footprint(
        &self,
        alloc: Global,
        line: &mut Line,
        side: Side,
    ) -> Result<Footprint, NoMemory>
        requires { IsSettledAt side line.old.frame line.old.state self.now }
        ensures exact { IfOk result
            (λ x. IsFootprint line.old.frame line.old.state (strategy_for side self.now) x) }
        ensures same { line.new ≡ line.old }
    {
        match &self.node_state {
            NodeState::Fresh => Ok(Footprint::empty(alloc)),
            NodeState::Won(_) => Ok(Footprint::empty(alloc)),
            NodeState::Closed(proof) => proof.footprint_at(alloc, line),
            NodeState::Untried(_, _) => unreachable!(),
            NodeState::Expanded(focus, children) => children.footprint(
                alloc,
                line,
                focus.mover,
                side,
            ),
            NodeState::Offered(_, _, proof) => proof.footprint_at(alloc, line),
        }
    }

    /// The same where the line stands at the node above, and this one is behind the turn; and the board after the turn.
    #[cycle(footprint)]
    fn board_and_footprint_after(
        &self,
        alloc: Global,
        turn: Turn,
        line: &mut Line,
        side: Side,
    ) -> Result<(Board, Footprint), NoMemory>
        requires legal { IsLegal line.old.frame line.old.state turn }
        requires settled { IsSettledAt side line.old.frame (after line.old.frame line.old.state turn) self.now }
        ensures board { IfOk result (λ r. IsBoardAfter line.old.frame line.old.state turn r.0) }
        ensures exact { IfOk result
            (λ r. IsFootprint line.old.frame (after line.old.frame line.old.state turn) (strategy_for side self.now) r.1) }
        ensures same { line.new ≡ line.old }
    {
        line.push_legal(turn)?;
        let board = line.present().copy();
        let found = self.footprint(alloc, line, side);
        line.pop();
        let footprint = found?;
        Ok((board, footprint))
    }
}

impl Child<'_> {
    /// The footprint of a child's strategy for the side that it is settled for, where the line stands at the node above, and the
    /// child is behind the turn; and the board after the turn, which is pushed only where the child has grown.
    #[cycle(footprint)]
    fn board_and_footprint_after(
        self,
        alloc: Global,
        turn: Turn,
        line: &mut Line,
        side: Side,
    ) -> Result<(Board, Footprint), NoMemory>
        requires legal { IsLegal line.old.frame line.old.state turn }
        requires settled { IsSettledAt side line.old.frame (after line.old.frame line.old.state turn) (child_tree self) }
        ensures board { IfOk result (λ r. IsBoardAfter line.old.frame line.old.state turn r.0) }
        ensures exact { IfOk result
            (λ r. IsFootprint line.old.frame (after line.old.frame line.old.state turn) (strategy_for side (child_tree self.entry)) r.1) }
        ensures same { line.new ≡ line.old }
    {
        match self {
            Child::Fresh | Child::Won(_) => Ok((
                line.board_after_turn(turn),
                Footprint::empty(alloc),
            )),
            Child::Grown(node) => node.board_and_footprint_after(alloc, turn, line, side),
        }
    }
}

impl ChildNodes {
    /// The footprint of the node's strategy for the side that it is settled for, where the line stands at the node.
    #[cycle(footprint)]
    fn footprint(
        &self,
        alloc: Global,
        line: &mut Line,
        mover: Side,
        side: Side,
    ) -> Result<Footprint, NoMemory>
        requires whole { HasItsNodes self.now }
        requires settled { IsSettledAt side line.old.frame line.old.state (node_with (choices_of mover self.now)) }
        ensures exact { IfOk result
            (λ x. IsFootprint line.old.frame line.old.state (strategy_for side (node_with (choices_of mover self.now))) x) }
        ensures same { line.new ≡ line.old }
    {
        if is_same_side(side, mover) {
            pick_footprint(alloc, line, side, self)
        } else {
            reply_footprint(
                alloc,
                line,
                side,
                self.edges.as_slice(),
                self.grown.as_slice(),
            )
        }
    }
}

/// The footprint of the strategy that picks the first child that is settled for the side, which is to move: that child's
/// alone counts.
#[cycle(footprint)]
fn pick_footprint(
    alloc: Global,
    line: &mut Line,
    side: Side,
    children: &ChildNodes,
) -> Result<Footprint, NoMemory>
    requires whole { HasItsNodes children.now }
    requires settled { IsSettledAt side line.old.frame line.old.state (node_with (choices_of side children.now)) }
    ensures exact { IfOk result (λ x. IsFootprint line.old.frame line.old.state
        (pick_at side (first_settled_index side (children_in children.now)) (edge_turns children.now.edges) (children_in children.now)) x) }
    ensures same { line.new ≡ line.old }
{
    let (index, rank) = children.first_settled_index(side);
    let turn = children.edges.at(index).turn();
    let child = children.child(index, rank);
    let (board, behind) = child.board_and_footprint_after(alloc, turn, line, side)?;
    Footprint::picked(alloc, line, &turn, &board, behind)
}

/// The points of the plays among the edges' turns.
fn points_of_plays(edges: &[Edge]) -> PointSet
    ensures { (f : Frame) (s : State) → EachIsLegal f s (edge_turns edges.now)
        → AreLegalPlays f s result }
{
    let mut points = PointSet::empty();
    for edge in edges {
        if let Turn::Play(p) = edge.turn() {
            points = points.with(p);
        }
    }
    points
}

/// The footprint of the strategy that replies to each turn: that of the node's own plays, and those of all children.
#[cycle(footprint)]
fn reply_footprint(
    alloc: Global,
    line: &mut Line,
    side: Side,
    edges: &[Edge],
    grown: &[Node],
) -> Result<Footprint, NoMemory>
    requires { AreSettledAt side line.old.frame line.old.state edges.now grown.now }
    ensures exact { IfOk result (λ x. IsFootprint line.old.frame line.old.state
        (reply (replies side (edge_turns edges.now) (children_of (edge_trees edges.now grown.now)))) x) }
    ensures same { line.new ≡ line.old }
{
    let mut footprint = Footprint::of_empty_reply_given_legal(
        alloc,
        line,
        &points_of_plays(edges),
    )?;
    let mut rest = grown;
    for edge in edges {
        let (child, behind) = Child::split_first_child(*edge, rest);
        let turn = edge.turn();
        let (board, below) = child.board_and_footprint_after(alloc, turn, line, side)?;
        footprint.join_reply_turn(line, &turn, &board, below)?;
        rest = behind;
    }
    Ok(footprint)
}
