//! New leaves, expanded leaves and closed leaves.

ghost use Rattle.std.specs.Prelude.{◌≡◌, ◌≤◌, None, [], length, IfOk, IfSome};
ghost use Rattle.tt_game.specs.Game.{winner_of};
ghost use Rattle.tt_search.specs.PartialTree.{expanded, closed};
ghost use Rattle.tt_search.specs.inside.Children.{children_of};
ghost use Rattle.tt_search.specs.declared.tree.edges.TheConstants.{TURN_NUMBER_BOUND};
ghost use Rattle.tt_search.specs.inside.Edges.{edge_turn, edge_state_of, tree_of, edge_turns, edge_trees, counted, grown_in};
ghost use Rattle.tt_search.specs.Growing.{leaf_with_winner, expansion};
ghost use Rattle.tt_search.specs.inside.Expanding.{AreNewEdges};
ghost use Rattle.tt_search.specs.inside.Choices.{node_with};
ghost use Rattle.tt_search.specs.inside.ChildNodes.{choices_of, choices_with};
ghost use Rattle.tt_search.specs.inside.Kept.{IsKept};
ghost use Rattle.tt_search.specs.inside.Untried.{plays_and_pass, AreUntried};

use crate::tree::children::{BestChild, ChildNodes};
use crate::tree::edge_storage::Edges;
use crate::tree::edges::{Edge, EdgeState};
use crate::tree::node::{Node, NodeState};
use crate::tree::numbers::{PhiDelta, decided_number};
use crate::tree::untried::UntriedPlays;
use arrayvec::ArrayVec;
use std::alloc::Global;
use std::sync::Arc;
use tt_game::{LegalPlays, Line, MOST_LEGAL, Side, Turn};
use tt_proof::Proof;
use tt_sgf::NoMemory;

/// A new leaf: won where somebody has won.
pub(crate) fn new_leaf(winner: Option<Side>) -> Node
    ensures { result ≡ leaf_with_winner winner }
{
    match winner {
        None => Node {
            proof: 1,
            disproof: 1,
            node_state: NodeState::Fresh,
        },
        Some(side) => Node {
            proof: decided_number(Side::Attacker, side),
            disproof: decided_number(Side::Defender, side),
            node_state: NodeState::Won(side),
        },
    }
}

/// A leaf closed by the proof.
pub(crate) fn closed_leaf(proof: Arc<Proof>) -> Node
    ensures { result ≡ closed proof.value.side proof.value.tree }
{
    let side = proof.side();
    Node {
        proof: decided_number(Side::Attacker, side),
        disproof: decided_number(Side::Defender, side),
        node_state: NodeState::Closed(proof),
    }
}

/// An expanded node at which no child has grown.
fn expanded_node(alloc: Global, mover: Side, edges: Edges) -> Node
    requires few { length edges ≤ TURN_NUMBER_BOUND }
    requires none { grown_in edges ≡ 0 }
    ensures { result ≡ expanded mover (edge_turns edges) (children_of (edge_trees edges [])) }
{
    let (focus, children, numbers) = ChildNodes::new(alloc, mover, edges);
    let (proof, disproof) = numbers.proof_and_disproof(focus.mover);
    Node {
        proof,
        disproof,
        node_state: NodeState::Expanded(focus, children),
    }
}

/// The edge of a turn to a new leaf.
fn new_edge(turn: Turn, winner: Option<Side>) -> Edge
    ensures turn { edge_turn result ≡ turn }
    ensures tree { tree_of (edge_state_of result) [] ≡ leaf_with_winner winner }
    ensures small { counted (edge_state_of result) 0 ≡ 0 }
{
    match winner {
        None => Edge::new(turn, EdgeState::Fresh),
        Some(side) => Edge::new(turn, EdgeState::Won(side)),
    }
}

/// The edges of the legal turns, to new leaves. Each play is made once.
fn edges_to_new_leaves(alloc: Global, plays: &mut LegalPlays) -> Result<Edges, NoMemory>
    requires { plays.old.from ≡ 0 }
    ensures { IfOk result (λ edges. AreNewEdges plays.old.frame plays.old.state edges) }
{
    let mut edges: ArrayVec<Edge, MOST_LEGAL> = ArrayVec::new();
    while let Some((p, winner)) = plays.next() {
        edges.push(new_edge(Turn::Play(p), winner));
    }
    edges.push(new_edge(Turn::Pass, plays.winner_by_pass()));
    Edges::of(alloc, edges.as_slice())
}

/// The legal plays, where these are many and nobody has won behind any turn.
fn many_plays_if_none_wins(plays: &mut LegalPlays) -> Option<UntriedPlays>
    requires { plays.old.from ≡ 0 }
    ensures edges { IfSome result
        (λ found. AreNewEdges plays.old.frame plays.old.state (plays_and_pass found)) }
    ensures untried { IfSome result (λ found. AreUntried (plays_and_pass found)) }
    ensures same { (plays.new.frame ≡ plays.old.frame) × (plays.new.state ≡ plays.old.state) }
{
    if !plays.may_be_many() || plays.winner_by_pass().is_some() {
        return None;
    }
    let mut found = UntriedPlays::new();
    while let Some((p, winner)) = plays.next() {
        if winner.is_some() {
            return None;
        }
        found.push(p);
    }
    Some(found)
}

/// An expanded node with these plays and a pass, of which no turn has been tried.
fn untried_node(mover: Side, plays: UntriedPlays) -> Node
    requires { AreUntried (plays_and_pass plays) }
    ensures { result ≡ node_with (choices_with mover (plays_and_pass plays) []) }
{
    let numbers = PhiDelta {
        own: 1,
        other: u32::from(plays.len()) + 1,
    };
    let (proof, disproof) = numbers.proof_and_disproof(mover);
    Node {
        proof,
        disproof,
        node_state: NodeState::Untried(mover, plays),
    }
}

/// The children of a node of which no turn has been tried, and which of them to go to: the first one. There is room for the nodes of all
/// of them: mostly next to none stays away once the first is tried.
pub(crate) fn untried_children(
    alloc: Global,
    mover: Side,
    plays: &UntriedPlays,
) -> Result<(BestChild, ChildNodes), NoMemory>
    requires { AreUntried (plays_and_pass plays.now) }
    ensures mover { IfOk result (λ x. x.0.mover ≡ mover) }
    ensures children { IfOk result
        (λ x. choices_of x.0.mover x.1 ≡ choices_with mover (plays_and_pass plays.now) []) }
    ensures kept { IfOk result (λ x. IsKept x.0 x.1) }
{
    let edges = plays.edges_with_pass(alloc)?;
    let focus = BestChild {
        mover,
        index: 0,
        rank: 0,
    };
    let grown = Vec::with_capacity(alloc, edges.len())?;
    Ok((focus, ChildNodes { edges, grown }))
}

/// The line's node with a new leaf for each legal turn.
pub(crate) fn expanded_at(alloc: Global, line: &Line) -> Result<Node, NoMemory>
    requires open { winner_of line.now.frame line.now.state ≡ None }
    ensures { IfOk result (λ node. node ≡ expansion line.now.frame line.now.state) }
{
    let mut plays = line.legal_plays();
    if let Some(found) = many_plays_if_none_wins(&mut plays) {
        return Ok(untried_node(line.to_move(), found));
    }
    plays.restart();
    let edges = edges_to_new_leaves(alloc, &mut plays)?;
    Ok(expanded_node(alloc, line.to_move(), edges))
}
