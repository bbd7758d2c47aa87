//! Problems: a main line up to the node that marks targets.

ghost use Rattle.std.specs.Prelude.{◌≡◌, ◌≤◌, Some, false, length};
ghost use Rattle.tt_board.specs.declared.Colour.TheVariants.{Black, White};
ghost use Rattle.tt_board.specs.Stones.{IsSetOnBoard};
ghost use Rattle.tt_game.specs.Faults.{least_with_entry};
ghost use Rattle.tt_game.specs.Records.{ReturnsUnlessNoMemory};
ghost use Rattle.tt_game.specs.Problems.{node_count_before_solution, game_of, adds_stones, defender_of, read_region, problem_at_node, problem_at_targets, problem_of};

use crate::faults::GameFault;
use crate::game::Game;
use crate::least_points::least_with_entry;
use crate::line::Line;
use crate::nodes::{has_move, has_value};
use crate::reading::read_set;
use crate::records::{GameSoFar, apply_nodes, empty_game_for_nodes};
use std::alloc::Global;
use tt_board::{Board, Colour};
use tt_sgf::{MainLine, Node, PointSet, Size};

/// The region that the node with this number says: the points of SQ, or the whole board without it.
fn read_region(number: usize, node: &Node, size: Size) -> Result<PointSet, GameFault>
    ensures { result ≡ read_region number size node.now }
{
    if !has_value(node.props.as_slice(), b"SQ") {
        return Ok(PointSet::whole(size));
    }
    read_set(number, node, b"SQ", size)
}

/// The colour of all these targets, which have stones.
fn defender_of(node: usize, board: &Board, targets: &PointSet) -> Result<Colour, GameFault>
    requires { IsSetOnBoard board.now.size targets.now }
    ensures { result
        ≡ defender_of node (least_with_entry targets.now board.now.points (Some White)) (least_with_entry targets.now board.now.points (Some Black)) }
{
    let Some(point) = least_with_entry(targets, board, Some(Colour::White)) else {
        return Ok(Colour::Black);
    };
    match least_with_entry(targets, board, Some(Colour::Black)) {
        None => Ok(Colour::White),
        Some(_) => Err(GameFault::MixedTargets { node, point }),
    }
}

/// The problem that a game is at a node with TR.
fn problem_at_node(last: GameSoFar, node: &Node) -> Result<Line, GameFault>
    ensures { ReturnsUnlessNoMemory result (problem_at_node last node.now) }
{
    let game = last.game;
    let size = game.size();
    let targets = read_set(last.node, node, b"TR", size)?;
    let region = read_region(last.node, node, size)?;
    if targets.count() == 0 {
        return Err(GameFault::NoTarget);
    }
    if let Some(point) = least_with_entry(&targets, game.present(), None) {
        return Err(GameFault::EmptyTarget {
            node: last.node,
            point,
        });
    }
    let defender = defender_of(last.node, game.present(), &targets)?;
    Ok(game.into_problem(region, targets, defender)?)
}

/// The problem at the first of these nodes with TR.
fn problem_at_targets(replay: GameSoFar, nodes: &[Node]) -> Result<Line, GameFault>
    ensures { ReturnsUnlessNoMemory result (problem_at_targets 0 replay nodes.now) }
{
    let mut last = replay;
    let mut rest = nodes;
    let mut number: usize = 0;
    while let Some((node, behind)) = rest.split_first() {
        number += 1;
        last.node = number;
        last.play_node(node)?;
        if has_value(node.props.as_slice(), b"TR") {
            return problem_at_node(last, node);
        }
        rest = behind;
    }
    Err(GameFault::NoTarget)
}

/// The problem that a main line is (SGF FF[4]), or the first refusal, node by node up to the first node with TR. TR names
/// the targets, whose stones are the defender's, and SQ the region, which is the whole board without it. The line has the
/// history and the side to move of the record so far, no pass, and nothing to undo.
///
/// # Errors
///
/// Those of `play_record` up to that node; then no target, a bad value of TR or SQ, a target without a stone, or targets of
/// both colours; or an allocation was refused.
#[tactic(auto, unfolding(crate::specs::Problems::problem_of))]
pub fn problem(alloc: Global, line: &MainLine) -> Result<Line, GameFault>
    ensures { ReturnsUnlessNoMemory result (problem_of line.now.nodes) }
{
    let nodes = line.nodes.as_slice();
    problem_at_targets(empty_game_for_nodes(alloc, nodes)?, nodes)
}

/// Whether a node puts stones on the board.
fn adds_stones(node: &Node) -> bool
    ensures { result ≡ adds_stones node.now }
{
    let properties = node.props.as_slice();
    has_value(properties, b"AB") || has_value(properties, b"AW")
}

/// How many of these nodes stand in front of the first move behind stones that are set up: all of them without such a move.
#[tactic(auto, using(crate::proofs::ProblemLemmas::asked_nil, crate::proofs::ProblemLemmas::asked_stop, crate::proofs::ProblemLemmas::asked_step))]
pub fn node_count_before_solution(nodes: &[Node]) -> usize
    ensures value { result ≡ node_count_before_solution false nodes.now }
    ensures most { result ≤ length nodes.now }
{
    let mut count: usize = 0;
    let mut up = false;
    let mut rest = nodes;
    while let Some((node, behind)) = rest.split_first() {
        if up && has_move(node) {
            return count;
        }
        up = up || adds_stones(node);
        count += 1;
        rest = behind;
    }
    count
}

/// The game in which a main line without targets asks something (SGF FF[4]), or the first refusal, node by node: in front of
/// the first move behind stones that are set up, for there a solution begins; without one behind the last node.
///
/// # Errors
///
/// Those of `play_record` up to there.
#[tactic(auto, unfolding(crate::specs::Problems::game_of))]
pub fn game_before_solution(alloc: Global, line: &MainLine) -> Result<Game, GameFault>
    ensures { ReturnsUnlessNoMemory result (game_of line.now.nodes) }
{
    let nodes = line.nodes.as_slice();
    let last = apply_nodes(
        empty_game_for_nodes(alloc, nodes)?,
        &nodes[..node_count_before_solution(nodes)],
    )?;
    Ok(last.game)
}
