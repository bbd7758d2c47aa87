//! The main line of a strategy: what its other side does that lasts.

ghost use Rattle.std.specs.Prelude.{◌≡◌};

use crate::depths::shown_depth;
use crate::shown::ShowFault;
use std::alloc::Global;
use tt_board::Board;
use tt_game::{Line, Turn};
use tt_proof::{MOST_DEPTH, Tree};
use tt_sgf::{Point, PointSet};

/// The most turns among which the next ones of a main line are looked for. It bounds what a long strategy costs. The number was chosen
/// without a measurement.
const MOST_SEARCHED_TURNS: usize = 50_000;

/// Makes these turns, up to one that isn't legal.
pub fn make_turns(line: &mut Line, turns: &[Turn]) -> Result<(), ShowFault> {
    for turn in turns {
        if !line.is_legal(*turn) {
            return Ok(());
        }
        line.push_legal(*turn)?;
    }
    Ok(())
}

/// Whether a stone stands on a point.
fn has_stone(board: &Board, point: Point) -> bool {
    board.size().holds(point) && board.at(point).is_some()
}

/// Whether an answer takes the stone on a point.
fn is_taken(line: &Line, board: &Board, point: Point, answer: Turn) -> bool {
    let Turn::Play(place) = answer else {
        return false;
    };
    if !board.size().holds(place) {
        return false;
    }
    match board.play(line.frame().colour_of(line.to_move().opponent()), place) {
        Ok(next) => !has_stone(&next, point),
        Err(_) => false,
    }
}

/// What the first turn of a resistance does, the strongest first.
#[derive(Clone, Copy, PartialEq, Eq, PartialOrd, Ord)]
enum Resistance {
    /// A play whose stone stays.
    Stone,
    /// A play whose stone the answer takes.
    ThrowIn,
    Pass,
    Suicide,
    /// There is no turn, or none that is legal.
    Nothing,
}

/// What the first of these turns does.
fn resistance_of(line: &Line, turns: &[Turn]) -> Resistance {
    let Some(turn) = turns.first() else {
        return Resistance::Nothing;
    };
    if !line.is_legal(*turn) {
        return Resistance::Nothing;
    }
    let Turn::Play(point) = *turn else {
        return Resistance::Pass;
    };
    let board = line.board_after_turn(*turn);
    if !has_stone(&board, point) {
        return Resistance::Suicide;
    }
    match turns.get(1) {
        Some(answer) if is_taken(line, &board, point, *answer) => Resistance::ThrowIn,
        _ => Resistance::Stone,
    }
}

/// On how many points these turns are played where no stone stood so far.
fn fresh_point_count(line: &Line, turns: &[Turn]) -> u16 {
    let mut points = PointSet::empty();
    for turn in turns {
        if let Turn::Play(point) = *turn {
            if !line.history().iter().any(|board| has_stone(board, point)) {
                points = points.with(point);
            }
        }
    }
    points.count()
}

/// Whether a resistance is better than another: by its first turn, then by the points that are played on anew, then by how few turns it
/// has.
fn is_better(line: &Line, one: &[Turn], other: &[Turn]) -> bool {
    let (first, first_other) = (resistance_of(line, one), resistance_of(line, other));
    if first != first_other {
        return first < first_other;
    }
    let (fresh, fresh_other) = (fresh_point_count(line, one), fresh_point_count(line, other));
    if fresh != fresh_other {
        return fresh_other < fresh;
    }
    one.len() < other.len()
}

/// A turn and the main line behind it, where it is legal.
#[cycle(resist)]
fn turn_and_rest(
    alloc: Global,
    turn: &Turn,
    behind: &Tree,
    line: &mut Line,
    left: usize,
) -> Result<Vec<Turn>, ShowFault>
    ensures { line.new ≡ line.old }
{
    if !line.is_legal(*turn) {
        return Ok(Vec::new(alloc));
    }
    line.push_legal(*turn)?;
    let rest = best(alloc, behind, line, left);
    line.pop();
    let mut turns = rest?;
    turns.insert(0, *turn)?;
    Ok(turns)
}

/// The best resistance among the turns of the other side, the first where they are alike.
#[cycle(resist)]
fn best_reply(
    alloc: Global,
    list: &[(Turn, Tree)],
    line: &mut Line,
    left: usize,
) -> Result<Vec<Turn>, ShowFault>
    ensures { line.new ≡ line.old }
{
    let mut found = Vec::new(alloc);
    for (turn, behind) in list {
        let turns = turn_and_rest(alloc, turn, behind, line, left)?;
        if is_better(line, turns.as_slice(), found.as_slice()) {
            found = turns;
        }
    }
    Ok(found)
}

/// The main line behind a position, to so many turns.
#[cycle(resist)]
fn best(alloc: Global, tree: &Tree, line: &mut Line, left: usize) -> Result<Vec<Turn>, ShowFault>
    ensures { line.new ≡ line.old }
{
    if left == 0 {
        return Ok(Vec::new(alloc));
    }
    match tree {
        Tree::Done => Ok(Vec::new(alloc)),
        Tree::Pick(turn, behind) => turn_and_rest(alloc, turn, behind, line, left - 1),
        Tree::Reply(list) => best_reply(alloc, list, line, left - 1),
    }
}

/// The tree behind a turn of a strategy.
fn tree_behind(tree: &Tree, turn: Turn) -> Option<&Tree> {
    match tree {
        Tree::Pick(own, child) if *own == turn => Some(child),
        Tree::Reply(list) => Some(&list.iter().find(|entry| entry.0 == turn)?.1),
        _ => None,
    }
}

/// The main line of a strategy. Where its other side moves, this is a play that isn't taken at once, or else a throw-in, a pass, a suicide;
/// of several the one behind which most points are played that were empty so far, and the fewest turns. In a large strategy this is looked
/// for not to the end, and then anew.
pub fn main_line(alloc: Global, line: &Line, tree: &Tree) -> Result<Vec<Turn>, ShowFault> {
    let mut at = line.try_clone()?;
    let mut rest = tree;
    let mut turns = Vec::new(alloc);
    for _time in 0..MOST_DEPTH {
        let depth = shown_depth(rest, usize::from(MOST_DEPTH), MOST_SEARCHED_TURNS);
        let next = best(alloc, rest, &mut at, depth)?;
        if next.is_empty() {
            break;
        }
        make_turns(&mut at, next.as_slice())?;
        for turn in next.as_slice() {
            turns.push(*turn)?;
            rest = tree_behind(rest, *turn).unwrap_or(rest);
        }
    }
    Ok(turns)
}
