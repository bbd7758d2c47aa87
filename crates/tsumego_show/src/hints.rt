//! Hints on what is likely wrong in a problem.

use crate::points::put_points_line_if_any;
use crate::shown::ShowFault;
use std::io::Write;
use tt_game::{Line, has_move, has_value, sets_up};
use tt_marks::{chains, empties, points_beside, stones_in_danger, stones_of_colour};
use tt_sgf::{Node, PointSet};

/// The most points of a board that may well be a region as a whole.
const MOST_SMALL_BOARD_POINTS: usize = 10;

/// So often chains are looked for that hang together with the targets, by way of other chains. It bounds what a hint costs. The number
/// was chosen without a measurement.
const MOST_JOINED: usize = 8;

/// The empty points that nobody can fill, beside an empty point of the region or the chain of a target or of one of the defender's
/// stones in it.
fn empties_around_region(line: &Line) -> PointSet {
    let frame = line.frame();
    let board = line.present();
    let its_chains = chains(board, frame.defender, &frame.targets.or(&frame.region));
    let all_empties = empties(board);
    let inside = frame.region.and(&all_empties).or(&its_chains);
    all_empties
        .minus(&frame.region)
        .and(&points_beside(frame.size, &inside))
}

/// The attacker's stones outside the region, whose chains have all their liberties in it.
fn capturable_attackers(line: &Line) -> PointSet {
    let frame = line.frame();
    stones_in_danger(line.present(), frame.defender.other(), &frame.region).minus(&frame.region)
}

/// The defender's stones in or beside the region that a play may cut off from the targets: their chains haven't two liberties in common
/// with those of the targets, or with chains that hang together with these.
fn other_defender_stones(line: &Line) -> PointSet {
    let frame = line.frame();
    let board = line.present();
    let size = frame.size;
    let near = frame.region.or(&points_beside(size, &frame.region));
    let others = stones_of_colour(board, frame.defender).and(&near);
    let mut joined = chains(board, frame.defender, &frame.targets);
    for _time in 0..MOST_JOINED {
        let before = joined.copy();
        for number in 0..size.point_count() {
            let stone = size.point_numbered(number);
            if !others.has(stone) || joined.has(stone) {
                continue;
            }
            let chain = chains(board, frame.defender, &PointSet::empty().with(stone));
            let liberties = empties(board).and(&points_beside(size, &joined));
            if 1 < liberties.and(&points_beside(size, &chain)).count() {
                joined = joined.or(&chain);
            }
        }
        if joined.same(&before) {
            break;
        }
    }
    others.minus(&joined)
}

/// Writes the hints on the problem at a line behind the text: the empty points outside the region that are beside an empty
/// point of it, or beside a chain of the defender that has a target or a stone in it; the attacker's stones outside the region
/// whose chains have all their liberties in it; the defender's stones in or beside the region that a play may cut off from the targets;
/// and that the region is all of a board of more than 10 points.
pub fn put_hints(out: &mut Vec<u8>, line: &Line) -> Result<(), ShowFault> {
    let size = line.frame().size;
    let empties = empties_around_region(line);
    let words = b"hint: empty and not in the region, so that nobody can fill them:";
    put_points_line_if_any(out, size, words, &empties)?;
    let attackers = capturable_attackers(line);
    let words = b"hint: unlike T and not in the region, and can be taken by plays in it:";
    put_points_line_if_any(out, size, words, &attackers)?;
    let defenders = other_defender_stones(line);
    let words = b"hint: stones like T in or beside the region, of other chains:";
    put_points_line_if_any(out, size, words, &defenders)?;
    let count = size.point_count();
    if MOST_SMALL_BOARD_POINTS < count && usize::from(line.frame().region.count()) == count {
        out.extend_from_slice(b"hint: the region is the whole board\n")?;
    }
    Ok(())
}

/// Whether it is said who moves at the first of these nodes that has TR, or behind the last: by PL beside the last setup, or by a move
/// behind it.
fn is_side_to_move_given(nodes: &[Node]) -> bool {
    let mut said = false;
    for node in nodes {
        if sets_up(node) {
            said = has_value(node.props.as_slice(), b"PL");
        } else if has_move(node) {
            said = true;
        }
        if has_value(node.props.as_slice(), b"TR") {
            return said;
        }
    }
    said
}

/// Writes the line on a main line in which nobody says who moves behind the text.
pub fn put_missing_mover_line(out: &mut Vec<u8>, nodes: &[Node]) -> Result<(), ShowFault> {
    if !is_side_to_move_given(nodes) {
        out.extend_from_slice(b"hint: the setup has no PL, so Black is to move\n")?;
    }
    Ok(())
}

/// Whether these bytes, which open something, stand in a value without a `]` behind them.
fn is_opener_unclosed(opener: &[u8], value: &[u8]) -> bool {
    let mut found = false;
    for i in 0..value.len() {
        if value[i] == b']' {
            found = false;
        } else if value[i..].starts_with(opener) {
            found = true;
        }
    }
    found
}

/// Whether such bytes stand in a comment of these nodes.
fn is_some_comment_unclosed(nodes: &[Node], opener: &[u8]) -> bool {
    nodes.iter().any(|node| {
        node.props.as_slice().iter().any(|property| {
            property.ident.as_slice() == b"C".as_slice()
                && property
                    .values
                    .as_slice()
                    .iter()
                    .any(|value| is_opener_unclosed(opener, value.as_slice()))
        })
    })
}

/// Writes a line for each property and for the tree that a comment of a main line seems to have swallowed, since its `]` is missing,
/// behind the text. No line has a `(`, at which a reader would begin.
pub fn put_unclosed_comment_lines(out: &mut Vec<u8>, nodes: &[Node]) -> Result<(), ShowFault> {
    for opener in &[
        "PL[", "TR[", "SQ[", "AB[", "AW[", "SZ[", "GN[", "GM[", "KM[", "(;",
    ] {
        if is_some_comment_unclosed(nodes, opener.as_bytes()) {
            let words = if *opener == "(;" { "a tree" } else { *opener };
            writeln!(out, "hint: a comment holds {words}: is its ] missing?")?;
        }
    }
    Ok(())
}
