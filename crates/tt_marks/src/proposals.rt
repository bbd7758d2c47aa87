//! The group that is meant where nobody names one.

ghost use Rattle.std.specs.Prelude.{◌≡◌, ◌⊎◌, ◌↔◌, ℕ, ◌<◌, ◌≤◌, ◌≢◌, None, Some, IfSome, IfOk, IsTrue, MatchOption, false};
ghost use Rattle.std.specs.FinSet as set;
ghost use Rattle.tt_sgf.specs.Sizes.{point_count};
ghost use Rattle.tt_board.specs.Reach.{entry_at};
ghost use Rattle.tt_marks.specs.Reached.{Has};
ghost use Rattle.tt_marks.specs.Walls.{HasOtherStone, HasStone, IsOfInnerGroup};

use crate::enclosures::MOST_STONES;
use crate::regions::{group, is_inner, region, set_of};
use crate::walls::group_bits;
use crate::ways::Ways;
use std::alloc::Global;
use tt_board::{Board, Colour};
use tt_sgf::{Bits, NoMemory, Point, PointSet};

/// A stone of a group that may be meant, and the group's region, once its wall is closed.
#[derive(Drop)]
struct Candidate {
    stone: Point,
    region: PointSet,
}

/// The one with fewer points in its region, and of two with as many the first.
fn smaller(first: Option<Candidate>, second: Option<Candidate>) -> Option<Candidate>
    ensures { MatchOption result ((first ≡ None) × (second ≡ None))
        (λ m. (first ≡ Some m) ⊎ (second ≡ Some m)) }
{
    let Some(b) = second else {
        return first;
    };
    let Some(a) = first else {
        return Some(b);
    };
    if b.region.count() < a.region.count() {
        return Some(b);
    }
    Some(a)
}

/// The one whose region has the other's stone in it, where it's not the other way round, else the one with fewer points.
fn outer_or_smaller(first: Option<Candidate>, second: Option<Candidate>) -> Option<Candidate> {
    let Some(b) = second else {
        return first;
    };
    let Some(a) = first else {
        return Some(b);
    };
    let b_is_within = a.region.has(b.stone);
    let a_is_within = b.region.has(a.stone);
    if b_is_within && !a_is_within {
        return Some(a);
    }
    if a_is_within && !b_is_within {
        return Some(b);
    }
    smaller(Some(a), Some(b))
}

/// Whether a stone of this colour, other than the one that is named, stands on a point among these.
fn is_other_stone(
    board: &Board,
    colour: Colour,
    stone: Point,
    near: &PointSet,
    point: Point,
) -> bool
    requires { point < point_count board.now.size }
    ensures { IsTrue result
        ↔ ((point ≢ stone) × HasStone board.now.size board.now.points colour point × Has (set.contains near.now) point) }
{
    point != stone && near.has(point) && board.at(point) == Some(colour)
}

/// Whether a stone of this colour is the only one in its group and the region: then it's a stone of a wall, or a stone thrown in.
pub fn is_lone(board: &Board, colour: Colour, stone: Point, region: &PointSet) -> bool
    requires { stone < point_count board.now.size }
    ensures { result ≡ false
        ↔ HasOtherStone board.now.size board.now.points colour stone region.now }
{
    let size = board.size();
    let near = group(board, colour, stone).or(region);
    for number in 0..size.point_count() {
        if is_other_stone(board, colour, stone, &near, size.point_numbered(number)) {
            return false;
        }
    }
    true
}

/// The colour of the stone on a point, where it is the first of its group.
fn colour_if_first(board: &Board, stone: Point) -> Option<Colour>
    requires { stone < point_count board.now.size }
{
    let colour = board.at(stone)?;
    if group_bits(board, colour, stone).first_from(0) < usize::from(stone.number()) {
        return None;
    }
    Some(colour)
}

/// The group of a stone of this colour, where its region is closed and inner.
fn closed_candidate(board: &Board, colour: Colour, stone: Point) -> Option<Candidate>
    requires on_board { stone < point_count board.now.size }
    requires stands { entry_at board.now.points stone ≡ Some colour }
    ensures { MatchOption result (IsOfInnerGroup board.now.size board.now.points stone → ⊥)
        (λ m. IsOfInnerGroup board.now.size board.now.points m.stone) }
{
    let found = region(board, colour, stone);
    if !found.is_closed() {
        return None;
    }
    if !is_inner(board, &found.points) {
        return None;
    }
    Some(Candidate {
        stone,
        region: found.points,
    })
}

/// Whether the group of the stone on a point is enclosed, with an inner region.
pub(crate) fn is_of_inner_group(board: &Board, stone: Point) -> bool
    requires { stone < point_count board.now.size }
    ensures { IsOfInnerGroup board.now.size board.now.points stone → IsTrue result }
{
    match board.at(stone) {
        Some(colour) => closed_candidate(board, colour, stone).is_some(),
        None => false,
    }
}

/// The group of a stone of this colour, where it isn't a lone one, and so many stones close its wall, and fewer don't.
fn open_candidate(
    alloc: Global,
    board: &Board,
    colour: Colour,
    stone: Point,
    stones: usize,
) -> Result<Option<Candidate>, NoMemory>
    requires { stone < point_count board.now.size }
{
    let ways = Ways::of(board, colour, stone);
    if stones < ways.separate(&Bits::none(), stones.saturating_add(1)) {
        return Ok(None);
    }
    let enclosures = ways.enclosures_by(alloc, stones)?;
    let Some(best) = enclosures.first() else {
        return Ok(None);
    };
    if ways.do_fewer_close(alloc, stones)? {
        return Ok(None);
    }
    let region = set_of(board.size(), &best.region);
    if is_lone(board, colour, stone, &region) {
        return Ok(None);
    }
    Ok(Some(Candidate { stone, region }))
}

/// The best of the groups whose regions are closed and inner: all stones are tried, and the first of a group comes first.
fn best_closed(board: &Board) -> Option<Candidate>
    ensures { MatchOption result ((q : ℕ) → IsOfInnerGroup board.now.size board.now.points q → ⊥)
        (λ m. IsOfInnerGroup board.now.size board.now.points m.stone) }
{
    let size = board.size();
    let mut best = None;
    for number in 0..size.point_count() {
        let stone = size.point_numbered(number);
        if let Some(colour) = board.at(stone) {
            best = smaller(best, closed_candidate(board, colour, stone));
        }
    }
    best
}

/// The best of the groups whose walls so many stones close.
fn best_open(alloc: Global, board: &Board, stones: usize) -> Result<Option<Candidate>, NoMemory> {
    let size = board.size();
    let mut best = None;
    for number in 0..size.point_count() {
        let stone = size.point_numbered(number);
        if let Some(colour) = colour_if_first(board, stone) {
            let next = open_candidate(alloc, board, colour, stone, stones)?;
            best = outer_or_smaller(best, next);
        }
    }
    Ok(best)
}

/// The first stone of the best of the groups whose walls the fewest stones close.
fn open_stone(alloc: Global, board: &Board) -> Result<Option<Point>, NoMemory>
    ensures { IfOk result
        (λ found. IfSome found
        (λ p. (p < point_count board.now.size) × (entry_at board.now.points p ≢ None))) }
{
    for stones in 1..=MOST_STONES {
        if let Some(found) = best_open(alloc, board, stones)? {
            let stone = found.stone;
            if board.size().holds(stone) && board.at(stone).is_some() {
                return Ok(Some(stone));
            }
        }
    }
    Ok(None)
}

/// The first stone of the group that seems to be meant: of those with a closed region the one with the smallest; else of those whose
/// walls the fewest stones close, without lone stones, the one with the smallest region, and of groups in each other's region the outer.
/// Where a group is enclosed with an inner region, it is one of those.
#[tactic(auto, using(crate::proofs::EnclosedLemmas::inner_proposed, crate::proofs::EnclosedLemmas::open_proposed))]
pub fn proposed_stone(alloc: Global, board: &Board) -> Result<Option<Point>, NoMemory>
    ensures { IfOk result
        (λ found. MatchOption found ((q : ℕ) → IsOfInnerGroup board.now.size board.now.points q → ⊥)
        (λ p. (p < point_count board.now.size) × (entry_at board.now.points p ≢ None)
        × ((q : ℕ) → IsOfInnerGroup board.now.size board.now.points q
        → IsOfInnerGroup board.now.size board.now.points p))) }
{
    if let Some(found) = best_closed(board) {
        return Ok(Some(found.stone));
    }
    let found = open_stone(alloc, board)?;
    Ok(found)
}
