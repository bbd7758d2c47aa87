//! Stones of the other colour that close the wall around a group: what `enclosures` finds is tried on the board.

ghost use Rattle.std.specs.Prelude.{◌≡◌, ℕ, ◌<◌, ◌≤◌, All, Some, IfSome, IfOk, IsTrue, MatchOption, true};
ghost use Rattle.tt_marks.specs.declared.enclosures.TheConstants.{MOST_STONES};
ghost use Rattle.std.specs.FinSet as set;
ghost use Rattle.tt_sgf.specs.Sizes.{point_count};
ghost use Rattle.tt_board.specs.Reach.{entry_at};
ghost use Rattle.tt_board.specs.Setup.{AllHaveLiberties};
ghost use Rattle.tt_marks.specs.Closings.{AreClosings, AreEnclosing, ClosesWall, EnclosesAlone, HaveAsMany, with_stones};

use crate::bit_sets::count;
use crate::enclosures::MOST_STONES;
use crate::proposals::is_of_inner_group;
use crate::regions::{empties, is_inner, is_walled_in, region, set_of};
use crate::ways::Ways;
use std::alloc::Global;
use tt_board::{Board, Colour};
use tt_sgf::{NoMemory, Point, PointSet};

/// Stones that close the wall around a group.
#[derive(Drop)]
pub struct Closing {
    /// The points of the stones, of the other colour than the group's: 1 to `MOST_STONES`.
    pub stones: PointSet,
    /// The region of the group once they stand.
    pub region: PointSet,
}

/// The board with stones of a colour added, where each stone has a liberty then.
pub fn board_with_stones(board: &Board, colour: Colour, stones: &PointSet) -> Option<Board>
    ensures { let points = with_stones board.now.size board.now.points colour stones.now in
        MatchOption result
        (AllHaveLiberties board.now.size points → ⊥)
        (λ b. (b ≡ record { size = board.now.size; points = points })
        × AllHaveLiberties board.now.size points) }
{
    let none = PointSet::empty();
    let made = match colour {
        Colour::Black => board.set_up(stones, &none, &none),
        Colour::White => board.set_up(&none, stones, &none),
    };
    match made {
        Ok(next) => Some(next),
        Err(_) => None,
    }
}

/// Whether all points of a set are of another.
fn are_among(points: &PointSet, others: &PointSet) -> bool
    ensures { IsTrue result → (p : ℕ) → set.contains points.now p ≡ true
        → set.contains others.now p ≡ true }
{
    points.minus(others).same(&PointSet::empty())
}

/// Whether stones of the other colour on these points enclose the group of a stone of this colour: it is walled in then.
fn are_enclosing(board: &Board, colour: Colour, stone: Point, points: &PointSet) -> bool
    requires { stone < point_count board.now.size }
    ensures { AreEnclosing board.now.size board.now.points colour stone points.now → IsTrue result }
{
    let Some(next) = board_with_stones(board, colour.other(), points) else {
        return false;
    };
    is_walled_in(&next, colour, stone)
}

/// Whether each of these stones is needed: the others don't enclose the group of a stone of this colour.
fn are_needed(board: &Board, colour: Colour, stone: Point, stones: &PointSet) -> bool
    requires { stone < point_count board.now.size }
    ensures { IsTrue result → (p : ℕ) → p < point_count board.now.size → set.contains stones.now p ≡ true
        → AreEnclosing board.now.size board.now.points colour stone (set.remove stones.now p) → ⊥ }
{
    let size = board.size();
    for number in 0..size.point_count() {
        let point = size.point_numbered(number);
        if stones.has(point) {
            let others = stones.minus(&PointSet::empty().with(point));
            if are_enclosing(board, colour, stone, &others) {
                return false;
            }
        }
    }
    true
}

/// Whether a stone of the other colour on an empty point encloses the group of a stone of this colour, with an inner region.
fn is_one_enough(board: &Board, colour: Colour, stone: Point, point: Point) -> bool
    requires { stone < point_count board.now.size }
    ensures { EnclosesAlone board.now.size board.now.points colour stone point → IsTrue result }
{
    let one = PointSet::empty().with(point);
    match board_with_stones(board, colour.other(), &one) {
        Some(next) => is_of_inner_group(&next, stone),
        None => false,
    }
}

/// How many stones may close the wall around the group of a stone of this colour: one where one is enough, else `MOST_STONES`.
fn stones_needed(board: &Board, colour: Colour, stone: Point) -> usize
    requires { stone < point_count board.now.size }
    ensures most { result ≤ MOST_STONES }
    ensures fewest { 1 < result → (p : ℕ)
        → EnclosesAlone board.now.size board.now.points colour stone p → ⊥ }
{
    let size = board.size();
    for number in 0..size.point_count() {
        let point = size.point_numbered(number);
        if board.at(point).is_none() && is_one_enough(board, colour, stone, point) {
            return 1;
        }
    }
    MOST_STONES
}

/// The closing by these stones, where they close the wall around the group of a stone of this colour, and are at most so many.
fn closing_by(
    board: &Board,
    colour: Colour,
    stone: Point,
    stones: &PointSet,
    most: usize,
) -> Option<Closing>
    requires on_board { stone < point_count board.now.size }
    requires stands { entry_at board.now.points stone ≡ Some colour }
    requires most { most ≤ MOST_STONES }
    requires fewest { 1 < most → (p : ℕ)
        → EnclosesAlone board.now.size board.now.points colour stone p → ⊥ }
    ensures { IfSome result
        (λ m. ClosesWall board.now.size board.now.points colour stone m.stones m.region) }
{
    let count = usize::from(stones.count());
    if count == 0 || count > most {
        return None;
    }
    if !are_among(stones, &empties(board)) {
        return None;
    }
    let next = board_with_stones(board, colour.other(), stones)?;
    let found = region(&next, colour, stone);
    if !found.is_closed() {
        return None;
    }
    if !are_among(stones, &found.wall) {
        return None;
    }
    if !is_inner(&next, &found.points) {
        return None;
    }
    if !are_needed(board, colour, stone, stones) {
        return None;
    }
    Some(Closing {
        stones: stones.copy(),
        region: found.points,
    })
}

/// Whether these are as many stones as close the wall in each of these ways.
fn are_as_many(found: &[Closing], stones: &PointSet) -> bool
    ensures { IsTrue result → HaveAsMany found.now
        → All (λ m. set.len m.stones ≡ set.len stones.now) found.now }
{
    match found.first() {
        Some(first) => first.stones.count() == stones.count(),
        None => true,
    }
}

/// Lists the closing by these stones, where they close the wall, are at most so many, and as many as in the others.
fn list_if_closing(
    board: &Board,
    colour: Colour,
    stone: Point,
    stones: &PointSet,
    most: usize,
    found: &mut Vec<Closing>,
) -> Result<(), NoMemory>
    requires on_board { stone < point_count board.now.size }
    requires stands { entry_at board.now.points stone ≡ Some colour }
    requires most { most ≤ MOST_STONES }
    requires fewest { 1 < most → (p : ℕ)
        → EnclosesAlone board.now.size board.now.points colour stone p → ⊥ }
    ensures { AreClosings board.now.size board.now.points colour stone found.old.items
        → AreClosings board.now.size board.now.points colour stone found.new.items }
{
    let Some(closing) = closing_by(board, colour, stone, stones, most) else {
        return Ok(());
    };
    if are_as_many(found.as_slice(), &closing.stones) {
        found.push(closing)?;
    }
    Ok(())
}

/// The stones that close the wall around the group of a stone of this colour: at most `MOST_STONES` together, and
/// as many in each closing. Several are taken only where no stone alone is enough, and each is needed. The best come first: those of which
/// fewest are beside a stone of the group's colour, then those that leave the group most room.
pub fn closings(
    alloc: Global,
    board: &Board,
    colour: Colour,
    stone: Point,
) -> Result<Vec<Closing>, NoMemory>
    requires on_board { stone < point_count board.now.size }
    requires stands { entry_at board.now.points stone ≡ Some colour }
    ensures { IfOk result (λ v. AreClosings board.now.size board.now.points colour stone v.items) }
{
    let enclosures = Ways::of(board, colour, stone).fewest_enclosures(alloc)?;
    let most = if enclosures
        .iter()
        .any(|enclosure| 1 < count(&enclosure.stones))
    {
        stones_needed(board, colour, stone)
    } else {
        1
    };
    let mut found = Vec::new(alloc);
    for enclosure in enclosures.as_slice() {
        let stones = set_of(board.size(), &enclosure.stones);
        list_if_closing(board, colour, stone, &stones, most, &mut found)?;
    }
    Ok(found)
}
