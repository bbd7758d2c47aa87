//! Writes why no marks are proposed, and how the wall may be closed.
ghost use Rattle.std.specs.Prelude.{◌≡◌, ◌<◌, Some, IfSome};
ghost use Rattle.tt_sgf.specs.Sizes.{point_count};
ghost use Rattle.tt_board.specs.Reach.{entry_at};

use crate::picture::colour_name;
use crate::points::{PointForm, put_point, put_points, put_points_line_if_any};
use crate::shown::ShowFault;
use std::alloc::Global;
use std::io::Write;
use tt_board::{Board, Colour};
use tt_marks::{
    Closing, FEWEST_ENCLOSED_POINTS, MOST_ENCLOSED_POINTS, closings, is_walled_in, region,
    stones_of_colour, wall_in_danger, ways_out,
};
use tt_sgf::{Point, Size};

/// So many ways to close a wall are listed; of more their number is said.
const MOST_LISTED_WAYS: usize = 30;

/// Writes the name of the chain of a stone of this colour behind the text.
fn put_chain_name(
    out: &mut Vec<u8>,
    size: Size,
    colour: Colour,
    stone: Point,
) -> Result<(), ShowFault>
    requires { stone < point_count size }
{
    let name = colour_name(colour);
    write!(out, "the {name} chain of")?;
    put_point(out, size, stone, PointForm::Both)
}

/// Writes the stones of ways to close a wall behind the text, way by way, and a newline.
pub fn put_ways(
    out: &mut Vec<u8>,
    size: Size,
    ways: &[Closing],
    between: &[u8],
) -> Result<(), ShowFault> {
    for i in 0..ways.len() {
        if i == MOST_LISTED_WAYS {
            let more = ways.len() - MOST_LISTED_WAYS;
            return Ok(writeln!(out, ", and {more} more")?);
        }
        if 0 < i {
            out.extend_from_slice(between)?;
        }
        put_points(out, size, &ways[i].stones, PointForm::Both)?;
    }
    Ok(out.push(b'\n')?)
}

/// Writes that stones of this colour close the wall in these ways, the best first, behind the text.
fn put_how_to_close(
    out: &mut Vec<u8>,
    size: Size,
    colour: Colour,
    ways: &[Closing],
    stones: u16,
) -> Result<(), ShowFault> {
    let name = colour_name(colour);
    let several = "stones enclose it in one of these ways:";
    let (count, words, between) = match stones {
        1 => ("a", "stone on one of these encloses it:", b"".as_slice()),
        2 => ("two", several, b",".as_slice()),
        _ => ("three", several, b",".as_slice()),
    };
    write!(out, "{count} {name} {words}")?;
    put_ways(out, size, ways, between)
}

/// Writes how the wall around the group of a stone of this colour may be closed behind the text: by which stones of the other colour or,
/// where none were found, where the group leads on.
fn put_how_to_go_on(
    alloc: Global,
    out: &mut Vec<u8>,
    board: &Board,
    colour: Colour,
    stone: Point,
) -> Result<(), ShowFault>
    requires on_board { stone < point_count board.now.size }
    requires stands { entry_at board.now.points stone ≡ Some colour }
{
    let ways = closings(alloc, board, colour, stone)?;
    if let Some(best) = ways.first() {
        let count = best.stones.count();
        return put_how_to_close(out, board.size(), colour.other(), ways.as_slice(), count);
    }
    let leading = ways_out(board, colour, stone);
    if leading.count() == 0 {
        return Ok(out.extend_from_slice(b"mark it by hand\n")?);
    }
    let words = b"follow these to gaps, if there are any, or mark by hand:";
    put_points_line_if_any(out, board.size(), words, &leading)
}

/// Writes the stones around a group that plays within can take, so that they are of no wall, behind the text. Others may wall it in.
pub fn put_wall_in_danger_line(
    out: &mut Vec<u8>,
    board: &Board,
    point: &Option<Point>,
) -> Result<(), ShowFault>
    requires { IfSome point.now (λ q. q < point_count board.now.size) }
{
    let Some(stone) = *point else {
        return Ok(());
    };
    let Some(colour) = board.at(stone) else {
        return Ok(());
    };
    put_points_line_if_any(
        out,
        board.size(),
        b"hint: plays inside can take these stones around the group, so they don't wall it in:",
        &wall_in_danger(board, colour, stone),
    )
}

/// Writes how many points the region of the chain of a stone of this colour has, or how its wall may be closed, behind the text.
fn put_why_unmarked_chain(
    alloc: Global,
    out: &mut Vec<u8>,
    board: &Board,
    colour: Colour,
    stone: Point,
) -> Result<(), ShowFault>
    requires on_board { stone < point_count board.now.size }
    requires stands { entry_at board.now.points stone ≡ Some colour }
{
    put_chain_name(out, board.size(), colour, stone)?;
    if is_walled_in(board, colour, stone) {
        let count = region(board, colour, stone).points.count();
        return Ok(writeln!(
            out,
            " is enclosed with {count}, not with {FEWEST_ENCLOSED_POINTS} to {MOST_ENCLOSED_POINTS} points: mark it by hand"
        )?);
    }
    write!(
        out,
        " is not enclosed with {FEWEST_ENCLOSED_POINTS} to {MOST_ENCLOSED_POINTS} points: "
    )?;
    put_how_to_go_on(alloc, out, board, colour, stone)
}

/// Writes why no mark is proposed for a point, where the board has it, behind the text.
pub fn put_why_unmarked_at_point(
    alloc: Global,
    out: &mut Vec<u8>,
    board: &Board,
    point: &Option<Point>,
) -> Result<(), ShowFault>
    requires { IfSome point.now (λ q. q < point_count board.now.size) }
{
    let size = board.size();
    let Some(point) = *point else {
        let columns = size.columns();
        let rows = size.rows();
        return Ok(writeln!(
            out,
            "the board has no such point: it is {columns} by {rows}"
        )?);
    };
    if let Some(colour) = board.at(point) {
        return put_why_unmarked_chain(alloc, out, board, colour, point);
    }
    out.extend_from_slice(b"no stone stands on")?;
    put_point(out, size, point, PointForm::Both)?;
    Ok(out.push(b'\n')?)
}

/// Writes that the chain of a stone of this colour may be meant, and how its wall may be closed, behind the text.
fn put_chain_that_may_be_meant(
    alloc: Global,
    out: &mut Vec<u8>,
    board: &Board,
    colour: Colour,
    stone: Point,
) -> Result<(), ShowFault>
    requires on_board { stone < point_count board.now.size }
    requires stands { entry_at board.now.points stone ≡ Some colour }
{
    out.extend_from_slice(b"; it may be ")?;
    put_chain_name(out, board.size(), colour, stone)?;
    let found = region(board, colour, stone);
    if found.is_closed() {
        let count = found.points.count();
        return Ok(writeln!(
            out,
            ": it is enclosed with {count}, and most empty points are inside: name it to have it marked"
        )?);
    }
    out.extend_from_slice(b": ")?;
    put_how_to_go_on(alloc, out, board, colour, stone)
}

/// Writes that no group is enclosed, and how the wall may be closed around the one that seems to be meant; or that there is no wall,
/// behind the text.
pub fn put_why_no_group_enclosed(
    alloc: Global,
    out: &mut Vec<u8>,
    board: &Board,
    point: &Option<Point>,
) -> Result<(), ShowFault>
    requires { IfSome point.now (λ q. q < point_count board.now.size) }
{
    let has_blacks = 0 < stones_of_colour(board, Colour::Black).count();
    let has_whites = 0 < stones_of_colour(board, Colour::White).count();
    if !has_blacks || !has_whites {
        return Ok(out.extend_from_slice(match (has_blacks, has_whites) {
            (true, _) => b"no White stone is on the board, so there is no wall\n".as_slice(),
            (_, true) => b"no Black stone is on the board, so there is no wall\n",
            _ => b"no stone is on the board\n",
        })?);
    }
    write!(
        out,
        "no group was found that is enclosed with {FEWEST_ENCLOSED_POINTS} to {MOST_ENCLOSED_POINTS} points: close the wall, or name a stone of the group"
    )?;
    if let Some(stone) = *point {
        if let Some(colour) = board.at(stone) {
            return put_chain_that_may_be_meant(alloc, out, board, colour, stone);
        }
    }
    Ok(out.push(b'\n')?)
}
