//! The picture of a problem.
ghost use Rattle.std.specs.Prelude.{◌≡◌, ◌+◌, ◌*◌, ◌<◌};
ghost use Rattle.tt_sgf.specs.Sizes.{point_count};

use crate::shown::ShowFault;
use std::io::Write;
use tt_board::{Board, Colour};
use tt_game::{Frame, Line};
use tt_sgf::{Point, PointSet, Size};

/// The letters of columns as SGF and as editors have them, who leave out I.
pub const SGF_LETTERS: &[u8; 19] = b"abcdefghijklmnopqrs";

pub const EDITOR_LETTERS: &[u8; 19] = b"ABCDEFGHJKLMNOPQRST";

/// What is shown of a point.
fn point_symbol(frame: &Frame, board: &Board, point: Point) -> u8
    requires { point < point_count board.now.size }
{
    let in_region = frame.region.has(point);
    let symbol = match board.at(point) {
        None => return if in_region { b'+' } else { b'.' },
        Some(_) if frame.targets.has(point) => b'T',
        Some(Colour::Black) => b'X',
        Some(Colour::White) => b'O',
    };
    if in_region {
        symbol.to_ascii_lowercase()
    } else {
        symbol
    }
}

/// The point of a column and a row of the board.
pub fn point_of_coordinates(size: Size, column: u16, row: u16) -> Point
    requires column { column < size.columns }
    requires row { row < size.rows }
    ensures value { result ≡ row * size.columns + column }
    ensures on_board { result < point_count size }
{
    let Some(point) = size.point(row * size.columns() + column) else {
        unreachable!();
    };
    point
}

/// The letter of a column as editors have it.
pub fn editor_column_letter(column: u16) -> u8
    requires { column < 19 }
{
    EDITOR_LETTERS[usize::from(column)]
}

/// Writes the line of the columns' letters behind the text.
fn put_column_letters(out: &mut Vec<u8>, size: Size, letters: &[u8; 19]) -> Result<(), ShowFault> {
    out.push(b' ')?;
    for letter in letters.iter().take(usize::from(size.columns())) {
        out.push(b' ')?;
        out.push(*letter)?;
    }
    Ok(out.push(b'\n')?)
}

/// Writes a row of the board behind the text.
fn put_row(out: &mut Vec<u8>, frame: &Frame, board: &Board, row: u16) -> Result<(), ShowFault>
    requires { row < board.now.size.rows }
{
    let size = board.size();
    out.push(b'a' + row as u8)?;
    for column in 0..size.columns() {
        out.push(b' ')?;
        out.push(point_symbol(frame, board, point_of_coordinates(size, column, row)))?;
    }
    let number = size.rows() - row;
    Ok(writeln!(out, " {number}")?)
}

/// Writes a board with the marks of a frame behind the text.
pub fn put_board(out: &mut Vec<u8>, frame: &Frame, board: &Board) -> Result<(), ShowFault> {
    put_column_letters(out, board.size(), SGF_LETTERS)?;
    for row in 0..board.size().rows() {
        put_row(out, frame, board, row)?;
    }
    put_column_letters(out, board.size(), EDITOR_LETTERS)
}

/// The frame of a board without marks.
pub fn unmarked_frame(size: Size) -> Frame {
    Frame {
        size,
        region: PointSet::empty(),
        targets: PointSet::empty(),
        defender: Colour::Black,
    }
}

/// The name of a colour.
pub fn colour_name(colour: Colour) -> &'static str {
    match colour {
        Colour::Black => "Black",
        Colour::White => "White",
    }
}

/// Writes how many positions came before the present one, where any did, behind the text.
fn put_earlier_position_count(out: &mut Vec<u8>, line: &Line) -> Result<(), ShowFault> {
    match line.history().len().saturating_sub(1) {
        0 => Ok(()),
        1 => Ok(out.extend_from_slice(b", after 1 earlier position")?),
        count => Ok(write!(out, ", after {count} earlier positions")?),
    }
}

/// Writes the picture of the problem at a line behind the text: who moves, how many positions came before, and the board with
/// the letters of SGF above and on the left, and the coordinates of editors below and on the right. T is a target, X and O are
/// stones of Black and White, small letters are stones on a point of the region, + is an empty point of the region and .
/// another one.
pub fn put_picture(out: &mut Vec<u8>, line: &Line) -> Result<(), ShowFault> {
    let mover = colour_name(line.frame().colour_of(line.to_move()));
    let defender = colour_name(line.frame().defender);
    write!(out, "{mover} to move, T is {defender}")?;
    put_earlier_position_count(out, line)?;
    out.push(b'\n')?;
    put_board(out, line.frame(), line.present())
}
