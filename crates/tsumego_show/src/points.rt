//! Points by their numbers, and their names.
ghost use Rattle.std.specs.Prelude.{◌<◌, ℕ, IfSome, MatchOption};
ghost use Rattle.tt_sgf.specs.Sizes.{point_count};
ghost use Rattle.tsumego_show.specs.Written.{HasName};

use crate::mode::PointName;
use crate::picture::{editor_column_letter, point_of_coordinates};
use crate::shown::ShowFault;
use std::io::Write;
use tt_game::Turn;
use tt_proof::put_turn;
use tt_sgf::{Point, PointSet, Size};

/// How points are written: as editors name them, by both names, as `C18=cb`, each with a blank in front; or as values of SGF.
#[derive(Clone, Copy, PartialEq, Eq)]
pub enum PointForm {
    Editor,
    Both,
    Value,
}

/// The point of a place, where the board has it.
pub fn point_of_name(size: Size, name: PointName) -> Option<Point>
    ensures on_board { IfSome result (λ q. q < point_count size) }
    ensures name { MatchOption result ((q : ℕ) → HasName size name q → ⊥) (HasName size name) }
{
    let (column, row) = match name {
        PointName::FromAbove(column, row) => (column, row),
        PointName::FromBelow(column, number) => {
            (column, usize::from(size.rows()).checked_sub(number)?)
        }
    };
    if column < usize::from(size.columns()) && row < usize::from(size.rows()) {
        return Some(point_of_coordinates(size, column as u16, row as u16));
    }
    None
}

/// Writes a point behind the text.
#[tactic(auto, using(crate::proofs::Sets::row_on_board))]
pub fn put_point(
    out: &mut Vec<u8>,
    size: Size,
    point: Point,
    form: PointForm,
) -> Result<(), ShowFault>
    requires { point < point_count size }
{
    let turn = Turn::Play(point);
    if form == PointForm::Value {
        out.push(b'[')?;
        put_turn(out, turn, size)?;
        return Ok(out.push(b']')?);
    }
    let letter = char::from(editor_column_letter(point.number() % size.columns()));
    let row = size.rows() - point.number() / size.columns();
    write!(out, " {letter}{row}")?;
    if form == PointForm::Both {
        out.push(b'=')?;
        put_turn(out, turn, size)?;
    }
    Ok(())
}

/// Writes the points of a set behind the text, row by row.
pub fn put_points(
    out: &mut Vec<u8>,
    size: Size,
    points: &PointSet,
    form: PointForm,
) -> Result<(), ShowFault> {
    for number in 0..size.point_count() {
        let point = size.point_numbered(number);
        if points.has(point) {
            put_point(out, size, point, form)?;
        }
    }
    Ok(())
}

/// Writes a line of these words and of the points of a set, by both names, behind the text, where the set has points.
pub fn put_points_line_if_any(
    out: &mut Vec<u8>,
    size: Size,
    words: &[u8],
    points: &PointSet,
) -> Result<(), ShowFault> {
    if points.count() == 0 {
        return Ok(());
    }
    out.extend_from_slice(words)?;
    put_points(out, size, points, PointForm::Both)?;
    Ok(out.push(b'\n')?)
}
