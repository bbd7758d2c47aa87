//! Point lists: values that name a point or a rectangle of points each (SGF FF[4], compressed point lists).

ghost use Rattle.std.specs.Prelude.{◌≡◌, ℕ, ◌-◌, ◌*◌, ◌<◌, ◌↔◌, true, false, ◌&&◌, ◌||◌, nat_lt, OnOk, OnErr, IfOk, MatchOption, MatchResult, Some, None};
ghost use Rattle.std.specs.FinSet as set;
ghost use Rattle.tt_sgf.specs.Bytes.{lower_a};
ghost use Rattle.tt_sgf.specs.PointLists.{SomeEntryCovers, AreEntries, rectangle_between, rectangle_of_text, in_rectangle, set_of};

use crate::faults::BadPoint;
use crate::nodes::small_bytes::SmallBytes;
use crate::sets::PointSet;
use crate::size::{Size, point_from_number};
use crate::value_kinds::{read_coordinates, trim};

/// A rectangle of points: its first and its last column and row, from 0.
#[derive(Clone, Copy)]
struct Rectangle {
    left: u16,
    right: u16,
    top: u16,
    bottom: u16,
}

/// The rectangle that a text names by a point or by two opposite corners.
fn read_rectangle(text: &[u8], size: Size) -> Option<Rectangle>
    ensures { result ≡ rectangle_of_text size text.now }
{
    if text.len() == 2 {
        let (column, row) = read_coordinates(text[0], text[1], size)?;
        return Some(rectangle_between(column, row, column, row));
    }
    if text.len() == 5 && text[2] == b':' {
        let (column, row) = read_coordinates(text[0], text[1], size)?;
        let (other_column, other_row) = read_coordinates(text[3], text[4], size)?;
        return Some(rectangle_between(column, row, other_column, other_row));
    }
    None
}

/// The rectangle with these two points as opposite corners, whichever they are.
fn rectangle_between(column: u16, row: u16, other_column: u16, other_row: u16) -> Rectangle
    ensures { result ≡ rectangle_between column row other_column other_row }
{
    Rectangle {
        left: column.min(other_column),
        right: column.max(other_column),
        top: row.min(other_row),
        bottom: row.max(other_row),
    }
}

/// Whether the point of this number is in the rectangle.
#[tactic(auto, unfolding(crate::specs::PointLists::in_rectangle))]
fn is_in_rectangle(e: Rectangle, number: u16, columns: u16) -> bool
    requires { 0 < columns }
    ensures { result ≡ in_rectangle columns e number }
{
    let column = number % columns;
    let row = number / columns;
    e.left <= column && column <= e.right && e.top <= row && row <= e.bottom
}

/// The set with the points of the rectangle.
fn with_rectangle(points: &PointSet, e: Rectangle, size: Size) -> PointSet
    ensures { (q : ℕ) → set.contains result q
        ≡ (set.contains points.now q || (nat_lt q (size.columns * size.rows) && in_rectangle size.columns e q)) }
{
    let mut made = points.copy();
    for number in 0..size.columns() * size.rows() {
        if is_in_rectangle(e, number, size.columns()) {
            made = made.with(point_from_number(number));
        }
    }
    made
}

/// The set of all points that the values name together.
///
/// Each value is a point, or two points with `:` between them, which are opposite corners of a rectangle in either pair
/// and either order; white space at both ends of a value is skipped. A point may be named twice. An empty value and `tt`
/// name no point. Takes no memory.
///
/// # Errors
/// `BadPoint` exactly where some value names no point or rectangle of the board.
pub fn point_set(values: &[SmallBytes], size: Size) -> Result<PointSet, BadPoint>
    ensures reads { MatchResult result
        (λ s. set_of size values.now ≡ Some s) (λ _. set_of size values.now ≡ None) }
    ensures covered { IfOk result (λ s. (p : ℕ)
        → (set.contains s p ≡ true) ↔ SomeEntryCovers size values.now p) }
    ensures ok { OnOk result (AreEntries size values.now) }
    ensures bad { OnErr result (AreEntries size values.now → ⊥) }
{
    let mut points = PointSet::empty();
    for v in values {
        let Some(e) = read_rectangle(trim(v.as_slice()), size) else {
            return Err(BadPoint);
        };
        points = with_rectangle(&points, e, size);
    }
    Ok(points)
}
