//! What one value says: a number, a size, or a point or a pass. No call takes memory.

ghost use Rattle.std.specs.Prelude.{◌≡◌, ℕ, ◌-◌, ◌<◌, ◌↔◌, true, false, [], ◌∷◌, Some, None, MatchOption};
ghost use Rattle.tt_sgf.specs.Bytes.{lower_a};
ghost use Rattle.tt_sgf.specs.declared.size.PointOrPass.{PointOrPass};
ghost use Rattle.tt_sgf.specs.declared.size.Size.{Size};
ghost use Rattle.tt_sgf.specs.Values.{IsUnsignedNumber, IsPointOrPass, trimmed, value_of_some_digits, number_of, numeral_of, before_colon};
ghost use Rattle.tt_sgf.specs.Values.{behind_colon, size_of, IsBoardSize, without_end, are_letters_on_board, lettered_point, point_of};

use crate::size::{PointOrPass, Size, point_from_number};
use crate::tokens::{is_blank, is_digit, skip_blanks};

/// Without the white space at the end.
fn trim_end(bytes: &[u8]) -> &[u8]
    ensures { result.now ≡ without_end bytes.now }
{
    let mut rest = bytes;
    while let Some((last, before)) = rest.split_last() {
        if !is_blank(*last) {
            break;
        }
        rest = before;
    }
    rest
}

/// Without the white space (bytes 9 to 13 and 32) at both ends.
pub fn trim(bytes: &[u8]) -> &[u8]
    ensures { result.now ≡ trimmed bytes.now }
{
    trim_end(skip_blanks(bytes))
}

/// What digits are worth: none where there is no digit, another byte, or more than 65,535.
fn read_digits(bytes: &[u8]) -> Option<u16>
    ensures { result ≡ value_of_some_digits bytes.now }
{
    if bytes.is_empty() {
        return None;
    }
    let mut value: u32 = 0;
    for b in bytes {
        if !is_digit(*b) {
            return None;
        }
        value = value * 10 + u32::from(*b - b'0');
        if value > 65_535 {
            return None;
        }
    }
    Some(value as u16)
}

/// The number that a text is: an optional `+` and digits.
fn numeral(text: &[u8]) -> Option<u16>
    ensures { result ≡ numeral_of text.now }
{
    match text.split_first() {
        Some((b'+', digits)) => read_digits(digits),
        _ => read_digits(text),
    }
}

/// The number that a value is: an optional `+` and digits, with white space around them.
#[tactic(auto, unfolding(crate::specs::Values::number_of))]
fn read_number(bytes: &[u8]) -> Option<u16>
    ensures { result ≡ number_of bytes.now }
{
    numeral(trim(bytes))
}

/// The number that a value is: an optional `+`, then one or more digits, with white space around them. Leading zeros
/// are accepted. None for every other value, one above 65,535 among them.
pub fn number(bytes: &[u8]) -> Option<u16>
    ensures reads { result ≡ number_of bytes.now }
    ensures value { (n : ℕ) → (result ≡ Some n) ↔ IsUnsignedNumber bytes.now n }
{
    read_number(bytes)
}

/// The column and the row of two letters, where they are on the board.
pub(crate) fn read_coordinates(column: u8, row: u8, size: Size) -> Option<(u16, u16)>
    ensures { MatchOption result (are_letters_on_board size column row ≡ false)
        (λ p. (are_letters_on_board size column row ≡ true) × (p.0 ≡ column - lower_a)
        × (p.1 ≡ row - lower_a) × (p.0 < size.columns) × (p.1 < size.rows)) }
{
    if column < b'a' || row < b'a' {
        return None;
    }
    let across = u16::from(column - b'a');
    let down = u16::from(row - b'a');
    if across >= size.columns() || down >= size.rows() {
        return None;
    }
    Some((across, down))
}

/// The point of two letters, where the board has it.
fn point_on_board(column: u8, row: u8, size: Size) -> Option<PointOrPass>
    ensures { result ≡ lettered_point size column row }
{
    let (across, down) = read_coordinates(column, row, size)?;
    Some(PointOrPass::On(point_from_number(down * size.columns() + across)))
}

/// The point or the pass that two letters are.
#[tactic(auto, unfolding(crate::specs::Values::point_of))]
fn point_of_letters(column: u8, row: u8, size: Size) -> Option<PointOrPass>
    ensures { result ≡ point_of size (column ∷ row ∷ []) }
{
    if column == b't' && row == b't' {
        return Some(PointOrPass::Pass);
    }
    point_on_board(column, row, size)
}

/// The point or the pass that a text is, with no white space around it.
fn read_point(text: &[u8], size: Size) -> Option<PointOrPass>
    ensures { result ≡ point_of size text.now }
{
    match text {
        [] => Some(PointOrPass::Pass),
        [_] => None,
        [column, row] => point_of_letters(*column, *row, size),
        [_, _, _, ..] => None,
    }
}

/// The point or the pass that a value is, with white space around it. A point is two letters from `a` to `s`, column then
/// row from the upper left, both on the board; a pass is nothing, or `tt`. None for every other value.
pub fn point(bytes: &[u8], size: Size) -> Option<PointOrPass>
    ensures reads { result ≡ point_of size (trimmed bytes.now) }
    ensures value { (q : PointOrPass) → (result ≡ Some q) ↔ IsPointOrPass size bytes.now q }
{
    read_point(trim(bytes), size)
}

/// What stands before the first colon, and what stands behind it.
fn around_colon(text: &[u8]) -> Option<(&[u8], &[u8])>
    ensures { MatchOption result (behind_colon text.now ≡ None)
        (λ r. (r.0.now ≡ before_colon text.now) × (behind_colon text.now ≡ Some r.1.now)) }
{
    for (i, b) in text.iter().enumerate() {
        if *b == b':' {
            return Some((&text[..i], &text[i + 1..]));
        }
    }
    None
}

/// The size that a value is.
#[tactic(auto, unfolding(crate::specs::Values::size_of))]
fn read_size(bytes: &[u8]) -> Option<Size>
    ensures { result ≡ size_of bytes.now }
{
    let text = trim(bytes);
    let Some((columns, rows)) = around_colon(text) else {
        let side = numeral(text)?;
        return Size::new(side, side);
    };
    let columns = numeral(columns)?;
    let rows = numeral(rows)?;
    Size::new(columns, rows)
}

/// The size that a value is: a number for both sides, or columns and rows with a `:` and no white space between them.
/// White space at both ends of the value is skipped. None for every other value, and where a side is not 1 to 19.
pub fn board_size(bytes: &[u8]) -> Option<Size>
    ensures reads { result ≡ size_of bytes.now }
    ensures value { (s : Size) → (result ≡ Some s) ↔ IsBoardSize bytes.now s }
{
    read_size(bytes)
}
