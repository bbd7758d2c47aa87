//! What the properties of a node say.

ghost use Rattle.std.specs.Prelude.{◌≡◌, ℕ, ◌<◌, ◌≤◌, ◌↔◌, ◌∷◌, [], List, length, min, nat_le, ◌+◌, MatchOption};
ghost use Rattle.std.specs.FinSet as set;
ghost use Rattle.tt_sgf.specs.PointLists.{set_of};
ghost use Rattle.tt_game.specs.Nodes.{values_of, ReadsSet, colour_of_letter, mover_of_values, PL, in_two_sets, has_some_value, is_setup, move_count, is_go, size_or_default, GM, SZ};
ghost use Rattle.tt_sgf.specs.Values.{after_blanks};

use tt_board::Colour;
use tt_sgf::{
    BadPoint, MOST_SIDE, Node, PointSet, Property, Size, board_size, number, point_set, skip_blanks,
};

/// The union of the sets of points that the properties of this name give (SGF FF[4], "list of point").
///
/// # Errors
///
/// A value that names no point or rectangle of the board.
pub(crate) fn named_set(
    properties: &[Property],
    name: &[u8],
    size: Size,
) -> Result<PointSet, BadPoint>
    ensures { ReadsSet result (set_of size (values_of name.now properties.now)) }
{
    let mut points = PointSet::empty();
    let mut rest = properties;
    while let Some((property, behind)) = rest.split_first() {
        if property.ident.as_slice() == name {
            let Ok(more) = point_set(property.values.as_slice(), size) else {
                return Err(BadPoint);
            };
            points = points.or(&more);
        }
        rest = behind;
    }
    Ok(points)
}

/// The first value of the properties of this name.
pub fn first_value<'a>(properties: &'a [Property], name: &[u8]) -> Option<&'a [u8]>
    ensures { MatchOption result (values_of name.now properties.now ≡ [])
        (λ v. (more : List (List ℕ)) × (values_of name.now properties.now ≡ v.now ∷ more)) }
{
    let mut rest = properties;
    while let Some((property, behind)) = rest.split_first() {
        if property.ident.as_slice() == name {
            if let Some((value, _)) = property.values.as_slice().split_first() {
                return Some(value.as_slice());
            }
        }
        rest = behind;
    }
    None
}

/// How many values the properties of this name have, or 2 where they have more.
pub(crate) fn count_values_to_two(properties: &[Property], name: &[u8]) -> usize
    ensures { result ≡ min 2 (length (values_of name.now properties.now)) }
{
    let mut count: usize = 0;
    let mut rest = properties;
    while let Some((property, behind)) = rest.split_first() {
        if property.ident.as_slice() == name {
            count = 2.min(count + 2.min(property.values.as_slice().len()));
        }
        rest = behind;
    }
    count
}

/// The colour that a value names by its first letter.
fn value_colour(value: &[u8]) -> Option<Colour>
    ensures { result ≡ colour_of_letter (after_blanks value.now) }
{
    let text = skip_blanks(value);
    let Some((letter, _)) = text.split_first() else {
        return None;
    };
    if *letter == b'B' || *letter == b'b' {
        Some(Colour::Black)
    } else if *letter == b'W' || *letter == b'w' {
        Some(Colour::White)
    } else {
        None
    }
}

/// The colour that the first value of PL names, or Black where there is none.
pub(crate) fn mover_of_properties(properties: &[Property]) -> Option<Colour>
    ensures { result ≡ mover_of_values (values_of PL properties.now) }
{
    match first_value(properties, b"PL") {
        Some(value) => value_colour(value),
        None => Some(Colour::Black),
    }
}

/// The points that two of the sets have.
pub(crate) fn in_two_sets(a: &PointSet, b: &PointSet, c: &PointSet) -> PointSet
    ensures { result ≡ in_two_sets a.now b.now c.now }
{
    a.and(b).or(&a.or(b).and(c))
}

/// Whether the properties of this name have a value.
pub fn has_value(properties: &[Property], name: &[u8]) -> bool
    ensures { result ≡ has_some_value (values_of name.now properties.now) }
{
    first_value(properties, name).is_some()
}

/// Whether a node is a setup node.
pub fn sets_up(node: &Node) -> bool
    ensures { result ≡ is_setup node.now }
{
    let properties = node.props.as_slice();
    has_value(properties, b"AB")
        || has_value(properties, b"AW")
        || has_value(properties, b"AE")
        || (has_value(properties, b"PL")
            && !(has_value(properties, b"B") || has_value(properties, b"W")))
}

/// Whether a node has a move: a value of B or W.
#[tactic(auto, using(crate::proofs::RecordLemmas::counted_one))]
pub fn has_move(node: &Node) -> bool
    ensures { result ≡ nat_le 1 (move_count node.now) }
{
    let properties = node.props.as_slice();
    1 <= count_values_to_two(properties, b"B") + count_values_to_two(properties, b"W")
}

/// Whether a node has two moves or more.
#[tactic(auto, using(crate::proofs::RecordLemmas::counted_two))]
pub(crate) fn has_several_moves(node: &Node) -> bool
    ensures { result ≡ nat_le 2 (move_count node.now) }
{
    let properties = node.props.as_slice();
    2 <= count_values_to_two(properties, b"B") + count_values_to_two(properties, b"W")
}

/// Whether the game is Go: GM isn't there, or is 1.
pub(crate) fn is_go(properties: &[Property]) -> bool
    ensures { result ≡ is_go (values_of GM properties.now) }
{
    let Some(value) = first_value(properties, b"GM") else {
        return true;
    };
    match number(value) {
        Some(game) => game == 1,
        None => false,
    }
}

/// The size that SZ says, or 19 by 19 without it.
pub fn said_size(properties: &[Property]) -> Option<Size>
    ensures { result ≡ size_or_default (values_of SZ properties.now) }
{
    let Some(value) = first_value(properties, b"SZ") else {
        return Size::new(MOST_SIDE, MOST_SIDE);
    };
    board_size(value)
}
