//! Whether a main line is another one with marks, or with a node that adds stones, where it asks.
ghost use Rattle.std.specs.Prelude.{◌≡◌, ◌≤◌, ◌++◌, ◌∷◌, [], IfSome, IsTrue, length, take};
ghost use Rattle.tt_sgf.specs.declared.nodes.Property.{Property};
ghost use Rattle.tsumego_show.specs.Written.{IsLineWithMarks, IsLineWithMore, IsLineWithStones, IsNodeWithMarks, IsNodeWithStones, name_of_stones};

use tt_board::Colour;
use tt_game::node_count_before_solution;
use tt_sgf::{Node, Property, SmallBytes};

/// What is compared item by item.
trait Same {
    /// Whether both are the same.
    fn is_same(&self, other: &Self) -> bool
        ensures { IsTrue result → self.now ≡ other.now };
}

impl Same for SmallBytes {
    fn is_same(&self, other: &SmallBytes) -> bool {
        self.as_slice() == other.as_slice()
    }
}

impl Same for Property {
    fn is_same(&self, other: &Property) -> bool {
        self.ident.is_same(&other.ident)
            && are_same(self.values.as_slice(), other.values.as_slice())
    }
}

impl Same for Node {
    fn is_same(&self, other: &Node) -> bool {
        are_same(self.props.as_slice(), other.props.as_slice())
    }
}

/// How many items two lists have in common in front.
fn common_count<T: Same>(one: &[T], other: &[T]) -> usize
    ensures first { result ≤ length one.now }
    ensures second { result ≤ length other.now }
    ensures same { take result one.now ≡ take result other.now }
{
    let most = one.len().min(other.len());
    for i in 0..most {
        if !one[i].is_same(&other[i]) {
            return i;
        }
    }
    most
}

/// Whether two lists are the same.
fn are_same<T: Same>(one: &[T], other: &[T]) -> bool
    ensures { IsTrue result → one.now ≡ other.now }
{
    one.len() == other.len() && common_count(one, other) == one.len()
}

/// What stands behind the first of some properties, where that has this name.
fn behind_named<'a>(properties: &'a [Property], name: &[u8]) -> Option<&'a [Property]>
    ensures { IfSome result
        (λ behind. (p : Property) × (properties.now ≡ p ∷ behind.now) × (p.ident ≡ name.now)) }
{
    match properties.split_first() {
        Some((property, behind)) if property.ident.as_slice() == name => Some(behind),
        _ => None,
    }
}

/// Whether a node is another one with TR and SQ in front, and nothing else.
fn is_node_with_marks(given: &Node, read: &Node) -> bool
    ensures { IsTrue result → IsNodeWithMarks given.now read.now }
{
    let Some(squares) = behind_named(read.props.as_slice(), b"TR") else {
        return false;
    };
    let Some(others) = behind_named(squares, b"SQ") else {
        return false;
    };
    are_same(others, given.props.as_slice())
}

/// The name of the property that adds stones of a colour.
fn name_of_stones(colour: Colour) -> &'static [u8]
    ensures { result.now ≡ name_of_stones colour }
{
    match colour {
        Colour::Black => b"AB",
        Colour::White => b"AW",
    }
}

/// Whether a node adds stones of this colour, and has PL, TR, SQ and C, and nothing else.
fn is_node_with_stones(node: &Node, colour: Colour) -> bool
    ensures { IsTrue result → IsNodeWithStones colour node.now }
{
    let Some(mover) = behind_named(node.props.as_slice(), name_of_stones(colour)) else {
        return false;
    };
    let Some(triangles) = behind_named(mover, b"PL") else {
        return false;
    };
    let Some(squares) = behind_named(triangles, b"TR") else {
        return false;
    };
    let Some(comment) = behind_named(squares, b"SQ") else {
        return false;
    };
    match behind_named(comment, b"C") {
        Some(others) => others.is_empty(),
        None => false,
    }
}

/// The node of a main line that stands alone between these in front and those behind.
fn node_between<'a>(line: &'a [Node], front: &[Node], behind: &[Node]) -> Option<&'a Node>
    ensures { IfSome result (λ node. line.now ≡ front.now ++ (node.now ∷ behind.now)) }
{
    let count = common_count(front, line);
    if count < front.len() {
        return None;
    }
    match line[count..].split_first() {
        Some((node, rest)) if are_same(rest, behind) => Some(node),
        _ => None,
    }
}

/// Whether a main line is another one with TR and SQ in front at the node where that asks.
fn is_line_with_marks(given: &[Node], read: &[Node]) -> bool
    ensures { IsTrue result → IsLineWithMarks given.now read.now }
{
    let (asking, behind) = given.split_at(node_count_before_solution(given));
    let Some((asks, front)) = asking.split_last() else {
        return false;
    };
    match node_between(read, front, behind) {
        Some(marked) => is_node_with_marks(asks, marked),
        None => false,
    }
}

/// Whether a main line is another one with a node that adds stones of this colour behind the node where that asks.
fn is_line_with_stones(given: &[Node], read: &[Node], colour: Colour) -> bool
    ensures { IsTrue result → IsLineWithStones colour given.now read.now }
{
    let (asking, behind) = given.split_at(node_count_before_solution(given));
    match node_between(read, asking, behind) {
        Some(added) => is_node_with_stones(added, colour),
        None => false,
    }
}

/// Whether a main line is another one with marks alone, or with stones of a colour too, where they are added.
pub fn is_line_with_more(given: &[Node], read: &[Node], stones: Option<Colour>) -> bool
    ensures { IsTrue result → IsLineWithMore stones given.now read.now }
{
    match stones {
        None => is_line_with_marks(given, read),
        Some(colour) => is_line_with_stones(given, read, colour),
    }
}
