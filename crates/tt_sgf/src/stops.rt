//! Where the reading of a game tree stops.

ghost use Rattle.std.specs.Prelude.{◌≡◌, ◌<◌, ◌≤◌, ◌^◌, suc};
ghost use Rattle.tt_sgf.specs.Stops.{StopsAt};
ghost use Rattle.tt_sgf.specs.inside.Places.{step, closed, at_bracket, in_node, at_value, enclosing};

use crate::tokens::{is_blank, is_letter_or_digit, is_upper};

/// Where a byte stands, with the number of trees around the innermost open one.
#[derive(Clone, Copy)]
enum Place {
    /// No `(` stands in front.
    Outside,
    /// Right behind the `(` of a tree.
    Opened(usize),
    /// In a node, behind its `;` or a value; whether it is a value.
    Node(usize, bool),
    /// In an identifier, and whether it has a capital letter so far.
    Name(usize, bool),
    /// Behind an identifier and white space.
    Named(usize),
    /// In a value, and whether the next byte is escaped.
    Value(usize, bool),
    /// Behind a sub-tree.
    Trees(usize),
    /// Behind the whole tree.
    Done,
    /// No tree has these bytes.
    Stuck,
}

/// Behind the bracket that closes a tree.
fn closed(around: usize) -> Place
    ensures is { result ≡ closed around }
    ensures depth { enclosing result ≤ around }
{
    if around == 0 {
        Place::Done
    } else {
        Place::Trees(around - 1)
    }
}

/// Behind a bracket of a tree.
fn at_bracket(around: usize, byte: u8) -> Place
    requires { around < 2 ^ 63 }
    ensures is { result ≡ at_bracket around byte }
    ensures depth { enclosing result ≤ suc around }
{
    match byte {
        b'(' => Place::Opened(around + 1),
        b')' => closed(around),
        _ => Place::Stuck,
    }
}

/// Behind the first byte of what may follow in a node, and whether a value may.
fn in_node(around: usize, has_value: bool, byte: u8) -> Place
    requires { around < 2 ^ 63 }
    ensures is { result ≡ in_node around has_value byte }
    ensures depth { enclosing result ≤ suc around }
{
    if is_letter_or_digit(byte) {
        Place::Name(around, is_upper(byte))
    } else if byte == b';' {
        Place::Node(around, false)
    } else if has_value && byte == b'[' {
        Place::Value(around, false)
    } else {
        at_bracket(around, byte)
    }
}

/// Behind a byte between an identifier and its first value.
fn at_value(around: usize, byte: u8) -> Place
    ensures is { result ≡ at_value around byte }
    ensures depth { enclosing result ≤ around }
{
    if is_blank(byte) {
        Place::Named(around)
    } else if byte == b'[' {
        Place::Value(around, false)
    } else {
        Place::Stuck
    }
}

impl Place {
    /// Behind one byte more.
    fn behind(self, byte: u8) -> Place
        requires { enclosing self < 2 ^ 63 }
        ensures is { result ≡ step self byte }
        ensures depth { enclosing result ≤ suc (enclosing self) }
    {
        match self {
            Place::Outside if byte == b'(' => Place::Opened(0),
            Place::Opened(_) | Place::Node(..) | Place::Trees(_) if is_blank(byte) => self,
            Place::Opened(around) if byte == b';' => Place::Node(around, false),
            Place::Node(around, has_value) => in_node(around, has_value, byte),
            Place::Name(around, capital) if is_letter_or_digit(byte) => {
                Place::Name(around, capital || is_upper(byte))
            }
            Place::Name(around, true) | Place::Named(around) => at_value(around, byte),
            Place::Value(around, false) if byte == b']' => Place::Node(around, true),
            Place::Value(around, escaped) => Place::Value(around, !escaped && byte == b'\\'),
            Place::Trees(around) => at_bracket(around, byte),
            Place::Outside | Place::Done => self,
            Place::Opened(_) | Place::Name(..) | Place::Stuck => Place::Stuck,
        }
    }
}

/// The index of the byte at which `read_tree` stops where it answers `Syntax`: the bytes in front of it begin some text that has a
/// tree, and with it they begin none. The length where all of them begin one.
pub fn stopping_byte(bytes: &[u8]) -> usize
    ensures { StopsAt bytes.now result }
{
    let mut place = Place::Outside;
    for (i, byte) in bytes.iter().enumerate() {
        place = place.behind(*byte);
        if let Place::Stuck = place {
            return i;
        }
    }
    bytes.len()
}
