//! Problems and their legal turns, with what they come to by a program written from the rules alone.

ghost use Rattle.tt_game.specs.Turns.{IsTurnOnBoardOfSize};

use crate::rows::{Table, cut, holding, short_number};
use crate::text_tables::PROBLEMS;
use std::alloc::Global;
use tt_game::{Line, Turn, problem};
use tt_sgf::{ItemList, MainLine, NoMemory, Node, Property, Size, SmallBytes, Values, read_tree};

/// The problem that a main line is, or the number of the refusal.
fn posed_by(alloc: Global, line: &MainLine) -> Result<Line, u8> {
    match problem(alloc, line) {
        Ok(line) => Ok(line),
        Err(fault) => Err(fault.code()),
    }
}

/// The problem that a text is, or the number of the refusal.
pub(crate) fn posed(alloc: Global, text: &[u8]) -> Result<Line, u8> {
    match read_tree(alloc, text) {
        Ok((line, _)) => posed_by(alloc, &line),
        Err(fault) => Err(fault.code()),
    }
}

/// These bytes, as a reader of one's own makes them.
fn own_bytes(alloc: Global, bytes: SmallBytes) -> Result<SmallBytes, NoMemory> {
    SmallBytes::from_vec(alloc, bytes.into_vec(alloc)?)
}

/// These values, as a reader of one's own makes them.
fn own_values(alloc: Global, values: Values) -> Result<Values, NoMemory> {
    let mut made = Vec::new(alloc);
    for value in values.into_vec(alloc)? {
        made.push(own_bytes(alloc, value)?)?;
    }
    Ok(Values::from_vec(made))
}

/// This property, as a reader of one's own makes it.
fn own_property(alloc: Global, property: Property) -> Result<Property, NoMemory> {
    let Property { ident, values } = property;
    Ok(Property {
        ident: own_bytes(alloc, ident)?,
        values: own_values(alloc, values)?,
    })
}

/// This node, as a reader of one's own makes it.
fn own_node(alloc: Global, node: Node) -> Result<Node, NoMemory> {
    let mut made = Vec::new(alloc);
    for property in node.props.into_vec() {
        made.push(own_property(alloc, property)?)?;
    }
    Ok(Node {
        props: ItemList::from_vec(made),
    })
}

/// This main line, as a reader of one's own makes it.
fn own_line(alloc: Global, line: MainLine) -> Result<MainLine, NoMemory> {
    let mut made = Vec::new(alloc);
    for node in line.nodes.into_vec() {
        made.push(own_node(alloc, node)?)?;
    }
    Ok(MainLine {
        nodes: ItemList::from_vec(made),
    })
}

/// The problem that a text is by a reader of one's own, or the number of the refusal.
fn posed_anew(alloc: Global, text: &[u8]) -> Result<Line, u8> {
    let line = match read_tree(alloc, text) {
        Ok((line, _)) => line,
        Err(fault) => return Err(fault.code()),
    };
    match own_line(alloc, line) {
        Ok(own) => posed_by(alloc, &own),
        Err(_) => Err(40),
    }
}

/// The turn of this number on boards of this size.
pub(crate) fn turn(size: Size, number: u16) -> Turn
    ensures { IsTurnOnBoardOfSize size result }
{
    match size.point(number) {
        Some(p) => Turn::Play(p),
        None => Turn::Pass,
    }
}

/// Whether a line's legal turns are those at whose numbers `signs` has a dash, in this order.
pub(crate) fn has_turns(line: &Line, marks: &[u8]) -> bool {
    let size = line.frame().size;
    let turns = line.turns();
    let mut rest = turns.as_slice();
    let mut number = 0;
    for mark in marks {
        if *mark == b'-' {
            let Some((first, behind)) = rest.split_first() else {
                return false;
            };
            if *first != turn(size, number) {
                return false;
            }
            rest = behind;
        }
        if number < 361 {
            number += 1;
        }
    }
    rest.len() == 0
}

/// Whether a problem is refused with this number, or has the legal turns that are marked where the number is 0.
fn is_posed(posed: Result<Line, u8>, want: &[u8], marks: &[u8]) -> bool {
    match posed {
        Err(code) => u16::from(code) == short_number(want),
        Ok(line) => want == b"0".as_slice() && has_turns(&line, marks),
    }
}

struct ProblemTable;

impl Table for ProblemTable {
    fn holds(alloc: Global, line: &[u8]) -> bool {
        let (want, rest) = cut(line, b'|');
        let (text, marks) = cut(rest, b'|');
        is_posed(posed(alloc, text), want, marks) && is_posed(posed_anew(alloc, text), want, marks)
    }
}

#[test]
fn problems(rt: HostRuntime) {
    assert_eq!(&rt; holding::<ProblemTable>(rt.alloc(), PROBLEMS, b'\n'), 14);
}
