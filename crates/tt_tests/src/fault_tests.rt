//! Where main lines are refused: the number, the node, the value that can't be read and the point at fault.

use crate::rows::{Table, cut, holding};
use crate::text_tables::FAULTS;
use std::alloc::{AllocError, Global};
use tt_game::{GameFault, problem};
use tt_sgf::{MainLine, Point, Property, read_tree};

/// Writes a blank and a number behind the text, or a dash where there is none.
fn put_number(alloc: Global, text: &mut Vec<u8>, number: Option<usize>) -> Result<(), AllocError> {
    let Some(number) = number else {
        text.extend_from_slice(b" -")?;
        return Ok(());
    };
    let words = format!(in alloc; " {number}")?;
    text.extend_from_slice(words.as_bytes())?;
    Ok(())
}

/// The property at which a main line is refused.
fn property_at_fault<'a>(line: &'a MainLine, fault: &GameFault) -> Option<&'a Property> {
    let node = line.nodes.as_slice().get(fault.node()?.saturating_sub(1))?;
    let (property, _) = fault.value()?;
    node.props.as_slice().get(property)
}

/// Writes a blank and the value that can't be read with its property behind the text, or a dash where there is none.
fn put_value(text: &mut Vec<u8>, line: &MainLine, fault: &GameFault) -> Result<(), AllocError> {
    text.push(b' ')?;
    let (Some(property), Some((_, index))) = (property_at_fault(line, fault), fault.value()) else {
        text.push(b'-')?;
        return Ok(());
    };
    text.extend_from_slice(property.ident.as_slice())?;
    text.push(b'[')?;
    if let Some(value) = property.values.as_slice().get(index) {
        text.extend_from_slice(value.as_slice())?;
    }
    text.push(b']')?;
    Ok(())
}

/// Writes a blank and the letters of a point of a board with three columns behind the text, or a dash where there is none.
fn put_point(text: &mut Vec<u8>, point: Option<Point>) -> Result<(), AllocError> {
    let Some(point) = point else {
        text.extend_from_slice(b" -")?;
        return Ok(());
    };
    text.push(b' ')?;
    text.push(b'a' + (point.number() % 3) as u8)?;
    text.push(b'a' + (point.number() / 3 % 26) as u8)?;
    Ok(())
}

/// What is told of a fault: its number, its node, its value and its point.
fn told(alloc: Global, line: &MainLine, fault: &GameFault) -> Result<Vec<u8>, AllocError> {
    let code = fault.code();
    let mut text = format!(in alloc; "{code}")?.into_bytes();
    put_number(alloc, &mut text, fault.node())?;
    put_value(&mut text, line, fault)?;
    put_point(&mut text, fault.point())?;
    Ok(text)
}

/// Whether the problem that a text is gets refused as it is told.
fn is_refused_so(alloc: Global, text: &[u8], want: &[u8]) -> bool {
    let Ok((line, _)) = read_tree(alloc, text) else {
        return false;
    };
    match problem(alloc, &line) {
        Ok(_) => false,
        Err(fault) => match told(alloc, &line, &fault) {
            Ok(text) => text.as_slice() == want,
            Err(_) => false,
        },
    }
}

struct FaultTable;

impl Table for FaultTable {
    fn holds(alloc: Global, line: &[u8]) -> bool {
        let (want, text) = cut(line, b'|');
        is_refused_so(alloc, text, want)
    }
}

#[test]
fn faults(rt: HostRuntime) {
    assert_eq!(&rt; holding::<FaultTable>(rt.alloc(), FAULTS, b'~'), 29);
}

/// A record of so many passes of both colours on a board of one point, each colour's behind a setup that Black is to move,
/// then such a setup, and a pass more.
fn many_passes(alloc: Global, pairs: usize) -> Result<Vec<u8>, AllocError> {
    let mut text = Vec::new(alloc);
    text.extend_from_slice(b"(;SZ[1]")?;
    for _ in 0..pairs {
        text.extend_from_slice(b";PL[B];B[];W[]")?;
    }
    text.extend_from_slice(b";PL[B];B[])")?;
    Ok(text)
}

/// The turn behind 2,000 others is refused, at its own node.
#[test]
fn a_turn_too_many(rt: HostRuntime) {
    let Ok(text) = many_passes(rt.alloc(), 1000) else {
        panic!(&rt; "memory was refused");
    };
    assert!(&rt; is_refused_so(rt.alloc(), text.as_slice(), b"19 3003 - -"));
}
