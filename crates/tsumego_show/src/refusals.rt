//! What is written where something is refused.
ghost use Rattle.std.specs.Prelude.{◌≤◌, length};

use crate::hints::put_unclosed_comment_lines;
use crate::points::put_points_line_if_any;
use crate::shown::ShowFault;
use crate::tree_bytes::from_first_parenthesis;
use std::io::Write;
use tt_game::{GameFault, said_size};
use tt_sgf::{Node, PointSet, SgfFault, stopping_byte};

/// The longest value that is written as it is.
const MOST_VALUE_BYTES: usize = 20;

/// Writes the line of a refusal, and the beginning of that on its reason, behind the text.
pub fn put_refusal_line(out: &mut Vec<u8>, number: usize, code: u8) -> Result<(), ShowFault> {
    Ok(write!(out, "{number} refused {code}\nwhy: ")?)
}

/// Whether a value is written as it is: it is short, and all its bytes are from * to ~.
fn is_plain_value(value: &[u8]) -> bool {
    value.len() <= MOST_VALUE_BYTES && value.iter().all(|byte| b'*' <= *byte && *byte <= b'~')
}

/// Writes the value that can't be read behind the text, with its property's name; dots in place of a long one, and of one with other
/// bytes.
fn put_unreadable_value(
    out: &mut Vec<u8>,
    node: &Node,
    property: usize,
    value: usize,
) -> Result<(), ShowFault> {
    let Some(property) = node.props.as_slice().get(property) else {
        return Ok(());
    };
    let Some(value) = property.values.as_slice().get(value) else {
        return Ok(());
    };
    let value = value.as_slice();
    out.extend_from_slice(b"look at: ")?;
    out.extend_from_slice(property.ident.as_slice())?;
    out.push(b'[')?;
    out.extend_from_slice(if is_plain_value(value) { value } else { b".." })?;
    Ok(out.extend_from_slice(b"]\n")?)
}

/// Writes the value or the point to look at behind the text, where there is one.
fn put_look_at_line(out: &mut Vec<u8>, nodes: &[Node], fault: &GameFault) -> Result<(), ShowFault> {
    if let (Some(number), Some((property, value))) = (fault.node(), fault.value()) {
        if let Some(node) = nodes.get(number.saturating_sub(1)) {
            put_unreadable_value(out, node, property, value)?;
        }
    }
    if let (Some(point), Some(first)) = (fault.point(), nodes.first()) {
        if let Some(size) = said_size(first.props.as_slice()) {
            let points = PointSet::empty().with(point);
            put_points_line_if_any(out, size, b"look at:", &points)?;
        }
    }
    Ok(())
}

/// Writes that the main line of these nodes is refused, at which node and why, how to go on and what to look at, behind the text.
pub fn put_refusal_and_why(
    out: &mut Vec<u8>,
    number: usize,
    nodes: &[Node],
    fault: &GameFault,
) -> Result<(), ShowFault> {
    put_refusal_line(out, number, fault.code())?;
    if let Some(number) = fault.node() {
        write!(out, "node {number}: ")?;
    }
    out.extend_from_slice(fault.reason())?;
    if matches!(fault, GameFault::NoTarget) {
        out.extend_from_slice(b", or let --mark do so\n")?;
        return put_unclosed_comment_lines(out, nodes);
    }
    out.push(b'\n')?;
    put_look_at_line(out, nodes, fault)
}

/// Writes the byte of this index and its line behind the text. Bytes and lines count from 1.
fn put_byte_and_line(out: &mut Vec<u8>, input: &[u8], index: usize) -> Result<(), ShowFault> {
    let front = &input[..index.min(input.len())];
    let byte = front.len().saturating_add(1);
    let newlines = front.iter().filter(|byte| **byte == b'\n').count();
    let line = newlines.saturating_add(1);
    Ok(write!(out, "byte {byte} in line {line}")?)
}

/// Writes the refusal of an input that has no game tree, and why, behind the text.
pub fn put_unread(out: &mut Vec<u8>, number: usize, fault: SgfFault) -> Result<(), ShowFault> {
    put_refusal_line(out, number, fault.code())?;
    out.extend_from_slice(fault.reason())?;
    Ok(out.push(b'\n')?)
}

/// Writes that no game tree can be read in the rest of an input, and where it stops and its tree begins, if one does, behind the text.
pub fn put_no_tree(
    out: &mut Vec<u8>,
    number: usize,
    input: &[u8],
    rest: &[u8],
) -> Result<(), ShowFault>
    requires { length rest.now ≤ length input.now }
{
    put_unread(out, number, SgfFault::Syntax)?;
    let opened = from_first_parenthesis(rest);
    if opened.is_empty() {
        return Ok(());
    }
    let start = input.len() - opened.len();
    out.extend_from_slice(b"look at: ")?;
    put_byte_and_line(out, input, start.saturating_add(stopping_byte(opened)))?;
    out.extend_from_slice(b", of the tree from ")?;
    put_byte_and_line(out, input, start)?;
    Ok(out.extend_from_slice(b" on; later trees weren't read\n")?)
}
