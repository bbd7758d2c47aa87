//! The values of a node, or the fault that one of them can't be read.

ghost use Rattle.std.specs.Prelude.{◌≡◌, IfOk};
ghost use Rattle.tt_board.specs.Stones.{IsSetOnBoard};
ghost use Rattle.tt_game.specs.Faults.{bad_entry, bad_first_value, first_bad_entry, has_bad_entry, has_value_named, read_mover, read_set};

use crate::faults::GameFault;
use crate::nodes::{mover_of_properties, named_set};
use tt_board::Colour;
use tt_sgf::{Node, PointSet, Property, Size, SmallBytes, point_set};

/// The index of the first value that is no entry of a list of points.
#[tactic(auto, using(crate::proofs::FaultLemmas::no_bad_entry, crate::proofs::FaultLemmas::bad_entry_here, crate::proofs::FaultLemmas::bad_entry_behind))]
fn first_bad_entry(values: &[SmallBytes], size: Size) -> usize
    ensures { result ≡ first_bad_entry size values.now }
{
    let mut index: usize = 0;
    let mut rest = values;
    while let Some((value, behind)) = rest.split_first() {
        if point_set(std::slice::from_ref(value), size).is_err() {
            return index;
        }
        index += 1;
        rest = behind;
    }
    index
}

/// Whether a property has this name, and a value that is no entry of a list of points.
#[tactic(auto, using(crate::proofs::FaultLemmas::all_read, crate::proofs::FaultLemmas::some_unread))]
fn has_bad_entry(property: &Property, name: &[u8], size: Size) -> bool
    ensures { result ≡ has_bad_entry size name.now property.now }
{
    if property.ident.as_slice() != name {
        return false;
    }
    point_set(property.values.as_slice(), size).is_err()
}

/// The fault of the first value of this name that is no entry of a list of points, in the node with this number.
#[tactic(auto, using(crate::proofs::FaultLemmas::bad_nowhere, crate::proofs::FaultLemmas::bad_here, crate::proofs::FaultLemmas::bad_behind))]
fn bad_entry(node: usize, properties: &[Property], name: &[u8], size: Size) -> GameFault
    ensures { result ≡ bad_entry node size name.now 0 properties.now }
{
    let mut property: usize = 0;
    let mut rest = properties;
    while let Some((first, behind)) = rest.split_first() {
        if has_bad_entry(first, name, size) {
            let value = first_bad_entry(first.values.as_slice(), size);
            return GameFault::BadValue {
                node,
                property,
                value,
            };
        }
        property += 1;
        rest = behind;
    }
    GameFault::BadValue {
        node,
        property,
        value: 0,
    }
}

/// Whether a property has this name, and a value.
fn has_value_named(property: &Property, name: &[u8]) -> bool
    ensures { result ≡ has_value_named name.now property.now }
{
    if property.ident.as_slice() != name {
        return false;
    }
    property.values.as_slice().split_first().is_some()
}

/// The fault of the first value of this name, in the node with this number.
#[tactic(auto, using(crate::proofs::FaultLemmas::first_nowhere, crate::proofs::FaultLemmas::first_here, crate::proofs::FaultLemmas::first_behind))]
pub(crate) fn bad_first_value(node: usize, properties: &[Property], name: &[u8]) -> GameFault
    ensures { result ≡ bad_first_value node name.now 0 properties.now }
{
    let mut property: usize = 0;
    let mut rest = properties;
    while let Some((first, behind)) = rest.split_first() {
        if has_value_named(first, name) {
            return GameFault::BadValue {
                node,
                property,
                value: 0,
            };
        }
        property += 1;
        rest = behind;
    }
    GameFault::BadValue {
        node,
        property,
        value: 0,
    }
}

/// The points that the properties of this name give, in the node with this number.
#[tactic(auto, using(crate::proofs::ProblemLemmas::set_on_board))]
pub(crate) fn read_set(
    number: usize,
    node: &Node,
    name: &[u8],
    size: Size,
) -> Result<PointSet, GameFault>
    ensures value { result ≡ read_set number size name.now node.now }
    ensures on_board { IfOk result (λ s. IsSetOnBoard size s) }
{
    let properties = node.props.as_slice();
    match named_set(properties, name, size) {
        Ok(points) => Ok(points),
        Err(_) => Err(bad_entry(number, properties, name, size)),
    }
}

/// The colour that the first value of PL names, or Black where there is none, in the node with this number.
pub(crate) fn read_mover(number: usize, node: &Node) -> Result<Colour, GameFault>
    ensures { result ≡ read_mover number node.now }
{
    let properties = node.props.as_slice();
    match mover_of_properties(properties) {
        Some(colour) => Ok(colour),
        None => Err(bad_first_value(number, properties, b"PL")),
    }
}
