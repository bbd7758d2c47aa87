//! The nodes of a main line, with their properties as they were read.

pub(crate) mod items;
pub(crate) mod small_bytes;
pub(crate) mod values;

use crate::nodes::items::ItemList;
use crate::nodes::small_bytes::SmallBytes;
use crate::nodes::values::Values;

/// A property: its name, and at least one value where `read_tree` made it.
#[derive(Drop)]
pub struct Property {
    /// The upper-case letters and the digits of the identifier, in order: `GM` where it was `GaMe`.
    pub ident: SmallBytes,
    /// The bytes between the brackets of each value, backslashes among them.
    pub values: Values,
}

/// A node: its properties in order. It may have none, and a name may stand in it twice.
#[derive(Drop)]
pub struct Node {
    /// The properties, as they stood.
    pub props: ItemList<Property>,
}

/// The nodes of a game tree, followed by the main line of its first sub-tree where it has one.
#[derive(Drop)]
pub struct MainLine {
    /// The nodes from the root on, at least one where `read_tree` made it.
    pub nodes: ItemList<Node>,
}
