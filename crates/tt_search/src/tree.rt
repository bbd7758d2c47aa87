//! The tree of a search: nodes with two numbers, and two bytes for each edge.
//!
//! | Module | What it has |
//! |---|---|
//! | `node` | a node: its numbers and what it has become |
//! | `numbers` | proof and disproof numbers |
//! | `children` | the children of an expanded node, as contracts see them |
//! | `edges`, `edge_storage` | the ways to children, two bytes each, and where they stand |
//! | `untried` | the turns of a node of which none has been tried |

pub(crate) mod children;
pub(crate) mod edge_storage;
pub(crate) mod edges;
pub(crate) mod node;
pub(crate) mod numbers;
pub(crate) mod untried;
