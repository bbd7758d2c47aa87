//! Reads SGF FF[4]: the main line of a game tree, and the values of its properties as sizes, points and sets of points.
//!
//! | Module | What it holds |
//! |---|---|
//! | `trees` | `read_tree` and `has_tree`: from bytes to the nodes of the main line |
//! | `properties`, `tokens` | what a node is made of |
//! | `nodes` | `MainLine`, `Node`, `Property`; in its folder the list that they are made of, names and values, of which a few take no memory |
//! | `value_kinds` | `number`, `point` and `board_size`: what one value says |
//! | `point_lists` | `point_set`: what the values of a point list say together |
//! | `size`, `sets`, `bits` | `Size`, `Point`, `PointOrPass`, `PointSet`, and the `Bits` that it is made of |
//! | `stops` | `stopping_byte`: where reading stopped |
//! | `faults` | `SgfFault`, `BadPoint`, `NoMemory` |
//! | `laws` | one tree a text, and one reading of the bytes |
//!
//! Its tests stand in `tt_tests`: `sgf_tests`.
#![tactic(auto)]

mod bits;
mod faults;
pub mod laws;
mod nodes;
mod point_lists;
mod properties;
mod sets;
mod size;
mod stops;
mod tokens;
mod trees;
mod value_kinds;

pub use bits::{BITS, Bits};
pub use faults::{BadPoint, NoMemory, SgfFault};
pub use nodes::items::ItemList;
pub use nodes::small_bytes::SmallBytes;
pub use nodes::values::Values;
pub use nodes::{MainLine, Node, Property};
pub use point_lists::point_set;
pub use sets::PointSet;
pub use size::{MOST_POINTS, MOST_SIDE, Point, PointOrPass, Size};
pub use stops::stopping_byte;
pub use tokens::skip_blanks;
pub use trees::{MAX_BYTES, has_tree, read_tree};
pub use value_kinds::{board_size, number, point, trim};
