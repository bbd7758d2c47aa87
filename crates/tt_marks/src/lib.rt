//! Marks for a position that has none: the group of a stone, the wall around it, and the region within.
//!
//! | Module | What it has |
//! |---|---|
//! | `filling` | what is reached over adjacent points, in words |
//! | `point_sets` | the stones and chains of a board, and the points beside others, as sets |
//! | `walls` | the group of a stone, the whole wall around it, what is within |
//! | `regions` | the region within a wall, whether it is closed, and inner |
//! | `bit_sets` | whether a set of bits has no point, or how many |
//! | `ways` | the ways that lead from a group to what is far |
//! | `enclosures` | the stones that seem to close a wall, the best first |
//! | `closing_stones` | those that close it |
//! | `danger` | the stones of a wall that plays in a region may take |
//! | `proposals` | the group that is meant where nobody names one |
//! | `laws` | no path that avoids the wall leads out, plays within take none of its stones, and a region lacks none of its liberties |
#![tactic(auto)]

mod bit_sets;
mod closing_stones;
mod danger;
mod enclosures;
mod filling;
pub mod laws;
mod point_sets;
mod proposals;
mod regions;
mod walls;
mod ways;

pub use closing_stones::{Closing, board_with_stones, closings};
pub use danger::{stones_in_danger, wall_in_danger};
pub use enclosures::MOST_STONES;
pub use point_sets::{chains, points_beside, stones_of_colour};
pub use proposals::{is_lone, proposed_stone};
pub use regions::{
    FEWEST_ENCLOSED_POINTS, MOST_ENCLOSED_POINTS, WalledRegion, empties, group, is_inner,
    is_walled_in, region,
};
pub use ways::ways_out;
