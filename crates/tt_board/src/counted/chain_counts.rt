//! Which chain each point of a board is of, and how many stones and liberties each chain has.

/// The name of a chain: the point where its counts are kept, its root, and 512 more where it is Black's, 1,024 more where it is White's.
/// No chain has the name 0.
pub(crate) type ChainName = u16;

/// The name of the chain on each point, 0 where it is empty, and each chain's counts of stones and of liberties at its root. They lie
/// side by side, so that a large board takes them over from another one in one move.
#[derive(Clone, Copy)]
pub(crate) struct ChainCounts {
    pub(crate) names: [ChainName; 361],
    pub(crate) stones: [u16; 361],
    pub(crate) liberties: [u16; 361],
}
