//! Boards one after another, kept by their differences: a board of a history differs from the one before it by a stone and what
//! the stone captured.

pub(crate) mod board_deltas;
pub(crate) mod differences;
