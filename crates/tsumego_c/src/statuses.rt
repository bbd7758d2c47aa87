//! The statuses of calls. `c/tsumego.h` has them under its own names.

/// The text stands at its place, and nothing was refused.
pub(crate) const DONE: u32 = 0;

/// Something was refused, or the certificate is invalid.
pub(crate) const REFUSED: u32 = 1;

/// Memory was refused.
pub(crate) const NO_MEMORY: u32 = 2;

/// The text has no room.
pub(crate) const NO_ROOM: u32 = 3;

/// An option is out of its range.
pub(crate) const BAD_OPTION: u32 = 4;
