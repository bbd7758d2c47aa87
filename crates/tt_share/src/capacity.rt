//! What bounds the workers, and the stores that share proofs.

/// How many workers may search a line together.
pub const MOST_WORKERS: usize = 64;

/// How many proofs may be kept through one handle of a table, and through one view of a log: as many as in a store of a caller's own.
pub const MOST_KEPT_PROOFS: usize = tt_search::MOST_KEPT_PROOFS;

/// For how many more entries a log has room before each push: more than twice as many as there may be workers. So a push
/// finds room for its entry, whatever other workers push meanwhile.
pub(crate) const ROOM_BEFORE_A_PUSH: usize = 2 * MOST_WORKERS + 1;

/// For how many pushes more a log makes room at once, where there isn't enough before a push.
pub(crate) const EXTRA_ROOM_AT_ONCE: usize = 3;
