//! Certificates with shared parts: a part of a strategy is written once, and its name stands for it wherever it fits. `tests/parts` tests
//! them.
//!
//! | Module | What it has |
//! |---|---|
//! | `outlines` | `Outline`, a strategy whose parts have names |
//! | `outline_read` | the outline of a text |
//! | `outline_replay`, `position_footprint` | whether an outline's tree wins at a line; on what that rests |
//! | `outline_write` | a tree as a text with shared parts |
//! | `laws` | facts about outlines and their certificates |
#![tactic(auto)]

pub mod laws;
mod outline_read;
mod outline_replay;
mod outline_write;
mod outlines;
mod position_footprint;

pub use outline_read::read_shared_cert;
pub use outline_replay::replay_shared_cert;
pub use outline_write::write_shared_cert;
pub use outlines::Outline;
