//! Proof-number search (L. V. Allis, "Searching for Solutions in Games and Artificial Intelligence", 1994, chapter 2).
//!
//! A `Search` grows a partial tree of a problem at its most-proving leaf, within `Limits`, until the root is settled. Its
//! tree, the numbers of it and the ways in which it may grow are defined over the whole tree in `specs/`; the code
//! updates one path. A `Store` keeps the proofs of settled nodes; a proof that it answers closes a leaf only where it
//! wins there, since it fits or by replay.
//!
//! Its tests stand in `tt_tests`: `search_tests`, `trace_tests`, `store_tests` and `grants_tests`.
//!
//! | Module | What it has |
//! |---|---|
//! | `search` | `Search`: a search within limits from one `Line` |
//! | `limits` | a search's budget and depth, and what a step returns |
//! | `grants` | the permission that a search asks for before it expands a node |
//! | `growing` | a step: one leaf is expanded or closed, and the numbers above it are updated |
//! | `descent` | what a step knows on its way from the root to a leaf |
//! | `tree` | the search tree |
//! | `leaves` | makes, expands and closes leaves |
//! | `settled`, `footprints` | the strategy, proof and footprint of a settled node |
//! | `store` | the trait `Store`. In its folder: `private`, a store for one thread; `key_index`, an index of proofs by key; `usable_proofs`, the proofs usable at a `Line` |

#![tactic(auto)]

mod descent;
mod footprints;
mod grants;
mod growing;
mod leaves;
mod limits;
mod search;
mod settled;
mod store;
mod tree;

pub use grants::{Free, Grants};
pub use limits::{Limits, MOST_EXPANDED, Reason, Step};
pub use search::{End, Search};
pub use store::key_index::{KeyIndex, ProofList};
pub use store::private::{MOST_KEPT_PROOFS, PrivateStore};
pub use store::usable_proofs::find_usable_proof;
pub use store::{Kept, NoStore, ProofPerSide, Store};
