//! Proofs by depth-first proof-number search (df-pn: A. Nagai, "Df-pn Algorithm for Searching AND/OR Trees and Its
//! Applications", 2002).
//!
//! `find_proof` joins two halves. The finder searches with one table for all histories, which is fast and may err; it says what a
//! side should play. The certifier makes a proof bottom up at the exact line, and believes nothing of that. It knows the finder by
//! `Advice` alone, and the finder doesn't know it: only `attempts` and `shared_certification` name both.
//!
//! | Module | What it has |
//! |---|---|
//! | `attempts` | `find_proof`: a search says who wins, the certifier proves that; if the proof fails, both try again |
//! | `advice` | the trait `Advice`, by which the certifier asks the finder |
//! | `certifier` | makes a proof from the leaves up; it may end at life |
//! | `memo` | the proofs that the certifier keeps, and which of them it may use at a `Line` |
//! | `shared_proofs` | proofs that several certifiers share |
//! | `shared_certification` | several certifiers of one proof |
//! | `no_life` | life as the certifier sees it: it need not look again where there was none |
//! | `life_cache` | what is known of the targets' life: each half has one |
//! | `mixing` | numbers whose bits are mixed, of which both halves make their hashes |
//! | `finder` | df-pn, with a board and tables of its own |

#![tactic(auto)]

mod advice;
mod attempts;
mod certifier;
mod finder;
mod life_cache;
mod memo;
mod mixing;
mod no_life;
mod shared_certification;
mod shared_proofs;

pub use advice::{Advice, VisitsLeft};
pub use attempts::{MOST_POSITIONS, OneFinder, WinnerSearch, find_life_proof, find_proof};
pub use certifier::Certifier;
pub use finder::{Advisor, Finding, Guess, MOST_DFPN_WORKERS, SharedSearch, SharedWork};
pub use shared_certification::SharedCertification;
