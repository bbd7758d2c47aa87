//! Tests of the crates below the threads, by what each of them makes public. They stand in a crate of their own, since a
//! crate that has tests is proved twice, with and without them.
//!
//! | Module | What it tests |
//! |---|---|
//! | `sgf_tests` | `tt_sgf`: trees and values |
//! | `board_tests`, `chain_tests`, `trail_tests`, `board_tables` | `tt_board`: boards and moves, counted chains, trails, and tables of these |
//! | `plain_board` | a board by the rules alone, which `chain_tests` holds boards against |
//! | `record_tests` | `tt_game`: records and games |
//! | `fault_tests` | `tt_game`: where main lines are refused |
//! | `problem_tests`, `turn_tests`, `turn_tables` | `tt_game`: problems, their turns, and tables of these |
//! | `life_tests` | `tt_life`: unconditional life |
//! | `marks_tests` | `tt_marks`: groups, regions, and stones that close walls |
//! | `proof_tests` | `tt_proof`: certificates and proofs |
//! | `certificate_stop_tests` | `tt_proof`: where the reading of certificates stops |
//! | `footprint_tests`, `footprint_tables` | `tt_proof`: footprints, and their tables |
//! | `search_tests`, `trace_tests`, `trace_tables` | `tt_search`: searches, their traces, and tables of these |
//! | `store_tests` | `tt_search`: searches over stores that are full, refuse or are refused |
//! | `grants_tests` | `tt_search`: searches whose expansions are granted |
//! | `dfpn_tests` | `tt_dfpn`: proofs after good advice and after lies |
//! | `text_tables` | tables of texts: trees, values, records, problems and certificates |
//! | `rows`, `drawings` | how a table is read that is one text, and boards that are drawn in one |

#![tactic(auto)]

#[cfg(test)]
mod board_tables;
#[cfg(test)]
mod board_tests;
#[cfg(test)]
mod certificate_stop_tests;
#[cfg(test)]
mod chain_tests;
#[cfg(test)]
mod dfpn_tests;
#[cfg(test)]
mod drawings;
#[cfg(test)]
mod fault_tests;
#[cfg(test)]
mod footprint_tables;
#[cfg(test)]
mod footprint_tests;
#[cfg(test)]
mod grants_tests;
#[cfg(test)]
mod life_tests;
#[cfg(test)]
mod marks_tests;
#[cfg(test)]
mod plain_board;
#[cfg(test)]
mod problem_tests;
#[cfg(test)]
mod proof_tests;
#[cfg(test)]
mod record_tests;
#[cfg(test)]
mod rows;
#[cfg(test)]
mod search_tests;
#[cfg(test)]
mod sgf_tests;
#[cfg(test)]
mod store_tests;
#[cfg(test)]
mod text_tables;
#[cfg(test)]
mod trace_tables;
#[cfg(test)]
mod trace_tests;
#[cfg(test)]
mod trail_tests;
#[cfg(test)]
mod turn_tables;
#[cfg(test)]
mod turn_tests;
