//! Tests of `tt_share` by what it makes public. They stand in a crate of their own, since a crate that has tests is proved
//! twice, with and without them, and its edits wait for both.

#![tactic(auto)]

#[cfg(test)]
mod tests;
