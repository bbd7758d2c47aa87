//! Proofs planted into a log, without which a budget of one expansion isn't enough.

use super::together_tests::hold;
use std::test::Fail;

/// White's two stones with liberties on both sides, where Black to move kills at the third point, and the proof of the same
/// after Black's turn there.
const FOUND: &str = "\
(;SZ[4:1]AW[ba][da]PL[B]TR[ba])|1|512||1|killed ca||(;SZ[4:1]AW[ba][da]PL[B];B[ca]TR[ba])
(;SZ[4:1]AW[ba][da]PL[B]TR[ba])|1|512||2|killed ca||(;SZ[4:1]AW[ba][da]PL[B];B[ca]TR[ba])
(;SZ[4:1]AW[ba][da]PL[B]TR[ba])|1|512||64|killed ca||(;SZ[4:1]AW[ba][da]PL[B];B[ca]TR[ba])
";

/// A proof behind a first turn is found by the workers.
#[test]
fn workers_find_a_planted_proof(rt: HostRuntime) -> Result<(), Fail> {
    hold(&rt, rt.alloc(), FOUND, 3)
}

/// The same problem, and that of a lone white stone, which lives; with the proof of the problem itself.
const ITSELF: &str = "\
(;SZ[4:1]AW[ba][da]PL[B]TR[ba])|1|512||1|killed ca|0|(;SZ[4:1]AW[ba][da]PL[B]TR[ba])
(;SZ[4:1]AW[ba][da]PL[B]TR[ba])|1|512||2|killed ca|0|(;SZ[4:1]AW[ba][da]PL[B]TR[ba])
(;SZ[4:1]AW[ba][da]PL[B]TR[ba])|1|512||64|killed ca|0|(;SZ[4:1]AW[ba][da]PL[B]TR[ba])
(;SZ[4:1]AW[ba]PL[B]TR[ba])|1|512||1|lives|0|(;SZ[4:1]AW[ba]PL[B]TR[ba])
(;SZ[4:1]AW[ba]PL[B]TR[ba])|1|512||2|lives|0|(;SZ[4:1]AW[ba]PL[B]TR[ba])
(;SZ[4:1]AW[ba]PL[B]TR[ba])|1|512||64|lives|0|(;SZ[4:1]AW[ba]PL[B]TR[ba])
";

/// A proof of the problem itself is found before they start, of either side.
#[test]
fn the_problem_itself_is_found(rt: HostRuntime) -> Result<(), Fail> {
    hold(&rt, rt.alloc(), ITSELF, 6)
}

/// Over a new log it is the least turn that is stuck.
const LEAST: &str = "\
(;SZ[4:1]AW[ba][da]PL[B]TR[ba])|1|512||1|budget ca
(;SZ[4:1]AW[ba][da]PL[B]TR[ba])|1|512||2|budget ca
(;SZ[4:1]AW[ba][da]PL[B]TR[ba])|1|512||64|budget ca
(;SZ[4:1]AW[ba]PL[B]TR[ba])|1|512||1|budget ca
(;SZ[4:1]AW[ba]PL[B]TR[ba])|1|512||2|budget ca
(;SZ[4:1]AW[ba]PL[B]TR[ba])|1|512||64|budget ca
";

#[test]
fn the_least_turn_is_stuck(rt: HostRuntime) -> Result<(), Fail> {
    hold(&rt, rt.alloc(), LEAST, 6)
}

/// Where the least turn is settled by a planted proof, and doesn't win, the next one is stuck with its own reason: its
/// search is kept, though it isn't its worker's first.
const NEXT: &str = "\
(;SZ[4:1]AW[ba]PL[B]TR[ba])|1|512||1|budget da||(;SZ[4:1]AW[ba]PL[B];B[ca]TR[ba])
(;SZ[4:1]AW[ba]PL[B]TR[ba])|1|512||2|budget da||(;SZ[4:1]AW[ba]PL[B];B[ca]TR[ba])
(;SZ[4:1]AW[ba]PL[B]TR[ba])|1|512||64|budget da||(;SZ[4:1]AW[ba]PL[B];B[ca]TR[ba])
";

#[test]
fn the_next_turn_is_stuck_with_its_search(rt: HostRuntime) -> Result<(), Fail> {
    hold(&rt, rt.alloc(), NEXT, 3)
}
