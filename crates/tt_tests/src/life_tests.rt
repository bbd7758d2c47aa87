//! Unconditional life, with what tests/model.py says by its definition.

use crate::problem_tests::posed;
use crate::rows::{Table, cut, holding};
use std::alloc::Global;
use tt_life::has_unconditional_life;

/// Whether the targets of a problem are unconditionally alive, and the problem. The first has two eyes by the rule that a chain touches
/// each empty point of an eye; then come an eye with a stone of the attacker, eyes that two chains share, a liberty outside the region,
/// the same liberty within, and one eye too few.
const LIVES: &str = "\
0|(;SZ[5:1]AB[ca]AW[aa][ea]PL[W]TR[ca])
1|(;SZ[5:1]AB[ba][da]PL[B]TR[da])
1|(;SZ[4:3]AB[ab][bb][cb][db][ba][bc]AW[ca]PL[W]TR[bb])
1|(;SZ[3:3]AB[ba][ab][cb][bc]PL[W]TR[ba][bc])
1|(;SZ[7:1]AB[ba][da][fa]PL[W]TR[da])
1|(;SZ[4:1]AB[ba][ca]PL[W]TR[ba]SQ[aa][ba][ca])
0|(;SZ[5:1]AB[ba][ca]PL[W]TR[ba])
0|(;SZ[6:1]AB[ba][ea]PL[W]TR[ba])
0|(;SZ[3:3]AB[ba][ab][bb]AW[cc]PL[W]TR[bb])
0|(;SZ[7:1]AB[ba][ca][ea]AW[fa]PL[W]TR[ba])
0|(;SZ[4:2]AB[ba][bb][da][db]PL[W]TR[ba])
1|(;SZ[4:2]AB[ba][bb][ca][da][db]AW[ab]PL[W]TR[ca])
";

struct LifeTable;

impl Table for LifeTable {
    fn holds(alloc: Global, line: &[u8]) -> bool {
        let (want, text) = cut(line, b'|');
        match posed(alloc, text) {
            Err(_) => false,
            Ok(line) => (want == b"1".as_slice()) == has_unconditional_life(&line),
        }
    }
}

#[test]
fn targets_are_unconditionally_alive(rt: HostRuntime) {
    assert_eq!(&rt; holding::<LifeTable>(rt.alloc(), LIVES, b'\n'), 12);
}
