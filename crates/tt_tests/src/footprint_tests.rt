//! Footprints, as another program worked them out from the definitions.

use crate::drawings::boards_of;
use crate::footprint_tables::TABLES;
use crate::problem_tests::posed;
use crate::proof_tests::{
    KILLED_CERT, LIVES_CERT, ONE_MOVE, PLAYED, SPLIT, UNPASSED, found, found_passed,
    made_by_attacker, made_by_defender, passed,
};
use crate::rows::{Table, cut, holding};
use std::alloc::Global;
use tt_board::Board;
use tt_game::Line;
use tt_proof::{BoardSet, Footprint, Proof, footprint_of, read_cert};
use tt_sgf::Size;

/// The set of these boards.
fn set_of(alloc: Global, boards: &[Board]) -> Option<BoardSet> {
    let mut made = BoardSet::new(alloc);
    for board in boards {
        made.add(alloc, board).ok()?;
    }
    Some(made)
}

/// Whether the boards that the text draws are held, and no others.
fn are_drawn(alloc: Global, kept: &BoardSet, size: Size, text: &[u8]) -> Option<bool> {
    let drawn = set_of(alloc, &boards_of(alloc, size, text)?)?;
    Some(kept.has_same_as(&drawn))
}

/// Whether the footprint is that of the boards which the texts draw.
fn is_of(
    alloc: Global,
    found: &Footprint,
    size: Size,
    needs: &[u8],
    avoids: &[u8],
) -> Option<bool> {
    Some(
        are_drawn(alloc, &found.needs, size, needs)?
            && are_drawn(alloc, &found.avoids, size, avoids)?,
    )
}

/// Whether some of these boards is held.
fn has_any(kept: &BoardSet, boards: &[Board]) -> bool {
    for board in boards {
        if kept.has(board) {
            return true;
        }
    }
    false
}

/// Whether the footprint fits the history exactly where a plus stands before it. No problem has most of these histories, so
/// its two sets are asked, and no line.
fn fits_so(alloc: Global, found: &Footprint, size: Size, text: &[u8]) -> Option<bool> {
    let (sign, drawn) = text.split_first()?;
    let history = boards_of(alloc, size, drawn)?;
    let all = set_of(alloc, &history)?;
    let mut with_needs = all.try_clone(alloc).ok()?;
    with_needs.join(found.needs.try_clone(alloc).ok()?).ok()?;
    let fits = with_needs.has_same_as(&all) && !has_any(&found.avoids, &history);
    Some(fits == (*sign == b'+'))
}

/// Whether that holds of each of the six histories.
fn fits_those(alloc: Global, found: &Footprint, size: Size, text: &[u8]) -> Option<bool> {
    let mut rest = text;
    for _ in 0..6 {
        let (history, behind) = cut(rest, b',');
        if !fits_so(alloc, found, size, history)? {
            return Some(false);
        }
        rest = behind;
    }
    Some(rest.is_empty())
}

/// The footprint of a certificate's tree at the line, by a walk through the tree.
fn walked_at(alloc: Global, line: &mut Line, certificate: &[u8]) -> Option<Footprint> {
    let (_, tree) = read_cert(alloc, certificate, line.frame().size).ok()?;
    footprint_of(alloc, &tree, line).ok()
}

/// That footprint at a problem.
fn walked(alloc: Global, problem: &[u8], certificate: &[u8]) -> Option<Footprint> {
    let mut line = posed(alloc, problem).ok()?;
    walked_at(alloc, &mut line, certificate)
}

/// The footprint of a proof at a line, where it fits.
fn carried_to(alloc: Global, proof: &Proof, line: &mut Line) -> Option<Footprint> {
    if !proof.fits(line) {
        return None;
    }
    proof.footprint_at(alloc, line).ok()
}

/// The footprint of a proof at a problem, where it fits.
fn carried_there(alloc: Global, proof: &Proof, problem: &[u8]) -> Option<Footprint> {
    let mut line = posed(alloc, problem).ok()?;
    carried_to(alloc, proof, &mut line)
}

/// The footprint of a certificate's proof at another problem, where it fits.
fn carried(alloc: Global, problem: &[u8], certificate: &[u8], other: &[u8]) -> Option<Footprint> {
    let proof = found(alloc, problem, certificate)?;
    carried_there(alloc, &proof, other)
}

/// The size of a problem's board.
fn size_of(alloc: Global, problem: &[u8]) -> Option<Size> {
    let line = posed(alloc, problem).ok()?;
    Some(line.frame().size)
}

/// Whether the certificate's tree has the footprint that is drawn, by a walk.
fn walks(
    alloc: Global,
    problem: &[u8],
    certificate: &[u8],
    needs: &[u8],
    avoids: &[u8],
) -> Option<bool> {
    let size = size_of(alloc, problem)?;
    let found = walked(alloc, problem, certificate)?;
    is_of(alloc, &found, size, needs, avoids)
}

/// Whether the certificate's proof has that footprint at another problem, where it fits.
fn carries(
    alloc: Global,
    problem: &[u8],
    certificate: &[u8],
    other: &[u8],
    needs: &[u8],
    avoids: &[u8],
) -> Option<bool> {
    let size = size_of(alloc, other)?;
    let found = carried(alloc, problem, certificate, other)?;
    is_of(alloc, &found, size, needs, avoids)
}

/// Whether the certificate's proof fits where the histories say so.
fn fits(alloc: Global, problem: &[u8], certificate: &[u8], histories: &[u8]) -> Option<bool> {
    let size = size_of(alloc, problem)?;
    let found = carried(alloc, problem, certificate, problem)?;
    fits_those(alloc, &found, size, histories)
}

/// Whether the certificate's tree has that footprint, by a walk and as a proof, and fits where the histories say so.
fn holds(alloc: Global, problem: &[u8], certificate: &[u8], expected: &[u8]) -> Option<bool> {
    let (needs, rest) = cut(expected, b'|');
    let (avoids, histories) = cut(rest, b'|');
    Some(
        walks(alloc, problem, certificate, needs, avoids)?
            && carries(alloc, problem, certificate, problem, needs, avoids)?
            && fits(alloc, problem, certificate, histories)?,
    )
}

struct FootprintTable;

impl Table for FootprintTable {
    fn holds(alloc: Global, line: &[u8]) -> bool {
        let (problem, rest) = cut(line, b'|');
        let (certificate, expected) = cut(rest, b'|');
        holds(alloc, problem, certificate, expected) == Some(true)
    }
}

#[test]
fn tables(rt: HostRuntime) {
    assert_eq!(&rt; holding::<FootprintTable>(rt.alloc(), TABLES, b'\n'), 296);
}

/// Whether the proof, if there is one, needs and avoids the drawn boards, and no others.
fn rests_on(alloc: Global, proof: Option<Proof>, needs: &[u8], avoids: &[u8]) -> Option<bool> {
    let proof = proof?;
    is_of(
        alloc,
        proof.footprint(),
        proof.present().size(),
        needs,
        avoids,
    )
}

/// Whether a proof rests on what the attacker's proof of the first problem needs and avoids.
fn rests_as_killed(alloc: Global, proof: Option<Proof>) -> bool {
    rests_on(alloc, proof, b".W.W", b".WB./B.B.") == Some(true)
}

/// Whether a proof rests on what the defender's of the second does.
fn rests_as_lives(alloc: Global, proof: Option<Proof>) -> bool {
    rests_on(alloc, proof, b".W.W/.WB.", b"") == Some(true)
}

#[test]
fn of_worked_proofs(rt: HostRuntime) {
    let alloc = rt.alloc();
    assert!(&rt; rests_as_killed(alloc, found(alloc, SPLIT, KILLED_CERT)));
    assert!(&rt; rests_as_killed(alloc, made_by_attacker(alloc)));
    assert!(&rt; rests_as_lives(alloc, found(alloc, PLAYED, LIVES_CERT)));
    assert!(&rt; rests_as_lives(alloc, made_by_defender(alloc)));
}

/// Whether the attacker's proof of the first problem has its footprint at a problem.
fn killed_at(alloc: Global, other: &[u8]) -> bool {
    carries(alloc, SPLIT, KILLED_CERT, other, b".W.W", b".WB./B.B.") == Some(true)
}

/// Whether the defender's proof of the second problem has its footprint there.
fn lives_there(alloc: Global) -> bool {
    carries(alloc, PLAYED, LIVES_CERT, PLAYED, b".W.W/.WB.", b"") == Some(true)
}

#[test]
fn at_a_history(rt: HostRuntime) {
    let alloc = rt.alloc();
    assert!(&rt; killed_at(alloc, SPLIT), "its own");
    assert!(&rt; lives_there(alloc), "its own");
    assert!(&rt; killed_at(alloc, ONE_MOVE), "another");
}

/// How many boards the history of a problem has.
fn history_length(alloc: Global, problem: &[u8]) -> Option<usize> {
    let line = posed(alloc, problem).ok()?;
    Some(line.history().len())
}

/// Whether two lines differ in this alone of what is asked before the lists are: one side has passed at the first.
fn differ_by_a_pass(line: &Line, other: &Line) -> bool {
    line.passes() == 1
        && other.passes() == 0
        && line.to_move() == other.to_move()
        && line.present().same(other.present())
}

/// Whether a line and that of the problem where nobody has passed do.
fn is_past_unpassed(alloc: Global, line: &Line) -> Option<bool> {
    let other = posed(alloc, UNPASSED).ok()?;
    Some(differ_by_a_pass(line, &other))
}

/// Whether the second problem after a pass and that one do.
fn passed_differs(alloc: Global) -> Option<bool> {
    let line = passed(alloc)?;
    is_past_unpassed(alloc, &line)
}

/// What the tests above take for granted: the other history is another one, and between two lines a pass alone decides. Behind
/// a pass a proof may need nothing and avoid nothing.
#[test]
fn of_other_lines(rt: HostRuntime) {
    let alloc = rt.alloc();
    assert!(&rt; history_length(alloc, SPLIT) == Some(1));
    assert!(&rt; history_length(alloc, ONE_MOVE) == Some(2));
    assert!(&rt; passed_differs(alloc) == Some(true));
    let proof = found_passed(alloc, b"lives !--.");
    assert!(&rt; rests_on(alloc, proof, b"", b"") == Some(true));
}
