//! df-pn: proofs that are made after good advice, and after advice that lies.

ghost use Rattle.std.specs.Prelude.{◌≤◌};

use crate::problem_tests::posed;
use crate::proof_tests::replays;
use crate::rows::{Table, holding};
use std::alloc::Global;
use tt_dfpn::{Advice, Certifier, OneFinder, VisitsLeft, find_proof};
use tt_game::{Line, Side, Turn};
use tt_proof::{MOST_DEPTH, Proof, write_cert};
use tt_sgf::{NoMemory, Point};

/// Who wins, the attacker or the defender, and the problem: straight three with either side to move, two stones with liberties on
/// both sides, a stone that its liberties save, one whose capture superko bars, one behind moves.
const PROBLEMS: &str =
    "A(;SZ[7]AB[fa][fb][ac][bc][cc][dc][ec][fc]AW[aa][ea][ab][bb][cb][db][eb]PL[B]TR[cb]SQ[ba][ca][da])
D(;SZ[7]AB[fa][fb][ac][bc][cc][dc][ec][fc]AW[aa][ea][ab][bb][cb][db][eb]PL[W]TR[cb]SQ[ba][ca][da])
A(;SZ[4:1]AW[ba][da]PL[B]TR[ba])
D(;SZ[4:1]AW[ba]PL[B]TR[ba])
D(;SZ[4:1]AW[ba];B[ca];W[da]TR[ba])
A(;SZ[5:1]AW[aa];B[ca]TR[ca])
";

/// How deep the proofs may be that are made of lies.
const ROOM: u16 = 20;

/// The winner and the line of a row.
fn read(alloc: Global, row: &[u8]) -> Option<(Side, Line)> {
    let (winner, problem) = row.split_first()?;
    let winner = if *winner == b'A' {
        Side::Attacker
    } else {
        Side::Defender
    };
    let line = posed(alloc, problem).ok()?;
    Some((winner, line))
}

/// Advice that says any turn, whether it wins or not, legal or not, in the first row or beside the board.
#[derive(Drop)]
struct Liar {
    state: u64,
}

impl Advice for Liar {
    fn advise(
        &mut self,
        _line: &Line,
        _refused: u16,
        _visits: &mut VisitsLeft,
    ) -> Result<Option<Turn>, NoMemory>
        ensures fewer { _visits.new.left ≤ _visits.old.left }
    {
        self.state = self
            .state
            .wrapping_mul(6_364_136_223_846_793_005)
            .wrapping_add(1_442_695_040_888_963_407);
        let number = self.state / 0x1_0000_0000 % 10;
        if number == 9 {
            return Ok(None);
        }
        let point = if number == 7 { 360 } else { number as u16 };
        let turn = match Point::new(point) {
            Some(p) if number < 8 => Turn::Play(p),
            _ => Turn::Pass,
        };
        Ok(Some(turn))
    }
}

/// Whether the proof is the winner's, stands at the line, is no deeper than the room, and its certificate wins there.
fn is_right(alloc: Global, line: &mut Line, proof: &Proof, winner: Side, room: u16) -> bool {
    if proof.side() != winner || proof.depth() > room || !proof.stands_at(line) {
        return false;
    }
    let size = line.frame().size;
    match write_cert(alloc, winner, proof.tree(), size) {
        Ok(text) => replays(alloc, line, text.as_slice()) == Ok(true),
        Err(_) => false,
    }
}

/// How many right proofs for the side come of a hundred lots of lies. None where a wrong one does.
fn proofs_of_lies(alloc: Global, line: &mut Line, winner: Side, side: Side) -> Option<u32> {
    let mut count = 0u32;
    for seed in 0..100u64 {
        let visits = VisitsLeft { left: 500 };
        let mut certifier = Certifier::new(alloc, Liar { state: seed }, false, 1, visits).ok()?;
        let found = certifier.certify(line, side, ROOM);
        if let Some(found) = found.ok()? {
            let proof = found.into_proof()?;
            if !is_right(alloc, line, &proof, winner, ROOM) {
                return None;
            }
            count = count.saturating_add(1);
        }
    }
    Some(count)
}

/// Whether some lies hit upon the winner's proof of a row's problem, and none make a wrong proof for either side.
fn lies_hold(alloc: Global, row: &[u8]) -> Option<bool> {
    let (winner, mut line) = read(alloc, row)?;
    let right = proofs_of_lies(alloc, &mut line, winner, winner)?;
    let wrong = proofs_of_lies(alloc, &mut line, winner, winner.opponent())?;
    Some(right > 0 && wrong == 0)
}

/// Whether the winner's proof is found at a row's problem with so many visits, no deeper than the room.
fn is_found(alloc: Global, row: &[u8], room: u16, visits: u32) -> Option<bool> {
    if room > MOST_DEPTH {
        return None;
    }
    let (winner, mut line) = read(alloc, row)?;
    let mut visits = VisitsLeft { left: visits };
    match find_proof(alloc, &OneFinder, &mut line, room, &mut visits).ok()? {
        Some(proof) => Some(is_right(alloc, &mut line, &proof, winner, room)),
        None => Some(false),
    }
}

struct LieTable;

impl Table for LieTable {
    fn holds(alloc: Global, line: &[u8]) -> bool {
        lies_hold(alloc, line) == Some(true)
    }
}

struct FindTable;

impl Table for FindTable {
    fn holds(alloc: Global, line: &[u8]) -> bool {
        is_found(alloc, line, 512, 10_000) == Some(true)
            && is_found(alloc, line, 512, 0) == Some(false)
            && is_found(alloc, line, 0, 10_000) == Some(false)
    }
}

#[test]
fn lies(rt: HostRuntime) {
    assert_eq!(&rt; holding::<LieTable>(rt.alloc(), PROBLEMS, b'\n'), 6);
}

#[test]
fn finds(rt: HostRuntime) {
    assert_eq!(&rt; holding::<FindTable>(rt.alloc(), PROBLEMS, b'\n'), 6);
}
