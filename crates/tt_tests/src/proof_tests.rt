//! Certificates against problems, and proofs made in both ways.

ghost use Rattle.std.specs.Prelude.{◌≡◌, ◌↔◌, IsTrue};
ghost use Rattle.tt_game.specs.Game.{IsLegal};
ghost use Rattle.tt_game.specs.Turns.{IsTurnOnBoard};
ghost use Rattle.tt_proof.specs.ProofClaim.{IsChild, AreReplyChildren, turns_of};

use crate::problem_tests::{posed, turn};
use crate::rows::{Table, cut, holding, short_number};
use crate::sgf_tests::put;
use crate::text_tables::{CERTIFICATES, FITS};
use std::alloc::{AllocError, Global};
use tt_game::{Line, Side, Turn};
use tt_proof::{Proof, Rejected, Tree, read_cert, replay, write_cert};

/// Whether the certificate wins at the line, or the number of the refusal.
pub fn replays(alloc: Global, line: &mut Line, certificate: &[u8]) -> Result<bool, u8> {
    match read_cert(alloc, certificate, line.frame().size) {
        Err(fault) => Err(fault.code()),
        Ok((side, tree)) => match replay(&tree, side, line) {
            Ok(wins) => Ok(wins),
            Err(_) => Err(40),
        },
    }
}

/// Whether the certificate wins at the record's problem, or the number of the refusal.
fn check(alloc: Global, record: &[u8], certificate: &[u8]) -> Result<bool, u8> {
    let mut line = posed(alloc, record)?;
    replays(alloc, &mut line, certificate)
}

/// Black to move, with White's two stones that have liberties on both sides, the first one the target; and the same after
/// moves.
pub(crate) const SPLIT: &[u8] = b"(;SZ[4:1]AW[ba][da]PL[B]TR[ba])";

pub(crate) const PLAYED: &[u8] = b"(;SZ[4:1]AW[ba];B[ca];W[da]TR[ba])";

/// The position of the second problem after a pass, where nobody has passed.
pub(crate) const UNPASSED: &[u8] = b"(;SZ[4:1]AW[ba][da]PL[W]TR[ba])";

/// The first problem after one move.
pub(crate) const ONE_MOVE: &[u8] = b"(;SZ[4:1]AW[da]PL[W];W[ba]TR[ba])";

/// The certificates of the first problem and of the second one.
pub(crate) const KILLED_CERT: &[u8] = b"killed !ca?aa.--!aa.;";

pub(crate) const LIVES_CERT: &[u8] = b"lives ?--!--.;";

/// Whether what comes of a certificate at a problem is as it is written.
fn comes_to(alloc: Global, record: &[u8], certificate: &[u8], want: &[u8]) -> bool {
    match check(alloc, record, certificate) {
        Ok(true) => want == b"wins".as_slice(),
        Ok(false) => want == b"fails".as_slice(),
        Err(code) => u16::from(code) == short_number(want),
    }
}

struct CertificateTable;

impl Table for CertificateTable {
    fn holds(alloc: Global, line: &[u8]) -> bool {
        let (want, rest) = cut(line, b'|');
        let (record, certificate) = cut(rest, b'|');
        comes_to(alloc, record, certificate, want)
    }
}

#[test]
fn certificates(rt: HostRuntime) {
    assert_eq!(&rt;
        holding::<CertificateTable>(rt.alloc(), CERTIFICATES, b'\n'),
        17
    );
}

/// A certificate of so many levels, with that end.
fn deep(alloc: Global, levels: usize, end: &[u8]) -> Result<Vec<u8>, AllocError> {
    let mut text = Vec::new(alloc);
    put(&mut text, b"killed ", 1)?;
    put(&mut text, b"!--", levels)?;
    put(&mut text, end, 1)?;
    Ok(text)
}

/// Whether it is refused with this number.
fn deep_is(alloc: Global, levels: usize, end: &[u8], code: u8) -> bool {
    match deep(alloc, levels, end) {
        Ok(text) => check(alloc, SPLIT, &text) == Err(code),
        Err(AllocError) => false,
    }
}

/// As many levels as may be read, without an end, and one more.
#[test]
fn deep_certificates(rt: HostRuntime) {
    let alloc = rt.alloc();
    assert!(&rt; deep_is(alloc, 512, b"", 30));
    assert!(&rt; deep_is(alloc, 513, b".", 31));
}

/// Whether the turn names a point of the board.
fn on_board(line: &Line, turn: &Turn) -> bool
    ensures { IsTrue result ↔ IsTurnOnBoard line.now.frame turn.now }
{
    match turn {
        Turn::Pass => true,
        Turn::Play(p) => line.frame().size.holds(*p),
    }
}

/// Whether the child is the side's and stands after the turn, with room above it.
fn is_child(line: &mut Line, side: Side, turn: &Turn, child: &Proof) -> bool
    ensures child { IsTrue result → IsLegal line.old.frame line.old.state turn.now
        × IsChild line.old.frame line.old.state side turn.now child.now }
    ensures same { line.new ≡ line.old }
{
    if !on_board(line, turn) {
        return false;
    }
    if line.push(*turn).is_err() {
        return false;
    }
    let stands = child.stands_at(line);
    line.pop();
    stands && child.side() == side && child.depth() <= 511
}

/// The proof that picks a turn, where that is the child behind it.
fn picked(alloc: Global, line: &mut Line, turn: &Turn, child: Proof) -> Option<Proof> {
    let side = line.to_move();
    if !is_child(line, side, turn, &child) {
        return None;
    }
    Proof::pick(alloc, line, *turn, child).ok()
}

/// Whether there is one child for each turn.
fn are_children(line: &mut Line, turns: &[Turn], children: &[(Turn, Proof)]) -> bool
    ensures turns { IsTrue result → turns_of children.now ≡ turns.now }
    ensures children { IsTrue result → AreReplyChildren line.old.frame line.old.state children.now }
    ensures same { line.new ≡ line.old }
{
    if children.len() != turns.len() {
        return false;
    }
    let side = line.to_move().opponent();
    for index in 0..turns.len() {
        let child = &children[index];
        if child.0 != turns[index] {
            return false;
        }
        if !is_child(line, side, &child.0, &child.1) {
            return false;
        }
    }
    true
}

/// The proof that answers each turn, where those are the children behind them.
fn answered(alloc: Global, line: &mut Line, children: Vec<(Turn, Proof)>) -> Option<Proof> {
    let turns = line.turns();
    if line.winner().is_some() {
        return None;
    }
    if !are_children(line, turns.as_slice(), children.as_slice()) {
        return None;
    }
    Proof::reply(alloc, line, children).ok()
}

/// The proof of a line that is won.
fn won(alloc: Global, line: &Line) -> Option<Proof> {
    if line.winner().is_none() {
        return None;
    }
    Proof::done(alloc, line).ok()
}

/// The line after a turn.
fn after(line: &Line, turn: &Turn) -> Option<Line> {
    if !on_board(line, turn) {
        return None;
    }
    let mut next = line.try_clone().ok()?;
    match next.push(*turn) {
        Ok(()) => Some(next),
        Err(_) => None,
    }
}

/// The second problem after a pass.
pub(crate) fn passed(alloc: Global) -> Option<Line> {
    let line = posed(alloc, PLAYED).ok()?;
    after(&line, &Turn::Pass)
}

/// The proof of a certificate at a line, by a replay.
fn replayed(alloc: Global, line: &mut Line, certificate: &[u8]) -> Option<Proof> {
    let (side, tree) = read_cert(alloc, certificate, line.frame().size).ok()?;
    match Proof::replayed(alloc, line, side, tree) {
        Ok(proof) => Some(proof),
        Err(Rejected::NotWinning(_)) => None,
        Err(Rejected::NoMemory(_)) => None,
    }
}

/// The proof of a certificate at a problem.
pub(crate) fn found(alloc: Global, record: &[u8], certificate: &[u8]) -> Option<Proof> {
    let mut line = posed(alloc, record).ok()?;
    replayed(alloc, &mut line, certificate)
}

/// The proof of a certificate at the second problem after a pass.
pub(crate) fn found_passed(alloc: Global, certificate: &[u8]) -> Option<Proof> {
    let mut line = passed(alloc)?;
    replayed(alloc, &mut line, certificate)
}

/// Whether a proof is written as that certificate.
fn has_text(alloc: Global, proof: &Proof, text: &[u8]) -> bool {
    let size = proof.present().size();
    match write_cert(alloc, proof.side(), proof.tree(), size) {
        Ok(written) => written.as_slice() == text,
        Err(_) => false,
    }
}

/// Whether a copy of a proof's measured tree is so deep.
fn has_copy(proof: &Proof, depth: u16) -> bool {
    match proof.measured_tree().try_clone() {
        Ok(copy) => copy.depth() == depth,
        Err(_) => false,
    }
}

/// Whether a proof of the first problem says what its certificate does, which begins with this turn.
fn shows_killed(proof: &Proof, first: Turn) -> bool {
    proof.side() == Side::Attacker
        && proof.first() == Some(first)
        && proof.depth() == 3
        && proof.nodes() == 5
        && has_copy(proof, 3)
}

/// Whether the proof of the first problem's certificate does.
fn found_shows_killed(alloc: Global) -> Option<bool> {
    let proof = found(alloc, SPLIT, KILLED_CERT)?;
    Some(shows_killed(&proof, turn(proof.present().size(), 2)))
}

/// Whether the proof of a certificate is written as it was read.
fn found_has_text(alloc: Global, record: &[u8], certificate: &[u8]) -> Option<bool> {
    let proof = found(alloc, record, certificate)?;
    Some(has_text(alloc, &proof, certificate))
}

#[test]
fn proofs_by_replay(rt: HostRuntime) {
    let alloc = rt.alloc();
    assert!(&rt; found_shows_killed(alloc) == Some(true));
    assert!(&rt; found_has_text(alloc, SPLIT, KILLED_CERT) == Some(true));
    assert!(&rt; found_has_text(alloc, PLAYED, LIVES_CERT) == Some(true));
}

/// Whether the tree of a certificate is refused at a line since it doesn't win there.
fn is_rejected(alloc: Global, line: &mut Line, certificate: &[u8]) -> Option<bool> {
    let (side, tree) = read_cert(alloc, certificate, line.frame().size).ok()?;
    match Proof::replayed(alloc, line, side, tree) {
        Ok(_) => Some(false),
        Err(Rejected::NotWinning(_)) => Some(true),
        Err(Rejected::NoMemory(_)) => Some(false),
    }
}

/// Whether it is at a problem.
fn is_rejected_at(alloc: Global, record: &[u8], certificate: &[u8]) -> Option<bool> {
    let mut line = posed(alloc, record).ok()?;
    is_rejected(alloc, &mut line, certificate)
}

/// Each of two certificates at the other's problem.
#[test]
fn trees_that_do_not_win(rt: HostRuntime) {
    let alloc = rt.alloc();
    assert!(&rt; is_rejected_at(alloc, PLAYED, KILLED_CERT) == Some(true));
    assert!(&rt; is_rejected_at(alloc, SPLIT, LIVES_CERT) == Some(true));
    assert!(&rt; is_rejected_at(alloc, SPLIT, KILLED_CERT) == Some(false));
}

/// The proof after a turn with which the problem is won.
fn won_after(alloc: Global, line: &Line, turn: &Turn) -> Option<Proof> {
    let over = after(line, turn)?;
    won(alloc, &over)
}

/// The proof that picks a turn with which the problem is won.
fn winning_pick(alloc: Global, line: &mut Line, turn: &Turn) -> Option<Proof> {
    let child = won_after(alloc, line, turn)?;
    picked(alloc, line, turn, child)
}

/// The proof after a pass, which picks a turn with which the problem is won.
fn picked_after_pass(alloc: Global, line: &Line, turn: &Turn) -> Option<Proof> {
    let mut passed = after(line, &Turn::Pass)?;
    winning_pick(alloc, &mut passed, turn)
}

/// Adds a turn and the proof behind it.
fn put_child(children: &mut Vec<(Turn, Proof)>, turn: Turn, child: Option<Proof>) -> Option<()> {
    children.push((turn, child?)).ok()
}

/// The proof after the attacker's first turn, which answers a capture and a pass.
fn reply_of_attacker(alloc: Global, asked: &mut Line, capture: Turn) -> Option<Proof> {
    let mut children = Vec::new(alloc);
    put_child(&mut children, capture, won_after(alloc, asked, &capture))?;
    put_child(
        &mut children,
        Turn::Pass,
        picked_after_pass(alloc, asked, &capture),
    )?;
    answered(alloc, asked, children)
}

/// That proof, of the line at which the attacker has the first turn.
fn reply_after(alloc: Global, line: &Line, first: &Turn, capture: Turn) -> Option<Proof> {
    let mut asked = after(line, first)?;
    reply_of_attacker(alloc, &mut asked, capture)
}

/// The proof that picks a turn, which is answered by a capture or a pass.
fn pick_of_attacker(alloc: Global, line: &mut Line, first: &Turn, capture: Turn) -> Option<Proof> {
    let reply = reply_after(alloc, line, first, capture)?;
    picked(alloc, line, first, reply)
}

/// The attacker's proof of the first problem, made turn by turn.
pub(crate) fn made_by_attacker(alloc: Global) -> Option<Proof> {
    let mut line = posed(alloc, SPLIT).ok()?;
    let size = line.frame().size;
    pick_of_attacker(alloc, &mut line, &turn(size, 2), turn(size, 0))
}

/// The proof that answers a pass, behind which it picks a pass.
fn reply_of_defender(alloc: Global, line: &mut Line) -> Option<Proof> {
    let mut children = Vec::new(alloc);
    put_child(
        &mut children,
        Turn::Pass,
        picked_after_pass(alloc, line, &Turn::Pass),
    )?;
    answered(alloc, line, children)
}

/// The defender's proof of the second problem, made turn by turn.
pub(crate) fn made_by_defender(alloc: Global) -> Option<Proof> {
    let mut line = posed(alloc, PLAYED).ok()?;
    reply_of_defender(alloc, &mut line)
}

/// Whether a proof that was made is written as that certificate.
fn made_has_text(alloc: Global, made: Option<Proof>, text: &[u8]) -> Option<bool> {
    let proof = made?;
    Some(has_text(alloc, &proof, text))
}

#[test]
fn proofs_by_parts(rt: HostRuntime) {
    let alloc = rt.alloc();
    assert!(&rt; made_has_text(alloc, made_by_attacker(alloc), KILLED_CERT) == Some(true));
    assert!(&rt; made_has_text(alloc, made_by_defender(alloc), LIVES_CERT) == Some(true));
}

/// The letters of what is so of a proof and a line: `k` where it has the line's key, `f` where it fits the line, and `s` where
/// it stands there; a dash where not.
fn letters(proof: &Proof, line: &Line) -> [u8; 3] {
    [
        if proof.has_key(&line.key()) {
            b'k'
        } else {
            b'-'
        },
        if proof.fits(line) { b'f' } else { b'-' },
        if proof.stands_at(line) { b's' } else { b'-' },
    ]
}

/// Whether that is so of a proof and the line of a problem.
fn is_so_at(alloc: Global, proof: &Proof, record: &[u8], want: &[u8]) -> Option<bool> {
    let line = posed(alloc, record).ok()?;
    Some(letters(proof, &line).as_slice() == want)
}

/// Whether that is so of the proof of a certificate at the first problem, and the line of the other.
fn found_is_so(
    alloc: Global,
    record: &[u8],
    certificate: &[u8],
    other: &[u8],
    want: &[u8],
) -> Option<bool> {
    let proof = found(alloc, record, certificate)?;
    is_so_at(alloc, &proof, other, want)
}

struct FitTable;

impl Table for FitTable {
    fn holds(alloc: Global, line: &[u8]) -> bool {
        let (want, rest) = cut(line, b'|');
        let (record, rest) = cut(rest, b'|');
        let (certificate, other) = cut(rest, b'|');
        found_is_so(alloc, record, certificate, other, want) == Some(true)
    }
}

/// Whether that is so of the proof that is made turn by turn, and the line of a problem.
fn made_is_so(alloc: Global, record: &[u8], want: &[u8]) -> Option<bool> {
    let made = made_by_attacker(alloc)?;
    is_so_at(alloc, &made, record, want)
}

#[test]
fn proofs_fit(rt: HostRuntime) {
    let alloc = rt.alloc();
    assert_eq!(&rt; holding::<FitTable>(alloc, FITS, b'\n'), 6);
    assert!(&rt; made_is_so(alloc, SPLIT, b"kfs") == Some(true));
    assert!(&rt; made_is_so(alloc, PLAYED, b"k--") == Some(true));
    assert!(&rt; made_is_so(alloc, ONE_MOVE, b"kf-") == Some(true));
}

/// Whether a proof stands at the second problem after a pass.
fn stands_passed(alloc: Global, proof: &Proof) -> Option<bool> {
    let line = passed(alloc)?;
    Some(letters(proof, &line).as_slice() == b"kfs".as_slice())
}

/// Whether the proof of a certificate at the second problem after a pass stands there.
fn found_stands_passed(alloc: Global, certificate: &[u8]) -> Option<bool> {
    let proof = found_passed(alloc, certificate)?;
    stands_passed(alloc, &proof)
}

/// Whether that is so of the proof of a certificate at the second problem after a pass, and the line of a problem.
fn found_passed_is_so(
    alloc: Global,
    certificate: &[u8],
    other: &[u8],
    want: &[u8],
) -> Option<bool> {
    let proof = found_passed(alloc, certificate)?;
    is_so_at(alloc, &proof, other, want)
}

/// A proof behind a pass stands there, and does not even fit where nobody has passed.
#[test]
fn passes_fit(rt: HostRuntime) {
    let alloc = rt.alloc();
    assert!(&rt; found_stands_passed(alloc, b"lives !--.") == Some(true));
    assert!(&rt; found_passed_is_so(alloc, b"lives !--.", UNPASSED, b"---") == Some(true));
}
