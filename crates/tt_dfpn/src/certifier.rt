//! The certifier: proofs made bottom up at the exact line, after advice that nobody has to believe.
//!
//! It is up to 512 turns deep. What isn't on the way down is never inlined, so that it takes no stack at each turn.

ghost use Rattle.std.specs.Prelude.{◌≡◌, ◌≤◌, ◌<◌, ℕ, true, IfOk, IfSome, None};
ghost use Rattle.tt_game.specs.Game.{winner_of, opponent, IsLegal};
ghost use Rattle.tt_life.specs.Life.{HasWonOrLives};
ghost use Rattle.tt_proof.specs.declared.tree.TheConstants.{MOST_DEPTH};
ghost use Rattle.tt_proof.specs.ProofClaim.{IsChild};
ghost use Rattle.tt_proof.specs.Strategy.{depth};
ghost use Rattle.tt_dfpn.specs.ProofWithin.{IsProofWithin};
ghost use Rattle.tt_dfpn.specs.inside.Certifying.{AreLegal, IsChildWithin};

use crate::advice::{Advice, VisitsLeft};
use crate::memo::Memo;
use std::alloc::Global;
use tt_game::{Line, MOST_LEGAL, Side, Turn};
use tt_proof::LifeProof;
use tt_sgf::NoMemory;

/// How many turns the certifier asks for at one line.
const MOST_ADVISED_TURNS: u16 = MOST_LEGAL as u16;

/// Makes proofs after advice, and keeps them. All may end at life, or none does.
#[derive(Drop)]
pub struct Certifier<A: Advice> {
    pub advice: A,
    pub visits: VisitsLeft,
    alloc: Global,
    pub(crate) memo: Memo,
}

/// Whether a proof for the side may end at the line, since its targets live and the attacker is to move.
fn ends_at_life(line: &Line, side: Side, memo: &mut Memo) -> bool
    ensures { result ≡ true → HasWonOrLives side line.now.frame line.now.state }
{
    side == Side::Defender && line.to_move() == Side::Attacker && memo.may_end_here(line)
}

impl<A: Advice> Certifier<A> {
    /// A certifier that has made nothing, with so many visits, for lines of whose boards so many were given.
    pub fn new(
        alloc: Global,
        advice: A,
        may_end_at_life: bool,
        given_boards: usize,
        visits: VisitsLeft,
    ) -> Result<Certifier<A>, NoMemory>
        ensures { IfOk result (λ c. c.visits ≡ visits) }
    {
        let memo = Memo::new(alloc, may_end_at_life, given_boards)?;
        Ok(Certifier {
            advice,
            visits,
            alloc,
            memo,
        })
    }

    /// A proof for the side at the line, of a depth within the room, or none. The line stands as before, also after want of memory.
    #[cycle(certifying)]
    pub fn certify(
        &mut self,
        line: &mut Line,
        side: Side,
        room: u16,
    ) -> Result<Option<LifeProof>, NoMemory>
        requires room { room ≤ MOST_DEPTH }
        ensures found { IfOk result
            (λ o. IfSome o (IsProofWithin side room line.old.frame line.old.state)) }
        ensures fewer { self.new.visits.left ≤ self.old.visits.left }
        ensures same { line.new ≡ line.old }
    {
        match line.winner() {
            Some(winner) => self.proof_if_won(line, side, winner),
            None => {
                if ends_at_life(line, side, &mut self.memo) {
                    return self.proof_that_ends(line, side);
                }
                if line.to_move() == side {
                    let known = self.memo.known_proof(line, side, room)?;
                    if known.is_some() {
                        return Ok(known);
                    }
                }
                if room == 0 || self.visits.left == 0 {
                    return Ok(None);
                }
                self.proof_by_visit(line, side, room)
            }
        }
    }

    /// The same where nobody has won and nothing is known: a visit. A proof is kept where the side is to move: fewer lines lead to the
    /// others.
    #[cycle(certifying)]
    #[inline(never)]
    fn proof_by_visit(
        &mut self,
        line: &mut Line,
        side: Side,
        room: u16,
    ) -> Result<Option<LifeProof>, NoMemory>
        requires room { room ≤ MOST_DEPTH }
        requires some { 0 < room }
        requires left { 0 < self.old.visits.left }
        requires nobody { winner_of line.old.frame line.old.state ≡ None }
        ensures found { IfOk result
            (λ o. IfSome o (IsProofWithin side room line.old.frame line.old.state)) }
        ensures counts { self.new.visits.left < self.old.visits.left }
        ensures same { line.new ≡ line.old }
    {
        self.visits.left -= 1;
        if self.memo.has_ended() {
            return Ok(None);
        }
        if line.to_move() != side {
            return self.proof_by_reply(line, side, room);
        }
        self.memo.begin(line);
        let found = self.proof_by_advice(line, side, room)?;
        self.memo.keep(line, &found);
        self.memo.end(line);
        Ok(found)
    }

    /// The proof where the winner has won, if this is the side.
    #[inline(never)]
    fn proof_if_won(
        &self,
        line: &Line,
        side: Side,
        winner: Side,
    ) -> Result<Option<LifeProof>, NoMemory>
        requires { winner_of line.now.frame line.now.state ≡ Some winner }
        ensures { IfOk result (λ o. IfSome o (IsProofWithin side 0 line.now.frame line.now.state)) }
    {
        if winner != side {
            return Ok(None);
        }
        self.proof_that_ends(line, side)
    }

    /// The proof where the side has won or lives.
    #[inline(never)]
    fn proof_that_ends(&self, line: &Line, side: Side) -> Result<Option<LifeProof>, NoMemory>
        requires { HasWonOrLives side line.now.frame line.now.state }
        ensures { IfOk result (λ o. IfSome o (IsProofWithin side 0 line.now.frame line.now.state)) }
    {
        let proof = LifeProof::done(self.alloc, line, side)?;
        Ok(Some(proof))
    }

    /// The proof behind a legal turn, for the side, or none. The line stands as before.
    #[cycle(certifying)]
    #[inline(never)]
    fn proof_after(
        &mut self,
        line: &mut Line,
        side: Side,
        room: u16,
        turn: &Turn,
    ) -> Result<Option<LifeProof>, NoMemory>
        requires room { room < MOST_DEPTH }
        requires legal { IsLegal line.old.frame line.old.state turn.now }
        ensures found { IfOk result
            (λ o. IfSome o (IsChildWithin side room line.old.frame line.old.state turn.now)) }
        ensures fewer { self.new.visits.left ≤ self.old.visits.left }
        ensures same { line.new ≡ line.old }
    {
        line.push_legal(*turn)?;
        let found = self.certify(line, side, room);
        line.pop();
        found
    }

    /// The proof that plays an advised turn, where the side is to move. Each turn that is refused is asked for again. Where the proof may
    /// end at life, a defender whose targets live passes.
    #[cycle(certifying)]
    #[inline(never)]
    fn proof_by_advice(
        &mut self,
        line: &mut Line,
        side: Side,
        room: u16,
    ) -> Result<Option<LifeProof>, NoMemory>
        requires room { room ≤ MOST_DEPTH }
        requires some { 0 < room }
        requires to_move { line.old.state.to_move ≡ side }
        ensures found { IfOk result
            (λ o. IfSome o (IsProofWithin side room line.old.frame line.old.state)) }
        ensures fewer { self.new.visits.left ≤ self.old.visits.left }
        ensures same { line.new ≡ line.old }
    {
        if side == Side::Defender && self.memo.may_end_here(line) {
            return self.proof_by_turn(line, side, room, &Turn::Pass);
        }
        for refused in 0..MOST_ADVISED_TURNS {
            let Some(turn) = self.advice.advise(line, refused, &mut self.visits)? else {
                return Ok(None);
            };
            let proof_by_turn = self.proof_by_turn(line, side, room, &turn)?;
            if proof_by_turn.is_some() {
                return Ok(proof_by_turn);
            }
        }
        Ok(None)
    }

    /// The proof that plays this turn, where it is legal and the side wins behind it.
    #[cycle(certifying)]
    #[inline(never)]
    fn proof_by_turn(
        &mut self,
        line: &mut Line,
        side: Side,
        room: u16,
        turn: &Turn,
    ) -> Result<Option<LifeProof>, NoMemory>
        requires room { room ≤ MOST_DEPTH }
        requires some { 0 < room }
        requires to_move { line.old.state.to_move ≡ side }
        ensures found { IfOk result
            (λ o. IfSome o (IsProofWithin side room line.old.frame line.old.state)) }
        ensures fewer { self.new.visits.left ≤ self.old.visits.left }
        ensures same { line.new ≡ line.old }
    {
        if !line.is_legal(*turn) {
            return Ok(None);
        }
        let child = self.proof_after(line, side, room - 1, turn)?;
        self.proof_from_child(line, turn, child)
    }

    /// The proof that plays the turn and goes on with the child, where there is one.
    #[inline(never)]
    fn proof_from_child(
        &self,
        line: &Line,
        turn: &Turn,
        child: Option<LifeProof>,
    ) -> Result<Option<LifeProof>, NoMemory>
        requires legal { IsLegal line.now.frame line.now.state turn.now }
        requires child { IfSome child (IsChild line.now.frame line.now.state line.now.state.to_move turn.now) }
        ensures { (room : ℕ) → IfSome child (λ p. depth p.tree < room)
            → IfOk result
            (λ o. IfSome o (IsProofWithin line.now.state.to_move room line.now.frame line.now.state)) }
    {
        let Some(child) = child else {
            return Ok(None);
        };
        let proof = LifeProof::pick(self.alloc, line, *turn, child)?;
        Ok(Some(proof))
    }

    /// The proof behind one of the replies, which are all legal turns. Where another certifier is at it, the replies behind it come first.
    #[cycle(certifying)]
    fn proof_of_reply(
        &mut self,
        line: &mut Line,
        side: Side,
        room: u16,
        turn: &Turn,
        replies: &[Turn],
    ) -> Result<Option<LifeProof>, NoMemory>
        requires room { room < MOST_DEPTH }
        requires legal { IsLegal line.old.frame line.old.state turn.now }
        requires replies { AreLegal line.old.frame line.old.state replies.now }
        ensures found { IfOk result
            (λ o. IfSome o (IsChildWithin side room line.old.frame line.old.state turn.now)) }
        ensures fewer { self.new.visits.left ≤ self.old.visits.left }
        ensures same { line.new ≡ line.old }
    {
        if self.memo.is_begun_behind(line, turn)?
            && !self.go_ahead(line, side, room, turn, replies)?
        {
            return Ok(None);
        }
        self.proof_after(line, side, room, turn)
    }

    /// Certifies the replies behind this one at which no other certifier is; whether each has a proof. These are only kept.
    #[cycle(certifying)]
    #[inline(never)]
    fn go_ahead(
        &mut self,
        line: &mut Line,
        side: Side,
        room: u16,
        turn: &Turn,
        replies: &[Turn],
    ) -> Result<bool, NoMemory>
        requires room { room < MOST_DEPTH }
        requires replies { AreLegal line.old.frame line.old.state replies.now }
        ensures fewer { self.new.visits.left ≤ self.old.visits.left }
        ensures same { line.new ≡ line.old }
    {
        let mut is_behind = false;
        for other in replies {
            if is_behind && !self.memo.is_begun_behind(line, other)? {
                let found = self.proof_after(line, side, room, other)?;
                if found.is_none() {
                    return Ok(false);
                }
            }
            is_behind = is_behind || *other == *turn;
        }
        Ok(true)
    }

    /// The proof that answers each legal turn, where the other side is to move.
    #[cycle(certifying)]
    #[inline(never)]
    fn proof_by_reply(
        &mut self,
        line: &mut Line,
        side: Side,
        room: u16,
    ) -> Result<Option<LifeProof>, NoMemory>
        requires room { room ≤ MOST_DEPTH }
        requires some { 0 < room }
        requires nobody { winner_of line.old.frame line.old.state ≡ None }
        requires to_move { side ≡ opponent line.old.state.to_move }
        ensures found { IfOk result
            (λ o. IfSome o (IsProofWithin side room line.old.frame line.old.state)) }
        ensures fewer { self.new.visits.left ≤ self.old.visits.left }
        ensures same { line.new ≡ line.old }
    {
        let turns = line.turns();
        let mut children = Vec::with_capacity(self.alloc, turns.len())?;
        for turn in turns.as_slice() {
            let Some(child) = self.proof_of_reply(line, side, room - 1, turn, turns.as_slice())?
            else {
                return Ok(None);
            };
            children.push((*turn, child))?;
        }
        let proof = LifeProof::reply(self.alloc, line, children)?;
        Ok(Some(proof))
    }
}
