//! Proofs: trees that win.

ghost use Rattle.std.specs.Prelude.{◌≡◌, ◌≢◌, ◌↔◌, ◌≤◌, ◌-◌, ◌^◌, min, IfOk, IfErr, IfSome, IsTrue, true, None, Some, Ok};
ghost use Rattle.tt_game.specs.Game.{winner_of, opponent, IsLegal};
ghost use Rattle.tt_game.specs.Turns.{legal_turns};
ghost use Rattle.tt_game.specs.Keys.{key_of};
ghost use Rattle.tt_game.specs.KeyHash.{hash_of_key};
ghost use Rattle.tt_game.specs.declared.turns.Turn.{Turn};
ghost use Rattle.tt_proof.specs.declared.tree.TheConstants.{MOST_DEPTH};
ghost use Rattle.tt_proof.specs.Strategy.{pick, reply, done, depth, strategy_of, IsInOrder, entries_of};
ghost use Rattle.tt_proof.specs.Nodes.{nodes};
ghost use Rattle.tt_proof.specs.EndRules.{at_win};
ghost use Rattle.tt_proof.specs.ProofClaim.{IsWinningTree, StandsAt, IsChild, AreReplyChildren, turns_of, trees_by_turn, first_turn_of};
ghost use Rattle.tt_proof.specs.Footprints.{FitsAt};
ghost use Rattle.tt_proof.specs.KeptFootprints.{IsFootprint};
ghost use Rattle.tt_proof.specs.Rejections.{IsRejected};
ghost use Rattle.tt_proof.specs.inside.WonChildren.{AllWon};

use crate::footprints::{Footprint, footprint_of};
use crate::life_proof::LifeProof;
use crate::measured_tree::MeasuredTree;
use crate::replays::replay;
use crate::tree::Tree;
use std::alloc::Global;
use std::marker::Model;
use tt_board::Board;
use tt_game::{Key, Line, Side, Snapshot, Turn};
use tt_sgf::NoMemory;

/// A tree that wins for its side from where a line stood: of a depth of at most 512, with rising turns and points on
/// the board. Its footprint says at which other histories of the position it wins too. It is a `LifeProof` that doesn't end at life.
#[derive(Drop)]
pub struct Proof {
    life_proof: LifeProof,
}

impl Model for Proof {
    ghost use Rattle.std.specs.Coded.{codes};
    ghost use Rattle.tt_sgf.specs.contracts.sets.PointSet as points;
    ghost use Rattle.tt_proof.specs.ProofClaim.{ProofClaim, IsWinningTree};
    ghost use Rattle.tt_proof.specs.laws.StrategyCode.{strategy_code};

    ghost Value = { ProofClaim };

    ghost coded = { Prim.hlevel (codes, points.the_row.coded, strategy_code) };

    ghost view = { λ p. p.life_proof };

    ghost invariant = { λ p. IsWinningTree p.life_proof.side p.life_proof.frame p.life_proof.state p.life_proof.tree };
}

/// Why a tree was not made a proof. The tree comes back.
#[derive(Drop)]
pub enum Rejected {
    NotWinning(Tree),
    NoMemory(Tree),
}

impl Proof {
    /// The side that the tree wins for.
    pub fn side(&self) -> Side
        ensures side { result ≡ self.now.side }
        ensures wins { IsWinningTree self.now.side self.now.frame self.now.state self.now.tree }
    {
        self.life_proof.side()
    }

    /// The tree.
    pub fn tree(&self) -> &Tree
        ensures tree { strategy_of result.now ≡ self.now.tree }
        ensures wins { IsWinningTree self.now.side self.now.frame self.now.state self.now.tree }
    {
        self.life_proof.tree()
    }

    /// The tree with its measures.
    pub fn measured_tree(&self) -> &MeasuredTree
        ensures measured_tree { result.now ≡ self.now.tree }
        ensures wins { IsWinningTree self.now.side self.now.frame self.now.state self.now.tree }
    {
        self.life_proof.measured_tree()
    }

    /// The turn that the side plays first, where it is to move.
    pub fn first(&self) -> Option<Turn>
        ensures { result ≡ first_turn_of self.now.tree }
    {
        self.life_proof.first()
    }

    /// How many turns the longest way down the tree has: at most 512.
    pub fn depth(&self) -> u16
        ensures depth { result ≡ depth self.now.tree }
        ensures shallow { result ≤ MOST_DEPTH }
    {
        self.life_proof.depth()
    }

    /// How many nodes the tree has, or the greatest `u64` where they are more.
    pub fn nodes(&self) -> u64
        ensures { result ≡ min (nodes self.now.tree) (2 ^ 64 - 1) }
    {
        self.life_proof.measured_tree().nodes()
    }

    /// The key of the proof's own position.
    pub fn key(&self) -> Key
        ensures { result ≡ key_of self.now.frame self.now.state }
    {
        self.life_proof.key()
    }

    /// The hash of that key. No board is made for it.
    pub fn key_hash(&self) -> u32
        ensures { result ≡ hash_of_key (key_of self.now.frame self.now.state) }
    {
        self.life_proof.key_hash()
    }

    /// Whether the proof's own position has this key.
    pub fn has_key(&self, k: &Key) -> bool
        ensures { IsTrue result ↔ (key_of self.now.frame self.now.state ≡ k.now) }
    {
        self.life_proof.key().same(k)
    }

    /// Whether the proof's own position has the key of the line's.
    pub fn has_key_of(&self, line: &Line) -> bool
        ensures { IsTrue result
            ↔ (key_of self.now.frame self.now.state ≡ key_of line.now.frame line.now.state) }
    {
        self.life_proof.has_key_of(line)
    }

    /// Whether the line has the proof's frame, history, side to move and pass count.
    pub fn stands_at(&self, line: &Line) -> bool
        ensures { IsTrue result ↔ StandsAt self.now line.now.frame line.now.state }
    {
        self.life_proof.stands_at(line)
    }

    /// The board of the proof's own position, made anew.
    pub fn present(&self) -> Board
        ensures { result ≡ record { size = self.now.frame.size; points = self.now.state.present } }
    {
        self.life_proof.present()
    }

    /// What the tree needs in its own history, and what it avoids there.
    pub fn footprint(&self) -> &Footprint
        ensures { IsFootprint self.now.frame self.now.state self.now.tree result.now }
    {
        self.life_proof.footprint()
    }

    /// Whether the tree may be moved to the line: the line has the proof's frame, present colouring, side to move and pass
    /// count, its history has each colouring that the tree needs, and none that it avoids. The tree wins at such a line. No
    /// turn is played, and it takes no memory. A tree can win where it doesn't fit: there `replay` decides.
    pub fn fits(&self, line: &Line) -> bool
        ensures fits { IsTrue result ↔ FitsAt self.now line.now.frame line.now.state }
        ensures wins { IsTrue result
            → IsWinningTree self.now.side line.now.frame line.now.state self.now.tree }
    {
        self.life_proof.fits(line)
    }

    /// Whether the tree wins at the line, too: it does where it fits, and otherwise a replay decides. The line has a board of the
    /// proof's size. It stands as before, also after want of memory.
    pub fn wins_at(&self, line: &mut Line) -> Result<bool, NoMemory>
        requires { self.now.frame.size ≡ line.old.frame.size }
        ensures exact { IfOk result (λ wins. IsTrue wins
            ↔ IsWinningTree self.now.side line.old.frame line.old.state self.now.tree) }
        ensures unasked { FitsAt self.now line.old.frame line.old.state → result ≡ Ok true }
        ensures same { line.new ≡ line.old }
    {
        if self.fits(line) {
            return Ok(true);
        }
        replay(self.tree(), self.side(), line)
    }

    /// The proof's own footprint where that is the tree's at the line, too, as is seen without a walk through the tree: where the
    /// line is where the proof stands; and where the tree fits, and each board of the line's history but the last, behind those
    /// with which the proof's begins too, was made where the proof stood, too, or lies outside the bound of all boards that turns of
    /// the other side make.
    pub fn footprint_if_known(&self, line: &Line) -> Option<&Footprint>
        ensures wins { IfSome result
            (λ _. IsWinningTree self.now.side line.now.frame line.now.state self.now.tree) }
        ensures exact { IfSome result
            (λ x. IsFootprint line.now.frame line.now.state self.now.tree x.now) }
        ensures stands { StandsAt self.now line.now.frame line.now.state → result ≢ None }
    {
        self.life_proof.footprint_if_known(line)
    }

    /// The footprint of the tree at the line, where it wins: the proof's own where that is seen without a walk, else it is
    /// found by one. The line stands as before, also after want of memory.
    pub fn footprint_at(&self, alloc: Global, line: &mut Line) -> Result<Footprint, NoMemory>
        requires wins { IsWinningTree self.now.side line.old.frame line.old.state self.now.tree }
        ensures exact { IfOk result
            (λ x. IsFootprint line.old.frame line.old.state self.now.tree x) }
        ensures same { line.new ≡ line.old }
    {
        match self.footprint_if_known(line) {
            Some(own) => own.try_clone(alloc),
            None => footprint_of(alloc, self.tree(), line),
        }
    }

    /// A proof of the tree at the line, where it wins there; else the tree is handed back. The tree is at most 512 turns
    /// deep, its points lie on the board, and the turns of each reply rise. The line stands as before.
    pub fn replayed(alloc: Global, line: &mut Line, s: Side, t: Tree) -> Result<Proof, Rejected>
        requires depth { depth (strategy_of t) ≤ MOST_DEPTH }
        requires in_order { IsInOrder line.old.frame.size (strategy_of t) }
        ensures made { IfOk result (λ p. StandsAt p line.old.frame line.old.state × (p.side ≡ s)
            × (p.tree ≡ strategy_of t)) }
        ensures rejected { IfErr result (λ e. IsRejected e s line.old.frame line.old.state t) }
        ensures same { line.new ≡ line.old }
    {
        match replay(&t, s, line) {
            Err(_) => Err(Rejected::NoMemory(t)),
            Ok(false) => Err(Rejected::NotWinning(t)),
            Ok(true) => match snapshot_and_footprint(alloc, &t, line) {
                Ok((snapshot, footprint)) => {
                    let life_proof = LifeProof::of_win(snapshot, s, MeasuredTree::of(t), footprint);
                    Ok(Proof { life_proof })
                }
                Err(_) => Err(Rejected::NoMemory(t)),
            },
        }
    }

    /// The proof at a line where somebody has won.
    pub fn done(alloc: Global, line: &Line) -> Result<Proof, NoMemory>
        requires { winner_of line.now.frame line.now.state ≢ None }
        ensures { IfOk result (λ p. StandsAt p line.now.frame line.now.state
            × (winner_of line.now.frame line.now.state ≡ Some p.side) × (p.tree ≡ done)) }
    {
        match line.winner() {
            Some(side) => {
                let life_proof = LifeProof::done(alloc, line, side)?;
                Ok(Proof { life_proof })
            }
            None => unreachable!(),
        }
    }

    /// The proof that plays the turn and goes on with the child. The turn is legal at the line; the child stands after it,
    /// is for the side to move, and is at most 511 turns deep.
    pub fn pick(alloc: Global, line: &Line, t: Turn, child: Proof) -> Result<Proof, NoMemory>
        requires legal { IsLegal line.now.frame line.now.state t }
        requires child { IsChild line.now.frame line.now.state line.now.state.to_move t child }
        ensures { IfOk result (λ p. StandsAt p line.now.frame line.now.state × (p.side ≡ child.side)
            × (p.tree ≡ pick t child.tree)) }
    {
        let child = child.into_life_proof();
        let life_proof = LifeProof::pick(alloc, line, t, child)?;
        Ok(Proof { life_proof })
    }

    /// The proof that answers each turn of the other side with that turn's child. The children are those of all legal
    /// turns, in rising order; each stands after its turn, is for the side that isn't to move, and is at most 511 turns
    /// deep.
    pub fn reply(
        alloc: Global,
        line: &Line,
        children: Vec<(Turn, Proof)>,
    ) -> Result<Proof, NoMemory>
        requires nobody { winner_of line.now.frame line.now.state ≡ None }
        requires turns { turns_of children.items ≡ legal_turns line.now.frame line.now.state }
        requires children { AreReplyChildren line.now.frame line.now.state children.items }
        ensures { IfOk result (λ p. StandsAt p line.now.frame line.now.state
            × (p.side ≡ opponent line.now.state.to_move)
            × (p.tree ≡ reply (entries_of (trees_by_turn children.items)))) }
    {
        let children = life_proofs_of(alloc, children)?;
        let life_proof = LifeProof::reply(alloc, line, children)?;
        Ok(Proof { life_proof })
    }

    /// A proof of the same tree at the line, where it wins: its footprint is taken over where that is seen to be that there without a
    /// walk, else it is found by one. The line stands as before, also after want of memory.
    pub fn moved_to(&self, alloc: Global, line: &mut Line) -> Result<Proof, NoMemory>
        requires wins { IsWinningTree self.now.side line.old.frame line.old.state self.now.tree }
        ensures made { IfOk result (λ p. StandsAt p line.old.frame line.old.state
            × (p.side ≡ self.now.side) × (p.tree ≡ self.now.tree)) }
        ensures same { line.new ≡ line.old }
    {
        let measured_tree = self.measured_tree().try_clone()?;
        let footprint = self.footprint_at(alloc, line)?;
        Proof::from_known_win(line, self.side(), measured_tree, footprint)
    }

    /// The same, as a proof whose tree might end at life.
    fn into_life_proof(self) -> LifeProof
        ensures same { result ≡ self }
        ensures wins { IsWinningTree self.side self.frame self.state self.tree }
    {
        let Proof { life_proof } = self;
        life_proof
    }

    /// The same as a proof whose tree is known to end at wins alone.
    pub(crate) fn from_life_proof(life_proof: LifeProof) -> Proof
        requires { IsWinningTree life_proof.side life_proof.frame life_proof.state life_proof.tree }
        ensures { result ≡ life_proof }
    {
        Proof { life_proof }
    }

    /// The proof of a measured tree that is known to win at the line, and of its footprint there. No turn is played for it, and its
    /// tree is not looked at.
    pub fn from_known_win(
        line: &Line,
        s: Side,
        measured_tree: MeasuredTree,
        footprint: Footprint,
    ) -> Result<Proof, NoMemory>
        requires wins { IsWinningTree s line.now.frame line.now.state measured_tree }
        requires footprint { IsFootprint line.now.frame line.now.state measured_tree footprint }
        ensures { IfOk result (λ p. StandsAt p line.now.frame line.now.state × (p.side ≡ s)
            × (p.tree ≡ measured_tree)) }
    {
        let snapshot = line.snapshot()?;
        let life_proof = LifeProof::of_win(snapshot, s, measured_tree, footprint);
        Ok(Proof { life_proof })
    }
}

/// The children as proofs whose trees might end at life.
fn life_proofs_of(
    alloc: Global,
    children: Vec<(Turn, Proof)>,
) -> Result<Vec<(Turn, LifeProof)>, NoMemory>
    ensures same { IfOk result (λ r. r.items ≡ children.items) }
    ensures won { IfOk result (λ r. AllWon at_win r.items) }
{
    let mut made = Vec::with_capacity(alloc, children.len())?;
    for (turn, child) in children {
        made.push((turn, child.into_life_proof()))?;
    }
    Ok(made)
}

/// Where the line stands, and the footprint of the tree there. The line stands as before.
fn snapshot_and_footprint(
    alloc: Global,
    t: &Tree,
    line: &mut Line,
) -> Result<(Snapshot, Footprint), NoMemory>
    requires depth { depth (strategy_of t.now) ≤ MOST_DEPTH }
    requires in_order { IsInOrder line.old.frame.size (strategy_of t.now) }
    ensures stands { IfOk result
        (λ r. (r.0.frame ≡ line.old.frame) × (r.0.state ≡ line.old.state)) }
    ensures exact { IfOk result
        (λ r. IsFootprint line.old.frame line.old.state (strategy_of t.now) r.1) }
    ensures same { line.new ≡ line.old }
{
    let footprint = footprint_of(alloc, t, line)?;
    let snapshot = line.snapshot()?;
    Ok((snapshot, footprint))
}
