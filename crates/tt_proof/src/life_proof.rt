//! Proofs whose trees, if they are the defender's, may also end at life: where the attacker is to move and the targets are
//! unconditionally alive.

ghost use Rattle.std.specs.Prelude.{◌≡◌, ◌≢◌, ◌≤◌, ◌↔◌, All, Contains, IfOk, IfSome, IsTrue, None};
ghost use Rattle.tt_game.specs.Game.{winner_of, opponent, history, IsLegal};
ghost use Rattle.tt_game.specs.Turns.{legal_turns};
ghost use Rattle.tt_game.specs.Keys.{key_of};
ghost use Rattle.tt_game.specs.KeyHash.{hash_of_key};
ghost use Rattle.tt_game.specs.declared.turns.Turn.{Turn};
ghost use Rattle.tt_life.specs.Life.{HasWonOrLives};
ghost use Rattle.tt_proof.specs.declared.tree.TheConstants.{MOST_DEPTH};
ghost use Rattle.tt_proof.specs.BoardSetBounds.{MayContainBoard};
ghost use Rattle.tt_proof.specs.EndRules.{at_win_or_life};
ghost use Rattle.tt_proof.specs.Strategy.{pick, reply, done, depth, strategy_of, entries_of};
ghost use Rattle.tt_proof.specs.ProofClaim.{IsWinningTree, IsWinningTreeUnder, StandsAt, IsChild, AreReplyChildren, turns_of, trees_by_turn, first_turn_of};
ghost use Rattle.tt_proof.specs.Footprints.{FitsAt};
ghost use Rattle.tt_proof.specs.KeptFootprints.{IsFootprint};

use crate::board_set_bounds::{BoardSetBound, is_board_within};
use crate::footprints::Footprint;
use crate::measured_tree::{MeasuredTree, ReplyBuilder};
use crate::proven::Proof;
use crate::tree::Tree;
use std::alloc::Global;
use std::marker::Model;
use tt_board::Board;
use tt_game::{Key, Line, Side, Snapshot, Turn};
use tt_sgf::NoMemory;

/// A tree that wins for its side from where a line stood, and may end at life: of a depth of at most 512, with rising turns and
/// points on the board. Its footprint says at which other histories of the position it wins too. `ends_at_wins` says that it
/// doesn't end at life: then it's a `Proof`, too.
#[derive(Drop)]
pub struct LifeProof {
    snapshot: Snapshot,
    side: Side,
    measured_tree: MeasuredTree,
    footprint: Footprint,
    ends_at_wins: bool,
}

impl Model for LifeProof {
    ghost use Rattle.std.specs.Prelude.{IsTrue};
    ghost use Rattle.std.specs.Coded.{codes};
    ghost use Rattle.tt_sgf.specs.contracts.sets.PointSet as points;
    ghost use Rattle.tt_proof.specs.EndRules.{at_win_or_life};
    ghost use Rattle.tt_proof.specs.ProofClaim.{ProofClaim, IsWinningTree};
    ghost use Rattle.tt_proof.specs.KeptFootprints.{WinsWithFootprint};
    ghost use Rattle.tt_proof.specs.laws.StrategyCode.{strategy_code};

    ghost Value = { ProofClaim };

    ghost coded = { Prim.hlevel (codes, points.the_row.coded, strategy_code) };

    ghost view = { λ p. record { frame = p.snapshot.frame; state = p.snapshot.state; side = p.side; tree = p.measured_tree } };

    ghost invariant = { λ p. WinsWithFootprint at_win_or_life p.side p.snapshot.frame p.snapshot.state p.measured_tree p.footprint
        × (IsTrue p.ends_at_wins → IsWinningTree p.side p.snapshot.frame p.snapshot.state p.measured_tree) };
}

impl LifeProof {
    /// The side that the tree wins for.
    pub fn side(&self) -> Side
        ensures side { result ≡ self.now.side }
        ensures wins { IsWinningTreeUnder at_win_or_life self.now.side self.now.frame self.now.state self.now.tree }
    {
        self.side
    }

    /// The tree.
    pub fn tree(&self) -> &Tree
        ensures tree { strategy_of result.now ≡ self.now.tree }
        ensures wins { IsWinningTreeUnder at_win_or_life self.now.side self.now.frame self.now.state self.now.tree }
    {
        self.measured_tree.tree()
    }

    /// The tree with its measures.
    pub(crate) fn measured_tree(&self) -> &MeasuredTree
        ensures measured_tree { result.now ≡ self.now.tree }
        ensures wins { IsWinningTreeUnder at_win_or_life self.now.side self.now.frame self.now.state self.now.tree }
    {
        &self.measured_tree
    }

    /// The turn that the side plays first, where it is to move.
    pub fn first(&self) -> Option<Turn>
        ensures { result ≡ first_turn_of self.now.tree }
    {
        self.measured_tree.tree().first()
    }

    /// How many turns the longest way down the tree has: at most 512.
    pub fn depth(&self) -> u16
        ensures depth { result ≡ depth self.now.tree }
        ensures shallow { result ≤ MOST_DEPTH }
    {
        self.measured_tree.depth()
    }

    /// The key of the proof's own position.
    pub(crate) fn key(&self) -> Key
        ensures { result ≡ key_of self.now.frame self.now.state }
    {
        self.snapshot.key()
    }

    /// The hash of that key. No board is made for it.
    pub fn key_hash(&self) -> u32
        ensures { result ≡ hash_of_key (key_of self.now.frame self.now.state) }
    {
        self.snapshot.key_hash()
    }

    /// Whether the proof's own position has the key of the line's.
    pub fn has_key_of(&self, line: &Line) -> bool
        ensures { IsTrue result
            ↔ (key_of self.now.frame self.now.state ≡ key_of line.now.frame line.now.state) }
    {
        self.snapshot.has_key_of(line)
    }

    /// Whether the line has the proof's frame, history, side to move and pass count.
    pub(crate) fn stands_at(&self, line: &Line) -> bool
        ensures { IsTrue result ↔ StandsAt self.now line.now.frame line.now.state }
    {
        self.snapshot.is_state_of(line)
    }

    /// What the tree needs in its own history, and what it avoids there.
    pub(crate) fn footprint(&self) -> &Footprint
        ensures { IsFootprint self.now.frame self.now.state self.now.tree result.now }
    {
        &self.footprint
    }

    /// How many boards its footprint holds: most of what it takes in memory.
    pub fn footprint_len(&self) -> usize {
        let Footprint {
            needs,
            avoids,
            met: _,
        } = &self.footprint;
        needs.len().saturating_add(avoids.len())
    }

    /// The board of the proof's own position, made anew.
    pub(crate) fn present(&self) -> Board
        ensures { result ≡ record { size = self.now.frame.size; points = self.now.state.present } }
    {
        self.snapshot.present()
    }

    /// Whether the tree may be moved to the line: see `Proof::fits`.
    pub(crate) fn fits(&self, line: &Line) -> bool
        ensures { IsTrue result ↔ FitsAt self.now line.now.frame line.now.state }
    {
        if !self.snapshot.is_position_of(line) {
            return false;
        }
        if !self.footprint.needs.all_in_history(line) {
            return false;
        }
        self.footprint.avoids.none_in_history(line)
    }

    /// The proof's own footprint where that is the tree's at the line, too, as is seen without a walk through the tree: see
    /// `Proof::footprint_if_known`. There the tree wins by the rule by which it wins where the proof stands.
    pub(crate) fn footprint_if_known(&self, line: &Line) -> Option<&Footprint>
        ensures wins { IfSome result
            (λ _. IsWinningTreeUnder at_win_or_life self.now.side line.now.frame line.now.state self.now.tree) }
        ensures at_wins { IfSome result
            (λ _. IsWinningTree self.now.side self.now.frame self.now.state self.now.tree
            → IsWinningTree self.now.side line.now.frame line.now.state self.now.tree) }
        ensures exact { IfSome result
            (λ x. IsFootprint line.now.frame line.now.state self.now.tree x.now) }
        ensures stands { StandsAt self.now line.now.frame line.now.state → result ≢ None }
    {
        let own = &self.footprint;
        if self.stands_at(line) {
            return Some(own);
        }
        let behind = &line.history()[self.snapshot.known_common_history_length(line)..];
        let earlier = &behind[..behind.len().saturating_sub(1)];
        if self.fits(line) && are_outside_or_in_snapshot(&own.met, &self.snapshot, earlier) {
            return Some(own);
        }
        None
    }

    /// A proof of the same tree at the line, where the proof's own footprint is seen to be that there without a walk through the
    /// tree, as always where the proof stands at the line; else none.
    pub fn moved_if_known(&self, alloc: Global, line: &Line) -> Result<Option<LifeProof>, NoMemory>
        ensures made { IfOk result
            (λ o. IfSome o (λ p. StandsAt p line.now.frame line.now.state × (p.side ≡ self.now.side)
            × (p.tree ≡ self.now.tree))) }
        ensures stands { StandsAt self.now line.now.frame line.now.state → result ≢ Ok None }
    {
        let Some(own) = self.footprint_if_known(line) else {
            return Ok(None);
        };
        let footprint = own.try_clone(alloc)?;
        let measured_tree = self.measured_tree.try_clone()?;
        let snapshot = line.snapshot()?;
        Ok(Some(LifeProof {
            snapshot,
            side: self.side,
            measured_tree,
            footprint,
            ends_at_wins: self.ends_at_wins,
        }))
    }

    /// The tree with its measures, its footprint, and whether it ends at wins alone; and nothing of where the proof stood.
    fn into_tree_and_footprint(self) -> (MeasuredTree, Footprint, bool)
        ensures measured_tree { result.0 ≡ self.tree }
        ensures wins { IsWinningTreeUnder at_win_or_life self.side self.frame self.state self.tree }
        ensures at_wins { IsTrue result.2
            → IsWinningTree self.side self.frame self.state self.tree }
        ensures footprint { IsFootprint self.frame self.state self.tree result.1 }
    {
        let LifeProof {
            snapshot: _,
            side: _,
            measured_tree,
            footprint,
            ends_at_wins,
        } = self;
        (measured_tree, footprint, ends_at_wins)
    }

    /// The proof at a line where the side has won or lives.
    pub fn done(alloc: Global, line: &Line, side: Side) -> Result<LifeProof, NoMemory>
        requires { HasWonOrLives side line.now.frame line.now.state }
        ensures { IfOk result
            (λ p. StandsAt p line.now.frame line.now.state × (p.side ≡ side) × (p.tree ≡ done)) }
    {
        let ends_at_wins = line.winner() == Some(side);
        let snapshot = line.snapshot()?;
        Ok(LifeProof {
            snapshot,
            side,
            measured_tree: MeasuredTree::done(),
            footprint: Footprint::empty(alloc),
            ends_at_wins,
        })
    }

    /// The proof that plays the turn and goes on with the child: see `Proof::pick`.
    #[inline(never)]
    pub fn pick(
        alloc: Global,
        line: &Line,
        t: Turn,
        child: LifeProof,
    ) -> Result<LifeProof, NoMemory>
        requires legal { IsLegal line.now.frame line.now.state t }
        requires child { IsChild line.now.frame line.now.state line.now.state.to_move t child }
        ensures { IfOk result (λ p. StandsAt p line.now.frame line.now.state × (p.side ≡ child.side)
            × (p.tree ≡ pick t child.tree)) }
    {
        let board = child.present();
        let side = child.side();
        let (below, behind, ends_at_wins) = child.into_tree_and_footprint();
        let footprint = Footprint::picked(alloc, line, &t, &board, behind)?;
        let snapshot = line.snapshot()?;
        let measured_tree = MeasuredTree::pick(alloc, t, below)?;
        Ok(LifeProof {
            snapshot,
            side,
            measured_tree,
            footprint,
            ends_at_wins,
        })
    }

    /// The proof that answers each turn of the other side with that turn's child: see `Proof::reply`.
    #[inline(never)]
    pub fn reply(
        alloc: Global,
        line: &Line,
        children: Vec<(Turn, LifeProof)>,
    ) -> Result<LifeProof, NoMemory>
        requires nobody { winner_of line.now.frame line.now.state ≡ None }
        requires turns { turns_of children.items ≡ legal_turns line.now.frame line.now.state }
        requires children { AreReplyChildren line.now.frame line.now.state children.items }
        ensures { IfOk result (λ p. StandsAt p line.now.frame line.now.state
            × (p.side ≡ opponent line.now.state.to_move)
            × (p.tree ≡ reply (entries_of (trees_by_turn children.items)))) }
    {
        let mut footprint = Footprint::of_empty_reply(alloc, line)?;
        let mut replies = ReplyBuilder::with_capacity(alloc, children.len())?;
        let mut all_end_at_wins = true;
        for (turn, child) in children {
            let board = child.present();
            let (measured_tree, behind, ends_at_wins) = child.into_tree_and_footprint();
            footprint.join_reply_turn(line, &turn, &board, behind)?;
            replies.push(turn, measured_tree)?;
            all_end_at_wins = are_both(all_end_at_wins, ends_at_wins);
        }
        let snapshot = line.snapshot()?;
        let measured_tree = replies.into_measured_tree(alloc)?;
        Ok(LifeProof {
            snapshot,
            side: line.to_move().opponent(),
            measured_tree,
            footprint,
            ends_at_wins: all_end_at_wins,
        })
    }

    /// The proof of a measured tree that wins where the snapshot is, of its footprint there, where the tree ends at wins alone.
    pub(crate) fn of_win(
        snapshot: Snapshot,
        side: Side,
        measured_tree: MeasuredTree,
        footprint: Footprint,
    ) -> LifeProof
        requires wins { IsWinningTree side snapshot.frame snapshot.state measured_tree }
        requires footprint { IsFootprint snapshot.frame snapshot.state measured_tree footprint }
        ensures stands { StandsAt result snapshot.frame snapshot.state }
        ensures side { result.side ≡ side }
        ensures tree { result.tree ≡ measured_tree }
    {
        LifeProof {
            snapshot,
            side,
            measured_tree,
            footprint,
            ends_at_wins: true,
        }
    }

    /// The same as a `Proof`, where the tree ends at wins alone.
    pub fn into_proof(self) -> Option<Proof>
        ensures { IfSome result (λ p. p ≡ self) }
    {
        if !self.ends_at_wins {
            return None;
        }
        Some(Proof::from_life_proof(self))
    }
}

fn are_both(one: bool, other: bool) -> bool
    ensures { IsTrue result → IsTrue one × IsTrue other }
{
    one && other
}

/// Whether the board lies outside the bound, or was made where the snapshot is.
fn is_outside_or_in_snapshot(
    bound: &Option<BoardSetBound>,
    snapshot: &Snapshot,
    board: &Board,
) -> bool
    ensures { IsTrue result → MayContainBoard bound.now board.now
        → Contains (history snapshot.now.state) board.now.points }
{
    if is_board_within(bound, board) {
        return snapshot.has_later_board(board);
    }
    true
}

/// Whether each of the boards lies outside the bound, or was made where the snapshot is.
fn are_outside_or_in_snapshot(
    bound: &Option<BoardSetBound>,
    snapshot: &Snapshot,
    boards: &[Board],
) -> bool
    ensures { IsTrue result
        → All (λ b. MayContainBoard bound.now b
        → Contains (history snapshot.now.state) b.points) boards.now }
{
    for board in boards {
        if !is_outside_or_in_snapshot(bound, snapshot, board) {
            return false;
        }
    }
    true
}
