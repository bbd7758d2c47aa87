//! Views of a log: what one store has taken in of it.

ghost use Rattle.std.specs.Prelude.{◌≡◌, ◌≢◌, ◌≤◌, ◌<◌, ◌+◌, ◌↔◌, ◌⊎◌, ◌++◌, ◌∷◌, [], All, IfErr, IfOk, IfSome, IsSome, length};
ghost use Rattle.std.specs.Option.{option_map};
ghost use Rattle.std.specs.Arc.{arc_value};
ghost use Rattle.tt_game.specs.declared.frame.Side.TheVariants.{Attacker, Defender};
ghost use Rattle.tt_search.specs.Stores.{HasKeyAndSide, IsNewest};
ghost use Rattle.tt_search.specs.declared.store.Kept.TheVariants.{Stored, Full};
ghost use Rattle.tt_share.specs.Log.{IsTokenOf, KeepsProof, Extends, proofs_newest_first, HasTokenOfKeyAndSide};

use crate::capacity::MOST_KEPT_PROOFS;
use crate::log::taken::TakenTokens;
use crate::log::{CertLog, Token};
use std::alloc::Global;
use std::marker::Model;
use std::sync::{Arc, Wait};
use tt_game::{Line, Side};
use tt_proof::Proof;
use tt_search::{Kept, ProofPerSide};
use tt_sgf::NoMemory;

/// What one store has taken in of a log: tokens, the oldest first, and how many proofs were kept through it. It takes 24
/// bytes a token and 12 to 16 for the index of each, and 8 for each proof that was kept through it; the filter of the index
/// takes 24 KB. Each of these lists
/// holds up to twice as much once it has grown, and three times while it grows. The proofs stand in the log alone.
#[derive(Drop)]
pub struct View<'a> {
    log: &'a CertLog,
    taken: TakenTokens<'a>,
    read: usize,
    own: Vec<usize>,
    skipped: usize,
    kept: usize,
    roomy: usize,
}

impl<'a> Model for View<'a> {
    ghost use Rattle.std.specs.Prelude.{◌≡◌, ◌≤◌};
    ghost use Rattle.std.specs.Coded.{codes};
    ghost use Rattle.boxcar.specs.Table.{shelves_coded};
    ghost use Rattle.tt_sgf.specs.contracts.sets.PointSet as points;
    ghost use Rattle.tt_proof.specs.laws.StrategyCode.{strategy_code};
    ghost use Rattle.tt_share.specs.Log.{ViewState};
    ghost use Rattle.tt_share.specs.declared.capacity.TheConstants.{MOST_KEPT_PROOFS};

    ghost Value = { ViewState };

    ghost coded = { Prim.hlevel (codes, shelves_coded, strategy_code, points.the_row.coded) };

    ghost view = { λ v. record { log = v.log.now; tokens = v.taken.tokens; kept = v.kept } };

    ghost invariant = { λ v. record {
      of_log : v.taken.log ≡ v.log.now;
      most : v.kept ≤ MOST_KEPT_PROOFS;
    } };
}

impl<'a> View<'a> {
    /// A view that has met no token of the log, and through which nothing was kept. It takes no memory.
    pub fn new(alloc: Global, log: &'a CertLog) -> Result<View<'a>, NoMemory>
        ensures { result ≡ Ok (record { log = log.now; tokens = []; kept = 0 }) }
    {
        Ok(View {
            log,
            taken: TakenTokens::new(alloc, log),
            read: 0,
            own: Vec::new(alloc),
            skipped: 0,
            kept: 0,
            roomy: 0,
        })
    }

    /// How many proofs may be kept through this view: 4,096.
    pub fn capacity(&self) -> usize
        ensures { result ≡ MOST_KEPT_PROOFS }
    {
        MOST_KEPT_PROOFS
    }

    /// How many proofs were kept through this view: at most 4,096.
    pub fn kept(&self) -> usize
        ensures kept { result ≡ self.now.kept }
        ensures most { result ≤ MOST_KEPT_PROOFS }
    {
        self.kept
    }

    /// The tokens, the oldest first.
    pub fn tokens(&self) -> &[Token]
        ensures tokens { result.now ≡ self.now.tokens }
        ensures of_log { All (IsTokenOf self.now.log) self.now.tokens }
    {
        self.taken.tokens()
    }

    /// The log that the tokens are of.
    pub fn log(&self) -> &'a CertLog
        ensures { result.now ≡ self.now.log }
    {
        self.log
    }

    /// Keeps the proof: pushes it once, and takes its token in, where there is room and memory for it.
    pub fn keep(&mut self, rt: &impl Wait, p: Arc<Proof>) -> Kept
        ensures log { self.new.log ≡ self.old.log }
        ensures full { (result ≡ Full) ↔ (self.old.kept ≡ MOST_KEPT_PROOFS) }
        ensures stored { result ≡ Stored → KeepsProof self.old self.new (arc_value p) }
        ensures same { result ≢ Stored → self.new ≡ self.old }
    {
        if self.kept == MOST_KEPT_PROOFS {
            return Kept::Full;
        }
        if self.own.reserve(1).is_err() || self.taken.reserve().is_err() {
            return Kept::NoMemory;
        }
        let Ok(token) = self.log.push(rt, p, &mut self.roomy) else {
            return Kept::NoMemory;
        };
        self.own.push_reserved(token.slot());
        self.taken.put(token);
        self.kept += 1;
        Kept::Stored
    }

    /// Whether the slot is that of the view's next proof of its own, which it has taken in already.
    fn skip_if_own(&mut self, slot: usize) -> bool
        ensures { self.new ≡ self.old }
    {
        if self.own.get(self.skipped).copied() != Some(slot) {
            return false;
        }
        self.skipped = self.skipped.saturating_add(1);
        true
    }

    /// Takes in the entry at the slot, where its push is finished and the view can grow; else it answers false.
    fn read_entry(&mut self, slot: usize) -> bool
        ensures log { self.new.log ≡ self.old.log }
        ensures kept { self.new.kept ≡ self.old.kept }
        ensures tokens { Extends self.old.tokens self.new.tokens }
    {
        if self.skip_if_own(slot) {
            return true;
        }
        let Some(token) = self.log.token(slot) else {
            return false;
        };
        if self.taken.reserve().is_err() {
            return false;
        }
        self.taken.put(token);
        true
    }

    /// Takes in the entries that it hasn't read yet, up to the first whose push isn't finished.
    fn read_new_entries(&mut self)
        ensures log { self.new.log ≡ self.old.log }
        ensures kept { self.new.kept ≡ self.old.kept }
        ensures tokens { Extends self.old.tokens self.new.tokens }
    {
        for slot in self.read..self.log.count() {
            if !self.read_entry(slot) {
                break;
            }
            self.read = slot.saturating_add(1);
        }
    }

    /// The proof of the last token of the line's key for the side, or none where no token is. Before it answers, the view
    /// takes in the entries of the log that it hasn't read: those that are there, up to the first whose push isn't
    /// finished, as far as it can grow. `NoMemory` only where there is a proof, and a handle of it was refused.
    pub fn find(&mut self, line: &Line, s: Side) -> Result<Option<Arc<Proof>>, NoMemory>
        ensures log { self.new.log ≡ self.old.log }
        ensures kept { self.new.kept ≡ self.old.kept }
        ensures tokens { Extends self.old.tokens self.new.tokens }
        ensures newest { IfOk result
            (λ o. IsNewest line.now s (proofs_newest_first self.new.tokens) (option_map (λ p. arc_value p) o)) }
        ensures found { IfOk result (λ o. IfSome o (λ p. HasKeyAndSide line.now s (arc_value p))) }
        ensures memory { IfErr result (λ _. HasTokenOfKeyAndSide line.now s self.new.tokens) }
    {
        self.read_new_entries();
        handle_of(self.taken.newest_proof(line, s))
    }

    /// What `find` answers for both sides, from the same tokens.
    pub fn find_both(&mut self, line: &Line) -> Result<ProofPerSide, NoMemory>
        ensures log { self.new.log ≡ self.old.log }
        ensures kept { self.new.kept ≡ self.old.kept }
        ensures tokens { Extends self.old.tokens self.new.tokens }
        ensures newest_attacker { IfOk result
            (λ b. IsNewest line.now Attacker (proofs_newest_first self.new.tokens) (option_map (λ p. arc_value p) b.attacker)) }
        ensures newest_defender { IfOk result
            (λ b. IsNewest line.now Defender (proofs_newest_first self.new.tokens) (option_map (λ p. arc_value p) b.defender)) }
        ensures attacker { IfOk result
            (λ b. IfSome b.attacker (λ p. HasKeyAndSide line.now Attacker (arc_value p))) }
        ensures defender { IfOk result
            (λ b. IfSome b.defender (λ p. HasKeyAndSide line.now Defender (arc_value p))) }
        ensures memory { IfErr result (λ _. HasTokenOfKeyAndSide line.now Attacker self.new.tokens
            ⊎ HasTokenOfKeyAndSide line.now Defender self.new.tokens) }
    {
        self.read_new_entries();
        let (attacker, defender) = self.taken.newest_proof_per_side(line);
        let attacker = handle_of(attacker)?;
        let defender = handle_of(defender)?;
        Ok(ProofPerSide { attacker, defender })
    }
}

/// Another handle of the proof, if there is one.
fn handle_of(found: Option<&Arc<Proof>>) -> Result<Option<Arc<Proof>>, NoMemory>
    ensures ok { IfOk result
        (λ o. option_map (λ p. arc_value p) o ≡ option_map (λ p. arc_value p.now) found.entry) }
    ensures err { IfErr result (λ _. IsSome found.entry) }
{
    match found {
        Some(p) => Ok(Some(Arc::try_clone(p)?)),
        None => Ok(None),
    }
}
