//! A view of a log as a store.

ghost use Rattle.std.specs.Prelude.{◌≡◌, ◌≢◌, ◌≤◌, ◌+◌, ◌↔◌, ◌⊎◌, IfErr, IfOk, IfSome};
ghost use Rattle.std.specs.Option.{option_map};
ghost use Rattle.std.specs.Arc.{arc_value};
ghost use Rattle.tt_game.specs.declared.frame.Side.TheVariants.{Attacker, Defender};
ghost use Rattle.tt_search.specs.Stores.{HasKeyAndSide, IsNewest};
ghost use Rattle.tt_search.specs.declared.store.Kept.TheVariants.{Stored, Full};
ghost use Rattle.tt_share.specs.Log.{KeepsProof, Extends, proofs_newest_first, HasTokenOfKeyAndSide};

use crate::capacity::MOST_KEPT_PROOFS;
use crate::log::view::View;
use std::marker::Model;
use std::sync::{Arc, Wait};
use tt_game::{Line, Side};
use tt_proof::Proof;
use tt_search::{Kept, ProofPerSide, Store};
use tt_sgf::NoMemory;

/// A store that keeps proofs in a log, and answers those of a view of it: up to 4,096 proofs may be kept through it, and
/// what it finds may have been kept through another store of the log. No call waits for another thread's, but that a keep
/// may spin while another one stores a block of memory.
#[derive(Drop)]
pub struct LogStore<'a, R> {
    rt: &'a R,
    view: View<'a>,
}

impl<'a, R> Model for LogStore<'a, R> {
    ghost use Rattle.std.specs.Coded.{codes};
    ghost use Rattle.boxcar.specs.Table.{shelves_coded};
    ghost use Rattle.tt_sgf.specs.contracts.sets.PointSet as points;
    ghost use Rattle.tt_proof.specs.laws.StrategyCode.{strategy_code};
    ghost use Rattle.tt_share.specs.Log.{ViewState};

    ghost Value = { ViewState };

    ghost coded = { Prim.hlevel (codes, shelves_coded, strategy_code, points.the_row.coded) };

    ghost view = { λ s. s.view };
}

impl<'a, R> LogStore<'a, R> {
    /// The view as a store.
    pub fn new(rt: &'a R, view: View<'a>) -> LogStore<'a, R>
        ensures { result ≡ view.entry }
    {
        LogStore { rt, view }
    }

    /// The view.
    pub fn into_view(self) -> View<'a>
        ensures { result ≡ self.entry }
    {
        let LogStore { rt: _, view } = self;
        view
    }

    /// How many proofs may be kept through this store: 4,096.
    pub fn capacity(&self) -> usize
        ensures { result ≡ MOST_KEPT_PROOFS }
    {
        self.view.capacity()
    }

    /// How many proofs were kept through this store: at most 4,096.
    pub fn kept(&self) -> usize
        ensures kept { result ≡ self.now.kept }
        ensures most { result ≤ MOST_KEPT_PROOFS }
    {
        self.view.kept()
    }
}

impl<'a, R: Wait> Store for LogStore<'a, R> {
    ghost use Rattle.tt_share.specs.declared.capacity.TheConstants.{MOST_KEPT_PROOFS};

    ghost capacity = { λ _. MOST_KEPT_PROOFS };

    ghost kept = { λ s. s.kept };

    ghost may_answer = { Unit {0} };

    fn capacity(&self) -> usize {
        LogStore::capacity(self)
    }

    fn kept(&self) -> usize {
        LogStore::kept(self)
    }

    fn find(&mut self, line: &Line, s: Side) -> Result<Option<Arc<Proof>>, NoMemory>
        ensures found { IfOk result (λ o. IfSome o (λ p. HasKeyAndSide line.now s p.value)) }
        ensures may { IfOk result (λ o. IfSome o (λ _. Unit {0})) }
        ensures kept { self.new.kept ≡ self.old.kept }
        ensures log { self.new.log ≡ self.old.log }
        ensures tokens { Extends self.old.tokens self.new.tokens }
        ensures newest { IfOk result
            (λ o. IsNewest line.now s (proofs_newest_first self.new.tokens) (option_map (λ p. arc_value p) o)) }
        ensures memory { IfErr result (λ _. HasTokenOfKeyAndSide line.now s self.new.tokens) }
    {
        self.view.find(line, s)
    }

    fn find_both(&mut self, line: &Line) -> Result<ProofPerSide, NoMemory>
        ensures attacker { IfOk result
            (λ b. IfSome b.attacker (λ p. HasKeyAndSide line.now Attacker p.value)) }
        ensures defender { IfOk result
            (λ b. IfSome b.defender (λ p. HasKeyAndSide line.now Defender p.value)) }
        ensures may_attacker { IfOk result (λ b. IfSome b.attacker (λ _. Unit {0})) }
        ensures may_defender { IfOk result (λ b. IfSome b.defender (λ _. Unit {0})) }
        ensures kept { self.new.kept ≡ self.old.kept }
        ensures log { self.new.log ≡ self.old.log }
        ensures tokens { Extends self.old.tokens self.new.tokens }
        ensures newest_attacker { IfOk result
            (λ b. IsNewest line.now Attacker (proofs_newest_first self.new.tokens) (option_map (λ p. arc_value p) b.attacker)) }
        ensures newest_defender { IfOk result
            (λ b. IsNewest line.now Defender (proofs_newest_first self.new.tokens) (option_map (λ p. arc_value p) b.defender)) }
        ensures memory { IfErr result (λ _. HasTokenOfKeyAndSide line.now Attacker self.new.tokens
            ⊎ HasTokenOfKeyAndSide line.now Defender self.new.tokens) }
    {
        self.view.find_both(line)
    }

    fn keep(&mut self, p: Arc<Proof>) -> Kept
        ensures full { (result ≡ Full) ↔ (self.old.kept ≡ MOST_KEPT_PROOFS) }
        ensures stored { result ≡ Stored → self.new.kept ≡ self.old.kept + 1 }
        ensures other { result ≢ Stored → self.new.kept ≡ self.old.kept }
        ensures log { self.new.log ≡ self.old.log }
        ensures proof { result ≡ Stored → KeepsProof self.old self.new (arc_value p) }
        ensures same { result ≢ Stored → self.new ≡ self.old }
    {
        self.view.keep(self.rt, p)
    }
}
