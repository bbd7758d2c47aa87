//! The log: proofs that threads push and read without a lock.

pub(crate) mod log_store;
pub(crate) mod taken;
pub(crate) mod view;

ghost use Rattle.std.specs.Prelude.{◌≡◌, IfOk, IfSome};
ghost use Rattle.std.specs.Arc.{arc_value};
ghost use Rattle.tt_share.specs.Log.{IsTokenOf};

use crate::capacity::{EXTRA_ROOM_AT_ONCE, ROOM_BEFORE_A_PUSH};
use boxcar::Pushed;
use std::alloc::Global;
use std::marker::Model;
use std::sync::{Arc, Wait};
use tt_proof::Proof;
use tt_sgf::NoMemory;

/// Proofs that several threads share. An entry stays as it was pushed, at its slot.
#[derive(Drop)]
pub struct CertLog {
    entries: boxcar::Vec<Arc<Proof>>,
}

impl Model for CertLog {
    ghost use Rattle.boxcar.specs.Table.{Shelves, shelves_coded};

    ghost Value = { Shelves };

    ghost coded = { shelves_coded };

    ghost view = { λ l. l.entries };
}

/// What shows that a log holds a proof at a slot: 24 bytes.
#[derive(Drop)]
pub struct Token {
    shown: Pushed<Arc<Proof>>,
}

impl Model for Token {
    ghost use Rattle.std.specs.Coded.{codes};
    ghost use Rattle.std.specs.Arc.{arc_value};
    ghost use Rattle.tt_sgf.specs.contracts.sets.PointSet as points;
    ghost use Rattle.tt_proof.specs.laws.StrategyCode.{strategy_code};
    ghost use Rattle.tt_share.specs.Log.{TokenState};

    ghost Value = { TokenState };

    ghost coded = { Prim.hlevel (codes, strategy_code, points.the_row.coded) };

    ghost view = { λ t. record { slot = t.shown.index; proof = arc_value t.shown.value; bucket = t.shown.bucket; row = t.shown.row } };
}

impl Token {
    /// The slot in the log, from 0 on.
    pub fn slot(&self) -> usize
        ensures { result ≡ self.now.slot }
    {
        self.shown.index()
    }
}

impl CertLog {
    /// An empty log. `NoMemory` where memory was refused.
    pub fn new(alloc: Global) -> Result<CertLog, NoMemory> {
        let entries = boxcar::Vec::new(alloc)?;
        Ok(CertLog { entries })
    }

    /// The proof that was pushed for the token.
    pub fn at(&self, t: &Token) -> &Proof
        requires { IsTokenOf self.now t.now }
        ensures { result.now ≡ t.now.proof }
    {
        self.handle_at(t)
    }

    /// A handle of the proof that was pushed for the token.
    pub(crate) fn handle_at(&self, t: &Token) -> &Arc<Proof>
        requires { IsTokenOf self.now t.now }
        ensures { arc_value result.now ≡ t.now.proof }
    {
        self.entries.value(&t.shown)
    }

    /// Two tokens of one slot have one proof. It does nothing.
    pub fn agree(&self, a: &Token, b: &Token)
        requires a { IsTokenOf self.now a.now }
        requires b { IsTokenOf self.now b.now }
        requires slot { a.now.slot ≡ b.now.slot }
        ensures { a.now.proof ≡ b.now.proof }
    {
        self.entries.agrees(&a.shown, &b.shown);
    }

    /// Pushes the proof, once. Room for it, and for what others push meanwhile, comes first: an entry that was begun and
    /// finds no memory would leave its slot empty for good. `roomy` is how many entries are known to have room: more is made
    /// where these aren't enough, for many pushes at once.
    pub(crate) fn push(
        &self,
        rt: &impl Wait,
        p: Arc<Proof>,
        roomy: &mut usize,
    ) -> Result<Token, NoMemory>
        ensures log { IfOk result (IsTokenOf self.now) }
        ensures proof { IfOk result (λ t. t.proof ≡ arc_value p) }
    {
        let wanted = self.count().saturating_add(ROOM_BEFORE_A_PUSH);
        if wanted > *roomy {
            self.entries
                .reserve(ROOM_BEFORE_A_PUSH + EXTRA_ROOM_AT_ONCE)?;
            *roomy = wanted.saturating_add(EXTRA_ROOM_AT_ONCE);
        }
        match self.entries.push_shown(rt, p) {
            Ok(shown) => Ok(Token { shown }),
            Err(_) => Err(NoMemory),
        }
    }

    /// How many pushes are finished.
    pub(crate) fn count(&self) -> usize {
        self.entries.count()
    }

    /// The token of a slot, where its push is finished.
    pub(crate) fn token(&self, slot: usize) -> Option<Token>
        ensures log { IfSome result (IsTokenOf self.now) }
        ensures slot { IfSome result (λ t. t.slot ≡ slot) }
    {
        let shown = self.entries.witness(slot)?;
        Some(Token { shown })
    }
}
