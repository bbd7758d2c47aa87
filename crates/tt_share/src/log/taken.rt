//! Tokens of a log that were taken in, and where the last one of each key and side is.

ghost use Rattle.std.specs.Prelude.{◌≡◌, ◌<◌, ◌++◌, ◌∷◌, [], All, IfOk, IfSome};
ghost use Rattle.std.specs.Option.{option_map};
ghost use Rattle.std.specs.Arc.{arc_value};
ghost use Rattle.tt_game.specs.declared.frame.Side.TheVariants.{Attacker, Defender};
ghost use Rattle.tt_search.specs.Stores.{HasKeyAndSide, IsNewest};
ghost use Rattle.tt_search.specs.KeyIndex.{proof_at};
ghost use Rattle.tt_share.specs.Log.{IsTokenOf, proofs_newest_first, proofs_of};

use crate::log::{CertLog, Token};
use std::alloc::Global;
use std::marker::Model;
use std::sync::Arc;
use tt_game::{Line, Side};
use tt_proof::Proof;
use tt_search::{KeyIndex, ProofList};
use tt_sgf::NoMemory;

/// Tokens of a log, as a list of their proofs.
#[derive(Drop)]
struct TokenProofs<'a> {
    log: &'a CertLog,
    tokens: &'a Vec<Token>,
    ghost of_log: { All (IsTokenOf log.now) tokens.now.items },
}

impl<'a> ProofList for TokenProofs<'a> {
    ghost use Rattle.tt_share.specs.Log.{proofs_of};

    ghost proofs = { λ t. proofs_of t.tokens.now.items };

    fn proof(&self, slot: usize) -> &Proof {
        self.log.at(&self.tokens[slot])
    }
}

/// Tokens of a log, the oldest first, with an index of their proofs.
#[derive(Drop)]
pub(crate) struct TakenTokens<'a> {
    log: &'a CertLog,
    tokens: Vec<Token>,
    index: KeyIndex,
}

impl<'a> Model for TakenTokens<'a> {
    ghost use Rattle.std.specs.Prelude.{◌≡◌, ◌-◌, All, min, vec_len, vec_capacity};
    ghost use Rattle.std.specs.Coded.{codes};
    ghost use Rattle.boxcar.specs.Table.{shelves_coded};
    ghost use Rattle.tt_sgf.specs.contracts.sets.PointSet as points;
    ghost use Rattle.tt_proof.specs.laws.StrategyCode.{strategy_code};
    ghost use Rattle.tt_search.specs.KeyIndex.{key_hashes};
    ghost use Rattle.tt_share.specs.Log.{IsTokenOf, proofs_of};
    ghost use Rattle.tt_share.specs.inside.Taking.{Holding};

    ghost Value = { Holding };

    ghost coded = { Prim.hlevel (codes, shelves_coded, strategy_code, points.the_row.coded) };

    ghost view = { λ t. record {
      log = t.log.now;
      tokens = t.tokens.items;
      room = min (vec_capacity t.tokens - vec_len t.tokens) t.index.room;
    } };

    ghost invariant = { λ t. record {
      of_log : All (IsTokenOf t.log.now) t.tokens.items;
      indexed : t.index.hashes ≡ key_hashes (proofs_of t.tokens.items);
    } };
}

impl<'a> TakenTokens<'a> {
    /// No tokens of the log. It takes no memory.
    pub fn new(alloc: Global, log: &'a CertLog) -> TakenTokens<'a>
        ensures log { result.log ≡ log.now }
        ensures tokens { result.tokens ≡ [] }
    {
        TakenTokens {
            log,
            tokens: Vec::new(alloc),
            index: KeyIndex::new(alloc),
        }
    }

    /// The tokens.
    pub fn tokens(&self) -> &[Token]
        ensures tokens { result.now ≡ self.now.tokens }
        ensures of_log { All (IsTokenOf self.now.log) self.now.tokens }
    {
        self.tokens.as_slice()
    }

    /// Makes room for one more token.
    pub fn reserve(&mut self) -> Result<(), NoMemory>
        ensures log { self.new.log ≡ self.old.log }
        ensures tokens { self.new.tokens ≡ self.old.tokens }
        ensures room { IfOk result (λ _. 0 < self.new.room) }
    {
        self.tokens.reserve(1)?;
        self.index.reserve()
    }

    /// Takes a token of the log in, where there is room.
    pub fn put(&mut self, token: Token)
        requires of_log { IsTokenOf self.old.log token }
        requires room { 0 < self.old.room }
        ensures log { self.new.log ≡ self.old.log }
        ensures tokens { self.new.tokens ≡ self.old.tokens ++ token ∷ [] }
    {
        self.index.push(self.log.at(&token));
        self.tokens.push_reserved(token);
    }

    /// The tokens as a list of proofs.
    fn token_proofs(&self) -> TokenProofs<'_>
        ensures { result.tokens.now.items ≡ self.now.tokens }
    {
        TokenProofs {
            log: self.log,
            tokens: &self.tokens,
        }
    }

    /// The handle of the token at the slot, if it is one's.
    fn handle_at(&self, slot: Option<usize>) -> Option<&Arc<Proof>>
        ensures { option_map (λ p. arc_value p.now) result
            ≡ proof_at (proofs_of self.now.tokens) slot }
    {
        let token = self.tokens.get(slot?)?;
        Some(self.log.handle_at(token))
    }

    /// The proof of the last token of the line's key for the side.
    pub fn newest_proof(&self, line: &Line, side: Side) -> Option<&Arc<Proof>>
        ensures newest { IsNewest line.now side (proofs_newest_first self.now.tokens) (option_map (λ p. arc_value p.now) result) }
        ensures found { IfSome result (λ p. HasKeyAndSide line.now side (arc_value p.now)) }
    {
        self.handle_at(self.index.newest_slot(line, side, &self.token_proofs()))
    }

    /// What `newest_proof` answers for the attacker and for the defender.
    pub fn newest_proof_per_side(&self, line: &Line) -> (Option<&Arc<Proof>>, Option<&Arc<Proof>>)
        ensures attacker { IsNewest line.now Attacker (proofs_newest_first self.now.tokens) (option_map (λ p. arc_value p.now) result.0) }
        ensures defender { IsNewest line.now Defender (proofs_newest_first self.now.tokens) (option_map (λ p. arc_value p.now) result.1) }
        ensures found_attacker { IfSome result.0
            (λ p. HasKeyAndSide line.now Attacker (arc_value p.now)) }
        ensures found_defender { IfSome result.1
            (λ p. HasKeyAndSide line.now Defender (arc_value p.now)) }
    {
        let (attacker, defender) = self.index.newest_slot_per_side(line, &self.token_proofs());
        (self.handle_at(attacker), self.handle_at(defender))
    }
}
