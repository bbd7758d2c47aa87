//! The solution that df-pn finds.
ghost use Rattle.std.specs.Prelude.{◌≡◌, ◌≤◌, None, IfOk, IfSome};
ghost use Rattle.tt_game.specs.Game.{winner_of};
ghost use Rattle.tt_game.specs.GameLaws.{IsWellFormedState};
ghost use Rattle.tt_proof.specs.declared.tree.TheConstants.{MOST_DEPTH};
ghost use Rattle.tt_proof.specs.ProofClaim.{StandsAt};
ghost use Rattle.tt_proof.specs.Strategy as strategy;
ghost use Rattle.tt_solve.specs.inside.Lengths.{IsCertificateWithin};
ghost use Rattle.tt_solve.specs.Solutions.{IsDecided};

use crate::certificate_kinds::{life_solution, plain_solution};
use crate::options::{CertKind, Options};
use crate::solution::Solution;
use std::alloc::Global;
use tt_dfpn::{VisitsLeft, WinnerSearch, find_life_proof, find_proof};
use tt_game::Line;
use tt_proof::{LifeProof, Proof};
use tt_sgf::NoMemory;

/// What df-pn finds by a search within so many positions. Its frame is large, and is never made where df-pn isn't asked for.
#[inline(never)]
fn proof_within<S: WinnerSearch>(
    alloc: Global,
    search: &S,
    line: &Line,
    depth: u16,
    positions: u32,
) -> Result<Option<Proof>, NoMemory>
    requires ready { S.ready search.now }
    requires depth { depth ≤ MOST_DEPTH }
    ensures stands { IfOk result (λ o. IfSome o (λ p. StandsAt p line.now.frame line.now.state)) }
    ensures shallow { IfOk result (λ o. IfSome o (λ p. strategy.depth p.tree ≤ depth)) }
{
    let mut visits = VisitsLeft { left: positions };
    let mut copy = line.try_clone()?;
    find_proof(alloc, search, &mut copy, depth, &mut visits)
}

/// The same, where the tree may end at life.
#[inline(never)]
fn life_proof_within<S: WinnerSearch>(
    alloc: Global,
    search: &S,
    line: &Line,
    depth: u16,
    positions: u32,
) -> Result<Option<LifeProof>, NoMemory>
    requires ready { S.ready search.now }
    requires depth { depth ≤ MOST_DEPTH }
    ensures { IfOk result (λ o. IfSome o (λ p. StandsAt p line.now.frame line.now.state)) }
{
    let mut visits = VisitsLeft { left: positions };
    let mut copy = line.try_clone()?;
    find_life_proof(alloc, search, &mut copy, depth, &mut visits)
}

/// The solution that df-pn finds by a search, where it is asked for: by a tree that may end at life, unless a plain certificate is asked
/// for. None where it finds nothing, or where the certificate takes more than so many bytes.
fn dfpn_solution<S: WinnerSearch>(
    alloc: Global,
    search: &S,
    line: &Line,
    options: Options,
    most_bytes: usize,
) -> Result<Option<Solution>, NoMemory>
    requires ready { S.ready search.now }
    requires open { winner_of line.now.frame line.now.state ≡ None }
    requires state { IsWellFormedState line.now.frame line.now.state }
    ensures decided { IfOk result (λ o. IfSome o (IsDecided line.now options.limits options.cert)) }
    ensures within { IfOk result (λ o. IfSome o (IsCertificateWithin most_bytes)) }
{
    let Some(positions) = options.dfpn else {
        return Ok(None);
    };
    let depth = options.limits.depth();
    if options.cert == CertKind::Plain {
        let proof = proof_within(alloc, search, line, depth, positions)?;
        plain_solution(alloc, line, options, proof, most_bytes)
    } else {
        let proof = life_proof_within(alloc, search, line, depth, positions)?;
        life_solution(alloc, line, options, proof, most_bytes)
    }
}

/// The same, and whether memory was refused: then there is no solution, and a search may still find one.
pub(crate) fn try_dfpn<S: WinnerSearch>(
    alloc: Global,
    search: &S,
    line: &Line,
    options: Options,
    most_bytes: usize,
) -> (Option<Solution>, bool)
    requires ready { S.ready search.now }
    requires open { winner_of line.now.frame line.now.state ≡ None }
    requires state { IsWellFormedState line.now.frame line.now.state }
    ensures decided { IfSome result.0 (IsDecided line.now options.limits options.cert) }
    ensures within { IfSome result.0 (IsCertificateWithin most_bytes) }
{
    match dfpn_solution(alloc, search, line, options, most_bytes) {
        Ok(solution) => (solution, false),
        Err(NoMemory) => (None, true),
    }
}
