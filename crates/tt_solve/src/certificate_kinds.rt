//! The solution that a proof at a line is, with a certificate of the kind that is asked for, whichever engine found the proof.
ghost use Rattle.std.specs.Prelude.{◌≡◌, ◌≢◌, ◌≤◌, ℕ, IfOk, IfSome, None};
ghost use Rattle.tt_game.specs.Game.{winner_of};
ghost use Rattle.tt_game.specs.GameLaws.{IsWellFormedState};
ghost use Rattle.tt_game.specs.Line.{LineWithUndo};
ghost use Rattle.tt_proof.specs.declared.tree.TheConstants.{MOST_DEPTH};
ghost use Rattle.tt_proof.specs.CertificateText.{certificate_text};
ghost use Rattle.tt_proof.specs.ProofClaim.{IsWinningTree, StandsAt, first_turn_of};
ghost use Rattle.tt_parts.specs.SharedWins.{IsWinningSharedCertificate};
ghost use Rattle.tt_proof.specs.Strategy as strategy;
ghost use Rattle.tt_proof.specs.Strategy.{depth};
ghost use Rattle.tt_search.specs.declared.limits.Limits.{Limits};
ghost use Rattle.tt_solve.specs.declared.options.CertKind.{CertKind};
ghost use Rattle.tt_solve.specs.inside.Lengths.{IsCertificateWithin};
ghost use Rattle.tt_solve.specs.Solutions.{IsCertificateAsked, IsDecided};

use crate::options::{CertKind, Options};
use crate::solution::Solution;
use std::alloc::Global;
use tt_game::Line;
use tt_parts::write_shared_cert;
use tt_proof::{LifeProof, Proof, write_cert};
use tt_search::Limits;
use tt_sgf::{ItemList, NoMemory};

/// The certificate of a proof at the line.
fn plain_certificate(alloc: Global, proof: &Proof, line: &Line) -> Result<Vec<u8>, NoMemory>
    requires { StandsAt proof.now line.now.frame line.now.state }
    ensures text { IfOk result
        (λ text. text.items ≡ certificate_text line.now.frame.size proof.now.side proof.now.tree) }
    ensures won { IsWinningTree proof.now.side proof.now.frame proof.now.state proof.now.tree }
{
    write_cert(alloc, proof.side(), proof.tree(), line.frame().size)
}

/// A certificate with shared parts of a proof at the line. Where none is found it is that of the whole tree, which has no parts.
#[tactic(auto, using(crate::proofs::ProofCertificates::plain_shared))]
fn shared_certificate(
    alloc: Global,
    proof: &Proof,
    line: &Line,
    most_depth: u16,
) -> Result<Vec<u8>, NoMemory>
    requires stands { StandsAt proof.now line.now.frame line.now.state }
    requires shallow { depth proof.now.tree ≤ most_depth }
    requires most { most_depth ≤ MOST_DEPTH }
    ensures { IfOk result (λ text.
        IsWinningSharedCertificate line.now.frame line.now.state proof.now.side (first_turn_of proof.now.tree) most_depth text.items) }
{
    let found = write_shared_cert(
        alloc,
        proof.side(),
        proof.tree(),
        line,
        most_depth,
        usize::MAX,
    )?;
    if let Some(text) = found {
        return Ok(text);
    }
    plain_certificate(alloc, proof, line)
}

/// The certificate of a proof at the line, of the kind that is asked for.
#[tactic(auto, using(crate::proofs::ProofCertificates::plain_asked, crate::proofs::ProofCertificates::shared_asked))]
fn certificate_asked(
    alloc: Global,
    proof: &Proof,
    line: &Line,
    limits: &Limits,
    cert: CertKind,
) -> Result<Option<ItemList<u8>>, NoMemory>
    requires stands { StandsAt proof.now line.now.frame line.now.state }
    requires shallow { depth proof.now.tree ≤ limits.now.depth }
    ensures { IfOk result (IsCertificateAsked line.now limits.now proof.now.side (first_turn_of proof.now.tree) cert) }
{
    match cert {
        CertKind::Unasked => Ok(None),
        CertKind::Plain => {
            let text = plain_certificate(alloc, proof, line)?;
            Ok(Some(ItemList::from_vec(text)))
        }
        CertKind::Shared => {
            let text = shared_certificate(alloc, proof, line, limits.depth())?;
            Ok(Some(ItemList::from_vec(text)))
        }
    }
}

/// The solution that a proof at the line is.
pub(crate) fn solution_of_proof(
    alloc: Global,
    line: &Line,
    options: Options,
    proof: &Proof,
) -> Result<Solution, NoMemory>
    requires open { winner_of line.now.frame line.now.state ≡ None }
    requires state { IsWellFormedState line.now.frame line.now.state }
    requires stands { StandsAt proof.now line.now.frame line.now.state }
    requires shallow { depth proof.now.tree ≤ options.limits.depth }
    ensures { IfOk result (IsDecided line.now options.limits options.cert) }
{
    let certificate = certificate_asked(alloc, proof, line, &options.limits, options.cert)?;
    let side = proof.side();
    let first = proof.first();
    Ok(Solution::Settled {
        side,
        first,
        certificate,
    })
}

/// The solution by a proof that ends at wins, where its certificate takes at most so many bytes. None where there is no proof.
pub(crate) fn plain_solution(
    alloc: Global,
    line: &Line,
    options: Options,
    proof: Option<Proof>,
    most_bytes: usize,
) -> Result<Option<Solution>, NoMemory>
    requires open { winner_of line.now.frame line.now.state ≡ None }
    requires state { IsWellFormedState line.now.frame line.now.state }
    requires stands { IfSome proof (λ p. StandsAt p line.now.frame line.now.state) }
    requires shallow { IfSome proof (λ p. strategy.depth p.tree ≤ options.limits.depth) }
    ensures decided { IfOk result (λ o. IfSome o (IsDecided line.now options.limits options.cert)) }
    ensures within { IfOk result (λ o. IfSome o (IsCertificateWithin most_bytes)) }
{
    let Some(proof) = proof else {
        return Ok(None);
    };
    // each node takes a byte or more
    if proof.nodes() > most_bytes as u64 {
        return Ok(None);
    }
    let solution = solution_of_proof(alloc, line, options, &proof)?;
    if solution.has_certificate_within(most_bytes) {
        Ok(Some(solution))
    } else {
        Ok(None)
    }
}

/// The solution that a proof at the line is whose tree may end at life, without a certificate.
fn bare_solution(proof: &LifeProof) -> Solution
    ensures decided { (line : LineWithUndo) (limits : Limits) → winner_of line.frame line.state ≡ None
        → IsWellFormedState line.frame line.state
        → StandsAt proof.now line.frame line.state → IsDecided line limits CertKind.Unasked result }
    ensures within { (most : ℕ) → IsCertificateWithin most result }
{
    let side = proof.side();
    let first = proof.first();
    Solution::Settled {
        side,
        first,
        certificate: None,
    }
}

/// The same, with a certificate with shared parts of at most so many bytes, where one is found.
fn shared_solution(
    alloc: Global,
    line: &Line,
    limits: &Limits,
    proof: &LifeProof,
    most_bytes: usize,
) -> Result<Option<Solution>, NoMemory>
    requires open { winner_of line.now.frame line.now.state ≡ None }
    requires state { IsWellFormedState line.now.frame line.now.state }
    requires stands { StandsAt proof.now line.now.frame line.now.state }
    ensures decided { IfOk result (λ o. IfSome o (IsDecided line.now limits.now CertKind.Shared)) }
    ensures within { IfOk result (λ o. IfSome o (IsCertificateWithin most_bytes)) }
{
    let side = proof.side();
    let tree = proof.tree();
    let depth = limits.depth();
    let Some(text) = write_shared_cert(alloc, side, tree, line, depth, most_bytes)? else {
        return Ok(None);
    };
    let first = proof.first();
    Ok(Some(Solution::Settled {
        side,
        first,
        certificate: Some(ItemList::from_vec(text)),
    }))
}

/// The solution by a proof whose tree may end at life, with the certificate that is asked for, where that takes at most so many bytes. None
/// where there is no proof.
pub(crate) fn life_solution(
    alloc: Global,
    line: &Line,
    options: Options,
    proof: Option<LifeProof>,
    most_bytes: usize,
) -> Result<Option<Solution>, NoMemory>
    requires open { winner_of line.now.frame line.now.state ≡ None }
    requires state { IsWellFormedState line.now.frame line.now.state }
    requires kind { options.cert ≢ CertKind.Plain }
    requires stands { IfSome proof (λ p. StandsAt p line.now.frame line.now.state) }
    ensures decided { IfOk result (λ o. IfSome o (IsDecided line.now options.limits options.cert)) }
    ensures within { IfOk result (λ o. IfSome o (IsCertificateWithin most_bytes)) }
{
    let limits = options.limits;
    let Some(proof) = proof else {
        return Ok(None);
    };
    if options.cert == CertKind::Unasked {
        Ok(Some(bare_solution(&proof)))
    } else {
        shared_solution(alloc, line, &limits, &proof, most_bytes)
    }
}
