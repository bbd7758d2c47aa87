//! The certificate of a problem, found in this thread by df-pn or else by a search; and whether a certificate wins.

ghost use Rattle.std.specs.Prelude.{◌≡◌, ◌↔◌, IfOk, IfSome, IsTrue, None, false};
ghost use Rattle.tt_game.specs.Game.{winner_of};
ghost use Rattle.tt_game.specs.GameLaws.{IsWellFormedState};
ghost use Rattle.tt_proof.specs.CertificateText.{IsTooDeep};
ghost use Rattle.tt_solve.specs.declared.options.CertKind.{CertKind};
ghost use Rattle.library.specs.ValidCertificates.{IsValidCertificate};

use std::alloc::Global;
use tt_game::Line;
use tt_proof::{CertFault, MOST_DEPTH, read_cert, replay};
use tt_search::Limits;
use tt_sgf::{ItemList, NoMemory};
use tt_solve::{CertKind, Options, Solution, Solved, solve_alone};

/// How many positions df-pn may visit.
const DFPN_POSITIONS: u32 = 100_000;

/// How many nodes may be expanded after each first turn.
const BUDGET: u32 = 100_000;

/// How the problem is solved: within these limits, and with a certificate.
fn options() -> Options
    ensures turns { result.turns ≡ false }
    ensures cert { result.cert ≡ CertKind.Plain }
{
    let Some(limits) = Limits::new(BUDGET, MOST_DEPTH) else {
        unreachable!();
    };
    Options {
        limits,
        total: None,
        dfpn: Some(DFPN_POSITIONS),
        workers: 1,
        cert: CertKind::Plain,
        turns: false,
    }
}

/// The certificate of the problem at the line, whose text has so many bytes, where the limits and memory suffice for one.
pub fn certificate(alloc: Global, line: &Line, bytes: usize) -> Option<ItemList<u8>>
    requires open { winner_of line.now.frame line.now.state ≡ None }
    requires state { IsWellFormedState line.now.frame line.now.state }
    ensures { IfSome result (IsValidCertificate line.now) }
{
    let Ok(Solved { solution, .. }) = solve_alone(alloc, line, options(), bytes) else {
        return None;
    };
    match solution {
        Solution::Settled { certificate, .. } => certificate,
        Solution::Unsettled(_) => None,
    }
}

/// Whether the text is the certificate of a strategy that wins at the line and goes at most 512 turns deep. The line stands as before.
pub fn is_valid_certificate(alloc: Global, line: &mut Line, text: &[u8]) -> Result<bool, NoMemory>
    ensures wins { IfOk result (λ wins. IsTrue wins
        ↔ ((IsTooDeep line.old.frame.size text.now → ⊥) × IsValidCertificate line.old text.now)) }
    ensures same { line.new ≡ line.old }
{
    let size = line.frame().size;
    match read_cert(alloc, text, size) {
        Ok((side, tree)) => replay(&tree, side, line),
        Err(CertFault::NoMemory) => Err(NoMemory),
        Err(_) => Ok(false),
    }
}
