//! Writes certificates with shared parts.

ghost use Rattle.std.specs.Prelude.{◌≡◌, ◌≤◌, true, length, IfOk, IfSome};
ghost use Rattle.tt_proof.specs.declared.tree.TheConstants.{MOST_DEPTH};
ghost use Rattle.tt_proof.specs.Strategy.{strategy_of, IsInOrder};
ghost use Rattle.tt_proof.specs.ProofClaim.{first_turn_of};
ghost use Rattle.tt_parts.specs.SharedWins.{IsWinningSharedCertificate};

pub(crate) mod draft;
pub(crate) mod kept_trees;

use crate::outline_read::read_shared_cert_to_depth;
use crate::outline_replay::replay_shared_cert;
use crate::outline_write::draft::Draft;
use std::alloc::Global;
use tt_game::{Line, Side, Turn};
use tt_proof::{CertFault, Tree};
use tt_sgf::NoMemory;

/// Whether the bytes are a certificate with shared parts whose tree wins for the side at the line, is at most so deep and begins
/// with that turn. Where a part doesn't fit the answer is no.
fn is_winning_cert(
    alloc: Global,
    s: Side,
    bytes: &[u8],
    line: &mut Line,
    most_depth: u16,
    first: Option<Turn>,
) -> Result<bool, NoMemory>
    requires { most_depth ≤ MOST_DEPTH }
    ensures { IfOk result (λ b. b ≡ true
        → IsWinningSharedCertificate line.old.frame line.old.state s first most_depth bytes.now) }
{
    let size = line.frame().size;
    match read_shared_cert_to_depth(alloc, bytes, size, most_depth) {
        Ok((side, outline)) => {
            if side != s || outline.first() != first {
                return Ok(false);
            }
            let wins = replay_shared_cert(alloc, &outline, side, line)?;
            Ok(wins == Some(true))
        }
        Err(CertFault::NoMemory) => Err(NoMemory),
        Err(CertFault::Syntax) => Ok(false),
        Err(CertFault::TooDeep) => Ok(false),
    }
}

/// The text that the tree's walk at the line leads to, of at most so many bytes.
fn draft_text(
    alloc: Global,
    s: Side,
    t: &Tree,
    line: &Line,
    most_depth: u16,
    most_bytes: usize,
) -> Result<Option<Vec<u8>>, NoMemory>
    requires { IsInOrder line.now.frame.size (strategy_of t.now) }
    ensures { IfOk result (λ o. IfSome o (λ v. length v.items ≤ most_bytes)) }
{
    let mut copy = line.try_clone()?;
    let Some(draft) = Draft::of(alloc, t, &mut copy, most_depth, most_bytes)? else {
        return Ok(None);
    };
    let text = draft.text(alloc, s)?;
    if text.len() > most_bytes {
        return Ok(None);
    }
    Ok(Some(text))
}

/// A certificate with shared parts of a tree that wins for the side at the line, or ends at life, is at most so deep and begins as this
/// one does, where that takes at most so many bytes. A tree whose position comes again is written once where it wins there too,
/// whatever tree this one has there. The depth is at most 512, the points lie on the board, and the turns of each reply rise.
pub fn write_shared_cert(
    alloc: Global,
    s: Side,
    t: &Tree,
    line: &Line,
    most_depth: u16,
    most_bytes: usize,
) -> Result<Option<Vec<u8>>, NoMemory>
    requires depth { most_depth ≤ MOST_DEPTH }
    requires in_order { IsInOrder line.now.frame.size (strategy_of t.now) }
    ensures wins { IfOk result (λ o. IfSome o (λ v.
        IsWinningSharedCertificate line.now.frame line.now.state s (first_turn_of (strategy_of t.now)) most_depth v.items)) }
    ensures short { IfOk result (λ o. IfSome o (λ v. length v.items ≤ most_bytes)) }
{
    let Some(text) = draft_text(alloc, s, t, line, most_depth, most_bytes)? else {
        return Ok(None);
    };
    let mut copy = line.try_clone()?;
    if is_winning_cert(alloc, s, text.as_slice(), &mut copy, most_depth, t.first())? {
        return Ok(Some(text));
    }
    Ok(None)
}
