//! The lines on the first tree of an input.
ghost use Rattle.std.specs.Prelude.{◌≡◌, ◌∷◌, [], IfOk, false};
ghost use Rattle.tt_text.specs.Checking.{IsCheckText};
ghost use Rattle.tt_text.specs.Scoring.{Scores};
ghost use Rattle.tt_text.specs.Solving.{Solves};
ghost use Rattle.tt_text.specs.Trees.{outcome_line, status_of};
ghost use Rattle.tsumego_c.specs.First.{IsFirstTreeOutcome, IsFirstTreeText};

use crate::caller_buffer::TextAndStatus;
use crate::statuses::{DONE, REFUSED};
use std::alloc::Global;
use tt_sgf::{NoMemory, SgfFault, read_tree};
use tt_solve::Options;
use tt_text::{TreeOutcome, check_input, outcome_line, score, solve_alone};

/// What becomes of the first tree as a record.
fn score_first_tree(alloc: Global, sgf: &[u8]) -> Result<TreeOutcome, NoMemory>
    ensures { IfOk result (IsFirstTreeOutcome Scores sgf.now) }
{
    match read_tree(alloc, sgf) {
        Ok((main, _)) => score(alloc, &main),
        Err(SgfFault::NoMemory) => Err(NoMemory),
        Err(fault) => Ok(TreeOutcome::Refused(fault.code())),
    }
}

/// What becomes of the first tree as a problem.
fn solve_first_tree(alloc: Global, sgf: &[u8], options: Options) -> Result<TreeOutcome, NoMemory>
    requires { options.turns ≡ false }
    ensures { IfOk result (IsFirstTreeOutcome (Solves options) sgf.now) }
{
    match read_tree(alloc, sgf) {
        Ok((main, used)) => solve_alone(alloc, &main, options, used),
        Err(SgfFault::NoMemory) => Err(NoMemory),
        Err(fault) => Ok(TreeOutcome::Refused(fault.code())),
    }
}

/// The lines of an outcome, with its status.
fn text_and_status_of(alloc: Global, outcome: &TreeOutcome) -> Result<TextAndStatus, NoMemory>
    ensures { IfOk result (λ t. (t.bytes.items ≡ outcome_line 1 outcome.now)
        × (t.status ≡ status_of (outcome.now ∷ []))) }
{
    let bytes = outcome_line(alloc, 1, outcome)?;
    let status = if outcome.is_refused() { REFUSED } else { DONE };
    Ok(TextAndStatus { bytes, status })
}

/// The line of a score.
pub fn score_text(alloc: Global, sgf: &[u8]) -> Result<TextAndStatus, NoMemory>
    ensures { IfOk result (λ t. IsFirstTreeText Scores sgf.now t.bytes.items t.status) }
{
    let outcome = score_first_tree(alloc, sgf)?;
    text_and_status_of(alloc, &outcome)
}

/// The lines on a problem, its verdict and its certificate where one is asked for, with their status.
pub fn solve_text(alloc: Global, sgf: &[u8], options: Options) -> Result<TextAndStatus, NoMemory>
    requires { options.turns ≡ false }
    ensures { IfOk result (λ t. IsFirstTreeText (Solves options) sgf.now t.bytes.items t.status) }
{
    let outcome = solve_first_tree(alloc, sgf, options)?;
    text_and_status_of(alloc, &outcome)
}

/// The line on a certificate.
pub fn check_text(alloc: Global, parts: bool, sgf: &[u8]) -> Result<TextAndStatus, NoMemory>
    ensures { IfOk result (λ t. IsCheckText parts sgf.now t.bytes.items t.status) }
{
    let finding = check_input(alloc, parts, sgf)?;
    let bytes = finding.check_line(alloc)?.into_bytes();
    let status = u32::from(finding.status());
    Ok(TextAndStatus { bytes, status })
}
