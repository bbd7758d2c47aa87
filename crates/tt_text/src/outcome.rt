//! What becomes of one game tree, and the line that says so.
ghost use Rattle.std.specs.Prelude.{◌≡◌, ◌∷◌, ◌++◌, IfOk, decimal};
ghost use Rattle.tt_sgf.specs.Bytes.{space};
ghost use Rattle.tt_text.specs.Scoring.{Scores};
ghost use Rattle.tt_text.specs.Trees.{is_refused, outcome_line};

use std::alloc::{AllocError, Global};
use tt_game::{GameFault, Record, Side, play_record};
use tt_search::Reason;
use tt_sgf::{ItemList, MainLine, NoMemory};

/// What becomes of one game tree.
#[derive(Drop)]
pub enum TreeOutcome {
    /// A record was scored.
    Scored(Record),
    /// A problem was answered: which side wins, or why that isn't known; and the text behind the tree's number.
    Answered(Result<Side, Reason>, ItemList<u8>),
    /// The tree was refused, with this number.
    Refused(u8),
}

impl TreeOutcome {
    /// Whether the tree was refused.
    pub fn is_refused(&self) -> bool
        ensures { result ≡ is_refused self.now }
    {
        matches!(self, TreeOutcome::Refused(_))
    }
}

/// The line of a score.
fn score_line(alloc: Global, number: usize, scored: &Record) -> Result<Vec<u8>, AllocError>
    ensures { IfOk result
        (λ text. text.items ≡ outcome_line number (TreeOutcome.Scored scored.now)) }
{
    let Record {
        black,
        white,
        finished,
    } = *scored;
    let end = if finished { "finished" } else { "unfinished" };
    let text = format!(in alloc; "{number} black {black} white {white} {end}\n")?;
    Ok(text.into_bytes())
}

/// The number of a tree, and the text of its answer behind a blank.
fn answer_lines(alloc: Global, number: usize, answer: &[u8]) -> Result<Vec<u8>, AllocError>
    ensures { IfOk result
        (λ text. text.items ≡ decimal number ++ (space ∷ answer.now)) }
{
    let mut text = format!(in alloc; "{number} ")?.into_bytes();
    text.extend_from_slice(answer)?;
    Ok(text)
}

/// The line of a refusal.
fn refusal_line(alloc: Global, number: usize, code: u8) -> Result<Vec<u8>, AllocError>
    ensures { IfOk result (λ text. text.items ≡ outcome_line number (TreeOutcome.Refused code)) }
{
    let text = format!(in alloc; "{number} refused {code}\n")?;
    Ok(text.into_bytes())
}

/// The line on the outcome of the tree with this number, with the lines below it, of a certificate or of turns, where there are any.
pub fn outcome_line(
    alloc: Global,
    number: usize,
    outcome: &TreeOutcome,
) -> Result<Vec<u8>, AllocError>
    ensures { IfOk result (λ text. text.items ≡ outcome_line number outcome.now) }
{
    match outcome {
        TreeOutcome::Scored(record) => score_line(alloc, number, record),
        TreeOutcome::Answered(_, text) => answer_lines(alloc, number, text.as_slice()),
        TreeOutcome::Refused(code) => refusal_line(alloc, number, *code),
    }
}

/// The score of a main line, or its refusal.
pub fn score(alloc: Global, main: &MainLine) -> Result<TreeOutcome, NoMemory>
    ensures { IfOk result (Scores main.now.nodes) }
{
    match play_record(alloc, main) {
        Ok(record) => Ok(TreeOutcome::Scored(record)),
        Err(GameFault::NoMemory) => Err(NoMemory),
        Err(fault) => Ok(TreeOutcome::Refused(fault.code())),
    }
}
