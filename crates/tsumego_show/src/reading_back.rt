//! Reads back what is written, by the reader that any problem is read by, so that no other problem is written than the one that is meant.
//! A text that is longer than any that can be read is not read back.
ghost use Rattle.std.specs.Prelude.{◌≡◌, ◌<◌, ◌≤◌, ◌↔◌, ◌++◌, ℕ, Err, IfOk, IsTrue, MatchOption, [], drop, length};
ghost use Rattle.tt_sgf.specs.declared.trees.TheConstants.{MAX_BYTES};
ghost use Rattle.tt_sgf.specs.Grammar.{FirstTreeEndsAt, GameTree, HasOpeningParenthesis, main_line};
ghost use Rattle.tt_game.specs.Line.{LineWithUndo};
ghost use Rattle.tsumego_show.specs.Written.{IsOneTree, IsProblemText, IsSetupText, IsTextOf, IsTextWithNodes, IsTextWithVariations};

use crate::same_nodes::is_line_with_more;
use crate::shown::ShowFault;
use std::alloc::Global;
use tt_board::{Board, Colour};
use tt_game::{Frame, GameFault, Line, Side, problem};
use tt_sgf::{MainLine, Node, SgfFault, has_tree, laws, read_tree};

/// Bytes of the answer that stand in front of the variations at most: labels of 361 points, their names in words, a name and a comment.
const MOST_ANSWER: usize = 4_096;

/// Whether a text begins with its tree, which ends behind so many bytes, and no other may follow.
fn is_one_tree(text: &[u8], used: usize) -> bool
    requires some { 1 ≤ used }
    requires within { used ≤ length text.now }
    ensures { (t : GameTree) → (ends : FirstTreeEndsAt text.now used t) → IsTrue result
        ↔ ((ends.skipped ≡ []) × (HasOpeningParenthesis (drop used text.now) → ⊥)) }
{
    text[0] == b'(' && !has_tree(&text[used..])
}

/// The main line of a text, which is one tree; none where the text is too long. It says `OtherProblem` only where the text is none.
fn only_line(alloc: Global, text: &[u8]) -> Result<Option<MainLine>, ShowFault>
    ensures read { IfOk result (λ found. MatchOption found (MAX_BYTES < length text.now)
        (λ main. (length text.now ≤ MAX_BYTES) × ((count : ℕ) × (t : GameTree) × IsOneTree text.now count t
        × (main.nodes ≡ main_line t)))) }
    ensures other { result ≡ Err ShowFault.OtherProblem → (length text.now ≤ MAX_BYTES)
        × ((count : ℕ) (t : GameTree) → IsOneTree text.now count t → ⊥) }
{
    laws::grammar_is_unambiguous();
    match read_tree(alloc, text) {
        Ok((main, used)) => {
            if is_one_tree(text, used) {
                Ok(Some(main))
            } else {
                Err(ShowFault::OtherProblem)
            }
        }
        Err(SgfFault::Syntax) => Err(ShowFault::OtherProblem),
        Err(SgfFault::TooLong) => Ok(None),
        Err(SgfFault::NoMemory) => Err(ShowFault::NoMemory),
    }
}

/// Sees that a text is one tree, whose main line is that of these nodes with marks alone, or with stones of a colour too, where they are
/// added.
pub fn check_nodes(
    alloc: Global,
    text: &[u8],
    nodes: &[Node],
    stones: Option<Colour>,
) -> Result<(), ShowFault>
    ensures { IfOk result (λ _. IsTextWithNodes stones nodes.now text.now) }
{
    match only_line(alloc, text) {
        Ok(Some(main)) if !is_line_with_more(nodes, main.nodes.as_slice(), stones) => {
            Err(ShowFault::OtherProblem)
        }
        Ok(_) => Ok(()),
        Err(fault) => Err(fault),
    }
}

/// The problem that a text is, which is one tree; none where the text is too long. It says `OtherProblem` only where the text is none.
fn first_problem(alloc: Global, text: &[u8]) -> Result<Option<Line>, ShowFault>
    ensures read { IfOk result (λ found. MatchOption found (MAX_BYTES < length text.now)
        (λ q. (length text.now ≤ MAX_BYTES) × IsProblemText text.now q)) }
    ensures other { result ≡ Err ShowFault.OtherProblem → (length text.now ≤ MAX_BYTES)
        × ((q : LineWithUndo) → IsProblemText text.now q → ⊥) }
{
    laws::grammar_is_unambiguous();
    let main = match only_line(alloc, text) {
        Ok(Some(main)) => main,
        Ok(None) => return Ok(None),
        Err(fault) => return Err(fault),
    };
    match problem(alloc, &main) {
        Ok(line) => Ok(Some(line)),
        Err(GameFault::NoMemory) => Err(ShowFault::NoMemory),
        Err(_) => Err(ShowFault::OtherProblem),
    }
}

/// Sees that a text is the problem at a line, with its history. It says `OtherProblem` only where the text isn't.
pub fn check_problem(alloc: Global, text: &[u8], line: &Line) -> Result<(), ShowFault>
    ensures reads { IfOk result (λ _. IsTextOf text.now line.now) }
    ensures other { result ≡ Err ShowFault.OtherProblem → IsTextOf text.now line.now → ⊥ }
{
    let found = match first_problem(alloc, text) {
        Ok(Some(found)) => found,
        Ok(None) => return Ok(()),
        Err(fault) => return Err(fault),
    };
    let Ok(kept) = found.snapshot() else {
        return Err(ShowFault::NoMemory);
    };
    laws::grammar_is_unambiguous();
    if kept.is_state_of(line) {
        Ok(())
    } else {
        Err(ShowFault::OtherProblem)
    }
}

/// The text of these bytes and what goes on behind them, which is the problem at a line.
fn problem_text(
    alloc: Global,
    front: &[u8],
    behind: &[u8],
    line: &Line,
) -> Result<Vec<u8>, ShowFault>
    ensures joined { IfOk result (λ text. text.items ≡ front.now ++ behind.now) }
    ensures reads { IfOk result (λ text. IsTextOf text.items line.now) }
{
    let mut text = Vec::new(alloc);
    text.extend_from_slice(front)?;
    text.extend_from_slice(behind)?;
    check_problem(alloc, text.as_slice(), line)?;
    Ok(text)
}

/// The text of the problem at a line with variations, of which these bytes stand in front, and are few more than those that were given. A
/// text with many variations is longer than any that can be read: so what stands in front of them is read apart too.
pub fn text_with_variations(
    alloc: Global,
    given: &[u8],
    front: &[u8],
    variations: &[u8],
    line: &Line,
) -> Result<Vec<u8>, ShowFault>
    ensures { IfOk result (λ text. IsTextWithVariations given.now text.items line.now) }
{
    if given.len() + MOST_ANSWER < front.len() {
        return Err(ShowFault::OtherProblem);
    }
    let _alone = problem_text(alloc, front, b")", line)?;
    let text = problem_text(alloc, front, variations, line)?;
    Ok(text)
}

/// Whether a line stands on this board with this side to move, and nothing was before.
fn is_first_position(line: &Line, board: &Board, mover: Side) -> bool
    ensures { IsTrue result → line.now.state
        ≡ record { earlier = []; present = board.now.points; to_move = mover; passes = 0 } }
{
    line.present().same(board)
        && line.to_move() == mover
        && line.passes() == 0
        && line.history().len() == 1
}

/// Sees that a text is the problem with this frame, board and side to move, and nothing before.
pub fn check_setup(
    alloc: Global,
    text: &[u8],
    frame: &Frame,
    board: &Board,
    mover: Side,
) -> Result<(), ShowFault>
    ensures { IfOk result (λ _. IsSetupText text.now frame.now board.now.points mover) }
{
    let found = match first_problem(alloc, text) {
        Ok(Some(found)) => found,
        Ok(None) => return Ok(()),
        Err(fault) => return Err(fault),
    };
    if found.frame().same(frame) && is_first_position(&found, board, mover) {
        Ok(())
    } else {
        Err(ShowFault::OtherProblem)
    }
}
