//! The text for an input.
ghost use Rattle.std.specs.Prelude.{◌≡◌, ◌↔◌, Bool, IsTrue, Err, IfOk, Ok};
ghost use Rattle.tt_game.specs.Line.{LineWithUndo};
ghost use Rattle.tt_game.specs.Problems.{problem_of};
ghost use Rattle.tsumego_show.specs.Shown.{IsInputShown, IsOnlyTree, IsTreeRefused};
ghost use Rattle.tsumego_show.specs.Written.{IsWrittenOn};

use crate::answers::put_answer_lines;
use crate::diagram::{put_svg, put_unmarked_svg};
use crate::hints::{put_hints, put_missing_mover_line, put_unclosed_comment_lines};
use crate::marking::{put_kept_problem, put_refused_tree, put_tree_marked_or_kept};
use crate::mode::Mode;
use crate::picture::{put_board, put_picture, unmarked_frame};
use crate::refusals::{put_no_tree, put_refusal_and_why, put_unread};
use crate::shown::{ShowFault, Shown};
use crate::tree_bytes::{GivenTree, from_first_parenthesis};
use crate::variations::sgf_text;
use std::alloc::Global;
use std::io::Write;
use tt_game::{GameFault, Line, game_before_solution, problem};
use tt_sgf::{ItemList, MainLine, SgfFault, has_tree, read_tree};

/// Writes the picture of the problem of a tree, and the strategy behind it, behind the text.
fn put_problem_and_strategy(
    alloc: Global,
    out: &mut Vec<u8>,
    tree: &GivenTree,
    line: &Line,
) -> Result<(), ShowFault> {
    let number = tree.number;
    write!(out, "{number} ")?;
    put_picture(out, line)?;
    put_missing_mover_line(out, tree.nodes())?;
    put_unclosed_comment_lines(out, tree.nodes())?;
    put_hints(out, line)?;
    put_answer_lines(alloc, out, line, tree.behind)
}

/// Whether a tree is the only one of an input.
fn is_only(tree: &GivenTree) -> bool
    ensures { IsTrue result ↔ IsOnlyTree tree.now.number tree.now.behind.now }
{
    tree.number == 1 && !has_tree(tree.behind)
}

/// Writes the diagram of the problem of a tree, with the strategy behind it; or that it isn't drawn. Says whether it is refused.
fn put_diagram(
    alloc: Global,
    shown: &mut Shown,
    tree: &GivenTree,
    line: &Line,
) -> Result<bool, ShowFault>
    ensures { IfOk result (λ refused. IsTrue refused
        ↔ (IsOnlyTree tree.now.number tree.now.behind.now → ⊥)) }
{
    if is_only(tree) {
        put_svg(alloc, &mut shown.text, line, tree.behind)?;
        return Ok(false);
    }
    let number = tree.number;
    writeln!(
        shown.said,
        "{number} not drawn: give each problem a file of its own"
    )?;
    Ok(true)
}

/// Writes the text on the problem of a tree, and says whether it is refused.
fn put_problem(
    alloc: Global,
    shown: &mut Shown,
    mode: Mode,
    tree: &GivenTree,
    line: &Line,
) -> Result<bool, ShowFault>
    ensures refused { (p : LineWithUndo)
        → IfOk result (IsTreeRefused mode tree.now.number (Ok p) tree.now.behind.now) }
    ensures written { IfOk result
        (λ refused. IsWrittenOn mode tree.now.bytes.now tree.now.main.nodes (Ok line.now) refused shown.new.text.items) }
{
    match mode {
        Mode::Picture => put_problem_and_strategy(alloc, &mut shown.text, tree, line)?,
        Mode::Diagram => return put_diagram(alloc, shown, tree, line),
        Mode::Variations(depth) => shown.text = sgf_text(alloc, tree, line, depth)?,
        Mode::Marks(_) => return put_kept_problem(alloc, shown, tree, line),
    }
    Ok(false)
}

/// The main line in front of the node at fault; with it, where only its targets are, and all of it where no node has TR.
fn line_before_fault(main: MainLine, fault: &GameFault) -> MainLine {
    let mut nodes = main.nodes.into_vec();
    if let Some(number) = fault.node() {
        let is_played = matches!(
            fault,
            GameFault::EmptyTarget { .. } | GameFault::MixedTargets { .. }
        );
        nodes.truncate(if is_played {
            number
        } else {
            number.saturating_sub(1)
        });
    }
    MainLine {
        nodes: ItemList::from_vec(nodes),
    }
}

/// Writes the board of a main line that is refused by this fault, as far as it can be drawn.
fn put_refused_board(
    alloc: Global,
    shown: &mut Shown,
    mode: Mode,
    main: MainLine,
    fault: &GameFault,
) -> Result<(), ShowFault> {
    let front = line_before_fault(main, fault);
    if front.nodes.as_slice().is_empty() {
        return Ok(());
    }
    match game_before_solution(alloc, &front) {
        Ok(game) => {
            let board = game.present();
            match mode {
                Mode::Diagram => put_unmarked_svg(alloc, &mut shown.text, board, fault.reason()),
                _ => put_board(&mut shown.text, &unmarked_frame(board.size()), board),
            }
        }
        Err(GameFault::NoMemory) => Err(ShowFault::NoMemory),
        Err(_) => Ok(()),
    }
}

/// Writes why a tree is no problem, by this fault, and its board, as far as it can be drawn.
fn put_refused(
    alloc: Global,
    shown: &mut Shown,
    mode: Mode,
    tree: GivenTree,
    fault: &GameFault,
) -> Result<(), ShowFault> {
    let mut words = Vec::new(alloc);
    put_refusal_and_why(&mut words, tree.number, tree.nodes(), fault)?;
    shown.add_words(mode, words.as_slice())?;
    match mode {
        Mode::Diagram if !is_only(&tree) => Ok(()),
        _ => put_refused_board(alloc, shown, mode, tree.main, fault),
    }
}

/// Writes the text on a tree that is no problem, by this fault, and says whether it is refused.
fn put_non_problem(
    alloc: Global,
    shown: &mut Shown,
    mode: Mode,
    tree: GivenTree,
    fault: &GameFault,
) -> Result<bool, ShowFault>
    ensures refused { IfOk result (IsTreeRefused mode tree.entry.number (Err fault.now) tree.entry.behind.now) }
    ensures written { IfOk result
        (λ refused. IsWrittenOn mode tree.entry.bytes.now tree.entry.main.nodes (Err fault.now) refused shown.new.text.items) }
{
    match mode {
        Mode::Marks(wanted) => put_tree_marked_or_kept(alloc, shown, wanted, &tree, fault),
        Mode::Variations(_) => {
            put_refused_tree(alloc, shown, &tree, fault)?;
            Ok(true)
        }
        Mode::Picture | Mode::Diagram => {
            put_refused(alloc, shown, mode, tree, fault)?;
            Ok(true)
        }
    }
}

/// What is shown of a tree.
pub fn show_tree(alloc: Global, mode: Mode, tree: GivenTree) -> Result<Shown, ShowFault>
    ensures refused { IfOk result
        (λ r. IsTreeRefused mode tree.entry.number (problem_of tree.entry.main.nodes) tree.entry.behind.now r.refused) }
    ensures written { IfOk result
        (λ r. IsWrittenOn mode tree.entry.bytes.now tree.entry.main.nodes (problem_of tree.entry.main.nodes) r.refused r.text.items) }
{
    let mut shown = Shown::nothing(alloc);
    match problem(alloc, &tree.main) {
        Ok(line) => {
            shown.refused = put_problem(alloc, &mut shown, mode, &tree, &line)?;
        }
        Err(GameFault::NoMemory) => return Err(ShowFault::NoMemory),
        Err(fault) => {
            shown.refused = put_non_problem(alloc, &mut shown, mode, tree, &fault)?;
        }
    }
    Ok(shown)
}

/// What is shown of an input, tree by tree.
pub fn show(alloc: Global, mode: Mode, input: &[u8]) -> Result<Shown, ShowFault>
    ensures { IfOk result (λ r. IsInputShown mode input.now r.refused r.text.items) }
{
    let mut all = Shown::nothing(alloc);
    let mut number = 1;
    let mut rest = input;
    let mut refused = false;
    while number == 1 || has_tree(rest) {
        match read_tree(alloc, rest) {
            Ok((main, used)) => {
                let bytes = from_first_parenthesis(&rest[..used]);
                rest = &rest[used..];
                let tree = GivenTree {
                    number,
                    bytes,
                    main,
                    behind: rest,
                };
                let one = show_tree(alloc, mode, tree)?;
                all.text.extend_from_slice(one.text.as_slice())?;
                all.said.extend_from_slice(one.said.as_slice())?;
                refused |= one.refused;
                number += 1;
            }
            Err(SgfFault::Syntax) => {
                let mut words = Vec::new(alloc);
                put_no_tree(&mut words, number, input, rest)?;
                all.add_words(mode, words.as_slice())?;
                all.refused = true;
                return Ok(all);
            }
            Err(SgfFault::TooLong) => {
                let mut words = Vec::new(alloc);
                put_unread(&mut words, number, SgfFault::TooLong)?;
                all.add_words(mode, words.as_slice())?;
                all.refused = true;
                return Ok(all);
            }
            Err(SgfFault::NoMemory) => return Err(ShowFault::NoMemory),
        }
    }
    all.refused = refused;
    Ok(all)
}
