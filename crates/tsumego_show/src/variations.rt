//! A problem as a game tree of SGF, with the answer and the strategies behind it as variations.
ghost use Rattle.std.specs.Prelude.{◌≡◌, IfOk};
ghost use Rattle.tsumego_show.specs.Written.{IsTextWithVariations};

use crate::answers::{Answers, read_answers};
use crate::depths::shown_depth;
use crate::endings::put_ending;
use crate::main_lines::main_line;
use crate::picture::colour_name;
use crate::reading_back::text_with_variations;
use crate::shown::ShowFault;
use crate::tree_bytes::GivenTree;
use std::alloc::Global;
use std::io::Write;
use tt_board::Colour;
use tt_game::{Line, Turn, has_value};
use tt_proof::{MOST_DEPTH, Tree, put_turn};
use tt_sgf::{Node, Property, Size};

/// How many turns are written where no depth is asked, and where one is: no certificate of 1 MiB without shared parts has as many. Several
/// certificates share them.
const MOST_TURNS: usize = 2_000;

const MOST_TURNS_TO_DEPTH: usize = 350_000;

/// What is said where turns of a strategy are left out.
const MORE_TURNS: &str = "The strategy has more turns here than are written.";

/// Where in a strategy a turn stands: whose strategy it is, whether the turn is a first one, and how many more are written.
#[derive(Clone, Copy)]
struct TurnPlace {
    owner: Colour,
    is_first: bool,
    left: usize,
}

/// B or W.
pub fn colour_letter(colour: Colour) -> char {
    match colour {
        Colour::Black => 'B',
        Colour::White => 'W',
    }
}

/// Writes the comments of the first of these nodes that has TR, where the problem stands, behind the text, with an empty line between two.
fn put_given_comments(out: &mut Vec<u8>, nodes: &[Node]) -> Result<(), ShowFault> {
    let Some(node) = nodes
        .iter()
        .find(|node| has_value(node.props.as_slice(), b"TR"))
    else {
        return Ok(());
    };
    let start = out.len();
    for property in node.props.as_slice() {
        if property.ident.as_slice() == b"C".as_slice() {
            for value in property.values.as_slice() {
                if out.len() > start {
                    out.extend_from_slice(b"\n\n")?;
                }
                out.extend_from_slice(value.as_slice())?;
            }
        }
    }
    Ok(())
}

/// Writes a property as it was given behind the text.
fn put_property(out: &mut Vec<u8>, property: &Property) -> Result<(), ShowFault> {
    out.extend_from_slice(property.ident.as_slice())?;
    for value in property.values.as_slice() {
        out.push(b'[')?;
        out.extend_from_slice(value.as_slice())?;
        out.push(b']')?;
    }
    Ok(())
}

/// Whether the answer takes the place of a property of this name.
fn is_of_answer(name: &[u8]) -> bool {
    name == b"N".as_slice() || name == b"C".as_slice() || name == b"LB".as_slice()
}

/// Writes the nodes up to that of the problem as they were given behind the text, but for what the answer takes the place of there.
fn put_given_nodes(out: &mut Vec<u8>, nodes: &[Node]) -> Result<(), ShowFault> {
    for node in nodes {
        let is_problem = has_value(node.props.as_slice(), b"TR");
        out.push(b';')?;
        for property in node.props.as_slice() {
            if !is_problem || !is_of_answer(property.ident.as_slice()) {
                put_property(out, property)?;
            }
        }
        if is_problem {
            return Ok(());
        }
    }
    Ok(())
}

/// Writes whose strategies follow, or why there are none, as the name of the problem's node behind the text.
fn put_name(out: &mut Vec<u8>, line: &Line, found: &Answers) -> Result<(), ShowFault> {
    if let Some((side, _)) = found.strategies.first() {
        let owner = colour_name(line.frame().colour_of(*side));
        return Ok(write!(out, "N[{owner}'s strategy]")?);
    }
    Ok(out.extend_from_slice(if found.is_vain() {
        b"N[what follows is no certificate]"
    } else {
        b"N[no certificate follows]"
    })?)
}

/// Writes + on the first turns that win and - on those that fail behind the text.
fn put_labels(out: &mut Vec<u8>, size: Size, found: &Answers) -> Result<(), ShowFault> {
    let start = out.len();
    for (turn, wins) in found.first_turns.as_slice() {
        if *turn != Turn::Pass {
            out.extend_from_slice(if out.len() == start { b"LB[" } else { b"[" })?;
            put_move(out, size, *turn)?;
            out.extend_from_slice(if *wins { b":+]" } else { b":-]" })?;
        }
    }
    Ok(())
}

/// Writes a comment behind the text: what these nodes say of the problem, and the answer, also that it has ended there, or that turns are
/// left out there.
fn put_comment(
    out: &mut Vec<u8>,
    nodes: &[Node],
    line: &Line,
    found: &Answers,
    is_end: bool,
    is_cut: bool,
) -> Result<(), ShowFault> {
    let has_answer = !found.strategies.is_empty() || !found.first_turns.is_empty();
    let start = out.len();
    out.extend_from_slice(b"C[")?;
    let begun = out.len();
    put_given_comments(out, nodes)?;
    let has_given = out.len() > begun;
    if !has_given && !has_answer {
        out.truncate(start);
        return Ok(());
    }
    if has_given && has_answer {
        out.extend_from_slice(b"\n\n")?;
    }
    if has_answer {
        found.put_words(out, line)?;
    }
    if is_end {
        out.push(b'\n')?;
        put_ending(out, line)?;
        out.push(b'.')?;
    }
    if is_cut {
        write!(out, "\n{MORE_TURNS}")?;
    }
    Ok(out.push(b']')?)
}

/// Writes the point of a play behind the text, and nothing for a pass.
fn put_move(out: &mut Vec<u8>, size: Size, turn: Turn) -> Result<(), ShowFault> {
    match turn {
        Turn::Play(point) if size.holds(point) => Ok(put_turn(out, turn, size)?),
        _ => Ok(()),
    }
}

/// Writes the beginning of a variation with a turn, which may be a first one that wins or fails, behind the text.
fn put_move_node(
    out: &mut Vec<u8>,
    line: &Line,
    turn: Turn,
    wins: Option<bool>,
) -> Result<(), ShowFault> {
    let letter = colour_letter(line.frame().colour_of(line.to_move()));
    write!(out, "\n(;{letter}[")?;
    put_move(out, line.frame().size, turn)?;
    let mark = match wins {
        None => "",
        Some(true) => "TE[1]",
        Some(false) => "BM[1]",
    };
    Ok(write!(out, "]{mark}")?)
}

/// Writes a turn and what follows it behind the text, where it is legal.
#[cycle(vary)]
fn put_variation(
    out: &mut Vec<u8>,
    turn: &Turn,
    behind: &Tree,
    line: &mut Line,
    place: TurnPlace,
    main: &[Turn],
) -> Result<(), ShowFault>
    ensures { line.new ≡ line.old }
{
    if !line.is_legal(*turn) {
        return Ok(());
    }
    let is_own = line.frame().colour_of(line.to_move()) == place.owner;
    let wins = if place.is_first { Some(is_own) } else { None };
    put_move_node(out, line, *turn, wins)?;
    let below = TurnPlace {
        is_first: false,
        left: place.left.saturating_sub(1),
        ..place
    };
    line.push_legal(*turn)?;
    let put = put_tree_variations(out, behind, line, below, main);
    line.pop();
    put?;
    Ok(out.push(b')')?)
}

/// Writes the turns of the other side and what follows them behind the text: that of the main line, or the others.
#[cycle(vary)]
fn put_replies(
    out: &mut Vec<u8>,
    list: &[(Turn, Tree)],
    line: &mut Line,
    place: TurnPlace,
    main: &[Turn],
    is_main: bool,
) -> Result<(), ShowFault>
    ensures { line.new ≡ line.old }
{
    for (turn, behind) in list {
        if (main.first() == Some(turn)) == is_main {
            let rest = if is_main { &main[1..] } else { &[] };
            put_variation(out, turn, behind, line, place, rest)?;
        }
    }
    Ok(())
}

/// Whether a turn isn't the next one of the main line, and is legal.
fn is_aside(turn: &Turn, line: &Line, main: &[Turn]) -> bool {
    main.first() != Some(turn) && line.is_legal(*turn)
}

/// Whether turns of a strategy at a position are left out: only the next one of the main line is written, and others are legal.
fn is_cut(tree: &Tree, line: &Line, left: usize, main: &[Turn]) -> bool {
    if 0 < left {
        return false;
    }
    match tree {
        Tree::Done => false,
        Tree::Pick(turn, _) => is_aside(turn, line, main),
        Tree::Reply(list) => list.iter().any(|entry| is_aside(&entry.0, line, main)),
    }
}

/// Writes what follows a position behind the text: the main line, and the rest where more turns are written; a comment where turns are left
/// out or none follows. The comment of the problem's node is written apart.
#[cycle(vary)]
fn put_tree_variations(
    out: &mut Vec<u8>,
    tree: &Tree,
    line: &mut Line,
    place: TurnPlace,
    main: &[Turn],
) -> Result<(), ShowFault>
    ensures { line.new ≡ line.old }
{
    let count = out.len();
    if !place.is_first && is_cut(tree, line, place.left, main) {
        let owner = colour_name(place.owner);
        write!(out, "C[{owner} wins. {MORE_TURNS}]")?;
    }
    match tree {
        Tree::Done => {}
        Tree::Pick(turn, behind) => {
            if 0 < place.left || !main.is_empty() {
                let rest = main.get(1..).unwrap_or(main);
                put_variation(out, turn, behind, line, place, rest)?;
            }
        }
        Tree::Reply(list) => {
            put_replies(out, list, line, place, main, true)?;
            if 0 < place.left {
                put_replies(out, list, line, place, main, false)?;
            }
        }
    }
    if out.len() == count && !place.is_first {
        out.extend_from_slice(b"C[")?;
        put_ending(out, line)?;
        out.extend_from_slice(b".]")?;
    }
    Ok(())
}

/// Whether a first turn is legal, and no strategy begins with it or answers it.
fn is_bare(line: &Line, found: &Answers, turn: Turn) -> bool {
    let is_written = found
        .strategies
        .iter()
        .any(|known| known.1.first().unwrap_or(turn) == turn);
    !is_written && line.is_legal(turn)
}

/// How many first turns stand beside the strategies.
fn bare_count(line: &Line, found: &Answers) -> usize {
    let mut count: usize = 0;
    for (turn, _) in found.first_turns.as_slice() {
        if is_bare(line, found, *turn) {
            count = count.saturating_add(1);
        }
    }
    count
}

/// Writes the strategies as variations behind the text: of each the main line, and the rest as deep as there are not too many turns of all
/// together. Says whether first turns are left out.
fn put_strategies(
    alloc: Global,
    out: &mut Vec<u8>,
    line: &Line,
    found: &Answers,
    asked: Option<usize>,
) -> Result<bool, ShowFault> {
    let depth = asked.unwrap_or(usize::from(MOST_DEPTH));
    let turns = match asked {
        Some(_) => MOST_TURNS_TO_DEPTH,
        None => MOST_TURNS,
    };
    let most = turns.saturating_sub(bare_count(line, found)) / found.strategies.len().max(1);
    let mut is_any_cut = false;
    for (side, tree) in found.strategies.as_slice() {
        let mut main = main_line(alloc, line, tree)?;
        main.truncate(depth);
        let place = TurnPlace {
            owner: line.frame().colour_of(*side),
            is_first: true,
            left: shown_depth(tree, depth, most.saturating_sub(main.len())),
        };
        is_any_cut |= is_cut(tree, line, place.left, main.as_slice());
        put_tree_variations(out, tree, &mut line.try_clone()?, place, main.as_slice())?;
    }
    Ok(is_any_cut)
}

/// Writes the first turns that no strategy begins with or answers as variations behind the text.
fn put_bare_first_turns(out: &mut Vec<u8>, line: &Line, found: &Answers) -> Result<(), ShowFault> {
    for (turn, wins) in found.first_turns.as_slice() {
        if is_bare(line, found, *turn) {
            put_move_node(out, line, *turn, Some(*wins))?;
            out.push(b')')?;
        }
    }
    Ok(())
}

/// What stands in front of the variations: the nodes of a tree up to that of its problem, which the line is at, and the answer that stands
/// behind it as words and labels.
fn front_text(
    alloc: Global,
    tree: &GivenTree,
    line: &Line,
    found: &Answers,
    is_end: bool,
    is_cut: bool,
) -> Result<Vec<u8>, ShowFault> {
    let mut out = Vec::new(alloc);
    out.push(b'(')?;
    put_given_nodes(&mut out, tree.nodes())?;
    put_name(&mut out, line, found)?;
    put_labels(&mut out, line.frame().size, found)?;
    put_comment(&mut out, tree.nodes(), line, found, is_end, is_cut)?;
    Ok(out)
}

/// The problem of a tree, which the line is at, as a game tree of SGF: its nodes, and the answer that stands behind it as words and
/// variations, with at most 2,000 turns beside long main lines, or so many turns deep where that is asked; comments say where turns are
/// left out. It is read as the same problem.
pub fn sgf_text(
    alloc: Global,
    tree: &GivenTree,
    line: &Line,
    depth: Option<usize>,
) -> Result<Vec<u8>, ShowFault>
    ensures { IfOk result (λ text. IsTextWithVariations tree.now.bytes.now text.items line.now) }
{
    let found = read_answers(alloc, line, tree.behind)?;
    let mut variations = Vec::new(alloc);
    let is_cut = put_strategies(alloc, &mut variations, line, &found, depth)?;
    let is_end = variations.is_empty() && !found.strategies.is_empty();
    let front = front_text(alloc, tree, line, &found, is_end, is_cut)?;
    put_bare_first_turns(&mut variations, line, &found)?;
    variations.extend_from_slice(b")\n")?;
    text_with_variations(
        alloc,
        tree.bytes,
        front.as_slice(),
        variations.as_slice(),
        line,
    )
}
