//! Writes problems with the marks that are proposed for them.
ghost use Rattle.std.specs.Prelude.{◌≡◌, ◌<◌, ◌↔◌, IfOk, IfSome, IsTrue, MatchOption, None, Ok, Some, false, is_some, true};
ghost use Rattle.std.specs.List.{list_any};
ghost use Rattle.tt_sgf.specs.Sizes.{point_count};
ghost use Rattle.tt_board.specs.Play.{other};
ghost use Rattle.tt_board.specs.Reach.{entry_at};
ghost use Rattle.tt_game.specs.Nodes.{TR, has};
ghost use Rattle.tt_game.specs.Problems.{game_of, posed_problem};
ghost use Rattle.tt_board.specs.Stones.{PointNumberSet};
ghost use Rattle.tt_marks.specs.Walls.{IsClosed, IsEnclosedGroup, IsWalledIn};
ghost use Rattle.tsumego_show.specs.Written.{HasNoGroup, IsClosedText, IsGivenWithMore, IsGivenWithStones, IsInnerUnlessNamed, IsMarkedOrKept, IsMarkedText, IsNotLoneUnlessNamed};
ghost use Rattle.tsumego_show.specs.Written.{IsSetupText, IsTaken, IsTextOf, as_given, asking_nodes, has_triangles_alone, last_has_squares, target};

use crate::hints::{put_hints, put_missing_mover_line, put_unclosed_comment_lines};
use crate::mode::{PointName, WantedMarks};
use crate::picture::colour_name;
use crate::points::{PointForm, point_of_name, put_points, put_points_line_if_any};
use crate::reading_back::{check_problem, check_setup};
use crate::refusals::{put_refusal_and_why, put_refusal_line};
use crate::shown::{ShowFault, Shown};
use crate::tree_bytes::{GivenTree, node_end, semicolon_end};
use crate::unmarked::{
    put_wall_in_danger_line, put_ways, put_why_no_group_enclosed, put_why_unmarked_at_point,
};
use crate::variations::colour_letter;
use std::alloc::Global;
use std::io::Write;
use tt_board::{Board, Colour};
use tt_game::{Game, GameFault, Line, game_before_solution, has_value, node_count_before_solution};
use tt_marks::{
    Closing, WalledRegion, board_with_stones, closings, group, is_inner, is_lone, is_walled_in,
    proposed_stone, region,
};
use tt_sgf::{Node, Point, PointSet, Size};

/// The first stones of the enclosed chains that are neither that of a stone of this colour nor in its squares.
fn other_enclosed_chains(
    board: &Board,
    colour: Colour,
    stone: Point,
    squares: &PointSet,
) -> PointSet
    requires { stone < point_count board.now.size }
{
    let size = board.size();
    let mut known = group(board, colour, stone).or(squares);
    let mut made = PointSet::empty();
    for number in 0..size.point_count() {
        let point = size.point_numbered(number);
        if known.has(point) {
            continue;
        }
        if let Some(colour) = board.at(point) {
            known = known.or(&group(board, colour, point));
            let found = region(board, colour, point);
            if found.is_closed() && is_inner(board, &found.points) {
                made = made.with(point);
            }
        }
    }
    made
}

/// Writes TR and SQ of a problem behind the text.
fn put_marks(out: &mut Vec<u8>, line: &Line) -> Result<(), ShowFault> {
    let frame = line.frame();
    out.extend_from_slice(b"TR")?;
    put_points(out, frame.size, &frame.targets, PointForm::Value)?;
    out.extend_from_slice(b"SQ")?;
    put_points(out, frame.size, &frame.region, PointForm::Value)
}

/// Writes the words in front of the names of stones that are added behind the text.
fn put_added(out: &mut Vec<u8>, colour: Colour, added: &PointSet) -> Result<(), ShowFault> {
    let name = colour_name(colour);
    let stones = if added.count() == 1 {
        "stone"
    } else {
        "stones"
    };
    Ok(write!(out, "{name} {stones} added to close the wall:")?)
}

/// Writes a node that adds stones of the attacker, and has the side to move, the marks of a problem, and a comment that names the stones,
/// behind the text.
fn put_node_with_stones(out: &mut Vec<u8>, line: &Line, added: &PointSet) -> Result<(), ShowFault> {
    let size = line.frame().size;
    let colour = line.frame().defender.other();
    let letter = colour_letter(colour);
    write!(out, ";A{letter}")?;
    put_points(out, size, added, PointForm::Value)?;
    let letter = colour_letter(line.frame().colour_of(line.to_move()));
    write!(out, "PL[{letter}]")?;
    put_marks(out, line)?;
    out.extend_from_slice(b"C[")?;
    put_added(out, colour, added)?;
    put_points(out, size, added, PointForm::Editor)?;
    Ok(out.push(b']')?)
}

/// The tree with the marks of a problem at the head of the node where it asks.
fn tree_with_marks(alloc: Global, tree: &GivenTree, line: &Line) -> Result<Vec<u8>, ShowFault>
    ensures given { IfOk result
        (λ text. IsGivenWithMore None tree.now.bytes.now tree.now.main.nodes text.items) }
    ensures reads { IfOk result (λ text. IsTextOf text.items line.now) }
{
    let mut marks = Vec::new(alloc);
    put_marks(&mut marks, line)?;
    let at = semicolon_end(tree.bytes, node_count_before_solution(tree.nodes()));
    let text = tree.with_more(alloc, at, marks.as_slice(), None)?;
    check_problem(alloc, text.as_slice(), line)?;
    Ok(text)
}

/// The tree with added stones, with which the board is this, and the marks of a problem behind the node where it asks: in a node of their
/// own, so that the given position stays, and no setup stands beside a move.
fn tree_with_stones(
    alloc: Global,
    tree: &GivenTree,
    line: &Line,
    board: &Board,
    added: &PointSet,
) -> Result<Vec<u8>, ShowFault>
    ensures given { IfOk result
        (λ text. IsGivenWithMore (Some (other line.now.frame.defender)) tree.now.bytes.now tree.now.main.nodes text.items) }
    ensures reads { IfOk result
        (λ text. IsSetupText text.items line.now.frame board.now.points line.now.state.to_move) }
{
    let mut node = Vec::new(alloc);
    put_node_with_stones(&mut node, line, added)?;
    let at = node_end(tree.bytes, node_count_before_solution(tree.nodes()));
    let frame = line.frame();
    let stones = Some(frame.defender.other());
    let text = tree.with_more(alloc, at, node.as_slice(), stones)?;
    check_setup(alloc, text.as_slice(), frame, board, line.to_move())?;
    Ok(text)
}

/// The nodes up to where a main line asks.
fn nodes_before_solution(nodes: &[Node]) -> &[Node]
    ensures { result.now ≡ asking_nodes nodes.now }
{
    &nodes[..node_count_before_solution(nodes)]
}

/// Whether a main line has triangles up to where it asks.
fn has_triangles(nodes: &[Node]) -> bool
    ensures { result ≡ list_any (has TR) (asking_nodes nodes.now) }
{
    nodes_before_solution(nodes)
        .iter()
        .any(|node| has_value(node.props.as_slice(), b"TR"))
}

/// Whether the node that is to get the marks has squares.
#[tactic(auto, using(crate::proofs::Marked::last_squared))]
fn is_last_problem_node_squared(nodes: &[Node]) -> bool
    ensures { result ≡ last_has_squares (asking_nodes nodes.now) }
{
    match nodes_before_solution(nodes).last() {
        Some(node) => has_value(node.props.as_slice(), b"SQ"),
        None => false,
    }
}

/// Writes that other groups of a board than that of a stone of this colour are enclosed too, where they are, behind the text.
fn put_other_groups_hint(
    hints: &mut Vec<u8>,
    board: &Board,
    colour: Colour,
    stone: Point,
    squares: &PointSet,
) -> Result<(), ShowFault>
    requires { stone < point_count board.now.size }
{
    put_points_line_if_any(
        hints,
        board.size(),
        b"hint: other groups are enclosed too: name a stone of the one that is meant:",
        &other_enclosed_chains(board, colour, stone, squares),
    )
}

/// The game with a triangle and squares for a group of this colour.
#[tactic(auto, using(crate::proofs::Sets::one_counts, crate::proofs::Sets::one_lies))]
fn marked_problem(
    game: Game,
    colour: Colour,
    stone: Point,
    squares: PointSet,
) -> Result<Line, ShowFault>
    requires { stone < point_count game.size }
    ensures { IfOk result (λ l. l ≡ posed_problem game squares (target stone) colour) }
{
    Ok(game.into_problem(squares, PointSet::empty().with(stone), colour)?)
}

/// Writes which stones close the wall around a group, and the other ways, the best first.
fn put_closing_hint(
    hints: &mut Vec<u8>,
    board: &Board,
    colour: Colour,
    best: &Closing,
    others: &[Closing],
) -> Result<(), ShowFault> {
    hints.extend_from_slice(b"hint: ")?;
    put_added(hints, colour.other(), &best.stones)?;
    put_points(hints, board.size(), &best.stones, PointForm::Both)?;
    if others.is_empty() {
        return Ok(hints.push(b'\n')?);
    }
    hints.extend_from_slice(b"; other ways, the best first:")?;
    put_ways(hints, board.size(), others, b",")
}

/// Whether a stone of this colour that nobody names would be alone in its squares.
fn is_lone_unless_named(
    board: &Board,
    name: Option<PointName>,
    colour: Colour,
    stone: Point,
    squares: &PointSet,
) -> bool
    requires { stone < point_count board.now.size }
    ensures { result ≡ false
        ↔ IsNotLoneUnlessNamed name board.now.size board.now.points colour stone squares.now }
{
    match name {
        Some(_) => false,
        None => is_lone(board, colour, stone, squares),
    }
}

/// The tree with the best stones that close the wall around a group of this colour, and marks, where such stones are found; with the other
/// ways among the hints. For a stone that nobody names and that would be alone it is none.
fn closed_tree(
    alloc: Global,
    hints: &mut Vec<u8>,
    name: Option<PointName>,
    tree: &GivenTree,
    game: Game,
    colour: Colour,
    stone: Point,
) -> Result<Option<Vec<u8>>, ShowFault>
    requires on_board { stone < point_count game.size }
    requires stands { entry_at game.present stone ≡ Some colour }
    requires unmarked { (squares : PointNumberSet)
        → IsEnclosedGroup game.size game.present colour stone squares → ⊥ }
    requires open { IsWalledIn game.size game.present colour stone → ⊥ }
    ensures { IfOk result
        (λ made. IfSome made (λ text. IsGivenWithStones tree.now.bytes.now tree.now.main.nodes game stone text.items
        × IsClosedText name text.items game stone)) }
{
    let board = game.present();
    let ways = closings(alloc, board, colour, stone)?;
    let Some((best, others)) = ways.as_slice().split_first() else {
        return Ok(None);
    };
    if is_lone_unless_named(board, name, colour, stone, &best.region) {
        return Ok(None);
    }
    put_closing_hint(hints, board, colour, best, others)?;
    let Some(next) = board_with_stones(board, colour.other(), &best.stones) else {
        return Err(ShowFault::OtherProblem);
    };
    let line = marked_problem(game, colour, stone, best.region.copy())?;
    let text = tree_with_stones(alloc, tree, &line, &next, &best.stones)?;
    Ok(Some(text))
}

/// The stone in a place where the board has it, or a stone of the group that seems to be meant.
#[tactic(auto, using(crate::proofs::Taken::named_taken))]
fn stone_meant(
    alloc: Global,
    board: &Board,
    wanted: WantedMarks,
) -> Result<Option<Point>, ShowFault>
    ensures { IfOk result (IsTaken wanted.name board.now.size board.now.points) }
{
    match wanted.name {
        Some(name) => Ok(point_of_name(board.size(), name)),
        None => Ok(proposed_stone(alloc, board)?),
    }
}

/// Whether a region is closed and, where nobody names the stone, inner.
fn is_enclosed(board: &Board, found: &WalledRegion, name: Option<PointName>) -> bool
    ensures { IsTrue result ↔ (IsClosed found.now.wall found.now.points
        × IsInnerUnlessNamed name board.now.size board.now.points found.now.points) }
{
    match name {
        Some(_) => found.is_closed(),
        None => found.is_closed() && is_inner(board, &found.points),
    }
}

/// The tree with the marks for the group of the stone on a point, where its region is closed and, where nobody named the stone, an inner
/// one; or with the best stones that close its wall, where they are wanted and are found, and its region isn't closed without them.
#[tactic(auto, using(crate::proofs::Marked::empty_has_none))]
fn marked_tree(
    alloc: Global,
    hints: &mut Vec<u8>,
    wanted: WantedMarks,
    tree: &GivenTree,
    game: Game,
    stone: Point,
) -> Result<Option<Vec<u8>>, ShowFault>
    requires { IsTaken wanted.name game.size game.present (Some stone) }
    ensures { IfOk result
        (λ made. MatchOption made (HasNoGroup wanted.name game.size game.present)
        (λ text. IsMarkedText wanted tree.now.bytes.now tree.now.main.nodes text.items game)) }
{
    let board = game.present();
    let Some(colour) = board.at(stone) else {
        return Ok(None);
    };
    let found = region(board, colour, stone);
    if is_enclosed(board, &found, wanted.name) {
        if wanted.name.is_none() {
            put_other_groups_hint(hints, board, colour, stone, &found.points)?;
        }
        let line = marked_problem(game, colour, stone, found.points)?;
        put_hints(hints, &line)?;
        let text = tree_with_marks(alloc, tree, &line)?;
        return Ok(Some(text));
    }
    if !wanted.closes {
        return Ok(None);
    }
    // A name is all that its marks want then.
    if found.is_closed() {
        return Ok(None);
    }
    if is_walled_in(board, colour, stone) {
        return Ok(None);
    }
    match closed_tree(alloc, hints, wanted.name, tree, game, colour, stone)? {
        Some(text) => Ok(Some(text)),
        None => Ok(None),
    }
}

/// The tree with marks for what is taken for the stone that is meant.
fn tree_with_any_marks(
    alloc: Global,
    hints: &mut Vec<u8>,
    wanted: WantedMarks,
    tree: &GivenTree,
    game: Game,
    stone: Option<Point>,
) -> Result<Option<Vec<u8>>, ShowFault>
    requires { IsTaken wanted.name game.size game.present stone }
    ensures { IfOk result (λ made. MatchOption made (HasNoGroup wanted.name game.size game.present)
        (λ text. IsMarkedText wanted tree.now.bytes.now tree.now.main.nodes text.items game)) }
{
    let Some(stone) = stone else {
        return Ok(None);
    };
    marked_tree(alloc, hints, wanted, tree, game, stone)
}

/// Writes that a tree has no marks, why for a stone, and the tree as it was.
fn put_reason(
    alloc: Global,
    shown: &mut Shown,
    tree: &GivenTree,
    board: &Board,
    stone: &Option<Point>,
    is_named: bool,
) -> Result<(), ShowFault>
    requires { IfSome stone.now (λ p. p < point_count board.now.size) }
    ensures { IfOk result (λ _. shown.new.text.items ≡ as_given tree.now.bytes.now) }
{
    put_refusal_line(&mut shown.said, tree.number, GameFault::NoTarget.code())?;
    if is_named {
        put_why_unmarked_at_point(alloc, &mut shown.said, board, stone)?;
    } else {
        put_why_no_group_enclosed(alloc, &mut shown.said, board, stone)?;
    }
    put_wall_in_danger_line(&mut shown.said, board, stone)?;
    shown.text = tree.as_given(alloc)?;
    Ok(())
}

/// Writes a tree with the mark for a stone of its game, or with the stones that close its wall too, or why there is none, and says
/// whether there is none.
#[tactic(auto, using(crate::proofs::Marked::kept_with_squares, crate::proofs::Taken::taken_on_board))]
fn put_proposal_or_reason(
    alloc: Global,
    shown: &mut Shown,
    hints: &mut Vec<u8>,
    wanted: WantedMarks,
    tree: &GivenTree,
    game: Game,
) -> Result<bool, ShowFault>
    requires no_triangles { list_any (has TR) (asking_nodes tree.now.main.nodes) ≡ false }
    requires game { game_of tree.now.main.nodes ≡ Ok game }
    ensures { IfOk result
        (λ refused. IsMarkedOrKept wanted tree.now.bytes.now tree.now.main.nodes refused shown.new.text.items) }
{
    if is_last_problem_node_squared(tree.nodes()) {
        put_refusal_line(&mut shown.said, tree.number, GameFault::NoTarget.code())?;
        shown.said.extend_from_slice(
            b"squares stand there already: put a triangle on a stone of the group, or take SQ out\n",
        )?;
        shown.text = tree.as_given(alloc)?;
        return Ok(true);
    }
    let board = game.present().copy();
    let stone = stone_meant(alloc, &board, wanted)?;
    if let Some(text) = tree_with_any_marks(alloc, hints, wanted, tree, game, stone)? {
        shown.text = text;
        return Ok(false);
    }
    put_reason(alloc, shown, tree, &board, &stone, wanted.name.is_some())?;
    Ok(true)
}

/// Writes the hints on a tree, behind a line that says that it is marked, where it is.
fn put_hints_on_marks(
    said: &mut Vec<u8>,
    number: usize,
    hints: &[u8],
    refused: bool,
) -> Result<(), ShowFault> {
    if !refused && !hints.is_empty() {
        writeln!(said, "{number} marked")?;
    }
    Ok(said.extend_from_slice(hints)?)
}

/// Writes a tree with the mark for a stone of its game, or why there is none, and the hints; says whether there is none.
fn put_game_marked_or_kept(
    alloc: Global,
    shown: &mut Shown,
    wanted: WantedMarks,
    tree: &GivenTree,
    game: Game,
) -> Result<bool, ShowFault>
    requires no_triangles { list_any (has TR) (asking_nodes tree.now.main.nodes) ≡ false }
    requires game { game_of tree.now.main.nodes ≡ Ok game }
    ensures { IfOk result
        (λ refused. IsMarkedOrKept wanted tree.now.bytes.now tree.now.main.nodes refused shown.new.text.items) }
{
    let mut hints = Vec::new(alloc);
    put_missing_mover_line(&mut hints, nodes_before_solution(tree.nodes()))?;
    put_unclosed_comment_lines(&mut hints, tree.nodes())?;
    let refused = put_proposal_or_reason(alloc, shown, &mut hints, wanted, tree, game)?;
    put_hints_on_marks(&mut shown.said, tree.number, hints.as_slice(), refused)?;
    Ok(refused)
}

/// Writes why a tree is refused, by this fault, and the tree as it was.
pub fn put_refused_tree(
    alloc: Global,
    shown: &mut Shown,
    tree: &GivenTree,
    fault: &GameFault,
) -> Result<(), ShowFault>
    ensures { IfOk result (λ _. shown.new.text.items ≡ as_given tree.now.bytes.now) }
{
    put_refusal_and_why(&mut shown.said, tree.number, tree.nodes(), fault)?;
    shown.text = tree.as_given(alloc)?;
    Ok(())
}

/// Writes a tree that is no problem, by this fault, with the mark for a stone, or why there is none, and says whether it is left without
/// a proposal.
#[tactic(auto, using(crate::proofs::Marked::kept_with_triangles, crate::proofs::Marked::kept_unplayed))]
pub fn put_tree_marked_or_kept(
    alloc: Global,
    shown: &mut Shown,
    wanted: WantedMarks,
    tree: &GivenTree,
    fault: &GameFault,
) -> Result<bool, ShowFault>
    ensures { IfOk result
        (λ refused. IsMarkedOrKept wanted tree.now.bytes.now tree.now.main.nodes refused shown.new.text.items) }
{
    if has_triangles(tree.nodes()) {
        put_refused_tree(alloc, shown, tree, fault)?;
        return Ok(true);
    }
    match game_before_solution(alloc, &tree.main) {
        Ok(game) => put_game_marked_or_kept(alloc, shown, wanted, tree, game),
        Err(GameFault::NoMemory) => Err(ShowFault::NoMemory),
        Err(fault) => {
            put_refused_tree(alloc, shown, tree, &fault)?;
            Ok(true)
        }
    }
}

/// The number of the first node with triangles, counted from 1, where it has no squares.
#[tactic(auto, using(crate::proofs::Marked::triangles_here, crate::proofs::Marked::triangles_behind))]
fn unsquared_triangle_node(nodes: &[Node]) -> Option<usize>
    ensures { is_some result ≡ has_triangles_alone nodes.now }
{
    let mut rest = nodes;
    while let Some((node, behind)) = rest.split_first() {
        let properties = node.props.as_slice();
        if has_value(properties, b"TR") {
            let number = nodes.len() - behind.len();
            return if has_value(properties, b"SQ") {
                None
            } else {
                Some(number)
            };
        }
        rest = behind;
    }
    None
}

/// Writes the line on the marks of a tree that is a problem, and the tree as it was. Says whether its triangles have no squares.
pub fn put_kept_problem(
    alloc: Global,
    shown: &mut Shown,
    tree: &GivenTree,
    line: &Line,
) -> Result<bool, ShowFault>
    ensures { IfOk result (λ refused. (shown.new.text.items ≡ as_given tree.now.bytes.now)
        × IsTextOf shown.new.text.items line.now
        × (refused ≡ has_triangles_alone tree.now.main.nodes)) }
{
    let number = tree.number;
    let unsquared = unsquared_triangle_node(tree.nodes());
    match unsquared {
        Some(node) => writeln!(
            shown.said,
            "{number} not marked: a triangle stands in node {node}, without squares: put SQ there, or take TR out"
        )?,
        None => writeln!(
            shown.said,
            "{number} keeps its marks: take TR and SQ out to have others proposed"
        )?,
    }
    shown.text = tree.as_given(alloc)?;
    check_problem(alloc, shown.text.as_slice(), line)?;
    Ok(unsquared.is_some())
}
