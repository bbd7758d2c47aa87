//! The diagram of a problem as SVG.
ghost use Rattle.std.specs.Prelude.{◌<◌, ◌≤◌, length};
ghost use Rattle.tt_sgf.specs.Sizes.{point_count};
ghost use Rattle.tsumego_show.specs.declared.diagram.TheConstants.{CELL, MARGIN};

use crate::answers::read_answers;
use crate::endings::{has_ended, put_ending};
use crate::main_lines::{main_line, make_turns};
use crate::picture::{editor_column_letter, point_of_coordinates, unmarked_frame};
use crate::shown::ShowFault;
use crate::windows::{Window, window_of};
use std::alloc::Global;
use std::io::Write;
use tt_board::{Board, Colour};
use tt_game::{Frame, Line, Turn};
use tt_proof::Tree;
use tt_sgf::{Point, PointSet, Size};

/// The most plays that are numbered on one board.
const MOST_NUMBERS: usize = 9;

/// How far a line of the board lies from the next one, and the first one from the edge of the picture.
const CELL: usize = 24;

const MARGIN: usize = 36;

/// How far a line of words stands below the one above, and how wide a letter is at the most.
const LINE_HEIGHT: usize = 14;

const LETTER_WIDTH: usize = 6;

/// Plays that are numbered on a board, the number of the first, and who makes it.
#[derive(Clone, Copy)]
struct Numbers<'a> {
    plays: &'a [Turn],
    first: usize,
    mover: Colour,
}

/// The number of the play on a point, and who makes it.
fn number_on(numbers: Numbers, point: Point) -> Option<(usize, Colour)> {
    let play = Turn::Play(point);
    let i = numbers.plays.iter().position(|turn| *turn == play)?;
    let colour = if i % 2 == 0 {
        numbers.mover
    } else {
        numbers.mover.other()
    };
    Some((numbers.first.saturating_add(i), colour))
}

/// Writes a stone of this colour, where there is one, and a triangle or a square on it behind the text.
fn put_marked_point(
    out: &mut Vec<u8>,
    colour: Option<Colour>,
    is_target: bool,
    is_square: bool,
) -> Result<(), ShowFault> {
    if let Some(stone) = colour {
        let fill = fill_colour(stone);
        write!(out, "<circle r='11' stroke='black' fill='{fill}'/>")?;
    }
    let stroke = fill_colour(colour.unwrap_or(Colour::White).other());
    if is_target {
        write!(
            out,
            "<path d='M0 -7l6 11h-12z' stroke-width='1.5' fill='none' stroke='{stroke}'/>"
        )?;
    } else if is_square {
        let fill = if colour.is_none() { "white" } else { "none" };
        write!(
            out,
            "<rect x='-4' y='-4' width='8' height='8' fill='{fill}' stroke='{stroke}'/>"
        )?;
    }
    Ok(())
}

/// Writes the stone, the mark and the number on a point behind the text.
fn put_point(
    out: &mut Vec<u8>,
    frame: &Frame,
    board: &Board,
    numbers: Numbers,
    point: Point,
) -> Result<(), ShowFault>
    requires { point < point_count board.now.size }
{
    let is_whole_board = usize::from(frame.region.count()) == frame.size.point_count();
    let has_square = numbers.plays.is_empty() && !is_whole_board && frame.region.has(point);
    put_marked_point(out, board.at(point), frame.targets.has(point), has_square)?;
    let Some((number, colour)) = number_on(numbers, point) else {
        return Ok(());
    };
    put_marked_point(out, Some(colour), false, false)?;
    let fill = fill_colour(colour.other());
    Ok(write!(
        out,
        "<text y='5' font-size='14' fill='{fill}'>{number}</text>"
    )?)
}

/// The word for a colour.
fn fill_colour(colour: Colour) -> &'static str {
    match colour {
        Colour::Black => "black",
        Colour::White => "white",
    }
}

/// How far a line goes past the last point that is drawn: half a cell, where the board goes on.
fn overhang(goes_on: bool) -> usize
    ensures { result ≤ CELL }
{
    if goes_on { CELL / 2 } else { 0 }
}

/// Where a line lies in a picture that begins with another.
fn place(first: u16, at: u16) -> usize
    ensures { (MARGIN ≤ result) × (result ≤ 1600000) }
{
    CELL * usize::from(at.saturating_sub(first)) + MARGIN
}

/// Writes the lines and letters of the columns behind the text.
fn put_columns(out: &mut Vec<u8>, size: Size, w: Window) -> Result<(), ShowFault>
    requires { w.right ≤ size.columns }
{
    let top = MARGIN - overhang(0 < w.top);
    let bottom = place(w.top, w.bottom) - CELL + overhang(w.bottom < size.rows());
    for column in w.left..w.right {
        let x = place(w.left, column);
        let letter = char::from(editor_column_letter(column));
        writeln!(
            out,
            "<path d='M{x} {top}V{bottom}' stroke='black'/>\n<text x='{x}' y='17'>{letter}</text>"
        )?;
    }
    Ok(())
}

/// Writes the lines and numbers of the rows behind the text.
fn put_rows(out: &mut Vec<u8>, size: Size, w: Window) -> Result<(), ShowFault>
    requires { w.bottom ≤ size.rows }
{
    let left = MARGIN - overhang(0 < w.left);
    let right = place(w.left, w.right) - CELL + overhang(w.right < size.columns());
    for row in w.top..w.bottom {
        let y = place(w.top, row);
        let below = y + 4;
        let number = size.rows() - row;
        writeln!(
            out,
            "<path d='M{left} {y}H{right}' stroke='black'/>\n<text x='12' y='{below}'>{number}</text>"
        )?;
    }
    Ok(())
}

/// Writes what stands on the points of the window behind the text.
fn put_points(
    out: &mut Vec<u8>,
    frame: &Frame,
    board: &Board,
    numbers: Numbers,
    w: Window,
) -> Result<(), ShowFault>
    requires { (w.right ≤ board.now.size.columns) × (w.bottom ≤ board.now.size.rows) }
{
    let size = board.size();
    for row in w.top..w.bottom {
        for column in w.left..w.right {
            let x = place(w.left, column);
            let y = place(w.top, row);
            write!(out, "<g transform='translate({x} {y})'>")?;
            let point = point_of_coordinates(size, column, row);
            put_point(out, frame, board, numbers, point)?;
            out.extend_from_slice(b"</g>\n")?;
        }
    }
    Ok(())
}

/// Writes a board with numbers, below so many others, behind the text.
fn put_numbered_board(
    out: &mut Vec<u8>,
    frame: &Frame,
    board: &Board,
    numbers: Numbers,
    above: usize,
) -> Result<(), ShowFault> {
    let w = window_of(frame, board.size());
    let y = place(w.top, w.bottom).saturating_mul(above);
    writeln!(out, "<g transform='translate(0 {y})'>")?;
    put_columns(out, board.size(), w)?;
    put_rows(out, board.size(), w)?;
    put_points(out, frame, board, numbers, w)?;
    Ok(out.extend_from_slice(b"</g>\n")?)
}

/// Writes a board without numbers behind the text.
fn put_bare_board(out: &mut Vec<u8>, frame: &Frame, board: &Board) -> Result<(), ShowFault> {
    let numbers = Numbers {
        plays: &[],
        first: 1,
        mover: Colour::Black,
    };
    put_numbered_board(out, frame, board, numbers, 0)
}

/// How many lines words have, and how many bytes the longest.
fn extent(words: &[u8]) -> (usize, usize) {
    let mut lines: usize = 0;
    let mut longest = 0;
    for line in words.split(|byte| *byte == b'\n') {
        lines = lines.saturating_add(1);
        longest = line.len().max(longest);
    }
    (lines, longest)
}

/// Writes lines of words behind the text, the first one at y.
fn put_words(out: &mut Vec<u8>, words: &[u8], y: usize) -> Result<(), ShowFault> {
    let mut y = y;
    for line in words.split(|byte| *byte == b'\n') {
        write!(out, "<text x='12' y='{y}' text-anchor='start'>")?;
        for byte in line {
            match *byte {
                b'<' => out.extend_from_slice(b"&lt;")?,
                b'&' => out.extend_from_slice(b"&amp;")?,
                other => out.push(other)?,
            }
        }
        out.extend_from_slice(b"</text>\n")?;
        y = y.saturating_add(LINE_HEIGHT);
    }
    Ok(())
}

/// Writes an SVG document of so many boards of a frame, which are written already, with words below, behind the text.
fn put_document(
    out: &mut Vec<u8>,
    frame: &Frame,
    boards: &[u8],
    count: usize,
    words: &[u8],
) -> Result<(), ShowFault> {
    let w = window_of(frame, frame.size);
    let (lines, longest) = extent(words);
    let width = longest
        .saturating_mul(LETTER_WIDTH)
        .saturating_add(24)
        .max(place(w.left, w.right));
    let y = place(w.top, w.bottom)
        .saturating_mul(count)
        .saturating_add(12);
    let height = lines.saturating_mul(LINE_HEIGHT).saturating_add(y);
    writeln!(
        out,
        "<svg xmlns='http://www.w3.org/2000/svg' width='{width}' height='{height}' font-family='sans-serif' font-size='11' text-anchor='middle'>\n<rect width='{width}' height='{height}' fill='white'/>"
    )?;
    out.extend_from_slice(boards)?;
    put_words(out, words, y)?;
    Ok(out.extend_from_slice(b"</svg>\n")?)
}

/// How many of these turns are numbered on a board: plays, at most nine, each on a point that is empty and has no number.
fn numbered_count(board: &Board, turns: &[Turn]) -> usize
    ensures { result ≤ length turns.now }
{
    let mut used = PointSet::empty();
    for i in 0..turns.len() {
        let Turn::Play(point) = turns[i] else {
            return i;
        };
        let is_free = board.size().holds(point) && board.at(point).is_none();
        if i == MOST_NUMBERS || !is_free || used.has(point) {
            return i;
        }
        used = used.with(point);
    }
    turns.len()
}

/// Writes the boards on which the main line of a strategy is numbered up to a pass behind the text, and how it ends behind the words, or
/// that a pass comes. The answer is how many boards.
fn put_main_line(
    alloc: Global,
    out: &mut Vec<u8>,
    words: &mut Vec<u8>,
    line: &Line,
    tree: &Tree,
) -> Result<usize, ShowFault> {
    let turns = main_line(alloc, line, tree)?;
    let mut at = line.try_clone()?;
    let mut first: usize = 1;
    let mut rest = turns.as_slice();
    let mut count: usize = 0;
    for above in 0..turns.len().max(1) {
        let (plays, behind) = rest.split_at(numbered_count(at.present(), rest));
        if plays.is_empty() && 0 < above {
            break;
        }
        let mover = at.frame().colour_of(at.to_move());
        let numbers = Numbers {
            plays,
            first,
            mover,
        };
        put_numbered_board(out, at.frame(), at.present(), numbers, above)?;
        make_turns(&mut at, plays)?;
        first = first.saturating_add(plays.len());
        rest = behind;
        count = above + 1;
    }
    if has_ended(&at) {
        words.push(b'\n')?;
        put_ending(words, &at)?;
    } else if !rest.is_empty() {
        words.extend_from_slice(b"\nThe main line goes on with a pass")?;
    }
    Ok(count)
}

/// Writes the diagram of a board without marks, with these words below, as SVG behind the text.
pub fn put_unmarked_svg(
    alloc: Global,
    out: &mut Vec<u8>,
    board: &Board,
    words: &[u8],
) -> Result<(), ShowFault> {
    let frame = unmarked_frame(board.size());
    let mut drawn = Vec::new(alloc);
    put_bare_board(&mut drawn, &frame, board)?;
    put_document(out, &frame, drawn.as_slice(), 1, words)
}

/// Writes the diagram of the problem at a line, and of the strategy that stands behind it, as SVG behind the text: what matters of the
/// board, with the coordinates of editors, the targets marked, and the region or the plays of the main line up to a pass, as stones with
/// numbers; a new board stands below after nine plays, and where the next one is on a point that had a stone or a number; below them who
/// moves, who wins, where that is said, and how the line ends, or that a pass comes.
pub fn put_svg(
    alloc: Global,
    out: &mut Vec<u8>,
    line: &Line,
    behind: &[u8],
) -> Result<(), ShowFault> {
    let found = read_answers(alloc, line, behind)?;
    let frame = line.frame();
    let mut words = Vec::new(alloc);
    found.put_verdict(&mut words, line)?;
    if found.is_vain() {
        words.extend_from_slice(b": no certificate")?;
    }
    let mut boards = Vec::new(alloc);
    let count = match found.strategies.first() {
        Some((_, tree)) => put_main_line(alloc, &mut boards, &mut words, line, tree)?,
        None => {
            put_bare_board(&mut boards, frame, line.present())?;
            1
        }
    };
    put_document(out, frame, boards.as_slice(), count, words.as_slice())
}
