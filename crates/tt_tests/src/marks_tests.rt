//! Marks of positions that have none: made shapes with their marks, diagrams of books, and walls with stones taken out.

ghost use Rattle.std.specs.Prelude.{◌≡◌, IfSome};

use crate::drawings::{board_of, holders};
use crate::rows::{Table, cut, holding, short_number};
use std::alloc::Global;
use tt_board::{Board, Colour};
use tt_marks::{
    Closing, closings, is_inner, is_walled_in, proposed_stone, region, stones_in_danger,
    wall_in_danger,
};
use tt_sgf::{Point, PointSet, Size};

/// The colour of the group that is meant, the side of the board, and the board with `s` on the squares, where the wall is closed: shapes as
/// they were made, then three diagrams of books with open walls. In the first of these Black's lone stone is no group.
const PROPOSALS: &str = "\
W|13|............................BBBBBB.......BWWWWB.......BWssWB.......BWWWWB.......BBBBBB...................................................................................
W|13|............................BBBBBBB......BWWWWWB......BWsssWB......BWWWWWB......BBBBBBB..................................................................................
W|13|.............................BBBBB.......BBWWWBB......BWWsWWB......BWsssWB......BWWsWWB......BBWWWBB.......BBBBB.........................................................
W|13|............................BBBBBB.......BWWWWBB......BWssWWB......BWWssWB......BBWWWWB.......BBBBBB.....................................................................
W|13|..BWssWB.......BWWWWB.......BBBBBB.......................................................................................................................................
B|13|..WBssBW.......WBssBW.......WBsBBW.......WBBBWW.......WWWWW..............................................................................................................
W|13|..BWsssWB......BWWsWWB......BBWWWBB.......BBBBB..........................................................................................................................
W|13|..BWsssssWB....BWWWWWWWB....BBBBBBBBB....................................................................................................................................
W|13|.............WWWWWB.......BBBBB..........................................................................................................................................
W|13|...............WB..........WWB.B........BBB...........B..................................................................................................................
W|13|..W.............WB..........WWWB........BBB..............................................................................................................................
";

/// A stone of a group, the side of the board, and the board with `c` where stones of the wall were taken out: to put them back closes it.
const TAKEN_OUT: &str = "\
42|13|............................BBcBBB.......BWWWWB.......BW..WB.......BWWWWB.......BBBBBB...................................................................................
3|13|..BW..WB.......BW..WB.......cW.WWB.......BWWWBB.......BBBBB..............................................................................................................
3|13|..cW.....WB....BWWWWWWWB....BBBBBcBBB....................................................................................................................................
3|13|..BW..Wc.......cWWWWB.......BBBBBB.......................................................................................................................................
3|13|..cW...WB......BWW.WWc......BBWWWBB.......BcBBB..........................................................................................................................
3|13|..BW...WB......cWWWWWc......BBBcBBB......................................................................................................................................
";

/// How many closings a diagram has, a stone of the group, the side of the board, and the board with `f` and `l` on the points of the
/// first and the last of them, where these are known: the last is beside a stone of the group, and the first leaves it most room.
const CLOSINGS: &str = "\
3|17|13|....l.f......WWWWWB.......BBBBB..........................................................................................................................................
9|16|13|..W.............WB..........WWWB........BBB..............................................................................................................................
0|42|13|..........................................W..............................................................................................................................
";

/// A stone of a group, the side of the board, and the board with `b` on Black's stones around it that White may take from within.
const IN_DANGER: &str = "\
1|7|.W.bW..WW.bW.....bW..bbbBW..WWWW.................
1|7|.W.B...WW.B......B...BBB.........................
";

/// The board that is drawn, where each stone has a liberty. Points that are written as something else are empty.
fn drawn(size: Size, drawing: &[u8]) -> Option<Board>
    ensures { IfSome result (λ b. b.size ≡ size) }
{
    match board_of(size, drawing) {
        Ok(board) => Some(board),
        Err(_) => None,
    }
}

/// The size of a board with so many columns and rows.
fn square(side: &[u8]) -> Option<Size> {
    Size::new(short_number(side), short_number(side))
}

/// Whether a letter is that of a colour.
fn is_letter(letter: &[u8], colour: Colour) -> bool {
    match colour {
        Colour::Black => letter == b"B".as_slice(),
        Colour::White => letter == b"W".as_slice(),
    }
}

/// Whether the group that is proposed is of this colour and has these squares, where some are drawn.
fn is_proposed(alloc: Global, letter: &[u8], size: Size, drawing: &[u8]) -> Option<bool> {
    let board = drawn(size, drawing)?;
    let Ok(Some(stone)) = proposed_stone(alloc, &board) else {
        return None;
    };
    let colour = board.at(stone)?;
    let squares = holders(size, drawing, b's');
    let found = region(&board, colour, stone);
    let has_squares = found.points.same(&squares) && is_inner(&board, &found.points);
    Some(is_letter(letter, colour) && (squares.count() == 0 || has_squares))
}

struct Proposals;

impl Table for Proposals {
    fn holds(alloc: Global, line: &[u8]) -> bool {
        let (letter, rest) = cut(line, b'|');
        let (side, drawing) = cut(rest, b'|');
        match square(side) {
            Some(size) => is_proposed(alloc, letter, size, drawing) == Some(true),
            None => false,
        }
    }
}

/// The closings of the group of a stone, where it isn't walled in.
fn closings_of(alloc: Global, size: Size, number: u16, drawing: &[u8]) -> Option<Vec<Closing>> {
    let board = drawn(size, drawing)?;
    let stone = size.point(number)?;
    let colour = board.at(stone)?;
    if is_walled_in(&board, colour, stone) {
        return None;
    }
    closings(alloc, &board, colour, stone).ok()
}

/// Whether one of the closings has these stones.
fn has_closing(found: &[Closing], stones: &PointSet) -> bool {
    for closing in found {
        if closing.stones.same(stones) {
            return true;
        }
    }
    false
}

struct TakenOut;

impl Table for TakenOut {
    fn holds(alloc: Global, line: &[u8]) -> bool {
        let (number, rest) = cut(line, b'|');
        let (side, drawing) = cut(rest, b'|');
        let Some(size) = square(side) else {
            return false;
        };
        match closings_of(alloc, size, short_number(number), drawing) {
            Some(found) => has_closing(found.as_slice(), &holders(size, drawing, b'c')),
            None => false,
        }
    }
}

/// Whether a closing has these stones, where some are drawn.
fn is_closing(found: Option<&Closing>, stones: &PointSet) -> bool {
    match found {
        Some(closing) => stones.count() == 0 || closing.stones.same(stones),
        None => stones.count() == 0,
    }
}

struct Closings;

impl Table for Closings {
    fn holds(alloc: Global, line: &[u8]) -> bool {
        let (count, rest) = cut(line, b'|');
        let (number, rest) = cut(rest, b'|');
        let (side, drawing) = cut(rest, b'|');
        let Some(size) = square(side) else {
            return false;
        };
        let Some(found) = closings_of(alloc, size, short_number(number), drawing) else {
            return false;
        };
        let list = found.as_slice();
        list.len() == usize::from(short_number(count))
            && is_closing(list.first(), &holders(size, drawing, b'f'))
            && is_closing(list.last(), &holders(size, drawing, b'l'))
    }
}

/// The board that is drawn, with Black's stones in danger as stones.
fn with_dangers(size: Size, drawing: &[u8], dangers: &PointSet) -> Option<Board>
    ensures { IfSome result (λ b. b.size ≡ size) }
{
    let none = PointSet::empty();
    let stones = holders(size, drawing, b'B').or(dangers);
    match Board::empty(size).set_up(&stones, &holders(size, drawing, b'W'), &none) {
        Ok(board) => Some(board),
        Err(_) => None,
    }
}

/// Whether just these stones around White's group are in danger.
fn are_in_danger(size: Size, number: u16, drawing: &[u8]) -> Option<bool> {
    let dangers = holders(size, drawing, b'b');
    let board = with_dangers(size, drawing, &dangers)?;
    let stone = size.point(number)?;
    let none = stones_in_danger(&board, Colour::Black, &PointSet::empty());
    Some(wall_in_danger(&board, Colour::White, stone).same(&dangers) && none.count() == 0)
}

struct InDanger;

impl Table for InDanger {
    fn holds(_: Global, line: &[u8]) -> bool {
        let (number, rest) = cut(line, b'|');
        let (side, drawing) = cut(rest, b'|');
        match square(side) {
            Some(size) => are_in_danger(size, short_number(number), drawing) == Some(true),
            None => false,
        }
    }
}

#[test]
fn groups_are_proposed_with_their_squares(rt: HostRuntime) {
    assert_eq!(&rt; holding::<Proposals>(rt.alloc(), PROPOSALS, b'\n'), 11);
}

#[test]
fn stones_that_were_taken_out_close_the_wall(rt: HostRuntime) {
    assert_eq!(&rt; holding::<TakenOut>(rt.alloc(), TAKEN_OUT, b'\n'), 6);
}

#[test]
fn closings_come_in_order(rt: HostRuntime) {
    assert_eq!(&rt; holding::<Closings>(rt.alloc(), CLOSINGS, b'\n'), 3);
}

#[test]
fn stones_in_danger_are_told(rt: HostRuntime) {
    assert_eq!(&rt; holding::<InDanger>(rt.alloc(), IN_DANGER, b'\n'), 2);
}
