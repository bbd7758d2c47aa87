//! Boards and counted boards over stored games, held point by point against a plain one after each turn. An independent program
//! made the games from the rules.

ghost use Rattle.std.specs.Prelude.{◌≡◌, ◌<◌};
ghost use Rattle.tt_sgf.specs.Sizes.{point_count};

use crate::board_tables::CHAIN_GAMES;
use crate::board_tests::{point_number, sized};
use crate::plain_board::{PlainBoard, beside};
use crate::rows::{Table, cut, holding, short_number};
use std::alloc::Global;
use tt_board::{Board, Colour, CountedBoard};
use tt_sgf::{Point, Size};

/// The least mark of a stone and of those of its colour beside it.
fn least_beside(
    size: Size,
    entries: &[Option<Colour>; 361],
    marks: &[usize; 361],
    p: usize,
) -> usize {
    let mut least = 361;
    if p < 361 && entries[p].is_some() {
        least = marks[p];
        for q in beside(size, p) {
            if q < 361 && entries[q] == entries[p] {
                least = least.min(marks[q]);
            }
        }
    }
    least
}

/// Gives each stone that mark, in a pass to or fro; whether any mark changed.
fn lower(size: Size, entries: &[Option<Colour>; 361], marks: &mut [usize; 361], to: bool) -> bool {
    let mut changed = false;
    for k in 0..361 {
        let p = if to { k } else { 360 - k };
        let least = least_beside(size, entries, marks, p);
        if least != marks[p] {
            marks[p] = least;
            changed = true;
        }
    }
    changed
}

/// The least point of the chain of each stone, found by passes over the board; 361 where it is empty.
fn least_of_chains(size: Size, entries: &[Option<Colour>; 361]) -> [usize; 361] {
    let mut least = [361; 361];
    for p in 0..361 {
        if entries[p].is_some() {
            least[p] = p;
        }
    }
    for k in 0..722 {
        if !lower(size, entries, &mut least, k % 2 == 0) {
            return least;
        }
    }
    least
}

/// The least point of the chain at one of four points, if it stands so there.
fn chain_at(least: &[usize; 361], near: &[usize; 4], so: &[bool; 4], k: usize) -> Option<usize> {
    if k < 4 && so[k] && near[k] < 361 {
        return Some(least[near[k]]);
    }
    None
}

/// Whether it stands so at one of four points, and at none of those before it with a stone of the same chain.
fn is_first(least: &[usize; 361], near: &[usize; 4], so: &[bool; 4], k: usize) -> bool {
    let chain = chain_at(least, near, so, k);
    for j in 0..k {
        if chain_at(least, near, so, j) == chain {
            return false;
        }
    }
    chain.is_some()
}

/// How many different chains have stones on those of the four points at which it stands so.
fn different(least: &[usize; 361], near: &[usize; 4], so: &[bool; 4]) -> u16 {
    let mut count = 0_u16;
    for k in 0..4 {
        if is_first(least, near, so, k) {
            count = count.wrapping_add(1);
        }
    }
    count
}

/// At which of four points these entries have a stone of a colour, and those entries none.
fn stones_at(
    near: &[usize; 4],
    entries: &[Option<Colour>; 361],
    colour: Colour,
    without: &[Option<Colour>; 361],
) -> [bool; 4] {
    let mut so = [false; 4];
    for k in 0..4 {
        let q = near[k];
        if q < 361 {
            so[k] = entries[q] == Some(colour) && without[q].is_none();
        }
    }
    so
}

/// How many stones of a colour there are.
fn stones(entries: &[Option<Colour>; 361], colour: Colour) -> u16 {
    let mut count = 0_u16;
    for entry in entries {
        if *entry == Some(colour) {
            count = count.wrapping_add(1);
        }
    }
    count
}

/// What a game's plays do at the most: the chains taken at once, the stones of a suicide, and the chains joined at once.
#[derive(Clone, Copy, PartialEq, Eq)]
struct Most {
    taken: u16,
    suicide: u16,
    joined: u16,
}

impl Most {
    /// What it was, with one more play.
    fn with(self, play: Most) -> Most {
        Most {
            taken: self.taken.max(play.taken),
            suicide: self.suicide.max(play.suicide),
            joined: self.joined.max(play.joined),
        }
    }
}

/// What a play of a colour on a point does that leads from one board to the other.
fn done(before: &Board, colour: Colour, p: Point, after: &Board) -> Most {
    let size = before.size();
    let entries = before.entries();
    let next = after.entries();
    let least = least_of_chains(size, &entries);
    let near = beside(size, usize::from(p.number()));
    let none = [None; 361];
    if after.size() == size && size.holds(p) && after.at(p).is_none() {
        return Most {
            taken: 0,
            suicide: stones(&entries, colour)
                .wrapping_add(1)
                .wrapping_sub(stones(&next, colour)),
            joined: 0,
        };
    }
    Most {
        taken: different(
            &least,
            &near,
            &stones_at(&near, &entries, colour.other(), &next),
        ),
        suicide: 0,
        joined: different(&least, &near, &stones_at(&near, &entries, colour, &none)),
    }
}

/// Whether a counted board says of a play of a colour what the board does, whose chains are counted anew.
fn says(counted: &CountedBoard, board: &Board, colour: Colour, p: Point) -> bool
    requires same { counted.now ≡ board.now }
    requires on_board { p < point_count board.now.size }
{
    match board.play(colour, p) {
        Ok(next) => counted.after(colour, p).same(&next),
        Err(_) => true,
    }
}

/// Whether it says so of each play of the colour.
fn agrees(counted: &CountedBoard, colour: Colour) -> bool {
    let board = counted.board();
    let size = board.size();
    for k in 0..361 {
        if let Some(p) = size.point(k) {
            if !says(counted, &board, colour, p) {
                return false;
            }
        }
    }
    true
}

/// Whether a counted board is this plain one, and says of each play what that does.
fn counts(counted: &CountedBoard, board: &Board) -> bool {
    counted.board().same(board) && agrees(counted, Colour::Black) && agrees(counted, Colour::White)
}

/// Whether a board has on each point what the plain one has.
fn is_plain(board: &Board, plain: &PlainBoard) -> bool {
    let size = board.size();
    for k in 0..361 {
        if let Some(p) = size.point(k) {
            if board.at(p) != plain.at(usize::from(k)) {
                return false;
            }
        }
    }
    true
}

/// A board with its chains counted, which a game's turns are played on, and one that each turn writes over.
#[derive(Drop)]
struct Counted {
    played: CountedBoard,
    above: CountedBoard,
}

impl Counted {
    /// Plays on both, and the plain board after it; none where it isn't made, or where one of them says otherwise.
    fn play(&mut self, colour: Colour, p: Point) -> Option<Board> {
        let board = self.played.board();
        if !board.size().holds(p) {
            return None;
        }
        let next = board.play(colour, p).ok()?;
        let asked = self.played.after(colour, p);
        self.above.become_after(&self.played, colour, p);
        self.played.play(colour, p);
        if asked.same(&next) && self.played.board().same(&next) && self.above.board().same(&next) {
            return Some(next);
        }
        None
    }

    /// Whether both have on each point what the plain board has.
    fn are_plain(&self, plain: &PlainBoard) -> bool {
        is_plain(&self.played.board(), plain) && is_plain(&self.above.board(), plain)
    }
}

/// What the plays of a game do at the most; none where a board isn't the plain one after some turn, or a counted board says at the
/// end of some play what another doesn't.
fn played(size: Size, turns: &[u8]) -> Option<Most> {
    let mut board = Board::empty(size);
    let mut counted = Counted {
        played: CountedBoard::of(&board),
        above: CountedBoard::of(&board),
    };
    let mut plain = PlainBoard::empty(size);
    let mut colour = Colour::Black;
    let mut most = Most {
        taken: 0,
        suicide: 0,
        joined: 0,
    };
    for word in turns.chunks(3) {
        if let Some(p) = size.point(point_number(size, word)) {
            let next = counted.play(colour, p)?;
            plain.play(colour, usize::from(p.number()));
            if !is_plain(&next, &plain) || !counted.are_plain(&plain) {
                return None;
            }
            most = most.with(done(&board, colour, p, &next));
            board = next;
        }
        colour = colour.other();
    }
    if !counts(&counted.played, &board) || !counts(&counted.above, &board) {
        return None;
    }
    Some(most)
}

/// Whether a game goes as the line of the table says.
fn game_holds(line: &[u8]) -> bool {
    let Some((size, rest)) = sized(line) else {
        return false;
    };
    let (turns, rest) = cut(rest, b'|');
    let (taken, rest) = cut(rest, b'|');
    let (suicide, joined) = cut(rest, b'|');
    played(size, turns)
        == Some(Most {
            taken: short_number(taken),
            suicide: short_number(suicide),
            joined: short_number(joined),
        })
}

struct ChainTable;

impl Table for ChainTable {
    fn holds(_: Global, line: &[u8]) -> bool {
        game_holds(line)
    }
}

#[test]
fn games(rt: HostRuntime) {
    assert_eq!(&rt; holding::<ChainTable>(rt.alloc(), CHAIN_GAMES, b'\n'), 7);
}
