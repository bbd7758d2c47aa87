//! Advice along a line: the finder follows the line, and says a turn that wins by its numbers.

ghost use Rattle.std.specs.Prelude.{◌≡◌, ◌≤◌};

use crate::advice::{Advice, VisitsLeft};
use crate::finder::board::{SearchBoard, SearchTurn};
use crate::finder::search::{Finder, Listed, hashes_of};
use crate::finder::transpositions::{LOST, ProofNumbers, UNKNOWN, WON};
use crate::finder::workers::{Guess, SharedSearch, winner_by_numbers};
use std::alloc::Global;
use tt_board::{Board, Colour};
use tt_game::{Line, Side, Turn};
use tt_sgf::{Bits, MOST_POINTS, NoMemory};

/// How many plays are undone at most to follow a line: more than the certifier's 512 turns, so that this only bounds the loop. Where it
/// doesn't suffice the board is made anew.
const MOST_UNDONE: u16 = 1024;

/// A source of advice at the lines of one problem.
#[derive(Drop)]
pub struct Advisor {
    finder: Finder,
    visited: u32,
}

/// How many positions a search at a line may visit, where so many were visited for its problem. It bounds what one line may cost. Both
/// numbers were chosen without a measurement.
fn advice_visit_limit(visited: u32) -> u32 {
    visited.saturating_mul(2).saturating_add(200_000)
}

/// The least point of the second set that the first has not.
fn first_added_point(before: &Bits, after: &Bits) -> Option<u16> {
    let p = after.minus(before).first_from(0);
    if p < usize::from(MOST_POINTS) {
        Some(p as u16)
    } else {
        None
    }
}

/// The play that led from one board to the next; none where no stone is new.
fn play_between(before: &Board, after: &Board) -> Option<(Colour, u16)> {
    for colour in [Colour::Black, Colour::White] {
        if let Some(p) = first_added_point(before.bits(colour), after.bits(colour)) {
            return Some((colour, p));
        }
    }
    None
}

impl Finder {
    /// Whether the finder's board is the last of the first so many.
    fn stands_at_last_of(&self, boards: &[Board], count: usize) -> bool {
        match boards.get(count.wrapping_sub(1)) {
            Some(board) => self.board.hash_of_other_board(board) == self.board.hash(),
            None => false,
        }
    }

    /// Undoes plays until the finder's board is one of the line's; whether it is.
    fn unplay_to_line(&mut self, boards: &[Board]) -> bool {
        for _ in 0..MOST_UNDONE {
            let count = self.board.history().len();
            if count <= boards.len() && self.stands_at_last_of(boards, count) {
                return true;
            }
            if !self.board.can_undo() {
                return false;
            }
            self.board.unplay();
        }
        false
    }

    /// The play that led from the finder's board, which is this one, to the next: a suicide, which leaves no new stone, is on the only
    /// liberty of the chain that is gone.
    fn play_or_suicide_between(&self, before: &Board, after: &Board) -> Option<(Colour, u16)> {
        if let Some(play) = play_between(before, after) {
            return Some(play);
        }
        for colour in [Colour::Black, Colour::White] {
            if let Some(stone) = first_added_point(after.bits(colour), before.bits(colour)) {
                let p = self.board.only_liberty(stone)?;
                return Some((colour, p));
            }
        }
        None
    }

    /// Plays what led to the last board; whether it could.
    fn play_to_line(&mut self, boards: &[Board]) -> Result<bool, NoMemory> {
        for k in self.board.history().len()..boards.len() {
            let (Some(before), Some(after)) = (boards.get(k.wrapping_sub(1)), boards.get(k)) else {
                return Ok(false);
            };
            match self.play_or_suicide_between(before, after) {
                Some((colour, p)) if self.board.is_empty_point(p) => {
                    self.board.play(colour, p)?;
                }
                _ => return Ok(false),
            }
        }
        Ok(self.stands_at_last_of(boards, boards.len()))
    }

    /// Begins anew where a line stands; what is known stays. A function of its own, since the room of a board is cleared at its entry.
    #[inline(never)]
    fn reset_board(&mut self, line: &Line) -> Result<(), NoMemory> {
        self.board = SearchBoard::of(self.alloc, line)?;
        Ok(())
    }

    /// Goes where a line stands.
    fn follow(&mut self, line: &Line) -> Result<(), NoMemory> {
        let boards = line.history();
        if self.unplay_to_line(boards) && self.play_to_line(boards)? {
            return Ok(());
        }
        self.reset_board(line)
    }

    /// Notes that the line is lost for its mover, and that the line before it is won by the other colour.
    fn note_lost_line_and_parent(&mut self, line: &Line, mover: Colour) {
        let hashes = self.hashes_of_position(mover);
        self.keep_line_entry(hashes, LOST, None);
        if line.passes() > 0 {
            let hashes = self.hashes_of_position(mover.other());
            self.keep_line_entry(hashes, WON, Some(SearchTurn::Pass));
            return;
        }
        let boards = line.history();
        let last = boards.len().wrapping_sub(1);
        let (Some(before), Some(after)) = (boards.get(last.wrapping_sub(1)), boards.get(last))
        else {
            return;
        };
        let turn = match play_between(before, after) {
            Some((_, p)) => Some(SearchTurn::Play(p)),
            None => None,
        };
        let board = &self.board;
        let history = board.history().combined_hash_with(board.hash());
        let hashes = hashes_of(board.hash_of_other_board(before), mover.other(), history);
        self.keep_line_entry(hashes, WON, turn);
    }

    /// Whether the targets live unconditionally behind the defender's play on the empty point; how many points the attacker has then.
    fn attackable_count_if_alive(&mut self, p: u16) -> Option<usize> {
        let me = self.region.defender;
        let effect = self.board.preview_play(me, p);
        if effect.is_suicide || self.board.history().has(effect.hash) {
            return None;
        }
        if self.board.play(me, p).is_err() {
            return None;
        }
        let points = if self.are_targets_alive() {
            Some(self.attackable_point_count())
        } else {
            None
        };
        self.board.unplay();
        points
    }

    /// On how many points the attacker may play, at once or once they are open again.
    fn attackable_point_count(&self) -> usize {
        let me = self.region.defender;
        let board = &self.board;
        let mut count = 0usize;
        for p in &self.region.points {
            let counts = if board.is_empty_point(*p) {
                let is_lone = !board.has_stone_beside(me.other(), *p);
                !(is_lone && board.preview_play(me.other(), *p).is_suicide)
            } else {
                !board.holds(me, *p)
            };
            count = count.saturating_add(usize::from(counts));
        }
        count
    }

    /// The turn of the defender, whose targets live unconditionally: of the plays in enclosed areas that leave them so the one that
    /// leaves the attacker the fewest points, or a pass where there is none. A play elsewhere only makes more positions.
    fn turn_of_living_defender(&mut self) -> SearchTurn {
        let mut best = SearchTurn::Pass;
        let mut fewest = usize::MAX;
        for k in 0..self.region.points.len() {
            let p = self.region.point(k);
            let board = &self.board;
            if !board.is_empty_point(p) || !self.region.is_in_enclosed_area(board, p) {
                continue;
            }
            if let Some(points) = self.attackable_count_if_alive(p) {
                if points < fewest {
                    fewest = points;
                    best = SearchTurn::Play(p);
                }
            }
        }
        best
    }

    /// The turn that is said first where the line stands, if one is known.
    fn known_turn(&mut self, line: &Line, mover: Colour) -> Option<SearchTurn> {
        if mover == self.region.defender {
            if line.passes() > 0 {
                return Some(SearchTurn::Pass);
            }
            if self.are_targets_alive() {
                return Some(self.turn_of_living_defender());
            }
            if let Some(p) = self.play_to_life() {
                return Some(SearchTurn::Play(p));
            }
        }
        let entry = self.find_entry(self.hashes_of_position(mover))?;
        if entry.numbers.proof == 0 {
            entry.best
        } else {
            None
        }
    }

    /// Another turn than the best one that wins by the numbers behind it, where so many were refused.
    fn other_winning_turn(&mut self, mover: Colour, refused: u16) -> Option<SearchTurn> {
        let best = match self.find_entry(self.hashes_of_position(mover)) {
            Some(entry) => entry.best,
            None => None,
        };
        let mut list = Vec::new(self.alloc);
        if let Listed::Win(turn) = self.list_turns(mover, &mut list) {
            return if refused == 0 { Some(turn) } else { None };
        }
        let mut left = refused;
        for child in list.as_slice() {
            if child.numbers.disproof == 0 && Some(child.turn) != best {
                if left <= 1 {
                    return Some(child.turn);
                }
                left -= 1;
            }
        }
        None
    }
}

impl Advisor {
    /// Advice for the problem of a line. Its memory grows with the number of positions.
    pub fn new(alloc: Global, line: &Line, positions: u32) -> Result<Advisor, NoMemory> {
        Ok(Advisor {
            finder: Finder::new(alloc, line, positions)?,
            visited: 0,
        })
    }

    /// Advice by a finder, where so many positions were visited for its problem.
    pub(crate) fn of_finder(finder: Finder, visited: u32) -> Advisor {
        Advisor { finder, visited }
    }

    /// Forgets all numbers, and leaves no turn out any more: for where what it said of the problem itself was wrong.
    pub fn restart_without_pruning(&mut self) {
        self.finder.restart_without_pruning();
    }

    /// Searches where the finder's board stands, with at most so many visits; what is known then, also where another worker ended the
    /// search.
    fn search(
        &mut self,
        mover: Colour,
        most: u32,
        visits: &mut VisitsLeft,
    ) -> Result<ProofNumbers, NoMemory>
        ensures fewer { visits.new.left ≤ visits.old.left }
    {
        let before = visits.left;
        let numbers = self.finder.search_from_board(mover, most, visits);
        self.visited = self.visited.saturating_add(before - visits.left);
        if self.finder.lacks_memory() {
            return Err(NoMemory);
        }
        Ok(numbers)
    }

    /// Who wins at the line by a search of at most so many visits, if that says so.
    pub fn winner_by_search(
        &mut self,
        line: &Line,
        most: u32,
        visits: &mut VisitsLeft,
    ) -> Result<Option<Side>, NoMemory>
        ensures fewer { visits.new.left ≤ visits.old.left }
    {
        self.finder.follow(line)?;
        let mover = self.finder.colour_of_side(line.to_move());
        let numbers = self.search(mover, most, visits)?;
        Ok(winner_by_numbers(numbers, line.to_move()))
    }

    /// A search of the line's problem that workers share, and that goes on from what is known here. So many visits are asked for.
    pub fn shared_search<'a>(
        &mut self,
        line: &'a Line,
        visits: u32,
    ) -> Result<SharedSearch<'a>, NoMemory> {
        SharedSearch::of(&mut self.finder, line, visits, self.visited)
    }

    /// Goes on from how often each turn won in a worker's search.
    pub fn learn(&mut self, guess: &Guess) {
        self.finder.wins = guess.wins;
    }

    /// Counts what workers visited for its problem.
    pub fn count_visited(&mut self, visited: u32) {
        self.visited = self.visited.saturating_add(visited);
    }

    /// The turn that a search where the line stands finds. Where turns were refused, it is one of the line's own.
    fn search_for_turn(
        &mut self,
        line: &Line,
        mover: Colour,
        refused: u16,
        visits: &mut VisitsLeft,
    ) -> Result<Option<SearchTurn>, NoMemory>
        ensures fewer { visits.new.left ≤ visits.old.left }
    {
        let hashes = self.finder.hashes_of_position(mover);
        if refused > 0 {
            self.finder.keep_line_entry(hashes, UNKNOWN, None);
        }
        let numbers = self.search(mover, advice_visit_limit(self.visited), visits)?;
        if numbers.proof == 0 {
            if let Some(entry) = self.finder.find_entry(hashes) {
                return Ok(entry.best);
            }
        }
        // a search that ran out of all visits says nothing, nor does one that another worker ended
        if visits.left > 0 && !self.finder.has_stopped() {
            self.finder.note_lost_line_and_parent(line, mover);
        }
        Ok(None)
    }
}

impl Advice for Advisor {
    #[inline(never)]
    fn advise(
        &mut self,
        line: &Line,
        refused: u16,
        visits: &mut VisitsLeft,
    ) -> Result<Option<Turn>, NoMemory>
        ensures fewer { visits.new.left ≤ visits.old.left }
    {
        if self.finder.has_ended() {
            return Ok(None);
        }
        self.finder.follow(line)?;
        let mover = self.finder.colour_of_side(line.to_move());
        if refused == 0 {
            if let Some(turn) = self.finder.known_turn(line, mover) {
                return Ok(Some(turn.turn()));
            }
        }
        if let Some(turn) = self.finder.other_winning_turn(mover, refused) {
            return Ok(Some(turn.turn()));
        }
        let found = self.search_for_turn(line, mover, refused, visits)?;
        Ok(found.map(SearchTurn::turn))
    }
}
