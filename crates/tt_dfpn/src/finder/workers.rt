//! Several workers at one problem: each searches it from the start with a finder of its own, over one table of positions. What one
//! settled is settled for all.

ghost use Rattle.std.specs.Prelude.{◌≤◌};

use crate::advice::VisitsLeft;
use crate::finder::advisor::Advisor;
use crate::finder::board::CELLS;
use crate::finder::search::{
    COUNT_OF_WIN, Finder, Hashes, MOST_FINDER_DEPTH, NO_HASHES, Stop, Wins,
};
use crate::finder::shared_table::SharedTable;
use crate::finder::transpositions::{ProofNumbers, TranspositionTable};
use crate::mixing::{GOLDEN, mixed};
use std::alloc::Global;
use std::sync::Arc;
use tt_game::{Line, Side};
use tt_sgf::NoMemory;

/// After so many visits a worker looks round for what the others did.
const VISITS_BETWEEN_LOOKS: u32 = 256;

/// Work that workers share: each calls `run_worker`, in a thread of its own.
pub trait SharedWork {
    /// What a worker finds.
    type Found: Send + Drop;

    /// What the worker of a number finds within so many visits. The first that is done ends the work of all.
    fn run_worker(&self, worker: u32, most: u32) -> Finding<Self::Found>
        ensures { result.visited ≤ most };
}

/// What a worker found, or that it had no memory; and how many positions it visited. `NoMemory` is never that another ended the work.
#[derive(Drop)]
pub struct Finding<T> {
    pub found: Result<T, NoMemory>,
    pub visited: u32,
}

/// A search of a line's problem, which workers share.
#[derive(Drop)]
pub struct SharedSearch<'a> {
    alloc: Global,
    line: &'a Line,
    table: Arc<SharedTable>,
    wins: Wins,
    prunes: bool,
    visited: u32,
}

/// What a search says: who wins, if it knows, and how often each turn won.
#[derive(Clone, Copy)]
pub struct Guess {
    pub winner: Option<Side>,
    pub(crate) wins: Wins,
}

/// Who wins by the numbers of a position where a side is to move.
pub(crate) fn winner_by_numbers(numbers: ProofNumbers, mover: Side) -> Option<Side> {
    if numbers.proof == 0 {
        return Some(mover);
    }
    if numbers.disproof == 0 {
        return Some(mover.opponent());
    }
    None
}

/// The counts of wins that the worker of a number begins with, by the first worker's: what breaks ties is its own.
fn wins_of_worker(wins: &Wins, worker: u32) -> Wins {
    let mut counts = *wins;
    for colour in 0..2 {
        for turn in 0..CELLS {
            let seed = (turn as u64).wrapping_mul(GOLDEN) ^ u64::from(worker);
            let tie = (mixed(seed) % u64::from(COUNT_OF_WIN)) as u32;
            counts[colour][turn] = counts[colour][turn].wrapping_add(tie);
        }
    }
    counts
}

impl<'a> SharedSearch<'a> {
    /// A search of a line's problem that goes on from what a finder knows. The table has room for what so many visits find, where it
    /// may be so large.
    pub(crate) fn of(
        finder: &mut Finder,
        line: &'a Line,
        visits: u32,
        visited: u32,
    ) -> Result<SharedSearch<'a>, NoMemory> {
        finder.main_table.grow_for(finder.alloc, visits);
        finder.main_table.shared().set_ended(false);
        Ok(SharedSearch {
            alloc: finder.alloc,
            line,
            table: Arc::try_clone(finder.main_table.shared())?,
            wins: finder.wins,
            prunes: finder.prunes,
            visited,
        })
    }

    /// What is searched.
    pub(crate) fn line(&self) -> &Line {
        self.line
    }

    /// The allocator.
    pub(crate) fn alloc(&self) -> Global {
        self.alloc
    }

    /// Ends the searches of all.
    pub(crate) fn set_ended(&self) {
        self.table.set_ended(true);
    }

    /// The finder of the worker of a number, over the table.
    fn finder(&self, worker: u32) -> Result<Finder, NoMemory> {
        let mut finder = Finder::of_worker(self.alloc, self.line, &self.table, &self.wins, worker)?;
        finder.prunes = self.prunes;
        Ok(finder)
    }

    /// An advisor with the finder of the worker of a number.
    pub(crate) fn advisor(&self, worker: u32) -> Result<Advisor, NoMemory> {
        Ok(Advisor::of_finder(self.finder(worker)?, self.visited))
    }

    /// What the finder of the worker of a number says. One that knows who wins ends the searches of all.
    fn search(&self, worker: u32, visits: &mut VisitsLeft) -> Result<Guess, NoMemory>
        ensures fewer { visits.new.left ≤ visits.old.left }
    {
        let mut finder = self.finder(worker)?;
        let mover = self.line.to_move();
        let colour = finder.colour_of_side(mover);
        let numbers = finder.search_from_board(colour, u32::MAX, visits);
        let winner = winner_by_numbers(numbers, mover);
        if winner.is_some() {
            self.set_ended();
        } else if finder.lacks_memory() {
            return Err(NoMemory);
        }
        Ok(Guess {
            winner,
            wins: finder.wins,
        })
    }
}

impl SharedWork for SharedSearch<'_> {
    type Found = Guess;

    // Not inlined, so that the levels at which threads fork have small frames.
    #[inline(never)]
    fn run_worker(&self, worker: u32, most: u32) -> Finding<Guess> {
        let mut visits = VisitsLeft { left: most };
        let found = self.search(worker, &mut visits);
        Finding {
            found,
            visited: most - visits.left,
        }
    }
}

impl Finder {
    /// The finder of a worker of a number over a table that others hold too. It begins with the counts of wins of another.
    fn of_worker(
        alloc: Global,
        line: &Line,
        table: &Arc<SharedTable>,
        wins: &Wins,
        worker: u32,
    ) -> Result<Finder, NoMemory> {
        let mut finder = Finder::over(alloc, line, TranspositionTable::beside(table)?)?;
        finder.path = vec![in alloc; NO_HASHES; usize::from(MOST_FINDER_DEPTH) + 1]?;
        finder.wins = if worker == 0 {
            *wins
        } else {
            wins_of_worker(wins, worker)
        };
        Ok(finder)
    }

    /// Notes where the search is, and looks round from time to time: whether it is to end, and whether another worker settled a
    /// position on the way here.
    #[inline(never)]
    pub(crate) fn look_round(&mut self, hashes: Hashes, room: u16, visits: &VisitsLeft) {
        if let Some(place) = self.path.get_mut(usize::from(room)) {
            *place = hashes;
        }
        if visits.left % VISITS_BETWEEN_LOOKS != 0 {
            return;
        }
        if self.has_ended() {
            self.stop_search(Stop::Ended);
        }
        if self.cut > 0 {
            return;
        }
        for above in (room..=MOST_FINDER_DEPTH).rev() {
            let Some(hashes) = self.path.get(usize::from(above)) else {
                return;
            };
            if self.settled_numbers(*hashes).is_some() {
                self.cut = above.saturating_add(1);
                return;
            }
        }
    }

    /// The numbers of a position that is known to be settled.
    pub(crate) fn settled_numbers(&self, hashes: Hashes) -> Option<ProofNumbers> {
        let entry = self.find_entry(hashes)?;
        if entry.numbers.is_settled() {
            Some(entry.numbers)
        } else {
            None
        }
    }

    /// What another worker found of the position with this room, where that is what the search goes back to.
    #[inline(never)]
    pub(crate) fn numbers_at_cut(&mut self, hashes: Hashes, room: u16) -> Option<ProofNumbers> {
        if self.cut != room.saturating_add(1) {
            return None;
        }
        self.cut = 0;
        self.settled_numbers(hashes)
    }
}
