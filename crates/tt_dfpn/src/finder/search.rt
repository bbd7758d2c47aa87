//! df-pn (A. Nagai, "Df-pn Algorithm for Searching AND/OR Trees and Its Applications", 2002) with thresholds of 1 + epsilon
//! (J. Pawlewicz, L. Lew, "Improving Depth-First PN-Search: 1 + epsilon Trick", 2007).
//!
//! Positions that differ by their history alone share one entry, but for lines that were found to differ (A. Kishimoto,
//! M. Müller, "A General Solution to the Graph History Interaction Problem", 2004).

ghost use Rattle.std.specs.Prelude.{◌≡◌, ◌<◌, ◌≤◌, ◌↔◌, length, true, false, None, Some, IfSome, IsTrue};
ghost use Rattle.tt_dfpn.specs.declared.finder.search.Stop.{Stop};

use crate::advice::VisitsLeft;
use crate::finder::board::{CELLS, SearchBoard, SearchTurn, index};
use crate::finder::life::Life;
use crate::finder::region::Region;
use crate::finder::shared_table::place_of;
use crate::finder::transpositions::{
    Entry, INFINITE, INITIAL_BUCKETS, INITIAL_PATH_BUCKETS, LOST, MOST_BUCKETS, MOST_PATH_BUCKETS,
    ProofNumbers, TranspositionTable, UNKNOWN, WON,
};
use crate::finder::zobrist::mover_key;
use std::alloc::Global;
use tt_board::Colour;
use tt_game::{Line, Side};
use tt_sgf::NoMemory;

/// How many turns deep the finder looks.
pub(crate) const MOST_FINDER_DEPTH: u16 = 400;

/// One part of so many is epsilon. Of 53 problems 34 were won within 3 s with 4, and 30 to 33 with 1, 2, 8 or 16.
const EPSILON_DIVISOR: u32 = 4;

/// After so many visits a worker descends anew from the root, and sees on the way what others found.
const VISITS_BETWEEN_DESCENTS: u32 = 8_192;

/// One bucket of two entries at most for so many positions: not all that are visited need be kept. It was chosen without a measurement.
const POSITIONS_PER_BUCKET: usize = 4;

/// What a line that was found to differ has as its work, so that it is kept.
const PATH_ENTRY_WORK: u32 = 0x1000_0000;

/// What a win adds to a turn's count. The counts begin below that, so that each worker has another order of turns that won as often.
pub(crate) const COUNT_OF_WIN: u32 = 64;

/// How often each turn won, by colour. A pass counts on a cell outside the board.
pub(crate) type Wins = [[u32; CELLS]; 2];

/// The hashes of a position: without its history, and with it.
#[derive(Clone, Copy)]
pub(crate) struct Hashes {
    pub(crate) position: u64,
    pub(crate) line: u64,
}

/// No position's hashes.
pub(crate) const NO_HASHES: Hashes = Hashes {
    position: 0,
    line: 0,
};

/// A turn, and what is known of the position behind it, from the side that moves there.
#[derive(Clone, Copy)]
pub(crate) struct Child {
    pub(crate) turn: SearchTurn,
    pub(crate) numbers: ProofNumbers,
    wins: u32,
    /// Where the workers that search it are counted.
    place: u16,
}

/// What the children say of a position: its numbers, the best child, and the second least proof number.
#[derive(Clone, Copy)]
struct ChildrenSummary {
    numbers: ProofNumbers,
    best: Option<usize>,
    second: u32,
}

/// What became of turns: one wins at once, or a play that repeats a board was left out, or neither.
#[derive(Clone, Copy, PartialEq, Eq)]
pub(crate) enum Listed {
    Win(SearchTurn),
    RepeatLeftOut,
    NoRepeat,
}

/// What stops a search before its visits are spent.
#[derive(Clone, Copy, PartialEq, Eq)]
pub(crate) enum Stop {
    /// Another worker ended the work of all.
    Ended,
    NoMemory,
}

/// The finder.
#[derive(Drop)]
pub(crate) struct Finder {
    pub(crate) alloc: Global,
    pub(crate) board: SearchBoard,
    pub(crate) region: Region,
    pub(crate) main_table: TranspositionTable,
    path_table: TranspositionTable,
    has_path_table: bool,
    /// How often each turn won, by colour (J. Schaeffer, "The History Heuristic", 1989).
    pub(crate) wins: Wins,
    /// What was seen last of the targets' life.
    pub(crate) life: Life,
    /// What was read ahead of the table, so that it is read at all.
    bits_read_ahead: u64,
    /// Lists that aren't used.
    lists: Vec<Vec<Child>>,
    /// Whether suicides and plays into the mover's own eyes are left out.
    pub(crate) prunes: bool,
    /// The search ends where no more visits are left than these.
    reserve: u32,
    /// What stopped the last search, if anything did.
    stop: Option<Stop>,
    /// The hashes of the positions from the first to here, by the room that was left there. Empty where nobody else holds the table.
    pub(crate) path: Vec<Hashes>,
    /// One more than the room at the first of them that another worker was seen to have settled; 0 where there is none.
    pub(crate) cut: u16,
}

/// The index of a colour.
#[inline(always)]
fn colour_index(colour: Colour) -> usize
    ensures { result < 2 }
{
    match colour {
        Colour::Black => 0,
        Colour::White => 1,
    }
}

/// The hashes of the position with this hash, where a colour moves, behind boards with one hash of them all.
#[inline(always)]
pub(crate) fn hashes_of(hash: u64, mover: Colour, history: u64) -> Hashes {
    let position = hash ^ mover_key(mover);
    Hashes {
        position,
        line: position ^ history.rotate_left(17),
    }
}

/// The sum of two numbers; infinity where one is infinite, and only there.
#[inline(always)]
fn sum(one: u32, two: u32) -> u32 {
    if one >= INFINITE || two >= INFINITE {
        return INFINITE;
    }
    one.saturating_add(two).min(INFINITE - 1)
}

/// What the children say of a position.
#[inline]
fn summary_of_children(list: &[Child]) -> ChildrenSummary
    ensures { IfSome result.best (λ k. k < length list.now) }
{
    let mut numbers = LOST;
    let mut second = INFINITE;
    let mut best = None;
    for k in 0..list.len() {
        let child = &list[k].numbers;
        if child.disproof < numbers.proof {
            second = numbers.proof;
            numbers.proof = child.disproof;
            best = Some(k);
        } else if child.disproof < second {
            second = child.disproof;
        }
        numbers.disproof = sum(numbers.disproof, child.proof);
    }
    ChildrenSummary {
        numbers,
        best,
        second,
    }
}

/// How far the best child is searched, where a position is searched until one of its numbers reaches its threshold.
#[inline]
fn thresholds_of(
    choice: &ChildrenSummary,
    child: &ProofNumbers,
    most: ProofNumbers,
) -> ProofNumbers {
    let others = choice.numbers.disproof.saturating_sub(child.proof);
    let next = choice
        .second
        .saturating_add(1)
        .saturating_add(choice.second / EPSILON_DIVISOR)
        .min(INFINITE);
    let proof = if most.disproof >= INFINITE {
        INFINITE
    } else {
        most.disproof.saturating_sub(others)
    };
    ProofNumbers {
        proof,
        disproof: most.proof.min(next),
    }
}

impl Finder {
    /// A finder for a line's problem, which stands where the line stands. Its table grows with the number of positions.
    pub(crate) fn new(alloc: Global, line: &Line, positions: u32) -> Result<Finder, NoMemory> {
        let most = (positions as usize / POSITIONS_PER_BUCKET).min(MOST_BUCKETS);
        let table = TranspositionTable::new(alloc, INITIAL_BUCKETS, most)?;
        Finder::over(alloc, line, table)
    }

    /// A finder for a line's problem over a table.
    pub(crate) fn over(
        alloc: Global,
        line: &Line,
        table: TranspositionTable,
    ) -> Result<Finder, NoMemory> {
        let board = SearchBoard::of(alloc, line)?;
        let region = Region::of(alloc, line, &board)?;
        Ok(Finder {
            alloc,
            board,
            region,
            main_table: table,
            path_table: TranspositionTable::new(alloc, INITIAL_PATH_BUCKETS, MOST_PATH_BUCKETS)?,
            has_path_table: false,
            wins: [[0; CELLS]; 2],
            life: Life::none(alloc)?,
            bits_read_ahead: 0,
            lists: Vec::new(alloc),
            prunes: true,
            reserve: 0,
            stop: None,
            path: Vec::new(alloc),
            cut: 0,
        })
    }

    /// The colour of a side.
    pub(crate) fn colour_of_side(&self, side: Side) -> Colour {
        match side {
            Side::Attacker => self.region.defender.other(),
            Side::Defender => self.region.defender,
        }
    }

    /// The hashes of the position where the board stands and a colour moves.
    pub(crate) fn hashes_of_position(&self, mover: Colour) -> Hashes {
        hashes_of(
            self.board.hash(),
            mover,
            self.board.history().combined_hash(),
        )
    }

    /// What is known of a position: what is known of its line, where that has an entry of its own.
    pub(crate) fn find_entry(&self, hashes: Hashes) -> Option<Entry> {
        if self.has_path_table {
            if let Some(entry) = self.path_table.find(hashes.line) {
                return Some(entry);
            }
        }
        self.main_table.find(hashes.position)
    }

    /// Keeps what is known of a position, whatever its history.
    #[inline]
    pub(crate) fn keep_position(
        &mut self,
        key: u64,
        numbers: ProofNumbers,
        best: Option<SearchTurn>,
        work: u32,
    ) {
        self.main_table.keep(key, &Entry::new(numbers, best, work));
    }

    /// Keeps what is known of a position: as its line's own, where that has an entry. Numbers that settle nothing never replace what
    /// another worker settled.
    #[inline]
    pub(crate) fn keep_entry(
        &mut self,
        hashes: Hashes,
        numbers: ProofNumbers,
        best: Option<SearchTurn>,
        work: u32,
    ) {
        if self.has_path_table && self.path_table.find(hashes.line).is_some() {
            let entry = Entry::new(numbers, best, work);
            self.path_table.keep(hashes.line, &entry);
            return;
        }
        if self.shares_table() && !numbers.is_settled() {
            if let Some(entry) = self.main_table.find(hashes.position) {
                if entry.numbers.is_settled() {
                    return;
                }
            }
        }
        self.keep_position(hashes.position, numbers, best, work);
    }

    /// Whether others hold the table too.
    #[inline(always)]
    fn shares_table(&self) -> bool {
        !self.path.is_empty()
    }

    /// Whether another worker ended the work of all.
    pub(crate) fn has_ended(&self) -> bool {
        self.shares_table() && self.main_table.shared().has_ended()
    }

    /// Gives a line an entry of its own.
    pub(crate) fn keep_line_entry(
        &mut self,
        hashes: Hashes,
        numbers: ProofNumbers,
        best: Option<SearchTurn>,
    ) {
        self.has_path_table = true;
        self.path_table.grow_if_needed(self.alloc);
        let entry = Entry::new(numbers, best, PATH_ENTRY_WORK);
        self.path_table.keep(hashes.line, &entry);
    }

    /// Forgets all numbers, and leaves no turn out any more.
    pub(crate) fn restart_without_pruning(&mut self) {
        self.prunes = false;
        self.main_table.clear();
        self.path_table.clear();
        self.has_path_table = false;
    }

    /// Adds a turn to a list, behind those that won more often. Without memory the search ends.
    #[inline]
    fn add_child(
        &mut self,
        list: &mut Vec<Child>,
        mover: Colour,
        turn: SearchTurn,
        hashes: Hashes,
    ) {
        let numbers = match self.find_entry(hashes) {
            Some(entry) => entry.numbers,
            None => UNKNOWN,
        };
        let child = Child {
            turn,
            numbers,
            wins: self.wins[colour_index(mover)][index(turn.cell())],
            place: place_of(hashes.position),
        };
        if list.push(child).is_err() {
            self.stop_search(Stop::NoMemory);
            return;
        }
        for k in (1..list.len()).rev() {
            if list[k - 1].wins >= list[k].wins {
                break;
            }
            let before = list[k - 1];
            list[k - 1] = list[k];
            list[k] = before;
        }
    }

    /// The attacker's play that takes the first target's chain at once.
    pub(crate) fn first_target_capture(&self) -> Option<u16> {
        let target = *self.region.targets.first()?;
        let p = self.board.only_liberty(target)?;
        if !self.region.inside[index(p)] {
            return None;
        }
        let effect = self.board.preview_play(self.region.defender.other(), p);
        if effect.takes_target && !effect.is_suicide && !self.board.history().has(effect.hash) {
            return Some(p);
        }
        None
    }

    /// Adds a play on the empty point to a list, where it is worth a look and doesn't win at once. A defender in atari, whose target
    /// would be taken at once, plays on its liberty or takes something.
    #[inline]
    fn list_play(
        &mut self,
        list: &mut Vec<Child>,
        mover: Colour,
        p: u16,
        atari: Option<u16>,
    ) -> Listed {
        let attacks = mover != self.region.defender;
        let effect = self.board.preview_play(mover, p);
        if effect.is_suicide && self.prunes {
            return Listed::NoRepeat;
        }
        if self.board.history().has(effect.hash) {
            return Listed::RepeatLeftOut;
        }
        if effect.takes_target {
            return if attacks {
                Listed::Win(SearchTurn::Play(p))
            } else {
                Listed::NoRepeat
            };
        }
        if !attacks && self.prunes && effect.captures == 0 {
            let is_useless = match atari {
                Some(liberty) => p != liberty,
                None => self.board.is_eye_of_one_chain(mover, p),
            };
            if is_useless {
                return Listed::NoRepeat;
            }
        }
        let history = self.board.history().combined_hash_with(effect.hash);
        let hashes = hashes_of(effect.hash, mover.other(), history);
        self.add_child(list, mover, SearchTurn::Play(p), hashes);
        Listed::NoRepeat
    }

    /// Reads the rows of what is behind a colour's plays, before they are looked up one by one. So these reads wait for memory together,
    /// and not one after the other: five problems took 6.1 s instead of 6.8 s.
    #[inline]
    fn read_rows_ahead(&mut self, mover: Colour) {
        let mut bits = 0u64;
        for p in &self.region.points {
            if self.board.is_empty_point(*p) {
                let hash = self.board.hash_with_stone(mover, *p);
                let position = hashes_of(hash, mover.other(), 0).position;
                bits ^= self.main_table.bits_of_bucket(position);
            }
        }
        self.bits_read_ahead = bits;
    }

    /// Lists the turns of a colour, without the attacker's pass, unless one wins at once.
    pub(crate) fn list_turns(&mut self, mover: Colour, list: &mut Vec<Child>) -> Listed {
        let attacks = mover != self.region.defender;
        let capture = self.first_target_capture();
        if let Some(p) = capture {
            if attacks {
                return Listed::Win(SearchTurn::Play(p));
            }
        }
        let atari = if self.prunes { capture } else { None };
        self.read_rows_ahead(mover);
        let mut listed = Listed::NoRepeat;
        for k in 0..self.region.points.len() {
            let p = self.region.point(k);
            if self.board.is_empty_point(p) {
                match self.list_play(list, mover, p, atari) {
                    Listed::NoRepeat => {}
                    Listed::RepeatLeftOut => listed = Listed::RepeatLeftOut,
                    win => return win,
                }
            }
        }
        if !attacks && atari.is_none() {
            let hashes = self.hashes_of_position(mover.other());
            self.add_child(list, mover, SearchTurn::Pass, hashes);
        }
        listed
    }

    /// Whether a position wasn't searched yet.
    #[inline(always)]
    pub(crate) fn is_new(&self, hashes: Hashes) -> bool {
        match self.find_entry(hashes) {
            Some(entry) => entry.best.is_none(),
            None => true,
        }
    }

    /// Stops the search that runs.
    pub(crate) fn stop_search(&mut self, stop: Stop) {
        self.stop = Some(stop);
    }

    /// Whether the last search was stopped.
    #[inline(always)]
    pub(crate) fn has_stopped(&self) -> bool {
        self.stop.is_some()
    }

    /// Whether it was stopped for want of memory.
    pub(crate) fn lacks_memory(&self) -> bool
        ensures { IsTrue result ↔ (self.now.stop ≡ Some Stop.NoMemory) }
    {
        self.stop == Some(Stop::NoMemory)
    }

    /// An empty list.
    #[inline]
    pub(crate) fn take_list(&mut self) -> Vec<Child> {
        let mut list = match self.lists.pop() {
            Some(list) => list,
            None => Vec::new(self.alloc),
        };
        list.clear();
        list
    }

    /// Takes a list back that isn't used any more.
    #[inline]
    pub(crate) fn give_list_back(&mut self, list: Vec<Child>) {
        let _ = self.lists.push(list);
    }

    /// Whether the search that runs is at its end.
    #[inline(always)]
    fn is_over(&self, visits: &VisitsLeft) -> bool
        ensures over { result ≡ true → self.now.stop ≡ None → visits.now.left ≤ self.now.reserve }
        ensures open { result ≡ false → self.now.reserve < visits.now.left }
    {
        visits.left <= self.reserve || self.stop.is_some()
    }

    /// Searches where the board stands and a colour moves, until no more visits than these are left; what is known then.
    fn descend(&mut self, mover: Colour, reserve: u32, visits: &mut VisitsLeft) -> ProofNumbers
        ensures fewer { visits.new.left ≤ visits.old.left }
    {
        self.reserve = reserve;
        self.stop = None;
        self.cut = 0;
        let most = ProofNumbers {
            proof: INFINITE,
            disproof: INFINITE,
        };
        self.search(mover, most, MOST_FINDER_DEPTH, visits)
    }

    /// Searches where the board stands and a colour moves, with at most so many visits; what is known then.
    pub(crate) fn search_from_board(
        &mut self,
        mover: Colour,
        most_visits: u32,
        visits: &mut VisitsLeft,
    ) -> ProofNumbers
        ensures fewer { visits.new.left ≤ visits.old.left }
    {
        let end = visits.left.saturating_sub(most_visits);
        if !self.shares_table() {
            return self.descend(mover, end, visits);
        }
        for _ in end..=visits.left {
            let reserve = visits.left.saturating_sub(VISITS_BETWEEN_DESCENTS).max(end);
            let numbers = self.descend(mover, reserve, visits);
            if numbers.is_settled() || self.has_stopped() || visits.left <= end {
                return numbers;
            }
        }
        UNKNOWN
    }

    /// Searches a position until one of its numbers reaches its threshold. It is a visit, where the search isn't over.
    #[cycle(descent)]
    fn search(
        &mut self,
        mover: Colour,
        most: ProofNumbers,
        room: u16,
        visits: &mut VisitsLeft,
    ) -> ProofNumbers
        ensures fewer { visits.new.left ≤ visits.old.left }
        ensures counts { self.old.stop ≡ None → self.old.reserve < visits.old.left
            → visits.new.left < visits.old.left }
    {
        if self.is_over(visits) {
            return UNKNOWN;
        }
        visits.left -= 1;
        if visits.left % 1024 == 0 {
            self.main_table.grow_if_needed(self.alloc);
        }
        let mut list = self.take_list();
        let hashes = self.hashes_of_position(mover);
        if self.shares_table() {
            self.look_round(hashes, room, visits);
            self.main_table
                .shared()
                .count_worker(place_of(hashes.position), true);
        }
        let found = if let Some(numbers) = self.settle_by_life(mover, hashes) {
            numbers
        } else if let Listed::Win(turn) = self.list_turns(mover, &mut list) {
            self.keep_entry(hashes, WON, Some(turn), 1);
            WON
        } else {
            self.refute_by_threats(mover, hashes, &mut list);
            self.search_best_children(mover, most, room, &mut list, visits)
        };
        self.give_list_back(list);
        if self.shares_table() {
            self.main_table
                .shared()
                .count_worker(place_of(hashes.position), false);
        }
        if self.cut == room.saturating_add(1) {
            self.cut = 0;
        }
        found
    }

    /// Visits the best child until one of the position's numbers reaches its threshold: each time a visit is spent, or the search
    /// ends. Nothing is known of the position where it ended before all its turns were listed.
    #[cycle(descent)]
    fn search_best_children(
        &mut self,
        mover: Colour,
        most: ProofNumbers,
        room: u16,
        list: &mut Vec<Child>,
        visits: &mut VisitsLeft,
    ) -> ProofNumbers
        ensures fewer { visits.new.left ≤ visits.old.left }
    {
        if self.has_stopped() {
            return UNKNOWN;
        }
        let hashes = self.hashes_of_position(mover);
        let start = visits.left;
        for _ in 0..=start {
            let known = summary_of_children(list.as_slice());
            let numbers = known.numbers;
            let choice = if self.shares_table() {
                self.choice_beside_others(list.as_slice(), known, most)
            } else {
                known
            };
            if room < self.cut && !numbers.is_settled() {
                if let Some(settled) = self.numbers_at_cut(hashes, room) {
                    return settled;
                }
            }
            let k = match choice.best {
                Some(k) if room >= self.cut && !self.is_done(numbers, most, visits) => k,
                _ => {
                    let work = start.saturating_sub(visits.left).saturating_add(1);
                    let turn = match known.best {
                        Some(k) => Some(list[k].turn),
                        None => None,
                    };
                    self.keep_result(mover, hashes, numbers, turn, work);
                    return numbers;
                }
            };
            let child = list[k];
            let bounds = thresholds_of(&choice, &child.numbers, most);
            list[k].numbers = self.search_after_turn(mover, child.turn, bounds, room, visits);
            if list[k].numbers.proof == 0 {
                self.refute_alike(mover, child.turn, list, visits);
            }
        }
        UNKNOWN
    }

    /// The child that is searched beside other workers: that with the least virtual number, which counts once more for each worker
    /// that is there (T. Kaneko, "Parallel Depth First Proof Number Search", 2010). Its own number has to be below the threshold. By
    /// four workers the twelve dearest problems took 18 s instead of 25 s, and 55 s instead of 82 s of processor time.
    #[inline(never)]
    fn choice_beside_others(
        &self,
        list: &[Child],
        known: ChildrenSummary,
        most: ProofNumbers,
    ) -> ChildrenSummary
        ensures { IfSome result.best (λ k. k < length list.now) }
    {
        let mut best = None;
        let mut least = INFINITE;
        let mut second = INFINITE;
        for k in 0..list.len() {
            let child = &list[k];
            let number = child.numbers.disproof;
            if number >= INFINITE {
                continue;
            }
            let workers = self.main_table.shared().workers_at(child.place);
            let virtual_number = number
                .saturating_mul(workers.saturating_add(1))
                .saturating_add(workers)
                .min(INFINITE - 1);
            if number < most.proof && virtual_number < least {
                second = least;
                least = virtual_number;
                best = Some(k);
            } else if virtual_number < second {
                second = virtual_number;
            }
        }
        ChildrenSummary {
            numbers: known.numbers,
            best,
            second,
        }
    }

    /// Whether a search ends with these numbers.
    #[inline(always)]
    fn is_done(&self, numbers: ProofNumbers, most: ProofNumbers, visits: &VisitsLeft) -> bool {
        numbers.proof >= most.proof
            || numbers.disproof >= most.disproof
            || numbers.is_settled()
            || self.is_over(visits)
    }

    /// Keeps what a position's search came to.
    #[inline]
    fn keep_result(
        &mut self,
        mover: Colour,
        hashes: Hashes,
        numbers: ProofNumbers,
        best: Option<SearchTurn>,
        work: u32,
    ) {
        if numbers.proof == 0 {
            if let Some(turn) = best {
                let count = &mut self.wins[colour_index(mover)][index(turn.cell())];
                *count = count.wrapping_add(COUNT_OF_WIN);
            }
        }
        self.keep_entry(hashes, numbers, best, work);
    }

    /// Searches the position behind a turn; one that is too deep counts as lost. Nothing is known of one that has no memory.
    #[cycle(descent)]
    fn search_after_turn(
        &mut self,
        mover: Colour,
        turn: SearchTurn,
        most: ProofNumbers,
        room: u16,
        visits: &mut VisitsLeft,
    ) -> ProofNumbers
        ensures fewer { visits.new.left ≤ visits.old.left }
    {
        if room == 0 {
            return LOST;
        }
        let SearchTurn::Play(p) = turn else {
            return self.search(mover.other(), most, room - 1, visits);
        };
        if self.board.play(mover, p).is_err() {
            self.stop_search(Stop::NoMemory);
            return UNKNOWN;
        }
        let numbers = self.search(mover.other(), most, room - 1, visits);
        self.board.unplay();
        numbers
    }
}
