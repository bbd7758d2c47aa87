//! The desk and its seats.

pub(crate) mod grants;
pub(crate) mod rule;

ghost use Rattle.std.specs.Prelude.{◌≡◌, ℕ, ◌≢◌, ◌+◌, ◌<◌, ◌≤◌, true, false, ◌||◌, [], ◌∷◌, ◌++◌, cond, length, min, vec_capacity, replicate, None};
ghost use Rattle.std.specs.Prelude.{IfOk, IfSome, IfNone, MatchOption, MatchResult, IsTrue, All};
ghost use Rattle.tt_game.specs.declared.turns.TheConstants.{MOST_LEGAL};
ghost use Rattle.tt_share.specs.declared.capacity.TheConstants.{MOST_WORKERS};
ghost use Rattle.tt_share.specs.Desk.{fresh_knowledge, knowledge_of};
ghost use Rattle.tt_share.specs.Seats.{seat_of, fresh_seat, EndsInOverdraw, SeatDraws, SeatAsksGrant, granted_among, AreDeskCounts};
ghost use Rattle.tt_share.specs.inside.Gathering.{Gathers};

use crate::desk::rule::{
    DeskRule, DeskSize, Draw, FlagLook, FlagRaise, GrantRequest, SeatJoin, SeatKnowledge, SeatSplit,
};
use atomic_table::Table;
use std::alloc::Global;
use std::marker::Model;
use tt_sgf::NoMemory;

type Words = Table<(), SeatKnowledge, DeskSize, DeskRule, Global>;

/// What a closed desk counted: the steps that all draws made, and the grants that it gave of its total, or 0 where it had
/// none.
#[derive(Debug, Drop, PartialEq, Eq)]
pub struct Closed {
    pub draws: u64,
    pub granted: u64,
}

/// Jobs that threads draw, none twice, a flag that each of them can raise, and grants, of which it gives `total` in all where
/// it has one. Each thread has a seat of its own.
#[derive(Drop)]
pub struct Desk {
    table: Words,
    jobs: usize,
    seats: usize,
    total: Option<u32>,
}

impl Model for Desk {
    ghost use Rattle.std.specs.Prelude.{◌≡◌, ◌+◌, ◌^◌, ◌<◌, ◌≤◌, IfSome};
    ghost use Rattle.tt_game.specs.declared.turns.TheConstants.{MOST_LEGAL};
    ghost use Rattle.tt_share.specs.declared.capacity.TheConstants.{MOST_WORKERS};
    ghost use Rattle.tt_share.specs.Seats.{DeskModel};

    ghost Value = { DeskModel };

    ghost view = { λ d. record { id = d.table.shared.table_id; jobs = d.jobs; seats = d.seats; total = d.total } };

    ghost invariant = { λ d. record {
      three_words : d.table.shared.table_id.words ≡ 3;
      no_slots : d.table.shared.table_id.slots ≡ 0;
      jobs_are : d.table.shared.key.jobs ≡ d.jobs;
      seats_are : d.table.shared.key.seats ≡ d.seats;
      total_is : IfSome d.total (λ n. d.table.shared.key.total ≡ n);
      jobs : (0 < d.jobs) × (d.jobs ≤ MOST_LEGAL);
      seats : (0 < d.seats) × (d.seats ≤ MOST_WORKERS + 1);
      grants : d.table.shared.key.total < 2 ^ 32;
    } };
}

/// A slot at a desk, for one thread at a time.
#[derive(Drop)]
pub struct Seat {
    seat: atomic_table::Seat<(), SeatKnowledge>,
    last: u64,
    last_grant: u64,
}

impl Model for Seat {
    ghost use Rattle.std.specs.Prelude.{◌≡◌, []};
    ghost use Rattle.tt_share.specs.Seats.{SeatModel, seat_of, last_number};

    ghost Value = { SeatModel };

    ghost view = { λ s. seat_of s.seat.table_id s.seat.me.0.numbers s.seat.me.0.grants s.seat.me.0.flag s.seat.me.0.saw_flag };

    ghost invariant = { λ s. record {
      one_part : s.seat.me.0.seat_count ≡ 1;
      no_slot : s.seat.me.1 ≡ [];
      last : s.last ≡ last_number s.seat.me.0.numbers;
      last_grant : s.last_grant ≡ last_number s.seat.me.0.grants;
    } };
}

impl Seat {
    fn into_kit_seat(self) -> atomic_table::Seat<(), SeatKnowledge>
        ensures desk { result.table_id ≡ self.desk }
        ensures me { result.me
            ≡ (knowledge_of 1 self.numbers self.grants self.flag self.saw_flag, []) }
    {
        let Seat { seat, .. } = self;
        seat
    }

    fn of_kit_seat(seat: atomic_table::Seat<(), SeatKnowledge>) -> Seat
        requires { seat.me ≡ (fresh_knowledge 1, []) }
        ensures { result ≡ fresh_seat seat.table_id }
    {
        Seat {
            seat,
            last: 0,
            last_grant: 0,
        }
    }
}

// Cuts the first seat into as many as it stands for, into a list that has room for them.
fn split_seats(
    table: &Words,
    mut first: atomic_table::Seat<(), SeatKnowledge>,
    seats: usize,
    mut all: Vec<Seat>,
) -> Vec<Seat>
    requires seats { 0 < seats }
    requires table { (first.table_id ≡ table.now.shared.table_id)
        × (0 < table.now.shared.table_id.words) }
    requires first { first.me ≡ (fresh_knowledge seats, []) }
    requires room { (all.items ≡ []) × (vec_capacity all ≡ seats) }
    ensures { result.items ≡ replicate seats (fresh_seat table.now.shared.table_id) }
{
    for _ in 1..seats {
        let seat = table.shared.split_seat::<SeatSplit>(&mut first);
        all.push_reserved(Seat::of_kit_seat(seat));
    }
    all.push_reserved(Seat::of_kit_seat(first));
    all
}

// Joins the seats to the last one.
fn join_all_seats(
    table: &Words,
    last: Seat,
    mut seats: Vec<Seat>,
) -> atomic_table::Seat<(), SeatKnowledge>
    requires words { 0 < table.now.shared.table_id.words }
    requires last { last.desk ≡ table.now.shared.table_id }
    requires seats { All (λ s. s.desk ≡ table.now.shared.table_id) seats.items }
    ensures table { (result.table_id ≡ table.now.shared.table_id) × (result.me.1 ≡ []) }
    ensures knowledge { Gathers (seats.items ++ last ∷ []) result.me.0 }
{
    let mut whole = last.into_kit_seat();
    while let Some(other) = seats.pop() {
        table
            .shared
            .join_seat::<SeatJoin>(&mut whole, other.into_kit_seat());
    }
    whole
}

// What was granted, of as many as were asked for.
fn granted_of_total(asked: u64, total: Option<u32>) -> u64
    ensures { MatchOption total (result ≡ 0) (λ n. result ≡ min asked n) }
{
    match total {
        Some(n) => asked.min(u64::from(n)),
        None => 0,
    }
}

impl Desk {
    /// A desk of 1 to `MOST_LEGAL` jobs with all its seats, 1 to `MOST_WORKERS` and one more, none of which has made a step. It gives as
    /// many grants as `total`, or any number where there is none. `NoMemory` where memory was refused.
    pub fn new(
        alloc: Global,
        jobs: usize,
        seats: usize,
        total: Option<u32>,
    ) -> Result<(Desk, Vec<Seat>), NoMemory>
        requires jobs { (0 < jobs) × (jobs ≤ MOST_LEGAL) }
        requires seats { (0 < seats) × (seats ≤ MOST_WORKERS + 1) }
        ensures desk { IfOk result
            (λ r. (r.0.jobs ≡ jobs) × (r.0.seats ≡ seats) × (r.0.total ≡ total)) }
        ensures seats { IfOk result (λ r. r.1.items ≡ replicate seats (fresh_seat r.0.id)) }
    {
        let Ok(all) = Vec::with_capacity(alloc, seats) else {
            return Err(NoMemory);
        };
        let plan = DeskSize {
            jobs,
            seats,
            total: total.unwrap_or(0),
        };
        let Ok((table, first)) = Table::of_words(alloc, &[0, 0, 0], &plan) else {
            return Err(NoMemory);
        };
        let all = split_seats(&table, first, seats, all);
        let desk = Desk {
            table,
            jobs,
            seats,
            total,
        };
        Ok((desk, all))
    }

    /// A job, below the desk's number of jobs, that no other draw gave, by one step; or none where no job is left. Once a
    /// seat got none, each later call on that seat answers none and makes no step. The seat is one of this desk's.
    pub fn draw(&self, s: &mut Seat) -> Option<usize>
        requires { s.old.desk ≡ self.now.id }
        ensures spent { EndsInOverdraw self.now.jobs s.old.numbers
            → (result ≡ None) × (s.new ≡ s.old) }
        ensures draws { ¬ EndsInOverdraw self.now.jobs s.old.numbers
            → (n : ℕ) × SeatDraws self.now.jobs s.old n result s.new }
        ensures some { IfSome result (λ n. (n < self.now.jobs) × (length s.old.numbers ≤ n)
            × (s.new.numbers ≡ s.old.numbers ++ n ∷ [])) }
        ensures none { IfNone result (EndsInOverdraw self.now.jobs s.new.numbers) }
        ensures desk { s.new.desk ≡ s.old.desk }
        ensures jobs { 0 < self.now.jobs }
    {
        if s.last >= self.jobs as u64 {
            return None;
        }
        let number = self.table.shared.fetch_add::<Draw>(&mut s.seat, 0, 1);
        s.last = number;
        if number < self.jobs as u64 {
            Some(number as usize)
        } else {
            None
        }
    }

    /// Raises the flag, by one step. Nothing lowers it. The seat is one of this desk's.
    pub fn raise(&self, s: &mut Seat)
        requires { s.old.desk ≡ self.now.id }
        ensures { s.new ≡ seat_of s.old.desk s.old.numbers s.old.grants true s.old.saw_flag }
    {
        self.table.shared.fetch_max::<FlagRaise>(&mut s.seat, 1, 1);
    }

    /// True only where some seat raised the flag, and always where this seat raised it or saw it before. It may be false
    /// though another seat has raised it. The seat is one of this desk's.
    pub fn raised(&self, s: &mut Seat) -> bool
        requires { s.old.desk ≡ self.now.id }
        ensures saw_flag { s.new
            ≡ seat_of s.old.desk s.old.numbers s.old.grants s.old.flag (s.old.saw_flag || result) }
        ensures again { IsTrue (s.old.flag || s.old.saw_flag) → IsTrue result }
    {
        self.table.shared.load::<FlagLook>(&mut s.seat, 1) == 1
    }

    /// Whether one more of the desk's total was left, by one step. Once a seat was refused, each later call on that seat is
    /// refused and makes no step; so is each call where the total is 0. Without a total the answer is always true, and no step is
    /// made. The seat is one of this desk's.
    pub fn grant(&self, s: &mut Seat) -> bool
        requires { s.old.desk ≡ self.now.id }
        ensures unbounded { self.now.total ≡ None → (result ≡ true) × (s.new ≡ s.old) }
        ensures spent { IfSome self.now.total (λ total. EndsInOverdraw total s.old.grants
            → (result ≡ false) × (s.new ≡ s.old)) }
        ensures grants { IfSome self.now.total (λ total. ¬ EndsInOverdraw total s.old.grants
            → (n : ℕ) × SeatAsksGrant total s.old n result s.new) }
        ensures tally { IfSome self.now.total
            (λ total. granted_among total s.new.grants
            ≡ granted_among total s.old.grants + cond result 1 0) }
        ensures refused { IfSome self.now.total (λ total. result ≡ false
            → EndsInOverdraw total s.new.grants) }
        ensures stays { s.new
            ≡ seat_of s.old.desk s.old.numbers s.new.grants s.old.flag s.old.saw_flag }
        ensures desk { s.new.desk ≡ s.old.desk }
    {
        let Some(total) = self.total else {
            return true;
        };
        if s.last_grant >= u64::from(total) {
            return false;
        }
        let number = self
            .table
            .shared
            .fetch_add::<GrantRequest>(&mut s.seat, 2, 1);
        s.last_grant = number;
        number < u64::from(total)
    }

    /// How many steps all draws made, those that found no job among them, and how many grants the desk gave of its total,
    /// exactly where as many seats come back as the desk has, so all of them; else the desk and the seats, unchanged. The
    /// seats are this desk's.
    pub fn close(self, mut seats: Vec<Seat>) -> Result<Closed, (Desk, Vec<Seat>)>
        requires { All (λ s. s.desk ≡ self.id) seats.items }
        ensures { MatchResult result
            (λ closed. AreDeskCounts self seats.items closed)
            (λ back. (length seats.items ≢ self.seats) × (back.0 ≡ self)
            × (back.1.items ≡ seats.items)) }
    {
        if seats.len() != self.seats {
            return Err((self, seats));
        }
        let Some(last) = seats.pop() else {
            unreachable!()
        };
        let whole = join_all_seats(&self.table, last, seats);
        let Desk { table, total, .. } = self;
        let words = table.close_with(whole);
        let draws = words.word(0);
        let granted = granted_of_total(words.word(2), total);
        words.free();
        Ok(Closed { draws, granted })
    }
}
