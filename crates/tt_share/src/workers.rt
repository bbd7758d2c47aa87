//! Workers: threads that draw the jobs of a line at a desk and search them, and what comes back of them.

ghost use Rattle.std.specs.Prelude.{◌≡◌, ◌≤◌, ◌<◌, ◌+◌, ◌⊎◌, ◌||◌, ℕ, [], ◌∷◌, ◌++◌, All, None, Some, IfOk, IfNone, IfSome, IsTrue, length, map, reverse, vec_len, vec_capacity};
ghost use Rattle.tt_share.specs.inside.Jobs.{IsResult, IsStuck};
ghost use Rattle.tt_share.specs.inside.Results.{KeepsEnds};
ghost use Rattle.tt_share.specs.Answers.{spent_in_all};
ghost use Rattle.tt_share.specs.declared.workers.HandedBack.{HandedBack};
ghost use Rattle.tt_share.specs.inside.Workers.{SomeWin, AreSearched, IsWork, KeepsFirstStuck, AddsOverdraw, AllDrawn, jobs_of, IsSeated, HasBack, WorksAtPlace, AllWorkAtPlaces, place_of};
ghost use Rattle.tt_share.specs.inside.Workers.{held, times, spent_on, spent_by_all, AreApart, AllApart, IsPlaced, AllPlaced, AreGiven, OnlyHandedBack};
ghost use Rattle.tt_share.specs.declared.workers.WorkerPlace.{WorkerPlace};

use crate::capacity::MOST_WORKERS;
use crate::desk::grants::SeatGrants;
use crate::desk::{Desk, Seat};
use crate::gate::Gate;
use crate::jobs::{JobResult, Jobs, SearchedJob, dropped_if_lesser_stuck, is_stuck};
use crate::log::CertLog;
use crate::log::log_store::LogStore;
use crate::log::view::View;
use crate::results::Results;
use std::alloc::Global;
use std::sync::Wait;
use std::thread;
use std::thread::Threads;
use tt_search::Store;
use tt_sgf::NoMemory;

/// What a worker hands back: its seat, and the jobs that it drew, with their results.
#[derive(Drop)]
pub(crate) struct HandedBack {
    pub seat: Seat,
    pub searched: Vec<SearchedJob>,
}

/// Where a worker works: the seat with which it begins, and then what it hands back.
#[derive(Drop)]
struct WorkerPlace {
    seat: Option<Seat>,
    back: Option<HandedBack>,
}

/// Draws a job, with room for its result. A seat that raised the flag, or sees it or saw it before, draws no more.
fn next_job(grants: &mut SeatGrants<'_>, searched: &mut Vec<SearchedJob>) -> Option<usize>
    ensures desk { grants.new.desk.now ≡ grants.old.desk.now }
    ensures counts { (grants.new.granted ≡ grants.old.granted)
        × (grants.new.refused ≡ grants.old.refused) }
    ensures seat { (grants.new.seat.desk ≡ grants.old.seat.desk)
        × (grants.new.seat.flag ≡ grants.old.seat.flag) }
    ensures saw { IsTrue grants.old.seat.saw_flag → IsTrue grants.new.seat.saw_flag }
    ensures stopped { IsTrue (grants.new.seat.flag || grants.new.seat.saw_flag)
        → (result ≡ None) × (grants.new.seat.numbers ≡ grants.old.seat.numbers) }
    ensures job { IfSome result
        (λ n. (n < grants.old.desk.now.jobs) × (length grants.old.seat.numbers ≤ n)
        × (grants.new.seat.numbers ≡ grants.old.seat.numbers ++ n ∷ [])) }
    ensures overdraw { IfNone result (AddsOverdraw grants.old.desk.now.jobs grants.old.seat.numbers grants.new.seat.numbers) }
    ensures room { IfSome result (λ _. vec_len searched.new < vec_capacity searched.new) }
    ensures searched { searched.new.items ≡ searched.old.items }
{
    if grants.desk.raised(&mut grants.seat) || searched.reserve(1).is_err() {
        return None;
    }
    grants.desk.draw(&mut grants.seat)
}

/// Whether a job was stuck before, or this one is.
fn was_or_is_stuck(before: bool, end: &JobResult) -> bool
    ensures { IsTrue result → IsTrue before ⊎ IsStuck end.now }
{
    before || is_stuck(end)
}

/// Draws jobs and searches them until no job is left, the flag is seen or memory is refused. Room for a result comes
/// before its draw, so each job that was drawn has its result. The gate hears of each job as it begins and as it ends. A job
/// that is settled for the side to move raises the flag. Jobs are drawn in rising order, so the first that is stuck is the least:
/// its search is kept, and those of later ones are dropped.
pub(crate) fn work<S: Store, G: Gate>(
    jobs: &Jobs<'_>,
    desk: &Desk,
    gate: &G,
    seat: Seat,
    store: &mut S,
) -> HandedBack
    requires jobs { desk.now.jobs ≡ length jobs.now.turns.items }
    requires seat { (seat.desk ≡ desk.now.id) × (seat.grants ≡ []) }
    ensures work { IsWork jobs.now.line.now jobs.now.limits desk.now result }
    ensures drawn { AddsOverdraw desk.now.jobs (seat.numbers ++ jobs_of result.searched.items) result.seat.numbers }
    ensures flag { IsTrue result.seat.flag
        → IsTrue seat.flag ⊎ SomeWin jobs.now.line.now.state.to_move result.searched.items }
    ensures kept { KeepsFirstStuck result.searched.items }
{
    let mut searched = Vec::new(jobs.alloc);
    let mut stuck = false;
    let mut grants = SeatGrants::new(desk, seat);
    while let Some(job) = next_job(&mut grants, &mut searched) {
        gate.begin(job);
        let SearchedJob { job, end, spent } = jobs.search(job, store, &mut grants);
        gate.end(job);
        grants.raise_flag_if(jobs.is_win_for_mover(&end));
        let end = dropped_if_lesser_stuck(stuck, end);
        stuck = was_or_is_stuck(stuck, &end);
        searched.push_reserved(SearchedJob { job, end, spent });
    }
    let seat = grants.into_seat();
    HandedBack { seat, searched }
}

/// Works over a view of the log. Where there is no memory for a view it hands its seat back, and no results.
fn work_with_view<R: Wait, G: Gate>(
    rt: &R,
    jobs: &Jobs<'_>,
    desk: &Desk,
    log: &CertLog,
    gate: &G,
    seat: Seat,
) -> HandedBack
    requires jobs { desk.now.jobs ≡ length jobs.now.turns.items }
    requires seat { (seat.desk ≡ desk.now.id) × (seat.grants ≡ []) }
    ensures work { IsWork jobs.now.line.now jobs.now.limits desk.now result }
    ensures drawn { AddsOverdraw desk.now.jobs (seat.numbers ++ jobs_of result.searched.items) result.seat.numbers }
{
    match View::new(jobs.alloc, log) {
        Ok(view) => work(jobs, desk, gate, seat, &mut LogStore::new(rt, view)),
        Err(_) => HandedBack {
            seat,
            searched: Vec::new(jobs.alloc),
        },
    }
}

/// Works with the seat at a place, and leaves there what the worker hands back.
fn work_at_place<R: Wait, G: Gate>(
    rt: &R,
    jobs: &Jobs<'_>,
    desk: &Desk,
    log: &CertLog,
    gate: &G,
    place: &mut WorkerPlace,
)
    requires jobs { desk.now.jobs ≡ length jobs.now.turns.items }
    requires seat { IsSeated desk.now place.old }
    ensures { WorksAtPlace jobs.now.line.now jobs.now.limits desk.now place.old place.new }
{
    let Some(seat) = place.seat.take() else {
        unreachable!()
    };
    place.back = Some(work_with_view(rt, jobs, desk, log, gate, seat));
}

/// A place for each seat.
fn places_of(alloc: Global, seats: Vec<Seat>) -> Result<Vec<WorkerPlace>, NoMemory>
    ensures { IfOk result (λ v. v.items ≡ map place_of seats.items) }
{
    let mut places = Vec::with_capacity(alloc, seats.len())?;
    for seat in seats {
        places.push_reserved(WorkerPlace {
            seat: Some(seat),
            back: None,
        });
    }
    Ok(places)
}

/// What the workers left at their places, put into a list that has room for it.
fn backs_of(places: Vec<WorkerPlace>, mut work: Vec<HandedBack>) -> Vec<HandedBack>
    requires places { All HasBack places.items }
    requires room { (work.items ≡ []) × (vec_len places ≤ vec_capacity work) }
    ensures { map Some result.items ≡ map (λ (p : WorkerPlace). p.back) places.items }
{
    for place in places {
        let WorkerPlace { back, .. } = place;
        let Some(back) = back else { unreachable!() };
        work.push_reserved(back);
    }
    work
}

/// Each seat works at its place in a thread of its own, where one can be made.
fn work_at_places<R: Threads + Wait + Sync, G: Gate>(
    rt: &R,
    jobs: &Jobs<'_>,
    desk: &Desk,
    log: &CertLog,
    gate: &G,
    places: &mut [WorkerPlace],
)
    requires jobs { desk.now.jobs ≡ length jobs.now.turns.items }
    requires seats { All (IsSeated desk.now) places.old }
    ensures { AllWorkAtPlaces jobs.now.line.now jobs.now.limits desk.now places.old places.new }
{
    let worker = |_: usize, place: &mut WorkerPlace|
        requires { (desk.now.jobs ≡ length jobs.now.turns.items) × IsSeated desk.now place.now }
        ensures { WorksAtPlace jobs.entry.now.line.now jobs.entry.now.limits desk.entry.now place.entry.now place.exit.now }
    { work_at_place(rt, jobs, desk, log, gate, place) };
    thread::for_each_mut(rt, places, MOST_WORKERS, &worker);
}

/// The seats work. Memory is refused only before any of them does; then the seats are gone.
pub(crate) fn run_workers<R: Threads + Wait + Sync, G: Gate>(
    rt: &R,
    jobs: &Jobs<'_>,
    desk: &Desk,
    log: &CertLog,
    gate: &G,
    seats: Vec<Seat>,
) -> Result<Vec<HandedBack>, NoMemory>
    requires jobs { desk.now.jobs ≡ length jobs.now.turns.items }
    requires seats { All (λ s. (s.desk ≡ desk.now.id) × (s.grants ≡ [])) seats.items }
    ensures work { IfOk result
        (λ v. All (IsWork jobs.now.line.now jobs.now.limits desk.now) v.items) }
    ensures drawn { IfOk result (λ v. AllDrawn desk.now.jobs seats.items v.items) }
    ensures len { IfOk result (λ v. vec_len v ≡ vec_len seats) }
{
    let work = Vec::with_capacity(jobs.alloc, seats.len())?;
    let mut places = places_of(jobs.alloc, seats)?;
    work_at_places(rt, jobs, desk, log, gate, places.as_mut_slice());
    Ok(backs_of(places, work))
}

/// Puts the results of one worker into the list of all.
fn gather_one_worker(results: &mut Results<'_>, mut searched: Vec<SearchedJob>)
    requires searched { All (IsResult results.old.line results.old.limits) searched.items }
    ensures same { results.new
        ≡ record results.old { ends = results.new.ends; spent = results.new.spent } }
    ensures held { (job : ℕ)
        → held results.new.ends job ≤ held results.old.ends job + times job searched.items }
    ensures spent { AreApart results.old.ends searched.items
        → spent_in_all results.new.spent
        ≡ spent_in_all results.old.spent + spent_on searched.items }
    ensures len { length results.new.ends ≡ length results.old.ends }
    ensures kept { KeepsEnds results.old.ends results.new.ends }
    ensures placed { All (IsPlaced results.new.ends) searched.items }
    ensures given { AreGiven results.old.ends results.new.ends searched.items }
{
    while let Some(one) = searched.pop() {
        results.put_if_missing(one);
    }
}

/// Puts the results of all workers into the list of all, and their seats, the last first, into one that has room for one more.
pub(crate) fn gather_results(
    results: &mut Results<'_>,
    mut work: Vec<HandedBack>,
    mut seats: Vec<Seat>,
) -> Vec<Seat>
    requires searched { All (AreSearched results.old.line results.old.limits) work.items }
    requires room { (seats.items ≡ []) × (vec_len work < vec_capacity seats) }
    ensures same { results.new
        ≡ record results.old { ends = results.new.ends; spent = results.new.spent } }
    ensures spent { AllApart results.old.ends work.items
        → spent_in_all results.new.spent
        ≡ spent_in_all results.old.spent + spent_by_all work.items }
    ensures seats { result.items ≡ reverse (map (λ (b : HandedBack). b.seat) work.items) }
    ensures room { vec_len result < vec_capacity result }
    ensures kept { KeepsEnds results.old.ends results.new.ends }
    ensures placed { All (AllPlaced results.new.ends) work.items }
    ensures given { OnlyHandedBack results.old.ends results.new.ends work.items }
    ensures all { vec_len result ≡ vec_len work }
{
    while let Some(back) = work.pop() {
        let HandedBack { seat, searched } = back;
        seats.push_reserved(seat);
        gather_one_worker(results, searched);
    }
    seats
}
