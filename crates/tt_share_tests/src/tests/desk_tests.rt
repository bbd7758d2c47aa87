//! The desk, with one thread and with many.
ghost use Rattle.std.specs.Prelude.{◌≡◌, ◌≤◌, ◌<◌, Some};

use std::alloc::Global;
use std::sync::atomic::{AtomicU64, Ordering};
use std::test::Fail;
use std::thread;
use std::thread::Threads;
use tt_sgf::NoMemory;
use tt_share::{Closed, Desk, Seat};

// Draws until there is no job left, and counts the jobs.
fn draw_all(desk: &Desk, jobs: &AtomicU64, mut seat: Seat) -> Seat
    requires desk { seat.desk ≡ desk.now.id }
    ensures desk { result.desk ≡ desk.now.id }
{
    while let Some(_job) = desk.draw(&mut seat) {
        jobs.fetch_add(1, Ordering::SeqCst);
    }
    seat
}

// With how many draws the desk closes, after each seat has drawn in a thread of its own until there was no job left.
fn exhausted<R: Threads + Sync>(
    rt: &R,
    alloc: Global,
    jobs: usize,
    seats: usize,
    drawn: &AtomicU64,
) -> Result<u64, NoMemory>
    requires jobs { (0 < jobs) × (jobs ≤ 362) }
    requires seats { (0 < seats) × (seats ≤ 65) }
{
    let (desk, seats) = Desk::new(alloc, jobs, seats, None)?;
    let shared = &desk;
    let Ok(seats) = thread::map_vec(rt, seats, &|seat| draw_all(shared, drawn, seat)) else {
        return Err(NoMemory);
    };
    match desk.close(seats) {
        Ok(closed) => Ok(closed.draws),
        Err(_) => unreachable!(),
    }
}

// Asks for grants until the seat is refused, and counts what it got.
fn ask_all(desk: &Desk, total: u32, trues: &AtomicU64, mut seat: Seat) -> Seat
    requires desk { seat.desk ≡ desk.now.id }
    requires total { desk.now.total ≡ Some total }
    ensures desk { result.desk ≡ desk.now.id }
{
    while desk.grant(&mut seat) {
        trues.fetch_add(1, Ordering::SeqCst);
    }
    seat
}

// What the desk gave, after each seat has asked in a thread of its own until it was refused, and counted what it got.
fn spent<R: Threads + Sync>(
    rt: &R,
    alloc: Global,
    seats: usize,
    total: u32,
    trues: &AtomicU64,
) -> Result<u64, NoMemory>
    requires seats { (0 < seats) × (seats ≤ 65) }
{
    let (desk, seats) = Desk::new(alloc, 1, seats, Some(total))?;
    let shared = &desk;
    let Ok(seats) = thread::map_vec(rt, seats, &|seat| ask_all(shared, total, trues, seat)) else {
        return Err(NoMemory);
    };
    match desk.close(seats) {
        Ok(closed) => Ok(closed.granted),
        Err(_) => unreachable!(),
    }
}

#[test]
fn two_seats_draw_in_turn(rt: HostRuntime) -> Result<(), Fail> {
    let Ok((desk, mut seats)) = Desk::new(rt.alloc(), 2, 2, None) else {
        panic!(rt; "memory")
    };
    let first = desk.draw(&mut seats[0]);
    let second = desk.draw(&mut seats[1]);
    assert!(rt; first == Some(0) && second == Some(1));
    let first = desk.draw(&mut seats[0]);
    let second = desk.draw(&mut seats[1]);
    assert!(rt; first.is_none() && second.is_none());
    assert!(rt; desk.draw(&mut seats[0]).is_none());
    let Some(last) = seats.pop() else {
        panic!(rt; "a seat")
    };
    let Err((desk, mut seats)) = desk.close(seats) else {
        panic!(rt; "a seat is missing")
    };
    seats.push(last)?;
    let wanted = Closed {
        draws: 4,
        granted: 0,
    };
    assert!(rt; desk.close(seats).ok() == Some(wanted));
    Ok(())
}

// Each job is drawn once, and each seat draws one number more, which is no job.
#[test]
fn seats_in_threads_draw_each_job(rt: HostRuntime) -> Result<(), Fail> {
    let drawn = AtomicU64::new(0);
    assert!(rt; exhausted(&rt, rt.alloc(), 362, 64, &drawn).ok() == Some(426));
    assert!(rt; drawn.load(Ordering::SeqCst) == 362);
    Ok(())
}

#[test]
fn seats_in_threads_get_the_whole_total(rt: HostRuntime) -> Result<(), Fail> {
    let trues = AtomicU64::new(0);
    assert!(rt; spent(&rt, rt.alloc(), 65, 1000, &trues).ok() == Some(1000));
    assert!(rt; trues.load(Ordering::SeqCst) == 1000);
    Ok(())
}

#[test]
fn two_seats_share_a_total(rt: HostRuntime) -> Result<(), Fail> {
    let Ok((desk, mut seats)) = Desk::new(rt.alloc(), 1, 2, Some(3)) else {
        panic!(rt; "memory")
    };
    let first = desk.grant(&mut seats[0]);
    let second = desk.grant(&mut seats[1]);
    let third = desk.grant(&mut seats[0]);
    assert!(rt; first && second && third);
    let fourth = desk.grant(&mut seats[1]);
    let fifth = desk.grant(&mut seats[0]);
    let sixth = desk.grant(&mut seats[1]);
    assert!(rt; !fourth && !fifth && !sixth);
    let wanted = Closed {
        draws: 0,
        granted: 3,
    };
    assert!(rt; desk.close(seats).ok() == Some(wanted));
    Ok(())
}

#[test]
fn a_total_of_0_grants_nothing(rt: HostRuntime) -> Result<(), Fail> {
    let Ok((desk, mut seats)) = Desk::new(rt.alloc(), 1, 2, Some(0)) else {
        panic!(rt; "memory")
    };
    let first = desk.grant(&mut seats[0]);
    let second = desk.grant(&mut seats[1]);
    let third = desk.grant(&mut seats[0]);
    assert!(rt; !first && !second && !third);
    let wanted = Closed {
        draws: 0,
        granted: 0,
    };
    assert!(rt; desk.close(seats).ok() == Some(wanted));
    Ok(())
}

#[test]
fn a_joined_thread_shows_its_mark(rt: HostRuntime) -> Result<(), Fail> {
    let Ok((desk, mut seats)) = Desk::new(rt.alloc(), 1, 2, None) else {
        panic!(rt; "memory")
    };
    let Some(mut second) = seats.pop() else {
        panic!(rt; "a seat")
    };
    assert!(rt; !desk.raised(&mut second));
    let shared = &desk;
    let (_, first) = thread::join(
        &rt,
        || (),
        move || {
            let mut first = seats.remove(0);
            shared.raise(&mut first);
            first
        },
    );
    drop(first);
    assert!(rt; desk.raised(&mut second));
    Ok(())
}
