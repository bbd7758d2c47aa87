//! The table and its handles, on problems with certificates whose nodes are counted by hand.

use super::common::{SPLIT, posed, proof_of, want};
use super::rows::{cut, number, short_number};
use std::alloc::Global;
use std::sync::{Arc, Wait};
use std::test::Fail;
use std::thread;
use std::thread::Threads;
use tt_game::{Line, Side};
use tt_proof::{Proof, write_cert};
use tt_search::{Kept, Store};
use tt_share::{LockedStore, Table, TableState};

/// The colouring of the first problem reached by moves, so that Black may not repeat the board before: White lives.
const REPEATED: &[u8] = b"(;SZ[4:1]AW[ba];B[ca];W[da]TR[ba])";

/// A lone white stone with one liberty: White to move fills it or passes, and the stone dies.
const NARROW: &[u8] = b"(;SZ[2:1]AW[ba]PL[W]TR[ba])";

/// Whether a table has the proofs of a problem's key in these slots.
fn has_slots(
    alloc: Global,
    table: &TableState,
    record: &[u8],
    want: &[usize],
) -> Result<bool, Fail> {
    let line = posed(alloc, record)?;
    Ok(table.places(&line.key()) == want)
}

/// The index to which the proof of a certificate goes.
fn slot_of(
    alloc: Global,
    table: &mut TableState,
    record: &[u8],
    certificate: &[u8],
) -> Result<usize, Fail> {
    let proof = proof_of(alloc, record, certificate)?;
    Ok(table.insert(proof)?)
}

/// Whether the proof of the row's certificate goes to the row's index, and the table has so many nodes with it.
fn is_put(alloc: Global, table: &mut TableState, row: &[u8]) -> Result<bool, Fail> {
    let (record, rest) = cut(row, b'|');
    let (certificate, rest) = cut(rest, b'|');
    let (slot, nodes) = cut(rest, b'|');
    let put = slot_of(alloc, table, record, certificate)?;
    Ok(put == usize::from(short_number(slot)) && table.nodes() == u64::from(number(nodes)))
}

/// Problems, certificates, the index of each proof, and the nodes of the table with it.
const PUT: &str = "\
(;SZ[4:1]AW[ba][da]PL[B]TR[ba])|killed !ca?aa.--!aa.;|0|5
(;SZ[4:1]AW[ba];B[ca];W[da]TR[ba])|lives ?--!--.;|1|8
(;SZ[2:1]AW[ba]PL[W]TR[ba])|killed ?aa.--!aa.;|2|12
(;SZ[4:1]AW[ba][da]PL[B]TR[ba])|killed !ca?aa.da.--!aa.;|3|18
(;SZ[2:1]AW[ba]PL[W]TR[ba])|killed ?aa.--!aa.;|4|22
";

/// Fails unless the rows are so in turn.
fn are_put(alloc: Global, table: &mut TableState) -> Result<(), Fail> {
    let mut rest = PUT.as_bytes();
    for _ in 0..5u8 {
        let (row, behind) = cut(rest, b'\n');
        want(is_put(alloc, table, row)?, "another slot or count")?;
        rest = behind;
    }
    want(rest.is_empty(), "the table is longer")
}

/// Fails unless a table in which these proofs are says the slots of each key.
fn says_slots(alloc: Global, table: &TableState) -> Result<(), Fail> {
    want(has_slots(alloc, table, SPLIT, &[0, 1, 3])?, "split")?;
    want(has_slots(alloc, table, REPEATED, &[0, 1, 3])?, "repeated")?;
    want(has_slots(alloc, table, NARROW, &[2, 4])?, "narrow")?;
    want(table.len() == 5, "five proofs")
}

#[test]
fn slots_and_nodes(rt: HostRuntime) -> Result<(), Fail> {
    let alloc = rt.alloc();
    let mut table = TableState::new(alloc)?;
    want(has_slots(alloc, &table, SPLIT, &[])?, "an empty table")?;
    want(table.nodes() == 0, "its nodes")?;
    are_put(alloc, &mut table)?;
    says_slots(alloc, &table)
}

/// Whether a proof is the side's, and has this certificate at the line.
fn is_certified(
    alloc: Global,
    p: &Proof,
    line: &Line,
    side: Side,
    certificate: &[u8],
) -> Result<bool, Fail> {
    if p.side() != side || !p.has_key(&line.key()) || !p.stands_at(line) {
        return Ok(false);
    }
    let text = write_cert(alloc, p.side(), p.tree(), line.frame().size)?;
    Ok(text.as_slice() == certificate)
}

/// The proof that a store has of a line for the side.
fn found_in<S: Store>(store: &mut S, line: &Line, side: Side) -> Result<Arc<Proof>, Fail> {
    match store.find(line, side)? {
        Some(found) => Ok(found),
        None => Err(Fail::new("not found")),
    }
}

/// Keeps the proof, and answers whether it is stored.
fn is_stored<S: Store>(store: &mut S, proof: Arc<Proof>) -> bool {
    store.keep(proof) == Kept::Stored
}

/// Keeps the proof of a certificate, and answers its side.
fn kept_side<S: Store>(
    alloc: Global,
    store: &mut S,
    record: &[u8],
    certificate: &[u8],
) -> Result<Side, Fail> {
    let proof = proof_of(alloc, record, certificate)?;
    let side = proof.side();
    if is_stored(store, proof) {
        Ok(side)
    } else {
        Err(Fail::new("not kept"))
    }
}

/// Whether a store has the proof of a certificate at a line.
fn is_found<S: Store>(
    alloc: Global,
    store: &mut S,
    line: &Line,
    side: Side,
    certificate: &[u8],
) -> Result<bool, Fail> {
    let found = found_in(store, line, side)?;
    is_certified(alloc, &found, line, side, certificate)
}

/// Whether the proof of a certificate that one store keeps is found by another one.
fn kept_and_found<A: Store, B: Store>(
    alloc: Global,
    one: &mut A,
    other: &mut B,
    record: &[u8],
    certificate: &[u8],
) -> Result<bool, Fail> {
    let side = kept_side(alloc, one, record, certificate)?;
    let line = posed(alloc, record)?;
    is_found(alloc, other, &line, side, certificate)
}

/// Whether a store has the attacker's proof of a problem.
fn has_found<S: Store>(alloc: Global, store: &mut S, record: &[u8]) -> Result<bool, Fail> {
    let line = posed(alloc, record)?;
    Ok(store.find(&line, Side::Attacker)?.is_some())
}

/// Whether what a store has for the defender at one line stands at another one.
fn stands_there<S: Store>(store: &mut S, line: &Line, there: &Line) -> Result<bool, Fail> {
    let found = found_in(store, line, Side::Defender)?;
    Ok(found.stands_at(there))
}

/// The same of two problems.
fn found_stands<S: Store>(
    alloc: Global,
    store: &mut S,
    record: &[u8],
    other: &[u8],
) -> Result<bool, Fail> {
    let line = posed(alloc, record)?;
    let there = posed(alloc, other)?;
    stands_there(store, &line, &there)
}

/// Problems, and certificates that are kept in turn.
const KEPT: &str = "\
(;SZ[4:1]AW[ba][da]PL[B]TR[ba])|killed !ca?aa.--!aa.;
(;SZ[4:1]AW[ba];B[ca];W[da]TR[ba])|lives ?--!--.;
(;SZ[4:1]AW[ba][da]PL[B]TR[ba])|killed !ca?aa.da.--!aa.;
";

/// Fails unless what one store keeps another one finds, row by row.
fn are_found<A: Store, B: Store>(alloc: Global, one: &mut A, other: &mut B) -> Result<(), Fail> {
    let mut rest = KEPT.as_bytes();
    for _ in 0..3u8 {
        let (row, behind) = cut(rest, b'\n');
        let (record, certificate) = cut(row, b'|');
        want(
            kept_and_found(alloc, one, other, record, certificate)?,
            "another proof",
        )?;
        rest = behind;
    }
    want(rest.is_empty(), "the table is longer")
}

/// Whether so many proofs were kept through a store.
fn has_kept<S: Store>(store: &S, count: usize) -> bool {
    store.kept() == count && store.capacity() == 4_096
}

/// Fails unless two stores of a new table share what the first one keeps.
fn share_a_table<A: Store, B: Store>(
    alloc: Global,
    one: &mut A,
    other: &mut B,
) -> Result<(), Fail> {
    want(!has_found(alloc, other, SPLIT)?, "an empty table")?;
    are_found(alloc, one, other)?;
    want(found_stands(alloc, other, SPLIT, REPEATED)?, "the same key")?;
    want(!has_found(alloc, other, NARROW)?, "another key")?;
    want(has_kept(one, 3) && has_kept(other, 0), "what they kept")
}

#[test]
fn kept_by_one_found_by_another(rt: HostRuntime) -> Result<(), Fail> {
    let alloc = rt.alloc();
    let table = Table::new(alloc)?;
    let mut one = LockedStore::new(&rt, &table);
    let mut other = LockedStore::new(&rt, &table);
    share_a_table(alloc, &mut one, &mut other)
}

/// Two threads, each with a handle of its own, keep a proof each.
fn keep_at_once<R: Threads + Wait + Sync>(
    rt: &R,
    table: &Table,
    first: Arc<Proof>,
    second: Arc<Proof>,
) -> (Kept, Kept) {
    thread::join(
        rt,
        move || LockedStore::new(rt, table).keep(first),
        move || LockedStore::new(rt, table).keep(second),
    )
}

#[test]
fn kept_by_threads(rt: HostRuntime) -> Result<(), Fail> {
    let alloc = rt.alloc();
    let table = Table::new(alloc)?;
    let first = proof_of(alloc, SPLIT, b"killed !ca?aa.--!aa.;")?;
    let second = proof_of(alloc, NARROW, b"killed ?aa.--!aa.;")?;
    let (one, other) = keep_at_once(&rt, &table, first, second);
    want(one == Kept::Stored && other == Kept::Stored, "kept")?;
    let mut store = LockedStore::new(&rt, &table);
    want(has_found(alloc, &mut store, SPLIT)?, "split")?;
    want(has_found(alloc, &mut store, NARROW)?, "narrow")
}
