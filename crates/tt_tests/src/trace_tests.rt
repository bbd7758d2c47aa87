//! Traces of searches from outside: the answer of each step, with the numbers behind it.

use crate::rows::{Table, cut, holding, number, short_number};
use crate::search_tests::{ends_as, has_trace};
use crate::trace_tables::TRACES;
use std::alloc::Global;
use tt_search::PrivateStore;

/// A problem, the limits of its searches, how many proofs their store keeps, and the traces of two searches over it.
#[derive(Clone, Copy)]
struct Row<'a> {
    problem: &'a [u8],
    limits: (u32, u16),
    capacity: usize,
    first: &'a [u8],
    second: &'a [u8],
}

/// Whether two searches over one store have these traces.
fn steps_twice(alloc: Global, row: Row<'_>) -> Option<bool> {
    let mut store = PrivateStore::bounded(alloc, row.capacity)?;
    Some(
        has_trace(alloc, row.problem, row.limits, &mut store, row.first)
            && has_trace(alloc, row.problem, row.limits, &mut store, row.second),
    )
}

/// Whether a run ends as the first trace, and a search over the same store has the second one.
fn runs_then_steps(alloc: Global, row: Row<'_>) -> Option<bool> {
    let mut store = PrivateStore::bounded(alloc, row.capacity)?;
    Some(
        ends_as(alloc, row.problem, row.limits, &mut store, row.first)
            && has_trace(alloc, row.problem, row.limits, &mut store, row.second),
    )
}

/// Whether two runs over one store end as these traces.
fn runs_twice(alloc: Global, row: Row<'_>) -> Option<bool> {
    let mut store = PrivateStore::bounded(alloc, row.capacity)?;
    Some(
        ends_as(alloc, row.problem, row.limits, &mut store, row.first)
            && ends_as(alloc, row.problem, row.limits, &mut store, row.second),
    )
}

/// The row that a line of a table writes, with a bar behind each part but the last one.
fn row_of(line: &[u8]) -> Row<'_> {
    let (problem, rest) = cut(line, b'|');
    let (budget, rest) = cut(rest, b'|');
    let (depth, rest) = cut(rest, b'|');
    let (capacity, rest) = cut(rest, b'|');
    let (first, second) = cut(rest, b'|');
    Row {
        problem,
        limits: (number(budget), short_number(depth)),
        capacity: usize::from(short_number(capacity)),
        first,
        second,
    }
}

struct TraceTable;

impl Table for TraceTable {
    /// Two searches of the problem over one store have these traces, and runs end as the steps do, the second one too, with
    /// the same store.
    fn holds(alloc: Global, line: &[u8]) -> bool {
        let row = row_of(line);
        steps_twice(alloc, row) == Some(true)
            && runs_then_steps(alloc, row) == Some(true)
            && runs_twice(alloc, row) == Some(true)
    }
}

#[test]
fn traces(rt: HostRuntime) {
    assert_eq!(&rt; holding::<TraceTable>(rt.alloc(), TRACES, b'\n'), 76);
}
