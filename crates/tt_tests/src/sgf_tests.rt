//! Texts and values whose readings come from the format itself, and not from this reader.

use crate::rows::{Table, cut, holding, short_number};
use crate::{rows, text_tables as tables};
use std::alloc::{AllocError, Global};
use tt_sgf::{
    BadPoint, PointOrPass, PointSet, SgfFault, Size, board_size, has_tree, number, point,
    point_set, read_tree, skip_blanks,
};

/// How many nodes the main line has and where the tree ends, or the fault.
fn shape(alloc: Global, bytes: &[u8]) -> Result<(usize, usize), SgfFault> {
    let (line, count) = read_tree(alloc, bytes)?;
    Ok((line.nodes.as_slice().len(), count))
}

/// Whether a tree's shape is as it is written.
fn has_shape(alloc: Global, bytes: &[u8], want: &[u8]) -> bool {
    match shape(alloc, bytes) {
        Ok((nodes, count)) => {
            let (first, second) = cut(want, b' ');
            nodes == rows::number(first) as usize && count == rows::number(second) as usize
        }
        Err(SgfFault::Syntax) => want == b"syntax".as_slice(),
        Err(SgfFault::TooLong) => want == b"too long".as_slice(),
        Err(SgfFault::NoMemory) => false,
    }
}

struct TreeTable;

impl Table for TreeTable {
    fn holds(alloc: Global, line: &[u8]) -> bool {
        let (want, text) = cut(line, b'|');
        has_shape(alloc, text, want)
    }
}

#[test]
fn trees(rt: HostRuntime) {
    assert_eq!(&rt; holding::<TreeTable>(rt.alloc(), tables::TREES, b'~'), 22);
    assert!(&rt; has_tree(b"a("));
    assert!(&rt; !has_tree(b"a)"));
}

/// Adds a text so many times.
pub(crate) fn put(text: &mut Vec<u8>, part: &[u8], times: usize) -> Result<(), AllocError> {
    for _ in 0..times {
        text.extend_from_slice(part)?;
    }
    Ok(())
}

/// So many blanks, and so many times `(;` and as many `)`, but for a number of these.
fn long(alloc: Global, blanks: usize, trees: usize, open: usize) -> Result<Vec<u8>, AllocError> {
    let mut text = Vec::new(alloc);
    put(&mut text, b" ", blanks)?;
    put(&mut text, b"(;", trees)?;
    put(&mut text, b")", trees.saturating_sub(open))?;
    Ok(text)
}

/// Whether such a text's shape is as it is written.
fn is_read(alloc: Global, blanks: usize, trees: usize, open: usize, want: &[u8]) -> bool {
    match long(alloc, blanks, trees, open) {
        Ok(text) => has_shape(alloc, &text, want),
        Err(AllocError) => false,
    }
}

#[test]
fn limits(rt: HostRuntime) {
    let alloc = rt.alloc();
    assert!(&rt; is_read(alloc, 1_048_577, 0, 0, b"too long"));
    assert!(&rt; is_read(alloc, 1_048_576, 0, 0, b"syntax"));
    assert!(&rt; is_read(alloc, 0, 349_525, 0, b"349525 1048575"));
    assert!(&rt; is_read(alloc, 2, 349_525, 0, b"too long"));
    assert!(&rt; is_read(alloc, 0, 349_525, 1, b"syntax"));
}

/// The names of the first node's properties, and whether they are these.
fn has_names(alloc: Global, bytes: &[u8], names: &[&[u8]]) -> bool {
    let Ok((line, _)) = read_tree(alloc, bytes) else {
        return false;
    };
    let Some(node) = line.nodes.as_slice().first() else {
        return false;
    };
    let properties = node.props.as_slice();
    for (i, name) in names.iter().enumerate() {
        if i >= properties.len() || properties[i].ident.as_slice() != *name {
            return false;
        }
    }
    properties.len() == names.len()
}

#[test]
fn names(rt: HostRuntime) {
    assert!(&rt;
        has_names(
            rt.alloc(),
            b"(;C[a\\]b]GaMe[1]SiZe[1]X2[])",
            &[b"C", b"GM", b"SZ", b"X2"]
        )
    );
}

/// What stands in the tables where nothing comes of a text.
const NONE: &[u8] = b"none";

struct NumberTable;

impl Table for NumberTable {
    fn holds(_: Global, line: &[u8]) -> bool {
        let (want, text) = cut(line, b'|');
        match number(text) {
            Some(found) => want != NONE && rows::number(want) == u32::from(found),
            None => want == NONE,
        }
    }
}

#[test]
fn numbers(rt: HostRuntime) {
    assert_eq!(&rt;
        holding::<NumberTable>(rt.alloc(), tables::NUMBERS, b'~'),
        9
    );
}

struct SizeTable;

impl Table for SizeTable {
    fn holds(_: Global, line: &[u8]) -> bool {
        let (want, text) = cut(line, b'|');
        let (columns, rows) = cut(want, b' ');
        match board_size(text) {
            Some(found) => {
                found.columns() == short_number(columns) && found.rows() == short_number(rows)
            }
            None => want == NONE,
        }
    }
}

#[test]
fn sizes(rt: HostRuntime) {
    assert_eq!(&rt; holding::<SizeTable>(rt.alloc(), tables::SIZES, b'~'), 10);
}

/// The point or the pass that is written in the table, on a row.
fn written(row: Size, want: &[u8]) -> Option<PointOrPass> {
    if want == b"pass".as_slice() {
        return Some(PointOrPass::Pass);
    }
    if want == NONE {
        return None;
    }
    row.point(short_number(want)).map(PointOrPass::On)
}

struct PointTable;

impl Table for PointTable {
    fn holds(_: Global, line: &[u8]) -> bool {
        let (want, text) = cut(line, b'|');
        match Size::new(19, 1) {
            Some(row) => point(text, row) == written(row, want),
            None => false,
        }
    }
}

#[test]
fn points(rt: HostRuntime) {
    assert_eq!(&rt; holding::<PointTable>(rt.alloc(), tables::POINTS, b'~'), 7);
}

/// The points that the first property of the first node names.
fn named(alloc: Global, bytes: &[u8], size: Size) -> Option<Result<PointSet, BadPoint>> {
    let (line, _) = read_tree(alloc, bytes).ok()?;
    let node = line.nodes.as_slice().first()?;
    let property = node.props.as_slice().first()?;
    Some(point_set(property.values.as_slice(), size))
}

/// Whether a set has so many points and such a least one.
fn has_points(points: &PointSet, want: &[u8]) -> bool {
    let (count, least) = cut(want, b' ');
    match points.least() {
        Some(p) => points.count() == short_number(count) && p.number() == short_number(least),
        None => false,
    }
}

struct ListTable;

impl Table for ListTable {
    fn holds(alloc: Global, line: &[u8]) -> bool {
        let (want, text) = cut(line, b'|');
        let Some(row) = Size::new(19, 1) else {
            return false;
        };
        match named(alloc, text, row) {
            Some(Ok(points)) => want != BAD && has_points(&points, want),
            Some(Err(BadPoint)) => want == BAD,
            None => false,
        }
    }
}

/// What stands in the table where a value is no point.
const BAD: &[u8] = b"bad";

/// How many points a board of one row of 19 points has, all of them in a set.
fn whole_row() -> Option<u16> {
    Some(PointSet::whole(Size::new(19, 1)?).count())
}

#[test]
fn lists(rt: HostRuntime) {
    assert_eq!(&rt; holding::<ListTable>(rt.alloc(), tables::LISTS, b'~'), 6);
    assert!(&rt; whole_row() == Some(19));
}

#[test]
fn blanks(rt: HostRuntime) {
    assert!(&rt; skip_blanks(b" \t\x0b\x0c\r\nB") == b"B".as_slice());
}
