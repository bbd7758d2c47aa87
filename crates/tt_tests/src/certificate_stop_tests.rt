//! Where the reading of certificates stops.

use crate::rows::{Table, cut, holding, short_number};
use crate::sgf_tests::put;
use std::alloc::{AllocError, Global};
use tt_proof::certificate_stop;
use tt_sgf::Size;

/// The size, the number of the bytes that begin a certificate, and the bytes. On two columns and two rows `aa`, `ba`, `ab`, `bb` and the
/// pass rise in this order.
const STOPS: &str = "\
2:2|0|
2:2|0|x
2:2|0|Killed .
2:2|3|kil
2:2|3|kilted .
2:2|4|live .
2:2|6|killed
2:2|6|killed.
2:2|5|lives-
2:2|7|killed x
2:2|8|killed .
2:2|8|killed ..
2:2|7|killed =!ab.
2:2|7|killed *0
2:2|8|killed !.
2:2|8|killed !c
2:2|9|killed !ac.
2:2|9|killed !-a
4:1|9|killed !ab.
2:2|10|killed !ab
2:2|10|killed !ab;
2:2|10|killed !--a
2:2|7|lives ?.;
2:2|8|lives ?;;
2:2|10|lives ?--.
2:2|11|lives ?--.;x
2:2|10|lives ?ab.aa.;
2:2|11|lives ?ab.ba.;
2:2|11|lives ?aa.aa.;
2:2|11|lives ?aa.-b.;
2:2|10|lives ?--.aa.;
2:2|10|lives ?--.--.;
2:2|14|lives ?aa!bb.b;
2:2|15|lives ?aa?ba.;;;
";

struct StopTable;

impl Table for StopTable {
    fn holds(_: Global, line: &[u8]) -> bool {
        let (size, rest) = cut(line, b'|');
        let (want, certificate) = cut(rest, b'|');
        let (columns, rows) = cut(size, b':');
        match Size::new(short_number(columns), short_number(rows)) {
            Some(size) => certificate_stop(certificate, size) == usize::from(short_number(want)),
            None => false,
        }
    }
}

#[test]
fn certificate_stops(rt: HostRuntime) {
    assert_eq!(&rt; holding::<StopTable>(rt.alloc(), STOPS, b'\n'), 34);
}

/// Where it stops behind 512 passes that are picked.
fn deep_stop(alloc: Global, end: &[u8]) -> Result<Option<usize>, AllocError> {
    let mut text = Vec::new(alloc);
    put(&mut text, b"killed ", 1)?;
    put(&mut text, b"!--", 512)?;
    put(&mut text, end, 1)?;
    match Size::new(2, 2) {
        Some(size) => Ok(Some(certificate_stop(text.as_slice(), size))),
        None => Ok(None),
    }
}

/// Below 512 turns stand 1,543 bytes. A tree without turns may end there; the 513th turn, or its `!`, is too deep.
#[test]
fn deep_certificate_stops(rt: HostRuntime) {
    let alloc = rt.alloc();
    assert!(&rt; deep_stop(alloc, b"") == Ok(Some(1543)));
    assert!(&rt; deep_stop(alloc, b".") == Ok(Some(1544)));
    assert!(&rt; deep_stop(alloc, b"?;") == Ok(Some(1545)));
    assert!(&rt; deep_stop(alloc, b"!--.") == Ok(Some(1543)));
    assert!(&rt; deep_stop(alloc, b"?--.;") == Ok(Some(1544)));
}
