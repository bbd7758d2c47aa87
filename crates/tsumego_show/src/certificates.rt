//! Reads certificates.
use crate::shown::ShowFault;
use std::alloc::Global;
use std::io::Write;
use tt_game::Side;
use tt_parts::{Outline, read_shared_cert};
use tt_proof::{CertFault, Tree, certificate_stop};
use tt_sgf::{Size, trim};

/// The tree of an outline, in which a shared part stands wherever its name does. The names that end in it are added.
fn tree_of_outline(alloc: Global, o: &Outline, names: &mut Vec<Tree>) -> Result<Tree, ShowFault> {
    let (has_name, tree) = match o {
        Outline::Done => return Ok(Tree::done()),
        Outline::Part(name) => {
            return Ok(match names.get(*name) {
                Some(tree) => tree.try_clone()?,
                None => Tree::done(),
            });
        }
        Outline::Pick(has_name, turn, child) => {
            let behind = tree_of_outline(alloc, child, names)?;
            (*has_name, Tree::pick(alloc, *turn, behind)?)
        }
        Outline::Reply(has_name, list) => {
            let mut entries = Vec::new(alloc);
            for (turn, child) in list.as_slice() {
                entries.push((*turn, tree_of_outline(alloc, child, names)?))?;
            }
            (*has_name, Tree::reply(alloc, entries)?)
        }
    };
    if has_name {
        names.push(tree.try_clone()?)?;
    }
    Ok(tree)
}

/// The side and the tree of the certificate that the bytes are, with or without shared parts; none where they are no certificate. Each part
/// is made once, so a tree takes no more memory than its outline.
pub fn read_strategy(
    alloc: Global,
    bytes: &[u8],
    size: Size,
) -> Result<Option<(Side, Tree)>, ShowFault> {
    match read_shared_cert(alloc, bytes, size) {
        Ok((side, outline)) => {
            let tree = tree_of_outline(alloc, &outline, &mut Vec::new(alloc))?;
            Ok(Some((side, tree)))
        }
        Err(CertFault::NoMemory) => Err(ShowFault::NoMemory),
        Err(_) => Ok(None),
    }
}

/// Writes that what stands behind a problem is no certificate, and where its first line stops being one, behind the text. A line with
/// shared parts may stop being one anywhere.
pub fn put_no_certificate(
    alloc: Global,
    out: &mut Vec<u8>,
    behind: &[u8],
    size: Size,
) -> Result<(), ShowFault> {
    out.extend_from_slice(b"what follows is no certificate\n")?;
    let mut lines = trim(behind).split(|byte| *byte == b'\n');
    let line = trim(lines.next().unwrap_or(behind));
    let stop = certificate_stop(line, size);
    if read_strategy(alloc, line, size)?.is_some() || matches!(line.get(stop), Some(b'=' | b'*')) {
        return Ok(());
    }
    let byte = stop.saturating_add(1);
    Ok(writeln!(out, "look at: byte {byte} of its first line")?)
}
