//! Reads certificates with shared parts.

ghost use Rattle.std.specs.Prelude.{◌≡◌, ◌<◌, ◌≤◌, ◌+◌, ◌++◌, ◌∷◌, ℕ, List, [], decimal, IfOk, IfErr, OnOk, MatchOption, MatchResult};
ghost use Rattle.tt_sgf.specs.declared.size.Size.{Size};
ghost use Rattle.tt_sgf.specs.declared.size.TheConstants.{MOST_POINTS};
ghost use Rattle.tt_proof.specs.CertificateText.{pick_symbol, replies_symbol, side_prefix};
ghost use Rattle.tt_proof.specs.declared.tree.TheConstants.{MOST_DEPTH};
ghost use Rattle.tt_proof.specs.Strategy.{depth};
ghost use Rattle.tt_parts.specs.Outlines.{IsSharedCertificate, outline_of, unfolded, branches_of_reply, naming_symbol, naming_text, part_symbol};
ghost use Rattle.tt_parts.specs.SharedCertFaults.{IsSharedCertFault};
ghost use Rattle.tt_parts.specs.inside.OutlineReading.{HasNoDigitInFront, DigitsAt, ReadsOutline, ReadsBranches, OutlineFaultAt, BranchesFaultAt, with_depth};

use crate::outlines::Outline;
use std::alloc::Global;
use tt_game::{Side, Turn};
use tt_proof::{CertFault, MOST_DEPTH, read_turn, split_side, strip_reply_end};
use tt_sgf::{NoMemory, Size};

/// The greatest name: it has nine digits.
const GREATEST_NAME: u32 = 999_999_999;

/// The number that the digits at the front of the bytes spell, or the greatest of its type where that is greater, and what
/// follows.
fn read_digits(bytes: &[u8]) -> (u32, &[u8])
    ensures { DigitsAt result.0 bytes.now result.1.now }
{
    let mut number = 0u32;
    let mut now = bytes;
    loop {
        match now.split_first() {
            None => return (number, now),
            Some((byte, rest)) => {
                if !byte.is_ascii_digit() {
                    return (number, now);
                }
                let digit = u32::from(*byte - b'0');
                number = number.saturating_mul(10).saturating_add(digit);
                now = rest;
            }
        }
    }
}

/// The name at the front of the bytes, and what follows, which is no digit.
fn read_name(bytes: &[u8]) -> Option<(usize, &[u8])>
    ensures { MatchOption result
        ((k : ℕ) (y : List ℕ)
        → k < 1000000000 → HasNoDigitInFront y → bytes.now ≡ decimal k ++ y → ⊥)
        (λ r. (r.0 < 1000000000) × HasNoDigitInFront r.1.now
        × (bytes.now ≡ decimal r.0 ++ r.1.now)) }
{
    let (number, rest) = read_digits(bytes);
    let length = bytes.len() - rest.len();
    if length == 0 || number > GREATEST_NAME || (length > 1 && bytes[0] == b'0') {
        return None;
    }
    Some((number as usize, rest))
}

/// Adds the depth of a tree, where it has a name.
fn put_depth_if_named(depths: &mut Vec<u16>, named: bool, depth: u16) -> Result<(), NoMemory>
    ensures { OnOk result (depths.new.items ≡ with_depth named depth depths.old.items) }
{
    if named {
        depths.push(depth)?;
    }
    Ok(())
}

/// The part whose name is at the front of the bytes, its depth, and what follows.
fn read_part_reference<'a>(
    bytes: &'a [u8],
    left: u16,
    depths: &Vec<u16>,
) -> Result<(Outline, u16, &'a [u8]), CertFault>
    ensures { (size : Size) → MatchResult result
        (λ r. ReadsOutline size left depths.now.items depths.now.items (outline_of r.0) r.1 (part_symbol ∷ bytes.now) r.2.now)
        (λ e. OutlineFaultAt size left depths.now.items (part_symbol ∷ bytes.now) e) }
{
    let Some((number, rest)) = read_name(bytes) else {
        return Err(CertFault::Syntax);
    };
    let Some(depth) = depths.get(number) else {
        return Err(CertFault::Syntax);
    };
    if *depth > left {
        return Err(CertFault::TooDeep);
    }
    Ok((Outline::Part(number), *depth, rest))
}

/// The outline at the front of the bytes, the depth of its tree, which is at most `left`, and what follows. `depths` are those of the
/// named trees so far.
#[cycle(outline)]
fn read_outline<'a>(
    alloc: Global,
    bytes: &'a [u8],
    size: Size,
    left: u16,
    depths: &mut Vec<u16>,
) -> Result<(Outline, u16, &'a [u8]), CertFault>
    ensures { MatchResult result
        (λ r. ReadsOutline size left depths.old.items depths.new.items (outline_of r.0) r.1 bytes.now r.2.now)
        (λ e. OutlineFaultAt size left depths.old.items bytes.now e) }
{
    match bytes.split_first() {
        None => Err(CertFault::Syntax),
        Some((first, rest)) => {
            if *first == b'.' {
                return Ok((Outline::Done, 0, rest));
            }
            if *first == b'*' {
                return read_part_reference(rest, left, depths);
            }
            if *first == b'=' {
                return read_named_outline(alloc, rest, size, left, depths);
            }
            if *first == b'!' {
                return read_pick(alloc, false, rest, size, left, depths);
            }
            if *first == b'?' {
                return read_reply(alloc, false, rest, size, left, depths);
            }
            Err(CertFault::Syntax)
        }
    }
}

/// The outline behind a `=`, which gives it a name.
#[cycle(outline)]
fn read_named_outline<'a>(
    alloc: Global,
    bytes: &'a [u8],
    size: Size,
    left: u16,
    depths: &mut Vec<u16>,
) -> Result<(Outline, u16, &'a [u8]), CertFault>
    ensures { MatchResult result
        (λ r. ReadsOutline size left depths.old.items depths.new.items (outline_of r.0) r.1 (naming_symbol ∷ bytes.now) r.2.now)
        (λ e. OutlineFaultAt size left depths.old.items (naming_symbol ∷ bytes.now) e) }
{
    match bytes.split_first() {
        None => Err(CertFault::Syntax),
        Some((first, rest)) => {
            if *first == b'!' {
                return read_pick(alloc, true, rest, size, left, depths);
            }
            if *first == b'?' {
                return read_reply(alloc, true, rest, size, left, depths);
            }
            Err(CertFault::Syntax)
        }
    }
}

#[cycle(outline)]
fn read_pick<'a>(
    alloc: Global,
    named: bool,
    bytes: &'a [u8],
    size: Size,
    left: u16,
    depths: &mut Vec<u16>,
) -> Result<(Outline, u16, &'a [u8]), CertFault>
    ensures { MatchResult result
        (λ r. ReadsOutline size left depths.old.items depths.new.items (outline_of r.0) r.1 (naming_text named ++ (pick_symbol ∷ bytes.now)) r.2.now)
        (λ e. OutlineFaultAt size left depths.old.items (naming_text named ++ (pick_symbol ∷ bytes.now)) e) }
{
    let Some((turn, _, after)) = read_turn(bytes, size) else {
        return Err(CertFault::Syntax);
    };
    if left == 0 {
        return Err(CertFault::TooDeep);
    }
    let (child, depth, rest) = read_outline(alloc, after, size, left - 1, depths)?;
    let outline = Outline::pick(alloc, named, turn, child)?;
    put_depth_if_named(depths, named, depth + 1)?;
    Ok((outline, depth + 1, rest))
}

#[cycle(outline)]
fn read_reply<'a>(
    alloc: Global,
    named: bool,
    bytes: &'a [u8],
    size: Size,
    left: u16,
    depths: &mut Vec<u16>,
) -> Result<(Outline, u16, &'a [u8]), CertFault>
    ensures { MatchResult result
        (λ r. ReadsOutline size left depths.old.items depths.new.items (outline_of r.0) r.1 (naming_text named ++ (replies_symbol ∷ bytes.now)) r.2.now)
        (λ e. OutlineFaultAt size left depths.old.items (naming_text named ++ (replies_symbol ∷ bytes.now)) e) }
{
    let (branches, depth, rest) = read_branches(alloc, bytes, size, left, depths)?;
    let outline = Outline::reply(alloc, named, branches)?;
    put_depth_if_named(depths, named, depth)?;
    Ok((outline, depth, rest))
}

/// The branches up to the end of a reply, the depth of the reply, and what follows.
#[cycle(outline)]
fn read_branches<'a>(
    alloc: Global,
    bytes: &'a [u8],
    size: Size,
    left: u16,
    depths: &mut Vec<u16>,
) -> Result<(Vec<(Turn, Outline)>, u16, &'a [u8]), CertFault>
    ensures { MatchResult result
        (λ r. ReadsBranches size left depths.old.items depths.new.items 0 (branches_of_reply r.0.items) r.1 bytes.now r.2.now)
        (λ e. BranchesFaultAt size left depths.old.items 0 bytes.now e) }
{
    let mut list = Vec::new(alloc);
    let mut now = bytes;
    let mut least = 0;
    let mut most = 0u16;
    loop {
        if let Some(rest) = strip_reply_end(now) {
            return Ok((list, most, rest));
        }
        let Some((turn, number, middle)) = read_turn(now, size) else {
            return Err(CertFault::Syntax);
        };
        if number < least {
            return Err(CertFault::Syntax);
        }
        if left == 0 {
            return Err(CertFault::TooDeep);
        }
        let (outline, depth, after) = read_outline(alloc, middle, size, left - 1, depths)?;
        list.push((turn, outline))?;
        most = most.max(depth + 1);
        least = number + 1;
        now = after;
    }
}

/// The outline that the bytes behind the side's word spell, whose tree is at most so deep.
fn read_shared_cert_for_side(
    alloc: Global,
    rest: &[u8],
    s: Side,
    size: Size,
    most_depth: u16,
) -> Result<(Side, Outline), CertFault>
    requires { most_depth ≤ MOST_DEPTH }
    ensures certificate { IfOk result
        (λ r. IsSharedCertificate size (side_prefix s ++ rest.now) r.0 (outline_of r.1)) }
    ensures shallow { IfOk result (λ r. depth (unfolded [] (outline_of r.1)) ≤ most_depth) }
    ensures fault { IfErr result
        (λ e. IsSharedCertFault size most_depth (side_prefix s ++ rest.now) e) }
{
    let mut depths = Vec::new(alloc);
    let (outline, _, more) = read_outline(alloc, rest, size, most_depth, &mut depths)?;
    if more.is_empty() {
        Ok((s, outline))
    } else {
        Err(CertFault::Syntax)
    }
}

/// The side and the outline that the bytes are the certificate of, on a board of this size. Its tree is at most so deep.
pub(crate) fn read_shared_cert_to_depth(
    alloc: Global,
    bytes: &[u8],
    size: Size,
    most_depth: u16,
) -> Result<(Side, Outline), CertFault>
    requires { most_depth ≤ MOST_DEPTH }
    ensures certificate { IfOk result
        (λ r. IsSharedCertificate size bytes.now r.0 (outline_of r.1)) }
    ensures shallow { IfOk result (λ r. depth (unfolded [] (outline_of r.1)) ≤ most_depth) }
    ensures fault { IfErr result (λ e. IsSharedCertFault size most_depth bytes.now e) }
{
    let Some((side, rest)) = split_side(bytes) else {
        return Err(CertFault::Syntax);
    };
    read_shared_cert_for_side(alloc, rest, side, size, most_depth)
}

/// The side and the outline that the bytes are the certificate of, on a board of this size.
pub fn read_shared_cert(
    alloc: Global,
    bytes: &[u8],
    size: Size,
) -> Result<(Side, Outline), CertFault>
    ensures { MatchResult result
        (λ r. IsSharedCertificate size bytes.now r.0 (outline_of r.1))
        (λ e. IsSharedCertFault size MOST_DEPTH bytes.now e) }
{
    read_shared_cert_to_depth(alloc, bytes, size, MOST_DEPTH)
}
