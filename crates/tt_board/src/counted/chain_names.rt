//! The names of chains on the points of a board: which chains are beside a point, and what a stone there brings them.

ghost use Rattle.std.specs.Prelude.{◌≡◌, ◌≢◌, ℕ, ◌+◌, ◌<◌, ◌≤◌, ◌⊎◌, ◌↔◌, ◌==◌, ◌++◌, length, take, drop, Contains, IsTrue, Some, false};
ghost use Rattle.tt_sgf.specs.declared.size.TheConstants.{MOST_POINTS};
ghost use Rattle.tt_sgf.specs.Sizes.{point_count};
ghost use Rattle.tt_board.specs.inside.Chains.{name_at, root_of, Touches, IsEachOnce, AreRootsApart, is_new, count_there, count_beside};

use crate::counted::chain_counts::ChainName;
use crate::near::neighbours_of;
use arrayvec::ArrayVec;
use tt_sgf::Size;

/// The point where the counts of a chain are kept.
#[inline]
pub(crate) fn root_of(name: ChainName) -> usize
    ensures value { result ≡ root_of name }
    ensures small { result < 512 }
{
    usize::from(name % 512)
}

/// Copies the entries of the first `count` points, and no other.
#[inline]
pub(crate) fn copy_first(entries: &mut [u16], from: &[u16], count: usize)
    requires inside { (count ≤ length entries.old) × (count ≤ length from.now) }
    ensures { entries.new ≡ take count from.now ++ drop count entries.old }
{
    entries[..count].copy_from_slice(&from[..count]);
}

/// Whether the board has a point, and this name stands there.
#[inline]
fn point_has_name(names: &[ChainName; 361], index: Option<usize>, name: ChainName) -> bool
    requires { (q : ℕ) → index ≡ Some q → q < MOST_POINTS }
    ensures { IsTrue result ↔ ((q : ℕ) × (index ≡ Some q) × (name_at names.now q ≡ name)) }
{
    match index {
        Some(q) => names[q] == name,
        None => false,
    }
}

/// Whether a stone of the chain is beside `p`.
fn touches(size: Size, names: &[ChainName; 361], name: ChainName, p: usize) -> bool
    requires { p < point_count size }
    ensures { IsTrue result ↔ Touches size names.now name p }
{
    let near = neighbours_of(size, p);
    if point_has_name(names, near.above, name) {
        return true;
    }
    if point_has_name(names, near.left, name) {
        return true;
    }
    if point_has_name(names, near.right, name) {
        return true;
    }
    point_has_name(names, near.below, name)
}

/// 1 for a point that is empty and that no stone of the chain is beside, 0 for another one or none.
#[inline]
fn one_if_new_liberty(
    size: Size,
    names: &[ChainName; 361],
    name: ChainName,
    index: Option<usize>,
) -> u16
    requires { (q : ℕ) → index ≡ Some q → q < point_count size }
    ensures value { result ≡ count_there (is_new size names.now name) index }
    ensures small { result ≤ 1 }
{
    match index {
        Some(q) => {
            if names[q] == 0 && !touches(size, names, name, q) {
                1
            } else {
                0
            }
        }
        None => 0,
    }
}

/// How many liberties a stone on `p` brings the chain: empty points beside `p` that no stone of the chain is beside.
pub(crate) fn count_new_liberties(
    size: Size,
    names: &[ChainName; 361],
    name: ChainName,
    p: usize,
) -> u16
    requires { p < point_count size }
    ensures { result ≡ count_beside size (is_new size names.now name) p }
{
    let near = neighbours_of(size, p);
    one_if_new_liberty(size, names, name, near.above)
        + one_if_new_liberty(size, names, name, near.left)
        + one_if_new_liberty(size, names, name, near.right)
        + one_if_new_liberty(size, names, name, near.below)
}

/// Whether a name is not among those found. Mostly none is found yet.
#[inline]
pub(crate) fn is_not_yet_found(found: &ArrayVec<ChainName, 4>, name: ChainName) -> bool
    ensures fresh { IsTrue result → Contains found.now.items name → ⊥ }
    ensures contained { result ≡ false → Contains found.now.items name }
{
    found.is_empty() || !found.as_slice().contains(&name)
}

/// Adds the chain on a point to those found, if there is one that is not among them, and but one.
#[inline]
fn push_chain_at(
    found: &mut ArrayVec<ChainName, 4>,
    names: &[ChainName; 361],
    index: Option<usize>,
    but: ChainName,
)
    requires inside { (q : ℕ) → index ≡ Some q → q < MOST_POINTS }
    requires room { length found.old.items < 4 }
    requires once { IsEachOnce found.old.items }
    ensures few { length found.new.items ≤ length found.old.items + 1 }
    ensures still_once { IsEachOnce found.new.items }
    ensures added { (m : ℕ) → Contains found.new.items m
        ↔ (Contains found.old.items m
        ⊎ ((m ≢ 0) × (m ≢ but) × ((q : ℕ) × (index ≡ Some q) × (name_at names.now q ≡ m)))) }
{
    if let Some(q) = index {
        let name = names[q];
        if name != 0 && name != but && is_not_yet_found(found, name) {
            found.push(name);
        }
    }
}

/// The different chains beside `p`, but one.
pub(crate) fn chains_beside(
    size: Size,
    names: &[ChainName; 361],
    p: usize,
    but: ChainName,
) -> ArrayVec<ChainName, 4>
    requires { p < point_count size }
    ensures beside { (m : ℕ)
        → Contains result.items m ↔ ((m ≢ 0) × (m ≢ but) × Touches size names.now m p) }
    ensures once { IsEachOnce result.items }
{
    let near = neighbours_of(size, p);
    let mut found = ArrayVec::new();
    push_chain_at(&mut found, names, near.above, but);
    push_chain_at(&mut found, names, near.left, but);
    push_chain_at(&mut found, names, near.right, but);
    push_chain_at(&mut found, names, near.below, but);
    found
}

/// Adds a liberty to each of these chains.
pub(crate) fn give_liberty(liberties: &mut [u16; 361], near: &[ChainName])
    requires in_range { (i : ℕ) → i < length near.now → root_of (name_at near.now i) < MOST_POINTS }
    requires apart { AreRootsApart near.now }
    requires small { (i : ℕ) → i < length near.now
        → name_at liberties.old (root_of (name_at near.now i)) < 1000 }
    ensures more { (i : ℕ) → i < length near.now
        → name_at liberties.new (root_of (name_at near.now i))
        ≡ name_at liberties.old (root_of (name_at near.now i)) + 1 }
    ensures same { (r : ℕ) → ((i : ℕ) → i < length near.now → root_of (name_at near.now i) ≢ r)
        → name_at liberties.new r ≡ name_at liberties.old r }
{
    for name in near {
        liberties[root_of(*name)] += 1;
    }
}
