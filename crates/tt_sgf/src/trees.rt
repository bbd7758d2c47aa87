//! Game trees (SGF FF[4]): the nodes of the main line. Trees may be nested as deep as the input is long: one counter
//! says how many of them are open.

ghost use Rattle.std.specs.Prelude.{◌≡◌, ℕ, ◌<◌, ◌≤◌, ◌⊎◌, List, length, false, IsTrue, IfOk, ◌↔◌, take, MatchOption, ◌∷◌, ◌==◌, Err, slice_index};
ghost use Rattle.std.specs.List.{list_any};
ghost use Rattle.tt_sgf.specs.Bytes.{open_tree};
ghost use Rattle.tt_sgf.specs.Grammar.{GameTree, main_line, FirstTreeEndsAt, HasNoTree, HasOpeningParenthesis, IsMainLine};
ghost use Rattle.tt_sgf.specs.inside.Reading.{event_at, Begins, Gives};

use crate::faults::SgfFault;
use crate::nodes::items::ItemList;
use crate::nodes::{MainLine, Node};
use crate::properties::properties;
use crate::tokens::skip_blanks;
use std::alloc::Global;

/// A bracket of a tree, or a node.
#[derive(Drop)]
enum Event {
    Open,
    Close,
    Item(Node),
}

/// The next bracket of a tree, or the next node.
#[tactic(auto, unfolding(crate::specs::inside::Reading::event_at))]
fn next_event(alloc: Global, bytes: &[u8]) -> Result<(Event, &[u8]), SgfFault>
    ensures { Gives (λ x. (x.0, x.1.now)) result (event_at bytes.now) }
{
    match skip_blanks(bytes) {
        [b'(', after @ ..] => Ok((Event::Open, after)),
        [b')', after @ ..] => Ok((Event::Close, after)),
        [b';', after @ ..] => {
            let (properties, rest) = properties(alloc, after)?;
            Ok((
                Event::Item(Node {
                    props: ItemList::from_vec(properties),
                }),
                rest,
            ))
        }
        _ => Err(SgfFault::Syntax),
    }
}

/// Where a reader stands in the innermost open tree: right behind its bracket, among its nodes, or behind a sub-tree.
#[derive(Clone, Copy)]
enum ParserState {
    Opened,
    Nodes,
    Trees,
}

/// A game tree whose first bracket is read: its main line, and what is left behind it.
fn tree(alloc: Global, bytes: &[u8]) -> Result<(Vec<Node>, &[u8]), SgfFault>
    ensures found { IfOk result (λ x. (t : GameTree) × Begins (open_tree ∷ bytes.now) t x.1.now
        × (x.0.items ≡ main_line t)) }
    ensures none { result ≡ Err SgfFault.Syntax → (t : GameTree) (rest : List ℕ)
        → Begins (open_tree ∷ bytes.now) t rest → ⊥ }
    ensures short { result ≡ Err SgfFault.TooLong → ⊥ }
{
    let mut nodes = Vec::new(alloc);
    let mut rest = bytes;
    let mut in_tree = ParserState::Opened;
    let mut enclosing = 0usize;
    let mut on_main = true;
    loop {
        let (event, after) = next_event(alloc, rest)?;
        rest = after;
        match event {
            Event::Open => {
                if let ParserState::Opened = in_tree {
                    return Err(SgfFault::Syntax);
                }
                enclosing += 1;
                in_tree = ParserState::Opened;
            }
            Event::Close => {
                if let ParserState::Opened = in_tree {
                    return Err(SgfFault::Syntax);
                }
                if enclosing == 0 {
                    return Ok((nodes, rest));
                }
                enclosing -= 1;
                in_tree = ParserState::Trees;
                on_main = false;
            }
            Event::Item(node) => {
                if let ParserState::Trees = in_tree {
                    return Err(SgfFault::Syntax);
                }
                if on_main {
                    nodes.push(node)?;
                }
                in_tree = ParserState::Nodes;
            }
        }
    }
}

/// The greatest length of an input, in bytes.
pub const MAX_BYTES: usize = 1_048_576;

/// Where the first `(` stands.
fn first_opening_parenthesis(bytes: &[u8]) -> Option<usize>
    ensures { MatchOption result (list_any (λ b. b == open_tree) bytes.now ≡ false)
        (λ i. (i < length bytes.now) × (list_any (λ b. b == open_tree) (take i bytes.now) ≡ false)
        × (slice_index bytes.now i ≡ open_tree)) }
{
    for (i, b) in bytes.iter().enumerate() {
        if *b == b'(' {
            return Some(i);
        }
    }
    None
}

/// Whether a `(` occurs, so that a game tree may begin there. Takes no memory.
pub fn has_tree(bytes: &[u8]) -> bool
    ensures { IsTrue result ↔ HasOpeningParenthesis bytes.now }
{
    bytes.contains(&b'(')
}

/// Reads the game tree that begins at the first `(`. The answer is its main line, and the number of bytes up to and with
/// the `)` that ends it.
///
/// The bytes before the first `(` are skipped, a byte order mark among them, and what stands behind the tree isn't looked
/// at. Side variations are read for their grammar alone.
///
/// # Errors
/// - `TooLong` exactly where there are more than 1,048,576 bytes.
/// - `Syntax` exactly where there are not, and no game tree begins at the first `(`, or there is no `(`.
/// - `NoMemory` where memory was refused, instead of any answer but `TooLong`.
pub fn read_tree(alloc: Global, bytes: &[u8]) -> Result<(MainLine, usize), SgfFault>
    ensures found { IfOk result
        (λ x. (t : GameTree) × FirstTreeEndsAt bytes.now x.1 t × (x.0.nodes ≡ main_line t)) }
    ensures line { IfOk result (λ x. IsMainLine x.0.nodes) }
    ensures within { IfOk result
        (λ x. (1 ≤ x.1) × (x.1 ≤ length bytes.now) × (length bytes.now ≤ MAX_BYTES)) }
    ensures syntax { result ≡ Err SgfFault.Syntax
        → (length bytes.now ≤ MAX_BYTES) × HasNoTree bytes.now }
    ensures no_tree { length bytes.now ≤ MAX_BYTES → HasNoTree bytes.now
        → (result ≡ Err SgfFault.Syntax) ⊎ (result ≡ Err SgfFault.NoMemory) }
    ensures too_long { (result ≡ Err SgfFault.TooLong) ↔ (MAX_BYTES < length bytes.now) }
{
    if bytes.len() > MAX_BYTES {
        return Err(SgfFault::TooLong);
    }
    let Some(start) = first_opening_parenthesis(bytes) else {
        return Err(SgfFault::Syntax);
    };
    let (nodes, rest) = tree(alloc, &bytes[start + 1..])?;
    Ok((
        MainLine {
            nodes: ItemList::from_vec(nodes),
        },
        bytes.len() - rest.len(),
    ))
}
