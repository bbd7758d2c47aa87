//! A tree as it was given.
ghost use Rattle.std.specs.Prelude.{◌≡◌, ◌≤◌, IfOk, IsTrue, length};
ghost use Rattle.tsumego_show.specs.Written.{HasNoParenthesis, IsGivenWithMore, as_given, from_open};

use crate::reading_back::check_nodes;
use crate::shown::ShowFault;
use std::alloc::Global;
use tt_board::Colour;
use tt_sgf::{MainLine, Node, has_tree};

/// Bytes that are added to a tree at most: marks on 41 points, up to three stones, their names in a comment, and the side to move.
const MOST_MORE: usize = 1_024;

/// A game tree of an input: its number, counted from 1, its bytes from its first `(` on, its main line, and the bytes behind it.
#[derive(Drop)]
pub struct GivenTree<'a> {
    pub number: usize,
    pub bytes: &'a [u8],
    pub main: MainLine,
    pub behind: &'a [u8],
}

impl<'a> GivenTree<'a> {
    /// The nodes of its main line.
    pub fn nodes(&self) -> &[Node]
        ensures { result.now ≡ self.now.main.nodes }
    {
        self.main.nodes.as_slice()
    }

    /// The tree as it was.
    pub fn as_given(&self, alloc: Global) -> Result<Vec<u8>, ShowFault>
        ensures { IfOk result (λ text. text.items ≡ as_given self.now.bytes.now) }
    {
        let mut text = Vec::new(alloc);
        text.extend_from_slice(self.bytes)?;
        text.push(b'\n')?;
        Ok(text)
    }

    /// The tree with more bytes in front of that of this index: they are marks alone, or stones of a colour too, where they are added, and
    /// no node is lost by them.
    pub fn with_more(
        &self,
        alloc: Global,
        at: usize,
        more: &[u8],
        stones: Option<Colour>,
    ) -> Result<Vec<u8>, ShowFault>
        requires { at ≤ length self.now.bytes.now }
        ensures { IfOk result
            (λ text. IsGivenWithMore stones self.now.bytes.now self.now.main.nodes text.items) }
    {
        if MOST_MORE < more.len() || !has_no_parenthesis(more) {
            return Err(ShowFault::OtherProblem);
        }
        let mut text = Vec::new(alloc);
        text.extend_from_slice(&self.bytes[..at])?;
        text.extend_from_slice(more)?;
        text.extend_from_slice(&self.bytes[at..])?;
        text.push(b'\n')?;
        check_nodes(alloc, text.as_slice(), self.nodes(), stones)?;
        Ok(text)
    }
}

/// Whether no parenthesis is among these bytes.
fn has_no_parenthesis(bytes: &[u8]) -> bool
    ensures { IsTrue result → HasNoParenthesis bytes.now }
{
    !has_tree(bytes) && !bytes.contains(&b')')
}

/// The index of the first byte from this one on that is one of these and stands in no value; the length where there is none.
fn index_outside_values(tree: &[u8], from: usize, wanted: &[u8]) -> usize
    requires { from ≤ length tree.now }
    ensures { result ≤ length tree.now }
{
    let mut in_value = false;
    let mut is_escaped = false;
    for i in from..tree.len() {
        let byte = tree[i];
        if is_escaped {
            is_escaped = false;
        } else if in_value {
            is_escaped = byte == b'\\';
            in_value = byte != b']';
        } else if byte == b'[' {
            in_value = true;
        } else if wanted.contains(&byte) {
            return i;
        }
    }
    tree.len()
}

/// How many bytes stand up to the `;` of the node of this number, and with it; all where there are fewer nodes. Nodes count from 1.
pub fn semicolon_end(tree: &[u8], number: usize) -> usize
    ensures { result ≤ length tree.now }
{
    let mut end = 0;
    for _node in 0..number {
        end = tree.len().min(index_outside_values(tree, end, b";") + 1);
    }
    end
}

/// How many bytes stand up to the end of the node of this number.
pub fn node_end(tree: &[u8], number: usize) -> usize
    ensures { result ≤ length tree.now }
{
    index_outside_values(tree, semicolon_end(tree, number), b";()")
}

/// The bytes from the first `(` on.
#[tactic(auto, using(crate::proofs::GivenBytes::opened_here, crate::proofs::GivenBytes::opened_behind))]
pub fn from_first_parenthesis(bytes: &[u8]) -> &[u8]
    ensures begun { result.now ≡ from_open bytes.now }
    ensures within { length result.now ≤ length bytes.now }
{
    let mut rest = bytes;
    while let Some((first, behind)) = rest.split_first() {
        if *first == b'(' {
            return rest;
        }
        rest = behind;
    }
    rest
}
