//! Writes certificates.

ghost use Rattle.std.specs.Prelude.{◌≡◌, ◌<◌, ◌≤◌, ◌+◌, ◌/◌, ◌++◌, ◌∷◌, [], OnOk, OnErr, IfOk};
ghost use Rattle.tt_sgf.specs.Bytes.{lower_a};
ghost use Rattle.tt_sgf.specs.Sizes.{point_count};
ghost use Rattle.tt_proof.specs.declared.tree.TheConstants.{MOST_DEPTH};
ghost use Rattle.tt_proof.specs.Strategy.{done, pick, depth, strategy_of, entries_of_reply, IsTurnOnBoardOfSize, IsInOrder, AreInOrder};
ghost use Rattle.tt_proof.specs.CertificateText.{readable_turn_text, turn_text, tree_text, entries_text, certificate_text};

use crate::tree::Tree;
use std::alloc::Global;
use tt_game::{Side, Turn};
use tt_sgf::{NoMemory, Point, Size};

fn put_byte(out: &mut Vec<u8>, byte: u8) -> Result<(), NoMemory>
    ensures { OnOk result (out.new.items ≡ out.old.items ++ byte ∷ []) }
{
    out.push(byte)?;
    Ok(())
}

fn letter(n: u16) -> u8
    requires { n < 26 }
    ensures { result ≡ lower_a + n }
{
    b'a' + n as u8
}

fn letter_of_row(p: Point, size: Size) -> u8
    requires { p < point_count size }
    ensures { result ≡ lower_a + p / size.columns }
{
    letter(p.number() / size.columns())
}

/// Writes the text of a turn behind the bytes: the letters of its column and row, or `--` for a pass. Where memory is
/// refused nothing is written.
pub fn put_turn(out: &mut Vec<u8>, turn: Turn, size: Size) -> Result<(), NoMemory>
    requires { IsTurnOnBoardOfSize size turn }
    ensures ok { OnOk result (out.new.items ≡ out.old.items ++ turn_text size turn) }
    ensures err { OnErr result (out.new.items ≡ out.old.items) }
{
    let text = match turn {
        Turn::Play(p) => [letter(p.number() % size.columns()), letter_of_row(p, size)],
        Turn::Pass => [b'-', b'-'],
    };
    out.extend_from_slice(&text)?;
    Ok(())
}

/// Writes a turn for people to read behind the bytes: the letters of its column and row, or `pass`. Where memory is refused
/// nothing is written.
pub fn put_readable_turn(out: &mut Vec<u8>, turn: Turn, size: Size) -> Result<(), NoMemory>
    requires { IsTurnOnBoardOfSize size turn }
    ensures ok { OnOk result (out.new.items ≡ out.old.items ++ readable_turn_text size turn) }
    ensures err { OnErr result (out.new.items ≡ out.old.items) }
{
    match turn {
        Turn::Play(_) => put_turn(out, turn, size),
        Turn::Pass => {
            out.extend_from_slice(b"pass")?;
            Ok(())
        }
    }
}

#[cycle(put)]
fn put_tree(out: &mut Vec<u8>, t: &Tree, size: Size) -> Result<(), NoMemory>
    requires in_order { IsInOrder size (strategy_of t.now) }
    ensures { OnOk result (out.new.items ≡ out.old.items ++ tree_text size (strategy_of t.now)) }
{
    match t {
        Tree::Done => put_byte(out, b'.'),
        Tree::Pick(turn, child) => {
            put_byte(out, b'!')?;
            put_turn(out, *turn, size)?;
            put_tree(out, child, size)
        }
        Tree::Reply(list) => {
            put_byte(out, b'?')?;
            put_entries(out, list, size)
        }
    }
}

#[cycle(put)]
fn put_entries(out: &mut Vec<u8>, list: &[(Turn, Tree)], size: Size) -> Result<(), NoMemory>
    requires in_order { AreInOrder size 0 (entries_of_reply list.now) }
    ensures { OnOk result (out.new.items ≡ out.old.items ++ entries_text size (entries_of_reply list.now)) }
{
    for (turn, child) in list {
        put_turn(out, *turn, size)?;
        put_tree(out, child, size)?;
    }
    put_byte(out, b';')
}

/// The certificate of the side and its tree, on a board of this size. The tree is at most 512 turns deep, its points lie on
/// the board, and the turns of each reply rise.
pub fn write_cert(alloc: Global, s: Side, t: &Tree, size: Size) -> Result<Vec<u8>, NoMemory>
    requires depth { depth (strategy_of t.now) ≤ MOST_DEPTH }
    requires in_order { IsInOrder size (strategy_of t.now) }
    ensures { IfOk result (λ v. v.items ≡ certificate_text size s (strategy_of t.now)) }
{
    let mut out = Vec::new(alloc);
    out.extend_from_slice(s.verdict_word())?;
    put_byte(&mut out, b' ')?;
    put_tree(&mut out, t, size)?;
    Ok(out)
}
