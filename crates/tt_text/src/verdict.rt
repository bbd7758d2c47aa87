//! The text of the answer to a problem, as it stands behind the problem's number.
ghost use Rattle.std.specs.Prelude.{◌≡◌, ◌++◌, All, IfOk, IfSome, OnOk};
ghost use Rattle.tt_proof.specs.Strategy.{IsTurnOnBoardOfSize};
ghost use Rattle.tt_text.specs.Solving.{answer_text, certificate_line, first_turn_text, reason_word, turn_value_line, turn_value_lines, value_text, verdict_text};
ghost use Rattle.tt_text.specs.inside.OnBoard.{IsFirstOnBoard};

use std::alloc::Global;
use tt_game::{Side, Turn};
use tt_proof::put_readable_turn;
use tt_search::Reason;
use tt_sgf::{ItemList, NoMemory, Size};
use tt_solve::{Solution, Solved};

/// Says why nobody's win was found.
fn reason_word(reason: Reason) -> &'static [u8]
    ensures { result.now ≡ reason_word reason }
{
    match reason {
        Reason::Budget => b"budget",
        Reason::Depth => b"depth",
        Reason::Total => b"total",
        Reason::Memory => b"memory",
    }
}

/// Writes a blank and the first turn behind the bytes, where there is one.
fn put_first_turn_text(out: &mut Vec<u8>, first: &Option<Turn>, size: Size) -> Result<(), NoMemory>
    requires { IfSome first.now (IsTurnOnBoardOfSize size) }
    ensures { OnOk result (out.new.items ≡ out.old.items ++ first_turn_text size first.now) }
{
    match first {
        None => Ok(()),
        Some(turn) => {
            out.push(b' ')?;
            put_readable_turn(out, *turn, size)
        }
    }
}

/// Writes a certificate as a line behind the bytes, where there is one.
fn put_certificate_line(
    out: &mut Vec<u8>,
    certificate: &Option<ItemList<u8>>,
) -> Result<(), NoMemory>
    ensures { OnOk result (out.new.items ≡ out.old.items ++ certificate_line certificate.now) }
{
    if let Some(bytes) = certificate {
        out.extend_from_slice(bytes.as_slice())?;
        out.push(b'\n')?;
    }
    Ok(())
}

/// Writes which side wins behind the bytes, or why that isn't known.
fn put_value(out: &mut Vec<u8>, value: Result<Side, Reason>) -> Result<(), NoMemory>
    ensures { OnOk result (out.new.items ≡ out.old.items ++ value_text value) }
{
    match value {
        Ok(side) => out.extend_from_slice(side.verdict_word())?,
        Err(reason) => {
            out.extend_from_slice(b"unsettled ")?;
            out.extend_from_slice(reason_word(reason))?;
        }
    }
    out.push(b'\n')?;
    Ok(())
}

/// The verdict that a solution is, with its certificate below.
fn verdict_text(alloc: Global, size: Size, solution: &Solution) -> Result<Vec<u8>, NoMemory>
    requires { IsFirstOnBoard size solution.now }
    ensures { IfOk result (λ text. text.items ≡ verdict_text size solution.now) }
{
    let mut out = Vec::new(alloc);
    match solution {
        Solution::Settled {
            side,
            first,
            certificate,
        } => {
            out.extend_from_slice(side.verdict_word())?;
            put_first_turn_text(&mut out, first, size)?;
            out.push(b'\n')?;
            put_certificate_line(&mut out, certificate)?;
        }
        Solution::Unsettled(reason) => put_value(&mut out, Err(*reason))?,
    }
    Ok(out)
}

/// Writes the line on a turn behind the bytes.
fn put_turn_value_line(
    out: &mut Vec<u8>,
    size: Size,
    turn: Turn,
    value: Result<Side, Reason>,
) -> Result<(), NoMemory>
    requires { IsTurnOnBoardOfSize size turn }
    ensures { OnOk result (out.new.items ≡ out.old.items ++ turn_value_line size turn value) }
{
    out.extend_from_slice(b"  ")?;
    put_readable_turn(out, turn, size)?;
    out.push(b' ')?;
    put_value(out, value)
}

/// Writes the lines on turns behind the bytes.
fn put_turn_value_lines(
    out: &mut Vec<u8>,
    size: Size,
    values: &[(Turn, Result<Side, Reason>)],
) -> Result<(), NoMemory>
    requires { All (λ e. IsTurnOnBoardOfSize size e.0) values.now }
    ensures { OnOk result (out.new.items ≡ out.old.items ++ turn_value_lines size values.now) }
{
    for (turn, value) in values {
        put_turn_value_line(out, size, *turn, *value)?;
    }
    Ok(())
}

/// The verdict, and the lines on its turns.
pub fn answer_text(alloc: Global, size: Size, solved: &Solved) -> Result<Vec<u8>, NoMemory>
    requires first { IsFirstOnBoard size solved.now.solution }
    requires turns { All (λ e. IsTurnOnBoardOfSize size e.0) solved.now.turn_values.items }
    ensures { IfOk result (λ text. text.items ≡ answer_text size solved.now) }
{
    let mut text = verdict_text(alloc, size, &solved.solution)?;
    put_turn_value_lines(&mut text, size, solved.turn_values.as_slice())?;
    Ok(text)
}
