//! How a strategy ends.
use crate::picture::colour_name;
use crate::points::{PointForm, put_point};
use crate::shown::ShowFault;
use std::io::Write;
use tt_game::{Line, Side};
use tt_life::{has_won_or_lives, two_eyes};

/// Whether somebody has won at a line, or the attacker is to move and the targets are unconditionally alive.
pub fn has_ended(line: &Line) -> bool {
    line.winner().is_some() || has_won_or_lives(Side::Defender, line)
}

/// Writes that the targets of a line are alive, and which two eyes they have, behind the text. Where they don't have two, they have a
/// liberty outside the region.
fn put_life(out: &mut Vec<u8>, line: &Line) -> Result<(), ShowFault> {
    let size = line.frame().size;
    let defender = colour_name(line.frame().defender);
    let Some((one, other)) = two_eyes(line) else {
        return Ok(write!(out, "{defender} is alive: a liberty is outside the region")?);
    };
    write!(out, "{defender} is alive:")?;
    put_point(out, size, one, PointForm::Editor)?;
    out.extend_from_slice(b" and")?;
    put_point(out, size, other, PointForm::Editor)?;
    Ok(out.extend_from_slice(b" are eyes")?)
}

/// Writes who has won at a line and why, or that the targets are alive, or that nobody has won, behind the text.
pub fn put_ending(out: &mut Vec<u8>, line: &Line) -> Result<(), ShowFault> {
    let Some(side) = line.winner() else {
        if has_won_or_lives(Side::Defender, line) {
            return put_life(out, line);
        }
        return Ok(out.extend_from_slice(b"The strategy ends, and nobody has won")?);
    };
    let winner = colour_name(line.frame().colour_of(side));
    let defender = colour_name(line.frame().defender);
    match side {
        Side::Attacker => Ok(write!(out, "{winner} has won: {defender}'s stones are captured")?),
        Side::Defender => Ok(write!(out, "{winner} has won: both passed, and the stones stand")?),
    }
}
