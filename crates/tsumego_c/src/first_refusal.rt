//! Where the first tree of an input is refused.
ghost use Rattle.std.specs.Prelude.{◌≡◌, IfOk};
ghost use Rattle.tsumego_c.specs.Refusals.{IsExplained, IsFirstTreeRefusal, main_line_refusal, no_refusal, number_or_none, refusal_by_fault, refusal_of_input};

use crate::statuses::{DONE, NO_MEMORY, REFUSED};
use std::alloc::Global;
use tt_game::{GameFault, play_record, problem};
use tt_sgf::{MainLine, NoMemory, SgfFault, read_tree};

/// What stands for a number that there isn't.
const NO_NUMBER: usize = usize::MAX;

/// A refusal, and where it was found. Each number but the first is the largest one where there is none.
#[repr(C)]
#[derive(Clone, Copy)]
pub struct Refusal {
    /// The number of the refusal, or 0 where nothing is refused.
    pub number: u32,
    /// The node of the main line, from 1.
    pub node: usize,
    /// The property of the node and the value of the property that can't be read, from 0.
    pub property: usize,
    pub value: usize,
    /// The point at fault: its row times the columns of the board, and its column, both from 0.
    pub point: usize,
}

/// A number, or what stands for none.
fn number_or_none(number: Option<usize>) -> usize
    ensures { result ≡ number_or_none number }
{
    number.unwrap_or(NO_NUMBER)
}

/// A refusal of the input, which has no place; or none, with the number 0.
fn refusal_of_input(number: u8) -> Refusal
    ensures { result ≡ refusal_of_input number }
{
    Refusal {
        number: u32::from(number),
        node: NO_NUMBER,
        property: NO_NUMBER,
        value: NO_NUMBER,
        point: NO_NUMBER,
    }
}

/// The refusal of a main line by a fault.
fn refusal_by_fault(fault: &GameFault) -> Refusal
    ensures { result ≡ refusal_by_fault fault.now }
{
    let (property, value) = match fault.value() {
        Some((property, value)) => (property, value),
        None => (NO_NUMBER, NO_NUMBER),
    };
    let point = match fault.point() {
        Some(point) => usize::from(point.number()),
        None => NO_NUMBER,
    };
    Refusal {
        number: u32::from(fault.code()),
        node: number_or_none(fault.node()),
        property,
        value,
        point,
    }
}

/// Where a main line is refused, as a record or as a problem.
fn refusal_of_main_line(
    alloc: Global,
    main: &MainLine,
    is_record: bool,
) -> Result<Refusal, NoMemory>
    ensures { IfOk result (λ r. r ≡ main_line_refusal is_record main.now.nodes) }
{
    let fault = if is_record {
        play_record(alloc, main).err()
    } else {
        problem(alloc, main).err()
    };
    match fault {
        None => Ok(refusal_of_input(0)),
        Some(GameFault::NoMemory) => Err(NoMemory),
        Some(fault) => Ok(refusal_by_fault(&fault)),
    }
}

/// Where the first tree of an input is refused, as a record or as a problem.
fn first_tree_refusal(alloc: Global, sgf: &[u8], is_record: bool) -> Result<Refusal, NoMemory>
    ensures { IfOk result (IsFirstTreeRefusal is_record sgf.now) }
{
    match read_tree(alloc, sgf) {
        Ok((main, _)) => refusal_of_main_line(alloc, &main, is_record),
        Err(SgfFault::NoMemory) => Err(NoMemory),
        Err(fault) => Ok(refusal_of_input(fault.code())),
    }
}

/// Says where the first tree of an input is refused, and answers the status.
pub fn explain(alloc: Global, sgf: &[u8], is_record: bool, refusal: &mut Refusal) -> u32
    ensures { IsExplained is_record sgf.now refusal.new result }
{
    match first_tree_refusal(alloc, sgf, is_record) {
        Ok(found) => {
            *refusal = found;
            if found.number == 0 { DONE } else { REFUSED }
        }
        Err(NoMemory) => {
            *refusal = refusal_of_input(0);
            NO_MEMORY
        }
    }
}
