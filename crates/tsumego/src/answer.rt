//! Writes the answer to an input.
ghost use Rattle.std.specs.Prelude.{◌≡◌, IfOk, false};
ghost use Rattle.devices.specs.Faults.{is_input_fault, is_output_fault};
ghost use Rattle.devices.specs.Watching.{TakesAtMost};
ghost use Rattle.devices.specs.Writing.{HoldsForInput, WritesText};
ghost use Rattle.tsumego.specs.CommandLine.{IsInRange};
ghost use Rattle.tsumego.specs.inside.Lines.{WritesOutcome};
ghost use Rattle.tsumego.specs.Tasks.{MakesOutcome};
ghost use Rattle.tt_text.specs.Trees.{outcome_line};
ghost use Rattle.tsumego.specs.Writing.{CommandWrites, WritesAnswer};

use crate::progress::{NoProgress, Progress};
use crate::request::Command;
use crate::task::{InputTask, InputTree, TreeTask, task_of};
use devices::{RunFault, Watched, read_input, write_bytes};
use std::alloc::Global;
use std::io::{Read, Write};
use std::sync::Wait;
use std::thread::Threads;
use tt_sgf::{MAX_BYTES, SgfFault, has_tree, read_tree};
use tt_text::{TreeOutcome, check_input, outcome_line};

/// One byte more than the longest input whose trees are read.
const MOST_READ: usize = MAX_BYTES + 1;

/// Writes the lines of one outcome.
fn write_outcome_line<W: Write>(
    alloc: Global,
    writer: &mut Watched<W>,
    number: usize,
    outcome: &TreeOutcome,
) -> Result<(), RunFault>
    requires { writer.old.failed ≡ false }
    ensures written { WritesText (outcome_line number outcome.now) result (W.contents writer.old.device) (W.contents writer.new.device) }
    ensures failed { writer.new.failed ≡ is_output_fault result }
{
    match outcome_line(alloc, number, outcome) {
        Ok(text) => write_bytes(writer, text.as_slice()),
        Err(_) => Err(RunFault::Memory),
    }
}

/// Writes what becomes of a tree, and says whether it was refused.
fn answer_tree<X: Threads + Wait + Sync, W: Write, P: Progress>(
    rt: &X,
    alloc: Global,
    task: &TreeTask,
    tree: &InputTree,
    writer: &mut Watched<W>,
    progress: &P,
) -> Result<bool, RunFault>
    requires { writer.old.failed ≡ false }
    ensures written { WritesOutcome (MakesOutcome task.now) tree.now.number tree.now.main.nodes result (W.contents writer.old.device) (W.contents writer.new.device) }
    ensures failed { writer.new.failed ≡ is_output_fault result }
{
    let Ok(outcome) = task.perform(rt, alloc, tree, progress) else {
        return Err(RunFault::Memory);
    };
    write_outcome_line(alloc, writer, tree.number, &outcome)?;
    Ok(outcome.is_refused())
}

/// Refuses what is left of an input, and answers the status.
fn write_refusal<W: Write>(
    alloc: Global,
    writer: &mut Watched<W>,
    number: usize,
    code: u8,
) -> Result<u8, RunFault>
    requires { writer.old.failed ≡ false }
    ensures written { WritesText (outcome_line number (TreeOutcome.Refused code)) result (W.contents writer.old.device) (W.contents writer.new.device) }
    ensures status { IfOk result (λ status. status ≡ 1) }
    ensures failed { writer.new.failed ≡ is_output_fault result }
{
    write_outcome_line(alloc, writer, number, &TreeOutcome::Refused(code))?;
    Ok(1)
}

/// Answers the trees of an input one after the other.
fn answer_trees<X: Threads + Wait + Sync, W: Write, P: Progress>(
    rt: &X,
    alloc: Global,
    task: &TreeTask,
    input: &[u8],
    writer: &mut Watched<W>,
    progress: &P,
) -> Result<u8, RunFault>
    requires { writer.old.failed ≡ false }
    ensures written { WritesAnswer (InputTask.Trees task.now) input.now result (W.contents writer.old.device) (W.contents writer.new.device) }
    ensures reading { is_input_fault result ≡ false }
    ensures failed { writer.new.failed ≡ is_output_fault result }
{
    let mut rest = input;
    let mut number = 1;
    let mut refused = false;
    while number == 1 || has_tree(rest) {
        match read_tree(alloc, rest) {
            Ok((main, bytes)) => {
                rest = &rest[bytes..];
                let tree = InputTree {
                    number,
                    main,
                    bytes,
                };
                let bad = answer_tree(rt, alloc, task, &tree, writer, progress)?;
                refused |= bad;
                number += 1;
            }
            Err(SgfFault::NoMemory) => return Err(RunFault::Memory),
            Err(fault) => return write_refusal(alloc, writer, number, fault.code()),
        }
    }
    Ok(if refused { 1 } else { 0 })
}

/// Answers the certificate of an input, which may share parts where that is said.
fn answer_check<W: Write>(
    alloc: Global,
    parts: bool,
    input: &[u8],
    writer: &mut Watched<W>,
) -> Result<u8, RunFault>
    requires { writer.old.failed ≡ false }
    ensures written { WritesAnswer (InputTask.Check parts) input.now result (W.contents writer.old.device) (W.contents writer.new.device) }
    ensures reading { is_input_fault result ≡ false }
    ensures failed { writer.new.failed ≡ is_output_fault result }
{
    let Ok(finding) = check_input(alloc, parts, input) else {
        return Err(RunFault::Memory);
    };
    let Ok(text) = finding.check_line(alloc) else {
        return Err(RunFault::Memory);
    };
    write_bytes(writer, text.as_bytes())?;
    Ok(finding.status())
}

/// Answers an input by what is done with it.
fn answer<X: Threads + Wait + Sync, W: Write, P: Progress>(
    rt: &X,
    alloc: Global,
    task: InputTask,
    input: &[u8],
    writer: &mut Watched<W>,
    progress: &P,
) -> Result<u8, RunFault>
    requires { writer.old.failed ≡ false }
    ensures written { WritesAnswer task input.now result (W.contents writer.old.device) (W.contents writer.new.device) }
    ensures reading { is_input_fault result ≡ false }
    ensures failed { writer.new.failed ≡ is_output_fault result }
{
    match task {
        InputTask::Trees(task) => answer_trees(rt, alloc, &task, input, writer, progress),
        InputTask::Check { parts } => answer_check(alloc, parts, input, writer),
    }
}

/// Runs a command on an input as `run` does, and tells how far its problems are.
pub fn run_telling<X: Threads + Wait + Sync, R: Read, W: Write, P: Progress>(
    rt: &X,
    alloc: Global,
    command: &Command,
    reader: &mut Watched<R>,
    writer: &mut Watched<W>,
    progress: &P,
) -> Result<u8, RunFault>
    requires in_range { IsInRange command.now }
    requires reader { reader.old.failed ≡ false }
    requires writer { writer.old.failed ≡ false }
    ensures written { HoldsForInput (R.remaining reader.old.device) (λ input.
        CommandWrites command.now input result (W.contents writer.old.device) (W.contents writer.new.device)) }
    ensures taken { TakesAtMost MOST_READ (R.remaining reader.old.device) (R.remaining reader.new.device) }
    ensures input { reader.new.failed ≡ is_input_fault result }
    ensures output { writer.new.failed ≡ is_output_fault result }
{
    let task = task_of(command);
    let input = read_input(alloc, reader, MOST_READ)?;
    answer(rt, alloc, task, input.as_slice(), writer, progress)
}

/// Runs a command on an input: reads it whole, or 1,048,577 bytes of a longer one, and writes its answer and nothing
/// else. The status is 1 where something was refused or the certificate is invalid, else 0.
///
/// The options of `Solve` lie in their ranges, and neither reader nor writer has failed before. `Input` comes exactly where a
/// read failed, and then nothing is written; `Output` exactly where a write failed or took no byte, and then a beginning of the
/// answer is written; after `Memory` the whole lines of earlier trees are written, or nothing.
pub fn run<X: Threads + Wait + Sync, R: Read, W: Write>(
    rt: &X,
    alloc: Global,
    command: &Command,
    reader: &mut Watched<R>,
    writer: &mut Watched<W>,
) -> Result<u8, RunFault>
    requires in_range { IsInRange command.now }
    requires reader { reader.old.failed ≡ false }
    requires writer { writer.old.failed ≡ false }
    ensures written { HoldsForInput (R.remaining reader.old.device) (λ input.
        CommandWrites command.now input result (W.contents writer.old.device) (W.contents writer.new.device)) }
    ensures taken { TakesAtMost MOST_READ (R.remaining reader.old.device) (R.remaining reader.new.device) }
    ensures input { reader.new.failed ≡ is_input_fault result }
    ensures output { writer.new.failed ≡ is_output_fault result }
{
    run_telling(rt, alloc, command, reader, writer, &NoProgress)
}
