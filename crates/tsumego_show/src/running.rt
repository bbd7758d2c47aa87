//! Reads an input and writes its text.
ghost use Rattle.std.specs.Prelude.{◌≡◌, false};
ghost use Rattle.devices.specs.Faults.{is_input_fault, is_output_fault};
ghost use Rattle.devices.specs.Watching.{TakesAtMost};
ghost use Rattle.devices.specs.Writing.{HoldsForInput};
ghost use Rattle.tsumego_show.specs.Writing.{WritesShown};

use crate::mode::Mode;
use crate::showing::show;
use crate::shown::ShowFault;
use devices::{RunFault, Watched, read_input, write_bytes};
use std::alloc::Global;
use std::io::{Read, Write};
use tt_sgf::MAX_BYTES;

/// One byte more than the longest input whose trees are read.
pub const MOST_READ: usize = MAX_BYTES + 1;

/// What is said where a game tree would read as another problem.
const OTHER_PROBLEM: &[u8] =
    b"tsumego-show: a game tree would read as another problem once it is written, so nothing was: please tell those who made this program\n";

/// Reads an input whole, or 1,048,577 bytes of a longer one, and writes its text and nothing else; `said` gets what is said beside. The
/// status is 1 where something was refused, else 0; and 2 where a game tree would read as another problem: then nothing is written.
///
/// Neither reader nor writer has failed before. `Input` comes exactly where a read failed, and then nothing is written;
/// `Output` exactly where a write failed or took no byte, and then a beginning of the text is written; after `Memory`
/// nothing is.
pub fn run<R: Read, W: Write>(
    alloc: Global,
    mode: Mode,
    reader: &mut Watched<R>,
    writer: &mut Watched<W>,
    said: &mut Vec<u8>,
) -> Result<u8, RunFault>
    requires reader { reader.old.failed ≡ false }
    requires writer { writer.old.failed ≡ false }
    ensures written { HoldsForInput (R.remaining reader.old.device) (λ input.
        WritesShown mode input result (W.contents writer.old.device) (W.contents writer.new.device)) }
    ensures taken { TakesAtMost MOST_READ (R.remaining reader.old.device) (R.remaining reader.new.device) }
    ensures input { reader.new.failed ≡ is_input_fault result }
    ensures output { writer.new.failed ≡ is_output_fault result }
{
    let input = read_input(alloc, reader, MOST_READ)?;
    match show(alloc, mode, input.as_slice()) {
        Ok(shown) => {
            let status = shown.status();
            *said = shown.said;
            write_bytes(writer, shown.text.as_slice())?;
            Ok(status)
        }
        Err(ShowFault::OtherProblem) if mode.writes_trees() => {
            let _ = said.extend_from_slice(OTHER_PROBLEM);
            Ok(2)
        }
        // Nothing else is read back, so it fails for want of memory alone.
        Err(_) => Err(RunFault::Memory),
    }
}
