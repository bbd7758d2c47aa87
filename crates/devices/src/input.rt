//! Reads the whole input.
ghost use Rattle.std.specs.Prelude.{◌≡◌, IfOk, false};
ghost use Rattle.devices.specs.Watching.{IsReadInput, TakesAtMost};
ghost use Rattle.devices.specs.Faults.{is_input_fault, is_output_fault};

use crate::fault::RunFault;
use crate::watched::Watched;
use std::alloc::Global;
use std::io::Read;

const CHUNK: usize = 4096;

/// Reads to the end, or up to `most` bytes. `Input` comes exactly where a read failed, and `Memory` where memory was refused.
pub fn read_input<R: Read>(
    alloc: Global,
    reader: &mut Watched<R>,
    most: usize,
) -> Result<Vec<u8>, RunFault>
    requires { reader.old.failed ≡ false }
    ensures read { IfOk result
        (λ input. IsReadInput most (R.remaining reader.old.device) input.items) }
    ensures taken { TakesAtMost most (R.remaining reader.old.device) (R.remaining reader.new.device) }
    ensures failed { reader.new.failed ≡ is_input_fault result }
    ensures fault { is_output_fault result ≡ false }
{
    let mut input = Vec::new(alloc);
    let mut chunk = [0u8; CHUNK];
    while input.len() < most {
        let room = CHUNK.min(most - input.len());
        match reader.read(&mut chunk[..room]) {
            Ok(0) => break,
            Ok(count) => {
                if input.extend_from_slice(&chunk[..count]).is_err() {
                    return Err(RunFault::Memory);
                }
            }
            Err(_) => return Err(RunFault::Input),
        }
    }
    Ok(input)
}
