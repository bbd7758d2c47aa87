//! Writes bytes by single writes.
ghost use Rattle.std.specs.Prelude.{◌≡◌, ◌≢◌, IfErr, false};
ghost use Rattle.devices.specs.Writing.{WritesText};
ghost use Rattle.devices.specs.Faults.{is_output_fault};

use crate::fault::RunFault;
use crate::watched::Watched;
use std::io::Write;

/// Writes all of `bytes`. `Output` comes exactly where a write failed or took no byte, after a beginning of them.
pub fn write_bytes<W: Write>(writer: &mut Watched<W>, bytes: &[u8]) -> Result<(), RunFault>
    requires { writer.old.failed ≡ false }
    ensures written { WritesText bytes.now result (W.contents writer.old.device) (W.contents writer.new.device) }
    ensures failed { writer.new.failed ≡ is_output_fault result }
    ensures fault { IfErr result (λ e. e ≢ RunFault.Memory) }
{
    let mut at = 0;
    while at < bytes.len() {
        match writer.write(&bytes[at..]) {
            Ok(0) => return Err(RunFault::Output),
            Ok(count) => at += count,
            Err(_) => return Err(RunFault::Output),
        }
    }
    Ok(())
}
