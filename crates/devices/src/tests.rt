//! Texts that no contract says.

use crate::fault::RunFault;
use std::test::Fail;

#[test]
fn names_faults(rt: HostRuntime) -> Result<(), Fail> {
    let alloc = rt.alloc();
    for (fault, want) in [
        (RunFault::Input, "input"),
        (RunFault::Output, "output"),
        (RunFault::Memory, "memory"),
    ] {
        let text = format!(in alloc; "{fault}")?;
        assert!(rt; text.as_str() == want, "{want}");
    }
    Ok(())
}
