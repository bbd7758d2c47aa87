//! Parts of a proof that several certifiers make, before the caller's certifier makes the whole.

ghost use Rattle.std.specs.Prelude.{◌≡◌, ◌≤◌, IfOk};
ghost use Rattle.tt_proof.specs.declared.tree.TheConstants.{MOST_DEPTH};

use crate::rounds::{Workers, count_visits};
use std::thread::Threads;
use tt_dfpn::{Advisor, Certifier, Finding, SharedCertification};
use tt_game::{Line, Side};
use tt_sgf::NoMemory;

/// How many visits the caller's certifier has alone. Most proofs are made then, and need no threads. The number was chosen without a
/// measurement of others.
const CERTIFIER_VISITS_ALONE: u32 = 2_048;

/// Whether the caller's certifier makes the whole proof within its first visits. It keeps what it made.
pub(crate) fn certify_alone(
    certifier: &mut Certifier<Advisor>,
    line: &mut Line,
    side: Side,
    depth: u16,
) -> Result<bool, NoMemory>
    requires depth { depth ≤ MOST_DEPTH }
    ensures fewer { certifier.new.visits.left ≤ certifier.old.visits.left }
    ensures same { line.new ≡ line.old }
{
    let left = certifier.visits.left;
    let alone = left.min(CERTIFIER_VISITS_ALONE);
    certifier.visits.left = alone;
    let found = certifier.certify(line, side, depth);
    certifier.visits.left = left - (alone - certifier.visits.left);
    Ok(found?.is_some())
}

/// `NoMemory` where a certifier had none.
fn each_had_memory(findings: &[Finding<()>]) -> Result<(), NoMemory> {
    for one in findings {
        if one.found.is_err() {
            return Err(NoMemory);
        }
    }
    Ok(())
}

impl<R: Threads + Sync> Workers<'_, R> {
    /// Lets certifiers make the proof together, and hand what they made to the caller's, which keeps a share of the visits to put it
    /// together. `NoMemory` where memory was refused, also to one of them.
    pub(crate) fn certify_together(
        &self,
        certifier: &mut Certifier<Advisor>,
        line: &Line,
        side: Side,
        depth: u16,
    ) -> Result<(), NoMemory>
        requires depth { depth ≤ MOST_DEPTH }
        ensures fewer { certifier.new.visits.left ≤ certifier.old.visits.left }
    {
        let workers = self.workers();
        let share = certifier.visits.left / workers.saturating_add(1);
        let shared = SharedCertification::of(certifier, line, side, depth)?;
        let findings = self.run_workers(&shared, workers, share);
        shared.finish();
        let findings = findings?;
        let memory = each_had_memory(findings.as_slice());
        count_visits(findings, &mut certifier.visits);
        memory
    }
}
