//! Several certifiers of one problem: each makes the whole proof in a thread of its own, and they share what they made.

ghost use Rattle.std.specs.Prelude.{◌≡◌, ◌≤◌, IfOk};
ghost use Rattle.tt_proof.specs.declared.tree.TheConstants.{MOST_DEPTH};

use crate::advice::VisitsLeft;
use crate::certifier::Certifier;
use crate::finder::{Advisor, Finding, SharedSearch, SharedWork};
use crate::shared_proofs::SharedProofs;
use std::sync::Arc;
use tt_game::{Line, Side};
use tt_sgf::NoMemory;

/// The room for positions that searches beside a certifier have.
const ADVICE_POSITIONS: u32 = 262_144;

/// A proof that certifiers make together: each worker is a certifier. The first that has the whole proof ends all.
#[derive(Drop)]
pub struct SharedCertification<'a> {
    search: SharedSearch<'a>,
    proofs: Arc<SharedProofs>,
    side: Side,
    depth: u16,
    may_end_at_life: bool,
    ghost shallow: { depth ≤ MOST_DEPTH },
}

impl<'a> SharedCertification<'a> {
    /// The proof that the side wins at the line, which certifiers are to make that go on from what this one knows.
    pub fn of(
        certifier: &mut Certifier<Advisor>,
        line: &'a Line,
        side: Side,
        depth: u16,
    ) -> Result<SharedCertification<'a>, NoMemory>
        requires depth { depth ≤ MOST_DEPTH }
        ensures same { certifier.new.visits ≡ certifier.old.visits }
    {
        let search = certifier.advice.shared_search(line, ADVICE_POSITIONS)?;
        let proofs = certifier.memo.share()?;
        proofs.set_ended(false);
        Ok(SharedCertification {
            search,
            proofs,
            side,
            depth,
            may_end_at_life: certifier.memo.may_end_at_life,
        })
    }

    /// The certifier of a number, which has made nothing.
    fn certifier(&self, worker: u32, most: u32) -> Result<Certifier<Advisor>, NoMemory>
        ensures { IfOk result (λ c. c.visits.left ≡ most) }
    {
        let advisor = self.search.advisor(worker)?;
        let visits = VisitsLeft { left: most };
        let mut certifier = Certifier::new(
            self.search.alloc(),
            advisor,
            self.may_end_at_life,
            self.search.line().history().len(),
            visits,
        )?;
        certifier.memo.share_with(&self.proofs)?;
        Ok(certifier)
    }

    /// Makes the proof, where no other certifier has it first.
    fn certify(&self, certifier: &mut Certifier<Advisor>) -> Result<(), NoMemory>
        ensures fewer { certifier.new.visits.left ≤ certifier.old.visits.left }
    {
        let mut line = self.search.line().try_clone()?;
        let found = certifier.certify(&mut line, self.side, self.depth)?;
        if found.is_some() {
            self.proofs.set_ended(true);
            self.search.set_ended();
        }
        Ok(())
    }

    /// Lets a certifier go on that shares these proofs.
    pub fn finish(self) {
        self.proofs.set_ended(false);
    }
}

impl SharedWork for SharedCertification<'_> {
    /// What a certifier finds it keeps for all.
    type Found = ();

    // Not inlined, so that the levels at which threads fork have small frames.
    #[inline(never)]
    fn run_worker(&self, worker: u32, most: u32) -> Finding<()> {
        match self.certifier(worker, most) {
            Ok(mut certifier) => {
                let found = self.certify(&mut certifier);
                Finding {
                    found,
                    visited: most - certifier.visits.left,
                }
            }
            Err(NoMemory) => Finding {
                found: Err(NoMemory),
                visited: 0,
            },
        }
    }
}
