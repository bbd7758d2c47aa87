//! Outlines: strategy trees in which a part is written once and named.

ghost use Rattle.std.specs.Prelude.{◌≡◌, [], IfOk};
ghost use Rattle.tt_parts.specs.Outlines.{picked, replied, outline_of, branches_of_reply, unfolded};
ghost use Rattle.tt_proof.specs.ProofClaim.{first_turn_of};

use std::alloc::Global;
use std::sync::Arc;
use tt_game::Turn;
use tt_sgf::NoMemory;

/// What a certificate with shared parts writes. The flag of a tree says that it has a name; names are numbers, in the order in
/// which the named trees end.
#[derive(Drop)]
pub enum Outline {
    /// Nothing more: somebody has won, or the targets are unconditionally alive.
    Done,
    /// The side plays this turn, and goes on with the outline.
    Pick(bool, Turn, Arc<Outline>),
    /// The other side plays; each turn, rising by their numbers, with the outline that answers it.
    Reply(bool, Arc<Vec<(Turn, Outline)>>),
    /// The tree with this name.
    Part(usize),
}

impl Outline {
    /// The outline that plays the turn and goes on with the child.
    #[tactic(auto, using(crate::proofs::OutlineLemmas::outline_of_pick))]
    pub(crate) fn pick(
        alloc: Global,
        named: bool,
        turn: Turn,
        child: Outline,
    ) -> Result<Outline, NoMemory>
        ensures { IfOk result (λ o. outline_of o ≡ picked named turn (outline_of child)) }
    {
        Ok(Outline::Pick(named, turn, Arc::new(alloc, child)?))
    }

    /// The outline that answers each of the listed turns with its own outline.
    #[tactic(auto, using(crate::proofs::OutlineLemmas::outline_of_reply))]
    pub(crate) fn reply(
        alloc: Global,
        named: bool,
        branches: Vec<(Turn, Outline)>,
    ) -> Result<Outline, NoMemory>
        ensures { IfOk result
            (λ o. outline_of o ≡ replied named (branches_of_reply branches.items)) }
    {
        Ok(Outline::Reply(named, Arc::new(alloc, branches)?))
    }

    /// The turn that the tree begins with, where it plays one at once.
    pub(crate) fn first(&self) -> Option<Turn>
        ensures { result ≡ first_turn_of (unfolded [] (outline_of self.now)) }
    {
        match self {
            Outline::Pick(_, turn, _) => Some(*turn),
            Outline::Done => None,
            Outline::Reply(_, _) => None,
            Outline::Part(_) => None,
        }
    }
}
