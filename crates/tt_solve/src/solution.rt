//! What solving a problem gives.
ghost use Rattle.std.specs.Prelude.{◌≡◌, ◌↔◌, IsTrue};
ghost use Rattle.tt_solve.specs.inside.Lengths.{IsCertificateWithin};
ghost use Rattle.tt_solve.specs.Solutions.{value_of};

use tt_game::{Side, Turn};
use tt_search::Reason;
use tt_sgf::ItemList;

/// What is found of a problem.
#[derive(Drop)]
pub enum Solution {
    /// The side wins. Its first turn is there exactly where it is to move, and a certificate where one is asked for.
    Settled {
        side: Side,
        first: Option<Turn>,
        certificate: Option<ItemList<u8>>,
    },
    /// No win was found, for this reason.
    Unsettled(Reason),
}

impl Solution {
    /// The side that wins, or why that isn't known.
    pub fn value(&self) -> Result<Side, Reason>
        ensures { result ≡ value_of self.now }
    {
        match self {
            Solution::Settled { side, .. } => Ok(*side),
            Solution::Unsettled(reason) => Err(*reason),
        }
    }

    /// Whether its certificate, where it has one, takes at most so many bytes.
    pub(crate) fn has_certificate_within(&self, most_bytes: usize) -> bool
        ensures { IsTrue result ↔ IsCertificateWithin most_bytes self.now }
    {
        match self {
            Solution::Settled {
                certificate: Some(bytes),
                ..
            } => bytes.as_slice().len() <= most_bytes,
            _ => true,
        }
    }
}

/// The solution of a problem, and for each legal turn which side wins behind it, or why that isn't known, where these are asked for.
#[derive(Drop)]
pub struct Solved {
    pub solution: Solution,
    pub turn_values: Vec<(Turn, Result<Side, Reason>)>,
}
