//! Grants of a desk, asked for through a seat.
ghost use Rattle.std.specs.Prelude.{◌≡◌, ◌||◌, []};
ghost use Rattle.tt_share.specs.Seats.{DeskModel, SeatModel, seat_of};
ghost use Rattle.tt_share.specs.inside.Tallies.{Tallies, source_of};

use crate::desk::{Desk, Seat};
use tt_search::Grants;

/// A seat with its desk, through which searches ask for their expansions, one search after the other.
#[derive(Drop)]
pub(crate) struct SeatGrants<'a> {
    pub desk: &'a Desk,
    pub seat: Seat,
    pub granted: u64,
    pub refused: bool,
    ghost ours: { seat.desk ≡ desk.now.id },
    ghost tally: { Tallies desk.now.total seat.grants granted refused },
}

impl<'a> SeatGrants<'a> {
    /// A seat of the desk that hasn't asked yet.
    pub fn new(desk: &'a Desk, seat: Seat) -> SeatGrants<'a>
        requires desk { seat.desk ≡ desk.now.id }
        requires fresh { seat.grants ≡ [] }
        ensures desk { result.desk.now ≡ desk.now }
        ensures seat { result.seat ≡ seat }
        ensures granted { result.granted ≡ 0 }
    {
        SeatGrants {
            desk,
            seat,
            granted: 0,
            refused: false,
        }
    }

    /// Raises the flag where a job was settled for the side to move.
    pub fn raise_flag_if(&mut self, won: bool)
        ensures desk { self.new.desk.now ≡ self.old.desk.now }
        ensures counts { (self.new.granted ≡ self.old.granted)
            × (self.new.refused ≡ self.old.refused) }
        ensures seat { self.new.seat
            ≡ seat_of self.old.seat.desk self.old.seat.numbers self.old.seat.grants (self.old.seat.flag || won) self.old.seat.saw_flag }
    {
        if won {
            self.desk.raise(&mut self.seat);
        }
    }

    /// The seat.
    pub fn into_seat(self) -> Seat
        ensures { result ≡ self.entry.seat }
    {
        let SeatGrants { seat, .. } = self;
        seat
    }
}

impl<'a> Grants for SeatGrants<'a> {
    ghost asked = { λ g. record { granted = g.granted; refused = g.refused } };

    ghost Source = { DeskModel × SeatModel };

    ghost source = { λ g. source_of g.desk.now g.seat };

    fn ask(&mut self) -> bool {
        if self.refused {
            return false;
        }
        let granted = self.desk.grant(&mut self.seat);
        if granted {
            self.granted += 1;
        } else {
            self.refused = true;
        }
        granted
    }

    fn granted(&self) -> u64 {
        self.granted
    }

    fn refused(&self) -> bool {
        self.refused
    }
}
