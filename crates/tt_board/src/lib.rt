//! Boards of Go under the Tromp-Taylor rules: colourings in which each stone reaches empty, moves that capture, and area scores.
//!
//! A board takes no memory but its own: `BoardDeltas` alone asks for some, and says where there is none.
//! A contract sees a board as a `Position`: its size, and its colouring as a list of entries, row by row.
//!
//! | Module | What it has |
//! |---|---|
//! | `colouring` | a colouring in twelve words; in its folder, the points beside those of a set, which of them reach something, what stands on them |
//! | `board` | `Board`: a colouring in which each stone reaches empty |
//! | `counted` | `CountedBoard`, on which one plays: its chains are counted |
//! | `boards` | `BoardDeltas`: boards one after another, kept by their differences |
//! | `setup`, `area` | stones put over a board, the area score |
//! | `near` | the points beside a point |
//! | `laws` | facts about the definitions |
#![tactic(auto)]

ghost use Rattle.std.specs.Prelude.{◌≡◌};
ghost use Rattle.tt_board.specs.Play.{other};

mod area;
mod board;
mod boards;
mod colouring;
mod counted;
pub mod laws;
mod near;
mod setup;

pub use board::{Board, Lifeless, Occupied};
pub use boards::board_deltas::BoardDeltas;
pub use colouring::around::{adjacent_points, first_column};
pub use colouring::fill::reaching;
pub use counted::CountedBoard;
pub use counted::play_kind::PlayKind;

/// The colour of a stone, and of the player who puts it.
#[derive(Clone, Copy, PartialEq, Eq, Hash)]
pub enum Colour {
    Black,
    White,
}

impl Colour {
    /// The other colour: the opponent's.
    pub fn other(self) -> Colour
        ensures { result ≡ other self }
    {
        match self {
            Colour::Black => Colour::White,
            Colour::White => Colour::Black,
        }
    }
}
