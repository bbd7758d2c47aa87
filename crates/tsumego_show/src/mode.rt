//! What is written on each problem.
ghost use Rattle.std.specs.Prelude.{◌↔◌, IsTrue};
ghost use Rattle.tsumego_show.specs.Writing.{WritesTrees};

/// What is written: pictures of characters, diagrams as SVG, or game trees of SGF: with variations to so many turns, or
/// to as many as there is room for, or with marks.
#[derive(Clone, Copy)]
pub enum Mode {
    Picture,
    Diagram,
    Variations(Option<usize>),
    Marks(WantedMarks),
}

impl Mode {
    /// Whether game trees are written, which are read back.
    pub fn writes_trees(&self) -> bool
        ensures { IsTrue result ↔ WritesTrees self.now }
    {
        match self {
            Mode::Picture | Mode::Diagram => false,
            Mode::Variations(_) | Mode::Marks(_) => true,
        }
    }
}

/// What the command line asks for: what is written, and the files that are read; without one standard input is.
#[derive(Drop)]
pub struct Asked<'a> {
    pub mode: Mode,
    pub files: Vec<&'a str>,
}

/// Which marks are wanted: for the stone in a place or for any, and whether stones may be added that close its wall.
#[derive(Clone, Copy)]
pub struct WantedMarks {
    pub name: Option<PointName>,
    pub closes: bool,
}

/// A point by its column and row. Columns count from 0 on the left; rows from 0 above as in SGF, or from 1 below as in editors.
#[derive(Clone, Copy)]
pub enum PointName {
    FromAbove(usize, usize),
    FromBelow(usize, usize),
}
