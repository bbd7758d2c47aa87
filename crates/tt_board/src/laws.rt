//! Laws of the definitions, each the contract of a function that does nothing.

ghost use Rattle.tt_board.specs.BoardLaws.{ReachesTestIsExact};

/// The test `reaches` of the definitions is true exactly of the points from which a path leads.
pub fn reaches_test_is_exact()
    ensures { ReachesTestIsExact }
{}
