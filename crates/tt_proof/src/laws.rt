//! Laws of trees and of certificates, over the definitions alone.

ghost use Rattle.tt_proof.specs.StrategyLaws.{WinningStrategyForces, StrategyToLifeForces, WinsAreWinsOrLives, FittingTreesWin, FittingTreesWinOrLive, FootprintsCarryOverIfUnmet};
ghost use Rattle.tt_proof.specs.StrategyLaws.{NeedsLosePlayedColouring, OneStrategyPerTextPrefix, OneStrategyPerCertificate, StrategyOfEquations};

/// A winning tree of depth n makes its side force a win within n turns.
pub fn l1()
    ensures { WinningStrategyForces }
{}

/// Where a tree wins that may end at life, the other side can't force a win, in any number of turns. So at a state of the game the tree's
/// side forces one, within twice as many turns as there are colourings of the board.
pub fn strategy_to_life_forces()
    ensures { StrategyToLifeForces }
{}

/// A tree that wins also wins where it may end at life. For the attacker no other tree does: a kill never ends at life.
pub fn wins_are_wins_or_lives()
    ensures { WinsAreWinsOrLives }
{}

/// A tree that wins from one state wins from each state that it fits, whatever the path there.
pub fn l3()
    ensures { FittingTreesWin }
{}

/// So does a tree that may end at life.
pub fn fitting_trees_win_or_live()
    ensures { FittingTreesWinOrLive }
{}

/// A footprint may be taken to another history without a walk through its tree: where the tree fits, and the history has no
/// colouring that a turn makes which the tree answers, the tree needs and avoids there what it did. What both histories have
/// needs no look: a board that is in the tree's own history is made by no such turn.
pub fn footprints_carry_over_if_unmet()
    ensures { FootprintsCarryOverIfUnmet }
{}

/// What a tree needs is joined from what its children need: the child of a play needs in the history from before the play
/// what it needs in its own, less the colouring that the play made.
pub fn needs_lose_played_colouring()
    ensures { NeedsLosePlayedColouring }
{}

/// A text is of one tree, and no tree's text goes on to be another's.
pub fn one_strategy_per_text_prefix()
    ensures { OneStrategyPerTextPrefix }
{}

/// Bytes are the certificate of one side and one tree at the most.
pub fn one_strategy_per_certificate()
    ensures { OneStrategyPerCertificate }
{}

/// A tree is the strategy that its form says: nothing more to play, a turn and what its child is, or an answer to each turn of
/// its list.
pub fn strategy_of_equations()
    ensures { StrategyOfEquations }
{}
