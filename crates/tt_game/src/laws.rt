//! Laws of the definitions: each stands as the contract of a function without parameters.

ghost use Rattle.tt_game.specs.GameLaws.{AtMostOneSideForces, SomeSideForces, ValuesAreForced, TurnsKeepStates, LegalTurnsAreListed, ProblemsHaveNoWinner, ProblemsAreStates};
ghost use Rattle.tt_game.specs.Keys.{SameKeyIffAlike};
ghost use Rattle.tt_game.specs.RecordLaws.{RecordsAreGames, ProblemsAreGames, SetupsBeginHistories, FirstRefusalDecides, FirstProblemRefusalDecides};
ghost use Rattle.tt_game.specs.RecordLaws.{BadValuesAreThere, FaultPointsAreOnBoard, TargetsAreTheDefenders, RefusalsCarryToProblems, UnmarkedAreNoProblems, RepeatsTestIsExact};

/// Not both sides force a win at one state.
pub fn l2()
    ensures { AtMostOneSideForces }
{}

/// At a state whose colourings fit the board, with two passes at most, one side forces a win, within twice as many turns as there
/// are colourings of the board.
pub fn l4()
    ensures { SomeSideForces }
{}

/// A state whose colourings fit the board, with two passes at most, is killed exactly where the attacker can force a win, and lives
/// exactly where the defender can: in any number of turns, or within twice as many as there are colourings of the board.
pub fn values_are_forced()
    ensures { ValuesAreForced }
{}

/// A legal turn leads from a state whose colourings fit the board, with two passes at most, to another such state.
pub fn turns_keep_states()
    ensures { TurnsKeepStates }
{}

/// The list of the legal turns holds them all and no others, in rising order.
pub fn legal_turns_are_listed()
    ensures { LegalTurnsAreListed }
{}

/// Positions have one key exactly where they look alike.
pub fn same_key_iff_alike()
    ensures { SameKeyIffAlike }
{}

/// Nobody has won at a problem.
pub fn problems_have_no_winner()
    ensures { ProblemsHaveNoWinner }
{}

/// The state of a problem is of those that `l4` and `values_are_forced` speak of: its colourings fit the board, and the passes are
/// two at most.
pub fn problems_are_states()
    ensures { ProblemsAreStates }
{}

/// The history of a record's game is by the rules: each colouring but the first is a play's on the one before it, and none
/// stands in it twice. The turns, implied passes among them, are 2,000 at most.
pub fn records_are_games()
    ensures { RecordsAreGames }
{}

/// So is the history of a problem.
pub fn problems_are_games()
    ensures { ProblemsAreGames }
{}

/// A setup begins the history anew with one colouring, and no other node takes a colouring from it.
pub fn setups_begin_histories()
    ensures { SetupsBeginHistories }
{}

/// A record's refusal is that of its least node that has one: the nodes before it are a record, and what stands behind it
/// changes nothing.
pub fn first_refusal_decides()
    ensures { FirstRefusalDecides }
{}

/// So is a problem's refusal, but for want of a target: no node before the refused one marks a target, and those nodes are a
/// record.
pub fn first_problem_refusal_decides()
    ensures { FirstProblemRefusalDecides }
{}

/// Where a refusal says that a value can't be read, the value is there: it is the first one under its name in that node that the
/// rule of its property doesn't read.
pub fn bad_values_are_there()
    ensures { BadValuesAreThere }
{}

/// The point that a refusal names is on the board whose size the first node gives.
pub fn fault_points_are_on_board()
    ensures { FaultPointsAreOnBoard }
{}

/// Where a record is refused and none of its nodes marks a target, the problem of each main line that begins so is refused
/// alike.
pub fn refusals_carry_to_problems()
    ensures { RefusalsCarryToProblems }
{}

/// A main line without a marked target whose nodes are taken as a record is no problem.
pub fn unmarked_are_no_problems()
    ensures { UnmarkedAreNoProblems }
{}

/// On each target of a problem stands a stone of the defender.
pub fn targets_are_the_defenders()
    ensures { TargetsAreTheDefenders }
{}

/// The test of superko is true exactly where the colouring is in the history.
pub fn repeats_test_is_exact()
    ensures { RepeatsTestIsExact }
{}
