//! Laws of what the program writes. Each is a function that does nothing, whose contract is the law.
ghost use Rattle.std.specs.Prelude.{◌≡◌, ℕ, Bool, List};
ghost use Rattle.tt_text.specs.Checking.{IsCheckText};
ghost use Rattle.tt_text.specs.Headline.{VerdictLinesAreTrue};
ghost use Rattle.tt_text.specs.Laws.{VerdictsAreValues};
ghost use Rattle.tt_text.specs.OtherLines.{CheckLinesAreTrue, ScoreLinesAreTrue, SolveLinesAreTrue};
ghost use Rattle.tt_text.specs.Scoring.{Scores};
ghost use Rattle.tt_text.specs.Trees.{IsTreesText};

/// An input has one text and one status that answer `score`.
pub fn one_score_text()
    ensures { (input s t : List ℕ) (m n : ℕ) → IsTreesText Scores input s m
        → IsTreesText Scores input t n → (s ≡ t) × (m ≡ n) }
{
    tt_sgf::laws::grammar_is_unambiguous();
}

/// An input has one text and one status that answer `check`, with `--parts` or without.
pub fn one_check_text()
    ensures { (parts : Bool) (input s t : List ℕ) (m n : ℕ) → IsCheckText parts input s m
        → IsCheckText parts input t n → (s ≡ t) × (m ≡ n) }
{
    tt_sgf::laws::grammar_is_unambiguous();
    tt_proof::laws::one_strategy_per_certificate();
    tt_parts::laws::one_outline_per_certificate();
    tt_parts::laws::one_answer_per_outline();
}

/// A verdict of `solve` that names a side says the problem's value. The turn that it shows keeps that value, and where it
/// shows none the winner isn't to move.
pub fn verdicts_are_values()
    ensures { VerdictsAreValues }
{}

/// Where a whole line of what `solve` wrote is a number, a blank and then `killed` or `lives`, the tree with that number is a
/// problem with that value. The turn that follows keeps it, and stands there exactly where the winner is to move. It holds of a
/// beginning of an output too.
pub fn verdict_lines_are_true()
    ensures { VerdictLinesAreTrue }
{}

/// Where a whole line of what `solve` wrote is a number, a blank, `unsettled` and a reason, the tree with that number is a problem
/// that is unsettled for that reason. The lines below a numbered one, up to the next, say what is so of that problem: a legal turn
/// and the value behind it; or they are a certificate that wins there.
pub fn solve_lines_are_true()
    ensures { SolveLinesAreTrue }
{}

/// Where a whole line of what `score` wrote is a number, a blank and then `black`, the tree with that number is a record, and the
/// line is its score.
pub fn score_lines_are_true()
    ensures { ScoreLinesAreTrue }
{}

/// Where a whole line of what `check` wrote is `valid`, the first tree is a problem, and what follows it is a certificate that wins
/// there, or with `--parts` one whose tree wins there or ends at life. So the problem has the value that it claims.
pub fn check_lines_are_true()
    ensures { CheckLinesAreTrue }
{}
