//! Laws of what a run writes. Each is a function that does nothing, whose contract is the law.
ghost use Rattle.tsumego.specs.Headline.{VerdictsOfRunsAreTrue};
ghost use Rattle.tsumego.specs.OtherLines.{LinesOfRunsAreTrue};

/// Where a whole line of what `solve` wrote is a number, a blank and then `killed` or `lives`, the tree of the input with that
/// number is a problem with that value. The turn that follows keeps it, and stands there exactly where the winner is to move. So
/// it is for every input and every option, and however the run ended.
pub fn headline()
    ensures { VerdictsOfRunsAreTrue }
{
    tt_text::laws::verdict_lines_are_true();
}

/// The other lines are so too, however the run ended. Of `solve`: `unsettled` has the reason which it says; a line below says the
/// value behind a legal turn, or is a certificate that wins. Of `score`: the line is the record's score. Of `check`: `valid` stands
/// there only where what follows the problem is a certificate that wins there.
pub fn lines_of_runs_are_true()
    ensures { LinesOfRunsAreTrue }
{
    tt_text::laws::solve_lines_are_true();
    tt_text::laws::score_lines_are_true();
    tt_text::laws::check_lines_are_true();
}
