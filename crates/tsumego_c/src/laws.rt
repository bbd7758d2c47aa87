//! What the lines on the first tree are to a run of the program, and what is said of its refusal to this line. Each is a function that
//! does nothing, whose contract is the law.
ghost use Rattle.std.specs.Prelude.{false, true};
ghost use Rattle.tt_solve.specs.declared.options.Options.{Options};
ghost use Rattle.tt_text.specs.Scoring.{Scores};
ghost use Rattle.tt_text.specs.Solving.{Solves};
ghost use Rattle.tsumego_c.specs.First.{FirstTextIsWholeText};
ghost use Rattle.tsumego_c.specs.Refusals.{ExplainsTheLine};

/// Where no other tree follows, the lines on the first one, with their status, are what a run of the program answers to the input.
pub fn first_text_is_whole_text()
    ensures score { FirstTextIsWholeText Scores }
    ensures solve { (options : Options) → FirstTextIsWholeText (Solves options) }
{}

/// What is said of the first tree's refusal has the number that the line on this tree names.
pub fn explanations_are_of_the_line()
    ensures score { ExplainsTheLine true Scores }
    ensures solve { (options : Options) → ExplainsTheLine false (Solves options) }
{
    tt_sgf::laws::grammar_is_unambiguous();
}
