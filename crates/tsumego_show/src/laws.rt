//! The law of the exit status. It is a function that does nothing, whose contract is the law.
ghost use Rattle.tsumego_show.specs.Shown.{InputHasOneStatus};

/// An input has one status, unless stones may be added.
pub fn input_has_one_status()
    ensures { InputHasOneStatus }
{
    tt_sgf::laws::grammar_is_unambiguous();
}
