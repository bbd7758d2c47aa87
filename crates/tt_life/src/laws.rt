//! Laws of unconditional life, each the contract of a function that does nothing.

ghost use Rattle.tt_life.specs.Life.{LifeIsKept, LifeIsNeverTaken, LifeLives, WonOrLivesIsHeld};

/// Where the attacker plays in the region, stones that make the targets unconditionally alive stay so.
pub fn life_is_kept()
    ensures { LifeIsKept }
{}

/// Where the targets are unconditionally alive the attacker can't force a win, in any number of turns.
pub fn life_is_never_taken()
    ensures { LifeIsNeverTaken }
{}

/// At a state of the game where the targets are unconditionally alive the defender forces a win, so its value is that it lives.
pub fn life_lives()
    ensures { LifeLives }
{
    tt_game::laws::values_are_forced();
}

/// Where a side has won or lives, the other side can't force a win. The defender lives where the attacker is to move and the targets
/// are unconditionally alive.
pub fn won_or_lives_is_held()
    ensures { WonOrLivesIsHeld }
{}
