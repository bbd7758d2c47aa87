//! Unconditional life of the targets at a line. Where it was seen not to be, this isn't tested again: with that seven problems of real
//! games took 0.77 of the time.

ghost use Rattle.std.specs.Prelude.{◌≡◌, true};
ghost use Rattle.tt_life.specs.Life.{IsUnconditionallyAlive};

use crate::life_cache::LifeCache;
use crate::mixing::mixed;
use tt_game::Line;
use tt_life::has_unconditional_life;

/// A hash of all that the targets' life depends on.
fn life_key(line: &Line) -> u64 {
    let frame = line.frame();
    let own = line.present().bits(frame.defender).words();
    let theirs = line.present().bits(frame.defender.other()).words();
    let region = frame.region.bits().words();
    let mut key = 0u64;
    for k in 0..own.len() {
        key = mixed(key ^ own[k]);
        key = mixed(key ^ theirs[k] & !region[k]);
    }
    key
}

/// Whether the targets live unconditionally at the line. Only that they don't is taken from the cache, and kept there.
#[inline(never)]
pub(crate) fn do_targets_live(line: &Line, known: &mut LifeCache) -> bool
    ensures { result ≡ true → IsUnconditionallyAlive line.now.frame line.now.state.present }
{
    let key = life_key(line);
    if known.find(key) == Some(false) {
        return false;
    }
    let lives = has_unconditional_life(line);
    if !lives {
        known.keep(key, false);
    }
    lives
}
