//! Leave to expand a node, which a search asks for before each expansion.

ghost use Rattle.std.specs.Prelude.{◌≡◌, ◌+◌, ◌-◌, ◌<◌, ◌^◌, true, false};
ghost use Rattle.tt_search.specs.Grants.{GrantTally, IsAnswerToAsk};

use std::marker::Model;

/// Who grants expansions. Several searches may ask of one source, so that all of them together stay below a bound.
pub trait Grants {
    // How many asks were granted through it, and whether one was refused.
    ghost asked: { Self → GrantTally };
    // What no ask changes.
    ghost Source: { Type 0 } = { Unit {0} };

    ghost source: { Self → Source };

    /// Whether one more expansion is granted, which then counts. Once an ask was refused, so is each later one.
    fn ask(&mut self) -> bool
        requires { (asked self.old).granted < 2 ^ 64 - 1 }
        ensures answer { IsAnswerToAsk (asked self.old) result (asked self.new) }
        ensures source { source self.new ≡ source self.old };

    /// How many asks were granted.
    fn granted(&self) -> u64
        ensures { result ≡ (asked self.now).granted };

    /// Whether an ask was refused.
    fn refused(&self) -> bool
        ensures { result ≡ (asked self.now).refused };
}

/// Grants each ask, and counts them. It takes no memory.
#[derive(Debug, Drop)]
pub struct Free {
    count: u64,
}

impl Model for Free {
    ghost use Rattle.std.specs.Prelude.{ℕ};

    ghost Value = { ℕ };

    ghost view = { λ f. f.count };
}

impl Free {
    /// One that has not been asked.
    pub fn new() -> Free
        ensures { result ≡ 0 }
    {
        Free { count: 0 }
    }
}

impl Grants for Free {
    ghost asked = { λ f. record { granted = f; refused = false } };

    ghost source = { λ _. tt };

    fn ask(&mut self) -> bool
        requires { self.old < 2 ^ 64 - 1 }
        ensures always { result ≡ true }
        ensures counted { self.new ≡ self.old + 1 }
    {
        self.count += 1;
        true
    }

    fn granted(&self) -> u64 {
        self.count
    }

    fn refused(&self) -> bool
        ensures never { result ≡ false }
    {
        false
    }
}
