//! Laws of the grammar. Each is a function that does nothing, whose contract is the law.

ghost use Rattle.std.specs.Prelude.{◌≡◌, ℕ, List, ◌++◌};
ghost use Rattle.tt_sgf.specs.Grammar.{GameTree, Spells, GrammarIsUnambiguous};

/// A text spells one tree, and no tree's text is a proper beginning of another's.
pub fn tree_texts_are_prefix_free()
    ensures { (a b : List ℕ) (s t : GameTree) (x y : List ℕ) → Spells a s → Spells b t
        → a ++ x ≡ b ++ y → (a ≡ b) × (s ≡ t) }
{}

/// The bytes spell one tree at most from their first `(` on, and it has one end: what `read_tree` answers is a
/// function of the bytes.
pub fn grammar_is_unambiguous()
    ensures { GrammarIsUnambiguous }
{}
