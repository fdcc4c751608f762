//! Laws of tokens, each a function without a body.

ghost use Rattle.std.specs.Prelude.{Bool, ℕ, List};
ghost use Rattle.silq_lex.specs.Longest.{longest};
ghost use Rattle.silq_lex.specs.Laws.{IsLongest};

/// What is called the longest front is one: it passes the test, and no longer front does.
pub fn longest_front_is_longest()
    ensures { (test : List ℕ → Bool) (cs : List ℕ) → IsLongest test cs (longest test cs) }
{}
