//! A law of the walk of an expression. Its function has an empty body: its contract is the law.

ghost use Rattle.std.specs.Prelude.{ℕ, ◌+◌, List};
ghost use Rattle.silq_tree.specs.Syntax.{Expression};
ghost use Rattle.silq_types.specs.declared.types.Ty.{Ty as Types};
ghost use Rattle.silq_types.specs.declared.need.Need.{Need as Needs};
ghost use Rattle.check_scope.specs.Context.{Scope};
ghost use Rattle.check_expr.specs.Expression.{expr};
ghost use Rattle.check_expr.specs.Owners.{Sole, handed, ProperFor, Ensures};

/// Where each place has at most one owner before an expression, so it has after it: a consumed use hands the places of its values
/// on, a held one hands on none. `others` counts the values that are under way, and the signatures that are known give each place
/// on at most once.
pub fn one_owner_by_expression()
    ensures { (e : Expression) (low : ℕ) (others : ℕ → ℕ) (sc : Scope) (need : Needs) (wants : List Types) →
        Ensures (ProperFor sc.before) (Sole low others) (expr e sc need wants) (λ vs. Sole low (λ p. others p + handed need p vs)) }
{}
