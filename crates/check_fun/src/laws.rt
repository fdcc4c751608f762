//! Laws of the walk of a program. Each function has an empty body: its contract is the law.

ghost use Rattle.std.specs.Prelude.{◌≡◌, ℕ, List, Ok};
ghost use Rattle.silq_tree.specs.declared.node.NameId.{NameId};
ghost use Rattle.silq_tree.specs.Syntax.{Expression, Statement, Function};
ghost use Rattle.silq_types.specs.declared.types.Ty.{Ty};
ghost use Rattle.silq_types.specs.declared.signature.InstanceKey.{InstanceKey};
ghost use Rattle.silq_types.specs.declared.signature.Signature.{Signature};
ghost use Rattle.silq_types.specs.declared.need.Need.{Need};
ghost use Rattle.check_scope.specs.Walk.{Counts, with_known, with_counts};
ghost use Rattle.check_scope.specs.Context.{Scope, Context};
ghost use Rattle.silq_types.specs.declared.built_in.BuiltIn.{BuiltIn};
ghost use Rattle.check_expr.specs.Expression.{expr};
ghost use Rattle.check_scope.specs.Reading.{Steady, Continues, asked_again};
ghost use Rattle.check_expr.specs.Owners.{Sole, ProperFor, IsProper, AreProper, Ensures};
ghost use Rattle.check_fun.specs.Statement.{stmt};
ghost use Rattle.check_fun.specs.Program.{instances};

/// An expression that is checked with the signatures known so far: its answer and its fault are those of the whole walk, and where
/// it wants an instance, the whole walk is the check of this instance and then the same expression again.
pub fn asking_again()
    ensures steady { (words : List (NameId × BuiltIn)) (funs : List Function) → Steady (instances words funs) }
    ensures continues { (words : List (NameId × BuiltIn)) (funs : List Function) (d : ℕ) (e : Expression) (sc : Scope) (need : Need) (wants : List Ty) (cx : Context) (c : Counts) (h : ℕ) →
        Continues (with_counts (instances words funs) d (expr e sc need wants cx) c h) (asked_again (instances words funs) d (expr e sc need wants cx) c h) c (with_known d c.met (expr e sc need wants cx) h) }
{}

/// Where each place has at most one owner before a statement, so it has after it: no two variables that are not consumed have one
/// place. The signatures that are known give each place on at most once.
pub fn one_owner_by_statement()
    ensures { (st : Statement) (low : ℕ) (sc : Scope) → Ensures (ProperFor sc.before) (Sole low (λ p. 0)) (stmt st sc) (λ u. Sole low (λ p. 0)) }
{}

/// Every signature that the check of a program's instances makes or keeps gives the place of a consumed parameter on to at most one
/// result. So the premise on signatures above holds throughout the walk of a program.
pub fn signatures_are_proper()
    ensures { (words : List (NameId × BuiltIn)) (funs : List Function) (d : ℕ) (k : InstanceKey) (c : Counts) (r : Signature × Counts) →
        AreProper funs c.met → instances words funs d k c ≡ Ok r → IsProper funs k r.0 × AreProper funs r.1.met }
{}
