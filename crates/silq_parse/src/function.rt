//! Functions.

ghost use Rattle.std.specs.Prelude.{◌≡◌, ◌+◌, ◌-◌, ◌^◌, ◌<◌, ◌≤◌, List, [], ◌∷◌, length, IfOk, IfErr, OnOk, MatchResult};
ghost use Rattle.silq_tree.specs.Arena.{IsArena};
ghost use Rattle.silq_tree.specs.Children.{fun_exprs, fun_stmts};
ghost use Rattle.silq_grammar.specs.declared.token.Token.TheVariants.{Fixed};
ghost use Rattle.silq_grammar.specs.declared.token.Terminal.TheVariants as t;
ghost use Rattle.silq_grammar.specs.Machine.{Symbol, AnyName, StaticPart, ParamPart, MarkPart, ResultPart, ABlock, nest};
ghost use Rattle.silq_grammar.specs.Outcome.{outcome};
ghost use Rattle.expr_parse.specs.Stops.{StopsAt};
ghost use Rattle.expr_parse.specs.Added.{AreFree};
ghost use Rattle.silq_parse.specs.AddedStatement.{AreFreeStmts};
ghost use Rattle.silq_parse.specs.Functions.{IsAddedFun, ReadsFunction};
ghost use Rattle.expr_parse.specs.declared.stop.Stop.TheVariants as stops;

use crate::block::block;
use crate::header::{mark, param_part, result_part, static_part};
use expr_parse::sign::name;
use expr_parse::stop::Stop;
use silq_grammar::Token;
use silq_tree::{Fun, FunId, Spot, Tree};
use std::alloc::Global;

/// Adds a function.
fn add_function<'t>(tree: &mut Tree, f: Fun) -> Result<FunId, Stop<'t>>
    requires arena { IsArena tree.old }
    requires exprs { AreFree tree.old (fun_exprs f) }
    requires stmts { AreFreeStmts tree.old (fun_stmts f) }
    requires room { length tree.old.funs < 2 ^ 32 - 1 }
    ensures added { IfOk result (λ id. IsAddedFun tree.old tree.new f id) }
    ensures arena { OnOk result (IsArena tree.new) }
    ensures memory { IfErr result (λ stop. stop ≡ stops.Memory) }
{
    Ok(tree.add_fun(f)?)
}

/// A function, from behind its `def`.
pub(crate) fn function<'t>(
    alloc: Global,
    tree: &mut Tree,
    tokens: &'t [Token],
    at: Spot,
    room: u32,
) -> Result<(FunId, &'t [Token]), Stop<'t>>
    requires arena { IsArena tree.old }
    requires exprs { length tree.old.exprs + length tokens.now < 2 ^ 32 - 1 }
    requires stmts { length tree.old.stmts + length tokens.now < 2 ^ 32 - 1 }
    requires funs { length tree.old.funs < 2 ^ 32 - 1 }
    ensures machine { (k : List Symbol) → nest k + room ≡ 64 → MatchResult result (λ p. outcome (AnyName ∷ StaticPart ∷ ParamPart ∷ MarkPart ∷ ResultPart ∷ ABlock ∷ k) tokens.now ≡ outcome k p.1.now)
        (λ stop. StopsAt (outcome (AnyName ∷ StaticPart ∷ ParamPart ∷ MarkPart ∷ ResultPart ∷ ABlock ∷ k) tokens.now) stop) }
    ensures reads { IfOk result (λ p. ReadsFunction tree.old tree.new (Fixed t.Def at ∷ tokens.now) p.0 p.1.now) }
    ensures arena { OnOk result (IsArena tree.new) }
    ensures shorter { IfOk result (λ p. length p.1.now < length tokens.now) }
{
    let (name, _, rest) = name(tokens)?;
    let (statics, rest) = static_part(alloc, rest, room)?;
    let (params, rest) = param_part(alloc, tree, rest, room)?;
    let (mark, rest) = mark(rest);
    let (results, rest) = result_part(alloc, tree, rest, room)?;
    let (body, rest) = block(alloc, tree, rest, room)?;
    let id = add_function(
        tree,
        Fun {
            name,
            statics,
            params,
            mark,
            results,
            body,
            at,
        },
    )?;
    Ok((id, rest))
}
