//! Whole programs.

ghost use Rattle.std.specs.Prelude.{◌≡◌, ◌+◌, ◌-◌, ◌^◌, ◌<◌, ◌≤◌, List, [], ◌∷◌, length, IfOk, OnOk, MatchResult};
ghost use Rattle.silq_tree.specs.Arena.{IsArena};
ghost use Rattle.silq_grammar.specs.Machine.{Symbol, Functions, nest};
ghost use Rattle.silq_grammar.specs.Outcome.{outcome, program_outcome, Fine};
ghost use Rattle.expr_parse.specs.Stops.{StopsAt};
ghost use Rattle.silq_parse.specs.Functions.{ReadsFunctions, IsParsed};

use crate::function::function;
use expr_parse::stop::Stop;
use silq_grammar::{Terminal, Token};
use silq_tree::{FunIds, Tree};
use std::alloc::Global;

/// The functions up to a token with which none begins.
#[tactic(auto, unfolding(silq_grammar::specs::Outcome::outcome))]
fn functions<'t>(
    alloc: Global,
    tree: &mut Tree,
    tokens: &'t [Token],
    room: u32,
) -> Result<(FunIds, &'t [Token]), Stop<'t>>
    requires arena { IsArena tree.old }
    requires exprs { length tree.old.exprs + length tokens.now < 2 ^ 32 - 1 }
    requires stmts { length tree.old.stmts + length tokens.now < 2 ^ 32 - 1 }
    requires funs { length tree.old.funs + length tokens.now < 2 ^ 32 - 1 }
    ensures machine { (k : List Symbol) → nest k + room ≡ 64 → MatchResult result (λ p. outcome (Functions ∷ k) tokens.now ≡ outcome k p.1.now)
        (λ stop. StopsAt (outcome (Functions ∷ k) tokens.now) stop) }
    ensures reads { IfOk result (λ p. ReadsFunctions tree.old tree.new tokens.now p.0 p.1.now) }
    ensures arena { OnOk result (IsArena tree.new) }
{
    let mut funs = FunIds::new(alloc);
    let mut rest = tokens;
    while let [Token::Fixed(Terminal::Def, at), more @ ..] = rest {
        let (id, more) = function(alloc, tree, more, *at, room)?;
        funs.push(id)?;
        rest = more;
    }
    Ok((funs, rest))
}

/// The program that tokens are: its nodes, and its functions in their order.
pub(crate) fn parse_tokens<'t>(
    alloc: Global,
    tokens: &'t [Token],
) -> Result<(Tree, FunIds), Stop<'t>>
    requires { length tokens.now < 2 ^ 32 - 1 }
    ensures machine { MatchResult result (λ p. program_outcome tokens.now ≡ Fine) (λ stop. StopsAt (program_outcome tokens.now) stop) }
    ensures reads { IfOk result (λ p. IsParsed p.0 tokens.now p.1) }
{
    let mut tree = Tree::new(alloc);
    let (funs, rest) = functions(alloc, &mut tree, tokens, 64)?;
    if rest.is_empty() {
        Ok((tree, funs))
    } else {
        Err(Stop::Syntax(rest))
    }
}
