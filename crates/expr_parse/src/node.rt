//! New nodes.

ghost use Rattle.std.specs.Prelude.{◌≡◌, ◌+◌, ◌-◌, ◌^◌, ◌<◌, ◌≤◌, List, [], ◌∷◌, ◌++◌, length, IfOk, OnOk, IfErr};
ghost use Rattle.silq_tree.specs.Arena.{IsArena};
ghost use Rattle.silq_tree.specs.Children.{expr_exprs, number_exprs, ExprHasFirst};
ghost use Rattle.silq_tree.specs.declared.node.Expr.TheVariants as exprs;
ghost use Rattle.silq_grammar.specs.Tokens.{spot_of, first_spot};
ghost use Rattle.expr_parse.specs.Added.{AreFree, IsAdded};
ghost use Rattle.expr_parse.specs.Groups.{group_ids, IsGrouped};
ghost use Rattle.expr_parse.specs.Targets.{target_ids, TargetHasFirst, IsMade};
ghost use Rattle.expr_parse.specs.declared.stop.Stop.TheVariants as stops;

use crate::list::Group;
use crate::stop::Stop;
use crate::target::Target;
use silq_grammar::Token;
use silq_tree::{BinaryOp, Expr, ExprId, ExprIds, NameId, ScalarNode, Spot, Tree, UnaryOp};

/// Adds an expression.
pub fn add<'t>(tree: &mut Tree, e: Expr) -> Result<ExprId, Stop<'t>>
    requires arena { IsArena tree.old }
    requires free { AreFree tree.old (expr_exprs e) }
    requires first { ExprHasFirst e }
    requires room { length tree.old.exprs < 2 ^ 32 - 1 }
    ensures added { IfOk result (λ id. IsAdded tree.old tree.new e id) }
    ensures arena { OnOk result (IsArena tree.new) }
    ensures memory { IfErr result (λ stop. stop ≡ stops.Memory) }
{
    Ok(tree.add_expr(e)?)
}

/// Adds an operator between two operands.
pub(crate) fn add_binary<'t>(
    tree: &mut Tree,
    op: BinaryOp,
    left: ExprId,
    right: ExprId,
    at: Spot,
) -> Result<ExprId, Stop<'t>>
    requires arena { IsArena tree.old }
    requires free { AreFree tree.old (left ∷ right ∷ []) }
    requires room { length tree.old.exprs < 2 ^ 32 - 1 }
    ensures added { IfOk result (λ id. IsAdded tree.old tree.new (exprs.Binary op left right at) id) }
    ensures arena { OnOk result (IsArena tree.new) }
    ensures memory { IfErr result (λ stop. stop ≡ stops.Memory) }
{
    add(
        tree,
        Expr::Binary {
            op,
            left,
            right,
            at,
        },
    )
}

/// Adds a number.
pub(crate) fn add_number<'t>(
    tree: &mut Tree,
    value: i64,
    ty: Option<ScalarNode>,
    at: Spot,
) -> Result<ExprId, Stop<'t>>
    requires arena { IsArena tree.old }
    requires free { AreFree tree.old (number_exprs ty) }
    requires room { length tree.old.exprs < 2 ^ 32 - 1 }
    ensures added { IfOk result (λ id. IsAdded tree.old tree.new (exprs.Number value ty at) id) }
    ensures arena { OnOk result (IsArena tree.new) }
    ensures memory { IfErr result (λ stop. stop ≡ stops.Memory) }
{
    add(tree, Expr::Number { value, ty, at })
}

/// Adds a sign before an operand.
pub(crate) fn add_unary<'t>(
    tree: &mut Tree,
    op: UnaryOp,
    arg: ExprId,
    at: Spot,
) -> Result<ExprId, Stop<'t>>
    requires arena { IsArena tree.old }
    requires free { AreFree tree.old (arg ∷ []) }
    requires room { length tree.old.exprs < 2 ^ 32 - 1 }
    ensures added { IfOk result (λ id. IsAdded tree.old tree.new (exprs.Unary op arg at) id) }
    ensures arena { OnOk result (IsArena tree.new) }
    ensures memory { IfErr result (λ stop. stop ≡ stops.Memory) }
{
    add(tree, Expr::Unary { op, arg, at })
}

/// Adds a call.
pub(crate) fn add_call<'t>(
    tree: &mut Tree,
    fun: NameId,
    statics: ExprIds,
    args: ExprIds,
    at: Spot,
) -> Result<ExprId, Stop<'t>>
    requires arena { IsArena tree.old }
    requires free { AreFree tree.old (statics ++ args) }
    requires room { length tree.old.exprs < 2 ^ 32 - 1 }
    ensures added { IfOk result (λ id. IsAdded tree.old tree.new (exprs.Call fun statics args at) id) }
    ensures arena { OnOk result (IsArena tree.new) }
    ensures memory { IfErr result (λ stop. stop ≡ stops.Memory) }
{
    add(
        tree,
        Expr::Call {
            fun,
            statics,
            args,
            at,
        },
    )
}

/// The expression that a place, or a call, is.
pub(crate) fn add_target<'t>(tree: &mut Tree, target: Target, at: Spot) -> Result<ExprId, Stop<'t>>
    requires arena { IsArena tree.old }
    requires free { AreFree tree.old (target_ids target) }
    requires first { TargetHasFirst target }
    requires room { length tree.old.exprs < 2 ^ 32 - 1 }
    ensures made { IfOk result (λ id. IsMade tree.old tree.new target at id) }
    ensures arena { OnOk result (IsArena tree.new) }
    ensures memory { IfErr result (λ stop. stop ≡ stops.Memory) }
{
    match target {
        Target::Place(place) => add(tree, Expr::Place { place, at }),
        Target::Call(id) => Ok(id),
    }
}

/// One expression in parentheses, or the tuple of several.
pub(crate) fn add_group<'t>(tree: &mut Tree, group: Group, at: Spot) -> Result<ExprId, Stop<'t>>
    requires arena { IsArena tree.old }
    requires free { AreFree tree.old (group_ids group) }
    requires room { length tree.old.exprs < 2 ^ 32 - 1 }
    ensures grouped { IfOk result (λ id. IsGrouped tree.old tree.new group at id) }
    ensures arena { OnOk result (IsArena tree.new) }
    ensures memory { IfErr result (λ stop. stop ≡ stops.Memory) }
{
    match group {
        Group::One(id) => Ok(id),
        Group::Several(items) => add(tree, Expr::Tuple { items, at }),
    }
}

/// The place of a token.
fn spot_of(token: &Token) -> Spot
    ensures { result ≡ spot_of token.now }
{
    match token {
        Token::Name(_, at) => *at,
        Token::Number(_, at) => *at,
        Token::Fixed(_, at) => *at,
    }
}

/// The place of the first token; where there is none, any.
pub fn first_spot(tokens: &[Token]) -> Spot
    ensures { result ≡ first_spot tokens.now }
{
    match tokens {
        [first, ..] => spot_of(first),
        [] => Spot { line: 0, col: 0 },
    }
}
