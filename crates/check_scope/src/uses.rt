//! The parts that an expression names, told without checking it.

ghost use Rattle.std.specs.Prelude.{◌≡◌, ◌<◌, [], ◌++◌, length, map, option_map, IfOk, IfSome, OnOk};
ghost use Rattle.silq_tree.specs.Arena.{expr_at};
ghost use Rattle.silq_tree.specs.Children.{place_exprs, scalar_exprs, AreExprsBelow};
ghost use Rattle.silq_tree.specs.Standing.{expressions_of, place_of, scalar_of};
ghost use Rattle.silq_types.specs.Types.{place_indices};
ghost use Rattle.check_scope.specs.Context.{find_var, indices, part_at, variable};
ghost use Rattle.check_scope.specs.Uses.{operand_clash};
ghost use Rattle.check_scope.specs.Library.{found_at};
ghost use Rattle.check_scope.specs.State.{scope_in};
ghost use Rattle.check_scope.specs.Used.{is_used as used, uses_clash, node_need};
ghost use Rattle.silq_types.specs.Calls.{is_consumed as consumed, needs_of_built_in as asked_by_built_in, needs_of_own as asked_by_own, first_need as need_first, later_needs as needs_later};
ghost use Rattle.check_scope.specs.Uses.{uses, all_uses, scalar_uses, place_use, argument_uses, index_values, named_part as part_named, needs_of as asked_by, meets as some_meets, clash as some_clash, both_consume, consume_and_hold, some_with as with_some, some_pair};

use crate::context::Context;
use crate::header::is_held;
use crate::library::Library;
use crate::part_types::part_type;
use crate::parts::overlaps;
use silq_tree::node::{Expr, Mark, ParamNode, PlaceNode, ScalarNode};
use silq_tree::{ExprId, NameId};
use silq_types::{BuiltIn, List, Need, Part, Var};
use static_num::eval;
use std::alloc::{AllocError, Global};

/// A part that an expression names, and how it uses it.
#[derive(Clone, Copy, PartialEq, Eq)]
pub struct Use {
    pub part: Part,
    pub need: Need,
}

/// The parts that an expression names, from left to right.
pub type UseList = List<Use>;

// ---- overlaps

/// Whether a value is consumed.
fn is_consumed(need: Need) -> bool
    ensures { result ≡ consumed need }
{
    match need {
        Need::Consumed => true,
        Need::Held => false,
    }
}

/// Whether a use is of this kind.
fn is_used(wanted: Need, need: Need) -> bool
    ensures { result ≡ used wanted need }
{
    match wanted {
        Need::Consumed => is_consumed(need),
        Need::Held => !is_consumed(need),
    }
}

/// Whether a part overlaps one of these that are consumed, or of these that are held.
fn meets(wanted: Need, part: Part, uses: &[Use]) -> bool
    ensures { result ≡ some_meets (used wanted) part uses.now }
{
    for other in uses {
        if is_used(wanted, other.need) && overlaps(part, other.part) {
            return true;
        }
    }
    false
}

/// Whether some part that the first list consumes overlaps one of the second that is used so.
fn clash(wanted: Need, left: &[Use], right: &[Use]) -> bool
    ensures { result ≡ some_clash (used wanted) left.now right.now }
{
    for item in left {
        if is_consumed(item.need) && meets(wanted, item.part, right) {
            return true;
        }
    }
    false
}

/// Whether one of two lists consumes a part that overlaps one which the other uses so.
fn clashes(wanted: Need, left: &[Use], right: &[Use]) -> bool
    ensures { result ≡ uses_clash wanted left.now right.now }
{
    match wanted {
        Need::Consumed => clash(Need::Consumed, left, right),
        Need::Held => clash(Need::Held, left, right) || clash(Need::Held, right, left),
    }
}

/// Whether one list clashes with one of the others.
fn some_with(wanted: Need, uses: &[Use], rest: &[UseList]) -> bool
    ensures { result ≡ with_some (uses_clash wanted) uses.now rest.now }
{
    if uses.is_empty() {
        return false;
    }
    for other in rest {
        if clashes(wanted, uses, other.as_slice()) {
            return true;
        }
    }
    false
}

/// Whether two of the lists clash.
fn some_clash_of(wanted: Need, parts: &[UseList]) -> bool
    ensures { result ≡ some_pair (uses_clash wanted) parts.now }
{
    let mut rest = parts;
    while let [uses, others @ ..] = rest {
        if some_with(wanted, uses.as_slice(), others) {
            return true;
        }
        rest = others;
    }
    false
}

/// Whether two of the lists consume parts that overlap.
pub fn consume_twice(parts: &[UseList]) -> bool
    ensures { result ≡ some_pair both_consume parts.now }
{
    some_clash_of(Need::Consumed, parts)
}

/// Whether one of the lists consumes a part that overlaps one which another holds.
pub fn consume_held(parts: &[UseList]) -> bool
    ensures { result ≡ some_pair consume_and_hold parts.now }
{
    some_clash_of(Need::Held, parts)
}

// ---- what a call asks of its arguments; past the end of a list they are held

/// What a call of a function with such parameters asks.
fn param_needs(alloc: Global, mark: Mark, params: &[ParamNode]) -> Result<List<Need>, AllocError>
    ensures { IfOk result (λ asked. asked ≡ map (node_need mark) params.now) }
{
    let mut asked = List::new(alloc);
    for param in params {
        let need = if is_held(*param, mark) {
            Need::Held
        } else {
            Need::Consumed
        };
        asked.push(need)?;
    }
    Ok(asked)
}

/// What a call of a built-in function asks.
fn needs_of_built_in(alloc: Global, word: BuiltIn) -> Result<List<Need>, AllocError>
    ensures { IfOk result (λ asked. asked ≡ asked_by_built_in word) }
{
    let mut asked = List::new(alloc);
    match word {
        BuiltIn::HGate => asked.push(Need::Consumed)?,
        BuiltIn::XGate => asked.push(Need::Consumed)?,
        BuiltIn::YGate => asked.push(Need::Consumed)?,
        BuiltIn::ZGate => asked.push(Need::Consumed)?,
        BuiltIn::Measure => asked.push(Need::Consumed)?,
        _ => {}
    }
    Ok(asked)
}

/// What a call of a function of the program asks.
#[tactic(auto, using(crate::proofs::NamedParts::own_needs_are))]
pub fn needs_of_own(library: &Library, found: Option<u32>) -> Result<List<Need>, AllocError>
    requires { IfSome found (λ n. n < length library.now.funs) }
    ensures { IfOk result (λ asked. asked ≡ asked_by_own (option_map (found_at library.now) found)) }
{
    match found {
        None => Ok(List::new(library.alloc())),
        Some(n) => {
            let fun = library.fun(n);
            param_needs(library.alloc(), fun.mark, fun.params.as_slice())
        }
    }
}

/// What a call of the function with this name asks.
pub(crate) fn needs_of(
    library: &Library,
    cx: &Context,
    fun: NameId,
) -> Result<List<Need>, AllocError>
    ensures { IfOk result (λ asked. asked ≡ asked_by (scope_in library.now cx.now) fun) }
{
    match library.built_in(fun) {
        Some(word) => needs_of_built_in(library.alloc(), word),
        None => needs_of_own(library, library.find(fun, cx.this())),
    }
}

/// The first of what is asked.
fn first_need(asked: &[Need]) -> Need
    ensures { result ≡ need_first asked.now }
{
    match asked {
        [] => Need::Held,
        [need, ..] => *need,
    }
}

/// What is asked behind the first.
fn later_needs(asked: &[Need]) -> &[Need]
    ensures { result.now ≡ needs_later asked.now }
{
    match asked {
        [] => asked,
        [_, rest @ ..] => rest,
    }
}

// ---- the parts that an expression names

/// The part of a variable with this name that a place names, where each index has a value.
fn indexed(library: &Library, cx: &Context, name: NameId, place: PlaceNode) -> Option<Part>
    requires parts { AreExprsBelow (length library.now.nodes.exprs) (place_exprs place) }
    ensures values { option_map indices result ≡ index_values cx.now.statics (place_indices (place_of (expr_at library.now.nodes) place)) }
    ensures part { IfSome result (λ part. part ≡ part_at name (indices part)) }
{
    let Some(i) = place.first else {
        return Some(Part {
            name,
            first: None,
            second: None,
        });
    };
    let first = eval(library.tree(), i, cx.statics()).ok()?;
    let Some(j) = place.second else {
        return Some(Part {
            name,
            first: Some(first),
            second: None,
        });
    };
    let second = eval(library.tree(), j, cx.statics()).ok()?;
    Some(Part {
        name,
        first: Some(first),
        second: Some(second),
    })
}

/// The part that a place of this variable names; all of the variable where an index is not static, fails or is out of range.
fn named_part(library: &Library, cx: &Context, var: Var, place: PlaceNode) -> Part
    requires { AreExprsBelow (length library.now.nodes.exprs) (place_exprs place) }
    ensures { result ≡ part_named cx.now.statics var (place_indices (place_of (expr_at library.now.nodes) place)) }
{
    match indexed(library, cx, var.part.name, place) {
        None => var.part,
        Some(part) => {
            if part_type(var.ty, part).is_some() {
                part
            } else {
                var.part
            }
        }
    }
}

/// Adds the part that a place names.
fn add_part(
    library: &Library,
    cx: &Context,
    place: PlaceNode,
    need: Need,
    out: &mut UseList,
) -> Result<(), AllocError>
    requires { AreExprsBelow (length library.now.nodes.exprs) (place_exprs place) }
    ensures { OnOk result (out.new ≡ out.old ++ place_use cx.now.statics (find_var cx.now.vars (variable place.name)) (place_indices (place_of (expr_at library.now.nodes) place)) need) }
{
    let whole = Part {
        name: place.name,
        first: None,
        second: None,
    };
    match cx.find(whole) {
        None => Ok(()),
        Some(var) => {
            let part = named_part(library, cx, var, place);
            let need = if var.ty.classical { Need::Held } else { need };
            out.push(Use { part, need })
        }
    }
}

/// Adds the parts that the indices of a place name.
#[cycle(uses)]
#[tactic(auto, using(silq_tree::proofs::Lists::ids, crate::proofs::NamedParts::place_uses_are))]
fn add_indices(
    library: &Library,
    cx: &Context,
    place: PlaceNode,
    out: &mut UseList,
) -> Result<(), AllocError>
    requires { AreExprsBelow (length library.now.nodes.exprs) (place_exprs place) }
    ensures { OnOk result (out.new ≡ out.old ++ all_uses (place_indices (place_of (expr_at library.now.nodes) place)) (scope_in library.now cx.now) cx.now.vars []) }
{
    let Some(i) = place.first else {
        return Ok(());
    };
    add_uses(library, cx, i, Need::Held, out)?;
    let Some(j) = place.second else {
        return Ok(());
    };
    add_uses(library, cx, j, Need::Held, out)
}

/// Adds the parts that the width of a type names.
#[cycle(uses)]
#[tactic(auto, using(silq_tree::proofs::Lists::ids, crate::proofs::NamedParts::place_uses_are))]
fn add_width(
    library: &Library,
    cx: &Context,
    ty: ScalarNode,
    out: &mut UseList,
) -> Result<(), AllocError>
    requires { AreExprsBelow (length library.now.nodes.exprs) (scalar_exprs ty) }
    ensures { OnOk result (out.new ≡ out.old ++ scalar_uses (scalar_of (expr_at library.now.nodes) ty) (scope_in library.now cx.now) cx.now.vars) }
{
    match ty {
        ScalarNode::Bit => Ok(()),
        ScalarNode::UInt(width) => add_uses(library, cx, width, Need::Held, out),
        ScalarNode::Int(width) => add_uses(library, cx, width, Need::Held, out),
    }
}

/// Adds the parts that expressions name, where they are asked so.
#[cycle(uses)]
#[tactic(auto, using(silq_tree::proofs::Lists::ids, crate::proofs::NamedParts::place_uses_are))]
fn add_all(
    library: &Library,
    cx: &Context,
    items: &[ExprId],
    asked: &[Need],
    out: &mut UseList,
) -> Result<(), AllocError>
    requires { AreExprsBelow (length library.now.nodes.exprs) items.now }
    ensures { OnOk result (out.new ≡ out.old ++ all_uses (expressions_of (expr_at library.now.nodes) items.now) (scope_in library.now cx.now) cx.now.vars asked.now) }
{
    let mut rest = asked;
    for item in items {
        add_uses(library, cx, *item, first_need(rest), out)?;
        rest = later_needs(rest);
    }
    Ok(())
}

/// Adds the parts that an expression names, itself used so.
#[cycle(uses)]
#[tactic(auto, using(silq_tree::proofs::Lists::ids, crate::proofs::NamedParts::place_uses_are))]
fn add_uses(
    library: &Library,
    cx: &Context,
    e: ExprId,
    need: Need,
    out: &mut UseList,
) -> Result<(), AllocError>
    requires { e.number < length library.now.nodes.exprs }
    ensures { OnOk result (out.new ≡ out.old ++ uses (expr_at library.now.nodes e) (scope_in library.now cx.now) cx.now.vars need) }
{
    match library.tree().expr(e) {
        Expr::Number { ty, .. } => match ty {
            None => Ok(()),
            Some(ty) => add_width(library, cx, *ty, out),
        },
        Expr::Truth { .. } => Ok(()),
        Expr::Pi { .. } => Ok(()),
        Expr::Place { place, .. } => {
            add_part(library, cx, *place, need, out)?;
            add_indices(library, cx, *place, out)
        }
        Expr::Call {
            fun,
            statics,
            args,
            ..
        } => {
            add_all(library, cx, statics.as_slice(), &[], out)?;
            let asked = needs_of(library, cx, *fun)?;
            add_all(library, cx, args.as_slice(), asked.as_slice(), out)
        }
        Expr::Tuple { items, .. } => add_all(library, cx, items.as_slice(), &[], out),
        Expr::Unary { arg, .. } => add_uses(library, cx, *arg, Need::Held, out),
        Expr::Binary { left, right, .. } => {
            add_uses(library, cx, *left, Need::Held, out)?;
            add_uses(library, cx, *right, Need::Held, out)
        }
    }
}

/// The parts that an expression names, itself used so.
pub fn uses_of(
    library: &Library,
    cx: &Context,
    e: ExprId,
    need: Need,
) -> Result<UseList, AllocError>
    requires { e.number < length library.now.nodes.exprs }
    ensures { IfOk result (λ us. us ≡ uses (expr_at library.now.nodes e) (scope_in library.now cx.now) cx.now.vars need) }
{
    let mut found = List::new(library.alloc());
    add_uses(library, cx, e, need, &mut found)?;
    Ok(found)
}

/// The parts that each argument of a call names, where the call asks them so; past the end of the list they are held.
#[tactic(auto, using(silq_tree::proofs::Lists::ids))]
pub fn argument_parts(
    library: &Library,
    cx: &Context,
    args: &[ExprId],
    needs: &[Need],
) -> Result<List<UseList>, AllocError>
    requires { AreExprsBelow (length library.now.nodes.exprs) args.now }
    ensures { IfOk result (λ parts. parts ≡ argument_uses (expressions_of (expr_at library.now.nodes) args.now) (scope_in library.now cx.now) cx.now.vars needs.now) }
{
    let mut parts = List::new(library.alloc());
    let mut rest = needs;
    for arg in args {
        parts.push(uses_of(library, cx, *arg, first_need(rest))?)?;
        rest = later_needs(rest);
    }
    Ok(parts)
}

/// Whether one operand consumes a part that overlaps one which the other holds.
pub fn operands_clash(
    library: &Library,
    cx: &Context,
    left: ExprId,
    right: ExprId,
) -> Result<bool, AllocError>
    requires left { left.number < length library.now.nodes.exprs }
    requires right { right.number < length library.now.nodes.exprs }
    ensures { IfOk result (λ clash. clash ≡ operand_clash (scope_in library.now cx.now) (expr_at library.now.nodes left) (expr_at library.now.nodes right) cx.now.vars) }
{
    let first = uses_of(library, cx, left, Need::Held)?;
    let second = uses_of(library, cx, right, Need::Held)?;
    Ok(clashes(Need::Held, first.as_slice(), second.as_slice()))
}
