//! The walk of an expression.

ghost use Rattle.std.specs.Prelude.{◌≡◌, ◌<◌, ◌∷◌, ◌++◌, [], drop, length, Err, IfOk, IfErr, IfSome, OnOk, OnErr};
ghost use Rattle.silq_tree.specs.Arena.{expr_at};
ghost use Rattle.silq_tree.specs.Children.{number_exprs, place_exprs, scalar_exprs, AreExprsBelow, HasFirst};
ghost use Rattle.silq_tree.specs.Standing.{expressions_of, place_of, scalar_of};
ghost use Rattle.silq_types.specs.Known.{Signatures};
ghost use Rattle.check_scope.specs.declared.fault.CheckFault.TheVariants as checks;
ghost use Rattle.check_scope.specs.declared.fault.ExprFault.TheVariants as stops;
ghost use Rattle.silq_types.specs.declared.need.Need.TheVariants as needs;
ghost use Rattle.check_expr.specs.Asks.{asked_as, all_asked, types_of};
ghost use Rattle.check_expr.specs.Expression.{expr as expr_of, arguments as arguments_of, asked_of_items, first_asked, lone_need as need_alone, lone_wants as wants_alone};
ghost use Rattle.check_scope.specs.Faults.{stop_as};
ghost use Rattle.check_expr.specs.Forms.{number_values, part_values, unary_values, operand as operand_of, both_operands, binary_values};
ghost use Rattle.check_scope.specs.State.{scope_in, context_of};
ghost use Rattle.check_scope.specs.Steps.{Reads, Stops};
ghost use Rattle.check_scope.specs.Walk.{with_known};

use crate::asked::Ask;
use crate::calls::call;
use crate::operators::{binary_value, unary_value};
use crate::values::{
    alone, broken, is_static, is_tuple, single, static_number, static_value, suits, typed_value,
};
use check_scope::context::Context;
use check_scope::fault::{CheckFault, ExprFault};
use check_scope::library::Library;
use check_scope::places::use_place;
use check_scope::rule;
use silq_tree::node::{PlaceNode, ScalarNode};
use silq_tree::{BinaryOp, Expr, ExprId, Spot, UnaryOp};
use silq_types::{Known, List, Need, Shape, Ty, Value};
use std::alloc::Global;

/// The values of an expression; a call or a tuple may have none or several.
pub type ValueList = List<Value>;

/// Checks one expression, and gives its values. `wants` are the types that static expressions take: for a tuple one for each item,
/// else at most one. After an `Err` the context is as it was.
pub fn expr(
    library: &Library,
    cx: &mut Context,
    e: ExprId,
    need: Need,
    wants: &[Ty],
    known: &Known,
) -> Result<ValueList, ExprFault>
    requires id { e.number < length library.now.nodes.exprs }
    requires this { cx.old.this < length library.now.funs }
    ensures values { IfOk result (λ vs. Reads known.now (expr_of (expr_at library.now.nodes e) (scope_in library.now cx.old) need wants.now) (record cx.old { start = cx.old.vars }) vs cx.new) }
    ensures stops { IfErr result (λ f. IfSome (stop_as f) (λ stop. with_known cx.old.depth known.now (expr_of (expr_at library.now.nodes e) (scope_in library.now cx.old) need wants.now (context_of cx.old)) cx.old.height ≡ Err stop)) }
    ensures unchanged { OnErr result (cx.new ≡ record cx.old { start = cx.old.vars }) }
{
    cx.begin();
    let next = cx.next();
    let height = cx.height();
    match walk(library, cx, e, need, wants, known) {
        Ok(values) => Ok(values),
        Err(fault) => {
            cx.restore(next, height);
            Err(fault)
        }
    }
}

/// The values of items in turn, one of each, asked so; items beyond the last that is asked are used as `other`, and no type is asked of them.
#[cycle(expression)]
pub(crate) fn arguments(
    library: &Library,
    cx: &mut Context,
    items: &[ExprId],
    other: Need,
    asks: &[Ask],
    known: &Known,
) -> Result<ValueList, ExprFault>
    requires ids { AreExprsBelow (length library.now.nodes.exprs) items.now }
    requires this { cx.old.this < length library.now.funs }
    ensures reads { IfOk result (λ vs. Reads known.now (arguments_of (expressions_of (expr_at library.now.nodes) items.now) (scope_in library.now cx.old) other (all_asked asks.now)) cx.old vs cx.new) }
    ensures stops { IfErr result (λ f. Stops known.now (arguments_of (expressions_of (expr_at library.now.nodes) items.now) (scope_in library.now cx.old) other (all_asked asks.now)) cx.old f cx.new) }
{
    let mut values = ValueList::new(library.alloc());
    for i in 0..items.len() {
        let item = items[i];
        let ask = ask_at(asks, i, other);
        let need = lone_need(library, item, ask.need);
        let filled = filled(ask.want);
        let wants = lone_wants(library, item, wanted(&filled, ask.want));
        let list = walk(library, cx, item, need, wants, known)?;
        let value = single(library, item, &list)?;
        suits(library, item, ask.want, value)?;
        push(&mut values, value)?;
    }
    Ok(values)
}

/// The walk of an expression: `expr` without taking back what was changed.
#[cycle(expression)]
pub(crate) fn walk(
    library: &Library,
    cx: &mut Context,
    e: ExprId,
    need: Need,
    wants: &[Ty],
    known: &Known,
) -> Result<ValueList, ExprFault>
    requires id { e.number < length library.now.nodes.exprs }
    requires this { cx.old.this < length library.now.funs }
    ensures reads { IfOk result (λ vs. Reads known.now (expr_of (expr_at library.now.nodes e) (scope_in library.now cx.old) need wants.now) cx.old vs cx.new) }
    ensures stops { IfErr result (λ f. Stops known.now (expr_of (expr_at library.now.nodes e) (scope_in library.now cx.old) need wants.now) cx.old f cx.new) }
{
    if is_static(library, cx, e) {
        return static_value(library, cx, e, wants);
    }
    match library.tree().expr(e) {
        Expr::Number { value, ty, at } => number(library, cx, *value, *ty, *at),
        Expr::Place { place, at } => part(library, cx, *place, *at, need),
        Expr::Call {
            fun,
            statics,
            args,
            at,
        } => call(
            library,
            cx,
            *fun,
            statics.as_slice(),
            args.as_slice(),
            *at,
            need,
            known,
        ),
        Expr::Tuple { items, .. } => tuple(library, cx, items.as_slice(), need, wants, known),
        Expr::Unary { op, arg, at } => unary(library, cx, *op, *arg, *at, known),
        Expr::Binary {
            op,
            left,
            right,
            at,
        } => binary(library, cx, *op, (*left, *right), *at, known),
        Expr::Pi { at } => Err(broken(rule::WRONG_TYPE, *at)),
        // truth is static
        Expr::Truth { at, .. } => Err(broken(rule::OUTSIDE_TYPE, *at)),
    }
}

// ---- the forms of an expression

/// The values of a number that is not static, and so has a type.
fn number(
    library: &Library,
    cx: &mut Context,
    value: i64,
    ty: Option<ScalarNode>,
    at: Spot,
) -> Result<ValueList, ExprFault>
    requires { AreExprsBelow (length library.now.nodes.exprs) (number_exprs ty) }
    ensures reads { (met : Signatures) → IfSome ty (λ k. IfOk result (λ vs. Reads met (number_values (scope_in library.now cx.old) value (scalar_of (expr_at library.now.nodes) k) at) cx.old vs cx.new)) }
    ensures stops { (met : Signatures) → IfSome ty (λ k. IfErr result (λ f. Stops met (number_values (scope_in library.now cx.old) value (scalar_of (expr_at library.now.nodes) k) at) cx.old f cx.new)) }
{
    match ty {
        Some(ty) => typed_number(library, cx, value, ty, at),
        None => Err(broken(rule::OUTSIDE_TYPE, at)),
    }
}

/// The values of a number with a type.
fn typed_number(
    library: &Library,
    cx: &mut Context,
    value: i64,
    ty: ScalarNode,
    at: Spot,
) -> Result<ValueList, ExprFault>
    requires { AreExprsBelow (length library.now.nodes.exprs) (scalar_exprs ty) }
    ensures reads { (met : Signatures) → IfOk result (λ vs. Reads met (number_values (scope_in library.now cx.old) value (scalar_of (expr_at library.now.nodes) ty) at) cx.old vs cx.new) }
    ensures stops { (met : Signatures) → IfErr result (λ f. Stops met (number_values (scope_in library.now cx.old) value (scalar_of (expr_at library.now.nodes) ty) at) cx.old f cx.new) }
{
    let value = typed_value(library, cx, value, ty, at)?;
    let list = alone(library.alloc(), value)?;
    Ok(list)
}

/// The values of a place.
fn part(
    library: &Library,
    cx: &mut Context,
    place: PlaceNode,
    at: Spot,
    need: Need,
) -> Result<ValueList, ExprFault>
    requires parts { AreExprsBelow (length library.now.nodes.exprs) (place_exprs place) }
    requires first { HasFirst place }
    ensures reads { (met : Signatures) → IfOk result (λ vs. Reads met (part_values (scope_in library.now cx.old) (place_of (expr_at library.now.nodes) place) at need) cx.old vs cx.new) }
    ensures stops { (met : Signatures) → IfErr result (λ f. Stops met (part_values (scope_in library.now cx.old) (place_of (expr_at library.now.nodes) place) at need) cx.old f cx.new) }
{
    let value = use_place(library, cx, place, at, need)?;
    let list = alone(library.alloc(), value)?;
    Ok(list)
}

/// The values of a sign before its operand.
#[cycle(expression)]
fn unary(
    library: &Library,
    cx: &mut Context,
    op: UnaryOp,
    arg: ExprId,
    at: Spot,
    known: &Known,
) -> Result<ValueList, ExprFault>
    requires id { arg.number < length library.now.nodes.exprs }
    requires this { cx.old.this < length library.now.funs }
    ensures reads { IfOk result (λ vs. Reads known.now (unary_values (scope_in library.now cx.old) op (expr_at library.now.nodes arg) at) cx.old vs cx.new) }
    ensures stops { IfErr result (λ f. Stops known.now (unary_values (scope_in library.now cx.old) op (expr_at library.now.nodes arg) at) cx.old f cx.new) }
{
    let values = walk(library, cx, arg, Need::Held, &[], known)?;
    let value = single(library, arg, &values)?;
    let list = unary_value(library.alloc(), cx, op, at, value)?;
    Ok(list)
}

/// One operand, of which these types are asked.
#[cycle(expression)]
fn operand(
    library: &Library,
    cx: &mut Context,
    e: ExprId,
    wants: &[Ty],
    known: &Known,
) -> Result<Value, ExprFault>
    requires id { e.number < length library.now.nodes.exprs }
    requires this { cx.old.this < length library.now.funs }
    ensures reads { IfOk result (λ v. Reads known.now (operand_of (scope_in library.now cx.old) (expr_at library.now.nodes e) wants.now) cx.old v cx.new) }
    ensures stops { IfErr result (λ f. Stops known.now (operand_of (scope_in library.now cx.old) (expr_at library.now.nodes e) wants.now) cx.old f cx.new) }
{
    let values = walk(
        library,
        cx,
        e,
        Need::Held,
        lone_wants(library, e, wants),
        known,
    )?;
    let value = single(library, e, &values)?;
    Ok(value)
}

/// Two operands in turn. A static one takes the type of the other, so on the left its number is told first and held against its type last.
#[cycle(expression)]
fn operands(
    library: &Library,
    cx: &mut Context,
    sides: (ExprId, ExprId),
    known: &Known,
) -> Result<(Value, Value), ExprFault>
    requires left { sides.0.number < length library.now.nodes.exprs }
    requires right { sides.1.number < length library.now.nodes.exprs }
    requires this { cx.old.this < length library.now.funs }
    ensures reads { IfOk result (λ r. Reads known.now (both_operands (scope_in library.now cx.old) (expr_at library.now.nodes sides.0) (expr_at library.now.nodes sides.1)) cx.old r cx.new) }
    ensures stops { IfErr result (λ f. Stops known.now (both_operands (scope_in library.now cx.old) (expr_at library.now.nodes sides.0) (expr_at library.now.nodes sides.1)) cx.old f cx.new) }
{
    if is_static(library, cx, sides.0) {
        static_number(library, cx, sides.0)?;
        let y = operand(library, cx, sides.1, &[], known)?;
        let x = operand(library, cx, sides.0, &[y.ty], known)?;
        Ok((x, y))
    } else {
        let x = operand(library, cx, sides.0, &[], known)?;
        let y = operand(library, cx, sides.1, &[x.ty], known)?;
        Ok((x, y))
    }
}

/// The values of a sign between its operands.
#[cycle(expression)]
fn binary(
    library: &Library,
    cx: &mut Context,
    op: BinaryOp,
    sides: (ExprId, ExprId),
    at: Spot,
    known: &Known,
) -> Result<ValueList, ExprFault>
    requires left { sides.0.number < length library.now.nodes.exprs }
    requires right { sides.1.number < length library.now.nodes.exprs }
    requires this { cx.old.this < length library.now.funs }
    ensures reads { IfOk result (λ vs. Reads known.now (binary_values (scope_in library.now cx.old) op (expr_at library.now.nodes sides.0) (expr_at library.now.nodes sides.1) at) cx.old vs cx.new) }
    ensures stops { IfErr result (λ f. Stops known.now (binary_values (scope_in library.now cx.old) op (expr_at library.now.nodes sides.0) (expr_at library.now.nodes sides.1) at) cx.old f cx.new) }
{
    let values = operands(library, cx, sides, known)?;
    let list = binary_value(library, cx, op, sides, at, values)?;
    Ok(list)
}

/// The values of a tuple's items, each asked for one of the types.
#[cycle(expression)]
fn tuple(
    library: &Library,
    cx: &mut Context,
    items: &[ExprId],
    need: Need,
    wants: &[Ty],
    known: &Known,
) -> Result<ValueList, ExprFault>
    requires ids { AreExprsBelow (length library.now.nodes.exprs) items.now }
    requires this { cx.old.this < length library.now.funs }
    ensures reads { IfOk result (λ vs. Reads known.now (arguments_of (expressions_of (expr_at library.now.nodes) items.now) (scope_in library.now cx.old) need (asked_of_items need wants.now)) cx.old vs cx.new) }
    ensures stops { IfErr result (λ f. Stops known.now (arguments_of (expressions_of (expr_at library.now.nodes) items.now) (scope_in library.now cx.old) need (asked_of_items need wants.now)) cx.old f cx.new) }
{
    let asks = asked_items(library.alloc(), need, wants)?;
    arguments(library, cx, items, need, asks.as_slice(), known)
}

// ---- what is asked

/// For a tuple the types asked go to its items.
fn asked_items(alloc: Global, need: Need, wants: &[Ty]) -> Result<List<Ask>, ExprFault>
    ensures asks { IfOk result (λ asks. all_asked asks ≡ asked_of_items need wants.now) }
    ensures memory { IfErr result (λ f. f ≡ stops.Fault checks.Memory) }
{
    let mut asks = List::new(alloc);
    for ty in wants {
        let want = Some(*ty);
        if asks.push(Ask { need, want }).is_err() {
            return Err(ExprFault::Fault(CheckFault::Memory));
        }
    }
    Ok(asks)
}

/// What is asked of an item; of those beyond the last, no type.
fn ask_at(asks: &[Ask], i: usize, other: Need) -> Ask
    ensures { asked_as result ≡ first_asked other (all_asked (drop i asks.now)) }
{
    match asks.get(i) {
        Some(ask) => *ask,
        None => Ask {
            need: other,
            want: None,
        },
    }
}

/// Where one value is asked a tuple is misplaced: no types are asked of its items.
fn lone_wants<'a>(library: &Library, e: ExprId, wants: &'a [Ty]) -> &'a [Ty]
    requires { e.number < length library.now.nodes.exprs }
    ensures { result.now ≡ wants_alone (expr_at library.now.nodes e) wants.now }
{
    if is_tuple(library, e) {
        return &wants[..0];
    }
    wants
}

/// Where one value is asked a tuple is misplaced: its items are held.
fn lone_need(library: &Library, e: ExprId, need: Need) -> Need
    requires { e.number < length library.now.nodes.exprs }
    ensures { result ≡ need_alone (expr_at library.now.nodes e) need }
{
    if is_tuple(library, e) {
        return Need::Held;
    }
    need
}

/// A place for the one type.
fn filled(want: Option<Ty>) -> [Ty; 1]
    ensures { IfSome want (λ t. result ≡ t ∷ []) }
{
    match want {
        Some(ty) => [ty],
        None => [Ty {
            classical: false,
            shape: Shape::Bit,
        }],
    }
}

/// The one type where it is asked, which stands in this list.
fn wanted<'a>(one: &'a [Ty], want: Option<Ty>) -> &'a [Ty]
    requires { IfSome want (λ t. one.now ≡ t ∷ []) }
    ensures { result.now ≡ types_of want }
{
    match want {
        Some(_) => one,
        None => &[],
    }
}

/// Adds a value at the end.
fn push(values: &mut ValueList, value: Value) -> Result<(), ExprFault>
    ensures ok { OnOk result (values.new ≡ values.old ++ value ∷ []) }
    ensures memory { IfErr result (λ f. f ≡ stops.Fault checks.Memory) }
{
    match values.push(value) {
        Ok(()) => Ok(()),
        Err(_) => Err(ExprFault::Fault(CheckFault::Memory)),
    }
}
