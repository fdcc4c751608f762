//! The types of an expression's values, told without a walk. Of an expression that the rules refuse any types are told.

ghost use Rattle.std.specs.Prelude.{◌≡◌, ◌<◌, ◌∷◌, [], length, not, is_some, option_map, List as Listed, IfOk};
ghost use Rattle.silq_tree.specs.Arena.{expr_at};
ghost use Rattle.silq_tree.specs.Children.{place_exprs, scalar_exprs, AreExprsBelow, HasFirst};
ghost use Rattle.silq_tree.specs.Standing.{place_of, scalar_of};
ghost use Rattle.static_num.specs.Static.{is_static as static_is};
ghost use Rattle.silq_types.specs.declared.types.Ty.{Ty as Types};
ghost use Rattle.silq_types.specs.declared.values.Value.{Value as Values};
ghost use Rattle.silq_mean.specs.Written.{scalar_type as type_of_scalar};
ghost use Rattle.silq_types.specs.declared.need.Need.{Need as Needs};
ghost use Rattle.check_scope.specs.Context.{is_known_name};
ghost use Rattle.check_scope.specs.State.{State, scope_in};
ghost use Rattle.check_scope.specs.Steps.{Reads};
ghost use Rattle.silq_types.specs.Calls.{built_in, find_fun};
ghost use Rattle.check_scope.specs.Uses.{index_values};
ghost use Rattle.check_expr.specs.Calls.{items as items_of};
ghost use Rattle.check_expr.specs.Expression.{expr as expr_of, binary_shape as shape_of_binary};
ghost use Rattle.check_expr.specs.Shapes.{any_type as no_type, first_type as type_first, scalar_told, part_of_place, part_told, joined_type as type_joined, binary_type as type_of_binary, gate_type as type_of_gate, length_told as told_length, built_in_type as type_of_built_in, result_types as types_of_results, instance_types, call_types as types_of_call, type_of, first_item as type_of_first, second_item, item_types as types_of_items, types_of, some_static as static_some, has_static as static_within, shape_of};

use crate::built_in::{as_count, repeated};
use crate::operators::binary_shape;
use crate::values::{is_static, single_type};
use check_scope::context::Context;
use check_scope::fault::CheckFault;
use check_scope::header::scalar_type;
use check_scope::library::Library;
use check_scope::part_types::part_type;
use check_scope::unknown::variable;
use silq_tree::node::{PlaceNode, ScalarNode};
use silq_tree::{BinaryOp, Expr, ExprId, FunId, NameId, Spot};
use silq_types::{BuiltIn, InstanceKey, Known, Part, Returned, Shape, StaticList, Ty, TyList};
use static_num::eval;
use std::alloc::{AllocError, Global};

// ---- single types

/// Any type, where an expression is refused.
fn any_type() -> Ty
    ensures { result ≡ no_type }
{
    Ty {
        classical: false,
        shape: Shape::Bit,
    }
}

/// The first type.
fn first_type(types: &[Ty]) -> Ty
    ensures { result ≡ type_first types.now }
{
    match types {
        [] => any_type(),
        [ty, ..] => *ty,
    }
}

/// The type of a number with a written type.
fn number_type(library: &Library, cx: &Context, ty: ScalarNode, at: Spot) -> Result<Ty, AllocError>
    requires { AreExprsBelow (length library.now.nodes.exprs) (scalar_exprs ty) }
    ensures { IfOk result (λ t. t ≡ scalar_told (type_of_scalar cx.now.statics (is_known_name (scope_in library.now cx.now) cx.now.vars) (scalar_of (expr_at library.now.nodes) ty) at)) }
{
    match scalar_type(library, cx, ty, at) {
        Ok(scalar) => Ok(single_type(scalar)),
        Err(CheckFault::Memory) => Err(AllocError),
        Err(_) => Ok(any_type()),
    }
}

// ---- places

/// The part that a place names, where each index has a value.
fn part_of(library: &Library, cx: &Context, place: PlaceNode) -> Option<Part>
    requires parts { AreExprsBelow (length library.now.nodes.exprs) (place_exprs place) }
    requires first { HasFirst place }
    ensures { result ≡ part_of_place cx.now.statics (place_of (expr_at library.now.nodes) place) }
{
    let name = place.name;
    let Some(i) = place.first else {
        return Some(variable(name));
    };
    let first = Some(eval(library.tree(), i, cx.statics()).ok()?);
    let Some(j) = place.second else {
        return Some(Part {
            name,
            first,
            second: None,
        });
    };
    let second = Some(eval(library.tree(), j, cx.statics()).ok()?);
    Some(Part {
        name,
        first,
        second,
    })
}

/// The type of a variable, or of a part of one.
fn place_type(library: &Library, cx: &Context, place: PlaceNode) -> Ty
    requires parts { AreExprsBelow (length library.now.nodes.exprs) (place_exprs place) }
    requires first { HasFirst place }
    ensures { result ≡ part_told cx.now.vars place.name (part_of_place cx.now.statics (place_of (expr_at library.now.nodes) place)) }
{
    let Some(part) = part_of(library, cx, place) else {
        return any_type();
    };
    if let Some(var) = cx.find(part) {
        return var.ty;
    }
    match cx.find(variable(place.name)) {
        Some(var) => match part_type(var.ty, part) {
            Some(ty) => ty,
            None => any_type(),
        },
        None => any_type(),
    }
}

// ---- operators

/// The type of a sign between operands of these types.
fn joined_type(op: BinaryOp, left: Ty, right: Ty) -> Ty
    ensures { result ≡ type_joined op left right }
{
    Ty {
        classical: left.classical && right.classical,
        shape: binary_shape(op, left.shape),
    }
}

/// The type of a sign between its operands. A static one takes the type of the other.
#[cycle(shape)]
#[tactic(auto, using(silq_tree::proofs::Lists::ids))]
fn binary_type(
    library: &Library,
    cx: &Context,
    op: BinaryOp,
    sides: (ExprId, ExprId),
    known: &Known,
) -> Result<Ty, AllocError>
    requires left { sides.0.number < length library.now.nodes.exprs }
    requires right { sides.1.number < length library.now.nodes.exprs }
    ensures { IfOk result (λ t. t ≡ type_of_binary op (static_is cx.now.statics (expr_at library.now.nodes sides.0)) (static_is cx.now.statics (expr_at library.now.nodes sides.1)) (type_of (expr_at library.now.nodes sides.0) (scope_in library.now cx.now) cx.now.vars known.now) (type_of (expr_at library.now.nodes sides.1) (scope_in library.now cx.now) cx.now.vars known.now)) }
{
    if is_static(library, cx, sides.0) {
        let right = type_at(library, cx, sides.1, known)?;
        return Ok(joined_type(op, right, right));
    }
    let left = type_at(library, cx, sides.0, known)?;
    if is_static(library, cx, sides.1) {
        return Ok(joined_type(op, left, left));
    }
    let right = type_at(library, cx, sides.1, known)?;
    Ok(joined_type(op, left, right))
}

// ---- calls

/// What a gate, `dup` or `measure` makes of a type.
fn gate_type(gate: BuiltIn, ty: Ty) -> Ty
    ensures { result ≡ type_of_gate gate ty }
{
    Ty {
        classical: matches!(gate, BuiltIn::Measure),
        shape: ty.shape,
    }
}

/// The length of a call of `vector`; 0 where it is none.
fn length_told(library: &Library, cx: &Context, args: &[ExprId]) -> u32
    requires { AreExprsBelow (length library.now.nodes.exprs) args.now }
    ensures { result ≡ told_length cx.now.statics (items_of library.now args.now) }
{
    let [len, ..] = args else {
        return 0;
    };
    let Ok(len) = eval(library.tree(), *len, cx.statics()) else {
        return 0;
    };
    match as_count(len) {
        Some(n) => n,
        None => 0,
    }
}

/// The type of the first argument.
#[cycle(shape)]
#[tactic(auto, using(silq_tree::proofs::Lists::ids))]
fn first_item(
    library: &Library,
    cx: &Context,
    args: &[ExprId],
    known: &Known,
) -> Result<Ty, AllocError>
    requires { AreExprsBelow (length library.now.nodes.exprs) args.now }
    ensures { IfOk result (λ t. t ≡ type_of_first (items_of library.now args.now) (scope_in library.now cx.now) cx.now.vars known.now) }
{
    match args {
        [] => Ok(any_type()),
        [e, ..] => type_at(library, cx, *e, known),
    }
}

/// The type of a call of `vector`.
#[cycle(shape)]
#[tactic(auto, using(silq_tree::proofs::Lists::ids))]
fn vector_type(
    library: &Library,
    cx: &Context,
    args: &[ExprId],
    known: &Known,
) -> Result<Ty, AllocError>
    requires { AreExprsBelow (length library.now.nodes.exprs) args.now }
    ensures { IfOk result (λ t. t ≡ type_of_built_in BuiltIn.Vector (told_length cx.now.statics (items_of library.now args.now)) (type_of_first (items_of library.now args.now) (scope_in library.now cx.now) cx.now.vars known.now) (second_item (items_of library.now args.now) (scope_in library.now cx.now) cx.now.vars known.now)) }
{
    let item = match args {
        [] => any_type(),
        [_, rest @ ..] => first_item(library, cx, rest, known)?,
    };
    let shape = repeated(item.shape, length_told(library, cx, args));
    Ok(Ty {
        classical: false,
        shape,
    })
}

/// The type of a call of a built-in function.
#[cycle(shape)]
#[tactic(auto, using(silq_tree::proofs::Lists::ids))]
fn built_in_type(
    library: &Library,
    cx: &Context,
    fun: BuiltIn,
    args: &[ExprId],
    known: &Known,
) -> Result<Ty, AllocError>
    requires { AreExprsBelow (length library.now.nodes.exprs) args.now }
    ensures { IfOk result (λ t. t ≡ type_of_built_in fun (told_length cx.now.statics (items_of library.now args.now)) (type_of_first (items_of library.now args.now) (scope_in library.now cx.now) cx.now.vars known.now) (second_item (items_of library.now args.now) (scope_in library.now cx.now) cx.now.vars known.now)) }
{
    match fun {
        BuiltIn::Vector => vector_type(library, cx, args, known),
        _ => Ok(gate_type(fun, first_item(library, cx, args, known)?)),
    }
}

/// The values of static arguments, where each has one.
#[tactic(auto, using(silq_tree::proofs::Lists::ids))]
fn static_values(
    library: &Library,
    cx: &Context,
    args: &[ExprId],
) -> Result<Option<StaticList>, AllocError>
    requires { AreExprsBelow (length library.now.nodes.exprs) args.now }
    ensures { IfOk result (λ zs. zs ≡ index_values cx.now.statics (items_of library.now args.now)) }
{
    let mut values = StaticList::new(library.alloc());
    for e in args {
        let Ok(value) = eval(library.tree(), *e, cx.statics()) else {
            return Ok(None);
        };
        values.push(value)?;
    }
    Ok(Some(values))
}

/// The types of results.
fn result_types(alloc: Global, results: &[Returned]) -> Result<TyList, AllocError>
    ensures { IfOk result (λ ts. ts ≡ types_of_results results.now) }
{
    let mut types = TyList::new(alloc);
    for returned in results {
        types.push(returned.ty)?;
    }
    Ok(types)
}

/// The types of the results of an instance; none where it is not known.
fn own_types(
    library: &Library,
    cx: &Context,
    fun: u32,
    statics: &[ExprId],
    known: &Known,
) -> Result<TyList, AllocError>
    requires { AreExprsBelow (length library.now.nodes.exprs) statics.now }
    ensures { IfOk result (λ ts. ts ≡ instance_types known.now fun (index_values cx.now.statics (items_of library.now statics.now))) }
{
    let Some(statics) = static_values(library, cx, statics)? else {
        return Ok(TyList::new(library.alloc()));
    };
    let fun = FunId { number: fun };
    let key = InstanceKey { fun, statics };
    match known.get(&key) {
        Some(signed) => result_types(library.alloc(), signed.results.as_slice()),
        None => Ok(TyList::new(library.alloc())),
    }
}

/// The list of one type.
fn lone(alloc: Global, ty: Ty) -> Result<TyList, AllocError>
    ensures { IfOk result (λ ts. ts ≡ ty ∷ []) }
{
    let mut types = TyList::new(alloc);
    types.push(ty)?;
    Ok(types)
}

/// The types of the values of a call.
#[cycle(shape)]
#[tactic(auto, using(silq_tree::proofs::Lists::ids))]
fn call_types(
    library: &Library,
    cx: &Context,
    fun: NameId,
    statics: &[ExprId],
    args: &[ExprId],
    known: &Known,
) -> Result<TyList, AllocError>
    requires static_ids { AreExprsBelow (length library.now.nodes.exprs) statics.now }
    requires ids { AreExprsBelow (length library.now.nodes.exprs) args.now }
    ensures { IfOk result (λ ts. ts ≡ types_of_call cx.now.statics known.now (built_in library.now.words fun) (find_fun (scope_in library.now cx.now).before fun) (items_of library.now statics.now) (items_of library.now args.now) (type_of_first (items_of library.now args.now) (scope_in library.now cx.now) cx.now.vars known.now) (second_item (items_of library.now args.now) (scope_in library.now cx.now) cx.now.vars known.now)) }
{
    match library.built_in(fun) {
        Some(word) => {
            let ty = built_in_type(library, cx, word, args, known)?;
            lone(library.alloc(), ty)
        }
        None => match library.find(fun, cx.this()) {
            Some(number) => own_types(library, cx, number, statics, known),
            None => Ok(TyList::new(library.alloc())),
        },
    }
}

// ---- expressions

/// The type of the one value of an expression.
#[cycle(shape)]
#[tactic(auto, using(silq_tree::proofs::Lists::ids))]
fn type_at(library: &Library, cx: &Context, e: ExprId, known: &Known) -> Result<Ty, AllocError>
    requires { e.number < length library.now.nodes.exprs }
    ensures { IfOk result (λ t. t ≡ type_of (expr_at library.now.nodes e) (scope_in library.now cx.now) cx.now.vars known.now) }
{
    match library.tree().expr(e) {
        Expr::Number { ty, at, .. } => match ty {
            None => Ok(any_type()),
            Some(ty) => number_type(library, cx, *ty, *at),
        },
        Expr::Truth { .. } => Ok(any_type()),
        Expr::Pi { .. } => Ok(any_type()),
        Expr::Place { place, .. } => Ok(place_type(library, cx, *place)),
        Expr::Call {
            fun,
            statics,
            args,
            ..
        } => {
            let types = call_types(
                library,
                cx,
                *fun,
                statics.as_slice(),
                args.as_slice(),
                known,
            )?;
            Ok(first_type(types.as_slice()))
        }
        Expr::Tuple { .. } => Ok(any_type()),
        Expr::Unary { arg, .. } => type_at(library, cx, *arg, known),
        Expr::Binary {
            op,
            left,
            right,
            ..
        } => binary_type(library, cx, *op, (*left, *right), known),
    }
}

/// The types of items, one of each.
#[tactic(auto, using(silq_tree::proofs::Lists::ids))]
fn item_types(
    library: &Library,
    cx: &Context,
    items: &[ExprId],
    known: &Known,
) -> Result<TyList, AllocError>
    requires { AreExprsBelow (length library.now.nodes.exprs) items.now }
    ensures { IfOk result (λ ts. ts ≡ types_of_items (items_of library.now items.now) (scope_in library.now cx.now) cx.now.vars known.now) }
{
    let mut types = TyList::new(library.alloc());
    for item in items {
        types.push(type_at(library, cx, *item, known)?)?;
    }
    Ok(types)
}

/// The types of all values of an expression.
#[tactic(auto, using(silq_tree::proofs::Lists::ids))]
fn types_at(library: &Library, cx: &Context, e: ExprId, known: &Known) -> Result<TyList, AllocError>
    requires { e.number < length library.now.nodes.exprs }
    ensures { IfOk result (λ ts. ts ≡ types_of (expr_at library.now.nodes e) (scope_in library.now cx.now) cx.now.vars known.now) }
{
    match library.tree().expr(e) {
        Expr::Tuple { items, .. } => item_types(library, cx, items.as_slice(), known),
        Expr::Call {
            fun,
            statics,
            args,
            ..
        } => call_types(
            library,
            cx,
            *fun,
            statics.as_slice(),
            args.as_slice(),
            known,
        ),
        _ => {
            let ty = type_at(library, cx, e, known)?;
            lone(library.alloc(), ty)
        }
    }
}

// ---- types that come from where an expression stands

/// Whether one of these is static.
#[tactic(auto, using(silq_tree::proofs::Lists::ids))]
fn some_static(library: &Library, cx: &Context, items: &[ExprId]) -> bool
    requires { AreExprsBelow (length library.now.nodes.exprs) items.now }
    ensures { result ≡ static_some cx.now.statics (items_of library.now items.now) }
{
    for item in items {
        if is_static(library, cx, *item) {
            return true;
        }
    }
    false
}

/// Whether an expression is static, or a tuple with a static item.
#[tactic(auto, using(silq_tree::proofs::Lists::ids))]
fn has_static(library: &Library, cx: &Context, e: ExprId) -> bool
    requires { e.number < length library.now.nodes.exprs }
    ensures { result ≡ static_within cx.now.statics (expr_at library.now.nodes e) }
{
    match library.tree().expr(e) {
        Expr::Tuple { items, .. } => some_static(library, cx, items.as_slice()),
        _ => is_static(library, cx, e),
    }
}

/// The types of the values of an expression that the rules accept here. None where it is static, or a tuple that has a static
/// item: such types come from where the expression stands. The context stays as it is.
pub fn shape(
    library: &Library,
    cx: &Context,
    e: ExprId,
    known: &Known,
) -> Result<Option<TyList>, AllocError>
    requires id { e.number < length library.now.nodes.exprs }
    ensures static_type { IfOk result (λ ts. is_some ts ≡ not (static_within cx.now.statics (expr_at library.now.nodes e))) }
    ensures types { (need : Needs) (wants : Listed Types) (vs : Listed Values) (s : State) → IfOk result (λ ts. Reads known.now (expr_of (expr_at library.now.nodes e) (scope_in library.now cx.now) need wants) cx.now vs s → ts ≡ shape_of cx.now.statics (expr_at library.now.nodes e) vs) }
{
    if has_static(library, cx, e) {
        return Ok(None);
    }
    let types = types_at(library, cx, e, known)?;
    Ok(Some(types))
}
