//! Types as they are written, under static values.

ghost use Rattle.std.specs.Prelude.{◌≡◌, ◌<◌, ◌||◌, ◌&&◌, ◌++◌, if◌then◌else◌, [], map, flat_map, nat_abs, length, option_map, Ok, Err, IfOk, IfErr, Option, Some, None};
ghost use Rattle.silq_tree.specs.declared.node.ExprId.{ExprId as ExprNumber};
ghost use Rattle.silq_tree.specs.Syntax.{Expression};
ghost use Rattle.silq_tree.specs.Arena.{expr_at};
ghost use Rattle.silq_tree.specs.Children.{scalar_exprs, type_exprs, param_exprs, listed, AreExprsBelow};
ghost use Rattle.silq_tree.specs.Standing.{scalar_of, type_of, param_of};
ghost use Rattle.silq_types.specs.Rules.{bad_size};
ghost use Rattle.silq_mean.specs.Written.{all_known as known_all, header_of, header_type as header_type_of, is_count as is_counted, is_empty, length_of as length_at, moved_to as moved, needed_at as needed_value, param_types as types_of_params, result_types as types_of_results, scalar_by as scalar_of_width, scalar_type as scalar_type_of, shape_by as shape_of_length, width_of as width_at, width_spot as spot_of_width};
ghost use Rattle.silq_types.specs.Types.{first_unknown as first_of, is_lifted as lifted, scalar_names, single_shape as shape_of_single, size_names};
ghost use Rattle.check_scope.specs.declared.fault.CheckFault.TheVariants as checks;
ghost use Rattle.check_scope.specs.Context.{is_known_name};
ghost use Rattle.check_scope.specs.Headers.{spot_or};
ghost use Rattle.check_scope.specs.Library.{function_at};
ghost use Rattle.check_scope.specs.Reach.{is_in_reach, type_known};
ghost use Rattle.check_scope.specs.State.{scope_in};
ghost use Rattle.check_scope.specs.Steps.{IsFirst};

use crate::context::Context;
use crate::fault::CheckFault;
use crate::library::Library;
use crate::spots::spot_in;
use crate::{reach, rule, unknown};
use silq_tree::node::{Mark, ParamNode, ScalarNode, TypeNode};
use silq_tree::{ExprId, Spot, Tree};
use silq_types::{Param, ParamList, Scalar, Shape, Ty, TyList};
use static_num::{Statics, eval};
use std::alloc::Global;

/// The most bits of a number.
const MOST_BITS: u32 = 64;

/// The most elements of an array.
const MOST_ITEMS: u32 = 4096;

/// The types of a function under static values.
#[derive(Drop)]
pub struct Header {
    pub params: ParamList,
    pub results: TyList,
}

// ---- the parts of a type

/// Each name is known where no place of one is given that is not.
fn all_known(unknown: Option<Spot>) -> Result<(), CheckFault>
    ensures value { IfOk result (λ u. known_all unknown ≡ Ok u) }
    ensures fault { IfErr result (λ f. IsFirst f (known_all unknown)) }
{
    match unknown {
        None => Ok(()),
        Some(at) => Err(CheckFault::Broken {
            rule: rule::UNKNOWN_NAME,
            at,
        }),
    }
}

/// The value of an expression that has to be static.
fn needed_at(tree: &Tree, statics: &Statics, e: ExprId, at: Spot) -> Result<i64, CheckFault>
    requires { e.number < length tree.now.exprs }
    ensures value { IfOk result (λ z. needed_value statics.now (expr_at tree.now e) at ≡ Ok z) }
    ensures fault { IfErr result (λ f. IsFirst f (needed_value statics.now (expr_at tree.now e) at)) }
{
    match eval(tree, e, statics) {
        Ok(value) => Ok(value),
        Err(_) => Err(CheckFault::Broken {
            rule: rule::NOT_STATIC,
            at,
        }),
    }
}

/// The width of a type.
fn width_of(
    tree: &Tree,
    statics: &Statics,
    ty: ScalarNode,
    at: Spot,
) -> Result<Option<i64>, CheckFault>
    requires { AreExprsBelow (length tree.now.exprs) (scalar_exprs ty) }
    ensures value { IfOk result (λ w. width_at statics.now (scalar_of (expr_at tree.now) ty) at ≡ Ok w) }
    ensures fault { IfErr result (λ f. IsFirst f (width_at statics.now (scalar_of (expr_at tree.now) ty) at)) }
{
    match ty {
        ScalarNode::Bit => Ok(None),
        ScalarNode::UInt(width) => Ok(Some(needed_at(tree, statics, width, at)?)),
        ScalarNode::Int(width) => Ok(Some(needed_at(tree, statics, width, at)?)),
    }
}

/// The length of an array's type.
fn length_of(
    tree: &Tree,
    statics: &Statics,
    size: Option<ExprId>,
    at: Spot,
) -> Result<Option<i64>, CheckFault>
    requires { AreExprsBelow (length tree.now.exprs) (listed size) }
    ensures value { IfOk result (λ n. length_at statics.now (option_map (expr_at tree.now) size) at ≡ Ok n) }
    ensures fault { IfErr result (λ f. IsFirst f (length_at statics.now (option_map (expr_at tree.now) size) at)) }
{
    match size {
        None => Ok(None),
        Some(len) => Ok(Some(needed_at(tree, statics, len, at)?)),
    }
}

/// A size from 1 to `most`.
fn sized(most: u32, size: i64, at: Spot) -> Result<u32, CheckFault>
    ensures { result ≡ (if is_counted most size then Ok (nat_abs size) else Err (checks.Broken bad_size at)) }
{
    match u32::try_from(size) {
        Ok(n) if 0 < n && n <= most => Ok(n),
        _ => Err(CheckFault::Broken {
            rule: rule::BAD_SIZE,
            at,
        }),
    }
}

/// The type of a number with this width, 1 to 64.
fn scalar_by(ty: ScalarNode, width: Option<i64>, at: Spot) -> Result<Scalar, CheckFault>
    ensures value { (grown : ExprNumber → Expression) → IfOk result (λ k. scalar_of_width (scalar_of grown ty) width at ≡ Ok k) }
    ensures fault { (grown : ExprNumber → Expression) → IfErr result (λ f. IsFirst f (scalar_of_width (scalar_of grown ty) width at)) }
{
    let Some(width) = width else {
        return Ok(Scalar::Bit);
    };
    match ty {
        ScalarNode::Bit => Ok(Scalar::Bit),
        ScalarNode::UInt(_) => Ok(Scalar::UInt(sized(MOST_BITS, width, at)?)),
        ScalarNode::Int(_) => Ok(Scalar::Int(sized(MOST_BITS, width, at)?)),
    }
}

/// What a single value is made of.
fn single_shape(scalar: Scalar) -> Shape
    ensures { result ≡ shape_of_single scalar }
{
    match scalar {
        Scalar::Bit => Shape::Bit,
        Scalar::UInt(width) => Shape::UInt(width),
        Scalar::Int(width) => Shape::Int(width),
    }
}

/// What a value is made of: an array of this length, 1 to 4,096, or one element.
fn shape_by(scalar: Scalar, len: Option<i64>, at: Spot) -> Result<Shape, CheckFault>
    ensures value { IfOk result (λ h. shape_of_length scalar len at ≡ Ok h) }
    ensures fault { IfErr result (λ f. IsFirst f (shape_of_length scalar len at)) }
{
    match len {
        None => Ok(single_shape(scalar)),
        Some(len) => Ok(Shape::Array(scalar, sized(MOST_ITEMS, len, at)?)),
    }
}

/// The first token of a width, or this place where there is none.
fn width_spot(tree: &Tree, ty: ScalarNode, at: Spot) -> Spot
    requires { AreExprsBelow (length tree.now.exprs) (scalar_exprs ty) }
    ensures { result ≡ spot_of_width (scalar_of (expr_at tree.now) ty) at }
{
    match ty {
        ScalarNode::Bit => at,
        ScalarNode::UInt(width) => spot_in(tree, width),
        ScalarNode::Int(width) => spot_in(tree, width),
    }
}

/// Each name in the width of a type is known.
fn width_known(library: &Library, cx: &Context, ty: ScalarNode) -> Result<(), CheckFault>
    requires { AreExprsBelow (length library.now.nodes.exprs) (scalar_exprs ty) }
    ensures value { IfOk result (λ u. known_all (first_of (is_known_name (scope_in library.now cx.now) cx.now.vars) (scalar_names (scalar_of (expr_at library.now.nodes) ty))) ≡ Ok u) }
    ensures fault { IfErr result (λ f. IsFirst f (known_all (first_of (is_known_name (scope_in library.now cx.now) cx.now.vars) (scalar_names (scalar_of (expr_at library.now.nodes) ty))))) }
{
    all_known(unknown::unknown_in_width(library, cx, ty))
}

/// The width of a type, with its fault at its first token.
fn own_width(
    tree: &Tree,
    statics: &Statics,
    ty: ScalarNode,
    at: Spot,
) -> Result<Option<i64>, CheckFault>
    requires { AreExprsBelow (length tree.now.exprs) (scalar_exprs ty) }
    ensures value { IfOk result (λ w. width_at statics.now (scalar_of (expr_at tree.now) ty) (spot_of_width (scalar_of (expr_at tree.now) ty) at) ≡ Ok w) }
    ensures fault { IfErr result (λ f. IsFirst f (width_at statics.now (scalar_of (expr_at tree.now) ty) (spot_of_width (scalar_of (expr_at tree.now) ty) at))) }
{
    width_of(tree, statics, ty, width_spot(tree, ty, at))
}

/// The type of a number at this place: the names of its width first, then the width's value, then its size, 1 to 64.
pub fn scalar_type(
    library: &Library,
    cx: &Context,
    ty: ScalarNode,
    at: Spot,
) -> Result<Scalar, CheckFault>
    requires { AreExprsBelow (length library.now.nodes.exprs) (scalar_exprs ty) }
    ensures value { IfOk result (λ k. scalar_type_of cx.now.statics (is_known_name (scope_in library.now cx.now) cx.now.vars) (scalar_of (expr_at library.now.nodes) ty) at ≡ Ok k) }
    ensures fault { IfErr result (λ f. IsFirst f (scalar_type_of cx.now.statics (is_known_name (scope_in library.now cx.now) cx.now.vars) (scalar_of (expr_at library.now.nodes) ty) at)) }
{
    width_known(library, cx, ty)?;
    let width = own_width(library.tree(), cx.statics(), ty, at)?;
    let scalar = scalar_by(ty, width, at)?;
    Ok(scalar)
}

// ---- the types of a header

/// Each fault of a header's type stands at one place.
fn moved_to(at: Spot, unknown: Option<Spot>) -> Option<Spot>
    ensures { result ≡ moved at unknown }
{
    match unknown {
        None => None,
        Some(_) => Some(at),
    }
}

/// The first name in a type that has no value.
#[tactic(auto, using(silq_tree::proofs::Lists::ids, crate::proofs::Reached::first_unknown_in_both))]
fn unknown_in_type(tree: &Tree, statics: &Statics, ty: TypeNode) -> Option<Spot>
    requires { AreExprsBelow (length tree.now.exprs) (type_exprs ty) }
    ensures { result ≡ first_of (is_in_reach statics.now []) (scalar_names (scalar_of (expr_at tree.now) ty.scalar) ++ size_names (option_map (expr_at tree.now) ty.size)) }
{
    if let Some(spot) = reach::unknown_in_width(tree, statics, ty.scalar) {
        return Some(spot);
    }
    match ty.size {
        None => None,
        Some(len) => reach::first_unknown(tree, statics, len),
    }
}

/// Each name in a type has a value.
fn names_known(tree: &Tree, statics: &Statics, ty: TypeNode, at: Spot) -> Result<(), CheckFault>
    requires { AreExprsBelow (length tree.now.exprs) (type_exprs ty) }
    ensures value { IfOk result (λ u. type_known statics.now (scalar_of (expr_at tree.now) ty.scalar) (option_map (expr_at tree.now) ty.size) at ≡ Ok u) }
    ensures fault { IfErr result (λ f. IsFirst f (type_known statics.now (scalar_of (expr_at tree.now) ty.scalar) (option_map (expr_at tree.now) ty.size) at)) }
{
    all_known(moved_to(at, unknown_in_type(tree, statics, ty)))
}

/// A type of a header, with its faults at this place.
fn header_type(tree: &Tree, statics: &Statics, ty: TypeNode, at: Spot) -> Result<Ty, CheckFault>
    requires { AreExprsBelow (length tree.now.exprs) (type_exprs ty) }
    ensures value { IfOk result (λ t. header_type_of statics.now (type_of (expr_at tree.now) ty) at ≡ Ok t) }
    ensures fault { IfErr result (λ f. IsFirst f (header_type_of statics.now (type_of (expr_at tree.now) ty) at)) }
{
    names_known(tree, statics, ty, at)?;
    let width = width_of(tree, statics, ty.scalar, at)?;
    let len = length_of(tree, statics, ty.size, at)?;
    let scalar = scalar_by(ty.scalar, width, at)?;
    let shape = shape_by(scalar, len, at)?;
    Ok(Ty {
        classical: ty.classical,
        shape,
    })
}

/// The place itself, or one that is given.
fn given_or(at: Option<Spot>, spot: Spot) -> Spot
    ensures { result ≡ spot_or at spot }
{
    match at {
        None => spot,
        Some(at) => at,
    }
}

/// Whether a function's parameters are all held.
fn is_lifted(mark: Mark) -> bool
    ensures { result ≡ lifted mark }
{
    match mark {
        Mark::Lifted => true,
        Mark::Plain => false,
        Mark::Mfree => false,
        Mark::Qfree => false,
    }
}

/// Whether a call holds the argument for this parameter of a function with this mark.
pub(crate) fn is_held(param: ParamNode, mark: Mark) -> bool
    ensures { result ≡ (param.held || lifted mark) }
{
    param.held || is_lifted(mark)
}

/// The types of parameters.
#[tactic(auto, using(crate::proofs::HeaderLists::param_below))]
fn param_types(
    alloc: Global,
    tree: &Tree,
    statics: &Statics,
    mark: Mark,
    at: Option<Spot>,
    params: &[ParamNode],
) -> Result<ParamList, CheckFault>
    requires { AreExprsBelow (length tree.now.exprs) (flat_map param_exprs params.now) }
    ensures value { IfOk result (λ ps. types_of_params statics.now mark (spot_or at) (map (param_of (expr_at tree.now)) params.now) ≡ Ok ps) }
    ensures fault { IfErr result (λ f. IsFirst f (types_of_params statics.now mark (spot_or at) (map (param_of (expr_at tree.now)) params.now))) }
{
    let mut types = ParamList::new(alloc);
    for param in params {
        let ty = header_type(tree, statics, param.ty, given_or(at, param.ty.at))?;
        let held = is_held(*param, mark);
        types.push(Param { ty, held })?;
    }
    Ok(types)
}

/// The types of results.
#[tactic(auto, using(crate::proofs::HeaderLists::result_below))]
fn result_types(
    alloc: Global,
    tree: &Tree,
    statics: &Statics,
    at: Option<Spot>,
    results: &[TypeNode],
) -> Result<TyList, CheckFault>
    requires { AreExprsBelow (length tree.now.exprs) (flat_map type_exprs results.now) }
    ensures value { IfOk result (λ ts. types_of_results statics.now (spot_or at) (map (type_of (expr_at tree.now)) results.now) ≡ Ok ts) }
    ensures fault { IfErr result (λ f. IsFirst f (types_of_results statics.now (spot_or at) (map (type_of (expr_at tree.now)) results.now))) }
{
    let mut types = TyList::new(alloc);
    for ty in results {
        let typed = header_type(tree, statics, *ty, given_or(at, ty.at))?;
        types.push(typed)?;
    }
    Ok(types)
}

/// Whether a function with this mark lacks a result.
fn lacks_result(mark: Mark, results: &[TypeNode]) -> bool
    ensures { (grown : ExprNumber → Expression) → result ≡ (lifted mark && is_empty (map (type_of grown) results.now)) }
{
    match results {
        [] => is_lifted(mark),
        [_, ..] => false,
    }
}

/// The types of the parameters and of the results of a function. Each fault stands at its type, or where a place is given, there.
pub fn header_types(
    library: &Library,
    statics: &Statics,
    fun: u32,
    at: Option<Spot>,
) -> Result<Header, CheckFault>
    requires { fun < length library.now.funs }
    ensures value { IfOk result (λ h. header_of statics.now (spot_or at) (function_at library.now fun) ≡ Ok (record { params = h.params; results = h.results })) }
    ensures fault { IfErr result (λ f. IsFirst f (header_of statics.now (spot_or at) (function_at library.now fun))) }
{
    let node = library.fun(fun);
    let tree = library.tree();
    let params = param_types(
        library.alloc(),
        tree,
        statics,
        node.mark,
        at,
        node.params.as_slice(),
    )?;
    let results = result_types(library.alloc(), tree, statics, at, node.results.as_slice())?;
    if lacks_result(node.mark, node.results.as_slice()) {
        return Err(CheckFault::Broken {
            rule: rule::LIFTED_WITHOUT_RESULT,
            at: node.at,
        });
    }
    Ok(Header { params, results })
}
