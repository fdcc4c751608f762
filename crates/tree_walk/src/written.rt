//! Static numbers and types as they are written, and what calls ask of their arguments.

ghost use Rattle.std.specs.Prelude.{◌≡◌, ◌<◌, ◌||◌, if◌then◌else◌, cond, map, flat_map, nat_abs, length, option_map, IfOk, Some, None};
ghost use Rattle.silq_tree.specs.Arena.{expr_at};
ghost use Rattle.silq_tree.specs.Children.{scalar_exprs, type_exprs, param_exprs, listed, AreExprsBelow};
ghost use Rattle.silq_tree.specs.Standing as standing;
ghost use Rattle.silq_types.specs.Types.{Statics as StaticValues, single_shape as shape_of_single, is_lifted as lifted};
ghost use Rattle.silq_mean.specs.Written.{is_count};
ghost use Rattle.static_num.specs.Static.{is_static as static_is};
ghost use Rattle.check_scope.specs.Library.{function_at};
ghost use Rattle.silq_types.specs.Programs.{paired as pairs_of};
ghost use Rattle.check_scope.specs.Used.{node_need};
ghost use Rattle.silq_mean.specs.declared.receiver.Receiver.TheVariants.{CallResult, EntryOutput};
ghost use Rattle.silq_mean.specs.Meaning as meaning;
ghost use Rattle.tree_walk.specs.Written.{size_told, scalar_told, shape_told, shape_by, node_type, param_taker, param_shape};
ghost use Rattle.tree_walk.specs.Written.{held_names as names_held, held_nodes};

use check_scope::Library;
use silq_mean::Receiver;
use silq_tree::node::{Mark, ParamNode, ScalarNode, TypeNode};
use silq_tree::{ExprId, NameId, Spot, Tree};
use silq_types::{List, Need, Scalar, Shape, Ty};
use static_num::{StaticFault, Statics, angle, eval};
use std::alloc::{AllocError, Global};

/// The most bits of a number.
const MOST_BITS: u32 = 64;

/// The most elements of an array.
const MOST_ITEMS: u32 = 4096;

// ---- static numbers

/// Whether an expression is static.
pub fn is_static(tree: &Tree, statics: &Statics, e: ExprId) -> bool
    requires { e.number < length tree.now.exprs }
    ensures { result ≡ static_is statics.now (expr_at tree.now e) }
{
    match eval(tree, e, statics) {
        Err(StaticFault::NotStatic) => false,
        _ => true,
    }
}

/// The value of a static expression; 0 where there is none.
pub fn static_value(tree: &Tree, statics: &Statics, e: ExprId) -> i64
    requires { e.number < length tree.now.exprs }
    ensures { result ≡ meaning.static_value statics.now (expr_at tree.now e) }
{
    match eval(tree, e, statics) {
        Ok(value) => value,
        Err(_) => 0,
    }
}

/// The values of static expressions.
#[tactic(auto, using(silq_tree::proofs::Lists::ids))]
pub fn static_values(
    alloc: Global,
    tree: &Tree,
    statics: &Statics,
    es: &[ExprId],
) -> Result<List<i64>, AllocError>
    requires { AreExprsBelow (length tree.now.exprs) es.now }
    ensures { IfOk result (λ values. values ≡ meaning.static_values (standing.expressions_of (expr_at tree.now) es.now) statics.now) }
{
    let mut values = List::new(alloc);
    for e in es {
        values.push(static_value(tree, statics, *e))?;
    }
    Ok(values)
}

/// The eighths of a turn of an angle; 0 where it is none.
pub fn eighths(tree: &Tree, statics: &Statics, e: ExprId) -> u8
    requires { e.number < length tree.now.exprs }
    ensures { result ≡ meaning.eighths statics.now (expr_at tree.now e) }
{
    match angle(tree, e, statics) {
        Ok(eighths) => eighths,
        Err(_) => 0,
    }
}

/// Static names with their values, as far as there are both.
pub fn paired(alloc: Global, names: &[NameId], values: &[i64]) -> Result<Statics, AllocError>
    ensures { IfOk result (λ statics. statics ≡ pairs_of names.now values.now) }
{
    let mut statics = Statics::new(alloc);
    for (name, value) in names.iter().zip(values) {
        statics.push((*name, *value))?;
    }
    Ok(statics)
}

// ---- types as they are written

/// A size from 1 to `most`.
fn sized(most: u32, size: i64) -> Option<u32>
    ensures { result ≡ (if is_count most size then Some (nat_abs size) else None) }
{
    match u32::try_from(size) {
        Ok(n) if 0 < n && n <= most => Some(n),
        _ => None,
    }
}

/// A static size from 1 to `most`.
fn size_of(tree: &Tree, statics: &Statics, most: u32, e: ExprId) -> Option<u32>
    requires { e.number < length tree.now.exprs }
    ensures { result ≡ size_told most statics.now (expr_at tree.now e) }
{
    match eval(tree, e, statics) {
        Ok(size) => sized(most, size),
        Err(_) => None,
    }
}

/// The type of one bit or one number, where its width has a value from 1 to 64.
fn known_scalar(tree: &Tree, statics: &Statics, ty: ScalarNode) -> Option<Scalar>
    requires { AreExprsBelow (length tree.now.exprs) (scalar_exprs ty) }
    ensures { result ≡ scalar_told statics.now (standing.scalar_of (expr_at tree.now) ty) }
{
    match ty {
        ScalarNode::Bit => Some(Scalar::Bit),
        ScalarNode::UInt(width) => Some(Scalar::UInt(size_of(tree, statics, MOST_BITS, width)?)),
        ScalarNode::Int(width) => Some(Scalar::Int(size_of(tree, statics, MOST_BITS, width)?)),
    }
}

/// What a single value is made of.
fn single_shape(scalar: Scalar) -> Shape
    ensures { result ≡ shape_of_single scalar }
{
    match scalar {
        Scalar::Bit => Shape::Bit,
        Scalar::UInt(width) => Shape::UInt(width),
        Scalar::Int(width) => Shape::Int(width),
    }
}

/// What a value is made of: an array whose length has a value from 1 to 4,096, or one element.
fn known_shape(
    tree: &Tree,
    statics: &Statics,
    scalar: Scalar,
    size: Option<ExprId>,
) -> Option<Shape>
    requires { AreExprsBelow (length tree.now.exprs) (listed size) }
    ensures { result ≡ shape_told statics.now (option_map (expr_at tree.now) size) scalar }
{
    match size {
        None => Some(single_shape(scalar)),
        Some(len) => Some(Shape::Array(scalar, size_of(tree, statics, MOST_ITEMS, len)?)),
    }
}

/// The type of a number with a type, told at a place; a bit where its width has no value.
#[tactic(auto, using(crate::proofs::WrittenTypes::scalar_is))]
pub fn scalar_of(tree: &Tree, statics: &Statics, ty: ScalarNode, at: Spot) -> Scalar
    requires { AreExprsBelow (length tree.now.exprs) (scalar_exprs ty) }
    ensures { result ≡ meaning.scalar_of statics.now (standing.scalar_of (expr_at tree.now) ty) at }
{
    match known_scalar(tree, statics, ty) {
        Some(scalar) => scalar,
        None => Scalar::Bit,
    }
}

/// What a value of a type is made of, where its sizes have values.
fn shape_of(tree: &Tree, statics: &Statics, ty: TypeNode) -> Option<Shape>
    requires { AreExprsBelow (length tree.now.exprs) (type_exprs ty) }
    ensures { result ≡ shape_by statics.now (option_map (expr_at tree.now) ty.size)
        (scalar_told statics.now (standing.scalar_of (expr_at tree.now) ty.scalar)) }
{
    let scalar = known_scalar(tree, statics, ty.scalar)?;
    known_shape(tree, statics, scalar, ty.size)
}

/// The type of a header; a bit where a size has no value.
#[tactic(auto, using(crate::proofs::WrittenTypes::type_is))]
pub fn type_of(tree: &Tree, statics: &Statics, ty: TypeNode) -> Ty
    requires { AreExprsBelow (length tree.now.exprs) (type_exprs ty) }
    ensures { result ≡ meaning.type_of statics.now (standing.type_of (expr_at tree.now) ty) }
{
    match shape_of(tree, statics, ty) {
        Some(shape) => Ty {
            classical: ty.classical,
            shape,
        },
        None => Ty {
            classical: false,
            shape: Shape::Bit,
        },
    }
}

// ---- what calls ask and take over; past the end of a list arguments are held

/// Whether a call holds the argument for this parameter of a function with this mark.
fn is_held(mark: Mark, param: ParamNode) -> bool
    ensures { result ≡ (param.held || lifted mark) }
{
    param.held || mark == Mark::Lifted
}

/// What a call asks of the argument for this parameter.
fn param_need(mark: Mark, param: ParamNode) -> Need
    ensures { result ≡ node_need mark param }
{
    if is_held(mark, param) {
        Need::Held
    } else {
        Need::Consumed
    }
}

/// What takes the arguments for these parameters over.
fn param_takers(
    alloc: Global,
    tree: &Tree,
    statics: &Statics,
    mark: Mark,
    params: &[ParamNode],
) -> Result<List<Receiver>, AllocError>
    requires { AreExprsBelow (length tree.now.exprs) (flat_map param_exprs params.now) }
    ensures { IfOk result (λ takers. takers ≡ map (param_taker statics.now (expr_at tree.now) mark) params.now) }
{
    let mut takers = List::new(alloc);
    for param in params {
        let ty = type_of(tree, statics, param.ty);
        takers.push(Receiver::Argument(param_need(mark, *param), ty))?;
    }
    Ok(takers)
}

/// What takes the arguments of a function with these static values over.
pub fn takers(library: &Library, fun: u32, statics: &Statics) -> Result<List<Receiver>, AllocError>
    requires { fun < length library.now.funs }
    ensures { IfOk result (λ takers. takers ≡ meaning.takers_of (meaning.params_of (function_at library.now fun) statics.now)) }
{
    let node = library.fun(fun);
    param_takers(
        library.alloc(),
        library.tree(),
        statics,
        node.mark,
        node.params.as_slice(),
    )
}

/// What takes a result over.
fn taker_of(entry: bool, ty: Ty) -> Receiver
    ensures { result ≡ cond entry EntryOutput CallResult ty }
{
    if entry {
        Receiver::EntryOutput(ty)
    } else {
        Receiver::CallResult(ty)
    }
}

/// What takes results of these types over.
fn result_takers(
    alloc: Global,
    tree: &Tree,
    statics: &Statics,
    entry: bool,
    results: &[TypeNode],
) -> Result<List<Receiver>, AllocError>
    requires { AreExprsBelow (length tree.now.exprs) (flat_map type_exprs results.now) }
    ensures { IfOk result (λ takers. takers ≡ map (λ t. cond entry EntryOutput CallResult (node_type statics.now (expr_at tree.now) t)) results.now) }
{
    let mut takers = List::new(alloc);
    for ty in results {
        takers.push(taker_of(entry, type_of(tree, statics, *ty)))?;
    }
    Ok(takers)
}

/// What takes the results of a function with these static values over: those of the entry, or of a call.
pub fn results(
    library: &Library,
    fun: u32,
    statics: &Statics,
    entry: bool,
) -> Result<List<Receiver>, AllocError>
    requires { fun < length library.now.funs }
    ensures { IfOk result (λ takers. takers ≡ map (λ t. cond entry EntryOutput CallResult (meaning.type_of statics.now t))
        (function_at library.now fun).results) }
{
    let node = library.fun(fun);
    result_takers(
        library.alloc(),
        library.tree(),
        statics,
        entry,
        node.results.as_slice(),
    )
}

/// The names of the parameters that a call holds.
fn held_params(alloc: Global, mark: Mark, params: &[ParamNode]) -> Result<List<NameId>, AllocError>
    ensures { IfOk result (λ names. names ≡ held_nodes mark params.now) }
{
    let mut names = List::new(alloc);
    for param in params {
        if is_held(mark, *param) {
            names.push(param.name)?;
        }
    }
    Ok(names)
}

/// The names of a function's const parameters, in order.
pub fn held_names(library: &Library, fun: u32) -> Result<List<NameId>, AllocError>
    requires { fun < length library.now.funs }
    ensures { (statics : StaticValues) → IfOk result (λ names. names ≡ names_held (meaning.params_of (function_at library.now fun) statics)) }
{
    let node = library.fun(fun);
    held_params(library.alloc(), node.mark, node.params.as_slice())
}

/// The names of parameters.
fn param_names(alloc: Global, params: &[ParamNode]) -> Result<List<NameId>, AllocError>
    ensures { IfOk result (λ names. names ≡ map (λ p. p.name) params.now) }
{
    let mut names = List::new(alloc);
    for param in params {
        names.push(param.name)?;
    }
    Ok(names)
}

/// The names of a function's parameters, in order.
pub fn names(library: &Library, fun: u32) -> Result<List<NameId>, AllocError>
    requires { fun < length library.now.funs }
    ensures { (statics : StaticValues) → IfOk result (λ names. names ≡ meaning.names_of (meaning.params_of (function_at library.now fun) statics)) }
{
    let node = library.fun(fun);
    param_names(library.alloc(), node.params.as_slice())
}

/// What the values of these parameters are made of.
fn param_shapes(
    alloc: Global,
    tree: &Tree,
    statics: &Statics,
    params: &[ParamNode],
) -> Result<List<Shape>, AllocError>
    requires { AreExprsBelow (length tree.now.exprs) (flat_map param_exprs params.now) }
    ensures { IfOk result (λ shapes. shapes ≡ map (param_shape statics.now (expr_at tree.now)) params.now) }
{
    let mut shapes = List::new(alloc);
    for param in params {
        let ty = type_of(tree, statics, param.ty);
        shapes.push(ty.shape)?;
    }
    Ok(shapes)
}

/// What the arguments of a function with these static values are made of.
pub fn shapes(library: &Library, fun: u32, statics: &Statics) -> Result<List<Shape>, AllocError>
    requires { fun < length library.now.funs }
    ensures { IfOk result (λ shapes. shapes ≡ map (λ p. p.2.shape) (meaning.params_of (function_at library.now fun) statics.now)) }
{
    let node = library.fun(fun);
    param_shapes(
        library.alloc(),
        library.tree(),
        statics,
        node.params.as_slice(),
    )
}
