//! How deep expressions are.

ghost use Rattle.std.specs.Prelude.{◌≡◌, ◌+◌, ◌<◌, ◌≤◌, length, true, false, ℕ, nat_lt, slice_index, option_map};
ghost use Rattle.silq_tree.specs.Arena.{expr_at};
ghost use Rattle.silq_tree.specs.Standing.{expressions_of, scalar_of};
ghost use Rattle.silq_tree.specs.Children.{AreExprsBelow, scalar_exprs, number_exprs, listed};
ghost use Rattle.silq_print.specs.Ways as spec;
ghost use Rattle.silq_print.specs.Ways.{greater, least, ways};
ghost use Rattle.silq_print.specs.Styles.{fits, nth_way, tight_by, number_of};
ghost use Rattle.silq_print.specs.Depths.{capped, lesser, low, operand_low, scalar_low, number_low, index_low, deepest, AreDepths, least_of, longer_at, only_at, chain_at};

use crate::expr::top_level;
use crate::level::{Level, goes_on, left_level, rank, right_level};
use crate::style::Style;
use silq_tree::{Expr, ExprId, PlaceNode, ScalarNode, Tree};

/// More than the nest of 64, or no way at all.
const TOO_DEEP: u8 = 65;

/// The greater of two depths.
fn greater(a: u8, b: u8) -> u8
    ensures { result ≡ greater a b }
{
    if a <= b { b } else { a }
}

/// The lesser of two depths.
fn lesser(a: u8, b: u8) -> u8
    ensures { result ≡ lesser a b }
{
    if a <= b { a } else { b }
}

/// A depth behind so many signs.
fn behind(signs: u8, depth: u8) -> u8
    requires signs { signs ≤ 64 }
    requires depth { depth ≤ 65 }
    ensures { result ≡ capped (signs + depth) }
{
    (signs + depth).min(TOO_DEEP)
}

/// The most nest that one of these expressions adds.
#[cycle(depth)]
#[tactic(auto, using(silq_tree::proofs::Lists::ids))]
fn deepest(tree: &Tree, ids: &[ExprId], tight: bool) -> u8
    requires { AreExprsBelow (length tree.now.exprs) ids.now }
    ensures { result ≡ capped (deepest tight (expressions_of (expr_at tree.now) ids.now)) }
{
    let mut most = 0;
    for id in ids {
        most = greater(most, depth(tree, *id, tight));
    }
    most
}

/// How much nest the width of a scalar type adds.
#[cycle(depth)]
#[tactic(auto, using(silq_tree::proofs::Lists::ids))]
fn width_depth(tree: &Tree, ty: ScalarNode, tight: bool) -> u8
    requires { AreExprsBelow (length tree.now.exprs) (scalar_exprs ty) }
    ensures { result ≡ capped (scalar_low tight (scalar_of (expr_at tree.now) ty)) }
{
    match ty {
        ScalarNode::Bit => 0,
        ScalarNode::UInt(width) => behind(1, depth(tree, width, tight)),
        ScalarNode::Int(width) => behind(1, depth(tree, width, tight)),
    }
}

/// How much nest the type of a number adds, where it has one.
#[cycle(depth)]
#[tactic(auto, using(silq_tree::proofs::Lists::ids))]
fn number_depth(tree: &Tree, ty: Option<ScalarNode>, tight: bool) -> u8
    requires { AreExprsBelow (length tree.now.exprs) (number_exprs ty) }
    ensures { result ≡ capped (number_low tight (number_of (expr_at tree.now) ty)) }
{
    match ty {
        Some(scalar) => width_depth(tree, scalar, tight),
        None => 0,
    }
}

/// How much nest an index adds, where there is one.
#[cycle(depth)]
#[tactic(auto, using(silq_tree::proofs::Lists::ids))]
fn index_depth(tree: &Tree, index: Option<ExprId>, tight: bool) -> u8
    requires { AreExprsBelow (length tree.now.exprs) (listed index) }
    ensures { result ≡ capped (index_low tight (option_map (expr_at tree.now) index)) }
{
    match index {
        Some(e) => behind(1, depth(tree, e, tight)),
        None => 0,
    }
}

/// How much nest an operand of this level adds.
#[cycle(depth)]
#[tactic(auto, using(silq_tree::proofs::Lists::ids))]
fn operand_depth(tree: &Tree, e: ExprId, level: Level, tight: bool) -> u8
    requires { e.number < length tree.now.exprs }
    ensures { result ≡ capped (operand_low level tight (expr_at tree.now e)) }
{
    let inner = depth(tree, e, tight);
    if rank(top_level(tree, e)) < rank(level) {
        behind(1, inner)
    } else {
        inner
    }
}

/// The depths of a chain with one more sign, behind which this depth stands.
fn longer(lefts: &[u8; 65], right: u8) -> [u8; 65]
    requires { right ≤ 65 }
    ensures at { (s : ℕ) → s < 65 → slice_index result s ≡ longer_at lefts.now right s }
    ensures long { length result ≡ 65 }
{
    let mut depths = [TOO_DEEP; 65];
    for signs in 1..65u8 {
        let left = lefts[usize::from(signs - 1)];
        depths[usize::from(signs)] = greater(left, behind(signs, right));
    }
    depths
}

/// The least of depths.
fn least(depths: &[u8; 65]) -> u8
    ensures value { result ≡ least_of depths.now }
    ensures most { result ≤ 65 }
    ensures long { length depths.now ≡ 65 }
{
    let mut low = TOO_DEEP;
    for depth in depths {
        low = lesser(low, *depth);
    }
    low
}

/// The depths of one way, with so many signs.
fn one_way(signs: usize, depth: u8) -> [u8; 65]
    requires { signs < 65 }
    ensures { (s : ℕ) → s < 65 → slice_index result s ≡ only_at signs depth s }
{
    let mut depths = [TOO_DEEP; 65];
    depths[signs] = depth;
    depths
}

/// The least depth of the ways to write an expression, by how many signs its chain has: 65 where there is no such way.
#[cycle(depth)]
#[tactic(auto, using(silq_tree::proofs::Lists::ids))]
fn depths(tree: &Tree, e: ExprId, tight: bool) -> [u8; 65]
    requires { e.number < length tree.now.exprs }
    ensures { AreDepths result (ways tight (expr_at tree.now e)) }
{
    match tree.expr(e) {
        Expr::Number { ty, .. } => one_way(0, number_depth(tree, *ty, tight)),
        Expr::Place { place, .. } => {
            let first = index_depth(tree, place.first, tight);
            let second = index_depth(tree, place.second, tight);
            one_way(0, greater(first, second))
        }
        Expr::Call { statics, args, .. } => {
            let first = deepest(tree, statics.as_slice(), tight);
            let second = deepest(tree, args.as_slice(), tight);
            one_way(0, behind(1, greater(first, second)))
        }
        Expr::Tuple { items, .. } => one_way(0, behind(1, deepest(tree, items.as_slice(), tight))),
        Expr::Unary { arg, .. } => {
            one_way(0, behind(1, operand_depth(tree, *arg, Level::Unary, tight)))
        }
        Expr::Binary {
            op,
            left,
            right,
            ..
        } => {
            let right = operand_depth(tree, *right, right_level(*op), tight);
            if goes_on(*op, top_level(tree, *left)) {
                chain_depths(tree, *left, right, tight)
            } else {
                let left = operand_depth(tree, *left, left_level(*op), tight);
                one_way(1, greater(left, behind(1, right)))
            }
        }
        _ => one_way(0, 0),
    }
}

/// The depths of a chain that goes on from its left operand, which stands in parentheses in one of the ways where it is written tight.
#[cycle(depth)]
#[tactic(auto, using(silq_tree::proofs::Lists::ids))]
fn chain_depths(tree: &Tree, e: ExprId, right: u8, tight: bool) -> [u8; 65]
    requires e { e.number < length tree.now.exprs }
    requires right { right ≤ 65 }
    ensures { (s : ℕ) → s < 65 → slice_index result s ≡ chain_at tight (ways tight (expr_at tree.now e)) right s }
{
    let lefts = depths(tree, e, tight);
    let mut all = longer(&lefts, right);
    if tight {
        let parens = greater(behind(1, least(&lefts)), behind(1, right));
        all[1] = lesser(all[1], parens);
    }
    all
}

/// How much nest an expression adds; 65 where it adds more than 64.
#[cycle(depth)]
#[tactic(auto, using(silq_tree::proofs::Lists::ids))]
pub(crate) fn depth(tree: &Tree, e: ExprId, tight: bool) -> u8
    requires { e.number < length tree.now.exprs }
    ensures { result ≡ capped (spec.depth (spec.least (ways tight (expr_at tree.now e)))) }
{
    least(&depths(tree, e, tight))
}

/// Whether an expression with the fewest parentheses is above the nest of 64, with this nest around.
fn is_deep(tree: &Tree, e: ExprId, nest: u64) -> bool
    requires { e.number < length tree.now.exprs }
    ensures { result ≡ nat_lt 64 (nest + spec.depth (spec.least (ways false (expr_at tree.now e)))) }
{
    let depth = u64::from(depth(tree, e, false));
    depth > 64 || 64 - depth < nest
}

/// Whether an expression is written tight in this style.
pub(crate) fn is_tight(tree: &Tree, e: ExprId, style: Style) -> bool
    requires { e.number < length tree.now.exprs }
    ensures { result ≡ tight_by style (expr_at tree.now e) }
{
    match style {
        Style::Given { tight } => tight,
        Style::Around { nest } => is_deep(tree, e, nest),
    }
}

/// The number of the least deep way of an expression that is written tight: one less than the signs of its chain.
fn tight_way(tree: &Tree, e: ExprId) -> u8
    requires { e.number < length tree.now.exprs }
    ensures { fits true (expr_at tree.now e) ≡ true → nth_way result (ways true (expr_at tree.now e)) ≡ spec.least (ways true (expr_at tree.now e)) }
{
    let depths = depths(tree, e, true);
    let low = least(&depths);
    for signs in 1..65u8 {
        if depths[usize::from(signs)] == low {
            return signs - 1;
        }
    }
    0
}

/// The number of the least deep way of an expression.
pub(crate) fn best_way(tree: &Tree, e: ExprId, tight: bool) -> u8
    requires { e.number < length tree.now.exprs }
    ensures { fits tight (expr_at tree.now e) ≡ true → nth_way result (ways tight (expr_at tree.now e)) ≡ spec.least (ways tight (expr_at tree.now e)) }
{
    if tight { tight_way(tree, e) } else { 0 }
}
