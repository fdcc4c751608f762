//! Static conditions.

ghost use Rattle.std.specs.Prelude.{◌≡◌, ◌<◌, length};
ghost use Rattle.silq_tree.specs.Arena.{expr_at};
ghost use Rattle.static_num.specs.Static.{is_true};
ghost use Rattle.silq_mean.specs.Meaning.{static_value as static_value_of};

use crate::body::Body;
use crate::written::static_value;
use check_scope::Library;
use silq_tree::ExprId;

/// Whether a static condition holds.
pub fn holds(library: &Library, body: &Body, cond: ExprId) -> bool
    requires { cond.number < length library.now.nodes.exprs }
    ensures { result ≡ is_true (static_value_of body.now.statics (expr_at library.now.nodes cond)) }
{
    static_value(library.tree(), &body.statics, cond) != 0
}
