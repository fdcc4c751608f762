//! The parameters of an instance.

ghost use Rattle.std.specs.Prelude.{◌≡◌, [], length, map, IfOk, OnOk};
ghost use Rattle.silq_tree.specs.Arena.{expr_at};
ghost use Rattle.silq_tree.specs.Standing.{param_of};
ghost use Rattle.silq_types.specs.Programs.{paired};
ghost use Rattle.check_fun.specs.Program.{param_vars, param_origin as origin_of_param};

use check_scope::context::Context;
use check_scope::library::Library;
use silq_tree::NameId;
use silq_tree::node::ParamNode;
use silq_types::{Origin, Param, ParamList, Part, Var};
use static_num::Statics;
use std::alloc::AllocError;

/// Static names with their values, as far as there are both.
pub(crate) fn static_values(
    library: &Library,
    names: &[NameId],
    values: &[i64],
) -> Result<Statics, AllocError>
    ensures { IfOk result (λ statics. statics ≡ paired names.now values.now) }
{
    let mut statics = Statics::new(library.alloc());
    for (name, value) in names.iter().zip(values) {
        statics.push((*name, *value))?;
    }
    Ok(statics)
}

/// Where the value of a parameter comes from.
fn param_origin(param: &Param) -> Origin
    ensures { result ≡ origin_of_param param.now }
{
    if param.held {
        Origin::Held
    } else if param.ty.classical {
        Origin::Classical
    } else {
        Origin::Linear
    }
}

/// Gives each parameter a variable in a new context; parameter i has the place i.
pub(crate) fn add_params(
    library: &Library,
    cx: &mut Context,
    names: &[ParamNode],
    params: &ParamList,
) -> Result<(), AllocError>
    requires vars { cx.old.vars ≡ [] }
    requires places { cx.old.next ≡ 0 }
    requires both { length names.now ≡ length params.now }
    ensures { OnOk result (cx.new ≡ record cx.old { vars = param_vars 0 (map (param_of (expr_at library.now.nodes)) names.now) params.now; start = cx.new.start; next = length params.now }) }
{
    for (name, param) in names.iter().zip(params.as_slice()) {
        let Ok(place) = cx.fresh() else {
            return Err(AllocError);
        };
        cx.add(Var {
            part: Part {
                name: name.name,
                first: None,
                second: None,
            },
            ty: param.ty,
            origin: param_origin(param),
            place,
            consumed: false,
        })?;
    }
    Ok(())
}
