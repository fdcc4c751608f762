//! The signature of an instance whose body was checked.

ghost use Rattle.std.specs.Prelude.{◌≡◌, suc, ◌<◌, ◌^◌, ◌-◌, length, IfOk};
ghost use Rattle.check_fun.specs.Program.{given_on, returned_as};

use check_expr::expr::ValueList;
use check_scope::context::Context;
use silq_tree::Mark;
use silq_types::{ParamList, ResultList, Returned, Signature, Ty, Value};
use std::alloc::{AllocError, Global};

/// The consumed parameter that has this place. There is no memory for 2^32 parameters.
fn given(params: &ParamList, place: u128) -> Result<Option<u32>, AllocError>
    ensures { IfOk result (λ from. from ≡ given_on 0 params.now place) }
{
    if place >= params.len() as u128 {
        return Ok(None);
    }
    let number = place as usize;
    match params.get(number) {
        None => Ok(None),
        Some(param) => {
            if param.held {
                Ok(None)
            } else if number > u32::MAX as usize {
                Err(AllocError)
            } else {
                Ok(Some(number as u32))
            }
        }
    }
}

/// The results by the types and the values that are returned.
fn returned(
    alloc: Global,
    params: &ParamList,
    types: &[Ty],
    values: &[Value],
) -> Result<ResultList, AllocError>
    ensures { IfOk result (λ results. results ≡ returned_as params.now types.now values.now) }
{
    let mut results = ResultList::new(alloc);
    for (ty, value) in types.iter().zip(values) {
        results.push(Returned {
            ty: *ty,
            from: given(params, value.place)?,
        })?;
    }
    Ok(results)
}

/// The signature of the function of a context, whose body returned these values.
pub(crate) fn signature_of_body(
    alloc: Global,
    cx: &Context,
    params: ParamList,
    mark: Mark,
    values: &ValueList,
) -> Result<Signature, AllocError>
    requires { cx.now.height < 2 ^ 32 - 1 }
    ensures params { IfOk result (λ s. s.params ≡ params) }
    ensures results { IfOk result (λ s. s.results ≡ returned_as params cx.now.results values.now) }
    ensures mark { IfOk result (λ s. s.mark ≡ mark) }
    ensures height { IfOk result (λ s. s.height ≡ suc cx.now.height) }
{
    let results = returned(alloc, &params, cx.results(), values.as_slice())?;
    Ok(Signature {
        params,
        results,
        mark,
        height: cx.height() + 1,
    })
}
