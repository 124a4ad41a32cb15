//! What scripts see of a request.
ghost use Rattle.std.specs.Prelude.{◌≡◌, IfOk};
ghost use Rattle.resin_http.specs.Inputs.{method_name, inputs_of};

use crate::request::{Method, Request};
use resin_inputs::{InputArrays, input_arrays};
use std::alloc::{AllocError, Global};

/// The arrays `$_GET`, `$_POST`, `$_COOKIE` and `$_SERVER` of a request, by the rules of [`input_arrays`].
pub fn inputs(alloc: Global, r: &Request) -> Result<InputArrays, AllocError>
    ensures { IfOk result (λ arrays. arrays ≡ inputs_of r.now) }
{
    input_arrays(
        alloc,
        method_name(r.method),
        r.target.as_slice(),
        &r.fields,
        r.body.as_slice(),
    )
}

// The name of a method.
fn method_name(method: Method) -> &'static [u8]
    ensures { result.now ≡ method_name method }
{
    match method {
        Method::Get => b"GET",
        Method::Head => b"HEAD",
        Method::Post => b"POST",
    }
}
