//! The input arrays of a request.
ghost use Rattle.std.specs.Prelude.{◌≡◌, IfOk, OnOk};
ghost use Rattle.std.specs.Option.{option_copied};
ghost use Rattle.resin_inputs.specs.Inputs.{query_of, is_form, tells_form, has_form, post_array, put_text, server_array, input_arrays};

use crate::cookies::cookie_array;
use crate::cuts::split_once;
use crate::forms::form_array;
use crate::names::{is_named, text_key};
use crate::puts::{plain, put};
use resin_value::Arr;
use resin_value::under::bytes::{Header, HeaderList};
use std::alloc::{AllocError, Global};

const FORM_TYPE: &[u8] = b"application/x-www-form-urlencoded";

/// What scripts see of a request. The values are texts without labels, and arrays of such texts in `get` and `post`.
#[derive(Drop)]
pub struct InputArrays {
    pub get: Arr,
    pub post: Arr,
    pub cookie: Arr,
    pub server: Arr,
}

/// The input arrays of a request (PHP manual, "Predefined Variables", in this project's profile).
///
/// `get` holds the pairs of the query, and `post` those of the body, where the method is POST and the first `Content-Type` begins with
/// `application/x-www-form-urlencoded` in any case. A name `b[k]` puts its value under k into the array at b, last where k is empty; every
/// other name is one key. In b and in such a name `.` and space become `_`. A later pair replaces an earlier one, in its place.
///
/// `cookie` holds the parts of the `Cookie` fields. Percent escapes of a value are decoded, and the first of several parts with one name
/// stands. `server` holds `REQUEST_METHOD`, `REQUEST_URI`, which is the target, and `QUERY_STRING`.
///
/// Every key that is a canonical decimal in range is an integer.
pub fn input_arrays(
    alloc: Global,
    method: &[u8],
    target: &[u8],
    fields: &HeaderList,
    body: &[u8],
) -> Result<InputArrays, AllocError>
    ensures { IfOk result (λ arrays. arrays ≡ input_arrays method.now target.now fields.now body.now) }
{
    Ok(InputArrays {
        get: form_array(alloc, query_of(target))?,
        post: post_array(alloc, method, fields.as_slice(), body)?,
        cookie: cookie_array(alloc, fields.as_slice())?,
        server: server_array(alloc, method, target)?,
    })
}

// What stands after the first `?`.
fn query_of(target: &[u8]) -> &[u8]
    ensures { result.now ≡ query_of target.now }
{
    split_once(target, b'?').1
}

// The array of the body, where it is a form.
fn post_array(
    alloc: Global,
    method: &[u8],
    fields: &[Header],
    body: &[u8],
) -> Result<Arr, AllocError>
    ensures { IfOk result (λ array. array ≡ post_array method.now fields.now body.now) }
{
    if has_form(method, fields) {
        form_array(alloc, body)
    } else {
        Arr::new(alloc)
    }
}

// Whether the body is a form.
fn has_form(method: &[u8], fields: &[Header]) -> bool
    ensures { result ≡ has_form method.now fields.now }
{
    method == b"POST".as_slice() && tells_form(fields)
}

// Whether the first `Content-Type` is that of a form.
fn tells_form(fields: &[Header]) -> bool
    ensures { result ≡ tells_form fields.now }
{
    match fields
        .iter()
        .find(|field| is_named(field.name.as_slice(), b"content-type"))
    {
        Some(field) => is_form(field.value.as_slice()),
        None => false,
    }
}

// Whether a type is that of a form.
fn is_form(value: &[u8]) -> bool
    ensures { result ≡ is_form value.now }
{
    is_named(&value[..FORM_TYPE.len().min(value.len())], FORM_TYPE)
}

// The method, the target and the query.
fn server_array(alloc: Global, method: &[u8], target: &[u8]) -> Result<Arr, AllocError>
    ensures { IfOk result (λ array. array ≡ server_array method.now target.now) }
{
    let mut array = Arr::new(alloc)?;
    put_text(alloc, &mut array, b"REQUEST_METHOD", method)?;
    put_text(alloc, &mut array, b"REQUEST_URI", target)?;
    put_text(alloc, &mut array, b"QUERY_STRING", query_of(target))?;
    Ok(array)
}

// Puts a text under a name.
fn put_text(alloc: Global, array: &mut Arr, name: &[u8], value: &[u8]) -> Result<(), AllocError>
    ensures { OnOk result (array.new ≡ put_text name.now value.now array.old) }
{
    put(array, &text_key(alloc, name)?, plain(alloc, value)?)
}
