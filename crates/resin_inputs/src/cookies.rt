//! The arrays of cookies.
ghost use Rattle.std.specs.Prelude.{◌≡◌, IfOk, OnOk};
ghost use Rattle.resin_inputs.specs.Cookies.{put_cookie, put_part, put_parts, put_field, cookie_array};

use crate::cuts::{split_once, unspaced};
use crate::names::{is_named, name_key};
use crate::puts::{plain, put};
use percent_encoding::percent_decode;
use resin_value::Arr;
use resin_value::under::bytes::Header;
use std::alloc::{AllocError, Global};

/// The array of all `Cookie` fields, in order.
pub(crate) fn cookie_array(alloc: Global, fields: &[Header]) -> Result<Arr, AllocError>
    ensures { IfOk result (λ array. array ≡ cookie_array fields.now) }
{
    let mut array = Arr::new(alloc)?;
    for field in fields {
        put_field(alloc, &mut array, field)?;
    }
    Ok(array)
}

// Puts the cookies of a field, where it is a `Cookie`.
fn put_field(alloc: Global, array: &mut Arr, field: &Header) -> Result<(), AllocError>
    ensures { OnOk result (array.new ≡ put_field array.old field.now) }
{
    if is_named(field.name.as_slice(), b"cookie") {
        put_parts(alloc, array, field.value.as_slice())?;
    }
    Ok(())
}

// Puts the cookies of a field's value.
fn put_parts(alloc: Global, array: &mut Arr, value: &[u8]) -> Result<(), AllocError>
    ensures { OnOk result (array.new ≡ put_parts array.old value.now) }
{
    let mut rest = value;
    'parts: while rest.len() > 0 {
        let (part, after) = split_once(rest, b';');
        put_part(alloc, array, part)?;
        rest = after;
    }
    Ok(())
}

// Puts the cookie of a part.
fn put_part(alloc: Global, array: &mut Arr, part: &[u8]) -> Result<(), AllocError>
    ensures { OnOk result (array.new ≡ put_part array.old part.now) }
{
    let (name, value) = split_once(unspaced(part), b'=');
    put_cookie(alloc, array, name, value)
}

// Puts a cookie, unless one with its key is there.
fn put_cookie(alloc: Global, array: &mut Arr, name: &[u8], value: &[u8]) -> Result<(), AllocError>
    ensures { OnOk result (array.new ≡ put_cookie name.now value.now array.old) }
{
    if name.len() == 0 {
        return Ok(());
    }
    let key = name_key(alloc, name)?;
    if array.get(&key).is_some() {
        return Ok(());
    }
    let mut decoded = Vec::new(alloc);
    percent_decode(value).append_to(&mut decoded)?;
    put(array, &key, plain(alloc, decoded.as_slice())?)
}
