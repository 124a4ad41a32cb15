//! `sprintf`.
ghost use Rattle.std.specs.Prelude.{◌≡◌, Some};
ghost use Rattle.resin_array_fn.specs.Under.value.Seen.{tree_of, trees_of};
ghost use Rattle.resin_array_fn.specs.Under.ops.Places.{seen_answer};
ghost use Rattle.resin_array_fn.specs.Under.text_fn.Stops.{GivesOrNoMemory};
ghost use Rattle.resin_builtin.specs.Rows.{format_argument, format_arguments, behind_first, sprintf_row};

use crate::answers::text_value;
use crate::arguments::text_at;
use resin_array_fn::under::ops::to_text;
use resin_array_fn::under::value::Value;
use resin_format::under::scalar::{CallStop, ErrorKind};
use resin_format::{FormatArg, FormatArgs, Kind, argument_kinds, sprintf};
use std::alloc::Global;

pub(crate) fn sprintf_row(alloc: Global, args: &[Value]) -> Result<Value, CallStop>
    ensures { GivesOrNoMemory (seen_answer result) (sprintf_row (trees_of args.now)) }
{
    let format = text_at(args, 0)?;
    let kinds = argument_kinds(alloc, format)?;
    let arguments = format_arguments(alloc, kinds.as_slice(), behind_first(args))?;
    text_value(sprintf(alloc, format, &arguments))
}

// The arguments without the format.
fn behind_first(args: &[Value]) -> &[Value]
    ensures { trees_of result.now ≡ behind_first (trees_of args.now) }
{
    match args {
        [_, rest @ ..] => rest,
        [] => args,
    }
}

// The arguments that a format reads so, in order.
fn format_arguments(alloc: Global, kinds: &[Kind], args: &[Value]) -> Result<FormatArgs, CallStop>
    ensures { GivesOrNoMemory result (format_arguments kinds.now (trees_of args.now)) }
{
    let mut out = FormatArgs::new(alloc);
    let mut rest = args;
    for kind in kinds {
        let [value, others @ ..] = rest else {
            return Ok(out);
        };
        out.push(format_argument(alloc, *kind, value)?)?;
        rest = others;
    }
    Ok(out)
}

// An argument as its conversion reads it.
fn format_argument(alloc: Global, kind: Kind, value: &Value) -> Result<FormatArg, CallStop>
    ensures { GivesOrNoMemory result (format_argument kind (tree_of value.now)) }
{
    match kind {
        Kind::Text => Ok(FormatArg::Text(to_text(alloc, value)?)),
        Kind::Decimal | Kind::Hexadecimal => integer_argument(value),
    }
}

fn integer_argument(value: &Value) -> Result<FormatArg, CallStop>
    ensures { GivesOrNoMemory result (format_argument Kind.Decimal (tree_of value.now)) }
{
    match value {
        Value::Int(n, set) => Ok(FormatArg::Int(*n, set.clone()?)),
        Value::Null | Value::Bool(_) | Value::Text(_) | Value::Arr(_) | Value::Obj(_) => {
            Err(CallStop::Throw(ErrorKind::Type))
        }
    }
}
