//! Prints what calls of builtin functions answer and the ticks that they leave, one call a line. A line is a name, the ticks before the call, the
//! set that is handed in and the arguments, with spaces between them. An argument is `n` for null, `t` or `f`, `i:` with an integer, `s:` with a
//! text, `o:` with the number of an object, or an array between `[` and `]`, whose values follow one another, each behind `k:` with its key where
//! that isn't the next one. `{12}` behind an integer or behind bytes gives them the policies 1 and 2; in texts `\s`, `\n`, `\r`, `\t`, `\\` and
//! `\xhh` stand for a byte. `turn` and the number of an argument before a name ask how an argument is turned, and `kinds` what a function takes.
//! The answers were worked out by PHP, and by hand for labels and ticks.
#![tactic(auto)]

use resin_builtin::under::label::PSet;
use resin_builtin::under::lstr::LText;
use resin_builtin::under::scalar::{CallStop, ScriptFault, Ticks};
use resin_builtin::under::value::{Arr, ArrFault, Key, Value, Values};
use resin_builtin::{ArgKind, Sig, call, int_places, signature};
use resin_table_rows::bytes_in;
use resin_table_values::{cut_set, set_in, text_in};
use std::alloc::{AllocError, Global};
use std::io;

fn push_byte(out: &mut String, b: u8) -> Result<(), AllocError> {
    match b {
        b' ' => write!(out, "\\s"),
        b'\n' => write!(out, "\\n"),
        b'\r' => write!(out, "\\r"),
        b'\t' => write!(out, "\\t"),
        b'\\' => write!(out, "\\\\"),
        b'{' | b'}' => write!(out, "\\x{b:02x}"),
        33..=126 => out.push(b as char),
        _ => write!(out, "\\x{b:02x}"),
    }
}

fn push_set(out: &mut String, set: &PSet) -> Result<(), AllocError> {
    if set.as_slice().len() == 0 {
        return Ok(());
    }
    out.push('{')?;
    for n in set.as_slice() {
        write!(out, "{n}")?;
    }
    out.push('}')
}

// A text as its runs; `{}` stands behind one without policies where another follows.
fn push_text(out: &mut String, t: &LText) -> Result<(), AllocError> {
    let mut from = 0;
    for run in t.runs() {
        let to = run.end as usize;
        for byte in t.bytes().iter().take(to).skip(from) {
            push_byte(out, *byte)?;
        }
        if run.set.as_slice().len() == 0 && to < t.len() {
            out.push_str("{}")?;
        }
        push_set(out, &run.set)?;
        from = to;
    }
    Ok(())
}

fn push_scalar(out: &mut String, value: &Value) -> Result<(), AllocError> {
    match value {
        Value::Null => out.push('n'),
        Value::Bool(true) => out.push('t'),
        Value::Bool(false) => out.push('f'),
        Value::Int(n, set) => {
            write!(out, "i:{n}")?;
            push_set(out, set)
        }
        Value::Text(t) => {
            out.push_str("s:")?;
            push_text(out, t)
        }
        Value::Obj(n) => write!(out, "o:{n}"),
        Value::Arr(a) => {
            let count = a.len();
            write!(out, "[{count}]")
        }
    }
}

fn push_key(out: &mut String, key: &Key) -> Result<(), AllocError> {
    match key {
        Key::Int(n) => write!(out, "{n}="),
        Key::Text(text) => {
            out.push('\'')?;
            for b in text.as_slice() {
                push_byte(out, *b)?;
            }
            out.push_str("'=")
        }
    }
}

// An array whose arrays are shown by their counts.
fn push_inner(out: &mut String, a: &Arr) -> Result<(), AllocError> {
    out.push('[')?;
    for i in 0..a.len() {
        let (key, value) = a.entry(i);
        out.push(' ')?;
        push_key(out, key)?;
        push_scalar(out, value)?;
    }
    out.push_str(" ]")
}

// An array whose arrays are shown too.
fn push_array(out: &mut String, a: &Arr) -> Result<(), AllocError> {
    out.push('[')?;
    for i in 0..a.len() {
        let (key, value) = a.entry(i);
        out.push(' ')?;
        push_key(out, key)?;
        match value {
            Value::Arr(inner) => push_inner(out, inner)?,
            _ => push_scalar(out, value)?,
        }
    }
    out.push_str(" ]")?;
    match a.next_key() {
        Some(n) => write!(out, "{n}"),
        None => out.push('!'),
    }
}

fn push_value(out: &mut String, value: &Value) -> Result<(), AllocError> {
    match value {
        Value::Arr(a) => push_array(out, a),
        _ => push_scalar(out, value),
    }
}

// An integer and the set behind it.
fn integer_in(alloc: Global, field: &str) -> Result<Value, AllocError> {
    let (number, set) = cut_set(alloc, field)?;
    Ok(Value::Int(number.parse::<i64>().unwrap_or(0), set))
}

fn scalar_in(alloc: Global, token: &str) -> Result<Value, CallStop> {
    match token.split_once(':') {
        Some(("i", number)) => Ok(integer_in(alloc, number)?),
        Some(("s", text)) => Ok(Value::Text(text_in(alloc, text)?)),
        // `S:5` is a text of five letters.
        Some(("S", count)) => {
            let bytes = vec![in alloc; b'a'; count.parse::<usize>().unwrap_or(0)]?;
            match LText::plain(alloc, &bytes) {
                Ok(text) => Ok(Value::Text(text)),
                Err(_) => Err(CallStop::Fault(ScriptFault::TextTooLong)),
            }
        }
        Some((_, number)) => Ok(Value::Obj(number.parse::<u32>().unwrap_or(0))),
        None => Ok(match token {
            "t" => Value::Bool(true),
            "f" => Value::Bool(false),
            _ => Value::Null,
        }),
    }
}

// An array under way, and the key of its next value.
#[derive(Drop)]
struct Open {
    array: Arr,
    key: Option<Key>,
}

fn array_stop(fault: ArrFault) -> CallStop {
    match fault {
        ArrFault::Memory => CallStop::Memory,
        ArrFault::NoNextKey | ArrFault::TooHigh => CallStop::Fault(ScriptFault::ArrayTooDeep),
    }
}

fn put_in(open: &mut Open, value: Value) -> Result<(), CallStop> {
    match open.key.take() {
        Some(key) if key.is_lawful() => open.array.put(&key, value).map_err(array_stop),
        _ => open.array.append(value).map_err(array_stop),
    }
}

// Puts a value into the innermost open array, or last among the arguments.
fn put_value(opened: &mut Vec<Open>, args: &mut Values, value: Value) -> Result<(), CallStop> {
    match opened.last_mut() {
        Some(open) => put_in(open, value),
        None => Ok(args.push(value)?),
    }
}

fn set_key(alloc: Global, opened: &mut Vec<Open>, key: &str) -> Result<(), CallStop> {
    let bytes = bytes_in(alloc, key)?;
    let key = Key::from_text(alloc, &bytes)?;
    if let Some(open) = opened.last_mut() {
        open.key = Some(key);
    }
    Ok(())
}

fn put_token(
    alloc: Global,
    opened: &mut Vec<Open>,
    args: &mut Values,
    token: &str,
) -> Result<(), CallStop> {
    if token == "[" {
        let array = Arr::new(alloc)?;
        opened
            .push(Open { array, key: None })
            .map_err(AllocError::from)?;
        return Ok(());
    }
    if token == "]" {
        return match opened.pop() {
            Some(open) => put_value(opened, args, Value::Arr(open.array)),
            None => Ok(()),
        };
    }
    match token.split_once(':') {
        Some(("k", key)) => set_key(alloc, opened, key),
        _ => put_value(opened, args, scalar_in(alloc, token)?),
    }
}

fn arguments_in(alloc: Global, text: &str) -> Result<Values, CallStop> {
    let mut opened = Vec::new(alloc);
    let mut args = Values::new(alloc);
    if text.is_empty() {
        return Ok(args);
    }
    for token in text.split(' ') {
        put_token(alloc, &mut opened, &mut args, token)?;
    }
    Ok(args)
}

fn called(alloc: Global, name: &str, rest: &str, ticks: &mut Ticks) -> Result<Value, CallStop> {
    let (set, fields) = rest.split_once(' ').unwrap_or((rest, ""));
    let set = set_in(alloc, set)?;
    let args = arguments_in(alloc, fields)?;
    call(alloc, name.as_bytes(), &args, &set, ticks)
}

fn push_stop(out: &mut String, stop: CallStop) -> Result<(), AllocError> {
    match stop {
        CallStop::Throw(kind) => write!(out, "throw {}", kind.class_name()),
        CallStop::Fault(fault) => write!(out, "fault {fault}"),
        CallStop::Memory => Err(AllocError),
    }
}

fn push_answer(out: &mut String, answer: &Result<Value, CallStop>) -> Result<(), AllocError> {
    match answer {
        Ok(value) => push_value(out, value),
        Err(stop) => push_stop(out, *stop),
    }
}

fn letter(kind: ArgKind) -> char {
    match kind {
        ArgKind::Text => 's',
        ArgKind::Integer => 'i',
        ArgKind::Array => 'a',
        ArgKind::TextOrArray => 't',
        ArgKind::Any => 'v',
    }
}

fn push_signature(out: &mut String, sig: &Sig) -> Result<(), AllocError> {
    write!(out, "{}-{} ", sig.least, sig.most)?;
    for i in 0..5u8 {
        out.push(letter(sig.kind(i)))?;
        if sig.null_is_default(i) {
            out.push('?')?;
        }
    }
    out.push(' ')?;
    out.push(letter(sig.kind(255)))?;
    if sig.merges {
        out.push_str(" merges")?;
    }
    Ok(())
}

fn push_kinds(out: &mut String, name: &str) -> Result<(), AllocError> {
    match signature(name.as_bytes()) {
        Some(sig) => push_signature(out, &sig),
        None => out.push_str("unknown"),
    }
}

// Which of the first four arguments of a format are read as integers.
fn push_places(alloc: Global, out: &mut String, format: &str) -> Result<(), CallStop> {
    let format = text_in(alloc, format)?;
    for i in 0..4usize {
        out.push(if int_places(&format, i) { '1' } else { '0' })?;
    }
    Ok(())
}

fn turned(alloc: Global, rest: &str) -> Result<Value, CallStop> {
    let (name, rest) = rest.split_once(' ').unwrap_or((rest, ""));
    let (place, fields) = rest.split_once(' ').unwrap_or((rest, ""));
    let args = arguments_in(alloc, fields)?;
    match (signature(name.as_bytes()), args.as_slice()) {
        (Some(sig), [value, ..]) => sig.turned(alloc, place.parse::<u8>().unwrap_or(0), value),
        _ => Err(CallStop::Fault(ScriptFault::UndefinedFunction)),
    }
}

fn answered(alloc: Global, out: &mut String, line: &str) -> Result<(), CallStop> {
    let (name, rest) = line.split_once(' ').unwrap_or((line, ""));
    match name {
        "kinds" => Ok(push_kinds(out, rest)?),
        "places" => push_places(alloc, out, rest),
        "turn" => Ok(push_answer(out, &turned(alloc, rest))?),
        _ => {
            let (left, rest) = rest.split_once(' ').unwrap_or((rest, ""));
            let mut ticks = Ticks {
                left: left.parse::<u64>().unwrap_or(0),
            };
            let answer = called(alloc, name, rest, &mut ticks);
            push_answer(out, &answer)?;
            write!(out, " {}", ticks.left)?;
            Ok(())
        }
    }
}

fn main(rt: HostRuntime) -> io::Result<()> {
    for line in rt.lines(rt.alloc()) {
        let line = line?;
        let mut out = String::new(rt.alloc());
        if answered(rt.alloc(), &mut out, line.as_str()).is_err() {
            return Err(io::Error::from(AllocError));
        }
        rt.println(format!(in rt.alloc(); "{} = {}", line.as_str(), out.as_str())?)?;
    }
    Ok(())
}
