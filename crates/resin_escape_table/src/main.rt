//! Prints what the builtins that escape, encode, digest and format texts answer, one call a line: its name and its arguments,
//! with tabs between them. In a text `\n`, `\r`, `\t`, `\\` and `\xhh` stand for a byte, and `{12}` gives the bytes before it
//! the policies 1 and 2; the answers are written so too. An argument of `sprintf` is `i:` with an integer or `s:` with a text.
//! `long`, a name and a count ask how many bytes a call gives for a text of so many, which begins with a line end; `length`
//! how many `sprintf` gives; `arguments` how many arguments stand there. A line that begins with `#` is printed as it stands.
//! The input and the answers, which another program worked out by the PHP manual, are the table of these builtins' tests.
#![tactic(auto)]

use resin_format::under::escape_fn::{
    addslashes, bin2hex, chr, htmlspecialchars, md5, nl2br, ord, rawurlencode, sha1, sql_quote,
    text_answer, urlencode,
};
use resin_format::under::label::PSet;
use resin_format::under::lstr::{LText, TextFault};
use resin_format::under::scalar::CallStop;
use resin_format::{FormatArg, FormatArgs, Kind, argument_kinds, int_places, sprintf};
use resin_table_values::{cut_set, digits_in, text_in};
use std::alloc::{AllocError, Global};
use std::io;

fn push_byte(out: &mut String, b: u8) -> Result<(), AllocError> {
    match b {
        b'\n' => write!(out, "\\n"),
        b'\r' => write!(out, "\\r"),
        b'\t' => write!(out, "\\t"),
        b'\\' => write!(out, "\\\\"),
        b'{' | b'}' => write!(out, "\\x{b:02x}"),
        32..=126 => out.push(b as char),
        _ => write!(out, "\\x{b:02x}"),
    }
}

fn push_set(out: &mut String, set: &PSet) -> Result<(), AllocError> {
    out.push('{')?;
    for n in set.as_slice() {
        write!(out, "{n}")?;
    }
    out.push('}')
}

// A text as its runs.
fn shown(alloc: Global, t: &LText) -> Result<String, AllocError> {
    let mut out = String::new(alloc);
    let mut from = 0;
    for run in t.runs() {
        let to = run.end as usize;
        for byte in t.bytes().iter().take(to).skip(from) {
            push_byte(&mut out, *byte)?;
        }
        push_set(&mut out, &run.set)?;
        from = to;
    }
    Ok(out)
}

// An integer and the set behind it.
fn integer_in(alloc: Global, field: &str) -> Result<(i64, PSet), CallStop> {
    let (number, set) = cut_set(alloc, field)?;
    Ok((number.parse::<i64>().unwrap_or(0), set))
}

fn argument_in(alloc: Global, field: &str) -> Result<FormatArg, CallStop> {
    match field.split_once(':') {
        Some(("i", number)) => {
            let (n, set) = integer_in(alloc, number)?;
            Ok(FormatArg::Int(n, set))
        }
        Some((_, text)) => Ok(FormatArg::Text(text_in(alloc, text)?)),
        None => Ok(FormatArg::Text(text_in(alloc, field)?)),
    }
}

// The arguments of a line; none where it is empty.
fn arguments_in(alloc: Global, line: &str) -> Result<FormatArgs, CallStop> {
    let mut args = FormatArgs::new(alloc);
    if line.is_empty() {
        return Ok(args);
    }
    for field in line.split('\t') {
        args.push(argument_in(alloc, field)?)?;
    }
    Ok(args)
}

fn formatted(alloc: Global, line: &str) -> Result<LText, CallStop> {
    let (format, rest) = line.split_once('\t').unwrap_or((line, ""));
    let format = text_in(alloc, format)?;
    sprintf(alloc, &format, &arguments_in(alloc, rest)?)
}

fn letter(kind: Kind) -> char {
    match kind {
        Kind::Text => 's',
        Kind::Decimal => 'd',
        Kind::Hexadecimal => 'x',
    }
}

// How a format reads its arguments, and whether the first four are read as integers.
fn places(alloc: Global, format: &LText) -> Result<String, CallStop> {
    let mut out = String::new(alloc);
    for kind in argument_kinds(alloc, format)?.as_slice() {
        out.push(letter(*kind))?;
    }
    out.push(' ')?;
    for i in 0..4usize {
        out.push(if int_places(format, i) { '1' } else { '0' })?;
    }
    Ok(out)
}

// A call that takes one text and gives one.
fn text_call(alloc: Global, name: &str, s: &LText) -> Result<LText, CallStop> {
    match name {
        "htmlspecialchars" => htmlspecialchars(alloc, s),
        "addslashes" => addslashes(alloc, s),
        "sql_quote" => sql_quote(alloc, s),
        "urlencode" => urlencode(alloc, s),
        "rawurlencode" => rawurlencode(alloc, s),
        "nl2br" => nl2br(alloc, s),
        _ => bin2hex(alloc, s),
    }
}

// A digest of a text, with the set of the digits behind the tab.
fn digest_call(alloc: Global, name: &str, rest: &str) -> Result<LText, CallStop> {
    let (field, digits) = rest.split_once('\t').unwrap_or((rest, ""));
    let text = text_in(alloc, field)?;
    let set = digits_in(alloc, digits)?;
    if name == "md5" {
        md5(alloc, &text, &set)
    } else {
        sha1(alloc, &text, &set)
    }
}

fn chr_call(alloc: Global, rest: &str) -> Result<LText, CallStop> {
    let (n, set) = integer_in(alloc, rest)?;
    chr(alloc, n, &set)
}

fn ord_call(alloc: Global, rest: &str) -> Result<String, CallStop> {
    let (n, set) = ord(&text_in(alloc, rest)?)?;
    let mut out = format!(in alloc; "{n}")?;
    push_set(&mut out, &set)?;
    Ok(out)
}

// A text of so many bytes, which begins with a line end.
fn long_text(alloc: Global, len: usize) -> Result<LText, TextFault> {
    let bytes = vec![in alloc; b'x'; len.saturating_sub(1)]?;
    LText::plain(alloc, b"\n")?.concat(alloc, &LText::plain(alloc, &bytes)?)
}

fn long_call(alloc: Global, rest: &str) -> Result<LText, CallStop> {
    let (name, count) = rest.split_once('\t').unwrap_or((rest, ""));
    let text = text_answer(long_text(alloc, count.parse::<usize>().unwrap_or(0)))?;
    text_call(alloc, name, &text)
}

// A count in place of what is counted; `None` where the name asks for none.
fn count(alloc: Global, name: &str, rest: &str) -> Result<Option<usize>, CallStop> {
    match name {
        "long" => Ok(Some(long_call(alloc, rest)?.len())),
        "length" => Ok(Some(formatted(alloc, rest)?.len())),
        "arguments" => Ok(Some(arguments_in(alloc, rest)?.as_slice().len())),
        _ => Ok(None),
    }
}

fn called(alloc: Global, line: &str) -> Result<String, CallStop> {
    let (name, rest) = line.split_once('\t').unwrap_or((line, ""));
    if let Some(count) = count(alloc, name, rest)? {
        return Ok(format!(in alloc; "{count}")?);
    }
    let text = match name {
        "ord" => return ord_call(alloc, rest),
        "places" => return places(alloc, &text_in(alloc, rest)?),
        "sprintf" => formatted(alloc, rest)?,
        "chr" => chr_call(alloc, rest)?,
        "md5" | "sha1" => digest_call(alloc, name, rest)?,
        _ => text_call(alloc, name, &text_in(alloc, rest)?)?,
    };
    Ok(shown(alloc, &text)?)
}

fn answer(alloc: Global, line: &str) -> Result<String, AllocError> {
    match called(alloc, line) {
        Ok(text) => Ok(text),
        Err(CallStop::Throw(kind)) => format!(in alloc; "throw {}", kind.class_name()),
        Err(CallStop::Fault(fault)) => format!(in alloc; "fault {fault}"),
        Err(CallStop::Memory) => Err(AllocError),
    }
}

fn main(rt: HostRuntime) -> io::Result<()> {
    for line in rt.lines(rt.alloc()) {
        let line = line?;
        if line.as_str().starts_with('#') {
            rt.println(line)?;
        } else {
            rt.println(answer(rt.alloc(), line.as_str())?)?;
        }
    }
    Ok(())
}
