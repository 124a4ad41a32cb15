//! Prints the answers of the text functions, one call a line. A call is a name and its arguments, split by `|`; `{1}` after bytes says that they
//! carry the policy 1, `^s`, `^n`, `^r`, `^t`, `^v` and `^0` stand for a space and the other blanks, `3*ab&c` is three times `ab` and then `c`,
//! `[a,b]` is an array, and `null` an argument that is left out. A request has 1,000 ticks, or as many as stand before the name, as `10 ticks|`.
//! A long run is printed as its length, and a line that begins with `#` as it stands. The output, which was worked out from the PHP manual and
//! this project's profile by hand and by a program of its own, is the table of their tests.
#![tactic(auto)]

use resin_label::PSet;
use resin_lstr::{Builder, LText, TextFault, Texts};
use resin_scalar::{CallStop, ErrorKind, ScriptFault, Ticks};
use resin_text_fn::{
    explode, implode, ltrim, rtrim, str_contains, str_ends_with, str_pad, str_repeat, str_replace,
    str_starts_with, strcmp, strlen, strpos, strrev, strrpos, strtolower, strtoupper, substr,
    substr_count, trim, ucfirst,
};
use std::alloc::{AllocError, Global};
use std::io;

/// What a call answers.
#[derive(Drop)]
enum Answer {
    Text(LText),
    Texts(Texts),
    Number(i64),
    Place(Option<i64>),
    Truth(bool),
    Unknown,
}

fn text_stop(fault: TextFault) -> CallStop {
    match fault {
        TextFault::TooLong => CallStop::Fault(ScriptFault::TextTooLong),
        TextFault::Memory => CallStop::Memory,
    }
}

/// The byte that stands behind a `^`.
fn escaped(b: u8) -> u8 {
    match b {
        b's' => b' ',
        b'n' => b'\n',
        b'r' => b'\r',
        b't' => b'\t',
        b'v' => 11,
        b'0' => 0,
        _ => b,
    }
}

/// The labelled text that a field spells.
fn read_text(alloc: Global, field: &str) -> Result<LText, TextFault> {
    let mut out = Builder::new(alloc);
    let mut held = Vec::new(alloc);
    let mut set = None;
    let mut escape = false;
    for b in field.as_bytes() {
        match set.take() {
            Some(labels) if *b == b'}' => {
                out = out.append_bytes(&held, &labels)?;
                held.clear();
            }
            Some(labels) => {
                let labels: PSet = labels;
                set = Some(labels.with(alloc, u32::from(b.saturating_sub(b'0')))?);
            }
            None if escape => {
                held.push(escaped(*b)).map_err(AllocError::from)?;
                escape = false;
            }
            None if *b == b'^' => escape = true,
            None if *b == b'{' => set = Some(PSet::empty()),
            None => held.push(*b).map_err(AllocError::from)?,
        }
    }
    let out = out.append_bytes(&held, &PSet::empty())?;
    Ok(out.finish()?)
}

/// The text that a part of a field spells, repeated where a count and `*` stand before it.
fn read_piece(alloc: Global, piece: &str) -> Result<LText, CallStop> {
    let (count, text) = piece.split_once('*').unwrap_or(("", piece));
    match count.parse::<i64>() {
        Ok(count) => str_repeat(alloc, &read_text(alloc, text).map_err(text_stop)?, count),
        Err(_) => read_text(alloc, piece).map_err(text_stop),
    }
}

/// The text that a field spells, whose parts are split by `&`.
fn read_pieces(alloc: Global, field: &str) -> Result<LText, CallStop> {
    let mut out = Builder::new(alloc);
    for piece in field.split('&') {
        out = out.append(&read_piece(alloc, piece)?).map_err(text_stop)?;
    }
    Ok(out.finish()?)
}

/// The arguments of a call.
#[derive(Clone, Copy)]
struct Arguments<'a> {
    alloc: Global,
    fields: &'a [&'a str],
}

impl<'a> Arguments<'a> {
    fn field(self, i: usize) -> &'a str {
        self.fields.get(i).copied().unwrap_or("")
    }

    fn text(self, i: usize) -> Result<LText, CallStop> {
        read_pieces(self.alloc, self.field(i))
    }

    fn number(self, i: usize) -> i64 {
        self.field(i).parse::<i64>().unwrap_or(0)
    }

    fn optional(self, i: usize) -> Option<i64> {
        self.field(i).parse::<i64>().ok()
    }

    fn texts(self, i: usize) -> Result<Texts, CallStop> {
        let mut out = Texts::new(self.alloc);
        let field = self.field(i);
        let inside = field.strip_prefix('[').unwrap_or(field);
        let inside = inside.strip_suffix(']').unwrap_or(inside);
        if inside.is_empty() {
            return Ok(out);
        }
        for part in inside.split(',') {
            out.push(read_pieces(self.alloc, part)?)?;
        }
        Ok(out)
    }
}

fn number_call(name: &str, a: Arguments<'_>) -> Result<Answer, CallStop> {
    let first = a.text(0)?;
    let second = a.text(1)?;
    match name {
        "strlen" => Ok(Answer::Number(strlen(&first)?)),
        "strpos" => Ok(Answer::Place(strpos(&first, &second, a.number(2))?)),
        "strrpos" => Ok(Answer::Place(strrpos(&first, &second)?)),
        "substr_count" => Ok(Answer::Number(substr_count(&first, &second)?)),
        "strcmp" => Ok(Answer::Number(strcmp(&first, &second)?)),
        "str_contains" => Ok(Answer::Truth(str_contains(&first, &second)?)),
        "str_starts_with" => Ok(Answer::Truth(str_starts_with(&first, &second)?)),
        "str_ends_with" => Ok(Answer::Truth(str_ends_with(&first, &second)?)),
        _ => Ok(Answer::Unknown),
    }
}

fn part_call(name: &str, a: Arguments<'_>) -> Result<Answer, CallStop> {
    let first = a.text(0)?;
    let second = a.text(1)?;
    match name {
        "substr" => Ok(Answer::Text(substr(a.alloc, &first, a.number(1), a.optional(2))?)),
        "trim" => Ok(Answer::Text(trim(a.alloc, &first, &second)?)),
        "ltrim" => Ok(Answer::Text(ltrim(a.alloc, &first, &second)?)),
        "rtrim" => Ok(Answer::Text(rtrim(a.alloc, &first, &second)?)),
        "strtoupper" => Ok(Answer::Text(strtoupper(a.alloc, &first)?)),
        "strtolower" => Ok(Answer::Text(strtolower(a.alloc, &first)?)),
        "ucfirst" => Ok(Answer::Text(ucfirst(a.alloc, &first)?)),
        "strrev" => Ok(Answer::Text(strrev(a.alloc, &first)?)),
        _ => number_call(name, a),
    }
}

fn call(name: &str, a: Arguments<'_>, ticks: &mut Ticks) -> Result<Answer, CallStop> {
    match name {
        "str_repeat" => Ok(Answer::Text(str_repeat(a.alloc, &a.text(0)?, a.number(1))?)),
        "str_pad" => {
            let text = a.text(0)?;
            let padding = a.text(2)?;
            Ok(Answer::Text(str_pad(a.alloc, &text, a.number(1), &padding, a.number(3))?))
        }
        "implode" => Ok(Answer::Text(implode(a.alloc, &a.text(0)?, &a.texts(1)?)?)),
        "explode" => Ok(Answer::Texts(explode(a.alloc, &a.text(0)?, &a.text(1)?)?)),
        "str_replace" => {
            let searches = a.texts(0)?;
            let with = a.texts(1)?;
            let text = a.text(2)?;
            Ok(Answer::Text(str_replace(a.alloc, &searches, &with, &text, ticks)?))
        }
        _ => part_call(name, a),
    }
}

/// Writes a byte as a field spells it.
fn write_byte(out: &mut String, b: u8) -> Result<(), AllocError> {
    match b {
        b' ' => out.push_str("^s"),
        b'\n' => out.push_str("^n"),
        b'\r' => out.push_str("^r"),
        b'\t' => out.push_str("^t"),
        11 => out.push_str("^v"),
        0 => out.push_str("^0"),
        33..=126 => out.push(char::from(b)),
        _ => write!(out, "^{b:02x}"),
    }
}

/// Writes the bytes of each run and its set. A long run is written as its length.
fn write_text(out: &mut String, t: &LText) -> Result<(), AllocError> {
    let mut from = 0;
    for run in t.runs() {
        let to = run.end as usize;
        let len = to.saturating_sub(from);
        if len > 100 {
            write!(out, "({len})")?;
        } else {
            for b in t.bytes().iter().take(to).skip(from) {
                write_byte(out, *b)?;
            }
        }
        out.push('{')?;
        for n in run.set.as_slice() {
            write!(out, "{n}")?;
        }
        out.push('}')?;
        from = to;
    }
    Ok(())
}

fn write_texts(out: &mut String, texts: &Texts) -> Result<(), AllocError> {
    out.push('[')?;
    for (i, text) in texts.as_slice().iter().enumerate() {
        if i > 0 {
            out.push(',')?;
        }
        write_text(out, text)?;
    }
    out.push(']')
}

fn write_answer(out: &mut String, answer: &Answer) -> Result<(), AllocError> {
    match answer {
        Answer::Text(text) => write_text(out, text),
        Answer::Texts(texts) => write_texts(out, texts),
        Answer::Number(n) | Answer::Place(Some(n)) => write!(out, "{n}"),
        Answer::Place(None) => out.push_str("false"),
        Answer::Truth(truth) => write!(out, "{truth}"),
        Answer::Unknown => out.push_str("unknown"),
    }
}

fn write_stop(out: &mut String, stop: CallStop) -> Result<(), AllocError> {
    match stop {
        CallStop::Throw(kind) => out.push_str(kind.class_name()),
        CallStop::Fault(fault) => out.push_str(fault.name()),
        CallStop::Memory => out.push_str("no memory"),
    }
}

/// The ticks that a line gives its call, and the call.
fn ticks_and_call(line: &str) -> (u64, &str) {
    match line.split_once(" ticks|") {
        Some((count, call)) => (count.parse::<u64>().unwrap_or(0), call),
        None => (1000, line),
    }
}

/// The line of a call and its answer, with the ticks that it took.
fn answered(alloc: Global, line: &str) -> Result<String, AllocError> {
    let (before, written) = ticks_and_call(line);
    let fields: Vec<&str> = written.split('|').collect(alloc)?;
    let name = fields.first().copied().unwrap_or("");
    let arguments = Arguments {
        alloc,
        fields: fields.get(1..).unwrap_or(&[]),
    };
    let mut ticks = Ticks { left: before };
    let mut out = String::from_str(alloc, line)?;
    out.push_str(" = ")?;
    match call(name, arguments, &mut ticks) {
        Ok(answer) => write_answer(&mut out, &answer)?,
        Err(stop) => write_stop(&mut out, stop)?,
    }
    if ticks.left != before {
        let taken = before.saturating_sub(ticks.left);
        write!(out, ", {taken} ticks")?;
    }
    Ok(out)
}

fn main(rt: HostRuntime) -> io::Result<()> {
    for line in rt.lines(rt.alloc()) {
        let line = line?;
        if line.as_str().starts_with('#') {
            rt.println(line)?;
        } else {
            rt.println(answered(rt.alloc(), line.as_str())?)?;
        }
    }
    Ok(())
}
