//! Prints the tokens of source texts, one text a line. In the input `\n`, `\r`, `\t`, `\\` and `\xhh` stand for a byte.
//! A line `@COUNT@FRONT@PART@BACK` stands for the text of FRONT, COUNT times PART and BACK, of which only the number of
//! tokens is printed: texts of a million parts, on which a lexer that reads bytes again and again doesn't end in time.
//! Of the text behind `@front@` what stands before its fault is told: how many tokens, where the text ends, and the fault;
//! of that behind `@places@` the line of each place, its end with them; of that behind `@lines@` the line of each token.
//! Its input and its output, which was worked out by hand from the PHP manual and this project's profile, are the table of
//! the lexer's tests.
#![tactic(auto)]

ghost use Rattle.std.specs.Prelude.{◌≤◌, length};

use resin_lex::{ParseFault, TokenKind, TokenList, line_of, token_lines, tokens, tokens_and_fault};
use resin_table_rows::{bytes_in, cut, print_answers, repeat_in};
use std::alloc::{AllocError, Global};
use std::io;

fn push_byte(out: &mut String, b: u8) -> Result<(), AllocError> {
    match b {
        b'\n' => write!(out, "\\n"),
        b'\r' => write!(out, "\\r"),
        b'\t' => write!(out, "\\t"),
        32..=126 => out.push(b as char),
        _ => write!(out, "\\x{b:02x}"),
    }
}

fn push_bytes(out: &mut String, name: &str, bytes: &[u8]) -> Result<(), AllocError> {
    write!(out, "{name}(")?;
    for b in bytes {
        push_byte(out, *b)?;
    }
    out.push(')')
}

fn push_kind(out: &mut String, kind: &TokenKind) -> Result<(), AllocError> {
    match kind {
        TokenKind::Inline(b) => push_bytes(out, "inline", b.as_slice()),
        TokenKind::Name(b) => push_bytes(out, "name", b.as_slice()),
        TokenKind::Keyword(keyword) => write!(out, "{keyword:?}"),
        TokenKind::Variable(b) => push_bytes(out, "var", b.as_slice()),
        TokenKind::Int(n) => write!(out, "int({n})"),
        TokenKind::Text(b) => push_bytes(out, "text", b.as_slice()),
        TokenKind::Cast(cast) => write!(out, "cast({cast:?})"),
        TokenKind::Mark(mark) => write!(out, "{mark:?}"),
        TokenKind::TextOpen => write!(out, "open"),
        TokenKind::Stretch(b) => push_bytes(out, "part", b.as_slice()),
        TokenKind::IndexText(b) => push_bytes(out, "index", b.as_slice()),
        TokenKind::IndexVariable(b) => push_bytes(out, "indexvar", b.as_slice()),
        TokenKind::Property(b) => push_bytes(out, "prop", b.as_slice()),
        TokenKind::BraceOpen => write!(out, "brace"),
        TokenKind::TextClose => write!(out, "close"),
    }
}

fn shown(alloc: Global, list: &TokenList) -> Result<String, AllocError> {
    let mut out = String::new(alloc);
    for token in list.tokens.as_slice() {
        if !out.is_empty() {
            out.push(' ')?;
        }
        push_kind(&mut out, &token.kind)?;
        let from = token.from;
        let to = token.to;
        write!(out, "{from}-{to}")?;
    }
    Ok(out)
}

fn answer(alloc: Global, source: &[u8]) -> Result<String, AllocError> {
    if source.len() > 16_777_216 {
        return String::from_str(alloc, "too long");
    }
    match tokens(alloc, source) {
        Ok(list) => shown(alloc, &list),
        Err(ParseFault::Syntax { offset }) => format!(in alloc; "fault {offset}"),
        Err(other) => format!(in alloc; "{other:?}"),
    }
}

/// The text of a line of the long form: its front, its part so many times, its back.
fn repeated(alloc: Global, line: &str) -> Result<Vec<u8>, AllocError> {
    let repeat = repeat_in(line);
    let mut out = bytes_in(alloc, repeat.front)?;
    let part = bytes_in(alloc, repeat.part)?;
    for _ in 0..repeat.count {
        out.extend_from_slice(&part)?;
    }
    out.extend_from_slice(&bytes_in(alloc, repeat.back)?)?;
    Ok(out)
}

/// How many tokens a text has, or its fault.
fn counted(alloc: Global, source: &[u8]) -> Result<String, AllocError> {
    if source.len() > 16_777_216 {
        return String::from_str(alloc, "too long");
    }
    match tokens(alloc, source) {
        Ok(list) => {
            let count = list.tokens.as_slice().len();
            format!(in alloc; "{count} tokens")
        }
        Err(ParseFault::Syntax { offset }) => format!(in alloc; "fault {offset}"),
        Err(other) => format!(in alloc; "{other:?}"),
    }
}

/// The tokens before the fault of a text: how many, where the text ends, and the fault.
fn front(alloc: Global, source: &[u8]) -> Result<String, AllocError>
    requires { length source.now ≤ 16777216 }
{
    let lexing = tokens_and_fault(alloc, source)?;
    let count = lexing.list.tokens.as_slice().len();
    let end = lexing.list.end;
    match lexing.fault {
        Some(fault) => format!(in alloc; "{count} tokens, end {end}, fault {fault}"),
        None => format!(in alloc; "{count} tokens, end {end}"),
    }
}

/// The line of each place of a text, the last of which is its end.
fn place_lines(alloc: Global, source: &[u8]) -> Result<String, AllocError>
    requires { length source.now ≤ 16777216 }
{
    let mut out = String::from_str(alloc, "lines")?;
    for place in 0..=source.len() {
        let line = line_of(source, place as u32);
        write!(out, " {line}")?;
    }
    Ok(out)
}

/// The line of each token of a text.
fn lines(alloc: Global, source: &[u8]) -> Result<String, AllocError>
    requires { length source.now ≤ 16777216 }
{
    let lexing = tokens_and_fault(alloc, source)?;
    let mut out = String::from_str(alloc, "lines")?;
    for line in token_lines(alloc, source, &lexing.list.tokens)?.as_slice() {
        write!(out, " {line}")?;
    }
    Ok(out)
}

/// The answer to a line `QUESTION@SOURCE`, of which the first `@` is left out.
fn answer_about(alloc: Global, line: &str) -> Result<String, AllocError> {
    let (question, source) = cut(line, '@');
    let source = bytes_in(alloc, source)?;
    if source.len() > 16_777_216 {
        return String::from_str(alloc, "too long");
    }
    match question {
        "front" => front(alloc, &source),
        "places" => place_lines(alloc, &source),
        "lines" => lines(alloc, &source),
        _ => counted(alloc, &repeated(alloc, line)?),
    }
}

fn answer_to(alloc: Global, line: &str) -> Result<String, AllocError> {
    match line.strip_prefix('@') {
        Some(about) => answer_about(alloc, about),
        None => answer(alloc, &bytes_in(alloc, line)?),
    }
}

fn main(rt: HostRuntime) -> io::Result<()> {
    print_answers(&rt, answer_to)
}
