//! Labelled texts whose policies stand before the bytes that carry them, as rows of statements and of guards have them.
ghost use Rattle.std.specs.Prelude.{◌<◌, length};

use resin_table_rows::{Line, repeat_in, spelled};
use resin_value::under::label::PSet;
use resin_value::under::lstr::{Builder, LText, TextFault};
use std::alloc::{AllocError, Global};

// What a place of a field stands for.
enum Place {
    // A byte, and how many bytes spell it.
    Byte(u8, usize),
    // The policy of the bytes behind it, which takes two bytes.
    Policy(u32),
}

fn place_in(s: &[u8]) -> Place
    requires { 0 < length s.now }
{
    match s {
        [b'\\', digit, ..] if digit.is_ascii_digit() => Place::Policy((*digit - b'0') as u32),
        [b'\\', b'x' | b'n' | b'r' | b't' | b'\\', ..] => {
            let (b, taken) = spelled(s);
            Place::Byte(b, taken)
        }
        _ => Place::Byte(s[0], 1),
    }
}

fn set_of(alloc: Global, policy: u32) -> Result<PSet, AllocError> {
    if policy == 0 {
        Ok(PSet::empty())
    } else {
        PSet::empty().with(alloc, policy)
    }
}

// The text that a part of a field spells, put last.
fn put_part(alloc: Global, out: Builder, part: &str) -> Result<Builder, TextFault> {
    let bytes = part.as_bytes();
    let mut text = out;
    let mut set = PSet::empty();
    let mut skip = 0usize;
    for i in 0..bytes.len() {
        if skip > 0 {
            skip -= 1;
        } else {
            match place_in(&bytes[i..]) {
                Place::Byte(b, taken) => {
                    text = text.append_bytes(&[b], &set)?;
                    skip = taken.saturating_sub(1);
                }
                Place::Policy(n) => {
                    set = set_of(alloc, n)?;
                    skip = 1;
                }
            }
        }
    }
    Ok(text)
}

// The text that `COUNT@FRONT@PART@BACK` spells.
fn repeated(alloc: Global, field: &str) -> Result<Builder, TextFault> {
    let repeat = repeat_in(field);
    let mut out = put_part(alloc, Builder::new(alloc), repeat.front)?;
    for _turn in 0..repeat.count {
        out = put_part(alloc, out, repeat.part)?;
    }
    put_part(alloc, out, repeat.back)
}

/// The labelled text that a field spells: `\n`, `\r`, `\t`, `\\` and `\xhh` stand for a byte, and `\1` to `\9` let the bytes behind them carry
/// the policy of that number alone, `\0` none. Another backslash stands for itself. `@COUNT@FRONT@PART@BACK` stands for FRONT, COUNT times PART,
/// and BACK, each of which begins without a policy.
pub fn marked_in(alloc: Global, field: &str) -> Result<LText, TextFault> {
    let out = match field.strip_prefix('@') {
        Some(repeat) => repeated(alloc, repeat)?,
        None => put_part(alloc, Builder::new(alloc), field)?,
    };
    Ok(out.finish()?)
}

fn push_set(out: &mut Line, set: &PSet) {
    out.push('{');
    for n in set.as_slice() {
        out.tell("", u64::from(*n), ";");
    }
    out.push('}');
}

/// Puts the bytes of a text last, with the set before each of its runs.
pub fn push_marked(out: &mut Line, text: &LText) {
    let mut from = 0usize;
    for run in text.runs() {
        let to = run.end as usize;
        push_set(out, &run.set);
        out.push_text_bytes(text.bytes().get(from..to).unwrap_or(&[]));
        from = to;
    }
}
