//! Labelled texts, and the lists that they give and take.
ghost use Rattle.std.specs.Prelude.{◌≤◌, length};

use crate::shown::{push_set, push_text};
use crate::stop::push_text_fault;
use resin_ops::under::lstr::{Builder, ByteTable, LText, Numbers, Parts, Sets, TextFault, Texts};
use resin_table_rows::{Line, Row, bytes_in, cut};
use resin_table_values::{set_in, text_in};
use std::alloc::{AllocError, Global};

/// Puts the answers of calls on a text, or what a list of the fields holds, last; `false` where the name is none.
pub fn call(row: Row<'_>, out: &mut Line) -> bool {
    let done = match row.field(0) {
        "text" => push_script(row, out),
        "joined" => push_joined(row, out),
        "texts" => push_texts(row, out),
        _ => return call_on_list(row, out),
    };
    push_text_fault(out, done);
    true
}

fn call_on_list(row: Row<'_>, out: &mut Line) -> bool {
    match row.field(0) {
        "sets" => push_sets(out, sets_of(row)),
        "numbers" => push_numbers(out, numbers_of(row)),
        _ => return false,
    }
    true
}

// A text that goes through steps.
struct Stepped<'a> {
    row: Row<'a>,
    text: LText,
}

impl Drop for Stepped<'_> {
    fn drop(self) {
        let Stepped { row: _, text: _ } = self;
    }
}

fn plain(alloc: Global, field: &str) -> Result<LText, TextFault> {
    let bytes = bytes_in(alloc, field)?;
    LText::plain(alloc, &bytes)
}

// Makes the text of the first field's bytes, and takes it through the steps.
fn push_script(row: Row<'_>, out: &mut Line) -> Result<(), TextFault> {
    let text = plain(row.alloc, row.field(1))?;
    let mut stepped = Stepped { row, text };
    for step in row.fields_from(2) {
        stepped.take(out, step)?;
    }
    Ok(())
}

impl Stepped<'_> {
    fn take(&mut self, out: &mut Line, step: &str) -> Result<(), TextFault> {
        let (name, rest) = cut(step, ' ');
        if !self.tell(out, name, rest) {
            self.text = self.changed(name, rest)?;
        }
        Ok(())
    }

    // Answers a question on the text; `false` where the name is none.
    fn tell(&self, out: &mut Line, name: &str, rest: &str) -> bool {
        match name {
            "show" => push_shown(out, &self.text),
            "len" => out.push_count(self.text.len()),
            "run_count" => out.push_count(self.text.run_count()),
            "first_run_of" => push_range(out, self.text.first_run_of(self.row.number_in(rest))),
            "policies_in_order" => push_numbers(out, self.text.policies_in_order(self.row.alloc)),
            "distinct_sets" => push_sets(out, self.text.distinct_sets(self.row.alloc)),
            _ => return false,
        }
        true
    }

    // What a step makes of the text.
    fn changed(&self, name: &str, rest: &str) -> Result<LText, TextFault> {
        match name {
            "concat" => self.with_behind(rest),
            "concat_itself" => self.text.concat(self.row.alloc, &self.text),
            "letters" => letters(self.row.alloc, self.row.count_in(rest) as usize),
            "replace_bytes" => self.with_byte(rest),
            "replace_part" => self.with_part(rest),
            _ => Ok(self.relabelled(name, rest)?),
        }
    }

    fn relabelled(&self, name: &str, rest: &str) -> Result<LText, AllocError> {
        match name {
            "mark" => self.text.mark(self.row.alloc, self.row.number_in(rest)),
            "unmark" => self.text.unmark(self.row.alloc, self.row.number_in(rest)),
            "upper_case" => self.text.map_bytes(self.row.alloc, &upper_case()),
            "slice" => self.part(rest),
            _ => self.text.clone(),
        }
    }

    fn with_behind(&self, field: &str) -> Result<LText, TextFault> {
        let more = text_in(self.row.alloc, field)?;
        self.text.concat(self.row.alloc, &more)
    }

    // The text with its bytes that the first field names replaced by the second.
    fn with_byte(&self, rest: &str) -> Result<LText, TextFault> {
        let (byte, with) = cut(rest, ' ');
        let byte = byte.as_bytes().first().copied().unwrap_or(0);
        let table = table_with(self.row.alloc, byte, with)?;
        self.text.replace_bytes(self.row.alloc, &table)
    }

    // The text from a start to an end, which a step names.
    fn part(&self, part: &str) -> Result<LText, AllocError> {
        let (from, to) = part_in(self.row, &self.text, part);
        self.text.slice(self.row.alloc, from, to)
    }

    // The text with a part replaced.
    fn with_part(&self, rest: &str) -> Result<LText, TextFault> {
        let (part, with) = cut(rest, ' ');
        let with = text_in(self.row.alloc, with)?;
        let (from, to) = part_in(self.row, &self.text, part);
        let mut parts = Parts::new(self.row.alloc);
        parts.push((from, to))?;
        self.text.replace_parts(self.row.alloc, &parts, &with)
    }
}

fn push_shown(out: &mut Line, text: &LText) {
    out.push(' ');
    push_text(out, text);
}

fn push_range(out: &mut Line, range: Option<(usize, usize)>) {
    match range {
        Some((from, to)) => {
            out.push_count(from);
            out.tell("..", to as u64, "");
        }
        None => out.push_word("none"),
    }
}

fn push_numbers(out: &mut Line, numbers: Result<Numbers, AllocError>) {
    if let Some(numbers) = out.taken(numbers) {
        for n in numbers.as_slice() {
            out.push_number(i64::from(*n));
        }
    }
}

fn push_sets(out: &mut Line, sets: Result<Sets, AllocError>) {
    if let Some(sets) = out.taken(sets) {
        for set in sets.as_slice() {
            out.push(' ');
            push_set(out, set);
        }
    }
}

// A table of bytes to upper case, for three letters.
fn upper_case() -> [u8; 256] {
    let mut table = [b'?'; 256];
    table[b'a' as usize] = b'A';
    table[b'b' as usize] = b'B';
    table[b'c' as usize] = b'C';
    table
}

// So many letters `x`.
fn letters(alloc: Global, count: usize) -> Result<LText, TextFault> {
    let bytes = vec![in alloc; b'x'; count]?;
    LText::plain(alloc, &bytes)
}

// The table that replaces a byte by those that a field spells.
fn table_with(alloc: Global, byte: u8, with: &str) -> Result<ByteTable, AllocError> {
    let with = bytes_in(alloc, with)?;
    let mut table = ByteTable::identity(alloc)?;
    table.put(byte, &with)?;
    Ok(table)
}

// The start and the end of a part of the text, as far as it reaches.
fn part_in(row: Row<'_>, text: &LText, field: &str) -> (usize, usize)
    ensures ordered { result.0 ≤ result.1 }
    ensures within { result.1 ≤ length text.now }
{
    let (from, to) = field.split_once("..").unwrap_or((field, ""));
    let to = (row.count_in(to) as usize).min(text.len());
    ((row.count_in(from) as usize).min(to), to)
}

// The set that each field spells.
fn sets_of(row: Row<'_>) -> Result<Sets, AllocError> {
    let mut sets = Sets::new(row.alloc);
    for field in row.fields_from(1) {
        sets.push(set_in(row.alloc, field)?)?;
    }
    Ok(sets)
}

// The text that each field spells.
fn texts_of(row: Row<'_>) -> Result<Texts, TextFault> {
    let mut texts = Texts::new(row.alloc);
    for field in row.fields_from(1) {
        texts.push(text_in(row.alloc, field)?)?;
    }
    Ok(texts)
}

fn push_texts(row: Row<'_>, out: &mut Line) -> Result<(), TextFault> {
    let texts = texts_of(row)?;
    for text in texts.as_slice() {
        push_shown(out, text);
    }
    Ok(())
}

// The number that each field spells.
fn numbers_of(row: Row<'_>) -> Result<Numbers, AllocError> {
    let mut numbers = Numbers::new(row.alloc);
    for field in row.fields_from(1) {
        numbers.push(row.number_in(field))?;
    }
    Ok(numbers)
}

// Two texts joined in turn, as many pieces as the third field says: the bytes and the runs of what comes out.
fn push_joined(row: Row<'_>, out: &mut Line) -> Result<(), TextFault> {
    let text = in_turn(row)?;
    out.tell(" ", text.len() as u64, " bytes");
    out.tell(" ", text.run_count() as u64, " runs");
    Ok(())
}

fn in_turn(row: Row<'_>) -> Result<LText, TextFault> {
    let first = text_in(row.alloc, row.field(1))?;
    let second = text_in(row.alloc, row.field(2))?;
    pieces(row.alloc, &first, &second, row.number(3))
}

fn pieces(alloc: Global, first: &LText, second: &LText, count: u32) -> Result<LText, TextFault> {
    let mut out = Builder::new(alloc);
    for i in 0..count {
        out = out.append(if i % 2 == 0 { first } else { second })?;
    }
    Ok(out.finish()?)
}
