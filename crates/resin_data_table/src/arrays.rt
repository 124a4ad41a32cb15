//! Calls on an array.

use crate::shown::{push_key, push_value};
use crate::stop::push_array_fault;
use resin_ops::under::value::{Arr, ArrFault, Key, Value};
use resin_table_rows::{Line, Row, cut};
use resin_table_values::{key_in, value_in};
use std::alloc::{AllocError, Global};

// The array that the calls are made on, and one that is kept aside.
struct Pair<'a> {
    row: Row<'a>,
    array: Arr,
    aside: Arr,
}

impl Drop for Pair<'_> {
    fn drop(self) {
        let Pair {
            row: _,
            array: _,
            aside: _,
        } = self;
    }
}

/// Makes two empty arrays, takes the first of them through the steps, and puts their answers last; `false` where the name is none.
pub fn call(row: Row<'_>, out: &mut Line) -> bool {
    let is_known = row.field(0) == "array";
    if is_known {
        let done = push_script(row, out);
        out.note(done);
    }
    is_known
}

fn push_script(row: Row<'_>, out: &mut Line) -> Result<(), AllocError> {
    let mut pair = Pair::new(row)?;
    for step in row.fields_from(1) {
        pair.take(out, step);
    }
    Ok(())
}

impl<'a> Pair<'a> {
    fn new(row: Row<'a>) -> Result<Pair<'a>, AllocError> {
        let array = Arr::new(row.alloc)?;
        let aside = Arr::new(row.alloc)?;
        Ok(Pair { row, array, aside })
    }

    fn take(&mut self, out: &mut Line, step: &str) {
        let (name, rest) = cut(step, ' ');
        if !self.tell(out, name, rest) && !self.look(out, name, rest) {
            let done = self.change(name, rest);
            push_array_fault(out, done);
        }
    }

    // Answers a question on the array; `false` where the name is none.
    fn tell(&self, out: &mut Line, name: &str, rest: &str) -> bool {
        match name {
            "len" => out.push_count(self.array.len()),
            "len_aside" => out.push_count(self.aside.len()),
            "is_empty" => out.push_truth(self.array.is_empty()),
            "height" => out.tell(" ", u64::from(self.array.height()), ""),
            "next_key" => push_next_key(out, &self.array),
            "key_at" => push_key_at(out, &self.array, self.row.count_in(rest) as usize),
            _ => return false,
        }
        true
    }

    // Looks at a key, or takes it out; `false` where the name is none.
    fn look(&mut self, out: &mut Line, name: &str, rest: &str) -> bool {
        let done = match name {
            "get" => push_at(self.row, out, &self.array, rest),
            "get_aside" => push_at(self.row, out, &self.aside, rest),
            "remove" => self.remove(out, rest),
            _ => return false,
        };
        out.note(done);
        true
    }

    fn remove(&mut self, out: &mut Line, key: &str) -> Result<(), AllocError> {
        let key = key_in(self.row, key)?;
        out.push_truth(self.array.remove(&key)?);
        Ok(())
    }

    // Makes a call that changes an array.
    fn change(&mut self, name: &str, rest: &str) -> Result<(), ArrFault> {
        match name {
            "put" => self.put(rest),
            "append" => self.append(rest),
            "append_aside" => self.append_aside(),
            "put_aside" => self.put_aside(rest),
            "copy_aside" => {
                self.aside = self.array.clone()?;
                Ok(())
            }
            _ => {
                self.array = made(self.row, name, rest)?;
                Ok(())
            }
        }
    }

    fn put(&mut self, rest: &str) -> Result<(), ArrFault> {
        let (key, value) = cut(rest, ' ');
        let value = value_in(self.row, value)?;
        let key = key_in(self.row, key)?;
        put(&mut self.array, &key, value)
    }

    fn append(&mut self, rest: &str) -> Result<(), ArrFault> {
        let value = value_in(self.row, rest)?;
        self.array.append(value)
    }

    fn put_aside(&mut self, key: &str) -> Result<(), ArrFault> {
        let value = Value::Arr(self.aside.clone()?);
        let key = key_in(self.row, key)?;
        put(&mut self.array, &key, value)
    }

    fn append_aside(&mut self) -> Result<(), ArrFault> {
        let value = Value::Arr(self.aside.clone()?);
        self.array.append(value)
    }
}

fn put(array: &mut Arr, key: &Key, value: Value) -> Result<(), ArrFault> {
    if key.is_lawful() {
        array.put(key, value)
    } else {
        Ok(())
    }
}

fn push_next_key(out: &mut Line, array: &Arr) {
    match array.next_key() {
        Some(n) => out.push_number(n),
        None => out.push_word("none"),
    }
}

fn push_key_at(out: &mut Line, array: &Arr, i: usize) {
    if i < array.len() {
        push_key(out, array.entry(i).0);
    }
}

fn push_at(row: Row<'_>, out: &mut Line, array: &Arr, key: &str) -> Result<(), AllocError> {
    let key = key_in(row, key)?;
    match array.get(&key) {
        Some(value) => push_value(out, value),
        None => out.push_word("none"),
    }
    Ok(())
}

// The array that a step makes anew.
fn made(row: Row<'_>, name: &str, rest: &str) -> Result<Arr, ArrFault> {
    match name {
        "tower" => tower(row.alloc, row.number_in(rest)),
        "doubled" => doubled(row.alloc, row.number_in(rest)),
        _ => Ok(Arr::new(row.alloc)?),
    }
}

// An array with an array in it.
fn around(alloc: Global, inner: Arr) -> Result<Arr, ArrFault> {
    let mut outer = Arr::new(alloc)?;
    outer.append(Value::Arr(inner))?;
    Ok(outer)
}

// An array in an array in an array, so many times.
fn tower(alloc: Global, height: u32) -> Result<Arr, ArrFault> {
    let mut tower = Arr::new(alloc)?;
    for _ in 1..height {
        tower = around(alloc, tower)?;
    }
    Ok(tower)
}

// `[$a, $a]`, which shares the halves.
fn twice(alloc: Global, half: Arr) -> Result<Arr, ArrFault> {
    let mut whole = around(alloc, half.clone()?)?;
    whole.append(Value::Arr(half))?;
    Ok(whole)
}

// So many times `$a = [$a, $a]`; a body that copies the halves would not end.
fn doubled(alloc: Global, times: u32) -> Result<Arr, ArrFault> {
    let mut doubled = Arr::new(alloc)?;
    for _ in 0..times {
        doubled = twice(alloc, doubled)?;
    }
    Ok(doubled)
}
