//! Values and keys.

use crate::texts::{cut_set, text_in};
use resin_table_rows::{Row, bytes_in};
use resin_value::{Arr, ArrFault, Key, Value};
use std::alloc::{AllocError, Global};

// An array under way, and the key of its next value.
struct Open {
    array: Arr,
    key: Option<Key>,
}

impl Drop for Open {
    fn drop(self) {
        let Open { array: _, key: _ } = self;
    }
}

impl Open {
    fn into_value(self) -> Value {
        let Open { array, key: _ } = self;
        Value::Arr(array)
    }

    // Puts a value at the key that was read, or last.
    fn put(&mut self, value: Value) -> Result<(), ArrFault> {
        match self.key.take() {
            Some(key) if key.is_lawful() => self.array.put(&key, value),
            _ => self.array.append(value),
        }
    }
}

// The arrays that are under way, one in another, and the last value that stood in none.
struct Reader<'a> {
    row: Row<'a>,
    opened: Vec<Open>,
    read: Value,
}

impl Drop for Reader<'_> {
    fn drop(self) {
        let Reader {
            row: _,
            opened: _,
            read: _,
        } = self;
    }
}

/// The value that a field spells.
pub fn value_in(row: Row<'_>, field: &str) -> Result<Value, AllocError> {
    let mut reader = Reader {
        row,
        opened: Vec::new(row.alloc),
        read: Value::Null,
    };
    for token in field.split(' ') {
        reader.take(token)?;
    }
    Ok(reader.into_value())
}

impl Reader<'_> {
    fn into_value(self) -> Value {
        let Reader {
            row: _,
            opened: _,
            read,
        } = self;
        read
    }

    fn take(&mut self, token: &str) -> Result<(), AllocError> {
        match token {
            "[" => self.open(),
            "]" => self.close(),
            _ => self.take_scalar(token),
        }
    }

    fn take_scalar(&mut self, token: &str) -> Result<(), AllocError> {
        if let Some(key) = token.strip_suffix(':') {
            return self.set_key(key);
        }
        let value = scalar_in(self.row, token)?;
        self.put(value)
    }

    fn open(&mut self) -> Result<(), AllocError> {
        let array = Arr::new(self.row.alloc)?;
        self.opened.push(Open { array, key: None })?;
        Ok(())
    }

    fn close(&mut self) -> Result<(), AllocError> {
        match self.opened.pop() {
            Some(open) => self.put(open.into_value()),
            None => {
                self.row.fail();
                Ok(())
            }
        }
    }

    fn set_key(&mut self, token: &str) -> Result<(), AllocError> {
        let key = key_in(self.row, token)?;
        match self.opened.last_mut() {
            Some(open) => open.key = Some(key),
            None => self.row.fail(),
        }
        Ok(())
    }

    // Puts a value into the innermost array.
    fn put(&mut self, value: Value) -> Result<(), AllocError> {
        let Some(open) = self.opened.last_mut() else {
            self.read = value;
            return Ok(());
        };
        match open.put(value) {
            Ok(()) => Ok(()),
            Err(_) => Err(AllocError),
        }
    }
}

fn scalar_in(row: Row<'_>, token: &str) -> Result<Value, AllocError> {
    match token {
        "null" => Ok(Value::Null),
        "true" => Ok(Value::Bool(true)),
        "false" => Ok(Value::Bool(false)),
        _ => written_in(row, token),
    }
}

// A text, an object, or an integer with its set.
fn written_in(row: Row<'_>, token: &str) -> Result<Value, AllocError> {
    if let Some(number) = token.strip_prefix('#') {
        return Ok(Value::Obj(row.number_in(number)));
    }
    match token.strip_prefix('\'') {
        Some(text) => quoted_in(row.alloc, text),
        None => labelled_in(row, token),
    }
}

fn quoted_in(alloc: Global, text: &str) -> Result<Value, AllocError> {
    let text = text_in(alloc, text.strip_suffix('\'').unwrap_or(text))?;
    Ok(Value::Text(text))
}

fn labelled_in(row: Row<'_>, token: &str) -> Result<Value, AllocError> {
    let (number, set) = cut_set(row.alloc, token)?;
    Ok(Value::Int(row.integer_in(number), set))
}

/// The key that a field spells: an integer, or what a text between `'` counts as.
pub fn key_in(row: Row<'_>, field: &str) -> Result<Key, AllocError> {
    let Some(text) = field.strip_prefix('\'') else {
        return Ok(Key::Int(row.integer_in(field)));
    };
    let bytes = bytes_in(row.alloc, text.strip_suffix('\'').unwrap_or(text))?;
    Key::from_text(row.alloc, &bytes)
}
