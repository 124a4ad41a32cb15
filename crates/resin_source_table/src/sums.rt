//! Sums of ones, the small grammar that is read by its form.
use crate::parity::{Sign, is_odd};
use resin_form::{Cursor, Fault};
use std::alloc::{AllocError, Global};

fn sign(c: char) -> Sign {
    match c {
        '1' => Sign::One,
        '+' => Sign::Plus,
        '!' => Sign::Not,
        '(' => Sign::Open,
        _ => Sign::Close,
    }
}

fn signs(alloc: Global, text: &str) -> Result<Vec<Sign>, AllocError> {
    let mut list = Vec::new(alloc);
    for c in text.chars() {
        list.push(sign(c))?;
    }
    Ok(list)
}

fn spelled(found: Result<bool, Fault>) -> &'static str {
    match found {
        Ok(true) => "odd",
        Ok(false) => "even",
        Err(Fault::Syntax) => "syntax",
        Err(Fault::TooDeep) => "too deep",
        Err(Fault::Memory) => "no memory",
    }
}

/// How many signs are read of `DEPTH|SIGNS`, and what comes of it.
pub fn outcome(alloc: Global, rest: &str) -> Result<String, AllocError> {
    let (depth, text) = rest.split_once('|').unwrap_or(("", rest));
    let depth = depth.parse::<usize>().unwrap_or(0);
    let signs = signs(alloc, text)?;
    let mut cursor = Cursor::new(&signs);
    let found = spelled(is_odd(&mut cursor, depth));
    let read = signs.len().saturating_sub(cursor.left());
    format!(in alloc; "{read} {found}")
}
