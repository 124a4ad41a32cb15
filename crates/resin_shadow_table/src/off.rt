//! How many texts are read that are off a shadow text by one byte.

use crate::fields::length_in;
use crate::stop::Stop;
use resin_shadow::decode;
use resin_table_rows::bytes_in;
use std::alloc::{AllocError, Global};

// The bytes with so many from a place on left out, and these in their place.
fn replaced(
    alloc: Global,
    bytes: &[u8],
    from: usize,
    count: usize,
    new: &[u8],
) -> Result<Vec<u8>, AllocError> {
    let mut out = Vec::new(alloc);
    out.extend_from_slice(bytes.get(..from).unwrap_or(&[]))?;
    out.extend_from_slice(new)?;
    out.extend_from_slice(bytes.get(from.saturating_add(count)..).unwrap_or(&[]))?;
    Ok(out)
}

// A shadow text of so many bytes, and how many of the texts that were made of it are read.
#[derive(Drop)]
struct Trial<'a> {
    alloc: Global,
    len: u64,
    shadow: &'a [u8],
    read: u32,
}

impl<'a> Trial<'a> {
    fn new(alloc: Global, len: u64, shadow: &'a [u8]) -> Trial<'a> {
        Trial {
            alloc,
            len,
            shadow,
            read: 0,
        }
    }

    // Reads the text in which these bytes stand in the place of so many from a place on.
    fn try_with(&mut self, from: usize, count: usize, new: &[u8]) -> Result<(), AllocError> {
        let text = replaced(self.alloc, self.shadow, from, count, new)?;
        if decode(self.alloc, self.len, &text)?.is_some() {
            self.read = self.read.saturating_add(1);
        }
        Ok(())
    }
}

// How many texts are read in which one byte is another one.
fn changed(alloc: Global, len: u64, shadow: &[u8]) -> Result<u32, AllocError> {
    let mut trial = Trial::new(alloc, len, shadow);
    for (i, b) in shadow.iter().enumerate() {
        trial.try_with(i, 1, &[*b ^ 1])?;
        trial.try_with(i, 1, &[*b ^ 2])?;
        trial.try_with(i, 1, &[*b ^ 16])?;
    }
    Ok(trial.read)
}

// How many texts are read in which one byte is missing.
fn dropped(alloc: Global, len: u64, shadow: &[u8]) -> Result<u32, AllocError> {
    let mut trial = Trial::new(alloc, len, shadow);
    for i in 0..shadow.len() {
        trial.try_with(i, 1, &[])?;
    }
    Ok(trial.read)
}

// How many texts are read in which one byte stands twice.
fn doubled(alloc: Global, len: u64, shadow: &[u8]) -> Result<u32, AllocError> {
    let mut trial = Trial::new(alloc, len, shadow);
    for (i, b) in shadow.iter().enumerate() {
        trial.try_with(i, 0, &[*b])?;
    }
    Ok(trial.read)
}

/// Puts last how many of the texts are read that come of a shadow text of so many bytes by changing, by dropping, and by doubling one byte.
pub fn push_off(alloc: Global, out: &mut String, len: &str, text: &str) -> Result<(), Stop> {
    let len = length_in(len)?;
    let bytes = bytes_in(alloc, text)?;
    let changed = changed(alloc, len, &bytes)?;
    let dropped = dropped(alloc, len, &bytes)?;
    let doubled = doubled(alloc, len, &bytes)?;
    Ok(write!(out, " {changed} {dropped} {doubled}")?)
}
