//! How bytes are printed.
use md5::{Digest, Md5};
use std::alloc::{AllocError, Global};

fn push_byte(out: &mut String, b: u8) -> Result<(), AllocError> {
    match b {
        b'\n' => out.push_str("\\n"),
        b'\r' => out.push_str("\\r"),
        b'\\' => out.push_str("\\\\"),
        32..=126 => out.push(b as char),
        _ => write!(out, "\\x{b:02x}"),
    }
}

/// Adds bytes as a row has them.
pub fn push_bytes(out: &mut String, bytes: &[u8]) -> Result<(), AllocError> {
    for b in bytes {
        push_byte(out, *b)?;
    }
    Ok(())
}

/// Adds how many bytes there are, and their digest.
pub fn push_digest(alloc: Global, out: &mut String, bytes: &[u8]) -> Result<(), AllocError> {
    let digest = hex::encode(alloc, &Md5::digest(bytes))?;
    let count = bytes.len();
    write!(out, "{count} bytes, MD5 {digest}")
}
