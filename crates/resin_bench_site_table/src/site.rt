//! The files of the site.
use crate::digest::push_bytes;
use resin_bench_site::sample_site;
use resin_memory::CalmFiles;
use std::alloc::{AllocError, Global};

// What stands at a path, or `none`.
fn push_entry(out: &mut String, files: &CalmFiles, path: &str) -> Result<(), AllocError> {
    match files.get(path.as_bytes()) {
        Some((bytes, shadow)) => {
            out.push('\'')?;
            push_bytes(out, bytes)?;
            out.push_str("' with '")?;
            push_bytes(out, shadow)?;
            out.push('\'')
        }
        None => out.push_str("none"),
    }
}

/// What stands at a path of the site alone.
pub fn push_new(alloc: Global, out: &mut String, path: &str) -> Result<(), AllocError> {
    let mut files = CalmFiles::new(alloc);
    sample_site(&mut files)?;
    push_entry(out, &files, path)
}

/// What stands at a path of the site, where the store held a file before.
pub fn push_over(
    alloc: Global,
    out: &mut String,
    held: &str,
    path: &str,
) -> Result<(), AllocError> {
    let mut files = CalmFiles::new(alloc);
    files.put(held.as_bytes(), b"old", b"shadow")?;
    sample_site(&mut files)?;
    push_entry(out, &files, path)
}
