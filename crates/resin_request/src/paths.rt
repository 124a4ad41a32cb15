//! Which file a request asks for, and of what type it is.
ghost use Rattle.std.specs.Prelude.{◌≡◌, drop, IfOk};
ghost use Rattle.std.specs.List.{before_first};
ghost use Rattle.resin_request.specs.Paths.{is_question, has_ending, path_of, is_open, is_script, kind_of};

use resin_interp::under::bytes::lawful_path;
use std::alloc::{AllocError, Global};

/// The file that runs before each request.
pub const BOOT_PATH: &[u8] = b"boot.php";

/// The type of texts.
pub const PLAIN_KIND: &[u8] = b"text/plain; charset=UTF-8";

/// The path of the file that a target asks for: what stands before the first `?`, without the first `/`, with percent escapes decoded.
/// A path that is empty or ends with `/` means the `index.php` there.
pub fn path_of(alloc: Global, target: &[u8]) -> Result<Vec<u8>, AllocError>
    ensures { IfOk result (λ path. path.items ≡ path_of target.now) }
{
    let mut path = Vec::new(alloc);
    percent_encoding::percent_decode(after_slash(before_query(target))).append_to(&mut path)?;
    if path.len() == 0 || path.as_slice().ends_with(b"/") {
        path.extend_from_slice(b"index.php")?;
    }
    Ok(path)
}

// What stands before the first `?`, or all.
fn before_query(target: &[u8]) -> &[u8]
    ensures { result.now ≡ before_first is_question target.now }
{
    match target.iter().position(|b| *b == b'?') {
        Some(end) => &target[..end],
        None => target,
    }
}

// What stands after the first byte.
fn after_slash(target: &[u8]) -> &[u8]
    ensures { result.now ≡ drop 1 target.now }
{
    match target.split_first() {
        Some((_, rest)) => rest,
        None => target,
    }
}

/// Whether a request may ask for the path.
pub fn is_open(path: &[u8]) -> bool
    ensures { result ≡ is_open path.now }
{
    lawful_path(path) && path != BOOT_PATH
}

/// Whether the name is that of a script.
pub fn is_script(path: &[u8]) -> bool
    ensures { result ≡ is_script path.now }
{
    path.ends_with(b".php")
}

/// The type that the name of a file tells.
pub fn kind_of(path: &[u8]) -> &'static [u8]
    ensures { result.now ≡ kind_of path.now }
{
    if is_script(path) || path.ends_with(b".html") || path.ends_with(b".htm") {
        b"text/html; charset=UTF-8"
    } else if path.ends_with(b".txt") {
        PLAIN_KIND
    } else if path.ends_with(b".css") {
        b"text/css"
    } else if path.ends_with(b".js") {
        b"text/javascript"
    } else {
        b"application/octet-stream"
    }
}
