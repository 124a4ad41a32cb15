//! Lawful paths of files.
ghost use Rattle.std.specs.Prelude.{◌≡◌};
ghost use Rattle.std.specs.List.{list_all};
ghost use Rattle.resin_bytes.specs.Paths.{is_path_byte, is_dots, is_segment, has_segments, first_segment, is_lawful_path};

/// The most bytes of a lawful path.
const MOST_PATH_BYTES: usize = 200;

/// Whether a path names a file that scripts and requests may reach: 1 to 200 bytes, segments of ASCII letters, digits, `.`, `_` and `-`
/// split by single `/`, no segment `.` or `..`, and a first segment other than `.resin`, where the runtime keeps what belongs to it.
pub fn lawful_path(path: &[u8]) -> bool
    ensures { result ≡ is_lawful_path path.now }
{
    if path.len() > MOST_PATH_BYTES || first_part(path) == b".resin".as_slice() {
        return false;
    }
    all_segments(path)
}

// The bytes before the first `/`, or all.
fn first_part(path: &[u8]) -> &[u8]
    ensures { result.now ≡ first_segment path.now }
{
    match path.iter().position(|c| *c == b'/') {
        Some(end) => &path[..end],
        None => path,
    }
}

// Whether each part between two `/` is a segment.
fn all_segments(path: &[u8]) -> bool
    ensures { result ≡ has_segments path.now }
{
    path.split(|c| *c == b'/').all(segment)
}

// Whether the bytes may stand between two `/`.
fn segment(s: &[u8]) -> bool
    ensures { result ≡ is_segment s.now }
{
    !s.is_empty() && !dots(s) && path_bytes(s)
}

// Whether each byte may stand in a segment.
fn path_bytes(s: &[u8]) -> bool
    ensures { result ≡ list_all is_path_byte s.now }
{
    s.iter().all(|c| path_byte(*c))
}

// Whether the bytes are one of the two segments that mean a folder.
fn dots(s: &[u8]) -> bool
    ensures { result ≡ is_dots s.now }
{
    s == b".".as_slice() || s == b"..".as_slice()
}

// Whether a byte may stand in a segment.
fn path_byte(c: u8) -> bool
    ensures { result ≡ is_path_byte c }
{
    c.is_ascii_alphanumeric() || c == b'.' || c == b'_' || c == b'-'
}
