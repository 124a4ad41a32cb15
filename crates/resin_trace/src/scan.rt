//! What stands at the front of a text.
ghost use Rattle.std.specs.Prelude.{◌≡◌, ◌≤◌, ◌<◌, ◌+◌, ℕ, length, drop};
ghost use Rattle.resin_trace.specs.Front as spec;
ghost use Rattle.resin_trace.specs.Front.{Shows};
ghost use Rattle.resin_trace.specs.Reads.{Scans, Tails};

/// What stands at the front of a text. A piece's bytes stand from one place to another, and its record ends one byte
/// later.
#[derive(Clone, Copy, Debug, PartialEq, Eq)]
pub(crate) enum Scan {
    Piece { conn: u16, from: usize, to: usize },
    End { conn: u16, used: usize },
    /// No whole record, and more bytes can make one.
    Need,
    /// No record, whatever follows.
    Bad,
}

/// A number at the front, before a byte that is no digit.
#[derive(Clone, Copy, Debug, PartialEq, Eq)]
pub(crate) enum Read {
    Whole { value: usize, used: usize },
    Need,
    Bad,
}

/// What stands after the records of a text: the place where they end, and whether more bytes can make a record there.
#[derive(Clone, Copy, Debug, PartialEq, Eq)]
pub(crate) struct Tail {
    pub(crate) at: usize,
    pub(crate) goes: bool,
}

/// The most bytes of a piece.
const LARGEST: usize = 1_048_576;

/// Looks for a record at the front. It reads at most eight bytes of each number, and of a piece's bytes none but the
/// one after them.
pub(crate) fn look(text: &[u8]) -> Scan
    ensures { Scans text.now result }
{
    front(text)
}

/// Goes over the records at the front.
pub(crate) fn records_end(text: &[u8]) -> Tail
    ensures { (place : ℕ) → Tails place text.now result }
{
    let mut at = 0;
    'records: loop {
        match look(&text[at..]) {
            Scan::Piece { to, .. } => at += to + 1,
            Scan::End { used, .. } => at += used,
            Scan::Need => return Tail { at, goes: true },
            Scan::Bad => return Tail { at, goes: false },
        }
    }
}

// What stands at the front.
fn front(text: &[u8]) -> Scan
    ensures { Shows text.now result (spec.front text.now) }
{
    match number(1, 1000, text) {
        Read::Whole { value, used } => numbered(text, value as u16, used),
        Read::Need => Scan::Need,
        Read::Bad => Scan::Bad,
    }
}

// What stands after the number of a connection: a space first.
fn numbered(text: &[u8], conn: u16, at: usize) -> Scan
    requires { at ≤ length text.now }
    ensures { Shows text.now result (spec.numbered conn at (drop at text.now)) }
{
    if at == text.len() {
        return Scan::Need;
    }
    if text[at] != b' ' {
        return Scan::Bad;
    }
    said(text, conn, at + 1)
}

// What stands after the space: a word, or the count of a piece's bytes.
fn said(text: &[u8], conn: u16, at: usize) -> Scan
    requires { at ≤ length text.now }
    ensures { Shows text.now result (spec.said conn at (drop at text.now)) }
{
    if at == text.len() {
        return Scan::Need;
    }
    if text[at] == b'e' {
        return end(text, conn, at + 1, b"nd\n");
    }
    match number(0, LARGEST, &text[at..]) {
        Read::Whole { value, used } => sized(text, conn, value, at + used),
        Read::Need => Scan::Need,
        Read::Bad => Scan::Bad,
    }
}

// What stands after the count: the end of its line first.
fn sized(text: &[u8], conn: u16, count: usize, at: usize) -> Scan
    requires { at ≤ length text.now }
    ensures { Shows text.now result (spec.sized conn count at (drop at text.now)) }
{
    if at == text.len() {
        return Scan::Need;
    }
    if text[at] != b'\n' {
        return Scan::Bad;
    }
    body(text, conn, count, at + 1)
}

// Bytes of a known count, and the end of their line.
fn body(text: &[u8], conn: u16, count: usize, at: usize) -> Scan
    requires { at ≤ length text.now }
    ensures { Shows text.now result (spec.body conn count at (drop at text.now)) }
{
    if text.len() - at <= count {
        return Scan::Need;
    }
    let to = at + count;
    if text[to] != b'\n' {
        return Scan::Bad;
    }
    Scan::Piece { conn, from: at, to }
}

// The word that ends a connection.
fn end(text: &[u8], conn: u16, at: usize, word: &[u8]) -> Scan
    requires { at ≤ length text.now }
    ensures { Shows text.now result (spec.end conn at word.now (drop at text.now)) }
{
    for i in 0..word.len() {
        if i == text.len() - at {
            return Scan::Need;
        }
        if text[at + i] != word[i] {
            return Scan::Bad;
        }
    }
    Scan::End {
        conn,
        used: at + word.len(),
    }
}

// The number at the front, from one bound to another. No more than eight bytes decide it.
fn number(low: usize, high: usize, text: &[u8]) -> Read
    requires high { high ≤ 1048576 }
    requires some { 9 ≤ high }
    ensures is { result ≡ spec.number low high text.now }
    ensures within { spec.Within high text.now result }
{
    let few = text.len().min(8);
    number_of_few(low, high, &text[..few])
}

// The number at the front of a few bytes.
fn number_of_few(low: usize, high: usize, text: &[u8]) -> Read
    requires high { high ≤ 1048576 }
    requires few { length text.now ≤ 8 }
    requires some { 9 ≤ high }
    ensures is { result ≡ spec.number low high text.now }
    ensures within { spec.Within high text.now result }
{
    if text.is_empty() {
        return Read::Need;
    }
    let first = digit(text[0]);
    if !is_digit(text[0]) || first < low {
        return Read::Bad;
    }
    let mut value = first;
    for used in 1..text.len() {
        if !is_digit(text[used]) {
            return Read::Whole { value, used };
        }
        let next = 10 * value + digit(text[used]);
        if value == 0 || next > high {
            return Read::Bad;
        }
        value = next;
    }
    Read::Need
}

fn is_digit(byte: u8) -> bool
    ensures { result ≡ spec.is_digit byte }
{
    byte.is_ascii_digit()
}

fn digit(byte: u8) -> usize
    ensures is { result ≡ spec.digit byte }
    ensures small { result ≤ 207 }
{
    (byte as usize).saturating_sub(48)
}
