//! The trace of a sample run.
ghost use Rattle.std.specs.Prelude.{◌≡◌, ◌++◌, ◌≤◌, length, decimal, OnOk, IfOk};
ghost use Rattle.resin_trace.specs.Verdicts.{IsGood};
ghost use Rattle.resin_bench_site.specs.Trace.{request_text, first_half, second_half, piece_record, by_halves, records_for, trace_text};

use itoa::Buffer;
use resin_base::Bytes;
use std::alloc::{AllocError, Global};

// Puts a number in decimal last.
fn push_number(text: &mut Bytes, number: u64) -> Result<(), AllocError>
    ensures { OnOk result (text.new ≡ text.old ++ decimal number) }
{
    let mut buffer = Buffer::new();
    text.push_slice(buffer.format(number).as_bytes())
}

// The request for a page with a number.
#[tactic(auto, unfolding(crate::specs::Trace::request_text))]
fn request(alloc: Global, page: &[u8], number: u64) -> Result<Bytes, AllocError>
    ensures { IfOk result (λ text. text ≡ request_text page.now number) }
{
    let mut text = Bytes::new(alloc);
    text.push_slice(b"GET /")?;
    text.push_slice(page)?;
    text.push_slice(b"?n=")?;
    push_number(&mut text, number)?;
    text.push_slice(b" HTTP/1.1\r\nHost: s\r\n\r\n")?;
    Ok(text)
}

// The first half of a text and the rest; the rest is the longer one where the length is odd.
#[tactic(auto, unfolding(crate::specs::Trace::first_half, crate::specs::Trace::second_half))]
fn halves(text: &[u8]) -> (&[u8], &[u8])
    ensures first { result.0.now ≡ first_half text.now }
    ensures second { result.1.now ≡ second_half text.now }
{
    text.split_at(text.len() / 2)
}

// Puts the record of a piece last.
#[tactic(auto, unfolding(crate::specs::Trace::piece_record))]
fn push_piece(trace: &mut Bytes, conn: u64, piece: &[u8]) -> Result<(), AllocError>
    ensures { OnOk result (trace.new ≡ trace.old ++ piece_record conn piece.now) }
{
    push_number(trace, conn)?;
    trace.push(b' ')?;
    push_number(trace, piece.len() as u64)?;
    trace.push(b'\n')?;
    trace.push_slice(piece)?;
    trace.push(b'\n')
}

// Puts the records of two requests last, half by half.
#[tactic(auto, unfolding(crate::specs::Trace::by_halves))]
fn push_halves(trace: &mut Bytes, one: &[u8], two: &[u8]) -> Result<(), AllocError>
    ensures { OnOk result (trace.new ≡ trace.old ++ by_halves one.now two.now) }
{
    let (one_first, one_second) = halves(one);
    let (two_first, two_second) = halves(two);
    push_piece(trace, 1, one_first)?;
    push_piece(trace, 2, two_first)?;
    push_piece(trace, 1, one_second)?;
    push_piece(trace, 2, two_second)
}

// Puts the four records for a number last.
#[tactic(auto, unfolding(crate::specs::Trace::records_for))]
fn push_records(alloc: Global, trace: &mut Bytes, k: u32) -> Result<(), AllocError>
    requires { 1 ≤ k }
    ensures { OnOk result (trace.new ≡ trace.old ++ records_for k) }
{
    let number = 2 * u64::from(k) - 1;
    let writing = request(alloc, b"w.php", number)?;
    let reading = request(alloc, b"r.php", number)?;
    push_halves(trace, writing.as_slice(), reading.as_slice())
}

/// The trace of a sample run (FORMATS.md, "The sample"): for each k from 1 to n four records, the halves of a request to `w.php` on
/// connection 1 and those of a request to `r.php` on connection 2, by turns. So it has 2n requests. It is empty where n is 0, and has
/// about a hundred bytes for each k: 1,028,890 for 10,000. Up to that number it is a good trace.
pub fn sample_trace(alloc: Global, n: u32) -> Result<Bytes, AllocError>
    ensures text { IfOk result (λ trace. trace ≡ trace_text n) }
    ensures good { n ≤ 10000 → IfOk result (λ trace. IsGood trace) }
{
    let mut trace = Bytes::new(alloc);
    for k in 1..=n {
        push_records(alloc, &mut trace, k)?;
    }
    Ok(trace)
}
