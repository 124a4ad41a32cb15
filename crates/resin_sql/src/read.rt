//! Reading a whole text.

ghost use Rattle.std.specs.Prelude.{◌≡◌, ◌<◌, ◌⊎◌, Ok, Err};
ghost use Rattle.resin_lstr.specs.Texts.{bytes_of};
ghost use Rattle.resin_sql.specs.declared.fault.SqlFault.TheVariants.{Memory};
ghost use Rattle.resin_sql.specs.declared.tree.Stmt.{Stmt};
ghost use Rattle.resin_sql.specs.Answers.{Answers, IsStatement, last_start, next_start};
ghost use Rattle.resin_sql.specs.Places.{refusal};
ghost use Rattle.resin_sql.specs.Readings.{read_as};

use crate::fault::SqlFault;
use crate::statement::statement;
use crate::tree::Stmt;
use resin_form::Fault;
use resin_lstr::LText;
use resin_scan::bytes::is_word_byte;
use resin_sql_words::ByteCursor;
use std::alloc::Global;

fn next_start(start: usize, at: usize, byte: u8) -> usize
    requires { at < usize.MAX }
    ensures { result ≡ next_start start at byte }
{
    if is_word_byte(byte) {
        start
    } else if byte == b'-' {
        at
    } else {
        at + 1
    }
}

/// Where the word or number at the end of these bytes begins.
pub fn last_start(front: &[u8]) -> usize
    ensures { result ≡ last_start 0 0 front.now }
{
    let mut start = 0;
    'bytes: for i in 0..front.len() {
        start = next_start(start, i, front[i]);
    }
    start
}

/// What is told where reading ends at a fault with so many bytes left.
fn refusal(text: &[u8], left: usize, fault: Fault) -> SqlFault
    ensures { result ≡ refusal (last_start 0 0) text.now left fault }
{
    let place = text.len().saturating_sub(left);
    match fault {
        Fault::Syntax => SqlFault::Bad {
            offset: place as u64,
        },
        Fault::TooDeep => SqlFault::Bad {
            offset: last_start(&text[..place]) as u64,
        },
        Fault::Memory => SqlFault::Memory,
    }
}

/// The statement that the bytes are.
fn read_bytes(alloc: Global, text: &[u8]) -> Result<Stmt, SqlFault>
    ensures answers { Answers text.now result }
    ensures found { (q : Stmt) → IsStatement text.now q → (result ≡ Ok q) ⊎ (result ≡ Err Memory) }
    ensures read { (result ≡ read_as text.now) ⊎ (result ≡ Err Memory) }
{
    let mut bytes = ByteCursor::new(text);
    let found = statement(alloc, &mut bytes);
    let left = bytes.left();
    match found {
        Ok(found) if left == 0 => Ok(found),
        Ok(_) => Err(refusal(text, left, Fault::Syntax)),
        Err(fault) => Err(refusal(text, left, fault)),
    }
}

/// The statement that a text is, by the grammar of this crate's page. The literals of the tree tell where they stand in the
/// text, and [`literal_text`](crate::literal_text) gives their labelled bytes.
///
/// `Bad` comes exactly where the text is no statement, with the offset of the first byte at which no continuation is one, or the length of
/// a text that ends too early. A name of more than 64 bytes and a number beyond 64 bits are told by the offset of their first byte, before
/// any later fault; a keyword in the place of a name by the byte behind it, since a longer word may be a name.
pub fn read_sql(alloc: Global, text: &LText) -> Result<Stmt, SqlFault>
    ensures answers { Answers (bytes_of text.now) result }
    ensures found { (q : Stmt) → IsStatement (bytes_of text.now) q → (result ≡ Ok q) ⊎ (result ≡ Err Memory) }
    ensures read { (result ≡ read_as (bytes_of text.now)) ⊎ (result ≡ Err Memory) }
{
    read_bytes(alloc, text.bytes())
}
