//! Reading a whole text.

ghost use Rattle.std.specs.Prelude.{◌≡◌, ◌⊎◌, Ok, Err};
ghost use Rattle.resin_lstr.specs.Texts.{bytes_of};
ghost use Rattle.resin_sql.specs.Places.{refusal};
ghost use Rattle.resin_sql.specs.declared.fault.SqlFault.TheVariants.{Memory};
ghost use Rattle.resin_joint.specs.Answers.{AnswersMore, IsMore, before_dot, start};
ghost use Rattle.resin_joint.specs.Readings.{read_more_as};
ghost use Rattle.resin_joint.specs.declared.tree.MoreStmt.{MoreStmt};

use crate::selects::joint;
use crate::tree::MoreStmt;
use resin_form::Fault;
use resin_lstr::LText;
use resin_sql::SqlFault;
use resin_sql::parts::last_start;
use resin_sql_words::ByteCursor;
use std::alloc::Global;

/// Bytes without a `.` that ends them.
fn before_dot(front: &[u8]) -> &[u8]
    ensures { result.now ≡ before_dot front.now }
{
    if front.ends_with(b".") {
        &front[..front.len() - 1]
    } else {
        front
    }
}

/// What is told where reading ends at a fault with so many bytes left.
fn refusal(text: &[u8], left: usize, fault: Fault) -> SqlFault
    ensures { result ≡ refusal start text.now left fault }
{
    let place = text.len().saturating_sub(left);
    match fault {
        Fault::Syntax => SqlFault::Bad {
            offset: place as u64,
        },
        Fault::TooDeep => SqlFault::Bad {
            offset: last_start(before_dot(&text[..place])) as u64,
        },
        Fault::Memory => SqlFault::Memory,
    }
}

/// The statement that the bytes are.
fn read_bytes(alloc: Global, text: &[u8]) -> Result<MoreStmt, SqlFault>
    ensures answers { AnswersMore text.now result }
    ensures found { (q : MoreStmt) → IsMore text.now q → (result ≡ Ok q) ⊎ (result ≡ Err Memory) }
    ensures read { (result ≡ read_more_as text.now) ⊎ (result ≡ Err Memory) }
{
    let mut bytes = ByteCursor::new(text);
    let found = joint(alloc, &mut bytes);
    let left = bytes.left();
    match found {
        Ok(found) if left == 0 => Ok(found),
        Ok(_) => Err(refusal(text, left, Fault::Syntax)),
        Err(fault) => Err(refusal(text, left, fault)),
    }
}

/// The statement that a text is, by the joint grammar. The literals of the tree tell where they stand in the text, as those of
/// [`read_sql`](resin_sql::read_sql) do.
///
/// `Bad` comes exactly where the text is no statement, with the offset of the first byte at which no continuation is one, or
/// the length of a text that ends too early. A name of more than 64 bytes and a number beyond 64 bits are told by the offset of
/// their first byte, before any later fault, and so is the second column of ON where it is on the first's side of a join of two
/// tables.
pub fn read_more(alloc: Global, text: &LText) -> Result<MoreStmt, SqlFault>
    ensures answers { AnswersMore (bytes_of text.now) result }
    ensures found { (q : MoreStmt) → IsMore (bytes_of text.now) q → (result ≡ Ok q) ⊎ (result ≡ Err Memory) }
    ensures read { (result ≡ read_more_as (bytes_of text.now)) ⊎ (result ≡ Err Memory) }
{
    read_bytes(alloc, text.bytes())
}
