//! What the items of a total make of their cells.

ghost use Rattle.std.specs.Prelude.{◌≡◌, ◌<◌, ◌^◌, ◌++◌, ◌∷◌, [], ◌⊎◌, pos, Err, IfOk, OnOk};
ghost use Rattle.resin_sql_more.specs.Values as spec;
ghost use Rattle.resin_sql_more.specs.declared.values.TotalFault.TheVariants.{Memory};

use resin_base::{Bytes, Cell};
use resin_bytes::decimal;
use resin_joint::TotalItem;
use resin_rows::{copied_or_null, meets};
use resin_sql::Comparison;
use std::alloc::{AllocError, Global};

/// Why an item has no value.
#[derive(Clone, Copy, Debug, PartialEq, Eq)]
pub enum TotalFault {
    /// A partial sum, in the order of the rows, leaves 64 bits.
    IntegerOverflow,
    /// The cells of GROUP_CONCAT are more than 16,777,216 bytes, with the commas between them.
    TextTooLong,
    /// Memory ran out.
    Memory,
}

impl From<AllocError> for TotalFault {
    ghost use Rattle.std.specs.Prelude.{◌≡◌};
    ghost use Rattle.resin_sql_more.specs.declared.values.TotalFault.TheVariants.{Memory};

    ghost from_gives = { λ _ fault. fault ≡ Memory };

    fn from(_: AllocError) -> TotalFault {
        TotalFault::Memory
    }
}

/// The sum of a partial sum and a cell; a cell that is no integer adds nothing.
fn added(sum: i64, cell: &Cell) -> Option<i64>
    ensures { result ≡ spec.sum_from sum (cell.now ∷ []) }
{
    match cell {
        Cell::Int(n) => sum.checked_add(*n),
        _ => Some(sum),
    }
}

/// The sum of the integers.
fn sum_of(cells: &[Cell]) -> Option<i64>
    ensures { result ≡ spec.sum_from (pos 0) cells.now }
{
    let mut sum = 0i64;
    for cell in cells {
        sum = added(sum, cell)?;
    }
    Some(sum)
}

/// The first of the cells that are least or greatest.
fn first_best<'a>(better: Comparison, first: &'a Cell, cells: &'a [Cell]) -> &'a Cell
    ensures { result.now ≡ spec.first_best better first.now cells.now }
{
    let mut best = first;
    for cell in cells {
        if meets(better, cell, best) {
            best = cell;
        }
    }
    best
}

/// Puts a cell last as a text.
fn push_text(alloc: Global, out: &mut Bytes, cell: &Cell) -> Result<(), AllocError>
    ensures { OnOk result (out.new ≡ out.old ++ spec.as_text cell.now) }
{
    match cell {
        Cell::Null => Ok(()),
        Cell::Int(n) => {
            let text = decimal(alloc, *n)?;
            out.push_slice(text.as_slice())
        }
        Cell::Text(text) => out.push_slice(text.as_slice()),
    }
}

/// The cells as texts, with commas between them.
fn concatenated(alloc: Global, first: &Cell, cells: &[Cell]) -> Result<Bytes, AllocError>
    ensures { IfOk result (λ text. text ≡ spec.concatenated first.now cells.now) }
{
    let mut out = Bytes::new(alloc);
    push_text(alloc, &mut out, first)?;
    for cell in cells {
        out.push(b',')?;
        push_text(alloc, &mut out, cell)?;
    }
    Ok(out)
}

/// A text, if it isn't too long.
fn within(text: Bytes) -> Result<Cell, TotalFault>
    ensures { result ≡ spec.within text }
{
    if text.as_slice().len() > 16_777_216 {
        Err(TotalFault::TextTooLong)
    } else {
        Ok(Cell::Text(text))
    }
}

/// The value over cells of which there is one.
fn value_of(
    alloc: Global,
    item: &TotalItem,
    chosen: u64,
    first: &Cell,
    cells: &[Cell],
    others: &[Cell],
) -> Result<Cell, TotalFault>
    requires few { chosen < 2 ^ 63 }
    requires all { cells.now ≡ first.now ∷ others.now }
    ensures { (result ≡ spec.value_of item.now chosen first.now others.now) ⊎ (result ≡ Err Memory) }
{
    match item {
        TotalItem::Count => Ok(Cell::Int(chosen as i64)),
        TotalItem::Sum(_) => match sum_of(cells) {
            Some(sum) => Ok(Cell::Int(sum)),
            None => Err(TotalFault::IntegerOverflow),
        },
        TotalItem::Min(_) => {
            let least = first_best(Comparison::Less, first, others);
            Ok(copied_or_null(alloc, Some(least))?)
        }
        TotalItem::Max(_) => {
            let greatest = first_best(Comparison::Greater, first, others);
            Ok(copied_or_null(alloc, Some(greatest))?)
        }
        TotalItem::GroupConcat(_) => within(concatenated(alloc, first, others)?),
    }
}

/// The value of an item of a total over its cells, which were read and aren't NULL; `chosen`: how many rows were chosen. It has no labels: the one
/// set that SUM, MIN, MAX and GROUP_CONCAT carry is merged of the distinct sets of the cells' bytes and integers, in the order in which they
/// first occur. Without cells all but `COUNT(*)` are NULL.
///
/// - `IntegerOverflow` comes exactly where a partial sum leaves 64 bits.
/// - `TextTooLong` comes exactly where the text is longer than 16,777,216 bytes.
/// - `Memory` comes only where memory was wanted.
pub fn item_value(
    alloc: Global,
    item: &TotalItem,
    chosen: u64,
    cells: &[Cell],
) -> Result<Cell, TotalFault>
    requires { chosen < 2 ^ 63 }
    ensures { (result ≡ spec.item_value item.now chosen cells.now) ⊎ (result ≡ Err Memory) }
{
    match cells.split_first() {
        Some((first, others)) => value_of(alloc, item, chosen, first, cells, others),
        None => match item {
            TotalItem::Count => Ok(Cell::Int(chosen as i64)),
            _ => Ok(Cell::Null),
        },
    }
}
