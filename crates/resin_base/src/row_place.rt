//! Where a row stands.
ghost use Rattle.std.specs.Prelude.{◌≡◌, false, MatchOption};
ghost use Rattle.resin_base.specs.TableStore.{has_number};
ghost use Rattle.resin_base.specs.Places.{IsRowPlace};

use crate::cell::Row;

/// The place of a row of a number.
pub(crate) fn row_place(rows: &[Row], number: u64) -> Option<usize>
    ensures { MatchOption result (has_number rows.now number ≡ false) (IsRowPlace rows.now number) }
{
    for i in 0..rows.len() {
        if rows[i].number == number {
            return Some(i);
        }
    }
    None
}
