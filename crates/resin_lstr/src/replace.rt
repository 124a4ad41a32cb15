//! Texts with each byte replaced.
ghost use Rattle.std.specs.Prelude.{◌≤◌, ◌++◌, length, slice_range};
ghost use Rattle.std.specs.List.{flat_map};
ghost use Rattle.resin_lstr.specs.Texts.{carrying};
ghost use Rattle.resin_lstr.specs.Faults.{GivesText};
ghost use Rattle.resin_lstr.specs.Runs.{AreRunsOf, text_of};
ghost use Rattle.resin_lstr.specs.Tables.{replaced, replacement};

use crate::builder::Builder;
use crate::table::ByteTable;
use crate::text::{Run, TextFault};
use std::alloc::Global;

// Puts the bytes of a run that begins at `from` last, each replaced by the table.
fn replace_run(
    out: Builder,
    bytes: &[u8],
    from: usize,
    run: &Run,
    table: &ByteTable,
) -> Result<Builder, TextFault>
    requires ordered { from ≤ run.now.end }
    requires within { run.now.end ≤ length bytes.now }
    ensures { GivesText result
        (out ++ carrying run.now.set (flat_map (replacement table.now) (slice_range bytes.now from run.now.end))) }
{
    out.append_replaced(&bytes[from..run.end as usize], table, &run.set)
}

// The text of these bytes and runs, with each byte replaced by the table.
pub(crate) fn replace_each(
    alloc: Global,
    bytes: &[u8],
    runs: &[Run],
    table: &ByteTable,
) -> Result<Builder, TextFault>
    requires { AreRunsOf (length bytes.now) runs.now }
    ensures { GivesText result (replaced table.now (text_of bytes.now runs.now)) }
{
    let mut out = Builder::new(alloc);
    let mut from = 0;
    for run in runs {
        out = replace_run(out, bytes, from, run, table)?;
        from = run.end as usize;
    }
    Ok(out)
}
