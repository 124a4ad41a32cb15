//! Keeper calls on files. Each is the next numbered call: it fails with a keeper stop exactly where the keeper failed, and is the fault FuelSpent
//! exactly where no number is left. After want of memory neither the keeper nor the numbers are changed.
ghost use Rattle.resin_meaning.specs.Runs.{Does, Seen, files_seen, world};
ghost use Rattle.resin_base.specs.TableStore.{TableStore};
ghost use Rattle.resin_store.specs.Entries.{Marked, AreWritten};
ghost use Rattle.resin_meaning.specs.KeeperCalls as asked;
ghost use Rattle.resin_meaning.specs.KeeperCalls.{lifted};

use crate::numbers::{ask, settle};
use resin_base::{Calls, Entry, Files};
use resin_machine::{Machine, Stop};

/// The entry at a path, `None` exactly where there is none.
pub fn read_file<F: Files>(
    m: &Machine,
    files: &mut F,
    calls: &mut Calls,
    path: &[u8],
) -> Result<Option<Entry>, Stop>
    ensures { (t : Seen TableStore) → Does (asked.read_file path.now)
        (world m.now (files_seen (F.stored files.old) (F.faults files.old) (F.answers files.old)) t calls.old) (lifted result)
        (world m.now (files_seen (F.stored files.new) (F.faults files.new) (F.answers files.new)) t calls.new) }
{
    ask(m, calls)?;
    let answer = files.read(path);
    settle(calls, answer)
}

/// Sets the bytes and the shadow text at a path. Where the shadow text is what is written of policies of these bytes, it sets the bytes
/// with these policies.
pub fn write_file<F: Files>(
    m: &Machine,
    files: &mut F,
    calls: &mut Calls,
    path: &[u8],
    bytes: &[u8],
    shadow: &[u8],
) -> Result<(), Stop>
    ensures { (d : Marked) → AreWritten bytes.now shadow.now d → (t : Seen TableStore) → Does (asked.write_file path.now d)
        (world m.now (files_seen (F.stored files.old) (F.faults files.old) (F.answers files.old)) t calls.old) result
        (world m.now (files_seen (F.stored files.new) (F.faults files.new) (F.answers files.new)) t calls.new) }
{
    ask(m, calls)?;
    let answer = files.write(path, bytes, shadow);
    settle(calls, answer)
}

/// Takes the entry at a path out, and says whether there was one.
pub fn remove_file<F: Files>(
    m: &Machine,
    files: &mut F,
    calls: &mut Calls,
    path: &[u8],
) -> Result<bool, Stop>
    ensures { (t : Seen TableStore) → Does (asked.remove_file path.now)
        (world m.now (files_seen (F.stored files.old) (F.faults files.old) (F.answers files.old)) t calls.old) result
        (world m.now (files_seen (F.stored files.new) (F.faults files.new) (F.answers files.new)) t calls.new) }
{
    ask(m, calls)?;
    let answer = files.remove(path);
    settle(calls, answer)
}

/// Whether a path has an entry.
pub fn file_exists<F: Files>(
    m: &Machine,
    files: &mut F,
    calls: &mut Calls,
    path: &[u8],
) -> Result<bool, Stop>
    ensures { (t : Seen TableStore) → Does (asked.file_exists path.now)
        (world m.now (files_seen (F.stored files.old) (F.faults files.old) (F.answers files.old)) t calls.old) result
        (world m.now (files_seen (F.stored files.new) (F.faults files.new) (F.answers files.new)) t calls.new) }
{
    ask(m, calls)?;
    let answer = files.exists(path);
    settle(calls, answer)
}
