//! Serves traces over a small site, one run a line. Fields stand between `|`, and `\n`, `\r` and `\0` stand for those bytes. The first field is
//! the kind of the row, with settings behind it, each a word and a number; in each kind but the last come then the words of the command line and what
//! comes in. The site holds `a.php` with `hi` and `d.txt` with `abc`; a name and the bytes of a further file may stand last, and more of them.
//! The kinds are:
//!
//! - `calm`: a trace, from a source that never fails, to an output that never fails. `times N` gives it N times over.
//! - `fake`: the same, from a source that gives `chunk N` bytes at most, to an output, a log and a mail that take `sink N` at most. `read N`,
//!   `write N`, `log N`, `mail N`, `file N` and `table N` let the Nth call of the source, of the output, of the log, of the mail, of the files or of
//!   the tables fail. Among the files may stand tables, each a field `table NAME COLUMN ..`, where `:INTEGER` may stand behind a column's name, and
//!   fields `row NAME CELL~CELL..`, a cell being `i` and an integer, `t` and a text, or else NULL. A field `LOOK PATH` shows what is kept there after
//!   the run, and a field `show NAME` the rows of a table.
//! - `turns WORD`: as `fake`, with each call of that word failing in turn, until none fails. Further settings may follow.
//! - `left`: as `fake`, and only the status is printed, with what the source gives next to a buffer of 65,536 bytes.
//! - `singly`: as `calm`, but the stream of one connection, of which each byte is a record: its front, and more texts, each behind the number of
//!   times that it comes.
//! - `cuts`: a stream that is served whole, and then in two records, for each place to cut it.
//! - `code NAME`: only the exit code of a status.
//!
//! A line is printed for each run: the status and its exit code, the keeper calls with the numbers of those that failed, and the output, the log
//! and the mail, where they hold anything; then what is kept, where the row asks. Of a row of cuts it has the status, how long the output is, and
//! how many cuts give the same one. A line that begins with `# ` is a heading and is printed as it is.
//!
//! The input, and the output, which was worked out from the formats of traces, responses and stored policies, are the table of the tests of runs.
#![tactic(auto)]

mod keepers;
mod rows;
mod runs;
mod settings;

use resin_table_keepers::unescaped;
use resin_table_rows::{Line, print_answers};
use std::alloc::{AllocError, Global};
use std::io;

fn run(alloc: Global, line: &str) -> Result<String, AllocError> {
    if line.starts_with("# ") {
        return String::from_str(alloc, line);
    }
    let text = unescaped(alloc, line)?;
    let mut out = Line::new(alloc);
    let done = rows::push_answer(alloc, &mut out, text.as_str());
    out.note(done);
    out.end()
}

fn main(rt: HostRuntime) -> io::Result<()> {
    print_answers(&rt, run)
}
