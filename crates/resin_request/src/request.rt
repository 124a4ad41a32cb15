//! One request.
ghost use Rattle.std.specs.Prelude.{Some};
ghost use Rattle.std.specs.Option.{option_map};
ghost use Rattle.resin_inputs.specs.Under.lstr.Texts.{bytes_of};
ghost use Rattle.resin_interp.specs.Lent.{lent};
ghost use Rattle.resin_interp.specs.Under.eval_nested.Running.{Performs};
ghost use Rattle.resin_interp.specs.Under.store.Entries.{lift};
ghost use Rattle.resin_request.specs.Requests.{put_inputs, request_program, run_boot, run_found, run_script, send_file};
ghost use Rattle.resin_request.specs.Requests.{serve_and_end, serve_file, serve_found};
ghost use Rattle.resin_request.specs.Sessions.{in_session, session_of};
ghost use Rattle.resin_request.specs.Sources.{run_source};

use crate::paths::{BOOT_PATH, is_open, is_script};
use crate::scripts::Scripts;
use crate::sessions::{begin_session, end_session, session_of};
use resin_inputs::InputArrays;
use resin_inputs::under::lstr::LText;
use resin_interp::inputs::set_inputs;
use resin_interp::lent::with_run;
use resin_interp::pages::{code_of, end_buffers, filter_read, write_page};
use resin_interp::under::base::{Calls, Entry, Files, Tables};
use resin_interp::under::journal::Channel;
use resin_interp::{Machine, Run, Stop, perform, thaw_entry};
use std::alloc::Global;
use std::mem;

/// How the steps of a request come to their end.
#[derive(Clone, Copy, Debug, Eq, PartialEq)]
pub enum Finish {
    /// The file of the request ran to its end, or went out.
    Answered,
    /// There is no such file.
    Missing,
}

// The program of a source text runs to its end, its top-level `return` or an `exit`, whichever comes first.
fn run_source<F: Files, T: Tables>(
    alloc: Global,
    run: &mut Run<F, T>,
    scripts: &mut Scripts,
    src: &LText,
) -> Result<(), Stop>
    ensures { Performs F.Files T.Tables (run_source (bytes_of src.now)) run.old result run.new }
{
    let _len = src.len();
    let p = scripts.read(alloc, src.bytes())?;
    let _flow = perform(alloc, run, p.get())?;
    Ok(())
}

// Runs `boot.php`, where it is there.
fn run_boot<F: Files, T: Tables>(
    alloc: Global,
    run: &mut Run<F, T>,
    scripts: &mut Scripts,
) -> Result<(), Stop>
    ensures { Performs F.Files T.Tables run_boot run.old result run.new }
{
    let found = run.read_file(BOOT_PATH)?;
    match found {
        Some(e) => run_entry(alloc, run, scripts, &e),
        None => Ok(()),
    }
}

// Runs the text of an entry.
fn run_entry<F: Files, T: Tables>(
    alloc: Global,
    run: &mut Run<F, T>,
    scripts: &mut Scripts,
    e: &Entry,
) -> Result<(), Stop>
    ensures { Performs F.Files T.Tables (run_found (Some (lift e.now))) run.old result run.new }
{
    let text = thaw_entry(alloc, &mut run.machine, e)?;
    run_source(alloc, run, scripts, &text)
}

// The inputs pass their filters, and are set.
fn put_inputs<F: Files, T: Tables>(
    alloc: Global,
    run: &mut Run<F, T>,
    inputs: &InputArrays,
) -> Result<(), Stop>
    ensures { Performs F.Files T.Tables (put_inputs inputs.now) run.old result run.new }
{
    set_inputs(
        alloc,
        run,
        &inputs.get,
        &inputs.post,
        &inputs.cookie,
        &inputs.server,
    )
}

// The script of the request passes the filters of source text, counts as imported, and runs.
fn run_script<F: Files, T: Tables>(
    alloc: Global,
    run: &mut Run<F, T>,
    scripts: &mut Scripts,
    path: &[u8],
    e: &Entry,
) -> Result<(), Stop>
    ensures { Performs F.Files T.Tables (run_script path.now (lift e.now)) run.old result run.new }
{
    let src = code_of(alloc, run, path, e)?;
    run_source(alloc, run, scripts, &src)
}

// A file that is no script passes the filters of files, and goes out as one write. It is let go once its text is made.
fn send_file<F: Files, T: Tables>(
    alloc: Global,
    run: &mut Run<F, T>,
    path: &[u8],
    e: Entry,
) -> Result<(), Stop>
    ensures { Performs F.Files T.Tables (send_file path.now (lift e)) run.old result run.new }
{
    let text = thaw_entry(alloc, &mut run.machine, &e)?;
    mem::drop(e);
    let read = filter_read(alloc, run, Channel::File, path, &text)?;
    write_page(alloc, run, &read)
}

// The file of the request runs, or goes out.
fn serve_file<F: Files, T: Tables>(
    alloc: Global,
    run: &mut Run<F, T>,
    scripts: &mut Scripts,
    path: &[u8],
    e: Entry,
) -> Result<(), Stop>
    ensures { Performs F.Files T.Tables (serve_file path.now (lift e)) run.old result run.new }
{
    if is_script(path) {
        run_script(alloc, run, scripts, path, &e)
    } else {
        send_file(alloc, run, path, e)
    }
}

// The file of the request runs, or goes out, and then what open buffers hold.
fn serve_and_end<F: Files, T: Tables>(
    alloc: Global,
    run: &mut Run<F, T>,
    scripts: &mut Scripts,
    path: &[u8],
    e: Entry,
) -> Result<(), Stop>
    ensures { Performs F.Files T.Tables (serve_and_end path.now (lift e)) run.old result run.new }
{
    serve_file(alloc, run, scripts, path, e)?;
    end_buffers(alloc, run)
}

// The same in a session.
fn serve_named<F: Files, T: Tables>(
    alloc: Global,
    run: &mut Run<F, T>,
    scripts: &mut Scripts,
    name: &[u8],
    path: &[u8],
    e: Entry,
) -> Result<(), Stop>
    ensures { Performs F.Files T.Tables (in_session (Some name.now) (serve_and_end path.now (lift e))) run.old result run.new }
{
    let found = begin_session(alloc, run, name)?;
    serve_and_end(alloc, run, scripts, path, e)?;
    end_session(alloc, run, name, &found)
}

// The same in the session that there is, if there is one.
fn serve_in_session<F: Files, T: Tables>(
    alloc: Global,
    run: &mut Run<F, T>,
    scripts: &mut Scripts,
    session: Option<&[u8]>,
    path: &[u8],
    e: Entry,
) -> Result<(), Stop>
    ensures { Performs F.Files T.Tables (in_session (option_map (λ n. n.now) session.entry) (serve_and_end path.now (lift e)))
        run.old result run.new }
{
    match session {
        Some(name) => serve_named(alloc, run, scripts, name, path, e),
        None => serve_and_end(alloc, run, scripts, path, e),
    }
}

// The same in the session of these inputs.
fn serve_for<F: Files, T: Tables>(
    alloc: Global,
    run: &mut Run<F, T>,
    scripts: &mut Scripts,
    path: &[u8],
    inputs: &InputArrays,
    e: Entry,
) -> Result<(), Stop>
    ensures { Performs F.Files T.Tables (in_session (session_of inputs.now) (serve_and_end path.now (lift e))) run.old result run.new }
{
    let session = session_of(alloc, inputs)?;
    serve_in_session(alloc, run, scripts, session, path, e)
}

// The steps behind the first read, where the file is there.
fn serve_entry<F: Files, T: Tables>(
    alloc: Global,
    run: &mut Run<F, T>,
    scripts: &mut Scripts,
    path: &[u8],
    inputs: &InputArrays,
    e: Entry,
) -> Result<Finish, Stop>
    ensures { Performs F.Files T.Tables (serve_found path.now inputs.now (Some (lift e))) run.old result run.new }
{
    run_boot(alloc, run, scripts)?;
    put_inputs(alloc, run, inputs)?;
    serve_for(alloc, run, scripts, path, inputs, e)?;
    Ok(Finish::Answered)
}

// One request over a run.
fn perform_request<F: Files, T: Tables>(
    alloc: Global,
    run: &mut Run<F, T>,
    scripts: &mut Scripts,
    path: &[u8],
    inputs: InputArrays,
) -> Result<Finish, Stop>
    ensures { Performs F.Files T.Tables (request_program path.now inputs) run.old result run.new }
{
    if !is_open(path) {
        return Ok(Finish::Missing);
    }
    let found = run.read_file(path)?;
    match found {
        None => Ok(Finish::Missing),
        Some(e) => serve_entry(alloc, run, scripts, path, &inputs, e),
    }
}

/// One request for a path, from the state in which a request begins. A path that isn't open to requests is missing, and nothing is read. The file is
/// read; where there is none, nothing else happens. `boot.php` is read and, where it is there, runs with empty inputs: its top-level `return`, or an
/// `exit` anywhere, ends it alone. The inputs pass the filters of `input`, and are set. What is kept of the session that the cookie `sid` names,
/// before those filters, becomes `$_SESSION`. A script passes the filters of `code`, and runs; another file passes those of `file`, and goes out as
/// one write on `http`. What open output buffers hold goes out as one more write. What `$_SESSION` holds is kept, by a write where it changed.
///
/// # Errors
///
/// An uncaught exception; a script fault with its line, which is 0 where no statement runs; `Keeper` exactly where the last keeper call
/// failed. After `Memory` the state, the keepers and the calls are as after some of the request's steps.
pub fn run_request<F: Files, T: Tables>(
    alloc: Global,
    path: &[u8],
    inputs: InputArrays,
    scripts: &mut Scripts,
    m: &mut Machine,
    files: &mut F,
    tables: &mut T,
    calls: &mut Calls,
) -> Result<Finish, Stop>
    ensures { Performs F.Files T.Tables (request_program path.now inputs)
        (lent m.old files.old tables.old calls.old) result (lent m.new files.new tables.new calls.new) }
{
    with_run(
        m,
        files,
        tables,
        calls,
        |run|
            ensures { Performs F.Files T.Tables (request_program path.entry.now inputs) run.old result run.new }
        { perform_request(alloc, run, scripts, path, inputs) },
    )
}
