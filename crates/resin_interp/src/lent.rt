//! Runs and calls for whoever has a machine, keepers and calls of their own: they are lent to a run, and are back in their places behind the call.
ghost use Rattle.resin_eval_calls.specs.Under.journal.Channels.{is_leaving};
ghost use Rattle.resin_eval_calls.specs.Under.machine.Steps.{Acts, charge_bytes as charge_of};
ghost use Rattle.resin_eval_calls.specs.Under.meaning_forms.Inputs.{set_inputs as inputs_set};
ghost use Rattle.resin_eval_calls.specs.Under.meaning_forms.Programs.{evals, function_call, most_open, program};
ghost use Rattle.resin_interp.specs.Lent.{lent};
ghost use Rattle.resin_interp.specs.Pages.{end_buffers as buffers_ended, read_named, write_page as page_written};
ghost use Rattle.resin_eval_calls.specs.Under.eval_nested.Running.{Performs};
ghost use Rattle.std.specs.Fn.{FnOnceReturnsAtMut};
ghost use Rattle.std.specs.Prelude.{false, ◌≡◌};

use crate::top::{perform, perform_call};
use crate::{inputs, pages};
use resin_eval_calls::under::base::{Calls, Files, Tables};
use resin_eval_calls::under::eval_nested::run::Run;
use resin_eval_calls::under::journal::Channel;
use resin_eval_calls::under::lstr::LText;
use resin_eval_calls::under::machine::{Machine, Stop};
use resin_eval_calls::under::meaning_forms::Flow;
use resin_eval_calls::under::value::{Arr, Value, Values};
use resin_lend::lend_four;
use resin_tree::Program;
use std::alloc::Global;

// One call of `f` with a run made of these, which is taken apart again.
fn called<F, T, R, C: FnOnce(&mut Run<F, T>) -> R>(
    f: C,
    machine: Machine,
    files: F,
    tables: T,
    calls: Calls,
) -> (Machine, F, T, Calls, R)
    requires { C.IsAlwaysCallable f }
    ensures { FnOnceReturnsAtMut C.FnOnce f (lent machine files tables calls) result.4 (lent result.0 result.1 result.2 result.3) }
{
    let mut run = Run {
        machine,
        files,
        tables,
        calls,
    };
    let result = f(&mut run);
    let Run {
        machine,
        files,
        tables,
        calls,
    } = run;
    (machine, files, tables, calls, result)
}

/// Calls `f` with a run that is made of a machine, keepers and calls; behind the call they are in their places again, as `f` left them in the run.
pub fn with_run<F, T, R, C: FnOnce(&mut Run<F, T>) -> R>(
    m: &mut Machine,
    files: &mut F,
    tables: &mut T,
    calls: &mut Calls,
    f: C,
) -> R
    requires { C.IsAlwaysCallable f }
    ensures { FnOnceReturnsAtMut C.FnOnce f (lent m.old files.old tables.old calls.old) result (lent m.new files.new tables.new calls.new) }
{
    lend_four(m, files, tables, calls, |machine, files, tables, calls| {
        called(f, machine, files, tables, calls)
    })
}

/// Runs a file: its functions and classes are declared in their order, then its statements run. It answers how the program ends: behind its
/// last statement, by `return` or by `exit`; or why it doesn't: an exception that nothing caught, a fault with its line, a keeper call that
/// failed, or want of memory. Then the journal, what the keepers hold and the calls made stand at a moment that the program goes through;
/// with every other end all is as the program leaves it.
pub fn run_program<F: Files, T: Tables>(
    alloc: Global,
    m: &mut Machine,
    p: &Program,
    files: &mut F,
    tables: &mut T,
    calls: &mut Calls,
) -> Result<Flow, Stop>
    ensures { Performs F.Files T.Tables (program p.now)
        (lent m.old files.old tables.old calls.old) result (lent m.new files.new tables.new calls.new) }
{
    with_run(m, files, tables, calls, |run| perform(alloc, run, p))
}

/// Calls a function by its name with these arguments, as a call in a script does whose arguments are evaluated; UndefinedFunction comes
/// where there is none of the name. It stops as `run_program` does.
pub fn call_function<F: Files, T: Tables>(
    alloc: Global,
    m: &mut Machine,
    name: &[u8],
    args: &Values,
    files: &mut F,
    tables: &mut T,
    calls: &mut Calls,
) -> Result<Value, Stop>
    ensures { Performs F.Files T.Tables (function_call name.now args.now)
        (lent m.old files.old tables.old calls.old) result (lent m.new files.new tables.new calls.new) }
{
    with_run(
        m,
        files,
        tables,
        calls,
        |run| perform_call(alloc, run, name, args),
    )
}

/// A text that was read at a path passes the filters of a channel by which nothing leaves, as `file` and `code`. The path of a source text
/// counts as imported then. It stops as `run_program` does.
pub fn read_through<F: Files, T: Tables>(
    alloc: Global,
    m: &mut Machine,
    channel: Channel,
    path: &[u8],
    text: &LText,
    files: &mut F,
    tables: &mut T,
    calls: &mut Calls,
) -> Result<LText, Stop>
    requires { is_leaving channel ≡ false }
    ensures { Performs F.Files T.Tables (read_named channel path.now text.now)
        (lent m.old files.old tables.old calls.old) result (lent m.new files.new tables.new calls.new) }
{
    with_run(
        m,
        files,
        tables,
        calls,
        |run| pages::read_through(alloc, run, channel, path, text),
    )
}

/// A text leaves as one write on `http`, open buffers or not. It stops as `run_program` does.
pub fn write_page<F: Files, T: Tables>(
    alloc: Global,
    m: &mut Machine,
    text: &LText,
    files: &mut F,
    tables: &mut T,
    calls: &mut Calls,
) -> Result<(), Stop>
    ensures { Performs F.Files T.Tables (page_written text.now)
        (lent m.old files.old tables.old calls.old) result (lent m.new files.new tables.new calls.new) }
{
    with_run(
        m,
        files,
        tables,
        calls,
        |run| pages::write_page(alloc, run, text),
    )
}

/// The values of these arrays pass the filters of inputs, then `$_GET`, `$_POST`, `$_COOKIE` and `$_SERVER` are set. It stops as `run_program` does.
pub fn set_inputs<F: Files, T: Tables>(
    alloc: Global,
    m: &mut Machine,
    get: &Arr,
    post: &Arr,
    cookie: &Arr,
    server: &Arr,
    files: &mut F,
    tables: &mut T,
    calls: &mut Calls,
) -> Result<(), Stop>
    ensures { Performs F.Files T.Tables (inputs_set (evals most_open) get.now post.now cookie.now server.now)
        (lent m.old files.old tables.old calls.old) result (lent m.new files.new tables.new calls.new) }
{
    with_run(
        m,
        files,
        tables,
        calls,
        |run| inputs::set_inputs(alloc, run, get, post, cookie, server),
    )
}

/// The open output buffers are closed, and what they hold leaves as one write on `http`, where any is open. `TextTooLong` comes where all
/// their texts together pass 16,777,216 bytes; else it stops as `run_program` does.
pub fn end_buffers<F: Files, T: Tables>(
    alloc: Global,
    m: &mut Machine,
    files: &mut F,
    tables: &mut T,
    calls: &mut Calls,
) -> Result<(), Stop>
    ensures { Performs F.Files T.Tables buffers_ended
        (lent m.old files.old tables.old calls.old) result (lent m.new files.new tables.new calls.new) }
{
    with_run(
        m,
        files,
        tables,
        calls,
        |run| pages::end_buffers(alloc, run),
    )
}

/// Takes one tick for each 256 bytes of so many, rounded down. FuelSpent, at the machine's line, comes exactly where that is more than what
/// is left; then none is taken.
pub fn charge_bytes(m: &mut Machine, bytes: u64) -> Result<(), Stop>
    ensures { Acts (charge_of bytes) m.old result m.new }
{
    m.charge_bytes(bytes)
}
