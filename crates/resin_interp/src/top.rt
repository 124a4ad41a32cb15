//! The program of a file, and calls by name from outside, over a run.
ghost use Rattle.resin_eval_calls.specs.Under.meaning_forms.Programs.{flow_of, function_call, program, program_end};
ghost use Rattle.resin_eval_calls.specs.Under.eval_nested.Running.{Performs};
ghost use Rattle.std.specs.Prelude.{IfOk, ◌≡◌};

use crate::run::{evaluation, run_file};
use resin_eval_calls::calls::Caller;
use resin_eval_calls::under::base::{Files, Tables};
use resin_eval_calls::under::eval_nested::nested::Evaluator;
use resin_eval_calls::under::eval_nested::run::Run;
use resin_eval_calls::under::machine::Stop;
use resin_eval_calls::under::meaning_forms::{Course, Flow};
use resin_eval_calls::under::step_parts::names::find_callee;
use resin_eval_calls::under::value::{Value, Values};
use resin_tree::Program;
use std::alloc::{AllocError, Global};
use std::marker::PhantomData;

/// How many evaluations may be open at once.
pub const MOST_OPEN: u32 = 1000;

// How a program ends that ran to its end, or returned.
fn flow_of(course: Course) -> Flow
    ensures { result ≡ flow_of course }
{
    match course {
        Course::Return(v) => Flow::Returned(v),
        Course::Next | Course::Break | Course::Continue => Flow::Done,
    }
}

// The same where it ran `exit`, threw, or was stopped.
fn program_end(end: Result<Course, Stop>) -> Result<Flow, Stop>
    ensures { result ≡ program_end end }
{
    match end {
        Ok(course) => Ok(flow_of(course)),
        Err(Stop::Exit) => Ok(Flow::Exit),
        Err(Stop::Thrown(o)) => Err(Stop::Thrown(o)),
        Err(Stop::Fault(fault, line)) => Err(Stop::Fault(fault, line)),
        Err(Stop::Keeper) => Err(Stop::Keeper),
        Err(Stop::Memory) => Err(Stop::Memory),
    }
}

/// Runs a file: its functions and classes are declared in their order, then its statements run. It answers how the program ends: behind its
/// last statement, by `return` or by `exit`; or why it doesn't: an exception that nothing caught, a fault with its line, a keeper call that
/// failed, or want of memory. Then the journal, what the keepers hold and the calls made stand at a moment that the program goes through;
/// with every other end all is as the program leaves it.
pub fn perform<F: Files, T: Tables>(
    alloc: Global,
    run: &mut Run<F, T>,
    p: &Program,
) -> Result<Flow, Stop>
    ensures { Performs F.Files T.Tables (program p.now) run.old result run.new }
{
    let end = run_file(alloc, MOST_OPEN, run, p);
    program_end(end)
}

// The same values, as arguments.
fn copied(alloc: Global, args: &[Value]) -> Result<Values, AllocError>
    ensures { IfOk result (λ own. own ≡ args.now) }
{
    let mut own = Values::new(alloc);
    for v in args {
        own.push(v.clone()?)?;
    }
    Ok(own)
}

/// Calls a function by its name with these arguments, as a call in a script does whose arguments are evaluated; UndefinedFunction comes
/// where there is none of the name. It stops as `perform` does.
pub fn perform_call<F: Files, T: Tables>(
    alloc: Global,
    run: &mut Run<F, T>,
    name: &[u8],
    args: &Values,
) -> Result<Value, Stop>
    ensures { Performs F.Files T.Tables (function_call name.now args.now) run.old result run.new }
{
    let callee = find_callee(&run.machine, name)?;
    let own = copied(alloc, args.as_slice())?;
    let evaluator = Evaluator {
        alloc,
        room: MOST_OPEN,
        nested: evaluation::<F, T>,
        of: PhantomData,
    };
    Caller { by: &evaluator }.call_found(run, name, &callee, own)
}
