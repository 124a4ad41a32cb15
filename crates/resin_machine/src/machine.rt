//! The machine: what the scripts of a request change.
ghost use Rattle.std.specs.Prelude.{◌≡◌, ◌∷◌, [], codes, IfOk, OnOk, OnErr};
ghost use Rattle.std.specs.FinMap.{insert};
ghost use Rattle.resin_heap.specs.Under.value.declared.value.Value.{Value as AnyValue};
ghost use Rattle.resin_heap.specs.Under.value.Changes.{empty as empty_array};
ghost use Rattle.resin_stage.specs.Writes.{IsLawful};
ghost use Rattle.resin_machine.specs.State.{new_state, empty_arrays, input_names};
ghost use Rattle.resin_machine.specs.Keeping.{Tied};

use crate::stop::Stop;
use resin_heap::under::scalar::{ScriptFault, Ticks};
use resin_heap::under::tree::Function;
use resin_heap::under::value::{Arr, Value};
use resin_heap::{Classes, Heap, RuntimeClasses};
use resin_stage::Stage;
use resin_stage::under::scope::{Chains, NameMap, Scopes};
use std::alloc::{AllocError, Global};
use std::marker::Model;

/// What the scripts of a request change: variables, functions, classes, objects, filters, and what leaves. Contracts see a `State`.
///
/// A method that takes a step has the contract `Acts`: its answer and the new state are those of the step, its ticks never rise, and what every step
/// keeps is kept. After want of memory the state is as before; a method with `ActsLoosely` may leave it changed then, all but the journal.
#[derive(Drop)]
pub struct Machine {
    pub(crate) alloc: Global,
    pub(crate) scopes: Scopes,
    pub(crate) running: Option<u32>,
    pub(crate) functions: NameMap<Function>,
    pub(crate) classes: Classes,
    pub(crate) heap: Heap,
    pub(crate) chains: Chains,
    pub(crate) stage: Stage,
    pub(crate) imported: NameMap<()>,
    pub(crate) inputs: NameMap<Value>,
    pub(crate) session: Value,
    pub(crate) ticks: Ticks,
    pub(crate) checking: bool,
    pub(crate) line: u32,
    pub(crate) request: u64,
}

impl Model for Machine {
    ghost use Rattle.std.specs.Coded.{codes};
    ghost use Rattle.resin_heap.specs.Under.tree.contracts.declaration.Constant as constant;
    ghost use Rattle.resin_heap.specs.Under.tree.contracts.statement.Stmt as statement;
    ghost use Rattle.resin_heap.specs.Under.value.Values.{value_code};
    ghost use Rattle.resin_stage.specs.Under.scope.Names.{named_code, name_set_code};
    ghost use Rattle.resin_stage.specs.Under.scope.Frames.{frames_code, variables_code};
    ghost use Rattle.resin_stage.specs.Under.scope.Chained.{chains_code};
    ghost use Rattle.resin_stage.specs.Stages.{stage_code};
    ghost use Rattle.resin_machine.specs.State.{State};

    ghost Value = { State };

    ghost coded = { Prim.hlevel (
      codes,
      constant.the_row.coded,
      statement.the_row.coded,
      value_code,
      stage_code,
      frames_code,
      variables_code,
      chains_code,
      named_code,
      name_set_code,
    ) };

    ghost view = { λ m. record {
      frames = m.scopes;
      running = m.running;
      functions = m.functions;
      classes = m.classes;
      heap = m.heap;
      chains = m.chains;
      stage = m.stage;
      imported = m.imported;
      inputs = m.inputs;
      session = m.session;
      ticks = m.ticks.left;
      checking = m.checking;
      line = m.line;
      request = m.request;
    } };
}

// Lets the name of an input stand for the empty array.
fn put_empty(alloc: Global, inputs: &mut NameMap<Value>, name: &[u8]) -> Result<(), AllocError>
    ensures { OnOk result (inputs.new ≡ insert inputs.old name.now (AnyValue.Arr empty_array)) }
{
    inputs.put(name, Value::Arr(Arr::new(alloc)?))
}

// The inputs of a request that has none.
fn empty_inputs(alloc: Global) -> Result<NameMap<Value>, AllocError>
    ensures { IfOk result (λ inputs. inputs ≡ empty_arrays input_names) }
{
    let mut inputs = NameMap::new(alloc);
    put_empty(alloc, &mut inputs, b"_SERVER")?;
    put_empty(alloc, &mut inputs, b"_COOKIE")?;
    put_empty(alloc, &mut inputs, b"_POST")?;
    put_empty(alloc, &mut inputs, b"_GET")?;
    Ok(inputs)
}

impl Machine {
    /// The state in which a request of this number begins, with so many ticks: the classes of the runtime, and `boot.php` counts as imported.
    pub fn new(alloc: Global, fuel: u32, request: u64) -> Result<Machine, AllocError>
        ensures value { IfOk result (λ m. m ≡ new_state fuel request) }
        ensures tied { IfOk result (λ m. Tied m) }
    {
        let runtime = RuntimeClasses::new(alloc)?;
        Machine::begin(alloc, &runtime, fuel, request)
    }

    /// The same with classes of the runtime that were made before, for a caller that serves many requests.
    pub fn begin(
        alloc: Global,
        runtime: &RuntimeClasses,
        fuel: u32,
        request: u64,
    ) -> Result<Machine, AllocError>
        ensures value { IfOk result (λ m. m ≡ new_state fuel request) }
        ensures tied { IfOk result (λ m. Tied m) }
    {
        let scopes = Scopes::new(alloc)?;
        let classes = runtime.classes()?;
        let mut imported = NameMap::new(alloc);
        imported.put(b"boot.php", ())?;
        let inputs = empty_inputs(alloc)?;
        let session = Value::Arr(Arr::new(alloc)?);
        Ok(Machine {
            alloc,
            scopes,
            running: None,
            functions: NameMap::new(alloc),
            classes,
            heap: Heap::new(alloc),
            chains: Chains::new(alloc),
            stage: Stage::new(alloc),
            imported,
            inputs,
            session,
            ticks: Ticks {
                left: u64::from(fuel),
            },
            checking: false,
            line: 0,
            request,
        })
    }

    /// The classes.
    pub fn classes(&self) -> &Classes
        ensures { result.now ≡ self.now.classes }
    {
        &self.classes
    }

    /// The objects.
    pub fn heap(&self) -> &Heap
        ensures { result.now ≡ self.now.heap }
    {
        &self.heap
    }

    /// The filters of channels and functions.
    pub fn chains(&self) -> &Chains
        ensures { result.now ≡ self.now.chains }
    {
        &self.chains
    }

    /// What left so far.
    pub fn stage(&self) -> &Stage
        ensures value { result.now ≡ self.now.stage }
    {
        &self.stage
    }

    /// The number of the class that declares the method which the innermost call runs, if it runs one.
    pub fn running(&self) -> Option<u32>
        ensures { result ≡ self.now.running }
    {
        self.running
    }

    /// How many ticks are left.
    pub fn ticks(&self) -> u64
        ensures { result ≡ self.now.ticks }
    {
        self.ticks.left
    }

    /// The line of the innermost statement under evaluation, 0 where none runs.
    pub fn line(&self) -> u32
        ensures { result ≡ self.now.line }
    {
        self.line
    }

    /// A script fault at the running line.
    pub fn fault(&self, fault: ScriptFault) -> Stop
        ensures { result ≡ Stop.Fault fault self.now.line }
    {
        Stop::Fault(fault, self.line)
    }

    /// Says that the journal obeys the access law, and that no event has a larger write number than the last one drawn.
    pub fn journal_is_lawful(&self)
        ensures { IsLawful self.now.stage.journal self.now.stage.writes }
    {
        let _journal = self.stage.journal();
    }
}
