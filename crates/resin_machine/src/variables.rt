//! Variables and calls.
ghost use Rattle.std.specs.Prelude.{◌≡◌, ◌<◌, length, unwrap_or, Ok, Err, IfOk, OnErr};
ghost use Rattle.std.specs.Option.{option_copied};
ghost use Rattle.resin_heap.specs.Under.value.declared.value.Value.{Value as AnyValue};
ghost use Rattle.resin_stage.specs.Under.scope.Frames.{left};
ghost use Rattle.resin_machine.specs.Keeping.{IsInside};
ghost use Rattle.resin_machine.specs.Steps.{Acts};
ghost use Rattle.resin_machine.specs.Variables.{is_input, variable, read, assign, taken_from, without_variable, bind_global, in_call};
ghost use Rattle.resin_machine.specs.Variables.{is_session, set_session};

use crate::machine::Machine;
use crate::stop::Stop;
use resin_heap::under::value::{Arr, Value};
use std::mem;

// Whether a name is that of an input.
fn is_input(name: &[u8]) -> bool
    ensures { result ≡ is_input name.now }
{
    name == b"_GET".as_slice()
        || name == b"_POST".as_slice()
        || name == b"_COOKIE".as_slice()
        || name == b"_SERVER".as_slice()
}

// Whether a name is that of `$_SESSION`.
fn is_session(name: &[u8]) -> bool
    ensures { result ≡ is_session name.now }
{
    name == b"_SESSION".as_slice()
}

impl Machine {
    /// The value of a variable, `None` exactly where there is none of that name.
    pub fn variable(&self, name: &[u8]) -> Option<&Value>
        ensures { option_copied result ≡ variable name.now self.now }
    {
        if is_input(name) {
            self.inputs.get(name)
        } else if is_session(name) {
            Some(&self.session)
        } else {
            self.scopes.get(name)
        }
    }

    /// A copy of the value of a variable, null where there is none of that name.
    pub fn read(&self, name: &[u8]) -> Result<Value, Stop>
        ensures acts { Acts (read name.now) self.now result self.now }
    {
        match self.variable(name) {
            Some(value) => Ok(value.clone()?),
            None => Ok(Value::Null),
        }
    }

    /// Gives a variable a value.
    pub fn assign(&mut self, name: &[u8], v: Value) -> Result<(), Stop>
        ensures acts { Acts (assign name.now v) self.old result self.new }
    {
        if is_input(name) {
            self.inputs.put(name, v)?;
            return Ok(());
        }
        if is_session(name) {
            self.session = v;
            return Ok(());
        }
        self.scopes.set(name, v)?;
        Ok(())
    }

    /// Takes the value of a variable out, of which nothing is copied, so that it can be changed and put back; null stands there meanwhile. It is null
    /// where there is no such variable, and then nothing is changed. It takes no memory.
    pub fn take(&mut self, name: &[u8]) -> Value
        ensures value { result ≡ unwrap_or (variable name.now self.old) AnyValue.Null }
        ensures after { self.new ≡ taken_from name.now self.old }
        ensures inside { IsInside self.old self.new }
    {
        if self.variable(name).is_none() {
            return Value::Null;
        }
        if is_input(name) {
            return self.inputs.exchange(name, Value::Null);
        }
        if is_session(name) {
            return mem::replace(&mut self.session, Value::Null);
        }
        self.scopes.exchange(name, Value::Null)
    }

    /// Takes a variable out. Of a name that `global` bound in the innermost call the binding ends alone; `$_SESSION` is null then. It takes no
    /// memory.
    pub fn unset(&mut self, name: &[u8])
        ensures after { self.new ≡ without_variable name.now self.old }
        ensures inside { IsInside self.old self.new }
    {
        if is_input(name) {
            self.inputs.remove(name);
            return;
        }
        if is_session(name) {
            self.session = Value::Null;
            return;
        }
        self.scopes.unset(name);
    }

    /// Binds a name of the innermost call to the variable of the top level, as `global` does. At the top level, for an input and for `$_SESSION`
    /// nothing happens.
    pub fn bind_global(&mut self, name: &[u8]) -> Result<(), Stop>
        ensures acts { Acts (bind_global name.now) self.old result self.new }
    {
        if is_input(name) {
            return Ok(());
        }
        if is_session(name) {
            return Ok(());
        }
        self.scopes.bind(name)?;
        Ok(())
    }

    /// `$_SESSION`, null where a script unset it.
    pub fn session(&self) -> &Value
        ensures { result.now ≡ self.now.session }
    {
        &self.session
    }

    /// Makes `$_SESSION` this array. It takes no memory.
    pub fn set_session(&mut self, a: Arr)
        ensures acts { Acts (set_session a) self.old (Ok tt) self.new }
    {
        self.session = Value::Arr(a);
    }

    /// How many calls are open.
    pub fn open_calls(&self) -> usize
        ensures { result ≡ length self.now.frames.calls }
    {
        self.scopes.open_calls()
    }

    /// Opens a call, without variables, of a method that this class declares, or of a function. Answers what ran before, for `leave`.
    pub fn enter(&mut self, class: Option<u32>) -> Result<Option<u32>, Stop>
        ensures ok { IfOk result (λ was. (was ≡ self.old.running) × (self.new ≡ in_call class self.old)) }
        ensures err { OnErr result ((result ≡ Err Stop.Memory) × (self.new ≡ self.old)) }
    {
        self.scopes.enter()?;
        let was = self.running;
        self.running = class;
        Ok(was)
    }

    /// Ends the innermost call. One must be open.
    pub fn leave(&mut self, was: Option<u32>)
        requires { 0 < length self.old.frames.calls }
        ensures { self.new ≡ record self.old { frames = left self.old.frames; running = was } }
    {
        self.scopes.leave();
        self.running = was;
    }
}
