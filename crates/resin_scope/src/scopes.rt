//! The variables of calls and of the top level.
ghost use Rattle.std.specs.Prelude.{◌≡◌, ◌+◌, ◌<◌, length, Some, OnOk, OnErr, IfOk, IsSome, IsTrue, MatchOption, false};
ghost use Rattle.std.specs.Option.{option_copied};
ghost use Rattle.std.specs.FinMap.{get, contains_key, insert, remove};
ghost use Rattle.resin_scope.specs.Frames.{Frame, Frames, empty_frame, no_frames, entered, left, value_of};
ghost use Rattle.resin_scope.specs.Frames.{assigned, unset_frame, without_name, bound_frame, with_bound, is_own};

use crate::names::NameMap;
use resin_value::Value;
use std::alloc::{AllocError, Global};
use std::marker::Model;

// The variables of a call, and the names that it bound to variables of the top level.
#[derive(Drop)]
struct Frame {
    variables: NameMap<Value>,
    bound: NameMap<()>,
}

impl Model for Frame {
    ghost use Rattle.resin_scope.specs.Frames.{Frame, frame_code};

    ghost Value = { Frame };

    ghost coded = { frame_code };

    ghost view = { λ f. record { variables = f.variables; bound = f.bound } };
}

impl Frame {
    // A call without variables.
    fn new(alloc: Global) -> Frame
        ensures { result ≡ empty_frame }
    {
        Frame {
            variables: NameMap::new(alloc),
            bound: NameMap::new(alloc),
        }
    }

    // Whether the call binds a name.
    fn binds(&self, name: &[u8]) -> bool
        ensures { result ≡ contains_key self.now.bound name.now }
    {
        self.bound.has(name)
    }

    // The value of its own variable.
    fn get(&self, name: &[u8]) -> Option<&Value>
        ensures { option_copied result ≡ get self.now.variables name.now }
    {
        self.variables.get(name)
    }

    // Sets its own variable.
    fn set(&mut self, name: &[u8], v: Value) -> Result<(), AllocError>
        ensures ok { OnOk result (self.new ≡ record self.old { variables = insert self.old.variables name.now v }) }
        ensures err { OnErr result (self.new ≡ self.old) }
    {
        self.variables.put(name, v)
    }

    // Sets its own variable, which is there, and answers the old value.
    fn exchange(&mut self, name: &[u8], v: Value) -> Value
        requires { IsSome (get self.old.variables name.now) }
        ensures was { get self.old.variables name.now ≡ Some result }
        ensures after { self.new ≡ record self.old { variables = insert self.old.variables name.now v } }
    {
        self.variables.exchange(name, v)
    }

    // Ends the binding of a name that the call binds, else takes its own variable out.
    fn unset(&mut self, name: &[u8])
        ensures { self.new ≡ unset_frame name.now self.old }
    {
        if self.bound.has(name) {
            self.bound.remove(name);
        } else {
            self.variables.remove(name);
        }
    }

    // Binds a name.
    fn bind(&mut self, name: &[u8]) -> Result<(), AllocError>
        ensures ok { OnOk result (self.new ≡ bound_frame name.now self.old) }
        ensures err { OnErr result (self.new ≡ self.old) }
    {
        self.bound.put(name, ())?;
        self.variables.remove(name);
        Ok(())
    }
}

/// The variables of a request: those of the top level, and those of each open call with the names that `global` bound there. The calls act on the
/// innermost call, and on the top level's variable where the innermost call binds the name or no call is open.
#[derive(Drop)]
pub struct Scopes {
    alloc: Global,
    top: NameMap<Value>,
    // The innermost call is the last.
    calls: Vec<Frame>,
}

impl Model for Scopes {
    ghost use Rattle.std.specs.Prelude.{reverse};
    ghost use Rattle.resin_scope.specs.Frames.{Frames, frames_code};

    ghost Value = { Frames };

    ghost coded = { frames_code };

    ghost view = { λ s. record { top = s.top; calls = reverse s.calls.items } };
}

impl Scopes {
    /// No variables, and no open call.
    pub fn new(alloc: Global) -> Result<Scopes, AllocError>
        ensures { IfOk result (λ s. s ≡ no_frames) }
    {
        Ok(Scopes {
            alloc,
            top: NameMap::new(alloc),
            calls: Vec::new(alloc),
        })
    }

    /// How many calls are open.
    pub fn open_calls(&self) -> usize
        ensures { result ≡ length self.now.calls }
    {
        self.calls.len()
    }

    /// Opens a call, which has no variables. After want of memory nothing is changed.
    pub fn enter(&mut self) -> Result<(), AllocError>
        ensures ok { OnOk result (self.new ≡ entered self.old) }
        ensures err { OnErr result (self.new ≡ self.old) }
    {
        self.calls.push(Frame::new(self.alloc))?;
        Ok(())
    }

    /// Ends the innermost call, and drops its variables and bindings. One must be open.
    pub fn leave(&mut self)
        requires { 0 < length self.old.calls }
        ensures { self.new ≡ left self.old }
    {
        let _frame = self.calls.pop();
    }

    /// The value of a variable, `None` exactly where there is none of that name.
    pub fn get(&self, name: &[u8]) -> Option<&Value>
        ensures { option_copied result ≡ value_of name.now self.now }
    {
        match self.own_place(name) {
            Some(i) => self.calls[i].get(name),
            None => self.top.get(name),
        }
    }

    /// Sets a variable. After want of memory nothing is changed.
    pub fn set(&mut self, name: &[u8], v: Value) -> Result<(), AllocError>
        ensures ok { OnOk result (self.new ≡ assigned name.now v self.old) }
        ensures err { OnErr result (self.new ≡ self.old) }
    {
        match self.own_place(name) {
            Some(i) => self.calls[i].set(name, v),
            None => self.top.put(name, v),
        }
    }

    /// Sets a variable that is there, and answers its old value, of which nothing is copied. It takes no memory.
    pub fn exchange(&mut self, name: &[u8], v: Value) -> Value
        requires { IsSome (value_of name.now self.old) }
        ensures was { value_of name.now self.old ≡ Some result }
        ensures after { self.new ≡ assigned name.now v self.old }
    {
        match self.own_place(name) {
            Some(i) => self.calls[i].exchange(name, v),
            None => self.top.exchange(name, v),
        }
    }

    /// Takes a variable out. Where the innermost call binds the name, the binding ends alone, and the variable of the top level stays.
    pub fn unset(&mut self, name: &[u8])
        ensures { self.new ≡ without_name name.now self.old }
    {
        if self.calls.is_empty() {
            self.top.remove(name);
        } else {
            let innermost = self.calls.len() - 1;
            self.calls[innermost].unset(name);
        }
    }

    /// Binds a name of the innermost call to the variable of the top level, as `global` does; the call's own variable of that name is gone. Where no
    /// call is open nothing happens. After want of memory nothing is changed.
    pub fn bind(&mut self, name: &[u8]) -> Result<(), AllocError>
        ensures ok { OnOk result (self.new ≡ with_bound name.now self.old) }
        ensures err { OnErr result (self.new ≡ self.old) }
    {
        if self.calls.is_empty() {
            return Ok(());
        }
        let innermost = self.calls.len() - 1;
        self.calls[innermost].bind(name)
    }

    // The place of the innermost call, where a name means a variable of its own.
    fn own_place(&self, name: &[u8]) -> Option<usize>
        ensures { MatchOption result (is_own name.now self.now.calls ≡ false)
            (λ i. (i + 1 ≡ length self.now.calls) × IsTrue (is_own name.now self.now.calls)) }
    {
        match self.calls.as_slice() {
            [.., innermost] if !innermost.binds(name) => Some(self.calls.len() - 1),
            _ => None,
        }
    }
}
