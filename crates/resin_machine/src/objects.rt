//! Functions, classes and objects.
ghost use Rattle.std.specs.Prelude.{◌≡◌, IfOk, option_copied};
ghost use Rattle.std.specs.Str.{str_to_ascii_lowercase};
ghost use Rattle.resin_machine.specs.Steps.{Acts};
ghost use Rattle.resin_machine.specs.Objects.{declare_function, find_function, declare_class, class_stop, find_class_of};
ghost use Rattle.resin_machine.specs.Objects.{make_object, is_object, class_of, read_field, set_field, take_field, unset_field};

use crate::machine::Machine;
use crate::stop::Stop;
use resin_heap::under::scalar::ScriptFault;
use resin_heap::under::tree::{ClassDecl, Function};
use resin_heap::under::value::Value;
use resin_heap::{ClassFault, MOST_CLASSES, MOST_METHODS, MOST_OBJECTS};
use std::alloc::{AllocError, Global};

// A name in lower case.
pub(crate) fn lowered(alloc: Global, name: &[u8]) -> Result<Vec<u8>, AllocError>
    ensures { IfOk result (λ lower. lower.items ≡ str_to_ascii_lowercase name.now) }
{
    name.iter().map(|b| b.to_ascii_lowercase()).collect(alloc)
}

// What a class that can't be declared means at a line.
fn class_stop(fault: ClassFault, line: u32) -> Stop
    ensures { result ≡ class_stop fault line }
{
    match fault {
        ClassFault::Redeclared => Stop::Fault(ScriptFault::Redeclared, line),
        ClassFault::NoParent => Stop::Fault(ScriptFault::UndefinedClass, line),
        ClassFault::Memory => Stop::Memory,
    }
}

impl Machine {
    /// Declares a function. Redeclared comes exactly where a function of a script has its name, in any case of ASCII letters.
    pub fn declare_function(&mut self, f: &Function) -> Result<(), Stop>
        ensures acts { Acts (declare_function f.now) self.old result self.new }
    {
        let name = lowered(self.alloc, f.name.as_slice())?;
        if self.functions.has(name.as_slice()) {
            return Err(Stop::Fault(ScriptFault::Redeclared, self.line));
        }
        self.functions.put(name.as_slice(), f.clone()?)?;
        Ok(())
    }

    /// The function of a script by its name, in any case of ASCII letters. UndefinedFunction comes exactly where there is none.
    pub fn find_function(&self, name: &[u8]) -> Result<Function, Stop>
        ensures acts { Acts (find_function name.now) self.now result self.now }
    {
        let name = lowered(self.alloc, name)?;
        let f = match self.functions.get(name.as_slice()) {
            Some(f) => f,
            None => return Err(Stop::Fault(ScriptFault::UndefinedFunction, self.line)),
        };
        Ok(f.clone()?)
    }

    /// Declares a class. FuelSpent comes exactly where there are 4,294,967,295 classes, else Redeclared where a class has its name, else
    /// UndefinedClass where its parent isn't there. A declaration with 4,294,967,295 methods or more finds no memory.
    pub fn declare_class(&mut self, d: &ClassDecl) -> Result<(), Stop>
        ensures acts { Acts (declare_class d.now) self.old result self.new }
    {
        if self.classes.len() == MOST_CLASSES {
            return Err(Stop::Fault(ScriptFault::FuelSpent, self.line));
        }
        if d.methods.get().len() >= MOST_METHODS as usize {
            return Err(Stop::Memory);
        }
        let _number = match self.classes.declare(d) {
            Ok(number) => number,
            Err(fault) => return Err(class_stop(fault, self.line)),
        };
        Ok(())
    }

    /// The number of a class by its name, in any case of ASCII letters. UndefinedClass comes exactly where there is none.
    pub fn find_class(&self, name: &[u8]) -> Result<u32, Stop>
        ensures acts { Acts (find_class_of name.now) self.now result self.now }
    {
        match self.classes.find(name) {
            Some(class) => Ok(class),
            None => Err(Stop::Fault(ScriptFault::UndefinedClass, self.line)),
        }
    }

    /// Makes an object of a class, without fields. FuelSpent comes exactly where 4,294,967,295 objects were made.
    pub fn make_object(&mut self, class: u32) -> Result<u32, Stop>
        ensures acts { Acts (make_object class) self.old result self.new }
    {
        if self.heap.len() == MOST_OBJECTS {
            return Err(Stop::Fault(ScriptFault::FuelSpent, self.line));
        }
        Ok(self.heap.make(class)?)
    }

    // Whether there is an object of this number.
    fn has_object(&self, o: u32) -> bool
        ensures { result ≡ is_object self.now.heap o }
    {
        o > 0 && o <= self.heap.len()
    }

    /// The class of an object.
    pub fn class_of(&self, o: u32) -> Result<u32, Stop>
        ensures acts { Acts (class_of o) self.now result self.now }
    {
        if !self.has_object(o) {
            return Err(Stop::Fault(ScriptFault::BadOperand, self.line));
        }
        Ok(self.heap.class_of(o))
    }

    /// A copy of the value of a property, null where the object has none of that name.
    pub fn read_field(&self, o: u32, name: &[u8]) -> Result<Value, Stop>
        ensures acts { Acts (read_field o name.now) self.now result self.now }
    {
        if !self.has_object(o) {
            return Err(Stop::Fault(ScriptFault::BadOperand, self.line));
        }
        match self.heap.get(o, name) {
            Some(value) => Ok(value.clone()?),
            None => Ok(Value::Null),
        }
    }

    /// Gives a property of an object a value: in its place where the object has it, else last.
    pub fn set_field(&mut self, o: u32, name: &[u8], v: Value) -> Result<(), Stop>
        ensures acts { Acts (set_field o name.now v) self.old result self.new }
    {
        if !self.has_object(o) {
            return Err(Stop::Fault(ScriptFault::BadOperand, self.line));
        }
        self.heap.set(o, name, v)?;
        Ok(())
    }

    /// Takes the value of a property out, of which nothing is copied, so that it can be changed and put back; null stands there meanwhile. It is null
    /// where the object has no such property, and then nothing is changed. It takes no memory.
    pub fn take_field(&mut self, o: u32, name: &[u8]) -> Result<Value, Stop>
        ensures acts { Acts (take_field o name.now) self.old result self.new }
    {
        if !self.has_object(o) {
            return Err(Stop::Fault(ScriptFault::BadOperand, self.line));
        }
        if self.heap.get(o, name).is_none() {
            return Ok(Value::Null);
        }
        Ok(self.heap.exchange(o, name, Value::Null))
    }

    /// Takes a property out of an object. It takes no memory.
    pub fn unset_field(&mut self, o: u32, name: &[u8]) -> Result<(), Stop>
        ensures acts { Acts (unset_field o name.now) self.old result self.new }
    {
        if !self.has_object(o) {
            return Err(Stop::Fault(ScriptFault::BadOperand, self.line));
        }
        let _was = self.heap.unset(o, name);
        Ok(())
    }
}
