//! The classes of the runtime, made once for many requests.
ghost use Rattle.std.specs.Prelude.{◌≡◌, IfOk};
ghost use Rattle.resin_heap.specs.Prelude.{prelude};

use crate::classes::Classes;
use std::alloc::{AllocError, Global};
use std::marker::Model;

/// The classes that every script finds declared, made once: each request begins with one more owner of them. A clause sees nothing of the value,
/// since all such values hold the same classes.
#[derive(Drop)]
pub struct RuntimeClasses {
    classes: Classes,
}

impl Model for RuntimeClasses {
    ghost use Rattle.std.specs.Prelude.{◌≡◌, ⊤};
    ghost use Rattle.resin_heap.specs.Prelude.{prelude};

    ghost Value = { ⊤ };

    ghost view = { λ _. tt };

    ghost invariant = { λ r. r.classes ≡ prelude };
}

impl RuntimeClasses {
    /// Makes the classes of the runtime.
    pub fn new(alloc: Global) -> Result<RuntimeClasses, AllocError> {
        Ok(RuntimeClasses {
            classes: Classes::new(alloc)?,
        })
    }

    /// The classes with which a request begins. It takes no memory, and fails only where the count of owners is full.
    pub fn classes(&self) -> Result<Classes, AllocError>
        ensures { IfOk result (λ classes. classes ≡ prelude) }
    {
        self.classes.clone()
    }
}
