//! A class, with where it stands among the others.

use resin_tree::ClassDecl;
use std::alloc::AllocError;

/// The most methods that a class may declare.
pub const MOST_METHODS: u32 = u32::MAX;

// A class above another, and how many parents up it is.
#[derive(Clone, Copy)]
pub(crate) struct Jump {
    pub(crate) to: u32,
    pub(crate) steps: u32,
}

// Where a class stands among the others, and what it has from those above it.
#[derive(Clone, Copy)]
pub(crate) struct Standing {
    pub(crate) parent: Option<u32>,
    // Where a class that is sought above is looked for first, so that far ones are found in few steps.
    pub(crate) jump: Option<Jump>,
    // The nearest class that declares properties: itself or one above.
    pub(crate) giver: Option<u32>,
    // The tree of the methods of its objects.
    pub(crate) methods: Option<u32>,
}

// A class as it was declared, and where it stands.
#[derive(Drop)]
pub(crate) struct Class {
    pub(crate) declaration: ClassDecl,
    pub(crate) standing: Standing,
}

impl Clone for Class {
    ghost use Rattle.std.specs.Prelude.{◌≡◌};

    ghost is_clone = { λ c copy. copy ≡ c };

    fn clone(&self) -> Result<Class, AllocError> {
        Ok(Class {
            declaration: self.declaration.clone()?,
            standing: self.standing,
        })
    }
}
