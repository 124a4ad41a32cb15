//! The postfixes of a target, their index expressions evaluated.
ghost use Rattle.std.specs.Prelude.{◌≡◌, ◌↔◌, IfOk, IsTrue};
ghost use Rattle.resin_target.specs.Paths.{no_postfix, with_index, with_property};

use resin_machine::under::items::{Items, SharedBytes};
use resin_ops::under::value::Value;
use std::alloc::{AllocError, Global};

/// An index of a target.
#[derive(Drop)]
pub enum Index {
    /// `[e]`, by the value of e, which is turned into a key where a step comes to it.
    At(Value),
    /// `[]`, the next free index.
    Next,
}

/// Indices that lead to an object, and a property of it.
#[derive(Drop)]
pub struct Hop {
    pub indices: Items<Index>,
    pub property: SharedBytes,
}

/// The postfixes of a target from the left: properties on the way, each behind indices, and the indices behind the last of them.
#[derive(Drop)]
pub struct Path {
    pub hops: Items<Hop>,
    pub indices: Items<Index>,
}

impl Path {
    /// The path of a variable alone, which takes no memory.
    pub fn new(alloc: Global) -> Path
        ensures { result ≡ no_postfix }
    {
        Path {
            hops: Items::new(alloc),
            indices: Items::new(alloc),
        }
    }

    /// Whether it is the path of a variable alone.
    pub fn is_alone(&self) -> bool
        ensures { IsTrue result ↔ (self.now ≡ no_postfix) }
    {
        self.hops.is_empty() && self.indices.is_empty()
    }

    /// The path with one more index.
    pub fn with_index(self, index: Index) -> Result<Path, AllocError>
        ensures { IfOk result (λ path. path ≡ with_index index self) }
    {
        let Path { hops, mut indices } = self;
        indices.push(index)?;
        Ok(Path { hops, indices })
    }

    /// The path with one more property: the indices behind the last one lead to its object.
    pub fn with_property(self, alloc: Global, property: SharedBytes) -> Result<Path, AllocError>
        ensures { IfOk result (λ path. path ≡ with_property property self) }
    {
        let Path { mut hops, indices } = self;
        hops.push(Hop { indices, property })?;
        Ok(Path {
            hops,
            indices: Items::new(alloc),
        })
    }
}
