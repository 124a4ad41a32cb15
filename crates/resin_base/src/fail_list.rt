//! Numbers of calls that fail.
ghost use Rattle.std.specs.Prelude.{◌≡◌, [], ◌∷◌, ◌++◌, ◌-◌, ◌<◌, length, take, OnOk, OnErr};
ghost use Rattle.resin_base.specs.Causes.{is_listed};

use std::alloc::{AllocError, Global};
use std::marker::Model;

/// A list of numbers of calls.
#[derive(Drop)]
pub struct FailList {
    items: Vec<u64>,
}

impl Model for FailList {
    ghost use Rattle.std.specs.Prelude.{ℕ, List};

    ghost Value = { List ℕ };

    ghost view = { λ b. b.items.items };
}

impl FailList {
    /// The empty list, which takes no memory.
    pub fn new(alloc: Global) -> FailList
        ensures { result ≡ [] }
    {
        FailList {
            items: Vec::new(alloc),
        }
    }

    /// The numbers in order.
    pub fn as_slice(&self) -> &[u64]
        ensures { result.now ≡ self.now }
    {
        self.items.as_slice()
    }

    /// Puts a number last. After want of memory the list is as before.
    pub fn push(&mut self, item: u64) -> Result<(), AllocError>
        ensures ok { OnOk result (self.new ≡ self.old ++ item ∷ []) }
        ensures err { OnErr result (self.new ≡ self.old) }
    {
        self.items.push(item)?;
        Ok(())
    }

    /// Takes the last number off. The list must have one.
    pub fn pop(&mut self)
        requires { 0 < length self.old }
        ensures { self.new ≡ take (length self.old - 1) self.old }
    {
        self.items.pop();
    }

    /// Whether a number is listed.
    pub fn lists(&self, number: u64) -> bool
        ensures { result ≡ is_listed self.now number }
    {
        self.items.as_slice().contains(&number)
    }
}
