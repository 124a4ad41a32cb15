//! Lists of policy texts.
ghost use Rattle.std.specs.Prelude.{◌≡◌, [], ◌∷◌, ◌++◌, OnOk, OnErr, IfOk};

use resin_frozen::Frozen;
use std::alloc::{AllocError, Global};
use std::marker::Model;
use std::rc::Rc;

// What clones of a list share.
#[derive(Drop)]
pub(crate) struct Texts {
    items: Vec<Frozen>,
}

impl Model for Texts {
    ghost use Rattle.std.specs.Prelude.{ℕ, List};

    ghost Value = { List (List ℕ) };

    ghost view = { λ t. t.items.items };
}

impl Texts {
    fn push(&mut self, item: Frozen) -> Result<(), AllocError>
        ensures ok { OnOk result (self.new ≡ self.old ++ item ∷ []) }
        ensures err { OnErr result (self.new ≡ self.old) }
    {
        self.items.push(item)?;
        Ok(())
    }

    // A list of one text.
    fn of(alloc: Global, item: Frozen) -> Result<Texts, AllocError>
        ensures { IfOk result (λ texts. texts ≡ item ∷ []) }
    {
        let mut items = Vec::new(alloc);
        items.push(item)?;
        Ok(Texts { items })
    }
}

impl Clone for Texts {
    ghost is_clone = { λ t copy. copy ≡ t };

    fn clone(&self) -> Result<Texts, AllocError> {
        Ok(Texts {
            items: self.items.clone()?,
        })
    }
}

/// A list of policy texts. Clones share the texts until one of them is written.
#[derive(Drop)]
pub struct FrozenList {
    shared: Option<Rc<Texts>>,
    alloc: Global,
}

impl Model for FrozenList {
    ghost use Rattle.std.specs.Prelude.{ℕ, List};

    ghost Value = { List (List ℕ) };

    ghost use Rattle.std.specs.Prelude.{[]};
    ghost use Rattle.std.specs.Option.{option_map_or};

    ghost view = { λ l. option_map_or (λ r. r.value) l.shared [] };
}

impl FrozenList {
    /// The empty list, which takes no memory.
    pub fn new(alloc: Global) -> FrozenList
        ensures { result ≡ [] }
    {
        FrozenList {
            shared: None,
            alloc,
        }
    }

    /// The texts in order.
    pub fn as_slice(&self) -> &[Frozen]
        ensures { result.now ≡ self.now }
    {
        match &self.shared {
            Some(texts) => texts.items.as_slice(),
            None => &[],
        }
    }

    /// Puts a text last. After want of memory the list is as before.
    pub fn push(&mut self, item: Frozen) -> Result<(), AllocError>
        ensures ok { OnOk result (self.new ≡ self.old ++ item ∷ []) }
        ensures err { OnErr result (self.new ≡ self.old) }
    {
        match &mut self.shared {
            Some(shared) => {
                let texts = Rc::make_mut(shared)?;
                texts.push(item)
            }
            None => {
                let texts = Texts::of(self.alloc, item)?;
                self.shared = Some(Rc::new(self.alloc, texts)?);
                Ok(())
            }
        }
    }
}

impl Clone for FrozenList {
    ghost is_clone = { λ l copy. copy ≡ l };

    fn clone(&self) -> Result<FrozenList, AllocError> {
        let shared = match &self.shared {
            Some(shared) => Some(shared.clone()?),
            None => None,
        };
        Ok(FrozenList {
            shared,
            alloc: self.alloc,
        })
    }
}
