//! Trees that keep methods at numbered places, and share the branches that they have in common.
ghost use Rattle.std.specs.Prelude.{◌≡◌, ◌<◌, ◌++◌, ◌∷◌, [], ℕ, Some, IfOk, IfSome, OnOk, OnErr, length, nat_eq, if◌then◌else◌};
ghost use Rattle.resin_heap.specs.Branches.{Grown, child_for, with_child, with_method, bare, branch_of, found_at, HasChildrenBelow, IsClosed};

use crate::classes::MethodAt;
use std::alloc::{AllocError, Global};
use std::marker::Model;

// A branch of a tree: the method at place 0, and the trees of the odd places and of the even ones from 2 on, each in order.
#[derive(Clone, Copy)]
pub(crate) struct Branch {
    pub(crate) method: Option<MethodAt>,
    pub(crate) odd: Option<u32>,
    pub(crate) even: Option<u32>,
}

// A branch of a tree that keeps nothing.
fn bare() -> Branch
    ensures { result ≡ bare }
{
    Branch {
        method: None,
        odd: None,
        even: None,
    }
}

impl Branch {
    // The tree in which a place other than 0 lies.
    fn child_for(self, place: usize) -> Option<u32>
        ensures { result ≡ child_for self place }
    {
        if place % 2 == 1 { self.odd } else { self.even }
    }

    // The branch with another tree there.
    fn with_child(self, place: usize, child: u32) -> Branch
        ensures { result ≡ with_child self place child }
    {
        if place % 2 == 1 {
            Branch {
                method: self.method,
                odd: Some(child),
                even: self.even,
            }
        } else {
            Branch {
                method: self.method,
                odd: self.odd,
                even: Some(child),
            }
        }
    }

    // The branch with a method at place 0.
    fn with_method(self, method: MethodAt) -> Branch
        ensures { result ≡ with_method self method }
    {
        Branch {
            method: Some(method),
            odd: self.odd,
            even: self.even,
        }
    }
}

// The branch of a number.
fn numbered(list: &[Branch], number: u32) -> Branch
    ensures { result ≡ branch_of list.now (Some number) }
{
    match list.get(number as usize) {
        Some(branch) => *branch,
        None => bare(),
    }
}

// The branches of all trees. A tree is named by the number of its branch, and one that keeps nothing has none. Branches are never changed or taken
// out, so a tree stays what it is, and one with another method has new branches on the way to its place alone.
#[derive(Drop)]
pub(crate) struct Branches {
    list: Vec<Branch>,
}

impl Model for Branches {
    ghost use Rattle.std.specs.Prelude.{List};
    ghost use Rattle.resin_heap.specs.declared.branches.Branch.{Branch};

    ghost Value = { List Branch };

    ghost use Rattle.resin_heap.specs.Branches.{IsClosed};

    ghost view = { λ b. b.list.items };

    ghost invariant = { λ b. IsClosed b.list.items };
}

impl Clone for Branches {
    ghost use Rattle.std.specs.Prelude.{◌≡◌};

    ghost is_clone = { λ b copy. copy ≡ b };

    fn clone(&self) -> Result<Branches, AllocError> {
        Ok(Branches {
            list: self.list.clone()?,
        })
    }
}

impl Branches {
    // No branches. It takes no memory.
    pub(crate) fn new(alloc: Global) -> Branches
        ensures { result ≡ [] }
    {
        Branches {
            list: Vec::new(alloc),
        }
    }

    // The branch of a tree.
    fn branch(&self, tree: Option<u32>) -> Branch
        ensures value { result ≡ branch_of self.now tree }
        ensures closed { IsClosed self.now }
    {
        let list = self.list.as_slice();
        match tree {
            Some(number) => numbered(list, number),
            None => bare(),
        }
    }

    // The method that a tree keeps at a place.
    pub(crate) fn get(&self, tree: Option<u32>, place: usize) -> Option<MethodAt>
        ensures { result ≡ found_at self.now tree place }
    {
        let mut tree = tree;
        let mut place = place;
        while place > 0 {
            let way = self.branch(tree);
            tree = way.child_for(place);
            place = (place - 1) / 2;
        }
        let last = self.branch(tree);
        last.method
    }

    // Keeps a branch whose trees are there, and answers its number.
    fn push(&mut self, branch: Branch) -> Result<u32, AllocError>
        requires { HasChildrenBelow (length self.old) branch }
        ensures number { IfOk result (λ number. number ≡ length self.old) }
        ensures pushed { OnOk result (self.new ≡ self.old ++ branch ∷ []) }
        ensures err { OnErr result (self.new ≡ self.old) }
        ensures closed { IsClosed self.old }
    {
        let Ok(number) = u32::try_from(self.list.len()) else {
            return Err(AllocError);
        };
        self.list.push(branch)?;
        Ok(number)
    }

    // Makes a tree that keeps a method at a place, and what another one keeps everywhere else; answers the number of its branch. All other trees
    // stay what they are, and more than 4,294,967,295 branches find no memory.
    pub(crate) fn put(
        &mut self,
        tree: Option<u32>,
        place: usize,
        method: MethodAt,
    ) -> Result<u32, AllocError>
        requires { IfSome tree (λ number. number < length self.old) }
        ensures closed { IsClosed self.old }
        ensures grown { Grown self.old self.new }
        ensures within { IfOk result (λ number. number < length self.new) }
        ensures put { IfOk result (λ number. (wanted : ℕ) → found_at self.new (Some number) wanted
            ≡ (if nat_eq wanted place then Some method else found_at self.old tree wanted)) }
    {
        let own = self.branch(tree);
        if place == 0 {
            return self.push(own.with_method(method));
        }
        let child = self.put(own.child_for(place), (place - 1) / 2, method)?;
        self.push(own.with_child(place, child))
    }
}
