//! Targets while they are read.

ghost use Rattle.std.specs.Prelude.{◌≡◌, ◌+◌, [], ◌∷◌, ◌++◌, map, min, max, false, nat_lt, IfOk, OnOk, OnErr};
ghost use Rattle.resin_tree.specs.declared.expression.Expr.TheVariants as x;
ghost use Rattle.resin_grammar.specs.Places as spec;
ghost use Rattle.resin_grammar.specs.Trees as tree;

use crate::operators::Writing;
use crate::tall::{MAX_HEIGHT, Tall, above};
use resin_items::{Boxed, Items, SharedBytes};
use resin_lex::{Access, Assignment, Expr, PathStep, Target};
use std::alloc::{AllocError, Global};
use std::marker::Model;

/// A variable and the postfixes behind it, which may be written to, and the height of the expression that reads it.
#[derive(Drop)]
pub struct TallPlace {
    variable: SharedBytes,
    path: Items<PathStep>,
    height: usize,
    next: bool,
}

impl Model for TallPlace {
    ghost use Rattle.std.specs.Prelude.{◌≡◌, min};
    ghost use Rattle.std.specs.Coded.{codes};
    ghost use Rattle.resin_tree.specs.contracts.expression.PathStep as e;
    ghost use Rattle.resin_grammar.specs.Places.{Place, place_height, has_next};

    ghost Value = { Place };

    ghost coded = { Prim.hlevel (codes, e.the_row.coded) };

    ghost view = { λ t. record { variable = t.variable; path = t.path } };

    ghost invariant = { λ t. (t.height ≡ min (place_height (record { variable = t.variable; path = t.path })) 1000)
        × (t.next ≡ has_next (record { variable = t.variable; path = t.path })) };
}

impl TallPlace {
    /// A variable alone.
    pub fn new(alloc: Global, variable: SharedBytes) -> TallPlace
        ensures { result ≡ spec.place variable }
    {
        TallPlace {
            variable,
            path: Items::new(alloc),
            height: 1,
            next: false,
        }
    }

    /// Whether the target may stand to the left of a postfix or an operator.
    pub fn is_low(&self) -> bool
        ensures { result ≡ nat_lt (spec.place_height self.now) 1000 }
    {
        self.height < MAX_HEIGHT
    }

    /// How high the expression is that reads the target, up to the limit.
    pub fn height(&self) -> usize
        ensures { result ≡ min (spec.place_height self.now) 1000 }
    {
        self.height
    }

    /// Whether `[]` is among the postfixes.
    pub fn has_next(&self) -> bool
        ensures { result ≡ spec.has_next self.now }
    {
        self.next
    }

    /// `[e]` behind the target. Where memory is wanted the target is as before.
    pub fn push_index(&mut self, index: Tall) -> Result<(), AllocError>
        ensures ok { OnOk result (self.new ≡ spec.at_index self.old index) }
        ensures err { OnErr result (self.new ≡ self.old) }
    {
        let height = above(self.height, index.height());
        self.path.push(PathStep::Index(index.into_tree()))?;
        self.height = height;
        Ok(())
    }

    /// `[]` behind the target. Where memory is wanted the target is as before.
    pub fn push_next(&mut self) -> Result<(), AllocError>
        ensures ok { OnOk result (self.new ≡ spec.at_next self.old) }
        ensures err { OnErr result (self.new ≡ self.old) }
    {
        let height = above(self.height, 0);
        self.path.push(PathStep::Append)?;
        self.height = height;
        self.next = true;
        Ok(())
    }

    /// `->n` behind the target. Where memory is wanted the target is as before.
    pub fn push_property(&mut self, name: SharedBytes) -> Result<(), AllocError>
        ensures ok { OnOk result (self.new ≡ spec.at_property self.old name) }
        ensures err { OnErr result (self.new ≡ self.old) }
    {
        let height = above(self.height, 0);
        self.path.push(PathStep::Property(name))?;
        self.height = height;
        Ok(())
    }
}

/// The tree with one postfix more.
fn read_further(alloc: Global, tree: Boxed<Expr>, step: PathStep) -> Result<Boxed<Expr>, AllocError>
    ensures { IfOk result (λ e. e ≡ spec.read_further tree step) }
{
    let further = match step {
        PathStep::Index(index) => Expr::Access(Access::Index(tree, index)),
        PathStep::Property(name) => Expr::Access(Access::Property(tree, name)),
        PathStep::Append => return Ok(tree),
    };
    Ok(Boxed::new(alloc, further)?)
}

impl TallPlace {
    /// The expression that reads the target.
    #[tactic(auto, using(crate::proofs::PlaceLaws::height_read))]
    pub fn into_tall(self, alloc: Global) -> Result<Tall, AllocError>
        requires { spec.has_next self ≡ false }
        ensures { IfOk result (λ e. e ≡ spec.tree_of self) }
    {
        let TallPlace {
            variable,
            path,
            height,
            next: _,
        } = self;
        let mut tree = Boxed::new(alloc, Expr::Variable(variable))?;
        for step in path.into_vec() {
            tree = read_further(alloc, tree, step)?;
        }
        Ok(Tall::with_height(tree, height))
    }

    /// The target of an assignment.
    pub fn into_target(self) -> Target
        ensures { result ≡ spec.target_of self }
    {
        let TallPlace {
            variable,
            path,
            height: _,
            next: _,
        } = self;
        Target { variable, path }
    }
}

/// The assignment of a value to a target. A step up or down counts as `=` here.
fn assigned(writing: Writing, target: Target, value: Boxed<Expr>) -> Assignment
    ensures { x.Assignment result ≡ tree.assignment writing target value }
{
    match writing {
        Writing::Compound(op) => Assignment::Compound(op, target, value),
        Writing::CoalesceAssign => Assignment::CoalesceAssign(target, value),
        _ => Assignment::Assign(target, value),
    }
}

/// `t = e` and its kin. A step up or down counts as `=` here.
pub fn assignment(
    alloc: Global,
    writing: Writing,
    place: TallPlace,
    value: Tall,
) -> Result<Tall, AllocError>
    ensures { IfOk result (λ e. e ≡ tree.assignment writing (spec.target_of place) value) }
{
    let high = above(place.height(), value.height());
    let made = assigned(writing, place.into_target(), value.into_tree());
    Tall::boxed(alloc, Expr::Assignment(made), high)
}

/// `++t`
pub fn pre_increment(alloc: Global, place: TallPlace) -> Result<Tall, AllocError>
    ensures { IfOk result (λ e. e ≡ tree.pre_increment (spec.target_of place)) }
{
    let high = above(place.height(), 0);
    let made = Assignment::PreIncrement(place.into_target());
    Tall::boxed(alloc, Expr::Assignment(made), high)
}

/// `--t`
pub fn pre_decrement(alloc: Global, place: TallPlace) -> Result<Tall, AllocError>
    ensures { IfOk result (λ e. e ≡ tree.pre_decrement (spec.target_of place)) }
{
    let high = above(place.height(), 0);
    let made = Assignment::PreDecrement(place.into_target());
    Tall::boxed(alloc, Expr::Assignment(made), high)
}

/// `t++`
pub fn post_increment(alloc: Global, place: TallPlace) -> Result<Tall, AllocError>
    ensures { IfOk result (λ e. e ≡ tree.post_increment (spec.target_of place)) }
{
    let high = above(place.height(), 0);
    let made = Assignment::PostIncrement(place.into_target());
    Tall::boxed(alloc, Expr::Assignment(made), high)
}

/// `t--`
pub fn post_decrement(alloc: Global, place: TallPlace) -> Result<Tall, AllocError>
    ensures { IfOk result (λ e. e ≡ tree.post_decrement (spec.target_of place)) }
{
    let high = above(place.height(), 0);
    let made = Assignment::PostDecrement(place.into_target());
    Tall::boxed(alloc, Expr::Assignment(made), high)
}

/// What an operand is while it is read.
#[derive(Drop)]
pub enum Operand {
    /// A target, which may be written to.
    Target(TallPlace),
    /// A tree that postfixes may follow.
    Tree(Tall),
    /// A tree that no postfix may follow.
    Closed(Tall),
}
