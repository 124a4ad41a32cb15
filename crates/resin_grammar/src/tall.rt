//! Trees with their heights beside them.

ghost use Rattle.std.specs.Prelude.{◌≡◌, ◌+◌, [], ◌∷◌, ◌++◌, map, min, max, nat_lt, IfOk, OnOk, OnErr, Some, None};
ghost use Rattle.std.specs.Option.{option_map, unwrap_or};
ghost use Rattle.resin_grammar.specs.Heights.{height, highest, item_height};
ghost use Rattle.resin_grammar.specs.Trees as tree;

use crate::operators::Operator;
use resin_items::{Boxed, Items, SharedBytes};
use resin_lex::{
    Access, ArrayItem, Call, ConstantName, Expr, Import, Literal, Operation, Test, Unary,
};
use std::alloc::{AllocError, Global};
use std::marker::Model;

/// A tree of this height may not stand to the left of an operator or a postfix.
pub const MAX_HEIGHT: usize = 1000;

/// A tree, and its height up to the limit.
#[derive(Drop)]
pub struct Tall {
    tree: Boxed<Expr>,
    height: usize,
}

impl Model for Tall {
    ghost use Rattle.std.specs.Prelude.{◌≡◌, min};
    ghost use Rattle.std.specs.Coded.{codes};
    ghost use Rattle.resin_tree.specs.declared.expression.Expr.{Expr};
    ghost use Rattle.resin_tree.specs.contracts.expression.Expr as e;
    ghost use Rattle.resin_grammar.specs.Heights.{height as height_of};

    ghost Value = { Expr };

    ghost coded = { Prim.hlevel (codes, e.the_row.coded) };

    ghost view = { λ t. t.tree };

    ghost invariant = { λ t. t.height ≡ min (height_of t.tree) 1000 };
}

/// One more than the higher of two heights, up to the limit.
pub fn above(a: usize, b: usize) -> usize
    ensures { result ≡ min (max a b + 1) 1000 }
{
    a.max(b).min(MAX_HEIGHT - 1) + 1
}

impl Tall {
    /// A tree with this height.
    pub fn with_height(tree: Boxed<Expr>, height_of_tree: usize) -> Tall
        requires { height_of_tree ≡ min (height tree) 1000 }
        ensures { result ≡ tree }
    {
        Tall {
            tree,
            height: height_of_tree,
        }
    }

    /// A tree of this height, in a box.
    pub fn boxed(alloc: Global, tree: Expr, height_of_tree: usize) -> Result<Tall, AllocError>
        requires { height_of_tree ≡ min (height tree) 1000 }
        ensures { IfOk result (λ t. t ≡ tree) }
    {
        Ok(Tall {
            tree: Boxed::new(alloc, tree)?,
            height: height_of_tree,
        })
    }

    /// Whether the tree may stand to the left of an operator or a postfix.
    pub fn is_low(&self) -> bool
        ensures { result ≡ nat_lt (height self.now) 1000 }
    {
        self.height < MAX_HEIGHT
    }

    /// The height, up to the limit.
    pub fn height(&self) -> usize
        ensures { result ≡ min (height self.now) 1000 }
    {
        self.height
    }

    /// The tree alone.
    pub fn into_tree(self) -> Boxed<Expr>
        ensures { result ≡ self }
    {
        let Tall { tree, height: _ } = self;
        tree
    }

    /// An integer.
    #[tactic(auto, using(crate::proofs::HeightLaws::height_literal))]
    pub fn int(alloc: Global, n: i64) -> Result<Tall, AllocError>
        ensures { IfOk result (λ e. e ≡ tree.int n) }
    {
        Tall::boxed(alloc, Expr::Literal(Literal::Int(n)), 1)
    }

    /// A text without interpolation, or a stretch of one with it.
    #[tactic(auto, using(crate::proofs::HeightLaws::height_literal))]
    pub fn text(alloc: Global, bytes: SharedBytes) -> Result<Tall, AllocError>
        ensures { IfOk result (λ e. e ≡ tree.text bytes) }
    {
        Tall::boxed(alloc, Expr::Literal(Literal::Text(bytes)), 1)
    }

    /// A constant, by its name.
    #[tactic(auto, using(crate::proofs::HeightLaws::height_literal))]
    pub fn constant(alloc: Global, name: ConstantName) -> Result<Tall, AllocError>
        ensures { IfOk result (λ e. e ≡ tree.constant name) }
    {
        Tall::boxed(alloc, Expr::Literal(Literal::Constant(name)), 1)
    }

    /// A variable, by its name.
    #[tactic(auto, using(crate::proofs::HeightLaws::height_variable))]
    pub fn variable(alloc: Global, name: SharedBytes) -> Result<Tall, AllocError>
        ensures { IfOk result (λ e. e ≡ tree.variable name) }
    {
        Tall::boxed(alloc, Expr::Variable(name), 1)
    }

    /// `a[i]`
    #[tactic(auto, using(crate::proofs::HeightLaws::height_index))]
    pub fn index(alloc: Global, array: Tall, index: Tall) -> Result<Tall, AllocError>
        ensures { IfOk result (λ e. e ≡ tree.index array index) }
    {
        let high = above(array.height, index.height);
        Tall::boxed(
            alloc,
            Expr::Access(Access::Index(array.tree, index.tree)),
            high,
        )
    }

    /// `a->p`
    #[tactic(auto, using(crate::proofs::HeightLaws::height_property))]
    pub fn property(alloc: Global, object: Tall, name: SharedBytes) -> Result<Tall, AllocError>
        ensures { IfOk result (λ e. e ≡ tree.property object name) }
    {
        let high = above(object.height, 0);
        Tall::boxed(
            alloc,
            Expr::Access(Access::Property(object.tree, name)),
            high,
        )
    }

    /// An operator before its operand.
    #[tactic(auto, using(crate::proofs::HeightLaws::height_unary))]
    pub fn unary(alloc: Global, op: Unary, operand: Tall) -> Result<Tall, AllocError>
        ensures { IfOk result (λ e. e ≡ tree.unary op operand) }
    {
        let high = above(operand.height, 0);
        Tall::boxed(
            alloc,
            Expr::Operation(Operation::Unary(op, operand.tree)),
            high,
        )
    }

    /// `e instanceof C`
    #[tactic(auto, using(crate::proofs::HeightLaws::height_instance_of))]
    pub fn instance_of(alloc: Global, operand: Tall, class: SharedBytes) -> Result<Tall, AllocError>
        ensures { IfOk result (λ e. e ≡ tree.instance_of operand class) }
    {
        let high = above(operand.height, 0);
        Tall::boxed(
            alloc,
            Expr::Operation(Operation::InstanceOf(operand.tree, class)),
            high,
        )
    }

    /// An operator between two operands.
    #[tactic(auto, using(crate::proofs::HeightLaws::height_combine, crate::proofs::HeightLaws::height_compare, crate::proofs::HeightLaws::height_and, crate::proofs::HeightLaws::height_or))]
    pub fn binary(alloc: Global, op: Operator, left: Tall, right: Tall) -> Result<Tall, AllocError>
        ensures { IfOk result (λ e. e ≡ tree.binary op left right) }
    {
        let high = above(left.height, right.height);
        let tree = match op {
            Operator::Combine(op) => Expr::Operation(Operation::Combine(op, left.tree, right.tree)),
            Operator::Compare(op) => Expr::Operation(Operation::Compare(op, left.tree, right.tree)),
            Operator::And => Expr::Test(Test::And(left.tree, right.tree)),
            Operator::Or => Expr::Test(Test::Or(left.tree, right.tree)),
        };
        Tall::boxed(alloc, tree, high)
    }

    /// `a ?? b`
    #[tactic(auto, using(crate::proofs::HeightLaws::height_coalesce))]
    pub fn coalesce(alloc: Global, left: Tall, right: Tall) -> Result<Tall, AllocError>
        ensures { IfOk result (λ e. e ≡ tree.coalesce left right) }
    {
        let high = above(left.height, right.height);
        Tall::boxed(
            alloc,
            Expr::Test(Test::Coalesce(left.tree, right.tree)),
            high,
        )
    }

    /// `c ? a : b`
    #[tactic(auto, using(crate::proofs::HeightLaws::height_choice))]
    pub fn choice(alloc: Global, test: Tall, a: Tall, b: Tall) -> Result<Tall, AllocError>
        ensures { IfOk result (λ e. e ≡ tree.choice test (Some a) b) }
    {
        let high = above(test.height, a.height.max(b.height));
        Tall::boxed(
            alloc,
            Expr::Test(Test::Choice(test.tree, a.tree, b.tree)),
            high,
        )
    }

    /// `c ?: b`
    #[tactic(auto, using(crate::proofs::HeightLaws::height_either))]
    pub fn either(alloc: Global, test: Tall, b: Tall) -> Result<Tall, AllocError>
        ensures { IfOk result (λ e. e ≡ tree.choice test None b) }
    {
        let high = above(test.height, b.height);
        Tall::boxed(alloc, Expr::Test(Test::Either(test.tree, b.tree)), high)
    }

    /// `empty(e)`
    #[tactic(auto, using(crate::proofs::HeightLaws::height_empty))]
    pub fn empty(alloc: Global, operand: Tall) -> Result<Tall, AllocError>
        ensures { IfOk result (λ e. e ≡ tree.empty operand) }
    {
        let high = above(operand.height, 0);
        Tall::boxed(alloc, Expr::Test(Test::Empty(operand.tree)), high)
    }

    /// `isset(t, ..)`
    #[tactic(auto, using(crate::proofs::HeightLaws::height_isset))]
    pub fn isset(alloc: Global, operands: Trees) -> Result<Tall, AllocError>
        ensures { IfOk result (λ e. e ≡ tree.isset operands) }
    {
        let high = above(operands.height, 0);
        Tall::boxed(alloc, Expr::Test(Test::Isset(operands.items)), high)
    }

    /// A text with interpolation.
    #[tactic(auto, using(crate::proofs::HeightLaws::height_join))]
    pub fn join(alloc: Global, parts: Trees) -> Result<Tall, AllocError>
        ensures { IfOk result (λ e. e ≡ tree.join parts) }
    {
        let high = above(parts.height, 0);
        Tall::boxed(alloc, Expr::Join(parts.items), high)
    }

    /// An array.
    #[tactic(auto, using(crate::proofs::HeightLaws::height_array))]
    pub fn array(alloc: Global, items: Pairs) -> Result<Tall, AllocError>
        ensures { IfOk result (λ e. e ≡ tree.array items) }
    {
        let high = above(items.height, 0);
        Tall::boxed(alloc, Expr::Array(items.items), high)
    }

    /// `f(..)`
    #[tactic(auto, using(crate::proofs::HeightLaws::height_function))]
    pub fn function_call(
        alloc: Global,
        name: SharedBytes,
        arguments: Trees,
    ) -> Result<Tall, AllocError>
        ensures { IfOk result (λ e. e ≡ tree.function_call name arguments) }
    {
        let high = above(arguments.height, 0);
        Tall::boxed(
            alloc,
            Expr::Call(Call::Function(name, arguments.items)),
            high,
        )
    }

    /// `a->m(..)`
    #[tactic(auto, using(crate::proofs::HeightLaws::height_method))]
    pub fn method_call(
        alloc: Global,
        object: Tall,
        name: SharedBytes,
        arguments: Trees,
    ) -> Result<Tall, AllocError>
        ensures { IfOk result (λ e. e ≡ tree.method_call object name arguments) }
    {
        let high = above(object.height, arguments.height);
        Tall::boxed(
            alloc,
            Expr::Call(Call::Method(object.tree, name, arguments.items)),
            high,
        )
    }

    /// `parent::m(..)`
    #[tactic(auto, using(crate::proofs::HeightLaws::height_parent))]
    pub fn parent_call(
        alloc: Global,
        name: SharedBytes,
        arguments: Trees,
    ) -> Result<Tall, AllocError>
        ensures { IfOk result (λ e. e ≡ tree.parent_call name arguments) }
    {
        let high = above(arguments.height, 0);
        Tall::boxed(alloc, Expr::Call(Call::Parent(name, arguments.items)), high)
    }

    /// `new C(..)`
    #[tactic(auto, using(crate::proofs::HeightLaws::height_new))]
    pub fn new_object(
        alloc: Global,
        class: SharedBytes,
        arguments: Trees,
    ) -> Result<Tall, AllocError>
        ensures { IfOk result (λ e. e ≡ tree.new_object class arguments) }
    {
        let high = above(arguments.height, 0);
        Tall::boxed(alloc, Expr::Call(Call::New(class, arguments.items)), high)
    }

    /// `include e` and its kin.
    #[tactic(auto, using(crate::proofs::HeightLaws::height_import))]
    pub fn import(alloc: Global, kind: Import, operand: Tall) -> Result<Tall, AllocError>
        ensures { IfOk result (λ e. e ≡ tree.import kind operand) }
    {
        let high = above(operand.height, 0);
        Tall::boxed(alloc, Expr::Call(Call::Import(kind, operand.tree)), high)
    }
}

/// Trees, and the height of the highest up to the limit.
#[derive(Drop)]
pub struct Trees {
    items: Items<Expr>,
    height: usize,
}

impl Model for Trees {
    ghost use Rattle.std.specs.Prelude.{◌≡◌, List, min, map};
    ghost use Rattle.std.specs.Coded.{codes, coded_list};
    ghost use Rattle.resin_tree.specs.declared.expression.Expr.{Expr};
    ghost use Rattle.resin_tree.specs.contracts.expression.Expr as e;
    ghost use Rattle.resin_grammar.specs.Heights.{height as height_of, highest};

    ghost Value = { List Expr };

    ghost coded = { coded_list (Prim.hlevel (codes, e.the_row.coded)) };

    ghost view = { λ t. t.items };

    ghost invariant = { λ t. t.height ≡ min (highest (map height_of t.items)) 1000 };
}

impl Trees {
    /// No tree.
    pub fn new(alloc: Global) -> Trees
        ensures { result ≡ [] }
    {
        Trees {
            items: Items::new(alloc),
            height: 0,
        }
    }

    /// Puts a tree last. Where memory is wanted the trees are as before.
    #[tactic(auto, using(crate::proofs::HeightLaws::highest_of_push))]
    pub fn push(&mut self, tree: Tall) -> Result<(), AllocError>
        ensures ok { OnOk result (self.new ≡ self.old ++ tree ∷ []) }
        ensures err { OnErr result (self.new ≡ self.old) }
    {
        let height = self.height.max(tree.height);
        self.items.push(tree.tree.into_inner())?;
        self.height = height;
        Ok(())
    }

    /// The trees alone.
    pub fn into_items(self) -> Items<Expr>
        ensures { result ≡ self }
    {
        let Trees { items, height: _ } = self;
        items
    }
}

/// Items of an array, and the height of the highest up to the limit.
#[derive(Drop)]
pub struct Pairs {
    items: Items<ArrayItem>,
    height: usize,
}

impl Model for Pairs {
    ghost use Rattle.std.specs.Prelude.{◌≡◌, List, min, map};
    ghost use Rattle.std.specs.Coded.{codes, coded_list};
    ghost use Rattle.resin_tree.specs.declared.expression.ArrayItem.{ArrayItem};
    ghost use Rattle.resin_tree.specs.contracts.expression.ArrayItem as e;
    ghost use Rattle.resin_grammar.specs.Heights.{item_height, highest};

    ghost Value = { List ArrayItem };

    ghost coded = { coded_list (Prim.hlevel (codes, e.the_row.coded)) };

    ghost view = { λ t. t.items };

    ghost invariant = { λ t. t.height ≡ min (highest (map item_height t.items)) 1000 };
}

impl Pairs {
    /// No item.
    pub fn new(alloc: Global) -> Pairs
        ensures { result ≡ [] }
    {
        Pairs {
            items: Items::new(alloc),
            height: 0,
        }
    }

    /// Puts an item without a key last. Where memory is wanted the items are as before.
    #[tactic(auto, using(crate::proofs::HeightLaws::highest_of_value))]
    pub fn push_value(&mut self, value: Tall) -> Result<(), AllocError>
        ensures ok { OnOk result (self.new ≡ self.old ++ tree.item None value ∷ []) }
        ensures err { OnErr result (self.new ≡ self.old) }
    {
        let height = self.height.max(value.height);
        self.items.push(ArrayItem {
            key: None,
            value: value.tree,
        })?;
        self.height = height;
        Ok(())
    }

    /// Puts an item with a key last. Where memory is wanted the items are as before.
    #[tactic(auto, using(crate::proofs::HeightLaws::highest_of_pair))]
    pub fn push_pair(&mut self, key: Tall, value: Tall) -> Result<(), AllocError>
        ensures ok { OnOk result (self.new ≡ self.old ++ tree.item (Some key) value ∷ []) }
        ensures err { OnErr result (self.new ≡ self.old) }
    {
        let height = self.height.max(key.height.max(value.height));
        self.items.push(ArrayItem {
            key: Some(key.tree),
            value: value.tree,
        })?;
        self.height = height;
        Ok(())
    }
}
